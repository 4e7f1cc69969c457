//! Why the configurations of a repository are not read.
use gitbase_core::{Bytes, OutOfMemory, PathText};
use thiserror::Error;
use worktree_fs::ReadError;

/// Why the repository, its configurations, or the rules files that they name, are not read. `path`
/// is the file in which the fault is; an optional one is told of each value but that of a variable
/// of the environment and of `safe.directory`.
#[derive(Debug, Drop, PartialEq, Eq, Error)]
pub enum FilesError {
    /// A line of the file is outside the grammar of git-config(1).
    #[error("Config")]
    Config {
        path: PathText,
        line: usize,
    },
    /// A `path` of an include in the file has no value.
    #[error("Include")]
    Include {
        path: PathText,
    },
    /// What stands at this path is no file and not the null device, or is a link without an end.
    #[error("NoFile")]
    NoFile {
        path: PathText,
    },
    /// A path of an include in the file begins with `~`, and there is no home; or with `~USER` or
    /// `%(prefix)/`, which are not expanded. Or a condition on the git directory begins with one of
    /// these two, or with `~`, where the home is empty.
    #[error("Home")]
    Home {
        path: PathText,
    },
    /// This value, the path that a key names, begins with `~`, and there is no home; or with
    /// `~USER` or `%(prefix)/`, which are not expanded.
    #[error("UserDir")]
    UserDir {
        path: Option<PathText>,
        value: Bytes,
    },
    /// The file has an include with the condition `hasconfig:remote.*.url:`, which is not read.
    #[error("Condition")]
    Condition {
        path: PathText,
    },
    /// The file is there, and is included behind ten others.
    #[error("Depth")]
    Depth {
        path: PathText,
    },
    /// The value of this key, or of this variable of the environment, cannot be read.
    #[error("Value")]
    Value {
        path: Option<PathText>,
        key: Bytes,
    },
    /// This variable of the environment points git elsewhere.
    #[error("Elsewhere")]
    Elsewhere {
        name: Bytes,
    },
    /// The repository of the work tree at `path` belongs to another user, and no `safe.directory`
    /// names it.
    #[error("Foreign")]
    Foreign {
        path: PathText,
    },
    /// The worktree failed, or the owners, and counted that.
    #[error("Fault")]
    Fault,
    /// Want of memory.
    #[error("OutOfMemory")]
    OutOfMemory,
}

impl From<OutOfMemory> for FilesError {
    ghost use Rattle.std.specs.Prelude.{◌≡◌};
    ghost use Rattle.git_config_files.specs.declared.error.FilesError.TheVariants as errors;

    ghost from_gives = { λ _ e. e ≡ errors.OutOfMemory };

    fn from(_refused: OutOfMemory) -> FilesError {
        FilesError::OutOfMemory
    }
}

impl From<ReadError> for FilesError {
    ghost use Rattle.std.specs.Prelude.{◌≡◌};
    ghost use Rattle.git_config_files.specs.Answers.{files_error_of_read_error};

    ghost from_gives = { λ refused e. e ≡ files_error_of_read_error refused };

    fn from(refused: ReadError) -> FilesError {
        match refused {
            ReadError::Fault => FilesError::Fault,
            ReadError::OutOfMemory => FilesError::OutOfMemory,
        }
    }
}
