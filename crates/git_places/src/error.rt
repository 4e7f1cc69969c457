//! Why no work tree is found.
use gitbase_core::{Bytes, OutOfMemory, PathText};
use thiserror::Error;
use worktree_fs::ReadError;

/// Why no work tree is found, or why it is not read. An optional `path` is that of the
/// configuration in which the fault is; none is told of a variable of the environment.
#[derive(Debug, Drop, PartialEq, Eq, Error)]
pub enum PlacesError {
    /// Neither the directory nor one above it, up to a ceiling, is the top of a work tree.
    #[error("NoRepository")]
    NoRepository,
    /// The same, up to the border of the file system: the directory at `path`, above those that
    /// were looked at, lies on another one.
    #[error("Border")]
    Border {
        path: PathText,
    },
    /// Nothing is at `path`, the directory in which the search begins.
    #[error("NoDirectory")]
    NoDirectory {
        path: PathText,
    },
    /// The directory at `path` is a git directory itself, and has no work tree here.
    #[error("Bare")]
    Bare {
        path: PathText,
    },
    /// The file `.git` at `path` has no line `gitdir: PATH`.
    #[error("GitFileForm")]
    GitFileForm {
        path: PathText,
    },
    /// A file `.git` names `path`, and that is no git directory.
    #[error("GitFileTarget")]
    GitFileTarget {
        path: PathText,
    },
    /// Git and the walk would not agree on whether the directory with the `HEAD` at `path` is a git
    /// directory, or whether they would is not known.
    #[error("OddHead")]
    OddHead {
        path: PathText,
    },
    /// What is at `path`, a `commondir`, is an empty file, no file, or names no directory.
    #[error("CommonDir")]
    CommonDir {
        path: PathText,
    },
    /// `core.repositoryFormatVersion` has this value, which is neither 0 nor 1.
    #[error("Version")]
    Version {
        path: Option<PathText>,
        value: Bytes,
    },
    /// The repository's format asks for this key behind `extensions.`, with its subsection, which
    /// is not known.
    #[error("Extension")]
    Extension {
        path: Option<PathText>,
        key: Bytes,
    },
    /// The ids of the repository are of SHA-256.
    #[error("Sha256")]
    Sha256 {
        path: Option<PathText>,
    },
    /// The value of this key of the repository's configuration, as `core.bare` is one, or of this
    /// variable of the environment, cannot be read.
    #[error("Value")]
    Value {
        path: Option<PathText>,
        key: Bytes,
    },
    /// The configuration at `path` has a line outside the grammar of git-config(1).
    #[error("Config")]
    Config {
        path: PathText,
        line: usize,
    },
    /// No directory is at this path, which `core.worktree` names.
    #[error("NoWorkTree")]
    NoWorkTree {
        path: PathText,
    },
    /// The worktree failed, or the owners, and counted that.
    #[error("Fault")]
    Fault,
    /// Want of memory.
    #[error("OutOfMemory")]
    OutOfMemory,
}

impl From<OutOfMemory> for PlacesError {
    ghost use Rattle.std.specs.Prelude.{◌≡◌};
    ghost use Rattle.git_places.specs.declared.error.PlacesError.TheVariants as errors;

    ghost from_gives = { λ _ e. e ≡ errors.OutOfMemory };

    fn from(_refused: OutOfMemory) -> PlacesError {
        PlacesError::OutOfMemory
    }
}

impl From<ReadError> for PlacesError {
    ghost use Rattle.std.specs.Prelude.{◌≡◌};
    ghost use Rattle.git_places.specs.Answers.{places_error_of_read_error};

    ghost from_gives = { λ refused e. e ≡ places_error_of_read_error refused };

    fn from(refused: ReadError) -> PlacesError {
        match refused {
            ReadError::Fault => PlacesError::Fault,
            ReadError::OutOfMemory => PlacesError::OutOfMemory,
        }
    }
}
