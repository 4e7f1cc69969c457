//! Why no setup is found.
use git_config_files::FilesError;
use git_index::IndexFileError;
use git_places::PlacesError;
use gitbase_core::{Bytes, IndexError, OutOfMemory, PathText};
use thiserror::Error;
use worktree_fs::ReadError;

/// Why no setup is found for the current directory: the first refusal, in the order of the steps of
/// [`crate::find_and_read_setup`].
#[derive(Debug, Drop, PartialEq, Eq, Error)]
pub enum GitRefusal {
    /// This variable of the environment points git elsewhere.
    #[error("Elsewhere")]
    Elsewhere {
        name: Bytes,
    },
    /// There is no work tree, or its repository is not read here. Never a fault, and never want of
    /// memory.
    #[error("Places")]
    Places(PlacesError),
    /// The repository of the work tree at `path` belongs to another user, and no `safe.directory`
    /// names it.
    #[error("Foreign")]
    Foreign {
        path: PathText,
    },
    /// What stands at `path`, in the place of the index, is no file.
    #[error("IndexNode")]
    IndexNode {
        path: PathText,
    },
    /// The index file at `path` is outside its grammar. Never for want of memory.
    #[error("IndexFile")]
    IndexFile {
        path: PathText,
        error: IndexFileError,
    },
    /// An entry of the index file at `path`, counted from 0, breaks a rule.
    #[error("IndexEntry")]
    IndexEntry {
        path: PathText,
        error: IndexError,
    },
    /// A configuration, or a rules file that one names, is not read. Never a fault, never want of
    /// memory, and none of those that have a variant here.
    #[error("Files")]
    Files(FilesError),
    /// The value of this key of the configuration, in the file at `path`, is no boolean.
    #[error("Boolean")]
    Boolean {
        path: Option<PathText>,
        key: Bytes,
    },
    /// The index has one entry for all that is beneath this directory, and something is in its
    /// place.
    #[error("SparseDirectory")]
    SparseDirectory {
        path: PathText,
    },
    /// The current directory, `directory`, is not in the work tree, whose top is `root`, and paths
    /// are asked for, or the directory itself is meant where none are.
    #[error("OutsideRoot")]
    OutsideRoot {
        directory: PathText,
        root: PathText,
    },
    /// This text is no path spec.
    #[error("PathSpec")]
    PathSpec {
        text: Bytes,
    },
    /// The path of this path spec leads out of the work tree.
    #[error("OutsidePath")]
    OutsidePath {
        text: Bytes,
    },
    /// The path of this path spec is from a directory of the work tree, `prefix`, whose bytes would
    /// mean something else in front of it.
    #[error("Prefix")]
    Prefix {
        text: Bytes,
        prefix: Bytes,
    },
    /// Paths are to be deleted, names compare without regard to case, and there is a submodule, at
    /// `path`.
    #[error("SubmoduleCase")]
    SubmoduleCase {
        path: PathText,
    },
    /// The worktree failed, or the owners, and counted that.
    #[error("Fault")]
    Fault,
    /// Want of memory.
    #[error("OutOfMemory")]
    OutOfMemory,
}

impl From<OutOfMemory> for GitRefusal {
    ghost use Rattle.std.specs.Prelude.{◌≡◌};
    ghost use Rattle.git_setup.specs.declared.error.GitRefusal.TheVariants as errors;

    ghost from_gives = { λ _ e. e ≡ errors.OutOfMemory };

    fn from(_refused: OutOfMemory) -> GitRefusal {
        GitRefusal::OutOfMemory
    }
}

impl From<ReadError> for GitRefusal {
    ghost use Rattle.std.specs.Prelude.{◌≡◌};
    ghost use Rattle.git_setup.specs.Refusals.{git_refusal_of_read_error};

    ghost from_gives = { λ refused e. e ≡ git_refusal_of_read_error refused };

    fn from(refused: ReadError) -> GitRefusal {
        match refused {
            ReadError::Fault => GitRefusal::Fault,
            ReadError::OutOfMemory => GitRefusal::OutOfMemory,
        }
    }
}

impl From<PlacesError> for GitRefusal {
    ghost use Rattle.std.specs.Prelude.{◌≡◌};
    ghost use Rattle.git_setup.specs.Refusals.{git_refusal_of_places_error};

    ghost from_gives = { λ refused e. e ≡ git_refusal_of_places_error refused };

    fn from(refused: PlacesError) -> GitRefusal {
        match refused {
            PlacesError::Fault => GitRefusal::Fault,
            PlacesError::OutOfMemory => GitRefusal::OutOfMemory,
            refused => GitRefusal::Places(refused),
        }
    }
}

impl From<FilesError> for GitRefusal {
    ghost use Rattle.std.specs.Prelude.{◌≡◌};
    ghost use Rattle.git_setup.specs.Refusals.{git_refusal_of_files_error};

    ghost from_gives = { λ refused e. e ≡ git_refusal_of_files_error refused };

    fn from(refused: FilesError) -> GitRefusal {
        match refused {
            FilesError::Elsewhere { name } => GitRefusal::Elsewhere { name },
            FilesError::Foreign { path } => GitRefusal::Foreign { path },
            FilesError::Fault => GitRefusal::Fault,
            FilesError::OutOfMemory => GitRefusal::OutOfMemory,
            refused => GitRefusal::Files(refused),
        }
    }
}
