//! Why what changed is not listed.
ghost use Rattle.std.specs.Prelude.{◌≡◌};
ghost use Rattle.ls_files.specs.declared.changed_error.ChangedError.TheVariants.{OutOfMemory as no_memory};

use diff_files::Unsupported;
use gitbase_core::OutOfMemory;
use thiserror::Error;
use worktree_fs::ReadError;

/// Why what changed of an index is not listed.
#[derive(Clone, Copy, Debug, PartialEq, Eq, Error)]
pub enum ChangedError {
    /// What stands at a path has a form that is not answered.
    #[error("Unsupported")]
    Unsupported(Unsupported),
    /// The worktree failed, or what is asked for stats did, and counted it.
    #[error("Fault")]
    Fault,
    /// Want of memory.
    #[error("OutOfMemory")]
    OutOfMemory,
}

impl From<OutOfMemory> for ChangedError {
    ghost from_gives = { λ _ e. e ≡ no_memory };

    fn from(_refused: OutOfMemory) -> ChangedError {
        ChangedError::OutOfMemory
    }
}

impl From<ReadError> for ChangedError {
    ghost use Rattle.ls_files.specs.ChangedErrors.{changed_error_of_read_error};

    ghost from_gives = { λ refused e. e ≡ changed_error_of_read_error refused };

    fn from(refused: ReadError) -> ChangedError {
        match refused {
            ReadError::Fault => ChangedError::Fault,
            ReadError::OutOfMemory => ChangedError::OutOfMemory,
        }
    }
}
