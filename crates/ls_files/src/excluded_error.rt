//! Why what rules exclude of an index is not listed.
ghost use Rattle.std.specs.Prelude.{◌≡◌};
ghost use Rattle.ls_files.specs.declared.excluded_error.ExcludedError.TheVariants.{OutOfMemory as no_memory};

use gitbase_core::OutOfMemory;
use thiserror::Error;
use worktree_fs::ReadError;

/// Why what rules exclude of an index is not listed.
#[derive(Clone, Copy, Debug, PartialEq, Eq, Error)]
pub enum ExcludedError {
    /// A rules file above an entry is not read.
    #[error("Unread")]
    Unread,
    /// The worktree failed, and counted it.
    #[error("Fault")]
    Fault,
    /// Want of memory.
    #[error("OutOfMemory")]
    OutOfMemory,
}

impl From<OutOfMemory> for ExcludedError {
    ghost from_gives = { λ _ e. e ≡ no_memory };

    fn from(_refused: OutOfMemory) -> ExcludedError {
        ExcludedError::OutOfMemory
    }
}

impl From<ReadError> for ExcludedError {
    ghost use Rattle.ls_files.specs.Finds.{excluded_error_of_read_error};

    ghost from_gives = { λ refused e. e ≡ excluded_error_of_read_error refused };

    fn from(refused: ReadError) -> ExcludedError {
        match refused {
            ReadError::Fault => ExcludedError::Fault,
            ReadError::OutOfMemory => ExcludedError::OutOfMemory,
        }
    }
}
