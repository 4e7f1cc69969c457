//! Why the states are not known.
use gitbase_core::{OutOfMemory, PathText};
use thiserror::Error;
use worktree_report::ReportError;

/// Why the states of the index paths are not known.
#[derive(Debug, Drop, PartialEq, Eq, Error)]
pub enum StatesError {
    /// The worktree failed at this path, which begins with the root.
    #[error("Fault")]
    Fault { path: PathText },
    /// Want of memory.
    #[error("OutOfMemory")]
    OutOfMemory,
}

impl From<OutOfMemory> for StatesError {
    ghost use Rattle.std.specs.Prelude.{◌≡◌};
    ghost use Rattle.index_status.specs.declared.error.StatesError.TheVariants as errors;

    ghost from_gives = { λ _ e. e ≡ errors.OutOfMemory };

    fn from(_refused: OutOfMemory) -> StatesError {
        StatesError::OutOfMemory
    }
}

/// Why there is no status of a work tree.
#[derive(Debug, Drop, Error)]
pub enum StatusError {
    /// The report was refused; never [`ReportError::OutOfMemory`].
    #[error("Report")]
    Report(ReportError),
    /// The worktree failed at this path, which begins with the root, while index paths were looked
    /// at.
    #[error("Fault")]
    Fault { path: PathText },
    /// Want of memory.
    #[error("OutOfMemory")]
    OutOfMemory,
}

impl From<ReportError> for StatusError {
    ghost use Rattle.std.specs.Prelude.{◌≡◌};
    ghost use Rattle.index_status.specs.Status.{status_error_of_report_error};

    ghost from_gives = { λ refused error. error ≡ status_error_of_report_error refused };

    fn from(refused: ReportError) -> StatusError {
        match refused {
            ReportError::OutOfMemory => StatusError::OutOfMemory,
            refused => StatusError::Report(refused),
        }
    }
}

impl From<StatesError> for StatusError {
    ghost use Rattle.std.specs.Prelude.{◌≡◌};
    ghost use Rattle.index_status.specs.Status.{status_error_of_states_error};

    ghost from_gives = { λ refused error. error ≡ status_error_of_states_error refused };

    fn from(refused: StatesError) -> StatusError {
        match refused {
            StatesError::Fault { path } => StatusError::Fault { path },
            StatesError::OutOfMemory => StatusError::OutOfMemory,
        }
    }
}
