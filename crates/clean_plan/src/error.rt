//! Why there is no plan.
use gitbase_core::OutOfMemory;
use thiserror::Error;
use worktree_report::ReportError;

/// Why there is no plan.
#[derive(Debug, Drop, Error)]
pub enum CleanError {
    /// There is no report to plan by; never [`ReportError::OutOfMemory`].
    #[error("Report")]
    Report(ReportError),
    /// The worktree failed when it was asked for the real path of its root, which it counted.
    #[error("Fault")]
    Fault,
    /// Want of memory.
    #[error("OutOfMemory")]
    OutOfMemory,
}

impl From<OutOfMemory> for CleanError {
    ghost use Rattle.std.specs.Prelude.{◌≡◌};
    ghost use Rattle.clean_plan.specs.declared.error.CleanError.TheVariants as errors;

    ghost from_gives = { λ _ error. error ≡ errors.OutOfMemory };

    fn from(_refused: OutOfMemory) -> CleanError {
        CleanError::OutOfMemory
    }
}

impl From<ReportError> for CleanError {
    ghost use Rattle.std.specs.Prelude.{◌≡◌};
    ghost use Rattle.clean_plan.specs.Refusals.{clean_error_of_report_error};

    ghost from_gives = { λ refused error. error ≡ clean_error_of_report_error refused };

    fn from(refused: ReportError) -> CleanError {
        match refused {
            ReportError::OutOfMemory => CleanError::OutOfMemory,
            refused => CleanError::Report(refused),
        }
    }
}
