//! Why there is no report.
use dir_classify as walk;
use gitbase_core::OutOfMemory;
use thiserror::Error;
use worktree_fs::ReadError;

/// Why there is no report of a work tree.
#[derive(Debug, Drop, Error)]
pub enum ReportError {
    /// A configuration has a line outside the grammar of git-config(1).
    #[error("Config")]
    Config {
        /// Its place among the configurations of the setup, counted from 1.
        at: usize,
        /// Its first such line, counted from 1.
        line: usize,
    },
    /// `.gitmodules` has one.
    #[error("Modules")]
    Modules {
        /// The first such line, counted from 1.
        line: usize,
    },
    /// A value of `submodule.active` is no path spec, or one that leads out of the work tree.
    #[error("ActiveSpec")]
    ActiveSpec {
        /// The first such value, counted from 1.
        at: usize,
    },
    /// A configuration or `.gitmodules` could not be read, as the worktree failed and counted it.
    #[error("ReadFault")]
    ReadFault,
    /// The walk was refused, not for want of memory.
    #[error("Walk")]
    Walk(walk::Error),
    /// Want of memory.
    #[error("OutOfMemory")]
    OutOfMemory,
}

impl From<OutOfMemory> for ReportError {
    ghost use Rattle.std.specs.Prelude.{◌≡◌};
    ghost use Rattle.worktree_report.specs.declared.error.ReportError.TheVariants as errors;

    ghost from_gives = { λ _ error. error ≡ errors.OutOfMemory };

    fn from(_refused: OutOfMemory) -> ReportError {
        ReportError::OutOfMemory
    }
}

impl From<ReadError> for ReportError {
    ghost use Rattle.std.specs.Prelude.{◌≡◌};
    ghost use Rattle.worktree_report.specs.Loads.{report_error_of_read_error};

    ghost from_gives = { λ refused error. error ≡ report_error_of_read_error refused };

    fn from(refused: ReadError) -> ReportError {
        match refused {
            ReadError::Fault => ReportError::ReadFault,
            ReadError::OutOfMemory => ReportError::OutOfMemory,
        }
    }
}

impl From<walk::Error> for ReportError {
    ghost use Rattle.std.specs.Prelude.{◌≡◌};
    ghost use Rattle.worktree_report.specs.Loads.{report_error_of_walk_error};

    ghost from_gives = { λ refused error. error ≡ report_error_of_walk_error refused };

    fn from(refused: walk::Error) -> ReportError {
        match refused {
            walk::Error::OutOfMemory => ReportError::OutOfMemory,
            refused => ReportError::Walk(refused),
        }
    }
}
