//! The states of the index paths, and the report beside them.
ghost use Rattle.index_status.specs.Status.{ComparesBesideReport, MakesReportAndComparesIndex};

use crate::compare::compare_index_paths_with_worktree;
use crate::error::StatusError;
use crate::path_state::PathState;
use gitbase_core::{Find, PathText, State};
use std::alloc::Global;
use worktree_fs::{Interrupt, Worktree};
use worktree_report::{Report, Setup, worktree_report};

/// What became of the index paths of a work tree, and the report beside it.
#[derive(Debug, Drop)]
pub struct IndexStatus {
    /// Each path of the index, once and in ascending order, with its state.
    pub paths: Vec<(PathText, PathState)>,
    /// The report.
    pub report: Report,
}

/// The states of index paths beside a report.
fn compare_index_and_pair_with_report<W: Worktree>(
    alloc: Global,
    worktree: &mut W,
    root: &[u8],
    index: &State,
    report: Report,
) -> Result<IndexStatus, StatusError>
    ensures { ComparesBesideReport W.Worktree worktree.old worktree.new root.now index.now report
        result }
{
    let paths = compare_index_paths_with_worktree(alloc, worktree, root, index)?;
    Ok(IndexStatus { paths, report })
}

/// The report of the work tree at `worktree_root`, which is absolute and has no component `.` or
/// `..`, as a setup asks for it, and the state of each path of its index. The report is made first,
/// as [`worktree_report`](worktree_report::worktree_report) does; then each path is looked at as
/// [`compare_index_paths_with_worktree`](crate::compare_index_paths_with_worktree) does.
///
/// # Errors
///
/// - `Report` has the error of [`worktree_report`](worktree_report::worktree_report), for the same
///   causes; nothing is listed after it.
/// - `Fault`: the worktree failed at this path, which it counted, after the report was made.
/// - `OutOfMemory`: memory was refused.
pub fn status<W: Worktree, F: Find, I: Interrupt>(
    alloc: Global,
    worktree: &mut W,
    objects: &mut F,
    interrupt: &mut I,
    worktree_root: &[u8],
    setup: &Setup,
) -> Result<IndexStatus, StatusError>
    ensures { MakesReportAndComparesIndex W.Worktree F.Find I.Interrupt worktree.old worktree.new
        objects.old objects.new interrupt.old interrupt.new worktree_root.now setup.now result }
{
    match worktree_report(alloc, worktree, objects, interrupt, worktree_root, setup) {
        Ok(report) => compare_index_and_pair_with_report(
            alloc,
            worktree,
            worktree_root,
            &setup.index,
            report,
        ),
        Err(error) => Err(StatusError::from(error)),
    }
}
