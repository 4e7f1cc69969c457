//! The report of a work tree as a setup asks for it.
ghost use Rattle.worktree_report.specs.Reported.{IsReportOfWalkResult, MakesReportBySetup};

use crate::error::ReportError;
use crate::known::{Known, load_known_submodules};
use crate::report::{Report, report_with_submodules};
use crate::setup::Setup;
use crate::walk_by_setup::walk_by_setup;
use dir_classify::Error;
use dir_walk as walk;
use gitbase_core::Find;
use std::alloc::Global;
use worktree_fs::{Interrupt, Worktree};

/// The report of what a walk gave, or why there is none.
fn report_of_walk_result(
    alloc: Global,
    mut known: Option<Known>,
    walked: Result<walk::Report, Error>,
) -> Result<Report, ReportError>
    ensures { IsReportOfWalkResult result known walked }
{
    match walked {
        Ok(walked) => Ok(report_with_submodules(alloc, &mut known, walked)?),
        Err(error) => Err(ReportError::from(error)),
    }
}

/// The report of the work tree at `worktree_root`, which is absolute and has no component `.` or
/// `..`, as a setup asks for it.
///
/// Where the setup asks for submodules, the configurations that its permissions admit are read
/// first, and then `.gitmodules`, as [`load_modules`](crate::load_modules) does; the walk comes
/// after that. It enters directories as a delegate of default recursion does. Blobs that ignore
/// rules are mapped to are looked up in `objects`, and not in the setup. The interrupt is asked
/// before each directory is read.
///
/// # Errors
///
/// - `Config`, `Modules` and `ActiveSpec` name the first place that is outside its grammar in what
///   was read, in this order.
/// - `ReadFault` comes only where the worktree failed while these were read, and counted it. Where
///   one of these four comes nothing was walked: store and interrupt are as they were.
/// - `Walk` has the error of [`dir_walk::walk`], for the same causes.
/// - `OutOfMemory` for want of memory.
pub fn worktree_report<W: Worktree, F: Find, I: Interrupt>(
    alloc: Global,
    worktree: &mut W,
    objects: &mut F,
    interrupt: &mut I,
    worktree_root: &[u8],
    setup: &Setup,
) -> Result<Report, ReportError>
    ensures { MakesReportBySetup W.Worktree F.Find I.Interrupt worktree.old worktree.new objects.old
        objects.new interrupt.old interrupt.new worktree_root.now setup.now result }
{
    let known = load_known_submodules(alloc, worktree, worktree_root, setup)?;
    let walked = walk_by_setup(alloc, worktree, objects, interrupt, worktree_root, setup);
    report_of_walk_result(alloc, known, walked)
}
