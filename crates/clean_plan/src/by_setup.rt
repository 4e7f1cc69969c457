//! The plan of a cleaning, by a setup.
ghost use Rattle.std.specs.Prelude.{◌≡◌, true, IfOk};
ghost use Rattle.clean_plan.specs.Plans.{IsOrderedRemovalPlan, entries_of_report_entries};
ghost use Rattle.clean_plan.specs.Planned.{PlansByMadeReport, MakesReportAndPlan};
ghost use Rattle.clean_plan.specs.Prepared.{are_options_prepared_for_plan};
ghost use Rattle.clean_plan.specs.Setups.{plan_inputs_of_setup, traversal_root_relative_to_work_tree};
ghost use Rattle.clean_plan.specs.Wanted.{allowing_special_and_spec_excluded};

use crate::current::{
    current_dir_below_root, current_dir_or_work_tree_root, traversal_root_relative_to_work_tree,
};
use crate::error::CleanError;
use crate::inputs::Cleaning;
use crate::outcome::Plan;
use crate::planned::planned_removal_paths;
use crate::what::{Finding, Wanted, What};
use gitbase_core::{Find, OutOfMemory, PathText};
use std::alloc::Global;
use worktree_fs::{Interrupt, Worktree};
use worktree_report::{Report, Setup, index_lookup_if_ignore_case, worktree_report};

/// The plan by a report and by where the current directory is in the work tree, if it is there.
fn plan_by_report_and_current_dir(
    alloc: Global,
    root: &[u8],
    setup: &Setup,
    wanted: Wanted,
    report: &Report,
    current: &Option<PathText>,
) -> Result<Plan, OutOfMemory>
    ensures { IfOk result (λ plan. IsOrderedRemovalPlan (plan_inputs_of_setup wanted setup.now
        (traversal_root_relative_to_work_tree root.now report.now.root) current.now)
        (entries_of_report_entries report.now.entries) plan.paths.items) }
{
    let lookup = index_lookup_if_ignore_case(alloc, setup)?;
    let cleaning = Cleaning {
        what: wanted.what,
        others: wanted.others,
        taken_out: wanted.taken_out,
        index: &setup.index,
        lookup: &lookup,
        specs: &setup.specs,
        start: traversal_root_relative_to_work_tree(root, report.root.as_bytes()),
        current,
    };
    let paths = planned_removal_paths(alloc, &cleaning, report.entries.as_slice())?;
    Ok(Plan { paths })
}

/// What may be removed, by a report that was made of the work tree: as [`plan_removal_by_report`], with a
/// word on what git does not look at.
fn plan_wanted_by_report<W: Worktree>(
    alloc: Global,
    worktree: &mut W,
    worktree_root: &[u8],
    setup: &Setup,
    wanted: Wanted,
    report: &Report,
) -> Result<Plan, CleanError>
    ensures { PlansByMadeReport W.Worktree worktree.old worktree.new worktree_root.now setup.now
        wanted report.now result }
{
    let current_dir = current_dir_or_work_tree_root(worktree_root, setup);
    let current = current_dir_below_root(alloc, worktree, worktree_root, current_dir)?;
    Ok(plan_by_report_and_current_dir(alloc, worktree_root, setup, wanted, report, &current)?)
}

/// What may be removed from the work tree at `worktree_root`, by a report that was made of it: what
/// [`plan`] does behind the one that it makes. The worktree is asked for one real path, that of its
/// root; nothing is listed, and no file is read. By whatever report, no planned path is that of the
/// root, has a component `.git`, or has an index entry at it or beneath it. Whether a plan is safe
/// to act on depends on the report: it is by one that the same setup asks for, its options
/// [prepared](crate::prepare).
///
/// # Errors
///
/// The count of the worktree's faults rises for `Fault` alone.
///
/// - `Fault`: the worktree failed when it was asked for the real path of its root, which it
///   counted. It is not asked again.
/// - `OutOfMemory`: memory was refused.
///
/// See docs/DECISIONS.md#plan-by-report.
pub fn plan_removal_by_report<W: Worktree>(
    alloc: Global,
    worktree: &mut W,
    worktree_root: &[u8],
    setup: &Setup,
    what: What,
    report: &Report,
) -> Result<Plan, CleanError>
    ensures { PlansByMadeReport W.Worktree worktree.old worktree.new worktree_root.now setup.now
        (allowing_special_and_spec_excluded what) report.now result }
{
    let wanted = Wanted::allowing_special_and_spec_excluded(what);
    plan_wanted_by_report(alloc, worktree, worktree_root, setup, wanted, report)
}

/// What may be removed from a work tree: as [`plan`], with a word on what git does not look at.
pub(crate) fn make_report_and_plan_removal<W: Worktree, F: Find, I: Interrupt>(
    alloc: Global,
    worktree: &mut W,
    objects: &mut F,
    interrupt: &mut I,
    worktree_root: &[u8],
    setup: &Setup,
    wanted: Wanted,
    finding: Finding,
) -> Result<Plan, CleanError>
    requires prepared { are_options_prepared_for_plan finding setup.now.options ≡ true }
    ensures { MakesReportAndPlan W.Worktree F.Find I.Interrupt worktree.old worktree.new objects.old
        objects.new interrupt.old interrupt.new worktree_root.now setup.now wanted result }
{
    let report = worktree_report(alloc, worktree, objects, interrupt, worktree_root, setup)?;
    plan_wanted_by_report(alloc, worktree, worktree_root, setup, wanted, &report)
}

/// What may be removed from the work tree at `worktree_root`, as `git clean` removes it: whole
/// directories where all in them may go, and single entries of the report where not. Nothing is
/// removed here.
///
/// The setup's options have to be prepared, which [`are_options_prepared_for_plan`](crate::are_options_prepared_for_plan) tests. An
/// entry may go if its status is asked for, something that is no repository stands there, the path
/// specs match it, and its path is not kept. Kept is the root, what has a component `.git`, and
/// what has an index entry or the current directory at it or beneath it. A directory may go as a
/// whole if it lies at or beneath the traversal root, is not kept, some entry lies beneath it, all
/// of these may go, and the path specs take out neither it nor a directory between it and such an
/// entry. Planned is what may go and lies beneath no directory that does.
///
/// One report is made, and the plan is that of [`plan_removal_by_report`]. Blobs that ignore rules are
/// mapped to are looked up in `objects`. The report's entries are gone over once. The path specs
/// are asked about each entry that is a directory, and about each directory above one that may go,
/// but not again about those that are above the entry before it too. The index is searched for each
/// entry that may go but for its path, and for each directory above one that may go which no entry
/// is in the way of, until one goes as a whole.
///
/// # Errors
///
/// - `Report` has the error of [`worktree_report`], for the same causes.
/// - `Fault`: the worktree failed when it was asked for the real path of its root, which it
///   counted.
/// - `OutOfMemory`: memory was refused.
///
/// See docs/DECISIONS.md#plan-real-path.
/// See docs/DECISIONS.md#plan-out-of-memory.
/// See docs/DECISIONS.md#plan-traversal-root.
/// See docs/DIFFERENCES.md#clean-replaced-directory.
/// See docs/DIFFERENCES.md#clean-broken-git.
/// See docs/DIFFERENCES.md#clean-git-in-capitals.
/// See docs/DIFFERENCES.md#clean-replaced-file.
pub fn plan<W: Worktree, F: Find, I: Interrupt>(
    alloc: Global,
    worktree: &mut W,
    objects: &mut F,
    interrupt: &mut I,
    worktree_root: &[u8],
    setup: &Setup,
    what: What,
    finding: Finding,
) -> Result<Plan, CleanError>
    requires prepared { are_options_prepared_for_plan finding setup.now.options ≡ true }
    ensures { MakesReportAndPlan W.Worktree F.Find I.Interrupt worktree.old worktree.new objects.old
        objects.new interrupt.old interrupt.new worktree_root.now setup.now
        (allowing_special_and_spec_excluded what) result }
{
    make_report_and_plan_removal(
        alloc,
        worktree,
        objects,
        interrupt,
        worktree_root,
        setup,
        Wanted::allowing_special_and_spec_excluded(what),
        finding,
    )
}
