//! The plan, by the entries of a report.
ghost use Rattle.std.specs.Prelude.{IfOk};
ghost use Rattle.clean_plan.specs.Asked.{plan_inputs_of_cleaning};
ghost use Rattle.dir_classify.specs.Layers.{IsLookupOfIndexIfGiven};
ghost use Rattle.clean_plan.specs.Paths.{borrowed_byte_strings};
ghost use Rattle.clean_plan.specs.Plans.{IsOrderedRemovalPlan, entries_of_report_entries};
ghost use Rattle.clean_plan.specs.Targets.{AreOutermostTargetsOfPaths};
ghost use Rattle.clean_plan.specs.Whole.{is_directory_unblocked_and_removable};

use crate::inputs::Cleaning;
use crate::left_in_place::paths_of_kept_untrackables;
use crate::paths::Paths;
use crate::sift::collect_removable_and_blocked;
use crate::whole::{Known, target};
use gitbase_core::{OutOfMemory, PathText};
use std::alloc::Global;
use worktree_report::ReportEntry;

/// The paths that are planned for those of entries that may go; `spoiled` are the directories that
/// have an entry in their way. Where the paths ascend each directory above them is judged once.
fn outermost_removal_targets_of_paths<'a>(
    alloc: Global,
    cleaning: &Cleaning<'_>,
    removable: &[&'a [u8]],
    spoiled: &Paths<'_>,
) -> Result<Paths<'a>, OutOfMemory>
    requires lookup { IsLookupOfIndexIfGiven cleaning.now.index.now cleaning.now.lookup.now }
    ensures { IfOk result (AreOutermostTargetsOfPaths (is_directory_unblocked_and_removable
        (plan_inputs_of_cleaning cleaning.now) spoiled.now) (borrowed_byte_strings removable.now)) }
{
    let mut planned = Paths::new(alloc);
    let mut known = Known {
        path: b"",
        is_whole: false,
    };
    for path in removable {
        let target = target(cleaning, spoiled, &known, path);
        planned.add(target)?;
        known = Known {
            path: target,
            is_whole: target.len() < path.len(),
        };
    }
    Ok(planned)
}

/// The paths that may be removed, by the entries of a report.
pub(crate) fn planned_removal_paths(
    alloc: Global,
    cleaning: &Cleaning<'_>,
    entries: &[ReportEntry],
) -> Result<Vec<PathText>, OutOfMemory>
    requires lookup { IsLookupOfIndexIfGiven cleaning.now.index.now cleaning.now.lookup.now }
    ensures { IfOk result (λ paths. IsOrderedRemovalPlan (plan_inputs_of_cleaning cleaning.now)
        (entries_of_report_entries entries.now) paths.items) }
{
    let sifted = collect_removable_and_blocked(alloc, cleaning, entries)?;
    let planned = outermost_removal_targets_of_paths(
        alloc,
        cleaning,
        &sifted.removable,
        &sifted.spoiled,
    )?;
    let staying = paths_of_kept_untrackables(alloc, cleaning.others, entries)?;
    planned.into_path_texts_except(alloc, &staying)
}
