//! What becomes of each submodule.
ghost use Rattle.std.specs.Prelude.{◌≡◌, ◌++◌, ◌∷◌, [], ℕ, List, ◌||◌, Some, Ok, IfOk, IfErr, OnOk, bytes_eq};
ghost use Rattle.worktree_fs.specs.Causes.{CountIncreasedOrSaturated};
ghost use Rattle.worktree_fs.specs.Kept.{KeepsTreeAndListCounts};
ghost use Rattle.submodule.specs.Names.{is_text_in_list};
ghost use Rattle.module_plan.specs.Wanted.{plan_input_of_asking, step_wanted_by_submodule};
ghost use Rattle.module_plan.specs.Verdicts as verdicts;
ghost use Rattle.module_plan.specs.Judged as judged;
ghost use Rattle.module_plan.specs.Ways as ways;

use crate::error::ModuleError;
use crate::inputs::Asking;
use crate::seen::Seen;
use crate::step::{ModulePlan, Skipped, Step, Verdict, Why};
use crate::taken::TakenPaths;
use crate::wanted::{Stop, Wanted, step_wanted_by_submodule};
use crate::way::first_obstacle_on_way;
use gitbase_core::{Bytes, OutOfMemory};
use std::alloc::Global;
use submodule::IsActivePlatform;
use worktree_fs::Worktree;

/// The plan, with its steps still in the order of the names.
pub(crate) fn plan_submodules_in_name_order<W: Worktree>(
    alloc: Global,
    worktree: &mut W,
    asking: &Asking<'_>,
    platform: &mut IsActivePlatform,
) -> Result<ModulePlan, ModuleError>
    ensures judged { IfOk result (judged.HasVerdictForEachName (W.told worktree.old)
        asking.now.root.now (plan_input_of_asking asking.now platform.old)) }
    ensures refused { IfErr result (judged.FailsLookingForAnySubmodule (W.told worktree.old)
        asking.now.root.now (plan_input_of_asking asking.now platform.old)
        (CountIncreasedOrSaturated (W.faults worktree.old) (W.faults worktree.new))) }
    ensures keeps { KeepsTreeAndListCounts W.Worktree worktree.old worktree.new }
    ensures unfaulted { ways.HoldsUnlessFault result (W.faults worktree.new
        ≡ W.faults worktree.old) }
    ensures reads { W.reads worktree.new ≡ W.reads worktree.old }
{
    let mut plan = ModulePlan {
        steps: Vec::new(alloc),
        skipped: Vec::new(alloc),
    };
    let mut taken = TakenPaths::new(alloc);
    let mut seen = Seen::new(alloc);
    for name in asking.modules.names() {
        let verdict = verdict_on_submodule(
            alloc, worktree, asking, platform, &mut taken, &mut seen, name,
        )?;
        plan = add_verdict_to_plan(plan, verdict)?;
    }
    Ok(plan)
}

/// The plan with one verdict more.
fn add_verdict_to_plan(plan: ModulePlan, verdict: Verdict) -> Result<ModulePlan, OutOfMemory>
    ensures { IfOk result (judged.AddsVerdictToPlan plan verdict) }
{
    let ModulePlan {
        mut steps,
        mut skipped,
    } = plan;
    match verdict {
        Verdict::Update(step) => {
            steps.push(step)?;
            Ok(ModulePlan { steps, skipped })
        }
        Verdict::LeaveOut(one) => {
            skipped.push(one)?;
            Ok(ModulePlan { steps, skipped })
        }
    }
}

/// What becomes of a submodule, by what it asks for and by the paths that earlier ones ask for.
fn verdict_on_submodule<W: Worktree>(
    alloc: Global,
    worktree: &mut W,
    asking: &Asking<'_>,
    platform: &mut IsActivePlatform,
    taken: &mut TakenPaths,
    seen: &mut Seen,
    name: &[u8],
) -> Result<Verdict, ModuleError>
    requires seen { ways.AreRecordedKindsRight (W.told worktree.old) seen.old }
    ensures verdict { IfOk result (verdicts.IsVerdictOnWantedResult (W.told worktree.old)
        asking.now.root.now name.now (step_wanted_by_submodule (plan_input_of_asking asking.now
        platform.old) name.now) (λ path. is_text_in_list path taken.old)) }
    ensures taken { (other : List ℕ) → OnOk result (is_text_in_list other taken.new
        ≡ (verdicts.wants_step_at_path other (step_wanted_by_submodule
        (plan_input_of_asking asking.now platform.old) name.now) || is_text_in_list other
        taken.old)) }
    ensures seen { OnOk result (ways.AreRecordedKindsRight (W.told worktree.old) seen.new) }
    ensures refused { IfErr result (judged.FailsLookingForSubmoduleStep (W.told worktree.old)
        asking.now.root.now (step_wanted_by_submodule (plan_input_of_asking asking.now platform.old)
        name.now) (λ path. is_text_in_list path taken.old) (CountIncreasedOrSaturated
        (W.faults worktree.old) (W.faults worktree.new))) }
    ensures same { platform.new ≡ platform.old }
    ensures keeps { KeepsTreeAndListCounts W.Worktree worktree.old worktree.new }
    ensures unfaulted { ways.HoldsUnlessFault result (W.faults worktree.new
        ≡ W.faults worktree.old) }
    ensures reads { W.reads worktree.new ≡ W.reads worktree.old }
{
    match step_wanted_by_submodule(alloc, asking, platform, name) {
        Ok(wanted) => verdict_on_wanted_step(
            alloc,
            worktree,
            asking.root,
            taken,
            seen,
            name,
            wanted,
        ),
        Err(Stop::LeaveOut(why)) => Ok(leave_out_verdict(alloc, name, why)?),
        Err(Stop::OutOfMemory) => Err(ModuleError::OutOfMemory),
    }
}

/// What becomes of a submodule that asks for a step.
fn verdict_on_wanted_step<W: Worktree>(
    alloc: Global,
    worktree: &mut W,
    root: &[u8],
    taken: &mut TakenPaths,
    seen: &mut Seen,
    name: &[u8],
    wanted: Wanted,
) -> Result<Verdict, ModuleError>
    requires seen { ways.AreRecordedKindsRight (W.told worktree.old) seen.old }
    ensures verdict { IfOk result (verdicts.IsVerdictOnWantedStep (W.told worktree.old) root.now
        name.now wanted (is_text_in_list wanted.path taken.old)) }
    ensures taken { (other : List ℕ) → OnOk result (is_text_in_list other taken.new
        ≡ (bytes_eq other wanted.path || is_text_in_list other taken.old)) }
    ensures seen { OnOk result (ways.AreRecordedKindsRight (W.told worktree.old) seen.new) }
    ensures refused { IfErr result (ways.FailsLookingAtPath (ways.IsLookedAtUnlessTaken
        (W.told worktree.old) root.now wanted (is_text_in_list wanted.path taken.old))
        (CountIncreasedOrSaturated (W.faults worktree.old) (W.faults worktree.new))) }
    ensures keeps { KeepsTreeAndListCounts W.Worktree worktree.old worktree.new }
    ensures unfaulted { ways.HoldsUnlessFault result (W.faults worktree.new
        ≡ W.faults worktree.old) }
    ensures reads { W.reads worktree.new ≡ W.reads worktree.old }
{
    if !taken.insert_if_new(alloc, &wanted.path)? {
        return Ok(leave_out_verdict(alloc, name, Why::SamePath)?);
    }
    match first_obstacle_on_way(alloc, worktree, root, seen, &wanted.path)? {
        Some(why) => Ok(leave_out_verdict(alloc, name, why)?),
        None => Ok(update_verdict(alloc, name, wanted)?),
    }
}

/// A submodule is left out.
fn leave_out_verdict(alloc: Global, name: &[u8], why: Why) -> Result<Verdict, OutOfMemory>
    ensures { IfOk result (λ verdict. verdict ≡ verdicts.leave_out_verdict name.now why) }
{
    Ok(Verdict::LeaveOut(Skipped {
        name: Bytes::from_slice(alloc, name)?,
        why,
    }))
}

/// A submodule is updated.
fn update_verdict(alloc: Global, name: &[u8], wanted: Wanted) -> Result<Verdict, OutOfMemory>
    ensures { IfOk result (λ verdict. verdict ≡ verdicts.update name.now wanted) }
{
    let Wanted { path, kind } = wanted;
    Ok(Verdict::Update(Step {
        name: Bytes::from_slice(alloc, name)?,
        path,
        kind,
    }))
}
