//! The plan of an update.
ghost use Rattle.std.specs.Prelude.{◌≡◌, ◌≢◌, None, Some, IfOk, IfErr, OnOk, IsPermutation, Result};
ghost use Rattle.std.specs.List.{IsDistinct};
ghost use Rattle.worktree_fs.specs.Causes.{CountIncreasedOrSaturated};
ghost use Rattle.worktree_fs.specs.Kept.{KeepsTreeAndListCounts};
ghost use Rattle.worktree_fs.specs.Tree.{Names};
ghost use Rattle.submodule.specs.Active.{active_specs_or_error_of_config};
ghost use Rattle.module_plan.specs.Judged as judged;
ghost use Rattle.module_plan.specs.Plans as plans;
ghost use Rattle.module_plan.specs.Wanted.{plan_input_of_configs};
ghost use Rattle.module_plan.specs.Ways as ways;

use crate::error::ModuleError;
use crate::inputs::Asking;
use crate::judge::plan_submodules_in_name_order;
use crate::step::{ModulePlan, Step};
use git_config_lite as config;
use gitbase_core::OutOfMemory;
use glob_rules::pathspec::Defaults;
use std::alloc::Global;
use submodule::{IsActivePlatform, is_active_platform};
use worktree_fs::Worktree;

/// The steps that an update of the active submodules would take, as `git submodule update`; it
/// takes none of them.
///
/// Each submodule that `.gitmodules` names is updated, or left out for the first reason of `Why`
/// that holds. Which are active says the configuration, by `IsActivePlatform::is_active`; in the
/// path specs of `submodule.active` letters fold if `defaults` says so. The worktree is asked for
/// the nodes on the way to each path that no earlier submodule asks for, links not followed; for
/// one that is on several ways once. A real disk fails at a path that is not UTF-8.
///
/// # Errors
///
/// The count of the worktree's faults rises for `Fault` alone.
///
/// - `ActiveSpec`: `modules.is_active_platform` refuses this value.
/// - `Fault`: the worktree failed at this path, which it counted; no value is refused. It is on the
///   way to that of a submodule that is left out for none of the reasons before `Link`, or there,
///   and over a told tree everything before it on that way is a directory.
/// - `OutOfMemory`: memory was refused.
///
/// See docs/DIFFERENCES.md#modules-utf8.
pub fn plan<W: Worktree>(
    alloc: Global,
    worktree: &mut W,
    worktree_root: &[u8],
    modules: &submodule::File,
    config: &config::File,
    defaults: Defaults,
) -> Result<ModulePlan, ModuleError>
    ensures planned { (t : Names) → W.told worktree.old ≡ Some t
        → IfOk result (plans.IsSortedPlanOfVerdicts (plans.verdicts_on_all_submodules t
        worktree_root.now (plan_input_of_configs defaults.ignore_case modules.now config.now))) }
    ensures possible { IfOk result (plans.IsPlanOfPossibleVerdicts (W.told worktree.old)
        worktree_root.now (plan_input_of_configs defaults.ignore_case modules.now config.now)) }
    ensures ascends { IfOk result (λ plan. plans.IsStrictlySortedByPath plan.steps.items) }
    ensures safe { IfOk result (plans.HasOnlySafeSteps
        (plan_input_of_configs defaults.ignore_case modules.now config.now)) }
    ensures open_way { (t : Names) → W.told worktree.old ≡ Some t
        → IfOk result (plans.HasNoObstacles t worktree_root.now) }
    ensures active { OnOk result (plans.index_of_refused_active_value
        (active_specs_or_error_of_config defaults.ignore_case config.now.sections) ≡ None) }
    ensures refused { IfErr result (plans.RefusesPlanWithCause (W.told worktree.old)
        worktree_root.now (plan_input_of_configs defaults.ignore_case modules.now config.now)
        (plans.index_of_refused_active_value (active_specs_or_error_of_config defaults.ignore_case
        config.now.sections)) (CountIncreasedOrSaturated (W.faults worktree.old)
        (W.faults worktree.new))) }
    ensures keeps { KeepsTreeAndListCounts W.Worktree worktree.old worktree.new }
    ensures unfaulted { ways.HoldsUnlessFault result (W.faults worktree.new
        ≡ W.faults worktree.old) }
    ensures reads { W.reads worktree.new ≡ W.reads worktree.old }
{
    let mut platform = parse_active_specs_of_config(alloc, modules, config, defaults)?;
    let asking = Asking {
        root: worktree_root,
        modules,
        config,
    };
    let plan = plan_submodules_in_name_order(alloc, worktree, &asking, &mut platform)?;
    Ok(sort_steps_by_path(plan)?)
}

/// What decides which submodules are active.
fn parse_active_specs_of_config(
    alloc: Global,
    modules: &submodule::File,
    config: &config::File,
    defaults: Defaults,
) -> Result<IsActivePlatform, ModuleError>
    ensures platform { IfOk result (λ made.
        active_specs_or_error_of_config defaults.ignore_case config.now.sections ≡ Ok made) }
    ensures refused { IfErr result (plans.RefusesActiveValue (plans.index_of_refused_active_value
        (active_specs_or_error_of_config defaults.ignore_case config.now.sections))) }
{
    match modules.is_active_platform(alloc, config, defaults) {
        Ok(platform) => Ok(platform),
        Err(is_active_platform::Error::ParsePattern { value, at: _ }) => {
            Err(ModuleError::ActiveSpec { value })
        }
        Err(is_active_platform::Error::NormalizePattern { value }) => {
            Err(ModuleError::ActiveSpec { value })
        }
        Err(is_active_platform::Error::OutOfMemory) => Err(ModuleError::OutOfMemory),
    }
}

/// The plan with its steps in ascending order of their paths.
fn sort_steps_by_path(plan: ModulePlan) -> Result<ModulePlan, OutOfMemory>
    ensures same { IfOk result (λ sorted. IsPermutation plan.steps.items sorted.steps.items) }
    ensures skipped { IfOk result (λ sorted. sorted.skipped.items ≡ plan.skipped.items) }
    ensures ascends { plans.HaveDistinctPaths plan.steps.items
        → IfOk result (λ sorted. plans.IsStrictlySortedByPath sorted.steps.items) }
{
    let ModulePlan { mut steps, skipped } = plan;
    steps.sort_by(|a, b| a.path.as_bytes().cmp(&b.path.as_bytes()))?;
    Ok(ModulePlan { steps, skipped })
}
