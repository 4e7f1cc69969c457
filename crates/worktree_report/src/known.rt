//! What is known of submodules while a report is made.
ghost use Rattle.std.specs.Prelude.{◌≡◌, ◌≤◌, ℕ, true, false, Some, None, IfOk, IfErr, OnOk, is_some};
ghost use Rattle.submodule.specs.Active.{active_specs_or_error_of_config};
ghost use Rattle.worktree_fs.specs.Causes.{CountIncreasedOrSaturated, saturating_sum};
ghost use Rattle.worktree_fs.specs.Tree.{Names};
ghost use Rattle.worktree_report.specs.Loading.{known_submodules_in_tree, known_submodules_with_active_specs, count_files_if_submodules_asked};
ghost use Rattle.worktree_report.specs.Loads.{IsResultUnlessFault, ReadsFilesAtMost, IsErrorOfLoadingKnown};
ghost use Rattle.worktree_report.specs.Outside.{IsMisreadOfActiveSpec, IsMisreadOfSetup, HoldsOfMisread, HoldsIfReadingError, StopsReadingAtError};

use crate::error::ReportError;
use crate::modules::{Modules, load_modules};
use crate::setup::Setup;
use glob_rules::pathspec::Defaults;
use std::alloc::Global;
use submodule::IsActivePlatform;
use submodule::is_active_platform::Error;
use worktree_fs::Worktree;

/// The submodules of a work tree, and which of them are active.
#[derive(Drop)]
pub struct Known {
    pub modules: Modules,
    pub platform: IsActivePlatform,
}

/// What is known of submodules, and which of them are active.
///
/// `ActiveSpec` names the first value of `submodule.active` that is refused.
///
/// See docs/DECISIONS.md#active-always-read.
fn known_submodules_with_active_specs(
    alloc: Global,
    modules: Modules,
    ignore_case: bool,
) -> Result<Option<Known>, ReportError>
    ensures gives { IsResultUnlessFault result (known_submodules_with_active_specs ignore_case
        modules) }
    ensures known { IfOk result (λ known. is_some known ≡ true) }
    ensures answers { IfErr result (IsErrorOfLoadingKnown ⊥) }
    ensures outside { IfErr result (HoldsOfMisread (IsMisreadOfActiveSpec ignore_case)) }
{
    let found = modules
        .file
        .is_active_platform(alloc, &modules.config, Defaults { ignore_case });
    match found {
        Ok(platform) => Ok(Some(Known { modules, platform })),
        Err(Error::ParsePattern { value, at: _ }) => Err(ReportError::ActiveSpec { at: value }),
        Err(Error::NormalizePattern { value }) => Err(ReportError::ActiveSpec { at: value }),
        Err(Error::OutOfMemory) => Err(ReportError::OutOfMemory),
    }
}

/// What is known of the submodules of the work tree at `root`, where the setup asks for it.
#[tactic(auto, unfolding(crate::specs::Loading::known_submodules_in_tree))]
pub fn load_known_submodules<W: Worktree>(
    alloc: Global,
    worktree: &mut W,
    root: &[u8],
    setup: &Setup,
) -> Result<Option<Known>, ReportError>
    ensures gives { (t : Names) → W.told worktree.old ≡ Some t
        → IsResultUnlessFault result (known_submodules_in_tree t root.now setup.now) }
    ensures answers { IfErr result (IsErrorOfLoadingKnown (CountIncreasedOrSaturated
        (W.faults worktree.old) (W.faults worktree.new))) }
    ensures outside { IfErr result (HoldsOfMisread (IsMisreadOfSetup root.now setup.now)) }
    ensures asked { IfErr result (HoldsIfReadingError (setup.now.options.submodules ≡ true)) }
    ensures stops { IfErr result (StopsReadingAtError W.Worktree worktree.old worktree.new
        setup.now) }
    ensures known { setup.now.options.submodules ≡ true
        → IfOk result (λ known. is_some known ≡ true) }
    ensures unasked { setup.now.options.submodules ≡ false
        → IfOk result (λ known. known ≡ None) }
    ensures unfaulted { OnOk result (W.faults worktree.new ≡ W.faults worktree.old) }
    ensures read { OnOk result (saturating_sum (W.reads worktree.old)
        (count_files_if_submodules_asked setup.now) ≤ W.reads worktree.new) }
    ensures loads { ReadsFilesAtMost W.Worktree worktree.old worktree.new
        (count_files_if_submodules_asked setup.now) }
{
    if !setup.options.submodules {
        return Ok(None);
    }
    let modules = load_modules(alloc, worktree, root, setup)?;
    known_submodules_with_active_specs(alloc, modules, setup.options.ignore_case)
}
