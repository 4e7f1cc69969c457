//! What a submodule asks for, before the worktree is looked at.
ghost use Rattle.std.specs.Prelude.{◌≡◌, Some, Ok, IfOk, is_err};
ghost use Rattle.std.specs.List.{list_any};
ghost use Rattle.gitbase_core.specs.Path.{components};
ghost use Rattle.gitbase_core.specs.Text.{is_dot_git_ignoring_case};
ghost use Rattle.submodule.specs.Access as access;
ghost use Rattle.submodule.specs.Active as active;
ghost use Rattle.module_plan.specs.Wanted as wanted;
ghost use Rattle.module_plan.specs.Gives.{IsResultUnlessMemory};

use crate::inputs::Asking;
use crate::step::{StepKind, Why};
use git_config_lite as config;
use gitbase_core::{OutOfMemory, PathText, is_dot_git_ignoring_case};
use std::alloc::Global;
use submodule::{IsActivePlatform, Update, path, update, url};

/// A step that a submodule asks for.
#[derive(Debug, Drop)]
pub struct Wanted {
    pub path: PathText,
    pub kind: StepKind,
}

/// Why a submodule asks for no step.
#[derive(Clone, Copy, Debug)]
pub enum Stop {
    LeaveOut(Why),
    OutOfMemory,
}

impl From<OutOfMemory> for Stop {
    ghost use Rattle.std.specs.Prelude.{◌≡◌};
    ghost use Rattle.module_plan.specs.declared.wanted.Stop.TheVariants as stops;

    ghost from_gives = { λ _ e. e ≡ stops.OutOfMemory };

    fn from(_refused: OutOfMemory) -> Stop {
        Stop::OutOfMemory
    }
}

/// The step that a submodule asks for: it is active, has a path, an update and a url.
///
/// See docs/DIFFERENCES.md#modules-not-initialised.
/// See docs/DIFFERENCES.md#modules-without-index.
/// See docs/DIFFERENCES.md#modules-up-to-date.
/// See docs/DIFFERENCES.md#modules-just-cloned.
pub(crate) fn step_wanted_by_submodule(
    alloc: Global,
    asking: &Asking<'_>,
    platform: &mut IsActivePlatform,
    name: &[u8],
) -> Result<Wanted, Stop>
    ensures wanted { IsResultUnlessMemory result (wanted.step_wanted_by_submodule
        (wanted.plan_input_of_asking asking.now platform.old) name.now) }
    ensures same { platform.new ≡ platform.old }
{
    if let Some(why) = reason_if_inactive(asking.config, platform, name) {
        return Err(Stop::LeaveOut(why));
    }
    let path = checked_path_of_submodule(alloc, asking.modules, name)?;
    let kind = step_kind_of_submodule(alloc, asking.modules, name)?;
    if lacks_valid_url(alloc, asking.modules, name)? {
        return Err(Stop::LeaveOut(Why::BadUrl));
    }
    Ok(Wanted { path, kind })
}

/// Why a submodule is not active, if it is not.
fn reason_if_inactive(
    config: &config::File,
    platform: &mut IsActivePlatform,
    name: &[u8],
) -> Option<Why>
    ensures why { result
        ≡ wanted.reason_if_inactive (active.is_active platform.old config.now.sections name.now) }
    ensures same { platform.new ≡ platform.old }
{
    match platform.is_active(config, name) {
        Ok(true) => None,
        Ok(false) => Some(Why::Inactive),
        Err(_) => Some(Why::BadActive),
    }
}

/// Where a submodule stands.
fn checked_path_of_submodule(
    alloc: Global,
    modules: &submodule::File,
    name: &[u8],
) -> Result<PathText, Stop>
    ensures { IsResultUnlessMemory result (wanted.submodule_path_or_why (access.path name.now
        modules.now.sections)) }
{
    match modules.path(alloc, name) {
        Ok(path) => normalized_submodule_path_if_safe(alloc, path),
        Err(path::Error::Missing { .. }) => Err(Stop::LeaveOut(Why::BadPath)),
        Err(path::Error::Absolute { .. }) => Err(Stop::LeaveOut(Why::BadPath)),
        Err(path::Error::OutsideOfWorktree { .. }) => Err(Stop::LeaveOut(Why::BadPath)),
        Err(path::Error::OutOfMemory) => Err(Stop::OutOfMemory),
    }
}

/// Where a path leads, if a submodule may stand there.
fn normalized_submodule_path_if_safe(alloc: Global, path: &[u8]) -> Result<PathText, Stop>
    ensures { IsResultUnlessMemory result (wanted.submodule_path_or_why (Ok path.now)) }
{
    let Some(path) = PathText::from_bytes(alloc, path)?.normalize(alloc)? else {
        return Err(Stop::LeaveOut(Why::BadPath));
    };
    if path.as_bytes().is_empty() {
        return Err(Stop::LeaveOut(Why::Root));
    }
    if has_dot_git_component(&path) {
        return Err(Stop::LeaveOut(Why::DotGit));
    }
    Ok(path)
}

/// Whether a component of a path is `.git`, whatever the case of the letters.
fn has_dot_git_component(path: &PathText) -> bool
    ensures { result ≡ list_any is_dot_git_ignoring_case (components path.now) }
{
    for name in path.components() {
        if is_dot_git_ignoring_case(name) {
            return true;
        }
    }
    false
}

/// How a submodule is updated.
fn step_kind_of_submodule(
    alloc: Global,
    modules: &submodule::File,
    name: &[u8],
) -> Result<StepKind, Stop>
    ensures { IsResultUnlessMemory result
        (wanted.kind (access.update name.now modules.now.sections)) }
{
    match modules.update(alloc, name) {
        Ok(update) => step_kind_of_update(update),
        Err(update::Error::Invalid { .. }) => Err(Stop::LeaveOut(Why::BadUpdate)),
        Err(update::Error::CommandForbiddenInModulesConfiguration { .. }) => {
            Err(Stop::LeaveOut(Why::SharedCommand))
        }
        Err(update::Error::OutOfMemory) => Err(Stop::OutOfMemory),
    }
}

/// The step of an update; the commit is checked out where nothing is said.
fn step_kind_of_update(update: Option<Update>) -> Result<StepKind, Stop>
    ensures { IsResultUnlessMemory result (wanted.step_kind_of_update update) }
{
    match update {
        None => Ok(StepKind::Checkout),
        Some(Update::Checkout) => Ok(StepKind::Checkout),
        Some(Update::Rebase) => Ok(StepKind::Rebase),
        Some(Update::Merge) => Ok(StepKind::Merge),
        Some(Update::Command(command)) => Ok(StepKind::Command(command)),
        Some(Update::None) => Err(Stop::LeaveOut(Why::NoUpdate)),
    }
}

/// Whether a submodule has no url.
fn lacks_valid_url(
    alloc: Global,
    modules: &submodule::File,
    name: &[u8],
) -> Result<bool, OutOfMemory>
    ensures { IfOk result (λ lacks. lacks ≡ is_err (access.url name.now modules.now.sections)) }
{
    match modules.url(alloc, name) {
        Ok(_) => Ok(false),
        Err(url::Error::Missing { .. }) => Ok(true),
        Err(url::Error::Parse { .. }) => Ok(true),
        Err(url::Error::OutOfMemory) => Err(OutOfMemory),
    }
}
