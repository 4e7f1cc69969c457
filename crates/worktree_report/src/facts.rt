//! What a report says of submodules.
ghost use Rattle.std.specs.Prelude.{◌≡◌, IfOk};
ghost use Rattle.submodule.specs.ActiveSeen.{active_result_with_error_text};
ghost use Rattle.worktree_report.specs.Submodules as submodules;

use crate::known::Known;
use crate::modules::Modules;
use git_config_lite::ValueError;
use gitbase_core::{Bytes, OutOfMemory};
use std::alloc::Global;
use submodule::IsActivePlatform;

/// Whether a submodule is active, as gitsubmodules(7) says under "Active submodules", by its name
/// in place of its path.
#[derive(Debug, Drop, PartialEq, Eq)]
pub enum Activity {
    /// It is.
    Active,
    /// It is not.
    Inactive,
    /// Its `submodule.NAME.active` is no boolean.
    Invalid {
        /// That value.
        input: Bytes,
    },
}

/// The submodule at a path.
#[derive(Debug, Drop, PartialEq, Eq)]
pub struct Facts {
    /// Its name in `.gitmodules`.
    pub name: Bytes,
    /// Whether it is active.
    pub active: Activity,
}

fn activity_of_answer(
    alloc: Global,
    answer: Result<bool, ValueError<'_>>,
) -> Result<Activity, OutOfMemory>
    ensures { IfOk result (λ activity. activity
        ≡ submodules.activity_of_answer (active_result_with_error_text answer.entry)) }
{
    match answer {
        Ok(true) => Ok(Activity::Active),
        Ok(false) => Ok(Activity::Inactive),
        Err(error) => Ok(Activity::Invalid {
            input: Bytes::from_slice(alloc, error.input)?,
        }),
    }
}

/// A submodule, and whether it is active.
fn facts_of_submodule_name(
    alloc: Global,
    platform: &mut IsActivePlatform,
    modules: &Modules,
    name: &[u8],
) -> Result<Facts, OutOfMemory>
    ensures facts { IfOk result (λ facts. facts
        ≡ submodules.facts_of_submodule_name platform.old modules.now.config.sections name.now) }
    ensures same { platform.new ≡ platform.old }
{
    let active = activity_of_answer(alloc, platform.is_active(&modules.config, name))?;
    Ok(Facts {
        name: Bytes::from_slice(alloc, name)?,
        active,
    })
}

/// The submodule at a path, found by one search.
fn facts_of_submodule_at_path(
    alloc: Global,
    platform: &mut IsActivePlatform,
    modules: &Modules,
    path: &[u8],
) -> Result<Option<Facts>, OutOfMemory>
    ensures facts { IfOk result (λ facts. facts
        ≡ submodules.facts_of_submodule_at_path platform.old modules.now path.now) }
    ensures same { platform.new ≡ platform.old }
{
    match modules.file.name_by_path(alloc, path)? {
        Some(name) => Ok(Some(facts_of_submodule_name(alloc, platform, modules, name)?)),
        None => Ok(None),
    }
}

/// The same, where submodules are known.
pub fn submodule_facts_if_known(
    alloc: Global,
    known: &mut Option<Known>,
    path: &[u8],
) -> Result<Option<Facts>, OutOfMemory>
    ensures facts { IfOk result (λ facts. facts ≡ submodules.submodule_facts_if_known known.old
        path.now) }
    ensures same { known.new ≡ known.old }
{
    match known {
        Some(known) => facts_of_submodule_at_path(alloc, &mut known.platform, &known.modules, path),
        None => Ok(None),
    }
}
