//! What a configuration says of submodules in place of `.gitmodules`.
ghost use Rattle.std.specs.Prelude.{◌≡◌, length, is_some, option_copied, IfOk, IsTrue, OnOk};
ghost use Rattle.git_config_lite.specs.Writers as writers;
ghost use Rattle.submodule.specs.Overrides as overrides;
ghost use Rattle.submodule.specs.Building as building;

use git_config_lite as config;
use git_config_lite::{Metadata, Source};
use gitbase_core::{Bytes, OutOfMemory, PathText};
use std::alloc::Global;
use std::collections::BTreeSet;

/// What overrides belong to.
fn source_with_modules_as_api(source: Source) -> Source
    ensures { result ≡ overrides.source_with_modules_as_api source }
{
    match source {
        Source::Modules => Source::Api,
        other => other,
    }
}

fn copy_optional_path(
    alloc: Global,
    path: &Option<PathText>,
) -> Result<Option<PathText>, OutOfMemory>
    ensures { IfOk result (λ copy. copy ≡ path.now) }
{
    match path {
        Some(path) => Ok(Some(PathText::from_bytes(alloc, path.as_bytes())?)),
        None => Ok(None),
    }
}

/// Where overrides are read.
fn metadata_of_overrides(alloc: Global, meta: &Metadata) -> Result<Metadata, OutOfMemory>
    ensures { IfOk result (λ made. made ≡ overrides.metadata_of_overrides meta.now) }
{
    Ok(Metadata {
        source: source_with_modules_as_api(meta.source),
        path: copy_optional_path(alloc, &meta.path)?,
    })
}

/// Names in the order of their bytes, with one more in its place, unless it is there.
fn ordered_names_with_name(
    alloc: Global,
    mut names: BTreeSet<Bytes>,
    name: Option<&[u8]>,
) -> Result<BTreeSet<Bytes>, OutOfMemory>
    ensures { IfOk result (λ more. more.keys ≡ overrides.ordered_names_with_name names.keys
        (option_copied name.entry)) }
{
    let Some(name) = name else {
        return Ok(names);
    };
    names.insert(Bytes::from_slice(alloc, name)?)?;
    Ok(names)
}

/// The names that a configuration tells, in the order of their bytes.
fn ordered_submodule_names(
    alloc: Global,
    config: &config::File,
) -> Result<BTreeSet<Bytes>, OutOfMemory>
    ensures { IfOk result (λ made. made.keys ≡ overrides.ordered_submodule_names
        config.now.sections) }
{
    let mut names = BTreeSet::new(alloc);
    for section in config.sections_by_name(b"submodule") {
        names = ordered_names_with_name(alloc, names, section.subsection_name())?;
    }
    Ok(names)
}

/// Whether a submodule has a value of a key.
fn submodule_has_key(config: &config::File, name: &[u8], key: &[u8]) -> bool
    ensures { result ≡ is_some (overrides.value name.now key.now config.now.sections) }
{
    config.string(b"submodule", Some(name), key).is_some()
}

/// Whether a submodule has some key that overrides.
fn has_overriding_key(config: &config::File, name: &[u8]) -> bool
    ensures { result ≡ overrides.has_overriding_key config.now.sections name.now }
{
    submodule_has_key(config, name, b"branch")
        || submodule_has_key(config, name, b"fetchRecurseSubmodules")
        || submodule_has_key(config, name, b"ignore")
        || submodule_has_key(config, name, b"update")
        || submodule_has_key(config, name, b"url")
}

/// Adds a key of a submodule with its last value, if it has one, to the one section that is there.
fn add_override_of_key(
    alloc: Global,
    made: &mut config::File,
    config: &config::File,
    name: &[u8],
    key: &[u8],
) -> Result<(), OutOfMemory>
    requires one { length made.old.sections ≡ 1 }
    requires key { IsTrue (writers.is_key_name key.now) }
    ensures added { OnOk result (made.new.sections ≡ building.extend_first_section
        (overrides.override name.now key.now config.now.sections) made.old.sections) }
    ensures one { length made.new.sections ≡ 1 }
{
    match config.string(b"submodule", Some(name), key) {
        Some(value) => made.push_value(alloc, key, value),
        None => Ok(()),
    }
}

/// The override of a submodule, as a configuration of one section or none.
/// See docs/DECISIONS.md#empty-override.
/// See docs/DIFFERENCES.md#module-override-without-value.
fn override_config_of_submodule(
    alloc: Global,
    config: &config::File,
    name: &[u8],
) -> Result<config::File, OutOfMemory>
    ensures { IfOk result (λ made. made.sections ≡ overrides.override_section_if_overriding
        (overrides.metadata_of_overrides config.now.meta) config.now.sections name.now) }
{
    let mut made = config::File::new(alloc, metadata_of_overrides(alloc, config.meta())?);
    if !has_overriding_key(config, name) {
        return Ok(made);
    }
    made.push_section(alloc, b"submodule", name)?;
    add_override_of_key(alloc, &mut made, config, name, b"branch")?;
    add_override_of_key(alloc, &mut made, config, name, b"fetchRecurseSubmodules")?;
    add_override_of_key(alloc, &mut made, config, name, b"ignore")?;
    add_override_of_key(alloc, &mut made, config, name, b"update")?;
    add_override_of_key(alloc, &mut made, config, name, b"url")?;
    Ok(made)
}

/// The overrides of a configuration.
pub(crate) fn override_config_of_all_submodules(
    alloc: Global,
    config: &config::File,
) -> Result<config::File, OutOfMemory>
    ensures { IfOk result (λ made. made.sections ≡ overrides.overrides config.now) }
{
    let mut made = config::File::new(alloc, metadata_of_overrides(alloc, config.meta())?);
    let names = ordered_submodule_names(alloc, config)?;
    for name in &names {
        made.append(
            alloc,
            override_config_of_submodule(alloc, config, name.as_bytes())?,
        )?;
    }
    Ok(made)
}
