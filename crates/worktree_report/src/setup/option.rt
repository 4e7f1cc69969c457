//! The options of a setup.
ghost use Rattle.std.specs.Prelude.{◌≡◌, ◌&&◌, option_copied, IfOk};
ghost use Rattle.std.specs.Str.{bytes_eq};
ghost use Rattle.worktree_report.specs.SetupOptions.{is_classification_switch, is_reporting_switch, is_emission_value, is_collapsed_emission_value, is_deletion_value, is_ignore_source_value, is_permissions_value, is_strategy_value, is_valid_source_or_strategy, is_valid_option_value, parse_option_line, is_option_set, is_option_set_to, first_option_of_name};

use crate::setup::field::split_at_first_space;
use gitbase_core::{Bytes, OutOfMemory};
use std::alloc::Global;

/// A name and a value, as a line sets them.
#[derive(Debug, Drop)]
pub struct SetupOption {
    pub name: Bytes,
    pub value: Bytes,
}

/// Whether an option is no or yes, and says how paths are looked at.
fn is_classification_switch(name: &[u8]) -> bool
    ensures { result ≡ is_classification_switch name.now }
{
    name == b"excludes".as_slice()
        || name == b"precious".as_slice()
        || name == b"strict_parents".as_slice()
        || name == b"ignore_case".as_slice()
        || name == b"recurse_repositories".as_slice()
        || name == b"classify_untracked_bare_repositories".as_slice()
        || name == b"symlinks_to_directories_are_ignored_like_directories".as_slice()
}

/// Whether an option is no or yes, and says what is reported.
fn is_reporting_switch(name: &[u8]) -> bool
    ensures { result ≡ is_reporting_switch name.now }
{
    name == b"emit_pruned".as_slice()
        || name == b"emit_tracked".as_slice()
        || name == b"emit_empty_directories".as_slice()
        || name == b"origins".as_slice()
        || name == b"submodules".as_slice()
        || name == b"print_outcome".as_slice()
}

/// Whether a value says how paths of a kind are reported.
fn is_emission_value(value: &[u8]) -> bool
    ensures { result ≡ is_emission_value value.now }
{
    value == b"matching".as_slice() || value == b"collapse".as_slice()
}

/// Whether a value says which paths are reported besides the directory that was folded over them.
fn is_collapsed_emission_value(value: &[u8]) -> bool
    ensures { result ≡ is_collapsed_emission_value value.now }
{
    value == b"mismatch".as_slice() || value == b"all".as_slice()
}

/// Whether a value says how deletion goes about ignored directories.
fn is_deletion_value(value: &[u8]) -> bool
    ensures { result ≡ is_deletion_value value.now }
{
    value == b"hide".as_slice() || value == b"nonbare".as_slice() || value == b"all".as_slice()
}

/// Whether a value says where rules files are read.
fn is_ignore_source_value(value: &[u8]) -> bool
    ensures { result ≡ is_ignore_source_value value.now }
{
    value == b"worktree".as_slice() || value == b"mapping".as_slice()
}

/// Whether a value says which configurations are read.
fn is_permissions_value(value: &[u8]) -> bool
    ensures { result ≡ is_permissions_value value.now }
{
    value == b"secure".as_slice() || value == b"all".as_slice() || value == b"isolated".as_slice()
}

/// Whether a value says how subtrees are walked.
fn is_strategy_value(value: &[u8]) -> bool
    ensures { result ≡ is_strategy_value value.now }
{
    value == b"held".as_slice() || value == b"at_once".as_slice()
}

/// Whether an option that says where files are read, or how subtrees are walked, may have a value.
fn is_valid_source_or_strategy(name: &[u8], value: &[u8]) -> bool
    ensures { result ≡ is_valid_source_or_strategy name.now value.now }
{
    if name == b"ignore_source".as_slice() {
        is_ignore_source_value(value)
    } else if name == b"permissions".as_slice() {
        is_permissions_value(value)
    } else {
        name == b"strategy".as_slice() && is_strategy_value(value)
    }
}

/// Whether an option may have a value.
fn is_valid_option_value(name: &[u8], value: &[u8]) -> bool
    ensures { result ≡ is_valid_option_value name.now value.now }
{
    if is_classification_switch(name) || is_reporting_switch(name) {
        value == b"no".as_slice() || value == b"yes".as_slice()
    } else if name == b"emit_untracked".as_slice() {
        is_emission_value(value)
    } else if name == b"emit_ignored".as_slice() {
        value == b"no".as_slice() || is_emission_value(value)
    } else if name == b"emit_collapsed".as_slice() {
        value == b"no".as_slice() || is_collapsed_emission_value(value)
    } else if name == b"for_deletion".as_slice() {
        value == b"no".as_slice() || is_deletion_value(value)
    } else {
        is_valid_source_or_strategy(name, value)
    }
}

/// The option that a line sets behind its keyword. None where there is no such option or value.
pub fn parse_option_line(alloc: Global, rest: &[u8]) -> Result<Option<SetupOption>, OutOfMemory>
    ensures { IfOk result (λ option. option ≡ parse_option_line rest.now) }
{
    let Some(fields) = split_at_first_space(rest) else {
        return Ok(None);
    };
    if !is_valid_option_value(fields.word, fields.rest) {
        return Ok(None);
    }
    Ok(Some(SetupOption {
        name: Bytes::from_slice(alloc, fields.word)?,
        value: Bytes::from_slice(alloc, fields.rest)?,
    }))
}

/// Whether an option is set.
pub fn is_option_set(name: &[u8], options: &[SetupOption]) -> bool
    ensures { result ≡ is_option_set name.now options.now }
{
    options.iter().any(|option| option.name.as_bytes() == name)
}

fn has_name_and_value(option: &SetupOption, name: &[u8], value: &[u8]) -> bool
    ensures { result ≡ (bytes_eq option.now.name name.now && bytes_eq option.now.value value.now) }
{
    option.name.as_bytes() == name && option.value.as_bytes() == value
}

/// Whether an option is set to a value.
pub fn is_option_set_to(name: &[u8], value: &[u8], options: &[SetupOption]) -> bool
    ensures { result ≡ is_option_set_to name.now value.now options.now }
{
    options
        .iter()
        .any(|option| has_name_and_value(option, name, value))
}

/// The first option of this name, or the first line of such a keyword.
pub fn first_option_of_name<'a>(name: &[u8], options: &'a [SetupOption]) -> Option<&'a SetupOption>
    ensures { option_copied result ≡ first_option_of_name name.now options.now }
{
    options.iter().find(|option| option.name.as_bytes() == name)
}
