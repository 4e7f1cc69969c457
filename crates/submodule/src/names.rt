//! The names of submodules.
ghost use Rattle.std.specs.Prelude.{◌≡◌, IfOk, option_copied, OnErr, OnOk};
ghost use Rattle.std.specs.Iterator.{YieldsFirstRef, item_count};
ghost use Rattle.submodule.specs.Names as names;

use crate::update::is_gitmodules_source;
use git_config_lite as config;
use git_config_lite::Section;
use gitbase_core::{Bytes, OutOfMemory};
use std::alloc::Global;
use std::collections::BTreeSet;
use std::marker::Model;

/// The names of submodules, each once, in the order in which `.gitmodules` first tells them.
///
/// Contracts see the list of those that are left.
///
/// See docs/DIFFERENCES.md#gix-names-types.
#[derive(Drop)]
pub struct Names<'a> {
    rest: &'a [Bytes],
}

impl<'a> Model for Names<'a> {
    ghost use Rattle.std.specs.Prelude.{ℕ, List};

    ghost Value = { List (List ℕ) };

    ghost view = { λ left. left.rest.now };
}

impl<'a> Names<'a> {
    pub(crate) fn new(names: &'a [Bytes]) -> Names<'a>
        ensures { result ≡ names.now }
    {
        Names { rest: names }
    }
}

impl<'a> Iterator for Names<'a> {
    type Item = &'a [u8];

    ghost next_gives = { YieldsFirstRef (λ left. left) };

    ghost remaining = { item_count (λ left. left) };

    fn next(&mut self) -> Option<&'a [u8]> {
        let (name, rest) = self.rest.split_first()?;
        self.rest = rest;
        Some(name.as_bytes())
    }
}

/// The name that a section tells, if it is one of `.gitmodules`.
/// See docs/DIFFERENCES.md#module-odd-name.
fn name_if_gitmodules_section(section: &Section) -> Option<&[u8]>
    ensures { option_copied result ≡ names.name_if_gitmodules_section section.now }
{
    if is_gitmodules_source(section.meta().source) {
        section.subsection_name()
    } else {
        None
    }
}

/// Names, each once, in the order in which they came.
///
/// Contracts see their list.
#[derive(Drop)]
struct Known {
    names: Vec<Bytes>,
    /// The same names, among which one is found without passing over all.
    sorted: BTreeSet<Bytes>,
}

impl Model for Known {
    ghost use Rattle.std.specs.Prelude.{ℕ, List};
    ghost use Rattle.submodule.specs.Names.{HaveSameTexts};

    ghost Value = { List (List ℕ) };

    ghost view = { λ known. known.names.items };

    ghost invariant = { λ known. HaveSameTexts known.sorted.keys known.names.items };
}

/// The names with one more, unless it is among them.
fn names_with_name_added_once(
    alloc: Global,
    known: Known,
    name: Option<&[u8]>,
) -> Result<Known, OutOfMemory>
    ensures { IfOk result (λ more. more ≡ names.names_with_name_added_once known
        (option_copied name.entry)) }
{
    let Some(name) = name else {
        return Ok(known);
    };
    let Known {
        mut names,
        mut sorted,
    } = known;
    let is_new = sorted.insert(Bytes::from_slice(alloc, name)?)?;
    if !is_new {
        return Ok(Known { names, sorted });
    }
    names.push(Bytes::from_slice(alloc, name)?)?;
    Ok(Known { names, sorted })
}

/// The names that `.gitmodules` tells.
/// See docs/DECISIONS.md#names-of-modules.
pub(crate) fn submodule_names_of_gitmodules(
    alloc: Global,
    config: &config::File,
) -> Result<Vec<Bytes>, OutOfMemory>
    ensures { IfOk result (λ made. made.items ≡ names.submodule_names_of_gitmodules
        config.now.sections) }
{
    let mut known = Known {
        names: Vec::new(alloc),
        sorted: BTreeSet::new(alloc),
    };
    for section in config.sections_by_name(b"submodule") {
        known = names_with_name_added_once(alloc, known, name_if_gitmodules_section(section))?;
    }
    let Known {
        names,
        sorted: _sorted,
    } = known;
    Ok(names)
}
