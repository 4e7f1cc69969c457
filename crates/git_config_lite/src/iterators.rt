//! The sections of a configuration, and the values of a key, one after another.
ghost use Rattle.std.specs.Prelude.{◌≡◌, ◌∷◌, [], Some, option_copied, MatchOption};
ghost use Rattle.std.specs.Iterator.{YieldsFirstRef, item_count};
ghost use Rattle.git_config_lite.specs.Lookups as lookups;

use crate::left::{Left, next_value_and_rest};
use crate::section::Section;
use std::marker::Model;

/// Sections in their order.
///
/// Contracts see the list of those that are left.
#[derive(Drop)]
pub struct Sections<'a> {
    rest: &'a [Section],
    name: Option<&'a [u8]>,
}

impl<'a> Model for Sections<'a> {
    ghost use Rattle.std.specs.Prelude.{List, option_copied};
    ghost use Rattle.git_config_lite.specs.Sections as words;
    ghost use Rattle.git_config_lite.specs.Lookups.{sections_of_name};

    ghost Value = { List words.Section };

    ghost view = { λ left. sections_of_name (option_copied left.name) left.rest.now };
}

impl<'a> Sections<'a> {
    /// All sections.
    pub(crate) fn all(sections: &'a [Section]) -> Sections<'a>
        ensures { result ≡ sections.now }
    {
        Sections {
            rest: sections,
            name: None,
        }
    }

    /// The sections of a name.
    pub(crate) fn filtered_by_name(sections: &'a [Section], name: &'a [u8]) -> Sections<'a>
        ensures { result ≡ lookups.sections_of_name (Some name.now) sections.now }
    {
        Sections {
            rest: sections,
            name: Some(name),
        }
    }
}

impl<'a> Iterator for Sections<'a> {
    type Item = &'a Section;

    ghost next_gives = { YieldsFirstRef (λ left. left) };

    ghost remaining = { item_count (λ left. left) };

    fn next(&mut self) -> Option<&'a Section> {
        let (section, rest) = first_section_of_name_and_rest(self.rest, self.name)?;
        self.rest = rest;
        Some(section)
    }
}

/// Whether a section has a name, where one is asked for.
fn has_name_if_given(section: &Section, name: Option<&[u8]>) -> bool
    ensures { result ≡ lookups.has_name_if_given (option_copied name.entry) section.now }
{
    match name {
        Some(name) => section.is_named(name),
        None => true,
    }
}

/// The first section of a name, and those behind it.
fn first_section_of_name_and_rest<'a>(
    sections: &'a [Section],
    name: Option<&[u8]>,
) -> Option<(&'a Section, &'a [Section])>
    ensures { MatchOption result
        (lookups.sections_of_name (option_copied name.entry) sections.now ≡ [])
        (λ found. lookups.sections_of_name (option_copied name.entry) sections.now
        ≡ found.0.now ∷ lookups.sections_of_name (option_copied name.entry) found.1.now) }
{
    let mut rest = sections;
    while let Some((section, after)) = rest.split_first() {
        if has_name_if_given(section, name) {
            return Some((section, after));
        }
        rest = after;
    }
    None
}

/// The values of a key, in their order.
///
/// Contracts see the list of those that are left.
#[derive(Drop)]
pub struct Values<'a> {
    left: Left<'a>,
}

impl<'a> Model for Values<'a> {
    ghost use Rattle.std.specs.Prelude.{ℕ, List};
    ghost use Rattle.git_config_lite.specs.Left.{values_left};

    ghost Value = { List (List ℕ) };

    ghost view = { λ values. values_left values.left };
}

impl<'a> Values<'a> {
    /// The values of a key in the sections of a name and subsection.
    pub(crate) fn new(
        sections: &'a [Section],
        name: &'a [u8],
        subsection: Option<&'a [u8]>,
        key: &'a [u8],
    ) -> Values<'a>
        ensures { result ≡ lookups.all_string_values name.now (option_copied subsection.entry)
            key.now sections.now }
    {
        Values {
            left: Left {
                entries: &[],
                sections,
                name,
                subsection,
                key,
            },
        }
    }
}

impl<'a> Iterator for Values<'a> {
    type Item = &'a [u8];

    ghost next_gives = { YieldsFirstRef (λ left. left) };

    ghost remaining = { item_count (λ left. left) };

    fn next(&mut self) -> Option<&'a [u8]> {
        let (value, left) = next_value_and_rest(self.left)?;
        self.left = left;
        Some(value)
    }
}
