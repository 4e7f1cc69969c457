//! Which sections of a configuration have a subsection, found without passing over all sections.
ghost use Rattle.std.specs.Prelude.{◌≡◌, not, option_copied, option_map, reverse, IfOk};
ghost use Rattle.std.specs.List.{filter, slice_get};
ghost use Rattle.std.specs.List.Sorted.{IsSortedBy};
ghost use Rattle.std.specs.Cmp.Lexicographic.{slice_cmp};
ghost use Rattle.std.specs.Ordering.{nat_cmp, is_lt};
ghost use Rattle.git_config_lite.specs.SectionPlaces as spots;
ghost use Rattle.git_config_lite.specs.Lookups.{last_value_in_sections};
ghost use Rattle.git_config_lite.specs.Seen as seen;

use crate::found::FoundValue;
use crate::section::Section;
use crate::section_place::SectionPlace;
use gitbase_core::{Bytes, OutOfMemory};
use std::alloc::Global;
use std::marker::Model;

/// The places of sections, in the order of the texts by which they are found.
///
/// Contracts see their list.
#[derive(Debug, Drop)]
pub struct Index {
    places: Vec<SectionPlace>,
}

impl Model for Index {
    ghost use Rattle.std.specs.Prelude.{List};
    ghost use Rattle.std.specs.List.Sorted.{IsSortedBy};
    ghost use Rattle.git_config_lite.specs.declared.section_place.SectionPlace as declared;
    ghost use Rattle.git_config_lite.specs.SectionPlaces.{is_subsection_text_before};

    ghost Value = { List declared.SectionPlace };

    ghost view = { λ index. index.places.items };

    ghost invariant = { λ index. IsSortedBy is_subsection_text_before index.places.items };
}

/// The text by which a section of a subsection is found.
fn subsection_or_empty_text(subsection: Option<&[u8]>) -> &[u8]
    ensures { result.now ≡ spots.subsection_or_empty_text (option_copied subsection.entry) }
{
    match subsection {
        Some(text) => text,
        None => b"",
    }
}

/// The places of sections, in their order.
fn places_of_sections(alloc: Global, sections: &[Section]) -> Result<Vec<SectionPlace>, OutOfMemory>
    ensures { IfOk result (λ made. made.items ≡ spots.places_numbered_from 0 sections.now) }
{
    let mut made = Vec::with_capacity(alloc, sections.len())?;
    for section in sections {
        let place = SectionPlace {
            key: Bytes::from_slice(alloc, subsection_or_empty_text(section.subsection_name()))?,
            number: made.len(),
        };
        made.push(place)?;
    }
    Ok(made)
}

/// Whether the text of a place is less than this one.
fn is_subsection_text_below(place: &SectionPlace, key: &[u8]) -> bool
    ensures { result ≡ is_lt (slice_cmp nat_cmp place.now.key key.now) }
{
    place.key.as_bytes().cmp(&key).is_lt()
}

/// Whether the text of a place is not greater than this one.
fn is_subsection_text_at_most(place: &SectionPlace, key: &[u8]) -> bool
    ensures { result ≡ not (is_lt (slice_cmp nat_cmp key.now place.now.key)) }
{
    !key.cmp(&place.key.as_bytes()).is_lt()
}

/// The places of a text, which stand beside one another.
fn places_with_subsection_text<'a>(places: &'a [SectionPlace], key: &[u8]) -> &'a [SectionPlace]
    requires { IsSortedBy spots.is_subsection_text_before places.now }
    ensures { result.now ≡ filter (spots.place_has_subsection_text key.now) places.now }
{
    let start = places.partition_point(|place| is_subsection_text_below(place, key));
    let (_, rest) = places.split_at(start);
    let length = rest.partition_point(|place| is_subsection_text_at_most(place, key));
    let (run, _) = rest.split_at(length);
    run
}

impl Index {
    /// The index of sections; fails only where memory is refused.
    pub fn new(alloc: Global, sections: &[Section]) -> Result<Index, OutOfMemory>
        ensures { IfOk result (λ index. spots.IsSortedIndexOfSections index sections.now) }
    {
        let mut made = places_of_sections(alloc, sections)?;
        made.sort_by(|a, b| a.key.as_bytes().cmp(b.key.as_bytes()))?;
        Ok(Index { places: made })
    }

    /// The last value of a key in the sections of a name and subsection, of which these are all.
    pub fn last_value_by_index<'a>(
        &self,
        sections: &'a [Section],
        name: &[u8],
        subsection: Option<&[u8]>,
        key: &[u8],
    ) -> Option<FoundValue<'a>>
        requires { spots.IsSortedIndexOfSections self.now sections.now }
        ensures { option_map seen.found result ≡ last_value_in_sections name.now
            (option_copied subsection.entry) key.now sections.now }
    {
        let run = places_with_subsection_text(&self.places, subsection_or_empty_text(subsection));
        last_value_at_places(sections, run, name, subsection, key)
    }
}

/// The last value of a key in the sections at some places.
fn last_value_at_places<'a>(
    sections: &'a [Section],
    run: &[SectionPlace],
    name: &[u8],
    subsection: Option<&[u8]>,
    key: &[u8],
) -> Option<FoundValue<'a>>
    ensures { option_map seen.found result ≡ spots.value_of_first_place_with_key name.now
        (option_copied subsection.entry) key.now sections.now (reverse run.now) }
{
    let mut at = run.len();
    while at > 0 {
        at -= 1;
        let section = section_with_number(sections, run[at].number);
        if let Some(found) = last_value_in_optional_section(section, name, subsection, key) {
            return Some(found);
        }
    }
    None
}

/// The section before which so many others stand.
fn section_with_number(sections: &[Section], number: usize) -> Option<&Section>
    ensures { option_copied result ≡ slice_get sections.now number }
{
    sections.get(number)
}

/// The last value of a key in a section, if it is there and the one that is asked for.
fn last_value_in_optional_section<'a>(
    section: Option<&'a Section>,
    name: &[u8],
    subsection: Option<&[u8]>,
    key: &[u8],
) -> Option<FoundValue<'a>>
    ensures { option_map seen.found result
        ≡ spots.last_value_in_optional_section name.now (option_copied subsection.entry) key.now
        (option_copied section.entry) }
{
    match section {
        Some(section) => section.found(name, subsection, key),
        None => None,
    }
}
