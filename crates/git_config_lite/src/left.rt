//! The values of a key that are left while they are gone through.
ghost use Rattle.std.specs.Prelude.{◌≡◌, ◌∷◌, [], MatchOption};
ghost use Rattle.git_config_lite.specs.Lookups.{values_of_key_in_entries};
ghost use Rattle.git_config_lite.specs.Left.{values_left};

use crate::entry::Entry;
use crate::lookup::{entry_has_key, value_of_entry, value_or_empty_text};
use crate::section::Section;

/// What is left of a look-up: the rest of a section's keys, and the sections behind it.
#[derive(Clone, Copy, Debug)]
pub struct Left<'a> {
    pub entries: &'a [Entry],
    pub sections: &'a [Section],
    pub name: &'a [u8],
    pub subsection: Option<&'a [u8]>,
    pub key: &'a [u8],
}

/// The first value of a key among some keys, and the keys behind it.
fn first_value_of_key_and_rest<'a>(
    entries: &'a [Entry],
    key: &[u8],
) -> Option<(&'a [u8], &'a [Entry])>
    ensures { MatchOption result (values_of_key_in_entries key.now entries.now ≡ [])
        (λ found. values_of_key_in_entries key.now entries.now
        ≡ found.0.now ∷ values_of_key_in_entries key.now found.1.now) }
{
    let mut rest = entries;
    while let Some((entry, after)) = rest.split_first() {
        if entry_has_key(key, entry) {
            return Some((value_or_empty_text(value_of_entry(entry)), after));
        }
        rest = after;
    }
    None
}

/// The first value that is left, and what is left behind it.
pub fn next_value_and_rest(left: Left<'_>) -> Option<(&[u8], Left<'_>)>
    ensures { MatchOption result (values_left left.entry ≡ [])
        (λ found. values_left left.entry ≡ found.0.now ∷ values_left found.1) }
{
    let mut entries = left.entries;
    let mut sections = left.sections;
    loop {
        if let Some((text, after)) = first_value_of_key_and_rest(entries, left.key) {
            let behind = Left {
                entries: after,
                sections,
                name: left.name,
                subsection: left.subsection,
                key: left.key,
            };
            return Some((text, behind));
        }
        let Some((section, more)) = sections.split_first() else {
            return None;
        };
        entries = section.entries_if_section_matches(left.name, left.subsection);
        sections = more;
    }
}
