//! How values are found among sections.
ghost use Rattle.std.specs.Prelude.{◌≡◌, option_copied, option_map};
ghost use Rattle.git_config_lite.specs.Lookups as lookups;
ghost use Rattle.git_config_lite.specs.Gives.{boolean_with_error_text};
ghost use Rattle.git_config_lite.specs.Seen as seen;

use crate::boolean::{is_equal_ignoring_ascii_case, parse_boolean};
use crate::entry::Entry;
use crate::error::ValueError;
use crate::found::FoundValue;
use crate::section::Section;

/// Whether a subsection, or none, is this one.
pub fn is_same_subsection(found: Option<&[u8]>, asked: Option<&[u8]>) -> bool
    ensures { result
        ≡ lookups.is_same_subsection (option_copied found.entry) (option_copied asked.entry) }
{
    match found {
        None => match asked {
            None => true,
            Some(_) => false,
        },
        Some(found) => match asked {
            None => false,
            Some(asked) => found == asked,
        },
    }
}

/// Whether an entry has this key, in whatever case its letters are.
pub fn entry_has_key(key: &[u8], entry: &Entry) -> bool
    ensures { result ≡ lookups.entry_has_key key.now entry.now }
{
    is_equal_ignoring_ascii_case(entry.key.as_bytes(), key)
}

/// The value of a key, if it has one.
pub fn value_of_entry(entry: &Entry) -> Option<&[u8]>
    ensures { option_copied result ≡ entry.now.value }
{
    match &entry.value {
        Some(value) => Some(value.as_bytes()),
        None => None,
    }
}

/// A value as a text.
/// See docs/DIFFERENCES.md#gix-valueless-key.
pub fn value_or_empty_text(value: Option<&[u8]>) -> &[u8]
    ensures { result.now ≡ lookups.value_or_empty_text (option_copied value.entry) }
{
    match value {
        Some(text) => text,
        None => b"",
    }
}

/// The last of some keys that is this one.
pub fn last_entry_with_key<'a>(entries: &'a [Entry], key: &[u8]) -> Option<&'a Entry>
    ensures { option_copied result ≡ lookups.last_entry_with_key key.now entries.now }
{
    let mut at = entries.len();
    while at > 0 {
        at -= 1;
        let entry = &entries[at];
        if entry_has_key(key, entry) {
            return Some(entry);
        }
    }
    None
}

/// The last value of a key: that of the last section that has one.
pub fn last_value_in_sections<'a>(
    sections: &'a [Section],
    name: &[u8],
    subsection: Option<&[u8]>,
    key: &[u8],
) -> Option<FoundValue<'a>>
    ensures { option_map seen.found result ≡ lookups.last_value_in_sections name.now
        (option_copied subsection.entry) key.now sections.now }
{
    let mut at = sections.len();
    while at > 0 {
        at -= 1;
        if let Some(found) = sections[at].found(name, subsection, key) {
            return Some(found);
        }
    }
    None
}

/// What a value says as a boolean.
fn boolean_of_value(value: Option<&[u8]>) -> Result<Option<bool>, ValueError<'_>>
    ensures { boolean_with_error_text result ≡ lookups.boolean_of_value
        (option_copied value.entry) }
{
    let Some(text) = value else {
        return Ok(Some(true));
    };
    match parse_boolean(text) {
        Some(answer) => Ok(Some(answer)),
        None => Err(ValueError { input: text }),
    }
}

/// What a value says as a boolean, where one was found.
pub fn boolean_of_found_value(found: Option<FoundValue<'_>>) -> Result<Option<bool>, ValueError<'_>>
    ensures { boolean_with_error_text result ≡ lookups.boolean_of_found_value
        (option_map seen.found found.entry) }
{
    match found {
        Some(found) => boolean_of_value(found.value),
        None => Ok(None),
    }
}
