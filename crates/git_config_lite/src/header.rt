//! The header of a section.
ghost use Rattle.std.specs.Prelude.{◌≡◌, option_map, IfOk};
ghost use Rattle.git_config_lite.specs.Headers as headers;
ghost use Rattle.git_config_lite.specs.Seen as seen;

use crate::subsection::{QuotedText, parse_quoted_subsection};
use crate::text::{
    begins_with_byte, begins_with_section_name_byte, begins_with_space_or_tab,
    bytes_after_first_byte, length_of_leading_section_name, without_leading_blanks,
};
use gitbase_core::{Bytes, OutOfMemory};
use std::alloc::Global;

/// A header, and what is behind its bracket.
#[derive(Debug, Drop)]
pub struct HeadedLine<'a> {
    pub name: &'a [u8],
    pub subsection: Option<Bytes>,
    pub rest: &'a [u8],
}

/// The header of a name and a subsection, where the bracket follows.
fn header_with_subsection<'a>(
    name: &'a [u8],
    found: Option<QuotedText<'a>>,
) -> Option<HeadedLine<'a>>
    ensures { option_map seen.header_of_headed_line result ≡ headers.header_with_subsection name.now
        (option_map seen.subsection_of_quoted_text found.entry) }
{
    let Some(found) = found else {
        return None;
    };
    if !begins_with_byte(b']', found.rest) {
        return None;
    }
    Some(HeadedLine {
        name,
        subsection: Some(found.text),
        rest: bytes_after_first_byte(found.rest),
    })
}

/// The header of a name, by what is behind that.
/// See docs/DIFFERENCES.md#config-nameless-header.
/// See docs/DIFFERENCES.md#config-dotted-section.
fn parse_header_after_name<'a>(
    alloc: Global,
    name: &'a [u8],
    rest: &'a [u8],
) -> Result<Option<HeadedLine<'a>>, OutOfMemory>
    ensures { IfOk result (λ found. option_map seen.header_of_headed_line found
        ≡ headers.parse_header_after_name name.now rest.now) }
{
    if begins_with_byte(b']', rest) {
        return Ok(Some(HeadedLine {
            name,
            subsection: None,
            rest: bytes_after_first_byte(rest),
        }));
    }
    if !begins_with_space_or_tab(rest) {
        return Ok(None);
    }
    let opened = without_leading_blanks(rest);
    if !begins_with_byte(b'"', opened) {
        return Ok(None);
    }
    let found = parse_quoted_subsection(alloc, bytes_after_first_byte(opened))?;
    Ok(header_with_subsection(name, found))
}

/// The header at the start of some bytes, behind its opening bracket. None where it is outside the
/// grammar. See docs/DIFFERENCES.md#config-second-header. See
/// docs/DIFFERENCES.md#config-open-header.
pub fn parse_header_after_bracket(
    alloc: Global,
    bytes: &[u8],
) -> Result<Option<HeadedLine<'_>>, OutOfMemory>
    ensures { IfOk result (λ found. option_map seen.header_of_headed_line found
        ≡ headers.parse_header_after_bracket bytes.now) }
{
    if !begins_with_section_name_byte(bytes) {
        return Ok(None);
    }
    let (name, rest) = bytes.split_at(length_of_leading_section_name(bytes));
    parse_header_after_name(alloc, name, rest)
}
