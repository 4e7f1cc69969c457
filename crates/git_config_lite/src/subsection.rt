//! The subsection of a header, in its double quotes.
ghost use Rattle.std.specs.Prelude.{◌≡◌, false, option_map, IfOk};
ghost use Rattle.git_config_lite.specs.Headers.{parse_quoted_subsection};
ghost use Rattle.git_config_lite.specs.Headers as headers;
ghost use Rattle.git_config_lite.specs.Seen as seen;

use gitbase_core::{Bytes, OutOfMemory};
use std::alloc::Global;

/// What a byte of a subsection does.
#[derive(Clone, Copy, Debug, PartialEq, Eq)]
pub enum SubsectionByte {
    /// It may not stand there.
    Outside,
    /// It ends the subsection.
    Closes,
    /// The byte behind it stands for itself.
    Escapes,
    /// It stands for itself.
    Stands,
}

/// A subsection, and what is behind its closing quote.
#[derive(Debug, Drop)]
pub struct QuotedText<'a> {
    pub text: Bytes,
    pub rest: &'a [u8],
}

/// What a byte does, behind a backslash or not.
fn effect_of_subsection_byte(is_escaped: bool, byte: u8) -> SubsectionByte
    ensures { result ≡ headers.effect_of_subsection_byte is_escaped byte }
{
    if byte == 0 {
        SubsectionByte::Outside
    } else if is_escaped {
        SubsectionByte::Stands
    } else if byte == b'"' {
        SubsectionByte::Closes
    } else if byte == b'\\' {
        SubsectionByte::Escapes
    } else {
        SubsectionByte::Stands
    }
}

/// The subsection at the start of some bytes, behind its opening quote. None where it is not
/// closed, or has a NUL. See docs/DIFFERENCES.md#config-nul-subsection.
pub fn parse_quoted_subsection(
    alloc: Global,
    bytes: &[u8],
) -> Result<Option<QuotedText<'_>>, OutOfMemory>
    ensures { IfOk result (λ found. option_map seen.subsection_of_quoted_text found
        ≡ parse_quoted_subsection false bytes.now) }
{
    let mut text = Vec::new(alloc);
    let mut rest = bytes;
    let mut is_escaped = false;
    while let Some((first, after)) = rest.split_first() {
        match effect_of_subsection_byte(is_escaped, *first) {
            SubsectionByte::Outside => return Ok(None),
            SubsectionByte::Closes => {
                return Ok(Some(QuotedText {
                    text: Bytes::from_vec(text),
                    rest: after,
                }));
            }
            SubsectionByte::Escapes => is_escaped = true,
            SubsectionByte::Stands => {
                text.push(*first)?;
                is_escaped = false;
            }
        }
        rest = after;
    }
    Ok(None)
}
