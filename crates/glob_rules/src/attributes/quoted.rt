//! Patterns in double quotes.
ghost use Rattle.std.specs.Prelude.{◌≡◌, false, None, Some, IfOk, MatchOption};
ghost use Rattle.glob_rules.specs.AttributeLines as lines;

use gitbase_core::{Bytes, OutOfMemory};
use std::alloc::Global;

/// What a byte between quotes is there.
#[derive(Clone, Copy, Debug)]
pub enum Quoted {
    /// The closing quote.
    Closes,
    /// The `\` before a quote or another `\`.
    Escapes,
    /// A byte of the text.
    Stands,
    /// One that may not stand there.
    Breaks,
}

/// What a byte between quotes is there; `escaped` says that a `\` stands before it.
fn role_of_byte_in_quotes(escaped: bool, byte: u8) -> Quoted
    ensures { result ≡ lines.role_of_byte_in_quotes escaped byte }
{
    match (escaped, byte) {
        (true, b'"') => Quoted::Stands,
        (true, b'\\') => Quoted::Stands,
        (true, _) => Quoted::Breaks,
        (false, b'"') => Quoted::Closes,
        (false, b'\\') => Quoted::Escapes,
        (false, _) => Quoted::Stands,
    }
}

/// The text up to the closing quote, and what follows that; none where there is no such quote, or a
/// `\` stands before another byte than a quote or a `\`. See
/// docs/DIFFERENCES.md#attributes-escapes.
pub fn unquoted_text_and_rest(
    alloc: Global,
    bytes: &[u8],
) -> Result<Option<(Bytes, &[u8])>, OutOfMemory>
    ensures { IfOk result (λ read. MatchOption read (lines.unquoted_text_and_rest false bytes.now
        ≡ None) (λ parts. lines.unquoted_text_and_rest false bytes.now
        ≡ Some (parts.0, parts.1.now))) }
{
    let mut text = Vec::new(alloc);
    let mut escaped = false;
    let mut rest = bytes;
    while let Some((byte, after)) = rest.split_first() {
        match role_of_byte_in_quotes(escaped, *byte) {
            Quoted::Closes => return Ok(Some((Bytes::from_vec(text), after))),
            Quoted::Breaks => return Ok(None),
            Quoted::Escapes => escaped = true,
            Quoted::Stands => {
                text.push(*byte)?;
                escaped = false;
            }
        }
        rest = after;
    }
    Ok(None)
}
