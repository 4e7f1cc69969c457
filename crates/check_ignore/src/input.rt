//! The paths of an input.
ghost use Rattle.std.specs.Prelude.{◌≡◌, ◌≤◌, length, map, IfOk};
ghost use Rattle.std.specs.List.{position_or_len};
ghost use Rattle.gitbase_core.specs.Text.{is_nul};
ghost use Rattle.check_ignore.specs.Finds.{AnswersUnlessOutOfMemory};
ghost use Rattle.check_ignore.specs.Input as words;
ghost use Rattle.check_ignore.specs.Unquoted.{unquote_c_style_after_opening_quote};

use crate::options::Checking;
use crate::quotes::unquote_c_style_after_opening_quote;
use crate::stop::Stop;
use gitbase_core::{Bytes, OutOfMemory};
use std::alloc::Global;

/// The byte in which lines end.
pub fn line_feed_or_nul_if_z(checking: &Checking) -> u8
    ensures { result ≡ words.line_feed_or_nul_if_z checking.now }
{
    if checking.ends_in_nul { 0 } else { b'\n' }
}

/// An input without the byte that ends its last line.
fn without_last_terminator(bytes: &[u8], end: u8) -> &[u8]
    ensures { result.now ≡ words.without_last_terminator end bytes.now }
{
    if bytes.is_empty() {
        return bytes;
    }
    if bytes[bytes.len() - 1] == end {
        return &bytes[..bytes.len() - 1];
    }
    bytes
}

/// What stands between the bytes that end lines.
fn split_at_byte(alloc: Global, bytes: &[u8], end: u8) -> Result<Vec<&[u8]>, OutOfMemory>
    ensures { IfOk result (λ lines. map (λ line. line.now) lines.items
        ≡ words.split_at_byte end bytes.now) }
{
    Ok(bytes.split(|b| *b == end).collect(alloc)?)
}

/// The lines of an input, which end in this byte.
pub fn input_lines(alloc: Global, bytes: &[u8], end: u8) -> Result<Vec<&[u8]>, OutOfMemory>
    ensures { IfOk result (λ lines. map (λ line. line.now) lines.items
        ≡ words.input_lines end bytes.now) }
{
    match bytes {
        [] => Ok(Vec::new(alloc)),
        [_, ..] => split_at_byte(alloc, without_last_terminator(bytes, end), end),
    }
}

fn is_nul(byte: u8) -> bool
    ensures { result ≡ is_nul byte }
{
    byte == 0
}

/// How many bytes stand before the first NUL.
fn length_until_nul(text: &[u8]) -> usize
    ensures within { result ≤ length text.now }
    ensures value { result ≡ position_or_len is_nul text.now }
{
    let mut at = 0;
    while at < text.len() && !is_nul(text[at]) {
        at += 1;
    }
    at
}

/// What stands before the first NUL.
fn bytes_before_nul(text: &[u8]) -> &[u8]
    ensures { result.now ≡ words.bytes_before_nul text.now }
{
    &text[..length_until_nul(text)]
}

/// The path that stands in quotes, by what follows the first one.
fn parse_quoted_path(alloc: Global, quoted: &[u8]) -> Result<Bytes, Stop>
    ensures { AnswersUnlessOutOfMemory result (words.path_or_bad_quotes_error
        (unquote_c_style_after_opening_quote 0 quoted.now)) }
{
    match unquote_c_style_after_opening_quote(alloc, quoted)? {
        Some(path) => Ok(Bytes::from_slice(alloc, bytes_before_nul(path.as_bytes()))?),
        None => Err(Stop::BadQuotes),
    }
}

/// The path of a line without NULs.
fn parse_maybe_quoted_path(alloc: Global, line: &[u8]) -> Result<Bytes, Stop>
    ensures { AnswersUnlessOutOfMemory result (words.parse_maybe_quoted_path line.now) }
{
    match line {
        [b'"', quoted @ ..] => parse_quoted_path(alloc, quoted),
        _ => Ok(Bytes::from_slice(alloc, line)?),
    }
}

/// The path of a line.
pub fn parse_path_of_input_line(
    alloc: Global,
    checking: &Checking,
    line: &[u8],
) -> Result<Bytes, Stop>
    ensures { AnswersUnlessOutOfMemory result (words.parse_path_of_input_line checking.now
        line.now) }
{
    if checking.ends_in_nul {
        return Ok(Bytes::from_slice(alloc, line)?);
    }
    parse_maybe_quoted_path(alloc, bytes_before_nul(line))
}
