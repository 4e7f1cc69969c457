//! How rows are cut, and what their words say.
ghost use Rattle.std.specs.Prelude.{◌≡◌, ◌≤◌, length, drop, IfSome};
ghost use Rattle.std.specs.List.{position_or_len};
ghost use Rattle.bstr.specs.Find.{is_byte};
ghost use Rattle.test_cases.specs.Cuts as cuts;

use bstr::ByteSlice;
use std::alloc::Global;

/// Where a byte stands first in a row; the length of the row where it does not stand in it.
fn offset_of_first_byte_or_length(row: &[u8], byte: u8) -> usize
    ensures value { result ≡ position_or_len (is_byte byte) row.now }
    ensures within { result ≤ length row.now }
{
    match row.find_byte(byte) {
        Some(at) => at,
        None => row.len(),
    }
}

/// What is behind the first byte.
fn row_without_first_byte(row: &[u8]) -> &[u8]
    ensures { result.now ≡ drop 1 row.now }
{
    match row {
        [_, after @ ..] => after,
        [] => row,
    }
}

/// What stands before the first byte of this kind, and behind it: the whole row and nothing where
/// there is none.
pub fn split_at_byte(row: &[u8], byte: u8) -> (&[u8], &[u8])
    ensures before { result.0.now ≡ cuts.row_before_byte byte row.now }
    ensures behind { result.1.now ≡ cuts.row_after_byte byte row.now }
{
    let (before, rest) = row.split_at(offset_of_first_byte_or_length(row, byte));
    (before, row_without_first_byte(rest))
}

/// What stands before the first of these marks, and behind it: the whole row and nothing where
/// there is none.
pub fn split_at_mark<'a>(row: &'a [u8], mark: &[u8]) -> (&'a [u8], &'a [u8])
    ensures before { result.0.now ≡ cuts.row_before_mark mark.now row.now }
    ensures behind { result.1.now ≡ cuts.row_after_mark mark.now row.now }
{
    match row.split_once_str(mark) {
        Some((before, behind)) => (before, behind),
        None => (row, b""),
    }
}

/// What a field holds: what is behind the blank, or the line feed and two blanks, that follow its
/// colon.
pub fn held(field: &[u8]) -> &[u8] {
    match field.strip_prefix(b"\n  ") {
        Some(steps) => steps,
        None => field.strip_prefix(b" ").unwrap_or(field),
    }
}

/// The text whose lines are the steps of a field, none where it holds nothing. None for want of
/// memory.
pub fn lines_of_field_steps(alloc: Global, field: &[u8]) -> Option<Vec<u8>> {
    let mut text = Vec::new(alloc);
    let steps = held(field);
    if steps.is_empty() {
        return Some(text);
    }
    for step in steps.split_str(b"\n  ") {
        if text.extend_from_slice(step).is_err() || text.push(b'\n').is_err() {
            return None;
        }
    }
    Some(text)
}

/// A byte of a text: an LF in the place of the mark.
fn line_feed_if_mark(byte: u8, mark: u8) -> u8
    ensures { result ≡ cuts.line_feed_if_mark mark byte }
{
    if byte == mark { b'\n' } else { byte }
}

/// A text with an LF in the place of each mark. None for want of memory.
pub fn replace_marks_by_line_feeds(alloc: Global, text: &[u8], mark: u8) -> Option<Vec<u8>>
    ensures { IfSome result (λ lines. lines.items ≡ cuts.lines mark text.now) }
{
    let mut lines = Vec::new(alloc);
    for byte in text {
        if lines.push(line_feed_if_mark(*byte, mark)).is_err() {
            return None;
        }
    }
    Some(lines)
}

/// The number of some digits, up to the end of the type.
pub fn parse_saturating_decimal(digits: &[u8]) -> usize {
    let mut number = 0usize;
    for byte in digits {
        let digit = usize::from(byte.saturating_sub(b'0'));
        number = number.saturating_mul(10).saturating_add(digit);
    }
    number
}

/// The number of the first digit; 0 where there is none.
pub fn value_of_first_digit(word: &[u8]) -> u8 {
    match word.first() {
        Some(byte) => byte.saturating_sub(b'0'),
        None => 0,
    }
}
