//! Paths as texts: some bytes stand as a backslash and two hexadecimal digits.
ghost use Rattle.std.specs.Prelude.{◌≡◌, ◌+◌, ◌*◌, ◌<◌, length, ◌++◌, [], ◌∷◌, drop, option_map, OnOk, IfOk};
ghost use Rattle.std.specs.List.{list_any};
ghost use Rattle.worktree_report.specs.Escapes.{hex_digit, needs_escape, hex_escape_of_byte, byte_escaped_if_needed, path_escaped, byte_escaped_in_word, path_escaped_in_word, value_of_hex_digit, byte_from_two_hex_digits, unescape_path};
ghost use Rattle.worktree_report.specs.Spelled.{BeginsWithSpelledByte};

use gitbase_core::{OutOfMemory, PathText};
use std::alloc::Global;

/// The lower-case hexadecimal digit of a number.
fn hex_digit(n: u8) -> u8
    requires { n < 16 }
    ensures { result ≡ hex_digit n }
{
    if n < 10 { b'0' + n } else { b'a' - 10 + n }
}

/// Whether a byte stands escaped: a control byte, DEL or the backslash.
fn needs_escape(byte: u8) -> bool
    ensures { result ≡ needs_escape byte }
{
    byte < 32 || byte == 127 || byte == b'\\'
}

/// Adds a byte as a backslash and two digits.
fn append_byte_as_hex_escape(text: &mut Vec<u8>, byte: u8) -> Result<(), OutOfMemory>
    ensures { OnOk result (text.new.items ≡ text.old.items ++ hex_escape_of_byte byte) }
{
    text.push(b'\\')?;
    text.push(hex_digit(byte / 16))?;
    text.push(hex_digit(byte % 16))?;
    Ok(())
}

/// Adds a byte of a path, escaped where it must be.
fn append_byte_escaped(text: &mut Vec<u8>, byte: u8) -> Result<(), OutOfMemory>
    ensures { OnOk result (text.new.items ≡ text.old.items ++ byte_escaped_if_needed byte) }
{
    if needs_escape(byte) {
        return append_byte_as_hex_escape(text, byte);
    }
    text.push(byte)?;
    Ok(())
}

/// The same within a word, which spaces end.
fn append_byte_escaped_in_word(text: &mut Vec<u8>, byte: u8) -> Result<(), OutOfMemory>
    ensures { OnOk result (text.new.items ≡ text.old.items ++ byte_escaped_in_word byte) }
{
    if needs_escape(byte) || byte == b' ' {
        return append_byte_as_hex_escape(text, byte);
    }
    text.push(byte)?;
    Ok(())
}

/// Whether a byte of a path stands escaped.
fn has_byte_to_escape(path: &[u8]) -> bool
    ensures { result ≡ list_any needs_escape path.now }
{
    path.iter().any(|byte| needs_escape(*byte))
}

/// Adds a path as the report writes it, byte by byte.
fn append_each_byte_escaped(text: &mut Vec<u8>, path: &[u8]) -> Result<(), OutOfMemory>
    ensures { OnOk result (text.new.items ≡ text.old.items ++ path_escaped path.now) }
{
    for byte in path {
        append_byte_escaped(text, *byte)?;
    }
    Ok(())
}

/// Adds a path as the report writes it.
///
/// # Errors
///
/// Memory was refused.
pub fn append_path_escaped(text: &mut Vec<u8>, path: &[u8]) -> Result<(), OutOfMemory>
    ensures { OnOk result (text.new.items ≡ text.old.items ++ path_escaped path.now) }
{
    if has_byte_to_escape(path) {
        return append_each_byte_escaped(text, path);
    }
    text.extend_from_slice(path)?;
    Ok(())
}

/// Adds a path as a word of the report has it.
///
/// # Errors
///
/// Memory was refused.
pub fn append_path_hex_escaped(text: &mut Vec<u8>, path: &[u8]) -> Result<(), OutOfMemory>
    ensures { OnOk result (text.new.items ≡ text.old.items ++ path_escaped_in_word path.now) }
{
    for byte in path {
        append_byte_escaped_in_word(text, *byte)?;
    }
    Ok(())
}

/// The value of a lower-case hexadecimal digit.
fn value_of_hex_digit(byte: u8) -> Option<u8>
    ensures { result ≡ value_of_hex_digit byte }
{
    match byte {
        b'0'..=b'9' => Some(byte - b'0'),
        b'a'..=b'f' => Some(byte - b'a' + 10),
        _ => None,
    }
}

/// The byte that the first two bytes write as hexadecimal digits.
fn byte_from_two_hex_digits(bytes: &[u8]) -> Option<u8>
    ensures { result ≡ byte_from_two_hex_digits bytes.now }
{
    if bytes.len() < 2 {
        return None;
    }
    let high = value_of_hex_digit(bytes[0])?;
    let low = value_of_hex_digit(bytes[1])?;
    Some(16 * high + low)
}

/// A byte that a text stands for, and how many more bytes than one spell it.
#[derive(Clone, Copy, Debug)]
struct Spelled {
    byte: u8,
    more: usize,
}

/// The byte that a text stands for at its beginning. None where a backslash is not followed by two
/// digits.
fn leading_byte_unescaped(first: u8, rest: &[u8]) -> Option<Spelled>
    ensures { BeginsWithSpelledByte result first rest.now }
{
    if first != b'\\' {
        return Some(Spelled {
            byte: first,
            more: 0,
        });
    }
    let Some(byte) = byte_from_two_hex_digits(rest) else {
        return None;
    };
    Some(Spelled { byte, more: 2 })
}

/// The path that a text stands for. None where a backslash is not followed by two lower-case
/// hexadecimal digits.
///
/// # Errors
///
/// Memory was refused.
pub fn unescape_path(alloc: Global, text: &[u8]) -> Result<Option<PathText>, OutOfMemory>
    ensures { IfOk result (λ path. path ≡ unescape_path text.now) }
{
    let mut bytes = Vec::new(alloc);
    let mut rest = text;
    while let Some((first, after)) = rest.split_first() {
        let Some(byte) = leading_byte_unescaped(*first, after) else {
            return Ok(None);
        };
        bytes.push(byte.byte)?;
        let (_, after) = after.split_at(byte.more);
        rest = after;
    }
    Ok(Some(PathText::from_vec(bytes)))
}
