//! Paths in quotes, as git's `quote_c_style` writes them.
ghost use Rattle.std.specs.Prelude.{◌≡◌, ◌++◌, OnOk, IfOk};
ghost use Rattle.git_paths.specs.QuotedNames as words;

use gitbase_core::{Bytes, OutOfMemory};
use std::alloc::Global;

/// Whether a byte cannot stand for itself.
fn needs_c_style_escape(byte: u8, quote_path: bool) -> bool
    ensures { result ≡ words.needs_c_style_escape quote_path byte }
{
    byte < 32 || byte == b'"' || byte == b'\\' || byte == 127 || (quote_path && byte > 127)
}

/// Whether a path stands in quotes: it has a control byte, a double quote, a backslash or DEL, or, with `quote_path` (git's
/// `core.quotePath`), a byte above 0x7f.
pub fn path_needs_c_style_quotes(path: &[u8], quote_path: bool) -> bool
    ensures { result ≡ words.path_needs_c_style_quotes quote_path path.now }
{
    path.iter()
        .any(|byte| needs_c_style_escape(*byte, quote_path))
}

/// Adds a byte as three octal digits.
fn append_three_octal_digits(text: &mut Vec<u8>, byte: u8) -> Result<(), OutOfMemory>
    ensures { OnOk result (text.new.items ≡ text.old.items ++ words.three_octal_digits byte) }
{
    text.push(b'0' + byte / 64)?;
    text.push(b'0' + byte / 8 % 8)?;
    text.push(b'0' + byte % 8)?;
    Ok(())
}

/// The one byte that stands for another behind a backslash, where one does.
fn c_escape_letter(byte: u8) -> Option<u8>
    ensures { result ≡ words.c_escape_letter byte }
{
    match byte {
        7 => Some(b'a'),
        8 => Some(b'b'),
        9 => Some(b't'),
        10 => Some(b'n'),
        11 => Some(b'v'),
        12 => Some(b'f'),
        13 => Some(b'r'),
        b'"' => Some(b'"'),
        b'\\' => Some(b'\\'),
        _ => None,
    }
}

/// Adds what stands for a byte behind a backslash.
fn append_escape_after_backslash(text: &mut Vec<u8>, byte: u8) -> Result<(), OutOfMemory>
    ensures { OnOk result (text.new.items ≡ text.old.items ++ words.escape_after_backslash byte) }
{
    match c_escape_letter(byte) {
        Some(letter) => Ok(text.push(letter)?),
        None => append_three_octal_digits(text, byte),
    }
}

/// Adds a byte as it stands in quotes.
fn append_byte_escaped_if_needed(
    text: &mut Vec<u8>,
    byte: u8,
    quote_path: bool,
) -> Result<(), OutOfMemory>
    ensures { OnOk result (text.new.items ≡ text.old.items ++ words.byte_escaped_if_needed
        quote_path byte) }
{
    if needs_c_style_escape(byte, quote_path) {
        text.push(b'\\')?;
        return append_escape_after_backslash(text, byte);
    }
    text.push(byte)?;
    Ok(())
}

/// Adds the bytes of a path as they stand in quotes.
fn append_path_bytes_escaped(
    text: &mut Vec<u8>,
    path: &[u8],
    quote_path: bool,
) -> Result<(), OutOfMemory>
    ensures { OnOk result (text.new.items ≡ text.old.items ++ words.path_bytes_escaped quote_path
        path.now) }
{
    for byte in path {
        append_byte_escaped_if_needed(text, *byte, quote_path)?;
    }
    Ok(())
}

/// Adds a path as git prints it where a line feed ends the line; [`path_quoted_if_needed`] says
/// how.
///
/// # Errors
///
/// Memory was refused; part of the path may then have been added.
#[tactic(auto, unfolding(crate::specs::QuotedNames::path_quoted_if_needed))]
pub fn append_path_quoted_if_needed(
    text: &mut Vec<u8>,
    path: &[u8],
    quote_path: bool,
) -> Result<(), OutOfMemory>
    ensures { OnOk result (text.new.items ≡ text.old.items ++ words.path_quoted_if_needed quote_path
        path.now) }
{
    if !path_needs_c_style_quotes(path, quote_path) {
        text.extend_from_slice(path)?;
        return Ok(());
    }
    text.push(b'"')?;
    append_path_bytes_escaped(text, path, quote_path)?;
    text.push(b'"')?;
    Ok(())
}

/// A path as git prints it where a line feed ends the line: in double quotes where
/// [`path_needs_c_style_quotes`] says so, with each byte that is special behind a backslash: `\a`,
/// `\b`, `\t`, `\n`, `\v`, `\f`, `\r`, `\"`, `\\`, and each other as three octal digits. Any other
/// path is printed as it is.
///
/// See git-config(1), `core.quotePath`, which is on where nothing is said.
///
/// # Errors
///
/// Memory was refused.
pub fn path_quoted_if_needed(
    alloc: Global,
    path: &[u8],
    quote_path: bool,
) -> Result<Bytes, OutOfMemory>
    ensures { IfOk result (λ text. text ≡ words.path_quoted_if_needed quote_path path.now) }
{
    let mut text = Vec::new(alloc);
    append_path_quoted_if_needed(&mut text, path, quote_path)?;
    Ok(Bytes::from_vec(text))
}
