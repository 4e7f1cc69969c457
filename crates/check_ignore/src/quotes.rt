//! Paths in double quotes, as git's `unquote_c_style` reads them.
ghost use Rattle.std.specs.Prelude.{◌≡◌, ◌≤◌, ◌+◌, drop, length, IfOk, IfSome};
ghost use Rattle.check_ignore.specs.Unquoted as words;

use gitbase_core::{Bytes, OutOfMemory};
use std::alloc::Global;

/// A byte that is meant between quotes.
#[derive(Clone, Copy, Debug)]
pub struct Meant {
    pub byte: u8,
    /// How many bytes stand for it.
    pub length: usize,
}

/// The byte that a letter behind a backslash means, if it means one.
fn unescape_letter(byte: u8) -> Option<u8>
    ensures { result ≡ words.unescape_letter byte }
{
    match byte {
        b'a' => Some(7),
        b'b' => Some(8),
        b't' => Some(9),
        b'n' => Some(10),
        b'v' => Some(11),
        b'f' => Some(12),
        b'r' => Some(13),
        b'"' => Some(b'"'),
        b'\\' => Some(b'\\'),
        _ => None,
    }
}

/// Whether a byte is an octal digit.
fn is_octal_digit(byte: u8) -> bool
    ensures { result ≡ words.is_octal_digit byte }
{
    byte >= b'0' && byte < b'8'
}

/// Whether a byte is an octal digit below 4.
fn is_octal_digit_below_four(byte: u8) -> bool
    ensures { result ≡ words.is_octal_digit_below_four byte }
{
    byte >= b'0' && byte < b'4'
}

/// The byte that three octal digits mean, if these are three, the first of them below 4.
fn byte_of_three_octal_digits(high: u8, middle: u8, low: u8) -> Option<u8>
    ensures { result ≡ words.byte_of_three_octal_digits high middle low }
{
    if is_octal_digit_below_four(high) && is_octal_digit(middle) && is_octal_digit(low) {
        return Some((high - b'0') * 64 + (middle - b'0') * 8 + (low - b'0'));
    }
    None
}

/// A byte that so many stand for, if there is one.
fn decoded_byte_of_length_if_some(length: usize, byte: Option<u8>) -> Option<Meant>
    ensures { result ≡ words.decoded_byte_of_length_if_some length byte }
{
    match byte {
        Some(byte) => Some(Meant { byte, length }),
        None => None,
    }
}

/// What octal digits behind a backslash mean.
fn decode_octal_escape(high: u8, rest: &[u8]) -> Option<Meant>
    ensures value { result ≡ words.decode_octal_escape high rest.now }
    ensures within { IfSome result (λ m. m.length ≤ length rest.now + 2) }
    ensures some { IfSome result (λ m. 1 ≤ m.length) }
{
    match rest {
        [middle, low, ..] => decoded_byte_of_length_if_some(
            4,
            byte_of_three_octal_digits(high, *middle, *low),
        ),
        _ => None,
    }
}

/// What is meant behind a backslash.
fn decode_escape(bytes: &[u8]) -> Option<Meant>
    ensures value { result ≡ words.decode_escape bytes.now }
    ensures within { IfSome result (λ m. m.length ≤ length bytes.now + 1) }
    ensures some { IfSome result (λ m. 1 ≤ m.length) }
{
    match bytes {
        [first, rest @ ..] => match unescape_letter(*first) {
            Some(byte) => decoded_byte_of_length_if_some(2, Some(byte)),
            None => decode_octal_escape(*first, rest),
        },
        [] => None,
    }
}

/// What is meant first between quotes, if it is anything.
fn decode_first_byte(bytes: &[u8]) -> Option<Meant>
    ensures value { result ≡ words.decode_first_byte bytes.now }
    ensures within { IfSome result (λ m. m.length ≤ length bytes.now) }
    ensures some { IfSome result (λ m. 1 ≤ m.length) }
{
    match bytes {
        [b'\\', rest @ ..] => decode_escape(rest),
        [byte, ..] => decoded_byte_of_length_if_some(1, Some(*byte)),
        [] => None,
    }
}

/// The bytes behind so many.
fn bytes_after_count(bytes: &[u8], count: usize) -> &[u8]
    requires { count ≤ length bytes.now }
    ensures { result.now ≡ drop count bytes.now }
{
    &bytes[count..]
}

/// What stands in quotes, by what follows the one that opens them, up to the one that closes them:
/// each byte but a backslash means itself, a backslash and a letter, or three octal digits, mean
/// another. None where no quote closes it, or something else follows a backslash.
///
/// # Errors
///
/// Memory was refused.
pub fn unquote_c_style_after_opening_quote(
    alloc: Global,
    bytes: &[u8],
) -> Result<Option<Bytes>, OutOfMemory>
    ensures { IfOk result (λ text. text ≡ words.unquote_c_style_after_opening_quote 0 bytes.now) }
{
    let mut text = Vec::new(alloc);
    let mut rest = bytes;
    while let [first, ..] = rest {
        if *first == b'"' {
            return Ok(Some(Bytes::from_vec(text)));
        }
        let Some(meant) = decode_first_byte(rest) else {
            return Ok(None);
        };
        text.push(meant.byte)?;
        rest = bytes_after_count(rest, meant.length);
    }
    Ok(None)
}
