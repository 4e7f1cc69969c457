//! Paths as they are, from the text that spells some of their bytes.
ghost use Rattle.std.specs.Prelude.{◌≡◌, ◌++◌, OnOk};
ghost use Rattle.worktree_report.specs.Escapes as escapes;
ghost use Rattle.command_line.specs.Unspelled as unspelled;

use gitbase_core::OutOfMemory;

/// The value of a lower-case hexadecimal digit.
fn lowercase_hex_digit_value(byte: u8) -> Option<u8>
    ensures { result ≡ escapes.value_of_hex_digit byte }
{
    match byte {
        b'0'..=b'9' => Some(byte - b'0'),
        b'a'..=b'f' => Some(byte - b'a' + 10),
        _ => None,
    }
}

/// The byte that the first two bytes write as hexadecimal digits.
fn byte_of_two_hex_digits(bytes: &[u8]) -> Option<u8>
    ensures { result ≡ escapes.byte_from_two_hex_digits bytes.now }
{
    if bytes.len() < 2 {
        return None;
    }
    let high = lowercase_hex_digit_value(bytes[0])?;
    let low = lowercase_hex_digit_value(bytes[1])?;
    Some(16 * high + low)
}

/// The byte that a backslash and two digits spell at the beginning of a text. None where it begins
/// otherwise.
fn byte_of_backslash_hex_escape(first: u8, rest: &[u8]) -> Option<u8>
    ensures { result ≡ unspelled.byte_of_backslash_hex_escape first rest.now }
{
    if first != b'\\' {
        return None;
    }
    byte_of_two_hex_digits(rest)
}

/// Adds the bytes that a text spells: a backslash and two lower-case hexadecimal digits are one,
/// every other byte is itself.
pub fn append_unescaped_path(text: &mut Vec<u8>, path: &[u8]) -> Result<(), OutOfMemory>
    ensures { OnOk result (text.new.items ≡ text.old.items ++
        unspelled.bytes_with_hex_escapes_decoded path.now) }
{
    let mut rest = path;
    while let Some((first, after)) = rest.split_first() {
        match byte_of_backslash_hex_escape(*first, after) {
            Some(byte) => {
                text.push(byte)?;
                let (_, behind) = after.split_at(2);
                rest = behind;
            }
            None => {
                text.push(*first)?;
                rest = after;
            }
        }
    }
    Ok(())
}
