//! Where a byte or a part stands in a text, and what is before and behind it.
ghost use Rattle.std.specs.Prelude.{◌≡◌, ◌≤◌, ◌+◌, not, drop, length};
ghost use Rattle.std.specs.List.{suffix_len};
ghost use Rattle.bstr.specs.Find.{is_byte};
ghost use Rattle.submodule.specs.Texts as texts;

use bstr::ByteSlice;

/// Whether a byte stands in a text.
pub fn contains_byte(byte: u8, text: &[u8]) -> bool
    ensures { result ≡ texts.contains_byte byte text.now }
{
    text.iter().any(|other| *other == byte)
}

/// Where a byte stands first; the length of the text where it does not stand in it.
pub fn offset_of_first_occurrence(byte: u8, text: &[u8]) -> usize
    ensures value { result ≡ texts.offset_of_first_occurrence byte text.now }
    ensures within { result ≤ length text.now }
{
    match text.find_byte(byte) {
        Some(at) => at,
        None => text.len(),
    }
}

/// What stands before the first such byte, or the whole text.
pub fn text_before_first_occurrence(byte: u8, text: &[u8]) -> &[u8]
    ensures { result.now ≡ texts.text_before_first_occurrence byte text.now }
{
    text.split_at(offset_of_first_occurrence(byte, text)).0
}

/// The first such byte and what is behind it, or nothing.
pub fn text_from_first_occurrence(byte: u8, text: &[u8]) -> &[u8]
    ensures { result.now ≡ texts.text_from_first_occurrence byte text.now }
{
    text.split_at(offset_of_first_occurrence(byte, text)).1
}

/// Where what is behind the last such byte begins; 0 where there is none.
fn offset_after_last_occurrence(byte: u8, text: &[u8]) -> usize
    ensures { result + suffix_len (λ b. not (is_byte byte b)) text.now ≡ length text.now }
{
    match text.rfind_byte(byte) {
        Some(at) => at + 1,
        None => 0,
    }
}

/// What stands behind the last such byte, or the whole text.
pub fn text_after_last_occurrence(byte: u8, text: &[u8]) -> &[u8]
    ensures { result.now ≡ texts.text_after_last_occurrence byte text.now }
{
    text.split_at(offset_after_last_occurrence(byte, text)).1
}

/// What stands before the last such byte, or nothing.
pub fn text_before_last_occurrence(byte: u8, text: &[u8]) -> &[u8]
    ensures { result.now ≡ texts.text_before_last_occurrence byte text.now }
{
    text.split_at(offset_after_last_occurrence(byte, text).saturating_sub(1))
        .0
}

/// What is behind the first byte.
pub fn text_without_first_byte(text: &[u8]) -> &[u8]
    ensures { result.now ≡ drop 1 text.now }
{
    match text {
        [_, after @ ..] => after,
        [] => text,
    }
}

/// Whether a part stands somewhere in a text.
pub fn contains(part: &[u8], text: &[u8]) -> bool
    ensures { result ≡ texts.contains part.now text.now }
{
    text.contains_str(part)
}
