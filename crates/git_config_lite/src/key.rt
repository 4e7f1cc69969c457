//! A key and what is behind it on its line.
ghost use Rattle.std.specs.Prelude.{◌≡◌, option_map};
ghost use Rattle.git_config_lite.specs.Keys as keys;
ghost use Rattle.git_config_lite.specs.Seen as seen;

use crate::text::{
    begins_with_byte, begins_with_letter, bytes_after_first_byte, is_empty_or_comment,
    length_of_leading_key, without_leading_blanks,
};

/// A key, and the text behind its `=` where it has one.
#[derive(Clone, Copy, Debug)]
pub struct KeyedLine<'a> {
    pub key: &'a [u8],
    pub text: Option<&'a [u8]>,
}

/// A key, by what is behind it and its blanks.
/// See docs/DIFFERENCES.md#config-comment-behind-key.
fn parse_rest_of_line_after_key<'a>(key: &'a [u8], rest: &'a [u8]) -> Option<KeyedLine<'a>>
    ensures { option_map seen.key_of_keyed_line result ≡ keys.parse_rest_of_line_after_key key.now
        rest.now }
{
    if is_empty_or_comment(rest) {
        return Some(KeyedLine { key, text: None });
    }
    if !begins_with_byte(b'=', rest) {
        return None;
    }
    Some(KeyedLine {
        key,
        text: Some(bytes_after_first_byte(rest)),
    })
}

/// The key at the start of some bytes. None where they are outside the grammar.
pub fn parse_key_and_text(bytes: &[u8]) -> Option<KeyedLine<'_>>
    ensures { option_map seen.key_of_keyed_line result ≡ keys.parse_key_and_text bytes.now }
{
    if !begins_with_letter(bytes) {
        return None;
    }
    let (key, rest) = bytes.split_at(length_of_leading_key(bytes));
    parse_rest_of_line_after_key(key, without_leading_blanks(rest))
}
