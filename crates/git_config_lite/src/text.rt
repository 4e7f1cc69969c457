//! The kinds of bytes of a configuration file, and what stands at the start of a line.
ghost use Rattle.std.specs.Prelude.{◌≡◌, ◌<◌, ◌≤◌, not, drop, length, position, IfSome};
ghost use Rattle.std.specs.List.{list_all};
ghost use Rattle.git_config_lite.specs.Texts as texts;
ghost use Rattle.git_config_lite.specs.Writers as writers;

/// A space or a tab.
/// See docs/DIFFERENCES.md#config-lone-return.
pub fn is_space_or_tab(byte: u8) -> bool
    ensures { result ≡ texts.is_space_or_tab byte }
{
    byte == b' ' || byte == b'\t'
}

/// `#` or `;`.
pub fn is_comment_mark(byte: u8) -> bool
    ensures { result ≡ texts.is_comment_mark byte }
{
    byte == b'#' || byte == b';'
}

/// An ASCII letter.
pub fn is_ascii_letter(byte: u8) -> bool
    ensures { result ≡ texts.is_ascii_letter byte }
{
    matches!(byte, b'A'..=b'Z' | b'a'..=b'z')
}

/// A decimal digit.
pub fn is_decimal_digit(byte: u8) -> bool
    ensures { result ≡ texts.is_decimal_digit byte }
{
    matches!(byte, b'0'..=b'9')
}

/// A byte of a key: a letter, a digit or a hyphen.
pub fn is_key_byte(byte: u8) -> bool
    ensures { result ≡ texts.is_key_byte byte }
{
    is_ascii_letter(byte) || is_decimal_digit(byte) || byte == b'-'
}

/// A byte of the name of a section: one of a key, or a dot.
pub fn is_section_name_byte(byte: u8) -> bool
    ensures { result ≡ texts.is_section_name_byte byte }
{
    is_key_byte(byte) || byte == b'.'
}

/// Whether a text is the name of a section: letters, digits, hyphens and dots, and at least one of
/// them.
pub fn is_section_name(name: &[u8]) -> bool
    ensures { result ≡ writers.is_section_name name.now }
{
    begins_with_section_name_byte(name) && are_section_name_bytes(name)
}

fn are_section_name_bytes(name: &[u8]) -> bool
    ensures { result ≡ list_all texts.is_section_name_byte name.now }
{
    name.iter().all(|byte| is_section_name_byte(*byte))
}

/// Whether a text is a key: a letter, and then letters, digits and hyphens.
pub fn is_key_name(key: &[u8]) -> bool
    ensures { result ≡ writers.is_key_name key.now }
{
    begins_with_letter(key) && are_key_bytes(key)
}

fn are_key_bytes(key: &[u8]) -> bool
    ensures { result ≡ list_all texts.is_key_byte key.now }
{
    key.iter().all(|byte| is_key_byte(*byte))
}

/// Whether the first byte is this one.
pub fn begins_with_byte(byte: u8, bytes: &[u8]) -> bool
    ensures { result ≡ texts.begins_with_byte byte bytes.now }
{
    match bytes {
        [first, ..] => *first == byte,
        [] => false,
    }
}

/// Whether the first byte is a space or a tab.
pub fn begins_with_space_or_tab(bytes: &[u8]) -> bool
    ensures { result ≡ texts.first_byte_passes texts.is_space_or_tab bytes.now }
{
    match bytes {
        [first, ..] => is_space_or_tab(*first),
        [] => false,
    }
}

/// Whether the first byte is a letter.
pub fn begins_with_letter(bytes: &[u8]) -> bool
    ensures { result ≡ texts.first_byte_passes texts.is_ascii_letter bytes.now }
{
    match bytes {
        [first, ..] => is_ascii_letter(*first),
        [] => false,
    }
}

/// Whether the first byte may stand in the name of a section.
pub fn begins_with_section_name_byte(bytes: &[u8]) -> bool
    ensures { result ≡ texts.first_byte_passes texts.is_section_name_byte bytes.now }
{
    match bytes {
        [first, ..] => is_section_name_byte(*first),
        [] => false,
    }
}

/// Whether nothing is left of a line, or a comment.
pub fn is_empty_or_comment(bytes: &[u8]) -> bool
    ensures { result ≡ texts.is_empty_or_comment bytes.now }
{
    match bytes {
        [first, ..] => is_comment_mark(*first),
        [] => true,
    }
}

/// What is behind the spaces and tabs at the start.
pub fn without_leading_blanks(bytes: &[u8]) -> &[u8]
    ensures { result.now ≡ texts.without_leading_blanks bytes.now }
{
    let mut rest = bytes;
    while let Some((first, after)) = rest.split_first() {
        if !is_space_or_tab(*first) {
            return rest;
        }
        rest = after;
    }
    rest
}

/// The place of the first byte that may not stand in a key.
fn offset_of_first_non_key_byte(bytes: &[u8]) -> Option<usize>
    ensures place { result ≡ position (λ b. not (texts.is_key_byte b)) bytes.now }
    ensures within { IfSome result (λ place. place < length bytes.now) }
{
    bytes.iter().position(|byte| !is_key_byte(*byte))
}

/// The place of the first byte that may not stand in the name of a section.
fn offset_of_first_non_name_byte(bytes: &[u8]) -> Option<usize>
    ensures place { result ≡ position (λ b. not (texts.is_section_name_byte b)) bytes.now }
    ensures within { IfSome result (λ place. place < length bytes.now) }
{
    bytes.iter().position(|byte| !is_section_name_byte(*byte))
}

/// How many bytes at the start may stand in a key.
pub fn length_of_leading_key(bytes: &[u8]) -> usize
    ensures value { result ≡ texts.length_of_leading_run texts.is_key_byte bytes.now }
    ensures within { result ≤ length bytes.now }
{
    match offset_of_first_non_key_byte(bytes) {
        Some(place) => place,
        None => bytes.len(),
    }
}

/// How many bytes at the start may stand in the name of a section.
pub fn length_of_leading_section_name(bytes: &[u8]) -> usize
    ensures value { result ≡ texts.length_of_leading_run texts.is_section_name_byte bytes.now }
    ensures within { result ≤ length bytes.now }
{
    match offset_of_first_non_name_byte(bytes) {
        Some(place) => place,
        None => bytes.len(),
    }
}

/// What is behind the first byte.
pub fn bytes_after_first_byte(bytes: &[u8]) -> &[u8]
    ensures { result.now ≡ drop 1 bytes.now }
{
    match bytes {
        [_, after @ ..] => after,
        [] => bytes,
    }
}
