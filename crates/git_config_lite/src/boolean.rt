//! Which texts are booleans.
ghost use Rattle.std.specs.Prelude.{◌≡◌, ◌==◌, not};
ghost use Rattle.std.specs.List.{list_all, list_any};
ghost use Rattle.git_config_lite.specs.Texts as texts;
ghost use Rattle.git_config_lite.specs.Booleans as booleans;

use crate::text::is_decimal_digit;

/// Whether two texts are equal but for the case of ASCII letters.
pub fn is_equal_ignoring_ascii_case(a: &[u8], b: &[u8]) -> bool
    ensures { result ≡ booleans.is_equal_ignoring_ascii_case a.now b.now }
{
    a.eq_ignore_ascii_case(b)
}

fn is_true_word(text: &[u8]) -> bool
    ensures { result ≡ booleans.is_true_word text.now }
{
    is_equal_ignoring_ascii_case(text, b"yes")
        || is_equal_ignoring_ascii_case(text, b"on")
        || is_equal_ignoring_ascii_case(text, b"true")
}

fn is_false_word(text: &[u8]) -> bool
    ensures { result ≡ booleans.is_false_word text.now }
{
    is_equal_ignoring_ascii_case(text, b"no")
        || is_equal_ignoring_ascii_case(text, b"off")
        || is_equal_ignoring_ascii_case(text, b"false")
        || is_equal_ignoring_ascii_case(text, b"")
}

fn without_leading_sign(text: &[u8]) -> &[u8]
    ensures { result.now ≡ booleans.without_leading_sign text.now }
{
    match text {
        [b'+' | b'-', digits @ ..] => digits,
        _ => text,
    }
}

fn is_number_suffix(byte: u8) -> bool
    ensures { result ≡ booleans.is_number_suffix byte }
{
    matches!(byte, b'k' | b'K' | b'm' | b'M' | b'g' | b'G')
}

fn without_number_suffix(text: &[u8]) -> &[u8]
    ensures { result.now ≡ booleans.without_number_suffix text.now }
{
    match text {
        [digits @ .., last] if is_number_suffix(*last) => digits,
        _ => text,
    }
}

fn are_decimal_digits(text: &[u8]) -> bool
    ensures { result ≡ list_all texts.is_decimal_digit text.now }
{
    text.iter().all(|byte| is_decimal_digit(*byte))
}

fn has_nonzero_digit(digits: &[u8]) -> bool
    ensures { result ≡ list_any (λ b. not (b == 48)) digits.now }
{
    digits.iter().any(|digit| *digit != b'0')
}

/// Whether some digit is not 0. None where these are no digits.
fn truth_of_decimal_digits(digits: &[u8]) -> Option<bool>
    ensures { result ≡ booleans.truth_of_decimal_digits digits.now }
{
    if let [] = digits {
        return None;
    }
    if !are_decimal_digits(digits) {
        return None;
    }
    Some(has_nonzero_digit(digits))
}

/// What a text says as a boolean. None where it is no boolean.
/// See docs/DIFFERENCES.md#config-numbers.
/// See docs/DIFFERENCES.md#config-blank-number.
pub fn parse_boolean(text: &[u8]) -> Option<bool>
    ensures { result ≡ booleans.parse_boolean text.now }
{
    if is_true_word(text) {
        return Some(true);
    }
    if is_false_word(text) {
        return Some(false);
    }
    truth_of_decimal_digits(without_number_suffix(without_leading_sign(text)))
}
