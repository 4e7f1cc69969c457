//! The port of a url.
ghost use Rattle.std.specs.Prelude.{◌≡◌, ◌+◌, ◌*◌, ◌-◌, ◌<◌, ◌≤◌};
ghost use Rattle.std.specs.List.{list_all};
ghost use Rattle.git_config_lite.specs.Texts.{is_decimal_digit};
ghost use Rattle.submodule.specs.Urls as urls;
ghost use Rattle.submodule.specs.Digits as digits;

use crate::url::UrlError;

/// The number with one more digit; none where the byte is no digit, or the number is above 65535.
fn port_with_digit_appended(number: u16, byte: u8) -> Option<u16>
    ensures { result ≡ digits.port_with_digit_appended number byte }
{
    if !byte.is_ascii_digit() {
        return None;
    }
    let more = u32::from(number) * 10 + u32::from(byte - b'0');
    if more > 65535 {
        return None;
    }
    Some(more as u16)
}

/// The number that a text writes in decimal digits; none where it has another byte, or the number
/// is above 65535. See docs/DIFFERENCES.md#url-port-zeros.
fn parse_port_number(text: &[u8]) -> Option<u16>
    ensures { result ≡ urls.port_number_if_valid text.now }
{
    let mut number = 0;
    let mut rest = text;
    while let [digit, after @ ..] = rest {
        let Some(more) = port_with_digit_appended(number, *digit) else {
            return None;
        };
        number = more;
        rest = after;
    }
    Some(number)
}

/// The port that a text writes: none where it is empty.
/// See docs/DIFFERENCES.md#url-bad-port.
pub fn parse_port(text: &[u8]) -> Result<Option<u16>, UrlError>
    ensures { result ≡ urls.parse_port text.now }
{
    if let [] = text {
        return Ok(None);
    }
    match parse_port_number(text) {
        Some(port) => Ok(Some(port)),
        None => Err(UrlError::Port),
    }
}
