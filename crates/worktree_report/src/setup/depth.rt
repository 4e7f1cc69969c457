//! A depth limit, as a word has it.
ghost use Rattle.std.specs.Prelude.{◌≡◌, ◌≤◌, IfSome};
ghost use Rattle.worktree_report.specs.SetupDepth.{parse_decimal_digit, parse_nonzero_digit, parse_two_digits, parse_three_digits, parse_depth_limit};

/// The number that a digit gives.
pub fn parse_decimal_digit(byte: u8) -> Option<usize>
    ensures value { result ≡ parse_decimal_digit byte }
    ensures within { IfSome result (λ digit. digit ≤ 9) }
{
    match byte {
        b'0'..=b'9' => Some((byte - b'0') as usize),
        _ => None,
    }
}

fn parse_nonzero_digit(byte: u8) -> Option<usize>
    ensures value { result ≡ parse_nonzero_digit byte }
    ensures within { IfSome result (λ digit. digit ≤ 9) }
{
    if byte == b'0' {
        return None;
    }
    parse_decimal_digit(byte)
}

fn parse_two_digits(tens: u8, ones: u8) -> Option<usize>
    ensures value { result ≡ parse_two_digits tens ones }
    ensures within { IfSome result (λ number. number ≤ 99) }
{
    let Some(tens) = parse_nonzero_digit(tens) else {
        return None;
    };
    let Some(ones) = parse_decimal_digit(ones) else {
        return None;
    };
    Some(10 * tens + ones)
}

fn parse_three_digits(hundreds: u8, tens: u8, ones: u8) -> Option<usize>
    ensures { result ≡ parse_three_digits hundreds tens ones }
{
    let Some(front) = parse_two_digits(hundreds, tens) else {
        return None;
    };
    let Some(ones) = parse_decimal_digit(ones) else {
        return None;
    };
    Some(10 * front + ones)
}

/// The number that a word gives as a depth, from 0 to 1000 in decimal, without zeros in front. None
/// where it gives none.
pub fn parse_depth_limit(value: &[u8]) -> Option<usize>
    ensures { result ≡ parse_depth_limit value.now }
{
    match value {
        [ones] => parse_decimal_digit(*ones),
        [tens, ones] => parse_two_digits(*tens, *ones),
        [hundreds, tens, ones] => parse_three_digits(*hundreds, *tens, *ones),
        [_, _, _, _] => {
            if value == b"1000".as_slice() {
                Some(1000)
            } else {
                None
            }
        }
        _ => None,
    }
}
