//! The parts of an index file: so many bytes, a text that a NUL ends, and numbers.
ghost use Rattle.std.specs.Prelude.{◌≡◌, ◌≤◌, ◌<◌, ◌+◌, ◌*◌, length, position, drop, option_map, IfSome};
ghost use Rattle.std.specs.List.{list_all};
ghost use Rattle.gitbase_core.specs.Text.{is_nul};
ghost use Rattle.byteorder.specs.Endian.{big_number};
ghost use Rattle.git_index.specs.Parts.{split_first_bytes, text, nth_big_endian_u32};
ghost use Rattle.git_index.specs.Seen.{part_and_rest_as_record};

use byteorder::{BigEndian, ByteOrder};

/// Some bytes, and what is behind them.
#[derive(Clone, Copy)]
pub struct PartAndRest<'a> {
    pub part: &'a [u8],
    pub rest: &'a [u8],
}

/// The first `size` bytes; none where there are fewer.
pub fn split_first_bytes(bytes: &[u8], size: usize) -> Option<PartAndRest<'_>>
    ensures value { option_map part_and_rest_as_record result ≡ split_first_bytes size bytes.now }
    ensures whole { IfSome result (λ parted. length parted.part.now ≡ size) }
{
    if size > bytes.len() {
        return None;
    }
    let (part, rest) = bytes.split_at(size);
    Some(PartAndRest { part, rest })
}

/// The place of the first NUL.
fn offset_of_first_nul(bytes: &[u8]) -> Option<usize>
    ensures place { result ≡ position is_nul bytes.now }
    ensures within { IfSome result (λ place. place < length bytes.now) }
{
    bytes.iter().position(|byte| *byte == 0)
}

/// The bytes before the first NUL, and what is behind that; none where there is no NUL.
pub fn text(bytes: &[u8]) -> Option<PartAndRest<'_>>
    ensures { option_map part_and_rest_as_record result ≡ text bytes.now }
{
    let Some(place) = offset_of_first_nul(bytes) else {
        return None;
    };
    let (part, _) = bytes.split_at(place);
    let (_, rest) = bytes.split_at(place + 1);
    Some(PartAndRest { part, rest })
}

/// Whether all bytes are NUL.
pub fn are_all_nul(bytes: &[u8]) -> bool
    ensures { result ≡ list_all is_nul bytes.now }
{
    bytes.iter().all(|byte| *byte == 0)
}

/// The number of four bytes at `place`, where such numbers follow one another and the first has
/// place 0.
pub fn nth_big_endian_u32(bytes: &[u8], place: usize) -> u32
    requires { 4 * place + 4 ≤ length bytes.now }
    ensures { result ≡ nth_big_endian_u32 place bytes.now }
{
    let (_, rest) = bytes.split_at(4 * place);
    BigEndian::read_u32(rest)
}

/// The number of two bytes behind `skip` bytes.
pub fn big_endian_u16_after_skip(bytes: &[u8], skip: usize) -> u16
    requires { skip + 2 ≤ length bytes.now }
    ensures { result ≡ big_number 2 (drop skip bytes.now) }
{
    let (_, rest) = bytes.split_at(skip);
    BigEndian::read_u16(rest)
}
