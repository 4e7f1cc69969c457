//! The second pair of bytes of an entry's flags.
ghost use Rattle.std.specs.Prelude.{◌≡◌, ◌≤◌, option_map, IfSome};
ghost use Rattle.git_index.specs.More as mores;
ghost use Rattle.git_index.specs.Seen.{extended_flags_as_record};

use crate::parts::{big_endian_u16_after_skip, split_first_bytes};

/// What the second pair of flags says, how many bytes it takes, and what is behind it.
#[derive(Clone, Copy)]
pub struct ExtendedFlagsAndRest<'a> {
    pub size: usize,
    pub is_skipped: bool,
    pub intent_to_add: bool,
    pub rest: &'a [u8],
}

/// The second pair of flags, where the first says that it is there; none where it is outside the
/// grammar.
pub fn read_extended_flags_if_present(
    version: u32,
    extended: bool,
    bytes: &[u8],
) -> Option<ExtendedFlagsAndRest<'_>>
    ensures value { option_map extended_flags_as_record result
        ≡ mores.read_extended_flags_if_present version extended bytes.now }
    ensures small { IfSome result (λ more. more.size ≤ 2) }
{
    if !extended {
        return Some(ExtendedFlagsAndRest {
            size: 0,
            is_skipped: false,
            intent_to_add: false,
            rest: bytes,
        });
    }
    if version == 2 {
        return None;
    }
    read_extended_flags(bytes)
}

/// The second pair of flags at the front.
fn read_extended_flags(bytes: &[u8]) -> Option<ExtendedFlagsAndRest<'_>>
    ensures value { option_map extended_flags_as_record result ≡ mores.read_extended_flags
        bytes.now }
    ensures small { IfSome result (λ more. more.size ≤ 2) }
{
    let Some(two) = split_first_bytes(bytes, 2) else {
        return None;
    };
    extended_flags_from_bits(big_endian_u16_after_skip(two.part, 0), two.rest)
}

/// What these bits say.
fn extended_flags_from_bits(bits: u16, rest: &[u8]) -> Option<ExtendedFlagsAndRest<'_>>
    ensures value { option_map extended_flags_as_record result ≡ mores.extended_flags_from_bits bits
        rest.now }
    ensures small { IfSome result (λ more. more.size ≤ 2) }
{
    if !has_only_known_bits(bits) {
        return None;
    }
    Some(ExtendedFlagsAndRest {
        size: 2,
        is_skipped: bits / 0x4000 % 2 == 1,
        intent_to_add: bits / 0x2000 % 2 == 1,
        rest,
    })
}

/// Whether no bit is set that means nothing.
fn has_only_known_bits(bits: u16) -> bool
    ensures { result ≡ mores.has_only_known_bits bits }
{
    bits / 0x8000 == 0 && bits % 0x2000 == 0
}
