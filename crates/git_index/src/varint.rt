//! Numbers of as many bytes as they need.
ghost use Rattle.std.specs.Prelude.{◌≡◌, ◌≤◌, ◌^◌, option_map};
ghost use Rattle.git_index.specs.Varint as varint;
ghost use Rattle.git_index.specs.Seen.{varint_as_record};

/// A number, and what is behind it.
#[derive(Clone, Copy)]
pub struct Varint<'a> {
    pub value: u64,
    pub rest: &'a [u8],
}

/// The number with one byte more.
fn varint_with_byte_added(so_far: u64, byte: u8) -> u64
    requires { so_far ≤ 2 ^ 32 }
    ensures { result ≡ varint.varint_with_byte_added so_far byte }
{
    so_far * 128 + u64::from(byte) % 128
}

/// The number at the front; none where it does not end, or has more than 32 bits.
pub fn read_varint(bytes: &[u8]) -> Option<Varint<'_>>
    ensures { option_map varint_as_record result ≡ varint.read_varint bytes.now }
{
    let mut so_far = 0u64;
    let mut left = bytes;
    while let Some((byte, rest)) = left.split_first() {
        let value = varint_with_byte_added(so_far, *byte);
        if value >= 0x1_0000_0000 {
            return None;
        }
        if *byte < 128 {
            return Some(Varint { value, rest });
        }
        so_far = value + 1;
        left = rest;
    }
    None
}
