//! The first 62 bytes of an entry.
ghost use Rattle.std.specs.Prelude.{◌≡◌, length, take, drop, option_map};
ghost use Rattle.git_index.specs.Head as heads;
ghost use Rattle.git_index.specs.Seen.{fixed_fields_as_record};

use crate::parts::{big_endian_u16_after_skip, nth_big_endian_u32};
use crate::stat::{Stat, Time};
use gitbase_core::{Flags, Mode, ObjectId};

/// How many bytes are before the second pair of flags or the path.
pub const HEAD_LENGTH: usize = 62;

/// What the first 62 bytes of an entry say.
#[derive(Clone, Copy)]
pub struct Fixed {
    pub stat: Stat,
    pub mode: Mode,
    pub id: ObjectId,
    pub flags: u16,
}

/// What the first 62 bytes of an entry say; none where the mode is none that git writes.
pub fn parse_fixed_entry_fields(head: &[u8]) -> Option<Fixed>
    requires { length head.now ≡ 62 }
    ensures { option_map fixed_fields_as_record result ≡ heads.parse_fixed_entry_fields head.now }
{
    let Some(mode) = known_mode_of_bits(nth_big_endian_u32(head, 6)) else {
        return None;
    };
    Some(Fixed {
        stat: stat_of_entry_head(head),
        mode,
        id: object_id_of_entry_head(head),
        flags: big_endian_u16_after_skip(head, 60),
    })
}

/// The mode of these bits; none where git writes no such.
fn known_mode_of_bits(bits: u32) -> Option<Mode>
    ensures { result ≡ heads.known_mode_of_bits bits }
{
    match bits {
        0o100644 => Some(Mode::FILE),
        0o100755 => Some(Mode::FILE_EXECUTABLE),
        0o120000 => Some(Mode::SYMLINK),
        0o160000 => Some(Mode::COMMIT),
        0o040000 => Some(Mode::DIR),
        _ => None,
    }
}

/// What git saw of the file.
fn stat_of_entry_head(head: &[u8]) -> Stat
    requires { length head.now ≡ 62 }
    ensures { result ≡ heads.stat_of_entry_head head.now }
{
    Stat {
        ctime: Time {
            seconds: nth_big_endian_u32(head, 0),
            nanoseconds: nth_big_endian_u32(head, 1),
        },
        mtime: Time {
            seconds: nth_big_endian_u32(head, 2),
            nanoseconds: nth_big_endian_u32(head, 3),
        },
        dev: nth_big_endian_u32(head, 4),
        ino: nth_big_endian_u32(head, 5),
        uid: nth_big_endian_u32(head, 7),
        gid: nth_big_endian_u32(head, 8),
        size: nth_big_endian_u32(head, 9),
    }
}

/// The id, which stands behind 40 bytes.
fn object_id_of_entry_head(head: &[u8]) -> ObjectId
    requires { length head.now ≡ 62 }
    ensures { result ≡ take 20 (drop 40 head.now) }
{
    let (_, behind) = head.split_at(40);
    match behind.split_first_chunk::<20>() {
        Some((id, _)) => ObjectId::from_bytes(*id),
        None => ObjectId::null(),
    }
}

/// Whether the flags say that the file is to be taken as unchanged.
pub fn is_assume_valid_set(flags: u16) -> bool
    ensures { result ≡ heads.is_assume_valid_set flags }
{
    flags / 0x8000 % 2 == 1
}

/// Whether the flags say that a second pair of bytes follows.
pub fn is_extended_flag_set(flags: u16) -> bool
    ensures { result ≡ heads.is_extended_flag_set flags }
{
    flags / 0x4000 % 2 == 1
}

/// The stage in the flags.
pub fn stage_from_flags(flags: u16) -> u8
    ensures { result ≡ heads.stage_from_flags flags }
{
    (flags / 0x1000 % 4) as u8
}

/// The path's length in the flags: 4095 where it is that or more.
pub fn path_length_from_flags(flags: u16) -> usize
    ensures { result ≡ heads.path_length_from_flags flags }
{
    usize::from(flags % 0x1000)
}

/// What an index keeps of an entry's flags.
pub fn flags_of_assumed_and_skipped(assumed: bool, skipped: bool) -> Flags
    ensures { result ≡ heads.flags_of_assumed_and_skipped assumed skipped }
{
    let first = if assumed {
        Flags::ASSUME_VALID
    } else {
        Flags::empty()
    };
    let second = if skipped {
        Flags::SKIP_WORKTREE
    } else {
        Flags::empty()
    };
    first.union(second)
}
