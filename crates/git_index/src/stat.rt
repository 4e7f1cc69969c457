//! What an index file says of an entry beside the entry itself.

/// A time as git writes it down.
#[derive(Clone, Copy, Debug, PartialEq, Eq)]
pub struct Time {
    /// The seconds since 1970, modulo 2^32.
    pub seconds: u32,
    /// The nanoseconds within the second; git that was built without them writes 0.
    pub nanoseconds: u32,
}

/// What git saw of a file when it last took it for the entry's own, by the names of git's manual
/// (gitformat-index(5)).
///
/// Each number but the size is the lowest 32 bits of what stat(2) answered. All are 0 where git
/// wrote an entry without looking.
#[derive(Clone, Copy, Debug, PartialEq, Eq)]
pub struct Stat {
    /// When the file's own data last changed.
    pub ctime: Time,
    /// When what the file holds last changed.
    pub mtime: Time,
    /// The device.
    pub dev: u32,
    /// The number of the file on it.
    pub ino: u32,
    /// The user that owns the file.
    pub uid: u32,
    /// The group that owns the file.
    pub gid: u32,
    /// The size in bytes, modulo 2^32; 0 also where git has to look at the file again, since it may
    /// have changed at the moment at which the index was written.
    ///
    /// Where the size is a multiple of 2^32 and not 0, newer gits (from 2.43 on) write 2^31.
    pub size: u32,
}

/// What an index file says of an entry beside the entry itself.
#[derive(Clone, Copy, Debug, PartialEq, Eq)]
pub struct Detail {
    /// What git saw of the file.
    pub stat: Stat,
    /// The path is to be added later: `git add --intent-to-add`.
    pub intent_to_add: bool,
}
