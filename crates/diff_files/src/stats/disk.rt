//! The stats of the files of the system, of which nothing is told.
ghost use Rattle.std.specs.Prelude.{◌≡◌, ◌↔◌, None, true, false, IsTrue};
ghost use Rattle.std.specs.Fs.{metadata_len, metadata_mode};
ghost use Rattle.worktree_fs.specs.Disk.{is_fault};
ghost use Rattle.diff_files.specs.Seconds.{seconds_wrapped_to_32_bits};

use super::Stats;
use super::node_stat::NodeStat;
use gitbase_core::Bytes;
use std::alloc::Global;
use std::fs::Metadata;
use std::io::ErrorKind;
use std::marker::Model;
use std::os::unix::fs::MetadataExt;
use std::rt::{Files, HostRuntime};
use std::{io, str};
use worktree_fs::ReadError;

/// One more than the largest number of 32 bits.
const LIMIT: u64 = 0x1_0000_0000;

/// The stats of the files of the system. They tell nothing, and count every call that the system
/// refuses, unless it says that nothing is there; a path that is not UTF-8 is such a failure, since
/// std has none for it, and so is a link that leads to one.
///
/// Contracts see the count.
#[derive(Drop)]
pub struct DiskStats<'a> {
    rt: &'a HostRuntime,
    faults: u64,
}

impl<'a> Model for DiskStats<'a> {
    ghost use Rattle.diff_files.specs.Stats as words;

    ghost Value = { words.DiskStatsModel };

    ghost view = { λ stats. record { faults = stats.faults } };
}

impl<'a> DiskStats<'a> {
    /// Stats of all files of the system; takes no memory.
    pub fn new(rt: &'a HostRuntime) -> DiskStats<'a>
        ensures { result ≡ record { faults = 0 } }
    {
        DiskStats { rt, faults: 0 }
    }

    /// How many calls failed.
    pub fn fault_count(&self) -> u64
        ensures { result ≡ self.now.faults }
    {
        self.faults
    }
}

/// The lowest 32 bits of a time.
fn wrap_seconds_to_32_bits(time: i64) -> u32
    ensures { result ≡ seconds_wrapped_to_32_bits time }
{
    (time.cast_unsigned() % LIMIT) as u32
}

/// What the system's word on a node tells. Of the words that std hands on, its contracts name the
/// mode and the size; that the others are not taken for one another is tested.
fn node_stat_of_metadata(metadata: &Metadata) -> NodeStat
    ensures mode { result.mode ≡ metadata_mode metadata.now }
    ensures size { result.size ≡ metadata_len metadata.now }
{
    NodeStat {
        mode: metadata.mode(),
        mtime: wrap_seconds_to_32_bits(metadata.mtime()),
        ctime: wrap_seconds_to_32_bits(metadata.ctime()),
        uid: metadata.uid(),
        gid: metadata.gid(),
        ino: metadata.ino(),
        size: metadata.size(),
    }
}

/// Whether the system says that the path leads nowhere.
fn is_path_absence_error(error: &io::Error) -> bool {
    error.kind() == ErrorKind::NotFound || error.kind() == ErrorKind::NotADirectory
}

/// What is told of the node at a path, where there is one. Never answers `OutOfMemory`.
fn lstat_path(rt: &HostRuntime, path: &[u8]) -> Result<Option<NodeStat>, ReadError> {
    let Ok(text) = str::from_utf8(path) else {
        return Err(ReadError::Fault);
    };
    match rt.symlink_metadata(text) {
        Ok(metadata) => Ok(Some(node_stat_of_metadata(&metadata))),
        Err(error) if is_path_absence_error(&error) => Ok(None),
        Err(_) => Err(ReadError::Fault),
    }
}

/// Whether the program's own allocator refused, and not the system.
fn is_allocator_out_of_memory(error: &io::Error) -> bool {
    error.kind() == ErrorKind::OutOfMemory && error.raw_os_error().is_none()
}

/// Where a link at a path leads, where there is one.
fn read_link_target(
    rt: &HostRuntime,
    alloc: Global,
    path: &[u8],
) -> Result<Option<Bytes>, ReadError> {
    let Ok(text) = str::from_utf8(path) else {
        return Err(ReadError::Fault);
    };
    match rt.read_link(alloc, text) {
        Ok(target) => Ok(Some(Bytes::from_slice(alloc, target.as_str().as_bytes())?)),
        Err(error) if is_path_absence_error(&error) => Ok(None),
        Err(error) if is_allocator_out_of_memory(&error) => Err(ReadError::OutOfMemory),
        Err(_) => Err(ReadError::Fault),
    }
}

/// Whether a call failed, but for want of memory of its own.
fn is_fault<T>(answer: &Result<T, ReadError>) -> bool
    ensures { result ≡ is_fault answer.now }
{
    match answer {
        Err(ReadError::Fault) => true,
        Ok(_) | Err(ReadError::OutOfMemory) => false,
    }
}

impl<'a> Stats for DiskStats<'a> {
    ghost told = { λ _. None };

    ghost faults = { λ stats. stats.faults };

    /// One call of the system.
    fn stat(&mut self, path: &[u8]) -> Result<Option<NodeStat>, ReadError> {
        let found = lstat_path(self.rt, path);
        if is_fault(&found) {
            self.faults = self.faults.saturating_add(1);
        }
        found
    }

    /// One call of the system.
    fn target(&mut self, alloc: Global, path: &[u8]) -> Result<Option<Bytes>, ReadError> {
        let found = read_link_target(self.rt, alloc, path);
        if is_fault(&found) {
            self.faults = self.faults.saturating_add(1);
        }
        found
    }
}
