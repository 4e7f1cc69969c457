//! The fields of an entry against those of the node at its path.
ghost use Rattle.std.specs.Prelude.{◌≡◌, ◌==◌, not};
ghost use Rattle.diff_files.specs.Fields as fields;

use crate::comparison::Comparison;
use crate::modes::{is_regular_file_mode, is_symlink_mode, owner_executable_bit};
use crate::stats::node_stat::NodeStat;
use git_index::{Detail, Stat};
use gitbase_core::IndexEntry;

/// One more than the largest number of 32 bits.
const LIMIT: u64 = 0x1_0000_0000;

/// The id of the blob without bytes.
const EMPTY_ID: [u8; 20] = [
    0xe6, 0x9d, 0xe2, 0x9b, 0xb2, 0xd1, 0xd6, 0x43, 0x4b, 0x8b, 0x29, 0xae, 0x77, 0x5a, 0xd8, 0xc2,
    0xe4, 0x8c, 0x53, 0x91,
];

fn differs_in_ctime(comparison: &Comparison, seen: &Stat, at: &NodeStat) -> bool
    ensures { result ≡ fields.differs_in_ctime comparison.now seen.now at.now }
{
    comparison.trust_ctime & comparison.check_stat & (seen.ctime.seconds != at.ctime)
}

fn differs_in_owner_or_inode(comparison: &Comparison, seen: &Stat, at: &NodeStat) -> bool
    ensures { result ≡ fields.differs_in_owner_or_inode comparison.now seen.now at.now }
{
    let owner = (seen.uid != at.uid) | (seen.gid != at.gid);
    comparison.check_stat & (owner | (seen.ino as u64 != at.ino % LIMIT))
}

/// Whether what the index saw of a file is other than what is told of it.
fn differs_in_stat_fields(comparison: &Comparison, seen: &Stat, at: &NodeStat) -> bool
    ensures { result ≡ fields.differs_in_stat_fields comparison.now seen.now at.now }
{
    if seen.mtime.seconds != at.mtime {
        return true;
    }
    if seen.size as u64 != at.size % LIMIT {
        return true;
    }
    differs_in_ctime(comparison, seen, at) | differs_in_owner_or_inode(comparison, seen, at)
}

fn differs_from_regular_file_mode(comparison: &Comparison, old: u32, mode: u32) -> bool
    ensures { result ≡ fields.differs_from_regular_file_mode comparison.now old mode }
{
    !is_regular_file_mode(mode)
        | (comparison.file_mode & (owner_executable_bit(old) != owner_executable_bit(mode)))
}

fn differs_from_symlink_mode(comparison: &Comparison, mode: u32) -> bool
    ensures { result ≡ fields.differs_from_symlink_mode comparison.now mode }
{
    !is_symlink_mode(mode) & (comparison.symlinks | !is_regular_file_mode(mode))
}

/// Whether a node is not what the mode of an entry says.
pub fn differs_from_entry_mode(comparison: &Comparison, old: u32, mode: u32) -> bool
    ensures { result ≡ fields.differs_from_entry_mode comparison.now old mode }
{
    if is_symlink_mode(old) {
        return differs_from_symlink_mode(comparison, mode);
    }
    differs_from_regular_file_mode(comparison, old, mode)
}

/// Whether git wrote down that a file differs, by a size of 0.
fn is_smudged(entry: &IndexEntry, detail: &Detail) -> bool
    ensures { result ≡ fields.is_smudged entry.now detail.now }
{
    if detail.stat.size != 0 {
        return false;
    }
    entry.id.as_bytes().as_slice() != EMPTY_ID.as_slice()
}

/// Whether what stands at the path of a file or a link differs from its entry, without a look at
/// its bytes.
#[tactic(auto, unfolding(crate::specs::Fields::is_changed_by_mode_or_stat))]
pub fn is_changed_by_mode_or_stat(
    comparison: &Comparison,
    entry: &IndexEntry,
    detail: &Detail,
    at: &NodeStat,
) -> bool
    ensures { result ≡ fields.is_changed_by_mode_or_stat comparison.now entry.now detail.now
        at.now }
{
    if differs_from_entry_mode(comparison, entry.mode.bits(), at.mode) {
        return true;
    }
    differs_in_stat_fields(comparison, &detail.stat, at) | is_smudged(entry, detail)
}

/// Whether a file may have changed unseen: the index was not written later than it.
pub fn is_racy(comparison: &Comparison, detail: &Detail) -> bool
    ensures { result ≡ fields.is_racy comparison.now detail.now }
{
    comparison.index_time != 0 && detail.stat.mtime.seconds >= comparison.index_time
}
