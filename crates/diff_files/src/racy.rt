//! What may have changed unseen.
ghost use Rattle.std.specs.Prelude.{◌≡◌, false, Some, IfOk, IsErrOf};
ghost use Rattle.gitbase_core.specs.Path.{path_joined_with_slash};
ghost use Rattle.worktree_fs.specs.Answers.{HoldsUnlessFault};
ghost use Rattle.worktree_fs.specs.Causes.{CountIncreasedOrSaturated};
ghost use Rattle.worktree_fs.specs.Kept.{KeepsTreeAndListCounts};
ghost use Rattle.worktree_fs.specs.Tree.{Names, look};
ghost use Rattle.git_index.specs.Blobs.{blob_id};
ghost use Rattle.std.specs.Str.{bytes_eq};
ghost use Rattle.diff_files.specs.KeptStats.{KeepsToldStats};
ghost use Rattle.diff_files.specs.Stats.{StatsByPath};
ghost use Rattle.diff_files.specs.States as words;

use crate::change::PathChange;
use crate::error::Unsupported;
use crate::judged::Judged;
use crate::place::full_path_of_entry;
use crate::stats::Stats;
use git_index::blob_id;
use gitbase_core::{Bytes, IndexEntry, ObjectId, OutOfMemory, PathText};
use std::alloc::Global;
use worktree_fs::{ReadAnswer, ReadError, Worktree};

/// Whether the blob of some bytes has an id.
fn has_blob_id(alloc: Global, bytes: &[u8], id: &ObjectId) -> Result<bool, OutOfMemory>
    ensures { IfOk result (λ has. has ≡ bytes_eq (blob_id bytes.now) id.now) }
{
    let own = blob_id(alloc, bytes)?;
    Ok(own.as_bytes().as_slice() == id.as_bytes().as_slice())
}

/// Whether a link leads where a blob says.
fn has_target_with_blob_id(
    alloc: Global,
    id: &ObjectId,
    target: &Option<Bytes>,
) -> Result<bool, OutOfMemory>
    ensures { IfOk result (λ is. is ≡ words.has_target_with_blob_id id.now target.now) }
{
    match target {
        Some(target) => has_blob_id(alloc, target.as_bytes(), id),
        None => Ok(false),
    }
}

/// Whether the link at a whole path leads where the blob of an entry says.
pub fn link_target_matches_entry<S: Stats>(
    alloc: Global,
    stats: &mut S,
    full: &PathText,
    entry: &IndexEntry,
) -> Result<bool, ReadError>
    ensures is { (t : StatsByPath) → S.told stats.old ≡ Some t → IfOk result (λ is. is
        ≡ words.has_target_with_blob_id entry.now.id (t.target_at full.now)) }
    ensures kept { KeepsToldStats S.Stats stats.old stats.new }
    ensures cause { IsErrOf result ReadError.Fault
        → CountIncreasedOrSaturated (S.faults stats.old) (S.faults stats.new) }
    ensures unfaulted { HoldsUnlessFault result (S.faults stats.new ≡ S.faults stats.old) }
{
    let target = stats.target(alloc, full.as_bytes())?;
    Ok(has_target_with_blob_id(alloc, &entry.id, &target)?)
}

/// How a path changed whose bytes are known.
fn unchanged_if_bytes_match_id(
    alloc: Global,
    bytes: &Bytes,
    id: &ObjectId,
    otherwise: PathChange,
) -> Result<PathChange, OutOfMemory>
    ensures { IfOk result
        (λ change. change ≡ words.unchanged_if_bytes_match_id id.now otherwise bytes.now) }
{
    if has_blob_id(alloc, bytes.as_bytes(), id)? {
        return Ok(PathChange::Same);
    }
    Ok(otherwise)
}

/// How a path changed by its bytes; what is no file any more differs.
fn change_by_comparing_bytes<W: Worktree>(
    alloc: Global,
    worktree: &mut W,
    root: &[u8],
    entry: &IndexEntry,
    otherwise: PathChange,
) -> Result<PathChange, ReadError>
    ensures change { (t : Names) → W.told worktree.old ≡ Some t
        → IfOk result (λ change. change ≡ words.change_by_comparing_bytes entry.now.id otherwise
        (look t (path_joined_with_slash root.now entry.now.path) false)) }
    ensures keeps { KeepsTreeAndListCounts W.Worktree worktree.old worktree.new }
    ensures cause { IsErrOf result ReadError.Fault
        → CountIncreasedOrSaturated (W.faults worktree.old) (W.faults worktree.new) }
    ensures unfaulted { HoldsUnlessFault result (W.faults worktree.new ≡ W.faults worktree.old) }
{
    let full = full_path_of_entry(alloc, root, entry)?;
    let mut bytes = Bytes::new(alloc);
    match worktree.read(alloc, full.as_bytes(), false, &mut bytes)? {
        ReadAnswer::Read => Ok(unchanged_if_bytes_match_id(alloc, &bytes, &entry.id, otherwise)?),
        ReadAnswer::Absent => Ok(otherwise),
        ReadAnswer::IsDirectory => Ok(otherwise),
        ReadAnswer::IsLink => Ok(otherwise),
        ReadAnswer::LinkLimit => Ok(otherwise),
        ReadAnswer::Special => Ok(otherwise),
    }
}

/// What was judged, with the bytes at the path of an entry where they are asked for.
pub fn resolve_judged_change<W: Worktree>(
    alloc: Global,
    worktree: &mut W,
    root: &[u8],
    entry: &IndexEntry,
    judged: Judged,
) -> Result<Result<PathChange, Unsupported>, ReadError>
    ensures change { (t : Names) → W.told worktree.old ≡ Some t → IfOk result (λ change. change
        ≡ words.resolve_judged_change t (path_joined_with_slash root.now entry.now.path)
        entry.now.id judged) }
    ensures keeps { KeepsTreeAndListCounts W.Worktree worktree.old worktree.new }
    ensures cause { IsErrOf result ReadError.Fault
        → CountIncreasedOrSaturated (W.faults worktree.old) (W.faults worktree.new) }
    ensures unfaulted { HoldsUnlessFault result (W.faults worktree.new ≡ W.faults worktree.old) }
{
    match judged {
        Judged::Known(change) => Ok(Ok(change)),
        Judged::Refused(form) => Ok(Err(form)),
        Judged::ByBytes(otherwise) => {
            Ok(Ok(change_by_comparing_bytes(alloc, worktree, root, entry, otherwise)?))
        }
    }
}
