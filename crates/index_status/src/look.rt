//! What stands at an index path, against what the index has.
ghost use Rattle.std.specs.Prelude.{◌≡◌, ◌≤◌, ◌+◌, false, Some, IfOk, IfErr};
ghost use Rattle.worktree_fs.specs.Causes.{CountIncreasedOrSaturated, saturating_sum};
ghost use Rattle.worktree_fs.specs.Kept.{KeepsTreeAndListCounts};
ghost use Rattle.worktree_fs.specs.Tree.{Names, look};
ghost use Rattle.git_index.specs.Blobs.{blob_id};
ghost use Rattle.index_status.specs.States as states;
ghost use Rattle.index_status.specs.Ways as ways;

use crate::error::StatesError;
use crate::path_state::PathState;
use git_index::blob_id;
use gitbase_core::{Bytes, IndexEntry, Mode, ObjectId, OutOfMemory, PathText};
use std::alloc::Global;
use worktree_fs::{NodeKind, ReadAnswer, ReadError, Worktree};

/// The state of an entry whose node stands at a whole path, to which directories lead.
///
/// See docs/DECISIONS.md#through-directories-alone.
/// See docs/DECISIONS.md#mode-is-file.
/// See docs/DIFFERENCES.md#status-unlooked.
/// See docs/DIFFERENCES.md#status-bytes.
/// See docs/DIFFERENCES.md#status-replaced-file.
/// See docs/DIFFERENCES.md#status-other-node.
pub(crate) fn state_of_entry_at_full_path<W: Worktree>(
    alloc: Global,
    worktree: &mut W,
    full: PathText,
    entry: &IndexEntry,
) -> Result<PathState, StatesError>
    ensures state { (t : Names) → W.told worktree.old ≡ Some t → IfOk result (λ state. state
        ≡ states.state_by_mode_and_look entry.now (look t full false)) }
    ensures possible { IfOk result (states.MayBeStateOfPresentEntry entry.now) }
    ensures refused { IfErr result (ways.StopsAtPathByFaultOrMemory full
        (CountIncreasedOrSaturated (W.faults worktree.old) (W.faults worktree.new))) }
    ensures keeps { KeepsTreeAndListCounts W.Worktree worktree.old worktree.new }
    ensures unfaulted { ways.HoldsUnlessStatesFault result (W.faults worktree.new
        ≡ W.faults worktree.old) }
    ensures reads { W.reads worktree.new ≤ W.reads worktree.old + states.most_reads_at_full_path
        entry.now }
    ensures read { IfOk result (λ state. saturating_sum (W.reads worktree.old)
        (states.least_reads_for_state state) ≤ W.reads worktree.new) }
{
    if entry.mode.is_submodule() {
        return submodule_state_by_node(alloc, worktree, full);
    }
    if is_symlink_mode(entry.mode) {
        return symlink_state_by_node_kind(alloc, worktree, full);
    }
    file_state_by_blob_id(alloc, worktree, full, &entry.id)
}

/// Whether this is the mode of a link.
fn is_symlink_mode(mode: Mode) -> bool
    ensures { result ≡ states.is_symlink_mode mode }
{
    mode.bits() == 0o120000
}

/// The state of a submodule.
fn submodule_state_by_node<W: Worktree>(
    alloc: Global,
    worktree: &mut W,
    full: PathText,
) -> Result<PathState, StatesError>
    ensures state { (t : Names) → W.told worktree.old ≡ Some t
        → IfOk result (λ state. state ≡ states.state_of_submodule_by_look (look t full false)) }
    ensures possible { IfOk result states.MayBeStateWithoutReading }
    ensures refused { IfErr result (ways.StopsAtPathByFaultOrMemory full
        (CountIncreasedOrSaturated (W.faults worktree.old) (W.faults worktree.new))) }
    ensures keeps { KeepsTreeAndListCounts W.Worktree worktree.old worktree.new }
    ensures unfaulted { ways.HoldsUnlessStatesFault result (W.faults worktree.new
        ≡ W.faults worktree.old) }
    ensures reads { W.reads worktree.new ≡ W.reads worktree.old }
    ensures read { IfOk result (λ state. saturating_sum (W.reads worktree.old)
        (states.least_reads_for_state state) ≤ W.reads worktree.new) }
{
    match worktree.kind(alloc, full.as_bytes()) {
        Ok(None) => Ok(PathState::Deleted),
        Ok(Some(NodeKind::Directory)) => Ok(PathState::Unchecked),
        Ok(Some(NodeKind::File)) => Ok(PathState::TypeChanged),
        Ok(Some(NodeKind::Symlink)) => Ok(PathState::TypeChanged),
        Ok(Some(NodeKind::Untrackable)) => Ok(PathState::TypeChanged),
        Err(ReadError::Fault) => Err(StatesError::Fault { path: full }),
        Err(ReadError::OutOfMemory) => Err(StatesError::OutOfMemory),
    }
}

/// The state of a link.
fn symlink_state_by_node_kind<W: Worktree>(
    alloc: Global,
    worktree: &mut W,
    full: PathText,
) -> Result<PathState, StatesError>
    ensures state { (t : Names) → W.told worktree.old ≡ Some t
        → IfOk result (λ state. state ≡ states.state_of_symlink_by_look (look t full false)) }
    ensures possible { IfOk result states.MayBeStateWithoutReading }
    ensures refused { IfErr result (ways.StopsAtPathByFaultOrMemory full
        (CountIncreasedOrSaturated (W.faults worktree.old) (W.faults worktree.new))) }
    ensures keeps { KeepsTreeAndListCounts W.Worktree worktree.old worktree.new }
    ensures unfaulted { ways.HoldsUnlessStatesFault result (W.faults worktree.new
        ≡ W.faults worktree.old) }
    ensures reads { W.reads worktree.new ≡ W.reads worktree.old }
    ensures read { IfOk result (λ state. saturating_sum (W.reads worktree.old)
        (states.least_reads_for_state state) ≤ W.reads worktree.new) }
{
    match worktree.kind(alloc, full.as_bytes()) {
        Ok(None) => Ok(PathState::Deleted),
        Ok(Some(NodeKind::Symlink)) => Ok(PathState::Unchecked),
        Ok(Some(NodeKind::File)) => Ok(PathState::TypeChanged),
        Ok(Some(NodeKind::Directory)) => Ok(PathState::TypeChanged),
        Ok(Some(NodeKind::Untrackable)) => Ok(PathState::TypeChanged),
        Err(ReadError::Fault) => Err(StatesError::Fault { path: full }),
        Err(ReadError::OutOfMemory) => Err(StatesError::OutOfMemory),
    }
}

/// The state of a file, which is read once.
///
/// See docs/DIFFERENCES.md#status-intended.
fn file_state_by_blob_id<W: Worktree>(
    alloc: Global,
    worktree: &mut W,
    full: PathText,
    id: &ObjectId,
) -> Result<PathState, StatesError>
    ensures state { (t : Names) → W.told worktree.old ≡ Some t
        → IfOk result (λ state. state ≡ states.state_of_file_by_look id.now (look t full false)) }
    ensures possible { IfOk result states.MayBeStateOfReadFile }
    ensures refused { IfErr result (ways.StopsAtPathByFaultOrMemory full
        (CountIncreasedOrSaturated (W.faults worktree.old) (W.faults worktree.new))) }
    ensures keeps { KeepsTreeAndListCounts W.Worktree worktree.old worktree.new }
    ensures unfaulted { ways.HoldsUnlessStatesFault result (W.faults worktree.new
        ≡ W.faults worktree.old) }
    ensures reads { W.reads worktree.new ≤ W.reads worktree.old + 1 }
    ensures read { IfOk result (λ state. saturating_sum (W.reads worktree.old)
        (states.least_reads_for_state state) ≤ W.reads worktree.new) }
{
    let mut bytes = Bytes::new(alloc);
    match worktree.read(alloc, full.as_bytes(), false, &mut bytes) {
        Ok(ReadAnswer::Read) => Ok(same_or_modified_by_blob_id(alloc, bytes.as_bytes(), id)?),
        Ok(ReadAnswer::Absent) => Ok(PathState::Deleted),
        Ok(ReadAnswer::IsDirectory) => Ok(PathState::TypeChanged),
        Ok(ReadAnswer::IsLink) => Ok(PathState::TypeChanged),
        Ok(ReadAnswer::LinkLimit) => Ok(PathState::TypeChanged),
        Ok(ReadAnswer::Special) => Ok(PathState::TypeChanged),
        Err(ReadError::Fault) => Err(StatesError::Fault { path: full }),
        Err(ReadError::OutOfMemory) => Err(StatesError::OutOfMemory),
    }
}

/// The state of a file by its bytes.
fn same_or_modified_by_blob_id(
    alloc: Global,
    bytes: &[u8],
    id: &ObjectId,
) -> Result<PathState, OutOfMemory>
    ensures state { IfOk result (λ state. state ≡ states.state_of_file_by_bytes id.now bytes.now) }
    ensures read { IfOk result (λ state. states.least_reads_for_state state ≡ 1) }
{
    let own = blob_id(alloc, bytes)?;
    if own.as_bytes().as_slice() == id.as_bytes().as_slice() {
        return Ok(PathState::Same);
    }
    Ok(PathState::Modified)
}
