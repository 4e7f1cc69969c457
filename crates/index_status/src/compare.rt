//! The state of each index path.
ghost use Rattle.std.specs.Prelude.{◌≡◌, ◌≤◌, ◌+◌, false, Some, IfOk, IfErr};
ghost use Rattle.gitbase_core.specs.Path.{components};
ghost use Rattle.worktree_fs.specs.Causes.{CountIncreasedOrSaturated, saturating_sum};
ghost use Rattle.worktree_fs.specs.Kept.{KeepsTreeAndListCounts};
ghost use Rattle.worktree_fs.specs.Tree.{Names};
ghost use Rattle.index_status.specs.States as states;
ghost use Rattle.index_status.specs.Rows as rows;
ghost use Rattle.index_status.specs.Ways as ways;

use crate::error::StatesError;
use crate::look::state_of_entry_at_full_path;
use crate::path_state::PathState;
use crate::way::{Known, Way, open_or_barred_way_to_path};
use gitbase_core::{Flags, IndexEntry, OutOfMemory, PathText, State};
use std::alloc::Global;
use worktree_fs::Worktree;

/// Each path of an index, once and in ascending order, with its state against the worktree, as
/// `git diff-files` compares: the first of these that fits.
///
/// - `Conflicted`: the index has an entry of the path at another stage than 0.
/// - `Skipped`: its entry is to be skipped or taken as unchanged, or is the directory of a sparse
///   index.
/// - `Deleted`: nothing is there, or what leads there from the root is not all directories; a link
///   is none.
/// - `Unchecked` and `TypeChanged`: for a submodule, whether there is a directory; for a link,
///   whether there is one.
/// - `TypeChanged`, `Same` and `Modified`: for a file, no file; one whose bytes have the id of the
///   entry; any other.
///
/// Bytes are compared as they are on disk, without filters. Each file is read once, and what leads
/// to several paths beside one another is looked at once, whether it is there or not; a mark that
/// an entry was up to date saves no reading.
///
/// # Errors
///
/// The count of the worktree's faults rises for `Fault` alone.
///
/// - `Fault`: the worktree failed at this path, which it counted. It is on the way to that of an
///   entry whose state is neither `Conflicted` nor `Skipped`, or there, and over a told tree
///   everything before it on that way is a directory.
/// - `OutOfMemory`: memory was refused.
///
/// See docs/DECISIONS.md#states-by-themselves.
/// See docs/DECISIONS.md#index-path-outside.
pub fn compare_index_paths_with_worktree<W: Worktree>(
    alloc: Global,
    worktree: &mut W,
    worktree_root: &[u8],
    index: &State,
) -> Result<Vec<(PathText, PathState)>, StatesError>
    ensures states { (t : Names) → W.told worktree.old ≡ Some t → IfOk result (λ made. made.items
        ≡ rows.rows_of_index_over_tree t worktree_root.now index.now) }
    ensures possible { IfOk result (λ made. rows.ArePossibleRowsOfIndex index.now made.items) }
    ensures ascends { IfOk result (λ made. rows.PathsAscendStrictly made.items) }
    ensures conflicted { IfOk result (λ made. rows.AreConflictedExactlyWhereUnmerged index.now
        made.items) }
    ensures refused { IfErr result (rows.RefusesStatesWithCause (W.told worktree.old)
        worktree_root.now index.now (CountIncreasedOrSaturated (W.faults worktree.old)
        (W.faults worktree.new))) }
    ensures keeps { KeepsTreeAndListCounts W.Worktree worktree.old worktree.new }
    ensures unfaulted { ways.HoldsUnlessStatesFault result (W.faults worktree.new
        ≡ W.faults worktree.old) }
    ensures reads { W.reads worktree.new ≤ W.reads worktree.old + states.most_reads_for_entries
        index.now }
    ensures read { IfOk result (λ made. saturating_sum (W.reads worktree.old)
        (rows.least_files_read_for_rows made.items) ≤ W.reads worktree.new) }
{
    let mut made = Vec::new(alloc);
    let mut known = Known {
        path: b"",
        barred: None,
    };
    for entry in index.entries() {
        let (more, led) = add_row_unless_path_repeats(
            alloc,
            worktree,
            worktree_root,
            known,
            made,
            entry,
        )?;
        made = more;
        known = led;
    }
    Ok(made)
}

/// Rows with that of an entry, unless the last one is of its path; and what is known of the ways.
fn add_row_unless_path_repeats<'a, W: Worktree>(
    alloc: Global,
    worktree: &mut W,
    root: &[u8],
    known: Known<'a>,
    made: Vec<(PathText, PathState)>,
    entry: &'a IndexEntry,
) -> Result<(Vec<(PathText, PathState)>, Known<'a>), StatesError>
    requires known { ways.KnowsWayToPath (W.told worktree.old) root.now known.barred
        (components known.path.now) }
    ensures more { IfOk result (λ more. rows.IsRowsWithEntryUnlessRepeated (W.told worktree.old)
        root.now entry.now made.items more.0.items) }
    ensures known { IfOk result (λ more. ways.KnowsWayToPath (W.told worktree.old) root.now
        more.1.barred (components more.1.path.now)) }
    ensures refused { IfErr result (ways.StopsByFaultAtSomePathOrMemory
        (states.IsLookedAtForEntry (W.told worktree.old) root.now entry.now)
        (CountIncreasedOrSaturated (W.faults worktree.old) (W.faults worktree.new))) }
    ensures keeps { KeepsTreeAndListCounts W.Worktree worktree.old worktree.new }
    ensures unfaulted { ways.HoldsUnlessStatesFault result (W.faults worktree.new
        ≡ W.faults worktree.old) }
    ensures reads { W.reads worktree.new ≤ W.reads worktree.old + states.most_reads_for_entry
        entry.now }
    ensures read { IfOk result (λ more. rows.KeepsLeastReadsForRows (W.reads worktree.old)
        (W.reads worktree.new) made.items more.0.items) }
{
    if last_row_has_path(&made, &entry.path) {
        return Ok((made, known));
    }
    let (state, led) = state_of_index_entry(alloc, worktree, root, known, entry)?;
    Ok((rows_with_one_pushed(alloc, made, &entry.path, state)?, led))
}

/// Whether the last row has this path.
fn last_row_has_path(made: &Vec<(PathText, PathState)>, path: &PathText) -> bool
    ensures { result ≡ rows.last_row_has_path made.now.items path.now }
{
    match made.last() {
        Some((last, _)) => last.as_bytes() == path.as_bytes(),
        None => false,
    }
}

/// Rows with one more.
fn rows_with_one_pushed(
    alloc: Global,
    mut made: Vec<(PathText, PathState)>,
    path: &PathText,
    state: PathState,
) -> Result<Vec<(PathText, PathState)>, OutOfMemory>
    ensures { IfOk result (λ more. rows.IsRowsWithOneMore made.items path.now state more.items) }
{
    let path = PathText::from_bytes(alloc, path.as_bytes())?;
    made.push((path, state))?;
    Ok(made)
}

/// The state of an entry, the first of its path; and what is known of the way to it, or, where it
/// is not looked at, what was.
fn state_of_index_entry<'a, W: Worktree>(
    alloc: Global,
    worktree: &mut W,
    root: &[u8],
    known: Known<'a>,
    entry: &'a IndexEntry,
) -> Result<(PathState, Known<'a>), StatesError>
    requires known { ways.KnowsWayToPath (W.told worktree.old) root.now known.barred
        (components known.path.now) }
    ensures state { IfOk result (λ found. states.IsStateOfEntry (W.told worktree.old) root.now
        entry.now found.0) }
    ensures known { IfOk result (λ found. ways.KnowsWayToPath (W.told worktree.old) root.now
        found.1.barred (components found.1.path.now)) }
    ensures refused { IfErr result (ways.StopsByFaultAtSomePathOrMemory
        (states.IsLookedAtForEntry (W.told worktree.old) root.now entry.now)
        (CountIncreasedOrSaturated (W.faults worktree.old) (W.faults worktree.new))) }
    ensures keeps { KeepsTreeAndListCounts W.Worktree worktree.old worktree.new }
    ensures unfaulted { ways.HoldsUnlessStatesFault result (W.faults worktree.new
        ≡ W.faults worktree.old) }
    ensures reads { W.reads worktree.new ≤ W.reads worktree.old + states.most_reads_for_entry
        entry.now }
    ensures read { IfOk result (λ found. saturating_sum (W.reads worktree.old)
        (states.least_reads_for_state found.0) ≤ W.reads worktree.new) }
{
    if entry.stage != 0 {
        return Ok((PathState::Conflicted, known));
    }
    if is_skipped_assumed_or_sparse(entry) {
        return Ok((PathState::Skipped, known));
    }
    match open_or_barred_way_to_path(alloc, worktree, root, &known, &entry.path)? {
        Way::Open(full) => {
            let state = state_of_entry_at_full_path(alloc, worktree, full, entry)?;
            Ok((state, known_way_to_entry(entry, None)))
        }
        Way::Barred(full) => Ok((PathState::Deleted, known_way_to_entry(entry, Some(full)))),
    }
}

/// What is known of the way to an entry's path.
fn known_way_to_entry(entry: &IndexEntry, barred: Option<PathText>) -> Known<'_>
    ensures path { result.path.now ≡ entry.now.path }
    ensures barred { result.barred ≡ barred }
{
    Known {
        path: entry.path.as_bytes(),
        barred,
    }
}

/// Whether the index says not to look at an entry's path.
///
/// See docs/DIFFERENCES.md#status-skipped.
fn is_skipped_assumed_or_sparse(entry: &IndexEntry) -> bool
    ensures { result ≡ states.is_skipped_assumed_or_sparse entry.now }
{
    if entry.flags.contains(Flags::SKIP_WORKTREE) {
        return true;
    }
    if entry.flags.contains(Flags::ASSUME_VALID) {
        return true;
    }
    entry.mode.is_sparse()
}
