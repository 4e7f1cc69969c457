//! The changes of one entry.
ghost use Rattle.std.specs.Prelude.{◌≡◌, IfOk, IsErrOf};
ghost use Rattle.worktree_fs.specs.Answers.{HoldsUnlessFault};
ghost use Rattle.worktree_fs.specs.Kept.{KeepsTreeAndListCounts};
ghost use Rattle.diff_files.specs.KeptStats.{KeepsToldStats, CountsFaultInEither, KeepsFaultCounts, TreeAndStats, Tells};
ghost use Rattle.diff_files.specs.Rows as rows;
ghost use Rattle.diff_files.specs.There.{LeadsKnownPathThroughDirectories};

use crate::change::PathChange;
use crate::comparison::Comparison;
use crate::entry::{judge_merged_or_ours_entry, judge_unmerged_entry};
use crate::error::Unsupported;
use crate::racy::resolve_judged_change;
use crate::stats::Stats;
use git_index::Detail;
use gitbase_core::{Bytes, IndexEntry};
use std::alloc::Global;
use worktree_fs::{ReadError, Worktree};

/// The changes of one entry: that its path is not merged, and how it changed.
#[derive(Clone, Copy, Debug, PartialEq, Eq)]
pub struct Parts {
    pub unmerged: PathChange,
    pub change: PathChange,
}

/// An entry of an index, with what the index says of the node at its path.
#[derive(Clone, Copy)]
pub struct DetailedEntry<'a> {
    pub entry: &'a IndexEntry,
    pub detail: &'a Detail,
}

/// Both, or the first form that is not answered.
fn parts_unless_unsupported(
    unmerged: Result<PathChange, Unsupported>,
    change: Result<PathChange, Unsupported>,
) -> Result<Parts, Unsupported>
    ensures { result ≡ rows.parts_unless_unsupported unmerged change }
{
    match (unmerged, change) {
        (Err(form), _) => Err(form),
        (Ok(_), Err(form)) => Err(form),
        (Ok(unmerged), Ok(change)) => Ok(Parts { unmerged, change }),
    }
}

/// The changes of one entry, or why they are not answered; `first` says whether it is the first of
/// its path.
pub fn change_parts_of_entry<W: Worktree, S: Stats>(
    alloc: Global,
    worktree: &mut W,
    stats: &mut S,
    root: &[u8],
    comparison: &Comparison,
    known: &mut Bytes,
    first: bool,
    detailed: &DetailedEntry<'_>,
) -> Result<Result<Parts, Unsupported>, ReadError>
    requires known { LeadsKnownPathThroughDirectories (S.told stats.old) root.now known.old }
    ensures parts { (o : TreeAndStats) → Tells (W.told worktree.old) (S.told stats.old) o
        → IfOk result (λ parts. parts
        ≡ rows.change_parts_of_entry o root.now comparison.now first detailed.now.entry.now
        detailed.now.detail.now) }
    ensures known { LeadsKnownPathThroughDirectories (S.told stats.old) root.now known.new }
    ensures worktree { KeepsTreeAndListCounts W.Worktree worktree.old worktree.new }
    ensures stats { KeepsToldStats S.Stats stats.old stats.new }
    ensures cause { IsErrOf result ReadError.Fault
        → CountsFaultInEither W.Worktree S.Stats worktree.old worktree.new stats.old stats.new }
    ensures unfaulted { HoldsUnlessFault result
        (KeepsFaultCounts W.Worktree S.Stats worktree.old worktree.new stats.old stats.new) }
{
    let DetailedEntry { entry, detail } = *detailed;
    let told = judge_unmerged_entry(alloc, stats, root, comparison, known, first, entry)?;
    let judged = judge_merged_or_ours_entry(alloc, stats, root, comparison, known, entry, detail)?;
    let told = resolve_judged_change(alloc, worktree, root, entry, told)?;
    let change = resolve_judged_change(alloc, worktree, root, entry, judged)?;
    Ok(parts_unless_unsupported(told, change))
}
