//! How what stands at the path of an entry is, as `git ls-files -d` and `-m` ask.
ghost use Rattle.std.specs.Prelude.{◌≡◌, Some, IfOk, IsErrOf};
ghost use Rattle.gitbase_core.specs.Entry.{assume_valid_flag};
ghost use Rattle.gitbase_core.specs.Kinds.{entry_has_flag};
ghost use Rattle.worktree_fs.specs.Answers.{HoldsUnlessFault};
ghost use Rattle.worktree_fs.specs.Causes.{CountIncreasedOrSaturated};
ghost use Rattle.worktree_fs.specs.Kept.{KeepsTreeAndListCounts};
ghost use Rattle.diff_files.specs.KeptStats.{KeepsToldStats, CountsFaultInEither, KeepsFaultCounts, TreeAndStats, Tells};
ghost use Rattle.diff_files.specs.Standing as words;
ghost use Rattle.diff_files.specs.Stats.{StatsByPath};

use crate::change::PathChange;
use crate::comparison::Comparison;
use crate::entry::{
    addition_of_node, change_to_differing_node, has_submodule_file_type, judge_racy_node,
};
use crate::error::Unsupported;
use crate::fields::{differs_from_entry_mode, is_changed_by_mode_or_stat, is_racy};
use crate::judged::Judged;
use crate::modes::is_directory_mode;
use crate::place::{full_path_of_entry, has_node_named_dot_git};
use crate::racy::resolve_judged_change;
use crate::stats::Stats;
use crate::stats::node_stat::NodeStat;
use git_index::Detail;
use gitbase_core::{Flags, IndexEntry, PathText};
use std::alloc::Global;
use worktree_fs::{ReadError, Worktree};

/// One more than the largest number of 32 bits.
const LIMIT: u64 = 0x1_0000_0000;

/// Whether the size that is kept is another, and tells anything.
fn has_other_nonzero_size(detail: &Detail, at: &NodeStat) -> bool
    ensures { result ≡ words.has_other_nonzero_size detail.now at.now }
{
    if detail.stat.size == 0 {
        return false;
    }
    detail.stat.size as u64 != at.size % LIMIT
}

/// Whether the mode or the size tells that a node is another.
fn differs_in_mode_or_size(
    comparison: &Comparison,
    entry: &IndexEntry,
    detail: &Detail,
    at: &NodeStat,
) -> bool
    ensures { result ≡ words.differs_in_mode_or_size comparison.now entry.now detail.now at.now }
{
    differs_from_entry_mode(comparison, entry.mode.bits(), at.mode)
        || has_other_nonzero_size(detail, at)
}

/// Whether the bytes have to be compared.
fn needs_byte_comparison(
    comparison: &Comparison,
    entry: &IndexEntry,
    detail: &Detail,
    at: &NodeStat,
) -> bool
    ensures { result ≡ words.needs_byte_comparison comparison.now entry.now detail.now at.now }
{
    is_changed_by_mode_or_stat(comparison, entry, detail, at) || is_racy(comparison, detail)
}

/// What is known of the node in the place of a file or a link.
fn judge_file_for_ls_files<S: Stats>(
    alloc: Global,
    stats: &mut S,
    comparison: &Comparison,
    full: &PathText,
    entry: &IndexEntry,
    detail: &Detail,
    at: &NodeStat,
) -> Result<Judged, ReadError>
    ensures judged { (t : StatsByPath) → S.told stats.old ≡ Some t → IfOk result (λ judged. judged
        ≡ words.judge_file_for_ls_files t comparison.now full.now entry.now detail.now at.now) }
    ensures kept { KeepsToldStats S.Stats stats.old stats.new }
    ensures cause { IsErrOf result ReadError.Fault
        → CountIncreasedOrSaturated (S.faults stats.old) (S.faults stats.new) }
    ensures unfaulted { HoldsUnlessFault result (S.faults stats.new ≡ S.faults stats.old) }
{
    if differs_in_mode_or_size(comparison, entry, detail, at) {
        return Ok(Judged::Known(change_to_differing_node(comparison, entry, at)));
    }
    if needs_byte_comparison(comparison, entry, detail, at) {
        return judge_racy_node(alloc, stats, comparison, full, entry, at);
    }
    Ok(Judged::Known(PathChange::Same))
}

/// What is known of the node in the place of a submodule.
///
/// See docs/DIFFERENCES.md#diff-repository.
fn judge_submodule_for_ls_files<S: Stats>(
    alloc: Global,
    stats: &mut S,
    comparison: &Comparison,
    full: &PathText,
    entry: &IndexEntry,
    at: &NodeStat,
) -> Result<Judged, ReadError>
    ensures judged { (t : StatsByPath) → S.told stats.old ≡ Some t → IfOk result (λ judged. judged
        ≡ words.judge_submodule_for_ls_files t comparison.now full.now entry.now at.now) }
    ensures kept { KeepsToldStats S.Stats stats.old stats.new }
    ensures cause { IsErrOf result ReadError.Fault
        → CountIncreasedOrSaturated (S.faults stats.old) (S.faults stats.new) }
    ensures unfaulted { HoldsUnlessFault result (S.faults stats.new ≡ S.faults stats.old) }
{
    if !is_directory_mode(at.mode) {
        return Ok(Judged::Known(change_to_differing_node(comparison, entry, at)));
    }
    if has_node_named_dot_git(alloc, stats, full)? {
        return Ok(Judged::Refused(Unsupported::Repository));
    }
    Ok(Judged::Known(PathChange::Same))
}

/// What is known of the node at the path of an entry.
#[tactic(auto, unfolding(crate::specs::Standing::judge_node_for_ls_files))]
fn judge_node_for_ls_files<S: Stats>(
    alloc: Global,
    stats: &mut S,
    comparison: &Comparison,
    full: &PathText,
    entry: &IndexEntry,
    detail: &Detail,
    at: &NodeStat,
) -> Result<Judged, ReadError>
    ensures judged { (t : StatsByPath) → S.told stats.old ≡ Some t → IfOk result (λ judged. judged
        ≡ words.judge_node_for_ls_files t comparison.now full.now entry.now detail.now at.now) }
    ensures kept { KeepsToldStats S.Stats stats.old stats.new }
    ensures cause { IsErrOf result ReadError.Fault
        → CountIncreasedOrSaturated (S.faults stats.old) (S.faults stats.new) }
    ensures unfaulted { HoldsUnlessFault result (S.faults stats.new ≡ S.faults stats.old) }
{
    if detail.intent_to_add {
        return Ok(Judged::Known(addition_of_node(comparison, entry, at)));
    }
    if has_submodule_file_type(entry) {
        return judge_submodule_for_ls_files(alloc, stats, comparison, full, entry, at);
    }
    judge_file_for_ls_files(alloc, stats, comparison, full, entry, detail, at)
}

/// Whether an entry is assumed to be unchanged.
fn is_assumed_valid(entry: &IndexEntry) -> bool
    ensures { result ≡ entry_has_flag assume_valid_flag entry.now }
{
    entry.flags.contains(Flags::ASSUME_VALID)
}

/// What is known of the path of an entry, by what is told of the node there.
#[tactic(auto, unfolding(crate::specs::Standing::judge_stat_for_ls_files))]
fn judge_stat_for_ls_files<S: Stats>(
    alloc: Global,
    stats: &mut S,
    comparison: &Comparison,
    full: &PathText,
    entry: &IndexEntry,
    detail: &Detail,
    at: Option<NodeStat>,
) -> Result<Judged, ReadError>
    ensures judged { (t : StatsByPath) → S.told stats.old ≡ Some t → IfOk result (λ judged. judged
        ≡ words.judge_stat_for_ls_files t comparison.now full.now entry.now detail.now at) }
    ensures kept { KeepsToldStats S.Stats stats.old stats.new }
    ensures cause { IsErrOf result ReadError.Fault
        → CountIncreasedOrSaturated (S.faults stats.old) (S.faults stats.new) }
    ensures unfaulted { HoldsUnlessFault result (S.faults stats.new ≡ S.faults stats.old) }
{
    let Some(at) = at else {
        return Ok(Judged::Known(PathChange::Deleted));
    };
    if is_assumed_valid(entry) {
        return Ok(Judged::Known(PathChange::Same));
    }
    judge_node_for_ls_files(alloc, stats, comparison, full, entry, detail, &at)
}

/// What is known of the path of an entry.
fn judge_path_for_ls_files<S: Stats>(
    alloc: Global,
    stats: &mut S,
    comparison: &Comparison,
    full: &PathText,
    entry: &IndexEntry,
    detail: &Detail,
) -> Result<Judged, ReadError>
    ensures judged { (t : StatsByPath) → S.told stats.old ≡ Some t → IfOk result (λ judged. judged
        ≡ words.judge_path_for_ls_files t comparison.now full.now entry.now detail.now) }
    ensures kept { KeepsToldStats S.Stats stats.old stats.new }
    ensures cause { IsErrOf result ReadError.Fault
        → CountIncreasedOrSaturated (S.faults stats.old) (S.faults stats.new) }
    ensures unfaulted { HoldsUnlessFault result (S.faults stats.new ≡ S.faults stats.old) }
{
    let at = stats.stat(full.as_bytes())?;
    judge_stat_for_ls_files(alloc, stats, comparison, full, entry, detail, at)
}

/// How what stands at the path of an entry below `root` differs from it, as `git ls-files -m` asks;
/// or the form that is not answered. Bytes are compared where neither the mode nor the size tells.
///
/// # Errors
///
/// - `Fault`: the worktree failed, or what is asked for stats did, and counted it.
/// - `OutOfMemory`: memory was refused.
///
/// See docs/DECISIONS.md#stats-beside-worktree.
pub fn change_for_ls_files_modified<W: Worktree, S: Stats>(
    alloc: Global,
    worktree: &mut W,
    stats: &mut S,
    root: &[u8],
    comparison: &Comparison,
    entry: &IndexEntry,
    detail: &Detail,
) -> Result<Result<PathChange, Unsupported>, ReadError>
    ensures standing { (o : TreeAndStats) → Tells (W.told worktree.old) (S.told stats.old) o
        → IfOk result (λ change. change
        ≡ words.change_for_ls_files_modified o root.now comparison.now entry.now detail.now) }
    ensures worktree { KeepsTreeAndListCounts W.Worktree worktree.old worktree.new }
    ensures stats { KeepsToldStats S.Stats stats.old stats.new }
    ensures cause { IsErrOf result ReadError.Fault
        → CountsFaultInEither W.Worktree S.Stats worktree.old worktree.new stats.old stats.new }
    ensures unfaulted { HoldsUnlessFault result
        (KeepsFaultCounts W.Worktree S.Stats worktree.old worktree.new stats.old stats.new) }
{
    let full = full_path_of_entry(alloc, root, entry)?;
    let judged = judge_path_for_ls_files(alloc, stats, comparison, &full, entry, detail)?;
    resolve_judged_change(alloc, worktree, root, entry, judged)
}

/// Whether what stands at a path is nothing.
fn deleted_unless_present(at: Option<NodeStat>) -> PathChange
    ensures { result ≡ words.deleted_unless_present at }
{
    match at {
        Some(_) => PathChange::Same,
        None => PathChange::Deleted,
    }
}

/// Whether anything stands at the path of an entry below `root`, as `git ls-files -d` asks:
/// `Deleted` where nothing does, else `Same`.
///
/// # Errors
///
/// - `Fault`: what is asked for stats failed, and counted it.
/// - `OutOfMemory`: memory was refused.
pub fn change_for_ls_files_deleted<S: Stats>(
    alloc: Global,
    stats: &mut S,
    root: &[u8],
    entry: &IndexEntry,
) -> Result<PathChange, ReadError>
    ensures presence { (t : StatsByPath) → S.told stats.old ≡ Some t → IfOk result
        (λ change. change ≡ words.change_for_ls_files_deleted t root.now entry.now) }
    ensures kept { KeepsToldStats S.Stats stats.old stats.new }
    ensures cause { IsErrOf result ReadError.Fault
        → CountIncreasedOrSaturated (S.faults stats.old) (S.faults stats.new) }
    ensures unfaulted { HoldsUnlessFault result (S.faults stats.new ≡ S.faults stats.old) }
{
    let full = full_path_of_entry(alloc, root, entry)?;
    Ok(deleted_unless_present(stats.stat(full.as_bytes())?))
}

/// Whether an entry below `root` is skipped; in a sparse checkout none is whose path is there.
///
/// # Errors
///
/// - `Fault`: what is asked for stats failed, and counted it.
/// - `OutOfMemory`: memory was refused.
pub fn is_effectively_skipped_below_root<S: Stats>(
    alloc: Global,
    stats: &mut S,
    root: &[u8],
    comparison: &Comparison,
    entry: &IndexEntry,
) -> Result<bool, ReadError>
    ensures is { (t : StatsByPath) → S.told stats.old ≡ Some t → IfOk result
        (λ is. is ≡ words.is_effectively_skipped_below_root t root.now comparison.now entry.now) }
    ensures kept { KeepsToldStats S.Stats stats.old stats.new }
    ensures cause { IsErrOf result ReadError.Fault
        → CountIncreasedOrSaturated (S.faults stats.old) (S.faults stats.new) }
    ensures unfaulted { HoldsUnlessFault result (S.faults stats.new ≡ S.faults stats.old) }
{
    if !entry.flags.contains(Flags::SKIP_WORKTREE) {
        return Ok(false);
    }
    if !comparison.sparse_checkout {
        return Ok(true);
    }
    let full = full_path_of_entry(alloc, root, entry)?;
    Ok(stats.stat(full.as_bytes())?.is_none())
}
