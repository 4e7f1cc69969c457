//! How the path of an entry changed, by what is told of it.
ghost use Rattle.std.specs.Prelude.{◌≡◌, Some, IfOk, IsErrOf, is_some};
ghost use Rattle.gitbase_core.specs.Path.{path_joined_with_slash};
ghost use Rattle.worktree_fs.specs.Answers.{HoldsUnlessFault};
ghost use Rattle.worktree_fs.specs.Causes.{CountIncreasedOrSaturated};
ghost use Rattle.diff_files.specs.KeptStats.{KeepsToldStats};
ghost use Rattle.diff_files.specs.Stats.{StatsByPath};
ghost use Rattle.diff_files.specs.States as words;
ghost use Rattle.diff_files.specs.There.{LeadsKnownPathThroughDirectories};

use crate::change::PathChange;
use crate::comparison::{Comparison, Submodules};
use crate::error::Unsupported;
use crate::fields::{is_changed_by_mode_or_stat, is_racy};
use crate::judged::Judged;
use crate::modes::{
    file_type_bits, git_mode_of_node_in_place_of, is_directory_mode, is_submodule_mode,
    is_symlink_mode,
};
use crate::place::{full_path_of_entry, has_node_named_dot_git, stat_unless_behind_link};
use crate::racy::link_target_matches_entry;
use crate::stats::Stats;
use crate::stats::node_stat::NodeStat;
use git_index::Detail;
use gitbase_core::{Bytes, Flags, IndexEntry, PathText};
use std::alloc::Global;
use worktree_fs::ReadError;

/// Whether an entry is a submodule.
pub fn has_submodule_file_type(entry: &IndexEntry) -> bool
    ensures { result ≡ words.has_submodule_file_type entry.now }
{
    is_submodule_mode(entry.mode.bits())
}

/// The mode that git has for a node in the place of an entry.
fn git_mode_in_place_of_entry(comparison: &Comparison, entry: &IndexEntry, at: &NodeStat) -> u32
    ensures { result ≡ words.git_mode_in_place_of_entry comparison.now entry.now at.now }
{
    git_mode_of_node_in_place_of(comparison, entry.mode.bits(), at.mode)
}

/// How a path changed whose node has another mode or other contents.
fn modified_or_type_changed(old: u32, new: u32) -> PathChange
    ensures { result ≡ words.modified_or_type_changed old new }
{
    if file_type_bits(old) == file_type_bits(new) {
        PathChange::Modified { mode: new }
    } else {
        PathChange::TypeChanged { mode: new }
    }
}

/// How a path changed whose node is not as its entry has it.
pub fn change_to_differing_node(
    comparison: &Comparison,
    entry: &IndexEntry,
    at: &NodeStat,
) -> PathChange
    ensures { result ≡ words.change_to_differing_node comparison.now entry.now at.now }
{
    modified_or_type_changed(
        entry.mode.bits(),
        git_mode_in_place_of_entry(comparison, entry, at),
    )
}

/// How a path changed at which an addition is to come.
pub fn addition_of_node(comparison: &Comparison, entry: &IndexEntry, at: &NodeStat) -> PathChange
    ensures { result ≡ words.addition_of_node comparison.now entry.now at.now }
{
    PathChange::Added {
        mode: git_mode_in_place_of_entry(comparison, entry, at),
    }
}

/// How the path of an entry changed where a directory stands, in which there is no repository.
fn change_to_directory(
    comparison: &Comparison,
    entry: &IndexEntry,
    detail: &Detail,
    at: &NodeStat,
) -> PathChange
    ensures { result ≡ words.change_to_directory comparison.now entry.now detail.now at.now }
{
    if !has_submodule_file_type(entry) {
        PathChange::Deleted
    } else if detail.intent_to_add {
        addition_of_node(comparison, entry, at)
    } else {
        PathChange::Same
    }
}

/// How the path of an entry changed where a directory stands.
///
/// See docs/DIFFERENCES.md#diff-repository.
fn judge_directory_at_entry<S: Stats>(
    alloc: Global,
    stats: &mut S,
    comparison: &Comparison,
    full: &PathText,
    entry: &IndexEntry,
    detail: &Detail,
    at: &NodeStat,
) -> Result<Judged, ReadError>
    ensures judged { (t : StatsByPath) → S.told stats.old ≡ Some t → IfOk result (λ judged. judged
        ≡ words.judge_directory_at_entry t comparison.now full.now entry.now detail.now at.now) }
    ensures kept { KeepsToldStats S.Stats stats.old stats.new }
    ensures cause { IsErrOf result ReadError.Fault
        → CountIncreasedOrSaturated (S.faults stats.old) (S.faults stats.new) }
    ensures unfaulted { HoldsUnlessFault result (S.faults stats.new ≡ S.faults stats.old) }
{
    if has_node_named_dot_git(alloc, stats, full)? {
        return Ok(Judged::Refused(Unsupported::Repository));
    }
    Ok(Judged::Known(change_to_directory(comparison, entry, detail, at)))
}

/// How the path of a link changed that may have changed unseen.
fn judge_link_by_target<S: Stats>(
    alloc: Global,
    stats: &mut S,
    comparison: &Comparison,
    full: &PathText,
    entry: &IndexEntry,
    at: &NodeStat,
) -> Result<Judged, ReadError>
    ensures judged { (t : StatsByPath) → S.told stats.old ≡ Some t → IfOk result (λ judged. judged
        ≡ words.judge_link_by_target t comparison.now full.now entry.now at.now) }
    ensures kept { KeepsToldStats S.Stats stats.old stats.new }
    ensures cause { IsErrOf result ReadError.Fault
        → CountIncreasedOrSaturated (S.faults stats.old) (S.faults stats.new) }
    ensures unfaulted { HoldsUnlessFault result (S.faults stats.new ≡ S.faults stats.old) }
{
    if link_target_matches_entry(alloc, stats, full, entry)? {
        return Ok(Judged::Known(PathChange::Same));
    }
    Ok(Judged::Known(change_to_differing_node(comparison, entry, at)))
}

/// How the path of an entry changed that may have changed unseen.
///
/// See docs/DIFFERENCES.md#diff-conversion.
#[tactic(auto, unfolding(crate::specs::States::judge_racy_node))]
pub fn judge_racy_node<S: Stats>(
    alloc: Global,
    stats: &mut S,
    comparison: &Comparison,
    full: &PathText,
    entry: &IndexEntry,
    at: &NodeStat,
) -> Result<Judged, ReadError>
    ensures judged { (t : StatsByPath) → S.told stats.old ≡ Some t → IfOk result (λ judged. judged
        ≡ words.judge_racy_node t comparison.now full.now entry.now at.now) }
    ensures kept { KeepsToldStats S.Stats stats.old stats.new }
    ensures cause { IsErrOf result ReadError.Fault
        → CountIncreasedOrSaturated (S.faults stats.old) (S.faults stats.new) }
    ensures unfaulted { HoldsUnlessFault result (S.faults stats.new ≡ S.faults stats.old) }
{
    if is_symlink_mode(at.mode) {
        return judge_link_by_target(alloc, stats, comparison, full, entry, at);
    }
    if comparison.converts {
        return Ok(Judged::Refused(Unsupported::Conversion));
    }
    Ok(Judged::ByBytes(change_to_differing_node(comparison, entry, at)))
}

/// Whether what is no directory is known to differ from an entry.
fn is_submodule_or_has_changed_fields(
    comparison: &Comparison,
    entry: &IndexEntry,
    detail: &Detail,
    at: &NodeStat,
) -> bool
    ensures { result ≡ words.is_submodule_or_has_changed_fields comparison.now entry.now detail.now
        at.now }
{
    has_submodule_file_type(entry) || is_changed_by_mode_or_stat(comparison, entry, detail, at)
}

/// How the path of an entry changed where something stands that is no directory.
fn judge_non_directory<S: Stats>(
    alloc: Global,
    stats: &mut S,
    comparison: &Comparison,
    full: &PathText,
    entry: &IndexEntry,
    detail: &Detail,
    at: &NodeStat,
) -> Result<Judged, ReadError>
    ensures judged { (t : StatsByPath) → S.told stats.old ≡ Some t → IfOk result (λ judged. judged
        ≡ words.judge_non_directory t comparison.now full.now entry.now detail.now at.now) }
    ensures kept { KeepsToldStats S.Stats stats.old stats.new }
    ensures cause { IsErrOf result ReadError.Fault
        → CountIncreasedOrSaturated (S.faults stats.old) (S.faults stats.new) }
    ensures unfaulted { HoldsUnlessFault result (S.faults stats.new ≡ S.faults stats.old) }
{
    if detail.intent_to_add {
        return Ok(Judged::Known(addition_of_node(comparison, entry, at)));
    }
    if is_submodule_or_has_changed_fields(comparison, entry, detail, at) {
        return Ok(Judged::Known(change_to_differing_node(comparison, entry, at)));
    }
    if is_racy(comparison, detail) {
        return judge_racy_node(alloc, stats, comparison, full, entry, at);
    }
    Ok(Judged::Known(PathChange::Same))
}

/// How the path of an entry changed, by what is told of the node there.
#[tactic(auto, unfolding(crate::specs::States::judge_entry_by_stat))]
fn judge_entry_by_stat<S: Stats>(
    alloc: Global,
    stats: &mut S,
    comparison: &Comparison,
    full: &PathText,
    entry: &IndexEntry,
    detail: &Detail,
    at: Option<NodeStat>,
) -> Result<Judged, ReadError>
    ensures judged { (t : StatsByPath) → S.told stats.old ≡ Some t → IfOk result (λ judged. judged
        ≡ words.judge_entry_by_stat t comparison.now full.now entry.now detail.now at) }
    ensures kept { KeepsToldStats S.Stats stats.old stats.new }
    ensures cause { IsErrOf result ReadError.Fault
        → CountIncreasedOrSaturated (S.faults stats.old) (S.faults stats.new) }
    ensures unfaulted { HoldsUnlessFault result (S.faults stats.new ≡ S.faults stats.old) }
{
    let Some(at) = at else {
        return Ok(Judged::Known(PathChange::Deleted));
    };
    if is_directory_mode(at.mode) {
        return judge_directory_at_entry(alloc, stats, comparison, full, entry, detail, &at);
    }
    judge_non_directory(alloc, stats, comparison, full, entry, detail, &at)
}

/// Whether something stands at a whole path.
fn has_node_at_path<S: Stats>(stats: &mut S, full: &PathText) -> Result<bool, ReadError>
    ensures is { (t : StatsByPath) → S.told stats.old ≡ Some t
        → IfOk result (λ is. is ≡ is_some (t.stat_at full.now)) }
    ensures kept { KeepsToldStats S.Stats stats.old stats.new }
    ensures cause { IsErrOf result ReadError.Fault
        → CountIncreasedOrSaturated (S.faults stats.old) (S.faults stats.new) }
    ensures unfaulted { HoldsUnlessFault result (S.faults stats.new ≡ S.faults stats.old) }
{
    Ok(stats.stat(full.as_bytes())?.is_some())
}

/// Whether an entry is not looked at.
fn is_assumed_valid_or_skipped<S: Stats>(
    stats: &mut S,
    comparison: &Comparison,
    full: &PathText,
    entry: &IndexEntry,
) -> Result<bool, ReadError>
    ensures is { (t : StatsByPath) → S.told stats.old ≡ Some t → IfOk result (λ is. is
        ≡ words.is_assumed_valid_or_skipped t comparison.now full.now entry.now) }
    ensures kept { KeepsToldStats S.Stats stats.old stats.new }
    ensures cause { IsErrOf result ReadError.Fault
        → CountIncreasedOrSaturated (S.faults stats.old) (S.faults stats.new) }
    ensures unfaulted { HoldsUnlessFault result (S.faults stats.new ≡ S.faults stats.old) }
{
    if entry.flags.contains(Flags::ASSUME_VALID) {
        return Ok(true);
    }
    if !entry.flags.contains(Flags::SKIP_WORKTREE) {
        return Ok(false);
    }
    if !comparison.sparse_checkout {
        return Ok(true);
    }
    Ok(!has_node_at_path(stats, full)?)
}

/// Whether an entry is of a stage that is compared.
fn is_merged_or_ours_entry(entry: &IndexEntry) -> bool
    ensures { result ≡ words.is_merged_or_ours_entry entry.now }
{
    entry.stage == 0 || entry.stage == 2
}

/// Whether each submodule is told of.
fn are_submodules_reported(submodules: Submodules) -> bool
    ensures { result ≡ words.are_submodules_reported submodules }
{
    matches!(submodules, Submodules::Told)
}

/// Whether none is.
fn are_submodules_left_out(submodules: Submodules) -> bool
    ensures { result ≡ words.are_submodules_left_out submodules }
{
    matches!(submodules, Submodules::LeftOut)
}

/// Whether an entry is a submodule that is left out.
fn is_left_out_submodule(comparison: &Comparison, entry: &IndexEntry) -> bool
    ensures { result ≡ words.is_left_out_submodule comparison.now entry.now }
{
    has_submodule_file_type(entry) && are_submodules_left_out(comparison.submodules)
}

/// What is new where a submodule is to be added later and none stands.
fn addition_in_place_of_submodule(
    comparison: &Comparison,
    entry: &IndexEntry,
    at: Option<NodeStat>,
) -> PathChange
    ensures { result ≡ words.addition_in_place_of_submodule comparison.now entry.now at }
{
    let Some(at) = at else {
        return PathChange::Same;
    };
    if is_directory_mode(at.mode) {
        PathChange::Same
    } else {
        addition_of_node(comparison, entry, &at)
    }
}

/// How the path of a submodule changed that is left out.
#[tactic(auto, unfolding(crate::specs::States::ignored))]
fn ignored<S: Stats>(
    alloc: Global,
    stats: &mut S,
    root: &[u8],
    comparison: &Comparison,
    known: &mut Bytes,
    entry: &IndexEntry,
    detail: &Detail,
) -> Result<Judged, ReadError>
    requires known { LeadsKnownPathThroughDirectories (S.told stats.old) root.now known.old }
    ensures judged { (t : StatsByPath) → S.told stats.old ≡ Some t → IfOk result (λ judged. judged
        ≡ words.ignored t comparison.now root.now entry.now detail.now) }
    ensures known { LeadsKnownPathThroughDirectories (S.told stats.old) root.now known.new }
    ensures kept { KeepsToldStats S.Stats stats.old stats.new }
    ensures cause { IsErrOf result ReadError.Fault
        → CountIncreasedOrSaturated (S.faults stats.old) (S.faults stats.new) }
    ensures unfaulted { HoldsUnlessFault result (S.faults stats.new ≡ S.faults stats.old) }
{
    if !detail.intent_to_add {
        return Ok(Judged::Known(PathChange::Same));
    }
    let full = full_path_of_entry(alloc, root, entry)?;
    let at = stat_unless_behind_link(alloc, stats, root, known, &full, entry)?;
    Ok(Judged::Known(addition_in_place_of_submodule(comparison, entry, at)))
}

/// Whether an entry is a submodule that may be left out.
fn is_submodule_maybe_left_out(comparison: &Comparison, entry: &IndexEntry) -> bool
    ensures { result ≡ words.is_submodule_maybe_left_out comparison.now entry.now }
{
    has_submodule_file_type(entry) && !are_submodules_reported(comparison.submodules)
}

/// How the path of an entry changed that is compared.
///
/// See docs/DIFFERENCES.md#diff-ignored-submodule.
#[tactic(auto, unfolding(crate::specs::States::judge_compared_entry))]
fn judge_compared_entry<S: Stats>(
    alloc: Global,
    stats: &mut S,
    root: &[u8],
    comparison: &Comparison,
    known: &mut Bytes,
    entry: &IndexEntry,
    detail: &Detail,
) -> Result<Judged, ReadError>
    requires known { LeadsKnownPathThroughDirectories (S.told stats.old) root.now known.old }
    ensures judged { (t : StatsByPath) → S.told stats.old ≡ Some t → IfOk result (λ judged. judged
        ≡ words.judge_compared_entry t comparison.now root.now entry.now detail.now) }
    ensures known { LeadsKnownPathThroughDirectories (S.told stats.old) root.now known.new }
    ensures kept { KeepsToldStats S.Stats stats.old stats.new }
    ensures cause { IsErrOf result ReadError.Fault
        → CountIncreasedOrSaturated (S.faults stats.old) (S.faults stats.new) }
    ensures unfaulted { HoldsUnlessFault result (S.faults stats.new ≡ S.faults stats.old) }
{
    let full = full_path_of_entry(alloc, root, entry)?;
    if is_assumed_valid_or_skipped(stats, comparison, &full, entry)? {
        return Ok(Judged::Known(PathChange::Same));
    }
    if is_left_out_submodule(comparison, entry) {
        return ignored(alloc, stats, root, comparison, known, entry, detail);
    }
    if is_submodule_maybe_left_out(comparison, entry) {
        return Ok(Judged::Refused(Unsupported::IgnoredSubmodule));
    }
    let at = stat_unless_behind_link(alloc, stats, root, known, &full, entry)?;
    judge_entry_by_stat(alloc, stats, comparison, &full, entry, detail, at)
}

/// How the path of an entry changed, if its stage is compared.
pub fn judge_merged_or_ours_entry<S: Stats>(
    alloc: Global,
    stats: &mut S,
    root: &[u8],
    comparison: &Comparison,
    known: &mut Bytes,
    entry: &IndexEntry,
    detail: &Detail,
) -> Result<Judged, ReadError>
    requires known { LeadsKnownPathThroughDirectories (S.told stats.old) root.now known.old }
    ensures judged { (t : StatsByPath) → S.told stats.old ≡ Some t → IfOk result (λ judged. judged
        ≡ words.judge_merged_or_ours_entry t comparison.now root.now entry.now detail.now) }
    ensures known { LeadsKnownPathThroughDirectories (S.told stats.old) root.now known.new }
    ensures kept { KeepsToldStats S.Stats stats.old stats.new }
    ensures cause { IsErrOf result ReadError.Fault
        → CountIncreasedOrSaturated (S.faults stats.old) (S.faults stats.new) }
    ensures unfaulted { HoldsUnlessFault result (S.faults stats.new ≡ S.faults stats.old) }
{
    if is_merged_or_ours_entry(entry) {
        return judge_compared_entry(alloc, stats, root, comparison, known, entry, detail);
    }
    Ok(Judged::Known(PathChange::Same))
}

/// The mode of what stands at a path that is not merged.
#[tactic(auto, unfolding(crate::specs::States::judge_unmerged_at_node))]
fn judge_unmerged_at_node<S: Stats>(
    alloc: Global,
    stats: &mut S,
    comparison: &Comparison,
    full: &PathText,
    entry: &IndexEntry,
    at: &NodeStat,
) -> Result<Judged, ReadError>
    ensures judged { (t : StatsByPath) → S.told stats.old ≡ Some t → IfOk result (λ judged. judged
        ≡ words.judge_unmerged_at_node t comparison.now full.now entry.now at.now) }
    ensures kept { KeepsToldStats S.Stats stats.old stats.new }
    ensures cause { IsErrOf result ReadError.Fault
        → CountIncreasedOrSaturated (S.faults stats.old) (S.faults stats.new) }
    ensures unfaulted { HoldsUnlessFault result (S.faults stats.new ≡ S.faults stats.old) }
{
    if !is_directory_mode(at.mode) | has_submodule_file_type(entry) {
        let mode = git_mode_in_place_of_entry(comparison, entry, at);
        return Ok(Judged::Known(PathChange::Unmerged { mode }));
    }
    if has_node_named_dot_git(alloc, stats, full)? {
        return Ok(Judged::Refused(Unsupported::Repository));
    }
    Ok(Judged::Known(PathChange::Unmerged { mode: 0 }))
}

/// Whether an entry is the first of a path that is not merged.
fn is_first_unmerged_entry(entry: &IndexEntry, first: bool) -> bool
    ensures { result ≡ words.is_first_unmerged_entry entry.now first }
{
    entry.stage != 0 && first
}

/// That a path is not merged, if its first entry says so.
pub fn judge_unmerged_entry<S: Stats>(
    alloc: Global,
    stats: &mut S,
    root: &[u8],
    comparison: &Comparison,
    known: &mut Bytes,
    first: bool,
    entry: &IndexEntry,
) -> Result<Judged, ReadError>
    requires known { LeadsKnownPathThroughDirectories (S.told stats.old) root.now known.old }
    ensures judged { (t : StatsByPath) → S.told stats.old ≡ Some t → IfOk result (λ judged. judged
        ≡ words.judge_unmerged_entry t comparison.now root.now first entry.now) }
    ensures known { LeadsKnownPathThroughDirectories (S.told stats.old) root.now known.new }
    ensures kept { KeepsToldStats S.Stats stats.old stats.new }
    ensures cause { IsErrOf result ReadError.Fault
        → CountIncreasedOrSaturated (S.faults stats.old) (S.faults stats.new) }
    ensures unfaulted { HoldsUnlessFault result (S.faults stats.new ≡ S.faults stats.old) }
{
    if !is_first_unmerged_entry(entry, first) {
        return Ok(Judged::Known(PathChange::Same));
    }
    let full = full_path_of_entry(alloc, root, entry)?;
    match stat_unless_behind_link(alloc, stats, root, known, &full, entry)? {
        Some(at) => judge_unmerged_at_node(alloc, stats, comparison, &full, entry, &at),
        None => Ok(Judged::Known(PathChange::Unmerged { mode: 0 })),
    }
}
