//! Which entries of an index are looked at for `-d` and `-m`, and how they stand.
ghost use Rattle.std.specs.Prelude.{◌≡◌, Some, IsErrOf, IfOk};
ghost use Rattle.worktree_fs.specs.Answers.{HoldsUnlessFault};
ghost use Rattle.worktree_fs.specs.Causes.{CountIncreasedOrSaturated};
ghost use Rattle.worktree_fs.specs.Kept.{KeepsTreeAndListCounts};
ghost use Rattle.diff_files.specs.KeptStats.{KeepsToldStats, CountsFaultInEither, KeepsFaultCounts, TreeAndStats, Tells};
ghost use Rattle.diff_files.specs.Rows as rows;
ghost use Rattle.ls_files.specs.Changed as words;

use crate::cached::{do_specs_match_index_entry, lists_each_path_once, passes_unmerged_option};
use crate::line::lists_stages;
use crate::listed::place_of_index_entry;
use crate::options::{Listing, NamedSpec};
use crate::unmatched::does_any_spec_include_place;
use diff_files::{
    Comparison, PathChange, Stats, Unsupported, change_for_ls_files_deleted,
    change_for_ls_files_modified, is_effectively_skipped_below_root,
};
use git_index::Detail;
use gitbase_core::IndexEntry;
use glob_rules::pathspec::Search;
use std::alloc::Global;
use worktree_fs::{ReadError, Worktree};

/// Which paths of an index are shown by what stands in the work tree.
#[derive(Clone, Copy, Debug, PartialEq, Eq)]
pub enum DeletedModifiedChoice {
    /// `-d`: those of which nothing is there.
    Deleted,
    /// `-m`: those of which nothing is there, or something else.
    Modified,
    /// `-d` and `-m`: the first are shown twice.
    Both,
}

/// What `-d` and `-m` ask of a work tree.
#[derive(Drop)]
pub struct ChangeQuery<'a> {
    /// The work tree's absolute path.
    pub root: &'a [u8],
    /// What its files are compared by.
    pub comparison: &'a Comparison,
    /// Which of the two options is given.
    pub standings: DeletedModifiedChoice,
    /// What is listed, and how.
    pub listing: &'a Listing,
    /// Each of the path specs alone, as it was written.
    pub named: &'a [NamedSpec],
    /// All of them.
    pub specs: &'a Search,
}

fn lists_deleted(asked: DeletedModifiedChoice) -> bool
    ensures { result ≡ words.lists_deleted asked }
{
    match asked {
        DeletedModifiedChoice::Deleted => true,
        DeletedModifiedChoice::Modified => false,
        DeletedModifiedChoice::Both => true,
    }
}

fn lists_modified(asked: DeletedModifiedChoice) -> bool
    ensures { result ≡ words.lists_modified asked }
{
    match asked {
        DeletedModifiedChoice::Deleted => false,
        DeletedModifiedChoice::Modified => true,
        DeletedModifiedChoice::Both => true,
    }
}

/// Whether an entry is shown beside, as what the index has.
pub fn is_listed_as_indexed(listing: &Listing, entry: &IndexEntry) -> bool
    ensures { result ≡ words.is_listed_as_indexed listing.now entry.now }
{
    if listing.cached | lists_stages(listing) {
        return passes_unmerged_option(listing, entry);
    }
    false
}

/// Whether a path that is shown once is shown already.
fn is_deduplicated_and_listed_as_indexed(listing: &Listing, entry: &IndexEntry) -> bool
    ensures { result ≡ words.is_deduplicated_and_listed_as_indexed listing.now entry.now }
{
    lists_each_path_once(listing) && is_listed_as_indexed(listing, entry)
}

/// Whether the path specs match an entry, or one of them where it is told which do.
fn do_specs_or_single_spec_match(
    listing: &Listing,
    named: &[NamedSpec],
    specs: &Search,
    entry: &IndexEntry,
) -> bool
    ensures { result ≡ words.do_specs_or_single_spec_match listing.now named.now specs.now
        entry.now }
{
    if do_specs_match_index_entry(specs, entry) {
        return true;
    }
    listing.error_unmatch && does_any_spec_include_place(named, &place_of_index_entry(entry))
}

/// Whether an entry is looked at, if it is not skipped.
fn needs_worktree_look(query: &ChangeQuery<'_>, entry: &IndexEntry) -> bool
    ensures { result ≡ words.needs_worktree_look query.now.listing.now query.now.named.now
        query.now.specs.now entry.now }
{
    if is_deduplicated_and_listed_as_indexed(query.listing, entry) {
        return false;
    }
    do_specs_or_single_spec_match(query.listing, query.named, query.specs, entry)
}

/// Whether an entry is looked at.
fn needs_look_unless_skipped<S: Stats>(
    alloc: Global,
    stats: &mut S,
    query: &ChangeQuery<'_>,
    entry: &IndexEntry,
) -> Result<bool, ReadError>
    ensures is { (o : TreeAndStats) → S.told stats.old ≡ Some o.stats
        → IfOk result (λ is. is ≡ words.query_needs_look_unless_skipped o query.now entry.now) }
    ensures kept { KeepsToldStats S.Stats stats.old stats.new }
    ensures cause { IsErrOf result ReadError.Fault
        → CountIncreasedOrSaturated (S.faults stats.old) (S.faults stats.new) }
    ensures unfaulted { HoldsUnlessFault result (S.faults stats.new ≡ S.faults stats.old) }
{
    if !needs_worktree_look(query, entry) {
        return Ok(false);
    }
    Ok(!is_effectively_skipped_below_root(alloc, stats, query.root, query.comparison, entry)?)
}

/// How an entry stands that is looked at.
fn change_of_examined_entry<W: Worktree, S: Stats>(
    alloc: Global,
    worktree: &mut W,
    stats: &mut S,
    query: &ChangeQuery<'_>,
    entry: &IndexEntry,
    detail: &Detail,
) -> Result<Result<PathChange, Unsupported>, ReadError>
    ensures standing { (o : TreeAndStats) → Tells (W.told worktree.old) (S.told stats.old) o
        → IfOk result (λ change. change ≡ words.change_of_examined_entry o query.now.root.now
        query.now.comparison.now query.now.standings entry.now detail.now) }
    ensures worktree { KeepsTreeAndListCounts W.Worktree worktree.old worktree.new }
    ensures stats { KeepsToldStats S.Stats stats.old stats.new }
    ensures cause { IsErrOf result ReadError.Fault
        → CountsFaultInEither W.Worktree S.Stats worktree.old worktree.new stats.old stats.new }
    ensures unfaulted { HoldsUnlessFault result
        (KeepsFaultCounts W.Worktree S.Stats worktree.old worktree.new stats.old stats.new) }
{
    let root = query.root;
    let comparison = query.comparison;
    match query.standings {
        DeletedModifiedChoice::Deleted => Ok(Ok(change_for_ls_files_deleted(
            alloc, stats, root, entry,
        )?)),
        DeletedModifiedChoice::Modified => change_for_ls_files_modified(
            alloc, worktree, stats, root, comparison, entry, detail,
        ),
        DeletedModifiedChoice::Both => change_for_ls_files_modified(
            alloc, worktree, stats, root, comparison, entry, detail,
        ),
    }
}

/// How an entry stands; one that is not looked at is the same.
#[tactic(auto, unfolding(crate::specs::Changed::change_of_entry))]
pub fn change_of_entry<W: Worktree, S: Stats>(
    alloc: Global,
    worktree: &mut W,
    stats: &mut S,
    query: &ChangeQuery<'_>,
    entry: &IndexEntry,
    detail: &Detail,
) -> Result<Result<PathChange, Unsupported>, ReadError>
    ensures change { (o : TreeAndStats) → Tells (W.told worktree.old) (S.told stats.old) o
        → IfOk result (λ change. change ≡ words.change_of_entry_by_query o query.now entry.now
        detail.now) }
    ensures worktree { KeepsTreeAndListCounts W.Worktree worktree.old worktree.new }
    ensures stats { KeepsToldStats S.Stats stats.old stats.new }
    ensures cause { IsErrOf result ReadError.Fault
        → CountsFaultInEither W.Worktree S.Stats worktree.old worktree.new stats.old stats.new }
    ensures unfaulted { HoldsUnlessFault result
        (KeepsFaultCounts W.Worktree S.Stats worktree.old worktree.new stats.old stats.new) }
{
    if !needs_look_unless_skipped(alloc, stats, query, entry)? {
        return Ok(Ok(PathChange::Same));
    }
    change_of_examined_entry(alloc, worktree, stats, query, entry, detail)
}

/// Whether nothing stands at a path.
fn is_deletion(change: PathChange) -> bool
    ensures { result ≡ words.is_deletion change }
{
    match change {
        PathChange::Same => false,
        PathChange::Deleted => true,
        PathChange::Added { mode: _ } => false,
        PathChange::Modified { mode: _ } => false,
        PathChange::TypeChanged { mode: _ } => false,
        PathChange::Unmerged { mode: _ } => false,
    }
}

/// Whether what stands at a path is as its entry has it.
fn is_unchanged(change: PathChange) -> bool
    ensures { result ≡ rows.is_unchanged change }
{
    match change {
        PathChange::Same => true,
        PathChange::Deleted => false,
        PathChange::Added { mode: _ } => false,
        PathChange::Modified { mode: _ } => false,
        PathChange::TypeChanged { mode: _ } => false,
        PathChange::Unmerged { mode: _ } => false,
    }
}

/// Whether a path is shown as gone.
pub fn is_listed_as_deleted(asked: DeletedModifiedChoice, change: PathChange) -> bool
    ensures { result ≡ words.is_listed_as_deleted asked change }
{
    lists_deleted(asked) && is_deletion(change)
}

/// Whether a path is shown as modified.
pub fn is_listed_as_modified(asked: DeletedModifiedChoice, change: PathChange) -> bool
    ensures { result ≡ words.is_listed_as_modified asked change }
{
    lists_modified(asked) && !is_unchanged(change)
}
