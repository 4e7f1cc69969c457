//! What `-d` and `-m` show of an index, and what is shown of it beside.
ghost use Rattle.std.specs.Prelude.{◌≡◌, ◌++◌, [], None, Ok, map, IsErrOf, IfOk, IfErr, OnOk, option_copied};
ghost use Rattle.std.specs.List.{list_any};
ghost use Rattle.gitbase_core.specs.Entry.{is_sparse_directory_entry};
ghost use Rattle.git_index.specs.IndexFile as files;
ghost use Rattle.worktree_fs.specs.Kept.{KeepsTreeAndListCounts};
ghost use Rattle.diff_files.specs.KeptStats.{KeepsToldStats, CountsFaultInEither, KeepsFaultCounts, TreeAndStats, Tells};
ghost use Rattle.ls_files.specs.declared.changed_error.ChangedError.TheVariants.{Fault as fault};
ghost use Rattle.ls_files.specs.Changed as words;
ghost use Rattle.ls_files.specs.ChangedErrors as refusals;

use crate::cached::{
    do_specs_match_index_entry, is_dropped_as_repeated_path, lists_each_path_once,
};
use crate::changed_error::ChangedError;
use crate::line::append_shown_entry_line;
use crate::listed::{Listed, place_of_index_entry};
use crate::options::{Listing, NamedSpec};
use crate::place::Place;
use crate::shown::{ShownEntry, Sign};
use crate::standings::{
    ChangeQuery, DeletedModifiedChoice, change_of_entry, is_listed_as_deleted,
    is_listed_as_indexed, is_listed_as_modified,
};
use crate::unmatched::unmatched_specs_message;
use diff_files::{Comparison, PathChange, Stats, Unsupported};
use git_index::Detail;
use gitbase_core::{Bytes, IndexEntry, OutOfMemory, State};
use glob_rules::pathspec::Search;
use std::alloc::Global;
use worktree_fs::Worktree;

/// Adds an entry, if it is shown so.
fn push_shown_entry_if<'a>(
    list: &mut Vec<ShownEntry<'a>>,
    is: bool,
    entry: &'a IndexEntry,
    sign: Sign,
) -> Result<(), OutOfMemory>
    ensures { OnOk result (list.new.items
        ≡ list.old.items ++ words.shown_entry_if is entry.now sign) }
{
    if is {
        list.push(ShownEntry::new(entry, sign))?;
    }
    Ok(())
}

/// Adds an entry as often as it is shown.
fn push_kept_gone_and_modified<'a>(
    list: &mut Vec<ShownEntry<'a>>,
    asked: DeletedModifiedChoice,
    listing: &Listing,
    entry: &'a IndexEntry,
    change: PathChange,
) -> Result<(), OutOfMemory>
    ensures { OnOk result (list.new.items ≡ list.old.items ++ words.kept_gone_and_modified_of_entry
        asked listing.now entry.now change) }
{
    push_shown_entry_if(
        list,
        is_listed_as_indexed(listing, entry),
        entry,
        Sign::Kept,
    )?;
    push_shown_entry_if(list, is_listed_as_deleted(asked, change), entry, Sign::Gone)?;
    push_shown_entry_if(
        list,
        is_listed_as_modified(asked, change),
        entry,
        Sign::Modified,
    )
}

/// Adds an entry as it is shown first.
fn push_first_of_kept_gone_modified<'a>(
    list: &mut Vec<ShownEntry<'a>>,
    asked: DeletedModifiedChoice,
    listing: &Listing,
    entry: &'a IndexEntry,
    change: PathChange,
) -> Result<(), OutOfMemory>
    ensures { OnOk result (list.new.items
        ≡ list.old.items ++ words.first_of_kept_gone_modified asked listing.now entry.now change) }
{
    if is_listed_as_indexed(listing, entry) {
        return push_shown_entry_if(list, true, entry, Sign::Kept);
    }
    if is_listed_as_deleted(asked, change) {
        return push_shown_entry_if(list, true, entry, Sign::Gone);
    }
    push_shown_entry_if(
        list,
        is_listed_as_modified(asked, change),
        entry,
        Sign::Modified,
    )
}

/// Adds what is shown of an entry.
#[tactic(auto, unfolding(crate::specs::Changed::entry_signs_by_deduplication))]
fn push_entry_signs_by_deduplication<'a>(
    list: &mut Vec<ShownEntry<'a>>,
    asked: DeletedModifiedChoice,
    listing: &Listing,
    entry: &'a IndexEntry,
    change: PathChange,
) -> Result<(), OutOfMemory>
    ensures { OnOk result (list.new.items
        ≡ list.old.items ++ words.entry_signs_by_deduplication asked listing.now entry.now change) }
{
    if lists_each_path_once(listing) {
        return push_first_of_kept_gone_modified(list, asked, listing, entry, change);
    }
    push_kept_gone_and_modified(list, asked, listing, entry, change)
}

/// Adds what is shown of an entry, unless a form is not answered.
fn push_signs_unless_unsupported<'a>(
    list: &mut Vec<ShownEntry<'a>>,
    asked: DeletedModifiedChoice,
    listing: &Listing,
    entry: &'a IndexEntry,
    change: Result<PathChange, Unsupported>,
) -> Result<PathChange, ChangedError>
    ensures { words.AddsSignsUnlessUnsupported asked listing.now entry.now change list.old.items
        list.new.items result }
{
    match change {
        Ok(change) => {
            push_entry_signs_by_deduplication(list, asked, listing, entry, change)?;
            Ok(change)
        }
        Err(form) => Err(ChangedError::Unsupported(form)),
    }
}

/// Whether anything is shown of an entry.
fn is_listed_kept_gone_or_modified(
    asked: DeletedModifiedChoice,
    listing: &Listing,
    entry: &IndexEntry,
    change: PathChange,
) -> bool
    ensures { result ≡ words.is_listed_kept_gone_or_modified asked listing.now entry.now change }
{
    if is_listed_as_indexed(listing, entry) {
        return true;
    }
    is_listed_as_deleted(asked, change) || is_listed_as_modified(asked, change)
}

/// The path that was shown last.
#[tactic(auto, unfolding(crate::specs::Changed::last_listed_path_after_entry))]
fn last_listed_path_after_entry<'a>(
    last: Option<&'a [u8]>,
    asked: DeletedModifiedChoice,
    listing: &Listing,
    entry: &'a IndexEntry,
    change: PathChange,
) -> Option<&'a [u8]>
    ensures { option_copied result ≡ words.last_listed_path_after_entry (option_copied last.entry)
        asked listing.now entry.now change }
{
    if is_listed_kept_gone_or_modified(asked, listing, entry, change) {
        return Some(entry.path.as_bytes());
    }
    last
}

/// What is shown of entries, in their order.
fn read_entries_as_kept_gone_or_modified<'a, W: Worktree, S: Stats>(
    alloc: Global,
    worktree: &mut W,
    stats: &mut S,
    query: &ChangeQuery<'_>,
    entries: &'a [IndexEntry],
    details: &[Detail],
) -> Result<Vec<ShownEntry<'a>>, ChangedError>
    ensures gives { (o : TreeAndStats) → Tells (W.told worktree.old) (S.told stats.old) o → IfOk
        result (λ shown. words.entries_as_kept_gone_or_modified o query.now entries.now details.now
        ≡ Ok shown.items) }
    ensures refused { (o : TreeAndStats) → Tells (W.told worktree.old) (S.told stats.old) o
        → IfErr result (refusals.RefusesUnsupportedAsDefined
        (words.entries_as_kept_gone_or_modified o query.now entries.now details.now)) }
    ensures cause { IsErrOf result fault
        → CountsFaultInEither W.Worktree S.Stats worktree.old worktree.new stats.old stats.new }
    ensures unfaulted { refusals.HoldsUnlessFault result
        (KeepsFaultCounts W.Worktree S.Stats worktree.old worktree.new stats.old stats.new) }
    ensures worktree { KeepsTreeAndListCounts W.Worktree worktree.old worktree.new }
    ensures stats { KeepsToldStats S.Stats stats.old stats.new }
{
    let mut shown = Vec::new(alloc);
    let mut last = None;
    let mut left = details;
    for entry in entries {
        let Some((detail, rest)) = left.split_first() else {
            return Err(ChangedError::Unsupported(Unsupported::Details));
        };
        left = rest;
        if !is_dropped_as_repeated_path(query.listing, last, entry) {
            let change = change_of_entry(alloc, worktree, stats, query, entry, detail)?;
            let change = push_signs_unless_unsupported(
                &mut shown,
                query.standings,
                query.listing,
                entry,
                change,
            )?;
            last = last_listed_path_after_entry(
                last,
                query.standings,
                query.listing,
                entry,
                change,
            );
        }
    }
    Ok(shown)
}

/// Adds the line of an entry, if the path specs match it.
fn append_shown_line_if_specs_match(
    alloc: Global,
    text: &mut Vec<u8>,
    listing: &Listing,
    prefix: &[u8],
    specs: &Search,
    shown: &ShownEntry<'_>,
) -> Result<(), OutOfMemory>
    ensures { OnOk result (text.new.items ≡ text.old.items
        ++ words.shown_line_if_specs_match listing.now prefix.now specs.now shown.now) }
{
    if !do_specs_match_index_entry(specs, shown.entry()) {
        return Ok(());
    }
    append_shown_entry_line(alloc, text, listing, prefix, shown)
}

/// Adds the lines of entries.
fn append_shown_lines(
    alloc: Global,
    text: &mut Vec<u8>,
    listing: &Listing,
    prefix: &[u8],
    specs: &Search,
    shown: &[ShownEntry<'_>],
) -> Result<(), OutOfMemory>
    ensures { OnOk result (text.new.items ≡ text.old.items
        ++ words.text_of_shown_entries listing.now prefix.now specs.now shown.now) }
{
    for one in shown {
        append_shown_line_if_specs_match(alloc, text, listing, prefix, specs, one)?;
    }
    Ok(())
}

/// The lines of entries.
fn text_of_shown_entries(
    alloc: Global,
    listing: &Listing,
    prefix: &[u8],
    specs: &Search,
    shown: &[ShownEntry<'_>],
) -> Result<Bytes, OutOfMemory>
    ensures { IfOk result
        (λ text. text ≡ words.text_of_shown_entries listing.now prefix.now specs.now shown.now) }
{
    let mut text = Vec::new(alloc);
    append_shown_lines(alloc, &mut text, listing, prefix, specs, shown)?;
    Ok(Bytes::from_vec(text))
}

/// The path of an entry, and whether it is that of a directory.
fn path_with_directory_flag_of_shown_entry<'a>(shown: &ShownEntry<'a>) -> Place<'a>
    ensures { result ≡ words.path_with_directory_flag_of_shown_entry shown.now }
{
    place_of_index_entry(shown.entry())
}

/// The places of entries.
fn places_of_shown_entries<'a>(
    alloc: Global,
    shown: &[ShownEntry<'a>],
) -> Result<Vec<Place<'a>>, OutOfMemory>
    ensures { IfOk result (λ places. places.items ≡ map
        words.path_with_directory_flag_of_shown_entry shown.now) }
{
    let mut places = Vec::new(alloc);
    for one in shown {
        places.push(path_with_directory_flag_of_shown_entry(one))?;
    }
    Ok(places)
}

/// What is told of path specs, where that is asked for.
fn unmatched_specs_text_for_shown(
    alloc: Global,
    listing: &Listing,
    named: &[NamedSpec],
    shown: &[ShownEntry<'_>],
) -> Result<Bytes, OutOfMemory>
    ensures { IfOk result (λ text. text ≡ words.unmatched_specs_text_for_shown listing.now named.now
        shown.now) }
{
    if !listing.error_unmatch {
        return Ok(Bytes::new(alloc));
    }
    let places = places_of_shown_entries(alloc, shown)?;
    unmatched_specs_message(alloc, named, &places)
}

/// What is listed by what is shown.
#[tactic(auto, unfolding(crate::specs::Changed::output_and_errors_of_shown))]
fn output_and_errors_of_shown(
    alloc: Global,
    listing: &Listing,
    prefix: &[u8],
    named: &[NamedSpec],
    specs: &Search,
    shown: &[ShownEntry<'_>],
) -> Result<Listed, OutOfMemory>
    ensures { IfOk result (λ made. made
        ≡ words.output_and_errors_of_shown listing.now prefix.now named.now specs.now shown.now) }
{
    let out = text_of_shown_entries(alloc, listing, prefix, specs, shown)?;
    let err = unmatched_specs_text_for_shown(alloc, listing, named, shown)?;
    Ok(Listed { out, err })
}

/// Whether an entry stands for all that is beneath a directory.
fn is_sparse_directory_mode(entry: &IndexEntry) -> bool
    ensures { result ≡ is_sparse_directory_entry entry.now }
{
    entry.mode.is_sparse()
}

/// Whether an entry does.
fn has_sparse_directory_mode(entries: &[IndexEntry]) -> bool
    ensures { result ≡ list_any is_sparse_directory_entry entries.now }
{
    entries.iter().any(|entry| is_sparse_directory_mode(entry))
}

/// What `git ls-files -d` and `-m` list of a work tree, called in its directory `prefix`: the
/// paths of the index of which nothing is there, or something else, by what is told
/// of the nodes; and beside them what the index has, where that is asked for. Bytes are compared
/// where neither the mode nor the size of a file tells.
///
/// `index` and `details` are what the file of the index says, in its order; where a skipped entry
/// counts as one that is not since something is there, its flag is taken away. The listing has to
/// be one that [`refusal_of_options_for_changes`](crate::refusal_of_options_for_changes) does not
/// refuse.
///
/// # Errors
///
/// - `Unsupported`: git answers the form, and here it is not answered; of several the first, in the
///   order of the index.
/// - `Fault`: the worktree failed, or what is asked for stats did, and counted it.
/// - `OutOfMemory`: memory was refused.
pub fn list_deleted_and_modified<W: Worktree, S: Stats>(
    alloc: Global,
    worktree: &mut W,
    stats: &mut S,
    query: &ChangeQuery<'_>,
    index: &State,
    details: &[Detail],
    prefix: &[u8],
) -> Result<Listed, ChangedError>
    ensures { words.ListsDeletedAndModified W.Worktree S.Stats worktree.old worktree.new stats.old
        stats.new query.now.root.now index.now details.now query.now.comparison.now
        query.now.standings query.now.listing.now prefix.now query.now.named.now
        query.now.specs.now result }
{
    let entries = index.entries();
    if has_sparse_directory_mode(entries) {
        return Err(ChangedError::Unsupported(Unsupported::SparseIndex));
    }
    let shown = read_entries_as_kept_gone_or_modified(
        alloc, worktree, stats, query, entries, details,
    )?;
    Ok(output_and_errors_of_shown(
        alloc,
        query.listing,
        prefix,
        query.named,
        query.specs,
        &shown,
    )?)
}
