//! What is shown of an index.
ghost use Rattle.std.specs.Prelude.{◌≡◌, ◌++◌, OnOk, option_copied};
ghost use Rattle.ls_files.specs.Cached as cached;
ghost use Rattle.ls_files.specs.Choices as choices;

use crate::line::{append_index_entry_line, lists_stages};
use crate::options::Listing;
use gitbase_core::{IndexEntry, OutOfMemory};
use glob_rules::pathspec::{Matcher, Search};
use std::alloc::Global;

/// Whether the path specs match a path, as that of a directory or not.
pub fn do_specs_match_path(specs: &Search, path: &[u8], is_dir: bool) -> bool
    ensures { result ≡ cached.do_specs_match_path specs.now path.now is_dir }
{
    match specs.pattern_matching_relative_path(path, Some(is_dir)) {
        Some(found) => !found.is_excluded(),
        None => false,
    }
}

/// Whether a directory stands at the path of an entry.
pub fn is_submodule_or_sparse_directory(entry: &IndexEntry) -> bool
    ensures { result ≡ cached.is_submodule_or_sparse_directory entry.now }
{
    entry.mode.is_submodule() || entry.mode.is_sparse()
}

/// Whether the path specs match an entry, as that of a directory or not.
pub fn do_specs_match_index_entry(specs: &Search, entry: &IndexEntry) -> bool
    ensures { result ≡ cached.do_specs_match_index_entry specs.now entry.now }
{
    do_specs_match_path(
        specs,
        entry.path.as_bytes(),
        is_submodule_or_sparse_directory(entry),
    )
}

/// Whether what stands in the work tree is shown, so that a report is made.
pub fn needs_worktree_walk(listing: &Listing) -> bool
    ensures { result ≡ choices.needs_worktree_walk listing.now }
{
    listing.others || listing.killed
}

/// Whether the ignore rules of each directory are asked.
pub fn uses_per_directory_ignore_rules(listing: &Listing) -> bool
    ensures { result ≡ choices.uses_per_directory_ignore_rules listing.now }
{
    listing.excludes_standard || listing.excludes_directories
}

/// Whether anything of the index is shown.
pub fn lists_index_entries(listing: &Listing) -> bool
    ensures { result ≡ choices.lists_index_entries listing.now }
{
    if lists_stages(listing) {
        return true;
    }
    listing.cached || !needs_worktree_walk(listing)
}

/// Whether an entry is of the kind that is shown.
pub fn passes_unmerged_option(listing: &Listing, entry: &IndexEntry) -> bool
    ensures { result ≡ choices.passes_unmerged_option listing.now entry.now }
{
    !listing.unmerged | (entry.stage != 0)
}

/// Whether an entry is chosen.
pub fn is_index_entry_listed(listing: &Listing, entry: &IndexEntry) -> bool
    ensures { result ≡ choices.is_index_entry_listed listing.now entry.now }
{
    lists_index_entries(listing) && passes_unmerged_option(listing, entry)
}

/// Whether each path of the index is shown once.
pub fn lists_each_path_once(listing: &Listing) -> bool
    ensures { result ≡ choices.lists_each_path_once listing.now }
{
    if listing.tags {
        return false;
    }
    listing.deduplicates && !lists_stages(listing)
}

/// Adds the line of an entry, if the path specs match it.
fn append_index_line_if_specs_match(
    alloc: Global,
    text: &mut Vec<u8>,
    listing: &Listing,
    prefix: &[u8],
    specs: &Search,
    entry: &IndexEntry,
) -> Result<(), OutOfMemory>
    ensures { OnOk result (text.new.items ≡ text.old.items
        ++ cached.index_line_if_specs_match listing.now prefix.now specs.now entry.now) }
{
    if !do_specs_match_index_entry(specs, entry) {
        return Ok(());
    }
    append_index_entry_line(alloc, text, listing, prefix, entry)
}

/// Whether each path is shown once, and this is the last one.
pub fn is_dropped_as_repeated_path(
    listing: &Listing,
    last: Option<&[u8]>,
    entry: &IndexEntry,
) -> bool
    ensures { result ≡ choices.is_dropped_as_repeated_path listing.now (option_copied last.entry)
        entry.now }
{
    match last {
        Some(path) if lists_each_path_once(listing) => path == entry.path.as_bytes(),
        _ => false,
    }
}

/// Whether an entry is the next that is chosen, behind one of the path `last`.
pub fn is_entry_listed_after_path(
    listing: &Listing,
    last: Option<&[u8]>,
    entry: &IndexEntry,
) -> bool
    ensures { result ≡ choices.is_entry_listed_after_path listing.now (option_copied last.entry)
        entry.now }
{
    if !is_index_entry_listed(listing, entry) {
        return false;
    }
    !is_dropped_as_repeated_path(listing, last, entry)
}

/// Adds the lines of the entries that are shown, in the order of the index.
pub fn append_index_lines(
    alloc: Global,
    text: &mut Vec<u8>,
    listing: &Listing,
    prefix: &[u8],
    specs: &Search,
    entries: &[IndexEntry],
) -> Result<(), OutOfMemory>
    ensures { OnOk result (text.new.items ≡ text.old.items
        ++ cached.text_of_listed_index listing.now prefix.now specs.now entries.now) }
{
    let mut last = None;
    for entry in entries {
        if is_entry_listed_after_path(listing, last, entry) {
            append_index_line_if_specs_match(alloc, text, listing, prefix, specs, entry)?;
            last = Some(entry.path.as_bytes());
        }
    }
    Ok(())
}
