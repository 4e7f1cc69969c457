//! What lies in the way of an index.
ghost use Rattle.std.specs.Prelude.{◌≡◌, ◌++◌, ◌<◌, IfOk, OnOk, length, option_copied};
ghost use Rattle.ls_files.specs.Killed as words;

use crate::line::append_killed_line;
use crate::options::{Listing, NamedSpec};
use crate::others::{
    has_index_entry_at, has_index_entry_beneath, name, place_listed_for_entry,
    place_of_report_entry, sorted_names_of_set,
};
use crate::place::{Place, ends_with_slash};
use crate::walk_request::lists_empty_directories;
use dir_classify::Entry;
use gitbase_core::{Bytes, IndexEntry, OutOfMemory, State};
use glob_rules::pathspec::Search;
use std::alloc::Global;
use std::collections::BTreeSet;
use worktree_report::ReportEntry;

/// Whether a file of the index stands at a path.
fn has_merged_entry_at(index: &State, path: &[u8]) -> bool
    ensures { result ≡ words.has_merged_entry_at index.now path.now }
{
    match index.entry_by_path(path) {
        Some(entry) => entry.stage == 0,
        None => false,
    }
}

/// Whether the directory that ends before a byte of a name is to be a file.
fn is_merged_file_ending_at(index: &State, name: &[u8], at: usize) -> bool
    requires { at < length name.now }
    ensures { result ≡ words.is_merged_file_ending_at index.now name.now at }
{
    if name[at] != b'/' {
        return false;
    }
    has_merged_entry_at(index, &name[..at])
}

/// Whether a directory above what is shown is to be a file.
fn lies_below_merged_file(index: &State, name: &[u8]) -> bool
    ensures { result ≡ words.lies_below_merged_file index.now name.now }
{
    let mut at = 0;
    while at < name.len() {
        if is_merged_file_ending_at(index, name, at) {
            return true;
        }
        at += 1;
    }
    false
}

/// The entries whose paths begin with a name.
fn entries_with_prefix<'a>(index: &'a State, name: &[u8]) -> &'a [IndexEntry]
    ensures { result.now ≡ words.entries_with_prefix index.now name.now }
{
    match index.prefixed_entries_range(name) {
        Some((start, end)) => &index.entries()[start..end],
        None => &[],
    }
}

/// Whether an entry is merged, and its path another than the name that it begins with.
fn is_merged_and_longer(name: &[u8], entry: &IndexEntry) -> bool
    ensures { result ≡ words.is_merged_and_longer name.now entry.now }
{
    if entry.stage != 0 {
        return false;
    }
    entry.path.as_bytes() != name
}

/// The first such entry.
fn find_merged_entry_with_proper_prefix<'a>(index: &'a State, name: &[u8]) -> Option<&'a IndexEntry>
    ensures { option_copied result ≡ words.find_merged_entry_with_proper_prefix index.now name.now }
{
    entries_with_prefix(index, name)
        .iter()
        .find(|entry| is_merged_and_longer(name, entry))
}

/// Whether a slash stands behind the name with which the path of an entry begins.
fn continues_with_slash(name: &[u8], entry: Option<&IndexEntry>) -> bool
    ensures { result ≡ words.continues_with_slash name.now (option_copied entry.entry) }
{
    match entry {
        Some(entry) => entry.path.as_bytes().get(name.len()) == Some(&b'/'),
        None => false,
    }
}

/// Whether what has a name is to be a directory.
fn is_file_name_directory_in_index(index: &State, name: &[u8]) -> bool
    ensures { result ≡ words.is_file_name_directory_in_index index.now name.now }
{
    if ends_with_slash(name) {
        return false;
    }
    continues_with_slash(name, find_merged_entry_with_proper_prefix(index, name))
}

/// Whether what has a name lies in the way of the index.
fn has_file_directory_conflict_in_index(index: &State, name: &[u8]) -> bool
    ensures { result ≡ words.has_file_directory_conflict_in_index index.now name.now }
{
    if lies_below_merged_file(index, name) {
        return true;
    }
    is_file_name_directory_in_index(index, name)
}

/// Whether the index has a directory, or something else at its path.
fn index_has_path_or_beneath(
    alloc: Global,
    index: &State,
    directory: &[u8],
) -> Result<bool, OutOfMemory>
    ensures { IfOk result (λ known. known ≡ words.index_has_path_or_beneath index.now
        directory.now) }
{
    if has_index_entry_at(index, directory) {
        return Ok(true);
    }
    let name = name(alloc, &Place::new(directory, true))?;
    Ok(has_index_entry_beneath(index, name.as_bytes()))
}

/// Whether it has the one that ends before a byte of a name, if one does.
fn index_has_directory_if_ending_at(
    alloc: Global,
    index: &State,
    name: &[u8],
    at: usize,
) -> Result<bool, OutOfMemory>
    requires { at < length name.now }
    ensures { IfOk result (λ known. known ≡ words.index_has_directory_if_ending_at index.now
        name.now at) }
{
    if name[at] != b'/' {
        return Ok(true);
    }
    index_has_path_or_beneath(alloc, index, &name[..at])
}

/// Whether it has all directories above what is shown.
fn index_has_every_directory_above(
    alloc: Global,
    index: &State,
    name: &[u8],
) -> Result<bool, OutOfMemory>
    ensures { IfOk result (λ known. known ≡ words.index_has_every_directory_above index.now
        name.now) }
{
    let mut at = 0;
    while at < name.len() {
        if !index_has_directory_if_ending_at(alloc, index, name, at)? {
            return Ok(false);
        }
        at += 1;
    }
    Ok(true)
}

/// Whether git comes to what has a name.
fn lists_others_or_index_has_parents(
    alloc: Global,
    listing: &Listing,
    index: &State,
    name: &[u8],
) -> Result<bool, OutOfMemory>
    ensures { IfOk result (λ entered. entered ≡ words.lists_others_or_index_has_parents listing.now
        index.now name.now) }
{
    if listing.others {
        return Ok(true);
    }
    index_has_every_directory_above(alloc, index, name)
}

/// Whether what has a name is told.
fn is_name_reached_and_killed(
    alloc: Global,
    listing: &Listing,
    index: &State,
    name: &[u8],
) -> Result<bool, OutOfMemory>
    ensures { IfOk result (λ told. told ≡ words.is_name_reached_and_killed listing.now index.now
        name.now) }
{
    if !lists_others_or_index_has_parents(alloc, listing, index, name)? {
        return Ok(false);
    }
    Ok(has_file_directory_conflict_in_index(index, name))
}

/// The name of a place, if it is told.
fn name_of_place_if_killed(
    alloc: Global,
    listing: &Listing,
    index: &State,
    place: &Place<'_>,
) -> Result<Option<Bytes>, OutOfMemory>
    ensures { IfOk result
        (λ name. name ≡ words.name_of_place_if_killed listing.now index.now place.now) }
{
    let name = name(alloc, place)?;
    if is_name_reached_and_killed(alloc, listing, index, name.as_bytes())? {
        return Ok(Some(name));
    }
    Ok(None)
}

/// Whether git looks at an entry.
fn is_entry_examined_for_killed(
    alloc: Global,
    listing: &Listing,
    index: &State,
    entry: &Entry,
) -> Result<bool, OutOfMemory>
    ensures { IfOk result
        (λ looked. looked ≡ words.is_entry_examined_for_killed listing.now index.now entry.now) }
{
    if lists_empty_directories(listing) {
        return Ok(true);
    }
    let name = name(alloc, &place_of_report_entry(entry))?;
    lists_others_or_index_has_parents(alloc, listing, index, name.as_bytes())
}

/// The name that is told for an entry that git looks at, if one is.
fn killed_name_of_shown_place(
    alloc: Global,
    listing: &Listing,
    index: &State,
    specs: &Search,
    all: &[NamedSpec],
    entry: &Entry,
) -> Result<Option<Bytes>, OutOfMemory>
    ensures { IfOk result (λ name. name ≡ words.killed_name_of_shown_place listing.now index.now
        specs.now all.now entry.now) }
{
    match place_listed_for_entry(alloc, listing, index, specs, all, entry)? {
        Some(place) => name_of_place_if_killed(alloc, listing, index, &place),
        None => Ok(None),
    }
}

/// The name that is told for an entry, if one is.
fn killed_name_of_entry(
    alloc: Global,
    listing: &Listing,
    index: &State,
    specs: &Search,
    all: &[NamedSpec],
    entry: &Entry,
) -> Result<Option<Bytes>, OutOfMemory>
    ensures { IfOk result (λ name. name ≡ words.killed_name_of_entry listing.now index.now specs.now
        all.now entry.now) }
{
    if !is_entry_examined_for_killed(alloc, listing, index, entry)? {
        return Ok(None);
    }
    killed_name_of_shown_place(alloc, listing, index, specs, all, entry)
}

/// The names of what a report has and what lies in the way of the index, in the order of their
/// bytes.
///
/// See docs/DECISIONS.md#killed-next-entry.
pub fn sorted_killed_names(
    alloc: Global,
    listing: &Listing,
    index: &State,
    specs: &Search,
    all: &[NamedSpec],
    found: &[ReportEntry],
) -> Result<Vec<Bytes>, OutOfMemory>
    ensures { IfOk result (λ names. names.items
        ≡ words.sorted_killed_names listing.now index.now specs.now all.now found.now) }
{
    let mut names = BTreeSet::new(alloc);
    for entry in found {
        if let Some(name) = killed_name_of_entry(alloc, listing, index, specs, all, &entry.entry)? {
            names.insert(name)?;
        }
    }
    sorted_names_of_set(alloc, names)
}

/// Adds a line for each name.
pub fn append_lines_of_killed_names(
    alloc: Global,
    text: &mut Vec<u8>,
    listing: &Listing,
    prefix: &[u8],
    names: &[Bytes],
) -> Result<(), OutOfMemory>
    ensures { OnOk result (text.new.items ≡ text.old.items
        ++ words.lines_of_killed_names listing.now prefix.now names.now) }
{
    for name in names {
        append_killed_line(alloc, text, listing, prefix, name.as_bytes())?;
    }
    Ok(())
}
