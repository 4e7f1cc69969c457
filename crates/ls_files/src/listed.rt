//! What is listed, by the entries of a report.
ghost use Rattle.std.specs.Prelude.{◌≡◌, ◌++◌, [], map, IfOk, OnOk};
ghost use Rattle.ls_files.specs.Choices.{listed_index_entries};
ghost use Rattle.ls_files.specs.Listed as words;
ghost use Rattle.ls_files.specs.Unmatched.{place_of_index_entry, place_from_name, places_of_names_and_entries};

use crate::alone::{filter_names_if_only_patterns, options_without_ignored_if_only_patterns};
use crate::cached::{
    append_index_lines, is_entry_listed_after_path, is_submodule_or_sparse_directory,
};
use crate::ignored_directories::{
    has_ignored_and_directories_options, names_of_ignored_with_directories,
};
use crate::killed::{append_lines_of_killed_names, sorted_killed_names};
use crate::options::{Listing, NamedSpec};
use crate::others::{append_lines_of_untracked, sorted_untracked_names};
use crate::place::{Place, place_from_name};
use crate::unmatched::unmatched_specs_message;
use gitbase_core::{Bytes, IndexEntry, OutOfMemory, State};
use glob_rules::pathspec::Search;
use std::alloc::Global;
use worktree_report::{ReportEntry, Setup};

/// What is listed.
#[derive(Debug, Drop)]
pub struct Listed {
    /// What goes to the output.
    pub out: Bytes,
    /// What is told of path specs that are about no path.
    pub err: Bytes,
}

impl Listed {
    /// The status: 1 where something is told of path specs, else 0.
    pub fn status(&self) -> u8
        ensures { result ≡ words.status self.now }
    {
        if self.err.as_bytes().is_empty() { 0 } else { 1 }
    }
}

/// The path of an entry, and whether it is that of a directory.
pub fn place_of_index_entry(entry: &IndexEntry) -> Place<'_>
    ensures { result ≡ place_of_index_entry entry.now }
{
    Place::new(
        entry.path.as_bytes(),
        is_submodule_or_sparse_directory(entry),
    )
}

/// Adds the places of names.
fn push_places_of_names<'a>(
    places: &mut Vec<Place<'a>>,
    names: &'a [Bytes],
) -> Result<(), OutOfMemory>
    ensures { OnOk result (places.new.items ≡ places.old.items ++ map place_from_name names.now) }
{
    for name in names {
        places.push(place_from_name(name.as_bytes()))?;
    }
    Ok(())
}

/// Adds the places of the entries that are chosen.
fn push_places_of_listed_entries<'a>(
    places: &mut Vec<Place<'a>>,
    listing: &Listing,
    entries: &'a [IndexEntry],
) -> Result<(), OutOfMemory>
    ensures { OnOk result (places.new.items ≡ places.old.items ++ map place_of_index_entry
        (listed_index_entries listing.now entries.now)) }
{
    let mut last = None;
    for entry in entries {
        if is_entry_listed_after_path(listing, last, entry) {
            places.push(place_of_index_entry(entry))?;
            last = Some(entry.path.as_bytes());
        }
    }
    Ok(())
}

/// What is told of path specs, where that is asked for.
fn unmatched_specs_text_for_listed(
    alloc: Global,
    listing: &Listing,
    named: &[NamedSpec],
    entries: &[IndexEntry],
    names: &[Bytes],
    ways: &[Bytes],
) -> Result<Bytes, OutOfMemory>
    ensures { IfOk result (λ text. text ≡ words.unmatched_specs_text_for_listed listing.now
        named.now entries.now names.now ways.now) }
{
    if !listing.error_unmatch {
        return Ok(Bytes::new(alloc));
    }
    let mut places = Vec::new(alloc);
    push_places_of_names(&mut places, names)?;
    push_places_of_names(&mut places, ways)?;
    push_places_of_listed_entries(&mut places, listing, entries)?;
    unmatched_specs_message(alloc, named, &places)
}

/// The names of what the index does not have, where that is asked for.
fn untracked_or_ignored_names_if_others(
    alloc: Global,
    listing: &Listing,
    setup: &Setup,
    named: &[NamedSpec],
    found: &[ReportEntry],
) -> Result<Vec<Bytes>, OutOfMemory>
    ensures { IfOk result (λ names. names.items ≡ words.untracked_or_ignored_names_if_others
        listing.now setup.now named.now found.now) }
{
    if !listing.others {
        return Ok(Vec::new(alloc));
    }
    if has_ignored_and_directories_options(listing) {
        return names_of_ignored_with_directories(alloc, listing, setup, found);
    }
    let all = options_without_ignored_if_only_patterns(listing);
    let names = sorted_untracked_names(alloc, &all, &setup.index, &setup.specs, named, found)?;
    filter_names_if_only_patterns(alloc, listing, setup, names)
}

/// The names of what lies in the way of the index, where that is asked for.
fn killed_names_if_listed(
    alloc: Global,
    listing: &Listing,
    index: &State,
    specs: &Search,
    named: &[NamedSpec],
    found: &[ReportEntry],
) -> Result<Vec<Bytes>, OutOfMemory>
    ensures { IfOk result (λ names. names.items
        ≡ words.killed_names_if_listed listing.now index.now specs.now named.now found.now) }
{
    if !listing.killed {
        return Ok(Vec::new(alloc));
    }
    sorted_killed_names(alloc, listing, index, specs, named, found)
}

/// The lines of names, and behind them those of the index.
fn lines_of_others_killed_and_index(
    alloc: Global,
    listing: &Listing,
    prefix: &[u8],
    specs: &Search,
    entries: &[IndexEntry],
    names: &[Bytes],
    ways: &[Bytes],
) -> Result<Bytes, OutOfMemory>
    ensures { IfOk result (λ text. text ≡ words.lines_of_others_killed_and_index listing.now
        prefix.now specs.now entries.now names.now ways.now) }
{
    let mut text = Vec::new(alloc);
    append_lines_of_untracked(alloc, &mut text, listing, prefix, names)?;
    append_lines_of_killed_names(alloc, &mut text, listing, prefix, ways)?;
    append_index_lines(alloc, &mut text, listing, prefix, specs, entries)?;
    Ok(Bytes::from_vec(text))
}

/// What is listed of entries, of what the index does not have, and of what lies in its way.
fn output_and_errors_of_all_listed(
    alloc: Global,
    listing: &Listing,
    prefix: &[u8],
    named: &[NamedSpec],
    specs: &Search,
    entries: &[IndexEntry],
    names: &[Bytes],
    ways: &[Bytes],
) -> Result<Listed, OutOfMemory>
    ensures { IfOk result (λ made. made ≡ words.output_and_errors_of_all_listed listing.now
        prefix.now named.now specs.now entries.now names.now ways.now) }
{
    let out = lines_of_others_killed_and_index(
        alloc, listing, prefix, specs, entries, names, ways,
    )?;
    let err = unmatched_specs_text_for_listed(alloc, listing, named, entries, names, ways)?;
    Ok(Listed { out, err })
}

/// What is listed of entries alone.
pub fn output_and_errors_of_index_entries(
    alloc: Global,
    listing: &Listing,
    prefix: &[u8],
    named: &[NamedSpec],
    specs: &Search,
    entries: &[IndexEntry],
) -> Result<Listed, OutOfMemory>
    ensures { IfOk result (λ made. made ≡ words.output_and_errors_of_all_listed listing.now
        prefix.now named.now specs.now entries.now [] []) }
{
    output_and_errors_of_all_listed(alloc, listing, prefix, named, specs, entries, &[], &[])
}

/// What is listed by the entries of a report, in the directory `prefix` of the work tree: the setup
/// has the index and the path specs, and `named` has each of these, as it was written.
///
/// # Errors
///
/// Memory was refused.
#[tactic(auto, unfolding(crate::specs::Listed::output_and_errors_of_report_entries))]
pub fn output_and_errors_of_report_entries(
    alloc: Global,
    listing: &Listing,
    prefix: &[u8],
    named: &[NamedSpec],
    setup: &Setup,
    found: &[ReportEntry],
) -> Result<Listed, OutOfMemory>
    ensures { IfOk result (λ made. made ≡ words.output_and_errors_of_report_entries listing.now
        prefix.now named.now setup.now found.now) }
{
    let names = untracked_or_ignored_names_if_others(alloc, listing, setup, named, found)?;
    let ways = killed_names_if_listed(alloc, listing, &setup.index, &setup.specs, named, found)?;
    let entries = setup.index.entries();
    output_and_errors_of_all_listed(
        alloc,
        listing,
        prefix,
        named,
        &setup.specs,
        entries,
        &names,
        &ways,
    )
}
