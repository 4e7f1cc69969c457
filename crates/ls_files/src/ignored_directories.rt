//! What is shown with `-o -i --directory`.
ghost use Rattle.std.specs.Prelude.{◌≡◌, ◌<◌, bytes_eq, IfOk, OnOk, length, option_copied};
ghost use Rattle.std.specs.List.{list_any};
ghost use Rattle.worktree_report.specs.SetupMeant.{insert_paths_in_order};
ghost use Rattle.ls_files.specs.IgnoredDirectories as words;
ghost use Rattle.ls_files.specs.Others.{directories_above_path, directory_place_of_path, has_index_entry_beneath, name};

use crate::alone::case_from_ignore_case;
use crate::judged::{Judged, given_patterns_if_no_other_rules, places_with_ignored_flag};
use crate::options::Listing;
use crate::others::{
    has_index_entry_beneath, name, name_of_place_unless_indexed, sorted_names_of_set,
};
use crate::place::Place;
use crate::unseen::directory_name_through_slash;
use crate::walk_request::lists_empty_directories;
use gitbase_core::{Bytes, OutOfMemory, State};
use std::alloc::Global;
use std::collections::BTreeSet;
use worktree_report::{ReportEntry, Setup};

/// Whether only what is ignored is shown, and directories in the place of what they hold.
pub fn has_ignored_and_directories_options(listing: &Listing) -> bool
    ensures { result ≡ words.has_ignored_and_directories_options listing.now }
{
    listing.ignored && listing.directories
}

/// Adds the directories above a path.
fn insert_directories_above(
    alloc: Global,
    mixed: &mut BTreeSet<Bytes>,
    path: &[u8],
) -> Result<(), OutOfMemory>
    ensures { OnOk result (mixed.new.keys ≡ insert_paths_in_order mixed.old.keys
        (directories_above_path path.now)) }
{
    let mut at = 0;
    while at < path.len() {
        if path[at] == b'/' {
            mixed.insert(Bytes::from_slice(alloc, &path[..at])?)?;
        }
        at += 1;
    }
    Ok(())
}

/// Adds the directories above what is not ignored.
fn insert_directories_above_unless_ignored(
    alloc: Global,
    mixed: &mut BTreeSet<Bytes>,
    judged: &Judged<'_>,
) -> Result<(), OutOfMemory>
    ensures { OnOk result (mixed.new.keys ≡ words.insert_directories_above_unless_ignored
        mixed.old.keys judged.now) }
{
    if judged.is_ignored() {
        return Ok(());
    }
    insert_directories_above(alloc, mixed, judged.place().path())
}

/// The directories in which something is not ignored.
fn directories_with_unignored(
    alloc: Global,
    all: &[Judged<'_>],
) -> Result<BTreeSet<Bytes>, OutOfMemory>
    ensures { IfOk result (λ mixed. mixed.keys ≡ words.directories_with_unignored all.now) }
{
    let mut mixed = BTreeSet::new(alloc);
    for judged in all {
        insert_directories_above_unless_ignored(alloc, &mut mixed, judged)?;
    }
    Ok(mixed)
}

/// Adds the name of a place, unless the index has its path.
fn insert_name_unless_indexed(
    alloc: Global,
    index: &State,
    names: &mut BTreeSet<Bytes>,
    place: &Place<'_>,
) -> Result<(), OutOfMemory>
    ensures { OnOk result
        (names.new.keys ≡ words.insert_name_unless_indexed index.now names.old.keys place.now) }
{
    if let Some(name) = name_of_place_unless_indexed(alloc, index, place)? {
        names.insert(name)?;
    }
    Ok(())
}

/// Whether a directory is one of a set, by a search.
fn contains_directory(mixed: &BTreeSet<Bytes>, directory: &Bytes) -> bool
    ensures { result ≡ list_any (bytes_eq directory.now) mixed.now.keys }
{
    mixed.contains(directory)
}

/// Whether something in a directory is not ignored.
fn has_unignored_inside(
    alloc: Global,
    mixed: &BTreeSet<Bytes>,
    directory: &[u8],
) -> Result<bool, OutOfMemory>
    ensures { IfOk result (λ found. found ≡ list_any (bytes_eq directory.now) mixed.now.keys) }
{
    let key = Bytes::from_slice(alloc, directory)?;
    Ok(contains_directory(mixed, &key))
}

/// Whether the index has something in a directory.
fn has_index_entry_inside(
    alloc: Global,
    index: &State,
    directory: &[u8],
) -> Result<bool, OutOfMemory>
    ensures { IfOk result (λ has. has
        ≡ has_index_entry_beneath index.now (name (directory_place_of_path directory.now))) }
{
    let name = name(alloc, &Place::new(directory, true))?;
    Ok(has_index_entry_beneath(index, name.as_bytes()))
}

/// Whether all is ignored that a directory holds.
fn is_wholly_ignored(
    alloc: Global,
    index: &State,
    mixed: &BTreeSet<Bytes>,
    directory: &[u8],
) -> Result<bool, OutOfMemory>
    ensures { IfOk result
        (λ whole. whole ≡ words.is_wholly_ignored index.now mixed.now.keys directory.now) }
{
    if has_index_entry_inside(alloc, index, directory)? {
        return Ok(false);
    }
    Ok(!has_unignored_inside(alloc, mixed, directory)?)
}

/// Adds the name of a directory, if all is ignored that it holds.
fn insert_if_wholly_ignored(
    alloc: Global,
    index: &State,
    mixed: &BTreeSet<Bytes>,
    names: &mut BTreeSet<Bytes>,
    directory: &[u8],
) -> Result<(), OutOfMemory>
    ensures { OnOk result (names.new.keys
        ≡ words.insert_if_wholly_ignored index.now mixed.now.keys names.old.keys directory.now) }
{
    if !is_wholly_ignored(alloc, index, mixed, directory)? {
        return Ok(());
    }
    insert_name_unless_indexed(alloc, index, names, &Place::new(directory, true))
}

/// Adds the names of the directories above a path of which all is ignored.
fn insert_wholly_ignored_above(
    alloc: Global,
    index: &State,
    mixed: &BTreeSet<Bytes>,
    names: &mut BTreeSet<Bytes>,
    path: &[u8],
) -> Result<(), OutOfMemory>
    ensures { OnOk result (names.new.keys ≡ words.insert_wholly_ignored_of_list index.now
        mixed.now.keys names.old.keys (directories_above_path path.now)) }
{
    let mut at = 0;
    while at < path.len() {
        if path[at] == b'/' {
            insert_if_wholly_ignored(alloc, index, mixed, names, &path[..at])?;
        }
        at += 1;
    }
    Ok(())
}

/// Whether the index has nothing in the directory that ends before a byte of a path.
fn is_unindexed_directory_ending_at(index: &State, path: &[u8], at: usize) -> bool
    requires { at < length path.now }
    ensures { result ≡ words.is_unindexed_directory_ending_at index.now path.now at }
{
    if path[at] != b'/' {
        return false;
    }
    !has_index_entry_beneath(index, directory_name_through_slash(path, at))
}

/// The highest directory above a path of which the index has nothing.
fn highest_unindexed_directory_above<'a>(index: &State, path: &'a [u8]) -> Option<&'a [u8]>
    ensures { option_copied result ≡ words.highest_unindexed_directory_above index.now path.now }
{
    let mut at = 0;
    while at < path.len() {
        if is_unindexed_directory_ending_at(index, path, at) {
            return Some(&path[..at]);
        }
        at += 1;
    }
    None
}

/// Adds the name of the highest directory above a place of which the index has nothing, if all is
/// ignored that it holds; where there is none, that of the place.
fn insert_unindexed_directory_or_place(
    alloc: Global,
    index: &State,
    mixed: &BTreeSet<Bytes>,
    names: &mut BTreeSet<Bytes>,
    place: &Place<'_>,
) -> Result<(), OutOfMemory>
    ensures { OnOk result (names.new.keys ≡ words.insert_unindexed_directory_or_place index.now
        mixed.now.keys names.old.keys place.now (words.highest_unindexed_directory_above index.now
        place.now.path)) }
{
    match highest_unindexed_directory_above(index, place.path()) {
        Some(directory) => insert_if_wholly_ignored(alloc, index, mixed, names, directory),
        None => insert_name_unless_indexed(alloc, index, names, place),
    }
}

/// Adds what is shown for a place that is ignored.
fn insert_ignored_place_or_directories(
    alloc: Global,
    listing: &Listing,
    index: &State,
    mixed: &BTreeSet<Bytes>,
    names: &mut BTreeSet<Bytes>,
    place: &Place<'_>,
) -> Result<(), OutOfMemory>
    ensures { OnOk result (names.new.keys ≡ words.insert_ignored_place_or_directories listing.now
        index.now mixed.now.keys names.old.keys place.now) }
{
    if !lists_empty_directories(listing) {
        return insert_unindexed_directory_or_place(alloc, index, mixed, names, place);
    }
    insert_name_unless_indexed(alloc, index, names, place)?;
    insert_wholly_ignored_above(alloc, index, mixed, names, place.path())
}

/// Adds what is shown for what git comes to.
fn insert_names_if_ignored(
    alloc: Global,
    listing: &Listing,
    index: &State,
    mixed: &BTreeSet<Bytes>,
    names: &mut BTreeSet<Bytes>,
    judged: &Judged<'_>,
) -> Result<(), OutOfMemory>
    ensures { OnOk result (names.new.keys ≡ words.insert_names_if_ignored listing.now index.now
        mixed.now.keys names.old.keys judged.now) }
{
    if !judged.is_ignored() {
        return Ok(());
    }
    insert_ignored_place_or_directories(alloc, listing, index, mixed, names, judged.place())
}

/// What is shown of all that git comes to.
fn names_of_ignored_places(
    alloc: Global,
    listing: &Listing,
    index: &State,
    all: &[Judged<'_>],
) -> Result<BTreeSet<Bytes>, OutOfMemory>
    ensures { IfOk result (λ names. names.keys ≡ words.names_of_ignored_places listing.now index.now
        all.now) }
{
    let mixed = directories_with_unignored(alloc, all)?;
    let mut names = BTreeSet::new(alloc);
    for judged in all {
        insert_names_if_ignored(alloc, listing, index, &mixed, &mut names, judged)?;
    }
    Ok(names)
}

/// The names of what is ignored in a report, in the order of their bytes, each once: of files, of
/// excluded directories, and of each directory of which all is ignored. With `--no-empty-directory`
/// nothing beneath a directory is shown of which the index has nothing.
///
/// See docs/DECISIONS.md#ignored-directories.
#[tactic(auto, unfolding(crate::specs::IgnoredDirectories::names_of_ignored_with_directories))]
pub fn names_of_ignored_with_directories(
    alloc: Global,
    listing: &Listing,
    setup: &Setup,
    found: &[ReportEntry],
) -> Result<Vec<Bytes>, OutOfMemory>
    ensures { IfOk result (λ names. names.items ≡ words.names_of_ignored_with_directories
        listing.now setup.now found.now) }
{
    let patterns = given_patterns_if_no_other_rules(alloc, listing, setup)?;
    let case = case_from_ignore_case(setup.options.ignore_case);
    let all = places_with_ignored_flag(alloc, listing, &patterns, case, &setup.index, found)?;
    let names = names_of_ignored_places(alloc, listing, &setup.index, &all)?;
    sorted_names_of_set(alloc, names)
}
