//! What a work tree holds besides the index, by the entries of a report.
ghost use Rattle.std.specs.Prelude.{◌≡◌, ◌++◌, ◌<◌, IfOk, OnOk, length, option_copied};
ghost use Rattle.ls_files.specs.Others as words;

use crate::cached::{do_specs_match_path, uses_per_directory_ignore_rules};
use crate::line::append_untracked_line;
use crate::options::{Listing, NamedSpec};
use crate::place::Place;
use crate::unseen::lies_in_spec_skipped_directory;
use dir_classify::entry::is_some_directory_kind;
use dir_classify::{Entry, Kind, Status};
use gitbase_core::{Bytes, OutOfMemory, State};
use glob_rules::pathspec::{Match, MatchKind, Matcher, Search};
use std::alloc::Global;
use std::collections::BTreeSet;
use worktree_report::ReportEntry;

/// Whether an entry of this status is shown.
fn is_status_listed(listing: &Listing, status: Status) -> bool
    ensures { result ≡ words.is_status_listed listing.now status }
{
    match status {
        Status::Untracked => !listing.ignored,
        Status::Ignored(_) => listing.ignored,
        Status::Tracked => false,
        Status::Pruned => false,
    }
}

/// Whether what stands at a path may be shown.
pub fn is_kind_listed(listing: &Listing, kind: Option<Kind>) -> bool
    ensures { result ≡ words.is_kind_listed listing.now kind }
{
    match kind {
        None => false,
        Some(Kind::Untrackable) => false,
        Some(Kind::File) => true,
        Some(Kind::Symlink) => true,
        Some(Kind::Repository) => true,
        Some(Kind::Directory) => listing.directories && listing.empty_directories,
    }
}

/// Whether an entry may be shown by itself, if the path specs match it.
fn is_entry_listable(listing: &Listing, entry: &Entry) -> bool
    ensures { result ≡ words.is_entry_listable listing.now entry.now }
{
    is_status_listed(listing, entry.status) && is_kind_listed(listing, entry.disk_kind)
}

/// The path of an entry, and whether a directory stands there.
pub fn place_of_report_entry(entry: &Entry) -> Place<'_>
    ensures { result ≡ words.place_of_report_entry entry.now }
{
    Place::new(
        entry.rela_path.as_bytes(),
        is_some_directory_kind(entry.disk_kind),
    )
}

/// The name of what is shown.
pub fn name(alloc: Global, place: &Place<'_>) -> Result<Bytes, OutOfMemory>
    ensures { IfOk result (λ name. name ≡ words.name place.now) }
{
    let mut name = Bytes::from_slice(alloc, place.path())?;
    if place.is_directory_path() {
        name.extend(alloc, b"/")?;
    }
    Ok(name)
}

/// Whether the path specs match an entry.
fn do_specs_match_report_entry(
    alloc: Global,
    specs: &Search,
    entry: &Entry,
) -> Result<bool, OutOfMemory>
    ensures { IfOk result (λ matched. matched ≡ words.do_specs_match_report_entry specs.now
        entry.now) }
{
    let name = name(alloc, &place_of_report_entry(entry))?;
    let matched = do_specs_match_path(
        specs,
        name.as_bytes(),
        is_some_directory_kind(entry.disk_kind),
    );
    Ok(matched)
}

/// Whether git comes to an entry that the path specs match.
fn is_matched_outside_skipped_directory(
    alloc: Global,
    index: &State,
    specs: &Search,
    all: &[NamedSpec],
    entry: &Entry,
) -> Result<bool, OutOfMemory>
    ensures { IfOk result (λ seen. seen ≡ words.is_matched_outside_skipped_directory index.now
        specs.now all.now entry.now) }
{
    if !do_specs_match_report_entry(alloc, specs, entry)? {
        return Ok(false);
    }
    let name = name(alloc, &place_of_report_entry(entry))?;
    Ok(!lies_in_spec_skipped_directory(index, all, name.as_bytes()))
}

/// Whether an entry is shown by itself.
fn is_report_entry_listed(
    alloc: Global,
    listing: &Listing,
    index: &State,
    specs: &Search,
    all: &[NamedSpec],
    entry: &Entry,
) -> Result<bool, OutOfMemory>
    ensures { IfOk result (λ shown. shown ≡ words.is_report_entry_listed listing.now index.now
        specs.now all.now entry.now) }
{
    if !is_entry_listable(listing, entry) {
        return Ok(false);
    }
    is_matched_outside_skipped_directory(alloc, index, specs, all, entry)
}

/// The place of an entry itself, if it is shown.
fn place_of_entry_if_listed<'a>(
    alloc: Global,
    listing: &Listing,
    index: &State,
    specs: &Search,
    all: &[NamedSpec],
    entry: &'a Entry,
) -> Result<Option<Place<'a>>, OutOfMemory>
    ensures { IfOk result (λ place. place ≡ words.place_of_entry_if_listed listing.now index.now
        specs.now all.now entry.now) }
{
    if is_report_entry_listed(alloc, listing, index, specs, all, entry)? {
        return Ok(Some(place_of_report_entry(entry)));
    }
    Ok(None)
}

/// Whether a spec matches whatever the path is.
fn is_always_match(kind: MatchKind) -> bool
    ensures { result ≡ words.is_always_match kind }
{
    matches!(kind, MatchKind::Always)
}

/// Whether a directory that is matched so may be shown for what it holds.
fn does_match_allow_folded_directory(ignored: bool, found: Option<Match>) -> bool
    ensures { result ≡ words.does_match_allow_folded_directory ignored found }
{
    let Some(found) = found else {
        return false;
    };
    if found.is_excluded() {
        return false;
    }
    !ignored | is_always_match(found.kind)
}

/// Whether an entry of the index lies beneath a directory, by its name.
pub fn has_index_entry_beneath(index: &State, name: &[u8]) -> bool
    ensures { result ≡ words.has_index_entry_beneath index.now name.now }
{
    index.prefixed_entries_range(name).is_some()
}

/// Whether a directory of this name is shown in the place of what it holds.
fn may_name_stand_for_contents(index: &State, specs: &Search, ignored: bool, name: &[u8]) -> bool
    ensures { result ≡ words.may_name_stand_for_contents index.now specs.now ignored name.now }
{
    if has_index_entry_beneath(index, name) {
        return false;
    }
    let found = specs.pattern_matching_relative_path(name, Some(true));
    does_match_allow_folded_directory(ignored, found)
}

/// The same of a directory by its path.
fn may_directory_stand_for_contents(
    alloc: Global,
    index: &State,
    specs: &Search,
    ignored: bool,
    directory: &[u8],
) -> Result<bool, OutOfMemory>
    ensures { IfOk result (λ shown. shown ≡ words.may_directory_stand_for_contents index.now
        specs.now ignored directory.now) }
{
    let name = name(alloc, &Place::new(directory, true))?;
    Ok(may_name_stand_for_contents(index, specs, ignored, name.as_bytes()))
}

/// Whether an entry of this status is untracked.
pub fn is_untracked_status(status: Status) -> bool
    ensures { result ≡ words.is_untracked_status status }
{
    matches!(status, Status::Untracked)
}

/// Whether a directory that holds an entry of this status may be ignored itself.
fn may_parent_be_ignored(listing: &Listing, status: Status) -> bool
    ensures { result ≡ words.may_parent_be_ignored listing.now status }
{
    uses_per_directory_ignore_rules(listing) && !is_untracked_status(status)
}

/// Whether an entry shows that the directories above it are not empty.
fn fills_directories_above(
    alloc: Global,
    listing: &Listing,
    index: &State,
    specs: &Search,
    all: &[NamedSpec],
    entry: &Entry,
) -> Result<bool, OutOfMemory>
    ensures { IfOk result (λ fills. fills ≡ words.fills_directories_above listing.now index.now
        specs.now all.now entry.now) }
{
    if !listing.directories {
        return Ok(false);
    }
    if listing.empty_directories {
        return Ok(true);
    }
    is_report_entry_listed(alloc, listing, index, specs, all, entry)
}

/// Whether the directory that ends before a byte of a path is shown in the place of what it holds.
fn may_path_prefix_stand_for_contents(
    alloc: Global,
    index: &State,
    specs: &Search,
    ignored: bool,
    path: &[u8],
    at: usize,
) -> Result<bool, OutOfMemory>
    requires { at < length path.now }
    ensures { IfOk result (λ shown. shown ≡ words.may_path_prefix_stand_for_contents index.now
        specs.now ignored path.now at) }
{
    if path[at] != b'/' {
        return Ok(false);
    }
    may_directory_stand_for_contents(alloc, index, specs, ignored, &path[..at])
}

/// The highest directory above a path that is shown in the place of what it holds.
fn highest_directory_standing_for_contents<'a>(
    alloc: Global,
    index: &State,
    specs: &Search,
    ignored: bool,
    path: &'a [u8],
) -> Result<Option<&'a [u8]>, OutOfMemory>
    ensures { IfOk result (λ found. option_copied found ≡
        words.highest_directory_standing_for_contents index.now specs.now ignored path.now) }
{
    let mut at = 0;
    while at < path.len() {
        if may_path_prefix_stand_for_contents(alloc, index, specs, ignored, path, at)? {
            return Ok(Some(&path[..at]));
        }
        at += 1;
    }
    Ok(None)
}

/// A directory, unless git does not come to it.
fn directory_place_unless_skipped<'a>(
    alloc: Global,
    index: &State,
    all: &[NamedSpec],
    directory: &'a [u8],
) -> Result<Option<Place<'a>>, OutOfMemory>
    ensures { IfOk result (λ place. place ≡ words.directory_place_unless_skipped index.now all.now
        directory.now) }
{
    let name = name(alloc, &Place::new(directory, true))?;
    if lies_in_spec_skipped_directory(index, all, name.as_bytes()) {
        return Ok(None);
    }
    Ok(Some(Place::new(directory, true)))
}

/// The directory that is shown in the place of an entry, if one is.
fn directory_standing_for_entry<'a>(
    alloc: Global,
    listing: &Listing,
    index: &State,
    specs: &Search,
    all: &[NamedSpec],
    entry: &'a Entry,
) -> Result<Option<Place<'a>>, OutOfMemory>
    ensures { IfOk result (λ place. place ≡ words.directory_standing_for_entry listing.now index.now
        specs.now all.now entry.now) }
{
    if !fills_directories_above(alloc, listing, index, specs, all, entry)? {
        return Ok(None);
    }
    let ignored = may_parent_be_ignored(listing, entry.status);
    match highest_directory_standing_for_contents(
        alloc,
        index,
        specs,
        ignored,
        entry.rela_path.as_bytes(),
    )? {
        Some(path) => directory_place_unless_skipped(alloc, index, all, path),
        None => Ok(None),
    }
}

/// What is shown for an entry.
pub fn place_listed_for_entry<'a>(
    alloc: Global,
    listing: &Listing,
    index: &State,
    specs: &Search,
    all: &[NamedSpec],
    entry: &'a Entry,
) -> Result<Option<Place<'a>>, OutOfMemory>
    ensures { IfOk result (λ place. place ≡ words.place_listed_for_entry listing.now index.now
        specs.now all.now entry.now) }
{
    match directory_standing_for_entry(alloc, listing, index, specs, all, entry)? {
        Some(place) => Ok(Some(place)),
        None => place_of_entry_if_listed(alloc, listing, index, specs, all, entry),
    }
}

/// Whether an entry of the index stands at a path.
pub fn has_index_entry_at(index: &State, path: &[u8]) -> bool
    ensures { result ≡ words.has_index_entry_at index.now path.now }
{
    index.entry_by_path(path).is_some()
}

/// The name of what is shown, unless the index has the path.
pub fn name_of_place_unless_indexed(
    alloc: Global,
    index: &State,
    place: &Place<'_>,
) -> Result<Option<Bytes>, OutOfMemory>
    ensures { IfOk result (λ name. name ≡ words.name_of_place_unless_indexed index.now place.now) }
{
    if has_index_entry_at(index, place.path()) {
        return Ok(None);
    }
    Ok(Some(name(alloc, place)?))
}

/// The name that is shown for an entry, if one is.
fn untracked_name_for_entry(
    alloc: Global,
    listing: &Listing,
    index: &State,
    specs: &Search,
    all: &[NamedSpec],
    entry: &Entry,
) -> Result<Option<Bytes>, OutOfMemory>
    ensures { IfOk result (λ name. name ≡ words.untracked_name_for_entry listing.now index.now
        specs.now all.now entry.now) }
{
    match place_listed_for_entry(alloc, listing, index, specs, all, entry)? {
        Some(place) => name_of_place_unless_indexed(alloc, index, &place),
        None => Ok(None),
    }
}

/// The names of a set, in the order of their bytes.
pub fn sorted_names_of_set(alloc: Global, names: BTreeSet<Bytes>) -> Result<Vec<Bytes>, OutOfMemory>
    ensures { IfOk result (λ list. list.items ≡ names.keys) }
{
    let mut list = Vec::with_capacity(alloc, names.len())?;
    for name in names {
        list.push(name)?;
    }
    Ok(list)
}

/// The names of what a report has and the index does not, in the order of their bytes.
pub fn sorted_untracked_names(
    alloc: Global,
    listing: &Listing,
    index: &State,
    specs: &Search,
    all: &[NamedSpec],
    found: &[ReportEntry],
) -> Result<Vec<Bytes>, OutOfMemory>
    ensures { IfOk result (λ names. names.items
        ≡ words.sorted_untracked_names listing.now index.now specs.now all.now found.now) }
{
    let mut names = BTreeSet::new(alloc);
    for entry in found {
        if let Some(name) = untracked_name_for_entry(
            alloc,
            listing,
            index,
            specs,
            all,
            &entry.entry,
        )? {
            names.insert(name)?;
        }
    }
    sorted_names_of_set(alloc, names)
}

/// Adds a line for each name.
pub fn append_lines_of_untracked(
    alloc: Global,
    text: &mut Vec<u8>,
    listing: &Listing,
    prefix: &[u8],
    names: &[Bytes],
) -> Result<(), OutOfMemory>
    ensures { OnOk result (text.new.items ≡ text.old.items
        ++ words.lines_of_untracked_names listing.now prefix.now names.now) }
{
    for name in names {
        append_untracked_line(alloc, text, listing, prefix, name.as_bytes())?;
    }
    Ok(())
}
