//! What git comes to of the entries of a report where directories are shown, and whether it is
//! ignored.
ghost use Rattle.std.specs.Prelude.{◌≡◌, ◌++◌, ◌<◌, [], IfOk, OnOk, length, option_copied};
ghost use Rattle.worktree_stack.specs.Mappings.{case_by_ignore_case};
ghost use Rattle.ls_files.specs.IgnoredDirectories as words;

use crate::alone::{
    has_patterns_without_standard_or_directory_rules, ignore_search_from_two_texts,
    is_path_or_parent_excluded,
};
use crate::options::Listing;
use crate::others::{
    has_index_entry_beneath, is_kind_listed, is_untracked_status, place_of_report_entry,
};
use crate::place::Place;
use crate::unseen::directory_name_through_slash;
use crate::walk_request::lists_empty_directories;
use dir_classify::{Entry, Status};
use gitbase_core::{OutOfMemory, State};
use glob_rules::Case;
use glob_rules::ignore::Search;
use std::alloc::Global;
use std::marker::Model;
use worktree_report::{ReportEntry, Setup};

/// A path, and whether what stands there is ignored.
///
/// Contracts see the two.
#[derive(Drop)]
pub struct Judged<'a> {
    place: Place<'a>,
    ignored: bool,
}

impl<'a> Model for Judged<'a> {
    ghost use Rattle.ls_files.specs.Places as specs;

    ghost Value = { specs.PlaceWithIgnoredFlag };

    ghost view = { λ judged. record { place = judged.place; ignored = judged.ignored } };
}

impl<'a> Judged<'a> {
    /// The path.
    pub fn place(&self) -> &Place<'a>
        ensures { result.now ≡ self.now.place }
    {
        &self.place
    }

    /// Whether what stands there is ignored.
    pub fn is_ignored(&self) -> bool
        ensures { result ≡ self.now.ignored }
    {
        self.ignored
    }
}

/// The patterns of the command line where the walk asks no rules, else none.
pub fn given_patterns_if_no_other_rules(
    alloc: Global,
    listing: &Listing,
    setup: &Setup,
) -> Result<Search, OutOfMemory>
    ensures { IfOk result (λ rules. rules ≡ words.given_patterns_if_no_other_rules listing.now
        setup.now) }
{
    if has_patterns_without_standard_or_directory_rules(listing) {
        return ignore_search_from_two_texts(
            alloc,
            setup.globals.as_bytes(),
            setup.overrides.as_bytes(),
        );
    }
    Ok(Search::new(alloc))
}

/// Whether an entry of this status is ignored.
fn is_ignored_status(status: Status) -> bool
    ensures { result ≡ words.is_ignored_status status }
{
    matches!(status, Status::Ignored(_))
}

/// Whether an entry counts: one that is untracked or ignored, and may be shown.
fn is_listable_untracked_or_ignored(listing: &Listing, entry: &Entry) -> bool
    ensures { result ≡ words.is_listable_untracked_or_ignored listing.now entry.now }
{
    if !(is_ignored_status(entry.status) | is_untracked_status(entry.status)) {
        return false;
    }
    is_kind_listed(listing, entry.disk_kind)
}

/// Whether patterns exclude the directory that ends before a byte of a path, and the index has
/// nothing in it.
fn is_excluded_unindexed_directory_ending_at(
    patterns: &Search,
    case: Case,
    index: &State,
    path: &[u8],
    at: usize,
) -> bool
    requires { at < length path.now }
    ensures { result ≡ words.is_excluded_unindexed_directory_ending_at patterns.now case index.now
        path.now at }
{
    if path[at] != b'/' {
        return false;
    }
    is_path_or_parent_excluded(patterns, case, &path[..at], true)
        && !has_index_entry_beneath(index, directory_name_through_slash(path, at))
}

/// The highest such directory above a path.
fn highest_excluded_unindexed_directory<'a>(
    patterns: &Search,
    case: Case,
    index: &State,
    path: &'a [u8],
) -> Option<&'a [u8]>
    ensures { option_copied result ≡ words.highest_excluded_unindexed_directory patterns.now case
        index.now path.now }
{
    let mut at = 0;
    while at < path.len() {
        if is_excluded_unindexed_directory_ending_at(patterns, case, index, path, at) {
            return Some(&path[..at]);
        }
        at += 1;
    }
    None
}

/// Whether such directories are left.
fn stops_at_excluded_directories(listing: &Listing) -> bool
    ensures { result ≡ words.stops_at_excluded_directories listing.now }
{
    lists_empty_directories(listing) && has_patterns_without_standard_or_directory_rules(listing)
}

/// The highest such directory above a path, where they are left.
fn excluded_directory_standing_for<'a>(
    listing: &Listing,
    patterns: &Search,
    case: Case,
    index: &State,
    path: &'a [u8],
) -> Option<&'a [u8]>
    ensures { option_copied result
        ≡ words.excluded_directory_standing_for listing.now patterns.now case index.now path.now }
{
    if stops_at_excluded_directories(listing) {
        return highest_excluded_unindexed_directory(patterns, case, index, path);
    }
    None
}

/// An entry itself, and whether it is ignored.
fn entry_place_with_ignored_flag<'a>(patterns: &Search, case: Case, entry: &'a Entry) -> Judged<'a>
    ensures { result ≡ words.entry_place_with_ignored_flag patterns.now case entry.now }
{
    let place = place_of_report_entry(entry);
    let ignored = is_ignored_status(entry.status)
        || is_path_or_parent_excluded(patterns, case, place.path(), place.is_directory_path());
    Judged { place, ignored }
}

/// The same, if the entry counts.
fn flagged_entry_place_if_listable<'a>(
    listing: &Listing,
    patterns: &Search,
    case: Case,
    entry: &'a Entry,
) -> Option<Judged<'a>>
    ensures { result ≡ words.flagged_entry_place_if_listable listing.now patterns.now case
        entry.now }
{
    if is_listable_untracked_or_ignored(listing, entry) {
        return Some(entry_place_with_ignored_flag(patterns, case, entry));
    }
    None
}

/// What git comes to of an entry, and whether that is ignored.
fn excluded_directory_or_flagged_entry<'a>(
    listing: &Listing,
    patterns: &Search,
    case: Case,
    index: &State,
    entry: &'a Entry,
) -> Option<Judged<'a>>
    ensures { result ≡ words.excluded_directory_or_flagged_entry listing.now patterns.now case
        index.now entry.now }
{
    match excluded_directory_standing_for(
        listing,
        patterns,
        case,
        index,
        entry.rela_path.as_bytes(),
    ) {
        Some(path) => Some(Judged {
            place: Place::new(path, true),
            ignored: true,
        }),
        None => flagged_entry_place_if_listable(listing, patterns, case, entry),
    }
}

/// The same of all entries of a report.
pub fn places_with_ignored_flag<'a>(
    alloc: Global,
    listing: &Listing,
    patterns: &Search,
    case: Case,
    index: &State,
    found: &'a [ReportEntry],
) -> Result<Vec<Judged<'a>>, OutOfMemory>
    ensures { IfOk result (λ all. all.items
        ≡ words.places_with_ignored_flag listing.now patterns.now case index.now found.now) }
{
    let mut all = Vec::new(alloc);
    for entry in found {
        if let Some(judged) = excluded_directory_or_flagged_entry(
            listing,
            patterns,
            case,
            index,
            &entry.entry,
        ) {
            all.push(judged)?;
        }
    }
    Ok(all)
}
