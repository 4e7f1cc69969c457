//! Which entries may go by themselves, and which keep directories from going.
ghost use Rattle.std.specs.Prelude.{◌≡◌, IfOk};
ghost use Rattle.dir_classify.specs.Kinds as kinds;
ghost use Rattle.ls_files.specs.Cached.{do_specs_match_path};
ghost use Rattle.ls_files.specs.Others as others;
ghost use Rattle.git_clean.specs.Going as words;

use crate::options::Cleaning;
use dir_classify::entry::{is_repository_kind, is_some_directory_kind};
use dir_classify::{Entry, Kind, Property, Status};
use gitbase_core::{Bytes, OutOfMemory};
use glob_rules::pathspec::{Matcher, Search};
use ls_files::Place;
use std::alloc::Global;

/// Whether an entry of this status goes.
fn is_status_cleaned(cleaning: &Cleaning, status: Status) -> bool
    ensures { result ≡ words.is_status_cleaned cleaning.now status }
{
    match status {
        Status::Untracked => !cleaning.ignored_only,
        Status::Ignored(_) => cleaning.ignored_only,
        Status::Tracked => false,
        Status::Pruned => false,
    }
}

/// Whether what stands at a path goes.
fn is_kind_cleaned(cleaning: &Cleaning, kind: Option<Kind>) -> bool
    ensures { result ≡ words.is_kind_cleaned cleaning.now kind }
{
    match kind {
        None => false,
        Some(Kind::Untrackable) => false,
        Some(Kind::File) => true,
        Some(Kind::Symlink) => true,
        Some(Kind::Directory) => cleaning.directories,
        Some(Kind::Repository) => cleaning.directories && cleaning.repositories,
    }
}

/// Whether a property says that a path is named `.git`.
pub fn has_dot_git_property(property: Option<Property>) -> bool
    ensures { result ≡ kinds.is_dot_git_property property }
{
    matches!(property, Some(Property::DotGit))
}

/// Whether an entry may go by itself, if the path specs match it.
fn may_remove_if_matched(cleaning: &Cleaning, entry: &Entry) -> bool
    ensures { result ≡ words.may_remove_if_matched cleaning.now entry.now }
{
    is_status_cleaned(cleaning, entry.status)
        && is_kind_cleaned(cleaning, entry.disk_kind)
        && !has_dot_git_property(entry.property)
}

/// The path of an entry, and whether a directory stands there.
pub fn place_of_entry(entry: &Entry) -> Place<'_>
    ensures { result ≡ others.place_of_report_entry entry.now }
{
    Place::new(
        entry.rela_path.as_bytes(),
        is_some_directory_kind(entry.disk_kind),
    )
}

/// The name of what goes: that of a directory ends in a slash.
pub fn name(alloc: Global, place: &Place<'_>) -> Result<Bytes, OutOfMemory>
    ensures { IfOk result (λ name. name ≡ others.name place.now) }
{
    let mut name = Bytes::from_slice(alloc, place.path())?;
    if place.is_directory_path() {
        name.extend(alloc, b"/")?;
    }
    Ok(name)
}

/// Whether the path specs match a path.
fn specs_include_path(specs: &Search, path: &[u8], is_dir: bool) -> bool
    ensures { result ≡ do_specs_match_path specs.now path.now is_dir }
{
    match specs.pattern_matching_relative_path(path, Some(is_dir)) {
        Some(found) => !found.is_excluded(),
        None => false,
    }
}

/// Whether the path specs match an entry.
pub fn specs_include_entry(
    alloc: Global,
    specs: &Search,
    entry: &Entry,
) -> Result<bool, OutOfMemory>
    ensures { IfOk result (λ matched. matched ≡ others.do_specs_match_report_entry specs.now
        entry.now) }
{
    let name = name(alloc, &place_of_entry(entry))?;
    let matched = specs_include_path(
        specs,
        name.as_bytes(),
        is_some_directory_kind(entry.disk_kind),
    );
    Ok(matched)
}

/// Whether an entry may go by itself.
pub fn is_entry_matched_and_removable(
    alloc: Global,
    cleaning: &Cleaning,
    specs: &Search,
    entry: &Entry,
) -> Result<bool, OutOfMemory>
    ensures { IfOk result (λ may. may ≡ words.is_entry_matched_and_removable cleaning.now specs.now
        entry.now) }
{
    if !may_remove_if_matched(cleaning, entry) {
        return Ok(false);
    }
    specs_include_entry(alloc, specs, entry)
}

/// Whether an entry stays, with what it holds: a repository, or what is named `.git`.
pub fn is_repository_or_dot_git_kept(cleaning: &Cleaning, entry: &Entry) -> bool
    ensures { result ≡ words.is_repository_or_dot_git_kept cleaning.now entry.now }
{
    if cleaning.repositories {
        return false;
    }
    is_repository_kind(entry.disk_kind) || has_dot_git_property(entry.property)
}

/// Whether a status is that of an untracked path.
pub fn is_untracked_status(status: Status) -> bool
    ensures { result ≡ others.is_untracked_status status }
{
    matches!(status, Status::Untracked)
}

/// Whether a kind is that of a file, a link, or a directory that holds nothing.
fn is_file_symlink_or_directory(kind: Option<Kind>) -> bool
    ensures { result ≡ words.is_file_symlink_or_directory kind }
{
    match kind {
        None => false,
        Some(Kind::Untrackable) => false,
        Some(Kind::File) => true,
        Some(Kind::Symlink) => true,
        Some(Kind::Directory) => true,
        Some(Kind::Repository) => false,
    }
}

/// Whether an entry keeps the directories above it from going whole.
fn entry_blocks_whole_removal(cleaning: &Cleaning, entry: &Entry) -> bool
    ensures { result ≡ words.entry_blocks_whole_removal cleaning.now entry.now }
{
    entry.status.is_ignored() != cleaning.ignored_only
}

/// Whether an entry shows that in the directories above it not all is ignored.
fn proves_parents_unignored(cleaning: &Cleaning, entry: &Entry) -> bool
    ensures { result ≡ words.proves_parents_unignored cleaning.now entry.now }
{
    cleaning.ignored_only
        && is_untracked_status(entry.status)
        && is_file_symlink_or_directory(entry.disk_kind)
}

/// Whether the directories above an entry are marked; with `-X` and without `-d` it has to lie in
/// no directory that holds a `.git`.
pub fn entry_marks_parents_against_removal(cleaning: &Cleaning, entry: &Entry) -> bool
    ensures { result ≡ words.entry_marks_parents_against_removal cleaning.now entry.now }
{
    if cleaning.directories {
        return entry_blocks_whole_removal(cleaning, entry);
    }
    proves_parents_unignored(cleaning, entry)
}
