//! The directories by which it is decided what goes whole.
ghost use Rattle.std.specs.Prelude.{◌≡◌, IfOk, OnOk};
ghost use Rattle.worktree_report.specs.SetupMeant.{insert_paths_in_order};
ghost use Rattle.git_clean.specs.Directories as words;

use crate::above::{add, add_directories_above_path, lies_beneath_any_directory};
use crate::options::Cleaning;
use crate::removable::{
    entry_marks_parents_against_removal, has_dot_git_property, is_repository_or_dot_git_kept,
};
use gitbase_core::{Bytes, OutOfMemory, PathText};
use std::alloc::Global;
use std::collections::BTreeSet;
use worktree_report::ReportEntry;

/// Adds the directory that holds an entry, if that is named `.git`.
fn add_parent_if_dot_git(
    alloc: Global,
    directories: &mut BTreeSet<Bytes>,
    entry: &ReportEntry,
) -> Result<(), OutOfMemory>
    ensures { OnOk result (directories.new.keys
        ≡ insert_paths_in_order directories.old.keys (words.parent_of_dot_git_entry entry.now)) }
{
    if !has_dot_git_property(entry.entry.property) {
        return Ok(());
    }
    add(
        alloc,
        directories,
        parent_directory_or_top(&entry.entry.rela_path),
    )
}

/// The directory that holds a path.
fn parent_directory_or_top(path: &PathText) -> &[u8]
    ensures { result.now ≡ words.parent_directory_or_top path.now }
{
    match path.parent() {
        Some(holder) => holder,
        None => b"",
    }
}

/// The directories that hold a `.git`.
#[tactic(auto, unfolding(crate::specs::Directories::directories_holding_dot_git))]
pub fn directories_holding_dot_git(
    alloc: Global,
    found: &[ReportEntry],
) -> Result<BTreeSet<Bytes>, OutOfMemory>
    ensures { IfOk result (λ set. set.keys ≡ words.directories_holding_dot_git found.now) }
{
    let mut directories = BTreeSet::new(alloc);
    for entry in found {
        add_parent_if_dot_git(alloc, &mut directories, entry)?;
    }
    Ok(directories)
}

/// Whether the directories above an entry are to be marked.
fn marks_parents_outside_dot_git_holders(
    alloc: Global,
    cleaning: &Cleaning,
    guards: &BTreeSet<Bytes>,
    entry: &ReportEntry,
) -> Result<bool, OutOfMemory>
    ensures { IfOk result (λ marking. marking ≡ words.marks_parents_outside_dot_git_holders
        cleaning.now guards.now.keys entry.now) }
{
    if !entry_marks_parents_against_removal(cleaning, &entry.entry) {
        return Ok(false);
    }
    if cleaning.directories {
        return Ok(true);
    }
    let lies = lies_beneath_any_directory(alloc, guards, entry.entry.rela_path.as_bytes())?;
    Ok(!lies)
}

/// Marks the directories above an entry, if they are to be marked.
fn add_directories_marked_by_entry(
    alloc: Global,
    directories: &mut BTreeSet<Bytes>,
    cleaning: &Cleaning,
    guards: &BTreeSet<Bytes>,
    entry: &ReportEntry,
) -> Result<(), OutOfMemory>
    ensures { OnOk result (directories.new.keys ≡ insert_paths_in_order directories.old.keys
        (words.directories_marked_by_entry cleaning.now guards.now.keys entry.now)) }
{
    if !marks_parents_outside_dot_git_holders(alloc, cleaning, guards, entry)? {
        return Ok(());
    }
    add_directories_above_path(alloc, directories, entry.entry.rela_path.as_bytes())
}

/// The directories that are marked, where some hold a `.git`.
#[tactic(auto, unfolding(crate::specs::Directories::directories_marked_against_removal))]
pub fn directories_marked_against_removal(
    alloc: Global,
    cleaning: &Cleaning,
    guards: &BTreeSet<Bytes>,
    found: &[ReportEntry],
) -> Result<BTreeSet<Bytes>, OutOfMemory>
    ensures { IfOk result (λ set. set.keys ≡ words.directories_marked_against_removal cleaning.now
        guards.now.keys found.now) }
{
    let mut directories = BTreeSet::new(alloc);
    for entry in found {
        add_directories_marked_by_entry(alloc, &mut directories, cleaning, guards, entry)?;
    }
    Ok(directories)
}

/// Adds the directories above an entry, if that stays.
fn add_parents_if_repository_or_dot_git_kept(
    alloc: Global,
    directories: &mut BTreeSet<Bytes>,
    cleaning: &Cleaning,
    entry: &ReportEntry,
) -> Result<(), OutOfMemory>
    ensures { OnOk result (directories.new.keys ≡ insert_paths_in_order directories.old.keys
        (words.directories_above_if_entry_kept cleaning.now entry.now)) }
{
    if !is_repository_or_dot_git_kept(cleaning, &entry.entry) {
        return Ok(());
    }
    add_directories_above_path(alloc, directories, entry.entry.rela_path.as_bytes())
}

/// The current directory and those above it.
fn current_directory_and_parents(
    alloc: Global,
    prefix: &[u8],
) -> Result<BTreeSet<Bytes>, OutOfMemory>
    ensures { IfOk result (λ set. set.keys ≡ words.current_directory_and_parents prefix.now) }
{
    let mut directories = BTreeSet::new(alloc);
    add_directories_above_path(alloc, &mut directories, prefix)?;
    add(alloc, &mut directories, prefix)?;
    Ok(directories)
}

/// The directories that cannot go.
#[tactic(auto, unfolding(crate::specs::Directories::directories_that_must_stay))]
pub fn directories_that_must_stay(
    alloc: Global,
    cleaning: &Cleaning,
    prefix: &[u8],
    found: &[ReportEntry],
) -> Result<BTreeSet<Bytes>, OutOfMemory>
    ensures { IfOk result (λ set. set.keys ≡ words.directories_that_must_stay cleaning.now
        prefix.now found.now) }
{
    let mut directories = current_directory_and_parents(alloc, prefix)?;
    for entry in found {
        add_parents_if_repository_or_dot_git_kept(alloc, &mut directories, cleaning, entry)?;
    }
    Ok(directories)
}
