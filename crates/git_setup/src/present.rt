//! The entries of an index by what is in the work tree.
ghost use Rattle.std.specs.Prelude.{◌≡◌, [], false, None, Ok, IfOk};
ghost use Rattle.gitbase_core.specs.Path.{path_joined_with_slash, without_trailing_slash};
ghost use Rattle.git_index.specs.Head.{flags_of_assumed_and_skipped};
ghost use Rattle.git_setup.specs.Finds.{IsFoundOrRefusesMemory, FindsOverToldTree};
ghost use Rattle.git_setup.specs.Present as words;
ghost use Rattle.git_setup.specs.Refusals.{entries_result_as_git_result};
ghost use Rattle.gitbase_core.specs.Index.{checked_index_entries};

use crate::entries::Entries;
use crate::error::GitRefusal;
use gitbase_core::{
    Flags, IndexEntry, IndexError, OutOfMemory, PathText, State, is_beneath_directory,
    is_empty_or_root_path,
};
use std::alloc::Global;
use worktree_fs::Worktree;

fn assume_valid_or_no_flags(assumed: bool) -> Flags
    ensures { result ≡ flags_of_assumed_and_skipped assumed false }
{
    if assumed {
        Flags::ASSUME_VALID
    } else {
        Flags::empty()
    }
}

/// An entry without its skip flag.
fn entry_without_skip_flag(mut entry: IndexEntry) -> IndexEntry
    ensures { result ≡ words.entry_without_skip_flag entry }
{
    entry.flags = assume_valid_or_no_flags(entry.flags.contains(Flags::ASSUME_VALID));
    entry
}

fn join_root_and_path(alloc: Global, root: &[u8], path: &[u8]) -> Result<PathText, OutOfMemory>
    ensures { IfOk result (λ whole. whole ≡ path_joined_with_slash root.now path.now) }
{
    let mut whole = PathText::from_bytes(alloc, root)?;
    whole.push_component(alloc, path)?;
    Ok(whole)
}

/// Whether a node is at a path of the work tree.
pub fn exists_in_work_tree<W: Worktree>(
    alloc: Global,
    worktree: &mut W,
    root: &[u8],
    path: &[u8],
) -> Result<bool, GitRefusal>
    ensures { FindsOverToldTree W.Worktree worktree.old worktree.new
        (λ t. Ok (words.exists_in_work_tree t root.now path.now)) result }
{
    let whole = join_root_and_path(alloc, root, path)?;
    Ok(worktree.kind(alloc, whole.as_bytes())?.is_some())
}

/// A path without the slash at its end, if there is one.
fn path_without_trailing_slash(path: &[u8]) -> &[u8]
    ensures { result.now ≡ without_trailing_slash path.now }
{
    if path.last() == Some(&b'/') {
        return &path[..path.len() - 1];
    }
    path
}

/// An entry that stands for a directory, by whether something is in its place.
fn refuse_sparse_entry_if_present(
    entry: IndexEntry,
    present: bool,
) -> Result<IndexEntry, GitRefusal>
    ensures { result ≡ words.refuse_sparse_entry_if_present entry present }
{
    if present {
        return Err(GitRefusal::SparseDirectory { path: entry.path });
    }
    Ok(entry)
}

fn has_skip_worktree_flag(entry: &IndexEntry) -> bool
    ensures { result ≡ words.has_skip_worktree_flag entry.now }
{
    entry.flags.contains(Flags::SKIP_WORKTREE)
}

/// A directory of the work tree that was looked at.
#[derive(Debug, Drop)]
struct Looked {
    directory: PathText,
    /// Whether anything is there.
    present: bool,
}

/// An entry as it is seen in the work tree.
#[derive(Debug, Drop)]
struct Seen {
    entry: IndexEntry,
    /// The last directory that was looked at for it or for one before it.
    last: Option<Looked>,
}

/// Whether a path lies beneath a directory that is known not to be there.
fn lies_beneath_known_absent_directory(last: &Option<Looked>, path: &[u8]) -> bool
    ensures { result ≡ words.lies_beneath_known_absent_directory last.now path.now }
{
    match last {
        None => false,
        Some(looked) => !looked.present && is_beneath_directory(looked.directory.as_bytes(), path),
    }
}

/// Whether a directory is known to be there.
fn is_last_look_at_present_directory(last: &Option<Looked>, directory: &[u8]) -> bool
    ensures { result ≡ words.is_last_look_at_present_directory last.now directory.now }
{
    match last {
        None => false,
        Some(looked) => looked.present && looked.directory.as_bytes() == directory,
    }
}

/// A directory, by one look at it.
fn presence_of_directory<W: Worktree>(
    alloc: Global,
    worktree: &mut W,
    root: &[u8],
    directory: &[u8],
) -> Result<Looked, GitRefusal>
    ensures { FindsOverToldTree W.Worktree worktree.old worktree.new
        (λ t. Ok (words.presence_of_directory t root.now directory.now)) result }
{
    let present = exists_in_work_tree(alloc, worktree, root, directory)?;
    Ok(Looked {
        directory: PathText::from_bytes(alloc, directory)?,
        present,
    })
}

/// What is known of the directory above a path: one look, unless it is known already.
fn known_or_found_presence_of_parent<W: Worktree>(
    alloc: Global,
    worktree: &mut W,
    root: &[u8],
    last: Option<Looked>,
    path: &PathText,
) -> Result<Option<Looked>, GitRefusal>
    ensures { FindsOverToldTree W.Worktree worktree.old worktree.new
        (λ t. Ok (words.known_or_found_presence_of_parent t root.now last path.now)) result }
{
    if lies_beneath_known_absent_directory(&last, path.as_bytes()) {
        return Ok(last);
    }
    let Some(directory) = path.parent() else {
        return Ok(last);
    };
    if is_empty_or_root_path(directory) || is_last_look_at_present_directory(&last, directory) {
        return Ok(last);
    }
    let looked = presence_of_directory(alloc, worktree, root, directory)?;
    Ok(Some(looked))
}

/// Whether something is at a path, by what is known of the directory above it.
fn exists_unless_directory_absent<W: Worktree>(
    alloc: Global,
    worktree: &mut W,
    root: &[u8],
    last: &Option<Looked>,
    path: &[u8],
) -> Result<bool, GitRefusal>
    ensures { FindsOverToldTree W.Worktree worktree.old worktree.new
        (λ t. Ok (words.exists_unless_directory_absent t root.now last.now path.now)) result }
{
    if lies_beneath_known_absent_directory(last, path) {
        return Ok(false);
    }
    exists_in_work_tree(alloc, worktree, root, path)
}

/// A skipped entry, without its flag if something is in its place.
fn entry_unskipped_if_present(entry: IndexEntry, present: bool) -> IndexEntry
    ensures { result ≡ words.entry_unskipped_if_present entry present }
{
    if present {
        return entry_without_skip_flag(entry);
    }
    entry
}

/// A skipped entry as it is seen in the work tree.
#[tactic(auto, unfolding(crate::specs::Present::skipped_entry_unskipped_if_present))]
fn skipped_entry_unskipped_if_present<W: Worktree>(
    alloc: Global,
    worktree: &mut W,
    root: &[u8],
    last: Option<Looked>,
    entry: IndexEntry,
) -> Result<Seen, GitRefusal>
    ensures { FindsOverToldTree W.Worktree worktree.old worktree.new
        (λ t. Ok (words.skipped_entry_unskipped_if_present t root.now last entry)) result }
{
    let last = known_or_found_presence_of_parent(alloc, worktree, root, last, &entry.path)?;
    let present = exists_unless_directory_absent(
        alloc,
        worktree,
        root,
        &last,
        entry.path.as_bytes(),
    )?;
    Ok(Seen {
        entry: entry_unskipped_if_present(entry, present),
        last,
    })
}

/// An entry that stands for a directory, as it is seen in the work tree.
#[tactic(auto, unfolding(crate::specs::Present::require_sparse_directory_absent))]
fn require_sparse_directory_absent<W: Worktree>(
    alloc: Global,
    worktree: &mut W,
    root: &[u8],
    last: Option<Looked>,
    entry: IndexEntry,
) -> Result<Seen, GitRefusal>
    ensures { FindsOverToldTree W.Worktree worktree.old worktree.new
        (λ t. words.require_sparse_directory_absent t root.now last entry) result }
{
    let present = exists_in_work_tree(
        alloc,
        worktree,
        root,
        path_without_trailing_slash(entry.path.as_bytes()),
    )?;
    let entry = refuse_sparse_entry_if_present(entry, present)?;
    Ok(Seen { entry, last })
}

/// An entry as it is seen in the work tree, by what was looked at before.
#[tactic(auto, unfolding(crate::specs::Present::entry_unskipped_or_refused_if_present))]
fn entry_unskipped_or_refused_if_present<W: Worktree>(
    alloc: Global,
    worktree: &mut W,
    root: &[u8],
    looks: bool,
    last: Option<Looked>,
    entry: IndexEntry,
) -> Result<Seen, GitRefusal>
    ensures { FindsOverToldTree W.Worktree worktree.old worktree.new
        (λ t. words.entry_unskipped_or_refused_if_present t root.now looks last entry) result }
{
    if entry.mode.is_sparse() {
        return require_sparse_directory_absent(alloc, worktree, root, last, entry);
    }
    if looks && has_skip_worktree_flag(&entry) {
        return skipped_entry_unskipped_if_present(alloc, worktree, root, last, entry);
    }
    Ok(Seen { entry, last })
}

/// Entries, each as it is seen in the work tree, with one look a directory.
fn entries_unskipped_with_cached_looks<W: Worktree>(
    alloc: Global,
    worktree: &mut W,
    root: &[u8],
    looks: bool,
    entries: Entries,
) -> Result<Entries, GitRefusal>
    ensures { FindsOverToldTree W.Worktree worktree.old worktree.new
        (λ t. words.entries_unskipped_with_cached_looks t root.now looks None [] entries) result }
{
    let mut done = Entries::new(alloc);
    let mut last = None;
    for entry in entries.into_vec() {
        let seen = entry_unskipped_or_refused_if_present(
            alloc, worktree, root, looks, last, entry,
        )?;
        done.push(seen.entry)?;
        last = seen.last;
    }
    Ok(done)
}

/// Entries, each as it is seen in the work tree.
fn entries_unskipped_if_present<W: Worktree>(
    alloc: Global,
    worktree: &mut W,
    root: &[u8],
    looks: bool,
    entries: Entries,
) -> Result<Entries, GitRefusal>
    ensures { FindsOverToldTree W.Worktree worktree.old worktree.new
        (λ t. words.append_entries_unskipped_if_present t root.now looks [] entries) result }
{
    entries_unskipped_with_cached_looks(alloc, worktree, root, looks, entries)
}

/// The refusal of an entry of the index file at a path.
fn refusal_of_index_entry(
    alloc: Global,
    path: &[u8],
    error: IndexError,
) -> Result<GitRefusal, OutOfMemory>
    ensures { IfOk result (λ e. e ≡ GitRefusal.IndexEntry path.now error) }
{
    Ok(GitRefusal::IndexEntry {
        path: PathText::from_bytes(alloc, path)?,
        error,
    })
}

/// Entries of the index file at a path, as an index.
pub fn checked_index_from_entries(
    alloc: Global,
    path: &[u8],
    entries: Entries,
) -> Result<State, GitRefusal>
    ensures { IsFoundOrRefusesMemory result (entries_result_as_git_result path.now
        (checked_index_entries entries)) }
{
    match State::from_entries(entries.into_vec()) {
        Ok(index) => Ok(index),
        Err(error) => Err(refusal_of_index_entry(alloc, path, error)?),
    }
}

/// The index of the entries of the file at `path`, each as it is seen in the work tree.
///
/// An entry that stands for all that is beneath a directory is refused where something is in its
/// place. Where `looks` says so, a skipped entry with something in its place is taken as one that
/// is not skipped. Of each such entry there are at most two looks: one at the directory above it,
/// unless that is the top or is known to be there, and one at the entry, unless that directory is
/// gone. Beneath the last directory that was looked at there is none, if that is gone. Only what
/// was looked at last is known.
///
/// See docs/DIFFERENCES.md#sparse-index and docs/DECISIONS.md#look-at-skipped.
pub fn index_with_present_entries_unskipped<W: Worktree>(
    alloc: Global,
    worktree: &mut W,
    root: &[u8],
    path: &[u8],
    looks: bool,
    entries: Entries,
) -> Result<State, GitRefusal>
    ensures { FindsOverToldTree W.Worktree worktree.old worktree.new
        (λ t. words.index_with_present_entries_unskipped t root.now path.now looks entries) result }
{
    let entries = entries_unskipped_if_present(alloc, worktree, root, looks, entries)?;
    checked_index_from_entries(alloc, path, entries)
}
