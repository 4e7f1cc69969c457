//! What the index has of paths that are asked about.
ghost use Rattle.std.specs.Prelude.{◌≡◌, find, option_copied};
ghost use Rattle.std.specs.List.{list_any};
ghost use Rattle.gitbase_core.specs.Entry.{is_submodule_entry, is_sparse_directory_entry};
ghost use Rattle.check_ignore.specs.Finds.{AnswersUnlessOutOfMemory};
ghost use Rattle.check_ignore.specs.Tracked as words;

use crate::asked::AskedPath;
use crate::stop::Stop;
use gitbase_core::{Bytes, IndexEntry, is_beneath_directory};
use glob_rules::pathspec::{Matcher, Search};
use std::alloc::Global;

fn is_submodule_entry(entry: &IndexEntry) -> bool
    ensures { result ≡ is_submodule_entry entry.now }
{
    entry.mode.is_submodule()
}

/// Whether a path spec takes an entry.
fn is_entry_matched_by_spec(spec: &Search, entry: &IndexEntry) -> bool
    ensures { result ≡ words.is_entry_matched_by_spec spec.now entry.now }
{
    let is_dir = is_submodule_entry(entry);
    match spec.pattern_matching_relative_path(entry.path.as_bytes(), Some(is_dir)) {
        Some(found) => !found.is_excluded(),
        None => false,
    }
}

/// Whether the index has a path, or what lies beneath it.
pub fn is_any_entry_matched_by_spec(index: &[IndexEntry], spec: &Search) -> bool
    ensures { result ≡ words.is_any_entry_matched_by_spec index.now spec.now }
{
    index
        .iter()
        .any(|entry| is_entry_matched_by_spec(spec, entry))
}

fn is_sparse_directory_entry(entry: &IndexEntry) -> bool
    ensures { result ≡ is_sparse_directory_entry entry.now }
{
    entry.mode.is_sparse()
}

fn has_sparse_directory_entry(index: &[IndexEntry]) -> bool
    ensures { result ≡ list_any is_sparse_directory_entry index.now }
{
    index.iter().any(is_sparse_directory_entry)
}

/// That no entry stands for all that is beneath a directory.
pub fn refuse_sparse_index(index: &[IndexEntry]) -> Result<bool, Stop>
    ensures { AnswersUnlessOutOfMemory result (words.refuse_sparse_index index.now) }
{
    if has_sparse_directory_entry(index) {
        return Err(Stop::SparseIndex);
    }
    Ok(true)
}

/// Whether a path lies in the submodule of an entry.
fn lies_beneath_entry(entry: &IndexEntry, asked: &AskedPath) -> bool
    ensures { result ≡ words.lies_beneath_entry entry.now asked.now }
{
    is_beneath_directory(entry.path.as_bytes(), asked.path.as_bytes())
}

/// The first path that does.
fn first_path_beneath_entry<'a>(entry: &IndexEntry, asked: &'a [AskedPath]) -> Option<&'a AskedPath>
    ensures { option_copied result ≡ find (words.lies_beneath_entry entry.now) asked.now }
{
    for one in asked {
        if lies_beneath_entry(entry, one) {
            return Some(one);
        }
    }
    None
}

/// That none does, if the entry is that of a submodule.
fn refuse_paths_in_entry_if_submodule(
    alloc: Global,
    asked: &[AskedPath],
    entry: &IndexEntry,
) -> Result<bool, Stop>
    ensures { AnswersUnlessOutOfMemory result (words.refuse_paths_in_entry_if_submodule asked.now
        entry.now) }
{
    if !is_submodule_entry(entry) {
        return Ok(true);
    }
    match first_path_beneath_entry(entry, asked) {
        Some(one) => Err(Stop::Inside {
            text: Bytes::from_slice(alloc, one.text.as_bytes())?,
            place: Bytes::from_slice(alloc, entry.path.as_bytes())?,
        }),
        None => Ok(true),
    }
}

/// That no path lies in a submodule.
pub fn refuse_paths_in_submodules(
    alloc: Global,
    asked: &[AskedPath],
    index: &[IndexEntry],
) -> Result<bool, Stop>
    ensures { AnswersUnlessOutOfMemory result (words.refuse_paths_in_submodules asked.now
        index.now) }
{
    for entry in index {
        refuse_paths_in_entry_if_submodule(alloc, asked, entry)?;
    }
    Ok(true)
}
