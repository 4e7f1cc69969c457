//! Which entries are taken.
ghost use Rattle.std.specs.Prelude.{◌≡◌, find, option_copied};
ghost use Rattle.gitbase_core.specs.Entry.{is_sparse_directory_entry};
ghost use Rattle.diff_files.specs.Rows as rows;

use gitbase_core::IndexEntry;
use glob_rules::pathspec::{Matcher, Search};

/// Whether the path specs match the path of an entry.
fn is_included_by_path_specs(specs: &Search, entry: &IndexEntry) -> bool
    ensures { result ≡ rows.is_included_by_path_specs specs.now entry.now }
{
    let is_dir = entry.mode.is_submodule();
    match specs.pattern_matching_relative_path(entry.path.as_bytes(), Some(is_dir)) {
        Some(found) => !found.is_excluded(),
        None => false,
    }
}

/// Whether an entry has the path of the last one that is not merged.
pub fn is_path_of_last_unmerged(last: Option<&[u8]>, entry: &IndexEntry) -> bool
    ensures { result ≡ rows.is_same_path_as_last (option_copied last.entry) entry.now.path }
{
    match last {
        Some(path) => path == entry.path.as_bytes(),
        None => false,
    }
}

/// Whether an entry is taken: the path specs match it, or it goes with the one before it.
pub fn is_included_or_has_last_path(specs: &Search, last: Option<&[u8]>, entry: &IndexEntry) -> bool
    ensures { result ≡ rows.is_included_or_has_last_path specs.now (option_copied last.entry)
        entry.now }
{
    if is_path_of_last_unmerged(last, entry) {
        return true;
    }
    is_included_by_path_specs(specs, entry)
}

/// The path of an entry that is not merged.
pub fn path_if_unmerged(entry: &IndexEntry) -> Option<&[u8]>
    ensures { option_copied result ≡ rows.path_if_unmerged entry.now }
{
    if entry.stage == 0 {
        return None;
    }
    Some(entry.path.as_bytes())
}

/// Whether an entry stands for all that is beneath a directory.
fn is_sparse_directory_entry(entry: &IndexEntry) -> bool
    ensures { result ≡ is_sparse_directory_entry entry.now }
{
    entry.mode.is_sparse()
}

/// The first entry that does.
pub fn first_sparse_directory_entry(entries: &[IndexEntry]) -> Option<&IndexEntry>
    ensures { option_copied result ≡ find is_sparse_directory_entry entries.now }
{
    entries
        .iter()
        .find(|entry| is_sparse_directory_entry(entry))
}
