//! The entries of a report beneath a directory.
ghost use Rattle.std.specs.Prelude.{◌≡◌, true, filter, IfOk};
ghost use Rattle.std.specs.Ordering.{is_eq, is_lt};
ghost use Rattle.gitbase_core.specs.Index.{compare_path_start_with_prefix};
ghost use Rattle.git_clean.specs.Beneath as words;

use crate::removable::name;
use gitbase_core::{OutOfMemory, is_empty_or_root_path};
use ls_files::Place;
use std::alloc::Global;
use std::cmp::Ordering;
use worktree_report::ReportEntry;

/// The path of an entry.
fn rela_path_of_report_entry(entry: &ReportEntry) -> &[u8]
    ensures { result.now ≡ words.rela_path_of_report_entry entry.now }
{
    entry.entry.rela_path.as_bytes()
}

/// Whether the path of an entry stands below that of another.
fn path_sorts_before(entry: &ReportEntry, other: &ReportEntry) -> bool
    ensures { result ≡ words.path_sorts_before entry.now other.now }
{
    rela_path_of_report_entry(entry)
        .cmp(&rela_path_of_report_entry(other))
        .is_lt()
}

/// Whether the paths do not fall along entries, as they do not in a report.
pub fn is_sorted_by_path(found: &[ReportEntry]) -> bool
    ensures { result ≡ true → words.AreSortedByPath found.now }
{
    found.is_sorted_by(|earlier, later| !path_sorts_before(later, earlier))
}

/// How the first bytes of an entry's path compare with the name of a directory.
fn compare_path_prefix_with(entry: &ReportEntry, name: &[u8]) -> Ordering
    ensures { result ≡ compare_path_start_with_prefix name.now (words.rela_path_of_report_entry
        entry.now) }
{
    let path = rela_path_of_report_entry(entry);
    if path.len() < name.len() {
        return path.cmp(&name);
    }
    let (front, _) = path.split_at(name.len());
    front.cmp(&name)
}

/// Whether an entry stands before those whose paths begin with a name.
fn sorts_before_prefix(entry: &ReportEntry, name: &[u8]) -> bool
    ensures { result ≡ is_lt (compare_path_start_with_prefix name.now
        (words.rela_path_of_report_entry entry.now)) }
{
    compare_path_prefix_with(entry, name).is_lt()
}

/// Whether an entry stands among them.
fn path_starts_with(entry: &ReportEntry, name: &[u8]) -> bool
    ensures { result ≡ is_eq (compare_path_start_with_prefix name.now
        (words.rela_path_of_report_entry entry.now)) }
{
    compare_path_prefix_with(entry, name).is_eq()
}

/// The entries whose paths begin with a name, which stand beside one another.
fn entries_with_path_prefix<'a>(found: &'a [ReportEntry], name: &[u8]) -> &'a [ReportEntry]
    requires { words.AreSortedByPath found.now }
    ensures { result.now ≡ filter (words.path_starts_with name.now) found.now }
{
    let start = found.partition_point(|entry| sorts_before_prefix(entry, name));
    let (_, rest) = found.split_at(start);
    let length = rest.partition_point(|entry| path_starts_with(entry, name));
    let (run, _) = rest.split_at(length);
    run
}

/// Some of the entries, in their order, with all that lie beneath a directory among them: no others
/// where paths do not fall.
pub fn entries_narrowed_to_directory_if_sorted<'a>(
    alloc: Global,
    found: &'a [ReportEntry],
    rise: bool,
    directory: &[u8],
) -> Result<&'a [ReportEntry], OutOfMemory>
    requires { rise ≡ true → words.AreSortedByPath found.now }
    ensures { IfOk result (λ some. filter (words.entry_lies_beneath_directory directory.now)
        some.now ≡ filter (words.entry_lies_beneath_directory directory.now) found.now) }
{
    if !rise || is_empty_or_root_path(directory) {
        return Ok(found);
    }
    let name = name(alloc, &Place::new(directory, true))?;
    Ok(entries_with_path_prefix(found, name.as_bytes()))
}
