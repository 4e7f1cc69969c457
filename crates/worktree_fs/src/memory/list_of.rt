//! The listing of a directory of a tree in memory.
ghost use Rattle.std.specs.Prelude.{◌≡◌, IfOk, MatchResult, reverse, if◌then◌else◌};
ghost use Rattle.std.specs.List.Sorted.{IsStrictlySortedBy};
ghost use Rattle.worktree_fs.specs.Tree.{entry_names_in_order};
ghost use Rattle.worktree_fs.specs.Naming.{AreDistinctValidEntryNames};
ghost use Rattle.worktree_fs.specs.Answers.{ListErrorFitsLookup, HoldsOnListFault};
ghost use Rattle.worktree_fs.specs.Stored.{named_nodes_of_entries, AreSortedValidEntries};
ghost use Rattle.worktree_fs.specs.Found.{lookup_of_found, HasSortedEntriesIfDirectory};
ghost use Rattle.worktree_fs.specs.Memory.{ListsDirectoryNamesInOrder, AreSortedForwardOrReversed};
ghost use Rattle.worktree_fs.specs.Order.{compare_path_bytes};

use super::found::Found;
use super::stored::Entry;
use crate::{ListError, NameList};
use gitbase_core::{Bytes, OutOfMemory};
use std::alloc::Global;

/// The names of the directory that a path leads to.
pub fn list_of(alloc: Global, found: &Found, is_reversed: bool) -> Result<NameList, ListError>
    requires { HasSortedEntriesIfDirectory found.now }
    ensures answer { MatchResult result (ListsDirectoryNamesInOrder is_reversed
        (lookup_of_found found.now)) (ListErrorFitsLookup (lookup_of_found found.now)) }
    ensures names { IfOk result AreDistinctValidEntryNames }
    ensures sorted { IfOk result (AreSortedForwardOrReversed is_reversed) }
    ensures no_fault { HoldsOnListFault result ⊥ }
{
    match found {
        Found::Directory(entries) => {
            let names = names_of_entries(alloc, entries)?;
            Ok(reverse_names_if(names, is_reversed))
        }
        Found::File(_) | Found::Link(_) | Found::Other => Err(ListError::NotADirectory),
        Found::Absent | Found::TooManyLinks => Err(ListError::Absent),
    }
}

/// The names from first to last, or from last to first.
fn reverse_names_if(names: NameList, is_reversed: bool) -> NameList
    requires names { AreDistinctValidEntryNames names }
    requires sorted { IsStrictlySortedBy compare_path_bytes names }
    ensures order { result ≡ (if is_reversed then reverse names else names) }
    ensures names { AreDistinctValidEntryNames result }
    ensures sorted { AreSortedForwardOrReversed is_reversed result }
{
    let mut names = names;
    if is_reversed {
        names.reverse();
    }
    names
}

/// The names of a directory, from first to last.
#[tactic(auto, using(crate::proofs::Lists::EntryNames::all_names))]
fn names_of_entries(alloc: Global, entries: &[Entry]) -> Result<NameList, OutOfMemory>
    requires { AreSortedValidEntries entries.now }
    ensures value { IfOk result (λ names. names ≡ entry_names_in_order (named_nodes_of_entries
        entries.now)) }
    ensures names { IfOk result AreDistinctValidEntryNames }
    ensures sorted { IfOk result (IsStrictlySortedBy compare_path_bytes) }
{
    let mut names = NameList::new(alloc);
    for entry in entries {
        names.push(alloc, Bytes::from_slice(alloc, entry.name())?)?;
    }
    Ok(names)
}
