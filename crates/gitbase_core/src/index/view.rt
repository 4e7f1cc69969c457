//! The entries of an index beneath one of its directories.
ghost use Rattle.std.specs.Prelude.{◌≡◌, ◌==◌, ◌&&◌, ℕ, ◌+◌, ◌++◌, List, [], length, true, false};
ghost use Rattle.std.specs.List.{list_any};
ghost use Rattle.gitbase_core.specs.Entry.{uptodate_flag};
ghost use Rattle.gitbase_core.specs.Index.{AreValidIndexEntries, key_begins_with_prefix, entry_path_after_skipped_bytes, IsSortedByPathKey};
ghost use Rattle.gitbase_core.specs.Kinds.{entry_has_flag, kinds};
ghost use Rattle.gitbase_core.specs.Path.{is_empty, path_joined_with_slash, path_with_trailing_slash};
ghost use Rattle.gitbase_core.specs.View.{IsViewOfEntriesBeneath, index_kinds_of_name_in_view};
ghost use Rattle.gitbase_core.specs.declared.entry.IndexEntry.{IndexEntry};

use super::{
    State, entry_path_after_skipped_bytes, entry_range_with_path_prefix, first_entry_not_below_path,
};
use crate::entry::IndexEntry;
use crate::kinds::{
    IndexKinds, NO_KINDS, index_kinds_from_entries_beneath, index_kinds_of_entry,
    may_and_does_have_uptodate_entry,
};
use crate::path::needs_slash_before_component;
use std::marker::Model;

/// The entries of an index beneath one of its directories.
///
/// What is asked for a name in the directory is searched among these entries alone, and their paths
/// are compared behind the directory's; where there are none nothing is searched. Contracts see the
/// entries and how many bytes are skipped; that they are those beneath a directory is
/// `IsViewOfEntriesBeneath`.
///
/// See docs/DECISIONS.md#index-by-directory.
#[derive(Drop)]
pub struct Beneath<'a> {
    entries: &'a [IndexEntry],
    skip: usize,
    has_up_to_date: bool,
}

impl<'a> Model for Beneath<'a> {
    ghost use Rattle.std.specs.Prelude.{◌≡◌};
    ghost use Rattle.std.specs.List.{list_any};
    ghost use Rattle.gitbase_core.specs.Entry.{uptodate_flag};
    ghost use Rattle.gitbase_core.specs.Index.{entry_path_after_skipped_bytes, IsSortedByPathKey};
    ghost use Rattle.gitbase_core.specs.Kinds.{entry_has_flag};
    ghost use Rattle.gitbase_core.specs.View.{DirectoryEntriesView};

    ghost Value = { DirectoryEntriesView };

    ghost view = { λ beneath. record { entries = beneath.entries.now; skip = beneath.skip } };

    ghost invariant = { λ beneath. IsSortedByPathKey (entry_path_after_skipped_bytes beneath.skip)
        beneath.entries.now
        × (beneath.has_up_to_date ≡ list_any (entry_has_flag uptodate_flag) beneath.entries.now) };
}

impl State {
    /// What the index says of `path`.
    ///
    /// An entry at the path, the one of the lowest stage, tells its kind by its mode, and vouches
    /// for it with `UPTODATE` or `ASSUME_VALID`. Without one, entries beneath the path show a
    /// directory, which is vouched for where one of them has `UPTODATE`; it is left out of the
    /// sparse worktree where none has that flag, and there is a single entry of mode `DIR`, or
    /// several that all have `SKIP_WORKTREE`. Nothing is looked for beneath the empty path.
    pub fn kinds(&self, path: &[u8]) -> IndexKinds
        ensures { result ≡ kinds self.now path.now }
    {
        self.all().kinds(path)
    }

    /// The entries beneath a directory; all of them where it is the empty path. A slash at its end
    /// makes no difference.
    pub fn entries_beneath_directory(&self, directory: &[u8]) -> Beneath<'_>
        ensures { IsViewOfEntriesBeneath self.now directory.now result }
    {
        self.all().entries_beneath_directory(directory)
    }

    /// All entries, which lie beneath the empty path.
    fn all(&self) -> Beneath<'_>
        ensures { IsViewOfEntriesBeneath self.now [] result }
    {
        Beneath {
            entries: &self.entries,
            skip: 0,
            has_up_to_date: self.has_up_to_date,
        }
    }
}

impl<'a> Beneath<'a> {
    /// What the index says of a name in the directory.
    pub fn kinds(&self, name: &[u8]) -> IndexKinds
        ensures { (index : List IndexEntry) (directory : List ℕ)
            → IsViewOfEntriesBeneath index directory self.now
            → result ≡ kinds index (path_joined_with_slash directory name.now) }
    {
        self.index_kinds_of_name_in_directory(name)
    }

    /// The same by these entries alone, which have the directory's bytes in front.
    fn index_kinds_of_name_in_directory(&self, name: &[u8]) -> IndexKinds
        ensures { result ≡ index_kinds_of_name_in_view self.now name.now }
    {
        // The name itself, and what goes on behind it, begin where paths are no longer below the name.
        let Some(first) = first_entry_not_below_path(self.entries, self.skip, name) else {
            return NO_KINDS;
        };
        let path = entry_path_after_skipped_bytes(first, self.skip);
        if path == name {
            return index_kinds_of_entry(first);
        }
        if !path.starts_with(name) {
            return NO_KINDS;
        }
        // The top of the worktree is no directory that the index shows.
        if is_empty_path_at_root(self.skip, name) {
            return NO_KINDS;
        }
        let (start, end) = entry_range_with_path_prefix(self.entries, self.skip, name, b"/");
        index_kinds_from_entries_beneath(&self.entries[start..end], self.has_up_to_date)
    }

    /// The entries beneath a directory in the directory.
    pub fn entries_beneath_directory(&self, name: &[u8]) -> Beneath<'a>
        ensures { (index : List IndexEntry) (directory : List ℕ)
            → IsViewOfEntriesBeneath index directory self.now
            → IsViewOfEntriesBeneath index (path_joined_with_slash directory name.now) result }
    {
        let back = slash_needed_after_name(name);
        let (start, end) = entry_range_with_path_prefix(self.entries, self.skip, name, back);
        if start == end {
            return Beneath {
                entries: &[],
                skip: 0,
                has_up_to_date: false,
            };
        }
        let skip = skipped_plus_prefix_length(&self.entries[start], self.skip, name, back);
        let has_up_to_date = may_and_does_have_uptodate_entry(
            &self.entries[start..end],
            self.has_up_to_date,
        );
        Beneath {
            entries: &self.entries[start..end],
            skip,
            has_up_to_date,
        }
    }
}

/// Whether a name in a directory is the empty path.
fn is_empty_path_at_root(skip: usize, name: &[u8]) -> bool
    ensures { result ≡ ((skip == 0) && is_empty name.now) }
{
    skip == 0 && name.is_empty()
}

/// How many bytes are skipped, and those of `front` and `back` behind them, which the entry's path
/// has.
fn skipped_plus_prefix_length(entry: &IndexEntry, skip: usize, front: &[u8], back: &[u8]) -> usize
    requires { key_begins_with_prefix (entry_path_after_skipped_bytes skip) (front.now ++ back.now)
        entry.now ≡ true }
    ensures { result ≡ skip + length (front.now ++ back.now) }
{
    // The entry's path has all these bytes, so their number is one of a length.
    let _length = entry.path.as_bytes().len();
    skip + front.len() + back.len()
}

/// What has to stand behind a name, so that a path beneath it begins with both.
fn slash_needed_after_name(name: &[u8]) -> &'static [u8]
    ensures { name.now ++ result.now ≡ path_with_trailing_slash name.now }
{
    if needs_slash_before_component(name) {
        b"/"
    } else {
        b""
    }
}
