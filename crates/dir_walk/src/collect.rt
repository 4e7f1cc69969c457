//! The entries that a walk emits, kept in a list.
ghost use Rattle.std.specs.Prelude.{◌≡◌, ◌++◌, ◌∷◌, [], IsPermutation, IfOk, OnOk, OnErr};
ghost use Rattle.dir_walk.specs.Emissions.{emission_with_fold_status, sort_emissions_by_path};
ghost use Rattle.dir_walk.specs.Distinct.{IsStrictlyAscendingByPath, HasDistinctPaths, IsAscendingByPath};

use crate::delegate::{Action, Delegate};
use dir_classify::{Entry, EntryRef, Status};
use gitbase_core::OutOfMemory;
use std::alloc::Global;
use std::marker::Model;

/// Entries as they were emitted, each with the status of the directory that was folded over it, if
/// one was.
///
/// Contracts see the list of the pairs.
///
/// See docs/DECISIONS.md#emitted-entries.
#[derive(Debug, Drop)]
pub struct EmittedEntries {
    items: Vec<(Entry, Option<Status>)>,
}

impl Model for EmittedEntries {
    ghost use Rattle.std.specs.Prelude.{List};
    ghost use Rattle.dir_walk.specs.Emissions.{Emission};

    ghost Value = { List Emission };

    ghost view = { λ entries. entries.items.items };
}

impl EmittedEntries {
    /// No entries; takes no memory.
    pub fn new(alloc: Global) -> EmittedEntries
        ensures { result ≡ [] }
    {
        EmittedEntries {
            items: Vec::new(alloc),
        }
    }

    /// The entries of the vector; takes no memory.
    pub fn from_vec(items: Vec<(Entry, Option<Status>)>) -> EmittedEntries
        ensures { result ≡ items.items }
    {
        EmittedEntries { items }
    }

    /// The entries.
    pub fn as_slice(&self) -> &[(Entry, Option<Status>)]
        ensures { result.now ≡ self.now }
    {
        &self.items
    }

    /// The entries as a vector; takes no memory.
    pub fn into_vec(self) -> Vec<(Entry, Option<Status>)>
        ensures { result.items ≡ self }
    {
        self.items
    }

    /// Adds an entry at the end. The room comes from the allocator that made the list.
    ///
    /// # Errors
    ///
    /// - `OutOfMemory`: memory was refused. The list stays as it was.
    pub fn push(
        &mut self,
        _alloc: Global,
        entry: Entry,
        collapsed_directory_status: Option<Status>,
    ) -> Result<(), OutOfMemory>
        ensures added { OnOk result (self.new
            ≡ self.old ++ emission_with_fold_status entry collapsed_directory_status ∷ []) }
        ensures refused { OnErr result (self.new ≡ self.old) }
    {
        self.items.push((entry, collapsed_directory_status))?;
        Ok(())
    }
}

/// A delegate of a walk that keeps what it is given, in the order in which it is given.
#[derive(Debug, Drop)]
pub struct Collect {
    /// The entries in the order in which they were emitted; the name is spelled as gitoxide spells
    /// it.
    pub unorded_entries: EmittedEntries,
}

impl Collect {
    /// Nothing kept; takes no memory.
    pub fn new(alloc: Global) -> Collect
        ensures { result.unorded_entries ≡ [] }
    {
        Collect {
            unorded_entries: EmittedEntries::new(alloc),
        }
    }

    /// The entries in ascending order of their paths, byte by byte; those of one path stand in the
    /// order in which they were kept. Where no path stands twice, as in what a walk gives, each
    /// path stands before the next one. The room comes from the allocator that made the list.
    ///
    /// # Errors
    ///
    /// - `OutOfMemory`: memory was refused.
    pub fn into_entries_by_path(self, _alloc: Global) -> Result<EmittedEntries, OutOfMemory>
        ensures sorted { IfOk result (λ entries. entries ≡ sort_emissions_by_path
            self.unorded_entries) }
        ensures ascending { IfOk result IsAscendingByPath }
        ensures strict { HasDistinctPaths self.unorded_entries
            → IfOk result IsStrictlyAscendingByPath }
        ensures same { IfOk result (λ entries. IsPermutation self.unorded_entries entries) }
    {
        let mut items = self.unorded_entries.into_vec();
        items.sort_by(|a, b| a.0.rela_path.as_bytes().cmp(b.0.rela_path.as_bytes()))?;
        Ok(EmittedEntries::from_vec(items))
    }
}

/// Keeps each entry behind those that are kept already, and never answers Break.
impl Delegate for Collect {
    ghost use Rattle.std.specs.Prelude.{Some, true, false};

    ghost given = { λ c. Some c.unorded_entries };

    ghost is_default = { λ c. true };

    ghost breaks = { λ c. 0 };

    ghost refusals = { λ c. 0 };

    ghost is_stopped = { λ c. false };

    fn emit(
        &mut self,
        alloc: Global,
        entry: EntryRef<'_>,
        collapsed_directory_status: Option<Status>,
    ) -> Result<Action, OutOfMemory> {
        let entry = entry.to_owned(alloc)?;
        self.unorded_entries
            .push(alloc, entry, collapsed_directory_status)?;
        Ok(Action::Continue)
    }
}
