//! Entries of an index, not yet in order.
ghost use Rattle.std.specs.Prelude.{◌≡◌, [], ◌∷◌, ◌++◌, OnOk};

use gitbase_core::{IndexEntry, OutOfMemory};
use std::alloc::Global;
use std::marker::Model;

/// Entries of an index as they stand in its file. Contracts see the list of them.
#[derive(Debug, Drop)]
pub struct Entries {
    items: Vec<IndexEntry>,
}

impl Model for Entries {
    ghost use Rattle.std.specs.Prelude.{List};
    ghost use Rattle.gitbase_core.specs.declared.entry.IndexEntry.{IndexEntry};

    ghost Value = { List IndexEntry };

    ghost view = { λ entries. entries.items.items };
}

impl Entries {
    /// No entries; takes no memory.
    pub fn new(alloc: Global) -> Entries
        ensures { result ≡ [] }
    {
        Entries {
            items: Vec::new(alloc),
        }
    }

    /// The entries of the vector; takes no memory.
    pub fn from_vec(items: Vec<IndexEntry>) -> Entries
        ensures { result ≡ items.items }
    {
        Entries { items }
    }

    /// The entries.
    pub fn as_slice(&self) -> &[IndexEntry]
        ensures { result.now ≡ self.now }
    {
        self.items.as_slice()
    }

    /// The entries as a vector; takes no memory.
    pub fn into_vec(self) -> Vec<IndexEntry>
        ensures { result.items ≡ self }
    {
        self.items
    }

    /// Adds an entry at the end.
    pub fn push(&mut self, entry: IndexEntry) -> Result<(), OutOfMemory>
        ensures { OnOk result (self.new ≡ self.old ++ entry ∷ []) }
    {
        self.items.push(entry)?;
        Ok(())
    }
}
