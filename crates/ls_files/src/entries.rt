//! Some of the entries of an index.
ghost use Rattle.std.specs.Prelude.{◌≡◌, ◌∷◌, ◌++◌, [], IfOk, OnOk};
ghost use Rattle.ls_files.specs.Excluded as words;

use gitbase_core::{IndexEntry, OutOfMemory, PathText};
use std::alloc::Global;
use std::marker::Model;

/// Some of the entries of an index. Contracts see the list of them.
#[derive(Debug, Drop)]
pub struct Entries {
    items: Vec<IndexEntry>,
}

impl Model for Entries {
    ghost use Rattle.std.specs.Prelude.{List};
    ghost use Rattle.gitbase_core.specs.declared.entry.IndexEntry.{IndexEntry};

    ghost Value = { List IndexEntry };

    ghost view = { λ entries. entries.items.items };
}

/// An entry like another.
fn copy_index_entry(alloc: Global, entry: &IndexEntry) -> Result<IndexEntry, OutOfMemory>
    ensures { IfOk result (λ copy. copy ≡ entry.now) }
{
    Ok(IndexEntry {
        path: PathText::from_bytes(alloc, entry.path.as_bytes())?,
        stage: entry.stage,
        mode: entry.mode,
        flags: entry.flags,
        id: entry.id,
    })
}

impl Entries {
    /// No entries; takes no memory.
    pub fn new(alloc: Global) -> Entries
        ensures { result ≡ [] }
    {
        Entries {
            items: Vec::new(alloc),
        }
    }

    /// The entries, in their order.
    pub fn as_slice(&self) -> &[IndexEntry]
        ensures { result.now ≡ self.now }
    {
        self.items.as_slice()
    }

    /// Adds an entry at the end.
    fn push(&mut self, alloc: Global, entry: &IndexEntry) -> Result<(), OutOfMemory>
        ensures { OnOk result (self.new ≡ self.old ++ entry.now ∷ []) }
    {
        self.items.push(copy_index_entry(alloc, entry)?)?;
        Ok(())
    }

    /// Adds an entry at the end, if it is excluded.
    pub fn push_copy_if_excluded(
        &mut self,
        alloc: Global,
        entry: &IndexEntry,
        excluded: bool,
    ) -> Result<(), OutOfMemory>
        ensures { OnOk result (self.new ≡ words.append_entry_if_excluded self.old entry.now
            excluded) }
    {
        if excluded {
            return self.push(alloc, entry);
        }
        Ok(())
    }
}
