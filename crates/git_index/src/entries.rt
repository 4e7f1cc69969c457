//! The entries of an index file, one behind another.
ghost use Rattle.std.specs.Prelude.{◌≡◌, OnOk, IfOk};
ghost use Rattle.git_index.specs.Entries as texts;
ghost use Rattle.git_index.specs.Gives.{EntriesResultAgrees};
ghost use Rattle.git_index.specs.Seen.{entries_and_details_as_record, entry_and_rest_as_record};

use crate::entry::{EntryAndRest, read_entry};
use crate::error::IndexFileError;
use crate::stat::Detail;
use gitbase_core::{IndexEntry, OutOfMemory};
use std::alloc::Global;

/// The bytes of the shortest entry: its head, and what stands for an empty path in each version.
const SHORTEST_ENTRY: usize = 64;

/// Entries, and beside each what the file says of it besides.
#[derive(Debug, Drop)]
pub struct Listed {
    pub entries: Vec<IndexEntry>,
    pub details: Vec<Detail>,
}

/// Some entries, and what is behind them.
#[derive(Drop)]
pub struct Entries<'a> {
    pub listed: Listed,
    pub rest: &'a [u8],
}

impl Listed {
    /// No entries, and room for so many.
    fn with_room_for_entries(alloc: Global, room: usize) -> Result<Listed, OutOfMemory>
        ensures { IfOk result (λ listed. entries_and_details_as_record listed
            ≡ texts.no_entries_and_details) }
    {
        Ok(Listed {
            entries: Vec::with_capacity(alloc, room)?,
            details: Vec::with_capacity(alloc, room)?,
        })
    }

    /// The path of the last entry; the empty one where there is none.
    fn path_of_last_entry(&self) -> &[u8]
        ensures { result.now ≡ texts.path_of_last_entry self.now.entries.items }
    {
        match self.entries.last() {
            Some(entry) => entry.path.as_bytes(),
            None => &[],
        }
    }

    /// Adds an entry at the end.
    fn push(&mut self, entry: IndexEntry, detail: Detail) -> Result<(), OutOfMemory>
        ensures { OnOk result (entries_and_details_as_record self.new
            ≡ texts.entries_and_details_with_one_more (entries_and_details_as_record self.old) entry
            detail) }
    {
        self.entries.push(entry)?;
        self.details.push(detail)?;
        Ok(())
    }
}

/// So many entries at the front of some bytes.
///
/// The count is not believed: room is made for no more entries than the bytes can hold.
pub fn read_entries(
    alloc: Global,
    version: u32,
    count: u32,
    bytes: &[u8],
) -> Result<Entries<'_>, IndexFileError>
    ensures { EntriesResultAgrees result
        (texts.read_entries_after_others version texts.no_entries_and_details count bytes.now) }
{
    let room = (count as usize).min(bytes.len() / SHORTEST_ENTRY);
    let mut listed = Listed::with_room_for_entries(alloc, room)?;
    let mut rest = bytes;
    let mut left = count;
    while left > 0 {
        let Some(read) = read_entry(alloc, version, listed.path_of_last_entry(), rest)? else {
            return Err(IndexFileError::Entry {
                at: listed.entries.len(),
            });
        };
        rest = read.rest;
        listed.push(read.entry, read.detail)?;
        left -= 1;
    }
    Ok(Entries { listed, rest })
}
