//! Entries of an index, as they are shown.
ghost use Rattle.std.specs.Prelude.{◌≡◌};

use gitbase_core::IndexEntry;
use std::marker::Model;

/// As what an entry is shown.
#[derive(Clone, Copy, Debug, PartialEq, Eq)]
pub enum Sign {
    /// What the index has.
    Kept,
    /// Nothing is there.
    Gone,
    /// Nothing is there, or something else.
    Modified,
}

/// An entry, and as what it is shown.
///
/// Contracts see the two.
#[derive(Drop)]
pub struct ShownEntry<'a> {
    entry: &'a IndexEntry,
    sign: Sign,
}

impl<'a> Model for ShownEntry<'a> {
    ghost use Rattle.ls_files.specs.Places as specs;

    ghost Value = { specs.EntryAsKeptGoneOrModified };

    ghost view = { λ shown. record { entry = shown.entry.now; sign = shown.sign } };
}

impl<'a> ShownEntry<'a> {
    /// An entry, as what it is shown.
    pub fn new(entry: &'a IndexEntry, sign: Sign) -> ShownEntry<'a>
        ensures entry { result.entry ≡ entry.now }
        ensures sign { result.sign ≡ sign }
    {
        ShownEntry { entry, sign }
    }

    /// The entry.
    pub fn entry(&self) -> &'a IndexEntry
        ensures { result.now ≡ self.now.entry }
    {
        self.entry
    }

    /// As what it is shown.
    pub fn kept_gone_or_modified(&self) -> Sign
        ensures { result ≡ self.now.sign }
    {
        self.sign
    }
}
