//! The sections of a configuration.
ghost use Rattle.std.specs.Prelude.{◌≡◌, option_copied, option_map, IfOk, OnOk, OnErr};
ghost use Rattle.git_config_lite.specs.Sections as words;
ghost use Rattle.git_config_lite.specs.Booleans.{is_equal_ignoring_ascii_case};
ghost use Rattle.git_config_lite.specs.Lookups as lookups;
ghost use Rattle.git_config_lite.specs.Seen as seen;

use crate::boolean::is_equal_ignoring_ascii_case;
use crate::entry::Entry;
use crate::found::FoundValue;
use crate::lookup::{is_same_subsection, last_entry_with_key, value_of_entry, value_or_empty_text};
use crate::metadata::Metadata;
use gitbase_core::{Bytes, OutOfMemory};
use std::alloc::Global;
use std::marker::Model;

/// A section: its name, its subsection where it has one, where it was read, and its keys in order.
///
/// Contracts see a record of these.
#[derive(Debug, Drop)]
pub struct Section {
    name: Bytes,
    subsection: Option<Bytes>,
    meta: Metadata,
    entries: Vec<Entry>,
}

impl Model for Section {
    ghost use Rattle.git_config_lite.specs.Sections as words;

    ghost Value = { words.Section };

    ghost view = { λ s. record { name = s.name; subsection = s.subsection; meta = s.meta; entries = s.entries.items } };
}

impl Section {
    /// A section without keys. The name is taken as it is:
    /// [`is_section_name`](crate::is_section_name) tells what a header can have.
    pub fn new(
        alloc: Global,
        name: &[u8],
        subsection: Option<Bytes>,
        meta: &Metadata,
    ) -> Result<Section, OutOfMemory>
        ensures { IfOk result (λ made. made ≡ words.empty_section name.now subsection meta.now) }
    {
        Ok(Section {
            name: Bytes::from_slice(alloc, name)?,
            subsection,
            meta: meta.copy(alloc)?,
            entries: Vec::new(alloc),
        })
    }

    /// The name, as it is spelled in the header.
    pub fn name(&self) -> &[u8]
        ensures { result.now ≡ self.now.name }
    {
        self.name.as_bytes()
    }

    /// The keys, each with its value, in the order of the text.
    pub fn entries(&self) -> &[Entry]
        ensures { result.now ≡ self.now.entries }
    {
        &self.entries
    }

    /// The subsection, if there is one. A header `[name ""]` has an empty one, and `[name]` has
    /// none.
    pub fn subsection_name(&self) -> Option<&[u8]>
        ensures { option_copied result ≡ self.now.subsection }
    {
        match &self.subsection {
            Some(subsection) => Some(subsection.as_bytes()),
            None => None,
        }
    }

    /// The last value of a key, whose name is compared without regard to the case of ASCII letters;
    /// empty where that key has no value, and None where the section has no such key.
    pub fn value(&self, key: &[u8]) -> Option<&[u8]>
        ensures { option_copied result ≡ lookups.last_value_in_section key.now self.now }
    {
        match last_entry_with_key(&self.entries, key) {
            Some(entry) => Some(value_or_empty_text(value_of_entry(entry))),
            None => None,
        }
    }

    /// Where the section was read.
    pub fn meta(&self) -> &Metadata
        ensures { result.now ≡ self.now.meta }
    {
        &self.meta
    }

    /// Whether the section has a name.
    pub(crate) fn is_named(&self, name: &[u8]) -> bool
        ensures { result ≡ is_equal_ignoring_ascii_case self.now.name name.now }
    {
        is_equal_ignoring_ascii_case(self.name.as_bytes(), name)
    }

    /// The keys, if the section is the one that is asked for.
    pub(crate) fn entries_if_section_matches(
        &self,
        name: &[u8],
        subsection: Option<&[u8]>,
    ) -> &[Entry]
        ensures { result.now ≡ lookups.entries_if_section_matches name.now
            (option_copied subsection.entry) self.now }
    {
        if !self.is_named(name) {
            return &[];
        }
        if !is_same_subsection(self.subsection_name(), subsection) {
            return &[];
        }
        &self.entries
    }

    /// The last value of a key, if the section is the one that is asked for.
    pub(crate) fn found(
        &self,
        name: &[u8],
        subsection: Option<&[u8]>,
        key: &[u8],
    ) -> Option<FoundValue<'_>>
        ensures { option_map seen.found result ≡ lookups.last_value_in_matching_section name.now
            (option_copied subsection.entry) key.now self.now }
    {
        match last_entry_with_key(self.entries_if_section_matches(name, subsection), key) {
            Some(entry) => Some(FoundValue {
                value: value_of_entry(entry),
                source: self.meta.source,
            }),
            None => None,
        }
    }

    /// Adds a key at the end. The section stays as it was where memory is refused.
    pub fn push(&mut self, entry: Entry) -> Result<(), OutOfMemory>
        ensures added { OnOk result (self.new ≡ words.section_with_entry entry self.old) }
        ensures refused { OnErr result (self.new ≡ self.old) }
    {
        self.entries.push(entry)?;
        Ok(())
    }
}

/// Adds a key at the end of the last section; without a section it is dropped. The sections stay as
/// they were where memory is refused.
pub fn push_entry_to_last_section(
    sections: &mut Vec<Section>,
    entry: Entry,
) -> Result<(), OutOfMemory>
    ensures added { OnOk result (sections.new.items ≡ words.sections_with_entry_in_last entry
        sections.old.items) }
    ensures refused { OnErr result (sections.new.items ≡ sections.old.items) }
{
    if sections.is_empty() {
        return Ok(());
    }
    let last = sections.len() - 1;
    let section = &mut sections[last];
    section.push(entry)
}
