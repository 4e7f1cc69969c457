//! A configuration: its sections, how it is asked, and how it grows.
ghost use Rattle.std.specs.Prelude.{◌≡◌, ◌<◌, [], Some, length, option_copied, option_map, IfOk, IsTrue, OnOk, OnErr};
ghost use Rattle.git_config_lite.specs.Lookups as lookups;
ghost use Rattle.git_config_lite.specs.Writers as writers;
ghost use Rattle.git_config_lite.specs.Gives.{ParseAgreesWithGrammar, boolean_with_error_text};
ghost use Rattle.git_config_lite.specs.Seen as seen;

use crate::draft::read;
use crate::entry::Entry;
use crate::error::{ParseError, ValueError};
use crate::found::FoundValue;
use crate::iterators::{Sections, Values};
use crate::lookup::{boolean_of_found_value, value_or_empty_text};
use crate::metadata::{Metadata, Source};
use crate::run::Run;
use crate::runs::{extend_runs_to_all_sections, last_value_in_runs};
use crate::section::{Section, push_entry_to_last_section};
use gitbase_core::{Bytes, OutOfMemory};
use std::alloc::Global;
use std::marker::Model;
use std::mem;

/// One configuration file, or several of them that were appended.
///
/// Contracts see a record: where it was read, and its sections in order.
#[derive(Debug, Drop)]
pub struct File {
    meta: Metadata,
    sections: Vec<Section>,
    /// By which sections are found; none where they were not read, where some were pushed since, or
    /// where memory for them was refused.
    runs: Vec<Run>,
}

impl Model for File {
    ghost use Rattle.std.specs.Prelude.{reverse};
    ghost use Rattle.git_config_lite.specs.Sections.{Configuration};
    ghost use Rattle.git_config_lite.specs.Runs.{AreIndexRunsOfSections};

    ghost Value = { Configuration };

    ghost view = { λ file. record { meta = file.meta; sections = file.sections.items } };

    ghost invariant = { λ file. AreIndexRunsOfSections (reverse file.runs.items) file.sections.items };
}

impl File {
    /// A configuration without sections; takes no memory.
    pub fn new(alloc: Global, meta: Metadata) -> File
        ensures sections { result.sections ≡ [] }
        ensures meta { result.meta ≡ meta }
    {
        File {
            meta,
            sections: Vec::new(alloc),
            runs: Vec::new(alloc),
        }
    }

    /// What a text says, in the format of git-config(1). Each section gets a copy of `meta`.
    ///
    /// # Errors
    ///
    /// - `Syntax` names the first line outside the grammar, counted from 1. A fault in a value that
    ///   goes on over several lines is named by the line on which it stands.
    /// - `OutOfMemory` for want of memory.
    pub fn from_bytes(alloc: Global, bytes: &[u8], meta: Metadata) -> Result<File, ParseError>
        ensures { ParseAgreesWithGrammar result meta bytes.now }
    {
        let draft = read(alloc, &meta, bytes)?;
        Ok(File::from_sections(alloc, meta, draft.sections))
    }

    /// A configuration of these sections, in their order. It takes memory for an index, and goes
    /// without where that is refused. See docs/DECISIONS.md#slower-without-memory.
    pub fn from_sections(alloc: Global, meta: Metadata, sections: Vec<Section>) -> File
        ensures sections { result.sections ≡ sections.items }
        ensures meta { result.meta ≡ meta }
    {
        let runs = extend_runs_to_all_sections(alloc, Vec::new(alloc), &sections, 0);
        File {
            meta,
            sections,
            runs,
        }
    }

    /// The last value of a key in the sections of a name and subsection.
    fn found(&self, section: &[u8], subsection: Option<&[u8]>, key: &[u8]) -> Option<FoundValue<'_>>
        ensures { option_map seen.found result ≡ lookups.last_value_in_sections section.now
            (option_copied subsection.entry) key.now self.now.sections }
    {
        last_value_in_runs(&self.runs, &self.sections, section, subsection, key)
    }

    /// The sections, in their order; takes no memory.
    pub fn into_sections(self) -> Vec<Section>
        ensures { result.items ≡ self.sections }
    {
        self.sections
    }

    /// Where the configuration was read.
    pub fn meta(&self) -> &Metadata
        ensures { result.now ≡ self.now.meta }
    {
        &self.meta
    }

    /// The sections of a name, in order, whatever their subsections. The name is compared without
    /// regard to the case of ASCII letters.
    pub fn sections_by_name<'a>(&'a self, name: &'a [u8]) -> Sections<'a>
        ensures { result ≡ lookups.sections_of_name (Some name.now) self.now.sections }
    {
        Sections::filtered_by_name(&self.sections, name)
    }

    /// All sections, in order.
    pub fn sections(&self) -> Sections<'_>
        ensures { result ≡ self.now.sections }
    {
        Sections::all(&self.sections)
    }

    /// The last value of a key in the sections of a name and subsection; empty where that key has
    /// no value.
    ///
    /// Names and keys are compared without regard to the case of ASCII letters, subsections by
    /// their bytes; without a subsection only sections without one are asked.
    pub fn string(&self, section: &[u8], subsection: Option<&[u8]>, key: &[u8]) -> Option<&[u8]>
        ensures { option_copied result ≡ lookups.last_string_value section.now
            (option_copied subsection.entry) key.now self.now.sections }
    {
        match self.found(section, subsection, key) {
            Some(found) => Some(value_or_empty_text(found.value)),
            None => None,
        }
    }

    /// The same as `string`, with what the section belongs to in which the value stands.
    pub fn string_with_source(
        &self,
        section: &[u8],
        subsection: Option<&[u8]>,
        key: &[u8],
    ) -> Option<(&[u8], Source)>
        ensures { option_map seen.text_and_source_from_reference result
            ≡ lookups.last_string_with_source section.now (option_copied subsection.entry) key.now
            self.now.sections }
    {
        match self.found(section, subsection, key) {
            Some(found) => Some((value_or_empty_text(found.value), found.source)),
            None => None,
        }
    }

    /// All values of a key in the sections of a name and subsection, in order, compared as `string`
    /// does.
    pub fn strings<'a>(
        &'a self,
        section: &'a [u8],
        subsection: Option<&'a [u8]>,
        key: &'a [u8],
    ) -> Values<'a>
        ensures { result ≡ lookups.all_string_values section.now
            (option_copied subsection.entry) key.now self.now.sections }
    {
        Values::new(&self.sections, section, subsection, key)
    }

    /// What the last value of a key says as a boolean. A key without a value says true.
    ///
    /// Whatever the case of letters, `yes`, `on` and `true` are true, and `no`, `off`, `false` and
    /// the empty text false. So is a number with an optional sign and an optional suffix `k`, `m`
    /// or `g`, which is true unless it is 0. The error has any other text.
    pub fn boolean(
        &self,
        section: &[u8],
        subsection: Option<&[u8]>,
        key: &[u8],
    ) -> Result<Option<bool>, ValueError<'_>>
        ensures { boolean_with_error_text result ≡ lookups.last_boolean_value section.now
            (option_copied subsection.entry) key.now self.now.sections }
    {
        boolean_of_found_value(self.found(section, subsection, key))
    }

    /// Adds the sections of another configuration behind these. They keep where they were read, and
    /// this configuration keeps where it was read; it stays as it was where memory is refused. The
    /// room for the sections comes from the allocator that made this configuration, and that for
    /// finding them from `alloc`: where only the latter is refused, look-ups are slower. Of
    /// configurations that are appended one after another each section is sorted anew only where no
    /// fewer stand behind it, so a logarithm of their number of times.
    pub fn append(&mut self, alloc: Global, other: File) -> Result<(), OutOfMemory>
        ensures appended { OnOk result (self.new ≡ writers.configuration_with_other_appended
            self.old other) }
        ensures refused { OnErr result (self.new ≡ self.old) }
    {
        let File {
            meta: _meta,
            mut sections,
            runs: others,
        } = other;
        if sections.is_empty() {
            return Ok(());
        }
        let is_indexed = !self.runs.is_empty() || !others.is_empty();
        let start = self.sections.len();
        let runs = mem::replace(&mut self.runs, Vec::new(alloc));
        self.sections.append(&mut sections)?;
        if is_indexed {
            self.runs = extend_runs_to_all_sections(alloc, runs, &self.sections, start);
        }
        Ok(())
    }

    /// Adds an empty section with a subsection at the end, read where this configuration was read.
    ///
    /// A name has letters, digits, hyphens and dots, and is not empty. A subsection is any bytes;
    /// one that is read has no LF and no NUL. The configuration stays as it was where memory is
    /// refused.
    ///
    /// See docs/DECISIONS.md#any-subsection.
    pub fn push_section(
        &mut self,
        alloc: Global,
        name: &[u8],
        subsection: &[u8],
    ) -> Result<(), OutOfMemory>
        requires { IsTrue (writers.is_section_name name.now) }
        ensures pushed { OnOk result
            (self.new ≡ writers.configuration_with_empty_section self.old name.now subsection.now) }
        ensures refused { OnErr result (self.new ≡ self.old) }
    {
        let subsection = Bytes::from_slice(alloc, subsection)?;
        let section = Section::new(alloc, name, Some(subsection), &self.meta)?;
        self.runs.clear();
        self.sections.push(section)?;
        Ok(())
    }

    /// Adds a key with a value at the end of the last section, which has to be there.
    ///
    /// A key begins with a letter, and has letters, digits and hyphens; a value is any bytes. The
    /// configuration stays as it was where memory is refused.
    pub fn push_value(&mut self, alloc: Global, key: &[u8], value: &[u8]) -> Result<(), OutOfMemory>
        requires section { 0 < length self.old.sections }
        requires key { IsTrue (writers.is_key_name key.now) }
        ensures pushed { OnOk result (self.new ≡ writers.configuration_with_value_in_last_section
            self.old key.now value.now) }
        ensures refused { OnErr result (self.new ≡ self.old) }
    {
        let entry = Entry {
            key: Bytes::from_slice(alloc, key)?,
            value: Some(Bytes::from_slice(alloc, value)?),
        };
        self.runs.clear();
        push_entry_to_last_section(&mut self.sections, entry)
    }
}
