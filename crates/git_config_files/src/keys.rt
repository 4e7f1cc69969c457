//! The keys of a configuration, each by itself.
ghost use Rattle.std.specs.Prelude.{◌≡◌, [], ◌∷◌, ◌++◌, map, IfOk, OnOk};
ghost use Rattle.git_config_lite.specs.Sections.{Section as SectionOf};
ghost use Rattle.git_config_files.specs.Includes as words;

use git_config_lite::{Entry, File, Section};
use gitbase_core::{Bytes, OutOfMemory};
use std::alloc::Global;
use std::marker::Model;

/// Keys in their order, each as a section that has it alone. Contracts see the list of these
/// sections.
#[derive(Debug, Drop)]
pub struct Keys {
    items: Vec<Section>,
}

impl Model for Keys {
    ghost use Rattle.std.specs.Prelude.{List};
    ghost use Rattle.git_config_lite.specs.Sections.{Section as SectionOf};

    ghost Value = { List SectionOf };

    ghost view = { λ keys. keys.items.items };
}

impl Keys {
    /// No keys; takes no memory.
    pub fn new(alloc: Global) -> Keys
        ensures { result ≡ [] }
    {
        Keys {
            items: Vec::new(alloc),
        }
    }

    /// The sections; takes no memory.
    pub fn into_sections(self) -> Vec<Section>
        ensures { result.items ≡ self }
    {
        self.items
    }

    /// Adds a key.
    pub fn push(&mut self, key: Section) -> Result<(), OutOfMemory>
        ensures { OnOk result (self.new ≡ self.old ++ key ∷ []) }
    {
        self.items.push(key)?;
        Ok(())
    }

    /// Adds other keys behind these.
    pub fn append(&mut self, more: Keys) -> Result<(), OutOfMemory>
        ensures { OnOk result (self.new ≡ self.old ++ more) }
    {
        let mut more = more;
        self.items.append(&mut more.items)?;
        Ok(())
    }

    /// Adds a key, and what stands behind it.
    pub fn add(&mut self, key: Section, more: Keys) -> Result<(), OutOfMemory>
        ensures { OnOk result (self.new ≡ self.old ++ key ∷ more) }
    {
        self.push(key)?;
        self.append(more)
    }
}

fn copy_optional_bytes(alloc: Global, text: &Option<Bytes>) -> Result<Option<Bytes>, OutOfMemory>
    ensures { IfOk result (λ copy. copy ≡ text.now) }
{
    match text {
        Some(text) => Ok(Some(Bytes::from_slice(alloc, text.as_bytes())?)),
        None => Ok(None),
    }
}

fn copy_subsection_of_section(
    alloc: Global,
    section: &Section,
) -> Result<Option<Bytes>, OutOfMemory>
    ensures { IfOk result (λ copy. copy ≡ section.now.subsection) }
{
    match section.subsection_name() {
        Some(name) => Ok(Some(Bytes::from_slice(alloc, name)?)),
        None => Ok(None),
    }
}

fn copy_entry(alloc: Global, entry: &Entry) -> Result<Entry, OutOfMemory>
    ensures { IfOk result (λ copy. copy ≡ entry.now) }
{
    Ok(Entry {
        key: Bytes::from_slice(alloc, entry.key.as_bytes())?,
        value: copy_optional_bytes(alloc, &entry.value)?,
    })
}

/// A key by itself.
fn single_key_section(
    alloc: Global,
    section: &Section,
    entry: &Entry,
) -> Result<Section, OutOfMemory>
    ensures { IfOk result (λ key. key ≡ words.single_key_section section.now entry.now) }
{
    let subsection = copy_subsection_of_section(alloc, section)?;
    let entry = copy_entry(alloc, entry)?;
    let mut key = Section::new(alloc, section.name(), subsection, section.meta())?;
    key.push(entry)?;
    Ok(key)
}

/// Keys, and those of a section behind them.
fn keys_with_those_of_section(
    alloc: Global,
    keys: Keys,
    section: &Section,
) -> Result<Keys, OutOfMemory>
    ensures { IfOk result (λ all. all ≡ keys ++ map (words.single_key_section section.now)
        section.now.entries) }
{
    let mut all = keys;
    for entry in section.entries() {
        all.push(single_key_section(alloc, section, entry)?)?;
    }
    Ok(all)
}

/// The keys of a file.
pub fn single_key_sections_of_file(alloc: Global, file: &File) -> Result<Keys, OutOfMemory>
    ensures { IfOk result (λ keys. keys ≡ words.single_key_sections file.now.sections) }
{
    let mut keys = Keys::new(alloc);
    for section in file.sections() {
        keys = keys_with_those_of_section(alloc, keys, section)?;
    }
    Ok(keys)
}
