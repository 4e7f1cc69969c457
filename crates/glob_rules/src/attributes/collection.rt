//! The names of attributes.
ghost use Rattle.std.specs.Prelude.{◌≡◌, [], IfOk, OnOk, OnErr};
ghost use Rattle.glob_rules.specs.AttributeNames as names;

use super::line::{Head, Line};
use super::word::Assigned;
use gitbase_core::{Bytes, OutOfMemory};
use std::alloc::Global;
use std::collections::BTreeSet;
use std::marker::Model;

/// The names of attributes, each once, in the order in which they were first seen.
///
/// Contracts see their list.
#[derive(Debug, Drop)]
pub struct MetadataCollection {
    names: Vec<Bytes>,
    /// The same names, among which one is found without passing over all.
    sorted: BTreeSet<Bytes>,
}

impl Model for MetadataCollection {
    ghost use Rattle.std.specs.Prelude.{ℕ, List};
    ghost use Rattle.glob_rules.specs.AttributeNames.{HaveSameTexts};

    ghost Value = { List (List ℕ) };

    ghost view = { λ collection. collection.names.items };

    ghost invariant = { λ collection. HaveSameTexts collection.sorted.keys collection.names.items };
}

/// Equal names, in the same order.
fn copy_attribute_names(alloc: Global, names: &[Bytes]) -> Result<Vec<Bytes>, OutOfMemory>
    ensures { IfOk result (λ copies. copies.items ≡ names.now) }
{
    let mut copies = Vec::with_capacity(alloc, names.len())?;
    for name in names {
        copies.push(Bytes::from_slice(alloc, name.as_bytes())?)?;
    }
    Ok(copies)
}

impl MetadataCollection {
    /// A collection without names; takes no memory.
    pub fn new(alloc: Global) -> MetadataCollection
        ensures { result ≡ [] }
    {
        MetadataCollection {
            names: Vec::new(alloc),
            sorted: BTreeSet::new(alloc),
        }
    }

    /// The names, in the order in which they were first seen.
    pub fn names(&self) -> &[Bytes]
        ensures { result.now ≡ self.now }
    {
        &self.names
    }

    /// An equal collection; fails only where memory is refused.
    pub fn copy(&self, alloc: Global) -> Result<MetadataCollection, OutOfMemory>
        ensures { IfOk result (λ copy. copy ≡ self.now) }
    {
        Ok(MetadataCollection {
            names: copy_attribute_names(alloc, &self.names)?,
            sorted: self.sorted.clone()?,
        })
    }

    /// Sees a name. Where memory is refused, the collection is as before.
    fn add_name_once(&mut self, alloc: Global, name: &Bytes) -> Result<(), OutOfMemory>
        ensures seen { OnOk result (self.new ≡ names.names_with_name_added_once self.old name.now) }
        ensures refused { OnErr result (self.new ≡ self.old) }
    {
        if self.sorted.contains(name) {
            return Ok(());
        }
        let key = Bytes::from_slice(alloc, name.as_bytes())?;
        self.names.push(Bytes::from_slice(alloc, name.as_bytes())?)?;
        match self.sorted.insert(key) {
            Ok(_) => Ok(()),
            Err(_) => {
                self.names.pop();
                Err(OutOfMemory)
            }
        }
    }

    /// Sees the names of which words speak.
    fn add_assigned_names(
        &mut self,
        alloc: Global,
        assignments: &[Assigned],
    ) -> Result<(), OutOfMemory>
        ensures seen { OnOk result (self.new ≡ names.names_with_names_added_once self.old
            (names.names_of_assignments assignments.now)) }
        ensures refused { OnErr result (names.AddsSomeFirstNames self.old
            (names.names_of_assignments assignments.now) self.new) }
    {
        let mut rest = assignments;
        while let Some((assigned, after)) = rest.split_first() {
            self.add_name_once(alloc, &assigned.name)?;
            rest = after;
        }
        Ok(())
    }

    /// Sees the names of which a line speaks.
    fn add_names_of_line(&mut self, alloc: Global, line: &Line) -> Result<(), OutOfMemory>
        ensures seen { OnOk result (self.new
            ≡ names.names_with_names_added_once self.old (names.attribute_names_of_line line.now)) }
        ensures refused { OnErr result (names.AddsSomeFirstNames self.old
            (names.attribute_names_of_line line.now) self.new) }
    {
        if let Head::Macro(name) = &line.head {
            self.add_name_once(alloc, name)?;
        }
        self.add_assigned_names(alloc, line.assignments.as_slice())
    }

    /// Sees the names of which lines speak. Where memory is refused, the first of them may have
    /// been seen.
    pub(super) fn add_names_of_lines(
        &mut self,
        alloc: Global,
        lines: &[Line],
    ) -> Result<(), OutOfMemory>
        ensures seen { OnOk result (self.new ≡ names.names_with_names_added_once self.old
            (names.attribute_names_of_lines lines.now)) }
        ensures refused { OnErr result (names.AddsSomeFirstNames self.old
            (names.attribute_names_of_lines lines.now) self.new) }
    {
        let mut rest = lines;
        while let Some((line, after)) = rest.split_first() {
            self.add_names_of_line(alloc, line)?;
            rest = after;
        }
        Ok(())
    }
}
