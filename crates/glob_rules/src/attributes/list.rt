//! What one file says of attributes.
ghost use Rattle.std.specs.Prelude.{◌≡◌, IfOk, option_copied};
ghost use Rattle.glob_rules.specs.AttributeValues.{macro_body_in_list};
ghost use Rattle.glob_rules.specs.Attributes as lists;

use super::line::{Head, Line};
use super::word::Assignments;
use crate::Pattern;
use gitbase_core::{Bytes, OutOfMemory, PathText};
use std::alloc::Global;
use std::collections::BTreeMap;
use std::marker::Model;

/// A line that speaks of paths: its number, which paths, and what it says of them.
#[derive(Debug, Drop)]
pub struct PathLine {
    pub number: usize,
    pub pattern: Pattern,
    pub assignments: Assignments,
}

/// What one file says.
///
/// Contracts see a record: the lines that speak of paths, the macros in the order of their names,
/// where it was read, and the directory that it is for.
#[derive(Debug, Drop)]
pub struct List {
    lines: Vec<PathLine>,
    macros: BTreeMap<Bytes, Assignments>,
    source: PathText,
    base: PathText,
}

impl Model for List {
    ghost use Rattle.glob_rules.specs.Attributes.{AttributeList};

    ghost Value = { AttributeList };

    ghost view = { λ l. record {
      lines = l.lines.items;
      macros = l.macros.entries;
      source = l.source;
      base = l.base;
    } };
}

/// Equal lines, in the same order.
fn copy_path_lines(alloc: Global, lines: &[PathLine]) -> Result<Vec<PathLine>, OutOfMemory>
    ensures { IfOk result (λ copies. copies.items ≡ lines.now) }
{
    let mut copies = Vec::with_capacity(alloc, lines.len())?;
    for line in lines {
        copies.push(PathLine {
            number: line.number,
            pattern: line.pattern.copy(alloc)?,
            assignments: line.assignments.clone()?,
        })?;
    }
    Ok(copies)
}

impl List {
    /// The list of lines that were read at `source`, for the paths beneath the directory `base`.
    pub fn from_lines(
        alloc: Global,
        from: Vec<Line>,
        source: PathText,
        base: PathText,
    ) -> Result<List, OutOfMemory>
        ensures { IfOk result (λ list. list ≡ lists.attribute_list_from_lines from.items source
            base) }
    {
        let mut lines = Vec::new(alloc);
        let mut macros = BTreeMap::new(alloc);
        for line in from {
            let Line {
                number,
                head,
                assignments,
            } = line;
            match head {
                Head::Paths(pattern) => lines.push(PathLine {
                    number,
                    pattern,
                    assignments,
                })?,
                Head::Macro(name) => {
                    macros.insert(name, assignments)?;
                }
            }
        }
        Ok(List {
            lines,
            macros,
            source,
            base,
        })
    }

    /// An equal list; fails only where memory is refused.
    pub fn copy(&self, alloc: Global) -> Result<List, OutOfMemory>
        ensures { IfOk result (λ copy. copy ≡ self.now) }
    {
        Ok(List {
            lines: copy_path_lines(alloc, &self.lines)?,
            macros: self.macros.clone()?,
            source: PathText::from_bytes(alloc, self.source.as_bytes())?,
            base: PathText::from_bytes(alloc, self.base.as_bytes())?,
        })
    }
    /// What the macro of a name stands for, if it is defined here.
    pub fn assignments_of_macro(&self, name: &Bytes) -> Option<&Assignments>
        ensures { option_copied result ≡ macro_body_in_list name.now self.now.macros }
    {
        self.macros.get(name)
    }
    /// The lines that speak of paths.
    pub fn lines(&self) -> &[PathLine]
        ensures { result.now ≡ self.now.lines }
    {
        &self.lines
    }

    /// The directory that the list is for.
    pub fn base(&self) -> &[u8]
        ensures { result.now ≡ self.now.base }
    {
        self.base.as_bytes()
    }
}
