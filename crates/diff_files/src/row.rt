//! The rows of changes.
ghost use Rattle.std.specs.Prelude.{◌≡◌, ◌++◌, OnOk};
ghost use Rattle.diff_files.specs.Rows as rows;

use crate::change::{PathChange, is_unchanged};
use crate::error::{DiffError, Unsupported, unanswered_form_of_entry};
use crate::parts::Parts;
use gitbase_core::{IndexEntry, OutOfMemory};
use std::alloc::Global;
use std::marker::Model;

/// An entry, and how its path changed.
///
/// Contracts see the two.
#[derive(Drop)]
pub struct Row<'a> {
    entry: &'a IndexEntry,
    change: PathChange,
}

impl<'a> Model for Row<'a> {
    ghost use Rattle.diff_files.specs.Rows as specs;

    ghost Value = { specs.ChangeRow };

    ghost view = { λ row. record { entry = row.entry.now; change = row.change } };
}

impl<'a> Row<'a> {
    /// The entry that the row is about.
    pub fn entry(&self) -> &'a IndexEntry
        ensures { result.now ≡ self.now.entry }
    {
        self.entry
    }

    /// How its path changed.
    pub fn change(&self) -> PathChange
        ensures { result ≡ self.now.change }
    {
        self.change
    }
}

/// Adds the row of a change; what did not change has none.
fn push_row_if_changed<'a>(
    list: &mut Vec<Row<'a>>,
    entry: &'a IndexEntry,
    change: PathChange,
) -> Result<(), OutOfMemory>
    ensures { OnOk result (list.new.items ≡ list.old.items ++ rows.row_unless_unchanged entry.now
        change) }
{
    if is_unchanged(change) {
        return Ok(());
    }
    list.push(Row { entry, change })?;
    Ok(())
}

/// Adds the rows of an entry, unless a form is not answered.
pub fn push_rows_of_parts<'a>(
    alloc: Global,
    list: &mut Vec<Row<'a>>,
    entry: &'a IndexEntry,
    parts: Result<Parts, Unsupported>,
) -> Result<(), DiffError>
    ensures { rows.AppendsRowsOfParts entry.now parts list.old.items list.new.items result }
{
    match parts {
        Ok(parts) => {
            push_row_if_changed(list, entry, parts.unmerged)?;
            push_row_if_changed(list, entry, parts.change)?;
            Ok(())
        }
        Err(form) => Err(DiffError::Unsupported(unanswered_form_of_entry(alloc, form, entry)?)),
    }
}
