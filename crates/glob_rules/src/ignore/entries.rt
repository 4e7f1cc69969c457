//! The rules of a list in their order, and the last of them that matches a path.
ghost use Rattle.std.specs.Prelude.{◌≡◌, [], IfOk, IfSome, option_copied};
ghost use Rattle.glob_rules.specs.Ignore as rules;
ghost use Rattle.glob_rules.specs.Ignore.{last_matching_entry};
ghost use Rattle.glob_rules.specs.Tables.{IsTableOfRules};
ghost use Rattle.glob_rules.specs.declared.Case.TheVariants.{Sensitive};

use super::ParseIgnore;
use super::line::{Entry, read_ignore_rules};
use super::table::Table;
use crate::Case;
use gitbase_core::OutOfMemory;
use std::alloc::Global;
use std::marker::Model;

/// From how many rules on there are tables of them.
const LONG: usize = 64;

/// The rules of a list, in the order of their lines.
///
/// Contracts see the list of the rules. `LONG` rules or more have tables beside them, by which the
/// last that matches a path is found where case counts; without regard to case each rule is tried.
#[derive(Debug, Drop)]
pub struct Entries {
    items: Vec<Entry>,
    table: Option<Table>,
}

impl Model for Entries {
    ghost use Rattle.std.specs.Prelude.{List, IfSome};
    ghost use Rattle.glob_rules.specs.declared.ignore.line.Entry.{Entry};
    ghost use Rattle.glob_rules.specs.declared.ignore.table.Table.{Table};
    ghost use Rattle.glob_rules.specs.Tables.{IsTableOfRules};

    ghost Value = { List Entry };

    ghost view = { λ e. e.items.items };

    ghost invariant = { λ e. IfSome e.table
        (λ (table : Table). IsTableOfRules e.items.items table.sorted.items table.rest.items) };
}

/// The last rule that matches a path in its parts.
fn last_matching_entry_by_trial<'a>(
    entries: &'a [Entry],
    name: &[u8],
    relative: Option<&[u8]>,
    is_dir: Option<bool>,
    case: Case,
) -> Option<&'a Entry>
    ensures { option_copied result
        ≡ last_matching_entry entries.now name.now (option_copied relative.entry) is_dir case }
{
    let mut at = entries.len();
    while at > 0 {
        at -= 1;
        let entry = &entries[at];
        if entry
            .pattern
            .matches_name_or_relative_path(name, relative, is_dir, case)
        {
            return Some(entry);
        }
    }
    None
}

/// Equal rules, in the same order.
fn copy_entries(alloc: Global, entries: &[Entry]) -> Result<Vec<Entry>, OutOfMemory>
    ensures { IfOk result (λ copies. copies.items ≡ entries.now) }
{
    let mut copies = Vec::with_capacity(alloc, entries.len())?;
    for entry in entries {
        copies.push(entry.copy(alloc)?)?;
    }
    Ok(copies)
}

/// The tables of rules, where there are so many.
fn table_if_list_is_long(alloc: Global, entries: &[Entry]) -> Result<Option<Table>, OutOfMemory>
    ensures { IfOk result (λ made. IfSome made
        (λ table. IsTableOfRules entries.now table.sorted.items table.rest.items)) }
{
    if entries.len() < LONG {
        return Ok(None);
    }
    let table = Table::new(alloc, entries)?;
    Ok(Some(table))
}

/// Equal tables.
fn copy_optional_table(
    alloc: Global,
    table: &Option<Table>,
    _entries: &[Entry],
) -> Result<Option<Table>, OutOfMemory>
    requires { IfSome table.now
        (λ table. IsTableOfRules _entries.now table.sorted.items table.rest.items) }
    ensures { IfOk result (λ made. IfSome made
        (λ table. IsTableOfRules _entries.now table.sorted.items table.rest.items)) }
{
    let Some(table) = table else {
        return Ok(None);
    };
    let copy = table.copy(alloc)?;
    Ok(Some(copy))
}

impl Entries {
    /// No rules; takes no memory.
    pub fn new(alloc: Global) -> Entries
        ensures { result ≡ [] }
    {
        Entries {
            items: Vec::new(alloc),
            table: None,
        }
    }

    /// The rules in the bytes of an ignore file; fails only where memory is refused, or the bytes
    /// have more than 4,294,967,295 lines.
    pub fn from_bytes(
        alloc: Global,
        bytes: &[u8],
        parse: ParseIgnore,
    ) -> Result<Entries, OutOfMemory>
        ensures { IfOk result (λ made. made ≡ rules.entries parse.support_precious bytes.now) }
    {
        let items = read_ignore_rules(alloc, bytes, parse)?;
        let table = table_if_list_is_long(alloc, &items)?;
        Ok(Entries { items, table })
    }

    /// Equal rules; fails only where memory is refused.
    pub fn copy(&self, alloc: Global) -> Result<Entries, OutOfMemory>
        ensures { IfOk result (λ copy. copy ≡ self.now) }
    {
        let items = copy_entries(alloc, &self.items)?;
        let table = copy_optional_table(alloc, &self.table, &items)?;
        Ok(Entries { items, table })
    }

    /// The last rule that matches a path in its parts.
    pub fn last_matching_entry(
        &self,
        name: &[u8],
        relative: Option<&[u8]>,
        is_dir: Option<bool>,
        case: Case,
    ) -> Option<&Entry>
        ensures { option_copied result
            ≡ last_matching_entry self.now name.now (option_copied relative.entry) is_dir case }
    {
        match case {
            Case::Sensitive => self.last_matching_entry_case_sensitive(name, relative, is_dir),
            Case::Fold => last_matching_entry_by_trial(
                &self.items,
                name,
                relative,
                is_dir,
                Case::Fold,
            ),
        }
    }

    /// The same where case counts.
    fn last_matching_entry_case_sensitive(
        &self,
        name: &[u8],
        relative: Option<&[u8]>,
        is_dir: Option<bool>,
    ) -> Option<&Entry>
        ensures { option_copied result ≡ last_matching_entry self.now name.now
            (option_copied relative.entry) is_dir Sensitive }
    {
        match &self.table {
            Some(table) => table.last_matching_entry(&self.items, name, relative, is_dir),
            None => last_matching_entry_by_trial(
                &self.items,
                name,
                relative,
                is_dir,
                Case::Sensitive,
            ),
        }
    }
}
