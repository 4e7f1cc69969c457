//! The report of a work tree.
ghost use Rattle.std.specs.Prelude.{◌≡◌, map, IfOk};
ghost use Rattle.worktree_report.specs.Submodules as submodules;

use crate::facts::{Facts, submodule_facts_if_known};
use crate::known::Known;
use dir_classify::{Entry, Status};
use dir_walk as walk;
use gitbase_core::{OutOfMemory, PathText};
use std::alloc::Global;
use std::marker::Model;

/// An entry of a report.
#[derive(Debug, Drop)]
pub struct ReportEntry {
    /// The path with its class.
    pub entry: Entry,
    /// The status of the directory that was folded over the path, where one was.
    pub collapsed: Option<Status>,
    /// The submodule at the path, where that is asked for and there is one.
    pub facts: Option<Facts>,
}

/// The entries of a report.
///
/// Contracts see their list.
#[derive(Debug, Drop)]
pub struct ReportEntries {
    items: Vec<ReportEntry>,
}

impl Model for ReportEntries {
    ghost use Rattle.std.specs.Prelude.{List};
    ghost use Rattle.worktree_report.specs.declared.report.ReportEntry as declared;

    ghost Value = { List declared.ReportEntry };

    ghost view = { λ entries. entries.items.items };
}

impl ReportEntries {
    /// The entries of the vector; takes no memory.
    pub fn from_vec(items: Vec<ReportEntry>) -> ReportEntries
        ensures { result ≡ items.items }
    {
        ReportEntries { items }
    }

    /// The entries.
    pub fn as_slice(&self) -> &[ReportEntry]
        ensures { result.now ≡ self.now }
    {
        &self.items
    }

    /// The entries as a vector; takes no memory.
    pub fn into_vec(self) -> Vec<ReportEntry>
        ensures { result.items ≡ self }
    {
        self.items
    }
}

/// The report of a work tree.
#[derive(Debug, Drop)]
pub struct Report {
    /// The entries that are not hidden, in ascending order of their paths, of which none stands
    /// twice.
    pub entries: ReportEntries,
    /// What the walk did, in numbers.
    pub outcome: walk::Outcome,
    /// The whole path of the traversal root.
    pub root: PathText,
}

/// An entry of a walk, with the submodule at its path.
fn report_entry_with_submodule(
    alloc: Global,
    known: &mut Option<Known>,
    emission: (Entry, Option<Status>),
) -> Result<ReportEntry, OutOfMemory>
    ensures entry { IfOk result (λ entry. entry ≡ submodules.report_entry_with_submodule known.old
        emission) }
    ensures same { known.new ≡ known.old }
{
    let (entry, collapsed) = emission;
    let facts = submodule_facts_if_known(alloc, known, entry.rela_path.as_bytes())?;
    Ok(ReportEntry {
        entry,
        collapsed,
        facts,
    })
}

/// Entries of a walk, each with the submodule at its path.
fn report_entries_with_submodules(
    alloc: Global,
    known: &mut Option<Known>,
    emissions: Vec<(Entry, Option<Status>)>,
) -> Result<Vec<ReportEntry>, OutOfMemory>
    ensures { IfOk result (λ entries. entries.items
        ≡ map (submodules.report_entry_with_submodule known.old) emissions.items) }
{
    let mut entries = Vec::with_capacity(alloc, emissions.len())?;
    for emission in emissions {
        let entry = report_entry_with_submodule(alloc, known, emission)?;
        entries.push(entry)?;
    }
    Ok(entries)
}

/// What a walk gave, with the submodules.
pub fn report_with_submodules(
    alloc: Global,
    known: &mut Option<Known>,
    walked: walk::Report,
) -> Result<Report, OutOfMemory>
    ensures { IfOk result (λ report. report ≡ submodules.report_with_submodules known.old walked) }
{
    let walk::Report {
        outcome,
        root,
        entries,
    } = walked;
    let entries = report_entries_with_submodules(alloc, known, entries.into_vec())?;
    Ok(Report {
        entries: ReportEntries::from_vec(entries),
        outcome,
        root,
    })
}
