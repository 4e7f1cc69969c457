//! Nodes that stay where they lie.
ghost use Rattle.std.specs.Prelude.{◌≡◌, ◌||◌, ℕ, List, IfOk, OnOk};
ghost use Rattle.clean_plan.specs.Paths.{is_text_in_list};
ghost use Rattle.clean_plan.specs.Plans.{entries_of_report_entries};
ghost use Rattle.clean_plan.specs.Staying as words;

use crate::paths::Paths;
use crate::what::OtherNodes;
use dir_classify::{Entry, Kind};
use gitbase_core::OutOfMemory;
use std::alloc::Global;
use worktree_report::ReportEntry;

/// Whether a node is no file, link or directory.
fn is_untrackable_kind(kind: Option<Kind>) -> bool
    ensures { result ≡ words.is_untrackable_kind kind }
{
    match kind {
        Some(Kind::Untrackable) => true,
        None | Some(Kind::File | Kind::Symlink | Kind::Directory | Kind::Repository) => false,
    }
}

/// Whether a node of this kind stays, unless a directory above it goes as a whole.
fn keeps_untrackable_kind(others: OtherNodes, kind: Option<Kind>) -> bool
    ensures { result ≡ words.keeps_untrackable_kind others kind }
{
    match others {
        OtherNodes::Go => false,
        OtherNodes::Stay => is_untrackable_kind(kind),
    }
}

/// Puts the path of an entry among those at which a node stays, if it is such a one.
fn add_path_if_kept_untrackable<'a>(
    others: OtherNodes,
    entry: &'a Entry,
    staying: &mut Paths<'a>,
) -> Result<(), OutOfMemory>
    ensures { (path : List ℕ) → OnOk result (is_text_in_list path staying.new
        ≡ (words.is_kept_untrackable_at_path others path entry.now || is_text_in_list path
        staying.old)) }
{
    if keeps_untrackable_kind(others, entry.disk_kind) {
        staying.add(entry.rela_path.as_bytes())?;
    }
    Ok(())
}

/// The paths at which a node stays, unless a directory above it goes as a whole.
pub(crate) fn paths_of_kept_untrackables<'a>(
    alloc: Global,
    others: OtherNodes,
    entries: &'a [ReportEntry],
) -> Result<Paths<'a>, OutOfMemory>
    ensures { IfOk result (words.ArePathsOfKeptUntrackables others (entries_of_report_entries
        entries.now)) }
{
    let mut staying = Paths::new(alloc);
    for entry in entries {
        add_path_if_kept_untrackable(others, &entry.entry, &mut staying)?;
    }
    Ok(staying)
}
