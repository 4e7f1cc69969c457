//! How the paths of an index differ from a work tree.
ghost use Rattle.std.specs.Prelude.{◌≡◌, [], None, Ok, IsErrOf, IfOk, IfErr};
ghost use Rattle.worktree_fs.specs.Kept.{KeepsTreeAndListCounts};
ghost use Rattle.diff_files.specs.declared.error.DiffError.TheVariants.{Fault as fault};
ghost use Rattle.diff_files.specs.Differences as words;
ghost use Rattle.diff_files.specs.KeptStats.{KeepsToldStats, CountsFaultInEither, KeepsFaultCounts, TreeAndStats, Tells};
ghost use Rattle.diff_files.specs.Lines.{rows_text};
ghost use Rattle.diff_files.specs.Rows.{rows_of_remaining_entries};

use crate::comparison::Comparison;
use crate::error::{DiffError, Unsupported, unanswered_form_of_entry};
use crate::line::append_row_lines;
use crate::parts::{DetailedEntry, change_parts_of_entry};
use crate::row::{Row, push_rows_of_parts};
use crate::stats::Stats;
use crate::taken::{
    first_sparse_directory_entry, is_included_or_has_last_path, is_path_of_last_unmerged,
    path_if_unmerged,
};
use git_index::Detail;
use gitbase_core::{Bytes, IndexEntry, OutOfMemory, State};
use glob_rules::pathspec::Search;
use std::alloc::Global;
use worktree_fs::Worktree;

/// What `git diff-files` prints.
#[derive(Debug, Drop)]
pub struct Differences {
    pub out: Bytes,
}

/// The changes of entries, in their order.
fn rows_of_entries<'a, W: Worktree, S: Stats>(
    alloc: Global,
    worktree: &mut W,
    stats: &mut S,
    root: &[u8],
    entries: &'a [IndexEntry],
    details: &[Detail],
    comparison: &Comparison,
    specs: &Search,
) -> Result<Vec<Row<'a>>, DiffError>
    ensures gives { (o : TreeAndStats) → Tells (W.told worktree.old) (S.told stats.old) o
        → IfOk result (λ rows. rows_of_remaining_entries o root.now comparison.now specs.now [] None
        entries.now details.now ≡ Ok rows.items) }
    ensures refused { (o : TreeAndStats) → Tells (W.told worktree.old) (S.told stats.old) o
        → IfErr result (words.IsUnsupportedAsDefined (rows_of_remaining_entries o root.now
        comparison.now specs.now [] None entries.now details.now)) }
    ensures cause { IsErrOf result fault
        → CountsFaultInEither W.Worktree S.Stats worktree.old worktree.new stats.old stats.new }
    ensures unfaulted { words.HoldsUnlessFault result
        (KeepsFaultCounts W.Worktree S.Stats worktree.old worktree.new stats.old stats.new) }
    ensures worktree { KeepsTreeAndListCounts W.Worktree worktree.old worktree.new }
    ensures stats { KeepsToldStats S.Stats stats.old stats.new }
{
    let mut rows = Vec::new(alloc);
    let mut known = Bytes::new(alloc);
    let mut last = None;
    let mut left = details;
    for entry in entries {
        let Some((detail, rest)) = left.split_first() else {
            let refused = unanswered_form_of_entry(alloc, Unsupported::Details, entry)?;
            return Err(DiffError::Unsupported(refused));
        };
        left = rest;
        if is_included_or_has_last_path(specs, last, entry) {
            let first = !is_path_of_last_unmerged(last, entry);
            let entry_of_path = DetailedEntry { entry, detail };
            let parts = change_parts_of_entry(
                alloc,
                worktree,
                stats,
                root,
                comparison,
                &mut known,
                first,
                &entry_of_path,
            )?;
            push_rows_of_parts(alloc, &mut rows, entry, parts)?;
            last = path_if_unmerged(entry);
        }
    }
    Ok(rows)
}

/// The lines of changes.
fn text_of_rows(
    alloc: Global,
    comparison: &Comparison,
    rows: &[Row<'_>],
) -> Result<Bytes, OutOfMemory>
    ensures { IfOk result (λ text. text ≡ rows_text comparison.now rows.now) }
{
    let mut text = Vec::new(alloc);
    append_row_lines(&mut text, comparison, rows)?;
    Ok(Bytes::from_vec(text))
}

/// How each path of an index changed in the work tree at `root`, by what is told of the node there,
/// in the order of the index: what [`diff_files`] prints, row by row. Bytes are compared alone
/// where a file may have changed unseen, since the index was not written later than it; so a file
/// that was touched is told as changed.
///
/// `index` and `details` are what the file of the index says, in its order. The path specs are from
/// the top; without one, each path is taken. A path that is not merged has a row that says so, and
/// one more for its second stage if that differs.
///
/// # Errors
///
/// - `Unsupported`: git answers the form, and here it is not answered; of several the first, in the
///   order of the index, with the path of its entry.
/// - `Fault`: the worktree failed, or what is asked for stats did, and counted it.
/// - `OutOfMemory`: memory was refused.
///
/// See docs/DECISIONS.md#stats-beside-worktree.
/// See docs/DECISIONS.md#stats-not-hashed.
/// See docs/DIFFERENCES.md#diff-sparse-index.
pub fn changed_rows<'a, W: Worktree, S: Stats>(
    alloc: Global,
    worktree: &mut W,
    stats: &mut S,
    root: &[u8],
    index: &'a State,
    details: &[Detail],
    comparison: &Comparison,
    specs: &Search,
) -> Result<Vec<Row<'a>>, DiffError>
    ensures gives { (o : TreeAndStats) → Tells (W.told worktree.old) (S.told stats.old) o
        → IfOk result (λ rows. words.rows_of_index_changes o root.now index.now details.now
        comparison.now specs.now ≡ Ok rows.items) }
    ensures refused { (o : TreeAndStats) → Tells (W.told worktree.old) (S.told stats.old) o
        → IfErr result (words.IsUnsupportedAsDefined (words.rows_of_index_changes o root.now
        index.now details.now comparison.now specs.now)) }
    ensures cause { IsErrOf result fault
        → CountsFaultInEither W.Worktree S.Stats worktree.old worktree.new stats.old stats.new }
    ensures unfaulted { words.HoldsUnlessFault result
        (KeepsFaultCounts W.Worktree S.Stats worktree.old worktree.new stats.old stats.new) }
    ensures worktree { KeepsTreeAndListCounts W.Worktree worktree.old worktree.new }
    ensures stats { KeepsToldStats S.Stats stats.old stats.new }
{
    let entries = index.entries();
    if let Some(entry) = first_sparse_directory_entry(entries) {
        let refused = unanswered_form_of_entry(alloc, Unsupported::SparseIndex, entry)?;
        return Err(DiffError::Unsupported(refused));
    }
    rows_of_entries(
        alloc, worktree, stats, root, entries, details, comparison, specs,
    )
}

/// What `git diff-files` prints of the work tree at `root`, whatever the directory in which it is
/// called: the lines of [`changed_rows`].
///
/// # Errors
///
/// As [`changed_rows`] has them.
pub fn diff_files<W: Worktree, S: Stats>(
    alloc: Global,
    worktree: &mut W,
    stats: &mut S,
    root: &[u8],
    index: &State,
    details: &[Detail],
    comparison: &Comparison,
    specs: &Search,
) -> Result<Differences, DiffError>
    ensures { words.FindsDifferences W.Worktree S.Stats worktree.old worktree.new stats.old
        stats.new root.now index.now details.now comparison.now specs.now result }
{
    let rows = changed_rows(
        alloc, worktree, stats, root, index, details, comparison, specs,
    )?;
    let out = text_of_rows(alloc, comparison, &rows)?;
    Ok(Differences { out })
}
