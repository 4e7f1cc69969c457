//! What changed in a work tree by the stat fields, in the words of `state`.
ghost use Rattle.std.specs.Prelude.{◌≡◌, ◌++◌, option_map, IfErr, IfOk, OnOk};
ghost use Rattle.tizhagor.specs.Compares.{FindsOverTreeAndStats};
ghost use Rattle.tizhagor.specs.Comparing as comparing;
ghost use Rattle.tizhagor.specs.Refusals.{MayComeBeforeSetupIsFound};
ghost use Rattle.tizhagor.specs.StateLines as states;

use crate::compare::comparison_of_request_and_settings;
use crate::refusal::CommandRefusal;
use crate::reply::Reply;
use crate::written::{Writing, text_formatted_for_output};
use command_line::{Comparing, Ignoring, default_diff_files_request};
use diff_files::{Comparison, DiffError, PathChange, Row, Stats, changed_rows};
use git_setup::Compared;
use gitbase_core::{Bytes, OutOfMemory};
use std::alloc::Global;
use worktree_fs::Worktree;
use worktree_report::append_path_escaped;

/// The word for how a path changed. The index has an empty file for one that is to be added later,
/// so what stands there is `modified`.
fn state_word_of_change(change: PathChange) -> Option<&'static [u8]>
    ensures { option_map (λ word. word.now) result ≡ states.state_word_of_change change }
{
    match change {
        PathChange::Same => None,
        PathChange::Deleted => Some(b"deleted"),
        PathChange::Added { mode: _ } => Some(b"modified"),
        PathChange::Modified { mode: _ } => Some(b"modified"),
        PathChange::TypeChanged { mode: _ } => Some(b"typechanged"),
        PathChange::Unmerged { mode: _ } => Some(b"conflicted"),
    }
}

/// The word for a path that is not merged: nothing else is told of it.
fn state_word_of_unmerged_change(change: PathChange) -> Option<&'static [u8]>
    ensures { option_map (λ word. word.now) result ≡ states.state_word_of_unmerged_change change }
{
    match change {
        PathChange::Same => None,
        PathChange::Deleted => None,
        PathChange::Added { mode: _ } => None,
        PathChange::Modified { mode: _ } => None,
        PathChange::TypeChanged { mode: _ } => None,
        PathChange::Unmerged { mode: _ } => Some(b"conflicted"),
    }
}

/// The word of a row, if it is told.
fn state_word_of_row(row: &Row<'_>) -> Option<&'static [u8]>
    ensures { option_map (λ word. word.now) result ≡ states.state_word_of_row row.now }
{
    if row.entry().stage == 0 {
        state_word_of_change(row.change())
    } else {
        state_word_of_unmerged_change(row.change())
    }
}

/// Adds the line of a row, if it is told.
#[tactic(auto, unfolding(crate::specs::StateLines::state_line_of_row))]
fn append_state_line_of_row(text: &mut Vec<u8>, row: &Row<'_>) -> Result<(), OutOfMemory>
    ensures { OnOk result (text.new.items ≡ text.old.items ++ states.state_line_of_row row.now) }
{
    let Some(word) = state_word_of_row(row) else {
        return Ok(());
    };
    text.extend_from_slice(word)?;
    text.push(b'\t')?;
    append_path_escaped(text, row.entry().path.as_bytes())?;
    text.push(b'\n')?;
    Ok(())
}

/// Adds the lines of rows, in their order.
fn append_state_lines_of_rows(text: &mut Vec<u8>, rows: &[Row<'_>]) -> Result<(), OutOfMemory>
    ensures { OnOk result (text.new.items ≡ text.old.items ++ states.state_lines_of_rows rows.now) }
{
    for row in rows {
        append_state_line_of_row(text, row)?;
    }
    Ok(())
}

/// The lines of rows.
fn state_lines_of_rows(alloc: Global, rows: &[Row<'_>]) -> Result<Bytes, OutOfMemory>
    ensures { IfOk result (λ text. text ≡ states.state_lines_of_rows rows.now) }
{
    let mut text = Vec::new(alloc);
    append_state_lines_of_rows(&mut text, rows)?;
    Ok(Bytes::from_vec(text))
}

/// How `state` compares: submodules are left out.
fn diff_options_without_submodules() -> Comparing
    ensures { result ≡ states.diff_options_without_submodules }
{
    let mut comparing = default_diff_files_request();
    comparing.ignoring = Ignoring::All;
    comparing
}

/// The lines of what changed in a work tree, as they are written.
fn make_state_lines_by_stat<W: Worktree, D: Stats>(
    alloc: Global,
    worktree: &mut W,
    stats: &mut D,
    compared: &Compared,
    comparison: &Comparison,
    writing: Writing,
) -> Result<Bytes, DiffError>
    ensures { states.MakesStateLinesByStat W.Worktree D.Stats worktree.old worktree.new stats.old
        stats.new compared.now.root compared.now.index compared.now.details comparison.now
        compared.now.specs writing result }
{
    let rows = changed_rows(
        alloc,
        worktree,
        stats,
        compared.root.as_bytes(),
        &compared.index,
        compared.details.as_slice(),
        comparison,
        &compared.specs,
    )?;
    let text = state_lines_of_rows(alloc, &rows)?;
    Ok(text_formatted_for_output(alloc, writing, text)?)
}

/// What is said of them.
fn reply_of_state_lines(
    alloc: Global,
    answer: Result<Bytes, DiffError>,
) -> Result<Reply, CommandRefusal>
    ensures { result ≡ comparing.reply_of_state_lines answer }
{
    match answer {
        Ok(text) => Ok(Reply {
            out: text,
            err: Bytes::new(alloc),
            is_no: false,
        }),
        Err(refused) => Err(CommandRefusal::from(refused)),
    }
}

/// What changed in a work tree by the stat fields, whose index was last written at a time, in the
/// words of `state`.
pub fn state_reply_by_stat<W: Worktree, D: Stats>(
    alloc: Global,
    worktree: &mut W,
    stats: &mut D,
    compared: &Compared,
    writing: Writing,
    index_time: u32,
) -> Result<Reply, CommandRefusal>
    ensures finds { FindsOverTreeAndStats W.Worktree D.Stats worktree.old worktree.new stats.old
        stats.new (λ t told. comparing.state_reply_by_stat t told writing compared.now index_time)
        result }
    ensures of { IfErr result MayComeBeforeSetupIsFound }
{
    let comparison = comparison_of_request_and_settings(
        &diff_options_without_submodules(),
        &compared.settings,
        index_time,
    );
    let answer = make_state_lines_by_stat(alloc, worktree, stats, compared, &comparison, writing);
    reply_of_state_lines(alloc, answer)
}
