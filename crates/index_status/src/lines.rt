//! The lines of index paths and their states.
ghost use Rattle.std.specs.Prelude.{◌≡◌, ◌++◌, option_map, IfOk, OnOk};
ghost use Rattle.std.specs.List.{flat_map};
ghost use Rattle.index_status.specs.Lines.{word_of_path_state, line_unless_state_same, lines_of_states_not_same, states_and_report_text};

use crate::path_state::PathState;
use crate::report_beside::IndexStatus;
use gitbase_core::{Bytes, OutOfMemory, PathText};
use std::alloc::Global;
use worktree_report::{SetupOptions, append_path_escaped, report_bytes};

/// The word of a state; what is the same is not told.
fn word_of_path_state(state: PathState) -> Option<&'static [u8]>
    ensures { option_map (λ word. word.now) result ≡ word_of_path_state state }
{
    match state {
        PathState::Same => None,
        PathState::Modified => Some(b"modified"),
        PathState::Deleted => Some(b"deleted"),
        PathState::TypeChanged => Some(b"typechanged"),
        PathState::Conflicted => Some(b"conflicted"),
        PathState::Skipped => Some(b"skipped"),
        PathState::Unchecked => Some(b"unchecked"),
    }
}

/// Adds the line of a path and its state, if that is told.
#[tactic(auto, unfolding(crate::specs::Lines::line_unless_state_same))]
fn append_line_unless_state_same(
    text: &mut Vec<u8>,
    row: &(PathText, PathState),
) -> Result<(), OutOfMemory>
    ensures { OnOk result (text.new.items ≡ text.old.items ++ line_unless_state_same row.now) }
{
    let Some(word) = word_of_path_state(row.1) else {
        return Ok(());
    };
    text.extend_from_slice(word)?;
    text.push(b'\t')?;
    append_path_escaped(text, row.0.as_bytes())?;
    text.push(b'\n')?;
    Ok(())
}

/// Adds the lines of paths and their states, in their order.
fn append_lines_of_states_not_same(
    text: &mut Vec<u8>,
    rows: &[(PathText, PathState)],
) -> Result<(), OutOfMemory>
    ensures { OnOk result (text.new.items ≡ text.old.items ++ lines_of_states_not_same rows.now) }
{
    for row in rows {
        append_line_unless_state_same(text, row)?;
    }
    Ok(())
}

/// The text of a status: a line for each path whose state is told, and behind them the text of the
/// report.
pub fn encode_states_and_report_text(
    alloc: Global,
    status: &IndexStatus,
    options: &SetupOptions,
) -> Result<Bytes, OutOfMemory>
    ensures { IfOk result (λ text. text ≡ states_and_report_text options.now status.now) }
{
    let mut text = Vec::new(alloc);
    append_lines_of_states_not_same(&mut text, &status.paths)?;
    let report = report_bytes(alloc, &status.report, options)?;
    text.extend_from_slice(report.as_bytes())?;
    Ok(Bytes::from_vec(text))
}
