//! The lines of changes.
ghost use Rattle.std.specs.Prelude.{◌≡◌, ◌++◌, OnOk};
ghost use Rattle.diff_files.specs.Lines as lines;

use crate::change::PathChange;
use crate::comparison::{Comparison, Form};
use crate::row::Row;
use git_paths::append_path_quoted_if_needed;
use gitbase_core::OutOfMemory;

/// Forty zeros, for an id that there is not.
const NO_ID: [u8; 40] = [b'0'; 40];

/// The last octal digit of a number.
fn last_octal_digit(number: u32) -> u8
    ensures { result ≡ lines.last_octal_digit number }
{
    b'0' + (number % 8) as u8
}

/// Adds a mode.
#[tactic(auto, unfolding(crate::specs::Lines::six_octal_digits))]
fn append_six_digit_mode(text: &mut Vec<u8>, mode: u32) -> Result<(), OutOfMemory>
    ensures { OnOk result (text.new.items ≡ text.old.items ++ lines.six_octal_digits mode) }
{
    text.push(last_octal_digit(mode / 32768))?;
    text.push(last_octal_digit(mode / 4096))?;
    text.push(last_octal_digit(mode / 512))?;
    text.push(last_octal_digit(mode / 64))?;
    text.push(last_octal_digit(mode / 8))?;
    text.push(last_octal_digit(mode))?;
    Ok(())
}

/// Adds the id of no object.
#[tactic(auto, unfolding(crate::specs::Lines::zero_id_text))]
fn append_zero_id(text: &mut Vec<u8>) -> Result<(), OutOfMemory>
    ensures { OnOk result (text.new.items ≡ text.old.items ++ lines.zero_id_text) }
{
    text.extend_from_slice(&NO_ID)?;
    Ok(())
}

/// The letter of a change.
fn status_letter_of_change(change: PathChange) -> u8
    ensures { result ≡ lines.status_letter_of_change change }
{
    match change {
        PathChange::Same => b'X',
        PathChange::Deleted => b'D',
        PathChange::Added { mode: _ } => b'A',
        PathChange::Modified { mode: _ } => b'M',
        PathChange::TypeChanged { mode: _ } => b'T',
        PathChange::Unmerged { mode: _ } => b'U',
    }
}

/// Whether there is nothing that changed.
fn is_added_or_unmerged(change: PathChange) -> bool
    ensures { result ≡ lines.is_added_or_unmerged change }
{
    match change {
        PathChange::Same => false,
        PathChange::Deleted => false,
        PathChange::Added { mode: _ } => true,
        PathChange::Modified { mode: _ } => false,
        PathChange::TypeChanged { mode: _ } => false,
        PathChange::Unmerged { mode: _ } => true,
    }
}

/// The mode of what is there now.
fn worktree_mode_of_change(change: PathChange) -> u32
    ensures { result ≡ lines.worktree_mode_of_change change }
{
    match change {
        PathChange::Same => 0,
        PathChange::Deleted => 0,
        PathChange::Added { mode } => mode,
        PathChange::Modified { mode } => mode,
        PathChange::TypeChanged { mode } => mode,
        PathChange::Unmerged { mode } => mode,
    }
}

/// The mode of what the index has.
fn index_mode_of_row(row: &Row<'_>) -> u32
    ensures { result ≡ lines.index_mode_of_row row.now }
{
    if is_added_or_unmerged(row.change()) {
        return 0;
    }
    row.entry().mode.bits()
}

/// Adds the id of what the index has.
fn append_index_id(text: &mut Vec<u8>, row: &Row<'_>) -> Result<(), OutOfMemory>
    ensures { OnOk result (text.new.items ≡ text.old.items ++ lines.index_id_text row.now) }
{
    if is_added_or_unmerged(row.change()) {
        return append_zero_id(text);
    }
    text.extend_from_slice(&row.entry().id.to_hex())?;
    Ok(())
}

/// Adds the modes.
#[tactic(auto, unfolding(crate::specs::Lines::both_modes_text))]
fn append_both_modes(text: &mut Vec<u8>, row: &Row<'_>) -> Result<(), OutOfMemory>
    ensures { OnOk result (text.new.items ≡ text.old.items ++ lines.both_modes_text row.now) }
{
    text.push(b':')?;
    append_six_digit_mode(text, index_mode_of_row(row))?;
    text.push(b' ')?;
    append_six_digit_mode(text, worktree_mode_of_change(row.change()))?;
    text.push(b' ')?;
    Ok(())
}

/// Adds the ids.
#[tactic(auto, unfolding(crate::specs::Lines::index_and_zero_ids_text))]
fn append_index_and_zero_ids(text: &mut Vec<u8>, row: &Row<'_>) -> Result<(), OutOfMemory>
    ensures { OnOk result (text.new.items ≡ text.old.items ++ lines.index_and_zero_ids_text
        row.now) }
{
    append_index_id(text, row)?;
    text.push(b' ')?;
    append_zero_id(text)?;
    text.push(b' ')?;
    Ok(())
}

/// Adds the modes and the ids.
fn append_modes_and_ids(text: &mut Vec<u8>, row: &Row<'_>) -> Result<(), OutOfMemory>
    ensures { OnOk result (text.new.items ≡ text.old.items ++ lines.modes_and_ids_text row.now) }
{
    append_both_modes(text, row)?;
    append_index_and_zero_ids(text, row)
}

/// What stands behind a letter.
fn separator_after_letter(comparison: &Comparison) -> u8
    ensures { result ≡ lines.separator_after_letter comparison.now }
{
    if comparison.ends_in_nul { 0 } else { b'\t' }
}

/// Adds the letter of a change.
fn append_letter_and_separator(
    text: &mut Vec<u8>,
    comparison: &Comparison,
    change: PathChange,
) -> Result<(), OutOfMemory>
    ensures { OnOk result (text.new.items
        ≡ text.old.items ++ lines.letter_and_separator comparison.now change) }
{
    text.push(status_letter_of_change(change))?;
    text.push(separator_after_letter(comparison))?;
    Ok(())
}

/// Adds what stands before a path.
fn append_fields_before_path(
    text: &mut Vec<u8>,
    comparison: &Comparison,
    row: &Row<'_>,
) -> Result<(), OutOfMemory>
    ensures { OnOk result (text.new.items
        ≡ text.old.items ++ lines.fields_before_path comparison.now.form comparison.now row.now) }
{
    match comparison.form {
        Form::Raw => {
            append_modes_and_ids(text, row)?;
            append_letter_and_separator(text, comparison, row.change())
        }
        Form::NameStatus => append_letter_and_separator(text, comparison, row.change()),
        Form::NameOnly => Ok(()),
    }
}

/// Adds a path, and what ends it.
fn append_path_and_terminator(
    text: &mut Vec<u8>,
    comparison: &Comparison,
    path: &[u8],
) -> Result<(), OutOfMemory>
    ensures { OnOk result (text.new.items
        ≡ text.old.items ++ lines.path_with_terminator comparison.now path.now) }
{
    if comparison.ends_in_nul {
        text.extend_from_slice(path)?;
        text.push(0)?;
        return Ok(());
    }
    append_path_quoted_if_needed(text, path, comparison.quote_path)?;
    text.push(b'\n')?;
    Ok(())
}

/// Adds the line of a change.
#[tactic(auto, unfolding(crate::specs::Lines::row_line))]
fn append_row_line(
    text: &mut Vec<u8>,
    comparison: &Comparison,
    row: &Row<'_>,
) -> Result<(), OutOfMemory>
    ensures { OnOk result (text.new.items
        ≡ text.old.items ++ lines.row_line comparison.now row.now) }
{
    append_fields_before_path(text, comparison, row)?;
    append_path_and_terminator(text, comparison, row.entry().path.as_bytes())
}

/// Adds the lines of changes, in their order.
pub fn append_row_lines(
    text: &mut Vec<u8>,
    comparison: &Comparison,
    rows: &[Row<'_>],
) -> Result<(), OutOfMemory>
    ensures { OnOk result (text.new.items
        ≡ text.old.items ++ lines.rows_text comparison.now rows.now) }
{
    for row in rows {
        append_row_line(text, comparison, row)?;
    }
    Ok(())
}
