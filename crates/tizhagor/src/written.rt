//! How the text of a call is written.
ghost use Rattle.std.specs.Prelude.{◌≡◌, IfOk};
ghost use Rattle.tizhagor.specs.Writing as words;
ghost use Rattle.tizhagor.specs.Written.{IsFormattedOrOutOfMemory};

use crate::refusal::CommandRefusal;
use command_line::{LineEnd, Style, plan_text_with_line_ends, restyle_report_text};
use gitbase_core::{Bytes, OutOfMemory};
use std::alloc::Global;

/// How the text of a call is written.
#[derive(Clone, Copy, Debug, PartialEq, Eq)]
pub enum Writing {
    /// As lines of a report, in this style.
    Lines(Style),
    /// As paths, with these ends of lines.
    Paths(LineEnd),
    /// As it is.
    AsItIs,
}

/// The bytes that are written for a text.
pub fn text_formatted_for_output(
    alloc: Global,
    writing: Writing,
    text: Bytes,
) -> Result<Bytes, OutOfMemory>
    ensures { IfOk result (λ bytes. bytes ≡ words.text_formatted_for_output writing text) }
{
    match writing {
        Writing::Lines(style) => restyle_report_text(alloc, style, text.as_bytes()),
        Writing::Paths(end) => plan_text_with_line_ends(alloc, end, text.as_bytes()),
        Writing::AsItIs => Ok(text),
    }
}

/// An answer with its text as it is written.
pub fn format_text_of_answer(
    alloc: Global,
    writing: Writing,
    answer: Result<Bytes, CommandRefusal>,
) -> Result<Bytes, CommandRefusal>
    ensures { IsFormattedOrOutOfMemory writing answer result }
{
    let text = answer?;
    Ok(text_formatted_for_output(alloc, writing, text)?)
}
