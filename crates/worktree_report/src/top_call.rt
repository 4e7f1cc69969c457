//! How a top call ends: with a text on the output, or with a line that says why there is none.
ghost use Rattle.std.specs.Prelude.{Ok};
ghost use Rattle.worktree_report.specs.Ends.{TopCallEnds};

use crate::refusal::{Refusal, report_constant_refusal, report_refusal};
use crate::write_whole::write_all_bytes;
use gitbase_core::Bytes;
use std::alloc::Global;
use worktree_fs::Sink;

/// Writes a text to `out`, and answers 0; or says to `err` in one line why there is none, or why it
/// was not written whole, and answers the status for it. `usage` is the line for words that ask for
/// nothing, its line feed included.
///
/// | status | where |
/// |---|---|
/// | 0 | the text was written whole |
/// | 7 | `out` refused bytes, and counted it; a front of the text was written; or this is the refusal that is handed in |
/// | 8 | want of memory, also of that for the line |
/// | another | that of the refusal, by [`Refusal`] |
///
/// A refusal of `err` changes no byte of `out`, and no status but to 8, as want of memory is free.
pub fn write_answer<S: Sink, E: Sink>(
    alloc: Global,
    usage: &[u8],
    answer: Result<Bytes, Refusal>,
    out: &mut S,
    err: &mut E,
) -> u8
    ensures { TopCallEnds S.Sink E.Sink out.old out.new err.old err.new usage.now answer result }
{
    match answer {
        Ok(text) => write_text_or_output_refusal(usage, text.as_bytes(), out, err),
        Err(refusal) => report_refusal(alloc, usage, &refusal, err),
    }
}

/// Writes a text, or says that it was refused.
fn write_text_or_output_refusal<S: Sink, E: Sink>(
    usage: &[u8],
    text: &[u8],
    out: &mut S,
    err: &mut E,
) -> u8
    ensures { TopCallEnds S.Sink E.Sink out.old out.new err.old err.new usage.now (Ok text.now)
        result }
{
    match write_all_bytes(out, text) {
        Ok(()) => 0,
        Err(_) => report_constant_refusal(usage, &Refusal::Output, err),
    }
}
