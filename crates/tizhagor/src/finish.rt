//! How the program ends: with a reply, or with a line that says why there is none.
ghost use Rattle.std.specs.Prelude.{◌≡◌, ◌≤◌, ℕ, List, Ok};
ghost use Rattle.tizhagor.specs.Ends.{EndsWithStatusAndStreams, SaysLinesOrNothing, SaysRefusalOrMemoryLine};

use crate::lines::here::{line_of_refusal_with_fault_path, status_of};
use crate::lines::{MEMORY, OUTPUT};
use crate::refusal::CommandRefusal;
use crate::reply::{Reply, status_of_yes_or_no};
use gitbase_core::OutOfMemory;
use std::alloc::Global;
use worktree_fs::{Fault, Sink};
use worktree_report::{write_answer, write_line_ignoring_refusal};

/// A sink that takes all and keeps nothing.
#[derive(Drop)]
struct Unheard;

impl Sink for Unheard {
    ghost use Rattle.std.specs.Prelude.{None};

    ghost written = { λ _. None };

    ghost refusals = { λ _. 0 };

    fn write(&mut self, bytes: &[u8]) -> Result<usize, Fault> {
        Ok(bytes.len())
    }
}

/// Says some lines, if there are any.
fn say_lines_if_any<E: Sink>(err: &mut E, lines: &[u8])
    ensures said { SaysLinesOrNothing E.Sink err.old err.new lines.now }
    ensures later { E.refusals err.old ≤ E.refusals err.new }
{
    match lines {
        [] => {}
        _ => write_line_ignoring_refusal(err, lines),
    }
}

/// Writes a reply, or says that it was refused.
/// See docs/DECISIONS.md#unheard-line.
fn write_reply_to_streams<S: Sink, E: Sink>(
    alloc: Global,
    reply: Reply,
    out: &mut S,
    err: &mut E,
) -> u8
    ensures { (first : List ℕ) → EndsWithStatusAndStreams S.Sink E.Sink out.old out.new err.old
        err.new first (Ok reply) result }
{
    let Reply {
        out: text,
        err: lines,
        is_no,
    } = reply;
    if write_answer(alloc, b"", Ok(text), out, &mut Unheard) == 0 {
        say_lines_if_any(err, lines.as_bytes());
        return status_of_yes_or_no(is_no);
    }
    write_line_ignoring_refusal(err, OUTPUT);
    128
}

/// Says why there is no text, and answers the status.
fn say_refusal_line<E: Sink>(
    alloc: Global,
    first: &[u8],
    refusal: &CommandRefusal,
    err: &mut E,
) -> u8
    ensures told { SaysRefusalOrMemoryLine E.Sink err.old err.new first.now refusal.now result }
    ensures later { E.refusals err.old ≤ E.refusals err.new }
{
    match line_of_refusal_with_fault_path(alloc, first, refusal) {
        Ok(line) => {
            write_line_ignoring_refusal(err, line.as_bytes());
            status_of(refusal)
        }
        Err(OutOfMemory) => {
            write_line_ignoring_refusal(err, MEMORY);
            128
        }
    }
}

/// Writes a reply: its bytes to `out`, and then its lines to `err`, and answers its status, 0 or 1;
/// or says to `err` in one line why there is none, or that it was not written whole, and answers
/// the status for it. The line of a fault names `first`, the path of the worktree's first fault,
/// where that has bytes. A refusal of `err` changes no byte of `out`, and no status but to 128, as
/// want of memory is free.
pub fn finish_with_answer<S: Sink, E: Sink>(
    alloc: Global,
    answer: Result<Reply, CommandRefusal>,
    first: &[u8],
    out: &mut S,
    err: &mut E,
) -> u8
    ensures { EndsWithStatusAndStreams S.Sink E.Sink out.old out.new err.old err.new first.now
        answer result }
{
    match answer {
        Ok(reply) => write_reply_to_streams(alloc, reply, out, err),
        Err(refusal) => say_refusal_line(alloc, first, &refusal, err),
    }
}
