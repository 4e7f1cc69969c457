//! What a command says.
ghost use Rattle.std.specs.Prelude.{◌≡◌};
ghost use Rattle.tizhagor.specs.Replies as words;

use crate::refusal::CommandRefusal;
use gitbase_core::Bytes;
use std::alloc::Global;
use worktree_report::Refusal;

/// What a command says.
#[derive(Debug, Drop)]
pub struct Reply {
    /// What goes to the output.
    pub out: Bytes,
    /// What is told on standard error behind it: lines, or no bytes.
    pub err: Bytes,
    /// Whether the answer is no, as where a path spec is about nothing.
    pub is_no: bool,
}

/// A text, or why there is none, as what a command says.
pub fn plain_reply_or_here_refusal(
    alloc: Global,
    answer: Result<Bytes, CommandRefusal>,
) -> Result<Reply, CommandRefusal>
    ensures { result ≡ words.plain_reply_or_here_refusal answer }
{
    match answer {
        Ok(text) => Ok(Reply {
            out: text,
            err: Bytes::new(alloc),
            is_no: false,
        }),
        Err(refusal) => Err(refusal),
    }
}

/// The text of a command that is no answer of no, or why there is none, as what a command says.
pub fn plain_reply_or_program_refusal(
    alloc: Global,
    answer: Result<Bytes, Refusal>,
) -> Result<Reply, Refusal>
    ensures { result ≡ words.plain_reply_or_program_refusal answer }
{
    match answer {
        Ok(text) => Ok(Reply {
            out: text,
            err: Bytes::new(alloc),
            is_no: false,
        }),
        Err(refusal) => Err(refusal),
    }
}

/// What one of git's own words says, or why it says nothing.
pub fn reply_result_with_here_refusal(
    answer: Result<Reply, Refusal>,
) -> Result<Reply, CommandRefusal>
    ensures { result ≡ words.reply_result_with_here_refusal answer }
{
    match answer {
        Ok(reply) => Ok(reply),
        Err(refusal) => Err(CommandRefusal::Program(refusal)),
    }
}

/// The status of an answer.
pub fn status_of_yes_or_no(is_no: bool) -> u8
    ensures { result ≡ words.status_of_yes_or_no is_no }
{
    if is_no { 1 } else { 0 }
}
