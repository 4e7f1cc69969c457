//! The top call.
ghost use Rattle.std.specs.Prelude.{◌≡◌, ◌⊎◌, ◌↔◌, ℕ, List, Some, None};
ghost use Rattle.worktree_fs.specs.Tree.{Names};
ghost use Rattle.worktree_fs.specs.Causes.{CountNotIncreased};
ghost use Rattle.worktree_report.specs.Words.{parse_command_words};
ghost use Rattle.worktree_report.specs.Written.{AppendsWholeBytes};
ghost use Rattle.worktree_report.specs.Ends.{TopCallAnswersAndEnds};
ghost use Rattle.worktree_report.specs.Run.{usage, text_of_command_words, AreWordsValidInTree, AnswersParsedCommand, AnswersReportCommand};
ghost use Rattle.worktree_report.specs.Named.{places_of_borrowed};

use crate::generate::text_of_generated_report;
use crate::refusal::Refusal;
use crate::setup_file::read_setup;
use crate::top_call::write_answer;
use crate::walk_by_setup::report_text_or_refusal;
use crate::words::{Command, Places, parse_command_words};
use gitbase_core::Bytes;
use std::alloc::Global;
use worktree_fs::{Interrupt, Sink, Worktree};

/// The line for words that ask for nothing.
const USAGE: &[u8] = b"usage: report ROOT SETUP or generate N\n";

/// The text of the report of a work tree by a setup, or why there is none.
fn text_of_report_command<W: Worktree, I: Interrupt>(
    alloc: Global,
    places: Places<'_>,
    worktree: &mut W,
    interrupt: &mut I,
) -> Result<Bytes, Refusal>
    ensures { AnswersReportCommand W.Worktree I.Interrupt worktree.old worktree.new interrupt.old
        interrupt.new (places_of_borrowed places.entry) result }
{
    let setup = read_setup(alloc, worktree, places.setup)?;
    report_text_or_refusal(alloc, worktree, interrupt, places.root, setup)
}

/// The text that the words ask for, or why there is none.
fn text_of_command_words<W: Worktree, I: Interrupt>(
    alloc: Global,
    words: &[Bytes],
    worktree: &mut W,
    interrupt: &mut I,
) -> Result<Bytes, Refusal>
    ensures { AnswersParsedCommand W.Worktree I.Interrupt worktree.old worktree.new interrupt.old
        interrupt.new (parse_command_words (W.precomposes worktree.old) words.now) result }
{
    let Some(command) = parse_command_words(worktree.precomposes(), words) else {
        return Err(Refusal::Usage);
    };
    match command {
        Command::Report(places) => text_of_report_command(alloc, places, worktree, interrupt),
        Command::Generate { count } => text_of_generated_report(alloc, count, interrupt),
    }
}

/// Answers the words of a command line: writes what they ask for to `out`, or says to `err` in one
/// line why there is nothing of that, and answers the status that the program is to end with.
///
/// `report ROOT SETUP` asks for the report of the work tree at ROOT by the setup text at SETUP; the
/// word `composed` stands before it exactly where the worktree composes names. `generate N` asks
/// how much there is to report of a tree of N files in memory, and nothing of the worktree.
///
/// | status | where |
/// |---|---|
/// | 0 | what is asked for was written whole |
/// | 1 | the interrupt was raised, and counted it |
/// | 2 | the words are none of these, with absolute paths without `.`, `..` and NUL, or with N from 1 to 100000 in decimal |
/// | 3 | the setup is not read as a file, or has a line outside its grammar |
/// | 4 | the walk was refused |
/// | 5 | a configuration, `.gitmodules` or a value of `submodule.active` is outside its grammar |
/// | 6 | the worktree failed, and counted it |
/// | 7 | `out` refused bytes, and counted it |
/// | 8 | want of memory |
///
/// With a status other than 0 and 7 nothing goes to `out`. With each status other than 0 one line
/// goes to `err`, with 0 none; a refusal of `err` changes no byte of `out`, and no status but to 8.
/// The interrupt is asked before each directory is read.
pub fn run<W: Worktree, I: Interrupt, S: Sink, E: Sink>(
    alloc: Global,
    words: &[Bytes],
    worktree: &mut W,
    interrupt: &mut I,
    out: &mut S,
    err: &mut E,
) -> u8
    // What the words ask for came to an answer: a text, or a refusal with its cause. The status,
    // `out` and `err` are as that answer has it, and what stays is said of each.
    ensures runs { TopCallAnswersAndEnds S.Sink E.Sink out.old out.new err.old err.new usage
        (AnswersParsedCommand W.Worktree I.Interrupt worktree.old worktree.new interrupt.old
        interrupt.new (parse_command_words (W.precomposes worktree.old) words.now)) result }

    // Status 0, over a told tree and with no fault counted: what `out` has is what it had, and the
    // lines of the report.
    ensures report { (t : Names) → W.told worktree.old ≡ Some t → CountNotIncreased
        (W.faults worktree.old) (W.faults worktree.new) → result ≡ 0 → (text : List ℕ)
        × (text_of_command_words (W.precomposes worktree.old) t words.now ≡ Some text)
        × AppendsWholeBytes (S.written out.old) (S.written out.new) text }

    // Status 2 exactly where the words ask for nothing.
    ensures usage { (result ≡ 2) ↔ (parse_command_words (W.precomposes worktree.old) words.now
        ≡ None) }

    // Valid input, over a told tree and with nothing counted.
    ensures complete { (t : Names) → W.told worktree.old ≡ Some t → AreWordsValidInTree
        (W.precomposes worktree.old) t words.now → CountNotIncreased (W.faults worktree.old)
        (W.faults worktree.new) → CountNotIncreased (I.raised interrupt.old)
        (I.raised interrupt.new) → CountNotIncreased (S.refusals out.old) (S.refusals out.new)
        → (result ≡ 0) ⊎ (result ≡ 8) }
{
    let answer = text_of_command_words(alloc, words, worktree, interrupt);
    write_answer(alloc, USAGE, answer, out, err)
}
