//! The top call.
ghost use Rattle.std.specs.Prelude.{◌≡◌, ◌⊎◌, ◌↔◌, ℕ, List, Some, None, IfOk};
ghost use Rattle.worktree_fs.specs.Causes.{CountNotIncreased};
ghost use Rattle.worktree_fs.specs.Tree.{Names};
ghost use Rattle.worktree_report.specs.Ends.{TopCallAnswersAndEnds};
ghost use Rattle.worktree_report.specs.Named.{places_of_borrowed};
ghost use Rattle.worktree_report.specs.Written.{AppendsWholeBytes};
ghost use Rattle.index_status.specs.Run as top;

use crate::error::StatusError;
use crate::lines::encode_states_and_report_text;
use crate::report_beside::status;
use gitbase_core::{Bytes, Find, OutOfMemory};
use std::alloc::Global;
use worktree_fs::{Interrupt, Sink};
use worktree_report::{
    CountsFaults, Places, Refusal, Setup, has_failed_since, parse_places_of_command, read_setup,
    refusal_of_report_error, write_answer,
};

/// The line for words that ask for nothing.
const USAGE: &[u8] = b"usage: status ROOT SETUP\n";

/// Why there is no text, where there is no status.
fn refusal_of_status_error(alloc: Global, error: StatusError) -> Result<Refusal, OutOfMemory>
    ensures { IfOk result (λ refusal. refusal ≡ top.refusal_of_status_error error) }
{
    match error {
        StatusError::Report(error) => refusal_of_report_error(alloc, error),
        StatusError::Fault { path: _ } => Ok(Refusal::Fault),
        StatusError::OutOfMemory => Ok(Refusal::OutOfMemory),
    }
}

/// The lines of the states and of the report of the work tree at `root`. Blobs that ignore rules
/// are mapped to are those of the setup. The report is made first.
///
/// # Errors
///
/// - `Misread` names what tells of submodules and is outside its grammar; it comes before the walk.
/// - `Walk` has the cause that the walk names.
/// - `Fault`: the worktree failed, and counted it, also where the walk goes on with such a fault;
///   or its count stands at its last value.
/// - `Interrupted`: the interrupt was raised, and counted it.
/// - `OutOfMemory`: memory was refused.
pub fn make_status_as_text<W: CountsFaults, I: Interrupt>(
    alloc: Global,
    worktree: &mut W,
    interrupt: &mut I,
    root: &[u8],
    setup: &Setup,
) -> Result<Bytes, Refusal>
    ensures { top.AnswersStatusTextOrRefusal W.Worktree I.Interrupt (W.precomposes worktree.old)
        worktree.old worktree.new interrupt.old interrupt.new root.now setup.now result }
{
    let before = worktree.fault_count();
    let mut objects = setup.blobs.fork(alloc)?;
    match status(alloc, worktree, &mut objects, interrupt, root, setup) {
        Ok(status) => {
            if has_failed_since(worktree, before) {
                return Err(Refusal::Fault);
            }
            Ok(encode_states_and_report_text(alloc, &status, &setup.options)?)
        }
        Err(error) => Err(refusal_of_status_error(alloc, error)?),
    }
}

/// The text at some places, or why there is none.
fn read_setup_and_make_status_text<W: CountsFaults, I: Interrupt>(
    alloc: Global,
    places: Places<'_>,
    worktree: &mut W,
    interrupt: &mut I,
) -> Result<Bytes, Refusal>
    ensures { top.AnswersStatusAtPlaces W.Worktree I.Interrupt worktree.old worktree.new
        interrupt.old interrupt.new (places_of_borrowed places.entry) result }
{
    let setup = read_setup(alloc, worktree, places.setup)?;
    make_status_as_text(alloc, worktree, interrupt, places.root, &setup)
}

/// The text that the words ask for, or why there is none.
fn status_text_for_words<W: CountsFaults, I: Interrupt>(
    alloc: Global,
    words: &[Bytes],
    worktree: &mut W,
    interrupt: &mut I,
) -> Result<Bytes, Refusal>
    ensures { top.AnswersOptionalStatusRequest W.Worktree I.Interrupt worktree.old worktree.new
        interrupt.old interrupt.new (top.root_and_setup_of_status_words (W.precomposes worktree.old)
        words.now) result }
{
    match parse_places_of_command(b"status", worktree.precomposes(), words) {
        Some(places) => read_setup_and_make_status_text(alloc, places, worktree, interrupt),
        None => Err(Refusal::Usage),
    }
}

/// Answers the words of a command line: writes to `out` what became of the index paths of a work
/// tree, and its report, or says to `err` in one line why there is nothing of that, and answers the
/// status that the program is to end with.
///
/// `status ROOT SETUP` asks for that of the work tree at ROOT by the setup text at SETUP; the word
/// `composed` stands before it exactly where the worktree composes names. The report is made first.
///
/// | status | where |
/// |---|---|
/// | 0 | what is asked for was written whole |
/// | 1 | the interrupt was raised, and counted it |
/// | 2 | the words are none of these, with absolute paths without `.`, `..` and NUL |
/// | 3 | the setup is not read as a file, or has a line outside its grammar |
/// | 4 | the walk was refused |
/// | 5 | a configuration, `.gitmodules` or a value of `submodule.active` is outside its grammar |
/// | 6 | the worktree failed, and counted it, also where the walk goes on with such a fault; or its count stands at its last value |
/// | 7 | `out` refused bytes, and counted it |
/// | 8 | want of memory |
///
/// With a status other than 0 and 7 nothing goes to `out`. With each status other than 0 one line
/// goes to `err`, with 0 none; a refusal of `err` changes no byte of `out`, and no status but to 8.
/// The interrupt is asked before each directory is read.
pub fn run_status<W: CountsFaults, I: Interrupt, S: Sink, E: Sink>(
    alloc: Global,
    words: &[Bytes],
    worktree: &mut W,
    interrupt: &mut I,
    out: &mut S,
    err: &mut E,
) -> u8
    // What the words ask for came to an answer: a text, or a refusal with its cause. The status, `out` and `err` are as that answer
    // has it, and what stays is said of each.
    ensures runs { TopCallAnswersAndEnds S.Sink E.Sink out.old out.new err.old err.new top.usage
        (top.AnswersOptionalStatusRequest W.Worktree I.Interrupt worktree.old worktree.new
        interrupt.old interrupt.new (top.root_and_setup_of_status_words (W.precomposes worktree.old)
        words.now)) result }

    // Status 0: no fault was counted, and the count does not stand at its last value.
    ensures unfaulted { result ≡ 0 → (W.faults worktree.new ≡ W.faults worktree.old)
        × CountNotIncreased (W.faults worktree.old) (W.faults worktree.new) }

    // Status 0, over a told tree: what `out` has is what it had, and the lines of the states and the report.
    ensures status { (t : Names) → W.told worktree.old ≡ Some t → result ≡ 0 → (text : List ℕ)
        × (top.status_text_of_words (W.precomposes worktree.old) t words.now ≡ Some text)
        × AppendsWholeBytes (S.written out.old) (S.written out.new) text }

    // Status 2 exactly where the words ask for nothing.
    ensures usage { (result ≡ 2) ↔ (top.root_and_setup_of_status_words (W.precomposes worktree.old)
        words.now ≡ None) }

    // Valid input, over a told tree and with nothing counted.
    ensures complete { (t : Names) → W.told worktree.old ≡ Some t → top.AreValidStatusWords
        (W.precomposes worktree.old) t words.now → CountNotIncreased (W.faults worktree.old)
        (W.faults worktree.new) → CountNotIncreased (I.raised interrupt.old)
        (I.raised interrupt.new) → CountNotIncreased (S.refusals out.old) (S.refusals out.new)
        → (result ≡ 0) ⊎ (result ≡ 8) }
{
    let answer = status_text_for_words(alloc, words, worktree, interrupt);
    write_answer(alloc, USAGE, answer, out, err)
}
