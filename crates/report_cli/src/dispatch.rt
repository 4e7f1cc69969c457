//! The calls of the program, by the first word of its command line.
ghost use Rattle.std.specs.Prelude.{◌≡◌, ◌⊎◌, ◌↔◌, ℕ, List, Some};
ghost use Rattle.worktree_fs.specs.Tree.{Names};
ghost use Rattle.worktree_fs.specs.Causes.{CountNotIncreased};
ghost use Rattle.worktree_report.specs.Written.{AppendsWholeBytes};
ghost use Rattle.report_cli.specs.Dispatch.{
  call_of_command_word,
  call_by_first_word_after_composed,
  composes,
  words_after_optional_composed,
  WordsMissCallUsage,
  IsOutputOfCall,
  OutputNeedsNoFaultForCall,
  CountsNoFaultForCall,
  AreValidWordsOfCall,
  CallRunsToItsAnswer,
};

use clean_plan::run_clean;
use gitbase_core::Bytes;
use index_status::run_status;
use module_plan::run_modules;
use std::alloc::Global;
use worktree_fs::{Interrupt, Sink};
use worktree_report::{CountsFaults, run};

/// The call that answers words.
#[derive(Clone, Copy, Debug, PartialEq, Eq)]
pub enum Call {
    /// What may be removed: [`run_clean`].
    Clean,
    /// What an update of the submodules would do: [`run_modules`].
    Modules,
    /// The states of the index paths: [`run_status`].
    Status,
    /// The report, and everything else: [`run`].
    Report,
}

/// The call that a word names.
fn call_of_command_word(word: &[u8]) -> Call
    ensures { result ≡ call_of_command_word word.now }
{
    if word == b"clean".as_slice() {
        Call::Clean
    } else if word == b"modules".as_slice() {
        Call::Modules
    } else if word == b"status".as_slice() {
        Call::Status
    } else {
        Call::Report
    }
}

/// The words, without one `composed` before them.
fn words_after_optional_composed(words: &[Bytes]) -> &[Bytes]
    ensures { result.now ≡ words_after_optional_composed words.now }
{
    match words {
        [word, rest @ ..] if word.as_bytes() == b"composed".as_slice() => rest,
        _ => words,
    }
}

/// Whether the worktree is to compose names: the first word says so.
pub fn composes(words: &[Bytes]) -> bool
    ensures { result ≡ composes words.now }
{
    match words {
        [word, ..] => word.as_bytes() == b"composed".as_slice(),
        [] => false,
    }
}

/// The call by the first word behind an optional `composed`.
fn call_by_first_word_after_composed(words: &[Bytes]) -> Call
    ensures { result ≡ call_by_first_word_after_composed words.now }
{
    match words_after_optional_composed(words) {
        [word, ..] => call_of_command_word(word.as_bytes()),
        [] => Call::Report,
    }
}

/// Answers the words of a command line, by the first of them behind an optional `composed`: `clean`
/// as [`run_clean`] does, `modules` as [`run_modules`], `status` as [`run_status`], and any other
/// as [`run`]. The statuses are those of [`run`].
pub fn dispatch<W: CountsFaults, I: Interrupt, S: Sink, E: Sink>(
    alloc: Global,
    words: &[Bytes],
    worktree: &mut W,
    interrupt: &mut I,
    out: &mut S,
    err: &mut E,
) -> u8
    // What the words ask for came to an answer, a text or a refusal with its cause; the status, `out` and `err` are as that has it.
    ensures runs { CallRunsToItsAnswer W.Worktree I.Interrupt S.Sink E.Sink worktree.old
        worktree.new interrupt.old interrupt.new out.old out.new err.old err.new
        (W.precomposes worktree.old) words.now result (call_by_first_word_after_composed
        words.now) }

    // Status 2 exactly where the words ask nothing of the call that they name.
    ensures usage { (result ≡ 2) ↔ WordsMissCallUsage (call_by_first_word_after_composed words.now)
        (W.precomposes worktree.old) words.now }

    // Status 0, but for a report: no fault was counted.
    ensures unfaulted { result ≡ 0 → CountsNoFaultForCall (call_by_first_word_after_composed
        words.now) (W.faults worktree.old) (W.faults worktree.new) }

    // Status 0, over a told tree, and for a report with no fault counted: what `out` has is what it had, and what the words ask for.
    ensures output { (t : Names) → W.told worktree.old ≡ Some t → OutputNeedsNoFaultForCall
        (call_by_first_word_after_composed words.now) (W.faults worktree.old)
        (W.faults worktree.new) → result ≡ 0 → (text : List ℕ)
        × IsOutputOfCall (call_by_first_word_after_composed words.now) (W.precomposes worktree.old)
        t words.now text × AppendsWholeBytes (S.written out.old) (S.written out.new) text }

    // Valid input, over a told tree and with nothing counted.
    ensures complete { (t : Names) → W.told worktree.old ≡ Some t → AreValidWordsOfCall
        (call_by_first_word_after_composed words.now) (W.precomposes worktree.old) t words.now
        → CountNotIncreased (W.faults worktree.old) (W.faults worktree.new) → CountNotIncreased
        (I.raised interrupt.old) (I.raised interrupt.new) → CountNotIncreased (S.refusals out.old)
        (S.refusals out.new) → (result ≡ 0) ⊎ (result ≡ 8) }
{
    match call_by_first_word_after_composed(words) {
        Call::Clean => run_clean(alloc, words, worktree, interrupt, out, err),
        Call::Modules => run_modules(alloc, words, worktree, interrupt, out, err),
        Call::Status => run_status(alloc, words, worktree, interrupt, out, err),
        Call::Report => run(alloc, words, worktree, interrupt, out, err),
    }
}
