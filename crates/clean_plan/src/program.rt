//! The top call.
ghost use Rattle.std.specs.Prelude.{◌≡◌, ◌⊎◌, ◌↔◌, ◌++◌, ℕ, List, true, Some, None, IfOk, OnOk};
ghost use Rattle.worktree_fs.specs.Causes.{CountNotIncreased};
ghost use Rattle.worktree_fs.specs.Tree.{Names};
ghost use Rattle.worktree_report.specs.Ends.{TopCallAnswersAndEnds};
ghost use Rattle.worktree_report.specs.Written.{AppendsWholeBytes};
ghost use Rattle.clean_plan.specs.Named.{request_in_specification};
ghost use Rattle.clean_plan.specs.Prepared.{are_options_prepared_for_plan};
ghost use Rattle.clean_plan.specs.Run as top;

use crate::by_setup::make_report_and_plan_removal;
use crate::error::CleanError;
use crate::outcome::Plan;
use crate::prepared::prepare;
use crate::what::{Finding, Wanted};
use crate::words::{Request, parse_clean_request};
use gitbase_core::{Bytes, Find, OutOfMemory, PathText};
use std::alloc::Global;
use worktree_fs::{Interrupt, Sink};
use worktree_report::{
    CountsFaults, Refusal, Setup, append_path_escaped, has_failed_since, read_setup,
    refusal_of_report_error, write_answer,
};

/// The line for words that ask for nothing.
const USAGE: &[u8] = b"usage: clean untracked|all|ignored nonbare|all ROOT SETUP\n";

/// Adds the lines of paths, in their order.
fn append_lines_of_paths(text: &mut Vec<u8>, paths: &[PathText]) -> Result<(), OutOfMemory>
    ensures { OnOk result (text.new.items ≡ text.old.items ++ top.lines_of_plan_paths paths.now) }
{
    for path in paths {
        append_path_escaped(text, path.as_bytes())?;
        text.push(b'\n')?;
    }
    Ok(())
}

/// The text of a plan: a line for each path.
fn encode_plan_lines(alloc: Global, plan: &Plan) -> Result<Bytes, OutOfMemory>
    ensures { IfOk result (λ text. text ≡ top.lines_of_plan_paths plan.now.paths.items) }
{
    let mut text = Vec::new(alloc);
    append_lines_of_paths(&mut text, &plan.paths)?;
    Ok(Bytes::from_vec(text))
}

/// Why there is no text, where there is no plan.
fn refusal_of_clean_error(alloc: Global, error: CleanError) -> Result<Refusal, OutOfMemory>
    ensures { IfOk result (λ refusal. refusal ≡ top.refusal_of_clean_error error) }
{
    match error {
        CleanError::Report(error) => refusal_of_report_error(alloc, error),
        CleanError::Fault => Ok(Refusal::Fault),
        CleanError::OutOfMemory => Ok(Refusal::OutOfMemory),
    }
}

/// The text of the plan for the work tree at `root`, by a setup that [`prepare`](crate::prepare)
/// made: a line for each path. Blobs that ignore rules are mapped to are those of the setup.
///
/// Where that is wanted, what lies in a directory that the path specs take out stays: they are
/// asked about each directory above each entry that may go.
///
/// # Errors
///
/// - `Walk` has the cause that the walk names.
/// - `Fault`: the worktree failed, and counted it, also where the walk goes on with such a fault;
///   or its count stands at its last value.
/// - `Interrupted`: the interrupt was raised, and counted it.
/// - `OutOfMemory`: memory was refused.
pub fn plan_clean_as_text<W: CountsFaults, I: Interrupt>(
    alloc: Global,
    worktree: &mut W,
    interrupt: &mut I,
    root: &[u8],
    setup: &Setup,
    wanted: Wanted,
    finding: Finding,
) -> Result<Bytes, Refusal>
    requires prepared { are_options_prepared_for_plan finding setup.now.options ≡ true }
    ensures { top.AnswersPlanTextOrRefusal W.Worktree I.Interrupt (W.precomposes worktree.old)
        worktree.old worktree.new interrupt.old interrupt.new root.now setup.now wanted result }
{
    let before = worktree.fault_count();
    let mut objects = setup.blobs.fork(alloc)?;
    match make_report_and_plan_removal(
        alloc,
        worktree,
        &mut objects,
        interrupt,
        root,
        setup,
        wanted,
        finding,
    ) {
        Ok(plan) => {
            if has_failed_since(worktree, before) {
                return Err(Refusal::Fault);
            }
            Ok(encode_plan_lines(alloc, &plan)?)
        }
        Err(error) => Err(refusal_of_clean_error(alloc, error)?),
    }
}

/// The text that a request asks for, or why there is none.
fn clean_plan_text_for_request<W: CountsFaults, I: Interrupt>(
    alloc: Global,
    request: Request<'_>,
    worktree: &mut W,
    interrupt: &mut I,
) -> Result<Bytes, Refusal>
    ensures { top.AnswersCleanRequest W.Worktree I.Interrupt worktree.old worktree.new interrupt.old
        interrupt.new (request_in_specification request.entry) result }
{
    let Request {
        what,
        finding,
        places,
    } = request;
    let mut setup = read_setup(alloc, worktree, places.setup)?;
    prepare(&mut setup.options, finding);
    plan_clean_as_text(
        alloc,
        worktree,
        interrupt,
        places.root,
        &setup,
        Wanted::allowing_special_and_spec_excluded(what),
        finding,
    )
}

/// The text that the words ask for, or why there is none.
fn clean_plan_text_for_words<W: CountsFaults, I: Interrupt>(
    alloc: Global,
    words: &[Bytes],
    worktree: &mut W,
    interrupt: &mut I,
) -> Result<Bytes, Refusal>
    ensures { top.AnswersOptionalCleanRequest W.Worktree I.Interrupt worktree.old worktree.new
        interrupt.old interrupt.new (top.request_of_words (W.precomposes worktree.old) words.now)
        result }
{
    match parse_clean_request(worktree.precomposes(), words) {
        Some(request) => clean_plan_text_for_request(alloc, request, worktree, interrupt),
        None => Err(Refusal::Usage),
    }
}

/// Answers the words of a command line: writes to `out` what may be removed from a work tree, one
/// path a line, or says to `err` in one line why there is nothing of that, and answers the status
/// that the program is to end with. Nothing is removed.
///
/// `clean WHAT FIND ROOT SETUP` asks for the plan of the work tree at ROOT by the setup text at
/// SETUP, with the options that [`prepare`](crate::prepare) sets: WHAT is `untracked`, `all` or
/// `ignored`, FIND is `nonbare` or `all`. The word `composed` stands before it exactly where the
/// worktree composes names.
///
/// | status | where |
/// |---|---|
/// | 0 | what is asked for was written whole |
/// | 1 | the interrupt was raised, and counted it |
/// | 2 | the words are none of these, with absolute paths without `.`, `..` and NUL |
/// | 3 | the setup is not read as a file, or has a line outside its grammar |
/// | 4 | the walk was refused |
/// | 6 | the worktree failed, and counted it, also where the walk goes on with such a fault; or its count stands at its last value |
/// | 7 | `out` refused bytes, and counted it |
/// | 8 | want of memory |
///
/// With a status other than 0 and 7 nothing goes to `out`. With each status other than 0 one line
/// goes to `err`, with 0 none; a refusal of `err` changes no byte of `out`, and no status but to 8.
/// The interrupt is asked before each directory is read.
pub fn run_clean<W: CountsFaults, I: Interrupt, S: Sink, E: Sink>(
    alloc: Global,
    words: &[Bytes],
    worktree: &mut W,
    interrupt: &mut I,
    out: &mut S,
    err: &mut E,
) -> u8
    // What the words ask for came to an answer: a text, or a refusal with its cause. The status, `out` and `err` are as that answer
    // has it, and what stays is said of each.
    ensures runs { TopCallAnswersAndEnds S.Sink E.Sink out.old out.new err.old err.new top.usage
        (top.AnswersOptionalCleanRequest W.Worktree I.Interrupt worktree.old worktree.new
        interrupt.old interrupt.new (top.request_of_words (W.precomposes worktree.old) words.now))
        result }

    // Status 0: no fault was counted, and the count does not stand at its last value.
    ensures unfaulted { result ≡ 0 → (W.faults worktree.new ≡ W.faults worktree.old)
        × CountNotIncreased (W.faults worktree.old) (W.faults worktree.new) }

    // Status 0, over a told tree: what `out` has is what it had, and the lines of the plan.
    ensures plan { (t : Names) → W.told worktree.old ≡ Some t → result ≡ 0
        → (text : List ℕ) × top.IsPlanTextOfWords (W.precomposes worktree.old) t words.now text
        × AppendsWholeBytes (S.written out.old) (S.written out.new) text }

    // Status 2 exactly where the words ask for nothing.
    ensures usage { (result ≡ 2) ↔ (top.request_of_words (W.precomposes worktree.old) words.now
        ≡ None) }

    // Valid input, over a told tree and with nothing counted.
    ensures complete { (t : Names) → W.told worktree.old ≡ Some t → top.AreValidCleanWords
        (W.precomposes worktree.old) t words.now → CountNotIncreased (W.faults worktree.old)
        (W.faults worktree.new) → CountNotIncreased (I.raised interrupt.old)
        (I.raised interrupt.new) → CountNotIncreased (S.refusals out.old) (S.refusals out.new)
        → (result ≡ 0) ⊎ (result ≡ 8) }
{
    let answer = clean_plan_text_for_words(alloc, words, worktree, interrupt);
    write_answer(alloc, USAGE, answer, out, err)
}
