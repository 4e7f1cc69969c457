//! The top call.
ghost use Rattle.std.specs.Prelude.{◌≡◌, ◌⊎◌, ◌↔◌, ◌≤◌, ◌+◌, ℕ, List, Some, None, Ok, Err, IfOk, IfErr, OnOk, IsErrOf};
ghost use Rattle.worktree_fs.specs.Causes.{CountIncreasedOrSaturated, CountNotIncreased};
ghost use Rattle.worktree_fs.specs.Kept.{KeepsTreeAndListCounts};
ghost use Rattle.worktree_fs.specs.Tree.{Names};
ghost use Rattle.module_plan.specs.Run as top;
ghost use Rattle.worktree_report.specs.Ends.{TopCallAnswersAndEnds};
ghost use Rattle.worktree_report.specs.Loading.{count_files_for_submodules, modules_of_setup_in_tree, known_submodules_with_active_specs, AreModulesOfSomeText, IsKnownWithoutMisread};
ghost use Rattle.worktree_report.specs.Loads.{ReadsFilesAtMost};
ghost use Rattle.worktree_report.specs.Named.{places_of_borrowed};
ghost use Rattle.worktree_report.specs.Outside.{count_files_read_to_misread, IsMisreadOfSetup, StopsAtUnreadFile};
ghost use Rattle.worktree_report.specs.Written.{AppendsWholeBytes};
ghost use Rattle.worktree_report.specs.declared.refusal.Misread.{Misread as Place};

use crate::error::ModuleError;
use crate::lines::text_of_plan;
use crate::planned::plan;
use gitbase_core::Bytes;
use glob_rules::pathspec::Defaults;
use std::alloc::Global;
use worktree_fs::{Interrupt, Sink, Worktree};
use worktree_report::{
    Misread, Modules, Places, Refusal, Setup, load_modules, parse_places_of_command, read_setup,
    refusal_of_report_error, write_answer,
};

/// The line for words that ask for nothing.
const USAGE: &[u8] = b"usage: modules ROOT SETUP\n";

impl From<ModuleError> for Refusal {
    ghost use Rattle.std.specs.Prelude.{◌≡◌};
    ghost use Rattle.module_plan.specs.Run.{refusal_of_module_error};

    ghost from_gives = { λ error refusal. refusal ≡ refusal_of_module_error error };

    fn from(error: ModuleError) -> Refusal {
        match error {
            ModuleError::ActiveSpec { value } => {
                Refusal::Misread(Misread::ActiveSpec { at: value })
            }
            ModuleError::Fault { path: _ } => Refusal::Fault,
            ModuleError::OutOfMemory => Refusal::OutOfMemory,
        }
    }
}

/// What a work tree and the configurations of a setup tell of submodules.
fn load_modules_or_refuse<W: Worktree>(
    alloc: Global,
    worktree: &mut W,
    root: &[u8],
    setup: &Setup,
) -> Result<Modules, Refusal>
    ensures gives { (t : Names) → W.told worktree.old ≡ Some t
        → IfOk result (λ modules. modules_of_setup_in_tree t root.now setup.now ≡ Ok modules) }
    ensures text { IfOk result (AreModulesOfSomeText root.now) }
    ensures misread { (t : Names) → W.told worktree.old ≡ Some t → (which : Place)
        → IsErrOf result (Refusal.Misread which) → modules_of_setup_in_tree t root.now setup.now
        ≡ Err which }
    ensures outside { (which : Place) → IsErrOf result (Refusal.Misread which)
        → IsMisreadOfSetup root.now setup.now which }
    ensures misread_reads { (which : Place) → IsErrOf result (Refusal.Misread which)
        → W.reads worktree.new ≤ W.reads worktree.old + count_files_read_to_misread setup.now
        which }
    ensures refused { IfErr result (top.MayComeFromPlanning (CountIncreasedOrSaturated
        (W.faults worktree.old) (W.faults worktree.new))) }
    ensures stops { (t : Names) → W.told worktree.old ≡ Some t → IsErrOf result Refusal.Fault
        → StopsAtUnreadFile t setup.now (W.reads worktree.old) (W.reads worktree.new) }
    ensures unfaulted { OnOk result (W.faults worktree.new ≡ W.faults worktree.old) }
    ensures loads { ReadsFilesAtMost W.Worktree worktree.old worktree.new
        (count_files_for_submodules setup.now) }
{
    match load_modules(alloc, worktree, root, setup) {
        Ok(modules) => Ok(modules),
        Err(error) => Err(refusal_of_report_error(alloc, error)?),
    }
}

/// The text of the plan that files ask for.
fn plan_text_of_modules<W: Worktree>(
    alloc: Global,
    worktree: &mut W,
    root: &[u8],
    ignore_case: bool,
    modules: &Modules,
) -> Result<Bytes, Refusal>
    ensures gives { (t : Names) → W.told worktree.old ≡ Some t → IfOk result
        (λ text. top.plan_text_of_modules t root.now ignore_case modules.now ≡ Some text) }
    ensures safe { (t : Names) → W.told worktree.old ≡ Some t
        → OnOk result (top.HasSafeUnobstructedPlan t root.now ignore_case modules.now) }
    ensures orderly { IfOk result (λ text. AreModulesOfSomeText root.now modules.now
        → top.IsTextOfSafePlan (W.told worktree.old) root.now ignore_case text) }
    ensures misread { (which : Place) → IsErrOf result (Refusal.Misread which)
        → known_submodules_with_active_specs ignore_case modules.now ≡ Err which }
    ensures refused { IfErr result (top.MayComeFromPlanning (CountIncreasedOrSaturated
        (W.faults worktree.old) (W.faults worktree.new))) }
    ensures late { IsErrOf result Refusal.Fault → IsKnownWithoutMisread
        (known_submodules_with_active_specs ignore_case modules.now) }
    ensures keeps { KeepsTreeAndListCounts W.Worktree worktree.old worktree.new }
    ensures reads { W.reads worktree.new ≡ W.reads worktree.old }
    ensures unfaulted { OnOk result (W.faults worktree.new ≡ W.faults worktree.old) }
{
    let defaults = Defaults { ignore_case };
    match plan(
        alloc,
        worktree,
        root,
        &modules.file,
        &modules.config,
        defaults,
    ) {
        Ok(plan) => Ok(text_of_plan(alloc, &plan)?),
        Err(error) => Err(Refusal::from(error)),
    }
}

/// The text of the plan for the work tree at `root`, by a setup: a line for each submodule.
///
/// # Errors
///
/// - `Misread` names what tells of submodules and is outside its grammar.
/// - `Fault`: the worktree failed, and counted it.
/// - `OutOfMemory`: memory was refused.
pub fn plan_text_by_setup<W: Worktree>(
    alloc: Global,
    worktree: &mut W,
    root: &[u8],
    setup: &Setup,
) -> Result<Bytes, Refusal>
    ensures { top.MakesPlanText W.Worktree worktree.old worktree.new root.now setup.now result }
{
    let modules = load_modules_or_refuse(alloc, worktree, root, setup)?;
    plan_text_of_modules(alloc, worktree, root, setup.options.ignore_case, &modules)
}

/// The text of the plan at some places.
fn read_setup_and_make_plan_text<W: Worktree>(
    alloc: Global,
    places: Places<'_>,
    worktree: &mut W,
) -> Result<Bytes, Refusal>
    ensures { top.AnswersPlanAtPlaces W.Worktree worktree.old worktree.new
        (places_of_borrowed places.entry) result }
{
    let setup = read_setup(alloc, worktree, places.setup)?;
    plan_text_by_setup(alloc, worktree, places.root, &setup)
}

/// The text that the words ask for, or why there is none.
fn modules_plan_text_for_words<W: Worktree>(
    alloc: Global,
    words: &[Bytes],
    worktree: &mut W,
) -> Result<Bytes, Refusal>
    ensures { top.AnswersPlanCommand W.Worktree worktree.old worktree.new
        (top.root_and_setup_of_modules_command (W.precomposes worktree.old) words.now) result }
{
    match parse_places_of_command(b"modules", worktree.precomposes(), words) {
        Some(places) => read_setup_and_make_plan_text(alloc, places, worktree),
        None => Err(Refusal::Usage),
    }
}

/// Answers the words of a command line: writes to `out` what an update of the submodules would do,
/// or says to `err` in one line why there is no such plan, and answers the status that the program
/// is to end with. It carries out nothing.
///
/// `modules ROOT SETUP` asks for the plan of the work tree at ROOT by the setup text at SETUP; the
/// word `composed` stands before it exactly where the worktree composes names. Configurations and
/// `.gitmodules` are read as for a report that tells of submodules, whatever the setup says of
/// them.
///
/// | status | where |
/// |---|---|
/// | 0 | the plan was written whole |
/// | 2 | the words are none of these, with absolute paths without `.`, `..` and NUL |
/// | 3 | the setup is not read as a file, or has a line outside its grammar |
/// | 5 | a configuration, `.gitmodules` or a value of `submodule.active` is outside its grammar |
/// | 6 | the worktree failed, and counted it |
/// | 7 | `out` refused bytes, and counted it |
/// | 8 | want of memory |
///
/// With a status other than 0 and 7 nothing goes to `out`. With each status other than 0 one line
/// goes to `err`, with 0 none; a refusal of `err` changes no byte of `out`, and no status but to 8.
/// The interrupt is not asked.
pub fn run_modules<W: Worktree, I: Interrupt, S: Sink, E: Sink>(
    alloc: Global,
    words: &[Bytes],
    worktree: &mut W,
    interrupt: &mut I,
    out: &mut S,
    err: &mut E,
) -> u8
    // What the words ask for came to an answer: a text, or a refusal with its cause. The status, `out` and `err` are as that answer
    // has it, and what stays is said of each.
    ensures runs { TopCallAnswersAndEnds S.Sink E.Sink out.old out.new err.old err.new top.usage
        (top.AnswersPlanWithoutInterrupt W.Worktree I.Interrupt worktree.old worktree.new
        interrupt.old interrupt.new (top.root_and_setup_of_modules_command
        (W.precomposes worktree.old) words.now)) result }

    // Status 0: no fault was counted.
    ensures unfaulted { result ≡ 0 → W.faults worktree.new ≡ W.faults worktree.old }

    // Status 0, over a told tree: what `out` has is what it had, and the lines of the plan.
    ensures plan { (t : Names) → W.told worktree.old ≡ Some t → result ≡ 0 → (text : List ℕ)
        × (top.modules_plan_text_for_words (W.precomposes worktree.old) t words.now ≡ Some text)
        × AppendsWholeBytes (S.written out.old) (S.written out.new) text }

    // Status 2 exactly where the words ask for nothing.
    ensures usage { (result ≡ 2) ↔ (top.root_and_setup_of_modules_command
        (W.precomposes worktree.old) words.now ≡ None) }

    // Valid input, over a told tree and with nothing counted.
    ensures complete { (t : Names) → W.told worktree.old ≡ Some t → top.AreWordsValidInTree
        (W.precomposes worktree.old) t words.now → CountNotIncreased (W.faults worktree.old)
        (W.faults worktree.new) → CountNotIncreased (I.raised interrupt.old)
        (I.raised interrupt.new) → CountNotIncreased (S.refusals out.old) (S.refusals out.new)
        → (result ≡ 0) ⊎ (result ≡ 8) }
{
    let answer = modules_plan_text_for_words(alloc, words, worktree);
    write_answer(alloc, USAGE, answer, out, err)
}
