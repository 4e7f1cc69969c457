//! The text of each call, by the root and the setup that were found.
ghost use Rattle.std.specs.Prelude.{◌≡◌};
ghost use Rattle.clean_plan.specs.Run as clean;
ghost use Rattle.clean_plan.specs.Wanted.{keeping_special_and_spec_excluded};
ghost use Rattle.tizhagor.specs.Answers as answers;
ghost use Rattle.tizhagor.specs.Asking.{found_around_asked_directory};
ghost use Rattle.tizhagor.specs.Refusals.{program_result_with_here_refusal};
ghost use Rattle.tizhagor.specs.Texts.{MakesTextOfCall};

use crate::call::Call;
use crate::directory::Here;
use crate::found::find_work_tree_around_asked_directory;
use crate::refusal::CommandRefusal;
use clean_plan::{Finding, Wanted, What, plan_clean_as_text, prepare};
use git_setup::{Asked, Found};
use gitbase_core::Bytes;
use index_status::make_status_as_text;
use module_plan::plan_text_by_setup;
use std::alloc::Global;
use worktree_fs::{Interrupt, Owners, Worktree};
use worktree_report::{CountsFaults, Refusal, Setup, report_text_or_refusal};

/// The text of a plan, by a setup that is prepared for it: pipes, sockets and devices stay, unless
/// a directory above them goes as a whole, and what lies in a directory that path specs take out.
fn make_plan_text<W: CountsFaults, I: Interrupt>(
    alloc: Global,
    worktree: &mut W,
    interrupt: &mut I,
    root: &[u8],
    mut setup: Setup,
    what: What,
    finding: Finding,
) -> Result<Bytes, Refusal>
    ensures { clean.AnswersPlanTextOrRefusal W.Worktree I.Interrupt (W.precomposes worktree.old)
        worktree.old worktree.new interrupt.old interrupt.new root.now
        (clean.setup_prepared_for_plan finding setup) (keeping_special_and_spec_excluded what)
        result }
{
    prepare(&mut setup.options, finding);
    let wanted = Wanted::keeping_special_and_spec_excluded(what);
    plan_clean_as_text(alloc, worktree, interrupt, root, &setup, wanted, finding)
}

/// The text of a call by a root and a setup, of which a plan prepares the options.
fn make_call_text<W: CountsFaults, I: Interrupt>(
    alloc: Global,
    worktree: &mut W,
    interrupt: &mut I,
    root: &[u8],
    setup: Setup,
    call: Call,
) -> Result<Bytes, Refusal>
    ensures { MakesTextOfCall W.Worktree I.Interrupt worktree.old worktree.new interrupt.old
        interrupt.new root.now setup result call }
{
    match call {
        Call::Report => report_text_or_refusal(alloc, worktree, interrupt, root, setup),
        Call::Plan { what, finding } => make_plan_text(
            alloc, worktree, interrupt, root, setup, what, finding,
        ),
        Call::Modules => plan_text_by_setup(alloc, worktree, root, &setup),
        Call::State => make_status_as_text(alloc, worktree, interrupt, root, &setup),
    }
}

/// An answer by a setup that was found.
fn text_result_with_here_refusal(answer: Result<Bytes, Refusal>) -> Result<Bytes, CommandRefusal>
    ensures { result ≡ program_result_with_here_refusal answer }
{
    match answer {
        Ok(text) => Ok(text),
        Err(refusal) => Err(CommandRefusal::Program(refusal)),
    }
}

/// The text of a call in the work tree around the directory that is asked for, or why there is
/// none.
pub fn find_setup_and_make_call_text<W: CountsFaults, O: Owners, I: Interrupt>(
    alloc: Global,
    worktree: &mut W,
    owners: &mut O,
    interrupt: &mut I,
    here: &Here<'_>,
    call: Call,
    asked: &Asked,
) -> Result<Bytes, CommandRefusal>
    ensures { answers.AnswersCallText W.Worktree I.Interrupt O.Owners worktree.old worktree.new
        interrupt.old interrupt.new owners.old owners.new
        (λ t owned. found_around_asked_directory t owned here.now.current.now here.now.variables.now
        here.now.directory.now asked.now) call result }
{
    let found = find_work_tree_around_asked_directory(alloc, worktree, owners, here, asked)?;
    let Found { root, setup, .. } = found;
    let answer = make_call_text(alloc, worktree, interrupt, root.as_bytes(), setup, call);
    text_result_with_here_refusal(answer)
}
