//! The report of a work tree, where the worktree did not fail for it.
ghost use Rattle.std.specs.Prelude.{◌≡◌};
ghost use Rattle.tizhagor.specs.Answers as answers;
ghost use Rattle.tizhagor.specs.Asking.{found_around_asked_directory};
ghost use Rattle.tizhagor.specs.TreeWords as tree;
ghost use Rattle.tizhagor.specs.QuietReport.{IsFormattedUnlessFaultsRose, ReportsWithoutHiddenFault};

use crate::directory::Here;
use crate::found::find_work_tree_around_asked_directory;
use crate::refusal::CommandRefusal;
use crate::reply::{Reply, plain_reply_or_program_refusal, reply_result_with_here_refusal};
use crate::written::{Writing, text_formatted_for_output};
use git_setup::{Asked, Found};
use gitbase_core::Bytes;
use std::alloc::Global;
use worktree_fs::{Interrupt, Owners};
use worktree_report::{CountsFaults, Refusal, has_failed_since, report_text_or_refusal};

/// The bytes of a text, unless the worktree failed since its count of faults was `before`.
fn bytes_unless_new_fault<W: CountsFaults>(
    alloc: Global,
    worktree: &W,
    before: u64,
    writing: Writing,
    answer: Result<Bytes, Refusal>,
) -> Result<Bytes, Refusal>
    ensures { IsFormattedUnlessFaultsRose before (W.faults worktree.now) writing answer result }
{
    let text = answer?;
    if has_failed_since(worktree, before) {
        return Err(Refusal::Fault);
    }
    Ok(text_formatted_for_output(alloc, writing, text)?)
}

/// The report of a work tree that is found, as it is written; none where the worktree failed for
/// it, also where the walk goes on with such a fault.
fn report_bytes_of_found<W: CountsFaults, I: Interrupt>(
    alloc: Global,
    worktree: &mut W,
    interrupt: &mut I,
    found: Found,
    writing: Writing,
) -> Result<Bytes, Refusal>
    ensures { ReportsWithoutHiddenFault W.Worktree I.Interrupt worktree.old worktree.new
        interrupt.old interrupt.new writing found result }
{
    let before = worktree.fault_count();
    let Found { root, setup, .. } = found;
    let answer = report_text_or_refusal(alloc, worktree, interrupt, root.as_bytes(), setup);
    bytes_unless_new_fault(alloc, worktree, before, writing, answer)
}

/// The report of the work tree around the directory that is asked for, or why there is none.
///
/// # Errors
///
/// As [`find_work_tree_around_asked_directory`] says; `Program` has the refusal of the report,
/// `Fault` also for a fault with which the walk goes on, and where the count of faults stands at
/// its last value.
pub fn answer_report_unless_worktree_failed<W: CountsFaults, O: Owners, I: Interrupt>(
    alloc: Global,
    worktree: &mut W,
    owners: &mut O,
    interrupt: &mut I,
    here: &Here<'_>,
    asked: &Asked,
    writing: Writing,
) -> Result<Reply, CommandRefusal>
    ensures { answers.AnswersWorkTreeCommand W.Worktree I.Interrupt O.Owners worktree.old
        worktree.new interrupt.old interrupt.new owners.old owners.new
        (λ t owned. found_around_asked_directory t owned here.now.current.now here.now.variables.now
        here.now.directory.now asked.now) (tree.report_of writing) result }
{
    let found = find_work_tree_around_asked_directory(alloc, worktree, owners, here, asked)?;
    let answer = report_bytes_of_found(alloc, worktree, interrupt, found, writing);
    reply_result_with_here_refusal(plain_reply_or_program_refusal(alloc, answer))
}
