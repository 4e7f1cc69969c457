//! What `state` with `--by-stat` says of the work tree around a directory.
ghost use Rattle.std.specs.Prelude.{◌≡◌};
ghost use Rattle.tizhagor.specs.Asking.{found_around_asked_directory};
ghost use Rattle.tizhagor.specs.Both as words;
ghost use Rattle.tizhagor.specs.BothAnswers.{AnswersTreeAndStatCommand, IsJoinedReply};
ghost use Rattle.tizhagor.specs.Comparing.{comparison_reply_around_directory};
ghost use Rattle.tizhagor.specs.TreeWords as tree;

use crate::both::join_replies;
use crate::compare::{ChangeLines, answer_diff_files_or_state_lines};
use crate::directory::Here;
use crate::quiet_report::answer_report_unless_worktree_failed;
use crate::refusal::CommandRefusal;
use crate::reply::Reply;
use crate::written::Writing;
use diff_files::Stats;
use git_setup::Asked;
use std::alloc::Global;
use worktree_fs::{Interrupt, Owners};
use worktree_report::CountsFaults;

/// The report, and the states in front of it, or why there are none.
fn put_states_before_report(
    alloc: Global,
    report: &Reply,
    states: Result<Reply, CommandRefusal>,
) -> Result<Reply, CommandRefusal>
    ensures { IsJoinedReply words.second_reply_before_first report.now states result }
{
    let states = states?;
    Ok(join_replies(alloc, states, report)?)
}

/// What `state` with `--by-stat` says of the work tree around the directory that is asked for, or
/// why there is nothing of it: what changed in it by the stat fields, and behind it the report. The
/// report is made first. Each of the two finds the work tree and reads its index by itself.
///
/// # Errors
///
/// As [`answer_report_unless_worktree_failed`] says of the report, and then as
/// [`answer_diff_files_or_state_lines`] says; or `Program(OutOfMemory)`.
pub fn answer_state_by_stat<W: CountsFaults, O: Owners, D: Stats, I: Interrupt>(
    alloc: Global,
    worktree: &mut W,
    owners: &mut O,
    stats: &mut D,
    interrupt: &mut I,
    here: &Here<'_>,
    asked: &Asked,
    writing: Writing,
) -> Result<Reply, CommandRefusal>
    ensures { AnswersTreeAndStatCommand W.Worktree I.Interrupt O.Owners D.Stats worktree.old
        worktree.new interrupt.old interrupt.new owners.old owners.new stats.old stats.new
        (λ t owned. found_around_asked_directory t owned here.now.current.now here.now.variables.now
        here.now.directory.now asked.now) (tree.report_of writing) words.second_reply_before_first
        (λ t owned told. comparison_reply_around_directory t owned told here.now.current.now
        here.now.variables.now here.now.directory.now asked.now (ChangeLines.States writing))
        result }
{
    let report = answer_report_unless_worktree_failed(
        alloc, worktree, owners, interrupt, here, asked, writing,
    )?;
    let lines = ChangeLines::States(writing);
    let states = answer_diff_files_or_state_lines(
        alloc, worktree, owners, stats, here, asked, lines,
    );
    put_states_before_report(alloc, &report, states)
}
