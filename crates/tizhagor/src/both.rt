//! What `ls-files` with `-d` or `-m` and with `-o` or `-k` says of the work tree around a
//! directory.
ghost use Rattle.std.specs.Prelude.{◌≡◌, IfOk};
ghost use Rattle.tizhagor.specs.Answers as answers;
ghost use Rattle.tizhagor.specs.Both as words;
ghost use Rattle.tizhagor.specs.BothAnswers.{AnswersTreeAndStatCommand, IsJoinedReply};
ghost use Rattle.tizhagor.specs.Changing.{changed_files_reply_around_directory};
ghost use Rattle.tizhagor.specs.Listings.{found_checked_for_ls_files};

use crate::changed::answer_ls_files_changed;
use crate::directory::Here;
use crate::files::answer_ls_files;
use crate::refusal::CommandRefusal;
use crate::reply::Reply;
use command_line::FilesAsked;
use diff_files::Stats;
use git_setup::Asked;
use gitbase_core::{Bytes, OutOfMemory};
use ls_files::{DeletedModifiedChoice, Listing};
use std::alloc::Global;
use worktree_fs::{Interrupt, Owners};
use worktree_report::CountsFaults;

/// What a walk finds, alone. With `-i` what the index has stays asked for, since it is then refused
/// as such.
fn ls_files_options_for_walk_alone(listing: &Listing) -> Listing
    ensures { result ≡ words.ls_files_options_for_walk_alone listing.now }
{
    let mut listing = *listing;
    listing.cached = listing.cached & listing.ignored;
    listing.stages = false;
    listing.unmerged = false;
    listing
}

/// The first reply, and the second behind it.
pub fn join_replies(alloc: Global, first: Reply, second: &Reply) -> Result<Reply, OutOfMemory>
    ensures { IfOk result (λ reply. reply ≡ words.join_replies first second.now) }
{
    let Reply {
        mut out,
        mut err,
        is_no,
    } = first;
    out.extend(alloc, second.out.as_bytes())?;
    err.extend(alloc, second.err.as_bytes())?;
    let is_no = is_no | second.is_no;
    Ok(Reply { out, err, is_no })
}

/// The same, or why there is no second one.
fn join_replies_unless_second_refused(
    alloc: Global,
    first: Reply,
    second: Result<Reply, CommandRefusal>,
) -> Result<Reply, CommandRefusal>
    ensures { IsJoinedReply words.join_replies first second result }
{
    let second = second?;
    Ok(join_replies(alloc, first, &second)?)
}

/// What `ls-files` is asked for with `-d` or `-m` and with `-o` or `-k`.
#[derive(Debug, Drop)]
pub struct WalkAndChangesAsked {
    /// What is listed, by which rules.
    pub files: FilesAsked,
    /// Which changes are listed.
    pub standings: DeletedModifiedChoice,
}

/// What `ls-files` with `-d` or `-m` and with `-o` or `-k` says of the work tree around the
/// directory that is asked for, or why there is nothing of it: what a walk finds, and behind it
/// what changed, with what is shown of the index beside. Each of the two finds the work tree and
/// reads its index by itself.
///
/// # Errors
///
/// As [`answer_ls_files`] says of what a walk finds, and then as [`answer_ls_files_changed`] says;
/// or `Program(OutOfMemory)`.
pub fn list_walked_and_changed_files<W: CountsFaults, O: Owners, D: Stats, I: Interrupt>(
    alloc: Global,
    worktree: &mut W,
    owners: &mut O,
    stats: &mut D,
    interrupt: &mut I,
    here: &Here<'_>,
    asked: &Asked,
    both: WalkAndChangesAsked,
) -> Result<Reply, CommandRefusal>
    ensures { AnswersTreeAndStatCommand W.Worktree I.Interrupt O.Owners D.Stats worktree.old
        worktree.new interrupt.old interrupt.new owners.old owners.new stats.old stats.new
        (λ t owned. found_checked_for_ls_files t owned here.now.current.now here.now.variables.now
        here.now.directory.now (words.ls_files_request_of_walk_alone both.files) asked.now)
        (words.ls_files_command_of_walk_alone both.files) words.join_replies
        (λ t owned told. changed_files_reply_around_directory t owned told here.now.current.now
        here.now.variables.now here.now.directory.now asked.now both.files both.standings)
        result }
{
    let standings = both.standings;
    let mut wants = both.files;
    let listing = wants.listing;
    wants.listing = ls_files_options_for_walk_alone(&listing);
    let first = answer_ls_files(alloc, worktree, owners, interrupt, here, &wants, asked)?;
    wants.listing = listing;
    let second = answer_ls_files_changed(
        alloc, worktree, owners, stats, here, asked, &wants, standings,
    );
    join_replies_unless_second_refused(alloc, first, second)
}
