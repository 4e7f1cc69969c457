//! What `check-ignore` says of the work tree around a directory.
ghost use Rattle.std.specs.Prelude.{◌≡◌, IfErr};
ghost use Rattle.tizhagor.specs.Checking as words;
ghost use Rattle.tizhagor.specs.Checks.{FindsReplyOverTreeAndOwners, FindsReplyOverTree};
ghost use Rattle.tizhagor.specs.Finds.{FindsHereResultOverToldTree};
ghost use Rattle.tizhagor.specs.Refusals.{MayComeBeforeSetupIsFound, here_refusal_of_check_ignore_stop};

use crate::compare::{Placed, find_work_tree_and_repository_places};
use crate::directory::Here;
use crate::refusal::{CommandRefusal, Unchecked};
use crate::reply::Reply;
use check_ignore::{
    Answered, CheckContext, Checking, NamedRules, OuterRules, Stop, check_paths_or_stdin,
    first_option_error,
};
use command_line::CheckAsked;
use git_setup::{Asked, Checked, NamedFile, OuterFiles, read_check_ignore_setup};
use gitbase_core::{Bytes, PathText};
use std::alloc::Global;
use worktree_fs::{Owners, Worktree};
use worktree_report::Refusal;

/// That nothing is answered of paths in the work tree at `root`.
fn here_refusal_of_check_ignore_stop(root: PathText, stop: Stop) -> CommandRefusal
    ensures { result ≡ here_refusal_of_check_ignore_stop root stop }
{
    match stop {
        Stop::Fault => CommandRefusal::Program(Refusal::Fault),
        Stop::OutOfMemory => CommandRefusal::Program(Refusal::OutOfMemory),
        stop => CommandRefusal::Unchecked(Unchecked::Stopped { root, stop }),
    }
}

/// What is said by an answer.
fn reply_of_check_ignore_answer(
    alloc: Global,
    root: PathText,
    answer: Result<Answered, Stop>,
) -> Result<Reply, CommandRefusal>
    ensures { result ≡ words.reply_of_check_ignore_answer root answer }
{
    match answer {
        Ok(answered) => Ok(Reply {
            out: answered.text,
            err: Bytes::new(alloc),
            is_no: !answered.is_any,
        }),
        Err(stop) => Err(here_refusal_of_check_ignore_stop(root, stop)),
    }
}

/// What is asked, with what the configuration says.
fn check_options_with_configuration(checking: Checking, here: &Checked) -> Checking
    ensures { result ≡ words.check_options_with_configuration checking here.now }
{
    let mut checking = checking;
    checking.quote_path = here.quote_path;
    checking.ignore_case = here.ignore_case;
    checking
}

/// The rules of a file.
fn named_rules_of_file(file: Option<NamedFile>) -> Option<NamedRules>
    ensures { result ≡ words.named_rules_of_file file }
{
    match file {
        Some(file) => Some(NamedRules {
            name: file.name,
            bytes: file.bytes,
        }),
        None => None,
    }
}

/// The rules of the files outside the work tree.
fn outer_rules_of_files(files: OuterFiles) -> OuterRules
    ensures { result ≡ words.outer_rules_of_files files }
{
    OuterRules {
        user: named_rules_of_file(files.user),
        repository: named_rules_of_file(files.repository),
    }
}

/// What is said of paths, by what was read.
fn check_ignore_paths_as_reply<W: Worktree>(
    alloc: Global,
    worktree: &mut W,
    wants: &CheckAsked,
    paths: &[Bytes],
    input: &[u8],
    here: Checked,
) -> Result<Reply, CommandRefusal>
    ensures looks { FindsReplyOverTree W.Worktree worktree.old worktree.new
        (λ t. words.check_ignore_reply_of_paths t wants.now paths.now input.now here) result }
    ensures of { IfErr result MayComeBeforeSetupIsFound }
{
    let checking = check_options_with_configuration(wants.checking, &here);
    let Checked {
        root,
        prefix,
        index,
        outer,
        ignore_case: _,
        quote_path: _,
    } = here;
    let outer = outer_rules_of_files(outer);
    let top = root.as_bytes();
    let place = prefix.as_bytes();
    let context = CheckContext {
        root: top,
        prefix: place,
        index: &index,
        outer: &outer,
        checking: &checking,
    };
    let answer = check_paths_or_stdin(alloc, worktree, &context, paths, input);
    reply_of_check_ignore_answer(alloc, root, answer)
}

/// What paths are checked by.
fn read_check_ignore_setup_of_placed<W: Worktree>(
    alloc: Global,
    worktree: &mut W,
    placed: &Placed,
    wants: &CheckAsked,
) -> Result<Checked, CommandRefusal>
    ensures finds { FindsHereResultOverToldTree W.Worktree worktree.old worktree.new
        (λ t. words.check_ignore_setup_of_placed t placed.now wants.now) result }
    ensures of { IfErr result MayComeBeforeSetupIsFound }
{
    Ok(read_check_ignore_setup(
        alloc,
        worktree,
        &placed.places,
        &placed.around,
        wants.leaves_index,
    )?)
}

/// What is said of paths in the work tree at a place.
fn read_setup_and_check_ignore_paths<W: Worktree>(
    alloc: Global,
    worktree: &mut W,
    placed: &Placed,
    asked: &Asked,
    wants: &CheckAsked,
    input: &[u8],
) -> Result<Reply, CommandRefusal>
    ensures looks { FindsReplyOverTree W.Worktree worktree.old worktree.new
        (λ t. words.check_ignore_reply_of_placed t placed.now asked.now wants.now input.now)
        result }
    ensures of { IfErr result MayComeBeforeSetupIsFound }
{
    let here = read_check_ignore_setup_of_placed(alloc, worktree, placed, wants)?;
    check_ignore_paths_as_reply(alloc, worktree, wants, &asked.paths, input, here)
}

/// The same, unless there are no such words.
fn check_ignore_paths_if_options_valid<W: Worktree>(
    alloc: Global,
    worktree: &mut W,
    placed: &Placed,
    asked: &Asked,
    wants: &CheckAsked,
    input: &[u8],
) -> Result<Reply, CommandRefusal>
    ensures looks { FindsReplyOverTree W.Worktree worktree.old worktree.new
        (λ t. words.check_ignore_reply_if_options_valid t placed.now asked.now wants.now input.now)
        result }
    ensures of { IfErr result MayComeBeforeSetupIsFound }
{
    match first_option_error(&wants.checking, asked.paths.len()) {
        Some(wrong) => Err(CommandRefusal::Unchecked(Unchecked::Wrong(wrong))),
        None => read_setup_and_check_ignore_paths(alloc, worktree, placed, asked, wants, input),
    }
}

/// What `check-ignore` says in the work tree around the directory that is asked for, or why there
/// is nothing of it.
///
/// # Errors
///
/// - `Absent`, `NotADirectory`: the directory that `-C` names is none.
/// - `Git`: there is no work tree, or what is read of it is refused, as
///   [`git_setup::find_repository_places`] and [`read_check_ignore_setup`] say.
/// - `Unchecked`: there are no such words, as [`first_option_error`] says, or nothing is answered,
///   as [`check_paths_or_stdin`] says.
/// - `Program(Fault)`: the worktree or the owners failed, and counted it.
/// - `Program(OutOfMemory)` for want of memory.
pub fn answer_check_ignore<W: Worktree, O: Owners>(
    alloc: Global,
    worktree: &mut W,
    owners: &mut O,
    here: &Here<'_>,
    asked: &Asked,
    wants: &CheckAsked,
    input: &[u8],
) -> Result<Reply, CommandRefusal>
    ensures { FindsReplyOverTreeAndOwners W.Worktree O.Owners worktree.old worktree.new owners.old
        owners.new (λ t owned. words.check_ignore_reply_around_directory t owned
        here.now.current.now here.now.variables.now here.now.directory.now asked.now wants.now
        input.now) result }
{
    let placed = find_work_tree_and_repository_places(alloc, worktree, owners, here)?;
    check_ignore_paths_if_options_valid(alloc, worktree, &placed, asked, wants, input)
}
