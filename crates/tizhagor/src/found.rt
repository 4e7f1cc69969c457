//! The work tree in which a command works, and its setup.
ghost use Rattle.std.specs.Prelude.{◌≡◌, IfErr};
ghost use Rattle.gitbase_core.specs.Steps.{and_then};
ghost use Rattle.git_setup.specs.Found.{find_and_read_setup};
ghost use Rattle.tizhagor.specs.Asking as words;
ghost use Rattle.tizhagor.specs.Finds.{FindsHereResultOverToldTree, FindsHereResultOverTreeAndOwners};
ghost use Rattle.tizhagor.specs.Refusals.{git_result_with_here_refusal, MayComeBeforeSetupIsFound};

use crate::call::{Call, setup_options_for_call};
use crate::directory::{Here, resolve_named_directory};
use crate::refusal::CommandRefusal;
use git_places::{Surroundings, Variable, surroundings_of_variables};
use git_setup::{Asked, Found, GitRefusal, find_and_read_setup};
use gitbase_core::{Bytes, PathText};
use std::alloc::Global;
use worktree_fs::{Owners, Worktree};
use worktree_report::SetupOptions;

/// What is asked, with the options that a call needs.
pub fn request_with_call_options(call: Call, asked: Asked) -> Asked
    ensures { result ≡ words.request_with_call_options call asked }
{
    let options = setup_options_for_call(call, &asked.options);
    Asked {
        options,
        paths: asked.paths,
        depth: asked.depth,
        prefers_current: asked.prefers_current,
    }
}

/// The directory that `-C` names from the current one, if it names one.
pub fn resolve_directory_or_current<W: Worktree>(
    alloc: Global,
    worktree: &mut W,
    current: &[u8],
    directory: &Option<Bytes>,
) -> Result<PathText, CommandRefusal>
    ensures finds { FindsHereResultOverToldTree W.Worktree worktree.old worktree.new
        (λ t. words.resolve_directory_or_current t current.now directory.now) result }
    ensures of { IfErr result MayComeBeforeSetupIsFound }
{
    match directory {
        Some(name) => resolve_named_directory(alloc, worktree, current, name.as_bytes()),
        None => Ok(PathText::from_bytes(alloc, current)?),
    }
}

/// An answer of the search for a setup.
fn found_result_with_here_refusal(
    answer: Result<Found, GitRefusal>,
) -> Result<Found, CommandRefusal>
    ensures { result ≡ git_result_with_here_refusal answer }
{
    match answer {
        Ok(found) => Ok(found),
        Err(refused) => Err(CommandRefusal::from(refused)),
    }
}

/// The work tree in these surroundings, and its setup.
fn find_setup_in_surroundings<W: Worktree, O: Owners>(
    alloc: Global,
    worktree: &mut W,
    owners: &mut O,
    around: &Surroundings,
    asked: &Asked,
) -> Result<Found, CommandRefusal>
    ensures finds { FindsHereResultOverTreeAndOwners W.Worktree O.Owners worktree.old worktree.new
        owners.old owners.new (λ t owned. git_result_with_here_refusal (find_and_read_setup t owned
        around.now asked.now)) result }
    ensures of { IfErr result MayComeBeforeSetupIsFound }
{
    let answer = find_and_read_setup(alloc, worktree, owners, around, asked);
    found_result_with_here_refusal(answer)
}

/// The work tree around a directory, and its setup.
fn find_work_tree_from_directory<W: Worktree, O: Owners>(
    alloc: Global,
    worktree: &mut W,
    owners: &mut O,
    variables: &[Variable],
    asked: &Asked,
    directory: &[u8],
) -> Result<Found, CommandRefusal>
    ensures finds { FindsHereResultOverTreeAndOwners W.Worktree O.Owners worktree.old worktree.new
        owners.old owners.new (λ t owned. words.found_from_directory t owned variables.now asked.now
        directory.now) result }
    ensures of { IfErr result MayComeBeforeSetupIsFound }
{
    let around = surroundings_of_variables(alloc, directory, variables)?;
    find_setup_in_surroundings(alloc, worktree, owners, &around, asked)
}

/// The current directory, unless `-C` names another one: where the program was called stays, as in
/// git, and that is told by the directory in which it works.
fn require_named_directory_is_current<W: Worktree>(
    alloc: Global,
    worktree: &mut W,
    current: &[u8],
    directory: &Option<Bytes>,
) -> Result<PathText, CommandRefusal>
    ensures finds { FindsHereResultOverToldTree W.Worktree worktree.old worktree.new
        (λ t. and_then (words.require_current_directory current.now)
        (words.resolve_directory_or_current t current.now directory.now)) result }
    ensures of { IfErr result MayComeBeforeSetupIsFound }
{
    let place = resolve_directory_or_current(alloc, worktree, current, directory)?;
    if place.as_bytes() != current {
        return Err(CommandRefusal::Elsewhere);
    }
    Ok(place)
}

/// The work tree around the current directory, and its setup, wherever in the work tree that is.
///
/// # Errors
///
/// - `Elsewhere`: `-C` names another directory.
/// - Those of [`find_work_tree_around_asked_directory`] but for `NotAtTop`.
#[tactic(auto, unfolding(crate::specs::Asking::found_around_current_directory))]
pub fn find_work_tree_around_current<W: Worktree, O: Owners>(
    alloc: Global,
    worktree: &mut W,
    owners: &mut O,
    here: &Here<'_>,
    asked: &Asked,
) -> Result<Found, CommandRefusal>
    ensures finds { FindsHereResultOverTreeAndOwners W.Worktree O.Owners worktree.old worktree.new
        owners.old owners.new (λ t owned. words.found_around_current_directory t owned
        here.now.current.now here.now.variables.now here.now.directory.now asked.now) result }
    ensures of { IfErr result MayComeBeforeSetupIsFound }
{
    let place = require_named_directory_is_current(alloc, worktree, here.current, here.directory)?;
    find_work_tree_from_directory(
        alloc,
        worktree,
        owners,
        here.variables,
        asked,
        place.as_bytes(),
    )
}

/// Whether what may be deleted is asked for, and the current directory is not the top of the work
/// tree.
fn deletes_away_from_top(options: &SetupOptions, current: &[u8], found: &Found) -> bool
    ensures { result ≡ words.deletes_away_from_top options.now current.now found.now }
{
    options.for_deletion.is_some() && found.root.as_bytes() != current
}

/// That it is not the top.
fn refusal_not_at_top(found: Found) -> CommandRefusal
    ensures { result ≡ CommandRefusal.NotAtTop found.root }
{
    CommandRefusal::NotAtTop {
        root: Bytes::from_vec(found.root.into_vec()),
    }
}

/// The same, where what may be deleted is asked for at the top of the work tree alone.
fn find_setup_requiring_top_to_delete<W: Worktree, O: Owners>(
    alloc: Global,
    worktree: &mut W,
    owners: &mut O,
    current: &[u8],
    variables: &[Variable],
    asked: &Asked,
    directory: &[u8],
) -> Result<Found, CommandRefusal>
    ensures finds { FindsHereResultOverTreeAndOwners W.Worktree O.Owners worktree.old worktree.new
        owners.old owners.new (λ t owned. words.found_requiring_top_to_delete t owned current.now
        variables.now asked.now directory.now) result }
    ensures of { IfErr result MayComeBeforeSetupIsFound }
{
    let found = find_work_tree_from_directory(
        alloc, worktree, owners, variables, asked, directory,
    )?;
    if deletes_away_from_top(&asked.options, current, &found) {
        return Err(refusal_not_at_top(found));
    }
    Ok(found)
}

/// The work tree around the directory that is asked for, and its setup. What may be deleted is to
/// be asked for in the top of the work tree: `current` is that, also where `-C` names it, as the
/// paths of a plan lead from there, and as the current directory is to stay.
///
/// # Errors
///
/// - `Absent`, `NotADirectory`: the directory that `-C` names is none.
/// - `Git`: no setup is found, as [`find_and_read_setup`] says.
/// - `NotAtTop`: `asked` is for deletion, and `current` is not the top of the work tree.
/// - `Program(Fault)`: the worktree failed, or the owners, which they counted. No fault reads as
///   "nothing is there".
/// - `Program(OutOfMemory)` for want of memory.
#[tactic(auto, unfolding(crate::specs::Asking::found_around_asked_directory))]
pub fn find_work_tree_around_asked_directory<W: Worktree, O: Owners>(
    alloc: Global,
    worktree: &mut W,
    owners: &mut O,
    here: &Here<'_>,
    asked: &Asked,
) -> Result<Found, CommandRefusal>
    ensures finds { FindsHereResultOverTreeAndOwners W.Worktree O.Owners worktree.old worktree.new
        owners.old owners.new (λ t owned. words.found_around_asked_directory t owned
        here.now.current.now here.now.variables.now here.now.directory.now asked.now) result }
    ensures of { IfErr result MayComeBeforeSetupIsFound }
{
    let place = resolve_directory_or_current(alloc, worktree, here.current, here.directory)?;
    find_setup_requiring_top_to_delete(
        alloc,
        worktree,
        owners,
        here.current,
        here.variables,
        asked,
        place.as_bytes(),
    )
}
