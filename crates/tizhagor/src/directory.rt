//! The directory in which a command works.
ghost use Rattle.std.specs.Prelude.{◌≡◌, true, IfOk, IfErr};
ghost use Rattle.worktree_fs.specs.Answers.{kind_of_lookup};
ghost use Rattle.worktree_fs.specs.Changes.{real_path};
ghost use Rattle.worktree_fs.specs.Tree.{look};
ghost use Rattle.tizhagor.specs.Directory as words;
ghost use Rattle.tizhagor.specs.Finds.{FindsHereResultOverToldTree};
ghost use Rattle.tizhagor.specs.Refusals.{MayComeBeforeSetupIsFound};

use crate::refusal::CommandRefusal;
use git_places::Variable;
use gitbase_core::{Bytes, OutOfMemory, PathText};
use std::alloc::Global;
use worktree_fs::{NodeKind, Worktree};

/// Where a command is called: the current directory, an absolute path without links; the variables
/// of the environment; and the directory that `-C` names from the current one.
#[derive(Drop)]
pub struct Here<'a> {
    pub current: &'a [u8],
    pub variables: &'a [Variable],
    pub directory: &'a Option<Bytes>,
}

/// That nothing is at the directory that is named.
fn absent_directory_refusal(alloc: Global, name: &[u8]) -> Result<CommandRefusal, OutOfMemory>
    ensures { IfOk result (λ e. e ≡ CommandRefusal.Absent name.now) }
{
    Ok(CommandRefusal::Absent {
        directory: Bytes::from_slice(alloc, name)?,
    })
}

/// That what is named is no directory.
fn refusal_not_a_directory(alloc: Global, name: &[u8]) -> Result<CommandRefusal, OutOfMemory>
    ensures { IfOk result (λ e. e ≡ CommandRefusal.NotADirectory name.now) }
{
    Ok(CommandRefusal::NotADirectory {
        directory: Bytes::from_slice(alloc, name)?,
    })
}

/// A path without links, where a directory is at it.
fn require_directory_at_real_path<W: Worktree>(
    alloc: Global,
    worktree: &mut W,
    name: &[u8],
    real: PathText,
) -> Result<PathText, CommandRefusal>
    ensures finds { FindsHereResultOverToldTree W.Worktree worktree.old worktree.new
        (λ t. words.require_directory_kind name.now real (kind_of_lookup (look t real true)))
        result }
    ensures of { IfErr result MayComeBeforeSetupIsFound }
{
    match worktree.kind_following(alloc, real.as_bytes())? {
        Some(NodeKind::Directory) => Ok(real),
        Some(_) => Err(refusal_not_a_directory(alloc, name)?),
        None => Err(absent_directory_refusal(alloc, name)?),
    }
}

/// The directory that a name leads to from the current one, without links; an empty name leads
/// nowhere else.
///
/// # Errors
///
/// - `Absent`: nothing is there.
/// - `NotADirectory`: what is there is no directory.
/// - `Program(Fault)`: the worktree failed, which it counted.
/// - `Program(OutOfMemory)` for want of memory.
pub fn resolve_named_directory<W: Worktree>(
    alloc: Global,
    worktree: &mut W,
    current: &[u8],
    name: &[u8],
) -> Result<PathText, CommandRefusal>
    ensures finds { FindsHereResultOverToldTree W.Worktree worktree.old worktree.new
        (λ t. words.resolve_named_directory t current.now name.now) result }
    ensures of { IfErr result MayComeBeforeSetupIsFound }
{
    if name.is_empty() {
        return Ok(PathText::from_bytes(alloc, current)?);
    }
    match worktree.real_path(alloc, name, current)? {
        Some(real) => require_directory_at_real_path(alloc, worktree, name, real),
        None => Err(absent_directory_refusal(alloc, name)?),
    }
}
