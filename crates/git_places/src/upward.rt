//! From a directory upward: the nearest work tree.
ghost use Rattle.std.specs.Prelude.{◌≡◌, [], Some, IfOk};
ghost use Rattle.gitbase_core.specs.Path.{components};
ghost use Rattle.worktree_fs.specs.Tree.{Names};
ghost use Rattle.worktree_fs.specs.Owners.{OwnershipByPath};
ghost use Rattle.git_places.specs.Finds.{FindsInTreeAndOwners};
ghost use Rattle.git_places.specs.Limits as bounds;
ghost use Rattle.git_places.specs.Upward as words;

use crate::error::PlacesError;
use crate::git_directory::git_directory_of_work_tree_top;
use crate::limits::{Limits, path_with_leading_slash, require_search_may_enter};
use gitbase_core::{OutOfMemory, PathText};
use std::alloc::Global;
use std::marker::Model;
use worktree_fs::{Owners, Worktree};

/// A work tree as it is found, by its directory and its git directory.
///
/// Contracts see a record of both paths.
#[derive(Debug, Drop)]
pub struct Top {
    /// The directory at whose `.git` the git directory is, or is named.
    pub directory: PathText,
    /// The git directory, as it is spelled: `.git` itself, or what the file there names.
    pub git: PathText,
}

impl Model for Top {
    ghost use Rattle.git_places.specs.Upward as words;

    ghost Value = { words.WorkTreeTop };

    ghost view = { λ found. words.top found.directory found.git };
}

/// A path by its components alone, without a slash in front.
fn relative(alloc: Global, path: &[u8]) -> Result<PathText, OutOfMemory>
    ensures { IfOk result (λ made. made ≡ words.join_components [] (components path.now)) }
{
    let path = PathText::from_bytes(alloc, path)?;
    let mut made = PathText::new(alloc);
    for name in path.components() {
        made.push_component(alloc, name)?;
    }
    Ok(made)
}

/// The nearest work tree at or above a directory.
fn search_upward_for_top<W: Worktree, O: Owners>(
    alloc: Global,
    worktree: &mut W,
    owners: &mut O,
    current: &[u8],
    limits: &Limits,
) -> Result<Top, PlacesError>
    ensures { FindsInTreeAndOwners W.Worktree O.Owners worktree.old worktree.new owners.old
        owners.new (λ t owned. words.nearest_top_within_limits limits.now t owned current.now)
        result }
{
    let mut path = relative(alloc, current)?;
    loop {
        let directory = path_with_leading_slash(alloc, path.as_bytes())?;
        match git_directory_of_work_tree_top(alloc, worktree, directory.as_bytes())? {
            Some(git) => return Ok(Top { directory, git }),
            None => {}
        }
        // The path without its first slash: it is empty at the top, and nowhere else.
        if !path.pop_component() {
            return Err(PlacesError::NoRepository);
        }
        require_search_may_enter(alloc, owners, limits, path.as_bytes())?;
    }
}

/// The nearest work tree at or above `current`, an absolute path without links, `.` and `..`, as
/// git(1) finds it: the first directory, from `current` upward, whose `.git` is a git directory, a
/// link to one, or a file that names one. The search goes up into no ceiling, and into no directory
/// on another file system than the one that is not left.
///
/// # Errors
///
/// - `GitFileForm`, `GitFileTarget`: a file `.git` on the way names no git directory. No work tree
///   further up is taken in its place.
/// - `OddHead`: the `HEAD` of a directory on the way, where a git directory may be, is one that git
///   and the walk do not read alike, a link, or a device, a pipe or a socket.
/// - `CommonDir`: the `commondir` of one is no file, is empty, or names no directory.
/// - `Bare`: a directory on the way is itself a git directory.
/// - `NoRepository`: no directory up to the top, or up to a ceiling, is the top of a work tree.
/// - `Border`: none up to the border of the file system is, above which the directory at `path`
///   lies.
/// - `Fault`: the worktree failed, or the owners, which counted it. No fault reads as "none".
/// - `OutOfMemory` for want of memory.
#[tactic(auto, using(crate::proofs::Nearest::nearest))]
pub fn find_work_tree_top<W: Worktree, O: Owners>(
    alloc: Global,
    worktree: &mut W,
    owners: &mut O,
    current: &[u8],
    limits: &Limits,
) -> Result<Top, PlacesError>
    ensures finds { FindsInTreeAndOwners W.Worktree O.Owners worktree.old worktree.new owners.old
        owners.new (λ t owned. words.nearest_top_within_limits limits.now t owned current.now)
        result }
    ensures nearest { (t : Names) (owned : OwnershipByPath) → W.told worktree.old ≡ Some t
        → O.told owners.old ≡ Some owned → IfOk result
        (words.IsNearestTop (bounds.error_where_search_stops owned limits.now) t current.now) }
{
    search_upward_for_top(alloc, worktree, owners, current, limits)
}
