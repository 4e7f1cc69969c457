//! The git directories of a work tree that lie in it under another name than `.git`.
ghost use Rattle.std.specs.Prelude.{◌≡◌, IfOk, Ok};
ghost use Rattle.git_setup.specs.Finds.{FindsOverToldTree};
ghost use Rattle.git_setup.specs.OwnDirectories as words;
ghost use Rattle.git_setup.specs.Placed.{path_below_root};

use crate::error::GitRefusal;
use crate::placed::path_below_root;
use git_places::Places;
use gitbase_core::{OutOfMemory, PathText, basename, is_dot_git_ignoring_case};
use std::alloc::Global;
use worktree_fs::Worktree;

/// The git directories of a work tree that lie in it under another name than `.git`, by their paths
/// from the top: as where `.git` is a link to a directory beside it, or a file that names one.
#[derive(Debug, Drop)]
pub struct OwnDirectories {
    /// The git directory of the work tree.
    pub git: Option<PathText>,
    /// What all work trees of the repository share.
    pub common: Option<PathText>,
}

/// Whether a deletion could take a path below the top.
fn is_below_top_not_dot_git(path: &[u8]) -> bool
    ensures { result ≡ words.is_below_top_not_dot_git path.now }
{
    !path.is_empty() && !is_dot_git_ignoring_case(basename(path))
}

/// A path from the top, of one below it that a deletion could take.
fn relative_path_below_top_unless_dot_git(
    alloc: Global,
    root: &[u8],
    real: &[u8],
) -> Result<Option<PathText>, OutOfMemory>
    ensures { IfOk result (λ found. found ≡ words.relative_path_below_top_unless_dot_git
        (path_below_root root.now real.now)) }
{
    match path_below_root(root, real) {
        Some(path) if is_below_top_not_dot_git(path) => Ok(Some(PathText::from_bytes(
            alloc, path,
        )?)),
        _ => Ok(None),
    }
}

/// Where a directory lies below the top, if a deletion could take it.
fn real_path_below_unless_dot_git<W: Worktree>(
    alloc: Global,
    worktree: &mut W,
    root: &[u8],
    directory: &[u8],
) -> Result<Option<PathText>, GitRefusal>
    ensures { FindsOverToldTree W.Worktree worktree.old worktree.new
        (λ t. Ok (words.relative_path_below_top_unless_dot_git (words.real_path_below_top t root.now
        directory.now))) result }
{
    match worktree.real_path(alloc, directory, b"/")? {
        Some(real) => Ok(relative_path_below_top_unless_dot_git(alloc, root, real.as_bytes())?),
        None => Ok(None),
    }
}

/// The git directories of a work tree that a deletion could take.
fn git_dirs_needing_protection<W: Worktree>(
    alloc: Global,
    worktree: &mut W,
    places: &Places,
) -> Result<OwnDirectories, GitRefusal>
    ensures { FindsOverToldTree W.Worktree worktree.old worktree.new
        (λ t. Ok (words.git_dirs_needing_protection t places.now)) result }
{
    let root = places.root.as_bytes();
    let git = real_path_below_unless_dot_git(alloc, worktree, root, places.git_dir.as_bytes())?;
    let common = real_path_below_unless_dot_git(
        alloc,
        worktree,
        root,
        places.common_dir.as_bytes(),
    )?;
    Ok(OwnDirectories { git, common })
}

/// The same where something is to be deleted, and none else.
pub fn git_dirs_needing_protection_if_deleting<W: Worktree>(
    alloc: Global,
    worktree: &mut W,
    deletes: bool,
    places: &Places,
) -> Result<OwnDirectories, GitRefusal>
    ensures { FindsOverToldTree W.Worktree worktree.old worktree.new
        (λ t. Ok (words.git_dirs_needing_protection_if_deleting deletes t places.now)) result }
{
    if deletes {
        return git_dirs_needing_protection(alloc, worktree, places);
    }
    Ok(OwnDirectories {
        git: None,
        common: None,
    })
}
