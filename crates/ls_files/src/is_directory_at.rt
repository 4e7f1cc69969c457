//! What stands at a path of a work tree.
ghost use Rattle.std.specs.Prelude.{◌≡◌, IfOk, Ok};
ghost use Rattle.gitbase_core.specs.Path.{path_joined_with_slash};
ghost use Rattle.ls_files.specs.Excluded as words;
ghost use Rattle.ls_files.specs.Finds.{FindsInWorktree};

use crate::excluded_error::ExcludedError;
use gitbase_core::{OutOfMemory, PathText};
use std::alloc::Global;
use worktree_fs::{NodeKind, Worktree};

/// A path of the work tree at `root`, whole.
fn join_root_and_path(alloc: Global, root: &[u8], path: &[u8]) -> Result<PathText, OutOfMemory>
    ensures { IfOk result (λ whole. whole ≡ path_joined_with_slash root.now path.now) }
{
    let mut whole = PathText::from_bytes(alloc, root)?;
    whole.push_component(alloc, path)?;
    Ok(whole)
}

fn is_directory_node_kind(kind: Option<NodeKind>) -> bool
    ensures { result ≡ words.is_directory_node_kind kind }
{
    match kind {
        Some(NodeKind::Directory) => true,
        Some(NodeKind::File) => false,
        Some(NodeKind::Symlink) => false,
        Some(NodeKind::Untrackable) => false,
        None => false,
    }
}

/// Whether a directory stands at a path; a link is not followed.
pub fn is_worktree_path_directory<W: Worktree>(
    alloc: Global,
    worktree: &mut W,
    root: &[u8],
    path: &[u8],
) -> Result<bool, ExcludedError>
    ensures { FindsInWorktree W.Worktree worktree.old worktree.new
        (λ t. Ok (words.is_worktree_path_directory t root.now path.now)) result }
{
    let whole = join_root_and_path(alloc, root, path)?;
    let kind = worktree.kind(alloc, whole.as_bytes())?;
    Ok(is_directory_node_kind(kind))
}
