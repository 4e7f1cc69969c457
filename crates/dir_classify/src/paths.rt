//! Paths below the worktree root.
ghost use Rattle.std.specs.Prelude.{◌≡◌, IfOk};
ghost use Rattle.dir_classify.specs.Paths.{root_joined_with_relative};

use gitbase_core::{OutOfMemory, PathText};
use std::alloc::Global;

/// The whole path of one that is relative to the worktree root: the root itself for the empty path.
/// A slash stands between the two, unless the root ends in one.
///
/// # Errors
///
/// - `OutOfMemory`: memory was refused.
pub fn join_worktree_root(
    alloc: Global,
    worktree_root: &[u8],
    path: &[u8],
) -> Result<PathText, OutOfMemory>
    ensures { IfOk result (λ full. full ≡ root_joined_with_relative worktree_root.now path.now) }
{
    let mut full = PathText::from_bytes(alloc, worktree_root)?;
    if !path.is_empty() {
        full.push_component(alloc, path)?;
    }
    Ok(full)
}
