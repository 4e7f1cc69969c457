//! Lookups after which a platform may be asked where they are answered, in whatever state the stack
//! is.
ghost use Rattle.std.specs.Prelude.{◌≡◌, true, OnOk};

use gitbase_core::{Find, Mode};
use std::alloc::Global;
use worktree_fs::Worktree;
use worktree_stack::{AtPathError, Stack};

/// Looks a path up, as `Stack::at_path` does.
pub fn look_up_path<W: Worktree, F: Find>(
    alloc: Global,
    stack: &mut Stack,
    path: &[u8],
    mode: Option<Mode>,
    worktree: &mut W,
    objects: &mut F,
) -> Result<(), AtPathError>
    ensures { OnOk result (stack.new.is_answered ≡ true) }
{
    stack.at_path(alloc, path, mode, worktree, objects)
}

/// Looks an entry of an index up, as `Stack::at_entry` does.
pub fn look_up_entry<W: Worktree, F: Find>(
    alloc: Global,
    stack: &mut Stack,
    path: &[u8],
    mode: Option<Mode>,
    worktree: &mut W,
    objects: &mut F,
) -> Result<(), AtPathError>
    ensures { OnOk result (stack.new.is_answered ≡ true) }
{
    stack.at_entry(alloc, path, mode, worktree, objects)
}
