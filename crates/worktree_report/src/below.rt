//! Paths below a directory by their components.
ghost use Rattle.std.specs.Prelude.{◌≡◌, ℕ, length, drop, IfOk};
ghost use Rattle.gitbase_core.specs.Path.{components};
ghost use Rattle.worktree_report.specs.Below.{join_first_components, join_components_through};

use gitbase_core::{OutOfMemory, PathText, split_first_component};
use std::alloc::Global;

/// A directory and the first components of a path below it, so many of them, or all where there are
/// no more.
pub fn join_first_components(
    alloc: Global,
    directory: &[u8],
    count: usize,
    path: &[u8],
) -> Result<PathText, OutOfMemory>
    ensures { IfOk result (λ front. front ≡ join_first_components directory.now count (components
        path.now)) }
{
    let mut front = PathText::from_bytes(alloc, directory)?;
    let mut left = count;
    let mut rest = path;
    while left > 0 {
        let Some((name, after)) = split_first_component(rest) else {
            return Ok(front);
        };
        front.push_component(alloc, name)?;
        left -= 1;
        rest = after;
    }
    Ok(front)
}

/// A directory and the components of a path below it, up to the one with this number, from 0.
pub fn join_components_through(
    alloc: Global,
    directory: &[u8],
    number: usize,
    path: &[u8],
) -> Result<PathText, OutOfMemory>
    ensures { IfOk result (λ front. front ≡ join_components_through directory.now number (components
        path.now)) }
{
    let mut front = PathText::from_bytes(alloc, directory)?;
    let Some((name, after)) = split_first_component(path) else {
        return Ok(front);
    };
    front.push_component(alloc, name)?;
    join_first_components(alloc, front.as_bytes(), number, after)
}

/// What stands behind so many bytes of a path.
pub fn bytes_behind_length(path: &[u8], length: usize) -> &[u8]
    ensures { result.now ≡ drop length path.now }
{
    if path.len() < length {
        return &[];
    }
    let (_, rest) = path.split_at(length);
    rest
}
