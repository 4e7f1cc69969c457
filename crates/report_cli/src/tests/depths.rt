//! Chains of directories, one in another, that are walked to a limit.
use crate::tests::{REPORT, ROOM, run_with_limited_output, tree};
use gitbase_core::OutOfMemory;
use std::alloc::Global;
use worktree_fs::NewNode;

/// A limit that is the one of a setup without it.
pub const LIMITED: &[u8] = b"depth 256\n";

/// The deepest tree that a setup can ask for, in which each directory is entered without a look for
/// rules or repositories.
pub const DEEPEST: &[u8] = b"depth 1000\noption recurse_repositories yes\noption excludes no\n";

/// `/w/d/d/..`, so many directories one in another below `/w`.
fn nested_directory_path(alloc: Global, depth: usize) -> Result<Vec<u8>, OutOfMemory> {
    let mut path = b"/w".to_vec(alloc)?;
    for _ in 0..depth {
        path.extend_from_slice(b"/d")?;
    }
    Ok(path)
}

/// Whether the directory at this path is said to be too deep.
fn says_path_is_too_deep(said: &[u8], path: &[u8]) -> bool {
    match said.strip_prefix(b"walk: too-deep ") {
        Some(rest) => rest.strip_suffix(b"\n") == Some(path),
        None => false,
    }
}

/// Whether a chain of this depth is walked to its end, or else its last directory is said to be too
/// deep.
pub fn is_chain_walked_to_depth(alloc: Global, depth: usize, setup: &[u8]) -> Option<bool> {
    let path = nested_directory_path(alloc, depth).ok()?;
    let mut tree = tree(alloc, &[(&path, NewNode::Directory)], setup).ok()?;
    let answer = run_with_limited_output(alloc, REPORT, &mut tree, ROOM, u64::MAX).ok()?;
    match answer.status {
        0 => Some(answer.is(0, b"", b"")),
        4 if says_path_is_too_deep(answer.err.written_bytes(), &path) => Some(false),
        _ => None,
    }
}
