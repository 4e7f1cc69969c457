//! Directories that a checkout makes on the way to a path; gitoxide's
//! `gix_worktree::stack::delegate`.
ghost use Rattle.std.specs.Prelude.{◌≡◌, ◌⊎◌, ◌+◌, false};
ghost use Rattle.worktree_fs.specs.Answers.{kind_of_lookup};
ghost use Rattle.worktree_fs.specs.Tree.{look};
ghost use Rattle.gitbase_core.specs.Causes.{saturating_increment as one_more};
ghost use Rattle.worktree_stack.specs.Checkout.{CreatesLeadingDirectory, CountsOneOrTwoMkdirs, CountsAtMostOneMkdir, EnsuresDirectory, outcome_of_make_dir, outcome_of_unlink_then_make, outcome_by_existing_kind, outcome_of_ensuring_directory};

use crate::{AtPathError, DirectoryWhy};
use gitbase_core::{OutOfMemory, PathText};
use std::alloc::Global;
use worktree_fs::{MakeAnswer, NodeKind, ReadError, Worktree};

/// Sees to it that a directory is at a path, in a checkout; gitoxide's `create_leading_directory`.
///
/// A directory that is there is kept. Another node, a link among them, is a collision, or with
/// `unlink_on_collision` it is removed. The directory above is to be there. `mkdir_calls` counts
/// how often the worktree is asked to make a directory: once or twice.
///
/// # Errors
///
/// - `Collision`: a node that is no directory is there, and may not be removed; or one came there
///   meanwhile; or the worktree composes names, and the composed one is taken.
/// - `Directory` with `NoParent`: there is no directory above the path.
/// - `Directory` with `Fault`: the worktree failed, which it counted.
/// - `OutOfMemory`: memory is refused.
///
/// After the last two what was in the way may be gone, where it was to be removed and a directory
/// was asked for twice. An answer hides no fault: where a directory is there, none was counted.
///
/// See docs/DECISIONS.md#checkout-delegate.
pub(crate) fn create_leading_directory<W: Worktree>(
    alloc: Global,
    path: &[u8],
    unlink_on_collision: bool,
    worktree: &mut W,
    mkdir_calls: &mut usize,
) -> Result<(), AtPathError>
    ensures { CreatesLeadingDirectory W.Worktree worktree.old worktree.new unlink_on_collision
        path.now mkdir_calls.old mkdir_calls.new result }
{
    match make_or_keep_directory(alloc, path, unlink_on_collision, worktree, mkdir_calls) {
        Ok(MakeAnswer::Made) => Ok(()),
        Ok(MakeAnswer::Exists) => Err(collision_error(alloc, path)),
        Ok(MakeAnswer::NoParent) => Err(directory_error(alloc, path, DirectoryWhy::NoParent)),
        Err(ReadError::Fault) => Err(directory_error(alloc, path, DirectoryWhy::Fault)),
        Err(ReadError::OutOfMemory) => Err(AtPathError::OutOfMemory),
    }
}

/// The refusal of a path where something else is, or want of memory.
fn collision_error(alloc: Global, path: &[u8]) -> AtPathError
    ensures { (result ≡ AtPathError.Collision path.now) ⊎ (result ≡ AtPathError.OutOfMemory) }
{
    match PathText::from_bytes(alloc, path) {
        Ok(path) => AtPathError::Collision { path },
        Err(OutOfMemory) => AtPathError::OutOfMemory,
    }
}

/// The refusal of a path where no directory came to be, or want of memory.
fn directory_error(alloc: Global, path: &[u8], why: DirectoryWhy) -> AtPathError
    ensures { (result ≡ AtPathError.Directory path.now why)
        ⊎ (result ≡ AtPathError.OutOfMemory) }
{
    match PathText::from_bytes(alloc, path) {
        Ok(path) => AtPathError::Directory { path, why },
        Err(OutOfMemory) => AtPathError::OutOfMemory,
    }
}

/// Makes a directory at a path, unless one is there: what came of it. `Exists` says that something
/// else is there.
fn make_or_keep_directory<W: Worktree>(
    alloc: Global,
    path: &[u8],
    unlink_on_collision: bool,
    worktree: &mut W,
    mkdir_calls: &mut usize,
) -> Result<MakeAnswer, ReadError>
    ensures { EnsuresDirectory W.Worktree worktree.old worktree.new unlink_on_collision path.now
        (λ t. outcome_of_ensuring_directory unlink_on_collision (W.precomposes worktree.old) t
        path.now mkdir_calls.old) mkdir_calls.old mkdir_calls.new (mkdir_calls.old + 2)
        (one_more (one_more mkdir_calls.old)) (CountsOneOrTwoMkdirs mkdir_calls.old) result }
{
    match make_dir(alloc, path, worktree, mkdir_calls)? {
        MakeAnswer::Exists => keep_or_replace_existing_node(
            alloc,
            path,
            unlink_on_collision,
            worktree,
            mkdir_calls,
        ),
        answer => Ok(answer),
    }
}

/// Makes a directory at a path where something was met: a directory is kept.
/// See docs/DIFFERENCES.md#gix-checkout-gone.
fn keep_or_replace_existing_node<W: Worktree>(
    alloc: Global,
    path: &[u8],
    unlink_on_collision: bool,
    worktree: &mut W,
    mkdir_calls: &mut usize,
) -> Result<MakeAnswer, ReadError>
    ensures { EnsuresDirectory W.Worktree worktree.old worktree.new unlink_on_collision path.now
        (λ t. outcome_by_existing_kind unlink_on_collision (W.precomposes worktree.old) t path.now
        mkdir_calls.old (kind_of_lookup (look t path.now false))) mkdir_calls.old mkdir_calls.new
        (mkdir_calls.old + 1) (one_more mkdir_calls.old) (CountsAtMostOneMkdir mkdir_calls.old)
        result }
{
    let Some(kind) = worktree.kind(alloc, path)? else {
        return make_dir(alloc, path, worktree, mkdir_calls);
    };
    match kind {
        NodeKind::Directory => Ok(MakeAnswer::Made),
        _ => replace_with_directory_if_allowed(
            alloc,
            path,
            unlink_on_collision,
            worktree,
            mkdir_calls,
        ),
    }
}

/// Makes a directory in the place of another node, where that may be removed.
fn replace_with_directory_if_allowed<W: Worktree>(
    alloc: Global,
    path: &[u8],
    unlink_on_collision: bool,
    worktree: &mut W,
    mkdir_calls: &mut usize,
) -> Result<MakeAnswer, ReadError>
    ensures { EnsuresDirectory W.Worktree worktree.old worktree.new unlink_on_collision path.now
        (λ t. outcome_of_unlink_then_make unlink_on_collision (W.precomposes worktree.old) t
        path.now mkdir_calls.old) mkdir_calls.old mkdir_calls.new (mkdir_calls.old + 1)
        (one_more mkdir_calls.old) (CountsAtMostOneMkdir mkdir_calls.old) result }
{
    if !unlink_on_collision {
        return Ok(MakeAnswer::Exists);
    }
    worktree.remove_node(alloc, path)?;
    make_dir(alloc, path, worktree, mkdir_calls)
}

/// Asks the worktree to make a directory, which is counted.
fn make_dir<W: Worktree>(
    alloc: Global,
    path: &[u8],
    worktree: &mut W,
    mkdir_calls: &mut usize,
) -> Result<MakeAnswer, ReadError>
    ensures { EnsuresDirectory W.Worktree worktree.old worktree.new false path.now
        (λ t. outcome_of_make_dir (W.precomposes worktree.old) t path.now mkdir_calls.old)
        mkdir_calls.old mkdir_calls.new (mkdir_calls.old + 1) (one_more mkdir_calls.old) (λ n. n
        ≡ one_more mkdir_calls.old) result }
{
    *mkdir_calls = mkdir_calls.saturating_add(1);
    worktree.make_dir(alloc, path)
}
