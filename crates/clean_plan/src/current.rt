//! Where the current directory is in a work tree.
ghost use Rattle.std.specs.Prelude.{◌≡◌, Some, IfOk, IfErr, drop, length, option_and_then, option_copied};
ghost use Rattle.gitbase_core.specs.Path.{normalized, without_leading_slashes};
ghost use Rattle.worktree_fs.specs.Causes.{CountIncreasedOrSaturated};
ghost use Rattle.worktree_fs.specs.Kept.{KeepsTreeAndListCounts};
ghost use Rattle.worktree_fs.specs.Tree.{Names};
ghost use Rattle.dir_classify.specs.Layers.{current_directory_in_worktree, rest_behind_directory};
ghost use Rattle.worktree_report.specs.Asked.{current_dir_or_root};
ghost use Rattle.clean_plan.specs.Refusals.{HasFaultOrMemoryCause, HoldsUnlessCleanFault};
ghost use Rattle.clean_plan.specs.Setups.{traversal_root_relative_to_work_tree};

use crate::error::CleanError;
use gitbase_core::{
    OutOfMemory, PathText, needs_slash_before_component, strip_directory_prefix,
    without_leading_slashes,
};
use std::alloc::Global;
use worktree_fs::{ReadError, Worktree};
use worktree_report::Setup;

/// The rest of a path behind a directory that it is or lies beneath.
fn path_below_directory<'a>(directory: &[u8], path: &'a [u8]) -> Option<&'a [u8]>
    ensures { option_copied result ≡ rest_behind_directory directory.now path.now }
{
    if directory == path {
        return Some(&[]);
    }
    strip_directory_prefix(path, directory)
}

/// A path as it reads from a directory that it is or lies beneath, made normal as a relative path.
fn normalized_path_below_directory(
    alloc: Global,
    directory: &[u8],
    path: &[u8],
) -> Result<Option<PathText>, OutOfMemory>
    ensures { IfOk result (λ below. below ≡ option_and_then
        (λ rest. normalized (without_leading_slashes rest)) (rest_behind_directory directory.now
        path.now)) }
{
    match path_below_directory(directory, path) {
        Some(rest) => PathText::from_bytes(alloc, without_leading_slashes(rest))?.normalize(alloc),
        None => Ok(None),
    }
}

/// The current directory as it reads from the root of a work tree, where it is that or lies
/// beneath.
pub(crate) fn current_dir_below_root<W: Worktree>(
    alloc: Global,
    worktree: &mut W,
    root: &[u8],
    current_dir: &[u8],
) -> Result<Option<PathText>, CleanError>
    ensures below { (t : Names) → W.told worktree.old ≡ Some t
        → IfOk result (λ below. below ≡ current_directory_in_worktree t root.now current_dir.now) }
    ensures refused { IfErr result (HasFaultOrMemoryCause (CountIncreasedOrSaturated
        (W.faults worktree.old) (W.faults worktree.new))) }
    ensures unfaulted { HoldsUnlessCleanFault result (W.faults worktree.new
        ≡ W.faults worktree.old) }
    ensures keeps { KeepsTreeAndListCounts W.Worktree worktree.old worktree.new }
    ensures reads { W.reads worktree.new ≡ W.reads worktree.old }
{
    match worktree.real_path(alloc, root, current_dir) {
        Ok(Some(real)) => Ok(normalized_path_below_directory(alloc, real.as_bytes(), current_dir)?),
        Ok(None) => Ok(None),
        Err(ReadError::Fault) => Err(CleanError::Fault),
        Err(ReadError::OutOfMemory) => Err(CleanError::OutOfMemory),
    }
}

/// The current directory of a setup; the root of the work tree where it gives none.
pub(crate) fn current_dir_or_work_tree_root<'a>(root: &'a [u8], setup: &'a Setup) -> &'a [u8]
    ensures { result.now ≡ current_dir_or_root root.now setup.now.current_dir }
{
    match &setup.current_dir {
        Some(path) => path.as_bytes(),
        None => root,
    }
}

/// A traversal root as it reads from the root of the work tree, by its whole path.
pub(crate) fn traversal_root_relative_to_work_tree<'a>(root: &[u8], whole: &'a [u8]) -> &'a [u8]
    ensures { result.now ≡ traversal_root_relative_to_work_tree root.now whole.now }
{
    if needs_slash_before_component(root) {
        return path_bytes_after_length(whole, root.len().saturating_add(1));
    }
    path_bytes_after_length(whole, root.len())
}

/// What stands behind so many bytes of a path.
fn path_bytes_after_length(path: &[u8], length: usize) -> &[u8]
    ensures { result.now ≡ drop length path.now }
{
    if path.len() < length {
        return &[];
    }
    &path[length..]
}
