//! What stands on the way to a path.
ghost use Rattle.std.specs.Prelude.{◌≡◌, false, Some, IfOk, IfErr, OnOk, IsErrOf};
ghost use Rattle.gitbase_core.specs.Path.{components};
ghost use Rattle.worktree_fs.specs.Causes.{CountIncreasedOrSaturated};
ghost use Rattle.worktree_fs.specs.Kept.{KeepsTreeAndListCounts};
ghost use Rattle.worktree_fs.specs.Answers.{kind_of_lookup, HoldsUnlessFault};
ghost use Rattle.worktree_fs.specs.Tree.{Names, look};
ghost use Rattle.worktree_report.specs.Looks.{IsLookedAtOnWay, is_directory_kind};
ghost use Rattle.module_plan.specs.Ways as ways;

use crate::error::ModuleError;
use crate::seen::Seen;
use crate::step::Why;
use gitbase_core::PathText;
use std::alloc::Global;
use worktree_fs::{NodeKind, ReadError, Worktree};

/// The first node that is no directory on the way from a root to a path below it, or there. Nodes
/// that were looked at before are not looked at again.
///
/// See docs/DECISIONS.md#absent-bars-nothing.
/// See docs/DECISIONS.md#way-to-first-gap.
/// See docs/DECISIONS.md#too-long-path.
/// See docs/DECISIONS.md#plan-root-link.
pub(crate) fn first_obstacle_on_way<W: Worktree>(
    alloc: Global,
    worktree: &mut W,
    root: &[u8],
    seen: &mut Seen,
    path: &PathText,
) -> Result<Option<Why>, ModuleError>
    requires seen { ways.AreRecordedKindsRight (W.told worktree.old) seen.old }
    ensures obstacle { (t : Names) → W.told worktree.old ≡ Some t
        → IfOk result (λ why. why ≡ ways.first_obstacle_on_way t root.now (components path.now)) }
    ensures is { IfOk result ways.IsNoneLinkOrNonDirectory }
    ensures seen { OnOk result (ways.AreRecordedKindsRight (W.told worktree.old) seen.new) }
    ensures refused { IfErr result (ways.FailsLookingAtPath
        (IsLookedAtOnWay (W.told worktree.old) root.now (components path.now))
        (CountIncreasedOrSaturated (W.faults worktree.old) (W.faults worktree.new))) }
    ensures keeps { KeepsTreeAndListCounts W.Worktree worktree.old worktree.new }
    ensures unfaulted { ways.HoldsUnlessFault result (W.faults worktree.new
        ≡ W.faults worktree.old) }
    ensures reads { W.reads worktree.new ≡ W.reads worktree.old }
{
    let mut full = PathText::from_bytes(alloc, root)?;
    for name in path.components() {
        full.push_component(alloc, name)?;
        match kind_by_cache_or_worktree(alloc, worktree, seen, &full) {
            Ok(kind) => {
                if !is_directory_kind(kind) {
                    return Ok(obstacle_by_node_kind(kind));
                }
            }
            Err(ReadError::Fault) => return Err(ModuleError::Fault { path: full }),
            Err(ReadError::OutOfMemory) => return Err(ModuleError::OutOfMemory),
        }
    }
    Ok(None)
}

/// The kind of the node at a whole path, which is looked at unless it was before.
fn kind_by_cache_or_worktree<W: Worktree>(
    alloc: Global,
    worktree: &mut W,
    seen: &mut Seen,
    full: &PathText,
) -> Result<Option<NodeKind>, ReadError>
    requires seen { ways.AreRecordedKindsRight (W.told worktree.old) seen.old }
    ensures kind { (t : Names) → W.told worktree.old ≡ Some t
        → IfOk result (λ kind. kind ≡ kind_of_lookup (look t full.now false)) }
    ensures seen { OnOk result (ways.AreRecordedKindsRight (W.told worktree.old) seen.new) }
    ensures cause { IsErrOf result ReadError.Fault
        → CountIncreasedOrSaturated (W.faults worktree.old) (W.faults worktree.new) }
    ensures keeps { KeepsTreeAndListCounts W.Worktree worktree.old worktree.new }
    ensures unfaulted { HoldsUnlessFault result (W.faults worktree.new ≡ W.faults worktree.old) }
    ensures reads { W.reads worktree.new ≡ W.reads worktree.old }
{
    if let Some(kind) = seen.recorded_kind_at_path(full) {
        return Ok(kind);
    }
    let kind = kind_in_worktree(alloc, worktree, full)?;
    seen.add(alloc, full, kind)?;
    Ok(kind)
}

/// The kind of the node at a whole path.
fn kind_in_worktree<W: Worktree>(
    alloc: Global,
    worktree: &mut W,
    full: &PathText,
) -> Result<Option<NodeKind>, ReadError>
    ensures kind { (t : Names) → W.told worktree.old ≡ Some t
        → IfOk result (λ kind. kind ≡ kind_of_lookup (look t full.now false)) }
    ensures cause { IsErrOf result ReadError.Fault
        → CountIncreasedOrSaturated (W.faults worktree.old) (W.faults worktree.new) }
    ensures keeps { KeepsTreeAndListCounts W.Worktree worktree.old worktree.new }
    ensures unfaulted { HoldsUnlessFault result (W.faults worktree.new ≡ W.faults worktree.old) }
    ensures reads { W.reads worktree.new ≡ W.reads worktree.old }
{
    worktree.kind(alloc, full.as_bytes())
}

/// Whether a node of this kind is a directory; a link is none.
fn is_directory_kind(kind: Option<NodeKind>) -> bool
    ensures { result ≡ is_directory_kind kind }
{
    match kind {
        Some(NodeKind::Directory) => true,
        Some(NodeKind::File) => false,
        Some(NodeKind::Symlink) => false,
        Some(NodeKind::Untrackable) => false,
        None => false,
    }
}

/// Why nothing below a node of this kind is updated.
fn obstacle_by_node_kind(kind: Option<NodeKind>) -> Option<Why>
    ensures { result ≡ ways.obstacle_by_node_kind kind }
{
    match kind {
        None => None,
        Some(NodeKind::Directory) => None,
        Some(NodeKind::Symlink) => Some(Why::Link),
        Some(NodeKind::File) => Some(Why::NotADirectory),
        Some(NodeKind::Untrackable) => Some(Why::NotADirectory),
    }
}
