//! The way from the root to an index path.
ghost use Rattle.std.specs.Prelude.{◌≡◌, false, true, Some, IfOk, IfErr, IfSome, IsErrOf};
ghost use Rattle.gitbase_core.specs.Path.{components};
ghost use Rattle.worktree_fs.specs.Answers.{kind_of_lookup, HoldsUnlessFault};
ghost use Rattle.worktree_fs.specs.Causes.{CountIncreasedOrSaturated};
ghost use Rattle.worktree_fs.specs.Kept.{KeepsTreeAndListCounts};
ghost use Rattle.worktree_fs.specs.Tree.{Names, look};
ghost use Rattle.worktree_report.specs.Looks.{IsDirectoryInToldTree, IsLookedAtOnWay, is_directory_kind};
ghost use Rattle.index_status.specs.Ways as ways;

use crate::error::StatesError;
use gitbase_core::{PathText, split_first_component};
use std::alloc::Global;
use worktree_fs::{NodeKind, ReadError, Worktree};

/// What was learnt of the ways from a root: directories alone lead to a path, or to the node that
/// bars the way to it, by its whole path; that is no directory.
#[derive(Drop)]
pub struct Known<'a> {
    pub path: &'a [u8],
    pub barred: Option<PathText>,
}

/// Where a way leads.
#[derive(Drop)]
pub enum Way {
    /// To this whole path, past directories alone.
    Open(PathText),
    /// No further than to this whole path, past directories alone; what stands there is none.
    Barred(PathText),
}

/// Whether directories alone lead to the node at a path below a root. What is known of another way
/// is not looked at again.
///
/// See docs/DIFFERENCES.md#status-behind-link.
pub(crate) fn open_or_barred_way_to_path<W: Worktree>(
    alloc: Global,
    worktree: &mut W,
    root: &[u8],
    known: &Known<'_>,
    path: &PathText,
) -> Result<Way, StatesError>
    requires known { ways.KnowsWayToPath (W.told worktree.old) root.now known.now.barred
        (components known.now.path.now) }
    ensures way { (t : Names) → W.told worktree.old ≡ Some t
        → IfOk result (λ found. ways.full_path_if_open found ≡ ways.path_through_directories t
        root.now (components path.now)) }
    ensures on_way { IfOk result (λ found. IfSome (ways.full_path_if_open found)
        (IsLookedAtOnWay (W.told worktree.old) root.now (components path.now))) }
    ensures known { IfOk result (λ found. ways.KnowsWayToPath (W.told worktree.old) root.now
        (ways.full_path_of_bar found) (components path.now)) }
    ensures refused { IfErr result (ways.StopsByFaultAtSomePathOrMemory
        (IsLookedAtOnWay (W.told worktree.old) root.now (components path.now))
        (CountIncreasedOrSaturated (W.faults worktree.old) (W.faults worktree.new))) }
    ensures keeps { KeepsTreeAndListCounts W.Worktree worktree.old worktree.new }
    ensures unfaulted { ways.HoldsUnlessStatesFault result (W.faults worktree.new
        ≡ W.faults worktree.old) }
    ensures reads { W.reads worktree.new ≡ W.reads worktree.old }
{
    let mut full = PathText::from_bytes(alloc, root)?;
    let mut names = path.components();
    let Some(first) = names.next() else {
        return Ok(Way::Open(full));
    };
    let mut name = first;
    let mut left = known.path;
    for next in names {
        full.push_component(alloc, name)?;
        left = path_after_component_if_first(left, name);
        match is_known_or_found_directory(alloc, worktree, &known.barred, &full, left) {
            Ok(true) => name = next,
            Ok(false) => return Ok(Way::Barred(full)),
            Err(ReadError::Fault) => return Err(StatesError::Fault { path: full }),
            Err(ReadError::OutOfMemory) => return Err(StatesError::OutOfMemory),
        }
    }
    full.push_component(alloc, name)?;
    Ok(Way::Open(full))
}

/// What is left of a path behind a component, if that is its first one; else nothing.
fn path_after_component_if_first<'a>(path: &'a [u8], name: &[u8]) -> &'a [u8]
    ensures { ways.IsRestBehindNameOrNothing (components path.now) name.now
        (components result.now) }
{
    match split_first_component(path) {
        Some((first, rest)) if first == name => rest,
        _ => b"",
    }
}

/// Whether a path has a component.
fn has_any_component(path: &[u8]) -> bool
    ensures { result ≡ ways.has_any_name (components path.now) }
{
    split_first_component(path).is_some()
}

/// Whether a whole path is that of the node that bars a way, if one does.
fn is_barring_node(barred: &Option<PathText>, full: &PathText) -> bool
    ensures { result ≡ ways.is_barring_node barred.now full.now }
{
    match barred {
        Some(bar) => bar.as_bytes() == full.as_bytes(),
        None => false,
    }
}

/// Whether the node at a whole path is a directory. It is not looked at where it bars a way, and
/// where a known path goes on behind it.
fn is_known_or_found_directory<W: Worktree>(
    alloc: Global,
    worktree: &mut W,
    barred: &Option<PathText>,
    full: &PathText,
    left: &[u8],
) -> Result<bool, ReadError>
    requires bar { ways.BarIsNoDirectory (W.told worktree.old) barred.now }
    requires known { ways.is_barring_node barred.now full.now ≡ false
        → ways.has_any_name (components left.now) ≡ true
        → IsDirectoryInToldTree (W.told worktree.old) full.now }
    ensures passes { IfOk result (λ is. is ≡ true → ways.is_barring_node barred.now full.now
        ≡ false) }
    ensures is { (t : Names) → W.told worktree.old ≡ Some t
        → IfOk result (λ is. is ≡ is_directory_kind (kind_of_lookup (look t full.now false))) }
    ensures cause { IsErrOf result ReadError.Fault
        → CountIncreasedOrSaturated (W.faults worktree.old) (W.faults worktree.new) }
    ensures keeps { KeepsTreeAndListCounts W.Worktree worktree.old worktree.new }
    ensures unfaulted { HoldsUnlessFault result (W.faults worktree.new ≡ W.faults worktree.old) }
    ensures reads { W.reads worktree.new ≡ W.reads worktree.old }
{
    if is_barring_node(barred, full) {
        return Ok(false);
    }
    if has_any_component(left) {
        return Ok(true);
    }
    is_real_directory_at(alloc, worktree, full)
}

/// Whether the node at a whole path is a directory; a link is none.
fn is_real_directory_at<W: Worktree>(
    alloc: Global,
    worktree: &mut W,
    full: &PathText,
) -> Result<bool, ReadError>
    ensures is { (t : Names) → W.told worktree.old ≡ Some t
        → IfOk result (λ is. is ≡ is_directory_kind (kind_of_lookup (look t full.now false))) }
    ensures cause { IsErrOf result ReadError.Fault
        → CountIncreasedOrSaturated (W.faults worktree.old) (W.faults worktree.new) }
    ensures keeps { KeepsTreeAndListCounts W.Worktree worktree.old worktree.new }
    ensures unfaulted { HoldsUnlessFault result (W.faults worktree.new ≡ W.faults worktree.old) }
    ensures reads { W.reads worktree.new ≡ W.reads worktree.old }
{
    Ok(is_directory_node_kind(worktree.kind(alloc, full.as_bytes())?))
}

fn is_directory_node_kind(kind: Option<NodeKind>) -> bool
    ensures { result ≡ is_directory_kind kind }
{
    match kind {
        Some(NodeKind::Directory) => true,
        Some(NodeKind::File) => false,
        Some(NodeKind::Symlink) => false,
        Some(NodeKind::Untrackable) => false,
        None => false,
    }
}
