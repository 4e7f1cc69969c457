//! What stands at the path of an entry.
ghost use Rattle.std.specs.Prelude.{◌≡◌, Some, IfOk, IsErrOf, unwrap_or};
ghost use Rattle.gitbase_core.specs.Path.{components, path_joined_with_slash};
ghost use Rattle.worktree_fs.specs.Answers.{HoldsUnlessFault};
ghost use Rattle.worktree_fs.specs.Causes.{CountIncreasedOrSaturated};
ghost use Rattle.diff_files.specs.KeptStats.{KeepsToldStats};
ghost use Rattle.diff_files.specs.Stats.{StatsByPath};
ghost use Rattle.diff_files.specs.There as words;

use crate::modes::is_directory_mode;
use crate::stats::Stats;
use crate::stats::node_stat::NodeStat;
use gitbase_core::{Bytes, IndexEntry, OutOfMemory, PathText, split_first_component};
use std::alloc::Global;
use worktree_fs::ReadError;

/// The whole path of an entry.
pub fn full_path_of_entry(
    alloc: Global,
    root: &[u8],
    entry: &IndexEntry,
) -> Result<PathText, OutOfMemory>
    ensures { IfOk result (λ full. full ≡ path_joined_with_slash root.now entry.now.path) }
{
    let mut full = PathText::from_bytes(alloc, root)?;
    full.push_component(alloc, entry.path.as_bytes())?;
    Ok(full)
}

/// Whether what is told is told of a directory.
fn is_directory_stat(at: Option<NodeStat>) -> bool
    ensures { result ≡ words.is_directory_stat at }
{
    match at {
        Some(at) => is_directory_mode(at.mode),
        None => false,
    }
}

/// Whether the node at a whole path is a directory; a link is none.
fn is_directory_at_full_path<S: Stats>(stats: &mut S, full: &[u8]) -> Result<bool, ReadError>
    ensures is { (t : StatsByPath) → S.told stats.old ≡ Some t
        → IfOk result (λ is. is ≡ words.is_directory_stat (t.stat_at full.now)) }
    ensures kept { KeepsToldStats S.Stats stats.old stats.new }
    ensures cause { IsErrOf result ReadError.Fault
        → CountIncreasedOrSaturated (S.faults stats.old) (S.faults stats.new) }
    ensures unfaulted { HoldsUnlessFault result (S.faults stats.new ≡ S.faults stats.old) }
{
    Ok(is_directory_stat(stats.stat(full)?))
}

/// Whether directories alone lead along a path from a root, the last one among them.
fn leads_only_through_directories<S: Stats>(
    alloc: Global,
    stats: &mut S,
    root: &[u8],
    directory: &[u8],
) -> Result<bool, ReadError>
    ensures is { (t : StatsByPath) → S.told stats.old ≡ Some t
        → IfOk result (λ is. is
        ≡ words.leads_only_through_directories t root.now (components directory.now)) }
    ensures kept { KeepsToldStats S.Stats stats.old stats.new }
    ensures cause { IsErrOf result ReadError.Fault
        → CountIncreasedOrSaturated (S.faults stats.old) (S.faults stats.new) }
    ensures unfaulted { HoldsUnlessFault result (S.faults stats.new ≡ S.faults stats.old) }
{
    let mut full = PathText::from_bytes(alloc, root)?;
    let mut left = directory;
    while let Some((name, after)) = split_first_component(left) {
        full.push_component(alloc, name)?;
        if !is_directory_at_full_path(stats, full.as_bytes())? {
            return Ok(false);
        }
        left = after;
    }
    Ok(true)
}

/// The directory that holds the path of an entry.
fn parent_directory_of_entry(entry: &IndexEntry) -> &[u8]
    ensures { result.now ≡ words.parent_directory_of_path entry.now.path }
{
    match entry.path.parent() {
        Some(directory) => directory,
        None => b"",
    }
}

/// Whether directories alone lead to the path of an entry. Where they are known to lead is not
/// asked again, and `known` becomes where they do.
///
/// See docs/DECISIONS.md#stats-once-a-directory.
fn has_only_directories_above<S: Stats>(
    alloc: Global,
    stats: &mut S,
    root: &[u8],
    known: &mut Bytes,
    entry: &IndexEntry,
) -> Result<bool, ReadError>
    requires known { words.LeadsKnownPathThroughDirectories (S.told stats.old) root.now known.old }
    ensures is { (t : StatsByPath) → S.told stats.old ≡ Some t
        → IfOk result (λ is. is ≡ words.has_only_directories_above t root.now entry.now.path) }
    ensures known { words.LeadsKnownPathThroughDirectories (S.told stats.old) root.now known.new }
    ensures kept { KeepsToldStats S.Stats stats.old stats.new }
    ensures cause { IsErrOf result ReadError.Fault
        → CountIncreasedOrSaturated (S.faults stats.old) (S.faults stats.new) }
    ensures unfaulted { HoldsUnlessFault result (S.faults stats.new ≡ S.faults stats.old) }
{
    let directory = parent_directory_of_entry(entry);
    if directory == known.as_bytes() {
        return Ok(true);
    }
    if !leads_only_through_directories(alloc, stats, root, directory)? {
        return Ok(false);
    }
    known.set(alloc, directory)?;
    Ok(true)
}

/// What stands at the path of an entry; behind a link nothing does.
pub fn stat_unless_behind_link<S: Stats>(
    alloc: Global,
    stats: &mut S,
    root: &[u8],
    known: &mut Bytes,
    full: &PathText,
    entry: &IndexEntry,
) -> Result<Option<NodeStat>, ReadError>
    requires full { full.now ≡ path_joined_with_slash root.now entry.now.path }
    requires known { words.LeadsKnownPathThroughDirectories (S.told stats.old) root.now known.old }
    ensures there { (t : StatsByPath) → S.told stats.old ≡ Some t
        → IfOk result (λ at. at ≡ words.stat_unless_behind_link t root.now entry.now.path) }
    ensures known { words.LeadsKnownPathThroughDirectories (S.told stats.old) root.now known.new }
    ensures kept { KeepsToldStats S.Stats stats.old stats.new }
    ensures cause { IsErrOf result ReadError.Fault
        → CountIncreasedOrSaturated (S.faults stats.old) (S.faults stats.new) }
    ensures unfaulted { HoldsUnlessFault result (S.faults stats.new ≡ S.faults stats.old) }
{
    if !has_only_directories_above(alloc, stats, root, known, entry)? {
        return Ok(None);
    }
    stats.stat(full.as_bytes())
}

/// Whether something is called `.git` in the directory at a whole path.
pub fn has_node_named_dot_git<S: Stats>(
    alloc: Global,
    stats: &mut S,
    full: &PathText,
) -> Result<bool, ReadError>
    ensures holds { (t : StatsByPath) → S.told stats.old ≡ Some t
        → IfOk result (λ holds. holds ≡ words.has_node_named_dot_git t full.now) }
    ensures kept { KeepsToldStats S.Stats stats.old stats.new }
    ensures cause { IsErrOf result ReadError.Fault
        → CountIncreasedOrSaturated (S.faults stats.old) (S.faults stats.new) }
    ensures unfaulted { HoldsUnlessFault result (S.faults stats.new ≡ S.faults stats.old) }
{
    let below = full.join(alloc, b".git")?;
    Ok(stats.stat(below.as_bytes())?.is_some())
}
