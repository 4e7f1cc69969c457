//! Whether a path leads to a repository.
ghost use Rattle.std.specs.Prelude.{◌≡◌, ◌≤◌, ◌<◌, ◌+◌, Some, None, Ok, IfOk, IsErrOf, if◌then◌else◌, unwrap_or, option_and_then, [], true, false};
ghost use Rattle.gitbase_core.specs.Path.{parent};
ghost use Rattle.worktree_fs.specs.Tree.{Names, look};
ghost use Rattle.worktree_fs.specs.Answers.{kind_of_lookup, HoldsUnlessFault};
ghost use Rattle.worktree_fs.specs.Causes.{CountNotIncreased, CountIncreasedOrSaturated};
ghost use Rattle.worktree_fs.specs.Kept.{KeepsTreeAndListCounts};
ghost use Rattle.worktree_fs.specs.Changes.{real_path, resolve_path_from_directory};
ghost use Rattle.worktree_fs.specs.Repository.{is_same_path_if_present, is_git, is_git_directory, is_file_naming_git_directory, is_git_directory_by_commondir, gitdir_path, is_lookup_of_directory, bytes_of_file_lookup, is_present_head_file_text, common_git_directory};

use crate::git_texts::{gitdir_path, is_head_file_text, without_trailing_line_ends};
use crate::names::resolve_path_from_directory;
use crate::{NodeKind, ReadAnswer, ReadError, Worktree};
use gitbase_core::{Bytes, OutOfMemory, PathText};
use std::alloc::Global;

/// Whether the path without links of what a path leads to is `own`; false where it leads to
/// nothing, and where the question failed, which is counted.
///
/// # Errors
///
/// - `OutOfMemory` for want of memory.
pub fn real_path_is<W: Worktree>(
    alloc: Global,
    worktree: &mut W,
    path: &[u8],
    cwd: &[u8],
    own: &[u8],
) -> Result<bool, OutOfMemory>
    ensures answer { (t : Names) → W.told worktree.old ≡ Some t
        → CountNotIncreased (W.faults worktree.old) (W.faults worktree.new)
        → IfOk result (λ is. is ≡ is_same_path_if_present (real_path t path.now cwd.now) own.now) }
    ensures true_only { (t : Names) → W.told worktree.old ≡ Some t → result ≡ Ok true
        → is_same_path_if_present (real_path t path.now cwd.now) own.now ≡ true }
    ensures faulted { W.faults worktree.old < W.faults worktree.new → result ≡ Ok false }
    ensures kept { KeepsTreeAndListCounts W.Worktree worktree.old worktree.new }
    ensures reads { W.reads worktree.new ≡ W.reads worktree.old }
{
    match worktree.real_path(alloc, path, cwd) {
        Ok(Some(real)) => Ok(real.as_bytes() == own),
        Ok(None) | Err(ReadError::Fault) => Ok(false),
        Err(ReadError::OutOfMemory) => Err(OutOfMemory),
    }
}

/// Whether a path, links followed, leads to a repository: to a git directory, or to a file that
/// names one; false too where a question failed, which is counted. Nothing is read where the path
/// leads nowhere; else at most three files are: the one at the path, and `commondir` and `HEAD` of
/// the git directory.
///
/// # Errors
///
/// - `OutOfMemory` for want of memory.
///
/// See docs/DECISIONS.md#failed-repository-test.
/// See docs/DECISIONS.md#real-disk-paths.
/// See docs/DIFFERENCES.md#git-file-size.
pub fn is_git<W: Worktree>(
    alloc: Global,
    worktree: &mut W,
    path: &[u8],
) -> Result<bool, OutOfMemory>
    ensures answer { (t : Names) → W.told worktree.old ≡ Some t
        → CountNotIncreased (W.faults worktree.old) (W.faults worktree.new)
        → IfOk result (λ is. is ≡ is_git t path.now) }
    ensures true_only { (t : Names) → W.told worktree.old ≡ Some t → result ≡ Ok true
        → is_git t path.now ≡ true }
    ensures faulted { W.faults worktree.old < W.faults worktree.new → result ≡ Ok false }
    ensures kept { KeepsTreeAndListCounts W.Worktree worktree.old worktree.new }
    ensures unread { (t : Names) → W.told worktree.old ≡ Some t
        → kind_of_lookup (look t path.now true) ≡ None → W.reads worktree.new
        ≡ W.reads worktree.old }
    ensures reads_most { W.reads worktree.new ≤ W.reads worktree.old + 3 }
{
    match try_is_git_repository(alloc, worktree, path) {
        Ok(is) => Ok(is),
        Err(ReadError::Fault) => Ok(false),
        Err(ReadError::OutOfMemory) => Err(OutOfMemory),
    }
}

/// Whether a path leads to a repository, as [`is_git`] says, for callers that may not read a fault
/// as no.
///
/// # Errors
///
/// - `Fault`: the worktree failed, which it counted.
/// - `OutOfMemory` for want of memory.
pub fn try_is_git_repository<W: Worktree>(
    alloc: Global,
    worktree: &mut W,
    path: &[u8],
) -> Result<bool, ReadError>
    ensures answer { (t : Names) → W.told worktree.old ≡ Some t
        → IfOk result (λ is. is ≡ is_git t path.now) }
    ensures kept { KeepsTreeAndListCounts W.Worktree worktree.old worktree.new }
    ensures unread { (t : Names) → W.told worktree.old ≡ Some t
        → kind_of_lookup (look t path.now true) ≡ None → W.reads worktree.new
        ≡ W.reads worktree.old }
    ensures cause { IsErrOf result ReadError.Fault
        → CountIncreasedOrSaturated (W.faults worktree.old) (W.faults worktree.new) }
    ensures unfaulted { HoldsUnlessFault result (W.faults worktree.new ≡ W.faults worktree.old) }
    ensures reads_most { W.reads worktree.new ≤ W.reads worktree.old + 3 }
{
    match worktree.kind_following(alloc, path)? {
        Some(NodeKind::Directory) => is_git_directory(alloc, worktree, path, path),
        Some(NodeKind::File) => is_file_naming_git_directory(alloc, worktree, path),
        Some(NodeKind::Symlink) => Ok(false),
        Some(NodeKind::Untrackable) => Ok(false),
        None => Ok(false),
    }
}

/// Whether a file names a git directory.
fn is_file_naming_git_directory<W: Worktree>(
    alloc: Global,
    worktree: &mut W,
    path: &[u8],
) -> Result<bool, ReadError>
    ensures answer { (t : Names) → W.told worktree.old ≡ Some t → IfOk result (λ is. is
        ≡ is_file_naming_git_directory t path.now (option_and_then gitdir_path
        (bytes_of_file_lookup (look t path.now true)))) }
    ensures kept { KeepsTreeAndListCounts W.Worktree worktree.old worktree.new }
    ensures cause { IsErrOf result ReadError.Fault
        → CountIncreasedOrSaturated (W.faults worktree.old) (W.faults worktree.new) }
    ensures unfaulted { HoldsUnlessFault result (W.faults worktree.new ≡ W.faults worktree.old) }
    ensures reads_most { W.reads worktree.new ≤ W.reads worktree.old + 3 }
{
    let mut bytes = Bytes::new(alloc);
    if !read_file_if_present(alloc, worktree, path, &mut bytes)? {
        return Ok(false);
    }
    match gitdir_path(bytes.as_bytes()) {
        Some(git) => {
            let git = resolve_from_file_parent(alloc, git, path)?;
            is_git_directory_by_commondir(alloc, worktree, git.as_bytes())
        }
        None => Ok(false),
    }
}

/// Whether the directory that a file `.git` names is a git directory, by its own common directory.
///
/// # Errors
///
/// - `Fault`: the worktree failed, which it counted.
/// - `OutOfMemory` for want of memory.
pub fn is_git_directory_by_commondir<W: Worktree>(
    alloc: Global,
    worktree: &mut W,
    git: &[u8],
) -> Result<bool, ReadError>
    ensures answer { (t : Names) → W.told worktree.old ≡ Some t
        → IfOk result (λ is. is ≡ is_git_directory_by_commondir t git.now) }
    ensures kept { KeepsTreeAndListCounts W.Worktree worktree.old worktree.new }
    ensures cause { IsErrOf result ReadError.Fault
        → CountIncreasedOrSaturated (W.faults worktree.old) (W.faults worktree.new) }
    ensures unfaulted { HoldsUnlessFault result (W.faults worktree.new ≡ W.faults worktree.old) }
    ensures reads_most { W.reads worktree.new ≤ W.reads worktree.old + 2 }
{
    let common = common_git_directory(alloc, worktree, git)?;
    is_git_directory(alloc, worktree, git, common.as_bytes())
}

/// The common directory of a git directory: what its file `commondir` names, from the git directory
/// on; itself where there is none.
///
/// # Errors
///
/// - `Fault`: the worktree failed, which it counted.
/// - `OutOfMemory` for want of memory.
pub fn common_git_directory<W: Worktree>(
    alloc: Global,
    worktree: &mut W,
    git: &[u8],
) -> Result<Bytes, ReadError>
    ensures answer { (t : Names) → W.told worktree.old ≡ Some t
        → IfOk result (λ common. common ≡ common_git_directory t git.now) }
    ensures kept { KeepsTreeAndListCounts W.Worktree worktree.old worktree.new }
    ensures cause { IsErrOf result ReadError.Fault
        → CountIncreasedOrSaturated (W.faults worktree.old) (W.faults worktree.new) }
    ensures unfaulted { HoldsUnlessFault result (W.faults worktree.new ≡ W.faults worktree.old) }
    ensures reads_most { W.reads worktree.new ≤ W.reads worktree.old + 1 }
{
    let path = resolve_path_from_directory(alloc, b"commondir".as_slice(), git)?;
    let mut bytes = Bytes::new(alloc);
    if read_file_if_present(alloc, worktree, path.as_bytes(), &mut bytes)? {
        return Ok(resolve_path_from_directory(
            alloc,
            without_trailing_line_ends(bytes.as_bytes()),
            git,
        )?);
    }
    Ok(Bytes::from_slice(alloc, git)?)
}

/// Whether a directory has a `HEAD`, and another, its common directory, has `objects` and `refs`.
/// See docs/DECISIONS.md#whole-git-directory.
///
/// # Errors
///
/// - `Fault`: the worktree failed, which it counted.
/// - `OutOfMemory` for want of memory.
pub fn is_git_directory<W: Worktree>(
    alloc: Global,
    worktree: &mut W,
    git: &[u8],
    common: &[u8],
) -> Result<bool, ReadError>
    ensures answer { (t : Names) → W.told worktree.old ≡ Some t
        → IfOk result (λ is. is ≡ is_git_directory t git.now common.now) }
    ensures kept { KeepsTreeAndListCounts W.Worktree worktree.old worktree.new }
    ensures cause { IsErrOf result ReadError.Fault
        → CountIncreasedOrSaturated (W.faults worktree.old) (W.faults worktree.new) }
    ensures unfaulted { HoldsUnlessFault result (W.faults worktree.new ≡ W.faults worktree.old) }
    ensures reads_most { W.reads worktree.new ≤ W.reads worktree.old + 1 }
{
    let head = resolve_path_from_directory(alloc, b"HEAD".as_slice(), git)?;
    if !is_well_formed_head_file(alloc, worktree, head.as_bytes())? {
        return Ok(false);
    }
    let objects = resolve_path_from_directory(alloc, b"objects".as_slice(), common)?;
    if !is_directory_at_path(alloc, worktree, objects.as_bytes())? {
        return Ok(false);
    }
    let refs = resolve_path_from_directory(alloc, b"refs".as_slice(), common)?;
    is_directory_at_path(alloc, worktree, refs.as_bytes())
}

/// Whether a file has the text of a `HEAD`.
fn is_well_formed_head_file<W: Worktree>(
    alloc: Global,
    worktree: &mut W,
    path: &[u8],
) -> Result<bool, ReadError>
    ensures answer { (t : Names) → W.told worktree.old ≡ Some t → IfOk result (λ is. is
        ≡ is_present_head_file_text (bytes_of_file_lookup (look t path.now true))) }
    ensures kept { KeepsTreeAndListCounts W.Worktree worktree.old worktree.new }
    ensures cause { IsErrOf result ReadError.Fault
        → CountIncreasedOrSaturated (W.faults worktree.old) (W.faults worktree.new) }
    ensures unfaulted { HoldsUnlessFault result (W.faults worktree.new ≡ W.faults worktree.old) }
    ensures reads_most { W.reads worktree.new ≤ W.reads worktree.old + 1 }
{
    let mut bytes = Bytes::new(alloc);
    if !read_file_if_present(alloc, worktree, path, &mut bytes)? {
        return Ok(false);
    }
    Ok(is_head_file_text(bytes.as_bytes()))
}

/// Whether a path leads to a directory.
fn is_directory_at_path<W: Worktree>(
    alloc: Global,
    worktree: &mut W,
    path: &[u8],
) -> Result<bool, ReadError>
    ensures answer { (t : Names) → W.told worktree.old ≡ Some t
        → IfOk result (λ is. is ≡ is_lookup_of_directory (look t path.now true)) }
    ensures kept { KeepsTreeAndListCounts W.Worktree worktree.old worktree.new }
    ensures cause { IsErrOf result ReadError.Fault
        → CountIncreasedOrSaturated (W.faults worktree.old) (W.faults worktree.new) }
    ensures unfaulted { HoldsUnlessFault result (W.faults worktree.new ≡ W.faults worktree.old) }
    ensures reads { W.reads worktree.new ≡ W.reads worktree.old }
{
    let kind = worktree.kind_following(alloc, path)?;
    Ok(kind == Some(NodeKind::Directory))
}

/// Reads the bytes of a file into `into`, where a path leads to one, links followed; false where it
/// leads to another node or to nothing.
///
/// # Errors
///
/// - `Fault`: the worktree failed, which it counted.
/// - `OutOfMemory` for want of memory.
pub fn read_file_if_present<W: Worktree>(
    alloc: Global,
    worktree: &mut W,
    path: &[u8],
    into: &mut Bytes,
) -> Result<bool, ReadError>
    ensures answer { (t : Names) → W.told worktree.old ≡ Some t
        → IfOk result (λ is. bytes_of_file_lookup (look t path.now true)
        ≡ (if is then Some into.new else None)) }
    ensures kept { KeepsTreeAndListCounts W.Worktree worktree.old worktree.new }
    ensures cause { IsErrOf result ReadError.Fault
        → CountIncreasedOrSaturated (W.faults worktree.old) (W.faults worktree.new) }
    ensures unfaulted { HoldsUnlessFault result (W.faults worktree.new ≡ W.faults worktree.old) }
    ensures reads_most { W.reads worktree.new ≤ W.reads worktree.old + 1 }
{
    match worktree.read(alloc, path, true, into)? {
        ReadAnswer::Read => Ok(true),
        _ => Ok(false),
    }
}

/// A path, taken from the directory of a file where it is relative, as that in a file `.git` is.
/// See docs/DECISIONS.md#gitdir-file.
///
/// # Errors
///
/// - `OutOfMemory` for want of memory.
pub fn resolve_from_file_parent(
    alloc: Global,
    path: &[u8],
    file: &[u8],
) -> Result<Bytes, OutOfMemory>
    ensures { IfOk result (λ full. full
        ≡ resolve_path_from_directory path.now (unwrap_or (parent file.now) [])) }
{
    let file = PathText::from_bytes(alloc, file)?;
    let directory: &[u8] = match file.parent() {
        Some(directory) => directory,
        None => &[],
    };
    resolve_path_from_directory(alloc, path, directory)
}
