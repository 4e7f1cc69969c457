//! Whether a path leads to a repository of its own.
ghost use Rattle.std.specs.Prelude.{◌≡◌, ◌≤◌, ◌+◌, ◌⊎◌, ◌&&◌, if◌then◌else◌, true, false, Some, None, IfOk};
ghost use Rattle.gitbase_core.specs.Path.{path_joined_with_slash};
ghost use Rattle.worktree_fs.specs.Tree.{Names};
ghost use Rattle.worktree_fs.specs.Causes.{CountNotIncreased};
ghost use Rattle.worktree_fs.specs.Kept.{KeepsTreeAndListCounts};
ghost use Rattle.dir_classify.specs.Class.{kind_after_repository_test, dot_git_bytes};
ghost use Rattle.dir_classify.specs.Evidence.{is_foreign_repository};
ghost use Rattle.dir_classify.specs.Faults.{IsKindTestedAsRead, IsRepositoryTestAsRead};
ghost use Rattle.dir_classify.specs.Layers.{repository_test_of_path};
ghost use Rattle.dir_classify.specs.Reads.{most_reads_of_repository_test};

use crate::entry::Kind;
use gitbase_core::{OutOfMemory, PathText};
use std::alloc::Global;
use worktree_fs::{Worktree, is_git, real_path_is};

/// The kind of a path, or that of a repository where one is found there: where `.git` in it leads
/// to a repository other than that of the worktree, and with `find_harder` also where the path
/// itself does, as a bare one. Nothing is looked at where repositories are walked into. As
/// gitoxide's `maybe_upgrade_to_repository`.
///
/// `path` is whole; `current_dir` and `git_dir_realpath` are the real paths of the current
/// directory and of the git directory of the worktree. A fault of a question reads as no
/// repository, or as one that is not the worktree's own, and is counted. Of which question a fault
/// is the contract does not say, but how many were misread at most. At most three files are read to
/// tell whether a path leads to a repository, so three in all, and six with `find_harder`.
///
/// See docs/DECISIONS.md#class-under-faults.
/// See docs/DECISIONS.md#whole-git-directory.
/// See docs/DECISIONS.md#failed-repository-test.
///
/// # Errors
///
/// - `OutOfMemory`: memory was refused.
///
/// See docs/DIFFERENCES.md#nested-repository.
pub fn maybe_upgrade_to_repository<W: Worktree>(
    alloc: Global,
    current_kind: Option<Kind>,
    find_harder: bool,
    recurse_repositories: bool,
    path: &[u8],
    worktree: &mut W,
    current_dir: &[u8],
    git_dir_realpath: &[u8],
) -> Result<Option<Kind>, OutOfMemory>
    ensures kind { (t : Names) → W.told worktree.old ≡ Some t → CountNotIncreased
        (W.faults worktree.old) (W.faults worktree.new) → IfOk result (λ kind. kind
        ≡ kind_after_repository_test recurse_repositories find_harder current_kind
        (repository_test_of_path t current_dir.now git_dir_realpath.now path.now)
        (repository_test_of_path t current_dir.now git_dir_realpath.now (path_joined_with_slash
        path.now dot_git_bytes))) }
    ensures swallowed { (t : Names) → W.told worktree.old ≡ Some t
        → IfOk result (IsKindTestedAsRead (W.faults worktree.old) (W.faults worktree.new)
        (kind_after_repository_test recurse_repositories find_harder current_kind)
        (repository_test_of_path t current_dir.now git_dir_realpath.now path.now)
        (repository_test_of_path t current_dir.now git_dir_realpath.now (path_joined_with_slash
        path.now dot_git_bytes))) }
    ensures either { IfOk result (λ kind. (kind ≡ current_kind) ⊎ (kind ≡ Some Kind.Repository)) }
    ensures keeps { KeepsTreeAndListCounts W.Worktree worktree.old worktree.new }
    ensures reads_most { W.reads worktree.new
        ≤ W.reads worktree.old + most_reads_of_repository_test recurse_repositories find_harder }
    ensures unasked { recurse_repositories ≡ true → worktree.new ≡ worktree.old }
    ensures same_kind { recurse_repositories ≡ true
        → IfOk result (λ kind. kind ≡ current_kind) }
{
    if recurse_repositories {
        return Ok(current_kind);
    }
    if is_foreign_repository_if_asked(
        alloc,
        find_harder,
        worktree,
        path,
        current_dir,
        git_dir_realpath,
    )? {
        return Ok(Some(Kind::Repository));
    }
    let mut git = PathText::from_bytes(alloc, path)?;
    git.push_component(alloc, b".git")?;
    if is_foreign_repository(
        alloc,
        worktree,
        git.as_bytes(),
        current_dir,
        git_dir_realpath,
    )? {
        return Ok(Some(Kind::Repository));
    }
    Ok(current_kind)
}

/// Whether a path leads to a repository other than that of the worktree, if that is asked; false if
/// it is not.
fn is_foreign_repository_if_asked<W: Worktree>(
    alloc: Global,
    asked: bool,
    worktree: &mut W,
    path: &[u8],
    current_dir: &[u8],
    git_dir_realpath: &[u8],
) -> Result<bool, OutOfMemory>
    ensures foreign { (t : Names) → W.told worktree.old ≡ Some t
        → CountNotIncreased (W.faults worktree.old) (W.faults worktree.new)
        → IfOk result (λ is. is ≡ (asked && is_foreign_repository
        (repository_test_of_path t current_dir.now git_dir_realpath.now path.now))) }
    ensures swallowed { (t : Names) → W.told worktree.old ≡ Some t
        → IfOk result (IsRepositoryTestAsRead (W.faults worktree.old) (W.faults worktree.new)
        (λ at. asked && is_foreign_repository at)
        (repository_test_of_path t current_dir.now git_dir_realpath.now path.now)) }
    ensures keeps { KeepsTreeAndListCounts W.Worktree worktree.old worktree.new }
    ensures reads_most { W.reads worktree.new ≤ W.reads worktree.old + (if asked then 3 else 0) }
{
    if !asked {
        return Ok(false);
    }
    let is_foreign = is_foreign_repository(alloc, worktree, path, current_dir, git_dir_realpath)?;
    Ok(is_foreign)
}

/// Whether a path leads to a repository other than that of the worktree.
fn is_foreign_repository<W: Worktree>(
    alloc: Global,
    worktree: &mut W,
    path: &[u8],
    current_dir: &[u8],
    git_dir_realpath: &[u8],
) -> Result<bool, OutOfMemory>
    ensures foreign { (t : Names) → W.told worktree.old ≡ Some t
        → CountNotIncreased (W.faults worktree.old) (W.faults worktree.new)
        → IfOk result (λ is. is ≡ is_foreign_repository
        (repository_test_of_path t current_dir.now git_dir_realpath.now path.now)) }
    ensures swallowed { (t : Names) → W.told worktree.old ≡ Some t
        → IfOk result (IsRepositoryTestAsRead (W.faults worktree.old) (W.faults worktree.new)
        is_foreign_repository (repository_test_of_path t current_dir.now git_dir_realpath.now
        path.now)) }
    ensures keeps { KeepsTreeAndListCounts W.Worktree worktree.old worktree.new }
    ensures reads_most { W.reads worktree.new ≤ W.reads worktree.old + 3 }
{
    if !is_git(alloc, worktree, path)? {
        return Ok(false);
    }
    let is_own = real_path_is(alloc, worktree, path, current_dir, git_dir_realpath)?;
    Ok(!is_own)
}
