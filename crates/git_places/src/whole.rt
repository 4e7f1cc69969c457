//! What the search takes for a git directory.
ghost use Rattle.std.specs.Prelude.{◌≡◌, Some, true, false, Ok, IfOk};
ghost use Rattle.gitbase_core.specs.Steps.{and_then};
ghost use Rattle.worktree_fs.specs.Repository.{bytes_of_file_lookup, is_lookup_of_directory};
ghost use Rattle.worktree_fs.specs.Tree.{look};
ghost use Rattle.git_places.specs.Finds.{FindsInTree};
ghost use Rattle.git_places.specs.Whole as words;

use crate::error::PlacesError;
use crate::head::{Head, head_verdict_at_path};
use gitbase_core::{Bytes, OutOfMemory, PathText};
use std::alloc::Global;
use worktree_fs::{
    NodeKind, Worktree, is_git_directory, is_git_directory_by_commondir, read_file_if_present,
    resolve_path_from_directory, without_trailing_line_ends,
};

/// Whether a path leads to a directory.
pub fn is_directory_at_path<W: Worktree>(
    alloc: Global,
    worktree: &mut W,
    path: &[u8],
) -> Result<bool, PlacesError>
    ensures { FindsInTree W.Worktree worktree.old worktree.new
        (λ t. Ok (is_lookup_of_directory (look t path.now true))) result }
{
    let kind = worktree.kind_following(alloc, path)?;
    Ok(kind == Some(NodeKind::Directory))
}

/// The refusal of a `commondir`.
fn commondir_error(alloc: Global, git: &[u8]) -> Result<PlacesError, OutOfMemory>
    ensures { IfOk result (λ e. e ≡ PlacesError.CommonDir (words.commondir_path git.now)) }
{
    let path = resolve_path_from_directory(alloc, b"commondir", git)?;
    Ok(PlacesError::CommonDir {
        path: PathText::from_bytes(alloc, path.as_bytes())?,
    })
}

/// A path that leads to a directory; another one is refused.
fn require_commondir_target<W: Worktree>(
    alloc: Global,
    worktree: &mut W,
    git: &[u8],
    path: Bytes,
) -> Result<Bytes, PlacesError>
    ensures { FindsInTree W.Worktree worktree.old worktree.new
        (λ t. words.require_commondir_target t git.now path) result }
{
    if is_directory_at_path(alloc, worktree, path.as_bytes())? {
        return Ok(path);
    }
    Err(commondir_error(alloc, git)?)
}

/// The common directory by the bytes of `commondir`.
fn common_directory_of_bytes<W: Worktree>(
    alloc: Global,
    worktree: &mut W,
    git: &[u8],
    bytes: &[u8],
) -> Result<Bytes, PlacesError>
    ensures { FindsInTree W.Worktree worktree.old worktree.new
        (λ t. words.common_directory_of_bytes t git.now (Some bytes.now)) result }
{
    if bytes.is_empty() {
        return Err(commondir_error(alloc, git)?);
    }
    let path = resolve_path_from_directory(alloc, without_trailing_line_ends(bytes), git)?;
    require_commondir_target(alloc, worktree, git, path)
}

/// The common directory by what stands at the path of `commondir`, where something is there.
fn read_commondir_file<W: Worktree>(
    alloc: Global,
    worktree: &mut W,
    git: &[u8],
    path: &[u8],
) -> Result<Bytes, PlacesError>
    ensures { FindsInTree W.Worktree worktree.old worktree.new (λ t. words.common_directory_of_bytes
        t git.now (bytes_of_file_lookup (look t path.now true))) result }
{
    let mut bytes = Bytes::new(alloc);
    if !read_file_if_present(alloc, worktree, path, &mut bytes)? {
        return Err(commondir_error(alloc, git)?);
    }
    common_directory_of_bytes(alloc, worktree, git, bytes.as_bytes())
}

/// The common directory of a git directory.
fn common_directory_or_error<W: Worktree>(
    alloc: Global,
    worktree: &mut W,
    git: &[u8],
) -> Result<Bytes, PlacesError>
    ensures { FindsInTree W.Worktree worktree.old worktree.new (λ t. words.common_directory_or_error
        t git.now) result }
{
    let path = resolve_path_from_directory(alloc, b"commondir", git)?;
    match worktree.kind(alloc, path.as_bytes())? {
        Some(_) => read_commondir_file(alloc, worktree, git, path.as_bytes()),
        None => Ok(Bytes::from_slice(alloc, git)?),
    }
}

/// The path of `HEAD` in a git directory.
fn head_path(alloc: Global, git: &[u8]) -> Result<Bytes, OutOfMemory>
    ensures { IfOk result (λ path. path ≡ words.head_path git.now) }
{
    resolve_path_from_directory(alloc, b"HEAD", git)
}

/// The refusal of a `HEAD`.
fn odd_head_error(alloc: Global, git: &[u8]) -> Result<PlacesError, OutOfMemory>
    ensures { IfOk result (λ e. e ≡ PlacesError.OddHead (words.head_path git.now)) }
{
    let path = head_path(alloc, git)?;
    Ok(PlacesError::OddHead {
        path: PathText::from_bytes(alloc, path.as_bytes())?,
    })
}

fn has_objects_and_refs<W: Worktree>(
    alloc: Global,
    worktree: &mut W,
    common: &[u8],
) -> Result<bool, PlacesError>
    ensures { FindsInTree W.Worktree worktree.old worktree.new
        (λ t. Ok (words.has_objects_and_refs t common.now)) result }
{
    let objects = resolve_path_from_directory(alloc, b"objects", common)?;
    if !is_directory_at_path(alloc, worktree, objects.as_bytes())? {
        return Ok(false);
    }
    let refs = resolve_path_from_directory(alloc, b"refs", common)?;
    is_directory_at_path(alloc, worktree, refs.as_bytes())
}

/// A directory that git takes: whether the walk takes it too.
fn require_walk_accepts<W: Worktree>(
    alloc: Global,
    worktree: &mut W,
    git: &[u8],
    common: &[u8],
) -> Result<bool, PlacesError>
    ensures { FindsInTree W.Worktree worktree.old worktree.new
        (λ t. words.require_walk_accepts t git.now common.now) result }
{
    if is_git_directory(alloc, worktree, git, common)? {
        return Ok(true);
    }
    Err(odd_head_error(alloc, git)?)
}

/// By a `HEAD` that git takes, over the common directory.
fn decide_for_good_head<W: Worktree>(
    alloc: Global,
    worktree: &mut W,
    git: &[u8],
    common: &[u8],
) -> Result<bool, PlacesError>
    ensures { FindsInTree W.Worktree worktree.old worktree.new
        (λ t. words.is_git_directory_by_head_and_common t git.now Head.Good common.now) result }
{
    if has_objects_and_refs(alloc, worktree, common)? {
        return require_walk_accepts(alloc, worktree, git, common);
    }
    Ok(false)
}

/// By a `HEAD` of which nothing is known, over the common directory.
fn decide_for_unknown_head<W: Worktree>(
    alloc: Global,
    worktree: &mut W,
    git: &[u8],
    common: &[u8],
) -> Result<bool, PlacesError>
    ensures { FindsInTree W.Worktree worktree.old worktree.new
        (λ t. words.is_git_directory_by_head_and_common t git.now Head.Unknown common.now) result }
{
    if has_objects_and_refs(alloc, worktree, common)? {
        return Err(odd_head_error(alloc, git)?);
    }
    Ok(false)
}

/// By what git says of `HEAD`, over the common directory.
fn is_git_directory_by_head_and_common<W: Worktree>(
    alloc: Global,
    worktree: &mut W,
    git: &[u8],
    head: Head,
    common: &[u8],
) -> Result<bool, PlacesError>
    ensures { FindsInTree W.Worktree worktree.old worktree.new
        (λ t. words.is_git_directory_by_head_and_common t git.now head common.now) result }
{
    match head {
        Head::Good => decide_for_good_head(alloc, worktree, git, common),
        Head::Bad => Ok(false),
        Head::Unknown => decide_for_unknown_head(alloc, worktree, git, common),
    }
}

/// By a `HEAD` that git takes, or of which nothing is known.
fn decide_with_common_directory<W: Worktree>(
    alloc: Global,
    worktree: &mut W,
    git: &[u8],
    head: Head,
) -> Result<bool, PlacesError>
    ensures { FindsInTree W.Worktree worktree.old worktree.new
        (λ t. and_then (words.is_git_directory_by_head_and_common t git.now head)
        (words.common_directory_or_error t git.now)) result }
{
    let common = common_directory_or_error(alloc, worktree, git)?;
    is_git_directory_by_head_and_common(alloc, worktree, git, head, common.as_bytes())
}

/// By a `HEAD` that git passes over: whether the walk does so too.
fn require_walk_rejects<W: Worktree>(
    alloc: Global,
    worktree: &mut W,
    git: &[u8],
) -> Result<bool, PlacesError>
    ensures { FindsInTree W.Worktree worktree.old worktree.new
        (λ t. words.is_git_directory_by_head t git.now Head.Bad) result }
{
    if is_git_directory_by_commondir(alloc, worktree, git)? {
        return Err(odd_head_error(alloc, git)?);
    }
    Ok(false)
}

/// Whether a directory is a git directory, to git and to the walk alike.
///
/// # Errors
///
/// - `OddHead`: they would not agree, or it is not known whether they would.
/// - `CommonDir`: its file `commondir` names no directory.
/// - `Fault`: the worktree failed, which it counted.
/// - `OutOfMemory` for want of memory.
///
/// See docs/DECISIONS.md#two-tests.
pub fn is_agreed_git_directory<W: Worktree>(
    alloc: Global,
    worktree: &mut W,
    git: &[u8],
) -> Result<bool, PlacesError>
    ensures { FindsInTree W.Worktree worktree.old worktree.new (λ t. words.is_agreed_git_directory t
        git.now) result }
{
    let path = head_path(alloc, git)?;
    let head = head_verdict_at_path(alloc, worktree, path.as_bytes())?;
    match head {
        Head::Good => decide_with_common_directory(alloc, worktree, git, Head::Good),
        Head::Bad => require_walk_rejects(alloc, worktree, git),
        Head::Unknown => decide_with_common_directory(alloc, worktree, git, Head::Unknown),
    }
}
