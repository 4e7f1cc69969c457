//! What stands at `.git` in a directory.
ghost use Rattle.std.specs.Prelude.{◌≡◌, ◌∷◌, [], true, Some, None, Ok, IfOk, option_map, if◌then◌else◌};
ghost use Rattle.worktree_fs.specs.Changes.{resolve_path_from_directory};
ghost use Rattle.worktree_fs.specs.Repository.{bytes_of_file_lookup, is_lookup_of_directory, is_git_directory_by_commondir};
ghost use Rattle.worktree_fs.specs.Tree.{look};
ghost use Rattle.git_places.specs.Finds.{FindsInTree};
ghost use Rattle.git_places.specs.GitDirectory as words;

use crate::error::PlacesError;
use crate::whole::{is_agreed_git_directory, is_directory_at_path};
use gitbase_core::{Bytes, OutOfMemory, PathText};
use std::alloc::Global;
use worktree_fs::{
    ReadError, Worktree, gitdir_path, read_file_if_present, resolve_from_file_parent,
};

/// The path of `.git` in a directory.
pub fn dot_git_path(alloc: Global, directory: &[u8]) -> Result<PathText, OutOfMemory>
    ensures { IfOk result (λ path. path ≡ words.dot_git_path directory.now) }
{
    let mut path = PathText::from_bytes(alloc, directory)?;
    path.push_component(alloc, b".git".as_slice())?;
    Ok(path)
}

/// The refusal of a file that has no line `gitdir: PATH`.
fn git_file_form_error(alloc: Global, path: &[u8]) -> Result<PlacesError, OutOfMemory>
    ensures { IfOk result (λ e. e ≡ PlacesError.GitFileForm path.now) }
{
    Ok(PlacesError::GitFileForm {
        path: PathText::from_bytes(alloc, path)?,
    })
}

/// The refusal of a path in such a line.
fn bad_git_file_target_error(alloc: Global, path: &[u8]) -> Result<PlacesError, OutOfMemory>
    ensures { IfOk result (λ e. e ≡ PlacesError.GitFileTarget path.now) }
{
    Ok(PlacesError::GitFileTarget {
        path: PathText::from_bytes(alloc, path)?,
    })
}

/// The git directory at a path, if one is there.
fn path_if_git_directory<W: Worktree>(
    alloc: Global,
    worktree: &mut W,
    path: &[u8],
) -> Result<Option<PathText>, PlacesError>
    ensures { FindsInTree W.Worktree worktree.old worktree.new
        (λ t. words.path_if_git_directory t path.now) result }
{
    if !is_agreed_git_directory(alloc, worktree, path)? {
        return Ok(None);
    }
    Ok(Some(PathText::from_bytes(alloc, path)?))
}

/// The git directory that a file has to name.
fn require_git_file_target<W: Worktree>(
    alloc: Global,
    worktree: &mut W,
    git: &[u8],
) -> Result<Option<PathText>, PlacesError>
    ensures { FindsInTree W.Worktree worktree.old worktree.new (λ t. words.require_git_file_target t
        git.now) result }
{
    if !is_agreed_git_directory(alloc, worktree, git)? {
        return Err(bad_git_file_target_error(alloc, git)?);
    }
    Ok(Some(PathText::from_bytes(alloc, git)?))
}

/// The git directory that the text of a file names.
fn require_git_directory_named_by_text<W: Worktree>(
    alloc: Global,
    worktree: &mut W,
    file: &[u8],
    text: &[u8],
) -> Result<Option<PathText>, PlacesError>
    ensures { FindsInTree W.Worktree worktree.old worktree.new
        (λ t. words.git_directory_of_file_bytes t file.now (Some text.now)) result }
{
    match gitdir_path(text) {
        Some(path) => {
            let git = resolve_from_file_parent(alloc, path, file)?;
            require_git_file_target(alloc, worktree, git.as_bytes())
        }
        None => Err(git_file_form_error(alloc, file)?),
    }
}

/// The git directory by the file at a path, if there is one.
fn git_directory_named_by_file<W: Worktree>(
    alloc: Global,
    worktree: &mut W,
    path: &[u8],
) -> Result<Option<PathText>, PlacesError>
    ensures { FindsInTree W.Worktree worktree.old worktree.new
        (λ t. words.git_directory_of_file_bytes t path.now
        (bytes_of_file_lookup (look t path.now true))) result }
{
    let mut text = Bytes::new(alloc);
    if !read_file_if_present(alloc, worktree, path, &mut text)? {
        return Ok(None);
    }
    require_git_directory_named_by_text(alloc, worktree, path, text.as_bytes())
}

/// The git directory by what stands at `.git`.
fn git_directory_at_dot_git<W: Worktree>(
    alloc: Global,
    worktree: &mut W,
    path: &[u8],
) -> Result<Option<PathText>, PlacesError>
    ensures { FindsInTree W.Worktree worktree.old worktree.new
        (λ t. words.git_directory_at_dot_git t path.now (look t path.now true)) result }
{
    if is_directory_at_path(alloc, worktree, path)? {
        return path_if_git_directory(alloc, worktree, path);
    }
    git_directory_named_by_file(alloc, worktree, path)
}

/// The refusal of a directory that is itself a git directory.
fn refuse_bare_repository<W: Worktree>(
    alloc: Global,
    worktree: &mut W,
    directory: &[u8],
) -> Result<Option<PathText>, PlacesError>
    ensures { FindsInTree W.Worktree worktree.old worktree.new
        (λ t. words.git_directory_unless_bare t directory.now (Ok None)) result }
{
    if is_agreed_git_directory(alloc, worktree, directory)? {
        return Err(PlacesError::Bare {
            path: PathText::from_bytes(alloc, directory)?,
        });
    }
    Ok(None)
}

/// The git directory of the work tree whose top a directory is, if it is one.
pub fn git_directory_of_work_tree_top<W: Worktree>(
    alloc: Global,
    worktree: &mut W,
    directory: &[u8],
) -> Result<Option<PathText>, PlacesError>
    ensures { FindsInTree W.Worktree worktree.old worktree.new
        (λ t. words.git_directory_of_work_tree_top t directory.now) result }
{
    let path = dot_git_path(alloc, directory)?;
    if let Some(git) = git_directory_at_dot_git(alloc, worktree, path.as_bytes())? {
        return Ok(Some(git));
    }
    refuse_bare_repository(alloc, worktree, directory)
}
