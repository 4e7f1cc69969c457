//! The index file of a work tree.
ghost use Rattle.std.specs.Prelude.{◌≡◌, true, IfOk};
ghost use Rattle.git_index.specs.IndexFile.{parse_index_file_bytes};
ghost use Rattle.worktree_fs.specs.Tree.{look};
ghost use Rattle.git_setup.specs.Finds.{IsFoundOrRefusesMemory, FindsOverToldTree};
ghost use Rattle.git_setup.specs.IndexAt as words;
ghost use Rattle.git_setup.specs.Refusals.{index_result_as_git_result, git_refusal_of_index_file_error};

use crate::entries::Entries;
use crate::error::GitRefusal;
use git_index::{IndexFile, IndexFileError, read_index};
use gitbase_core::{Bytes, OutOfMemory, PathText};
use std::alloc::Global;
use worktree_fs::{ReadAnswer, Worktree, resolve_path_from_directory};

/// The path of the index of a git directory.
pub fn path_of_index_file(alloc: Global, git: &[u8]) -> Result<Bytes, OutOfMemory>
    ensures { IfOk result (λ path. path ≡ words.path_of_index_file git.now) }
{
    resolve_path_from_directory(alloc, b"index", git)
}

/// The refusal of the bytes of the index file at a path.
fn refusal_of_index_file_error(
    alloc: Global,
    path: &[u8],
    error: IndexFileError,
) -> Result<GitRefusal, OutOfMemory>
    ensures { IfOk result (λ e. e ≡ git_refusal_of_index_file_error path.now error) }
{
    match error {
        IndexFileError::OutOfMemory => Ok(GitRefusal::OutOfMemory),
        error => Ok(GitRefusal::IndexFile {
            path: PathText::from_bytes(alloc, path)?,
            error,
        }),
    }
}

/// What the bytes of an index file say.
pub fn parse_index_file(alloc: Global, path: &[u8], bytes: &[u8]) -> Result<IndexFile, GitRefusal>
    ensures { IsFoundOrRefusesMemory result (index_result_as_git_result path.now
        (parse_index_file_bytes bytes.now)) }
{
    match read_index(alloc, bytes) {
        Ok(file) => Ok(file),
        Err(error) => Err(refusal_of_index_file_error(alloc, path, error)?),
    }
}

/// The entries of an index file.
fn entries_of_index_file(file: IndexFile) -> Result<Entries, GitRefusal>
    ensures { result ≡ words.entries_of_index_file file }
{
    let (entries, _) = file.into_parts();
    Ok(Entries::from_vec(entries))
}

/// The entries in the bytes of an index file.
fn parse_index_entries(alloc: Global, path: &[u8], bytes: &[u8]) -> Result<Entries, GitRefusal>
    ensures { IsFoundOrRefusesMemory result (words.parse_index_entries path.now bytes.now) }
{
    let file = parse_index_file(alloc, path, bytes)?;
    entries_of_index_file(file)
}

/// The refusal of what stands in the place of the index.
pub fn refusal_index_is_no_file(alloc: Global, path: &[u8]) -> Result<GitRefusal, OutOfMemory>
    ensures { IfOk result (λ e. e ≡ GitRefusal.IndexNode path.now) }
{
    Ok(GitRefusal::IndexNode {
        path: PathText::from_bytes(alloc, path)?,
    })
}

/// The entries of the index file at a path; none where nothing is there.
fn read_index_entries_at_path<W: Worktree>(
    alloc: Global,
    worktree: &mut W,
    path: &[u8],
) -> Result<Entries, GitRefusal>
    ensures { FindsOverToldTree W.Worktree worktree.old worktree.new
        (λ t. words.read_index_entries_at_path path.now (look t path.now true)) result }
{
    let mut bytes = Bytes::new(alloc);
    match worktree.read(alloc, path, true, &mut bytes)? {
        ReadAnswer::Read => parse_index_entries(alloc, path, bytes.as_bytes()),
        ReadAnswer::Absent => Ok(Entries::new(alloc)),
        _ => Err(refusal_index_is_no_file(alloc, path)?),
    }
}

/// The entries of the index of a git directory, as they stand in its file.
///
/// See docs/DIFFERENCES.md#git-index-sum.
pub fn read_index_entries_of_git_dir<W: Worktree>(
    alloc: Global,
    worktree: &mut W,
    git: &[u8],
) -> Result<Entries, GitRefusal>
    ensures { FindsOverToldTree W.Worktree worktree.old worktree.new
        (λ t. words.read_index_entries_of_git_dir t git.now) result }
{
    let path = path_of_index_file(alloc, git)?;
    read_index_entries_at_path(alloc, worktree, path.as_bytes())
}
