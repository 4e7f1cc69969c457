//! All that the index file of a work tree says.
ghost use Rattle.std.specs.Prelude.{◌≡◌, true};
ghost use Rattle.worktree_fs.specs.Tree.{look};
ghost use Rattle.git_setup.specs.Finds.{IsFoundOrRefusesMemory, FindsOverToldTree};
ghost use Rattle.git_setup.specs.Indexed as words;

use crate::details::Details;
use crate::entries::Entries;
use crate::error::GitRefusal;
use crate::index::{parse_index_file, path_of_index_file, refusal_index_is_no_file};
use git_index::IndexFile;
use gitbase_core::Bytes;
use std::alloc::Global;
use worktree_fs::{ReadAnswer, Worktree};

/// The entries of an index file, and what it says of each besides.
#[derive(Debug, Drop)]
pub struct Indexed {
    /// The entries.
    pub entries: Entries,
    /// What the file says of each besides.
    pub details: Details,
}

/// What an index file has.
fn entries_and_details_of_index(file: IndexFile) -> Result<Indexed, GitRefusal>
    ensures { result ≡ words.entries_and_details_of_index file }
{
    let (entries, details) = file.into_parts();
    Ok(Indexed {
        entries: Entries::from_vec(entries),
        details: Details::from_vec(details),
    })
}

/// What the bytes of an index file say.
fn parse_index_entries_and_details(
    alloc: Global,
    path: &[u8],
    bytes: &[u8],
) -> Result<Indexed, GitRefusal>
    ensures { IsFoundOrRefusesMemory result (words.parse_index_entries_and_details path.now
        bytes.now) }
{
    let file = parse_index_file(alloc, path, bytes)?;
    entries_and_details_of_index(file)
}

/// What the index file at a path says; nothing where nothing is there.
fn read_index_and_details_at_path<W: Worktree>(
    alloc: Global,
    worktree: &mut W,
    path: &[u8],
) -> Result<Indexed, GitRefusal>
    ensures { FindsOverToldTree W.Worktree worktree.old worktree.new
        (λ t. words.read_index_and_details_at_path path.now (look t path.now true)) result }
{
    let mut bytes = Bytes::new(alloc);
    match worktree.read(alloc, path, true, &mut bytes)? {
        ReadAnswer::Read => parse_index_entries_and_details(alloc, path, bytes.as_bytes()),
        ReadAnswer::Absent => Ok(Indexed {
            entries: Entries::new(alloc),
            details: Details::new(alloc),
        }),
        _ => Err(refusal_index_is_no_file(alloc, path)?),
    }
}

/// What the index of a git directory says.
///
/// See docs/DIFFERENCES.md#git-index-sum.
pub fn read_index_and_details_of_git_dir<W: Worktree>(
    alloc: Global,
    worktree: &mut W,
    git: &[u8],
) -> Result<Indexed, GitRefusal>
    ensures { FindsOverToldTree W.Worktree worktree.old worktree.new
        (λ t. words.read_index_and_details_of_git_dir t git.now) result }
{
    let path = path_of_index_file(alloc, git)?;
    read_index_and_details_at_path(alloc, worktree, path.as_bytes())
}
