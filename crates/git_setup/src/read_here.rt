//! What the index and the configurations of a work tree say.
ghost use Rattle.git_setup.specs.Finds.{FindsOverToldTree};
ghost use Rattle.git_setup.specs.Found as words;

use crate::error::GitRefusal;
use crate::index::{path_of_index_file, read_index_entries_of_git_dir};
use crate::present::index_with_present_entries_unskipped;
use crate::switches::{Switches, read_case_sparse_and_quote_switches};
use git_config_files::{Stack, read_stack};
use git_places::{Places, Surroundings};
use gitbase_core::State;
use std::alloc::Global;
use worktree_fs::Worktree;

/// What the index and the configurations of a work tree say.
#[derive(Debug, Drop)]
pub struct Read {
    /// What the configurations say.
    pub stack: Stack,
    /// What they say of how names compare, and of a sparse work tree.
    pub switches: Switches,
    /// The entries of the index as they are seen in the work tree.
    pub index: State,
}

/// What the index and the configurations of a work tree say.
#[tactic(auto, unfolding(crate::specs::Found::read_index_and_configurations))]
pub fn read_index_and_configurations<W: Worktree>(
    alloc: Global,
    worktree: &mut W,
    places: &Places,
    around: &Surroundings,
) -> Result<Read, GitRefusal>
    ensures { FindsOverToldTree W.Worktree worktree.old worktree.new
        (λ t. words.read_index_and_configurations t places.now around.now) result }
{
    let root = places.root.as_bytes();
    let git = places.git_dir.as_bytes();
    let entries = read_index_entries_of_git_dir(alloc, worktree, git)?;
    let stack = read_stack(alloc, worktree, places, around)?;
    let switches = read_case_sparse_and_quote_switches(alloc, &stack.file)?;
    let path = path_of_index_file(alloc, git)?;
    let looks = switches.looks_for_skipped;
    let index = index_with_present_entries_unskipped(
        alloc,
        worktree,
        root,
        path.as_bytes(),
        looks,
        entries,
    )?;
    Ok(Read {
        stack,
        switches,
        index,
    })
}
