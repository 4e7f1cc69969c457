//! A work tree whose paths are compared with its index, as it is called for in a directory of it.
ghost use Rattle.std.specs.Prelude.{◌≡◌};
ghost use Rattle.git_setup.specs.Finds.{IsFoundOrRefusesMemory, FindsOverToldTree};
ghost use Rattle.git_setup.specs.FromDirectory as words;

use crate::compared::{Compared, read_comparison_settings};
use crate::details::Details;
use crate::each::EachSpec;
use crate::entries::Entries;
use crate::error::GitRefusal;
use crate::found::current_prefix_in_work_tree;
use crate::index::path_of_index_file;
use crate::indexed::{Indexed, read_index_and_details_of_git_dir};
use crate::pathspecs::{AskedSpecs, parse_pathspec_arguments};
use crate::present::index_with_present_entries_unskipped;
use crate::settings::Settings;
use git_places::{Places, Surroundings};
use gitbase_core::{Bytes, PathText, State};
use std::alloc::Global;
use worktree_fs::Worktree;

/// A work tree whose paths are compared with its index, as it is called for in a directory of it.
#[derive(Debug, Drop)]
pub struct ComparedFrom {
    /// The work tree and its index, in which each entry is as it is seen in the work tree.
    pub compared: Compared,
    /// The path specs, each by itself.
    pub each: EachSpec,
    /// The directory, from the top; no bytes where it is the top, or is not in the work tree.
    pub prefix: Bytes,
}

/// The entries of an index, each as it is seen in the work tree.
fn index_with_actual_skip_flags<W: Worktree>(
    alloc: Global,
    worktree: &mut W,
    places: &Places,
    looks: bool,
    entries: Entries,
) -> Result<State, GitRefusal>
    ensures { FindsOverToldTree W.Worktree worktree.old worktree.new
        (λ t. words.index_with_actual_skip_flags t places.now looks entries) result }
{
    let path = path_of_index_file(alloc, places.git_dir.as_bytes())?;
    let root = places.root.as_bytes();
    index_with_present_entries_unskipped(alloc, worktree, root, path.as_bytes(), looks, entries)
}

/// What is compared, with the path specs and the directory.
#[tactic(auto, unfolding(crate::specs::FromDirectory::parse_pathspecs_into_comparison_setup))]
fn parse_pathspecs_into_comparison_setup(
    alloc: Global,
    places: &Places,
    around: &Surroundings,
    prefers: bool,
    paths: &[Bytes],
    index: State,
    details: Details,
    settings: Settings,
) -> Result<ComparedFrom, GitRefusal>
    ensures { IsFoundOrRefusesMemory result (words.parse_pathspecs_into_comparison_setup places.now
        around.now prefers paths.now index details settings) }
{
    let top = places.root.as_bytes();
    let directory = around.directory.as_bytes();
    let AskedSpecs { all, each } = parse_pathspec_arguments(
        alloc, prefers, false, top, directory, paths,
    )?;
    let prefix = current_prefix_in_work_tree(alloc, top, directory)?;
    let root = PathText::from_bytes(alloc, top)?;
    let compared = Compared {
        root,
        index,
        details,
        specs: all,
        settings,
    };
    Ok(ComparedFrom {
        compared,
        each,
        prefix,
    })
}

/// What the work tree at these places and its index are compared by, as
/// [`read_comparison_setup`](crate::read_comparison_setup) reads it: but each entry of the index is
/// as it is seen in the work tree, as [`crate::find_and_read_setup`] has it; with each path spec by
/// itself, and the current directory from the top. Where `prefers` says so, that directory is meant
/// if there are no path specs, and if each excludes.
///
/// # Errors
///
/// The first refusal, in this order:
///
/// - `IndexNode`, `IndexFile`, `Files`, `Boolean`, `Elsewhere`: as
///   [`read_comparison_setup`](crate::read_comparison_setup) has them.
/// - `SparseDirectory`: an entry of the index stands for all that is beneath a directory, and
///   something is in its place.
/// - `IndexEntry`: an entry breaks a rule of [`gitbase_core::State`].
/// - `OutsideRoot`, `PathSpec`, `OutsidePath`, `Prefix`: as [`crate::find_and_read_setup`] has
///   them.
///
/// Besides, wherever it comes:
///
/// - `Fault`: the worktree failed, which it counted. No fault reads as "nothing is there".
/// - `OutOfMemory` for want of memory.
#[tactic(auto, unfolding(crate::specs::FromDirectory::read_comparison_setup_from_directory))]
pub fn read_comparison_setup_from_directory<W: Worktree>(
    alloc: Global,
    worktree: &mut W,
    places: &Places,
    around: &Surroundings,
    prefers: bool,
    paths: &[Bytes],
) -> Result<ComparedFrom, GitRefusal>
    ensures { FindsOverToldTree W.Worktree worktree.old worktree.new
        (λ t. words.read_comparison_setup_from_directory t places.now around.now prefers paths.now)
        result }
{
    let indexed = read_index_and_details_of_git_dir(alloc, worktree, places.git_dir.as_bytes())?;
    let settings = read_comparison_settings(
        alloc,
        worktree,
        places,
        around,
        indexed.entries.as_slice(),
    )?;
    let Indexed { entries, details } = indexed;
    let looks = settings.looks_for_skipped;
    let index = index_with_actual_skip_flags(alloc, worktree, places, looks, entries)?;
    parse_pathspecs_into_comparison_setup(
        alloc, places, around, prefers, paths, index, details, settings,
    )
}
