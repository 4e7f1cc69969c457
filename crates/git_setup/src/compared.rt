//! A work tree whose paths are compared with its index.
ghost use Rattle.git_places.specs.Places.{places_of_work_tree_top};
ghost use Rattle.git_setup.specs.Compared as words;
ghost use Rattle.git_setup.specs.Finds.{IsFoundOrRefusesMemory, FindsOverToldTree, FindsOverToldTreeAndOwners};
ghost use Rattle.git_setup.specs.Refusals.{places_result_as_git_result};

use crate::conversions::may_convert_file_contents;
use crate::details::Details;
use crate::error::GitRefusal;
use crate::found::find_top_unless_variable_redirects_git;
use crate::ignores_here::may_ignore_submodules;
use crate::index::path_of_index_file;
use crate::indexed::{Indexed, read_index_and_details_of_git_dir};
use crate::pathspecs::{AskedSpecs, parse_pathspec_arguments};
use crate::present::checked_index_from_entries;
use crate::settings::{Settings, stat_and_mode_settings_unless_fsmonitor};
use crate::switches::read_case_sparse_and_quote_switches;
use git_config_files::read_stack;
use git_config_lite::File;
use git_places::{Places, Surroundings, Top, places_of_work_tree_top};
use gitbase_core::{Bytes, IndexEntry, PathText, State};
use glob_rules::pathspec::Search;
use std::alloc::Global;
use worktree_fs::{Owners, Worktree};

/// A work tree whose paths are compared with its index.
#[derive(Debug, Drop)]
pub struct Compared {
    /// The top of the work tree.
    pub root: PathText,
    /// The index, as it stands in its file.
    pub index: State,
    /// What the file says of its entries besides, in their order.
    pub details: Details,
    /// The path specs that are asked for, from the top.
    pub specs: Search,
    /// What the configuration and the files say of how both are compared.
    pub settings: Settings,
}

/// Where the repository of a work tree lies.
fn repository_places_of_top<W: Worktree>(
    alloc: Global,
    worktree: &mut W,
    top: Top,
) -> Result<Places, GitRefusal>
    ensures { FindsOverToldTree W.Worktree worktree.old worktree.new
        (λ t. places_result_as_git_result (places_of_work_tree_top t top)) result }
{
    Ok(places_of_work_tree_top(alloc, worktree, top)?)
}

/// The work tree around the current directory, and where its repository lies; the first step of
/// [`crate::find_and_read_setup`].
///
/// # Errors
///
/// - `Elsewhere`, `Places`, `Foreign`, `Files`, `Fault`, `OutOfMemory`: as that call has
///   them.
#[tactic(auto, unfolding(crate::specs::Compared::find_repository_places))]
pub fn find_repository_places<W: Worktree, O: Owners>(
    alloc: Global,
    worktree: &mut W,
    owners: &mut O,
    around: &Surroundings,
) -> Result<Places, GitRefusal>
    ensures { FindsOverToldTreeAndOwners W.Worktree O.Owners worktree.old worktree.new owners.old
        owners.new (λ t owned. words.find_repository_places t owned around.now) result }
{
    let top = find_top_unless_variable_redirects_git(alloc, worktree, owners, around)?;
    repository_places_of_top(alloc, worktree, top)
}

/// What the configuration and the files say of how a work tree is compared with its index.
#[tactic(auto, unfolding(crate::specs::Compared::comparison_settings_by_config_and_files))]
fn comparison_settings_by_config_and_files<W: Worktree>(
    alloc: Global,
    worktree: &mut W,
    places: &Places,
    around: &Surroundings,
    config: &File,
    entries: &[IndexEntry],
) -> Result<Settings, GitRefusal>
    ensures { FindsOverToldTree W.Worktree worktree.old worktree.new
        (λ t. words.comparison_settings_by_config_and_files t places.now around.now
        config.now.sections entries.now) result }
{
    let switches = read_case_sparse_and_quote_switches(alloc, config)?;
    let nodes = stat_and_mode_settings_unless_fsmonitor(alloc, config)?;
    let converts = may_convert_file_contents(alloc, worktree, places, around, config, entries)?;
    let root = places.root.as_bytes();
    let ignores_submodules = may_ignore_submodules(alloc, worktree, root, config, entries)?;
    Ok(Settings {
        nodes,
        quote_path: switches.quote_path,
        looks_for_skipped: switches.looks_for_skipped,
        converts,
        ignores_submodules,
    })
}

/// The same, with the configurations that are read for it.
#[tactic(auto, unfolding(crate::specs::Compared::read_comparison_settings))]
pub fn read_comparison_settings<W: Worktree>(
    alloc: Global,
    worktree: &mut W,
    places: &Places,
    around: &Surroundings,
    entries: &[IndexEntry],
) -> Result<Settings, GitRefusal>
    ensures { FindsOverToldTree W.Worktree worktree.old worktree.new
        (λ t. words.read_comparison_settings t places.now around.now entries.now) result }
{
    let stack = read_stack(alloc, worktree, places, around)?;
    comparison_settings_by_config_and_files(alloc, worktree, places, around, &stack.file, entries)
}

/// The path specs that are asked for.
fn parse_requested_pathspecs_as_search(
    alloc: Global,
    places: &Places,
    around: &Surroundings,
    paths: &[Bytes],
) -> Result<Search, GitRefusal>
    ensures { IsFoundOrRefusesMemory result (words.parse_requested_pathspecs_as_search places.now
        around.now paths.now) }
{
    let root = places.root.as_bytes();
    let directory = around.directory.as_bytes();
    let AskedSpecs { all, each: _ } = parse_pathspec_arguments(
        alloc, false, false, root, directory, paths,
    )?;
    Ok(all)
}

/// A work tree with its index, by what is said of both.
#[tactic(auto, unfolding(crate::specs::Compared::comparison_setup_of_index_and_settings))]
fn comparison_setup_of_index_and_settings(
    alloc: Global,
    places: &Places,
    around: &Surroundings,
    paths: &[Bytes],
    indexed: Indexed,
    settings: Settings,
) -> Result<Compared, GitRefusal>
    ensures { IsFoundOrRefusesMemory result (words.comparison_setup_of_index_and_settings places.now
        around.now paths.now indexed settings) }
{
    let path = path_of_index_file(alloc, places.git_dir.as_bytes())?;
    let specs = parse_requested_pathspecs_as_search(alloc, places, around, paths)?;
    let root = PathText::from_bytes(alloc, places.root.as_bytes())?;
    let Indexed { entries, details } = indexed;
    let index = checked_index_from_entries(alloc, path.as_bytes(), entries)?;
    Ok(Compared {
        root,
        index,
        details,
        specs,
        settings,
    })
}

/// What the work tree at these places, which [`find_repository_places`] answers, and its index are
/// compared by: the index as it stands in its file, with what the file says of each entry besides;
/// what the configuration and the files say of how both are compared; and the path specs that are
/// asked for, as they are from the top, where none means all.
///
/// # Errors
///
/// The first refusal, in this order:
///
/// - `IndexNode`, `IndexFile`: what stands in the place of the index is no file, or is outside the
///   grammar of one.
/// - `Files`: a configuration is not read, as [`git_config_files::read_stack`] says.
/// - `Boolean`: a value of `core` or `sparse` is no boolean, or none that is
///   known.
/// - `Elsewhere`: `core.fsmonitor` is set, so that a program tells which files changed.
/// - `OutsideRoot`, `PathSpec`, `OutsidePath`, `Prefix`: as [`crate::find_and_read_setup`] has
///   them.
/// - `IndexEntry`: an entry breaks a rule of [`gitbase_core::State`].
///
/// Besides, wherever it comes:
///
/// - `Fault`: the worktree failed, which it counted. No fault reads as "nothing is there".
/// - `OutOfMemory` for want of memory.
#[tactic(auto, unfolding(crate::specs::Compared::read_comparison_setup))]
pub fn read_comparison_setup<W: Worktree>(
    alloc: Global,
    worktree: &mut W,
    places: &Places,
    around: &Surroundings,
    paths: &[Bytes],
) -> Result<Compared, GitRefusal>
    ensures { FindsOverToldTree W.Worktree worktree.old worktree.new
        (λ t. words.read_comparison_setup t places.now around.now paths.now) result }
{
    let indexed = read_index_and_details_of_git_dir(alloc, worktree, places.git_dir.as_bytes())?;
    let settings = read_comparison_settings(
        alloc,
        worktree,
        places,
        around,
        indexed.entries.as_slice(),
    )?;
    comparison_setup_of_index_and_settings(alloc, places, around, paths, indexed, settings)
}
