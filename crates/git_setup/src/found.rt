//! The setup that is found from the current directory.
ghost use Rattle.std.specs.Prelude.{◌≡◌, IfOk};
ghost use Rattle.git_config_files.specs.Safe.{require_trusted_top};
ghost use Rattle.git_places.specs.Limits as bounds;
ghost use Rattle.git_places.specs.Upward.{nearest_top_within_limits};
ghost use Rattle.git_setup.specs.Finds.{FindsOverToldTree, FindsOverToldTreeAndOwners};
ghost use Rattle.git_setup.specs.Found as words;
ghost use Rattle.git_setup.specs.Refusals.{files_result_as_git_result, places_result_as_git_result};

use crate::asked::Asked;
use crate::each::EachSpec;
use crate::error::GitRefusal;
use crate::parts::{Parts, is_for_deletion, read_remaining_setup_parts};
use crate::pathspecs::AskedSpecs;
use crate::placed::path_below_root;
use crate::read_here::read_index_and_configurations;
use git_config_files::{FilesError, require_trusted_top};
use git_config_lite::File;
use git_places::{
    Limits, Places, PlacesError, Surroundings, Top, find_work_tree_top, places_of_work_tree_top,
    search_limits_of_surroundings,
};
use gitbase_core::{Bytes, MemoryStore, OutOfMemory, PathText};
use std::alloc::Global;
use worktree_fs::{Owners, Worktree};
use worktree_report::{Setup, SetupOptions};

/// A work tree, and the setup that its repository gives.
#[derive(Debug, Drop)]
pub struct Found {
    /// The top of the work tree.
    pub root: PathText,
    /// The setup.
    pub setup: Setup,
    /// The current directory, from the top; no bytes where it is the top, or is not in the work
    /// tree.
    pub prefix: Bytes,
    /// The path specs of the setup, each by itself.
    pub each: EachSpec,
    /// Whether bytes above 0x7f are quoted in paths that are written, as `core.quotePath` says.
    pub quote_path: bool,
    /// What the configurations say, for keys that a command alone asks for.
    pub config: File,
}

/// An answer of the search for a work tree, its refusal as one of the whole.
fn places_result_as_git_result<T: Drop>(answer: Result<T, PlacesError>) -> Result<T, GitRefusal>
    ensures { result ≡ places_result_as_git_result answer }
{
    match answer {
        Ok(given) => Ok(given),
        Err(refused) => Err(GitRefusal::from(refused)),
    }
}

/// The same of an answer by configurations.
fn files_result_as_git_result<T: Drop>(answer: Result<T, FilesError>) -> Result<T, GitRefusal>
    ensures { result ≡ files_result_as_git_result answer }
{
    match answer {
        Ok(given) => Ok(given),
        Err(refused) => Err(GitRefusal::from(refused)),
    }
}

/// Where the search for the work tree ends.
fn find_search_limits<W: Worktree, O: Owners>(
    alloc: Global,
    worktree: &mut W,
    owners: &mut O,
    around: &Surroundings,
) -> Result<Limits, GitRefusal>
    ensures { FindsOverToldTreeAndOwners W.Worktree O.Owners worktree.old worktree.new owners.old
        owners.new (λ t owned. places_result_as_git_result (bounds.search_limits_of_surroundings t
        owned around.now)) result }
{
    let answer = search_limits_of_surroundings(alloc, worktree, owners, around);
    places_result_as_git_result(answer)
}

/// The nearest work tree, whoever owns it.
fn find_nearest_top<W: Worktree, O: Owners>(
    alloc: Global,
    worktree: &mut W,
    owners: &mut O,
    directory: &[u8],
    limits: &Limits,
) -> Result<Top, GitRefusal>
    ensures { FindsOverToldTreeAndOwners W.Worktree O.Owners worktree.old worktree.new owners.old
        owners.new (λ t owned. places_result_as_git_result (nearest_top_within_limits limits.now t
        owned directory.now)) result }
{
    let answer = find_work_tree_top(alloc, worktree, owners, directory, limits);
    places_result_as_git_result(answer)
}

/// A work tree, if it is the user's or safe.
fn require_trusted_top_here<W: Worktree, O: Owners>(
    alloc: Global,
    worktree: &mut W,
    owners: &mut O,
    around: &Surroundings,
    top: Top,
) -> Result<Top, GitRefusal>
    ensures { FindsOverToldTreeAndOwners W.Worktree O.Owners worktree.old worktree.new owners.old
        owners.new (λ t owned. files_result_as_git_result (require_trusted_top t owned around.now
        top)) result }
{
    let answer = require_trusted_top(alloc, worktree, owners, around, top);
    files_result_as_git_result(answer)
}

/// The nearest work tree, if it is the user's or safe.
fn find_trusted_top_within_limits<W: Worktree, O: Owners>(
    alloc: Global,
    worktree: &mut W,
    owners: &mut O,
    around: &Surroundings,
    limits: &Limits,
) -> Result<Top, GitRefusal>
    ensures { FindsOverToldTreeAndOwners W.Worktree O.Owners worktree.old worktree.new owners.old
        owners.new (λ t owned. words.find_trusted_top_within_limits t owned around.now limits.now)
        result }
{
    let directory = around.directory.as_bytes();
    let top = find_nearest_top(alloc, worktree, owners, directory, limits)?;
    require_trusted_top_here(alloc, worktree, owners, around, top)
}

/// That of the current directory.
fn find_trusted_top<W: Worktree, O: Owners>(
    alloc: Global,
    worktree: &mut W,
    owners: &mut O,
    around: &Surroundings,
) -> Result<Top, GitRefusal>
    ensures { FindsOverToldTreeAndOwners W.Worktree O.Owners worktree.old worktree.new owners.old
        owners.new (λ t owned. words.find_trusted_top t owned around.now) result }
{
    let limits = find_search_limits(alloc, worktree, owners, around)?;
    find_trusted_top_within_limits(alloc, worktree, owners, around, &limits)
}

/// The refusal of a variable that points git elsewhere.
fn refusal_of_variable_pointing_elsewhere(
    alloc: Global,
    name: &[u8],
) -> Result<GitRefusal, OutOfMemory>
    ensures { IfOk result (λ e. e ≡ GitRefusal.Elsewhere name.now) }
{
    Ok(GitRefusal::Elsewhere {
        name: Bytes::from_slice(alloc, name)?,
    })
}

/// The nearest work tree, unless a variable points git elsewhere.
pub fn find_top_unless_variable_redirects_git<W: Worktree, O: Owners>(
    alloc: Global,
    worktree: &mut W,
    owners: &mut O,
    around: &Surroundings,
) -> Result<Top, GitRefusal>
    ensures { FindsOverToldTreeAndOwners W.Worktree O.Owners worktree.old worktree.new owners.old
        owners.new (λ t owned. words.find_top_unless_variable_redirects_git t owned around.now)
        result }
{
    if let Some(name) = &around.elsewhere {
        return Err(refusal_of_variable_pointing_elsewhere(alloc, name.as_bytes())?);
    }
    find_trusted_top(alloc, worktree, owners, around)
}

/// The options, with one of them from the configuration.
fn options_with_ignore_case(options: &SetupOptions, ignore_case: bool) -> SetupOptions
    ensures { result ≡ words.options_with_ignore_case options.now ignore_case }
{
    let mut options = *options;
    options.ignore_case = ignore_case;
    options
}

/// The current directory, where that matters.
fn current_dir_if_deleting(
    alloc: Global,
    options: &SetupOptions,
    directory: &[u8],
) -> Result<Option<PathText>, OutOfMemory>
    ensures { IfOk result (λ path. path ≡ words.current_dir_if_deleting options.now directory.now) }
{
    if is_for_deletion(options) {
        return Ok(Some(PathText::from_bytes(alloc, directory)?));
    }
    Ok(None)
}

/// The current directory, from the top of a work tree.
pub fn current_prefix_in_work_tree(
    alloc: Global,
    root: &[u8],
    directory: &[u8],
) -> Result<Bytes, OutOfMemory>
    ensures { IfOk result (λ prefix. prefix ≡ words.current_prefix_in_work_tree root.now
        directory.now) }
{
    match path_below_root(root, directory) {
        Some(prefix) => Bytes::from_slice(alloc, prefix),
        None => Ok(Bytes::new(alloc)),
    }
}

/// The work tree at these places, with the setup of these parts.
fn found_setup_from_places_and_parts(
    alloc: Global,
    places: Places,
    around: &Surroundings,
    asked: &Asked,
    parts: Parts,
) -> Result<Found, OutOfMemory>
    ensures { IfOk result (λ found. found ≡ words.found_setup_from_places_and_parts places
        around.now asked.now parts) }
{
    let directory = around.directory.as_bytes();
    let prefix = current_prefix_in_work_tree(alloc, places.root.as_bytes(), directory)?;
    let current_dir = current_dir_if_deleting(alloc, &asked.options, directory)?;
    let options = options_with_ignore_case(&asked.options, parts.ignore_case);
    let AskedSpecs { all, each } = parts.specs;
    let setup = Setup {
        git_dir: Some(places.own_git),
        current_dir,
        root: None,
        depth: asked.depth,
        index: parts.index,
        blobs: MemoryStore::new(alloc),
        overrides: Bytes::new(alloc),
        globals: parts.globals,
        specs: all,
        worktrees: parts.worktrees.into_set(),
        configs: parts.configs,
        options,
    };
    Ok(Found {
        root: places.root,
        prefix,
        each,
        quote_path: parts.quote_path,
        config: parts.config,
        setup,
    })
}

/// What is found at the top of a work tree.
#[tactic(auto, unfolding(crate::specs::Found::read_setup_at_top))]
fn read_setup_at_top<W: Worktree>(
    alloc: Global,
    worktree: &mut W,
    around: &Surroundings,
    asked: &Asked,
    top: Top,
) -> Result<Found, GitRefusal>
    ensures { FindsOverToldTree W.Worktree worktree.old worktree.new
        (λ t. words.read_setup_at_top t around.now asked.now top) result }
{
    let places = places_of_work_tree_top(alloc, worktree, top)?;
    let read = read_index_and_configurations(alloc, worktree, &places, around)?;
    let parts = read_remaining_setup_parts(alloc, worktree, &places, around, asked, read)?;
    Ok(found_setup_from_places_and_parts(alloc, places, around, asked, parts)?)
}

/// The work tree around the current directory, and the setup of it that git's files give, for what
/// is asked.
///
/// The setup has the entries of the index, each as it is seen in the work tree; the rules of the
/// user and those of the repository behind them; the path specs that are asked for, as they are
/// from the top; and the git directory by which the repository is told from others. Where the
/// options are for deletion, the submodules of the index are work trees of their own, and the
/// current directory stays. Where submodules are asked for, it has the configurations in which keys
/// stand. Objects are not read: a rules file that is skipped, and would be needed, is told by the
/// walk as a blob that is missing.
///
/// # Errors
///
/// The first refusal, in this order:
///
/// - `Elsewhere`: a variable of the environment points git elsewhere.
/// - `Places`: there is no work tree, as [`search_limits_of_surroundings`] and
///   [`find_work_tree_top`] say.
/// - `Foreign`, `Files`: it is another user's, or a configuration that would say so is not read, as
///   [`require_trusted_top`] says.
/// - `Places`: its repository is not read here, as [`places_of_work_tree_top`] says.
/// - `IndexNode`, `IndexFile`: what stands in the place of the index is no file, or is outside the
///   grammar of one.
/// - `Files`: a configuration is not read, as [`git_config_files::read_stack`] says.
/// - `Boolean`: `core.ignoreCase`, `core.sparseCheckout`, `sparse.expectFilesOutsideOfPatterns` or
///   `core.quotePath` is no boolean.
/// - `SparseDirectory`: an entry of the index stands for all that is beneath a directory, and
///   something is in its place.
/// - `IndexEntry`: an entry breaks a rule of [`gitbase_core::State`].
/// - `Files`: a rules file that the configuration names is not read, as
///   [`git_config_files::read_rules_outside_work_tree`] says.
/// - `OutsideRoot`: the current directory is not in the work tree, and paths are asked for, or the
///   directory is meant where none are.
/// - `PathSpec`, `OutsidePath`, `Prefix`: the first path that is no path spec, leads out of the
///   work tree, or is from a directory whose bytes would mean something else in front of it.
/// - `SubmoduleCase`: the options are for deletion, names compare without regard to case, and there
///   is a submodule.
///
/// Besides, wherever it comes:
///
/// - `Fault`: the worktree failed, or the owners, which they counted. No fault reads as "nothing is
///   there".
/// - `OutOfMemory` for want of memory.
///
/// See docs/DECISIONS.md#setup-of-git.
#[tactic(auto, unfolding(crate::specs::Found::find_and_read_setup))]
pub fn find_and_read_setup<W: Worktree, O: Owners>(
    alloc: Global,
    worktree: &mut W,
    owners: &mut O,
    around: &Surroundings,
    asked: &Asked,
) -> Result<Found, GitRefusal>
    ensures { FindsOverToldTreeAndOwners W.Worktree O.Owners worktree.old worktree.new owners.old
        owners.new (λ t owned. words.find_and_read_setup t owned around.now asked.now) result }
{
    let top = find_top_unless_variable_redirects_git(alloc, worktree, owners, around)?;
    read_setup_at_top(alloc, worktree, around, asked, top)
}
