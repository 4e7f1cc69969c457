//! What a deletion leaves alone as a work tree of its own: submodules, and git directories of this
//! one.
ghost use Rattle.std.specs.Prelude.{◌≡◌, [], IfOk, OnOk, find, option_copied};
ghost use Rattle.gitbase_core.specs.Entry.{is_submodule_entry};
ghost use Rattle.git_setup.specs.Finds.{IsFoundOrRefusesMemory, FindsOverToldTree};
ghost use Rattle.git_setup.specs.OwnDirectories.{git_dirs_needing_protection_if_deleting};
ghost use Rattle.git_setup.specs.Protected as words;

use crate::error::GitRefusal;
use crate::own_directories::{OwnDirectories, git_dirs_needing_protection_if_deleting};
use git_places::Places;
use gitbase_core::{IndexEntry, OutOfMemory, PathText};
use std::alloc::Global;
use std::collections::BTreeSet;
use std::marker::Model;
use worktree_fs::Worktree;

/// Paths of work trees of their own. Contracts see the list of them, in the order of their bytes.
#[derive(Debug, Drop)]
pub struct Protected {
    paths: BTreeSet<PathText>,
}

impl Model for Protected {
    ghost use Rattle.std.specs.Prelude.{ℕ, List};

    ghost Value = { List (List ℕ) };

    ghost view = { λ protected. protected.paths.keys };
}

impl Protected {
    /// No paths; takes no memory.
    pub fn new(alloc: Global) -> Protected
        ensures { result ≡ [] }
    {
        Protected {
            paths: BTreeSet::new(alloc),
        }
    }

    /// The paths as a set; takes no memory.
    pub fn into_set(self) -> BTreeSet<PathText>
        ensures { result.keys ≡ self }
    {
        self.paths
    }
}

fn is_submodule_entry(entry: &IndexEntry) -> bool
    ensures { result ≡ is_submodule_entry entry.now }
{
    entry.mode.is_submodule()
}

/// Adds a path, if there is one.
fn insert_optional_path(
    alloc: Global,
    paths: &mut BTreeSet<PathText>,
    path: &Option<PathText>,
) -> Result<(), OutOfMemory>
    ensures { OnOk result (paths.new.keys ≡ words.paths_with_optional_path paths.old.keys
        path.now) }
{
    if let Some(path) = path {
        paths.insert(PathText::from_bytes(alloc, path.as_bytes())?)?;
    }
    Ok(())
}

/// The paths of git directories, and of the submodules of an index.
fn paths_of_git_dirs_and_submodules(
    alloc: Global,
    own: &OwnDirectories,
    entries: &[IndexEntry],
) -> Result<Protected, OutOfMemory>
    ensures { IfOk result (λ paths. paths ≡ words.paths_of_git_dirs_and_submodules own.now
        entries.now) }
{
    let mut paths = BTreeSet::new(alloc);
    insert_optional_path(alloc, &mut paths, &own.git)?;
    insert_optional_path(alloc, &mut paths, &own.common)?;
    for entry in entries {
        if is_submodule_entry(entry) {
            paths.insert(PathText::from_bytes(alloc, entry.path.as_bytes())?)?;
        }
    }
    Ok(Protected { paths })
}

/// The first submodule of an index.
fn first_submodule_entry(entries: &[IndexEntry]) -> Option<&IndexEntry>
    ensures { option_copied result ≡ find is_submodule_entry entries.now }
{
    entries.iter().find(|entry| is_submodule_entry(entry))
}

/// What a deletion leaves alone: these git directories, and the submodules of an index.
///
/// See docs/DIFFERENCES.md#submodule-in-other-letters.
fn protected_paths_if_deleting(
    alloc: Global,
    deletes: bool,
    ignore_case: bool,
    own: &OwnDirectories,
    entries: &[IndexEntry],
) -> Result<Protected, GitRefusal>
    ensures { IsFoundOrRefusesMemory result
        (words.protected_paths_if_deleting deletes ignore_case own.now entries.now) }
{
    if !deletes {
        return Ok(Protected::new(alloc));
    }
    match first_submodule_entry(entries) {
        Some(entry) if ignore_case => Err(GitRefusal::SubmoduleCase {
            path: PathText::from_bytes(alloc, entry.path.as_bytes())?,
        }),
        _ => Ok(paths_of_git_dirs_and_submodules(alloc, own, entries)?),
    }
}

/// What a deletion leaves alone in a work tree: its git directories, and the submodules of its
/// index.
pub fn find_protected_paths<W: Worktree>(
    alloc: Global,
    worktree: &mut W,
    deletes: bool,
    ignore_case: bool,
    places: &Places,
    entries: &[IndexEntry],
) -> Result<Protected, GitRefusal>
    ensures { FindsOverToldTree W.Worktree worktree.old worktree.new
        (λ t. words.protected_paths_if_deleting deletes ignore_case
        (git_dirs_needing_protection_if_deleting deletes t places.now) entries.now) result }
{
    let own = git_dirs_needing_protection_if_deleting(alloc, worktree, deletes, places)?;
    protected_paths_if_deleting(alloc, deletes, ignore_case, &own, entries)
}
