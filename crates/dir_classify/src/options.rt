//! What a walk is asked to emit, and how it looks at paths; after gitoxide's
//! `gix_dir::walk::Options`.
ghost use Rattle.std.specs.Prelude.{◌≡◌, is_some};
ghost use Rattle.std.specs.List.{list_any};
ghost use Rattle.std.specs.Str.{bytes_eq};
ghost use Rattle.gitbase_core.specs.Path.{is_beneath_directory};
ghost use Rattle.dir_classify.specs.Chosen.{walk_options_of, finds_repositories_in_ignored, finds_bare_repositories_in_ignored, deletion_skips_search_of_ignored_directories};
ghost use Rattle.dir_classify.specs.Class.{is_in_worktree_set, has_worktree_beneath};

use gitbase_core::{PathText, is_beneath_directory};
use std::alloc::Global;
use std::collections::BTreeSet;

/// How entries of a kind are emitted, as gitoxide's `gix_dir::walk::EmissionMode`.
#[derive(Clone, Copy, Debug, PartialEq, Eq, PartialOrd, Ord, Hash, Default)]
pub enum EmissionMode {
    /// Each path by itself.
    #[default]
    Matching,
    /// Directories in place of what lies in them, where all of that is of one kind.
    CollapseDirectory,
}

/// Which entries are emitted besides the directory that was folded over them, as gitoxide's
/// `gix_dir::walk::CollapsedEntriesEmissionMode`.
#[derive(Clone, Copy, Debug, PartialEq, Eq, PartialOrd, Ord, Hash, Default)]
pub enum CollapsedEntriesEmissionMode {
    /// Those whose status is another than that of the directory.
    #[default]
    OnStatusMismatch,
    /// All of them.
    All,
}

/// That the entries are to be deleted, and how far ignored directories are looked into for
/// repositories, which must stay; as gitoxide's `gix_dir::walk::ForDeletionMode`.
#[derive(Clone, Copy, Debug, PartialEq, Eq, PartialOrd, Ord, Hash, Default)]
pub enum ForDeletionMode {
    /// Not at all, so that a repository in one may be missed.
    #[default]
    IgnoredDirectoriesCanHideNestedRepositories,
    /// They are walked, and where ignored paths are emitted repositories with a `.git` are found.
    FindNonBareRepositoriesInIgnoredDirectories,
    /// They are walked, and where ignored paths are emitted bare repositories are found too. This
    /// costs a look at each of them.
    FindRepositoriesInIgnoredDirectories,
}

/// The options of a walk. Each is off by default, and directories are not folded.
///
/// See docs/DECISIONS.md#precompose-option.
/// See docs/DECISIONS.md#options-as-values.
#[derive(Clone, Copy, Debug, PartialEq, Eq, Default)]
pub struct Options<'a> {
    /// Whether names are composed, as `core.precomposeUnicode` says; as the worktree composes them,
    /// or not.
    pub precompose_unicode: bool,
    /// Whether ASCII letters compare without regard to their case, as `core.ignoreCase` says.
    pub ignore_case: bool,
    /// Whether a class looks for no repository on disk, so that repositories are walked like other
    /// directories; what an up-to-date entry of the index or the worktree set says is one stays
    /// one, and is not walked. In deletion that may hide repositories a walk looks at an ignored
    /// directory even so.
    pub recurse_repositories: bool,
    /// Whether pruned paths are emitted too, and of the other paths those that no path spec matches
    /// or that one takes out.
    pub emit_pruned: bool,
    /// Whether ignored paths are emitted too, and how. Classes of ignored directories depend on it:
    /// only where ignored paths are emitted is one above what is looked for matched as `Prefix`,
    /// and does deletion look for repositories in one.
    pub emit_ignored: Option<EmissionMode>,
    /// Whether the entries are to be deleted.
    pub for_deletion: Option<ForDeletionMode>,
    /// Whether untracked directories are tested for being bare repositories. This costs a look at
    /// each of them.
    pub classify_untracked_bare_repositories: bool,
    /// Whether tracked paths are emitted too.
    pub emit_tracked: bool,
    /// How untracked paths are emitted.
    pub emit_untracked: EmissionMode,
    /// Whether directories without names are emitted too.
    pub emit_empty_directories: bool,
    /// Whether entries are emitted besides a directory that was folded over them, and which.
    pub emit_collapsed: Option<CollapsedEntriesEmissionMode>,
    /// Whether the ignore rules see a link as what it leads to.
    pub symlinks_to_directories_are_ignored_like_directories: bool,
    /// The directories that are worktrees of their own, relative to the worktree root: they are
    /// tracked as repositories. In deletion an ignored directory above one of them is matched as
    /// `Prefix`, where ignored paths are emitted and it is not seen as a repository.
    pub worktree_relative_worktree_dirs: Option<&'a BTreeSet<PathText>>,
}

/// Whether a path is one of the worktree set.
#[tactic(auto, unfolding(crate::specs::Chosen::walk_options_of))]
pub(crate) fn is_in_worktree_set(alloc: Global, options: &Options<'_>, path: &[u8]) -> bool
    ensures { result ≡ is_in_worktree_set (walk_options_of options.now) path.now }
{
    match options.worktree_relative_worktree_dirs {
        None => false,
        Some(dirs) => set_contains_path(alloc, dirs, path),
    }
}

/// Whether one of the worktree set lies beneath a path.
#[tactic(auto, unfolding(crate::specs::Chosen::walk_options_of))]
pub(crate) fn has_worktree_beneath(options: &Options<'_>, path: &[u8]) -> bool
    ensures { result ≡ has_worktree_beneath (walk_options_of options.now) path.now }
{
    match options.worktree_relative_worktree_dirs {
        None => false,
        Some(dirs) => set_has_path_beneath(dirs, path),
    }
}

/// Whether a path is one of a set: by one search, for a copy of the path, and by none where the set
/// is empty. Where memory for the copy is refused the set is passed over.
///
/// See docs/DECISIONS.md#slower-without-memory.
/// See docs/DIFFERENCES.md#gix-worktree-set.
fn set_contains_path(alloc: Global, dirs: &BTreeSet<PathText>, path: &[u8]) -> bool
    ensures { result ≡ list_any (bytes_eq path.now) dirs.now.keys }
{
    let count = dirs.len();
    if count == 0 {
        return false;
    }
    match PathText::from_bytes(alloc, path) {
        Ok(key) => contains_by_search(dirs, &key),
        Err(_) => contains_by_scan(dirs, path),
    }
}

/// Whether a path is one of a set, by a search.
fn contains_by_search(dirs: &BTreeSet<PathText>, path: &PathText) -> bool
    ensures { result ≡ list_any (bytes_eq path.now) dirs.now.keys }
{
    dirs.contains(path)
}

/// Whether a path is one of a set, by passing over it.
fn contains_by_scan(dirs: &BTreeSet<PathText>, path: &[u8]) -> bool
    ensures { result ≡ list_any (bytes_eq path.now) dirs.now.keys }
{
    dirs.iter().any(|dir| path == dir.as_bytes())
}

/// Whether one of a set lies beneath a path: the set is passed over up to the first that does.
fn set_has_path_beneath(dirs: &BTreeSet<PathText>, path: &[u8]) -> bool
    ensures { result ≡ list_any (is_beneath_directory path.now) dirs.now.keys }
{
    dirs.iter()
        .any(|dir| is_beneath_directory(path, dir.as_bytes()))
}

/// Whether the entries are to be deleted.
#[tactic(auto, unfolding(crate::specs::Chosen::walk_options_of))]
pub(crate) fn is_for_deletion(options: &Options<'_>) -> bool
    ensures { result ≡ is_some (walk_options_of options.now).for_deletion }
{
    options.for_deletion.is_some()
}

/// Whether deletion looks for repositories in ignored directories.
pub(crate) fn finds_repositories_in_ignored(mode: Option<ForDeletionMode>) -> bool
    ensures { result ≡ finds_repositories_in_ignored mode }
{
    match mode {
        None | Some(ForDeletionMode::IgnoredDirectoriesCanHideNestedRepositories) => false,
        Some(ForDeletionMode::FindNonBareRepositoriesInIgnoredDirectories) => true,
        Some(ForDeletionMode::FindRepositoriesInIgnoredDirectories) => true,
    }
}

/// Whether it looks for bare ones too.
pub(crate) fn finds_bare_repositories_in_ignored(mode: Option<ForDeletionMode>) -> bool
    ensures { result ≡ finds_bare_repositories_in_ignored mode }
{
    match mode {
        None | Some(ForDeletionMode::IgnoredDirectoriesCanHideNestedRepositories) => false,
        Some(ForDeletionMode::FindNonBareRepositoriesInIgnoredDirectories) => false,
        Some(ForDeletionMode::FindRepositoriesInIgnoredDirectories) => true,
    }
}

/// Whether deletion does not look into ignored directories.
pub fn deletion_skips_search_of_ignored_directories(mode: Option<ForDeletionMode>) -> bool
    ensures { result ≡ deletion_skips_search_of_ignored_directories mode }
{
    match mode {
        Some(ForDeletionMode::IgnoredDirectoriesCanHideNestedRepositories) => true,
        None | Some(ForDeletionMode::FindNonBareRepositoriesInIgnoredDirectories) => false,
        Some(ForDeletionMode::FindRepositoriesInIgnoredDirectories) => false,
    }
}
