//! Where a walk stands.
ghost use Rattle.std.specs.Prelude.{◌≡◌, true, false, [], IfOk, OnOk, OnErr, length};
ghost use Rattle.gitbase_core.specs.Path.{path_joined_with_slash, components, path_with_trailing_slash, ends_in_slash};
ghost use Rattle.worktree_fs.specs.Naming.{IsValidEntryName};
ghost use Rattle.worktree_fs.specs.Paths.{root_joined_with_relative, is_relative_without_dots, slash_joined_components};
ghost use Rattle.dir_walk.specs.Placed.{PlaceInWorktree, IsNameInPlace};

use crate::handed::{Handed, Stop};
use dir_classify::join_worktree_root;
use gitbase_core::{OutOfMemory, PathText, needs_slash_before_component};
use std::alloc::Global;
use std::marker::Model;

/// A path of a worktree, relative to its root, in one text with the root: the relative path is the
/// tail of the whole one. A walk goes on to a name by putting it behind the path of its directory,
/// and back by cutting it off.
///
/// Contracts see the root and the relative path, which is normal: one slash parts each two
/// components, and none stands at the end.
#[derive(Drop)]
pub(crate) struct Place {
    whole: PathText,
    root_length: usize,
    start: usize,
}

impl Model for Place {
    ghost use Rattle.dir_walk.specs.Placed.{PlaceInWorktree, place_from_whole_path, IsWellPlaced};

    ghost Value = { PlaceInWorktree };

    ghost view = { λ place. place_from_whole_path place.root_length place.start place.whole };

    ghost invariant = { λ place. IsWellPlaced place.root_length place.start place.whole };
}

impl Place {
    /// The path `path` of a worktree; it is normal: one slash parts each two components, and none
    /// stands at the end.
    pub fn from_root_and_path(
        alloc: Global,
        worktree_root: &[u8],
        path: &[u8],
    ) -> Result<Place, OutOfMemory>
        requires normal { is_relative_without_dots path.now ≡ true }
        requires plain { ends_in_slash path.now ≡ false }
        requires spelled { path.now ≡ slash_joined_components (components path.now) }
        ensures { IfOk result
            (λ place. place ≡ record { root = worktree_root.now; path = path.now }) }
    {
        let whole = join_worktree_root(alloc, worktree_root, path)?;
        let root_length = worktree_root.len();
        Ok(Place {
            whole,
            root_length,
            start: start_of_relative_path(worktree_root),
        })
    }

    /// The whole path.
    pub fn whole(&self) -> &[u8]
        ensures { result.now ≡ root_joined_with_relative self.now.root self.now.path }
    {
        self.whole.as_bytes()
    }

    /// The path relative to the worktree root.
    pub fn path(&self) -> &[u8]
        ensures path { result.now ≡ self.now.path }
        ensures normal { is_relative_without_dots self.now.path ≡ true }
        ensures plain { ends_in_slash self.now.path ≡ false }
        ensures spelled { self.now.path ≡ slash_joined_components (components self.now.path) }
    {
        let whole = self.whole.as_bytes();
        if whole.len() < self.start {
            return &[];
        }
        &whole[self.start..]
    }

    /// Goes on to a name in the directory that stands here, and answers how long the directory's
    /// whole path is.
    #[inline(never)]
    pub fn push(&mut self, alloc: Global, name: &[u8]) -> Result<usize, OutOfMemory>
        requires { IsValidEntryName name.now }
        ensures pushed { OnOk result (self.new
            ≡ record {
              root = self.old.root;
              path = path_joined_with_slash self.old.path name.now;
            }) }
        ensures within { IfOk result (λ cut. IsNameInPlace cut self.old self.new) }
    {
        let length = self.whole.as_bytes().len();
        self.whole.push_component(alloc, name)?;
        Ok(length)
    }

    /// Goes back to the directory whose whole path has so many bytes, where the walk of a name in
    /// it ended well. A walk that is refused or broken ends wherever it stands.
    #[inline(never)]
    pub fn truncate_to_directory_if_ok(&mut self, cut: usize, handed: &Result<Handed, Stop>)
        requires { (directory : PlaceInWorktree)
            × OnOk handed.now (IsNameInPlace cut directory self.old) }
        ensures { (directory : PlaceInWorktree)
            → OnOk handed.now (IsNameInPlace cut directory self.old)
            → OnOk handed.now (self.new ≡ directory) }
    {
        if handed.is_err() {
            return;
        }
        self.whole.truncate(cut);
    }
}

/// Where a path begins that stands behind a worktree root.
fn start_of_relative_path(root: &[u8]) -> usize
    ensures { result ≡ length (path_with_trailing_slash root.now) }
{
    if needs_slash_before_component(root) {
        return root.len() + 1;
    }
    root.len()
}
