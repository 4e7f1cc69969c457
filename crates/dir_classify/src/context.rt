//! What a walk works on.
use crate::options::Options;
use gitbase_core::{AccelerateLookup, Bytes, State};
use worktree_stack::Stack;

/// What a walk and the class of a path work on, after gitoxide's `gix_dir::walk::Context`.
///
/// See docs/DECISIONS.md#loans-of-options.
#[derive(Drop)]
pub struct Context<'a, W, F, I, M> {
    /// The worktree, which is asked for kinds, names, rules files and repositories.
    pub worktree: &'a mut W,
    /// The store of the blobs that rules files are mapped to.
    pub objects: &'a mut F,
    /// Asked before each directory is read.
    pub interrupt: &'a mut I,
    /// The path specs, or what else says which paths are meant.
    pub pathspec: &'a M,
    /// The ignore rules of the same worktree root, where paths are to be ignored by them; they tell
    /// which paths are excluded.
    pub excludes: &'a mut Option<Stack>,
    /// The index.
    pub index: &'a State,
    /// A look-up made from `index`, by which paths are found there without regard to the case of
    /// ASCII letters where the options ask for that.
    pub ignore_case_index_lookup: &'a Option<AccelerateLookup>,
    /// The real path of the git directory of the worktree, by which it is told from other
    /// repositories.
    pub git_dir_realpath: &'a [u8],
    /// The real path of the current directory, which deletion leaves in place.
    pub current_dir: &'a [u8],
    /// The directory or file to walk, relative to the worktree root; without one it follows from
    /// the path specs.
    pub explicit_traversal_root: &'a Option<Bytes>,
    /// How many components a directory that is entered may have below the worktree root.
    pub depth_limit: usize,
}

/// The parts of a context that are only read, with the worktree root and the options.
///
/// See docs/DECISIONS.md#shared-context.
#[derive(Drop)]
pub struct Shared<'a, M> {
    /// The worktree root: absolute, without `.` and `..`.
    pub worktree_root: &'a [u8],
    /// The path specs, or what else says which paths are meant.
    pub pathspec: &'a M,
    /// The index.
    pub index: &'a State,
    /// A look-up made from `index`.
    pub ignore_case_index_lookup: &'a Option<AccelerateLookup>,
    /// The real path of the git directory of the worktree.
    pub git_dir_realpath: &'a [u8],
    /// The real path of the current directory.
    pub current_dir: &'a [u8],
    /// The options.
    pub options: Options<'a>,
}
