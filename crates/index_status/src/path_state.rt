//! What became of an index path.

/// What became of an index path in the worktree.
#[derive(Clone, Copy, Debug, PartialEq, Eq)]
pub enum PathState {
    /// A file with the bytes that the index has.
    Same,
    /// A file with other bytes.
    Modified,
    /// Nothing: no node is there, or something on the way to it is no directory.
    Deleted,
    /// A node of another kind than the index has.
    TypeChanged,
    /// The path is not merged.
    Conflicted,
    /// The index says not to look: the path is left out of a sparse worktree, taken as unchanged,
    /// or a directory that a sparse index holds as one entry.
    Skipped,
    /// A link or the directory of a submodule, as the index has it; what it leads to or holds is
    /// not compared.
    Unchecked,
}
