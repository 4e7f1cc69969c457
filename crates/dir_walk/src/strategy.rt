//! How the subtrees of a traversal root are walked.

/// How the subtrees of a traversal root are walked; what is found is the same.
#[derive(Clone, Copy, Debug, PartialEq, Eq)]
pub enum Strategy {
    /// Directory after directory, over the worktree that is handed in.
    Held,
    /// Each as a job of its own, over forks of what is handed in.
    AtOnce,
}
