//! What a walk works on.
use crate::outcome::Outcome;
use worktree_stack::Stack;

/// What a walk works on: all that a step may change, but for its place. It is public for the
/// contracts, which name it; no public call takes or gives one. Each part has a lifetime of its
/// own, so that a part that is a local can stand beside those handed in.
#[derive(Drop)]
pub struct Parts<'s, 'w, 'o, 'i, 'd, 'c, W, F, I, D> {
    /// The rules, with what of them is pushed.
    pub excludes: &'s mut Option<Stack>,
    /// The worktree.
    pub worktree: &'w mut W,
    /// The store of objects.
    pub objects: &'o mut F,
    /// The interrupt.
    pub interrupt: &'i mut I,
    /// The delegate.
    pub delegate: &'d mut D,
    /// What is counted.
    pub outcome: &'c mut Outcome,
}
