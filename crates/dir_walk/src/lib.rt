//! The walk of a worktree: every path below its traversal root with its class, directory by
//! directory. What a name hands up is held until the directory's names are done; then the directory
//! is folded over it, or it is put out.
//!
//! [`walk`] gives what it finds to a [`Delegate`]; [`walk_sorted_by_path`] keeps it in the order of
//! paths; [`walk_at_once`] walks each subtree of the traversal root as a job of its own.
#![tactic(auto)]

pub mod at_once;
mod children;
mod close;
pub mod collect;
pub mod delegate;
mod directory;
mod emit;
mod enter;
mod fold;
mod function;
mod handed;
mod jobs;
mod open;
pub mod outcome;
mod parts;
mod place;
pub mod report;
mod root;
mod start;
pub mod strategy;
mod tally;

pub use at_once::walk_at_once;
pub use collect::{Collect, EmittedEntries};
pub use delegate::{Action, Delegate};
pub use function::walk;
pub use outcome::Outcome;
pub use report::{Report, walk_sorted_by_path};
pub use strategy::Strategy;
