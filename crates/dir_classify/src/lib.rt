//! What a walk says of a path: whether it is tracked, ignored or untracked, what kind of node it is
//! on disk and in the index, and whether a walk looks into it.
#![tactic(auto)]

mod cases;
pub mod classify;
pub mod context;
pub mod entry;
pub mod error;
mod excludes;
mod index;
pub mod options;
mod paths;
pub mod repository;
mod repository_cases;
mod steps;

pub use context::{Context, Shared};
pub use entry::{Entry, EntryRef, Kind, PathspecMatch, Property, Status};
pub use error::{Error, MetadataWhy, ReadWhy};
pub use excludes::is_absent_or_has_excludes;
pub use options::{CollapsedEntriesEmissionMode, EmissionMode, ForDeletionMode, Options};
pub use paths::join_worktree_root;
pub use repository::maybe_upgrade_to_repository;
