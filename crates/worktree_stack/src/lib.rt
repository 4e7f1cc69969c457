//! Ignore rules and attributes below a worktree root: which rule excludes a path, and which
//! attributes it has, read directory by directory as paths are looked up.
#![tactic(auto)]

pub mod attributes;
pub mod attributes_source;
mod delegate;
pub mod error;
pub mod ignore;
pub mod ignore_source;
mod mappings;
mod matched;
mod order;
mod platform;
pub mod stack;
pub mod state;
pub mod statistics;
pub mod validate;

pub use attributes::Attributes;
pub use error::{AtPathError, BlobWhy, DirectoryWhy, RulesWhy};
pub use ignore::Ignore;
pub use mappings::{PathIdMapping, PathIdMappings};
pub use platform::{Exclusion, Platform};
pub use stack::Stack;
pub use state::{Checkout, State};
pub use statistics::{DelegateStatistics, RulesStatistics, Statistics};
