//! The configurations that git reads for a repository, with what they include in place.
#![tactic(auto)]

mod appearance;
mod conditions;
mod config_files;
mod error;
mod includes;
mod keys;
mod known;
mod rules;
mod safe;
mod stack;
mod targets;
mod which;

pub use config_files::{ConfigFiles, Configured};
pub use error::FilesError;
pub use rules::{Rules, RulesFile, read_rules_outside_work_tree};
pub use safe::require_trusted_top;
pub use stack::{Stack, read_stack};
