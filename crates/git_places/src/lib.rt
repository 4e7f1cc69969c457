//! Where git keeps things: the work tree of a directory, its git directory, and what is common to
//! all its work trees.
#![tactic(auto)]

mod ceilings;
mod error;
mod format;
mod git_directory;
mod head;
mod limits;
mod places;
mod surroundings;
mod truths;
mod upward;
mod variables;
mod whole;

pub use ceilings::{Ceilings, parse_ceiling_directories};
pub use error::PlacesError;
pub use format::{Version, copy_optional_path, file_of_last_section_with_key};
pub use git_directory::dot_git_path;
pub use limits::{Limits, search_limits_of_surroundings};
pub use places::{Places, places_of_work_tree_top};
pub use surroundings::Surroundings;
pub use truths::parse_boolean_text;
pub use upward::{Top, find_work_tree_top};
pub use variables::{Variable, surroundings_of_variables};
