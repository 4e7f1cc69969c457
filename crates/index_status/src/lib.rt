//! The state of each index path against the worktree.
#![tactic(auto)]

mod compare;
mod error;
mod lines;
mod look;
mod path_state;
mod program;
mod report_beside;
mod way;

pub use compare::compare_index_paths_with_worktree;
pub use error::{StatesError, StatusError};
pub use git_index::blob_id;
pub use path_state::PathState;
pub use program::{make_status_as_text, run_status};
pub use report_beside::{IndexStatus, status};
