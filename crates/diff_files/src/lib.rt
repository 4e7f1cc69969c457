//! What `git diff-files` prints: how the paths of an index changed in a work tree, by what the
//! system tells of the nodes.
#![tactic(auto)]

mod answer;
mod change;
mod comparison;
mod entry;
mod error;
mod fields;
mod judged;
mod line;
mod modes;
mod parts;
mod path_state;
mod place;
mod racy;
mod row;
mod stats;
mod taken;

pub use answer::{Differences, changed_rows, diff_files};
pub use change::PathChange;
pub use comparison::{Comparison, Form, Submodules};
pub use error::{DiffError, Unanswered, Unsupported};
pub use path_state::{
    change_for_ls_files_deleted, change_for_ls_files_modified, is_effectively_skipped_below_root,
};
pub use row::Row;
pub use stats::Stats;
pub use stats::disk::DiskStats;
pub use stats::memory::{MemoryStats, StatNode};
pub use stats::node_stat::NodeStat;
