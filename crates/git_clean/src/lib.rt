//! What `git clean -n` prints: which paths `git clean` would remove. Nothing is removed here.
#![tactic(auto)]

mod above;
mod answer;
mod beneath;
mod cleaned;
mod inside;
mod leading_pathspec;
mod line;
mod names;
mod options;
mod parts;
mod places;
mod removable;
mod ruled;
mod scene;
mod sets;
mod walk_request;
mod wrong;

pub use answer::clean_dry_run_text;
pub use cleaned::dry_run_text_of_entries;
pub use options::Cleaning;
pub use walk_request::walk_options_for_cleaning;
pub use wrong::{UnsupportedCleaning, reason_cleaning_unsupported};
