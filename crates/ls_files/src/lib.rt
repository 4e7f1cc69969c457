//! What `git ls-files` prints: the paths of an index, and what else a work tree holds.
#![tactic(auto)]

mod alone;
mod answer;
mod cached;
mod changed;
mod changed_error;
mod entries;
mod excluded;
mod excluded_error;
mod ignored_directories;
mod is_directory_at;
mod judged;
mod killed;
mod line;
mod listed;
mod names;
mod options;
mod others;
mod place;
mod ruled_out;
mod shown;
mod standings;
mod unmatched;
mod unseen;
mod walk_request;
mod wrong;

pub use alone::{is_below_excluded_directory, is_path_or_parent_excluded};
pub use answer::list_files_of_worktree;
pub use cached::needs_worktree_walk;
pub use changed::list_deleted_and_modified;
pub use changed_error::ChangedError;
pub use excluded::{
    list_ignored_index_entries, lists_only_ignored_index_entries, refusal_if_no_rules_or_sparse,
};
pub use excluded_error::ExcludedError;
pub use listed::{Listed, output_and_errors_of_report_entries};
pub use options::{Listing, NamedSpec};
pub use place::Place;
pub use standings::{ChangeQuery, DeletedModifiedChoice};
pub use unseen::lies_in_spec_skipped_directory;
pub use walk_request::walk_options_for_listing;
pub use wrong::{
    WrongListing, first_refusal_of_options_and_index, refusal_of_options_for_changes,
    refusal_of_partial_ignored_directories,
};
