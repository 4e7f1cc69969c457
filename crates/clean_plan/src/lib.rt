//! What may be removed from a work tree, as `git clean` removes it; nothing is removed here.
#![tactic(auto)]

mod by_setup;
mod closed;
mod current;
mod error;
mod fronts;
mod inputs;
mod kept;
mod left_in_place;
mod outcome;
mod paths;
mod planned;
mod prepared;
mod program;
mod removable;
mod shared;
mod sift;
mod what;
mod whole;
mod words;

pub use by_setup::{plan, plan_removal_by_report};
pub use error::CleanError;
pub use outcome::Plan;
pub use prepared::{are_options_prepared_for_plan, prepare};
pub use program::{plan_clean_as_text, run_clean};
pub use what::{Finding, OtherNodes, TakenOut, Wanted, What};
