//! What `git check-ignore` prints: by which ignore rule a path is excluded.
#![tactic(auto)]

mod answer;
mod as_written;
mod asked;
mod decision;
mod each_path;
mod found_rule;
mod input;
mod line;
mod links;
mod lookup;
mod options;
mod outer;
mod placed;
mod quotes;
mod refusal_text;
mod stop;
mod tracked;
mod written;
mod wrong;

pub use answer::{Answered, check_ignore};
pub use each_path::check_paths_or_stdin;
pub use options::{CheckContext, Checking, NamedRules, OuterRules};
pub use refusal_text::told;
pub use stop::Stop;
pub use wrong::{WrongCheck, first_option_error};
