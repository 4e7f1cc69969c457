//! The report of a git worktree: each path with its class, one line a path.
#![tactic(auto)]

mod below;
mod by_setup;
mod converted;
mod error;
mod escape;
mod excludes;
mod facts;
mod fault_count;
mod generate;
mod known;
mod lines;
mod modules;
mod permissions;
mod program;
mod refusal;
mod report;
mod setup;
mod setup_file;
mod text;
mod top_call;
mod walk_by_setup;
mod words;
mod write_whole;

pub use by_setup::worktree_report;
pub use converted::{exit_status_of_report_error, refusal_of_report_error};
pub use dir_walk::Strategy;
pub use error::ReportError;
pub use escape::{append_path_escaped, append_path_hex_escaped};
pub use facts::{Activity, Facts};
pub use fault_count::{CountsFaults, has_failed_since};
pub use lines::report_bytes;
pub use modules::{Modules, load_modules};
pub use permissions::{Attributes, Config, Environment, Permission, Permissions, Trust};
pub use program::run;
pub use refusal::{Misread, Refusal, WalkWord, write_line_ignoring_refusal};
pub use report::{Report, ReportEntries, ReportEntry};
pub use setup::configs::Configs;
pub use setup::depth::parse_depth_limit;
pub use setup::{Setup, SetupError, SetupOptions};
pub use setup_file::read_setup;
pub use top_call::write_answer;
pub use walk_by_setup::{index_lookup_if_ignore_case, report_text_or_refusal};
pub use words::{
    Places, parse_places_of_command, parse_root_and_setup_words, words_behind_composed,
    words_behind_first_word,
};
