//! The command line of `tizhagor`: what its words ask for, how answers are written, and what is
//! said of words that ask for nothing.
#![tactic(auto)]

mod change_words;
mod check_help;
mod check_options;
mod choice;
mod clean_options;
mod command;
mod compare_help;
mod compare_options;
mod draft;
mod form;
mod help;
mod misuse;
mod opt;
mod option_value;
mod read;
mod render;
mod request;
mod row;
mod rules_given;
mod step;
mod unspelled;
mod verb;

pub use check_options::CheckAsked;
pub use clean_options::Force;
pub use command::{CleanAsked, Command, FilesAsked, Request};
pub use compare_options::{Comparing, Ignoring, default_diff_files_request};
pub use form::{Color, Form, LineEnd, Style, Wording, style_for_output};
pub use help::{help_text_of_topic, version_line};
pub use misuse::{Misuse, Wrong, message_of_misuse};
pub use render::{plan_text_with_line_ends, restyle_report_text};
pub use request::parse_request_words;
pub use rules_given::RulesGiven;
pub use verb::{Topic, Verb};
