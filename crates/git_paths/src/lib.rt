//! Paths as git prints them: in quotes where they have to be, and as they read from a directory.
#![tactic(auto)]

mod c_style;
mod relative;

pub use c_style::{append_path_quoted_if_needed, path_needs_c_style_quotes, path_quoted_if_needed};
pub use relative::path_relative_to_prefix;
