//! The setup of a report, made from the `.git` of a work tree.
#![tactic(auto)]

mod asked;
mod below_top;
mod checked;
mod compared;
mod conversions;
mod details;
mod each;
mod entries;
mod error;
mod found;
mod from_directory;
mod globals;
mod ignores_here;
mod index;
mod indexed;
mod own_directories;
mod parts;
mod pathspecs;
mod placed;
mod present;
mod protected;
mod read_here;
mod settings;
mod switches;
mod written;

pub use asked::Asked;
pub use below_top::exempt_top_from_star_rules;
pub use checked::{Checked, NamedFile, OuterFiles, read_check_ignore_setup};
pub use compared::{Compared, find_repository_places, read_comparison_setup};
pub use details::Details;
pub use each::{AskedSpec, EachSpec};
pub use error::GitRefusal;
pub use found::{Found, find_and_read_setup};
pub use from_directory::{ComparedFrom, read_comparison_setup_from_directory};
pub use index::path_of_index_file;
pub use settings::{NodeSettings, Settings};
