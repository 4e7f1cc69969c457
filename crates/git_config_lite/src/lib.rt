//! One configuration file of git: what its text says, and how it is asked.
#![tactic(auto)]

mod boolean;
mod draft;
mod element;
mod entry;
mod error;
mod file;
mod found;
mod header;
mod index;
mod iterators;
mod key;
mod left;
mod lookup;
mod metadata;
mod run;
mod runs;
mod section;
mod section_place;
mod subsection;
mod text;
mod value;

pub use entry::Entry;
pub use error::{ParseError, ValueError};
pub use file::File;
pub use iterators::{Sections, Values};
pub use metadata::{Metadata, Source};
pub use section::Section;
pub use text::{is_key_name, is_section_name};
