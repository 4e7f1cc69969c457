//! git's index file, read from its bytes: versions 2, 3 and 4; and the id of a blob.
//!
//! `read_index` answers the entries as they stand, beside each what else the file says of it, and
//! whether the index is a sparse one. Whether the entries may be an index, in their order, stages
//! and paths, is asked by `State::from_entries`.
#![tactic(auto)]

mod blob;
mod entries;
mod entry;
mod error;
mod extensions;
mod file;
mod head;
mod more;
mod name;
mod parts;
mod stat;
mod varint;

pub use blob::blob_id;
pub use error::IndexFileError;
pub use file::{IndexFile, read_index};
pub use stat::{Detail, Stat, Time};
