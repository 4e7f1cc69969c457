//! The attributes of paths, after gitattributes(5) and gitoxide's `gix_attributes`, whose `Search`,
//! `Outcome` and `MetadataCollection` they are.
ghost use Rattle.std.specs.Prelude.{◌≡◌};

use gitbase_core::Bytes;
use std::alloc::AllocError;

mod collection;
mod left;
mod line;
mod list;
mod outcome;
mod quoted;
mod search;
mod selected;
mod sources;
mod standing;
mod standing_at;
mod word;

pub use collection::MetadataCollection;
pub use outcome::{Outcome, fill};
pub use search::Search;
pub use selected::Selected;

/// What is said of an attribute.
#[derive(Debug, Drop)]
pub enum Assignment {
    /// It is set: a word `a`.
    Set,
    /// It is unset: a word `-a`.
    Unset,
    /// It is as if nothing were said of it, and lists below say no more: a word `!a`.
    Unspecified,
    /// It has a value: a word `a=v`.
    Value(Bytes),
}

impl Clone for Assignment {
    ghost is_clone = { λ assignment copy. copy ≡ assignment };

    fn clone(&self) -> Result<Assignment, AllocError> {
        match self {
            Assignment::Set => Ok(Assignment::Set),
            Assignment::Unset => Ok(Assignment::Unset),
            Assignment::Unspecified => Ok(Assignment::Unspecified),
            Assignment::Value(value) => Ok(Assignment::Value(value.clone()?)),
        }
    }
}
