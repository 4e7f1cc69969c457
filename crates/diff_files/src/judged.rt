//! What is known of a path before its bytes are asked for.
use crate::change::PathChange;
use crate::error::Unsupported;

/// What is known of a path before its bytes are asked for.
#[derive(Clone, Copy, Debug, PartialEq, Eq)]
pub enum Judged {
    /// How it changed.
    Known(PathChange),
    /// The form is not answered.
    Refused(Unsupported),
    /// It changed in this way, unless its bytes are those of the entry.
    ByBytes(PathChange),
}
