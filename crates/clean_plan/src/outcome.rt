//! What may be removed.
use gitbase_core::PathText;

/// What may be removed.
#[derive(Debug, Drop)]
pub struct Plan {
    /// The paths, relative to the root of the work tree, in ascending order, byte by byte.
    pub paths: Vec<PathText>,
}
