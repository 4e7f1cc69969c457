//! Who owns a node, and on which file system it lies.

/// Who owns a node, and on which file system it lies.
#[derive(Clone, Copy, Debug, PartialEq, Eq)]
pub struct Ownership {
    /// The number of the user.
    pub owner: u32,
    /// The number of the file system.
    pub device: u64,
}
