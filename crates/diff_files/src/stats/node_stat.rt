//! What the system tells of a node.

/// What the system tells of a node, by the names of stat(2).
#[derive(Clone, Copy, Debug, PartialEq, Eq)]
pub struct NodeStat {
    /// The kind and the permissions.
    pub mode: u32,
    /// When what the node holds last changed, in seconds since 1970, modulo 2^32.
    pub mtime: u32,
    /// When the node's own data last changed, likewise.
    pub ctime: u32,
    /// The user that owns the node.
    pub uid: u32,
    /// The group that owns the node.
    pub gid: u32,
    /// The number of the node on its device.
    pub ino: u64,
    /// The size in bytes; of a link, of its target.
    pub size: u64,
}
