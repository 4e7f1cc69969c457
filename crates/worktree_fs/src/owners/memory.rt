//! Owners in memory, as they were put there.
ghost use Rattle.std.specs.Prelude.{◌≡◌, Some, bytes_eq, find, option_copied};
ghost use Rattle.worktree_fs.specs.Owners as words;

use super::Owners;
use super::ownership::Ownership;
use crate::ReadError;
use gitbase_core::Bytes;
use std::marker::Model;

/// A node, and whose it is. Contracts see a record of the fields.
#[derive(Debug, Drop)]
pub struct OwnedNode {
    pub path: Bytes,
    /// What is told of the node at the path, a last link followed.
    pub ownership: Ownership,
    /// What is told of a link at the path itself; none where there is no link.
    pub link: Option<Ownership>,
}

impl Model for OwnedNode {
    ghost use Rattle.worktree_fs.specs.Owners as words;

    ghost Value = { words.OwnedNode };

    ghost view = { λ node. record { path = node.path; ownership = node.ownership; link = node.link } };
}

impl OwnedNode {
    /// What is told of the node: of a link itself, unless it is followed.
    pub fn told(&self, follow: bool) -> Ownership
        ensures { result ≡ words.ownership_followed_or_of_link self.now.ownership self.now.link
            follow }
    {
        match self.link {
            Some(link) if !follow => link,
            _ => self.ownership,
        }
    }
}

/// Owners in memory: what is told of a path is that of the first node there. They never fail.
///
/// Contracts see the list of nodes.
#[derive(Debug, Drop)]
pub struct MemoryOwners {
    nodes: Vec<OwnedNode>,
}

impl Model for MemoryOwners {
    ghost use Rattle.std.specs.Prelude.{List};
    ghost use Rattle.worktree_fs.specs.Owners as words;

    ghost Value = { List words.OwnedNode };

    ghost view = { λ owners. owners.nodes.items };
}

impl MemoryOwners {
    /// Owners of these nodes; takes no memory.
    pub fn new(nodes: Vec<OwnedNode>) -> MemoryOwners
        ensures { result ≡ nodes.items }
    {
        MemoryOwners { nodes }
    }

    /// The first node at a path.
    fn first_node_at_path(&self, path: &[u8]) -> Option<&OwnedNode>
        ensures { option_copied result ≡ find (λ node. bytes_eq node.path path.now) self.now }
    {
        self.nodes.iter().find(|node| node.path.as_bytes() == path)
    }
}

impl Owners for MemoryOwners {
    ghost told = { λ owners. Some (words.ownership_by_path_of_nodes owners) };

    ghost faults = { λ _. 0 };

    fn ownership_at_path(
        &mut self,
        path: &[u8],
        follow: bool,
    ) -> Result<Option<Ownership>, ReadError> {
        match self.first_node_at_path(path) {
            Some(node) => Ok(Some(node.told(follow))),
            None => Ok(None),
        }
    }
}
