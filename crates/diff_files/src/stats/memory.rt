//! Stats in memory, as they were put there.
ghost use Rattle.std.specs.Prelude.{◌≡◌, Some, IfOk, option_copied};
ghost use Rattle.diff_files.specs.Stats as words;

use super::Stats;
use super::node_stat::NodeStat;
use gitbase_core::{Bytes, OutOfMemory};
use std::alloc::Global;
use std::marker::Model;
use worktree_fs::ReadError;

/// A node, and what is told of it. Contracts see a record of the fields.
#[derive(Debug, Drop)]
pub struct StatNode {
    pub path: Bytes,
    pub stat: NodeStat,
    /// Where it leads, if it is a link.
    pub target: Option<Bytes>,
}

impl Model for StatNode {
    ghost use Rattle.diff_files.specs.Stats as words;

    ghost Value = { words.StatNode };

    ghost view = { λ node. record { path = node.path; stat = node.stat; target = node.target } };
}

impl StatNode {
    /// What is told of the node.
    fn stat(&self) -> NodeStat
        ensures { result ≡ self.now.stat }
    {
        self.stat
    }

    /// Where it leads, if it is a link.
    fn target(&self, alloc: Global) -> Result<Option<Bytes>, OutOfMemory>
        ensures { IfOk result (λ target. target ≡ self.now.target) }
    {
        match &self.target {
            Some(target) => Ok(Some(Bytes::from_slice(alloc, target.as_bytes())?)),
            None => Ok(None),
        }
    }
}

/// Stats in memory: what is told of a path is that of the first node there. They never fail.
///
/// Contracts see the list of nodes.
#[derive(Debug, Drop)]
pub struct MemoryStats {
    nodes: Vec<StatNode>,
}

impl Model for MemoryStats {
    ghost use Rattle.std.specs.Prelude.{List};
    ghost use Rattle.diff_files.specs.Stats as words;

    ghost Value = { List words.StatNode };

    ghost view = { λ stats. stats.nodes.items };
}

impl MemoryStats {
    /// Stats of these nodes; takes no memory.
    pub fn new(nodes: Vec<StatNode>) -> MemoryStats
        ensures { result ≡ nodes.items }
    {
        MemoryStats { nodes }
    }

    /// The first node at a path.
    fn first_node_at_path(&self, path: &[u8]) -> Option<&StatNode>
        ensures { option_copied result ≡ words.first_node_at_path self.now path.now }
    {
        self.nodes.iter().find(|node| node.path.as_bytes() == path)
    }
}

impl Stats for MemoryStats {
    ghost told = { λ stats. Some (words.stats_of_nodes stats) };

    ghost faults = { λ _. 0 };

    fn stat(&mut self, path: &[u8]) -> Result<Option<NodeStat>, ReadError> {
        match self.first_node_at_path(path) {
            Some(node) => Ok(Some(node.stat())),
            None => Ok(None),
        }
    }

    fn target(&mut self, alloc: Global, path: &[u8]) -> Result<Option<Bytes>, ReadError> {
        match self.first_node_at_path(path) {
            Some(node) => Ok(node.target(alloc)?),
            None => Ok(None),
        }
    }
}
