//! A stored tree, which contracts see as a node. The names of each directory are sorted.
ghost use Rattle.std.specs.Prelude.{◌≡◌, IfOk};

use super::grow::{AddError, add_node_below_entries, remove_entry_by_positions};
use gitbase_core::{Bytes, OutOfMemory};
use std::alloc::Global;
use std::marker::Model;

/// A node of a tree in memory.
#[cycle(stored)]
#[derive(Drop)]
pub struct Stored {
    node: Inner,
}

/// What a node holds.
#[cycle(stored)]
#[derive(Drop)]
pub enum Inner {
    /// A file's bytes.
    File(Bytes),
    /// A link's target.
    Link(Bytes),
    /// A directory's entries, sorted by name.
    Directory(Vec<Entry>),
    /// A node of another kind.
    Other,
}

/// A node under its name in a directory.
#[cycle(stored)]
#[derive(Drop)]
pub struct Entry {
    pub name: Bytes,
    pub node: Stored,
}

impl Model for Stored {
    ghost use Rattle.worktree_fs.specs.Tree.{Node};
    ghost use Rattle.worktree_fs.specs.Codes.{node_coding};

    ghost Value = { Node };

    ghost coded = { node_coding };

    ghost use Rattle.worktree_fs.specs.Stored.{tree_node_of_inner, HasSortedValidEntries, termination_size_of_node};

    ghost view = { λ a. tree_node_of_inner a.node };

    ghost invariant = { λ a. HasSortedValidEntries a.node };

    ghost size = { termination_size_of_node };

    ghost use Rattle.worktree_fs.specs.StoredFalls.{deep_le-size};

    ghost size_decreases = { λ a h. deep_le-size a.node };
}

impl Stored {
    ghost use Rattle.worktree_fs.specs.Naming.{IsValidTree};
    ghost use Rattle.worktree_fs.specs.Stored.{tree_node_of_inner, HasSortedValidEntries};

    /// A node that holds `node`.
    pub fn from_inner(node: Inner) -> Stored
        requires { HasSortedValidEntries node }
        ensures node { result ≡ tree_node_of_inner node }
        ensures tree { IsValidTree result }
    {
        Stored { node }
    }

    /// What the node holds.
    pub fn inner(&self) -> &Inner
        ensures node { tree_node_of_inner result.now ≡ self.now }
        ensures sorted { HasSortedValidEntries result.now }
    {
        &self.node
    }
}

impl Stored {
    ghost use Rattle.std.specs.Prelude.{Some, None, OnOk, OnErr, IfErr};
    ghost use Rattle.std.specs.List.{AllByRecursion};
    ghost use Rattle.worktree_fs.specs.Naming.{IsValidEntryName, IsValidTree};
    ghost use Rattle.gitbase_core.specs.Path.{pieces_between_slashes};
    ghost use Rattle.worktree_fs.specs.Grow.{node_with_descendant_added, add_error_at_names, IsAddErrorUnlessOutOfMemory};

    /// Puts a node at the end of a path below this one, with the directories on the way.
    #[cycle(add)]
    pub fn add(&mut self, alloc: Global, path: &[u8], node: Stored) -> Result<(), AddError>
        requires names { AllByRecursion IsValidEntryName (pieces_between_slashes path.now) }
        requires tree { IsValidTree node }
        ensures grown { OnOk result (self.new ≡ node_with_descendant_added (pieces_between_slashes
            path.now) node (Some self.old)) }
        ensures free { OnOk result (add_error_at_names (pieces_between_slashes path.now)
            (Some self.old) ≡ None) }
        ensures refused { IfErr result (IsAddErrorUnlessOutOfMemory
            (add_error_at_names (pieces_between_slashes path.now) (Some self.old))) }
        ensures unchanged { OnErr result (self.new ≡ self.old) }
        ensures tree { IsValidTree self.new }
    {
        let Inner::Directory(entries) = &mut self.node else {
            return Err(AddError::NoParent);
        };
        add_node_below_entries(entries, alloc, path, node)
    }
}

impl Stored {
    /// A copy of all that is below this node.
    #[cycle(copy)]
    pub fn copied(&self, alloc: Global) -> Result<Stored, OutOfMemory>
        ensures { IfOk result (λ copy. copy ≡ self.now) }
    {
        let node = match &self.node {
            Inner::File(bytes) => Inner::File(bytes.clone()?),
            Inner::Link(target) => Inner::Link(target.clone()?),
            Inner::Directory(entries) => Inner::Directory(deep_copy_entries(alloc, entries)?),
            Inner::Other => Inner::Other,
        };
        Ok(Stored { node })
    }
}

impl Stored {
    ghost use Rattle.std.specs.Prelude.{◌<◌, length};
    ghost use Rattle.worktree_fs.specs.Tree.{directory, entry_names_in_order};
    ghost use Rattle.worktree_fs.specs.Naming.{IsValidTree};
    ghost use Rattle.worktree_fs.specs.Grow.{entries_of_node_if_directory};
    ghost use Rattle.worktree_fs.specs.Changes.{node_without_descendant};
    ghost use Rattle.worktree_fs.specs.Way.{IsWayOfDirectories, entries_reached_by_way, names_along_way_and_position};
    ghost use Rattle.std.specs.Prelude.{Some};

    /// Removes the node at a position of the directory at the end of a way from this one.
    #[cycle(cut)]
    pub fn remove_descendant_by_positions(&mut self, way: &[usize], at: usize)
        requires is_directory { self.old ≡ directory (entries_of_node_if_directory
            (Some self.old)) }
        requires is_way { IsWayOfDirectories way.now (entries_of_node_if_directory
            (Some self.old)) }
        requires there { at < length (entry_names_in_order (entries_reached_by_way way.now
            (entries_of_node_if_directory (Some self.old)))) }
        ensures cut { self.new ≡ node_without_descendant (names_along_way_and_position way.now at
            (entries_of_node_if_directory (Some self.old))) self.old }
        ensures tree { IsValidTree self.new }
    {
        let Inner::Directory(entries) = &mut self.node else {
            return;
        };
        remove_entry_by_positions(entries, way, at);
    }
}

/// A copy of all that is below these entries.
#[cycle(copy)]
pub fn deep_copy_entries(alloc: Global, entries: &[Entry]) -> Result<Vec<Entry>, OutOfMemory>
    ensures { IfOk result (λ copies. copies.items ≡ entries.now) }
{
    let mut copies = Vec::new(alloc);
    for entry in entries {
        let name = entry.name.clone()?;
        let node = entry.node.copied(alloc)?;
        copies.push(Entry { name, node })?;
    }
    Ok(copies)
}

impl Entry {
    /// The name of the node in its directory.
    pub fn name(&self) -> &[u8]
        ensures { result.now ≡ self.now.name }
    {
        self.name.as_bytes()
    }
}
