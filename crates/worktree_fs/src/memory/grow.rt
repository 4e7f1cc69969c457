//! Nodes that are added to a stored tree.
ghost use Rattle.std.specs.Prelude.{◌≡◌, map, IfOk, IfErr, OnOk, OnErr, IfNone, IfSome, Some, None, [], ◌∷◌, ◌<◌, ◌≤◌, length};
ghost use Rattle.std.specs.List.{AllByRecursion};
ghost use Rattle.gitbase_core.specs.Path.{pieces_between_slashes};
ghost use Rattle.worktree_fs.specs.Tree.{directory, named, entry_names_in_order, none, child_by_name};
ghost use Rattle.worktree_fs.specs.Naming.{IsValidEntryName, IsValidTree};
ghost use Rattle.worktree_fs.specs.Order.{IsInsertionIndexOfName};
ghost use Rattle.worktree_fs.specs.Stored.{named_nodes_of_entries, AreSortedValidEntries};
ghost use Rattle.worktree_fs.specs.Grow.{node_with_descendant_added, entries_with_node_at_name, add_error_at_names, IsAddErrorUnlessOutOfMemory, tree_node_of_new_node};
ghost use Rattle.worktree_fs.specs.Changes.{node_without_descendant};
ghost use Rattle.worktree_fs.specs.Way.{IsWayOfDirectories, entries_reached_by_way, names_along_way_and_position, directory_depth_of_node};
ghost use Rattle.worktree_fs.specs.declared.memory.grow.AddError.TheVariants.{OutOfMemory as no_memory};

use super::search::find_entry_by_name;
use super::stored::{Entry, Inner, Stored};
use crate::names::split_once_at_byte;
use gitbase_core::{Bytes, OutOfMemory};
use std::alloc::{AllocError, AllocFailed, Global};
use thiserror::Error;

/// A node to be added to a tree in memory.
#[derive(Clone, Copy, Debug, PartialEq, Eq)]
pub enum NewNode<'a> {
    /// A file with these bytes.
    File(&'a [u8]),
    /// A link with this target.
    Link(&'a [u8]),
    /// A directory without names.
    Directory,
    /// A node that is neither file, link nor directory.
    Other,
}

/// Why a node was not added to a tree in memory. Where several reasons stand, the first of this
/// order is told.
#[derive(Clone, Copy, Debug, PartialEq, Eq, Error)]
pub enum AddError {
    /// The path does not begin with `/`, or one of its components is empty, `.` or `..`, holds a
    /// NUL, or is not UTF-8.
    #[error("NotNormal")]
    NotNormal,
    /// Before its end the path leads to a node that is no directory; links are not followed.
    #[error("NoParent")]
    NoParent,
    /// The path leads to a node.
    #[error("Exists")]
    Exists,
    /// The allocator refused memory.
    #[error("OutOfMemory")]
    OutOfMemory,
}

impl From<OutOfMemory> for AddError {
    ghost from_gives = { λ _ e. e ≡ no_memory };

    fn from(_refused: OutOfMemory) -> AddError {
        AddError::OutOfMemory
    }
}

impl From<AllocError> for AddError {
    ghost from_gives = { λ _ e. e ≡ no_memory };

    fn from(_refused: AllocError) -> AddError {
        AddError::OutOfMemory
    }
}

impl<T: Drop> From<AllocFailed<T>> for AddError {
    ghost from_gives = { λ _ e. e ≡ no_memory };

    fn from(_refused: AllocFailed<T>) -> AddError {
        AddError::OutOfMemory
    }
}

/// The node that is asked for.
pub fn store_new_node(alloc: Global, node: NewNode) -> Result<Stored, OutOfMemory>
    ensures node { IfOk result (λ stored. stored ≡ tree_node_of_new_node node.entry) }
    ensures tree { IfOk result IsValidTree }
    ensures depth { IfOk result (λ stored. directory_depth_of_node stored ≤ 1) }
{
    let node = match node {
        NewNode::File(bytes) => Inner::File(Bytes::from_slice(alloc, bytes)?),
        NewNode::Link(target) => Inner::Link(Bytes::from_slice(alloc, target)?),
        NewNode::Directory => Inner::Directory(Vec::new(alloc)),
        NewNode::Other => Inner::Other,
    };
    Ok(Stored::from_inner(node))
}

/// A directory with one node.
fn single(alloc: Global, name: &[u8], node: Stored) -> Result<Stored, OutOfMemory>
    requires name { IsValidEntryName name.now }
    requires tree { IsValidTree node }
    ensures single { IfOk result (λ made. made ≡ directory (named name.now node none)) }
    ensures tree { IfOk result IsValidTree }
{
    let name = Bytes::from_slice(alloc, name)?;
    let mut entries = Vec::new(alloc);
    entries.push(Entry { name, node })?;
    Ok(Stored::from_inner(Inner::Directory(entries)))
}

/// Directories along a path, and a node at its end.
fn nest_node_in_new_directories(
    alloc: Global,
    path: &[u8],
    node: Stored,
) -> Result<Stored, OutOfMemory>
    requires names { AllByRecursion IsValidEntryName (pieces_between_slashes path.now) }
    requires tree { IsValidTree node }
    ensures chain { IfOk result (λ made. made ≡ node_with_descendant_added (pieces_between_slashes
        path.now) node None) }
    ensures tree { IfOk result IsValidTree }
{
    match split_once_at_byte(path, b'/') {
        None => single(alloc, path, node),
        Some((name, rest)) => single(
            alloc,
            name,
            nest_node_in_new_directories(alloc, rest, node)?,
        ),
    }
}

/// Puts a node at the end of a path below a directory, with the directories on the way.
#[cycle(add)]
pub fn add_node_below_entries(
    entries: &mut Vec<Entry>,
    alloc: Global,
    path: &[u8],
    node: Stored,
) -> Result<(), AddError>
    requires sorted { AreSortedValidEntries entries.old.items }
    requires names { AllByRecursion IsValidEntryName (pieces_between_slashes path.now) }
    requires tree { IsValidTree node }
    ensures grown { OnOk result (directory (named_nodes_of_entries entries.new.items)
        ≡ node_with_descendant_added (pieces_between_slashes path.now) node
        (Some (directory (named_nodes_of_entries entries.old.items)))) }
    ensures free { OnOk result (add_error_at_names (pieces_between_slashes path.now)
        (Some (directory (named_nodes_of_entries entries.old.items))) ≡ None) }
    ensures refused { IfErr result (IsAddErrorUnlessOutOfMemory
        (add_error_at_names (pieces_between_slashes path.now)
        (Some (directory (named_nodes_of_entries entries.old.items))))) }
    ensures unchanged { OnErr result (entries.new.items ≡ entries.old.items) }
    ensures sorted { AreSortedValidEntries entries.new.items }
{
    match split_once_at_byte(path, b'/') {
        None => match find_entry_by_name(entries, path) {
            Ok(_) => Err(AddError::Exists),
            Err(at) => Ok(insert_entry_at_position(entries, alloc, at, path, node)?),
        },
        Some((name, rest)) => match find_entry_by_name(entries, name) {
            Ok(at) => {
                let entry = &mut entries[at];
                entry.node.add(alloc, rest, node)
            }
            Err(at) => {
                let made = nest_node_in_new_directories(alloc, rest, node)?;
                Ok(insert_entry_at_position(entries, alloc, at, name, made)?)
            }
        },
    }
}

/// Puts a node into the gap for its name.
fn insert_entry_at_position(
    entries: &mut Vec<Entry>,
    alloc: Global,
    at: usize,
    name: &[u8],
    node: Stored,
) -> Result<(), OutOfMemory>
    requires sorted { AreSortedValidEntries entries.old.items }
    requires gap { IsInsertionIndexOfName (map (λ e. e.name) entries.old.items) name.now at }
    requires name { IsValidEntryName name.now }
    requires tree { IsValidTree node }
    ensures put { OnOk result (named_nodes_of_entries entries.new.items
        ≡ entries_with_node_at_name name.now node (named_nodes_of_entries entries.old.items)) }
    ensures absent { child_by_name (named_nodes_of_entries entries.old.items) name.now ≡ None }
    ensures unchanged { OnErr result (entries.new.items ≡ entries.old.items) }
    ensures sorted { AreSortedValidEntries entries.new.items }
{
    let name = Bytes::from_slice(alloc, name)?;
    entries.insert(at, Entry { name, node })?;
    Ok(())
}

/// Removes the node at a position of the directory at the end of a way.
#[cycle(cut)]
pub fn remove_entry_by_positions(entries: &mut Vec<Entry>, way: &[usize], at: usize)
    requires sorted { AreSortedValidEntries entries.old.items }
    requires is_way { IsWayOfDirectories way.now (named_nodes_of_entries entries.old.items) }
    requires there { at < length (entry_names_in_order (entries_reached_by_way way.now
        (named_nodes_of_entries entries.old.items))) }
    ensures cut { directory (named_nodes_of_entries entries.new.items) ≡ node_without_descendant
        (names_along_way_and_position way.now at (named_nodes_of_entries entries.old.items))
        (directory (named_nodes_of_entries entries.old.items)) }
    ensures sorted { AreSortedValidEntries entries.new.items }
{
    match split_first_position(way) {
        None => {
            let _removed = entries.remove(at);
        }
        Some((first, rest)) => {
            let entry = &mut entries[first];
            entry.node.remove_descendant_by_positions(rest, at);
        }
    }
}

/// The first position of a way, and those behind it.
fn split_first_position(way: &[usize]) -> Option<(usize, &[usize])>
    ensures none { IfNone result (way.now ≡ []) }
    ensures some { IfSome result (λ step. way.now ≡ step.0 ∷ step.1.now) }
{
    match way.split_first() {
        None => None,
        Some((first, rest)) => Some((*first, rest)),
    }
}

/// How many names a path has.
pub fn count_slash_separated_pieces(path: &[u8]) -> usize
    ensures { result ≡ length (pieces_between_slashes path.now) }
{
    let mut count = 1;
    let mut rest = path;
    while let Some((_, behind)) = split_once_at_byte(rest, b'/') {
        count += 1;
        rest = behind;
    }
    count
}
