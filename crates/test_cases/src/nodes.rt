//! Nodes that are put into a tree in memory.
ghost use Rattle.test_cases.specs.Puts.{ChangesTreeOnly};

use gitbase_core::PathText;
use std::alloc::Global;
use worktree_fs::{MemoryWorktree, NewNode};

/// Whether a node was put at a path. Nothing but the nodes of the tree changes.
pub fn try_add_node(
    alloc: Global,
    tree: &mut MemoryWorktree,
    path: &[u8],
    node: NewNode<'_>,
) -> bool
    ensures { ChangesTreeOnly tree.old tree.new }
{
    tree.add(alloc, path, node).is_ok()
}

/// Whether a node of this kind was put at a path, with its bytes or its target.
pub fn try_add_node_of_kind(
    alloc: Global,
    tree: &mut MemoryWorktree,
    kind: &[u8],
    path: &[u8],
    text: &[u8],
) -> bool
    ensures { ChangesTreeOnly tree.old tree.new }
{
    let node = match kind {
        b"file" => NewNode::File(text),
        b"link" => NewNode::Link(text),
        b"directory" => NewNode::Directory,
        b"other" => NewNode::Other,
        _ => return false,
    };
    try_add_node(alloc, tree, path, node)
}

/// The path of a name in a directory. None for want of memory.
fn path_of_name_in_directory(alloc: Global, directory: &[u8], name: &[u8]) -> Option<PathText> {
    let mut path = PathText::from_bytes(alloc, directory).ok()?;
    path.push_component(alloc, name).ok()?;
    Some(path)
}

/// Whether a node was put into a directory.
fn try_add_node_in_directory(
    alloc: Global,
    tree: &mut MemoryWorktree,
    directory: &[u8],
    name: &[u8],
    node: NewNode<'_>,
) -> bool
    ensures { ChangesTreeOnly tree.old tree.new }
{
    match path_of_name_in_directory(alloc, directory, name) {
        Some(path) => try_add_node(alloc, tree, path.as_bytes(), node),
        None => false,
    }
}

/// The text of a `HEAD` that names a branch. None for want of memory.
fn head_text_of_branch(alloc: Global, branch: &[u8]) -> Option<Vec<u8>> {
    let mut head = b"ref: refs/heads/".to_vec(alloc).ok()?;
    head.extend_from_slice(branch).ok()?;
    head.push(b'\n').ok()?;
    Some(head)
}

/// Whether a git directory without a configuration was put at a path, whose `HEAD` names a branch.
pub fn try_add_git_directory(
    alloc: Global,
    tree: &mut MemoryWorktree,
    path: &[u8],
    branch: &[u8],
) -> bool
    ensures { ChangesTreeOnly tree.old tree.new }
{
    let Some(head) = head_text_of_branch(alloc, branch) else {
        return false;
    };
    try_add_node_in_directory(alloc, tree, path, b"HEAD", NewNode::File(&head))
        && try_add_node_in_directory(alloc, tree, path, b"objects", NewNode::Directory)
        && try_add_node_in_directory(alloc, tree, path, b"refs", NewNode::Directory)
}
