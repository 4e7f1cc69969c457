//! Trees in memory, by steps that begin with a letter.
ghost use Rattle.std.specs.Prelude.{IfSome};
ghost use Rattle.test_cases.specs.Puts.{ChangesTreeOnly, IsFreshMemoryWorktree};

use crate::nodes::{try_add_git_directory, try_add_node};
use crate::rows::{replace_marks_by_line_feeds, split_at_byte};
use hex;
use std::alloc::Global;
use worktree_fs::{MemoryWorktree, NewNode};

/// Whether a file was put at a path, its text with an LF in the place of each mark.
fn try_add_text_file(
    alloc: Global,
    tree: &mut MemoryWorktree,
    path: &[u8],
    text: &[u8],
    mark: u8,
) -> bool
    ensures { ChangesTreeOnly tree.old tree.new }
{
    match replace_marks_by_line_feeds(alloc, text, mark) {
        Some(lines) => try_add_node(alloc, tree, path, NewNode::File(&lines)),
        None => false,
    }
}

/// Whether a file was put at a path, its bytes by their hexadecimal digits.
fn try_add_file_from_hex(
    alloc: Global,
    tree: &mut MemoryWorktree,
    path: &[u8],
    digits: &[u8],
) -> bool
    ensures { ChangesTreeOnly tree.old tree.new }
{
    match hex::decode(alloc, digits) {
        Ok(bytes) => try_add_node(alloc, tree, path, NewNode::File(&bytes)),
        Err(_) => false,
    }
}

/// The branch of a git directory: `main` where none is written.
fn branch_or_main(word: &[u8]) -> &[u8] {
    if word.is_empty() { b"main" } else { word }
}

/// Whether a step was taken: a node put at a path. A step is a letter, a blank, a path, `=` and a
/// text, if it has one: `f` a file, its text with the mark in the place of each LF; `x` a file, its
/// bytes as hexadecimal digits; `l` a link with its target; `d` a directory; `o` and `p` another
/// node; `g` a git directory with the branch of its `HEAD`.
pub fn try_apply_tree_step(alloc: Global, tree: &mut MemoryWorktree, step: &[u8], mark: u8) -> bool
    ensures { ChangesTreeOnly tree.old tree.new }
{
    let (what, rest) = split_at_byte(step, b' ');
    let (path, text) = split_at_byte(rest, b'=');
    match what {
        b"f" => try_add_text_file(alloc, tree, path, text, mark),
        b"x" => try_add_file_from_hex(alloc, tree, path, text),
        b"g" => try_add_git_directory(alloc, tree, path, branch_or_main(text)),
        b"l" => try_add_node(alloc, tree, path, NewNode::Link(text)),
        b"d" => try_add_node(alloc, tree, path, NewNode::Directory),
        b"o" | b"p" => try_add_node(alloc, tree, path, NewNode::Other),
        _ => false,
    }
}

/// The tree of some steps, parted by `;`: one in which no call fails and names are listed in their
/// order. None where a step was not taken.
pub fn tree_from_steps(alloc: Global, steps: &[u8], mark: u8) -> Option<MemoryWorktree>
    ensures { IfSome result IsFreshMemoryWorktree }
{
    let mut tree = MemoryWorktree::new(alloc, false);
    for step in steps.split(|byte| *byte == b';') {
        if !try_apply_tree_step(alloc, &mut tree, step, mark) {
            return None;
        }
    }
    Some(tree)
}
