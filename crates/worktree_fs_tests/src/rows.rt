//! Rows of tests, and the tree that they speak of.
use bstr::ByteSlice;
use std::alloc::Global;
use test_cases::split_at_byte;
use worktree_fs::{MemoryWorktree, NewNode, NodeKind};

/// The nodes of the sample, parted by bars: what each is, its path, and its bytes or its target,
/// parted by backquotes.
const NODES: &[u8] = b"\
file`/w/f`x|link`/w/l`f|link`/w/p`p|other`/w/o`|file`/w/d/g`y|directory`/w/d/B`|link`/w/a`/w/d|\
link`/w/u`../w/./d//g|link`/w/e`|link`/w/n`f\0|link`/w/t`\xff|\
file`/r/.git/HEAD`ref: refs/heads/main\n|directory`/r/.git/objects`|directory`/r/.git/refs`|\
file`/h/.git`gitdir: ../r/.git\n|link`/y`h/.git|link`/deep/er/y`/h/.git|file`/no/.git`gitdir: ../w/d\n|\
file`/v/.git`gitdir: /v/git\r\n|file`/v/git/HEAD`0123456789abcdef0123456789ABCDEF01234567|\
file`/v/git/commondir`../../r/.git\n|directory`/b/objects`|directory`/b/refs`|file`/b/HEAD`ref: \n";

fn node<'a>(what: &[u8], bytes: &'a [u8]) -> NewNode<'a> {
    match what {
        b"file" => NewNode::File(bytes),
        b"link" => NewNode::Link(bytes),
        b"directory" => NewNode::Directory,
        _ => NewNode::Other,
    }
}

/// Adds a node; whether it was added.
pub fn add(
    alloc: Global,
    tree: &mut MemoryWorktree,
    what: &[u8],
    path: &[u8],
    bytes: &[u8],
) -> bool {
    tree.add(alloc, path, node(what, bytes)).is_ok()
}

fn add_row(alloc: Global, tree: &mut MemoryWorktree, row: &[u8]) -> bool {
    let (what, rest) = split_at_byte(row, b'`');
    let (path, bytes) = split_at_byte(rest, b'`');
    add(alloc, tree, what, path, bytes)
}

/// The sample.
pub fn sample(alloc: Global, composes: bool) -> MemoryWorktree {
    let mut tree = MemoryWorktree::new(alloc, composes);
    for row in NODES.split(|byte| *byte == b'|') {
        let _added = add_row(alloc, &mut tree, row);
    }
    tree
}

/// A word for a kind.
pub fn kind_word(kind: Option<NodeKind>) -> &'static [u8] {
    match kind {
        Some(NodeKind::File) => b"file",
        Some(NodeKind::Symlink) => b"link",
        Some(NodeKind::Directory) => b"directory",
        Some(NodeKind::Untrackable) => b"other",
        None => b"none",
    }
}

#[test]
fn the_sample_is_added_whole(rt: HostRuntime) {
    let mut tree = MemoryWorktree::new(rt.alloc(), false);
    for row in NODES.split(|byte| *byte == b'|') {
        assert!(rt; add_row(rt.alloc(), &mut tree, row), "{row:?}");
    }
}
