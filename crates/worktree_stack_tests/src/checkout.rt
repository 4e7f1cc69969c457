//! Components that may be checked out, and the trees of checkouts.
use bstr::ByteSlice;
use gitbase_core::OutOfMemory;
use std::alloc::Global;
use test_cases::split_at_byte;
use worktree_fs::{AddError, CallKind, MemoryWorktree, NewNode, NodeKind};
use worktree_stack::validate::{ComponentError, Options, component};

/// Names, whether each is to be a link (`l`), whether names are refused that mean more on Windows
/// (`w`), and what is answered.
const NAMES: &[u8] = b"\
`-`-`empty\n\
a/b`-`-`slash\n\
/`-`w`slash\n\
.`-`-`dots\n\
..`l`-`dots\n\
...`-`-`ok\n\
.git`-`-`dot git\n\
.GIT`l`w`dot git\n\
.gitx`-`-`ok\n\
.gitModules`l`-`modules link\n\
.gitModules`-`-`ok\n\
a:b`-`w`windows\n\
a:b`-`-`ok\n\
a\\b`-`w`windows\n\
a\\b`l`-`ok\n";

pub fn component_word(answer: Result<(), ComponentError>) -> &'static [u8] {
    match answer {
        Ok(()) => b"ok",
        Err(ComponentError::Empty) => b"empty",
        Err(ComponentError::Slash) => b"slash",
        Err(ComponentError::Dots) => b"dots",
        Err(ComponentError::DotGit) => b"dot git",
        Err(ComponentError::ModulesLink) => b"modules link",
        Err(ComponentError::Windows) => b"windows",
    }
}

fn component_check_matches_row(row: &[u8]) -> bool {
    let (name, rest) = split_at_byte(row, b'`');
    let (link, rest) = split_at_byte(rest, b'`');
    let (windows, want) = split_at_byte(rest, b'`');
    let protect_windows = windows == b"w".as_slice();
    component_word(component(name, link == b"l".as_slice(), Options { protect_windows })) == want
}

#[test]
fn components(rt: HostRuntime) {
    for row in NAMES.lines() {
        assert!(rt; component_check_matches_row(row), "{row:?}");
    }
}

/// The tree of a row: what stands at `/w/a`, and a directory `/w/d`; or a rules file of the root
/// (`r`), or names that are composed (`c`), or a link to a directory that has a rules file (`t`).
pub fn tree_of(alloc: Global, node: &[u8]) -> Result<MemoryWorktree, AddError> {
    let mut tree = MemoryWorktree::new(alloc, node == b"c".as_slice());
    tree.add(alloc, b"/w", NewNode::Directory)?;
    tree.add(alloc, b"/w/d", NewNode::Directory)?;
    match node {
        b"f" => tree.add(alloc, b"/w/a", NewNode::File(b"x"))?,
        b"l" => tree.add(alloc, b"/w/a", NewNode::Link(b"d"))?,
        b"t" => {
            tree.add(alloc, b"/w/a", NewNode::Link(b"d"))?;
            tree.add(alloc, b"/w/d/.gitattributes", NewNode::File(b"f x\n"))?;
        },
        b"o" => tree.add(alloc, b"/w/a", NewNode::Other)?,
        b"d" => tree.add(alloc, b"/w/a", NewNode::Directory)?,
        b"r" => tree.add(alloc, b"/w/.gitattributes", NewNode::File(b"f x\n"))?,
        _ => (),
    }
    Ok(tree)
}

/// Lets a call fail, where one is named.
pub fn plan(alloc: Global, tree: &mut MemoryWorktree, call: &[u8]) -> Result<(), OutOfMemory> {
    match call {
        b"m1" => tree.plan_fault_of_nth_call(alloc, CallKind::MakeDir, 1),
        b"m2" => tree.plan_fault_of_nth_call(alloc, CallKind::MakeDir, 2),
        b"m3" => tree.plan_fault_of_nth_call(alloc, CallKind::MakeDir, 3),
        b"r1" => tree.plan_fault_of_nth_call(alloc, CallKind::RemoveNode, 1),
        b"k1" => tree.plan_fault_of_nth_call(alloc, CallKind::Kind, 1),
        _ => Ok(()),
    }
}

pub fn kind_word(kind: Option<NodeKind>) -> &'static [u8] {
    match kind {
        Some(NodeKind::File) => b"f",
        Some(NodeKind::Symlink) => b"l",
        Some(NodeKind::Directory) => b"d",
        Some(NodeKind::Untrackable) => b"o",
        None => b"-",
    }
}
