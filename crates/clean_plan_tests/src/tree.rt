//! Trees in memory, from a row.
use bstr::ByteSlice;
use std::alloc::Global;
use test_cases::{split_at_byte, try_add_node_of_kind};
use worktree_fs::{CallKind, MemoryWorktree};

/// Whether a step was taken: a node put at a path, or the real path of the root planned not to be
/// told.
fn is_taken(alloc: Global, tree: &mut MemoryWorktree, step: &[u8]) -> bool {
    let (what, rest) = split_at_byte(step, b'`');
    let (path, text) = split_at_byte(rest, b'`');
    match what {
        b"first real path fails" => tree
            .plan_fault_of_nth_call(alloc, CallKind::RealPath, 1)
            .is_ok(),
        b"last real path fails" => tree
            .plan_fault_of_nth_call(alloc, CallKind::RealPath, 2)
            .is_ok(),
        _ => try_add_node_of_kind(alloc, tree, what, path, text),
    }
}

/// The tree of some steps, each on a line of its own.
pub fn tree_of(alloc: Global, steps: &[u8], reversed: bool) -> Option<MemoryWorktree> {
    let mut tree = MemoryWorktree::new(alloc, false);
    tree.set_listing_reversed(reversed);
    for step in steps.split_str(b"\n  ") {
        if !is_taken(alloc, &mut tree, step) {
            return None;
        }
    }
    Some(tree)
}
