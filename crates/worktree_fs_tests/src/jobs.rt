//! The caller that works on forks, at concrete types.
use crate::at_once::{WalkError, walk_at_once};
use gitbase_core::MemoryStore;
use std::alloc::Global;
use worktree_fs::{CallKind, MemoryWorktree, NewNode, PlannedInterrupt};

/// A root with two directories, of two names and of one.
fn root(alloc: Global) -> MemoryWorktree {
    let mut tree = MemoryWorktree::new(alloc, false);
    let paths: [&[u8]; 3] = [b"/a/x", b"/a/y", b"/b/z"];
    for path in paths {
        let _added = tree.add(alloc, path, NewNode::Other);
    }
    tree
}

fn counts(alloc: Global, stop: u64) -> Result<usize, WalkError> {
    let mut tree = root(alloc);
    let mut store = MemoryStore::new(alloc);
    let mut interrupt = PlannedInterrupt::raised_from_nth_question(stop);
    walk_at_once(alloc, &mut tree, &mut store, &mut interrupt, b"/")
}

/// The first listing of the tree handed in is planned to fail.
fn fails(alloc: Global) -> bool {
    let mut tree = root(alloc);
    let mut store = MemoryStore::new(alloc);
    let mut interrupt = PlannedInterrupt::never();
    let is_planned = tree
        .plan_fault_of_nth_call(alloc, CallKind::ListOpen, 1)
        .is_ok();
    let walked = walk_at_once(alloc, &mut tree, &mut store, &mut interrupt, b"/");
    is_planned && walked == Err(WalkError::List) && tree.fault_count() == 1
}

#[test]
fn jobs_work_on_forks(rt: HostRuntime) {
    let alloc = rt.alloc();
    assert!(rt; counts(alloc, 2) == Ok(3));
    assert!(rt; counts(alloc, 1) == Err(WalkError::Interrupted));
    assert!(rt; fails(alloc));
}
