//! What changes a tree in memory.
use crate::rows::{add, kind_word, sample};
use std::alloc::Global;
use test_cases::split_at_byte;
use worktree_fs::{
    AddError, CallKind, MakeAnswer, MemoryWorktree, NewNode, ReadError, RemoveAnswer, Worktree,
};

/// Scripts, parted by bars: steps in a row, parted by semicolons, each of a call, a path and the
/// answer. A tree of a script that begins with `composed` composes names.
const ROWS: &[u8] = b"\
add``abnormal;add`/`abnormal;add`w/x`abnormal;add`/w//x`abnormal;add`/w/x/`abnormal;add`/w/./x`abnormal|\
add`/w/f/..`abnormal;add`/w/x\0`abnormal;add`/w/\xff`abnormal;add`/w/f/x`orphan;add`/w/a/x`orphan|\
add`/w/f`exists;add`/w/d`exists;add`/w/x/y/z`ok;kind`/w/x/y/z`other;kind`/w/x/y`directory|\
make`/w/m`made;kind`/w/m`directory;make`/w/m`exists;make`/w/m/n/o`orphan;make`/w/f/x`orphan;make`/w/l`exists|\
make`/w/a/m/`made;kind`/w/d/m`directory;make`/w/p/x`orphan;make`/w/p`exists;make`/`exists;make`/w/\xff`orphan|\
remove`/w/f`removed;kind`/w/f`none;kind`/w/l`link;follow`/w/l`none;remove`/w/f`absent;remove`/w/d`directory|\
remove`/w/a/g`removed;kind`/w/d/g`none;kind`/w/d/B`directory;remove`/w/a`removed;remove`/w/a/g`absent|\
remove`/w/a/../../w/e/u`removed;kind`/w/d/g`file;kind`/w/u`none;remove`/w/o`removed;remove`/`directory|\
make`/w/q`made;make`/w/q/r`made;add`/w/q/r/s`ok;remove`/w/q/r/s`removed;remove`/w/q/r`directory|\
composed`/w/a\xcc\x88`ok;kind`/w/a\xcc\x88`none;kind`/w/\xc3\xa4`other;add`/w/\xc3\xa4`exists;\
make`/w/a\xcc\x88`exists;make`/w/o\xcc\x88`made;kind`/w/\xc3\xb6`directory;remove`/w/o\xcc\x88`absent|\
add`/w/a\xcc\x88`ok;kind`/w/a\xcc\x88`other;add`/w/\xc3\xa4`ok;make`/w/\xc3\xa4`exists";

fn is_added(added: Result<(), AddError>, want: &[u8]) -> bool {
    match added {
        Ok(()) => want == b"ok".as_slice(),
        Err(AddError::NotNormal) => want == b"abnormal".as_slice(),
        Err(AddError::NoParent) => want == b"orphan".as_slice(),
        Err(AddError::Exists) => want == b"exists".as_slice(),
        Err(AddError::OutOfMemory) => false,
    }
}

fn is_made(made: Result<MakeAnswer, ReadError>, want: &[u8]) -> bool {
    match made {
        Ok(MakeAnswer::Made) => want == b"made".as_slice(),
        Ok(MakeAnswer::Exists) => want == b"exists".as_slice(),
        Ok(MakeAnswer::NoParent) => want == b"orphan".as_slice(),
        Err(_) => false,
    }
}

fn is_removed(removed: Result<RemoveAnswer, ReadError>, want: &[u8]) -> bool {
    match removed {
        Ok(RemoveAnswer::Removed) => want == b"removed".as_slice(),
        Ok(RemoveAnswer::Absent) => want == b"absent".as_slice(),
        Ok(RemoveAnswer::IsDirectory) => want == b"directory".as_slice(),
        Err(_) => false,
    }
}

fn step(alloc: Global, tree: &mut MemoryWorktree, call: &[u8], path: &[u8], want: &[u8]) -> bool {
    match call {
        b"make" => is_made(tree.make_dir(alloc, path), want),
        b"remove" => is_removed(tree.remove_node(alloc, path), want),
        b"kind" => tree.kind(alloc, path).map(kind_word).ok() == Some(want),
        b"follow" => tree.kind_following(alloc, path).map(kind_word).ok() == Some(want),
        _ => is_added(tree.add(alloc, path, NewNode::Other), want),
    }
}

fn holds(alloc: Global, script: &[u8]) -> bool {
    let mut tree = sample(alloc, script.starts_with(b"composed"));
    let mut all = true;
    for row in script.split(|byte| *byte == b';') {
        let (call, rest) = split_at_byte(row, b'`');
        let (path, want) = split_at_byte(rest, b'`');
        all &= step(alloc, &mut tree, call, path, want);
    }
    all
}

#[test]
fn trees_change(rt: HostRuntime) {
    for script in ROWS.split(|byte| *byte == b'|') {
        assert!(rt; holds(rt.alloc(), script), "{script:?}");
    }
}

/// The calls that change a tree fail as planned, and leave it.
fn fails_as_planned(alloc: Global) -> bool {
    let mut tree = sample(alloc, false);
    let is_planned = tree
        .plan_fault_of_nth_call(alloc, CallKind::MakeDir, 1)
        .is_ok()
        && tree
            .plan_fault_of_nth_call(alloc, CallKind::RemoveNode, 1)
            .is_ok()
        && tree
            .plan_fault_of_nth_call(alloc, CallKind::RealPath, 1)
            .is_ok();
    let is_refused = tree.make_dir(alloc, b"/w/m") == Err(ReadError::Fault)
        && tree.remove_node(alloc, b"/w/f") == Err(ReadError::Fault)
        && tree.real_path(alloc, b"/w/f", b"/").is_err();
    is_planned
        && is_refused
        && tree.fault_count() == 3
        && add(alloc, &mut tree, b"other", b"/w/m", b"")
}

#[test]
fn planned_faults_change_nothing(rt: HostRuntime) {
    assert!(rt; fails_as_planned(rt.alloc()));
}
