//! The calls over a whole work tree, each once, where all goes well.
use crate::tree::tree_of;
use gitbase_core::{Bytes, MemoryStore, OutOfMemory, PathText};
use index_status::{PathState, run_status, status};
use module_plan::run_modules;
use std::alloc::Global;
use worktree_fs::{MemorySink, PlannedInterrupt};
use worktree_report::{Report, Setup};

/// More room than any text here needs.
const ROOM: usize = 4096;

const TREE: &[u8] = b"\
  file`/w/.gitmodules`[submodule \"m\"]\npath = lib\n
  file`/w/a`x
  file`/s`index 100644 0 - e69de29bb2d1d6434b8b29ae775ad8c2e48c5391 a\n";

const SETUP: &[u8] = b"index 100644 0 - e69de29bb2d1d6434b8b29ae775ad8c2e48c5391 a\n";

fn words(alloc: Global, texts: &[&[u8]]) -> Result<Vec<Bytes>, OutOfMemory> {
    let mut words = Vec::new(alloc);
    for text in texts {
        words.push(Bytes::from_slice(alloc, text)?)?;
    }
    Ok(words)
}

/// Whether the plan of an update is written whole.
fn writes_plan(alloc: Global) -> Option<bool> {
    let words = words(alloc, &[b"modules", b"/w", b"/s"]).ok()?;
    let mut tree = tree_of(alloc, TREE, false)?;
    let mut never = PlannedInterrupt::never();
    let mut out = MemorySink::new(alloc, ROOM).ok()?;
    let mut err = MemorySink::new(alloc, ROOM).ok()?;
    let ended = run_modules(alloc, &words, &mut tree, &mut never, &mut out, &mut err);
    Some(ended == 0 && out.written_bytes() == b"skip inactive\tm\n".as_slice())
}

/// Whether the states and the report are written whole.
fn writes_status(alloc: Global) -> Option<bool> {
    let words = words(alloc, &[b"status", b"/w", b"/s"]).ok()?;
    let mut tree = tree_of(alloc, TREE, false)?;
    let mut never = PlannedInterrupt::never();
    let mut out = MemorySink::new(alloc, ROOM).ok()?;
    let mut err = MemorySink::new(alloc, ROOM).ok()?;
    let ended = run_status(alloc, &words, &mut tree, &mut never, &mut out, &mut err);
    let want = b"modified\ta\nuntracked file - always - -\t.gitmodules\n".as_slice();
    Some(ended == 0 && out.written_bytes() == want)
}

/// Whether one path is modified, and another one is reported.
fn is_found(paths: &[(PathText, PathState)], report: &Report) -> bool {
    let reported = report.entries.as_slice().len();
    match paths {
        [(path, PathState::Modified)] => path.as_bytes() == b"a".as_slice() && reported == 1,
        _ => false,
    }
}

/// Whether the states and the report are found.
fn finds_status(alloc: Global) -> Option<bool> {
    let setup = Setup::parse(alloc, SETUP).ok()?;
    let mut tree = tree_of(alloc, TREE, false)?;
    let mut objects = MemoryStore::new(alloc);
    let mut never = PlannedInterrupt::never();
    let found = status(alloc, &mut tree, &mut objects, &mut never, b"/w", &setup).ok()?;
    Some(is_found(&found.paths, &found.report))
}

#[test]
fn work_trees_are_planned_and_compared(rt: HostRuntime) {
    assert!(rt; writes_plan(rt.alloc()).unwrap_or(false));
    assert!(rt; writes_status(rt.alloc()).unwrap_or(false));
    assert!(rt; finds_status(rt.alloc()).unwrap_or(false));
}
