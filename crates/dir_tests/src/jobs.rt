//! Which worktree lists what, and which store is asked, where subtrees are walked at once.
ghost use Rattle.std.specs.Prelude.{◌≡◌, true};
ghost use Rattle.dir_classify.specs.Excludes.{setup_of_optional_stack, is_absent_or_has_excludes};

use crate::asked::options_of;
use crate::noted::{Noted, NotedStore};
use dir_classify::{Context, Error, Options, is_absent_or_has_excludes};
use dir_walk::{Collect, Outcome, walk_at_once};
use gitbase_core::{
    Bytes, Find, Flags, IndexEntry, MemoryStore, Mode, ObjectId, OutOfMemory, PathText, State,
};
use glob_rules::ignore;
use glob_rules::ignore::ParseIgnore;
use glob_rules::pathspec::Search;
use std::alloc::Global;
use std::collections::BTreeSet;
use worktree_fs::{MemoryWorktree, NewNode, PlannedInterrupt};
use worktree_stack::ignore_source::Source;
use worktree_stack::{Ignore, Stack};

/// A work tree at `/w` with two directories, of a file each.
fn root(alloc: Global) -> MemoryWorktree {
    let mut tree = MemoryWorktree::new(alloc, false);
    let paths: [&[u8]; 2] = [b"/w/a/x", b"/w/b/y"];
    for path in paths {
        let _added = tree.add(alloc, path, NewNode::File(b""));
    }
    tree
}

/// A walk with each subtree as a job.
fn walked<'a, F: Find>(
    alloc: Global,
    options: Options<'_>,
    worktree: &'a mut Noted,
    objects: &'a mut F,
    interrupt: &'a mut PlannedInterrupt,
    pathspec: &'a Search,
    excludes: &'a mut Option<Stack>,
    index: &'a State,
) -> Result<(Outcome, PathText, Collect), Error>
    requires excludes { is_absent_or_has_excludes (setup_of_optional_stack excludes.old) ≡ true }
{
    let ctx = Context {
        worktree,
        objects,
        interrupt,
        pathspec,
        excludes,
        index,
        ignore_case_index_lookup: &None,
        git_dir_realpath: b"/w/.git",
        current_dir: b"/w",
        explicit_traversal_root: &None,
        depth_limit: 9,
    };
    walk_at_once(alloc, b"/w", ctx, options)
}

/// Whether a walk of two directories reads three, where each interrupt would say to stop at its
/// second question: each job asks one of its own.
fn reads_three(alloc: Global, worktree: &mut Noted) -> bool {
    let walked = walked(
        alloc,
        options_of(b"", &BTreeSet::new(alloc)),
        worktree,
        &mut MemoryStore::new(alloc),
        &mut PlannedInterrupt::raised_from_nth_question(2),
        &Search::from_specs(Vec::new(alloc)),
        &mut None,
        &State::new(alloc),
    );
    match walked {
        Ok((outcome, root, collect)) => {
            outcome.read_dir_calls == 3
                && root.as_bytes() == b"/w".as_slice()
                && collect.unorded_entries.as_slice().len() == 2
        }
        Err(_) => false,
    }
}

/// Whether the root is listed over the worktree handed in, and each directory over a fork of its
/// own, which is absorbed.
fn is_apart(alloc: Global) -> bool {
    let mut worktree = Noted::new(alloc, root(alloc));
    reads_three(alloc, &mut worktree)
        && worktree.listed.as_slice() == b"/w;".as_slice()
        && worktree.absorbed.as_slice() == b"/w/a;|/w/b;|".as_slice()
}

#[test]
fn jobs_list_apart(rt: HostRuntime) {
    assert!(rt; is_apart(rt.alloc()));
}

/// The rules below `/w` that an index has as blobs.
fn mapped_rules(alloc: Global, index: &State) -> Result<Stack, OutOfMemory> {
    let root = PathText::from_bytes(alloc, b"/w")?;
    let parse = ParseIgnore {
        support_precious: false,
    };
    let (nothing, globals) = (ignore::Search::new(alloc), ignore::Search::new(alloc));
    let ignore = Ignore::new(alloc, nothing, globals, None, Source::IdMapping, parse)?;
    let state = worktree_stack::State::IgnoreStack(ignore);
    Stack::from_state_and_ignore_case(alloc, root, false, state, index)
}

/// An index that has the rules of the root, and of the first of two directories.
fn index(alloc: Global) -> Result<State, OutOfMemory> {
    let mut entries = Vec::new(alloc);
    let paths: [&[u8]; 2] = [b".gitignore", b"a/.gitignore"];
    for path in paths {
        entries.push(IndexEntry {
            path: PathText::from_bytes(alloc, path)?,
            stage: 0,
            mode: Mode::FILE,
            flags: Flags::empty(),
            id: ObjectId::null(),
        })?;
    }
    match State::from_entries(entries) {
        Ok(index) => Ok(index),
        Err(_) => Ok(State::new(alloc)),
    }
}

/// A store with the blob that both are.
fn rules(alloc: Global) -> Result<MemoryStore, OutOfMemory> {
    let mut objects = MemoryStore::new(alloc);
    objects.insert(alloc, ObjectId::null(), b"z\n")?;
    Ok(objects)
}

/// Whether a walk by some rules is answered.
fn is_walked(
    alloc: Global,
    index: &State,
    store: &mut NotedStore,
    excludes: &mut Option<Stack>,
) -> bool {
    if !is_absent_or_has_excludes(excludes) {
        return false;
    }
    walked(
        alloc,
        options_of(b"", &BTreeSet::new(alloc)),
        &mut Noted::new(alloc, root(alloc)),
        store,
        &mut PlannedInterrupt::never(),
        &Search::from_specs(Vec::new(alloc)),
        excludes,
        index,
    )
    .is_ok()
}

/// Whether a walk by the rules that an index has as blobs is answered.
fn is_walked_by(alloc: Global, index: &State, store: &mut NotedStore) -> bool {
    match mapped_rules(alloc, index) {
        Ok(rules) => is_walked(alloc, index, store, &mut Some(rules)),
        Err(_) => false,
    }
}

/// Whether such a walk asks this store once, and the two forks that it absorbs twice and once.
fn asks_forks(alloc: Global, index: &State, objects: MemoryStore) -> bool {
    let mut store = NotedStore::new(alloc, objects);
    is_walked_by(alloc, index, &mut store)
        && store.asked == 1
        && store.absorbed.as_slice() == [2u8, 1].as_slice()
}

/// Whether forks are asked by a walk of this index.
fn is_asked_by_index(alloc: Global, index: &State) -> bool {
    match rules(alloc) {
        Ok(objects) => asks_forks(alloc, index, objects),
        Err(_) => false,
    }
}

/// Whether the store handed in is asked for the rules of the root alone, and each of the forks that
/// it absorbs, one a job, for them anew, the first for those of its directory too: each job has
/// rules of its own.
fn is_asked_by_forks(alloc: Global) -> bool {
    match index(alloc) {
        Ok(index) => is_asked_by_index(alloc, &index),
        Err(_) => false,
    }
}

#[test]
fn jobs_ask_stores_of_their_own(rt: HostRuntime) {
    assert!(rt; is_asked_by_forks(rt.alloc()));
}
