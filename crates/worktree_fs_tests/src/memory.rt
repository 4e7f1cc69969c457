//! What a tree in memory answers.
use crate::rows::{kind_word, sample};
use gitbase_core::Bytes;
use std::alloc::Global;
use test_cases::split_at_byte;
use worktree_fs::{
    CallKind, ListError, MemoryWorktree, NameList, NewNode, ReadAnswer, ReadError, Worktree,
    is_git, real_path_is,
};

/// Questions, parted by bars: what is asked, about which path, and the answer.
const ROWS: &[u8] = b"\
kind`/w/f`file|follow`/w/f`file|kind`/w/l`link|follow`/w/l`file|kind`/w/p`link|follow`/w/p`none|\
kind`/w/p/x`none|kind`/w/o`other|kind`/w/d`directory|kind`/w/a`link|follow`/w/a`directory|\
kind`/w/a/g`file|kind`/w/u`link|follow`/w/u`file|follow`/w/e`directory|kind`/w/e/f`file|\
follow`/w/n`none|follow`/w/t`none|kind`/w/f/..`none|kind`//w/../../w/d/.`directory|kind`/w/f/`file|\
kind`/w/f\0`none|kind`/`directory|\
read`/w/l`link kept|through`/w/l`read x|through`/w/p`limit kept|read`/w/p/x`limit kept|\
through`/w/o`special kept|read`/w/d`directory kept|through`/w/n`absent kept|through`/w/t`absent kept|\
through`/w/z`absent kept|through`/w/u`read y|\
names`/w/d`B g |names of`/w/a`B g |names`/w/f`not|names`/w/a`not|names of`/w/o`not|names of`/w/p`absent|\
names`/w/p/x`absent|names of`/w/z`absent|\
real`l`/w/f|real`/w/a/../f`/w/f|real`/w/a/..`/w|real`a/B/..`/w/d|real`/w/p`none|real`/w/z`none|real`/`/|\
real`..`/|real`/w/e/u`/w/d/g|\
git`/r/.git`yes|git`/h/.git`yes|git`/y`yes|git`/deep/er/y`no|git`/no/.git`no|git`/v/.git`yes|git`/b`no|git`/w/f`no|git`/z`no|\
own`/h/.git`no|own`/r/.git`yes|own`/z`no";

fn read_word(answer: ReadAnswer) -> &'static [u8] {
    match answer {
        ReadAnswer::Read => b"read",
        ReadAnswer::Absent => b"absent",
        ReadAnswer::IsDirectory => b"directory",
        ReadAnswer::IsLink => b"link",
        ReadAnswer::LinkLimit => b"limit",
        ReadAnswer::Special => b"special",
    }
}

fn has_kind(
    alloc: Global,
    tree: &mut MemoryWorktree,
    path: &[u8],
    follow: bool,
    want: &[u8],
) -> bool {
    let kind = if follow {
        tree.kind_following(alloc, path)
    } else {
        tree.kind(alloc, path)
    };
    match kind {
        Ok(kind) => kind_word(kind) == want,
        Err(_) => false,
    }
}

/// Whether a read gives this answer and leaves these bytes.
fn reads(alloc: Global, tree: &mut MemoryWorktree, path: &[u8], follow: bool, want: &[u8]) -> bool {
    match Bytes::from_slice(alloc, b"kept") {
        Ok(bytes) => {
            let mut into = bytes;
            match tree.read(alloc, path, follow, &mut into) {
                Ok(answer) => is_read(read_word(answer), into.as_bytes(), want),
                Err(_) => false,
            }
        }
        Err(_) => false,
    }
}

fn is_read(answer: &[u8], bytes: &[u8], want: &[u8]) -> bool {
    want.len() == answer.len() + 1 + bytes.len()
        && want.starts_with(answer)
        && want.ends_with(bytes)
}

fn are_names(names: &NameList, want: &[u8]) -> bool {
    let mut words = want.split(|byte| *byte == b' ');
    names
        .as_slice()
        .iter()
        .all(|name| words.next() == Some(name.as_bytes()))
        && words.next() == Some(b"".as_slice())
}

fn lists(alloc: Global, tree: &mut MemoryWorktree, path: &[u8], follow: bool, want: &[u8]) -> bool {
    match tree.list(alloc, path, follow) {
        Ok(names) => are_names(&names, want),
        Err(ListError::Absent) => want == b"absent".as_slice(),
        Err(ListError::NotADirectory) => want == b"not".as_slice(),
        Err(_) => false,
    }
}

fn has_real_path(alloc: Global, tree: &mut MemoryWorktree, path: &[u8], want: &[u8]) -> bool {
    match tree.real_path(alloc, path, b"/w") {
        Ok(Some(real)) => real.as_bytes() == want,
        Ok(None) => want == b"none".as_slice(),
        Err(_) => false,
    }
}

fn answers(alloc: Global, question: &[u8], path: &[u8], want: &[u8]) -> bool {
    let mut tree = sample(alloc, false);
    let is_wanted = want == b"yes".as_slice();
    match question {
        b"kind" => has_kind(alloc, &mut tree, path, false, want),
        b"follow" => has_kind(alloc, &mut tree, path, true, want),
        b"read" => reads(alloc, &mut tree, path, false, want),
        b"through" => reads(alloc, &mut tree, path, true, want),
        b"names" => lists(alloc, &mut tree, path, false, want),
        b"names of" => lists(alloc, &mut tree, path, true, want),
        b"real" => has_real_path(alloc, &mut tree, path, want),
        b"git" => is_git(alloc, &mut tree, path).ok() == Some(is_wanted),
        _ => real_path_is(alloc, &mut tree, path, b"/", b"/r/.git").ok() == Some(is_wanted),
    }
}

fn holds(alloc: Global, row: &[u8]) -> bool {
    let (question, rest) = split_at_byte(row, b'`');
    let (path, want) = split_at_byte(rest, b'`');
    answers(alloc, question, path, want)
}

#[test]
fn a_tree_in_memory_answers(rt: HostRuntime) {
    for row in ROWS.split(|byte| *byte == b'|') {
        assert!(rt; holds(rt.alloc(), row), "{row:?}");
    }
}

/// A chain of links of this length, to a file.
fn chain(alloc: Global, length: u8) -> MemoryWorktree {
    let mut tree = MemoryWorktree::new(alloc, false);
    let _added = tree.add(alloc, b"/A", NewNode::File(b"end"));
    for i in 0..length.min(64) {
        let _added = tree.add(alloc, &[b'/', b'B' + i], NewNode::Link(&[b'A' + i]));
    }
    tree
}

fn follows(alloc: Global, length: u8, want: &[u8]) -> bool {
    let mut tree = chain(alloc, length);
    has_kind(alloc, &mut tree, &[b'/', b'A' + length.min(64)], true, want)
}

#[test]
fn a_resolution_follows_32_links(rt: HostRuntime) {
    assert!(rt; follows(rt.alloc(), 32, b"file") && follows(rt.alloc(), 33, b"none"));
}

/// Asks for a kind twice, where the second question is planned to fail, on a fork and on the tree
/// itself.
fn counts_faults(alloc: Global) -> bool {
    let mut tree = sample(alloc, false);
    let is_planned = tree
        .plan_fault_of_nth_call(alloc, CallKind::Kind, 2)
        .is_ok();
    match tree.fork(alloc) {
        Ok(other) => {
            let mut fork = other;
            let is_quiet = has_kind(alloc, &mut fork, b"/w/f", false, b"file")
                && has_kind(alloc, &mut fork, b"/w/f", false, b"file");
            tree.absorb(fork);
            let is_first = has_kind(alloc, &mut tree, b"/w/f", false, b"file");
            let is_fault = tree.kind(alloc, b"/w/f") == Err(ReadError::Fault);
            is_planned && is_quiet && is_first && is_fault && tree.fault_count() == 1
        }
        Err(_) => false,
    }
}

/// A fork's tree is its own: what is made in it is not made in the other.
fn forks_apart(alloc: Global) -> bool {
    let mut tree = sample(alloc, false);
    match tree.fork(alloc) {
        Ok(other) => {
            let mut fork = other;
            let is_made = fork.make_dir(alloc, b"/w/new").is_ok();
            let is_there = has_kind(alloc, &mut fork, b"/w/new", false, b"directory");
            let is_read = reads(alloc, &mut fork, b"/w/f", false, b"read x");
            tree.absorb(fork);
            is_made
                && is_there
                && is_read
                && tree.read_count() == 1
                && has_kind(alloc, &mut tree, b"/w/new", false, b"none")
        }
        Err(_) => false,
    }
}

/// Whether a read fails and leaves the bytes.
fn fails_to_read(alloc: Global, tree: &mut MemoryWorktree) -> bool {
    match Bytes::from_slice(alloc, b"kept") {
        Ok(bytes) => {
            let mut into = bytes;
            match tree.read(alloc, b"/w/f", false, &mut into) {
                Err(ReadError::Fault) => into.as_bytes() == b"kept".as_slice(),
                _ => false,
            }
        }
        Err(_) => false,
    }
}

fn fails_to_list(alloc: Global, tree: &mut MemoryWorktree) -> bool {
    match tree.list(alloc, b"/w/d", false) {
        Err(ListError::EntryFault) => true,
        _ => false,
    }
}

/// The calls that ask fail where that is planned of their own kind, the first time alone.
fn asks_fail_as_planned(alloc: Global) -> bool {
    let mut tree = sample(alloc, false);
    let is_planned = tree
        .plan_fault_of_nth_call(alloc, CallKind::KindFollowing, 1)
        .is_ok()
        && tree
            .plan_fault_of_nth_call(alloc, CallKind::ListEntry, 1)
            .is_ok()
        && tree
            .plan_fault_of_nth_call(alloc, CallKind::Read, 1)
            .is_ok();
    is_planned
        && has_kind(alloc, &mut tree, b"/w/f", false, b"file")
        && tree.kind_following(alloc, b"/w/f") == Err(ReadError::Fault)
        && fails_to_list(alloc, &mut tree)
        && fails_to_read(alloc, &mut tree)
        && tree.fault_count() == 3
        && has_kind(alloc, &mut tree, b"/w/f", true, b"file")
        && lists(alloc, &mut tree, b"/w/d", false, b"B g ")
        && reads(alloc, &mut tree, b"/w/f", false, b"read x")
}

#[test]
fn asks_fail_once(rt: HostRuntime) {
    assert!(rt; asks_fail_as_planned(rt.alloc()));
}

#[test]
fn forks_are_absorbed(rt: HostRuntime) {
    assert!(rt; counts_faults(rt.alloc()) && forks_apart(rt.alloc()));
}

fn lists_backwards(alloc: Global) -> bool {
    let mut tree = sample(alloc, false);
    tree.set_listing_reversed(true);
    lists(alloc, &mut tree, b"/w/d", false, b"g B ")
}

#[test]
fn a_reversed_tree_lists_from_last_to_first(rt: HostRuntime) {
    assert!(rt; lists_backwards(rt.alloc()));
}
