//! States of index paths, and ids of blobs.
use crate::tree::tree_of;
use bstr::ByteSlice;
use gitbase_core::{Flags, IndexEntry, Mode, ObjectId, PathText, State};
use index_status::{PathState, StatesError, blob_id, compare_index_paths_with_worktree};
use std::alloc::Global;
use test_cases::{held, split_at_byte, split_at_mark, value_of_first_digit};
use worktree_fs::MemoryWorktree;

/// Ids of blobs, as `git hash-object` gives them.
const IDS: &[u8] = b"\
`e69de29bb2d1d6434b8b29ae775ad8c2e48c5391|\
x`c1b0730e0133447badcfd47fd144e254807b06e1|\
hello\n`ce013625030ba8dba906f756967f9e9ca394464a";

/// Cases, each behind an `@`: the nodes, the entries of the index and what is wanted. An entry is
/// its path, its mode, its stage, its flag and the id of its blob, where `E` is that of the empty
/// one.
const ROWS: &[u8] = b"\
@
nodes:
  file`/w/a`
  file`/w/b`x
  file`/w/u`
index:
  a`file`0``E
  b`file`0``E
  c`file`0``E
wanted:
  same`a
  modified`b
  deleted`c
@
nodes:
  directory`/w/a
  link`/w/d`/x
  file`/x/t`
index:
  a`file`0``E
  d/t`file`0``E
wanted:
  typechanged`a
  deleted`d/t
@
nodes:
  file`/w/b`x
index:
  b`file`0`up to date`E
wanted:
  modified`b
@
nodes:
  file`/w/b`x
index:
  b`file`0`valid`E
  c`file`0`skipped`E
  d/`tree`0``E
wanted:
  skipped`b
  skipped`c
  skipped`d/
@
nodes:
  file`/w/b`
index:
  b`file`1``E
  b`file`2``E
  b`file`3``E
  c`file`2``E
wanted:
  conflicted`b
  conflicted`c
@
nodes:
  directory`/w/m
  link`/w/l`x
  file`/w/n`
  file`/w/o`
index:
  l`link`0``E
  m`commit`0``E
  n`commit`0``E
  o`link`0``E
  p`commit`0``E
  q`link`0``E
wanted:
  unchecked`l
  unchecked`m
  typechanged`n
  typechanged`o
  deleted`p
  deleted`q
@
nodes:
  link`/w/l`x
  other`/w/o
index:
  l`file`0``E
  o`file`0``E
wanted:
  typechanged`l
  typechanged`o
@
nodes:
  file`/w/a`
index:
  a/b`file`0``E
  c/d/e`file`0``E
wanted:
  deleted`a/b
  deleted`c/d/e
@
nodes:
  file`/w/a/b/c`
  file`/w/a/b/d`
index:
  a/b/c`file`0``E
  a/b/d`file`0``F
wanted:
  same`a/b/c
  modified`a/b/d
@
nodes:
  file`/w/a/b`
  fail kind`1
index:
  a/b`file`0``E
wanted:
  fault`/w/a
@
nodes:
  file`/w/a/b`
  fail read`1
index:
  a/b`file`0``E
wanted:
  fault`/w/a/b
@
nodes:
  file`/w/a/b/c`
  file`/w/a/b/d`
  file`/w/a/e`
  fail kind`3
index:
  a/b/c`file`0``E
  a/b/d`file`0``E
  a/e`file`0``E
wanted:
  same`a/b/c
  same`a/b/d
  same`a/e
@
nodes:
  directory`/w
  fail kind`2
index:
  a/b/c/d`file`0``E
wanted:
  deleted`a/b/c/d
@
nodes:
  file`/w/a/b`
  fail kind`1
index:
  a/b`file`1``E
  a/c`file`0`skipped`E
wanted:
  conflicted`a/b
  skipped`a/c
@
nodes:
  directory`/w
index:
wanted:";

fn mode_of(word: &[u8]) -> Mode {
    match word {
        b"link" => Mode::SYMLINK,
        b"commit" => Mode::COMMIT,
        b"tree" => Mode::DIR,
        _ => Mode::FILE,
    }
}

fn flags_of(word: &[u8]) -> Flags {
    match word {
        b"valid" => Flags::ASSUME_VALID,
        b"skipped" => Flags::SKIP_WORKTREE,
        b"up to date" => Flags::UPTODATE,
        _ => Flags::empty(),
    }
}

fn id_of(word: &[u8]) -> ObjectId {
    match word {
        b"E" => ObjectId::from_hex(b"e69de29bb2d1d6434b8b29ae775ad8c2e48c5391").unwrap_or(
            ObjectId::null(),
        ),
        _ => ObjectId::null(),
    }
}

fn entry_of(alloc: Global, words: &[u8]) -> Option<IndexEntry> {
    let (path, rest) = split_at_byte(words, b'`');
    let (mode, rest) = split_at_byte(rest, b'`');
    let (stage, rest) = split_at_byte(rest, b'`');
    let (flag, id) = split_at_byte(rest, b'`');
    Some(IndexEntry {
        path: PathText::from_bytes(alloc, path).ok()?,
        stage: value_of_first_digit(stage),
        mode: mode_of(mode),
        flags: flags_of(flag),
        id: id_of(id),
    })
}

fn index_of(alloc: Global, text: &[u8]) -> Option<State> {
    let mut entries = Vec::new(alloc);
    for words in text.split_str(b"\n  ") {
        if !words.is_empty() {
            entries.push(entry_of(alloc, words)?).ok()?;
        }
    }
    State::from_entries(entries).ok()
}

fn word_of(state: PathState) -> &'static [u8] {
    match state {
        PathState::Same => b"same",
        PathState::Modified => b"modified",
        PathState::Deleted => b"deleted",
        PathState::TypeChanged => b"typechanged",
        PathState::Conflicted => b"conflicted",
        PathState::Skipped => b"skipped",
        PathState::Unchecked => b"unchecked",
    }
}

fn row_is(made: &[(PathText, PathState)], at: usize, want: &[u8]) -> bool {
    let (word, path) = split_at_byte(want, b'`');
    match made.get(at) {
        Some((own, state)) => own.as_bytes() == path && word_of(*state) == word,
        None => want.is_empty(),
    }
}

/// Whether these are the rows and there are no others.
fn rows_are(made: &[(PathText, PathState)], want: &[u8]) -> bool {
    let mut at = 0usize;
    for row in want.split_str(b"\n  ") {
        if !row_is(made, at, row) {
            return false;
        }
        at = at.saturating_add(1);
    }
    row_is(made, at, b"")
}

fn answers(alloc: Global, tree: &mut MemoryWorktree, index: &State, want: &[u8]) -> bool {
    match compare_index_paths_with_worktree(alloc, tree, b"/w", index) {
        Ok(made) => rows_are(&made, want),
        Err(StatesError::Fault { path }) => {
            let (word, at) = split_at_byte(want, b'`');
            word == b"fault".as_slice() && path.as_bytes() == at
        }
        Err(StatesError::OutOfMemory) => false,
    }
}

/// Whether a row holds over a listing order.
fn holds(alloc: Global, row: &[u8], reversed: bool) -> bool {
    let (_, rest) = split_at_mark(row, b"nodes:");
    let (nodes, rest) = split_at_mark(rest, b"\nindex:");
    let (entries, want) = split_at_mark(rest, b"\nwanted:");
    let Some(mut tree) = tree_of(alloc, held(nodes), reversed) else {
        return false;
    };
    match index_of(alloc, held(entries)) {
        Some(index) => answers(alloc, &mut tree, &index, held(want)),
        None => false,
    }
}

/// Whether a row holds over both listing orders.
fn both_hold(alloc: Global, row: &[u8]) -> bool {
    holds(alloc, row, false) && holds(alloc, row, true)
}

fn is_id(alloc: Global, row: &[u8]) -> bool {
    let (text, want) = split_at_byte(row, b'`');
    match blob_id(alloc, text) {
        Ok(id) => id.to_hex().as_slice() == want,
        Err(_) => false,
    }
}

#[test]
fn blobs_have_the_ids_of_git(rt: HostRuntime) {
    for row in IDS.split(|byte| *byte == b'|') {
        assert!(rt; is_id(rt.alloc(), row), "{row:?}");
    }
}

#[test]
fn index_paths_have_their_states(rt: HostRuntime) {
    for row in ROWS.split_str(b"\n@\n") {
        assert!(rt; both_hold(rt.alloc(), row), "{row:?}");
    }
}
