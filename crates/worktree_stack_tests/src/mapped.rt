//! Cases of rules files that an index maps to blobs.
use crate::failing::FailingStore;
use crate::lookups::look_up_path;
use crate::steps::{Scene, first_lie, id_of, parse};
use bstr::ByteSlice;
use gitbase_core::{Flags, IndexEntry, MemoryStore, Mode, OutOfMemory, PathText, State as Index};
use glob_rules::Case;
use glob_rules::ignore::Search;
use std::alloc::Global;
use test_cases::{split_at_byte, split_at_mark};
use worktree_fs::MemoryWorktree;
use worktree_stack::ignore_source::Source;
use worktree_stack::{AtPathError, BlobWhy, Ignore, PathIdMapping, Stack, State};

/// Cases, each behind an `@`, with `m` for rules from mappings alone or `w` for the worktree first,
/// with `f` where letters are folded, and with the entries of the index, parted by `;`: `f` for a
/// file, `o` and `t` for ours and theirs in a conflict, `x` for a file that may be executed; `s`
/// where it is left out of the worktree; its id; its path. The steps stand on lines of their own.
const CASES: &[u8] = b"\
@ the rules of a blob`m``f-1.gitignore
  file`/w/.gitignore`*.c\n
  blob`1`*.o\n
  hit`a.o`*.o`1`0`.gitignore
  miss`a.c``0``
  tried_pattern_files`0
  patterns_buffers`1
@ a blob that is missing`m``f-1.gitignore
  missing`a.o`1
  missing`a.o`1
  push_directory`2
@ an object that is no blob`m``f-1a/.gitignore
  other object`1
  miss`b``0``
  no blob`a/b`1
@ a link is not followed where the file is mapped`w``fs1.gitignore
  link`/w/.gitignore`x
  not followed`f`/w/.gitignore
@ a link is followed where the file is in the worktree`w``f-1.gitignore
  link`/w/.gitignore`x
  file`/w/x`f\n
  hit`f`f`1`0`/w/.gitignore
@ the worktree comes first`w``fs1.gitignore
  blob`1`*.o\n
  file`/w/.gitignore`*.c\n
  hit`a.c`*.c`1`0`/w/.gitignore
  miss`a.o``0``
  tried_pattern_files`1
  patterns_buffers`0
@ a blob comes where the worktree has no file`w``fs1a/.gitignore
  blob`1`*.o\n
  hit`a/a.o`*.o`1`1`a/.gitignore
  miss`a.o``0``
  tried_pattern_files`2
  pattern_files`0
  patterns_buffers`1
@ a directory is no file`w``fs1.gitignore
  blob`1`*.o\n
  directory`/w/.gitignore
  hit`a.o`*.o`1`0`.gitignore
@ a file that is left in the worktree has no blob`w``f-1.gitignore
  blob`1`*.o\n
  miss`a.o``0``
@ a name in other letters is kept and not used`m`f`f-1.GITIGNORE;f-2a/.gitignore
  blob`1`*.o\n
  blob`2`*.C\n
  miss`a.o``0``
  hit`a/a.c`*.C`1`1`a/.gitignore
@ a fresh stack has the mappings`m``f-1.gitignore
  blob`1`*.o\n
  hit`a.o`*.o`1`0`.gitignore
  fresh
  hit`b.o`*.o`1`0`.gitignore";

/// What an index keeps of an entry that is written so.
fn entry_of(alloc: Global, row: &[u8]) -> Result<IndexEntry, OutOfMemory> {
    let (marks, path) = row.split_at(row.len().min(3));
    let mode = if marks.starts_with(b"x") {
        Mode::FILE_EXECUTABLE
    } else {
        Mode::FILE
    };
    let flags = if marks.contains_str(b"s") {
        Flags::SKIP_WORKTREE
    } else {
        Flags::empty()
    };
    let stage = match marks.first() {
        Some(b'o') => 2,
        Some(b't') => 3,
        _ => 0,
    };
    let digit = marks.split_at(marks.len().min(2)).1;
    Ok(IndexEntry {
        path: PathText::from_bytes(alloc, path)?,
        stage,
        mode,
        flags,
        id: id_of(digit),
    })
}

fn entries_of(alloc: Global, rows: &[u8]) -> Result<Vec<IndexEntry>, OutOfMemory> {
    let mut entries = Vec::new(alloc);
    for row in rows.split(|byte| *byte == b';') {
        entries.push(entry_of(alloc, row)?)?;
    }
    Ok(entries)
}

pub fn index_of(alloc: Global, rows: &[u8]) -> Option<Index> {
    match entries_of(alloc, rows) {
        Ok(entries) => Index::from_entries(entries).ok(),
        Err(_) => None,
    }
}

/// The state of a stack without rules of a caller.
fn state_of(alloc: Global, source: &[u8]) -> Result<State, OutOfMemory> {
    let source = Source::default().adjust_for_bare(source == b"m".as_slice());
    let (overrides, globals) = (Search::new(alloc), Search::new(alloc));
    let ignore = Ignore::new(alloc, overrides, globals, None, source, parse())?;
    Ok(State::IgnoreStack(ignore))
}

fn stack_of(
    alloc: Global,
    source: &[u8],
    folds: bool,
    index: &Index,
) -> Result<Stack, OutOfMemory> {
    let root = PathText::from_bytes(alloc, b"/w")?;
    let state = state_of(alloc, source)?;
    Stack::from_state_and_ignore_case(alloc, root, folds, state, index)
}

fn case_lie(alloc: Global, case: &[u8]) -> Option<&[u8]> {
    let (head, steps) = split_at_mark(case, b"\n  ");
    let (_, rest) = split_at_byte(head, b'`');
    let (source, rest) = split_at_byte(rest, b'`');
    let (folds, rows) = split_at_byte(rest, b'`');
    let Some(index) = index_of(alloc, rows) else {
        return Some(rows);
    };
    match stack_of(alloc, source, folds == b"f".as_slice(), &index) {
        Ok(mut stack) => {
            let mut tree = MemoryWorktree::new(alloc, false);
            let mut store = MemoryStore::new(alloc);
            let mut scene = Scene {
                stack: &mut stack,
                tree: &mut tree,
                store: &mut store,
            };
            first_lie(alloc, &mut scene, steps)
        }
        Err(_) => Some(case),
    }
}

#[test]
fn cases(rt: HostRuntime) {
    for case in CASES.split_str(b"\n@ ") {
        assert_eq!(rt; case_lie(rt.alloc(), case), None, "{case:?}");
    }
}

/// An index of which one rules file is mapped by the worktree's source, and three by mappings
/// alone: not one that may be executed, one of another name, or theirs in a conflict.
const MAPPED: &[u8] =
    b"fs1.gitignore;f-2a/.gitignore;x-3b/.gitignore;f-4c/.gitattributes;o-5d/.gitignore;t-6d/.gitignore";

/// An index of a file of attributes, and of two rules files of which one is left out of the
/// worktree.
pub const LEFT_OUT: &[u8] = b"x-3.gitattributes;fs1.gitignore;f-2a/.gitignore";

/// What stands behind a mapping, which is written as the digit of its id, its path and a `;`.
fn behind_mapping<'a>(rest: &'a [u8], mapping: &PathIdMapping) -> Option<&'a [u8]> {
    let (digit, path) = rest.split_at(rest.len().min(1));
    if mapping.1 != id_of(digit) {
        return None;
    }
    match path.strip_prefix(mapping.0.as_bytes()) {
        Some(behind) => behind.strip_prefix(b";"),
        None => None,
    }
}

/// Whether these are the mappings that are written so.
fn are_mapped(mappings: &[PathIdMapping], want: &[u8]) -> bool {
    let mut rest = want;
    for mapping in mappings {
        match behind_mapping(rest, mapping) {
            Some(behind) => rest = behind,
            None => return false,
        }
    }
    rest.is_empty()
}

/// Whether a state of ignore rules has these mappings of an index.
fn has_mappings(alloc: Global, source: &[u8], rows: &[u8], want: &[u8]) -> bool {
    let Some(index) = index_of(alloc, rows) else {
        return false;
    };
    match state_of(alloc, source) {
        Ok(state) => match state.id_mappings_from_index(alloc, &index, Case::Sensitive) {
            Ok(mappings) => are_mapped(mappings.as_slice(), want),
            Err(_) => false,
        },
        Err(_) => false,
    }
}

#[test]
fn mappings(rt: HostRuntime) {
    let alloc = rt.alloc();
    assert!(rt; has_mappings(alloc, b"w", LEFT_OUT, b"1.gitignore;"));
    assert!(rt; has_mappings(alloc, b"m", LEFT_OUT, b"1.gitignore;2a/.gitignore;"));
    assert!(rt; has_mappings(alloc, b"w", MAPPED, b"1.gitignore;"));
    assert!(rt;
        has_mappings(
            alloc,
            b"m",
            MAPPED,
            b"1.gitignore;2a/.gitignore;5d/.gitignore;"
        )
    );
}

/// Whether a lookup says that the store failed.
fn is_fault(
    alloc: Global,
    stack: &mut Stack,
    tree: &mut MemoryWorktree,
    store: &mut FailingStore,
) -> bool {
    match &look_up_path(alloc, stack, b"a.o", None, tree, store) {
        Err(AtPathError::Blob { id, why }) => *id == id_of(b"1") && *why == BlobWhy::Fault,
        _ => false,
    }
}

/// Whether a store that fails is asked once for a blob, and its failure is no answer.
fn failure_is_told(alloc: Global) -> bool {
    let mut tree = MemoryWorktree::new(alloc, false);
    let mut store = FailingStore { faults: 0 };
    let Some(index) = index_of(alloc, b"f-1.gitignore") else {
        return false;
    };
    match stack_of(alloc, b"m", false, &index) {
        Ok(mut stack) => is_fault(alloc, &mut stack, &mut tree, &mut store) && store.faults == 1,
        Err(_) => false,
    }
}

#[test]
fn failing_store(rt: HostRuntime) {
    assert!(rt; failure_is_told(rt.alloc()));
}
