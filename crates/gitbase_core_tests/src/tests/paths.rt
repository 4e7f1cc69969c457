//! Paths, bytes and ids.
use gitbase_core::{Bytes, HexError, ObjectId, PathText};
use std::alloc::Global;
use std::collections::BTreeSet;
use std::hash::{DefaultHasher, Hash, Hasher};
use test_cases::split_at_byte;

/// Rows, parted by bars: what is asked, of what, and what is wanted, parted by backquotes. The id
/// is that of the empty blob, as git prints it.
const ROWS: &[u8] = b"\
normal`a/../b`b|\
leads out`../a`|\
leads out`a/../../b`|\
leads out`/..`|\
normal``|\
normal`a/..`|\
normal`./a//b/.`a/b|\
normal`//a/./b/../c/`/a/c|\
normal`/`/|\
joined``x|\
joined`a`a/x|\
joined`a/`a/x|\
joined`/`/x|\
pushed`a/b`a/b/x|\
pushed`//a//`//a//x|\
least of`b`a/b|\
set`abc`xy|\
set``xy|\
added`ab`abxy|\
copied`ab`ab|\
hashed`ab`ab|\
id`e69de29bb2d1d6434b8b29ae775ad8c2e48c5391`e69de29bb2d1d6434b8b29ae775ad8c2e48c5391|\
id`E69DE29BB2D1D6434B8B29AE775AD8C2E48C5391`e69de29bb2d1d6434b8b29ae775ad8c2e48c5391|\
no id`69de29bb2d1d6434b8b29ae775ad8c2e48c5391`length|\
no id`e69ge29bb2d1d6434b8b29ae775ad8c2e48c5391`3";

fn is_normal(alloc: Global, path: &PathText, want: &[u8]) -> bool {
    match path.normalize(alloc) {
        Ok(Some(normal)) => normal.as_bytes() == want,
        _ => false,
    }
}

fn leads_out(alloc: Global, path: &PathText) -> bool {
    match path.normalize(alloc) {
        Ok(normal) => normal.is_none(),
        Err(_) => false,
    }
}

fn is_joined(alloc: Global, path: &PathText, want: &[u8]) -> bool {
    match path.join(alloc, b"x") {
        Ok(joined) => joined.as_bytes() == want,
        Err(_) => false,
    }
}

fn is_pushed(alloc: Global, mut path: PathText, want: &[u8]) -> bool {
    path.push_component(alloc, b"x").is_ok() && path.as_bytes() == want
}

/// Whether of two paths this one is the less.
fn is_least(alloc: Global, path: PathText, want: &[u8]) -> bool {
    let mut paths = BTreeSet::new(alloc);
    let Ok(other) = PathText::from_bytes(alloc, want) else {
        return false;
    };
    if paths.insert(path).is_err() || paths.insert(other).is_err() {
        return false;
    }
    match paths.first() {
        Some(path) => path.as_bytes() == want,
        None => false,
    }
}

fn is_set(alloc: Global, mut bytes: Bytes, want: &[u8]) -> bool {
    bytes.set(alloc, b"xy").is_ok() && bytes.as_bytes() == want
}

fn is_added(alloc: Global, mut bytes: Bytes, want: &[u8]) -> bool {
    bytes.extend(alloc, b"xy").is_ok() && bytes.as_bytes() == want
}

fn is_copied(bytes: &Bytes, want: &[u8]) -> bool {
    match bytes.clone() {
        Ok(copy) => copy.as_bytes() == want,
        Err(_) => false,
    }
}

fn hash_of<T: Hash>(value: &T) -> u64 {
    let mut state = DefaultHasher::new();
    value.hash(&mut state);
    state.finish()
}

/// Whether a path and some bytes are hashed as a slice of these is.
fn is_hashed(path: &PathText, bytes: &Bytes, want: &[u8]) -> bool {
    hash_of(path) == hash_of(&want) && hash_of(bytes) == hash_of(&want)
}

fn is_id(text: &[u8], want: &[u8]) -> bool {
    match ObjectId::from_hex(text) {
        Ok(id) => id.to_hex().as_slice() == want,
        Err(_) => false,
    }
}

fn is_no_id(text: &[u8], why: &[u8]) -> bool {
    match ObjectId::from_hex(text) {
        Ok(_) => false,
        Err(HexError::Length) => why == b"length".as_slice(),
        Err(HexError::Digit { at }) => at == 3 && why == b"3".as_slice(),
    }
}

fn path_answers(alloc: Global, path: PathText, question: &[u8], want: &[u8]) -> bool {
    match question {
        b"normal" => is_normal(alloc, &path, want),
        b"leads out" => leads_out(alloc, &path),
        b"joined" => is_joined(alloc, &path, want),
        b"pushed" => is_pushed(alloc, path, want),
        b"least of" => is_least(alloc, path, want),
        _ => false,
    }
}

fn bytes_answer(alloc: Global, bytes: Bytes, question: &[u8], want: &[u8]) -> bool {
    match question {
        b"set" => is_set(alloc, bytes, want),
        b"added" => is_added(alloc, bytes, want),
        b"copied" => is_copied(&bytes, want),
        _ => false,
    }
}

fn is_hashed_alike(alloc: Global, text: &[u8], want: &[u8]) -> bool {
    match (
        PathText::from_bytes(alloc, text),
        Bytes::from_slice(alloc, text),
    ) {
        (Ok(path), Ok(bytes)) => is_hashed(&path, &bytes, want),
        _ => false,
    }
}

fn of_path(alloc: Global, text: &[u8], question: &[u8], want: &[u8]) -> bool {
    match PathText::from_bytes(alloc, text) {
        Ok(path) => path_answers(alloc, path, question, want),
        Err(_) => false,
    }
}

fn of_bytes(alloc: Global, text: &[u8], question: &[u8], want: &[u8]) -> bool {
    match Bytes::from_slice(alloc, text) {
        Ok(bytes) => bytes_answer(alloc, bytes, question, want),
        Err(_) => false,
    }
}

fn holds(alloc: Global, row: &[u8]) -> bool {
    let (question, rest) = split_at_byte(row, b'`');
    let (text, want) = split_at_byte(rest, b'`');
    match question {
        b"id" => is_id(text, want),
        b"no id" => is_no_id(text, want),
        b"hashed" => is_hashed_alike(alloc, text, want),
        b"set" | b"added" | b"copied" => of_bytes(alloc, text, question, want),
        _ => of_path(alloc, text, question, want),
    }
}

#[test]
fn paths_bytes_and_ids(rt: HostRuntime) {
    for row in ROWS.split(|byte| *byte == b'|') {
        assert!(rt; holds(rt.alloc(), row), "{row:?}");
    }
}
