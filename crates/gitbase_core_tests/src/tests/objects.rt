//! Stores of objects.
use crate::forks::{FailingStore, find_in_fork};
use gitbase_core::{Bytes, Find, FindError, Found, MemoryStore, ObjectId};
use std::alloc::Global;
use test_cases::split_at_byte;

/// Steps over one store, parted by bars: what is done or asked, an id and bytes, parted by
/// backquotes. The ids are those of a blob of the line `hello`, of the empty blob and of the empty
/// tree, as git prints them.
const STEPS: &[u8] = b"\
blob`ce013625030ba8dba906f756967f9e9ca394464a`bye|\
blob`ce013625030ba8dba906f756967f9e9ca394464a`hello\n|\
blob`e69de29bb2d1d6434b8b29ae775ad8c2e48c5391`|\
other`4b825dc642cb6eb9a060e54bf8d69288fbee4904`|\
found`ce013625030ba8dba906f756967f9e9ca394464a`hello\n|\
found`e69de29bb2d1d6434b8b29ae775ad8c2e48c5391`|\
no blob`4b825dc642cb6eb9a060e54bf8d69288fbee4904`|\
missing`0000000000000000000000000000000000000000`|\
found in a fork`ce013625030ba8dba906f756967f9e9ca394464a`hello\n|\
kept from a fork`ce013625030ba8dba906f756967f9e9ca394464a`hello\n";

/// Whether a look-up through the trait puts these bytes in the place of others.
fn is_found<F: Find>(alloc: Global, store: &mut F, id: &ObjectId, want: &[u8]) -> bool {
    let Ok(mut into) = Bytes::from_slice(alloc, b"before") else {
        return false;
    };
    store.find_blob(alloc, id, &mut into) == Ok(Found::Blob) && into.as_bytes() == want
}

/// Whether a look-up answers so, and leaves the bytes.
fn is_answered(alloc: Global, store: &mut MemoryStore, id: &ObjectId, want: Found) -> bool {
    let Ok(mut into) = Bytes::from_slice(alloc, b"before") else {
        return false;
    };
    store.find_blob(alloc, id, &mut into) == Ok(want) && into.as_bytes() == b"before".as_slice()
}

fn is_found_in_fork(alloc: Global, store: &mut MemoryStore, id: &ObjectId, want: &[u8]) -> bool {
    let mut into = Bytes::new(alloc);
    find_in_fork(alloc, store, id, &mut into) == Ok(Found::Blob) && into.as_bytes() == want
}

/// Whether a blob that a fork replaces stays in the store that it was taken from.
fn is_kept_from_fork(alloc: Global, store: &mut MemoryStore, id: ObjectId, want: &[u8]) -> bool {
    let Ok(mut fork) = store.fork(alloc) else {
        return false;
    };
    let is_changed = fork.insert(alloc, id, b"changed").is_ok()
        && is_found(alloc, &mut fork, &id, b"changed");
    store.absorb(fork);
    is_changed && is_found(alloc, store, &id, want)
}

fn holds(alloc: Global, store: &mut MemoryStore, step: &[u8]) -> bool {
    let (question, rest) = split_at_byte(step, b'`');
    let (id, bytes) = split_at_byte(rest, b'`');
    let Ok(id) = ObjectId::from_hex(id) else {
        return false;
    };
    match question {
        b"blob" => store.insert(alloc, id, bytes).is_ok(),
        b"other" => store.insert_other(alloc, id).is_ok(),
        b"found" => is_found(alloc, store, &id, bytes),
        b"no blob" => is_answered(alloc, store, &id, Found::Other),
        b"missing" => is_answered(alloc, store, &id, Found::Missing),
        b"found in a fork" => is_found_in_fork(alloc, store, &id, bytes),
        b"kept from a fork" => is_kept_from_fork(alloc, store, id, bytes),
        _ => false,
    }
}

#[test]
fn objects_kept_and_found(rt: HostRuntime) {
    let mut store = MemoryStore::new(rt.alloc());
    for step in STEPS.split(|byte| *byte == b'|') {
        assert!(rt; holds(rt.alloc(), &mut store, step), "{step:?}");
    }
}

/// Whether a store that fails in a fork has counted it.
fn is_counted(alloc: Global) -> bool {
    let mut store = FailingStore::new();
    let mut into = Bytes::new(alloc);
    let found = find_in_fork(alloc, &mut store, &ObjectId::null(), &mut into);
    found == Err(FindError::Fault) && store.faults() == 1
}

#[test]
fn faults_of_forks_counted(rt: HostRuntime) {
    assert!(rt; is_counted(rt.alloc()));
}
