//! The texts of errors.
use git_places::PlacesError;
use gitbase_core::{Bytes, PathText};
use std::alloc::Global;
use test_cases::split_at_byte;

/// Rows, parted by bars: an error and its text, parted by a backquote.
const ROWS: &[u8] = b"\
none`NoRepository|\
bare`Bare|\
version`Version|\
sha256`Sha256|\
fault`Fault|\
memory`OutOfMemory";

fn is_shown(alloc: Global, error: PlacesError, want: &[u8]) -> bool {
    match format!(in alloc; "{error}") {
        Ok(text) => text.as_bytes() == want,
        Err(_) => false,
    }
}

fn is_bare_shown(alloc: Global, want: &[u8]) -> bool {
    match PathText::from_bytes(alloc, b"/w") {
        Ok(path) => is_shown(alloc, PlacesError::Bare { path }, want),
        Err(_) => false,
    }
}

fn is_version_shown(alloc: Global, want: &[u8]) -> bool {
    match Bytes::from_slice(alloc, b"2") {
        Ok(value) => is_shown(alloc, PlacesError::Version { path: None, value }, want),
        Err(_) => false,
    }
}

/// Whether a row holds.
fn holds(alloc: Global, row: &[u8]) -> bool {
    let (error, text) = split_at_byte(row, b'`');
    match error {
        b"none" => is_shown(alloc, PlacesError::NoRepository, text),
        b"bare" => is_bare_shown(alloc, text),
        b"version" => is_version_shown(alloc, text),
        b"sha256" => is_shown(alloc, PlacesError::Sha256 { path: None }, text),
        b"fault" => is_shown(alloc, PlacesError::Fault, text),
        _ => is_shown(alloc, PlacesError::OutOfMemory, text),
    }
}

#[test]
fn errors_are_shown_by_their_names(rt: HostRuntime) {
    for row in ROWS.split(|byte| *byte == b'|') {
        assert!(rt; holds(rt.alloc(), row), "{row:?}");
    }
}
