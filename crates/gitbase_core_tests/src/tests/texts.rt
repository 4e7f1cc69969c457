//! The texts of errors.
use gitbase_core::{FindError, HexError, IndexError, OutOfMemory};
use std::alloc::Global;
use std::fmt::Display;
use test_cases::split_at_byte;

/// Rows, parted by bars: an error and its text, parted by a backquote.
const ROWS: &[u8] = b"\
no room`OutOfMemory|\
no room for a blob`OutOfMemory|\
fault`Fault|\
length`Length|\
digit`Digit|\
path`Path|\
mode`ModePath|\
order`NotAscending|\
stage`Stage";

/// Whether an error is shown by a text.
fn is_shown<E: Display + Drop>(alloc: Global, error: E, want: &[u8]) -> bool {
    match format!(in alloc; "{error}") {
        Ok(text) => text.as_bytes() == want,
        Err(_) => false,
    }
}

fn holds(alloc: Global, row: &[u8]) -> bool {
    let (error, text) = split_at_byte(row, b'`');
    match error {
        b"no room" => is_shown(alloc, OutOfMemory, text),
        b"no room for a blob" => is_shown(alloc, FindError::OutOfMemory, text),
        b"fault" => is_shown(alloc, FindError::Fault, text),
        b"length" => is_shown(alloc, HexError::Length, text),
        b"digit" => is_shown(alloc, HexError::Digit { at: 3 }, text),
        b"path" => is_shown(alloc, IndexError::Path { at: 3 }, text),
        b"mode" => is_shown(alloc, IndexError::ModePath { at: 3 }, text),
        b"order" => is_shown(alloc, IndexError::NotAscending { at: 3 }, text),
        b"stage" => is_shown(alloc, IndexError::Stage { at: 3 }, text),
        _ => false,
    }
}

#[test]
fn errors_are_shown_by_their_names(rt: HostRuntime) {
    for row in ROWS.split(|byte| *byte == b'|') {
        assert!(rt; holds(rt.alloc(), row), "{row:?}");
    }
}
