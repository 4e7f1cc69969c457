//! The texts of errors.
use clean_plan::CleanError;
use std::alloc::Global;
use std::fmt::Display;
use test_cases::split_at_byte;
use worktree_report::ReportError;

/// Rows, parted by bars: an error and its text, parted by a backquote.
const ROWS: &[u8] = b"\
report`Report|\
fault`Fault|\
no room`OutOfMemory";

/// Whether an error is shown by a text.
fn is_shown<E: Display + Drop>(alloc: Global, error: E, want: &[u8]) -> bool {
    match format!(in alloc; "{error}") {
        Ok(text) => text.as_bytes() == want,
        Err(_) => false,
    }
}

/// Whether a row holds.
fn holds(alloc: Global, row: &[u8]) -> bool {
    let (error, text) = split_at_byte(row, b'`');
    match error {
        b"report" => is_shown(alloc, CleanError::Report(ReportError::ReadFault), text),
        b"fault" => is_shown(alloc, CleanError::Fault, text),
        b"no room" => is_shown(alloc, CleanError::OutOfMemory, text),
        _ => false,
    }
}

#[test]
fn errors_are_shown_by_their_names(rt: HostRuntime) {
    for row in ROWS.split(|byte| *byte == b'|') {
        assert!(rt; holds(rt.alloc(), row), "{row:?}");
    }
}
