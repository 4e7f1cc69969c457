//! The texts of errors.
use dir_classify as walk;
use gitbase_core::{OutOfMemory, PathText};
use index_status::{StatesError, StatusError};
use module_plan::ModuleError;
use std::alloc::Global;
use std::fmt::Display;
use test_cases::split_at_byte;
use worktree_report::{ReportError, SetupError};

/// Rows, parted by bars: an error and its text, parted by a backquote.
const ROWS: &[u8] = b"\
setup line`Line|\
setup no room`OutOfMemory|\
report config`Config|\
report modules`Modules|\
report active`ActiveSpec|\
report read`ReadFault|\
report walk`Walk|\
report no room`OutOfMemory|\
plan active`ActiveSpec|\
plan fault`Fault|\
plan no room`OutOfMemory|\
states fault`Fault|\
states no room`OutOfMemory|\
status report`Report|\
status fault`Fault|\
status no room`OutOfMemory";

/// Whether an error is shown by a text.
fn is_shown<E: Display + Drop>(alloc: Global, error: E, want: &[u8]) -> bool {
    match format!(in alloc; "{error}") {
        Ok(text) => text.as_bytes() == want,
        Err(_) => false,
    }
}

/// Whether an error about a path, if any, is shown by a text.
fn shows(alloc: Global, error: &[u8], path: PathText, want: &[u8]) -> bool {
    match error {
        b"setup line" => is_shown(alloc, SetupError::Line { line: 3 }, want),
        b"setup no room" => is_shown(alloc, SetupError::OutOfMemory, want),
        b"report config" => is_shown(alloc, ReportError::Config { at: 2, line: 3 }, want),
        b"report modules" => is_shown(alloc, ReportError::Modules { line: 3 }, want),
        b"report active" => is_shown(alloc, ReportError::ActiveSpec { at: 2 }, want),
        b"report read" => is_shown(alloc, ReportError::ReadFault, want),
        b"report walk" => is_shown(alloc, ReportError::Walk(walk::Error::Interrupted), want),
        b"report no room" => is_shown(alloc, ReportError::OutOfMemory, want),
        b"plan active" => is_shown(alloc, ModuleError::ActiveSpec { value: 2 }, want),
        b"plan fault" => is_shown(alloc, ModuleError::Fault { path }, want),
        b"plan no room" => is_shown(alloc, ModuleError::OutOfMemory, want),
        b"states fault" => is_shown(alloc, StatesError::Fault { path }, want),
        b"states no room" => is_shown(alloc, StatesError::OutOfMemory, want),
        b"status report" => is_shown(alloc, StatusError::Report(ReportError::ReadFault), want),
        b"status fault" => is_shown(alloc, StatusError::Fault { path }, want),
        b"status no room" => is_shown(alloc, StatusError::OutOfMemory, want),
        _ => false,
    }
}

/// Whether a row holds.
fn holds(alloc: Global, row: &[u8]) -> Result<bool, OutOfMemory> {
    let (error, text) = split_at_byte(row, b'`');
    Ok(shows(alloc, error, PathText::from_bytes(alloc, b"/w/a")?, text))
}

#[test]
fn errors_are_shown_by_their_names(rt: HostRuntime) {
    for row in ROWS.split(|byte| *byte == b'|') {
        assert!(rt; matches!(holds(rt.alloc(), row), Ok(true)), "{row:?}");
    }
}
