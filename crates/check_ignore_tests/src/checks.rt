//! Answers, each compared with what git says.
use crate::answers::{REFUSED, ROWS, TREES};
use crate::given::{checking_of, index_of, leaves_index, outer_of, paths_of};
use bstr::ByteSlice;
use check_ignore::{
    Answered, CheckContext, OuterRules, Stop, check_paths_or_stdin, first_option_error, told,
};
use gitbase_core::{Bytes, State};
use std::alloc::Global;
use test_cases::{
    parse_saturating_decimal, replace_marks_by_line_feeds, split_at_byte, tree_from_steps,
};
use worktree_fs::MemoryWorktree;

/// The status, what is written, and what stands behind `fatal: `, as a row has them.
fn answer_text(alloc: Global, status: &[u8], text: &[u8], fatal: &[u8]) -> Option<Vec<u8>> {
    let mut row = status.to_vec(alloc).ok()?;
    row.push(b'^').ok()?;
    row.extend_from_slice(text).ok()?;
    row.push(b'^').ok()?;
    row.extend_from_slice(fatal).ok()?;
    Some(row)
}

/// What is answered.
fn answered_text(alloc: Global, answered: &Answered) -> Option<Vec<u8>> {
    let status: &[u8] = if answered.is_any { b"0" } else { b"1" };
    answer_text(alloc, status, answered.text.as_bytes(), b"")
}

/// What is told of a refusal.
fn stopped_text(alloc: Global, stop: &Stop) -> Option<Vec<u8>> {
    let line = told(alloc, b"/w/r", stop).ok()?;
    answer_text(alloc, b"128", b"", line.as_bytes())
}

/// What is answered by options and paths.
fn text_of(
    alloc: Global,
    tree: &mut MemoryWorktree,
    prefix: &[u8],
    index: &State,
    outer: &OuterRules,
    options: &[u8],
    paths: &[Bytes],
    input: &[u8],
) -> Option<Vec<u8>> {
    let checking = checking_of(options);
    if let Some(wrong) = first_option_error(&checking, paths.len()) {
        return answer_text(alloc, b"128", b"", wrong.text());
    }
    let context = CheckContext {
        root: b"/w/r",
        prefix,
        index,
        outer,
        checking: &checking,
    };
    match check_paths_or_stdin(alloc, tree, &context, paths, input) {
        Ok(answered) => answered_text(alloc, &answered),
        Err(stop) => stopped_text(alloc, &stop),
    }
}

/// The tree of a number.
fn tree_at(digits: &[u8]) -> Option<&'static [u8]> {
    TREES.lines().nth(parse_saturating_decimal(digits))
}

/// What is answered in a tree.
fn text_in(
    alloc: Global,
    given: &[u8],
    prefix: &[u8],
    options: &[u8],
    paths: &[Bytes],
    input: &[u8],
) -> Option<Vec<u8>> {
    let (outer, rest) = split_at_byte(given, b'^');
    let (words, steps) = split_at_byte(rest, b'^');
    let words: &[u8] = if leaves_index(options) { b"" } else { words };
    let index = index_of(alloc, words)?;
    let outer = outer_of(alloc, outer)?;
    let mut tree = tree_from_steps(alloc, steps, b'$')?;
    text_of(
        alloc, &mut tree, prefix, &index, &outer, options, paths, input,
    )
}

/// What is answered by the words of a row, and what git says.
fn both(alloc: Global, row: &[u8]) -> Option<(Vec<u8>, Vec<u8>)> {
    let (tree, rest) = split_at_byte(row, b'^');
    let (prefix, rest) = split_at_byte(rest, b'^');
    let (options, rest) = split_at_byte(rest, b'^');
    let (count, rest) = split_at_byte(rest, b'^');
    let (words, want) = split_at_byte(rest, b'^');
    let paths = paths_of(alloc, parse_saturating_decimal(count), words)?;
    let input = replace_marks_by_line_feeds(alloc, words, b'$')?;
    let text = text_in(alloc, tree_at(tree)?, prefix, options, &paths, &input)?;
    Some((text, replace_marks_by_line_feeds(alloc, want, b'$')?))
}

/// Whether a row is met.
fn is_met(alloc: Global, row: &[u8]) -> bool {
    match both(alloc, row) {
        Some((text, want)) => text == want,
        None => false,
    }
}

/// Whether a row is refused by name.
fn is_refused(alloc: Global, row: &[u8]) -> bool {
    match both(alloc, row) {
        Some((text, _)) => text.starts_with(b"128^^check-ignore is not supported with "),
        None => false,
    }
}

#[test]
fn an_answer_is_what_git_prints(rt: HostRuntime) {
    for row in ROWS.lines() {
        assert!(rt; is_met(rt.alloc(), row), "{}", row.as_bstr());
    }
}

#[test]
fn what_is_not_answered_is_refused_by_name(rt: HostRuntime) {
    for row in REFUSED.lines() {
        assert!(rt; is_refused(rt.alloc(), row), "{}", row.as_bstr());
    }
}
