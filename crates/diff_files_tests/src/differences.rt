//! Differences, each compared with what git prints.
use crate::answers::{ROWS, TREES};
use crate::tree::{index_of, meant, number, tree_of};
use crate::words::{comparison_of, specs_of};
use bstr::ByteSlice;
use diff_files::{Comparison, DiffError, Differences, Unsupported, diff_files};
use std::alloc::Global;
use test_cases::split_at_byte;

/// What is answered of a tree.
fn answered(
    alloc: Global,
    tree: &[u8],
    words: &[u8],
    specs: &[u8],
) -> Option<Result<Differences, DiffError>> {
    let (time, rest) = split_at_byte(tree, b'^');
    let (entries, nodes) = split_at_byte(rest, b'^');
    let comparison = comparison_of((number(time) % 0x1_0000_0000) as u32, words);
    answered_in(alloc, entries, nodes, &comparison, specs)
}

fn answered_in(
    alloc: Global,
    entries: &[u8],
    nodes: &[u8],
    comparison: &Comparison,
    specs: &[u8],
) -> Option<Result<Differences, DiffError>> {
    let (index, details) = index_of(alloc, entries)?;
    let (tree, stats) = tree_of(alloc, nodes)?;
    let specs = specs_of(alloc, specs)?;
    let mut tree = tree;
    let mut stats = stats;
    Some(diff_files(
        alloc, &mut tree, &mut stats, b"/r", &index, &details, comparison, &specs,
    ))
}

/// The word of a form that is refused.
pub fn word_of(form: Unsupported) -> &'static [u8] {
    match form {
        Unsupported::Repository => b"!Repository",
        Unsupported::Conversion => b"!Conversion",
        Unsupported::IgnoredSubmodule => b"!IgnoredSubmodule",
        Unsupported::SparseIndex => b"!SparseIndex",
        Unsupported::Details => b"!Details",
    }
}

/// Whether an answer is what a row has.
fn is_answer(alloc: Global, answer: &Result<Differences, DiffError>, want: &[u8]) -> bool {
    match answer {
        Ok(made) => match meant(alloc, want) {
            Some(text) => text.as_slice() == made.out.as_bytes(),
            None => false,
        },
        Err(DiffError::Unsupported(refused)) => word_of(refused.form) == want,
        Err(_) => false,
    }
}

/// The tree of a number.
pub fn tree_at(number: u64) -> &'static [u8] {
    let mut left = number;
    for line in TREES.lines() {
        if left == 0 {
            return line;
        }
        left -= 1;
    }
    b""
}

/// Whether a row is as git says.
fn is_as_git_says(alloc: Global, row: &[u8]) -> bool {
    let (tree, rest) = split_at_byte(row, b'^');
    let (words, rest) = split_at_byte(rest, b'^');
    let (specs, want) = split_at_byte(rest, b'^');
    match answered(alloc, tree_at(number(tree)), words, specs) {
        Some(answer) => is_answer(alloc, &answer, want),
        None => false,
    }
}

#[test]
fn differences_are_what_git_prints(rt: HostRuntime) {
    for row in ROWS.lines() {
        let text = row.as_bstr();
        assert!(rt; is_as_git_says(rt.alloc(), row), "{text}");
    }
}
