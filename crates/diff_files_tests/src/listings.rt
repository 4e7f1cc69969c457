//! What `ls-files -d` and `-m` list, compared with what git prints.
use crate::answers::LISTED;
use crate::differences::{tree_at, word_of};
use crate::listing_words::{all_named, all_specs, listing_of, standings_of};
use crate::tree::{index_of, meant, number, tree_of};
use crate::words::comparison_of;
use bstr::ByteSlice;
use diff_files::Comparison;
use ls_files::{ChangeQuery, ChangedError, Listed, list_deleted_and_modified};
use std::alloc::Global;
use test_cases::split_at_byte;

/// What is answered of a tree.
fn answered(
    alloc: Global,
    tree: &[u8],
    words: &[u8],
    specs: &[u8],
) -> Option<Result<Listed, ChangedError>> {
    let (time, rest) = split_at_byte(tree, b'^');
    let (entries, nodes) = split_at_byte(rest, b'^');
    let comparison = comparison_of((number(time) % 0x1_0000_0000) as u32, words);
    answered_in(alloc, entries, nodes, &comparison, words, specs)
}

fn answered_in(
    alloc: Global,
    entries: &[u8],
    nodes: &[u8],
    comparison: &Comparison,
    words: &[u8],
    specs: &[u8],
) -> Option<Result<Listed, ChangedError>> {
    let (index, details) = index_of(alloc, entries)?;
    let (tree, stats) = tree_of(alloc, nodes)?;
    let named = all_named(alloc, specs)?;
    let specs = all_specs(alloc, specs)?;
    let mut tree = tree;
    let mut stats = stats;
    let query = ChangeQuery {
        root: b"/r",
        comparison,
        standings: standings_of(words),
        listing: &listing_of(words),
        named: &named,
        specs: &specs,
    };
    Some(list_deleted_and_modified(alloc, &mut tree, &mut stats, &query, &index, &details, b""))
}

/// Whether a text is what a row has.
fn is_text(alloc: Global, text: &[u8], want: &[u8]) -> bool {
    match meant(alloc, want) {
        Some(lines) => lines.as_slice() == text,
        None => false,
    }
}

/// Whether an answer is what a row has.
fn is_answer(alloc: Global, answer: &Result<Listed, ChangedError>, want: &[u8]) -> bool {
    let (out, err) = split_at_byte(want, b'^');
    match answer {
        Ok(made) => {
            is_text(alloc, made.out.as_bytes(), out) && is_text(alloc, made.err.as_bytes(), err)
        }
        Err(ChangedError::Unsupported(form)) => word_of(*form) == out,
        Err(_) => false,
    }
}

/// Whether a row is as git says.
fn is_as_git_says(alloc: Global, row: &[u8]) -> bool {
    let (tree, rest) = split_at_byte(row, b'^');
    let (words, rest) = split_at_byte(rest, b'^');
    let (specs, want) = split_at_byte(rest, b'^');
    match answered(alloc, tree_at(number(tree)), words, specs) {
        Some(answer) => is_answer(alloc, &answer, want),
        None => false,
    }
}

#[test]
fn what_changed_is_listed_as_git_lists_it(rt: HostRuntime) {
    for row in LISTED.lines() {
        let text = row.as_bstr();
        assert!(rt; is_as_git_says(rt.alloc(), row), "{text}");
    }
}
