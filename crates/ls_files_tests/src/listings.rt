//! Listings, each compared with what git prints.
use crate::answers::{ROWS, TREES};
use crate::words::{all_named, listing_of, rules_of, specs_of};
use bstr::ByteSlice;
use gitbase_core::Bytes;
use ls_files::{
    Listed, Listing, NamedSpec, first_refusal_of_options_and_index, list_files_of_worktree,
    list_ignored_index_entries, lists_only_ignored_index_entries, refusal_if_no_rules_or_sparse,
    walk_options_for_listing,
};
use std::alloc::Global;
use test_cases::{replace_marks_by_line_feeds, split_at_byte, tree_from_steps};
use worktree_fs::PlannedInterrupt;
use worktree_report::Setup;

/// The setup of a tree, for a listing with these options and path specs.
fn setup_for(
    alloc: Global,
    text: &[u8],
    listing: &Listing,
    options: &[u8],
    specs: &[u8],
) -> Option<Setup> {
    let lines = replace_marks_by_line_feeds(alloc, text, b'$')?;
    let mut setup = Setup::parse(alloc, &lines).ok()?;
    setup.options = walk_options_for_listing(listing, &setup.options);
    setup.specs = specs_of(alloc, specs)?;
    setup.overrides = rules_of(alloc, options)?;
    if !listing.excludes_standard {
        setup.globals = Bytes::new(alloc);
    }
    Some(setup)
}

/// What is listed of the index of the tree of some steps, which rules exclude.
fn excluded_of(
    alloc: Global,
    steps: &[u8],
    setup: &Setup,
    listing: &Listing,
    prefix: &[u8],
    named: &[NamedSpec],
) -> Option<Listed> {
    if let Some(_) = refusal_if_no_rules_or_sparse(listing, &setup.index) {
        return None;
    }
    let mut tree = tree_from_steps(alloc, steps, b'$')?;
    list_ignored_index_entries(alloc, &mut tree, b"/w/r", setup, listing, prefix, named).ok()
}

/// What is listed of the tree of some steps.
fn listed_of(
    alloc: Global,
    steps: &[u8],
    setup: &Setup,
    listing: &Listing,
    prefix: &[u8],
    named: &[NamedSpec],
) -> Option<Listed> {
    if let Some(_) = first_refusal_of_options_and_index(listing, &setup.index) {
        return None;
    }
    let mut tree = tree_from_steps(alloc, steps, b'$')?;
    let mut interrupt = PlannedInterrupt::never();
    list_files_of_worktree(
        alloc,
        &mut tree,
        &mut interrupt,
        b"/w/r",
        setup,
        listing,
        prefix,
        named,
    )
    .ok()
}

/// What is listed of a tree in a directory.
fn listed_in(
    alloc: Global,
    tree: &[u8],
    prefix: &[u8],
    options: &[u8],
    specs: &[u8],
) -> Option<Listed> {
    let (text, steps) = split_at_byte(tree, b'^');
    let listing = listing_of(options);
    let setup = setup_for(alloc, text, &listing, options, specs)?;
    let named = all_named(alloc, specs)?;
    if lists_only_ignored_index_entries(&listing) {
        return excluded_of(alloc, steps, &setup, &listing, prefix, &named);
    }
    listed_of(alloc, steps, &setup, &listing, prefix, &named)
}

/// Whether a text is what a row has, with `$` in the place of each line feed.
fn is_text(alloc: Global, text: &[u8], want: &[u8]) -> bool {
    match replace_marks_by_line_feeds(alloc, want, b'$') {
        Some(lines) => lines.as_slice() == text,
        None => false,
    }
}

/// Whether what is listed is what git prints: to its output, and to standard error, where its
/// status is 1.
fn is_printed(alloc: Global, listed: &Listed, out: &[u8], err: &[u8]) -> bool {
    is_text(alloc, listed.out.as_bytes(), out)
        && is_text(alloc, listed.err.as_bytes(), err)
        && (listed.status() == 1) == !err.is_empty()
}

/// The tree of a number, one byte: a digit, and `:` for ten.
fn tree_at(number: &[u8]) -> Option<&'static [u8]> {
    let digit = *number.first()?;
    TREES.lines().nth(usize::from(digit).checked_sub(48)?)
}

/// Whether what is listed of a tree is what git prints.
fn lists(
    alloc: Global,
    tree: &[u8],
    prefix: &[u8],
    options: &[u8],
    specs: &[u8],
    want: &[u8],
) -> bool {
    let (out, err) = split_at_byte(want, b'^');
    match listed_in(alloc, tree, prefix, options, specs) {
        Some(listed) => is_printed(alloc, &listed, out, err),
        None => false,
    }
}

/// Whether a row is met.
fn is_met(alloc: Global, row: &[u8]) -> bool {
    let (number, rest) = split_at_byte(row, b'^');
    let (prefix, rest) = split_at_byte(rest, b'^');
    let (options, rest) = split_at_byte(rest, b'^');
    let (specs, want) = split_at_byte(rest, b'^');
    match tree_at(number) {
        Some(tree) => lists(alloc, tree, prefix, options, specs, want),
        None => false,
    }
}

#[test]
fn a_listing_is_what_git_prints(rt: HostRuntime) {
    for row in ROWS.lines() {
        assert!(rt; is_met(rt.alloc(), row), "{}", row.as_bstr());
    }
}
