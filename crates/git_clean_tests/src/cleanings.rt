//! Cleanings, each compared with what git prints.
use crate::answers::{ROWS, TREES};
use crate::words::{all_named, cleaning_of, patterns_of, specs_of};
use bstr::ByteSlice;
use git_clean::{
    Cleaning, clean_dry_run_text, reason_cleaning_unsupported, walk_options_for_cleaning,
};
use gitbase_core::Bytes;
use ls_files::NamedSpec;
use std::alloc::Global;
use test_cases::{replace_marks_by_line_feeds, split_at_byte, tree_from_steps};
use worktree_fs::PlannedInterrupt;
use worktree_report::Setup;

/// The setup of a tree, for a cleaning with these options and path specs.
fn setup_for(
    alloc: Global,
    text: &[u8],
    cleaning: &Cleaning,
    options: &[u8],
    specs: &[u8],
) -> Option<Setup> {
    let lines = replace_marks_by_line_feeds(alloc, text, b'$')?;
    let mut setup = Setup::parse(alloc, &lines).ok()?;
    setup.options = walk_options_for_cleaning(cleaning, &setup.options);
    setup.overrides = patterns_of(alloc, options)?;
    setup.specs = specs_of(alloc, specs)?;
    setup.root = Some(Bytes::from_slice(alloc, b".").ok()?);
    Some(setup)
}

/// What would go of the tree of some steps.
fn cleaned_of(
    alloc: Global,
    steps: &[u8],
    setup: &Setup,
    cleaning: &Cleaning,
    prefix: &[u8],
    named: &[NamedSpec],
) -> Option<Bytes> {
    if let Some(_) = reason_cleaning_unsupported(cleaning, setup) {
        return None;
    }
    let mut tree = tree_from_steps(alloc, steps, b'$')?;
    let mut interrupt = PlannedInterrupt::never();
    clean_dry_run_text(
        alloc,
        &mut tree,
        &mut interrupt,
        b"/w/r",
        setup,
        cleaning,
        prefix,
        named,
    )
    .ok()
}

/// What would go of a tree, in a directory.
fn cleaned_in(
    alloc: Global,
    tree: &[u8],
    prefix: &[u8],
    options: &[u8],
    specs: &[u8],
) -> Option<Bytes> {
    let (text, steps) = split_at_byte(tree, b'^');
    let cleaning = cleaning_of(options, specs, prefix);
    let setup = setup_for(alloc, text, &cleaning, options, specs)?;
    let named = all_named(alloc, specs)?;
    cleaned_of(alloc, steps, &setup, &cleaning, prefix, &named)
}

/// Whether a text is what a row has, with `$` in the place of each line feed.
fn is_text(alloc: Global, text: &[u8], want: &[u8]) -> bool {
    match replace_marks_by_line_feeds(alloc, want, b'$') {
        Some(lines) => lines.as_slice() == text,
        None => false,
    }
}

/// The tree of a number, one digit.
fn tree_at(number: &[u8]) -> Option<&'static [u8]> {
    let digit = *number.first()?;
    TREES.lines().nth(usize::from(digit).checked_sub(48)?)
}

/// Whether what would go of a tree is what git prints.
fn cleans(
    alloc: Global,
    tree: &[u8],
    prefix: &[u8],
    options: &[u8],
    specs: &[u8],
    want: &[u8],
) -> bool {
    match cleaned_in(alloc, tree, prefix, options, specs) {
        Some(text) => is_text(alloc, text.as_bytes(), want),
        None => false,
    }
}

/// Whether a row is met.
fn is_met(alloc: Global, row: &[u8]) -> bool {
    let (number, rest) = split_at_byte(row, b'^');
    let (prefix, rest) = split_at_byte(rest, b'^');
    let (options, rest) = split_at_byte(rest, b'^');
    let (specs, want) = split_at_byte(rest, b'^');
    match tree_at(number) {
        Some(tree) => cleans(alloc, tree, prefix, options, specs, want),
        None => false,
    }
}

#[test]
fn a_cleaning_is_what_git_prints(rt: HostRuntime) {
    for row in ROWS.lines() {
        assert!(rt; is_met(rt.alloc(), row), "{}", row.as_bstr());
    }
}
