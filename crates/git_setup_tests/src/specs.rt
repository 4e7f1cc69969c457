//! Path specs from a directory, by the entries that they mean.
use crate::answers::{SPECS, TREE};
use crate::asked::{asked_for, found_in, usual_options};
use bstr::ByteSlice;
use git_setup::{Asked, Found};
use glob_rules::pathspec::{Matcher, Search};
use std::alloc::Global;
use test_cases::split_at_byte;

/// Whether an entry is meant.
fn means(specs: &Search, path: &[u8]) -> bool {
    match specs.pattern_matching_relative_path(path, Some(false)) {
        Some(found) => !found.is_excluded(),
        None => false,
    }
}

/// Whether a path stands in a list that `|` parts.
fn is_listed(list: &[u8], path: &[u8]) -> bool {
    for name in list.split(|byte| *byte == b'|') {
        if name == path {
            return true;
        }
    }
    false
}

/// Whether the entries that are meant are those that are wanted.
fn are_meant(found: &Found, want: &[u8]) -> bool {
    for entry in found.setup.index.entries() {
        let path = entry.path.as_bytes();
        if means(&found.setup.specs, path) != is_listed(want, path) {
            return false;
        }
    }
    true
}

fn answers(alloc: Global, asked: &Asked, directory: &[u8], want: &[u8]) -> bool {
    match found_in(alloc, TREE.trim_end_with(|c| c == '\n'), directory, asked) {
        Some(Ok(found)) => are_meant(&found, want),
        Some(Err(_)) => want == b"!".as_slice(),
        None => false,
    }
}

/// Whether a row is met.
fn is_met(alloc: Global, row: &[u8]) -> bool {
    let (want, rest) = split_at_byte(row, b'^');
    let (directory, specs) = split_at_byte(rest, b'^');
    let Some(options) = usual_options(alloc) else {
        return false;
    };
    match asked_for(alloc, options, specs) {
        Ok(asked) => answers(alloc, &asked, directory, want),
        Err(_) => false,
    }
}

#[test]
fn path_specs_mean_what_git_says(rt: HostRuntime) {
    for row in SPECS.lines() {
        assert!(rt; is_met(rt.alloc(), row), "{}", row.as_bstr());
    }
}
