//! Setups, each compared with the one that the text means which `scripts/setup-of` prints.
use crate::answers::SETUPS;
use crate::asked::{asked_alone, found_in};
use bstr::ByteSlice;
use git_setup::{Asked, Found};
use gitbase_core::PathText;
use std::alloc::Global;
use std::collections::BTreeSet;
use test_cases::{replace_marks_by_line_feeds, split_at_byte};
use worktree_report::{Configs, Setup, SetupOptions};

fn are_in(paths: &BTreeSet<PathText>, others: &BTreeSet<PathText>) -> bool {
    for path in paths.iter() {
        if !others.contains(path) {
            return false;
        }
    }
    true
}

fn are_configs(configs: &Configs, others: &Configs) -> bool {
    configs.as_slice() == others.as_slice()
}

fn has_same_places(setup: &Setup, want: &Setup) -> bool {
    setup.git_dir == want.git_dir
        && setup.current_dir == want.current_dir
        && are_in(&setup.worktrees, &want.worktrees)
        && are_in(&want.worktrees, &setup.worktrees)
        && are_configs(&setup.configs, &want.configs)
}

fn is_same(setup: &Setup, want: &Setup) -> bool {
    setup.index.entries() == want.index.entries()
        && setup.globals == want.globals
        && setup.overrides == want.overrides
        && setup.options == want.options
        && setup.depth == want.depth
        && has_same_places(setup, want)
}

/// What is asked for a setup: its options, but for that of the configuration.
fn asked_of(alloc: Global, want: &Setup) -> Asked {
    let options = SetupOptions {
        ignore_case: false,
        ..want.options
    };
    asked_alone(alloc, options)
}

fn finds(alloc: Global, want: &Setup, directory: &[u8], steps: &[u8]) -> bool {
    let asked = asked_of(alloc, want);
    match found_in(alloc, steps, directory, &asked) {
        Some(Ok(found)) => is_same(&found.setup, want),
        _ => false,
    }
}

/// Whether a row is met.
fn is_met(alloc: Global, row: &[u8]) -> bool {
    let (text, rest) = split_at_byte(row, b'^');
    let (directory, rest) = split_at_byte(rest, b'^');
    let (_, steps) = split_at_byte(rest, b'^');
    let Some(lines) = replace_marks_by_line_feeds(alloc, text, b'$') else {
        return false;
    };
    match Setup::parse(alloc, &lines) {
        Ok(want) => finds(alloc, &want, directory, steps),
        Err(_) => false,
    }
}

#[test]
fn a_setup_is_what_git_says(rt: HostRuntime) {
    for row in SETUPS.lines() {
        assert!(rt; is_met(rt.alloc(), row), "{}", row.as_bstr());
    }
}
