//! The texts of errors, and the files in which keys stand.
use crate::surroundings::{places_in, surroundings_of};
use git_config_files::{ConfigFiles, FilesError, read_stack};
use gitbase_core::{Bytes, PathText};
use std::alloc::Global;
use test_cases::{split_at_byte, tree_from_steps};

/// Rows, parted by bars: an error and its text, parted by a backquote.
const ROWS: &[u8] = b"\
depth`Depth|\
value`Value|\
fault`Fault|\
memory`OutOfMemory";

/// Files of which one is included twice, and one has no key.
const TREE: &[u8] =
    b"g /w/r/.git=main;f /w/r/.git/config=[include]$path=i$path=j$path=i$;f /w/r/.git/i=[a]$k=1$;\
f /w/r/.git/j=;f /w/h/.gitconfig=[a]$k=2$";

fn is_shown(alloc: Global, error: FilesError, want: &[u8]) -> bool {
    match format!(in alloc; "{error}") {
        Ok(text) => text.as_bytes() == want,
        Err(_) => false,
    }
}

fn is_depth_shown(alloc: Global, want: &[u8]) -> bool {
    match PathText::from_bytes(alloc, b"/w") {
        Ok(path) => is_shown(alloc, FilesError::Depth { path }, want),
        Err(_) => false,
    }
}

fn is_value_shown(alloc: Global, want: &[u8]) -> bool {
    match Bytes::from_slice(alloc, b"k") {
        Ok(key) => is_shown(alloc, FilesError::Value { path: None, key }, want),
        Err(_) => false,
    }
}

/// Whether a row holds.
fn holds(alloc: Global, row: &[u8]) -> bool {
    let (error, text) = split_at_byte(row, b'`');
    match error {
        b"depth" => is_depth_shown(alloc, text),
        b"value" => is_value_shown(alloc, text),
        b"fault" => is_shown(alloc, FilesError::Fault, text),
        _ => is_shown(alloc, FilesError::OutOfMemory, text),
    }
}

/// Whether the paths of files are these, each behind a bar.
fn are_files(files: &ConfigFiles, want: &[u8]) -> bool {
    let mut rest = want;
    for file in files.as_slice() {
        let Some(behind) = rest.strip_prefix(b"|") else {
            return false;
        };
        match behind.strip_prefix(file.path.as_bytes()) {
            Some(more) => rest = more,
            None => return false,
        }
    }
    rest.is_empty()
}

fn appear(alloc: Global, steps: &[u8], want: &[u8]) -> bool {
    let (Some(tree), Some(around)) = (
        tree_from_steps(alloc, steps, b'$'),
        surroundings_of(alloc, b"home=/w/h"),
    ) else {
        return false;
    };
    let mut tree = tree;
    let Ok(places) = places_in(alloc, &mut tree) else {
        return false;
    };
    match read_stack(alloc, &mut tree, &places, &around) {
        Ok(stack) => are_files(&stack.files, want),
        Err(_) => false,
    }
}

#[test]
fn errors_are_shown_by_their_names(rt: HostRuntime) {
    for row in ROWS.split(|byte| *byte == b'|') {
        assert!(rt; holds(rt.alloc(), row), "{row:?}");
    }
}

#[test]
fn files_are_named_as_they_first_appear(rt: HostRuntime) {
    let want = b"|/w/h/.gitconfig|/w/r/.git/config|/w/r/.git/i";
    assert!(rt; appear(rt.alloc(), TREE, want));
}
