//! The texts of errors.
use dir_classify::{Error, MetadataWhy, ReadWhy};
use gitbase_core::PathText;
use std::alloc::Global;
use worktree_stack::AtPathError;

/// The error of this number about a path below a worktree root.
fn error(number: usize, path: PathText, worktree_root: PathText) -> Error {
    match number {
        0 => Error::WorktreeRootIsFile { root: path },
        1 => Error::ExcludesAccess(AtPathError::NotNormal),
        2 => Error::ReadDir {
            path,
            why: ReadWhy::Absent,
        },
        3 => Error::DirEntry {
            parent_directory: path,
        },
        4 => Error::TooDeep { path },
        5 => Error::Interrupted,
        6 => Error::NormalizeRoot { root: path },
        7 => Error::SymlinkMetadata {
            path,
            why: MetadataWhy::Absent,
        },
        8 => Error::SymlinkInRoot {
            root: path,
            worktree_root,
            component_index: 1,
        },
        _ => Error::OutOfMemory,
    }
}

/// The texts, in the order of the numbers.
const TEXTS: [&str; 10] = [
    "Worktree root at '/w/\u{fffd}' is not a directory",
    "Failed to update the excludes stack to see if a path is excluded",
    "Failed to read the directory at '/w/\u{fffd}'",
    "Could not obtain directory entry in root of '/w/\u{fffd}'",
    "TooDeep",
    "Interrupted",
    "Traversal root '/w/\u{fffd}' contains relative path components and could not be normalized",
    "Could not obtain symlink metadata on '/w/\u{fffd}'",
    "A symlink was found at component 1 of traversal root '/w/\u{fffd}' as seen from worktree root '/w'",
    "OutOfMemory",
];

/// Whether the error of a number has this text.
fn is_text(alloc: Global, number: usize, want: &str) -> bool {
    let Ok(path) = PathText::from_bytes(alloc, b"/w/\xff") else {
        return false;
    };
    let Ok(worktree_root) = PathText::from_bytes(alloc, b"/w") else {
        return false;
    };
    match format!(in alloc; "{}", error(number, path, worktree_root)) {
        Ok(text) => text.as_str() == want,
        Err(_) => false,
    }
}

#[test]
fn errors_print(rt: HostRuntime) {
    for (number, want) in TEXTS.iter().enumerate() {
        assert!(rt; is_text(rt.alloc(), number, want), "{number}");
    }
}
