//! Whose repositories are read, and where the search for one ends.
use crate::owned_answers as git;
use crate::surroundings::{surroundings_of, wanted};
use git_config_files::{FilesError, require_trusted_top};
use git_places::{
    Limits, PlacesError, Surroundings, Top, find_work_tree_top, search_limits_of_surroundings,
};
use gitbase_core::Bytes;
use std::alloc::Global;
use test_cases::{split_at_byte, tree_from_steps};
use worktree_fs::{MemoryOwners, MemoryWorktree, OwnedNode, Ownership, Worktree};

/// The number that digits spell.
fn number(digits: &[u8]) -> u32 {
    let mut value: u32 = 0;
    for digit in digits {
        value = value
            .saturating_mul(10)
            .saturating_add(u32::from(digit.wrapping_sub(b'0')));
    }
    value
}

/// Whose a node is, by `OWNER,DEVICE`.
fn ownership_of(numbers: &[u8]) -> Ownership {
    let (owner, device) = split_at_byte(numbers, b',');
    Ownership {
        owner: number(owner),
        device: u64::from(number(device)),
    }
}

/// The same of a link itself, where there is one.
fn link_of(numbers: &[u8]) -> Option<Ownership> {
    if numbers.is_empty() {
        return None;
    }
    Some(ownership_of(numbers))
}

/// A node, by `PATH=OWNER,DEVICE`, and behind a `@` the same of the link that leads there.
fn node_of(alloc: Global, word: &[u8]) -> Option<OwnedNode> {
    let (path, told) = split_at_byte(word, b'=');
    let (followed, link) = split_at_byte(told, b'@');
    Some(OwnedNode {
        path: Bytes::from_slice(alloc, path).ok()?,
        ownership: ownership_of(followed),
        link: link_of(link),
    })
}

/// The owners of some nodes, parted by `;`.
fn owners_of(alloc: Global, words: &[u8]) -> Option<MemoryOwners> {
    let mut nodes = Vec::new(alloc);
    for word in words.split(|byte| *byte == b';') {
        let node = node_of(alloc, word)?;
        nodes.push(node).ok()?;
    }
    Some(MemoryOwners::new(nodes))
}

/// Whether a path leads to this one, which has no links.
fn leads_to(alloc: Global, tree: &mut MemoryWorktree, path: &[u8], want: &[u8]) -> bool {
    match tree.real_path(alloc, path, b"/") {
        Ok(Some(real)) => real.as_bytes() == want,
        _ => false,
    }
}

fn is_top(alloc: Global, tree: &mut MemoryWorktree, top: &Top, want: &[u8]) -> bool {
    let (word, paths) = split_at_byte(want, b' ');
    let (root, git) = split_at_byte(paths, b' ');
    word == b"found".as_slice()
        && top.directory.as_bytes() == root
        && leads_to(alloc, tree, top.git.as_bytes(), git)
}

/// Whether a refusal is the one that is wanted, with the path or the key that it names.
fn is_refused(error: &PlacesError, want: &[u8]) -> bool {
    let (word, named) = split_at_byte(want, b' ');
    match error {
        PlacesError::NoRepository => word == b"no-repository".as_slice(),
        PlacesError::Bare { .. } => word == b"bare".as_slice(),
        PlacesError::OddHead { .. } => word == b"odd-head".as_slice(),
        PlacesError::GitFileForm { .. } => word == b"git-file-form".as_slice(),
        PlacesError::Border { path } => word == b"border".as_slice() && path.as_bytes() == named,
        PlacesError::Value { key, .. } => word == b"value".as_slice() && key.as_bytes() == named,
        _ => false,
    }
}

/// The same of what configurations are refused with.
fn is_not_read(error: &FilesError, want: &[u8]) -> bool {
    let (word, named) = split_at_byte(want, b' ');
    match error {
        FilesError::Foreign { path } => word == b"foreign".as_slice() && path.as_bytes() == named,
        FilesError::Value { key, .. } => word == b"value".as_slice() && key.as_bytes() == named,
        FilesError::UserDir { value, .. } => word == b"user-dir".as_slice()
            && value.as_bytes() == named,
        FilesError::Config { .. } => word == b"config".as_slice(),
        FilesError::Condition { .. } => word == b"condition".as_slice(),
        _ => false,
    }
}

fn is_own(
    alloc: Global,
    tree: &mut MemoryWorktree,
    owners: &mut MemoryOwners,
    around: &Surroundings,
    top: Top,
    want: &[u8],
) -> bool {
    match require_trusted_top(alloc, tree, owners, around, top) {
        Ok(top) => is_top(alloc, tree, &top, want),
        Err(error) => is_not_read(&error, want),
    }
}

fn is_found(
    alloc: Global,
    tree: &mut MemoryWorktree,
    owners: &mut MemoryOwners,
    around: &Surroundings,
    limits: &Limits,
    want: &[u8],
) -> bool {
    let current = around.directory.as_bytes();
    match find_work_tree_top(alloc, tree, owners, current, limits) {
        Ok(top) => is_own(alloc, tree, owners, around, top, want),
        Err(error) => is_refused(&error, want),
    }
}

fn answers(
    alloc: Global,
    tree: &mut MemoryWorktree,
    owners: &mut MemoryOwners,
    around: &Surroundings,
    want: &[u8],
) -> bool {
    match search_limits_of_surroundings(alloc, tree, owners, around) {
        Ok(limits) => is_found(alloc, tree, owners, around, &limits, want),
        Err(error) => is_refused(&error, want),
    }
}

/// The same in the tree of some steps.
fn answers_in(
    alloc: Global,
    owners: &mut MemoryOwners,
    around: &Surroundings,
    steps: &[u8],
    want: &[u8],
) -> bool {
    match tree_from_steps(alloc, steps, b'$') {
        Some(tree) => {
            let mut tree = tree;
            answers(alloc, &mut tree, owners, around, want)
        }
        None => false,
    }
}

/// The same of some owners.
fn answers_of(
    alloc: Global,
    owned: &[u8],
    around: &Surroundings,
    steps: &[u8],
    want: &[u8],
) -> bool {
    match owners_of(alloc, owned) {
        Some(owners) => {
            let mut owners = owners;
            answers_in(alloc, &mut owners, around, steps, want)
        }
        None => false,
    }
}

/// Whether the answer of a row is the one that is wanted.
fn is_answered(alloc: Global, want: &[u8], words: &[u8], owned: &[u8], steps: &[u8]) -> bool {
    match surroundings_of(alloc, words) {
        Some(around) => answers_of(alloc, owned, &around, steps, want),
        None => false,
    }
}

fn first_lie(alloc: Global, rows: &'static [u8]) -> Option<&'static [u8]> {
    for row in rows.split(|byte| *byte == b'\n') {
        let (answer, asked) = split_at_byte(row, b'^');
        let (words, rest) = split_at_byte(asked, b'^');
        let (owned, steps) = split_at_byte(rest, b'^');
        if !row.is_empty() && !is_answered(alloc, wanted(answer), words, owned, steps) {
            return Some(row);
        }
    }
    None
}

#[test]
fn repositories_of_others_are_refused_and_borders_are_not_crossed(rt: HostRuntime) {
    let alloc = rt.alloc();
    assert_eq!(rt; first_lie(alloc, git::ANSWERS), None);
    assert_eq!(rt; first_lie(alloc, git::DIFFERENCES), None);
}
