//! Layouts of work trees and repositories, and what git answers in them.
use crate::answers as git;
use bstr::ByteSlice;
use git_places::{
    Ceilings, Limits, Places, PlacesError, find_work_tree_top, parse_ceiling_directories,
    places_of_work_tree_top,
};
use gitbase_core::PathText;
use std::alloc::Global;
use test_cases::{split_at_byte, tree_from_steps};
use worktree_fs::{MemoryOwners, MemoryWorktree, Worktree};

/// The same of trees at whose top a repository lies, which were asked of git by hand.
const TOPS: &[u8] = b"\
found - / /.git /.git^/w/r^-^g /.git;d /w/r\n\
found - / /.git /.git^/^-^g /.git\n\
no-repository^/w/r^/^g /.git;d /w/r\n\
no-repository^/w/r^:/^g /.git;d /w/r\n\
no-repository^/w/r^//^g /.git;d /w/r\n\
found - / /.git /.git^/w/r^://^g /.git;d /w/r\n\
";

/// Whether a path leads to this one, which has no links.
fn leads_to(alloc: Global, tree: &mut MemoryWorktree, path: &PathText, want: &[u8]) -> bool {
    match tree.real_path(alloc, path.as_bytes(), b"/") {
        Ok(Some(real)) => real.as_bytes() == want,
        _ => false,
    }
}

/// Whether the work tree has a configuration of its own; `-` says that git does not tell.
fn has_own(has: bool, want: &[u8]) -> bool {
    match want {
        b"own" => has,
        b"shared" => !has,
        _ => true,
    }
}

fn are_places(alloc: Global, tree: &mut MemoryWorktree, found: &Places, want: &[u8]) -> bool {
    let (own, rest) = split_at_byte(want, b' ');
    let (root, rest) = split_at_byte(rest, b' ');
    let (git_dir, common) = parted_in_two(rest);
    has_own(found.has_own_config, own)
        && found.root.as_bytes() == root
        && leads_to(alloc, tree, &found.git_dir, git_dir)
        && leads_to(alloc, tree, &found.common_dir, common)
}

/// Two paths, which may have blanks: the second one begins at the last blank before a slash.
fn parted_in_two(paths: &[u8]) -> (&[u8], &[u8]) {
    match paths.rfind(b" /") {
        Some(at) => {
            let (before, rest) = paths.split_at(at);
            (before, rest.get(1..).unwrap_or(b""))
        }
        None => (paths, b""),
    }
}

pub fn word_of(error: &PlacesError) -> &'static [u8] {
    match error {
        PlacesError::NoRepository => b"no-repository",
        PlacesError::Border { .. } => b"border",
        PlacesError::NoDirectory { .. } => b"no-directory",
        PlacesError::Bare { .. } => b"bare",
        PlacesError::GitFileForm { .. } => b"git-file-form",
        PlacesError::GitFileTarget { .. } => b"git-file-target",
        PlacesError::OddHead { .. } => b"odd-head",
        PlacesError::CommonDir { .. } => b"common",
        PlacesError::Version { .. } => b"version",
        PlacesError::Extension { .. } => b"extension",
        PlacesError::Sha256 { .. } => b"sha256",
        PlacesError::Value { .. } => b"value",
        PlacesError::Config { .. } => b"config",
        PlacesError::NoWorkTree { .. } => b"no-work-tree",
        PlacesError::Fault => b"fault",
        PlacesError::OutOfMemory => b"memory",
    }
}

/// What a refusal names, where git names it.
fn named_by(error: &PlacesError) -> &[u8] {
    match error {
        PlacesError::Version { value, .. } => value.as_bytes(),
        PlacesError::Extension { key, .. } => key.as_bytes(),
        PlacesError::Value { key, .. } => key.as_bytes(),
        _ => b"",
    }
}

/// Whether a refusal is the one that is wanted; git writes keys in small letters.
fn is_refused(error: &PlacesError, want: &[u8]) -> bool {
    let (word, named) = split_at_byte(want, b' ');
    word_of(error) == word && named_by(error).eq_ignore_ascii_case(named)
}

/// Where the work tree of a directory lies, whoever owns it.
pub fn places_in(
    alloc: Global,
    tree: &mut MemoryWorktree,
    current: &[u8],
    limits: &Limits,
) -> Result<Places, PlacesError> {
    let mut owners = MemoryOwners::new(Vec::new(alloc));
    let top = find_work_tree_top(alloc, tree, &mut owners, current, limits)?;
    places_of_work_tree_top(alloc, tree, top)
}

fn answers(
    alloc: Global,
    tree: &mut MemoryWorktree,
    current: &[u8],
    limits: &Limits,
    want: &[u8],
) -> bool {
    match places_in(alloc, tree, current, limits) {
        Ok(found) => match want.strip_prefix(b"found ") {
            Some(places) => are_places(alloc, tree, &found, places),
            None => false,
        },
        Err(error) => is_refused(&error, want),
    }
}

fn ceilings_in(alloc: Global, tree: &mut MemoryWorktree, text: &[u8]) -> Option<Ceilings> {
    if text == b"-".as_slice() {
        return Some(Ceilings::new(alloc));
    }
    parse_ceiling_directories(alloc, tree, text).ok()
}

/// Limits with these ceilings, and without a border.
fn limits_in(alloc: Global, tree: &mut MemoryWorktree, text: &[u8]) -> Option<Limits> {
    let ceilings = ceilings_in(alloc, tree, text)?;
    Some(Limits {
        ceilings,
        device: None,
    })
}

/// Whether the answer of a tree is the one that is wanted.
fn is_answered(alloc: Global, want: &[u8], asked: &[u8]) -> bool {
    let (current, rest) = split_at_byte(asked, b'^');
    let (text, steps) = split_at_byte(rest, b'^');
    let Some(tree) = tree_from_steps(alloc, steps, b'~') else {
        return false;
    };
    let mut tree = tree;
    match limits_in(alloc, &mut tree, text) {
        Some(limits) => answers(alloc, &mut tree, current, &limits, want),
        None => false,
    }
}

/// The answer that is wanted: of two that differ, the one of the definitions.
fn wanted(answer: &[u8]) -> &[u8] {
    match answer.split_once_str(b"=>") {
        Some((_, own)) => own,
        None => answer,
    }
}

fn first_lie(alloc: Global, rows: &'static [u8]) -> Option<&'static [u8]> {
    for row in rows.split(|byte| *byte == b'\n') {
        let (answer, asked) = split_at_byte(row, b'^');
        if !row.is_empty() && !is_answered(alloc, wanted(answer), asked) {
            return Some(row);
        }
    }
    None
}

#[test]
fn places_are_where_git_finds_them(rt: HostRuntime) {
    let alloc = rt.alloc();
    assert_eq!(rt; first_lie(alloc, git::ANSWERS), None);
    assert_eq!(rt; first_lie(alloc, git::DIFFERENCES), None);
    assert_eq!(rt; first_lie(alloc, TOPS), None);
}
