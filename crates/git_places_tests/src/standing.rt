//! The files in which stands what is refused.
use crate::layouts::{places_in, word_of};
use git_places::{Ceilings, Limits, PlacesError};
use std::alloc::Global;
use test_cases::{split_at_byte, tree_from_steps};

/// Rows: the word of the refusal and the file in which its cause stands, and the tree, in whose
/// directory `/w/t` is asked. A file of the common directory is spelled as `commondir` leads to it.
const ROWS: &[u8] = b"\
version /w/t/.git/config^g /w/t/.git;f /w/t/.git/config=[core]~repositoryformatversion=2~\n\
version /w/m/.git/worktrees/t/../../config^g /w/m/.git;d /w/t/a;f /w/t/.git=gitdir: /w/m/.git/worktrees/t~;f /w/m/.git/worktrees/t/HEAD=ref: refs/heads/x~;f /w/m/.git/worktrees/t/commondir=../..~;f /w/m/.git/config=[core]~repositoryformatversion=x~\n\
extension /w/t/.git/config^g /w/t/.git;f /w/t/.git/config=[core]~repositoryformatversion=1~[extensions]~x=1~\n\
extension /w/m/.git/worktrees/t/../../config^g /w/m/.git;d /w/t/a;f /w/t/.git=gitdir: /w/m/.git/worktrees/t~;f /w/m/.git/worktrees/t/HEAD=ref: refs/heads/x~;f /w/m/.git/worktrees/t/commondir=../..~;f /w/m/.git/config=[core]~repositoryformatversion=1~[extensions.a]~x=1~\n\
sha256 /w/t/.git/config^g /w/t/.git;f /w/t/.git/config=[core]~repositoryformatversion=1~[extensions]~objectformat=sha256~\n\
value /w/t/.git/config^g /w/t/.git;f /w/t/.git/config=[core]~repositoryformatversion=0~bare=maybe~\n\
value /w/t/.git/config^g /w/t/.git;f /w/t/.git/config=[core]~repositoryformatversion=0~worktree=~\n\
value /w/t/.git/config^g /w/t/.git;f /w/t/.git/config=[core]~repositoryformatversion=0~[extensions]~worktreeconfig=x~\n\
value /w/t/.git/config^g /w/t/.git;f /w/t/.git/config=[core]~repositoryformatversion=0~bare=maybe~[extensions]~worktreeconfig=true~;f /w/t/.git/config.worktree=[core]~x=y~\n\
value /w/t/.git/config.worktree^g /w/t/.git;f /w/t/.git/config=[core]~repositoryformatversion=0~bare=no~[extensions]~worktreeconfig=true~;f /w/t/.git/config.worktree=[core]~bare=maybe~[a]~bare=no~\n\
value /w/t/.git/config.worktree^g /w/t/.git;f /w/t/.git/config=[core]~repositoryformatversion=0~bare=maybe~[extensions]~worktreeconfig=true~;f /w/t/.git/config.worktree=[CORE]~Bare=x~\n\
";

/// The file in which stands what is refused, where one is told.
fn file_of(error: &PlacesError) -> &[u8] {
    let path = match error {
        PlacesError::Version { path, .. } => path,
        PlacesError::Extension { path, .. } => path,
        PlacesError::Sha256 { path } => path,
        PlacesError::Value { path, .. } => path,
        _ => return b"-",
    };
    match path {
        Some(path) => path.as_bytes(),
        None => b"-",
    }
}

/// Whether a row holds.
fn holds(alloc: Global, row: &[u8]) -> bool {
    let (want, steps) = split_at_byte(row, b'^');
    let (word, file) = split_at_byte(want, b' ');
    let Some(tree) = tree_from_steps(alloc, steps, b'~') else {
        return false;
    };
    let mut tree = tree;
    let limits = Limits {
        ceilings: Ceilings::new(alloc),
        device: None,
    };
    match places_in(alloc, &mut tree, b"/w/t", &limits) {
        Ok(_) => false,
        Err(error) => word_of(&error) == word && file_of(&error) == file,
    }
}

fn first_lie(alloc: Global) -> Option<&'static [u8]> {
    for row in ROWS.split(|byte| *byte == b'\n') {
        if !row.is_empty() && !holds(alloc, row) {
            return Some(row);
        }
    }
    None
}

#[test]
fn refusals_name_the_file_of_their_cause(rt: HostRuntime) {
    assert_eq!(rt; first_lie(rt.alloc()), None);
}
