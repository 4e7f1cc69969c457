//! What is set in the environment, and where the work tree lies, from the words of a row.
use bstr::ByteSlice;
use git_places::{
    Ceilings, Limits, Places, PlacesError, Surroundings, find_work_tree_top,
    places_of_work_tree_top,
};
use gitbase_core::{Bytes, PathText};
use std::alloc::Global;
use test_cases::split_at_byte;
use worktree_fs::{MemoryOwners, MemoryWorktree};

/// What is set for a name.
fn told(alloc: Global, words: &[u8], name: &[u8]) -> Option<Bytes> {
    for word in words.split(|byte| *byte == b';') {
        let (before, value) = split_at_byte(word, b'=');
        if before == name {
            return Bytes::from_slice(alloc, value).ok();
        }
    }
    None
}

/// The current directory: `/w/r`, unless another one is set.
fn directory_of(alloc: Global, words: &[u8]) -> Option<PathText> {
    match told(alloc, words, b"dir") {
        Some(path) => PathText::from_bytes(alloc, path.as_bytes()).ok(),
        None => PathText::from_bytes(alloc, b"/w/r").ok(),
    }
}

/// What is set in the environment, parted by `;`.
pub fn surroundings_of(alloc: Global, words: &[u8]) -> Option<Surroundings> {
    Some(Surroundings {
        directory: directory_of(alloc, words)?,
        home: told(alloc, words, b"home"),
        config_home: told(alloc, words, b"xdg"),
        config_global: told(alloc, words, b"global"),
        config_system: told(alloc, words, b"system"),
        no_system: told(alloc, words, b"nosystem"),
        ceilings: told(alloc, words, b"ceilings"),
        across: told(alloc, words, b"across"),
        sudo_user: told(alloc, words, b"sudo"),
        elsewhere: told(alloc, words, b"elsewhere"),
    })
}

/// Where the work tree lies.
pub fn places_in(alloc: Global, tree: &mut MemoryWorktree) -> Result<Places, PlacesError> {
    let limits = Limits {
        ceilings: Ceilings::new(alloc),
        device: None,
    };
    let mut owners = MemoryOwners::new(Vec::new(alloc));
    let top = find_work_tree_top(alloc, tree, &mut owners, b"/w/r", &limits)?;
    places_of_work_tree_top(alloc, tree, top)
}

/// The answer that is wanted: of two that differ, the one of the definitions.
pub fn wanted(answer: &[u8]) -> &[u8] {
    match answer.split_once_str(b"=>") {
        Some((_, own)) => own,
        None => answer,
    }
}

/// Whether a line is the one that is wanted.
pub fn is_line(alloc: Global, line: usize, want: &[u8]) -> bool {
    match format!(in alloc; "{line}") {
        Ok(text) => text.as_bytes() == want,
        Err(_) => false,
    }
}
