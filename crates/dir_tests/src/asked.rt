//! What classes and walks are asked with.
use dir_classify::{CollapsedEntriesEmissionMode, EmissionMode, ForDeletionMode, Options};
use dir_walk::Strategy;
use gitbase_core::{Bytes, PathText};
use glob_rules::pathspec::{Defaults, Error, Search, Spec};
use std::alloc::Global;
use std::collections::BTreeSet;
use test_cases::parse_saturating_decimal;

/// What classes and walks are asked with.
#[derive(Drop)]
pub struct Asked {
    /// The words of the options that are on, parted by spaces.
    pub options: Bytes,
    pub specs: Search,
    pub worktrees: BTreeSet<PathText>,
    /// The traversal root that is handed in.
    pub root: Option<Bytes>,
    pub current_dir: Bytes,
    pub depth_limit: usize,
    /// How subtrees are walked.
    pub strategy: Strategy,
    /// The question from which on the interrupt is raised; 0 for never.
    pub raised: usize,
}

impl Asked {
    /// No option is on, all paths are meant, and a walk goes nine directories deep from the
    /// worktree root.
    pub fn plainly(alloc: Global) -> Asked {
        Asked {
            options: Bytes::new(alloc),
            specs: Search::from_specs(Vec::new(alloc)),
            worktrees: BTreeSet::new(alloc),
            root: None,
            current_dir: Bytes::new(alloc),
            depth_limit: 9,
            strategy: Strategy::Held,
            raised: 0,
        }
    }
}

/// Whether a word is one of those that spaces part.
fn is_among(words: &[u8], word: &[u8]) -> bool {
    for each in words.split(|byte| *byte == b' ') {
        if each == word {
            return true;
        }
    }
    false
}

/// The deletion mode that some word names.
fn deletion_of(words: &[u8]) -> Option<ForDeletionMode> {
    if is_among(words, b"hide") {
        return Some(ForDeletionMode::IgnoredDirectoriesCanHideNestedRepositories);
    }
    if is_among(words, b"nonbare") {
        return Some(ForDeletionMode::FindNonBareRepositoriesInIgnoredDirectories);
    }
    if is_among(words, b"all") {
        return Some(ForDeletionMode::FindRepositoriesInIgnoredDirectories);
    }
    None
}

/// How ignored paths are shown, if they are.
fn shown_of(words: &[u8]) -> Option<EmissionMode> {
    if is_among(words, b"shown") {
        return Some(EmissionMode::Matching);
    }
    if is_among(words, b"shown-folded") {
        return Some(EmissionMode::CollapseDirectory);
    }
    None
}

/// How untracked paths are shown.
fn untracked_of(words: &[u8]) -> EmissionMode {
    if is_among(words, b"folding") {
        EmissionMode::CollapseDirectory
    } else {
        EmissionMode::Matching
    }
}

/// What is shown beneath a directory that is folded, if anything is.
fn collapsed_of(words: &[u8]) -> Option<CollapsedEntriesEmissionMode> {
    if is_among(words, b"within") {
        return Some(CollapsedEntriesEmissionMode::All);
    }
    if is_among(words, b"within-unlike") {
        return Some(CollapsedEntriesEmissionMode::OnStatusMismatch);
    }
    None
}

/// The options that these words name, with these worktrees.
pub fn options_of<'a>(words: &[u8], worktrees: &'a BTreeSet<PathText>) -> Options<'a> {
    Options {
        ignore_case: is_among(words, b"folded"),
        recurse_repositories: is_among(words, b"recursing"),
        emit_pruned: is_among(words, b"pruned"),
        emit_ignored: shown_of(words),
        for_deletion: deletion_of(words),
        classify_untracked_bare_repositories: is_among(words, b"bare"),
        emit_tracked: is_among(words, b"tracked"),
        emit_untracked: untracked_of(words),
        emit_empty_directories: is_among(words, b"empty"),
        emit_collapsed: collapsed_of(words),
        symlinks_to_directories_are_ignored_like_directories: is_among(words, b"followed"),
        worktree_relative_worktree_dirs: Some(worktrees),
        ..Options::default()
    }
}

/// The specs that spaces part.
fn specs_of(alloc: Global, texts: &[u8]) -> Result<Search, Error> {
    let mut specs = Vec::new(alloc);
    for text in texts.split(|byte| *byte == b' ') {
        let spec = Spec::parse(alloc, text, Defaults { ignore_case: false })?;
        if specs.push(spec).is_err() {
            return Err(Error::OutOfMemory);
        }
    }
    Ok(Search::from_specs(specs))
}

fn has_specs(alloc: Global, asked: &mut Asked, texts: &[u8]) -> bool {
    match specs_of(alloc, texts) {
        Ok(specs) => {
            asked.specs = specs;
            true
        }
        Err(_) => false,
    }
}

fn has_worktree(alloc: Global, asked: &mut Asked, path: &[u8]) -> bool {
    match PathText::from_bytes(alloc, path) {
        Ok(path) => asked.worktrees.insert(path).is_ok(),
        Err(_) => false,
    }
}

fn has_root(alloc: Global, asked: &mut Asked, root: &[u8]) -> bool {
    match Bytes::from_slice(alloc, root) {
        Ok(root) => {
            asked.root = Some(root);
            true
        }
        Err(_) => false,
    }
}

/// Whether what follows is asked with what a step says: with these options alone, with these specs
/// alone, with one more worktree, or with this traversal root, current directory, depth limit or
/// interrupt.
pub fn is_asked(alloc: Global, asked: &mut Asked, what: &[u8], words: &[u8]) -> bool {
    match what {
        b"options" => asked.options.set(alloc, words).is_ok(),
        b"specs" => has_specs(alloc, asked, words),
        b"worktree" => has_worktree(alloc, asked, words),
        b"root" => has_root(alloc, asked, words),
        b"current" => asked.current_dir.set(alloc, words).is_ok(),
        b"depth" => {
            asked.depth_limit = parse_saturating_decimal(words);
            true
        }
        b"raised" => {
            asked.raised = parse_saturating_decimal(words);
            true
        }
        _ => false,
    }
}
