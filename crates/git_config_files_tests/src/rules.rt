//! The files of ignore rules outside the work tree.
use crate::answers as git;
use crate::stacks::is_refused;
use crate::surroundings::{places_in, surroundings_of, wanted};
use git_config_files::{FilesError, Rules, RulesFile, read_rules_outside_work_tree, read_stack};
use git_places::{Places, Surroundings};
use std::alloc::Global;
use test_cases::{split_at_byte, tree_from_steps};
use worktree_fs::{MemoryWorktree, Worktree};

/// Rows: the file in which stands what is refused, or `-`; what is set in the environment; and the
/// tree.
const FILES: &[u8] = b"\
/w/r/.git/i^home=/w/h^g /w/r/.git=main;f /w/r/.git/config=[include]$path=i$[core]$excludesfile=x$;f /w/r/.git/i=[core]$excludesfile$\n\
/w/r/.git/i^home=/w/h^g /w/r/.git=main;f /w/r/.git/config=[core]$excludesfile=x$[include]$path=i$;f /w/r/.git/i=[core]$excludesfile=~nobody-here/x$\n\
/w/h/.gitconfig^home=/w/h^g /w/r/.git=main;f /w/h/.gitconfig=[core]$excludesfile=~nobody-here/x$;f /w/r/.git/config=[core \"a\"]$excludesfile=x$\n\
/w/r/.git/i^home=/w/h^g /w/r/.git=main;f /w/r/.git/config=[include]$path=i$;f /w/r/.git/i=[include]$path=a\0b$\n\
-^home=/w/h;nosystem=x^g /w/r/.git=main\n\
";

/// Whether a file is at the path that is wanted, without links, and has this text; `-` wants no
/// rule.
fn is_file(
    alloc: Global,
    tree: &mut MemoryWorktree,
    file: &Option<RulesFile>,
    want: &[u8],
    text: &[u8],
) -> bool {
    let Some(file) = file else {
        return want == b"-".as_slice();
    };
    if file.bytes.as_bytes().is_empty() {
        return want == b"-".as_slice();
    }
    match tree.real_path(alloc, file.path.as_bytes(), b"/") {
        Ok(Some(real)) => real.as_bytes() == want && file.bytes.as_bytes() == text,
        _ => false,
    }
}

fn are_rules(alloc: Global, tree: &mut MemoryWorktree, rules: &Rules, want: &[u8]) -> bool {
    let (user, repository) = split_at_byte(want, b' ');
    is_file(alloc, tree, &rules.user, user, b"u\n")
        && is_file(alloc, tree, &rules.repository, repository, b"r\n")
}

fn rules_in(
    alloc: Global,
    tree: &mut MemoryWorktree,
    places: &Places,
    around: &Surroundings,
) -> Result<Rules, FilesError> {
    let stack = read_stack(alloc, tree, places, around)?;
    read_rules_outside_work_tree(alloc, tree, places, around, &stack.file)
}

fn answers(
    alloc: Global,
    tree: &mut MemoryWorktree,
    places: &Places,
    around: &Surroundings,
    want: &[u8],
) -> bool {
    match rules_in(alloc, tree, places, around) {
        Ok(rules) => are_rules(alloc, tree, &rules, want),
        Err(error) => is_refused(alloc, &error, want),
    }
}

fn is_answered(alloc: Global, want: &[u8], words: &[u8], steps: &[u8]) -> bool {
    let (Some(tree), Some(around)) = (
        tree_from_steps(alloc, steps, b'$'),
        surroundings_of(alloc, words),
    ) else {
        return false;
    };
    let mut tree = tree;
    match places_in(alloc, &mut tree) {
        Ok(places) => answers(alloc, &mut tree, &places, &around, want),
        Err(_) => false,
    }
}

fn first_lie(alloc: Global, rows: &'static [u8]) -> Option<&'static [u8]> {
    for row in rows.split(|byte| *byte == b'\n') {
        let (answer, asked) = split_at_byte(row, b'^');
        let (words, steps) = split_at_byte(asked, b'^');
        if !row.is_empty() && !is_answered(alloc, wanted(answer), words, steps) {
            return Some(row);
        }
    }
    None
}

/// Whether what is refused stands in the file that is wanted.
fn stands_in(error: &FilesError, want: &[u8]) -> bool {
    let path = match error {
        FilesError::Value { path, .. } => path,
        FilesError::UserDir { path, .. } => path,
        _ => return false,
    };
    match path {
        Some(path) => path.as_bytes() == want,
        None => want == b"-".as_slice(),
    }
}

fn is_refused_in(alloc: Global, want: &[u8], words: &[u8], steps: &[u8]) -> bool {
    let (Some(tree), Some(around)) = (
        tree_from_steps(alloc, steps, b'$'),
        surroundings_of(alloc, words),
    ) else {
        return false;
    };
    let mut tree = tree;
    let Ok(places) = places_in(alloc, &mut tree) else {
        return false;
    };
    match rules_in(alloc, &mut tree, &places, &around) {
        Ok(_) => false,
        Err(error) => stands_in(&error, want),
    }
}

fn first_lie_of_files(alloc: Global) -> Option<&'static [u8]> {
    for row in FILES.split(|byte| *byte == b'\n') {
        let (want, asked) = split_at_byte(row, b'^');
        let (words, steps) = split_at_byte(asked, b'^');
        if !row.is_empty() && !is_refused_in(alloc, want, words, steps) {
            return Some(row);
        }
    }
    None
}

#[test]
fn refusals_name_the_file_of_the_value(rt: HostRuntime) {
    assert_eq!(rt; first_lie_of_files(rt.alloc()), None);
}

#[test]
fn rules_files_are_those_that_git_reads(rt: HostRuntime) {
    let alloc = rt.alloc();
    assert_eq!(rt; first_lie(alloc, git::RULES), None);
    assert_eq!(rt; first_lie(alloc, git::RULES_DIFFERENCES), None);
}
