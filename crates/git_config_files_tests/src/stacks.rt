//! Stacks of configurations, and what they say.
use crate::answers as git;
use crate::surroundings::{is_line, places_in, surroundings_of, wanted};
use git_config_files::{FilesError, Stack, read_stack};
use git_config_lite::{Entry, Metadata, Section, Source};
use git_places::{Places, PlacesError, Surroundings};
use std::alloc::Global;
use test_cases::{replace_marks_by_line_feeds, split_at_byte, tree_from_steps};
use worktree_fs::{MemoryWorktree, Worktree};

/// Rows that git cannot be asked, since what they need is not there or is given up.
const BY_HAND: &[u8] = b"\
|s /etc/gitconfig a.k=1|l /w/r/.git/config a.k=2^home=/w/h^g /w/r/.git=main;f /etc/gitconfig=[a]$k=1$;f /w/r/.git/config=[a]$k=2$\n\
!elsewhere^home=/w/h;elsewhere=GIT_DIR^g /w/r/.git=main\n\
";

fn letter_of(source: Source) -> &'static [u8] {
    match source {
        Source::System => b"s",
        Source::User => b"u",
        Source::Local => b"l",
        _ => b"-",
    }
}

/// What stands behind a text at the front.
fn behind<'a>(rest: &'a [u8], front: &[u8]) -> Option<&'a [u8]> {
    rest.strip_prefix(front)
}

/// The same whatever the case of letters.
fn behind_folded<'a>(rest: &'a [u8], front: &[u8]) -> Option<&'a [u8]> {
    if rest.len() < front.len() {
        return None;
    }
    let (head, more) = rest.split_at(front.len());
    if head.eq_ignore_ascii_case(front) {
        Some(more)
    } else {
        None
    }
}

/// What stands behind the file in which a key stands, without links.
fn behind_file<'a>(
    alloc: Global,
    tree: &mut MemoryWorktree,
    rest: &'a [u8],
    meta: &Metadata,
) -> Option<&'a [u8]> {
    let path = meta.path.as_ref()?;
    let rest = behind(behind(rest, letter_of(meta.source))?, b" ")?;
    match tree.real_path(alloc, path.as_bytes(), b"/") {
        Ok(Some(real)) => behind(behind(rest, real.as_bytes())?, b" "),
        _ => None,
    }
}

/// What stands behind a subsection, with dots around it, or behind a dot.
fn behind_subsection<'a>(rest: &'a [u8], section: &Section) -> Option<&'a [u8]> {
    let rest = behind(rest, b".")?;
    match section.subsection_name() {
        Some(name) => behind(behind(rest, name)?, b"."),
        None => Some(rest),
    }
}

fn behind_value<'a>(rest: &'a [u8], entry: &Entry) -> Option<&'a [u8]> {
    match &entry.value {
        Some(value) => behind(behind(rest, b"=")?, value.as_bytes()),
        None => Some(rest),
    }
}

/// What stands behind a key by itself.
fn behind_key<'a>(
    alloc: Global,
    tree: &mut MemoryWorktree,
    rest: &'a [u8],
    key: &Section,
) -> Option<&'a [u8]> {
    let [entry] = key.entries() else {
        return None;
    };
    let rest = behind_file(alloc, tree, behind(rest, b"|")?, key.meta())?;
    let rest = behind_subsection(behind_folded(rest, key.name())?, key)?;
    behind_value(behind_folded(rest, entry.key.as_bytes())?, entry)
}

/// Whether the keys of a stack are those that are wanted.
fn are_keys(alloc: Global, tree: &mut MemoryWorktree, stack: &Stack, want: &[u8]) -> bool {
    let mut rest = want;
    for key in stack.file.sections() {
        match behind_key(alloc, tree, rest, key) {
            Some(more) => rest = more,
            None => return false,
        }
    }
    rest.is_empty()
}

fn word_of(error: &FilesError) -> &'static [u8] {
    match error {
        FilesError::Config { .. } => b"!config",
        FilesError::Include { .. } => b"!include",
        FilesError::NoFile { .. } => b"!no-file",
        FilesError::Home { .. } => b"!home",
        FilesError::UserDir { .. } => b"!user-dir",
        FilesError::Condition { .. } => b"!condition",
        FilesError::Depth { .. } => b"!depth",
        FilesError::Value { .. } => b"!value",
        FilesError::Elsewhere { .. } => b"!elsewhere",
        FilesError::Foreign { .. } => b"!foreign",
        FilesError::Fault => b"!fault",
        FilesError::OutOfMemory => b"!memory",
    }
}

/// Whether a line is wanted that is outside the grammar.
fn is_config_line(alloc: Global, line: usize, want: &[u8]) -> bool {
    let (word, number) = split_at_byte(want, b' ');
    word == b"!config".as_slice() && is_line(alloc, line, number)
}

/// Whether a refusal is the one that is wanted.
pub fn is_refused(alloc: Global, error: &FilesError, want: &[u8]) -> bool {
    match error {
        FilesError::Config { line, .. } => is_config_line(alloc, *line, want),
        FilesError::UserDir { value, .. } => {
            let (word, named) = split_at_byte(want, b' ');
            word == word_of(error) && value.as_bytes() == named
        }
        error => want == word_of(error),
    }
}

fn answers(
    alloc: Global,
    tree: &mut MemoryWorktree,
    places: &Places,
    around: &Surroundings,
    want: &[u8],
) -> bool {
    match read_stack(alloc, tree, places, around) {
        Ok(stack) => are_keys(alloc, tree, &stack, want),
        Err(error) => is_refused(alloc, &error, want),
    }
}

/// Whether the answer of a row is the one that is wanted.
fn is_answered(alloc: Global, want: &[u8], words: &[u8], steps: &[u8]) -> bool {
    let (Some(tree), Some(around), Some(want)) = (
        tree_from_steps(alloc, steps, b'$'),
        surroundings_of(alloc, words),
        replace_marks_by_line_feeds(alloc, want, b'$'),
    ) else {
        return false;
    };
    let mut tree = tree;
    match places_in(alloc, &mut tree) {
        Ok(places) => answers(alloc, &mut tree, &places, &around, &want),
        Err(PlacesError::Config { line, .. }) => is_config_line(alloc, line, &want),
        Err(_) => false,
    }
}

fn first_lie(alloc: Global, rows: &'static [u8]) -> Option<&'static [u8]> {
    for row in rows.split(|byte| *byte == b'\n') {
        let (answer, asked) = split_at_byte(row, b'^');
        let (words, steps) = split_at_byte(asked, b'^');
        if !row.is_empty() && !is_answered(alloc, wanted(answer), words, steps) {
            return Some(row);
        }
    }
    None
}

#[test]
fn configurations_say_what_git_reads(rt: HostRuntime) {
    let alloc = rt.alloc();
    assert_eq!(rt; first_lie(alloc, git::ANSWERS), None);
    assert_eq!(rt; first_lie(alloc, git::AT_RANDOM), None);
    assert_eq!(rt; first_lie(alloc, git::DIFFERENCES), None);
    assert_eq!(rt; first_lie(alloc, BY_HAND), None);
}
