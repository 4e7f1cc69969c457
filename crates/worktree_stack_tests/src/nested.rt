//! Paths in work trees with several rules files, with strict parents, beside what git answers of
//! them.
ghost use Rattle.std.specs.Prelude.{◌≡◌, true};
ghost use Rattle.worktree_stack.specs.Setup.{has_excludes};
ghost use Rattle.worktree_stack.specs.Stacked.{setup_of_stack};

use crate::answers::NESTED;
use crate::cases::stack_at;
use crate::lookups::look_up_path;
use crate::steps::{is_digit, parse};
use bstr::ByteSlice;
use gitbase_core::{MemoryStore, Mode, OutOfMemory, PathText};
use glob_rules::ignore::{Kind, Search};
use std::alloc::Global;
use test_cases::split_at_byte;
use worktree_fs::{MemoryWorktree, NewNode};
use worktree_stack::ignore_source::Source;
use worktree_stack::{Ignore, Platform, Stack};

fn stack_of(alloc: Global) -> Result<Stack, OutOfMemory> {
    let root = PathText::from_bytes(alloc, b"/w")?;
    let (overrides, globals) = (Search::new(alloc), Search::new(alloc));
    let ignore = Ignore::new(alloc, overrides, globals, None, Source::default(), parse())?;
    Ok(stack_at(alloc, root, ignore.with_strict_parents(true)))
}

/// The whole path of one below the root.
fn whole(alloc: Global, path: &[u8]) -> Result<PathText, OutOfMemory> {
    let mut whole = PathText::from_bytes(alloc, b"/w")?;
    whole.push_component(alloc, path)?;
    Ok(whole)
}

/// Rules with an LF in the place of each bar.
fn lines_of(alloc: Global, rules: &[u8]) -> Result<Vec<u8>, OutOfMemory> {
    let mut lines = Vec::new(alloc);
    for byte in rules {
        lines.push(if *byte == b'|' { b'\n' } else { *byte })?;
    }
    Ok(lines)
}

/// Whether a rules file was put into the tree.
fn is_put(alloc: Global, tree: &mut MemoryWorktree, file: &[u8]) -> bool {
    let (path, rules) = file.split_once_str(b"=").unwrap_or((file, b""));
    match (whole(alloc, path), lines_of(alloc, rules)) {
        (Ok(path), Ok(lines)) => tree
            .add(alloc, path.as_bytes(), NewNode::File(&lines))
            .is_ok(),
        _ => false,
    }
}

fn are_put(alloc: Global, tree: &mut MemoryWorktree, files: &[u8]) -> bool {
    for file in files.split(|byte| *byte == b';') {
        if !is_put(alloc, tree, file) {
            return false;
        }
    }
    true
}

/// Whether the rule that decides stands in this line of this file, and has this sign; line 0 says
/// that there is none.
fn is_decided(platform: &Platform<'_>, line: &[u8], sign: &[u8], file: &[u8]) -> bool
    requires { has_excludes (setup_of_stack platform.now) ≡ true }
{
    match platform.matching_exclude_pattern() {
        Some(found) => {
            is_digit(found.sequence_number as usize, line)
                && found.pattern.is_negative() == (sign == b"-".as_slice())
                && is_below(found.source, file)
        }
        None => line == b"0".as_slice(),
    }
}

/// Whether a file is this one below the root.
fn is_below(source: Option<&[u8]>, file: &[u8]) -> bool {
    match source {
        Some(source) => source.len() == file.len() + 3 && source.ends_with(file),
        None => false,
    }
}

/// Whether a path that is looked up is decided so.
fn says(
    alloc: Global,
    stack: &mut Stack,
    tree: &mut MemoryWorktree,
    path: &[u8],
    mode: Mode,
    line: &[u8],
    sign: &[u8],
    file: &[u8],
) -> bool {
    let mut store = MemoryStore::new(alloc);
    match look_up_path(alloc, stack, path, Some(mode), tree, &mut store) {
        Ok(()) => {}
        Err(_) => return false,
    }
    if !stack.has_excludes() {
        return false;
    }
    let excluded = line != b"0".as_slice() && sign == b"+".as_slice();
    let kind = if excluded {
        Some(Kind::Expendable)
    } else {
        None
    };
    let platform = stack.platform();
    platform.excluded_kind() == kind && is_decided(&platform, line, sign, file)
}

fn is_as_git(alloc: Global, row: &[u8]) -> bool {
    let (line, rest) = split_at_byte(row, b';');
    let (sign, rest) = split_at_byte(rest, b';');
    let (file, rest) = split_at_byte(rest, b';');
    let (kind, rest) = split_at_byte(rest, b';');
    let (path, files) = split_at_byte(rest, b';');
    let mode = if kind == b"d".as_slice() {
        Mode::DIR
    } else {
        Mode::FILE
    };
    let mut tree = MemoryWorktree::new(alloc, false);
    match stack_of(alloc) {
        Ok(mut stack) => {
            are_put(alloc, &mut tree, files)
                && says(alloc, &mut stack, &mut tree, path, mode, line, sign, file)
        }
        Err(_) => false,
    }
}

#[test]
fn answers_of_git(rt: HostRuntime) {
    for row in NESTED.lines() {
        assert!(rt; is_as_git(rt.alloc(), row), "{row:?}");
    }
}
