//! Cases: scripts of steps that make a worktree, its index and its rules, and that say what must be
//! answered of them.
//!
//! A case begins with an `@` and its name, its global rules (`-`: no rules at all) and, where they
//! are so, `strict` for strict parents. Each step stands on a line of its own behind two blanks,
//! its words parted by backquotes.
use crate::asked::{Asked, is_asked};
use crate::classes::{is_class, is_root, is_upgraded};
use crate::walks::{is_given, is_walk};
use bstr::ByteSlice;
use dir_walk::Strategy;
use gitbase_core::{Bytes, Flags, IndexEntry, Mode, ObjectId, OutOfMemory, PathText, State};
use glob_rules::Case;
use glob_rules::ignore::{List, ParseIgnore, Search};
use std::alloc::Global;
use test_cases::{
    parse_saturating_decimal, split_at_byte, split_at_mark, try_add_git_directory,
    try_add_node_of_kind,
};
use worktree_fs::{CallKind, MemoryWorktree};
use worktree_stack::ignore_source::Source;
use worktree_stack::{Ignore, Stack};

/// What a case is about.
#[derive(Drop)]
pub struct World {
    pub tree: MemoryWorktree,
    pub index: State,
    pub excludes: Option<Stack>,
    pub asked: Asked,
}

const PRECIOUS: ParseIgnore = ParseIgnore {
    support_precious: true,
};

/// A search over one list of rules that is for all paths.
fn search_of(alloc: Global, rules: &[u8]) -> Result<Search, OutOfMemory> {
    let list = List::from_bytes(alloc, rules, None, PathText::new(alloc), PRECIOUS)?;
    let mut search = Search::new(alloc);
    search.push_list(alloc, list)?;
    Ok(search)
}

/// The rules below `/w` of these globals and of the `.gitignore` in each directory.
fn stack_of(alloc: Global, globals: &[u8], strict: bool) -> Result<Stack, OutOfMemory> {
    let globals = search_of(alloc, globals)?;
    let source = Source::default();
    let ignore = Ignore::new(
        alloc,
        Search::new(alloc),
        globals,
        None,
        source,
        PRECIOUS,
    )?.with_strict_parents(strict);
    Ok(Stack::new(
        alloc,
        PathText::from_bytes(alloc, b"/w")?,
        worktree_stack::State::IgnoreStack(ignore),
        Case::Sensitive,
        Bytes::new(alloc),
        Vec::new(alloc),
    ))
}

/// Whether the call with this number was planned to fail.
fn is_planned(alloc: Global, tree: &mut MemoryWorktree, call: &[u8], nth: u64) -> bool {
    let call = match call {
        b"kind" => CallKind::Kind,
        b"kind following" => CallKind::KindFollowing,
        b"read" => CallKind::Read,
        b"list open" => CallKind::ListOpen,
        b"list entry" => CallKind::ListEntry,
        b"real path" => CallKind::RealPath,
        _ => return false,
    };
    tree.plan_fault_of_nth_call(alloc, call, nth).is_ok()
}

/// The entry of a path at stage 0.
fn entry(alloc: Global, path: &[u8], mode: Mode, flags: Flags) -> Result<IndexEntry, OutOfMemory> {
    Ok(IndexEntry {
        path: PathText::from_bytes(alloc, path)?,
        stage: 0,
        mode,
        flags,
        id: ObjectId::null(),
    })
}

fn mode_of(word: &[u8]) -> Mode {
    match word {
        b"link" => Mode::SYMLINK,
        b"commit" => Mode::COMMIT,
        b"tree" => Mode::DIR,
        _ => Mode::FILE,
    }
}

fn flags_of(word: &[u8]) -> Flags {
    match word {
        b"valid" => Flags::ASSUME_VALID,
        b"skipped" => Flags::SKIP_WORKTREE,
        b"up to date" => Flags::UPTODATE,
        _ => Flags::empty(),
    }
}

/// Whether an entry was put behind those of the index.
fn is_indexed(alloc: Global, index: &mut State, path: &[u8], mode: &[u8], flags: &[u8]) -> bool {
    match entry(alloc, path, mode_of(mode), flags_of(flags)) {
        Ok(entry) => index.error_if_entry_were_pushed(&entry).is_none()
            && index.push(alloc, entry).is_ok(),
        Err(_) => false,
    }
}

/// How often the rules were asked about a path, as they count it.
fn times_asked(excludes: &Option<Stack>) -> usize {
    match excludes {
        Some(stack) => stack.statistics().platforms,
        None => 0,
    }
}

/// Whether a step holds.
fn holds(alloc: Global, world: &mut World, step: &[u8]) -> bool {
    let (what, rest) = split_at_byte(step, b'`');
    let (one, two) = split_at_byte(rest, b'`');
    match what {
        b"class" => is_class(alloc, world, one, two),
        b"root" => is_root(alloc, world, one, two),
        b"walk" => is_walk(alloc, world, one, two),
        b"give" => is_given(alloc, world, one, two),
        b"ask" => is_asked(alloc, &mut world.asked, one, two),
        b"upgrade" => is_upgraded(alloc, &mut world.tree, one, two),
        b"git" => try_add_git_directory(alloc, &mut world.tree, one, b"main"),
        b"index" => {
            let (mode, flags) = split_at_byte(two, b'`');
            is_indexed(alloc, &mut world.index, one, mode, flags)
        }
        b"fail" => is_planned(
            alloc,
            &mut world.tree,
            one,
            parse_saturating_decimal(two) as u64,
        ),
        b"rules asked" => times_asked(&world.excludes) == parse_saturating_decimal(one),
        b"faults" => world.tree.fault_count() == parse_saturating_decimal(one) as u64,
        b"reversed" => {
            world.tree.set_listing_reversed(true);
            true
        }
        _ => try_add_node_of_kind(alloc, &mut world.tree, what, one, two),
    }
}

/// The first step that does not hold.
fn first_lie<'a>(alloc: Global, world: &mut World, steps: &'a [u8]) -> Option<&'a [u8]> {
    for step in steps.split_str(b"\n  ") {
        if !holds(alloc, world, step) {
            return Some(step);
        }
    }
    None
}

/// The first step of a case that does not hold; the case itself where its rules could not be made.
pub fn lie_of(alloc: Global, case: &[u8]) -> Option<&[u8]> {
    lie_in(alloc, case, Strategy::Held)
}

/// The same where subtrees are walked at once.
pub fn lie_at_once(alloc: Global, case: &[u8]) -> Option<&[u8]> {
    lie_in(alloc, case, Strategy::AtOnce)
}

/// The same, as a strategy says.
fn lie_in(alloc: Global, case: &[u8], strategy: Strategy) -> Option<&[u8]> {
    let (head, steps) = split_at_mark(case, b"\n  ");
    let (_, rules) = split_at_byte(head, b'`');
    let (globals, strict) = split_at_byte(rules, b'`');
    let stack = match globals {
        b"-" => None,
        _ => match stack_of(alloc, globals, strict == b"strict".as_slice()) {
            Ok(stack) => Some(stack),
            Err(_) => return Some(case),
        },
    };
    let mut world = World {
        tree: MemoryWorktree::new(alloc, false),
        index: State::new(alloc),
        excludes: stack,
        asked: Asked::plainly(alloc),
    };
    world.asked.strategy = strategy;
    first_lie(alloc, &mut world, steps)
}
