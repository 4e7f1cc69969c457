//! Walks, case by case.
ghost use Rattle.std.specs.Prelude.{◌≡◌, true};
ghost use Rattle.dir_classify.specs.Excludes.{setup_of_optional_stack, is_absent_or_has_excludes};

use crate::asked::options_of;
use crate::cases::{World, lie_at_once, lie_of};
use crate::classes::{kind_word, match_word, property_word, status_word};
use crate::odd::{Looks, Odd};
use crate::refusals::is_error;
use crate::walk_cases::{DELEGATES, FOLDS, ROOTS, RULES, WALKS};
use bstr::ByteSlice;
use dir_classify::{Context, Entry, Error, Options, Status, is_absent_or_has_excludes};
use dir_walk::{Outcome, Report, Strategy, walk, walk_at_once, walk_sorted_by_path};
use gitbase_core::{Bytes, MemoryStore, PathText, State};
use glob_rules::ignore::{Origin, RuleGroup};
use glob_rules::pathspec::Search;
use std::alloc::Global;
use test_cases::{parse_saturating_decimal, split_at_byte};
use worktree_fs::{MemoryWorktree, PlannedInterrupt};
use worktree_stack::Stack;

/// Whether these are the words of what decided about excludes.
fn has_origin(origin: Option<Origin>, words: &[u8]) -> bool {
    let (group, rest) = words.split_once_str(b":").unwrap_or((words, b""));
    let (line, sign) = rest.split_once_str(b":").unwrap_or((rest, b""));
    match origin {
        None => group == b"-".as_slice(),
        Some(origin) => {
            is_group(origin.group, group)
                && origin.line as usize == parse_saturating_decimal(line)
                && origin.negative == (sign == b"!".as_slice())
        }
    }
}

/// Whether a group of rules has this word.
fn is_group(group: RuleGroup, word: &[u8]) -> bool {
    match group {
        RuleGroup::Overrides => word == b"overrides".as_slice(),
        RuleGroup::Directory { depth } => depth == parse_saturating_decimal(word),
        RuleGroup::Globals => word == b"globals".as_slice(),
    }
}

/// The word of the status of what was folded over an entry.
fn collapsed_word(status: Option<Status>) -> &'static [u8] {
    match status {
        Some(status) => status_word(status),
        None => b"-",
    }
}

/// The first word, and those behind the space.
fn spaced(words: &[u8]) -> (&[u8], &[u8]) {
    words.split_once_str(b" ").unwrap_or((words, b""))
}

/// Whether an entry has these words.
fn is_entry(found: &(Entry, Option<Status>), words: &[u8]) -> bool {
    let entry = &found.0;
    let (status, rest) = spaced(words);
    let (disk, rest) = spaced(rest);
    let (indexed, rest) = spaced(rest);
    let (matched, rest) = spaced(rest);
    let (property, rest) = spaced(rest);
    let (collapsed, rest) = spaced(rest);
    let (origin, path) = spaced(rest);
    status_word(entry.status) == status
        && kind_word(entry.disk_kind) == disk
        && kind_word(entry.index_kind) == indexed
        && match_word(entry.pathspec_match) == matched
        && property_word(entry.property) == property
        && collapsed_word(found.1) == collapsed
        && has_origin(entry.origin, origin)
        && entry.rela_path.as_bytes() == path
}

/// Whether these are the entries, in this order.
fn are(entries: &[(Entry, Option<Status>)], words: &[u8]) -> bool {
    let mut rest = words;
    for entry in entries {
        let (word, more) = split_at_byte(rest, b'`');
        if !is_entry(entry, word) {
            return false;
        }
        rest = more;
    }
    rest.is_empty()
}

/// Whether a report has these words.
fn is_report(report: &Report, words: &[u8]) -> bool {
    let (root, rest) = split_at_byte(words, b'`');
    let (read, rest) = split_at_byte(rest, b'`');
    let (seen, rest) = split_at_byte(rest, b'`');
    let outcome = &report.outcome;
    report.root.as_bytes() == root
        && outcome.read_dir_calls as usize == parse_saturating_decimal(read)
        && outcome.seen_entries as usize == parse_saturating_decimal(seen)
        && outcome.returned_entries == report.entries.as_slice().len()
        && are(report.entries.as_slice(), rest)
}

/// Whether a walk is answered so.
fn is_answer(answer: Result<Report, Error>, words: &[u8]) -> bool {
    match answer {
        Ok(report) => is_report(&report, words),
        Err(error) => is_error(&error, words),
    }
}

/// An interrupt that is raised from this question on; never for 0.
fn interrupt_at(raised: usize) -> PlannedInterrupt {
    match raised {
        0 => PlannedInterrupt::never(),
        nth => PlannedInterrupt::raised_from_nth_question(nth as u64),
    }
}

/// The report of a walk; the own git directory is `/w/.git`.
fn report_in<'a>(
    alloc: Global,
    root: &[u8],
    options: Options<'_>,
    worktree: &'a mut MemoryWorktree,
    objects: &'a mut MemoryStore,
    interrupt: &'a mut PlannedInterrupt,
    pathspec: &'a Search,
    excludes: &'a mut Option<Stack>,
    index: &'a State,
    current_dir: &'a [u8],
    explicit_traversal_root: &'a Option<Bytes>,
    depth_limit: usize,
) -> Result<Report, Error>
    requires excludes { is_absent_or_has_excludes (setup_of_optional_stack excludes.old) ≡ true }
{
    let ctx = Context {
        worktree,
        objects,
        interrupt,
        pathspec,
        excludes,
        index,
        ignore_case_index_lookup: &None,
        git_dir_realpath: b"/w/.git",
        current_dir,
        explicit_traversal_root,
        depth_limit,
    };
    walk_sorted_by_path(alloc, root, ctx, options, Strategy::Held)
}

/// The same where subtrees are walked at once.
fn report_at_once<'a>(
    alloc: Global,
    root: &[u8],
    options: Options<'_>,
    worktree: &'a mut MemoryWorktree,
    objects: &'a mut MemoryStore,
    interrupt: &'a mut PlannedInterrupt,
    pathspec: &'a Search,
    excludes: &'a mut Option<Stack>,
    index: &'a State,
    current_dir: &'a [u8],
    explicit_traversal_root: &'a Option<Bytes>,
    depth_limit: usize,
) -> Result<Report, Error>
    requires excludes { is_absent_or_has_excludes (setup_of_optional_stack excludes.old) ≡ true }
{
    let ctx = Context {
        worktree,
        objects,
        interrupt,
        pathspec,
        excludes,
        index,
        ignore_case_index_lookup: &None,
        git_dir_realpath: b"/w/.git",
        current_dir,
        explicit_traversal_root,
        depth_limit,
    };
    let (outcome, root, collect) = walk_at_once(alloc, root, ctx, options)?;
    Ok(Report {
        outcome,
        root,
        entries: collect.into_entries_by_path(alloc)?,
    })
}

/// The report of a walk, over a store that holds nothing.
fn report(alloc: Global, world: &mut World, root: &[u8]) -> Result<Report, Error> {
    if !is_absent_or_has_excludes(&world.excludes) {
        return Err(Error::OutOfMemory);
    }
    if world.asked.strategy == Strategy::AtOnce {
        return report_at_once(
            alloc,
            root,
            options_of(world.asked.options.as_bytes(), &world.asked.worktrees),
            &mut world.tree,
            &mut MemoryStore::new(alloc),
            &mut interrupt_at(world.asked.raised),
            &world.asked.specs,
            &mut world.excludes,
            &world.index,
            world.asked.current_dir.as_bytes(),
            &world.asked.root,
            world.asked.depth_limit,
        );
    }
    report_in(
        alloc,
        root,
        options_of(world.asked.options.as_bytes(), &world.asked.worktrees),
        &mut world.tree,
        &mut MemoryStore::new(alloc),
        &mut interrupt_at(world.asked.raised),
        &world.asked.specs,
        &mut world.excludes,
        &world.index,
        world.asked.current_dir.as_bytes(),
        &world.asked.root,
        world.asked.depth_limit,
    )
}

/// Whether a walk is answered as the step says.
pub fn is_walk(alloc: Global, world: &mut World, root: &[u8], want: &[u8]) -> bool {
    is_answer(report(alloc, world, root), want)
}

/// A walk that gives its entries to a delegate.
fn given_in<'a>(
    alloc: Global,
    root: &[u8],
    options: Options<'_>,
    worktree: &'a mut MemoryWorktree,
    objects: &'a mut MemoryStore,
    interrupt: &'a mut PlannedInterrupt,
    pathspec: &'a Search,
    excludes: &'a mut Option<Stack>,
    index: &'a State,
    explicit_traversal_root: &'a Option<Bytes>,
    delegate: &mut Odd,
) -> Result<(Outcome, PathText), Error>
    requires excludes { is_absent_or_has_excludes (setup_of_optional_stack excludes.old) ≡ true }
{
    let ctx = Context {
        worktree,
        objects,
        interrupt,
        pathspec,
        excludes,
        index,
        ignore_case_index_lookup: &None,
        git_dir_realpath: b"/w/.git",
        current_dir: b"/w",
        explicit_traversal_root,
        depth_limit: 9,
    };
    walk(alloc, root, ctx, options, delegate)
}

/// What a walk answers that gives its entries to a delegate, over a store that holds nothing.
fn given(
    alloc: Global,
    world: &mut World,
    root: &[u8],
    delegate: &mut Odd,
) -> Result<(Outcome, PathText), Error> {
    if !is_absent_or_has_excludes(&world.excludes) {
        return Err(Error::OutOfMemory);
    }
    given_in(
        alloc,
        root,
        options_of(world.asked.options.as_bytes(), &world.asked.worktrees),
        &mut world.tree,
        &mut MemoryStore::new(alloc),
        &mut PlannedInterrupt::never(),
        &world.asked.specs,
        &mut world.excludes,
        &world.index,
        &world.asked.root,
        delegate,
    )
}

/// The report of a walk that was given to a delegate.
fn report_of(
    alloc: Global,
    world: &mut World,
    root: &[u8],
    delegate: Odd,
) -> Result<Report, Error> {
    let mut delegate = delegate;
    let (outcome, root) = given(alloc, world, root, &mut delegate)?;
    Ok(Report {
        outcome,
        root,
        entries: delegate.kept.into_entries_by_path(alloc)?,
    })
}

/// The entry at which Break is answered.
fn last_of(word: &[u8]) -> usize {
    match word.split_once_str(b" ") {
        Some((_, last)) => parse_saturating_decimal(last),
        None => 0,
    }
}

/// The delegate of a word.
fn delegate_of(alloc: Global, word: &[u8]) -> Odd {
    match word {
        b"always" => Odd::new(alloc, Some(Looks::Always), 0),
        b"never" => Odd::new(alloc, Some(Looks::Never), 0),
        b"in turn" => Odd::new(alloc, Some(Looks::InTurn), 0),
        b"only d" => Odd::new(alloc, Some(Looks::Only(b"d")), 0),
        _ => Odd::new(alloc, None, last_of(word)),
    }
}

/// Whether a walk that is given to a delegate is answered as the step says.
pub fn is_given(alloc: Global, world: &mut World, delegate: &[u8], rest: &[u8]) -> bool {
    let (root, want) = split_at_byte(rest, b'`');
    let delegate = delegate_of(alloc, delegate);
    is_answer(report_of(alloc, world, root, delegate), want)
}

#[test]
fn walks(rt: HostRuntime) {
    for case in WALKS.split_str(b"\n@ ") {
        assert_eq!(rt; lie_of(rt.alloc(), case), None, "{case:?}");
    }
}

#[test]
fn folds(rt: HostRuntime) {
    for case in FOLDS.split_str(b"\n@ ") {
        assert_eq!(rt; lie_of(rt.alloc(), case), None, "{case:?}");
    }
}

/// The first case that does not hold where subtrees are walked at once.
fn lie_among(alloc: Global, cases: &[u8]) -> Option<&[u8]> {
    for case in cases.split_str(b"\n@ ") {
        if lie_at_once(alloc, case).is_some() {
            return Some(case);
        }
    }
    None
}

#[test]
fn walks_at_once(rt: HostRuntime) {
    for cases in [WALKS, FOLDS, ROOTS] {
        assert_eq!(rt; lie_among(rt.alloc(), cases), None);
    }
}

#[test]
fn traversal_roots(rt: HostRuntime) {
    for case in ROOTS.split_str(b"\n@ ") {
        assert_eq!(rt; lie_of(rt.alloc(), case), None, "{case:?}");
    }
}

#[test]
fn rules(rt: HostRuntime) {
    for case in RULES.split_str(b"\n@ ") {
        assert_eq!(rt; lie_of(rt.alloc(), case), None, "{case:?}");
    }
}

#[test]
fn delegates(rt: HostRuntime) {
    for case in DELEGATES.split_str(b"\n@ ") {
        assert_eq!(rt; lie_of(rt.alloc(), case), None, "{case:?}");
    }
}
