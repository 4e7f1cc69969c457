//! The steps of a case: what is put into a tree or a store, and what a stack is to say of a path.
//!
//! A step is a word and what it speaks of, parted by backquotes. Each says whether it went as it is
//! written.
ghost use Rattle.std.specs.Prelude.{◌≡◌, true};
ghost use Rattle.worktree_stack.specs.Setup.{has_excludes};
ghost use Rattle.worktree_stack.specs.Stacked.{setup_of_stack};

use crate::attributes;
use crate::lookups::{look_up_entry, look_up_path};
use bstr::ByteSlice;
use gitbase_core::{MemoryStore, Mode, ObjectId, OutOfMemory, PathText};
use glob_rules::Case;
use glob_rules::ignore::{Kind, List, Origin, ParseIgnore, RuleGroup, Search};
use std::alloc::Global;
use test_cases::split_at_byte;
use worktree_fs::{CallKind, MemoryWorktree};
use worktree_stack::ignore_source::Source;
use worktree_stack::{AtPathError, BlobWhy, Ignore, Platform, RulesWhy, Stack, State, Statistics};

/// Where a case takes place.
#[derive(Drop)]
pub struct Scene<'a> {
    pub stack: &'a mut Stack,
    pub tree: &'a mut MemoryWorktree,
    pub store: &'a mut MemoryStore,
}

pub fn parse() -> ParseIgnore {
    ParseIgnore {
        support_precious: false,
    }
}

/// A search over one list of rules that is for all paths, and was read in this file.
fn search_of(alloc: Global, rules: &[u8], file: &[u8]) -> Result<Search, OutOfMemory> {
    let source = PathText::from_bytes(alloc, file)?;
    let list = List::from_bytes(alloc, rules, Some(source), PathText::new(alloc), parse())?;
    let mut search = Search::new(alloc);
    search.push_list(alloc, list)?;
    Ok(search)
}

/// Ignore rules of these overrides and globals.
pub fn ignore_of(alloc: Global, overrides: &[u8], globals: &[u8]) -> Result<Ignore, OutOfMemory> {
    let overrides = search_of(alloc, overrides, b"/overrides")?;
    let globals = search_of(alloc, globals, b"/globals")?;
    Ignore::new(alloc, overrides, globals, None, Source::default(), parse())
}

/// An id of this digit alone.
pub fn id_of(digit: &[u8]) -> ObjectId {
    match digit.first() {
        Some(digit) => ObjectId::from_bytes([*digit; 20]),
        None => ObjectId::null(),
    }
}

/// Whether a digit is this number's.
pub fn is_digit(number: usize, text: &[u8]) -> bool {
    number < 10 && text == [b'0' + number as u8].as_slice()
}

/// Whether a group is written so: `o` for overrides, `g` for globals, and the depth of a directory.
fn is_group(group: RuleGroup, text: &[u8]) -> bool {
    match group {
        RuleGroup::Overrides => text == b"o".as_slice(),
        RuleGroup::Globals => text == b"g".as_slice(),
        RuleGroup::Directory { depth } => is_digit(depth, text),
    }
}

/// Whether an origin is that of a line and a group.
fn is_origin(origin: Option<Origin>, line: &[u8], group: &[u8]) -> bool {
    match origin {
        Some(origin) => is_digit(origin.line as usize, line) && is_group(origin.group, group),
        None => line == b"0".as_slice(),
    }
}

/// Whether a rule with this text, of this file, decides.
fn is_rule(platform: &Platform<'_>, text: &[u8], source: &[u8]) -> bool
    requires { has_excludes (setup_of_stack platform.now) ≡ true }
{
    match platform.matching_exclude_pattern() {
        Some(found) => found.pattern.text() == text && found.source == Some(source),
        None => text.is_empty(),
    }
}

/// Whether a path is decided so: by the rule `text` of the file `source`, in this line of this
/// group, and with this kind.
pub fn is_decided(
    platform: &Platform<'_>,
    kind: Option<Kind>,
    text: &[u8],
    line: &[u8],
    group: &[u8],
    source: &[u8],
) -> bool
    requires { has_excludes (setup_of_stack platform.now) ≡ true }
{
    platform.excluded_kind() == kind
        && platform.is_excluded() == kind.is_some()
        && is_origin(platform.matching_origin(), line, group)
        && is_rule(platform, text, source)
}

/// Whether a path that is looked up is decided so.
fn says(
    alloc: Global,
    scene: &mut Scene<'_>,
    kind: Option<Kind>,
    path: &[u8],
    want: &[u8],
) -> bool {
    match look_up_path(alloc, scene.stack, path, None, scene.tree, scene.store) {
        Ok(()) => {}
        Err(_) => return false,
    }
    if !scene.stack.has_excludes() {
        return false;
    }
    let (text, rest) = split_at_byte(want, b'`');
    let (line, rest) = split_at_byte(rest, b'`');
    let (group, source) = split_at_byte(rest, b'`');
    is_decided(&scene.stack.platform(), kind, text, line, group, source)
}

/// Whether an entry of an index that is looked up is excluded, or is not.
fn says_of_entry(
    alloc: Global,
    scene: &mut Scene<'_>,
    path: &[u8],
    mode: Option<Mode>,
    is_excluded: bool,
) -> bool {
    match look_up_entry(alloc, scene.stack, path, mode, scene.tree, scene.store) {
        Ok(()) => {}
        Err(_) => return false,
    }
    if !scene.stack.has_excludes() {
        return false;
    }
    scene.stack.platform().is_excluded() == is_excluded
}

/// Whether the whole path of one that is looked up is this, and is shown in quotes.
fn is_shown(alloc: Global, scene: &mut Scene<'_>, path: &[u8], whole: &[u8], shown: &[u8]) -> bool {
    match look_up_path(alloc, scene.stack, path, None, scene.tree, scene.store) {
        Ok(()) => {}
        Err(_) => return false,
    }
    let platform = scene.stack.platform();
    match format!(in alloc; "{:?}", platform) {
        Ok(text) => text.as_bytes() == shown && platform.path() == whole,
        Err(_) => false,
    }
}

/// Whether the lookup of a path is refused for this reason, with this file.
fn is_file_refused(
    alloc: Global,
    scene: &mut Scene<'_>,
    path: &[u8],
    file: &[u8],
    reason: RulesWhy,
) -> bool {
    match &look_up_path(alloc, scene.stack, path, None, scene.tree, scene.store) {
        Err(AtPathError::RulesFile { path, why }) => path.as_bytes() == file && *why == reason,
        _ => false,
    }
}

/// Whether the lookup of a path is refused for this reason, with this blob.
fn is_blob_refused(
    alloc: Global,
    scene: &mut Scene<'_>,
    path: &[u8],
    digit: &[u8],
    reason: BlobWhy,
) -> bool {
    match &look_up_path(alloc, scene.stack, path, None, scene.tree, scene.store) {
        Err(AtPathError::Blob { id, why }) => *id == id_of(digit) && *why == reason,
        _ => false,
    }
}

fn is_not_normal(alloc: Global, scene: &mut Scene<'_>, path: &[u8]) -> bool {
    matches!(
        &look_up_path(alloc, scene.stack, path, None, scene.tree, scene.store),
        Err(AtPathError::NotNormal)
    )
}

/// Whether a count has this name and is this digit's.
fn has_count(counts: &Statistics, name: &[u8], want: &[u8]) -> bool {
    let named: [(&[u8], usize); 10] = [
        (b"platforms", counts.platforms),
        (b"push_element", counts.delegate.push_element),
        (b"push_directory", counts.delegate.push_directory),
        (b"pop_directory", counts.delegate.pop_directory),
        (b"tried_pattern_files", counts.ignore.tried_pattern_files),
        (b"pattern_files", counts.ignore.pattern_files),
        (b"patterns_buffers", counts.ignore.patterns_buffers),
        (b"tried attributes", counts.attributes.tried_pattern_files),
        (b"files of attributes", counts.attributes.pattern_files),
        (b"blobs of attributes", counts.attributes.patterns_buffers),
    ];
    for (each, count) in named {
        if each == name {
            return is_digit(count, want);
        }
    }
    false
}

/// Puts rules of these globals alone into the state of a stack, with strict parents or without.
fn is_changed(alloc: Global, stack: &mut Stack, globals: &[u8], strict: bool) -> bool {
    stack.enable_terminal_symlink_check();
    match ignore_of(alloc, b"", globals) {
        Ok(ignore) => {
            *stack.state_mut() = State::IgnoreStack(ignore.with_strict_parents(strict));
            matches!(stack.state(), State::IgnoreStack(_))
        }
        Err(_) => false,
    }
}

/// Goes on with a stack that is made as this one was.
fn is_fresh(alloc: Global, stack: &mut Stack) -> bool {
    match stack.fresh(alloc) {
        Ok(fresh) => {
            *stack = fresh;
            true
        }
        Err(_) => false,
    }
}

/// Whether a step that puts something into the tree or the store was taken.
fn is_put(alloc: Global, scene: &mut Scene<'_>, what: &[u8], path: &[u8], text: &[u8]) -> bool {
    match what {
        b"fail" => scene
            .tree
            .plan_fault_of_nth_call(alloc, CallKind::Read, 1)
            .is_ok(),
        b"blob" => scene.store.insert(alloc, id_of(path), text).is_ok(),
        b"other object" => scene.store.insert_other(alloc, id_of(path)).is_ok(),
        _ => test_cases::try_add_node_of_kind(alloc, scene.tree, what, path, text),
    }
}

/// Whether a step that changes the stack was taken, or one about its counts holds.
fn is_set(alloc: Global, stack: &mut Stack, what: &[u8], one: &[u8]) -> bool {
    match what {
        b"globals" => is_changed(alloc, stack, one, false),
        b"strict" => is_changed(alloc, stack, one, true),
        b"fresh" => is_fresh(alloc, stack),
        b"base" => stack.base() == one && !stack.has_attributes(),
        b"fold" => {
            stack.set_case(Case::Fold);
            true
        }
        b"take" => {
            stack.take_statistics();
            true
        }
        _ => has_count(stack.statistics(), what, one),
    }
}

/// Whether a step about a refused lookup holds.
fn is_refused(alloc: Global, scene: &mut Scene<'_>, what: &[u8], one: &[u8], two: &[u8]) -> bool {
    match what {
        b"not normal" => is_not_normal(alloc, scene, one),
        b"not followed" => is_file_refused(alloc, scene, one, two, RulesWhy::Link),
        b"link limit" => is_file_refused(alloc, scene, one, two, RulesWhy::LinkLimit),
        b"special" => is_file_refused(alloc, scene, one, two, RulesWhy::Special),
        b"fault" => is_file_refused(alloc, scene, one, two, RulesWhy::Fault),
        b"missing" => is_blob_refused(alloc, scene, one, two, BlobWhy::Missing),
        b"no blob" => is_blob_refused(alloc, scene, one, two, BlobWhy::NotABlob),
        _ => false,
    }
}

fn holds(alloc: Global, scene: &mut Scene<'_>, step: &[u8]) -> bool {
    let (what, rest) = split_at_byte(step, b'`');
    let (one, rest) = split_at_byte(rest, b'`');
    let (two, three) = split_at_byte(rest, b'`');
    match what {
        b"file" | b"link" | b"other" | b"directory" | b"fail" | b"blob" | b"other object" => is_put(
            alloc, scene, what, one, two,
        ),
        b"not normal"
        | b"not followed"
        | b"link limit"
        | b"special"
        | b"fault"
        | b"missing"
        | b"no blob" => is_refused(alloc, scene, what, one, two),
        b"hit" => says(alloc, scene, Some(Kind::Expendable), one, rest),
        b"precious" => says(alloc, scene, Some(Kind::Precious), one, rest),
        b"miss" => says(alloc, scene, None, one, rest),
        b"entry" => says_of_entry(alloc, scene, one, None, true),
        b"entry of a file" => says_of_entry(alloc, scene, one, Some(Mode::FILE), false),
        b"entry of a submodule" => says_of_entry(alloc, scene, one, Some(Mode::COMMIT), true),
        b"shown" => is_shown(alloc, scene, one, two, three),
        b"has" => attributes::has(alloc, scene, one, two, three),
        b"selected" => attributes::has_selected(alloc, scene, one, two, three),
        _ => is_set(alloc, scene.stack, what, one),
    }
}

/// The first step that does not hold.
pub fn first_lie<'a>(alloc: Global, scene: &mut Scene<'_>, steps: &'a [u8]) -> Option<&'a [u8]> {
    for step in steps.split_str(b"\n  ") {
        if !holds(alloc, scene, step) {
            return Some(step);
        }
    }
    None
}
