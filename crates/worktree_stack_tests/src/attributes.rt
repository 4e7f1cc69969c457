//! Cases of attributes in a work tree.
ghost use Rattle.std.specs.Prelude.{◌≡◌, true};
ghost use Rattle.worktree_stack.specs.Setup.{has_attributes};
ghost use Rattle.worktree_stack.specs.Stacked.{setup_of_stack};

use crate::lookups::look_up_path;
use crate::mapped::{LEFT_OUT, index_of};
use crate::steps::{Scene, first_lie, ignore_of};
use bstr::ByteSlice;
use gitbase_core::{Bytes, MemoryStore, OutOfMemory, PathText, State as Index};
use glob_rules::Case;
use glob_rules::attributes::{Assignment, MetadataCollection, Outcome, Search};
use std::alloc::Global;
use test_cases::{split_at_byte, split_at_mark};
use worktree_fs::MemoryWorktree;
use worktree_stack::attributes_source::Source;
use worktree_stack::{Attributes, Platform, Stack, State};

/// Cases, each behind an `@`, with `a` for a state of attributes alone or `b` for one with
/// ignore rules too; with the source of attributes, `m` for mappings alone, `i` for mappings first,
/// `w` for the worktree first; with the path of the information file, if there is one; and with the
/// lines of the caller. `a/.gitattributes` is mapped to the blob 1 where the source has an `x`
/// behind it. `has` has a path, an attribute and its state, `-` where nothing is said.
const CASES: &[u8] = b"\
@ the nearest file comes first`a`w```
  file`/w/.gitattributes`*.c text diff=c\n
  file`/w/d/.gitattributes`x.c -text\n
  has`d/x.c`text`unset
  has`d/x.c`diff`c
  has`x.c`text`set
  tried attributes`2
  files of attributes`2
@ the later word stands`a`w``*.c text !text
  directory`/w
  has`x.c`text`!
@ a macro of git`a`w``*.bin binary
  directory`/w
  has`x.bin`binary`set
  has`x.bin`diff`unset
  has`x.bin`merge`unset
  has`x.bin`text`unset
@ a macro is defined at the root alone`a`w``
  file`/w/.gitattributes`[attr]m a\n
  file`/w/d/.gitattributes`[attr]m b\n* m\n
  has`d/f`m`set
  has`d/f`a`set
  has`d/f`b`-
@ the information file comes above that of the root`a`w`/i`* a=0
  file`/w/.gitattributes`* a=1 b=1\n
  file`/i`* a=2\n
  file`/w/d/.gitattributes`* a=3\n
  has`f`a`2
  has`f`b`1
  has`d/f`a`3
  has`f`a`2
  tried attributes`3
  files of attributes`3
@ an information file that fails is read at the next lookup`a`m`/i`
  directory`/w
  file`/i`f a\n
  fail
  fault`f`/i
  tried attributes`0
  has`f`a`set
  tried attributes`1
  files of attributes`1
@ an information file is followed`a`m`/i`
  directory`/w
  link`/i`j
  file`/j`f a\n
  has`f`a`set
@ an information file is missing`a`w`/i`
  file`/w/.gitattributes`f a\n
  has`f`a`set
  tried attributes`2
  files of attributes`1
@ a link is not followed`a`w``
  link`/w/.gitattributes`x
  file`/w/x`f a\n
  not followed`f`/w/.gitattributes
@ ignore rules that are refused leave no list`b`w`/i`
  file`/w/.gitattributes`f a\n
  file`/i`f b\n
  other`/w/.gitignore
  special`f`/w/.gitignore
  tried attributes`2
  tried_pattern_files`0
@ attributes come before ignore rules`b`w``
  other`/w/.gitattributes
  other`/w/.gitignore
  special`f`/w/.gitattributes
@ both kinds of rules`b`w``
  file`/w/.gitattributes`f a\n
  file`/w/.gitignore`f\n
  has`f`a`set
  hit`f`f`1`0`/w/.gitignore
@ a mapped file comes first`a`ix``
  blob`1`* a=1\n
  file`/w/a/.gitattributes`* a=2\n
  file`/w/.gitattributes`* b\n
  has`a/f`a`1
  has`a/f`b`set
  blobs of attributes`1
  tried attributes`1
@ a file of the worktree comes first`a`wx``
  blob`1`* a=1\n
  file`/w/a/.gitattributes`* a=2\n
  has`a/f`a`2
  blobs of attributes`0
@ a blob where the worktree has no file`a`wx``
  blob`1`* a=1\n
  directory`/w/a
  has`a/f`a`1
  blobs of attributes`1
@ from mappings alone`a`mx``
  blob`1`* a=1\n
  file`/w/.gitattributes`* a=2\n
  has`a/f`a`1
  has`f`a`-
  tried attributes`0
@ a blob that is missing`a`mx``
  directory`/w
  missing`a/f`1
@ a selection`a`w``
  file`/w/.gitattributes`f a b\n
  selected`f`b`set
  selected`f`c`-
@ a fresh stack reads again`a`w`/i`
  file`/w/.gitattributes`f a\n
  file`/i`f b\n
  has`f`b`set
  fresh
  tried attributes`0
  has`f`b`set
  tried attributes`2";

/// Whether what was found reads so; `-` says that nothing was found, `!` that it is unspecified.
fn is_state(found: Option<&Assignment>, want: &[u8]) -> bool {
    match found {
        Some(Assignment::Set) => want == b"set".as_slice(),
        Some(Assignment::Unset) => want == b"unset".as_slice(),
        Some(Assignment::Value(value)) => value.as_bytes() == want,
        Some(Assignment::Unspecified) => want == b"!".as_slice(),
        None => want == b"-".as_slice(),
    }
}

/// Whether an attribute of the path of a platform reads so, and the platform says that one was
/// found where this one was.
fn is_found(
    alloc: Global,
    platform: &Platform<'_>,
    out: &mut Outcome,
    name: &[u8],
    want: &[u8],
) -> bool
    requires { has_attributes (setup_of_stack platform.now) ≡ true }
{
    match platform.matching_attributes(alloc, out) {
        Ok(finds) => is_state(out.found_state_of_name(name), want)
            && (finds || want == b"-".as_slice()),
        Err(_) => false,
    }
}

/// Whether an attribute of a path that is looked up reads so, where all are asked for.
pub fn has(alloc: Global, scene: &mut Scene<'_>, path: &[u8], name: &[u8], want: &[u8]) -> bool {
    match look_up_path(alloc, scene.stack, path, None, scene.tree, scene.store) {
        Ok(()) => {}
        Err(_) => return false,
    }
    if !scene.stack.has_attributes() {
        return false;
    }
    match scene.stack.attribute_matches(alloc) {
        Ok(mut out) => is_found(alloc, &scene.stack.platform(), &mut out, name, want),
        Err(_) => false,
    }
}

/// A list of one name.
fn names_of(alloc: Global, name: &[u8]) -> Result<Vec<Bytes>, OutOfMemory> {
    let mut names = Vec::new(alloc);
    names.push(Bytes::from_slice(alloc, name)?)?;
    Ok(names)
}

/// Whether an attribute of a path that is looked up reads so, where it alone is asked for.
pub fn has_selected(
    alloc: Global,
    scene: &mut Scene<'_>,
    path: &[u8],
    name: &[u8],
    want: &[u8],
) -> bool {
    match look_up_path(alloc, scene.stack, path, None, scene.tree, scene.store) {
        Ok(()) => {}
        Err(_) => return false,
    }
    if !scene.stack.has_attributes() {
        return false;
    }
    let Ok(names) = names_of(alloc, name) else {
        return false;
    };
    match scene.stack.selected_attribute_matches(alloc, &names) {
        Ok(mut out) => is_found(alloc, &scene.stack.platform(), &mut out, name, want),
        Err(_) => false,
    }
}

/// The source that a letter stands for.
fn source_of(letter: &[u8]) -> Source {
    match letter.first() {
        Some(b'i') => Source::IdMappingThenWorktree,
        Some(b'w') => Source::WorktreeThenIdMapping,
        _ => Source::WorktreeThenIdMapping.adjust_for_bare(true),
    }
}

/// What git knows without a file, and above that lines of a caller.
fn globals_of(
    alloc: Global,
    collection: &mut MetadataCollection,
    lines: &[u8],
) -> Result<Search, OutOfMemory> {
    let mut globals = Search::new_with_builtin_binary_macro(alloc, collection)?;
    let source = PathText::from_bytes(alloc, b"/globals")?;
    globals.add_patterns_buffer(alloc, lines, source, PathText::new(alloc), collection, true)?;
    Ok(globals)
}

/// The path of an information file, if there is one.
fn info_of(alloc: Global, path: &[u8]) -> Result<Option<PathText>, OutOfMemory> {
    if path.is_empty() {
        return Ok(None);
    }
    Ok(Some(PathText::from_bytes(alloc, path)?))
}

fn attributes_of(
    alloc: Global,
    source: &[u8],
    info: &[u8],
    lines: &[u8],
) -> Result<Attributes, OutOfMemory> {
    let mut collection = MetadataCollection::new(alloc);
    let globals = globals_of(alloc, &mut collection, lines)?;
    let info = info_of(alloc, info)?;
    Ok(Attributes::new(alloc, globals, info, source_of(source), collection))
}

/// A state of attributes, with ignore rules too or without.
fn state_of(alloc: Global, kind: &[u8], attributes: Attributes) -> Result<State, OutOfMemory> {
    if kind == b"b".as_slice() {
        return Ok(State::for_add(attributes, ignore_of(alloc, b"", b"")?));
    }
    Ok(State::AttributesStack(attributes))
}

fn stack_with(alloc: Global, state: State, index: &Index) -> Result<Stack, OutOfMemory> {
    let root = PathText::from_bytes(alloc, b"/w")?;
    Stack::from_state_and_ignore_case(alloc, root, false, state, index)
}

/// A stack below `/w` with such a state.
fn stack_of(
    alloc: Global,
    kind: &[u8],
    source: &[u8],
    info: &[u8],
    lines: &[u8],
    index: &Index,
) -> Result<Stack, OutOfMemory> {
    let attributes = attributes_of(alloc, source, info, lines)?;
    let state = state_of(alloc, kind, attributes)?;
    stack_with(alloc, state, index)
}

/// The entries of an index of which the blob 1 is mapped, or none is.
fn rows_of(source: &[u8]) -> &'static [u8] {
    if source.ends_with(b"x") {
        return b"f-1a/.gitattributes";
    }
    b"f-9z"
}

fn case_lie(alloc: Global, case: &[u8]) -> Option<&[u8]> {
    let (head, steps) = split_at_mark(case, b"\n  ");
    let (_, rest) = split_at_byte(head, b'`');
    let (kind, rest) = split_at_byte(rest, b'`');
    let (source, rest) = split_at_byte(rest, b'`');
    let (info, lines) = split_at_byte(rest, b'`');
    let Some(index) = index_of(alloc, rows_of(source)) else {
        return Some(case);
    };
    match stack_of(alloc, kind, source, info, lines, &index) {
        Ok(mut stack) => {
            let mut tree = MemoryWorktree::new(alloc, false);
            let mut store = MemoryStore::new(alloc);
            let mut scene = Scene {
                stack: &mut stack,
                tree: &mut tree,
                store: &mut store,
            };
            first_lie(alloc, &mut scene, steps)
        }
        Err(_) => Some(case),
    }
}

#[test]
fn cases(rt: HostRuntime) {
    for case in CASES.split_str(b"\n@ ") {
        assert_eq!(rt; case_lie(rt.alloc(), case), None, "{case:?}");
    }
}

/// How many files an index maps for a state of attributes.
fn mapped_count(alloc: Global, rows: &[u8]) -> Option<usize> {
    let Some(index) = index_of(alloc, rows) else {
        return None;
    };
    match attributes_of(alloc, b"m", b"", b"") {
        Ok(attributes) => match State::AttributesStack(attributes).id_mappings_from_index(
            alloc,
            &index,
            Case::Sensitive,
        ) {
            Ok(mappings) => Some(mappings.as_slice().len()),
            Err(_) => None,
        },
        Err(_) => None,
    }
}

#[test]
fn mappings(rt: HostRuntime) {
    assert_eq!(rt; mapped_count(rt.alloc(), LEFT_OUT), Some(0));
    assert_eq!(rt;
        mapped_count(rt.alloc(), b"f-3a/.gitattributes;f-1a/.gitignore"),
        Some(1)
    );
    assert!(rt; matches!(Source::default(), Source::IdMapping));
}
