//! Cases of rules in a work tree.
use crate::steps::{Scene, first_lie, ignore_of, parse};
use bstr::ByteSlice;
use gitbase_core::{Bytes, MemoryStore, OutOfMemory, PathText};
use glob_rules::Case;
use glob_rules::ignore::{ParseIgnore, Search};
use std::alloc::Global;
use test_cases::{split_at_byte, split_at_mark};
use worktree_fs::MemoryWorktree;
use worktree_stack::ignore_source::Source;
use worktree_stack::{Ignore, Stack, State};

/// Cases, each behind an `@`, with its overrides and globals; its steps stand on lines of their
/// own. `hit` and `miss` have a path, and the rule that decides: its text, line, group and file.
const CASES: &[u8] = b"\
@ an excluded directory of the globals``/a/
  directory`/w
  hit`a/f`a`1`g`/globals
  shown`a/f`/w/a/f`\"/w/a/f\"
@ a rule of the overrides`b`!b
  directory`/w
  hit`b`b`1`o`/overrides
@ a negative match of the nearest directory``
  directory`/w
  file`/w/.gitignore`build/\n
  file`/w/build/.gitignore`!sub/\n
  miss`build/sub/x`sub`1`1`/w/build/.gitignore
@ strict parents``
  directory`/w
  file`/w/.gitignore`build/\n
  file`/w/build/.gitignore`!sub/\n
  strict`
  hit`build/sub/x`build`1`0`/w/.gitignore
  hit`build/y`build`1`0`/w/.gitignore
  miss`x``0``
@ a rule, a line and a sign``
  directory`/w
  file`/w/.gitignore`*.o\n!k.o\n
  hit`a.o`*.o`1`0`/w/.gitignore
  miss`k.o`k.o`2`0`/w/.gitignore
  miss`.gitignore``0``
@ a sibling is not asked any more``
  directory`/w
  file`/w/a/b/.gitignore`*\n
  hit`a/b/c`*`1`2`/w/a/b/.gitignore
  miss`a/b``0``
@ a path that is not normal is counted``
  directory`/w
  not normal`../x
  platforms`1
  push_directory`0
@ a path that is not normal leaves what is pushed``
  directory`/w
  file`/w/a/b/.gitignore`*\n
  hit`a/b/c`*`1`2`/w/a/b/.gitignore
  miss`a/b``0``
  not normal`../x
  push_directory`3
  pop_directory`1
  take
  miss`a/z``0``
  push_directory`0
  pop_directory`0
@ what a refusal leaves is not read again``
  directory`/w
  other`/w/a/b/.gitignore
  special`a/b/c/d`/w/a/b/.gitignore
  push_element`2
  push_directory`3
  tried_pattern_files`2
  take
  miss`a/f``0``
  tried_pattern_files`0
@ steps are counted``
  directory`/w
  file`/w/a/b/.gitignore`*\n
  hit`a/b/c`*`1`2`/w/a/b/.gitignore
  miss`a/b``0``
  push_element`4
  push_directory`3
  pop_directory`1
  tried_pattern_files`3
  pattern_files`1
  patterns_buffers`0
@ a link to itself``
  link`/w/.gitignore`.gitignore
  link limit`a`/w/.gitignore
@ no file``
  other`/w/.gitignore
  special`a`/w/.gitignore
@ a fault is no answer``
  directory`/w
  file`/w/.gitignore`f\n
  fail
  fault`f`/w/.gitignore
  hit`f`f`1`0`/w/.gitignore
@ entries that end in a slash``
  directory`/w
  file`/w/.gitignore`d/\n
  entry`d/
  entry of a file`d/
  entry of a submodule`d
  platforms`3
  take
  platforms`0
@ history`forced\n`*~\n!a/b/forced\n
  directory`/w
  file`/w/.gitignore`*.o\n!k.o\n/out/\n
  file`/w/a/b/.gitignore`*\n!keep\n
  file`/w/out/.gitignore`!*.o\n
  hit`x.o`*.o`1`0`/w/.gitignore
  hit`a/b/x.o`*`1`2`/w/a/b/.gitignore
  miss`a/b/keep`keep`2`2`/w/a/b/.gitignore
  hit`out/x.o`out`3`0`/w/.gitignore
  miss`a/b``0``
  hit`a/b/forced`forced`1`o`/overrides
  hit`a//c/y~`*~`1`g`/globals
  hit`a/b/c/keep`*`1`2`/w/a/b/.gitignore
@ a state is lent and changed``old\n
  directory`/w
  hit`old`old`1`g`/globals
  globals`new\n
  hit`new`new`1`g`/globals
  miss`old``0``
@ letters``
  directory`/w
  file`/w/.gitignore`NAME\n
  fold
  hit`name`NAME`1`0`/w/.gitignore
  base`/w
@ a fresh stack``g\n
  directory`/w
  file`/w/.gitignore`f\n
  hit`a/f`f`1`0`/w/.gitignore
  fresh
  push_directory`0
  platforms`0
  hit`a/g`g`1`g`/globals
  hit`a/f`f`1`0`/w/.gitignore
  push_directory`2
  pattern_files`1";

/// A stack below this root with these rules. No exit stands where the rules are owned.
pub fn stack_at(alloc: Global, root: PathText, ignore: Ignore) -> Stack {
    Stack::new(
        alloc,
        root,
        State::IgnoreStack(ignore),
        Case::Sensitive,
        Bytes::new(alloc),
        Vec::new(alloc),
    )
}

fn stack_of(
    alloc: Global,
    root: &[u8],
    overrides: &[u8],
    globals: &[u8],
) -> Result<Stack, OutOfMemory> {
    let root = PathText::from_bytes(alloc, root)?;
    let ignore = ignore_of(alloc, overrides, globals)?;
    Ok(stack_at(alloc, root, ignore))
}

/// The first step that does not hold with this stack and nothing else.
fn stack_lie<'a>(alloc: Global, stack: &mut Stack, steps: &'a [u8]) -> Option<&'a [u8]> {
    let mut tree = MemoryWorktree::new(alloc, false);
    let mut store = MemoryStore::new(alloc);
    let mut scene = Scene {
        stack,
        tree: &mut tree,
        store: &mut store,
    };
    first_lie(alloc, &mut scene, steps)
}

fn case_lie(alloc: Global, case: &[u8]) -> Option<&[u8]> {
    let (head, steps) = split_at_mark(case, b"\n  ");
    let (_, rules) = split_at_byte(head, b'`');
    let (overrides, globals) = split_at_byte(rules, b'`');
    match stack_of(alloc, b"/w", overrides, globals) {
        Ok(mut stack) => stack_lie(alloc, &mut stack, steps),
        Err(_) => Some(case),
    }
}

#[test]
fn cases(rt: HostRuntime) {
    for case in CASES.split_str(b"\n@ ") {
        assert_eq!(rt; case_lie(rt.alloc(), case), None, "{case:?}");
    }
}

const NAMED: &[u8] = b"\
  directory`/w
  file`/w/.gitignore`*.o\n
  file`/w/.rules`*.c\n
  hit`x.c`*.c`1`0`/w/.rules
  miss`x.o``0``";

/// A stack below `/w` with no rules but those of files of this name, which are read so.
fn read_stack(
    alloc: Global,
    name: Option<Bytes>,
    source: Source,
    parse: ParseIgnore,
) -> Result<Stack, OutOfMemory> {
    let root = PathText::from_bytes(alloc, b"/w")?;
    let (overrides, globals) = (Search::new(alloc), Search::new(alloc));
    let ignore = Ignore::new(alloc, overrides, globals, name, source, parse)?;
    Ok(stack_at(alloc, root, ignore))
}

/// A stack whose rules files have another name.
fn named_stack(alloc: Global) -> Result<Stack, OutOfMemory> {
    let name = Bytes::from_slice(alloc, b".rules")?;
    read_stack(alloc, Some(name), Source::default(), parse())
}

const BARE: &[u8] = b"\
  directory`/w
  file`/w/.gitignore`d\n
  miss`d``0``
  tried_pattern_files`0";

/// A stack of a repository that is bare.
fn bare_stack(alloc: Global) -> Result<Stack, OutOfMemory> {
    read_stack(
        alloc,
        None,
        Source::default().adjust_for_bare(true),
        parse(),
    )
}

const ROOTED: &[u8] = b"\
  file`/.gitignore`f\n
  hit`f`f`1`0`/.gitignore
  shown`a/f`/a/f`\"/a/f\"
  base`/";

/// A stack below the root of all paths.
fn rooted_stack(alloc: Global) -> Result<Stack, OutOfMemory> {
    stack_of(alloc, b"/", b"", b"")
}

const PRECIOUS: &[u8] = b"\
  file`/w/.gitignore`$k\n*.o\n
  precious`k`k`1`0`/w/.gitignore
  hit`x.o`*.o`2`0`/w/.gitignore";

/// A stack with rules that keep files.
fn precious_stack(alloc: Global) -> Result<Stack, OutOfMemory> {
    let parse = ParseIgnore {
        support_precious: true,
    };
    read_stack(alloc, None, Source::default(), parse)
}

/// The first step that does not hold with a stack; all of them where that could not be made.
fn lie_of(alloc: Global, stack: Result<Stack, OutOfMemory>, steps: &[u8]) -> Option<&[u8]> {
    match stack {
        Ok(mut stack) => stack_lie(alloc, &mut stack, steps),
        Err(_) => Some(steps),
    }
}

#[test]
fn other_sources(rt: HostRuntime) {
    let alloc = rt.alloc();
    assert_eq!(rt; lie_of(alloc, named_stack(alloc), NAMED), None);
    assert_eq!(rt; lie_of(alloc, bare_stack(alloc), BARE), None);
    assert_eq!(rt; lie_of(alloc, rooted_stack(alloc), ROOTED), None);
    assert_eq!(rt; lie_of(alloc, precious_stack(alloc), PRECIOUS), None);
}
