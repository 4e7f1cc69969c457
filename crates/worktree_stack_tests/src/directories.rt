//! Lookups that make the directories on their way, in a checkout.
use crate::attributes::has;
use crate::checkout::{component_word, kind_word, plan, tree_of};
use crate::lookups::{look_up_entry, look_up_path};
use crate::steps::{Scene, is_digit};
use bstr::ByteSlice;
use gitbase_core::{Bytes, MemoryStore, Mode, OutOfMemory, PathText};
use glob_rules::Case;
use glob_rules::attributes::{MetadataCollection, Search};
use std::alloc::Global;
use test_cases::split_at_byte;
use worktree_fs::{MemoryWorktree, Worktree};
use worktree_stack::validate::Options;
use worktree_stack::{AtPathError, Attributes, DirectoryWhy, Stack, State, attributes_source};

/// What stands at `/w/a` (`l` a link to a directory, `f` a file, `o` another node, `d` a directory,
/// `-` nothing), or what else the tree is; whether what is in the way is removed (`u`), and the
/// call that fails with its number. Then for each lookup the path, the mode (`m` a submodule, `l` a
/// link, `e` none, for an entry), what is answered, how often a directory was asked for and pushed
/// in all, and a path with the node that is there then; where it stands, the state of the attribute
/// `x` of the path that was looked up.
///
/// See docs/DECISIONS.md#checkout-removes-rules, docs/DECISIONS.md#checkout-rules-made and
/// docs/DIFFERENCES.md#gix-checkout-gone.
const LOOKUPS: &[u8] = b"\
l`-`-`a/f`-`collision`1`1`/w/a`l\n\
l`u`-`a/f`-`ok`2`2`/w/a`d\n\
-`-`-`a/b/f`-`ok`2`3`/w/a/b`d;m`m`ok`3`3`/w/m`d;a/g`-`ok`4`4`/w/a/g`-\n\
-`-`m1`x/f`-`fault`1`1`/w/x`-;x/f`-`ok`2`2`/w/x`d\n\
l`u`m1`a/f`-`fault`1`1`/w/a`l;a/f`-`ok`3`2`/w/a`d\n\
l`u`m2`a/f`-`fault`2`1`/w/a`-;a/f`-`ok`3`2`/w/a`d\n\
l`u`r1`a/f`-`fault`1`1`/w/a`l;a/f`-`ok`3`2`/w/a`d\n\
f`-`-`a`-`ok`0`1`/w/a`f\n\
f`-`-`a/f`-`collision`1`1`/w/a`f\n\
f`u`k1`a/f`-`fault`1`1`/w/a`f\n\
f`-`k1`a/f`-`fault`1`1`/w/a`f\n\
o`u`-`a/f`-`ok`2`2`/w/a`d\n\
d`u`-`a/f`-`ok`1`2`/w/a`d\n\
-`-`-`b/.GIT/f`-`dot git`1`2`/w/b/.GIT`-\n\
-`-`-`.gitmodules`l`modules link`0`1`/w/.gitmodules`-\n\
-`-`-`.gitmodules`-`ok`0`1`/w/.gitmodules`-\n\
-`-`-`a/../b`-`not normal`0`0`/w/a`-\n\
-`-`-`a/b/`e`ok`2`2`/w/a/b`d;a/c`e`ok`2`2`/w/a/c`-\n\
-`-`m3`a/b/c/f`-`fault`3`3`/w/a/b/c`-;a/b/g`-`ok`3`3`/w/a/b`d\n\
r`-`-`.gitattributes/f`-`collision`1`1`/w/.gitattributes`f\n\
r`u`-`.gitattributes/f`-`ok`2`2`/w/.gitattributes`d\n\
-`-`-`x\x00/f`-`no parent`1`1`/w/x\x00`-\n\
c`u`-`a\xcc\x88/f`-`ok`1`2`/w/\xc3\xa4`d;b/f`-`ok`2`3`/w/b`d;a\xcc\x88/g`-`collision`4`3`/w/a\xcc\x88`-\n\
t`u`-`d/f`-`ok`1`2`/w/d`d`set;a/f`-`ok`3`3`/w/a`d`-;d/f`-`ok`4`4`/w/d`d`set\n\
c`-`-`a\xcc\x88/b/f`-`no parent`2`2`/w/a\xcc\x88/b`-\n";

/// A stack for a checkout below this root. No exit stands where the attributes are owned.
fn stack_at(alloc: Global, root: PathText, unlinks: bool) -> Stack {
    let attributes = Attributes::new(
        alloc,
        Search::new(alloc),
        None,
        attributes_source::Source::WorktreeThenIdMapping,
        MetadataCollection::new(alloc),
    );
    let options = Options {
        protect_windows: false,
    };
    Stack::new(
        alloc,
        root,
        State::for_checkout(unlinks, options, attributes),
        Case::Sensitive,
        Bytes::new(alloc),
        Vec::new(alloc),
    )
}

/// A stack for a checkout below `/w`.
fn stack_of(alloc: Global, unlinks: bool) -> Result<Stack, OutOfMemory> {
    let root = PathText::from_bytes(alloc, b"/w")?;
    Ok(stack_at(alloc, root, unlinks))
}

fn mode_of(letter: &[u8]) -> Option<Mode> {
    match letter.first() {
        Some(b'm') => Some(Mode::COMMIT),
        Some(b'l') => Some(Mode::SYMLINK),
        _ => None,
    }
}

/// The word of a refusal about `at`, if it is about `path`.
fn word_at(at: &PathText, path: &[u8], word: &'static [u8]) -> &'static [u8] {
    if at.as_bytes() == path {
        return word;
    }
    b"another"
}

fn why_word(why: DirectoryWhy) -> &'static [u8] {
    match why {
        DirectoryWhy::NoParent => b"no parent",
        DirectoryWhy::Fault => b"fault",
    }
}

fn answer_word(answer: &Result<(), AtPathError>, path: &[u8]) -> &'static [u8] {
    match answer {
        Ok(()) => b"ok",
        Err(AtPathError::NotNormal) => b"not normal",
        Err(AtPathError::Component(why)) => component_word(Err(*why)),
        Err(AtPathError::Collision { path: at }) => word_at(at, path, b"collision"),
        Err(AtPathError::Directory { path: at, why }) => word_at(at, path, why_word(*why)),
        Err(_) => b"another",
    }
}

/// A lookup of a path, or of an entry without a mode (`e`).
fn look(
    alloc: Global,
    stack: &mut Stack,
    tree: &mut MemoryWorktree,
    path: &[u8],
    mode: &[u8],
) -> Result<(), AtPathError> {
    let mut store = MemoryStore::new(alloc);
    if mode == b"e".as_slice() {
        return look_up_entry(alloc, stack, path, None, tree, &mut store);
    }
    look_up_path(alloc, stack, path, mode_of(mode), tree, &mut store)
}

/// Whether a lookup answers so, and leaves the counts and the node.
fn goes(alloc: Global, stack: &mut Stack, tree: &mut MemoryWorktree, step: &[u8]) -> bool {
    let (path, rest) = split_at_byte(step, b'`');
    let (mode, rest) = split_at_byte(rest, b'`');
    let (want, rest) = split_at_byte(rest, b'`');
    let (mkdirs, rest) = split_at_byte(rest, b'`');
    let (pushed, rest) = split_at_byte(rest, b'`');
    let (at, rest) = split_at_byte(rest, b'`');
    let (kind, state) = split_at_byte(rest, b'`');
    let answer = look(alloc, stack, tree, path, mode);
    let counts = stack.statistics().delegate;
    let after = tree.kind(alloc, at).unwrap_or(None);
    answer_word(&answer, at) == want
        && is_digit(counts.num_mkdir_calls, mkdirs)
        && is_digit(counts.push_directory, pushed)
        && kind_word(after) == kind
        && (state.is_empty() || says(alloc, stack, tree, path, state))
}

/// Whether the attribute `x` of a path reads so in a checkout.
fn says(
    alloc: Global,
    stack: &mut Stack,
    tree: &mut MemoryWorktree,
    path: &[u8],
    state: &[u8],
) -> bool {
    let mut store = MemoryStore::new(alloc);
    let mut scene = Scene {
        stack,
        tree,
        store: &mut store,
    };
    has(alloc, &mut scene, path, b"x", state)
}

/// Whether each lookup of some goes so.
fn all_go(alloc: Global, stack: &mut Stack, tree: &mut MemoryWorktree, steps: &[u8]) -> bool {
    for step in steps.split(|byte| *byte == b';') {
        if !goes(alloc, stack, tree, step) {
            return false;
        }
    }
    true
}

/// Whether each lookup goes so in the tree of a row, where a call may fail.
fn all_go_in(alloc: Global, stack: &mut Stack, node: &[u8], call: &[u8], steps: &[u8]) -> bool {
    match tree_of(alloc, node) {
        Ok(mut tree) => {
            plan(alloc, &mut tree, call).is_ok() && all_go(alloc, stack, &mut tree, steps)
        }
        Err(_) => false,
    }
}

fn is_looked_up(alloc: Global, row: &[u8]) -> bool {
    let (node, rest) = split_at_byte(row, b'`');
    let (unlinks, rest) = split_at_byte(rest, b'`');
    let (call, steps) = split_at_byte(rest, b'`');
    match stack_of(alloc, unlinks == b"u".as_slice()) {
        Ok(mut stack) => all_go_in(alloc, &mut stack, node, call, steps),
        Err(_) => false,
    }
}

#[test]
fn lookups(rt: HostRuntime) {
    for row in LOOKUPS.lines() {
        assert!(rt; is_looked_up(rt.alloc(), row), "{row:?}");
    }
}
