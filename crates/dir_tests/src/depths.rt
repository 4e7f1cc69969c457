//! How deep a walk goes: which directory is refused as it lies too deep, and what was listed
//! before.
ghost use Rattle.std.specs.Prelude.{◌≡◌, true};
ghost use Rattle.dir_classify.specs.Excludes.{setup_of_optional_stack, is_absent_or_has_excludes};

use crate::asked::options_of;
use crate::cases::{lie_at_once, lie_of};
use crate::noted::Noted;
use bstr::ByteSlice;
use dir_classify::{Context, Error, Options};
use dir_walk::{Report, Strategy, walk_sorted_by_path};
use gitbase_core::{MemoryStore, State};
use glob_rules::pathspec::Search;
use std::alloc::Global;
use std::collections::BTreeSet;
use worktree_fs::{MemoryWorktree, NewNode, PlannedInterrupt};
use worktree_stack::Stack;

/// Cases of depths, in the words of walks. A directory that is to be entered and has more
/// components below the worktree root than the limit is refused itself, whatever lies beneath it:
/// no path below it is named.
const DEPTHS: &[u8] = b"\
@ what the index has below a directory`-
  file`/w/a/b/c/f
  index`a/b/c/f`file
  ask`options`tracked
  ask`depth`3
  walk`/w`/w`4`1`tracked file file always - - - a/b/c/f
  ask`depth`2
  walk`/w`too deep`/w/a/b/c
  ask`depth`1
  walk`/w`too deep`/w/a/b
  ask`depth`0
  walk`/w`too deep`/w/a
  ask`root`a/b
  ask`depth`1
  walk`/w`too deep`/w/a/b
  ask`root`a
  walk`/w`too deep`/w/a/b
  ask`depth`0
  walk`/w`too deep`/w/a
@ up-to-date entries below a directory`-
  file`/w/a/b/c/f
  index`a/b/c/f`file`up to date
  ask`depth`1
  walk`/w`too deep`/w/a/b
  ask`depth`0
  walk`/w`too deep`/w/a
@ a traversal root below one that lies too deep`-
  file`/w/a/b/c/d/f
  index`a/b/c/d/f`file
  ask`root`a/b/c
  ask`depth`1
  walk`/w`too deep`/w/a/b/c
@ a repository below a directory`-
  file`/w/a/b/x
  git`/w/a/b/r/.git
  ask`depth`2
  walk`/w`/w`3`2`untracked repository - always - - - a/b/r`untracked file - always - - - a/b/x
  ask`depth`1
  walk`/w`too deep`/w/a/b
  ask`depth`0
  walk`/w`too deep`/w/a
@ a worktree of its own below a directory`-
  file`/w/a/b/c/f
  ask`worktree`a/b/c
  ask`options`tracked
  ask`depth`2
  walk`/w`/w`3`1`tracked repository - always - - - a/b/c
  ask`depth`1
  walk`/w`too deep`/w/a/b
  ask`depth`0
  walk`/w`too deep`/w/a";

/// The first case that does not hold, subtree after subtree or at once.
fn first_lie(alloc: Global) -> Option<&'static [u8]> {
    for case in DEPTHS.split_str(b"\n@ ") {
        if lie_of(alloc, case).is_some() || lie_at_once(alloc, case).is_some() {
            return Some(case);
        }
    }
    None
}

#[test]
fn depths(rt: HostRuntime) {
    assert_eq!(rt; first_lie(rt.alloc()), None);
}

/// A work tree at `/w` where `a` has a directory and `z` has none; the names of a directory are
/// listed in order.
fn root(alloc: Global) -> MemoryWorktree {
    let mut tree = MemoryWorktree::new(alloc, false);
    let paths: [&[u8]; 2] = [b"/w/a/b/f", b"/w/z/f"];
    for path in paths {
        let _added = tree.add(alloc, path, NewNode::File(b""));
    }
    tree
}

/// A walk that goes one directory deep.
fn walked<'a>(
    alloc: Global,
    options: Options<'_>,
    worktree: &'a mut Noted,
    objects: &'a mut MemoryStore,
    interrupt: &'a mut PlannedInterrupt,
    pathspec: &'a Search,
    excludes: &'a mut Option<Stack>,
    index: &'a State,
) -> Result<Report, Error>
    requires excludes { is_absent_or_has_excludes (setup_of_optional_stack excludes.old) ≡ true }
{
    let ctx = Context {
        worktree,
        objects,
        interrupt,
        pathspec,
        excludes,
        index,
        ignore_case_index_lookup: &None,
        git_dir_realpath: b"/w/.git",
        current_dir: b"/w",
        explicit_traversal_root: &None,
        depth_limit: 1,
    };
    walk_sorted_by_path(alloc, b"/w", ctx, options, Strategy::Held)
}

/// Whether a directory that lies too deep is refused and not listed, nor what comes after the one
/// that it lies in.
fn is_unlisted(alloc: Global) -> bool {
    let mut worktree = Noted::new(alloc, root(alloc));
    let walked = walked(
        alloc,
        options_of(b"", &BTreeSet::new(alloc)),
        &mut worktree,
        &mut MemoryStore::new(alloc),
        &mut PlannedInterrupt::never(),
        &Search::from_specs(Vec::new(alloc)),
        &mut None,
        &State::new(alloc),
    );
    match walked {
        Err(Error::TooDeep { path }) => {
            path.as_bytes() == b"/w/a/b".as_slice()
                && worktree.listed.as_slice() == b"/w;/w/a;".as_slice()
        }
        _ => false,
    }
}

#[test]
fn too_deep_is_unlisted(rt: HostRuntime) {
    assert!(rt; is_unlisted(rt.alloc()));
}
