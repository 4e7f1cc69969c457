//! Plans of an update of submodules.
use crate::tree::tree_of;
use bstr::ByteSlice;
use git_config_lite as config;
use git_config_lite::{Metadata, Source};
use glob_rules::pathspec::Defaults;
use module_plan::{ModuleError, ModulePlan, Skipped, Step, StepKind, Why, plan};
use std::alloc::Global;
use submodule::File;
use test_cases::{held, lines_of_field_steps, split_at_byte, split_at_mark};
use worktree_fs::MemoryWorktree;

/// Cases, each behind an `@`: the nodes, the lines of `.gitmodules` and of the configuration, and
/// what is wanted: the steps by path and then what is left out by name, or the refusal.
const ROWS: &[u8] = b"\
@
nodes:
  file`/w/lib/.git`gitdir: /g/m
modules:
  [submodule \"m\"]
  path = lib
  url = u
config:
  [submodule \"m\"]
  url = u
wanted:
  checkout`lib`m
@
nodes:
  file`/w/lib/.git`gitdir: /g/m
modules:
  [submodule \"m\"]
  path = lib
  url = u
config:
wanted:
  skip inactive`m
@
nodes:
  directory`/w
modules:
  [submodule \"m\"]
  path = lib
  url = u
  update = !x
config:
  [submodule \"m\"]
  url = u
wanted:
  skip shared-command`m
@
nodes:
  directory`/w
modules:
  [submodule \"m\"]
  path = lib
  url = u
config:
  [submodule \"m\"]
  url = u
  update = !x
wanted:
  command`lib`m`x
@
nodes:
  directory`/g
  link`/w/lib`/g
modules:
  [submodule \"m\"]
  path = lib
  url = u
config:
  [submodule \"m\"]
  url = u
wanted:
  skip link`m
@
nodes:
  directory`/w
modules:
  [submodule \"m\"]
  path = lib
  url = u
config:
  [submodule]
  active = /x
wanted:
  active spec 1
@
nodes:
  directory`/w
modules:
  [submodule \"m\"]
  path = lib
  url = u
config:
  [submodule]
  active = m
  active = :(bad)
wanted:
  active spec 2
@
nodes:
  directory`/w
modules:
  [submodule \"m\"]
  path = lib
  url = u
config:
  [submodule]
  active = .
wanted:
  checkout`lib`m
@
nodes:
  directory`/w
modules:
  [submodule \"m\"]
  path = lib
  url = u
config:
  [submodule \"m\"]
  active = maybe
wanted:
  skip bad-active`m
@
nodes:
  directory`/w
modules:
  [submodule \"m\"]
  path = ../lib
  url = u
config:
  [submodule \"m\"]
  active = true
wanted:
  skip bad-path`m
@
nodes:
  directory`/w
modules:
  [submodule \"m\"]
  url = u
config:
  [submodule \"m\"]
  active = true
wanted:
  skip bad-path`m
@
nodes:
  directory`/w
modules:
  [submodule \"m\"]
  path = a/..
  url = u
config:
  [submodule \"m\"]
  active = true
wanted:
  skip root`m
@
nodes:
  directory`/w
modules:
  [submodule \"m\"]
  path = a/.GIT/b
  url = u
config:
  [submodule \"m\"]
  active = true
wanted:
  skip dot-git`m
@
nodes:
  directory`/w
modules:
  [submodule \"m\"]
  path = a
  url = u
  update = make
config:
  [submodule \"m\"]
  active
wanted:
  skip bad-update`m
@
nodes:
  directory`/w
modules:
  [submodule \"m\"]
  path = a
  url = u
  update = none
config:
  [submodule \"m\"]
  active
wanted:
  skip no-update`m
@
nodes:
  directory`/w
modules:
  [submodule \"m\"]
  path = a
config:
  [submodule \"m\"]
  active
wanted:
  skip bad-url`m
@
nodes:
  file`/w/a`x
modules:
  [submodule \"m\"]
  path = a/b
  url = u
config:
  [submodule \"m\"]
  active
wanted:
  skip not-a-directory`m
@
nodes:
  other`/w/a
modules:
  [submodule \"m\"]
  path = a
  url = u
config:
  [submodule \"m\"]
  active
wanted:
  skip not-a-directory`m
@
nodes:
  directory`/w/d
  link`/w/a`d
modules:
  [submodule \"m\"]
  path = a/b
  url = u
config:
  [submodule \"m\"]
  active
wanted:
  skip link`m
@
nodes:
  directory`/w/a
modules:
  [submodule \"z\"]
  path = a/b
  url = u
  update = rebase
  [submodule \"y\"]
  path = ./a//
  url = u
  update = merge
config:
  [submodule]
  active = .
wanted:
  merge`a`y
  rebase`a/b`z
@
nodes:
  directory`/w
modules:
  [submodule \"z\"]
  path = a
  url = u
  [submodule \"y\"]
  path = ./a
  url = u
  [submodule \"x\"]
config:
  [submodule]
  active = .
wanted:
  checkout`a`z
  skip same-path`y
  skip bad-path`x
@
nodes:
  link`/w/a`b
modules:
  [submodule \"z\"]
  path = a
  url = u
  [submodule \"y\"]
  path = a
  url = u
config:
  [submodule]
  active = .
wanted:
  skip link`z
  skip same-path`y
@
nodes:
  directory`/w
modules:
  [submodule \"z\"]
  path = a
  [submodule \"y\"]
  path = a
  url = u
config:
  [submodule]
  active = .
wanted:
  checkout`a`y
  skip bad-url`z
@
nodes:
  directory`/w/a
  fail kind`2
modules:
  [submodule \"m\"]
  path = a/b
  url = u
config:
  [submodule \"m\"]
  active
wanted:
  fault`/w/a/b
@
nodes:
  directory`/w
  fail kind`2
modules:
  [submodule \"m\"]
  path = a/b/c
  url = u
config:
  [submodule \"m\"]
  active
wanted:
  checkout`a/b/c`m
@
nodes:
  directory`/w
modules:
config:
wanted:";

/// The configuration of some lines.
fn configuration(alloc: Global, lines: &[u8]) -> Option<config::File> {
    let text = lines_of_field_steps(alloc, lines)?;
    let meta = Metadata {
        source: Source::Local,
        path: None,
    };
    config::File::from_bytes(alloc, &text, meta).ok()
}

/// The `.gitmodules` of some lines.
fn modules_of(alloc: Global, lines: &[u8], config: &config::File) -> Option<File> {
    let text = lines_of_field_steps(alloc, lines)?;
    File::from_bytes(alloc, &text, None, config).ok()
}

fn kind_is(kind: &StepKind, word: &[u8], command: &[u8]) -> bool {
    match kind {
        StepKind::Checkout => word == b"checkout".as_slice(),
        StepKind::Rebase => word == b"rebase".as_slice(),
        StepKind::Merge => word == b"merge".as_slice(),
        StepKind::Command(text) => word == b"command".as_slice() && text.as_bytes() == command,
    }
}

fn step_is(step: &Step, want: &[u8]) -> bool {
    let (kind, rest) = split_at_byte(want, b'`');
    let (path, rest) = split_at_byte(rest, b'`');
    let (name, command) = split_at_byte(rest, b'`');
    kind_is(&step.kind, kind, command)
        && step.path.as_bytes() == path
        && step.name.as_bytes() == name
}

fn word_of(why: Why) -> &'static [u8] {
    match why {
        Why::BadActive => b"skip bad-active",
        Why::Inactive => b"skip inactive",
        Why::BadPath => b"skip bad-path",
        Why::Root => b"skip root",
        Why::DotGit => b"skip dot-git",
        Why::BadUpdate => b"skip bad-update",
        Why::SharedCommand => b"skip shared-command",
        Why::NoUpdate => b"skip no-update",
        Why::BadUrl => b"skip bad-url",
        Why::SamePath => b"skip same-path",
        Why::Link => b"skip link",
        Why::NotADirectory => b"skip not-a-directory",
    }
}

fn skipped_is(skipped: &Skipped, want: &[u8]) -> bool {
    let (why, name) = split_at_byte(want, b'`');
    word_of(skipped.why) == why && skipped.name.as_bytes() == name
}

/// Whether the line with this number says so.
fn line_is(plan: &ModulePlan, at: usize, want: &[u8]) -> bool {
    match plan.steps.get(at) {
        Some(step) => step_is(step, want),
        None => match plan.skipped.get(at.saturating_sub(plan.steps.len())) {
            Some(skipped) => skipped_is(skipped, want),
            None => want.is_empty(),
        },
    }
}

/// Whether a plan has these lines and no others.
fn plan_is(plan: &ModulePlan, want: &[u8]) -> bool {
    let mut at = 0usize;
    for line in want.split_str(b"\n  ") {
        if !line_is(plan, at, line) {
            return false;
        }
        at = at.saturating_add(1);
    }
    line_is(plan, at, b"")
}

fn error_is(error: &ModuleError, want: &[u8]) -> bool {
    match error {
        ModuleError::ActiveSpec { value: 1 } => want == b"active spec 1".as_slice(),
        ModuleError::ActiveSpec { value: 2 } => want == b"active spec 2".as_slice(),
        ModuleError::ActiveSpec { .. } => false,
        ModuleError::Fault { path } => {
            let (word, at) = split_at_byte(want, b'`');
            word == b"fault".as_slice() && path.as_bytes() == at
        }
        ModuleError::OutOfMemory => false,
    }
}

fn answers(
    alloc: Global,
    tree: &mut MemoryWorktree,
    modules: &File,
    config: &config::File,
    want: &[u8],
) -> bool {
    let defaults = Defaults { ignore_case: false };
    match plan(alloc, tree, b"/w", modules, config, defaults) {
        Ok(plan) => plan_is(&plan, want),
        Err(error) => error_is(&error, want),
    }
}

/// Whether a row holds over a listing order.
fn holds(alloc: Global, row: &[u8], reversed: bool) -> bool {
    let (_, rest) = split_at_mark(row, b"nodes:");
    let (nodes, rest) = split_at_mark(rest, b"\nmodules:");
    let (modules, rest) = split_at_mark(rest, b"\nconfig:");
    let (config, want) = split_at_mark(rest, b"\nwanted:");
    let Some(mut tree) = tree_of(alloc, held(nodes), reversed) else {
        return false;
    };
    let Some(config) = configuration(alloc, config) else {
        return false;
    };
    match modules_of(alloc, modules, &config) {
        Some(modules) => answers(alloc, &mut tree, &modules, &config, held(want)),
        None => false,
    }
}

/// Whether a row holds over both listing orders.
fn both_hold(alloc: Global, row: &[u8]) -> bool {
    holds(alloc, row, false) && holds(alloc, row, true)
}

#[test]
fn submodules_are_planned_by_the_first_reason(rt: HostRuntime) {
    for row in ROWS.split_str(b"\n@\n") {
        assert!(rt; both_hold(rt.alloc(), row), "{row:?}");
    }
}
