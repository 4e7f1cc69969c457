//! Plans of a cleaning.
use crate::tree::tree_of;
use bstr::ByteSlice;
use clean_plan::{CleanError, Finding, Plan, What, are_options_prepared_for_plan, plan, prepare};
use gitbase_core::MemoryStore;
use std::alloc::Global;
use test_cases::{held, lines_of_field_steps, split_at_mark};
use worktree_fs::{MemoryWorktree, PlannedInterrupt};
use worktree_report::Setup;

/// Cases, each behind an `@`: the nodes, the lines of a setup, what is asked for, and the paths
/// that are wanted or why there is no plan.
const ROWS: &[u8] = b"\
@
nodes:
  file`/w/.git/HEAD`ref: refs/heads/main\n
  directory`/w/.git/objects
  directory`/w/.git/refs
  file`/w/.gitignore`target/\n
  file`/w/.gitmodules
  file`/w/src/main.c
  file`/w/lib/.git`gitdir: ../.git/modules/lib
  file`/w/.git/modules/lib/HEAD`ref: refs/heads/main\n
  directory`/w/.git/modules/lib/objects
  directory`/w/.git/modules/lib/refs
  file`/w/target/x.o
  file`/w/notes/a
  file`/w/notes/b
setup:
  index 100644 0 - - .gitignore
  index 100644 0 - - .gitmodules
  index 160000 0 - - lib
  index 100644 0 - - src/main.c
asked: all nonbare
wanted: notes;target
@
nodes:
  file`/w/.git/HEAD`ref: refs/heads/main\n
  directory`/w/.git/objects
  directory`/w/.git/refs
  file`/w/.gitignore`target/\n
  file`/w/.gitmodules
  file`/w/src/main.c
  file`/w/lib/.git`gitdir: ../.git/modules/lib
  file`/w/.git/modules/lib/HEAD`ref: refs/heads/main\n
  directory`/w/.git/modules/lib/objects
  directory`/w/.git/modules/lib/refs
  file`/w/target/x.o
  file`/w/notes/a
  file`/w/notes/b
setup:
  index 100644 0 - - .gitignore
  index 100644 0 - - .gitmodules
  index 160000 0 - - lib
  index 100644 0 - - src/main.c
asked: untracked nonbare
wanted: notes
@
nodes:
  file`/w/d/key
  file`/w/d/x
setup:
  global $key
  option precious yes
asked: all nonbare
wanted: d/x
@
nodes:
  file`/w/d/x
setup:
  global $key
  option precious yes
  current_dir /w/d
asked: all nonbare
wanted: d/x
@
nodes:
  file`/w/d/a1
  file`/w/d/b
setup:
  spec d/a*
asked: all nonbare
wanted: d/a1
@
nodes:
  file`/w/a
setup:
asked: all nonbare
wanted: a
@
nodes:
  file`/w/a-b
  file`/w/a/x
  file`/w/a/y/z
setup:
asked: all nonbare
wanted: a;a-b
@
nodes:
  directory`/w/a/b/c
  file`/w/a/d
setup:
asked: all nonbare
wanted: a
@
nodes:
  file`/w/a/x
  file`/w/a/b.o
setup:
  global *.o
asked: ignored nonbare
wanted: a/b.o
@
nodes:
  file`/w/a/x.o
  file`/w/a/y.o
setup:
  global *.o
asked: ignored nonbare
wanted: a
@
nodes:
  file`/w/a/x.o
  file`/w/a/y.o
setup:
  global *.o
asked: untracked nonbare
wanted:
@
nodes:
  file`/w/a/x.o
  file`/w/a/y
setup:
  global *.o
asked: untracked nonbare
wanted: a/y
@
nodes:
  file`/w/a/x
setup:
  index 100644 0 - - a/y
asked: all nonbare
wanted: a/x
@
nodes:
  file`/w/a/x
setup:
  option ignore_case yes
  index 100644 0 - - A/y
asked: all nonbare
wanted: a/x
@
nodes:
  file`/w/a/b/x
  file`/w/a/y
setup:
  spec :(exclude)a/b
asked: all nonbare
wanted: a/y
@
nodes:
  file`/w/a/b/x
  file`/w/a/y
setup:
  root a/b
asked: all nonbare
wanted: a/b
@
nodes:
  file`/w/r/.git/HEAD`ref: refs/heads/main\n
  directory`/w/r/.git/objects
  directory`/w/r/.git/refs
  file`/w/s
setup:
asked: all nonbare
wanted: s
@
nodes:
  file`/w/d/r/.git/HEAD`ref: refs/heads/main\n
  directory`/w/d/r/.git/objects
  directory`/w/d/r/.git/refs
  file`/w/d/s
setup:
asked: all nonbare
wanted: d/s
@
nodes:
  file`/w/d/r/HEAD`ref: refs/heads/main\n
  directory`/w/d/r/objects
  directory`/w/d/r/refs
  file`/w/d/s
setup:
asked: all nonbare
wanted: d
@
nodes:
  file`/w/d/r/HEAD`ref: refs/heads/main\n
  directory`/w/d/r/objects
  directory`/w/d/r/refs
  file`/w/d/s
setup:
asked: all all
wanted: d/s
@
nodes:
  file`/w/a
  last real path fails
setup:
asked: all nonbare
wanted: fault
@
nodes:
  file`/w
setup:
asked: all nonbare
wanted: report";

fn asked(words: &[u8]) -> (What, Finding) {
    let (what, finding) = words.split_once_str(b" ").unwrap_or((words, b""));
    let finding = match finding {
        b"all" => Finding::All,
        _ => Finding::NonBare,
    };
    match what {
        b"untracked" => (What::Untracked, finding),
        b"ignored" => (What::IgnoredOnly, finding),
        _ => (What::UntrackedAndIgnored, finding),
    }
}

/// Whether a plan has these paths and no others.
fn plan_is(plan: &Plan, want: &[u8]) -> bool {
    let mut at = 0usize;
    for path in want.split(|byte| *byte == b';') {
        let is_there = match plan.paths.get(at) {
            Some(planned) => planned.as_bytes() == path,
            None => path.is_empty(),
        };
        if !is_there {
            return false;
        }
        at = at.saturating_add(1);
    }
    plan.paths.len() <= at
}

pub fn answer_is(answer: &Result<Plan, CleanError>, want: &[u8]) -> bool {
    match answer {
        Ok(plan) => plan_is(plan, want),
        Err(CleanError::Report(_)) => want == b"report".as_slice(),
        Err(CleanError::Fault) => want == b"fault".as_slice(),
        Err(CleanError::OutOfMemory) => false,
    }
}

pub fn setup_of(alloc: Global, lines: &[u8], finding: Finding) -> Option<Setup> {
    let mut setup = Setup::parse(alloc, lines).ok()?;
    prepare(&mut setup.options, finding);
    Some(setup)
}

/// The prepared setup whose lines are the steps of a field.
pub fn setup_in(alloc: Global, field: &[u8], finding: Finding) -> Option<Setup> {
    let lines = lines_of_field_steps(alloc, field)?;
    setup_of(alloc, &lines, finding)
}

/// Whether the plan by a prepared setup is the one that is wanted.
fn is_answered(
    alloc: Global,
    tree: &mut MemoryWorktree,
    setup: &Setup,
    what: What,
    finding: Finding,
    want: &[u8],
) -> bool {
    if !are_options_prepared_for_plan(&setup.options, finding) {
        return false;
    }
    let mut objects = MemoryStore::new(alloc);
    let mut interrupt = PlannedInterrupt::never();
    let answer = plan(
        alloc,
        tree,
        &mut objects,
        &mut interrupt,
        b"/w",
        setup,
        what,
        finding,
    );
    answer_is(&answer, want)
}

fn holds(alloc: Global, row: &[u8], reversed: bool) -> bool {
    let (_, rest) = split_at_mark(row, b"nodes:");
    let (nodes, rest) = split_at_mark(rest, b"\nsetup:");
    let (setup, rest) = split_at_mark(rest, b"\nasked:");
    let (words, want) = split_at_mark(rest, b"\nwanted:");
    let (what, finding) = asked(held(words));
    let Some(mut tree) = tree_of(alloc, held(nodes), reversed) else {
        return false;
    };
    let Some(setup) = setup_in(alloc, setup, finding) else {
        return false;
    };
    is_answered(alloc, &mut tree, &setup, what, finding, held(want))
}

/// The first row that does not hold, with names listed in either order.
fn first_lie(alloc: Global) -> Option<&'static [u8]> {
    for row in ROWS.split_str(b"\n@\n") {
        if !holds(alloc, row, false) || !holds(alloc, row, true) {
            return Some(row);
        }
    }
    None
}

#[test]
fn plans_what_may_go(rt: HostRuntime) {
    let lie = first_lie(rt.alloc());
    assert!(rt; lie.is_none(), "{lie:?}");
}
