//! Pipes, sockets and devices: what becomes of them in a plan.
use crate::plans::setup_in;
use crate::tree::tree_of;
use bstr::ByteSlice;
use clean_plan::{Finding, Wanted, What, are_options_prepared_for_plan, plan_clean_as_text};
use std::alloc::Global;
use test_cases::{held, lines_of_field_steps, split_at_mark};
use worktree_fs::{MemoryWorktree, PlannedInterrupt};
use worktree_report::Setup;

/// Cases, each behind an `@`: the nodes, the lines of a setup, those of the plan where other nodes
/// may go, as reported, and of the one where they stay, as git sees them.
const ROWS: &[u8] = b"\
@
nodes:
  other`/w/p
  file`/w/a
setup:
reported:
  a
  p
seen:
  a
@
nodes:
  other`/w/p
setup:
reported:
  p
seen:
@
nodes:
  other`/w/d/p
  file`/w/d/a
setup:
reported:
  d
seen:
  d
@
nodes:
  other`/w/d/p
setup:
reported:
  d
seen:
  d
@
nodes:
  other`/w/d/p
  file`/w/d/a
  file`/w/d/b
setup:
  index 100644 0 - - d/b
reported:
  d/a
  d/p
seen:
  d/a
@
nodes:
  other`/w/d/p
  other`/w/d/q
  file`/w/d/b
setup:
  index 100644 0 - - d/b
reported:
  d/p
  d/q
seen:
@
nodes:
  other`/w/d/p
  other`/w/d/e/q
  file`/w/d/b
setup:
  index 100644 0 - - d/b
reported:
  d/e
  d/p
seen:
  d/e
@
nodes:
  other`/w/p
  file`/w/p1
  link`/w/l`p
setup:
reported:
  l
  p
  p1
seen:
  l
  p1
@
nodes:
  other`/w/p
setup:
  index 100644 0 - - p
reported:
seen:";

fn text_is(
    alloc: Global,
    tree: &mut MemoryWorktree,
    setup: &Setup,
    wanted: Wanted,
    want: &[u8],
) -> bool {
    let finding = Finding::NonBare;
    if !are_options_prepared_for_plan(&setup.options, finding) {
        return false;
    }
    let Some(lines) = lines_of_field_steps(alloc, want) else {
        return false;
    };
    let mut interrupt = PlannedInterrupt::never();
    match plan_clean_as_text(alloc, tree, &mut interrupt, b"/w", setup, wanted, finding) {
        Ok(text) => text.as_bytes() == lines.as_slice(),
        Err(_) => false,
    }
}

fn holds(alloc: Global, row: &[u8], reversed: bool) -> bool {
    let (_, rest) = split_at_mark(row, b"nodes:");
    let (nodes, rest) = split_at_mark(rest, b"\nsetup:");
    let (setup, rest) = split_at_mark(rest, b"\nreported:");
    let (reported, seen) = split_at_mark(rest, b"\nseen:");
    let Some(mut tree) = tree_of(alloc, held(nodes), reversed) else {
        return false;
    };
    let Some(setup) = setup_in(alloc, setup, Finding::NonBare) else {
        return false;
    };
    let with = Wanted::allowing_special_and_spec_excluded(What::UntrackedAndIgnored);
    let without = Wanted::keeping_special_and_spec_excluded(What::UntrackedAndIgnored);
    text_is(alloc, &mut tree, &setup, with, reported)
        && text_is(alloc, &mut tree, &setup, without, seen)
}

/// The first row that does not hold, with names listed in either order.
fn first_lie(alloc: Global) -> Option<&'static [u8]> {
    for row in ROWS.split_str(b"\n@\n") {
        if !holds(alloc, row, false) || !holds(alloc, row, true) {
            return Some(row);
        }
    }
    None
}

#[test]
fn other_nodes_stay_where_that_is_wanted(rt: HostRuntime) {
    let lie = first_lie(rt.alloc());
    assert!(rt; lie.is_none(), "{lie:?}");
}
