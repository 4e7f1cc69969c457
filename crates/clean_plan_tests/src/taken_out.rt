//! Directories that path specs take out: what becomes of what lies in them.
use crate::plans::setup_in;
use crate::tree::tree_of;
use bstr::ByteSlice;
use clean_plan::{Finding, Wanted, What, are_options_prepared_for_plan, plan_clean_as_text};
use gitbase_core::{Bytes, is_prefix_by_whole_components};
use std::alloc::Global;
use test_cases::{held, split_at_mark};
use worktree_fs::PlannedInterrupt;
use worktree_report::Setup;

/// The tree of each row.
const NODES: &[u8] = b"\
  file`/w/a
  file`/w/ab/v
  file`/w/abc/v
  directory`/w/ad
  file`/w/b/t
  file`/w/b/u/w
  file`/w/b1/x
  file`/w/b1/y
  file`/w/b2/c/z
  file`/w/d/b1/x
  file`/w/d/k";

/// Cases, each behind an `@`: the lines of a setup; the plan of all that is reported; the plan of
/// what git sees, where what it does not look at stays; and what `git clean -ndx` of 2.39.5 names
/// with these specs. Paths are parted by `;`. Git looks into what is not seen, and yet named:
/// docs/DIFFERENCES.md#plan-spec-entered.
const ROWS: &[u8] = b"\
@
setup:
  spec :!b*/
reported: a;ab;abc;ad;b/t;b/u/w;b1/x;b1/y;b2/c/z;d
seen: a;ab;abc;ad;d
named: a;ab;abc;ad;d
@
setup:
  spec :!ab?
reported: a;ab;abc/v;ad;b;b1;b2;d
seen: a;ad;b;b1;b2;d
named: a;abc;ad;b;b1;b2;d
@
setup:
  spec :(exclude,glob)b/**/
reported: a;ab;abc;ad;b/t;b/u/w;b1;b2;d
seen: a;ab;abc;ad;b1;b2;d
named: a;ab;abc;ad;b1;b2;d
@
setup:
  spec :!b[1]
reported: a;ab;abc;ad;b;b1/x;b1/y;b2;d
seen: a;ab;abc;ad;b;b2;d
named: a;ab;abc;ad;b;b1;b2;d
@
setup:
  spec :!b1
reported: a;ab;abc;ad;b;b2;d
seen: a;ab;abc;ad;b;b2;d
named: a;ab;abc;ad;b;b2;d
@
setup:
  spec :!b1/
reported: a;ab;abc;ad;b;b2;d
seen: a;ab;abc;ad;b;b2;d
named: a;ab;abc;ad;b;b2;d
@
setup:
  spec :!ad?
reported: a;ab;abc;ad;b;b1;b2;d
seen: a;ab;abc;b;b1;b2;d
named: a;ab;abc;b;b1;b2;d
@
setup:
  spec :!ab?/
reported: a;ab;abc/v;ad;b;b1;b2;d
seen: a;ad;b;b1;b2;d
named: a;ab;ad;b;b1;b2;d
@
setup:
  spec :!b?/.
reported: a;ab;abc;ad;b;b1/x;b1/y;b2/c;d
seen: a;ab;abc;ad;d
named: a;ab;abc;ad;b;d
@
setup:
  spec :!d/b*/
reported: a;ab;abc;ad;b;b1;b2;d/b1/x;d/k
seen: a;ab;abc;ad;b;b1;b2;d/k
named: a;ab;abc;ad;b;b1;b2;d
@
setup:
  spec :!?
reported: ab;abc;ad;b/t;b/u;b1;b2;d/b1;d/k
seen: ab;abc;ad;b1;b2
named: ab;abc;ad;b;b1;b2;d
@
setup:
  spec :(exclude,glob)*
reported: ab/v;abc/v;b/t;b/u;b1/x;b1/y;b2/c;d/b1;d/k
seen:
named: ab;abc;ad;b;b1;b2;d
@
setup:
  spec :!b*/
  spec :!ab
reported: a;abc;ad;b/t;b/u/w;b1/x;b1/y;b2/c/z;d
seen: a;abc;ad;d
named: a;abc;ad;d
@
setup:
  spec b1
  spec :!b*/
reported: b1/x;b1/y
seen:
named:
@
setup:
  spec a
  spec b1
  spec :!b1
reported: a
seen: a
named: a
@
setup:
  spec ab*
  spec :!ab?
reported: ab;abc/v
seen:
named: abc
@
setup:
  spec b1/x
  spec :!b[1]
reported: b1/x
seen:
named: b1/x
@
setup:
  spec :!b*/
  index 100644 0 - - b1/i
reported: a;ab;abc;ad;b/t;b/u/w;b1/x;b1/y;b2/c/z;d
seen: a;ab;abc;ad;d
named: a;ab;abc;ad;b1/x;b1/y;d
@
setup:
  spec :!b1
  index 100644 0 - - b1/i
reported: a;ab;abc;ad;b;b2;d
seen: a;ab;abc;ad;b;b2;d
named: a;ab;abc;ad;b;b2;d";

/// The text of the plan that is wanted.
fn text_of(alloc: Global, setup: &Setup, wanted: Wanted, reversed: bool) -> Option<Bytes> {
    let finding = Finding::NonBare;
    if !are_options_prepared_for_plan(&setup.options, finding) {
        return None;
    }
    let mut tree = tree_of(alloc, NODES, reversed)?;
    let mut interrupt = PlannedInterrupt::never();
    let text = plan_clean_as_text(
        alloc,
        &mut tree,
        &mut interrupt,
        b"/w",
        setup,
        wanted,
        finding,
    );
    text.ok()
}

/// Whether some of these paths are at or above a path.
fn is_within(path: &[u8], paths: &[u8]) -> bool {
    for other in paths.split(|byte| *byte == b';') {
        if !other.is_empty() && is_prefix_by_whole_components(other, path) {
            return true;
        }
    }
    false
}

/// Whether a text has no line but for paths at or beneath these.
fn are_within(text: &[u8], paths: &[u8]) -> bool {
    for line in text.lines() {
        if !is_within(line, paths) {
            return false;
        }
    }
    true
}

/// Whether a text has a line for each of these paths in their order, and no other.
fn are_lines(text: &[u8], paths: &[u8]) -> bool {
    let mut rest = text;
    for path in paths.split(|byte| *byte == b';') {
        let (line, after) = rest.split_once_str(b"\n").unwrap_or((rest, b""));
        if line != path {
            return false;
        }
        rest = after;
    }
    rest.is_empty()
}

/// Whether both plans are those that are wanted, and git names whatever the second one has.
fn row_holds(alloc: Global, row: &[u8], reversed: bool) -> Option<bool> {
    let (_, rest) = split_at_mark(row, b"setup:");
    let (setup, rest) = split_at_mark(rest, b"\nreported:");
    let (reported, rest) = split_at_mark(rest, b"\nseen:");
    let (seen, named) = split_at_mark(rest, b"\nnamed:");
    let setup = setup_in(alloc, setup, Finding::NonBare)?;
    let what = What::UntrackedAndIgnored;
    let all = text_of(
        alloc,
        &setup,
        Wanted::allowing_special_and_spec_excluded(what),
        reversed,
    )?;
    let text = text_of(
        alloc,
        &setup,
        Wanted::keeping_special_and_spec_excluded(what),
        reversed,
    )?;
    let text = text.as_bytes();
    let (reported, seen, named) = (held(reported), held(seen), held(named));
    Some(are_lines(all.as_bytes(), reported) && are_lines(text, seen) && are_within(text, named))
}

/// The first row that does not hold, with names listed in either order.
fn first_lie(alloc: Global) -> Option<&'static [u8]> {
    for row in ROWS.split_str(b"\n@\n") {
        let told = (row_holds(alloc, row, false), row_holds(alloc, row, true));
        if !matches!(told, (Some(true), Some(true))) {
            return Some(row);
        }
    }
    None
}

#[test]
fn what_lies_in_a_directory_taken_out_stays_where_that_is_wanted(rt: HostRuntime) {
    let lie = first_lie(rt.alloc());
    assert!(rt; lie.is_none(), "{lie:?}");
}
