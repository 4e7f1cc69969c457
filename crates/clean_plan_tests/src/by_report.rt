//! Plans by a report that was made.
use crate::plans::{answer_is, setup_of};
use crate::tree::tree_of;
use bstr::ByteSlice;
use clean_plan::{Finding, What, plan_removal_by_report};
use gitbase_core::MemoryStore;
use std::alloc::Global;
use test_cases::{held, split_at_mark};
use worktree_fs::PlannedInterrupt;
use worktree_report::{Report, worktree_report};

/// The tree of the report.
const NODES: &[u8] = b"\
  file`/w/a
  file`/w/d/i
  file`/w/d/x";

/// The setup of the plan; that of the report has no lines.
const LINES: &[u8] = b"index 100644 0 - - d/i\n";

/// Cases, each behind an `@`: the nodes of the tree that is asked for the real path, and the paths
/// that are wanted or why there is no plan.
const ROWS: &[u8] = b"\
@
nodes:
  file`/w/a
wanted: a;d/x
@
nodes:
  directory`/w
wanted: a;d/x
@
nodes:
  directory`/w
  first real path fails
wanted: fault";

/// The report of the tree, in which all files are untracked.
fn report_of(alloc: Global) -> Option<Report> {
    let mut tree = tree_of(alloc, NODES, false)?;
    let setup = setup_of(alloc, b"", Finding::NonBare)?;
    let mut objects = MemoryStore::new(alloc);
    let mut interrupt = PlannedInterrupt::never();
    let report = worktree_report(
        alloc,
        &mut tree,
        &mut objects,
        &mut interrupt,
        b"/w",
        &setup,
    );
    report.ok()
}

/// Whether the plan by the report is the one that is wanted, and a fault was counted where it is
/// one and nowhere else.
fn holds(alloc: Global, report: &Report, row: &[u8]) -> bool {
    let (_, rest) = split_at_mark(row, b"nodes:");
    let (nodes, want) = split_at_mark(rest, b"\nwanted:");
    let want = held(want);
    let Some(mut tree) = tree_of(alloc, held(nodes), false) else {
        return false;
    };
    let Some(setup) = setup_of(alloc, LINES, Finding::NonBare) else {
        return false;
    };
    let what = What::UntrackedAndIgnored;
    let answer = plan_removal_by_report(alloc, &mut tree, b"/w", &setup, what, report);
    let counted: u64 = if want == b"fault".as_slice() { 1 } else { 0 };
    answer_is(&answer, want) && tree.fault_count() == counted
}

/// The first row that does not hold.
fn first_lie(alloc: Global) -> Option<&'static [u8]> {
    let Some(report) = report_of(alloc) else {
        return Some(NODES);
    };
    for row in ROWS.split_str(b"\n@\n") {
        if !holds(alloc, &report, row) {
            return Some(row);
        }
    }
    None
}

#[test]
fn plans_by_a_report(rt: HostRuntime) {
    let lie = first_lie(rt.alloc());
    assert!(rt; lie.is_none(), "{lie:?}");
}
