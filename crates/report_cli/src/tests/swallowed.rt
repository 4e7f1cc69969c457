//! Faults that a walk goes on with: a report is given, and a plan is not.
use crate::tests::faults::{Ending, Failing, NESTED};
use crate::tests::run_ends_as_expected;
use std::alloc::Global;
use worktree_fs::CallKind;

const CLEAN: &[&[u8]] = &[b"clean", b"all", b"nonbare", b"/w", b"/s"];

const STATUS: &[&[u8]] = &[b"status", b"/w", b"/s"];

const FAULT: Ending = (6, b"worktree fault\n", 1);

/// Which call fails over [`NESTED`]: the look at a name, at what makes its repository one, the
/// reading of its `HEAD`, and the question where its git directory is. With one of the first three
/// the repository would be a directory like any other.
static SWALLOWED: [Failing; 5] = [
    Failing::Call(CallKind::Kind, 2),
    Failing::Call(CallKind::KindFollowing, 2),
    Failing::Call(CallKind::KindFollowing, 3),
    Failing::Call(CallKind::Read, 4),
    Failing::Call(CallKind::RealPath, 1),
];

/// Whether both end so where this fails in them.
fn clean_and_status_end_as_expected(
    alloc: Global,
    failing: Failing,
    clean: Ending,
    status: Ending,
) -> bool {
    run_ends_as_expected(alloc, CLEAN, NESTED, b"", failing, clean)
        && run_ends_as_expected(alloc, STATUS, NESTED, b"", failing, status)
}

/// A plan asks for one real path behind its report, and for no more; the walk asks for two.
#[test]
fn asks_for_one_real_path(rt: HostRuntime) {
    let last = Failing::Call(CallKind::RealPath, 3);
    let none = Failing::Call(CallKind::RealPath, 4);
    assert!(rt; run_ends_as_expected(rt.alloc(), CLEAN, NESTED, b"", last, FAULT));
    assert!(rt; run_ends_as_expected(rt.alloc(), CLEAN, NESTED, b"", none, (0, b"d/a\n", 0)));
}

#[test]
fn plans_nothing_by_a_report_with_a_fault(rt: HostRuntime) {
    let found = b"untracked file - always - -\td/a\nuntracked repository - always - -\td/r\n";
    assert!(rt;
        clean_and_status_end_as_expected(
            rt.alloc(),
            Failing::Nothing,
            (0, b"d/a\n", 0),
            (0, found, 0)
        )
    );
    for failing in &SWALLOWED {
        assert!(rt;
            clean_and_status_end_as_expected(rt.alloc(), *failing, FAULT, FAULT),
            "{failing:?}"
        );
    }
}
