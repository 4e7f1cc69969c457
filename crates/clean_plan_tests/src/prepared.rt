//! Options that are prepared for a plan.
use clean_plan::{Finding, are_options_prepared_for_plan, prepare};
use std::alloc::Global;
use worktree_report::{Setup, SetupOptions};

fn options_of(alloc: Global, lines: &[u8]) -> Option<SetupOptions> {
    let setup = Setup::parse(alloc, lines).ok()?;
    Some(setup.options)
}

/// Whether options are prepared as asked just after they are, and neither before nor for what else
/// may be asked.
fn is_done(alloc: Global, lines: &[u8], finding: Finding, other: Finding) -> bool {
    let Some(mut options) = options_of(alloc, lines) else {
        return false;
    };
    let before = are_options_prepared_for_plan(&options, finding);
    prepare(&mut options, finding);
    !before
        && are_options_prepared_for_plan(&options, finding)
        && !are_options_prepared_for_plan(&options, other)
}

/// Whether what one line more sets stays as options are prepared.
fn is_kept(alloc: Global, line: &[u8]) -> bool {
    let Some(plain) = options_of(alloc, b"") else {
        return false;
    };
    let Some(other) = options_of(alloc, line) else {
        return false;
    };
    let mut made = plain;
    let mut more = other;
    prepare(&mut made, Finding::All);
    prepare(&mut more, Finding::All);
    made != more
}

#[test]
fn prepares_options(rt: HostRuntime) {
    let alloc = rt.alloc();
    let lines = b"option submodules yes\noption emit_collapsed all\noption origins yes\n";
    assert!(rt; is_done(alloc, b"", Finding::NonBare, Finding::All));
    assert!(rt; is_done(alloc, lines, Finding::All, Finding::NonBare));
    assert!(rt; is_kept(alloc, b"option ignore_case yes\n"));
    assert!(rt; !is_kept(alloc, b"option emit_untracked collapse\n"));
}
