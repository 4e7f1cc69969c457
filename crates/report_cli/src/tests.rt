//! Reports over a worktree in memory, whole: words in, a status and two texts out.
mod calls;
mod composed;
mod depths;
mod endings;
mod faults;
mod mapped;
mod modules;
mod plans;
mod rows;
mod swallowed;
mod walks;

use crate::dispatch::dispatch;
use depths::{DEEPEST, LIMITED, is_chain_walked_to_depth};
use endings::ENDINGS;
use faults::{
    AT_ONCE, CASES, COLLAPSE, COLLAPSE_AT_ONCE, CONFIGURED, EACH_IN_TURN, EACH_LOOK, Ending,
    Failing, IGNORING, IN_ORDER, MISREAD_FIRST, NESTED,
};
use git_config_lite::Source;
use gitbase_core::{Bytes, OutOfMemory};
use mapped::MAPPED;
use modules::{MISREAD, MODULED};
use plans::{CHANGED, CLEANED, UPDATED};
use rows::{A_FILE, IGNORED, OPTIONS, REFUSALS, REPORTS, REQUIRED, Row, WITHOUT_RULES};
use std::alloc::Global;
use walks::{DELETED, FOLDED, ROOTED, RULED, SPECIFIED};
use worktree_fs::{AddError, MemorySink, MemoryWorktree, NewNode, PlannedInterrupt};
use worktree_report::Permissions;

const REPORT: &[&[u8]] = &[b"report", b"/w", b"/s"];

/// More room than any report here needs.
const ROOM: usize = 65_536;

const USAGE: &[u8] = b"usage: report ROOT SETUP or generate N\n";

/// What a run answers: its status, and what the sinks have.
#[derive(Drop)]
struct Answer {
    status: u8,
    out: MemorySink,
    err: MemorySink,
}

impl Answer {
    /// Whether this is the status and what was written.
    fn is(&self, status: u8, out: &[u8], err: &[u8]) -> bool {
        self.status == status && self.out.written_bytes() == out && self.err.written_bytes() == err
    }
}

fn words(alloc: Global, texts: &[&[u8]]) -> Result<Vec<Bytes>, OutOfMemory> {
    let mut words = Vec::new(alloc);
    for text in texts {
        words.push(Bytes::from_slice(alloc, text)?)?;
    }
    Ok(words)
}

fn tree(
    alloc: Global,
    nodes: &[(&[u8], NewNode<'_>)],
    setup: &[u8],
) -> Result<MemoryWorktree, AddError> {
    let mut tree = MemoryWorktree::new(alloc, false);
    for (path, node) in nodes {
        tree.add(alloc, path, *node)?;
    }
    tree.add(alloc, b"/s", NewNode::File(setup))?;
    Ok(tree)
}

/// The answer to these words where `out` has this much room and refuses from this write on.
fn run_with_limited_output(
    alloc: Global,
    texts: &[&[u8]],
    tree: &mut MemoryWorktree,
    room: usize,
    nth: u64,
) -> Result<Answer, OutOfMemory> {
    let words = words(alloc, texts)?;
    let mut interrupt = PlannedInterrupt::never();
    let mut out = MemorySink::new(alloc, room)?;
    out.fail_from(nth);
    let mut err = MemorySink::new(alloc, ROOM)?;
    let status = dispatch(alloc, &words, tree, &mut interrupt, &mut out, &mut err);
    Ok(Answer { status, out, err })
}

/// Whether these words are answered so.
fn is_answered_as(
    alloc: Global,
    texts: &[&[u8]],
    tree: &mut MemoryWorktree,
    want: (u8, &[u8], &[u8]),
) -> bool {
    match run_with_limited_output(alloc, texts, tree, ROOM, u64::MAX) {
        Ok(answer) => answer.is(want.0, want.1, want.2),
        Err(_) => false,
    }
}

/// Whether a row's worktree, listed in this order, is answered as the row says.
fn row_is_answered_as_expected(alloc: Global, row: &Row, reversed: bool) -> bool {
    match tree(alloc, row.nodes, row.setup) {
        Ok(mut tree) => {
            tree.set_listing_reversed(reversed);
            is_answered_as(alloc, REPORT, &mut tree, (row.status, row.out, row.err))
        }
        Err(_) => false,
    }
}

/// The name of the first row that is answered otherwise, in one order of listing or the other.
fn first_failing_row(alloc: Global, rows: &[Row]) -> Option<&'static str> {
    for row in rows {
        if !row_is_answered_as_expected(alloc, row, false)
            || !row_is_answered_as_expected(alloc, row, true)
        {
            return Some(row.name);
        }
    }
    None
}

/// A setup by which subtrees are walked at once.
fn at_once(alloc: Global, setup: &[u8]) -> Result<Vec<u8>, OutOfMemory> {
    let mut text = setup.to_vec(alloc)?;
    text.extend_from_slice(b"\noption strategy at_once\n")?;
    Ok(text)
}

/// Whether a row's worktree, listed in this order, is answered as the row says where subtrees are
/// walked at once.
fn row_holds_with_at_once_strategy(alloc: Global, row: &Row, reversed: bool) -> bool {
    let Ok(setup) = at_once(alloc, row.setup) else {
        return false;
    };
    match tree(alloc, row.nodes, &setup) {
        Ok(mut tree) => {
            tree.set_listing_reversed(reversed);
            is_answered_as(alloc, REPORT, &mut tree, (row.status, row.out, row.err))
        }
        Err(_) => false,
    }
}

/// The name of the first row that is answered otherwise where subtrees are walked at once, in one
/// order of listing or the other.
fn first_row_failing_at_once_strategy(alloc: Global, rows: &[Row]) -> Option<&'static str> {
    for row in rows {
        if !row_holds_with_at_once_strategy(alloc, row, false)
            || !row_holds_with_at_once_strategy(alloc, row, true)
        {
            return Some(row.name);
        }
    }
    None
}

#[test]
fn reports_each_path(rt: HostRuntime) {
    assert_eq!(rt; first_failing_row(rt.alloc(), &REPORTS), None);
}

#[test]
fn asks_ignore_rules(rt: HostRuntime) {
    assert_eq!(rt; first_failing_row(rt.alloc(), &IGNORED), None);
}

#[test]
fn looks_as_it_is_asked(rt: HostRuntime) {
    assert_eq!(rt; first_failing_row(rt.alloc(), &OPTIONS), None);
}

#[test]
fn folds_directories(rt: HostRuntime) {
    assert_eq!(rt; first_failing_row(rt.alloc(), &FOLDED), None);
}

#[test]
fn spares_what_deletion_must_not_take(rt: HostRuntime) {
    assert_eq!(rt; first_failing_row(rt.alloc(), &DELETED), None);
}

#[test]
fn walks_from_a_traversal_root(rt: HostRuntime) {
    assert_eq!(rt; first_failing_row(rt.alloc(), &ROOTED), None);
}

#[test]
fn reports_what_path_specs_mean(rt: HostRuntime) {
    assert_eq!(rt; first_failing_row(rt.alloc(), &SPECIFIED), None);
}

#[test]
fn reads_rules_from_the_blobs_of_the_index(rt: HostRuntime) {
    assert_eq!(rt; first_failing_row(rt.alloc(), &MAPPED), None);
}

#[test]
fn names_the_rule_that_decides(rt: HostRuntime) {
    assert_eq!(rt; first_failing_row(rt.alloc(), &RULED), None);
}

#[test]
fn says_of_which_submodule_a_path_is(rt: HostRuntime) {
    assert_eq!(rt; first_failing_row(rt.alloc(), &MODULED), None);
}

#[test]
fn says_what_of_submodules_is_outside_its_grammar(rt: HostRuntime) {
    assert_eq!(rt; first_failing_row(rt.alloc(), &MISREAD), None);
}

#[test]
fn answers_each_call(rt: HostRuntime) {
    let alloc = rt.alloc();
    assert!(rt; calls::setup_text_parses_as_expected(alloc));
    assert_eq!(rt; calls::loads_one_submodule(alloc), Some(true));
    assert_eq!(rt; calls::makes_expected_report_text(alloc), Some(true));
    assert!(rt;
        calls::report_errors_have_statuses()
            && calls::permissions_have_defaults()
            && calls::isolated_permissions_deny_outside()
    );
}

#[test]
fn admits_configurations(rt: HostRuntime) {
    let isolated = Permissions::isolated();
    let all = Permissions::all();
    assert!(rt; !isolated.admits(Source::User) && isolated.admits(Source::Local));
    assert!(rt; !all.admits(Source::GitInstallation) && all.admits(Source::System));
}

#[test]
fn reports_the_same_where_subtrees_are_walked_at_once(rt: HostRuntime) {
    let alloc = rt.alloc();
    assert_eq!(rt; first_row_failing_at_once_strategy(alloc, &REPORTS), None);
    assert_eq!(rt; first_row_failing_at_once_strategy(alloc, &IGNORED), None);
    assert_eq!(rt; first_row_failing_at_once_strategy(alloc, &FOLDED), None);
    assert_eq!(rt; first_row_failing_at_once_strategy(alloc, &DELETED), None);
    assert_eq!(rt; first_row_failing_at_once_strategy(alloc, &OPTIONS), None);
    assert_eq!(rt; first_row_failing_at_once_strategy(alloc, &ROOTED), None);
    assert_eq!(rt; first_row_failing_at_once_strategy(alloc, &SPECIFIED), None);
    assert_eq!(rt; first_row_failing_at_once_strategy(alloc, &MAPPED), None);
    assert_eq!(rt; first_row_failing_at_once_strategy(alloc, &RULED), None);
    assert_eq!(rt; first_row_failing_at_once_strategy(alloc, &MODULED), None);
}

#[test]
fn refuses_what_it_must(rt: HostRuntime) {
    assert_eq!(rt; first_failing_row(rt.alloc(), &REFUSALS), None);
    assert_eq!(rt;
        first_row_failing_at_once_strategy(rt.alloc(), &REFUSALS),
        None
    );
}

/// Words that are no command.
static NO_COMMANDS: [&[&[u8]]; 11] = [
    &[],
    &[b"report", b"/w"],
    &[b"report", b"w", b"/s"],
    &[b"report", b"/w/..", b"/s"],
    &[b"composed", b"report", b"/w", b"/s"],
    &[b"composed", b"generate", b"1"],
    &[b"generate"],
    &[b"generate", b"0"],
    &[b"generate", b"01"],
    &[b"generate", b"100001"],
    &[b"generate", b"1x"],
];

/// Files in memory, and how much there is to report of them.
static GENERATED: [(&[u8], &[u8]); 2] = [
    (
        b"1",
        b"generated 1 lines 0\n# read_dir 2 returned 0 seen 1\n",
    ),
    (
        b"200",
        b"generated 200 lines 91\n# read_dir 3 returned 91 seen 201\n",
    ),
];

#[test]
fn says_how_much_there_is_of_files_in_memory(rt: HostRuntime) {
    let alloc = rt.alloc();
    for composes in [false, true] {
        let mut tree = MemoryWorktree::new(alloc, composes);
        for (count, text) in GENERATED {
            assert!(rt; is_answered_as(alloc, &[b"generate", count], &mut tree, (0, text, b"")));
        }
        assert_eq!(rt; tree.read_count(), 0);
    }
}

#[test]
fn composes_names_where_the_worktree_does(rt: HostRuntime) {
    assert_eq!(rt;
        composed::composes_only_with_composed_word(rt.alloc()),
        Ok(true)
    );
}

#[test]
fn says_how_it_is_used(rt: HostRuntime) {
    let alloc = rt.alloc();
    let mut tree = MemoryWorktree::new(alloc, false);
    for words in NO_COMMANDS {
        assert!(rt;
            is_answered_as(alloc, words, &mut tree, (2, b"", USAGE)),
            "{words:?}"
        );
    }
    assert!(rt; is_answered_as(alloc, REPORT, &mut tree, (3, b"", b"setup: line 0\n")));
}

#[test]
fn says_how_each_planner_is_used(rt: HostRuntime) {
    assert!(rt; plans::wrong_words_show_usages(rt.alloc()));
}

#[test]
fn plans_what_may_be_removed(rt: HostRuntime) {
    assert_eq!(rt; plans::first_failing_plan(rt.alloc(), &CLEANED), None);
}

#[test]
fn plans_an_update_of_the_submodules(rt: HostRuntime) {
    assert_eq!(rt; plans::first_failing_plan(rt.alloc(), &UPDATED), None);
}

#[test]
fn tells_the_states_of_the_index(rt: HostRuntime) {
    assert_eq!(rt; plans::first_failing_plan(rt.alloc(), &CHANGED), None);
}

#[test]
fn enters_directories_to_the_limit(rt: HostRuntime) {
    let alloc = rt.alloc();
    for setup in [LIMITED, WITHOUT_RULES] {
        assert_eq!(rt; is_chain_walked_to_depth(alloc, 256, setup), Some(true));
        assert_eq!(rt; is_chain_walked_to_depth(alloc, 257, setup), Some(false));
    }
}

#[test]
fn enters_a_thousand_directories_in_one_another(rt: HostRuntime) {
    assert_eq!(rt;
        is_chain_walked_to_depth(rt.alloc(), 1000, DEEPEST),
        Some(true)
    );
}

/// A run for these words with what fails in it planned; with no words where the sink of messages
/// fails.
fn run_with_planned_failure(
    alloc: Global,
    texts: &[&[u8]],
    tree: &mut MemoryWorktree,
    failing: Failing,
) -> Result<Answer, OutOfMemory> {
    let mut interrupt = PlannedInterrupt::never();
    let mut out = MemorySink::new(alloc, ROOM)?;
    let mut err = MemorySink::new(alloc, ROOM)?;
    let mut asked = words(alloc, texts)?;
    match failing {
        Failing::Nothing => (),
        Failing::Call(call, nth) => tree.plan_fault_of_nth_call(alloc, call, nth)?,
        Failing::Out => out.fail_from(1),
        Failing::Err => {
            err.fail_from(1);
            asked = Vec::new(alloc);
        }
        Failing::Interrupt(nth) => interrupt = PlannedInterrupt::raised_from_nth_question(nth),
    }
    let status = dispatch(alloc, &asked, tree, &mut interrupt, &mut out, &mut err);
    Ok(Answer { status, out, err })
}

/// Whether a run for these words over these nodes ends so where this fails in it.
fn run_ends_as_expected(
    alloc: Global,
    texts: &[&[u8]],
    nodes: &[(&[u8], NewNode<'_>)],
    setup: &[u8],
    failing: Failing,
    ending: Ending,
) -> bool {
    let (status, text, faults) = ending;
    let Ok(mut tree) = tree(alloc, nodes, setup) else {
        return false;
    };
    let (out, err): (&[u8], &[u8]) = if status == 0 {
        (text, b"")
    } else {
        (b"", text)
    };
    match run_with_planned_failure(alloc, texts, &mut tree, failing) {
        Ok(answer) => answer.is(status, out, err) && tree.fault_count() == faults,
        Err(_) => false,
    }
}

/// Whether a report over these nodes ends so where this fails in it.
fn report_ends_as_expected(
    alloc: Global,
    nodes: &[(&[u8], NewNode<'_>)],
    setup: &[u8],
    failing: Failing,
    ending: Ending,
) -> bool {
    run_ends_as_expected(alloc, REPORT, nodes, setup, failing, ending)
}

#[test]
fn ends_each_plan_as_it_must(rt: HostRuntime) {
    let alloc = rt.alloc();
    assert!(rt; endings::planners_refuse_missing_setup(alloc));
    for case in &ENDINGS {
        assert!(rt; endings::case_ends_as_expected(alloc, case), "{case:?}");
    }
}

#[test]
fn ends_as_it_must_whatever_fails(rt: HostRuntime) {
    for (failing, held, at_once) in &EACH_IN_TURN {
        assert!(rt;
            report_ends_as_expected(rt.alloc(), IGNORING, REQUIRED, *failing, *held),
            "{failing:?}"
        );
        assert!(rt;
            report_ends_as_expected(rt.alloc(), IGNORING, AT_ONCE, *failing, *at_once),
            "{failing:?} at once"
        );
    }
    for (nodes, setup, failing, ending) in &CASES {
        assert!(rt;
            report_ends_as_expected(rt.alloc(), nodes, setup, *failing, *ending),
            "{failing:?}"
        );
    }
}

#[test]
fn reads_no_file_behind_one_that_is_refused(rt: HostRuntime) {
    for (failing, ending) in &IN_ORDER {
        assert!(rt;
            report_ends_as_expected(rt.alloc(), MISREAD_FIRST, CONFIGURED, *failing, *ending),
            "{failing:?}"
        );
    }
}

#[test]
fn looks_for_a_repository_in_vain_where_a_call_fails(rt: HostRuntime) {
    for (failing, held, at_once) in &EACH_LOOK {
        assert!(rt;
            report_ends_as_expected(rt.alloc(), NESTED, COLLAPSE, *failing, *held),
            "{failing:?}"
        );
        assert!(rt;
            report_ends_as_expected(rt.alloc(), NESTED, COLLAPSE_AT_ONCE, *failing, *at_once),
            "{failing:?} at once"
        );
    }
}

/// Whether a report of one file, over a sink with this room that refuses from this write on, leaves
/// these bytes there and says that its output was refused.
fn report_is_cut_at_refused_output(
    alloc: Global,
    setup: &[u8],
    room: usize,
    nth: u64,
    written: &[u8],
) -> bool {
    let Ok(mut tree) = tree(alloc, &[(b"/w/a", A_FILE)], setup) else {
        return false;
    };
    match run_with_limited_output(alloc, REPORT, &mut tree, room, nth) {
        Ok(answer) => answer.is(7, written, b"output fault\n"),
        Err(_) => false,
    }
}

#[test]
fn says_that_output_was_refused(rt: HostRuntime) {
    let alloc = rt.alloc();
    assert!(rt; report_is_cut_at_refused_output(alloc, REQUIRED, ROOM, 1, b""));
    assert!(rt; report_is_cut_at_refused_output(alloc, REQUIRED, 9, 9, b"untracked"));
    assert!(rt; report_is_cut_at_refused_output(alloc, WITHOUT_RULES, ROOM, 1, b""));
}
