//! The program over trees in memory, whole: words, a directory and variables in, a status and two
//! texts out. What git has a line for is in git's words, from git version 2.39.5.
mod rows;

use crate::answer::{Called, answer_words_to_streams};
use crate::finish::finish_with_answer;
use crate::refusal::CommandRefusal;
use bstr::ByteSlice;
use diff_files::{MemoryStats, NodeStat, StatNode};
use git_places::Variable;
use gitbase_core::Bytes;
use rows::ROWS;
use std::alloc::Global;
use worktree_fs::{
    CallKind, MemoryOwners, MemorySink, MemoryWorktree, NewNode, OwnedNode, Ownership,
    PlannedInterrupt,
};
use worktree_report::Refusal;

/// More room than any answer here needs.
const ROOM: usize = 65_536;

/// An index of one entry, `a`, whose file has the bytes `x` and a line feed; its sum is left out.
const INDEX: &[u8] = b"DIRC\0\0\0\x02\0\0\0\x01\
\0\0\0\0\0\0\0\0\0\0\0\0\0\0\0\0\0\0\0\0\0\0\0\0\0\0\x81\xa4\0\0\0\0\0\0\0\0\0\0\0\0\
\x58\x7b\xe6\xb4\xc3\xf9\x3f\x93\xc4\x89\xc0\x11\x1b\xba\x55\x96\x14\x7a\x26\xcb\0\x01a\0\
\0\0\0\0\0\0\0\0\0\0\0\0\0\0\0\0\0\0\0\0";

/// Steps by which each tree begins, parted by `;`: a directory, or a file with its bytes behind
/// `=`, where `~` stands for a line feed.
const BEGIN: &[u8] =
    b"/w/.git/objects;/w/.git/refs;/w/.git/HEAD=ref: refs/heads/main~;/w/.gitignore=*.o~;/w/a=x~;/w/b=;/w/c.o=;/w/d/e=";

/// Steps that each tree has besides, behind those of its row: `@` and a path, and behind `=` a
/// digit for the user who owns what is there, and one for the file system.
const OWNED: &[u8] = b"@/proc/self=19;@/=01;@/w=11;@/w/.git=11;@/w/d=11;@/w/n=11;@/w/n/.git=11";

/// A text with a line feed in the place of each `~`.
fn text_with_line_feeds(alloc: Global, text: &[u8]) -> Option<Vec<u8>> {
    let mut copy = text.to_vec(alloc).ok()?;
    for byte in copy.iter_mut() {
        if *byte == b'~' {
            *byte = b'\n';
        }
    }
    Some(copy)
}

/// Whether a step was taken; one that tells an owner or stats adds nothing to the tree.
fn try_add_step_to_tree(alloc: Global, tree: &mut MemoryWorktree, step: &[u8]) -> bool {
    if step.starts_with(b"@") || step.starts_with(b"%") {
        return true;
    }
    match step.split_once_str(b"=") {
        Some((path, text)) => match text_with_line_feeds(alloc, text) {
            Some(bytes) => tree.add(alloc, path, NewNode::File(&bytes)).is_ok(),
            None => false,
        },
        None => step.is_empty() || tree.add(alloc, step, NewNode::Directory).is_ok(),
    }
}

fn try_add_all_steps_to_tree(alloc: Global, tree: &mut MemoryWorktree, steps: &[u8]) -> bool {
    for step in steps.split(|byte| *byte == b';') {
        if !try_add_step_to_tree(alloc, tree, step) {
            return false;
        }
    }
    true
}

/// A tree: what these steps add, and what each tree has where nothing stands yet.
fn tree_of_steps(alloc: Global, steps: &[u8]) -> Option<MemoryWorktree> {
    let mut tree = MemoryWorktree::new(alloc, false);
    if !try_add_all_steps_to_tree(alloc, &mut tree, steps) {
        return None;
    }
    for step in BEGIN.split(|byte| *byte == b';') {
        let _ = try_add_step_to_tree(alloc, &mut tree, step);
    }
    let _ = tree.add(alloc, b"/w/.git/index", NewNode::File(INDEX));
    Some(tree)
}

/// A node whose owner a step tells.
fn owned_node_of_step(alloc: Global, path: &[u8], said: &[u8]) -> Option<OwnedNode> {
    let [owner, device] = said else {
        return None;
    };
    Some(OwnedNode {
        path: Bytes::from_slice(alloc, path).ok()?,
        ownership: Ownership {
            owner: u32::from(*owner),
            device: u64::from(*device),
        },
        link: None,
    })
}

/// Adds what a step tells of an owner, if it does.
fn push_owned_node_of_step(alloc: Global, nodes: &mut Vec<OwnedNode>, step: &[u8]) -> Option<()> {
    if let Some(told) = step.strip_prefix(b"@".as_slice()) {
        let (path, said) = told.split_once_str(b"=")?;
        nodes.push(owned_node_of_step(alloc, path, said)?).ok()?;
    }
    Some(())
}

/// The owners that these steps tell, and of each tree where they tell none.
fn owners_of_steps(alloc: Global, steps: &[u8]) -> Option<MemoryOwners> {
    let mut nodes = Vec::new(alloc);
    for step in steps.split(|byte| *byte == b';') {
        push_owned_node_of_step(alloc, &mut nodes, step)?;
    }
    for step in OWNED.split(|byte| *byte == b';') {
        push_owned_node_of_step(alloc, &mut nodes, step)?;
    }
    Some(MemoryOwners::new(nodes))
}

/// What is told of a node: its mode by a letter, when it was written, and its size.
fn stat_of_letter_time_size(kind: u8, mtime: u8, size: u8) -> NodeStat {
    let mode = match kind {
        b'f' => 0o100644,
        b'x' => 0o100755,
        _ => 0o040755,
    };
    NodeStat {
        mode,
        mtime: u32::from(mtime),
        ctime: 0,
        uid: 0,
        gid: 0,
        ino: 0,
        size: u64::from(size),
    }
}

/// Adds what a step tells of a node besides, if it does.
fn push_stat_node_of_step(alloc: Global, nodes: &mut Vec<StatNode>, step: &[u8]) -> Option<()> {
    if let Some(told) = step.strip_prefix(b"%".as_slice()) {
        let (path, said) = told.split_once_str(b"=")?;
        let [kind, mtime, size] = said else {
            return None;
        };
        let path = Bytes::from_slice(alloc, path).ok()?;
        let stat = stat_of_letter_time_size(*kind, *mtime, *size);
        nodes
            .push(StatNode {
                path,
                stat,
                target: None,
            })
            .ok()?;
    }
    Some(())
}

/// The stats that these steps tell.
fn stats_of_steps(alloc: Global, steps: &[u8]) -> Option<MemoryStats> {
    let mut nodes = Vec::new(alloc);
    for step in steps.split(|byte| *byte == b';') {
        push_stat_node_of_step(alloc, &mut nodes, step)?;
    }
    Some(MemoryStats::new(nodes))
}

fn split_words_at_spaces(alloc: Global, text: &[u8]) -> Option<Vec<Bytes>> {
    let mut words = Vec::new(alloc);
    for word in text.split(|byte| *byte == b' ') {
        if !word.is_empty() {
            words.push(Bytes::from_slice(alloc, word).ok()?).ok()?;
        }
    }
    Some(words)
}

fn variables_of_name_value_text(alloc: Global, text: &[u8]) -> Option<Vec<Variable>> {
    let mut variables = Vec::new(alloc);
    if let Some((name, value)) = text.split_once_str(b"=") {
        let name = Bytes::from_slice(alloc, name).ok()?;
        let value = Bytes::from_slice(alloc, value).ok()?;
        variables.push(Variable { name, value }).ok()?;
    }
    Some(variables)
}

/// What the standard input holds: the value of a variable `INPUT`.
fn input_of_variable_text(alloc: Global, text: &[u8]) -> Option<Vec<u8>> {
    match text.strip_prefix(b"INPUT=".as_slice()) {
        Some(text) => text_with_line_feeds(alloc, text),
        None => Some(Vec::new(alloc)),
    }
}

/// What a run answers: its status, and what the sinks have.
#[derive(Drop)]
struct Answer {
    status: u8,
    out: MemorySink,
    err: MemorySink,
}

/// The answer where the interrupt is raised from this question on, and `out` refuses from this
/// write on.
fn run_answer_in_memory(
    alloc: Global,
    words: &[Bytes],
    current: &[u8],
    variables: &[Variable],
    input: &[u8],
    tree: &mut MemoryWorktree,
    owners: &mut MemoryOwners,
    stats: &mut MemoryStats,
    mut interrupt: PlannedInterrupt,
    nth: u64,
) -> Option<Answer> {
    let mut out = MemorySink::new(alloc, ROOM).ok()?;
    out.fail_from(nth);
    let mut err = MemorySink::new(alloc, ROOM).ok()?;
    let called = Called {
        words,
        current,
        variables,
        takes_colors: false,
        input,
    };
    let status = answer_words_to_streams(
        alloc,
        &called,
        tree,
        owners,
        stats,
        &mut interrupt,
        &mut out,
        &mut err,
    );
    Some(Answer { status, out, err })
}

/// Whether an answer is the one that is wanted: a status in decimal, the output, and a line by its
/// beginning.
fn is_expected_answer(alloc: Global, answer: &Answer, want: &[u8]) -> bool {
    let (status, rest) = want.split_once_str(b"^").unwrap_or((want, b""));
    let (out, err) = rest.split_once_str(b"^").unwrap_or((rest, b""));
    let wanted = match status {
        b"0" => 0,
        b"1" => 1,
        b"129" => 129,
        b"130" => 130,
        _ => 128,
    };
    match (
        text_with_line_feeds(alloc, out),
        text_with_line_feeds(alloc, err),
    ) {
        (Some(out), Some(err)) => {
            answer.status == wanted
                && answer.out.written_bytes() == out.as_slice()
                && answer.err.written_bytes().starts_with(&err)
                && answer.err.written_bytes().is_empty() == err.is_empty()
        }
        _ => false,
    }
}

/// A row, by its fields.
#[derive(Clone, Copy)]
struct Row<'a> {
    words: &'a [u8],
    current: &'a [u8],
    variable: &'a [u8],
    steps: &'a [u8],
    want: &'a [u8],
}

fn parse_test_row(row: &[u8]) -> Option<Row<'_>> {
    let (words, rest) = row.split_once_str(b"^")?;
    let (current, rest) = rest.split_once_str(b"^")?;
    let (variable, rest) = rest.split_once_str(b"^")?;
    let (steps, want) = rest.split_once_str(b"^")?;
    Some(Row {
        words,
        current,
        variable,
        steps,
        want,
    })
}

/// What the words of a row answer in a tree.
fn run_row_in_tree(
    alloc: Global,
    row: Row<'_>,
    tree: &mut MemoryWorktree,
    interrupt: PlannedInterrupt,
    nth: u64,
) -> Option<Answer> {
    let words = split_words_at_spaces(alloc, row.words)?;
    let variables = variables_of_name_value_text(alloc, row.variable)?;
    let mut owners = owners_of_steps(alloc, row.steps)?;
    let mut stats = stats_of_steps(alloc, row.steps)?;
    let input = input_of_variable_text(alloc, row.variable)?;
    run_answer_in_memory(
        alloc,
        &words,
        row.current,
        &variables,
        &input,
        tree,
        &mut owners,
        &mut stats,
        interrupt,
        nth,
    )
}

fn row_answers_as_expected(
    alloc: Global,
    row: &[u8],
    interrupt: PlannedInterrupt,
    nth: u64,
) -> Option<bool> {
    let row = parse_test_row(row)?;
    let mut tree = tree_of_steps(alloc, row.steps)?;
    let answer = run_row_in_tree(alloc, row, &mut tree, interrupt, nth)?;
    Some(is_expected_answer(alloc, &answer, row.want))
}

/// The first row that does not hold.
fn first_failing_row(alloc: Global) -> Option<&'static [u8]> {
    for row in ROWS.split(|byte| *byte == b'|') {
        if row_answers_as_expected(alloc, row, PlannedInterrupt::never(), u64::MAX) != Some(true) {
            return Some(row);
        }
    }
    None
}

#[test]
fn answers_words(rt: HostRuntime) {
    let lie = first_failing_row(rt.alloc());
    assert!(rt; lie.is_none(), "{lie:?}");
}

#[test]
fn refuses_with_the_output(rt: HostRuntime) {
    let row = b"--version^/^^^128^^fatal: write failure on standard output~";
    let is = row_answers_as_expected(rt.alloc(), row, PlannedInterrupt::never(), 1);
    assert!(rt; is == Some(true));
}

#[test]
fn stops_with_the_interrupt(rt: HostRuntime) {
    let row = b"report^/w^^^130^^fatal: interrupted~";
    let is = row_answers_as_expected(
        rt.alloc(),
        row,
        PlannedInterrupt::raised_from_nth_question(1),
        u64::MAX,
    );
    assert!(rt; is == Some(true));
}

/// Whether a refusal ends with 128 and this line where the worktree names a path as that of its
/// first fault.
fn refusal_prints_line(alloc: Global, refusal: Refusal, first: &[u8], line: &[u8]) -> Option<bool> {
    let mut out = MemorySink::new(alloc, ROOM).ok()?;
    let mut err = MemorySink::new(alloc, ROOM).ok()?;
    let answer = Err(CommandRefusal::Program(refusal));
    let status = finish_with_answer(alloc, answer, first, &mut out, &mut err);
    Some(status == 128 && out.written_bytes().is_empty() && err.written_bytes() == line)
}

#[test]
fn names_the_path_of_a_fault(rt: HostRuntime) {
    let alloc = rt.alloc();
    for (first, line) in [
        (
            b"".as_slice(),
            b"fatal: a file or directory could not be read\n".as_slice(),
        ),
        (
            b"/w/a\n",
            b"fatal: a file or directory could not be read: '/w/a\\0a'\n",
        ),
    ] {
        assert!(rt;
            refusal_prints_line(alloc, Refusal::Fault, first, line) == Some(true),
            "{line:?}"
        );
    }
    let memory = b"fatal: out of memory\n";
    assert!(rt; refusal_prints_line(alloc, Refusal::OutOfMemory, b"/w/a", memory) == Some(true));
}

/// Calls of a worktree that fail one after another, how many of each kind.
const FAILING: [CallKind; 6] = [
    CallKind::Kind,
    CallKind::KindFollowing,
    CallKind::ListOpen,
    CallKind::ListEntry,
    CallKind::Read,
    CallKind::RealPath,
];

const FAILING_EACH: u64 = 40;

/// The status of words in a tree of which one call fails, how many faults were counted, and whether
/// the output has anything.
fn run_row_with_failing_call(
    alloc: Global,
    row: &[u8],
    call: CallKind,
    nth: u64,
) -> Option<(u8, u64, bool)> {
    let row = parse_test_row(row)?;
    let mut tree = tree_of_steps(alloc, row.steps)?;
    tree.plan_fault_of_nth_call(alloc, call, nth).ok()?;
    let never = PlannedInterrupt::never();
    let answer = run_row_in_tree(alloc, row, &mut tree, never, u64::MAX)?;
    let tells = !answer.out.written_bytes().is_empty();
    Some((answer.status, tree.fault_count(), tells))
}

/// The walk goes on with some faults. A report is given with them, and states by stat fields are
/// not.
#[test]
fn states_by_stat_hide_no_fault(rt: HostRuntime) {
    let alloc = rt.alloc();
    let mut swallowed = 0;
    for call in FAILING {
        for nth in 1..=FAILING_EACH {
            let state = run_row_with_failing_call(
                alloc,
                b"state --by-stat^/w^^%/w/a=f\x05\x02^",
                call,
                nth,
            );
            let Some((status, faults, tells)) = state else {
                assert!(rt; false, "memory");
                return;
            };
            assert!(rt;
                (status == 0) == (faults == 0) && tells == (faults == 0),
                "{call:?} {nth}"
            );
            if let Some((0, 1, true)) = run_row_with_failing_call(
                alloc,
                b"report^/w^^^",
                call,
                nth,
            ) {
                swallowed = 1;
            }
        }
    }
    assert!(rt; swallowed == 1, "no report is given with a fault");
}

/// A row of `state --by-stat` whose stat fields tell all but where the index was written with the
/// file.
const STAMPED: &[u8] = b"state --by-stat^/w^^/w/.git/index=DIRC\0\0\0\x02\0\0\0\x01\
\0\0\0\0\0\0\0\0\0\0\0\x05\0\0\0\0\0\0\0\0\0\0\0\0\0\0\x81\xa4\0\0\0\0\0\0\0\0\0\0\0\x02\
\x58\x7b\xe6\xb4\xc3\xf9\x3f\x93\xc4\x89\xc0\x11\x1b\xba\x55\x96\x14\x7a\x26\xcb\0\x01a\0\
\0\0\0\0\0\0\0\0\0\0\0\0\0\0\0\0\0\0\0\0;%/w/a=f\x05\x02;%/w/.git/index=f";

/// How many files are read for it where the index was written at a time.
fn count_reads_with_index_time(alloc: Global, time: u8) -> Option<u64> {
    let mut row = STAMPED.to_vec(alloc).ok()?;
    row.push(time).ok()?;
    row.extend_from_slice(b"\x68^").ok()?;
    let row = parse_test_row(&row)?;
    let mut tree = tree_of_steps(alloc, row.steps)?;
    let never = PlannedInterrupt::never();
    let answer = run_row_in_tree(alloc, row, &mut tree, never, u64::MAX)?;
    if answer.status != 0 {
        return None;
    }
    Some(tree.read_count())
}

/// A file is read where the index was not written later than it, and not where it was.
#[test]
fn states_by_stat_read_what_stats_do_not_tell(rt: HostRuntime) {
    let alloc = rt.alloc();
    match (
        count_reads_with_index_time(alloc, 6),
        count_reads_with_index_time(alloc, 5),
    ) {
        (Some(told), Some(untold)) => {
            assert!(rt; untold == told.saturating_add(1), "{told} {untold}");
        }
        _ => {
            assert!(rt; false, "no answer");
        }
    }
}
