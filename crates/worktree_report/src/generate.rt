//! How much there is to report of a tree of files in memory.
ghost use Rattle.std.specs.Prelude.{◌≡◌, ◌≤◌, ◌∷◌, [], false, map, codes, option_map, Some, IfOk, IfErr, OnOk, IsErrOf};
ghost use Rattle.worktree_fs.specs.Causes.{CountIncreasedOrSaturated, saturating_sum};
ghost use Rattle.worktree_report.specs.Generate.{worktree_root, relative_path_of_file, full_path_of_file, tree_of_file_count, is_file_number_tracked, insert_path_if_tracked, tracked_paths_of_file_count, index_entry_of_path, index_of_file_count, text_of_generated_setup, setup_of_file_count, report_of_file_count, lines_of_generated_report, IsGeneratedTextWithQuestions, IsRefusalOfGenerating};
ghost use Rattle.worktree_report.specs.Asked.{sources_of_tree_and_setup, walk_report_of_setup};

use crate::lines::{append_decimal_number, append_outcome_line};
use crate::refusal::Refusal;
use crate::setup::Setup;
use crate::walk_by_setup::walk_by_setup;
use dir_classify::Error;
use dir_walk::Report;
use gitbase_core::{Bytes, Find, Flags, IndexEntry, Mode, ObjectId, OutOfMemory, PathText, State};
use std::alloc::Global;
use std::collections::BTreeSet;
use worktree_fs::{Interrupt, MemoryWorktree, NewNode};

/// The worktree root.
const ROOT: &[u8] = b"/w";

/// The git directory lies elsewhere, files whose number ends in 7 are ignored, and directories of
/// untracked files and of ignored ones are folded.
const SETUP: &[u8] =
    b"git_dir /g\nglobal f*7\noption emit_untracked collapse\noption emit_ignored collapse\n";

/// The path of the file with a number, from 0, relative to the worktree root: there are a hundred
/// files to a directory.
fn relative_path_of_file(alloc: Global, number: usize) -> Result<PathText, OutOfMemory>
    ensures { IfOk result (λ path. path ≡ relative_path_of_file number) }
{
    let directory = number / 100;
    let text = format!(in alloc; "d{directory}/f{number}")?;
    Ok(PathText::from_bytes(alloc, text.as_bytes())?)
}

/// Its whole path.
fn full_path_of_file(alloc: Global, number: usize) -> Result<PathText, OutOfMemory>
    ensures { IfOk result (λ path. path ≡ full_path_of_file number) }
{
    let directory = number / 100;
    let text = format!(in alloc; "/w/d{directory}/f{number}")?;
    Ok(PathText::from_bytes(alloc, text.as_bytes())?)
}

/// A tree of so many files without bytes. What else `add` may answer does not come, as no path is
/// added twice or lies below that of a file, and would be answered as want of memory.
fn worktree_of_file_count(alloc: Global, count: usize) -> Result<MemoryWorktree, OutOfMemory>
    ensures tree { IfOk result (λ tree. tree.tree ≡ tree_of_file_count count) }
    ensures composes { IfOk result (λ tree. tree.composes ≡ false) }
    ensures faults { IfOk result (λ tree. tree.faults ≡ 0) }
{
    let mut tree = MemoryWorktree::new(alloc, false);
    for number in 0..count {
        let path = full_path_of_file(alloc, number)?;
        match tree.add(alloc, path.as_bytes(), NewNode::File(b"")) {
            Ok(()) => {}
            Err(_) => return Err(OutOfMemory),
        }
    }
    Ok(tree)
}

/// Whether a file is tracked: every tenth one of every other directory is.
fn is_file_number_tracked(number: usize) -> bool
    ensures { result ≡ is_file_number_tracked number }
{
    number % 200 < 100 && number % 10 == 0
}

/// Puts the path of a file into its place among others, where it is tracked.
fn insert_path_if_tracked(
    alloc: Global,
    paths: &mut BTreeSet<PathText>,
    number: usize,
) -> Result<(), OutOfMemory>
    ensures { OnOk result (paths.new.keys ≡ insert_path_if_tracked paths.old.keys number) }
{
    if !is_file_number_tracked(number) {
        return Ok(());
    }
    paths.insert(relative_path_of_file(alloc, number)?)?;
    Ok(())
}

/// The paths of the tracked ones of so many files.
fn tracked_paths_of_file_count(
    alloc: Global,
    count: usize,
) -> Result<BTreeSet<PathText>, OutOfMemory>
    ensures { IfOk result (λ paths. paths.keys ≡ tracked_paths_of_file_count count) }
{
    let mut paths = BTreeSet::new(alloc);
    for number in 0..count {
        insert_path_if_tracked(alloc, &mut paths, number)?;
    }
    Ok(paths)
}

/// The entry of a file that was not looked at.
fn index_entry_of_path(path: PathText) -> IndexEntry
    ensures { result ≡ index_entry_of_path path }
{
    IndexEntry {
        path,
        stage: 0,
        mode: Mode::FILE,
        flags: Flags::empty(),
        id: ObjectId::null(),
    }
}

/// The index of so many files. That its entries ascend and have paths that an index takes is not
/// said; where they did not, want of memory would be answered.
fn index_of_file_count(alloc: Global, count: usize) -> Result<State, OutOfMemory>
    ensures { IfOk result (λ index. index ≡ index_of_file_count count) }
{
    let paths = tracked_paths_of_file_count(alloc, count)?;
    let mut entries = Vec::new(alloc);
    for path in paths {
        entries.push(index_entry_of_path(path))?;
    }
    match State::from_entries(entries) {
        Ok(index) => Ok(index),
        Err(_) => Err(OutOfMemory),
    }
}

/// A setup with another index.
fn replace_index_of_setup(mut setup: Setup, index: State) -> Setup
    ensures { result ≡ record setup { index = index } }
{
    setup.index = index;
    setup
}

/// What the report of so many files is made from.
fn setup_of_file_count(alloc: Global, count: usize) -> Result<Setup, OutOfMemory>
    ensures { IfOk result (λ setup. setup_of_file_count count ≡ Some setup) }
{
    match Setup::parse(alloc, SETUP) {
        Ok(setup) => Ok(replace_index_of_setup(setup, index_of_file_count(alloc, count)?)),
        Err(_) => Err(OutOfMemory),
    }
}

/// Why there is no report of a tree in memory, of which no call is planned to fail: the interrupt
/// was raised, or memory is wanted, which would be answered for any other refusal too.
fn refusal_of_generated_walk(error: Error) -> Refusal
    ensures answers { IsRefusalOfGenerating result }
    ensures interrupted { result ≡ Refusal.Interrupted → error ≡ Error.Interrupted }
{
    match error {
        Error::Interrupted => Refusal::Interrupted,
        _ => Refusal::OutOfMemory,
    }
}

/// The report of a tree in memory, by a setup.
/// See docs/DECISIONS.md#generate-out-of-memory.
fn report_of_memory_worktree<I: Interrupt>(
    alloc: Global,
    mut tree: MemoryWorktree,
    interrupt: &mut I,
    setup: &Setup,
) -> Result<Report, Refusal>
    requires composes { tree.composes ≡ false }
    requires faults { tree.faults ≡ 0 }
    ensures gives { IfOk result (λ r. walk_report_of_setup false (sources_of_tree_and_setup
        tree.tree setup.now) worktree_root setup.now ≡ Some r) }
    ensures asked { IfOk result (λ r. saturating_sum (I.questions interrupt.old)
        r.outcome.read_dir_calls ≤ I.questions interrupt.new) }
    ensures answers { IfErr result IsRefusalOfGenerating }
    ensures interrupted { IsErrOf result Refusal.Interrupted
        → CountIncreasedOrSaturated (I.raised interrupt.old) (I.raised interrupt.new) }
    ensures questions { saturating_sum (I.questions interrupt.old) 0 ≤ I.questions interrupt.new }
    ensures raised { I.raised interrupt.old ≤ I.raised interrupt.new }
    ensures calm { OnOk result (I.raised interrupt.new ≡ I.raised interrupt.old) }
{
    let faults = tree.fault_count();
    let mut objects = setup.blobs.fork(alloc)?;
    let report = match walk_by_setup(alloc, &mut tree, &mut objects, interrupt, ROOT, setup) {
        Ok(report) => report,
        Err(error) => return Err(refusal_of_generated_walk(error)),
    };
    if tree.fault_count() != faults {
        return Err(Refusal::OutOfMemory);
    }
    Ok(report)
}

/// The lines that say how much there is to report of so many files.
fn lines_of_generated_report(
    alloc: Global,
    count: usize,
    report: &Report,
) -> Result<Bytes, OutOfMemory>
    ensures { IfOk result (λ text. text ≡ lines_of_generated_report count report.now) }
{
    let mut text = Vec::new(alloc);
    text.extend_from_slice(b"generated ")?;
    append_decimal_number(alloc, &mut text, count as u64)?;
    text.extend_from_slice(b" lines ")?;
    append_decimal_number(alloc, &mut text, report.entries.as_slice().len() as u64)?;
    text.push(b'\n')?;
    append_outcome_line(alloc, &mut text, &report.outcome)?;
    Ok(Bytes::from_vec(text))
}

/// How much there is to report of a tree of so many files in memory: how many lines, how many
/// directories were read, and how many entries were returned and seen.
///
/// The interrupt is asked before each directory is read. No other worktree is asked.
///
/// # Errors
///
/// - `Interrupted`: the interrupt was raised, and counted it.
/// - `OutOfMemory`: memory was refused.
pub fn text_of_generated_report<I: Interrupt>(
    alloc: Global,
    count: usize,
    interrupt: &mut I,
) -> Result<Bytes, Refusal>
    ensures made { IfOk result (IsGeneratedTextWithQuestions count (I.questions interrupt.old)
        (I.questions interrupt.new)) }
    ensures answers { IfErr result IsRefusalOfGenerating }
    ensures interrupted { IsErrOf result Refusal.Interrupted
        → CountIncreasedOrSaturated (I.raised interrupt.old) (I.raised interrupt.new) }
    ensures questions { saturating_sum (I.questions interrupt.old) 0 ≤ I.questions interrupt.new }
    ensures raised { I.raised interrupt.old ≤ I.raised interrupt.new }
    ensures calm { OnOk result (I.raised interrupt.new ≡ I.raised interrupt.old) }
{
    let setup = setup_of_file_count(alloc, count)?;
    let tree = worktree_of_file_count(alloc, count)?;
    let report = report_of_memory_worktree(alloc, tree, interrupt, &setup)?;
    Ok(lines_of_generated_report(alloc, count, &report)?)
}
