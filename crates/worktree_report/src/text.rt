//! The text of a report, without a list of its entries beside that of the walk.
ghost use Rattle.std.specs.Prelude.{◌≡◌, ◌++◌, map, IfOk, OnOk};
ghost use Rattle.worktree_report.specs.Lines.{line_of_report_entry, lines_of_report_entries, text_of_report};
ghost use Rattle.worktree_report.specs.Submodules.{report_with_submodules, report_entry_with_submodule};
ghost use Rattle.worktree_report.specs.Texted.{IsTextOfWalkResult, MakesTextOfReport};

use crate::error::ReportError;
use crate::facts::submodule_facts_if_known;
use crate::known::{Known, load_known_submodules};
use crate::lines::{append_line_of_entry, append_outcome_line};
use crate::setup::{Setup, SetupOptions};
use crate::walk_by_setup::walk_by_setup;
use dir_classify::{Entry, Error, Status};
use dir_walk as walk;
use gitbase_core::{Bytes, Find, OutOfMemory};
use std::alloc::Global;
use worktree_fs::{Interrupt, Worktree};

/// Adds the line of an entry of a walk, with the submodule at its path.
fn append_line_with_submodule(
    alloc: Global,
    text: &mut Vec<u8>,
    options: &SetupOptions,
    known: &mut Option<Known>,
    emission: &(Entry, Option<Status>),
) -> Result<(), OutOfMemory>
    ensures line { OnOk result (text.new.items ≡ text.old.items ++ line_of_report_entry options.now
        (report_entry_with_submodule known.old emission.now)) }
    ensures same { OnOk result (known.new ≡ known.old) }
{
    let facts = submodule_facts_if_known(alloc, known, emission.0.rela_path.as_bytes())?;
    append_line_of_entry(alloc, text, options, &emission.0, emission.1, &facts)
}

/// Adds the lines of the entries of a walk, in their order, each with the submodule at its path.
fn append_lines_with_submodules(
    alloc: Global,
    text: &mut Vec<u8>,
    options: &SetupOptions,
    known: &mut Option<Known>,
    emissions: &[(Entry, Option<Status>)],
) -> Result<(), OutOfMemory>
    ensures { OnOk result (text.new.items ≡ text.old.items ++ lines_of_report_entries options.now
        (map (report_entry_with_submodule known.old) emissions.now)) }
{
    for emission in emissions {
        append_line_with_submodule(alloc, text, options, known, emission)?;
    }
    Ok(())
}

/// The text of the report of what a walk gave.
fn report_text_of_walk(
    alloc: Global,
    known: &mut Option<Known>,
    walked: &walk::Report,
    options: &SetupOptions,
) -> Result<Bytes, OutOfMemory>
    ensures { IfOk result (λ text. text ≡ text_of_report options.now (report_with_submodules
        known.old walked.now)) }
{
    let mut text = Vec::new(alloc);
    append_lines_with_submodules(alloc, &mut text, options, known, walked.entries.as_slice())?;
    if options.print_outcome {
        append_outcome_line(alloc, &mut text, &walked.outcome)?;
    }
    Ok(Bytes::from_vec(text))
}

/// The same, or why there is none.
fn report_text_of_walk_result(
    alloc: Global,
    mut known: Option<Known>,
    walked: Result<walk::Report, Error>,
    options: &SetupOptions,
) -> Result<Bytes, ReportError>
    ensures { IsTextOfWalkResult result options.now known walked }
{
    match walked {
        Ok(walked) => Ok(report_text_of_walk(alloc, &mut known, &walked, options)?),
        Err(error) => Err(ReportError::from(error)),
    }
}

/// The text of the report that [`worktree_report`](crate::worktree_report) makes, with its errors
/// and after its calls. The entries of the walk are held, and not those of the report, which take
/// more memory. Nor is the setup's index, once the walk is done.
pub fn worktree_report_text<W: Worktree, F: Find, I: Interrupt>(
    alloc: Global,
    worktree: &mut W,
    objects: &mut F,
    interrupt: &mut I,
    worktree_root: &[u8],
    setup: Setup,
) -> Result<Bytes, ReportError>
    ensures { MakesTextOfReport W.Worktree F.Find I.Interrupt worktree.old worktree.new objects.old
        objects.new interrupt.old interrupt.new worktree_root.now setup result }
{
    let known = load_known_submodules(alloc, worktree, worktree_root, &setup)?;
    let walked = walk_by_setup(alloc, worktree, objects, interrupt, worktree_root, &setup);
    let Setup { options, .. } = setup;
    report_text_of_walk_result(alloc, known, walked, &options)
}
