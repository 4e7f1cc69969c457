//! What would go of a work tree.
ghost use Rattle.std.specs.Prelude.{◌≡◌, None};
ghost use Rattle.git_clean.specs.Cleaned as words;
ghost use Rattle.git_clean.specs.Wrong.{reason_cleaning_unsupported};

use crate::cleaned::dry_run_text_of_entries;
use crate::options::Cleaning;
use gitbase_core::{Bytes, Find};
use ls_files::NamedSpec;
use std::alloc::Global;
use worktree_fs::Interrupt;
use worktree_report::{
    CountsFaults, Refusal, Setup, has_failed_since, refusal_of_report_error, worktree_report,
};

/// What `git clean -n` prints of the work tree at `root`, called in its directory `prefix`: a line
/// for each path that git would remove, by a report that is made for it. Nothing is removed.
///
/// The cleaning has to be one that there is, which
/// [`reason_cleaning_unsupported`](crate::reason_cleaning_unsupported) tests. The setup is found
/// with the options that [`walk_options_for_cleaning`](crate::walk_options_for_cleaning) gives for the cleaning,
/// and with the path specs; `named` has each of these alone. Where no path spec is written, or each
/// excludes, git means the current directory: then a path spec of it is among them. The patterns of
/// `-e` are the last of the setup's overrides. Its traversal root is the top of the work tree, `.`,
/// so that the walk sees each `.git` above what it looks at. By another one a directory above it
/// may be named, of which the rest was not seen.
///
/// # Errors
///
/// - `Walk` has the cause that the walk names.
/// - `Fault`: the worktree failed, and counted it, also where the walk goes on with such a fault;
///   or its count stands at its last value.
/// - `Interrupted`: the interrupt was raised, and counted it.
/// - `OutOfMemory`: memory was refused.
///
/// See docs/DECISIONS.md#dry-clean-by-leaves.
pub fn clean_dry_run_text<W: CountsFaults, I: Interrupt>(
    alloc: Global,
    worktree: &mut W,
    interrupt: &mut I,
    root: &[u8],
    setup: &Setup,
    cleaning: &Cleaning,
    prefix: &[u8],
    named: &[NamedSpec],
) -> Result<Bytes, Refusal>
    requires cleanable { reason_cleaning_unsupported cleaning.now setup.now ≡ None }
    ensures { words.AnswersCleanDryRun W.Worktree I.Interrupt (W.precomposes worktree.old)
        worktree.old worktree.new interrupt.old interrupt.new root.now setup.now cleaning.now
        prefix.now named.now result }
{
    let before = worktree.fault_count();
    let mut objects = setup.blobs.fork(alloc)?;
    match worktree_report(alloc, worktree, &mut objects, interrupt, root, setup) {
        Ok(report) => {
            if has_failed_since(worktree, before) {
                return Err(Refusal::Fault);
            }
            let found = report.entries.into_vec();
            Ok(dry_run_text_of_entries(alloc, cleaning, prefix, named, setup, found)?)
        }
        Err(error) => Err(refusal_of_report_error(alloc, error)?),
    }
}
