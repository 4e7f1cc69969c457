//! What is listed of a work tree.
ghost use Rattle.std.specs.Prelude.{◌≡◌, None};
ghost use Rattle.ls_files.specs.Listed as words;
ghost use Rattle.ls_files.specs.Wrong.{first_refusal_of_options_and_index};

use crate::cached::needs_worktree_walk;
use crate::listed::{Listed, output_and_errors_of_report_entries};
use crate::options::{Listing, NamedSpec};
use gitbase_core::Find;
use std::alloc::Global;
use worktree_fs::Interrupt;
use worktree_report::{
    CountsFaults, Refusal, Setup, has_failed_since, refusal_of_report_error, worktree_report,
};

/// What is listed of the work tree at `root`, by a report that is made for it.
fn list_files_by_walk_report<W: CountsFaults, I: Interrupt>(
    alloc: Global,
    worktree: &mut W,
    interrupt: &mut I,
    root: &[u8],
    setup: &Setup,
    listing: &Listing,
    prefix: &[u8],
    named: &[NamedSpec],
) -> Result<Listed, Refusal>
    ensures { words.ListsByWalkReport W.Worktree I.Interrupt (W.precomposes worktree.old)
        worktree.old worktree.new interrupt.old interrupt.new root.now setup.now listing.now
        prefix.now named.now result }
{
    let before = worktree.fault_count();
    let mut objects = setup.blobs.fork(alloc)?;
    match worktree_report(alloc, worktree, &mut objects, interrupt, root, setup) {
        Ok(report) => {
            if has_failed_since(worktree, before) {
                return Err(Refusal::Fault);
            }
            let found = report.entries.as_slice();
            Ok(output_and_errors_of_report_entries(alloc, listing, prefix, named, setup, found)?)
        }
        Err(error) => Err(refusal_of_report_error(alloc, error)?),
    }
}

/// What `git ls-files` lists of the work tree at `root`, called in its directory `prefix`: what the
/// index does not have and what lies in its way, where these are asked for, and behind them what
/// the index has. A report is made for the first two, and nothing is asked of the worktree without.
///
/// The listing has to be one that there is, which
/// [`first_refusal_of_options_and_index`](crate::first_refusal_of_options_and_index) tests. With
/// `-o -i --directory` the whole work tree is listed, whatever the path specs and the directory
/// are: [`refusal_of_partial_ignored_directories`](crate::refusal_of_partial_ignored_directories)
/// tests that these ask for it. The setup is found with the options that
/// [`walk_options_for_listing`](crate::walk_options_for_listing) gives for the listing, and with
/// the path specs; `named` has each of these alone, as it was written. Where no path spec is
/// written, or each excludes, git means the current directory: then a path spec of it is among
/// them.
///
/// # Errors
///
/// - `Walk` has the cause that the walk names.
/// - `Fault`: the worktree failed, and counted it, also where the walk goes on with such a fault;
///   or its count stands at its last value.
/// - `Interrupted`: the interrupt was raised, and counted it.
/// - `OutOfMemory`: memory was refused.
///
/// See docs/DECISIONS.md#listing-by-leaves.
pub fn list_files_of_worktree<W: CountsFaults, I: Interrupt>(
    alloc: Global,
    worktree: &mut W,
    interrupt: &mut I,
    root: &[u8],
    setup: &Setup,
    listing: &Listing,
    prefix: &[u8],
    named: &[NamedSpec],
) -> Result<Listed, Refusal>
    requires listable { first_refusal_of_options_and_index listing.now setup.now.index ≡ None }
    ensures { words.ListsFilesOfWorktree W.Worktree I.Interrupt (W.precomposes worktree.old)
        worktree.old worktree.new interrupt.old interrupt.new root.now setup.now listing.now
        prefix.now named.now result }
{
    if needs_worktree_walk(listing) {
        return list_files_by_walk_report(
            alloc, worktree, interrupt, root, setup, listing, prefix, named,
        );
    }
    Ok(output_and_errors_of_report_entries(alloc, listing, prefix, named, setup, &[])?)
}
