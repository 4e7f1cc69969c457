//! The report of a worktree: its walk in the order of paths.
ghost use Rattle.std.specs.Prelude.{◌≡◌, true, IfOk};
ghost use Rattle.worktree_fs.specs.Causes.{CountNotIncreased};
ghost use Rattle.worktree_stack.specs.Reading.{TreeAndObjects};
ghost use Rattle.dir_classify.specs.Excludes.{setup_of_optional_stack, is_absent_or_has_excludes};
ghost use Rattle.dir_classify.specs.Layers.{setting_of_context, IsLookupOfIndexIfGiven};
ghost use Rattle.dir_walk.specs.Reports.{IsReportOverAnyWorktree, IsSafeReport};
ghost use Rattle.dir_walk.specs.WalkRefused.{default_without_refusals};
ghost use Rattle.dir_walk.specs.Walks.{Tells, WalksWorktreeWithCauses};

use crate::collect::{Collect, EmittedEntries};
use crate::function::walk_by_strategy;
use crate::outcome::Outcome;
use crate::strategy::Strategy;
use dir_classify::{Context, Error, Options};
use gitbase_core::{Find, PathText};
use glob_rules::pathspec::Matcher;
use std::alloc::Global;
use worktree_fs::{Interrupt, Worktree};

/// What a walk of a worktree gave.
#[derive(Debug, Drop)]
pub struct Report {
    /// What the walk did, in numbers.
    pub outcome: Outcome,
    /// The whole path of the traversal root.
    pub root: PathText,
    /// The entries that were not hidden, in ascending order of their paths, of which none stands
    /// twice.
    pub entries: EmittedEntries,
}

/// Walks a worktree as [`walk`](crate::walk) does with a delegate that recurses by default and
/// keeps what it is given, or its subtrees at once, as [`walk_at_once`](crate::walk_at_once) does,
/// and gives the entries in the order of their paths.
///
/// See docs/DECISIONS.md#walk-by-path.
///
/// # Errors
///
/// Those of [`walk`](crate::walk), each for the same causes; `OutOfMemory` also where none is left
/// to sort the entries.
pub fn walk_sorted_by_path<W: Worktree, F: Find, I: Interrupt, M: Matcher>(
    alloc: Global,
    worktree_root: &[u8],
    ctx: Context<'_, W, F, I, M>,
    options: Options<'_>,
    strategy: Strategy,
) -> Result<Report, Error>
    requires excludes { is_absent_or_has_excludes (setup_of_optional_stack ctx.excludes.now)
        ≡ true }
    requires lookup { IsLookupOfIndexIfGiven ctx.index.now ctx.ignore_case_index_lookup.now }
    // Over a told tree with which the rules are in step, and without a fault, the report is exactly that of the tree, and safe.
    ensures gives { (s : TreeAndObjects) → Tells W.Worktree F.Find ctx.entry.worktree.now
        ctx.entry.objects.now ctx.entry.excludes.now s
        → CountNotIncreased (W.faults ctx.entry.worktree.now) (W.faults ctx.exit.0.now)
        → IfOk result (IsSafeReport (setting_of_context M.Matcher worktree_root.now options.entry
        ctx.entry) (setup_of_optional_stack ctx.entry.excludes.now) s
        ctx.entry.explicit_traversal_root.now ctx.entry.depth_limit) }
    // Over any worktree the paths ascend strictly from the traversal root on, and the entries are
    // counted, of which none is one that the options hide.
    ensures any_worktree { IfOk result (IsReportOverAnyWorktree (setting_of_context M.Matcher
        worktree_root.now options.entry ctx.entry) ctx.entry.explicit_traversal_root.now) }
    // Each refusal has its cause, a tree that has a report is walked, and what stays.
    ensures walks_worktree { WalksWorktreeWithCauses W.Worktree F.Find I.Interrupt
        ctx.entry.worktree.now ctx.exit.0.now ctx.entry.objects.now ctx.exit.1.0.now
        ctx.entry.interrupt.now ctx.exit.1.1.0.now ctx.entry.excludes.now ctx.exit.1.1.1.1.0.now
        strategy (setting_of_context M.Matcher worktree_root.now options.entry ctx.entry)
        ctx.entry.explicit_traversal_root.now ctx.entry.depth_limit default_without_refusals
        (λ r. r.outcome) (λ r. r.root) result }
{
    let mut delegate = Collect::new(alloc);
    let (outcome, root) = walk_by_strategy(
        alloc,
        worktree_root,
        ctx,
        options,
        strategy,
        &mut delegate,
    )?;
    let entries = delegate.into_entries_by_path(alloc)?;
    Ok(Report {
        outcome,
        root,
        entries,
    })
}
