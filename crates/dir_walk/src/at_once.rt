//! The walk of a worktree whose subtrees are jobs of their own.
ghost use Rattle.std.specs.Prelude.{◌≡◌, true};
ghost use Rattle.dir_classify.specs.Excludes.{setup_of_optional_stack, is_absent_or_has_excludes};
ghost use Rattle.dir_classify.specs.Layers.{setting_of_context, IsLookupOfIndexIfGiven};
ghost use Rattle.dir_walk.specs.declared.strategy.Strategy.TheVariants.{AtOnce};
ghost use Rattle.dir_walk.specs.WalkRefused.{default_without_refusals};
ghost use Rattle.dir_walk.specs.Walks.{full_root_path_of_answer, CollectsReportOfWalk, WalksWorktreeWithCauses};

use crate::collect::Collect;
use crate::function::walk_by_strategy;
use crate::outcome::Outcome;
use crate::strategy::Strategy;
use dir_classify::{Context, Error, Options};
use gitbase_core::{Find, PathText};
use glob_rules::pathspec::Matcher;
use std::alloc::Global;
use worktree_fs::{Interrupt, Worktree};

/// Walks a worktree as [`walk`](crate::walk) does with a delegate that recurses by default and
/// keeps what it is given, and gives that too. Each subtree of the traversal root that is entered
/// is a job of its own.
///
/// The traversal root is found, classed and listed over the worktree that is handed in, and so are
/// the names in it classed. A job has a fork of the worktree, of the store and of the interrupt,
/// and rules of which nothing is pushed; it is all that a thread would need, but the jobs run one
/// after another on the caller. Each fork is absorbed, also where its job is refused, so the counts
/// of what is handed in rise by those of the forks, but for that of listings: it rises by one at
/// most. After a refusal no further job is begun. Of this the clauses have what becomes of the
/// count of listings alone.
///
/// See docs/DECISIONS.md#jobs-one-after-another.
/// See docs/DECISIONS.md#refused-job.
/// See docs/DECISIONS.md#jobs-need-no-rules.
///
/// # Errors
///
/// Those of [`walk`](crate::walk), each for the same causes; `OutOfMemory` also where none is left
/// for a fork or its rules.
pub fn walk_at_once<W: Worktree, F: Find, I: Interrupt, M: Matcher>(
    alloc: Global,
    worktree_root: &[u8],
    ctx: Context<'_, W, F, I, M>,
    options: Options<'_>,
) -> Result<(Outcome, PathText, Collect), Error>
    requires excludes { is_absent_or_has_excludes (setup_of_optional_stack ctx.excludes.now)
        ≡ true }
    requires lookup { IsLookupOfIndexIfGiven ctx.index.now ctx.ignore_case_index_lookup.now }
    // Over a told tree with which the rules are in step, and without a fault, what is collected is that of the tree.
    ensures collects { CollectsReportOfWalk W.Worktree F.Find ctx.entry.worktree.now ctx.exit.0.now
        ctx.entry.objects.now ctx.entry.excludes.now
        (setting_of_context M.Matcher worktree_root.now options.entry ctx.entry)
        ctx.entry.explicit_traversal_root.now ctx.entry.depth_limit result }
    // Each refusal has its cause, a tree that has a report is walked, and what stays.
    ensures walks_worktree { WalksWorktreeWithCauses W.Worktree F.Find I.Interrupt
        ctx.entry.worktree.now ctx.exit.0.now ctx.entry.objects.now ctx.exit.1.0.now
        ctx.entry.interrupt.now ctx.exit.1.1.0.now ctx.entry.excludes.now ctx.exit.1.1.1.1.0.now
        AtOnce (setting_of_context M.Matcher worktree_root.now options.entry ctx.entry)
        ctx.entry.explicit_traversal_root.now ctx.entry.depth_limit default_without_refusals (λ r.
        r.0) full_root_path_of_answer result }
{
    let mut delegate = Collect::new(alloc);
    let (outcome, root) = walk_by_strategy(
        alloc,
        worktree_root,
        ctx,
        options,
        Strategy::AtOnce,
        &mut delegate,
    )?;
    Ok((outcome, root, delegate))
}
