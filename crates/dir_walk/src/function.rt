//! The walk of a worktree.
ghost use Rattle.std.specs.Prelude.{◌≡◌, true};
ghost use Rattle.dir_classify.specs.Excludes.{setup_of_optional_stack, is_absent_or_has_excludes};
ghost use Rattle.dir_classify.specs.Layers.{setting_of_context, setting_of_shared, IsLookupOfIndexIfGiven};
ghost use Rattle.dir_walk.specs.declared.strategy.Strategy.TheVariants.{Held};
ghost use Rattle.dir_walk.specs.Moments.{KeepsPartReferences};
ghost use Rattle.dir_walk.specs.Walks.{WalksForDelegate};

use crate::delegate::Delegate;
use crate::handed::Stop;
use crate::outcome::Outcome;
use crate::parts::Parts;
use crate::root::find_traversal_root;
use crate::start::walk_from_traversal_root;
use crate::strategy::Strategy;
use dir_classify::{Context, Error, Options, Shared, join_worktree_root};
use gitbase_core::{Bytes, Find, PathText};
use glob_rules::pathspec::Matcher;
use std::alloc::Global;
use worktree_fs::{Interrupt, Worktree};

/// Walks a worktree and gives `delegate` each entry that the options do not hide, in an order of
/// the worktree's own, as gitoxide's `gix_dir::walk`. The answer's path is the worktree root and
/// the traversal root below it.
///
/// `worktree_root` is absolute and has no component `.` or `..`. The walk begins at the traversal
/// root: the one that the context has, else the common directory of what the path specs match where
/// that is a directory, else the worktree root, which may be a link to a directory. It is classed
/// component by component; where the way ends before it, or its status has it not looked into and
/// the delegate goes by that, nothing is entered, and at most one entry is given: that of the path
/// where the way ended.
///
/// A directory is folded over what lies in it as the options ask for it; in deletion neither a
/// directory that holds precious paths among others is folded nor the current one.
///
/// Each directory that is entered is listed once where no fault was counted and the delegate
/// recurses by default; where files are read for their rules alone, and these are ignore rules
/// alone, the worktree is read at most once for each of them and for each component of the
/// traversal root, and once more where the walk is refused. Each level below the traversal root
/// takes room on the stack, up to `depth_limit` of the context.
///
/// Four faults of the worktree are no refusal, but are counted: of the question for the kind of a
/// name, of what a link leads to, of a look for a repository, and of the real path of the worktree
/// root. The name has no kind then, stays a link to nothing, is seen as no repository or as another
/// one, or no directory is the current one. So is the fault of the question whether the common
/// directory is one, which is then not begun at; and that of the question where a link at the
/// worktree root leads, which then counts as no directory, so that a walk from there is refused
/// with `WorktreeRootIsFile`. After a refusal the delegate has what it was given before, and where
/// there is no traversal root, or the worktree root is refused, that is nothing. Where it answers
/// Break the walk ends with what was counted so far.
///
/// See docs/DECISIONS.md#traversal-root.
/// See docs/DECISIONS.md#nothing-entered.
/// See docs/DECISIONS.md#bound-on-reads.
/// See docs/DECISIONS.md#swallowed-faults.
/// See docs/DECISIONS.md#broken-off-walk.
///
/// # Errors
///
/// - `NormalizeRoot`: the traversal root is absolute, or leads out of the worktree.
/// - `SymlinkInRoot`: one of its components is a link, and no earlier one is.
/// - `SymlinkMetadata`: one of its components is not there, or its kind could not be had, for a
///   fault.
/// - `WorktreeRootIsFile`: the traversal root is the worktree root, which is not entered, by its
///   status or as the delegate refuses, and is no directory, a link not followed.
/// - `Interrupted`: the interrupt was raised, which is asked before each directory is read.
/// - `TooDeep`: a directory is to be entered and has more components below the worktree root than
///   the limit, one more where it is not the traversal root; the interrupt was asked before, and
///   the directory is not listed.
/// - `ReadDir`: what is to be entered could not be listed, for a fault, or is no directory on disk:
///   as the index calls it an up-to-date directory; at the traversal root also as it is an
///   up-to-date repository, of the worktree set or excluded; and anything that a delegate of its
///   own recursion looks into.
/// - `DirEntry`: a name in a directory could not be had, for a fault.
/// - `ExcludesAccess`: for a path whose class asks the rules, the rules file of a directory above
///   it is a link that is not followed or without an end, or neither file nor directory, or could
///   not be read, or is mapped to a blob that could not be had.
/// - `OutOfMemory`: memory was refused.
///
/// See docs/DECISIONS.md#root-may-be-link.
/// See docs/DECISIONS.md#answered-path.
/// See docs/DECISIONS.md#said-by-counts.
pub fn walk<W: Worktree, F: Find, I: Interrupt, M: Matcher, D: Delegate>(
    alloc: Global,
    worktree_root: &[u8],
    ctx: Context<'_, W, F, I, M>,
    options: Options<'_>,
    delegate: &mut D,
) -> Result<(Outcome, PathText), Error>
    requires excludes { is_absent_or_has_excludes (setup_of_optional_stack ctx.excludes.now)
        ≡ true }
    requires lookup { IsLookupOfIndexIfGiven ctx.index.now ctx.ignore_case_index_lookup.now }
    ensures { WalksForDelegate W.Worktree F.Find I.Interrupt D.Delegate ctx.entry.worktree.now
        ctx.exit.0.now ctx.entry.objects.now ctx.exit.1.0.now ctx.entry.interrupt.now
        ctx.exit.1.1.0.now ctx.entry.excludes.now ctx.exit.1.1.1.1.0.now delegate.old delegate.new
        Held (setting_of_context M.Matcher worktree_root.now options.entry ctx.entry)
        ctx.entry.explicit_traversal_root.now ctx.entry.depth_limit result }
{
    walk_by_strategy(alloc, worktree_root, ctx, options, Strategy::Held, delegate)
}

/// The same as a strategy says.
pub(crate) fn walk_by_strategy<W: Worktree, F: Find, I: Interrupt, M: Matcher, D: Delegate>(
    alloc: Global,
    worktree_root: &[u8],
    ctx: Context<'_, W, F, I, M>,
    options: Options<'_>,
    strategy: Strategy,
    delegate: &mut D,
) -> Result<(Outcome, PathText), Error>
    requires excludes { is_absent_or_has_excludes (setup_of_optional_stack ctx.excludes.now)
        ≡ true }
    requires lookup { IsLookupOfIndexIfGiven ctx.index.now ctx.ignore_case_index_lookup.now }
    ensures { WalksForDelegate W.Worktree F.Find I.Interrupt D.Delegate ctx.entry.worktree.now
        ctx.exit.0.now ctx.entry.objects.now ctx.exit.1.0.now ctx.entry.interrupt.now
        ctx.exit.1.1.0.now ctx.entry.excludes.now ctx.exit.1.1.1.1.0.now delegate.old delegate.new
        strategy (setting_of_context M.Matcher worktree_root.now options.entry ctx.entry)
        ctx.entry.explicit_traversal_root.now ctx.entry.depth_limit result }
{
    let Context {
        worktree,
        objects,
        interrupt,
        pathspec,
        excludes,
        index,
        ignore_case_index_lookup,
        git_dir_realpath,
        current_dir,
        explicit_traversal_root,
        depth_limit,
    } = ctx;
    let shared = Shared {
        worktree_root,
        pathspec,
        index,
        ignore_case_index_lookup,
        git_dir_realpath,
        current_dir,
        options,
    };
    let mut outcome = Outcome::default();
    let mut parts = Parts {
        excludes,
        worktree,
        objects,
        interrupt,
        delegate,
        outcome: &mut outcome,
    };
    walk_context_parts(
        alloc,
        &shared,
        explicit_traversal_root,
        depth_limit,
        strategy,
        &mut parts,
    )
}

/// The same over the parts of a context, as a strategy says. What is counted is counted from
/// nothing on.
fn walk_context_parts<W: Worktree, F: Find, I: Interrupt, M: Matcher, D: Delegate>(
    alloc: Global,
    shared: &Shared<'_, M>,
    explicit: &Option<Bytes>,
    depth_limit: usize,
    strategy: Strategy,
    parts: &mut Parts<'_, '_, '_, '_, '_, '_, W, F, I, D>,
) -> Result<(Outcome, PathText), Error>
    requires excludes { is_absent_or_has_excludes (setup_of_optional_stack parts.old.excludes.now)
        ≡ true }
    requires lookup { IsLookupOfIndexIfGiven shared.now.index.now
        shared.now.ignore_case_index_lookup.now }
    // The parts are behind the same references.
    ensures same { KeepsPartReferences parts.old parts.new }
    // Why it is refused, what it leaves, and what the delegate is given.
    ensures walks { WalksForDelegate W.Worktree F.Find I.Interrupt D.Delegate
        parts.old.worktree.now parts.new.worktree.now parts.old.objects.now parts.new.objects.now
        parts.old.interrupt.now parts.new.interrupt.now parts.old.excludes.now
        parts.new.excludes.now parts.old.delegate.now parts.new.delegate.now
        strategy (setting_of_shared M.Matcher shared.now) explicit.now depth_limit result }
{
    let root = find_traversal_root(alloc, shared, explicit, parts.worktree)?;
    let full = join_worktree_root(alloc, shared.worktree_root, root.as_bytes())?;
    *parts.outcome = Outcome::default();
    match walk_from_traversal_root(alloc, shared, root.as_bytes(), depth_limit, strategy, parts) {
        Ok(()) => Ok((Outcome { ..*parts.outcome }, full)),
        Err(Stop::Broken) => Ok((Outcome { ..*parts.outcome }, full)),
        Err(Stop::Refused(error)) => Err(error),
    }
}
