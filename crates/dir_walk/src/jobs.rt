//! A subtree as a job of its own, over forks of what the walk was handed.
ghost use Rattle.std.specs.Prelude.{◌≡◌, true, IfOk, OnOk};
ghost use Rattle.worktree_stack.specs.Reading.{TreeAndObjects};
ghost use Rattle.dir_classify.specs.Excludes.{setup_of_optional_stack, is_absent_or_has_excludes, IsStackInStepIfGiven};
ghost use Rattle.dir_classify.specs.Layers.{setting_of_shared, IsLookupOfIndexIfGiven};
ghost use Rattle.dir_walk.specs.Jobs.{WalksDirectoryAsJob};
ghost use Rattle.dir_walk.specs.Moments.{KeepsPartReferences, walk_state_of_parts};

use crate::delegate::Delegate;
use crate::directory::walk_directory;
use crate::handed::{Handed, Stop};
use crate::parts::Parts;
use crate::place::Place;
use dir_classify::{Shared, classify};
use gitbase_core::{Find, OutOfMemory, PathText};
use glob_rules::pathspec::Matcher;
use std::alloc::Global;
use worktree_fs::{Interrupt, Worktree};
use worktree_stack::Stack;

/// Walks a directory that is entered, at `place` and of the class `class`, as a job: over a fork of
/// the worktree, the store and the interrupt, and with rules that are made as those of the parts
/// were and of which nothing is pushed. Each fork is absorbed when the job is done, and where it is
/// refused too.
pub(crate) fn walk_as_job<W: Worktree, F: Find, I: Interrupt, M: Matcher, D: Delegate>(
    alloc: Global,
    shared: &Shared<'_, M>,
    blocked: &Option<PathText>,
    place: &mut Place,
    class: &classify::Outcome,
    levels: usize,
    parts: &mut Parts<'_, '_, '_, '_, '_, '_, W, F, I, D>,
) -> Result<Handed, Stop>
    requires root { place.old.root ≡ shared.now.worktree_root.now }
    requires lookup { IsLookupOfIndexIfGiven shared.now.index.now
        shared.now.ignore_case_index_lookup.now }
    requires excludes { is_absent_or_has_excludes (setup_of_optional_stack parts.old.excludes.now)
        ≡ true }
    ensures same { KeepsPartReferences parts.old parts.new }
    ensures job { WalksDirectoryAsJob W.Worktree F.Find I.Interrupt D.Delegate
        (walk_state_of_parts parts.old) (walk_state_of_parts parts.new) (setting_of_shared M.Matcher
        shared.now) blocked.now levels place.old.path class.now result }
    ensures rules { parts.new.excludes.now ≡ parts.old.excludes.now }
    ensures lists { W.lists parts.new.worktree.now ≡ W.lists parts.old.worktree.now }
    ensures stays { OnOk result (place.new ≡ place.old) }
{
    let mut rules = fresh_stack_if_given(alloc, parts.excludes)?;
    let mut forked = Parts {
        excludes: &mut rules,
        worktree: parts.worktree,
        objects: parts.objects,
        interrupt: parts.interrupt,
        delegate: parts.delegate,
        outcome: parts.outcome,
    };
    walk_with_worktree_fork(alloc, shared, blocked, place, class, levels, &mut forked)
}

/// Rules that are made as these were, and of which nothing is pushed.
fn fresh_stack_if_given(
    alloc: Global,
    excludes: &Option<Stack>,
) -> Result<Option<Stack>, OutOfMemory>
    ensures made { IfOk result (λ rules. setup_of_optional_stack rules ≡ setup_of_optional_stack
        excludes.now) }
    ensures in_step { (s : TreeAndObjects) → IfOk result (IsStackInStepIfGiven s) }
{
    match excludes {
        None => Ok(None),
        Some(stack) => Ok(Some(stack.fresh(alloc)?)),
    }
}

/// The job over a fork of the worktree.
fn walk_with_worktree_fork<W: Worktree, F: Find, I: Interrupt, M: Matcher, D: Delegate>(
    alloc: Global,
    shared: &Shared<'_, M>,
    blocked: &Option<PathText>,
    place: &mut Place,
    class: &classify::Outcome,
    levels: usize,
    parts: &mut Parts<'_, '_, '_, '_, '_, '_, W, F, I, D>,
) -> Result<Handed, Stop>
    requires root { place.old.root ≡ shared.now.worktree_root.now }
    requires lookup { IsLookupOfIndexIfGiven shared.now.index.now
        shared.now.ignore_case_index_lookup.now }
    requires excludes { is_absent_or_has_excludes (setup_of_optional_stack parts.old.excludes.now)
        ≡ true }
    ensures same { KeepsPartReferences parts.old parts.new }
    ensures job { WalksDirectoryAsJob W.Worktree F.Find I.Interrupt D.Delegate
        (walk_state_of_parts parts.old) (walk_state_of_parts parts.new) (setting_of_shared M.Matcher
        shared.now) blocked.now levels place.old.path class.now result }
    ensures lists { W.lists parts.new.worktree.now ≡ W.lists parts.old.worktree.now }
    ensures stays { OnOk result (place.new ≡ place.old) }
{
    let mut fork = parts.worktree.fork(alloc)?;
    let mut forked = Parts {
        excludes: parts.excludes,
        worktree: &mut fork,
        objects: parts.objects,
        interrupt: parts.interrupt,
        delegate: parts.delegate,
        outcome: parts.outcome,
    };
    let result = walk_with_store_fork(alloc, shared, blocked, place, class, levels, &mut forked);
    parts.worktree.absorb(fork);
    result
}

/// The job over a fork of the store.
fn walk_with_store_fork<W: Worktree, F: Find, I: Interrupt, M: Matcher, D: Delegate>(
    alloc: Global,
    shared: &Shared<'_, M>,
    blocked: &Option<PathText>,
    place: &mut Place,
    class: &classify::Outcome,
    levels: usize,
    parts: &mut Parts<'_, '_, '_, '_, '_, '_, W, F, I, D>,
) -> Result<Handed, Stop>
    requires root { place.old.root ≡ shared.now.worktree_root.now }
    requires lookup { IsLookupOfIndexIfGiven shared.now.index.now
        shared.now.ignore_case_index_lookup.now }
    requires excludes { is_absent_or_has_excludes (setup_of_optional_stack parts.old.excludes.now)
        ≡ true }
    ensures same { KeepsPartReferences parts.old parts.new }
    ensures job { WalksDirectoryAsJob W.Worktree F.Find I.Interrupt D.Delegate
        (walk_state_of_parts parts.old) (walk_state_of_parts parts.new) (setting_of_shared M.Matcher
        shared.now) blocked.now levels place.old.path class.now result }
    ensures stays { OnOk result (place.new ≡ place.old) }
{
    let mut fork = parts.objects.fork(alloc)?;
    let mut forked = Parts {
        excludes: parts.excludes,
        worktree: parts.worktree,
        objects: &mut fork,
        interrupt: parts.interrupt,
        delegate: parts.delegate,
        outcome: parts.outcome,
    };
    let result = walk_with_interrupt_fork(
        alloc,
        shared,
        blocked,
        place,
        class,
        levels,
        &mut forked,
    );
    parts.objects.absorb(fork);
    result
}

/// The job over a fork of the interrupt.
fn walk_with_interrupt_fork<W: Worktree, F: Find, I: Interrupt, M: Matcher, D: Delegate>(
    alloc: Global,
    shared: &Shared<'_, M>,
    blocked: &Option<PathText>,
    place: &mut Place,
    class: &classify::Outcome,
    levels: usize,
    parts: &mut Parts<'_, '_, '_, '_, '_, '_, W, F, I, D>,
) -> Result<Handed, Stop>
    requires root { place.old.root ≡ shared.now.worktree_root.now }
    requires lookup { IsLookupOfIndexIfGiven shared.now.index.now
        shared.now.ignore_case_index_lookup.now }
    requires excludes { is_absent_or_has_excludes (setup_of_optional_stack parts.old.excludes.now)
        ≡ true }
    ensures same { KeepsPartReferences parts.old parts.new }
    ensures job { WalksDirectoryAsJob W.Worktree F.Find I.Interrupt D.Delegate
        (walk_state_of_parts parts.old) (walk_state_of_parts parts.new) (setting_of_shared M.Matcher
        shared.now) blocked.now levels place.old.path class.now result }
    ensures stays { OnOk result (place.new ≡ place.old) }
{
    let mut fork = parts.interrupt.fork(alloc)?;
    let mut forked = Parts {
        excludes: parts.excludes,
        worktree: parts.worktree,
        objects: parts.objects,
        interrupt: &mut fork,
        delegate: parts.delegate,
        outcome: parts.outcome,
    };
    let result = walk_directory(alloc, shared, blocked, place, class, levels, &mut forked);
    parts.interrupt.absorb(fork);
    result
}
