//! The names of a traversal root, of which each that is entered is a job of its own.
ghost use Rattle.std.specs.Prelude.{◌≡◌, true, false, OnOk};
ghost use Rattle.gitbase_core.specs.View.{IsViewOfEntriesBeneath};
ghost use Rattle.worktree_fs.specs.Naming.{IsValidEntryName};
ghost use Rattle.dir_classify.specs.Excludes.{setup_of_optional_stack, is_absent_or_has_excludes};
ghost use Rattle.dir_classify.specs.Kept.{KeepsRulesInStep};
ghost use Rattle.dir_classify.specs.Layers.{setting_of_shared, IsLookupOfIndexIfGiven};
ghost use Rattle.dir_walk.specs.Moments.{KeepsPartReferences, walk_state_of_parts};
ghost use Rattle.dir_walk.specs.WalkSteps.{OpensAtMostEntered, StepWalksOverAnyWorktree, StepWalksOverSources, at_directory, at_name, CountsOpenedByForks};

use crate::close::{close_empty_directory, fold_directory_or_emit_held, outcome_of_unentered_path};
use crate::delegate::Delegate;
use crate::directory::classify_name_asking_disk;
use crate::emit::hand_up_or_emit_leaf;
use crate::handed::{Handed, Held, Stop};
use crate::jobs::walk_as_job;
use crate::open::{delegate_enters_directory, list_directory, too_deep_or_interrupted_error};
use crate::parts::Parts;
use crate::place::Place;
use dir_classify::{Shared, classify};
use gitbase_core::{Beneath, Find, PathText};
use glob_rules::pathspec::Matcher;
use std::alloc::Global;
use worktree_fs::{Interrupt, Worktree};

/// Walks a name in the traversal root, at `place`; so many more levels of directories may be
/// entered below that. What is entered is a job. `beneath` are the entries of the index beneath the
/// traversal root. The place is the root's again when the name is done.
fn walk_name_as_job<W: Worktree, F: Find, I: Interrupt, M: Matcher, D: Delegate>(
    alloc: Global,
    shared: &Shared<'_, M>,
    blocked: &Option<PathText>,
    place: &mut Place,
    beneath: &Beneath<'_>,
    name: &[u8],
    levels: usize,
    parts: &mut Parts<'_, '_, '_, '_, '_, '_, W, F, I, D>,
) -> Result<Handed, Stop>
    requires name { IsValidEntryName name.now }
    requires beneath { IsViewOfEntriesBeneath shared.now.index.now place.old.path beneath.now }
    requires root { place.old.root ≡ shared.now.worktree_root.now }
    requires lookup { IsLookupOfIndexIfGiven shared.now.index.now
        shared.now.ignore_case_index_lookup.now }
    requires excludes { is_absent_or_has_excludes (setup_of_optional_stack parts.old.excludes.now)
        ≡ true }
    // The parts are behind the same references.
    ensures same { KeepsPartReferences parts.old parts.new }
    // Over any worktree, each refusal has its cause; what stays, and what the delegate is given.
    ensures walks { StepWalksOverAnyWorktree W.Worktree F.Find I.Interrupt D.Delegate
        (walk_state_of_parts parts.old) (walk_state_of_parts parts.new)
        (setting_of_shared M.Matcher shared.now) levels (at_name place.old.path name.now) result }
    // Over what is told, it gives all that is there or a part, and is refused for what is there.
    ensures told { StepWalksOverSources W.Worktree F.Find D.Delegate
        (walk_state_of_parts parts.old) (walk_state_of_parts parts.new)
        (setting_of_shared M.Matcher shared.now) blocked.now levels
        (at_name place.old.path name.now) result }
    // How the directories that are opened are counted, and how many they are at most.
    ensures opens { CountsOpenedByForks W.Worktree I.Interrupt 0
        (walk_state_of_parts parts.old) (walk_state_of_parts parts.new)
        result (OpensAtMostEntered W.Worktree F.Find D.Delegate
        (walk_state_of_parts parts.old) (walk_state_of_parts parts.new)
        (setting_of_shared M.Matcher shared.now) blocked.now levels
        (at_name place.old.path name.now) result) }
    // The rules that were handed in stay in step.
    ensures rules { KeepsRulesInStep W.Worktree F.Find parts.old.worktree.now
        parts.old.objects.now parts.old.excludes.now parts.new.excludes.now }
    // The place is the same when all is done.
    ensures stays { OnOk result (place.new ≡ place.old) }
{
    let cut = place.push(alloc, name)?;
    let path = place.path();
    let full = place.whole();
    let class = classify_name_asking_disk(
        alloc,
        full,
        path,
        name,
        beneath,
        shared,
        parts.excludes,
        parts.worktree,
        parts.objects,
    )?;
    if delegate_enters_directory(&shared.options, path, &class, false, parts.delegate) {
        if levels == 0 {
            return Err(Stop::Refused(too_deep_or_interrupted_error(alloc, place, parts.interrupt)));
        }
        let handed = walk_as_job(alloc, shared, blocked, place, &class, levels - 1, parts);
        place.truncate_to_directory_if_ok(cut, &handed);
        return handed;
    }
    let class = outcome_of_unentered_path(alloc, shared, place, &class, parts.worktree)?;
    let handed = hand_up_or_emit_leaf(
        alloc,
        &shared.options,
        path,
        &class,
        parts.delegate,
        parts.outcome,
    );
    place.truncate_to_directory_if_ok(cut, &handed);
    handed
}

/// Walks a directory that is entered as the traversal root, at `place` and of the class `class`, as
/// [`walk_directory`](crate::directory::walk_directory) does; but each name that is entered is a
/// job over forks.
pub(crate) fn walk_root_directory_by_jobs<
    W: Worktree,
    F: Find,
    I: Interrupt,
    M: Matcher,
    D: Delegate,
>(
    alloc: Global,
    shared: &Shared<'_, M>,
    blocked: &Option<PathText>,
    place: &mut Place,
    class: &classify::Outcome,
    levels: usize,
    parts: &mut Parts<'_, '_, '_, '_, '_, '_, W, F, I, D>,
) -> Result<Handed, Stop>
    requires root { place.old.root ≡ shared.now.worktree_root.now }
    requires lookup { IsLookupOfIndexIfGiven shared.now.index.now
        shared.now.ignore_case_index_lookup.now }
    requires excludes { is_absent_or_has_excludes (setup_of_optional_stack parts.old.excludes.now)
        ≡ true }
    // The parts are behind the same references.
    ensures same { KeepsPartReferences parts.old parts.new }
    // Over any worktree, each refusal has its cause; what stays, and what the delegate is given.
    ensures walks { StepWalksOverAnyWorktree W.Worktree F.Find I.Interrupt D.Delegate
        (walk_state_of_parts parts.old) (walk_state_of_parts parts.new) (setting_of_shared M.Matcher
        shared.now) levels (at_directory place.old.path class.now) result }
    // Over what is told, it gives all that is there or a part, and is refused for what is there.
    ensures told { StepWalksOverSources W.Worktree F.Find D.Delegate
        (walk_state_of_parts parts.old) (walk_state_of_parts parts.new)
        (setting_of_shared M.Matcher shared.now) blocked.now levels
        (at_directory place.old.path class.now) result }
    // How the directories that are opened are counted, and how many they are at most.
    ensures opens { CountsOpenedByForks W.Worktree I.Interrupt 1
        (walk_state_of_parts parts.old) (walk_state_of_parts parts.new)
        result (OpensAtMostEntered W.Worktree F.Find D.Delegate
        (walk_state_of_parts parts.old) (walk_state_of_parts parts.new)
        (setting_of_shared M.Matcher shared.now) blocked.now levels
        (at_directory place.old.path class.now) result) }
    // The rules that were handed in stay in step.
    ensures rules { KeepsRulesInStep W.Worktree F.Find parts.old.worktree.now
        parts.old.objects.now parts.old.excludes.now parts.new.excludes.now }
{
    let path = place.path();
    let names = list_directory(alloc, place, parts.worktree, parts.interrupt, parts.outcome)?;
    if names.as_slice().is_empty() {
        return close_empty_directory(
            alloc,
            shared,
            blocked,
            path,
            class,
            parts.delegate,
            parts.outcome,
        );
    }
    let mut held = Held::new(alloc);
    let beneath = shared.index.entries_beneath_directory(path);
    for name in names.as_slice() {
        let handed = walk_name_as_job(
            alloc,
            shared,
            blocked,
            place,
            &beneath,
            name.as_bytes(),
            levels,
            parts,
        )?;
        held.add_entry_handed_up(alloc, handed)?;
    }
    fold_directory_or_emit_held(
        alloc,
        shared,
        blocked,
        place.path(),
        class,
        held,
        parts.delegate,
        parts.outcome,
    )
}
