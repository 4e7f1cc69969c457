//! Entering the traversal root.
ghost use Rattle.std.specs.Prelude.{◌≡◌, ◌+◌, ℕ, List, [], Option, Some, true, false, length, option_copied, option_to_list, IfOk, IfErr, OnOk, OnErr};
ghost use Rattle.gitbase_core.specs.Path.{components, ends_in_slash};
ghost use Rattle.worktree_fs.specs.Causes.{CountNotIncreased};
ghost use Rattle.worktree_fs.specs.Kept.{KeepsTreeAndListCounts};
ghost use Rattle.worktree_fs.specs.Paths.{is_relative_without_dots, slash_joined_components};
ghost use Rattle.worktree_stack.specs.Reading.{TreeAndObjects};
ghost use Rattle.worktree_stack.specs.Setup.{StackSetup};
ghost use Rattle.dir_classify.specs.Chosen.{walk_options_of};
ghost use Rattle.dir_classify.specs.Excludes.{setup_of_optional_stack, maps_rules_files_to_blobs, is_absent_or_has_excludes};
ghost use Rattle.dir_classify.specs.Layers.{setting_of_shared, evidence_from_setting_and_sources, rest_behind_directory, IsLookupOfIndexIfGiven};
ghost use Rattle.dir_walk.specs.declared.strategy.Strategy.TheVariants.{Held};
ghost use Rattle.dir_walk.specs.Emits.{AddsEmissionsAndCounts, AddsAtMostEmissionsAndSeen, count_held_emitted_plainly};
ghost use Rattle.dir_walk.specs.Kept.{KeepsDelegateRunning, HeedsDelegateBreak, RefusesOnlyOutOfMemory};
ghost use Rattle.dir_walk.specs.Moments.{KeepsPartReferences, walk_state_of_parts};
ghost use Rattle.dir_walk.specs.Puts.{AddsNoHiddenEmission, AddsEmissionsWithinRoom, count_held_at_path};
ghost use Rattle.dir_walk.specs.Report.{count_components};
ghost use Rattle.dir_walk.specs.RootSteps.{CausesOfEnteredRootRefusal, LeavesAfterEnteredRoot, WalksEnteredRootOverSources, OpensAtMostEnteredAtRoot, OpensAtMostEnteredInRoot, CountsOpenedAtRoot, WalksRootOverAnyWorktree, WalksRootOverSources};

use crate::children::walk_root_directory_by_jobs;
use crate::delegate::Delegate;
use crate::directory::walk_directory;
use crate::emit::emit;
use crate::handed::{Handed, Stop};
use crate::open::{for_deletion_mode, too_deep_or_interrupted_error};
use crate::outcome::Outcome;
use crate::parts::Parts;
use crate::place::Place;
use crate::strategy::Strategy;
use dir_classify::{Options, Shared, classify};
use gitbase_core::{Find, OutOfMemory, PathText, strip_directory_prefix, without_leading_slashes};
use glob_rules::pathspec::Matcher;
use std::alloc::Global;
use worktree_fs::{Interrupt, ReadError, Worktree, next_component};

/// How many components a path has.
fn count_components(path: &[u8]) -> usize
    ensures { result ≡ count_components path.now }
{
    let mut depth = 0;
    let mut rest = path;
    while let Some(next) = next_component(rest) {
        depth += 1;
        rest = next.rest;
    }
    depth
}

/// The rest of a path behind a directory that it is or lies beneath.
fn rest_behind_directory<'a>(directory: &[u8], path: &'a [u8]) -> Option<&'a [u8]>
    ensures { option_copied result ≡ rest_behind_directory directory.now path.now }
{
    if directory == path {
        return Some(&[]);
    }
    strip_directory_prefix(path, directory)
}

/// In deletion, the directory that must not go: the current one, where it is the worktree root or
/// lies beneath. A fault of the question for the real path of the worktree root reads as none.
///
/// See docs/DECISIONS.md#swallowed-faults.
fn current_directory_to_protect<W: Worktree, M: Matcher>(
    alloc: Global,
    shared: &Shared<'_, M>,
    worktree: &mut W,
) -> Result<Option<PathText>, OutOfMemory>
    ensures blocked { (made : Option StackSetup) (s : TreeAndObjects) → W.told worktree.old
        ≡ Some s.tree → CountNotIncreased (W.faults worktree.old) (W.faults worktree.new)
        → IfOk result (λ blocked. (evidence_from_setting_and_sources (setting_of_shared M.Matcher
        shared.now) made s).blocked ≡ blocked) }
    ensures keeps { KeepsTreeAndListCounts W.Worktree worktree.old worktree.new }
    ensures reads { W.reads worktree.new ≡ W.reads worktree.old }
{
    if for_deletion_mode(&shared.options).is_none() {
        return Ok(None);
    }
    match worktree.real_path(alloc, shared.worktree_root, shared.current_dir) {
        Ok(Some(real)) => match rest_behind_directory(real.as_bytes(), shared.current_dir) {
            Some(rest) => PathText::from_bytes(alloc, without_leading_slashes(rest))?.normalize(
                alloc,
            ),
            None => Ok(None),
        },
        Ok(None) => Ok(None),
        Err(ReadError::Fault) => Ok(None),
        Err(ReadError::OutOfMemory) => Err(OutOfMemory),
    }
}

/// Puts out what is handed up at the end, by itself.
fn emit_entry_handed_up<D: Delegate>(
    alloc: Global,
    options: &Options<'_>,
    handed: &Handed,
    delegate: &mut D,
    outcome: &mut Outcome,
) -> Result<(), Stop>
    ensures gives { OnOk result (AddsEmissionsAndCounts (D.given delegate.old)
        (D.given delegate.new) outcome.old outcome.new (count_held_emitted_plainly
        (walk_options_of options.now) (option_to_list handed.now.entry))
        (length (option_to_list handed.now.entry)) 0) }
    ensures part { OnErr result (AddsAtMostEmissionsAndSeen (D.given delegate.old)
        (D.given delegate.new) outcome.old outcome.new (count_held_emitted_plainly
        (walk_options_of options.now) (option_to_list handed.now.entry))
        (length (option_to_list handed.now.entry))) }
    ensures puts { AddsEmissionsWithinRoom (λ path. count_held_at_path path
        (option_to_list handed.now.entry)) (D.given delegate.old) (D.given delegate.new) outcome.old
        outcome.new [] }
    ensures entered { outcome.new.read_dir_calls ≡ outcome.old.read_dir_calls }
    ensures delegate { KeepsDelegateRunning D.Delegate delegate.old delegate.new }
    ensures filtered { AddsNoHiddenEmission (walk_options_of options.now) (D.given delegate.old)
        (D.given delegate.new) }
    ensures heeds { HeedsDelegateBreak D.Delegate delegate.old delegate.new result }
    ensures memory { RefusesOnlyOutOfMemory result }
{
    match &handed.entry {
        None => Ok(()),
        Some(entry) => emit(alloc, options, entry.to_ref(), None, delegate, outcome),
    }
}

/// Walks a directory that is entered as the traversal root, as a strategy says, unless it lies too
/// deep.
fn walk_root_within_depth_limit<W: Worktree, F: Find, I: Interrupt, M: Matcher, D: Delegate>(
    alloc: Global,
    shared: &Shared<'_, M>,
    blocked: &Option<PathText>,
    place: &mut Place,
    class: &classify::Outcome,
    depth_limit: usize,
    strategy: Strategy,
    parts: &mut Parts<'_, '_, '_, '_, '_, '_, W, F, I, D>,
) -> Result<Handed, Stop>
    requires root { place.old.root ≡ shared.now.worktree_root.now }
    requires lookup { IsLookupOfIndexIfGiven shared.now.index.now
        shared.now.ignore_case_index_lookup.now }
    requires excludes { is_absent_or_has_excludes (setup_of_optional_stack parts.old.excludes.now)
        ≡ true }
    // The parts are behind the same references.
    ensures same { KeepsPartReferences parts.old parts.new }
    // Over what is told, it gives all that is there or a part, and is refused for what is there.
    ensures told { WalksRootOverSources W.Worktree F.Find D.Delegate (walk_state_of_parts parts.old)
        (walk_state_of_parts parts.new) (setting_of_shared M.Matcher shared.now) blocked.now
        depth_limit place.old.path class.now result }
    // Over any worktree, what a refusal is about, what is given, what stays, and how it ends.
    ensures walks { WalksRootOverAnyWorktree W.Worktree F.Find I.Interrupt D.Delegate
        (walk_state_of_parts parts.old) (walk_state_of_parts parts.new)
        (setting_of_shared M.Matcher shared.now) depth_limit place.old.path result }
    // How the directories that are opened are counted, and how many they are at most.
    ensures opens { CountsOpenedAtRoot W.Worktree I.Interrupt (walk_state_of_parts parts.old)
        (walk_state_of_parts parts.new) strategy (setting_of_shared M.Matcher shared.now)
        place.old.path result (OpensAtMostEnteredAtRoot W.Worktree F.Find D.Delegate
        (walk_state_of_parts parts.old) (walk_state_of_parts parts.new) (setting_of_shared M.Matcher
        shared.now) blocked.now depth_limit place.old.path class.now result) }
    // If no rules file is mapped to a blob, the store stays as it was where all is walked over it.
    ensures unmapped { strategy ≡ Held → maps_rules_files_to_blobs (setup_of_optional_stack
        parts.old.excludes.now) ≡ false → parts.new.objects.now ≡ parts.old.objects.now }
{
    let depth = count_components(place.path());
    if depth > depth_limit {
        return Err(Stop::Refused(too_deep_or_interrupted_error(alloc, place, parts.interrupt)));
    }
    let levels = depth_limit - depth;
    match strategy {
        Strategy::Held => walk_directory(alloc, shared, blocked, place, class, levels, parts),
        Strategy::AtOnce => walk_root_directory_by_jobs(
            alloc, shared, blocked, place, class, levels, parts,
        ),
    }
}

/// Walks the traversal root `path`, of the class `class`, which is entered, as a strategy says.
pub(crate) fn walk_entered_traversal_root<
    W: Worktree,
    F: Find,
    I: Interrupt,
    M: Matcher,
    D: Delegate,
>(
    alloc: Global,
    shared: &Shared<'_, M>,
    path: &[u8],
    class: &classify::Outcome,
    depth_limit: usize,
    strategy: Strategy,
    parts: &mut Parts<'_, '_, '_, '_, '_, '_, W, F, I, D>,
) -> Result<(), Stop>
    requires normal { is_relative_without_dots path.now ≡ true }
    requires plain { ends_in_slash path.now ≡ false }
    requires spelled { path.now ≡ slash_joined_components (components path.now) }
    requires lookup { IsLookupOfIndexIfGiven shared.now.index.now
        shared.now.ignore_case_index_lookup.now }
    requires excludes { is_absent_or_has_excludes (setup_of_optional_stack parts.old.excludes.now)
        ≡ true }
    // The parts are behind the same references.
    ensures same { KeepsPartReferences parts.old parts.new }
    // Over what is told, it gives all that is there or a part, and is refused for what is there.
    ensures told { WalksEnteredRootOverSources W.Worktree F.Find D.Delegate
        (walk_state_of_parts parts.old) (walk_state_of_parts parts.new) (setting_of_shared M.Matcher
        shared.now) depth_limit path.now class.now result }
    // Over any worktree, what a refusal is about, and what it says of what is told.
    ensures caused { CausesOfEnteredRootRefusal W.Worktree F.Find (walk_state_of_parts parts.old)
        (setting_of_shared M.Matcher shared.now) depth_limit path.now result }
    // How the directories that are opened are counted, and how many they are at most.
    ensures opens { CountsOpenedAtRoot W.Worktree I.Interrupt (walk_state_of_parts parts.old)
        (walk_state_of_parts parts.new) strategy (setting_of_shared M.Matcher shared.now) path.now
        result (OpensAtMostEnteredInRoot W.Worktree F.Find D.Delegate
        (walk_state_of_parts parts.old) (walk_state_of_parts parts.new) (setting_of_shared M.Matcher
        shared.now) depth_limit path.now class.now result) }
    // If no rules file is mapped to a blob, the store stays as it was where all is walked over it.
    ensures unmapped { strategy ≡ Held → maps_rules_files_to_blobs (setup_of_optional_stack
        parts.old.excludes.now) ≡ false → parts.new.objects.now ≡ parts.old.objects.now }
    // Over any worktree, what the delegate is given, what stays, and how it ends.
    ensures leaves { LeavesAfterEnteredRoot W.Worktree F.Find I.Interrupt D.Delegate
        (walk_state_of_parts parts.old) (walk_state_of_parts parts.new) (setting_of_shared M.Matcher
        shared.now) path.now result }
{
    let mut place = Place::from_root_and_path(alloc, shared.worktree_root, path)?;
    let blocked = current_directory_to_protect(alloc, shared, parts.worktree)?;
    let handed = walk_root_within_depth_limit(
        alloc,
        shared,
        &blocked,
        &mut place,
        class,
        depth_limit,
        strategy,
        parts,
    )?;
    emit_entry_handed_up(
        alloc,
        &shared.options,
        &handed,
        parts.delegate,
        parts.outcome,
    )
}
