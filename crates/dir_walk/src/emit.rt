//! Which entries are put out, and putting them out.
ghost use Rattle.std.specs.Prelude.{◌≡◌, [], ◌∷◌, length, IfOk, OnOk, OnErr, Some, None};
ghost use Rattle.dir_classify.specs.Chosen.{walk_options_of};
ghost use Rattle.dir_classify.specs.Entries.{owned_entry_of_ref, entry_with_outcome};
ghost use Rattle.dir_walk.specs.Emissions.{emission_with_fold_status, is_entry_shown_by_options, is_outcome_shown_by_options, is_status_emitted, is_empty_directory_property, is_unmatched_or_excluded};
ghost use Rattle.dir_walk.specs.Emits.{AddsEmissionsAndCounts, AddsAtMostEmissionsAndSeen, AddsPartOfWalkResult, ClosesWithAllWalked, count_shown_passing, count_held_emitted_plainly, count_held_emitted_collapsed};
ghost use Rattle.dir_walk.specs.Kept.{KeepsDelegateRunning, HeedsDelegateBreak, RefusesOnlyOutOfMemory};
ghost use Rattle.dir_walk.specs.Puts.{AddsNoHiddenEmission, AddsEmissionsWithinRoom, HandsUpOnlyEntryAtPath, count_held_at_path, one_at_path};
ghost use Rattle.dir_walk.specs.Walked.{walk_result_of_leaf_entry};

use crate::delegate::{Action, Delegate};
use crate::fold::{emits_besides_folded_directory, holds_status_for_folding};
use crate::handed::{Handed, Stop};
use crate::outcome::Outcome;
use dir_classify::entry::entry_ref_with_outcome;
use dir_classify::{
    CollapsedEntriesEmissionMode, Entry, EntryRef, Options, PathspecMatch, Property, Status,
    classify,
};
use std::alloc::Global;

/// Puts an entry out: gives it to the delegate, unless it is hidden.
pub(crate) fn emit<D: Delegate>(
    alloc: Global,
    options: &Options<'_>,
    entry: EntryRef<'_>,
    collapsed_directory_status: Option<Status>,
    delegate: &mut D,
    outcome: &mut Outcome,
) -> Result<(), Stop>
    ensures gives { OnOk result (AddsEmissionsAndCounts (D.given delegate.old)
        (D.given delegate.new) outcome.old outcome.new (λ p. count_shown_passing
        (walk_options_of options.now) p (emission_with_fold_status (owned_entry_of_ref entry.entry)
        collapsed_directory_status ∷ [])) 1 0) }
    ensures part { OnErr result (AddsAtMostEmissionsAndSeen (D.given delegate.old)
        (D.given delegate.new) outcome.old outcome.new (λ p. count_shown_passing
        (walk_options_of options.now) p (emission_with_fold_status (owned_entry_of_ref entry.entry)
        collapsed_directory_status ∷ [])) 1) }
    ensures delegate { KeepsDelegateRunning D.Delegate delegate.old delegate.new }
    ensures filtered { AddsNoHiddenEmission (walk_options_of options.now) (D.given delegate.old)
        (D.given delegate.new) }
    ensures heeds { HeedsDelegateBreak D.Delegate delegate.old delegate.new result }
    ensures puts { AddsEmissionsWithinRoom (one_at_path (owned_entry_of_ref entry.entry).rela_path)
        (D.given delegate.old) (D.given delegate.new) outcome.old outcome.new [] }
    ensures entered { outcome.new.read_dir_calls ≡ outcome.old.read_dir_calls }
    ensures refusals { D.refusals delegate.new ≡ D.refusals delegate.old }
    ensures memory { RefusesOnlyOutOfMemory result }
{
    outcome.seen_entries = outcome.seen_entries.saturating_add(1);
    if !is_entry_shown_by_options(options, &entry) {
        return Ok(());
    }
    let action = delegate.emit(alloc, entry, collapsed_directory_status)?;
    outcome.returned_entries = outcome.returned_entries.saturating_add(1);
    match action {
        Action::Continue => Ok(()),
        Action::Break => Err(Stop::Broken),
    }
}

/// Puts all that a directory holds out, each entry by itself.
pub(crate) fn emit_each_held_entry<D: Delegate>(
    alloc: Global,
    options: &Options<'_>,
    held: &[Entry],
    delegate: &mut D,
    outcome: &mut Outcome,
) -> Result<(), Stop>
    ensures gives { OnOk result (AddsEmissionsAndCounts (D.given delegate.old)
        (D.given delegate.new) outcome.old outcome.new (count_held_emitted_plainly
        (walk_options_of options.now) held.now) (length held.now) 0) }
    ensures part { OnErr result (AddsAtMostEmissionsAndSeen (D.given delegate.old)
        (D.given delegate.new) outcome.old outcome.new (count_held_emitted_plainly
        (walk_options_of options.now) held.now) (length held.now)) }
    ensures delegate { KeepsDelegateRunning D.Delegate delegate.old delegate.new }
    ensures filtered { AddsNoHiddenEmission (walk_options_of options.now) (D.given delegate.old)
        (D.given delegate.new) }
    ensures heeds { HeedsDelegateBreak D.Delegate delegate.old delegate.new result }
    ensures puts { AddsEmissionsWithinRoom (λ path. count_held_at_path path held.now)
        (D.given delegate.old) (D.given delegate.new) outcome.old outcome.new [] }
    ensures entered { outcome.new.read_dir_calls ≡ outcome.old.read_dir_calls }
    ensures memory { RefusesOnlyOutOfMemory result }
{
    for entry in held {
        emit(alloc, options, entry.to_ref(), None, delegate, outcome)?;
    }
    Ok(())
}

/// Puts out what is to be seen of what a directory holds besides the directory, which was folded
/// over it with a status.
///
/// See docs/DIFFERENCES.md#gix-break-while-folding.
pub(crate) fn emit_collapsed<D: Delegate>(
    alloc: Global,
    options: &Options<'_>,
    status: Status,
    held: &[Entry],
    delegate: &mut D,
    outcome: &mut Outcome,
) -> Result<(), Stop>
    ensures gives { OnOk result (AddsEmissionsAndCounts (D.given delegate.old)
        (D.given delegate.new) outcome.old outcome.new (count_held_emitted_collapsed
        (walk_options_of options.now) status held.now) (length held.now) 0) }
    ensures part { OnErr result (AddsAtMostEmissionsAndSeen (D.given delegate.old)
        (D.given delegate.new) outcome.old outcome.new (count_held_emitted_collapsed
        (walk_options_of options.now) status held.now) (length held.now)) }
    ensures delegate { KeepsDelegateRunning D.Delegate delegate.old delegate.new }
    ensures filtered { AddsNoHiddenEmission (walk_options_of options.now) (D.given delegate.old)
        (D.given delegate.new) }
    ensures heeds { HeedsDelegateBreak D.Delegate delegate.old delegate.new result }
    ensures puts { AddsEmissionsWithinRoom (λ path. count_held_at_path path held.now)
        (D.given delegate.old) (D.given delegate.new) outcome.old outcome.new [] }
    ensures entered { outcome.new.read_dir_calls ≡ outcome.old.read_dir_calls }
    ensures memory { RefusesOnlyOutOfMemory result }
{
    for entry in held {
        emit_or_count_collapsed_entry(alloc, options, status, entry, delegate, outcome)?;
    }
    Ok(())
}

/// One entry that a directory was folded over: it is put out, or merged.
fn emit_or_count_collapsed_entry<D: Delegate>(
    alloc: Global,
    options: &Options<'_>,
    status: Status,
    entry: &Entry,
    delegate: &mut D,
    outcome: &mut Outcome,
) -> Result<(), Stop>
    ensures gives { OnOk result (AddsEmissionsAndCounts (D.given delegate.old)
        (D.given delegate.new) outcome.old outcome.new (count_held_emitted_collapsed
        (walk_options_of options.now) status (entry.now ∷ [])) 1 0) }
    ensures part { OnErr result (AddsAtMostEmissionsAndSeen (D.given delegate.old)
        (D.given delegate.new) outcome.old outcome.new (count_held_emitted_collapsed
        (walk_options_of options.now) status (entry.now ∷ [])) 1) }
    ensures delegate { KeepsDelegateRunning D.Delegate delegate.old delegate.new }
    ensures filtered { AddsNoHiddenEmission (walk_options_of options.now) (D.given delegate.old)
        (D.given delegate.new) }
    ensures heeds { HeedsDelegateBreak D.Delegate delegate.old delegate.new result }
    ensures puts { AddsEmissionsWithinRoom (one_at_path entry.now.rela_path) (D.given delegate.old)
        (D.given delegate.new) outcome.old outcome.new [] }
    ensures entered { outcome.new.read_dir_calls ≡ outcome.old.read_dir_calls }
    ensures memory { RefusesOnlyOutOfMemory result }
{
    if emits_besides_folded_directory(collapsed_emission_mode(options), status, entry) {
        return emit(
            alloc,
            options,
            entry.to_ref(),
            Some(status),
            delegate,
            outcome,
        );
    }
    outcome.seen_entries = outcome.seen_entries.saturating_add(1);
    Ok(())
}

/// A path that is not entered: it is handed up, or put out.
#[tactic(auto, unfolding(crate::specs::Walked::walk_result_of_leaf_entry))]
#[inline(never)]
pub(crate) fn hand_up_or_emit_leaf<D: Delegate>(
    alloc: Global,
    options: &Options<'_>,
    path: &[u8],
    class: &classify::Outcome,
    delegate: &mut D,
    outcome: &mut Outcome,
) -> Result<Handed, Stop>
    ensures gives { IfOk result (ClosesWithAllWalked (walk_options_of options.now)
        (walk_result_of_leaf_entry (walk_options_of options.now) (entry_with_outcome path.now
        class.now)) (D.given delegate.old) (D.given delegate.new) outcome.old outcome.new) }
    ensures part { OnErr result (AddsPartOfWalkResult (walk_options_of options.now)
        (walk_result_of_leaf_entry (walk_options_of options.now) (entry_with_outcome path.now
        class.now)) (D.given delegate.old) (D.given delegate.new) outcome.old outcome.new) }
    ensures delegate { KeepsDelegateRunning D.Delegate delegate.old delegate.new }
    ensures filtered { AddsNoHiddenEmission (walk_options_of options.now) (D.given delegate.old)
        (D.given delegate.new) }
    ensures heeds { HeedsDelegateBreak D.Delegate delegate.old delegate.new result }
    ensures hands { HandsUpOnlyEntryAtPath path.now (one_at_path path.now) (D.given delegate.old)
        (D.given delegate.new) outcome.old outcome.new result }
    ensures entered { outcome.new.read_dir_calls ≡ outcome.old.read_dir_calls }
    ensures memory { RefusesOnlyOutOfMemory result }
{
    let entry = entry_ref_with_outcome(path, class);
    if holds_status_for_folding(options, class.status) {
        let held = entry.into_owned(alloc)?;
        return Ok(Handed {
            entry: Some(held),
            blocks: false,
        });
    }
    emit(alloc, options, entry, None, delegate, outcome)?;
    Ok(Handed {
        entry: None,
        blocks: false,
    })
}

/// How entries are put out besides a directory that was folded over them.
#[tactic(auto, unfolding(dir_classify::specs::Chosen::walk_options_of))]
fn collapsed_emission_mode(options: &Options<'_>) -> Option<CollapsedEntriesEmissionMode>
    ensures { result ≡ (walk_options_of options.now).emit_collapsed }
{
    options.emit_collapsed
}

/// Whether an entry is given to the delegate.
///
/// See docs/DIFFERENCES.md#empty-directory.
#[tactic(auto, unfolding(dir_classify::specs::Chosen::walk_options_of))]
fn is_entry_shown_by_options(options: &Options<'_>, entry: &EntryRef<'_>) -> bool
    ensures { result ≡ is_entry_shown_by_options (walk_options_of options.now)
        (owned_entry_of_ref entry.now) }
{
    let empty = is_empty_directory_property(entry.property);
    let wanted = is_status_emitted(options, entry.status);
    let unmatched = is_unmatched_or_excluded(entry.pathspec_match);
    (options.emit_empty_directories | !empty) & wanted & (options.emit_pruned | !unmatched)
}

/// Whether entries of a status are asked for.
#[tactic(auto, unfolding(dir_classify::specs::Chosen::walk_options_of))]
fn is_status_emitted(options: &Options<'_>, status: Status) -> bool
    ensures { result ≡ is_status_emitted (walk_options_of options.now) status }
{
    match status {
        Status::Pruned => options.emit_pruned,
        Status::Tracked => options.emit_tracked,
        Status::Ignored(_) => options.emit_ignored.is_some(),
        Status::Untracked => true,
    }
}

fn is_empty_directory_property(property: Option<Property>) -> bool
    ensures { result ≡ is_empty_directory_property property }
{
    matches!(property, Some(Property::EmptyDirectory))
}

/// Whether no path spec matches, or one takes the path out.
fn is_unmatched_or_excluded(pathspec_match: Option<PathspecMatch>) -> bool
    ensures { result ≡ is_unmatched_or_excluded pathspec_match }
{
    matches!(pathspec_match, None | Some(PathspecMatch::Excluded))
}
