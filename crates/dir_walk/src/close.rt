//! What becomes of a path that is not entered, and of a directory when its names are done.
ghost use Rattle.std.specs.Prelude.{◌≡◌, true, false, Some, None, Option, option_map, List, ℕ, IfOk, OnErr};
ghost use Rattle.worktree_fs.specs.Causes.{CountNotIncreased};
ghost use Rattle.worktree_fs.specs.Kept.{KeepsTreeAndListCounts};
ghost use Rattle.worktree_stack.specs.Reading.{TreeAndObjects};
ghost use Rattle.worktree_stack.specs.Setup.{StackSetup};
ghost use Rattle.dir_classify.specs.Chosen.{walk_options_of, deletion_skips_search_of_ignored_directories};
ghost use Rattle.dir_classify.specs.Class.{outcome_of_unentered_path, is_ignored_directory_hiding_repositories};
ghost use Rattle.dir_classify.specs.Entries.{entry_with_outcome};
ghost use Rattle.dir_classify.specs.Evidence.{PathEvidence, is_protected_current_directory, is_optional_path_equal};
ghost use Rattle.dir_classify.specs.Layers.{setting_of_shared, evidence_from_setting_and_sources};
ghost use Rattle.dir_walk.specs.Emits.{ClosesWithAllWalked, AddsPartOfWalkResult, folded_entry_unless_blocked};
ghost use Rattle.dir_walk.specs.Kept.{KeepsDelegateRunning, HeedsDelegateBreak, RefusesOnlyOutOfMemory};
ghost use Rattle.dir_walk.specs.Puts.{AddsNoHiddenEmission, HandsUpOnlyEntryAtPath, one_at_path, one_at_path_plus_held};
ghost use Rattle.dir_walk.specs.Told.{IsEvidenceForClosing};
ghost use Rattle.dir_walk.specs.Walked.{walk_result_of_closed_directory, walk_result_holding_entries, walk_result_of_empty_directory, outcome_of_empty_directory, kind_of_spec_matching_directory, property_of_empty_directory};

use crate::delegate::Delegate;
use crate::emit::{emit_collapsed, emit_each_held_entry, hand_up_or_emit_leaf};
use crate::fold::fold;
use crate::handed::{Handed, Held, Stop};
use crate::open::for_deletion_mode;
use crate::outcome::Outcome;
use crate::place::Place;
use dir_classify::entry::entry_ref_with_outcome;
use dir_classify::options::deletion_skips_search_of_ignored_directories;
use dir_classify::{
    Kind, Options, PathspecMatch, Property, Shared, classify, maybe_upgrade_to_repository,
};
use gitbase_core::{OutOfMemory, PathText};
use glob_rules::pathspec::Matcher;
use std::alloc::Global;
use worktree_fs::Worktree;

/// The class of a path that is not entered. In deletion that does not look into ignored
/// directories, one is looked at for being a repository, also where repositories are walked into.
///
/// A fault of that look is counted, and reads as no repository, or as one that is not the
/// worktree's own.
///
/// See docs/DECISIONS.md#swallowed-faults.
#[tactic(auto, unfolding(dir_classify::specs::Class::outcome_of_unentered_path, dir_classify::specs::Layers::evidence_from_setting_and_sources))]
#[inline(never)]
pub(crate) fn outcome_of_unentered_path<W: Worktree, M: Matcher>(
    alloc: Global,
    shared: &Shared<'_, M>,
    place: &Place,
    class: &classify::Outcome,
    worktree: &mut W,
) -> Result<classify::Outcome, OutOfMemory>
    requires { place.now.root ≡ shared.now.worktree_root.now }
    ensures class { (made : Option StackSetup) (s : TreeAndObjects) → W.told worktree.old
        ≡ Some s.tree → CountNotIncreased (W.faults worktree.old) (W.faults worktree.new)
        → IfOk result (λ c. c ≡ outcome_of_unentered_path (walk_options_of shared.now.options)
        (evidence_from_setting_and_sources (setting_of_shared M.Matcher shared.now) made s)
        place.now.path class.now) }
    ensures worktree { KeepsTreeAndListCounts W.Worktree worktree.old worktree.new }
    ensures reads { deletion_skips_search_of_ignored_directories (walk_options_of
        shared.now.options).for_deletion ≡ false → W.reads worktree.new ≡ W.reads worktree.old }
{
    if !ignored_directory_may_hide_repositories(&shared.options, class) {
        return Ok(*class);
    }
    let disk_kind = maybe_upgrade_to_repository(
        alloc,
        class.disk_kind,
        true,
        false,
        place.whole(),
        worktree,
        shared.current_dir,
        shared.git_dir_realpath,
    )?;
    Ok(classify::Outcome {
        disk_kind,
        ..*class
    })
}

/// Whether a path of a class that is not entered may hide repositories that deletion would take
/// along.
fn ignored_directory_may_hide_repositories(options: &Options<'_>, class: &classify::Outcome) -> bool
    ensures { result ≡ is_ignored_directory_hiding_repositories (walk_options_of options.now)
        class.now }
{
    let may_hide = deletion_skips_search_of_ignored_directories(for_deletion_mode(options));
    let is_directory = matches!(class.disk_kind, Some(Kind::Directory));
    class.status.is_ignored() & is_directory & may_hide
}

/// Whether a path is that of the directory that must not go.
///
/// See docs/DECISIONS.md#current-directory-stays.
pub(crate) fn is_protected_directory(blocked: &Option<PathText>, path: &[u8]) -> bool
    ensures { result ≡ is_optional_path_equal blocked.now path.now }
{
    match blocked {
        None => false,
        Some(blocked) => path == blocked.as_bytes(),
    }
}

/// A directory without names: it is a leaf.
#[tactic(auto, unfolding(crate::specs::Walked::walk_result_of_empty_directory))]
#[inline(never)]
pub(crate) fn close_empty_directory<M: Matcher, D: Delegate>(
    alloc: Global,
    shared: &Shared<'_, M>,
    blocked: &Option<PathText>,
    path: &[u8],
    class: &classify::Outcome,
    delegate: &mut D,
    outcome: &mut Outcome,
) -> Result<Handed, Stop>
    ensures gives { (ev : PathEvidence) → IsEvidenceForClosing (setting_of_shared M.Matcher
        shared.now) blocked.now ev → IfOk result
        (ClosesWithAllWalked (walk_options_of shared.now.options) (walk_result_of_empty_directory
        (walk_options_of shared.now.options) ev path.now class.now) (D.given delegate.old)
        (D.given delegate.new) outcome.old outcome.new) }
    ensures part { (ev : PathEvidence)
        → IsEvidenceForClosing (setting_of_shared M.Matcher shared.now) blocked.now ev
        → OnErr result (AddsPartOfWalkResult (walk_options_of shared.now.options)
        (walk_result_of_empty_directory (walk_options_of shared.now.options) ev path.now class.now)
        (D.given delegate.old) (D.given delegate.new) outcome.old outcome.new) }
    ensures delegate { KeepsDelegateRunning D.Delegate delegate.old delegate.new }
    ensures filtered { AddsNoHiddenEmission (walk_options_of shared.now.options)
        (D.given delegate.old) (D.given delegate.new) }
    ensures heeds { HeedsDelegateBreak D.Delegate delegate.old delegate.new result }
    ensures hands { HandsUpOnlyEntryAtPath path.now (one_at_path path.now) (D.given delegate.old)
        (D.given delegate.new) outcome.old outcome.new result }
    ensures entered { outcome.new.read_dir_calls ≡ outcome.old.read_dir_calls }
    ensures memory { RefusesOnlyOutOfMemory result }
{
    let blocks = is_protected_directory(blocked, path);
    let class = outcome_of_empty_directory(shared, blocks, path, class);
    let handed = hand_up_or_emit_leaf(alloc, &shared.options, path, &class, delegate, outcome)?;
    Ok(Handed {
        entry: handed.entry,
        blocks,
    })
}

/// The class of the entry that stands for a directory without names.
fn outcome_of_empty_directory<M: Matcher>(
    shared: &Shared<'_, M>,
    blocks: bool,
    path: &[u8],
    class: &classify::Outcome,
) -> classify::Outcome
    ensures { (ev : PathEvidence) → ev.matched ≡ (setting_of_shared M.Matcher shared.now).matched
        → is_protected_current_directory ev path.now ≡ blocks → result ≡ outcome_of_empty_directory
        ev path.now class.now }
{
    classify::Outcome {
        property: property_of_empty_directory(blocks, class.property),
        pathspec_match: kind_of_spec_matching_directory(shared.pathspec, path),
        ..*class
    }
}

/// The property of a directory without names.
///
/// See docs/DIFFERENCES.md#current-directory.
fn property_of_empty_directory(blocks: bool, own: Option<Property>) -> Option<Property>
    ensures { result ≡ property_of_empty_directory blocks own }
{
    if blocks {
        return Some(Property::EmptyDirectoryAndCWD);
    }
    match own {
        Some(property) => Some(property),
        None => Some(Property::EmptyDirectory),
    }
}

/// How the path specs match a directory, whether or not one takes it out.
///
/// See docs/DECISIONS.md#directory-without-names.
fn kind_of_spec_matching_directory<M: Matcher>(pathspec: &M, path: &[u8]) -> Option<PathspecMatch>
    ensures { (ev : PathEvidence) → ev.matched ≡ M.matched pathspec.now
        → result ≡ kind_of_spec_matching_directory ev path.now }
{
    match pathspec.pattern_matching_relative_path(path, Some(true)) {
        Some(found) => Some(PathspecMatch::from(found.kind)),
        None => None,
    }
}

/// A directory with names, when these are done: it is folded over what they handed up, or that is
/// put out.
#[tactic(auto, unfolding(crate::specs::Walked::walk_result_of_closed_directory))]
#[inline(never)]
pub(crate) fn fold_directory_or_emit_held<M: Matcher, D: Delegate>(
    alloc: Global,
    shared: &Shared<'_, M>,
    blocked: &Option<PathText>,
    path: &[u8],
    class: &classify::Outcome,
    held: Held,
    delegate: &mut D,
    outcome: &mut Outcome,
) -> Result<Handed, Stop>
    ensures gives { (ev : PathEvidence) → IsEvidenceForClosing (setting_of_shared M.Matcher
        shared.now) blocked.now ev → IfOk result
        (ClosesWithAllWalked (walk_options_of shared.now.options) (walk_result_of_closed_directory
        (walk_options_of shared.now.options) ev path.now class.now (walk_result_holding_entries
        held.entries.items held.blocked)) (D.given delegate.old) (D.given delegate.new) outcome.old
        outcome.new) }
    ensures part { (ev : PathEvidence)
        → IsEvidenceForClosing (setting_of_shared M.Matcher shared.now) blocked.now ev
        → OnErr result (AddsPartOfWalkResult (walk_options_of shared.now.options)
        (walk_result_of_closed_directory (walk_options_of shared.now.options) ev path.now class.now
        (walk_result_holding_entries held.entries.items held.blocked)) (D.given delegate.old)
        (D.given delegate.new) outcome.old outcome.new) }
    ensures delegate { KeepsDelegateRunning D.Delegate delegate.old delegate.new }
    ensures filtered { AddsNoHiddenEmission (walk_options_of shared.now.options)
        (D.given delegate.old) (D.given delegate.new) }
    ensures heeds { HeedsDelegateBreak D.Delegate delegate.old delegate.new result }
    ensures hands { HandsUpOnlyEntryAtPath path.now (one_at_path_plus_held path.now
        held.entries.items) (D.given delegate.old) (D.given delegate.new) outcome.old outcome.new
        result }
    ensures entered { outcome.new.read_dir_calls ≡ outcome.old.read_dir_calls }
    ensures memory { RefusesOnlyOutOfMemory result }
{
    match folded_outcome_unless_blocked(shared, blocked, path, class, &held) {
        None => {
            emit_each_held_entry(alloc, &shared.options, &held.entries, delegate, outcome)?;
            Ok(Handed {
                entry: None,
                blocks: true,
            })
        }
        Some(class) => {
            let entry = entry_ref_with_outcome(path, &class).into_owned(alloc)?;
            emit_collapsed(
                alloc,
                &shared.options,
                class.status,
                &held.entries,
                delegate,
                outcome,
            )?;
            Ok(Handed {
                entry: Some(entry),
                blocks: false,
            })
        }
    }
}

/// The class of the entry that stands for all that a directory holds, or none where it is not
/// folded. Where nothing is held, nothing is counted and no path spec is asked.
fn folded_outcome_unless_blocked<M: Matcher>(
    shared: &Shared<'_, M>,
    blocked: &Option<PathText>,
    path: &[u8],
    class: &classify::Outcome,
    held: &Held,
) -> Option<classify::Outcome>
    ensures { (ev : PathEvidence) → IsEvidenceForClosing (setting_of_shared M.Matcher shared.now)
        blocked.now ev → option_map (entry_with_outcome path.now) result
        ≡ folded_entry_unless_blocked (walk_options_of shared.now.options) ev path.now class.now
        (walk_result_holding_entries held.now.entries.items held.now.blocked) }
{
    if held.blocked {
        return None;
    }
    if held.is_empty() {
        return None;
    }
    let blocks = is_protected_directory(blocked, path);
    let covered = shared.pathspec.directory_matches_prefix(path, false);
    fold(&shared.options, path, class, &held.entries, blocks, covered)
}
