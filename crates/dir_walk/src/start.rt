//! The walk from its traversal root on.
ghost use Rattle.std.specs.Prelude.{◌≡◌, ◌&&◌, not, ℕ, List, [], Option, Some, true, false, IfOk, IfErr, OnOk, OnErr};
ghost use Rattle.worktree_fs.specs.Causes.{CountNotIncreased, CountIncreasedOrSaturated};
ghost use Rattle.worktree_fs.specs.Kept.{KeepsTreeAndListCounts};
ghost use Rattle.worktree_stack.specs.Reading.{TreeAndObjects};
ghost use Rattle.worktree_stack.specs.Setup.{StackSetup};
ghost use Rattle.dir_classify.specs.Chosen.{walk_options_of};
ghost use Rattle.dir_classify.specs.Excludes.{setup_of_optional_stack, maps_rules_files_to_blobs, is_absent_or_has_excludes};
ghost use Rattle.gitbase_core.specs.Path.{is_empty};
ghost use Rattle.dir_classify.specs.Kinds.{is_some_directory_kind, is_symlink_kind};
ghost use Rattle.dir_classify.specs.Layers.{setting_of_shared, evidence_from_setting_and_sources, IsLookupOfIndexIfGiven};
ghost use Rattle.dir_classify.specs.Rooted.{reached_of_root_outcome, end_of_way_to_root};
ghost use Rattle.dir_walk.specs.declared.strategy.Strategy.TheVariants.{Held};
ghost use Rattle.dir_walk.specs.Emissions.{uncollapsed_emission};
ghost use Rattle.dir_walk.specs.Emits.{AddsEmissionsAndCounts, count_shown_passing};
ghost use Rattle.dir_walk.specs.Given.{CountsRecursionRefusal, HoldsOfErrorIfRefused};
ghost use Rattle.dir_walk.specs.Kept.{KeepsDelegateRunning, HeedsDelegateBreak};
ghost use Rattle.dir_walk.specs.Moments.{KeepsPartReferences, walk_state_of_parts};
ghost use Rattle.dir_walk.specs.Puts.{AddsNoHiddenEmission, AddsEmissionsWithinRoom, one_at_path};
ghost use Rattle.dir_walk.specs.Root.{enters_traversal_root, disk_kind_of_traversal_root};
ghost use Rattle.dir_walk.specs.RootSteps.{OpensAtMostEnteredFromRoot, CountsOpenedFromRoot, CausesOfRefusalFromRoot, LeavesAfterWalkFromRoot, WalksFromRootOverSources, LeavesUnstartedWalkUntouched, RefusesOnlyUnenteredRoot};
ghost use Rattle.dir_walk.specs.Rooting.{IsNormalRootPath};
ghost use Rattle.dir_walk.specs.Starts.{EmitsUnenteredRoot};

use crate::delegate::Delegate;
use crate::emit::emit;
use crate::enter::walk_entered_traversal_root;
use crate::handed::Stop;
use crate::open::delegate_enters_directory;
use crate::outcome::Outcome;
use crate::parts::Parts;
use crate::root::is_directory_following_links;
use crate::strategy::Strategy;
use dir_classify::classify::RootOutcome;
use dir_classify::entry::{entry_ref_with_outcome, is_some_directory_kind};
use dir_classify::{Error, Kind, Shared, classify};
use gitbase_core::{Find, OutOfMemory, PathText};
use glob_rules::pathspec::Matcher;
use std::alloc::Global;
use worktree_fs::{Interrupt, Worktree};

/// The kind by which a traversal root is entered or not: for the worktree root a link to a
/// directory counts as one. A fault of the question where it leads reads as no directory.
fn disk_kind_of_traversal_root<W: Worktree, M: Matcher>(
    alloc: Global,
    shared: &Shared<'_, M>,
    reached: &RootOutcome,
    worktree: &mut W,
) -> Result<Option<Kind>, OutOfMemory>
    ensures kind { (made : Option StackSetup) (s : TreeAndObjects) → W.told worktree.old
        ≡ Some s.tree → CountNotIncreased (W.faults worktree.old) (W.faults worktree.new)
        → IfOk result (λ kind. kind ≡ disk_kind_of_traversal_root (evidence_from_setting_and_sources
        (setting_of_shared M.Matcher shared.now) made s) (reached_of_root_outcome reached.now
        false)) }
    ensures keeps { KeepsTreeAndListCounts W.Worktree worktree.old worktree.new }
    ensures reads { W.reads worktree.new ≡ W.reads worktree.old }
{
    let kind = reached.outcome.disk_kind;
    if !is_worktree_root_symlink(reached) {
        return Ok(kind);
    }
    if is_directory_following_links(alloc, shared.worktree_root, worktree)? {
        return Ok(Some(Kind::Directory));
    }
    Ok(kind)
}

/// Whether the way ended at the worktree root, and that is a link.
fn is_worktree_root_symlink(reached: &RootOutcome) -> bool
    ensures { result
        ≡ (is_empty reached.now.path && is_symlink_kind reached.now.outcome.disk_kind) }
{
    let link = matches!(reached.outcome.disk_kind, Some(Kind::Symlink));
    reached.path.as_bytes().is_empty() & link
}

/// Whether the walk enters the traversal root: where the way led there, and the delegate looks into
/// it.
fn enters_traversal_root<W: Worktree, M: Matcher, D: Delegate>(
    alloc: Global,
    shared: &Shared<'_, M>,
    reached: &RootOutcome,
    worktree: &mut W,
    delegate: &mut D,
) -> Result<bool, OutOfMemory>
    ensures entered { (made : Option StackSetup) (s : TreeAndObjects) → W.told worktree.old
        ≡ Some s.tree → CountNotIncreased (W.faults worktree.old) (W.faults worktree.new)
        → D.is_default delegate.old ≡ true → IfOk result (λ entered. entered ≡ enters_traversal_root
        (walk_options_of shared.now.options) (evidence_from_setting_and_sources
        (setting_of_shared M.Matcher shared.now) made s) (reached_of_root_outcome reached.now
        false)) }
    ensures answered { (made : Option StackSetup) (s : TreeAndObjects) → W.told worktree.old
        ≡ Some s.tree → CountNotIncreased (W.faults worktree.old) (W.faults worktree.new)
        → IfOk result (λ entered. CountsRecursionRefusal
        (enters_traversal_root (walk_options_of shared.now.options)
        (evidence_from_setting_and_sources (setting_of_shared M.Matcher shared.now) made s)
        (reached_of_root_outcome reached.now false)) entered (D.refusals delegate.old)
        (D.refusals delegate.new)) }
    ensures whole { IfOk result (λ entered. entered ≡ true → reached.now.whole ≡ true) }
    ensures keeps { KeepsTreeAndListCounts W.Worktree worktree.old worktree.new }
    ensures reads { W.reads worktree.new ≡ W.reads worktree.old }
    ensures delegate { KeepsDelegateRunning D.Delegate delegate.old delegate.new }
    ensures given { D.given delegate.new ≡ D.given delegate.old }
    ensures breaks { D.breaks delegate.new ≡ D.breaks delegate.old }
{
    if !reached.whole {
        return Ok(false);
    }
    let kind = disk_kind_of_traversal_root(alloc, shared, reached, worktree)?;
    let class = outcome_with_disk_kind(&reached.outcome, kind);
    let in_repository = reached.worktree_root_is_repository;
    Ok(delegate_enters_directory(
        &shared.options,
        reached.path.as_bytes(),
        &class,
        in_repository,
        delegate,
    ))
}

/// A class with another kind on disk.
fn outcome_with_disk_kind(class: &classify::Outcome, disk_kind: Option<Kind>) -> classify::Outcome
    ensures { result ≡ record class.now { disk_kind = disk_kind } }
{
    classify::Outcome {
        status: class.status,
        property: class.property,
        disk_kind,
        index_kind: class.index_kind,
        pathspec_match: class.pathspec_match,
        origin: class.origin,
    }
}

/// Puts out the one entry of a walk that enters nothing; `root` is the traversal root. A worktree
/// root that is no directory is refused.
///
/// See docs/DECISIONS.md#nothing-entered.
fn emit_unentered_root_entry<D: Delegate, M: Matcher>(
    alloc: Global,
    shared: &Shared<'_, M>,
    root: &[u8],
    reached: &RootOutcome,
    delegate: &mut D,
    outcome: &mut Outcome,
) -> Result<(), Stop>
    ensures puts { EmitsUnenteredRoot D.Delegate (walk_options_of shared.now.options)
        shared.now.worktree_root.now root.now reached.now delegate.old delegate.new outcome.old
        outcome.new result }
    ensures given { AddsEmissionsWithinRoom (one_at_path reached.now.path) (D.given delegate.old)
        (D.given delegate.new) outcome.old outcome.new [] }
    ensures entered { outcome.new.read_dir_calls ≡ outcome.old.read_dir_calls }
    ensures refusals { D.refusals delegate.new ≡ D.refusals delegate.old }
    ensures delegate { KeepsDelegateRunning D.Delegate delegate.old delegate.new }
    ensures filtered { AddsNoHiddenEmission (walk_options_of shared.now.options)
        (D.given delegate.old) (D.given delegate.new) }
    ensures heeds { HeedsDelegateBreak D.Delegate delegate.old delegate.new result }
{
    let class = &reached.outcome;
    if is_worktree_root_non_directory(root, class) {
        let root = PathText::from_bytes(alloc, shared.worktree_root)?;
        return Err(Stop::Refused(Error::WorktreeRootIsFile { root }));
    }
    emit(
        alloc,
        &shared.options,
        entry_ref_with_outcome(reached.path.as_bytes(), class),
        None,
        delegate,
        outcome,
    )
}

/// Whether the traversal root is the worktree root, and its class has it as no directory.
fn is_worktree_root_non_directory(root: &[u8], class: &classify::Outcome) -> bool
    ensures { result ≡ (is_empty root.now && not (is_some_directory_kind class.now.disk_kind)) }
{
    root.is_empty() & !is_some_directory_kind(class.disk_kind)
}

/// Walks from the traversal root `root`.
pub(crate) fn walk_from_traversal_root<W: Worktree, F: Find, I: Interrupt, M: Matcher, D: Delegate>(
    alloc: Global,
    shared: &Shared<'_, M>,
    root: &[u8],
    depth_limit: usize,
    strategy: Strategy,
    parts: &mut Parts<'_, '_, '_, '_, '_, '_, W, F, I, D>,
) -> Result<(), Stop>
    requires root { IsNormalRootPath root.now }
    requires lookup { IsLookupOfIndexIfGiven shared.now.index.now
        shared.now.ignore_case_index_lookup.now }
    requires excludes { is_absent_or_has_excludes (setup_of_optional_stack parts.old.excludes.now)
        ≡ true }
    // The parts are behind the same references.
    ensures same { KeepsPartReferences parts.old parts.new }
    // Over what is told, it gives all that is walked or a part, and is refused for what is there.
    ensures told { WalksFromRootOverSources W.Worktree F.Find D.Delegate
        (walk_state_of_parts parts.old) (walk_state_of_parts parts.new) (setting_of_shared M.Matcher
        shared.now) depth_limit root.now result }
    // Where the worktree root is refused, nothing is there to be walked.
    ensures no_root { RefusesOnlyUnenteredRoot W.Worktree D.Delegate (walk_state_of_parts parts.old)
        (walk_state_of_parts parts.new) (setting_of_shared M.Matcher shared.now) result }
    // Where there is nothing to start from, nothing was listed or asked before, and nothing given.
    ensures unstarted { LeavesUnstartedWalkUntouched W.Worktree D.Delegate
        (walk_state_of_parts parts.old) (walk_state_of_parts parts.new) result }
    // Over any worktree, what a refusal is about, and what it says of what is told.
    ensures caused { CausesOfRefusalFromRoot W.Worktree F.Find (walk_state_of_parts parts.old)
        (setting_of_shared M.Matcher shared.now) depth_limit root.now result }
    // How the directories that are opened are counted, and how many they are at most.
    ensures opens { CountsOpenedFromRoot W.Worktree I.Interrupt (walk_state_of_parts parts.old)
        (walk_state_of_parts parts.new) strategy (setting_of_shared M.Matcher shared.now) root.now
        result (OpensAtMostEnteredFromRoot W.Worktree F.Find D.Delegate
        (walk_state_of_parts parts.old) (walk_state_of_parts parts.new) (setting_of_shared M.Matcher
        shared.now) depth_limit root.now result) }
    // If no rules file is mapped to a blob, the store stays as it was where all is walked over it.
    ensures unmapped { strategy ≡ Held → maps_rules_files_to_blobs (setup_of_optional_stack
        parts.old.excludes.now) ≡ false → parts.new.objects.now ≡ parts.old.objects.now }
    // Over any worktree, what the delegate is given, what stays, and how it ends.
    ensures leaves { LeavesAfterWalkFromRoot W.Worktree F.Find I.Interrupt D.Delegate
        (walk_state_of_parts parts.old) (walk_state_of_parts parts.new) (setting_of_shared M.Matcher
        shared.now) root.now result }
{
    let reached = classify::classify_way_to_traversal_root(
        alloc,
        root,
        shared,
        parts.excludes,
        parts.worktree,
        parts.objects,
    )?;
    if enters_traversal_root(alloc, shared, &reached, parts.worktree, parts.delegate)? {
        return walk_entered_traversal_root(
            alloc,
            shared,
            root,
            &reached.outcome,
            depth_limit,
            strategy,
            parts,
        );
    }
    emit_unentered_root_entry(alloc, shared, root, &reached, parts.delegate, parts.outcome)
}
