//! Entering a directory.
ghost use Rattle.std.specs.Prelude.{◌≡◌, ◌≤◌, ◌-◌, ◌+◌, Some, true, IfOk, IfErr};
ghost use Rattle.gitbase_core.specs.Path.{is_empty};
ghost use Rattle.worktree_fs.specs.Answers.{ListsDirectoryNamesInAnyOrder};
ghost use Rattle.worktree_fs.specs.Causes.{CountIncreasedOrSaturated, saturating_sum};
ghost use Rattle.worktree_fs.specs.Kept.{KeepsTreeWhileCountsMayRise};
ghost use Rattle.worktree_fs.specs.Naming.{AreDistinctValidEntryNames};
ghost use Rattle.worktree_fs.specs.Paths.{root_joined_with_relative};
ghost use Rattle.worktree_fs.specs.Tree.{Names, look};
ghost use Rattle.dir_classify.specs.Chosen.{walk_options_of};
ghost use Rattle.dir_classify.specs.Class.{enters};
ghost use Rattle.dir_walk.specs.Given.{CountsRecursionRefusal};
ghost use Rattle.dir_walk.specs.Kept.{AsksInterruptPerRaise};
ghost use Rattle.dir_walk.specs.Opened.{CausesOfOpeningRefusal, CountsOpeningDirectory};
ghost use Rattle.dir_walk.specs.Refused.{IsErrorOfOpeningDirectory, IsTooDeepOrInterruptedError, walk_error_of_list_error};
ghost use Rattle.dir_walk.specs.Unopened.{count_too_deep_error};

use crate::delegate::Delegate;
use crate::outcome::Outcome;
use crate::place::Place;
use dir_classify::entry::{entry_ref_with_outcome, is_some_directory_kind};
use dir_classify::{Error, ForDeletionMode, Options, ReadWhy, classify};
use gitbase_core::{OutOfMemory, PathText};
use std::alloc::Global;
use worktree_fs::{Interrupt, ListError, NameList, Worktree};

/// Lists the names of a directory that is entered, unless the interrupt is raised. A last link is
/// followed for the worktree root alone.
///
/// See docs/DECISIONS.md#when-interrupt-is-asked.
/// See docs/DIFFERENCES.md#gix-link-as-directory.
#[inline(never)]
pub(crate) fn list_directory<W: Worktree, I: Interrupt>(
    alloc: Global,
    place: &Place,
    worktree: &mut W,
    interrupt: &mut I,
    outcome: &mut Outcome,
) -> Result<NameList, Error>
    // What is given are names.
    ensures names { IfOk result AreDistinctValidEntryNames }
    // Over a told tree they are those of the directory.
    ensures lists { (t : Names) → W.told worktree.old ≡ Some t
        → IfOk result (ListsDirectoryNamesInAnyOrder
        (look t (root_joined_with_relative place.now.root place.now.path)
        (is_empty place.now.path))) }
    // There it is refused for what the tree has at the directory.
    ensures refused { (t : Names) → W.told worktree.old ≡ Some t
        → IfErr result (IsErrorOfOpeningDirectory (root_joined_with_relative place.now.root
        place.now.path) (look t (root_joined_with_relative place.now.root place.now.path)
        (is_empty place.now.path))) }
    // The worktree is listed.
    ensures worktree { KeepsTreeWhileCountsMayRise W.Worktree worktree.old worktree.new }
    // The interrupt is asked.
    ensures interrupt { AsksInterruptPerRaise I.Interrupt interrupt.old interrupt.new }
    // What is counted, by the worktree, by the interrupt and by the walk.
    ensures counts { CountsOpeningDirectory W.Worktree I.Interrupt worktree.old worktree.new
        interrupt.old interrupt.new outcome.old outcome.new result }
    // Over any worktree, what a refusal is about, and who counted its cause.
    ensures caused { CausesOfOpeningRefusal W.Worktree I.Interrupt worktree.old worktree.new
        interrupt.old interrupt.new place.now.root place.now.path result }
{
    if interrupt.is_raised() {
        return Err(Error::Interrupted);
    }
    outcome.read_dir_calls = outcome.read_dir_calls.saturating_add(1);
    let follow = place.path().is_empty();
    match worktree.list(alloc, place.whole(), follow) {
        Ok(names) => Ok(names),
        Err(refused) => Err(walk_error_of_list_error(alloc, place.whole(), refused)?),
    }
}

/// The refusal of a walk that stands for a refusal to list the directory at `path`.
fn walk_error_of_list_error(
    alloc: Global,
    path: &[u8],
    refused: ListError,
) -> Result<Error, OutOfMemory>
    ensures { IfOk result (λ error. error ≡ walk_error_of_list_error path.now refused) }
{
    let path = PathText::from_bytes(alloc, path)?;
    Ok(match refused {
        ListError::Absent => Error::ReadDir {
            path,
            why: ReadWhy::Absent,
        },
        ListError::NotADirectory => Error::ReadDir {
            path,
            why: ReadWhy::NotADirectory,
        },
        ListError::OpenFault => Error::ReadDir {
            path,
            why: ReadWhy::Fault,
        },
        ListError::EntryFault => Error::DirEntry {
            parent_directory: path,
        },
        ListError::OutOfMemory => Error::OutOfMemory,
    })
}

/// The refusal of a directory that lies too deep to be entered; the interrupt is asked first.
///
/// See docs/DECISIONS.md#depth-limit.
/// See docs/DIFFERENCES.md#gix-depth.
#[inline(never)]
pub(crate) fn too_deep_or_interrupted_error<I: Interrupt>(
    alloc: Global,
    place: &Place,
    interrupt: &mut I,
) -> Error
    ensures deep { IsTooDeepOrInterruptedError (root_joined_with_relative place.now.root
        place.now.path) (CountIncreasedOrSaturated (I.raised interrupt.old)
        (I.raised interrupt.new)) result }
    ensures interrupt { AsksInterruptPerRaise I.Interrupt interrupt.old interrupt.new }
    ensures asked { saturating_sum (I.questions interrupt.old) (count_too_deep_error result
        + (I.raised interrupt.new - I.raised interrupt.old)) ≤ I.questions interrupt.new }
{
    let raised = interrupt.is_raised();
    if raised {
        return Error::Interrupted;
    }
    match PathText::from_bytes(alloc, place.whole()) {
        Ok(path) => Error::TooDeep { path },
        Err(refused) => Error::from(refused),
    }
}

/// Whether the walk enters a path of a class: the delegate is asked for what holds names.
#[tactic(auto, using(crate::proofs::Opens::Entering::shut))]
#[inline(never)]
pub(crate) fn delegate_enters_directory<D: Delegate>(
    options: &Options<'_>,
    path: &[u8],
    class: &classify::Outcome,
    worktree_root_is_repository: bool,
    delegate: &mut D,
) -> bool
    ensures entered { D.is_default delegate.old ≡ true
        → result ≡ enters (walk_options_of options.now) class.now worktree_root_is_repository }
    ensures answered { CountsRecursionRefusal (enters (walk_options_of options.now) class.now
        worktree_root_is_repository) result (D.refusals delegate.old) (D.refusals delegate.new) }
    ensures refusals { D.refusals delegate.old ≤ D.refusals delegate.new }
    ensures given { D.given delegate.new ≡ D.given delegate.old }
    ensures breaks { D.breaks delegate.new ≡ D.breaks delegate.old }
    ensures stopped { D.is_stopped delegate.new ≡ D.is_stopped delegate.old }
    ensures default { D.is_default delegate.new ≡ D.is_default delegate.old }
{
    if !is_some_directory_kind(class.disk_kind) {
        return false;
    }
    delegate.can_recurse(
        entry_ref_with_outcome(path, class),
        for_deletion_mode(options),
        worktree_root_is_repository,
    )
}

/// Whether the entries are to be deleted, and how.
#[tactic(auto, unfolding(dir_classify::specs::Chosen::walk_options_of))]
pub(crate) fn for_deletion_mode(options: &Options<'_>) -> Option<ForDeletionMode>
    ensures { result ≡ (walk_options_of options.now).for_deletion }
{
    options.for_deletion
}
