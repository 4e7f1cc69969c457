//! The names of a directory that is entered, one after another.
ghost use Rattle.std.specs.Prelude.{◌≡◌, true, false, Option, Some, None, OnOk};
ghost use Rattle.gitbase_core.specs.Path.{components};
ghost use Rattle.gitbase_core.specs.View.{IsViewOfEntriesBeneath};
ghost use Rattle.worktree_fs.specs.Naming.{IsValidEntryName};
ghost use Rattle.worktree_fs.specs.Paths.{root_joined_with_relative, is_relative_without_dots, slash_joined_components};
ghost use Rattle.dir_classify.specs.Chosen.{walk_options_of};
ghost use Rattle.dir_classify.specs.Classes.{ClassifiesPath};
ghost use Rattle.dir_classify.specs.Excludes.{setup_of_optional_stack, maps_rules_files_to_blobs, is_absent_or_has_excludes};
ghost use Rattle.dir_classify.specs.Kept.{KeepsRulesInStep};
ghost use Rattle.dir_classify.specs.Layers.{setting_of_shared, IsLookupOfIndexIfGiven, IsNameInIndexDirectory};
ghost use Rattle.dir_walk.specs.Moments.{KeepsPartReferences, walk_state_of_parts};
ghost use Rattle.dir_walk.specs.WalkSteps.{OpensAtMostEntered, StepWalksOverAnyWorktree, StepWalksOverSources, at_directory, at_name, CountsOpenedDirectories};

use crate::close::{close_empty_directory, fold_directory_or_emit_held, outcome_of_unentered_path};
use crate::delegate::Delegate;
use crate::emit::hand_up_or_emit_leaf;
use crate::handed::{Handed, Held, Stop};
use crate::open::{delegate_enters_directory, list_directory, too_deep_or_interrupted_error};
use crate::outcome::Outcome;
use crate::parts::Parts;
use crate::place::Place;
use dir_classify::{Error, Shared, classify};
use gitbase_core::{Beneath, Find, PathText};
use glob_rules::pathspec::Matcher;
use std::alloc::Global;
use worktree_fs::{Interrupt, Worktree};
use worktree_stack::Stack;

/// The class of the path of a name, of which nothing is known; `beneath` are the entries of the
/// index beneath its directory. It stands apart, as [`walk_directory`] calls itself: what a class
/// takes of the stack is given back before the walk goes deeper.
#[inline(never)]
pub(crate) fn classify_name_asking_disk<W: Worktree, F: Find, M: Matcher>(
    alloc: Global,
    full: &[u8],
    path: &[u8],
    name: &[u8],
    beneath: &Beneath<'_>,
    shared: &Shared<'_, M>,
    excludes: &mut Option<Stack>,
    worktree: &mut W,
    objects: &mut F,
) -> Result<classify::Outcome, Error>
    requires full { full.now ≡ root_joined_with_relative shared.now.worktree_root.now path.now }
    requires normal { is_relative_without_dots path.now ≡ true }
    requires spelled { path.now ≡ slash_joined_components (components path.now) }
    requires lookup { IsLookupOfIndexIfGiven shared.now.index.now
        shared.now.ignore_case_index_lookup.now }
    requires seen { IsNameInIndexDirectory shared.now.index.now path.now name.now beneath.now }
    requires excludes { is_absent_or_has_excludes (setup_of_optional_stack excludes.old) ≡ true }
    ensures { ClassifiesPath W.Worktree F.Find worktree.old worktree.new objects.old objects.new
        excludes.old excludes.new (setting_of_shared M.Matcher shared.now) path.now None true
        result }
{
    classify::classify_name_in_directory(
        alloc, full, path, name, beneath, None, true, shared, excludes, worktree, objects,
    )
}

/// Walks the name `name` in the directory at `place`, which is open already, and gives what the
/// name hands up to that directory, as [`Handed`] says. `levels` more levels of directories may be
/// entered below the directory at `place`; so the limit is as many components as its path has, and
/// `levels` more. `beneath` are the entries of the index beneath it.
/// `blocked` is the current directory where deletion is asked for, if it lies in the worktree: if
/// the walk enters it, neither it nor a directory above it is folded.
///
/// After Ok the place is the directory's again. The ends and the errors are those of
/// [`walk_directory`].
#[cycle(walk)]
fn walk_name_in_directory<W: Worktree, F: Find, I: Interrupt, M: Matcher, D: Delegate>(
    alloc: Global,
    shared: &Shared<'_, M>,
    blocked: &Option<PathText>,
    place: &mut Place,
    beneath: &Beneath<'_>,
    name: &[u8],
    levels: usize,
    parts: &mut Parts<'_, '_, '_, '_, '_, '_, W, F, I, D>,
) -> Result<Handed, Stop>
    // As a directory holds it: UTF-8 without NUL, not empty, no slash, neither `.` nor `..`.
    requires name { IsValidEntryName name.now }
    // The entries of the index are those beneath the place's directory, not beneath the name.
    requires beneath { IsViewOfEntriesBeneath shared.now.index.now place.old.path beneath.now }
    requires root { place.old.root ≡ shared.now.worktree_root.now }
    requires lookup { IsLookupOfIndexIfGiven shared.now.index.now
        shared.now.ignore_case_index_lookup.now }
    // Where rules are given, they tell which paths are excluded.
    requires excludes { is_absent_or_has_excludes (setup_of_optional_stack parts.old.excludes.now)
        ≡ true }
    // The parts lie behind the same references as before.
    ensures same { KeepsPartReferences parts.old parts.new }
    // Over any worktree. It ends as Broken just where the delegate counted a Break. A refusal names
    // a path within the limit, or one level below it if TooDeep; Interrupted and OutOfMemory name
    // none, and ExcludesAccess names a rules file or a blob. Over a told tree, the directory that
    // ReadDir names cannot be listed there, unless a fault is named. A fault or an interrupt that
    // caused a refusal was counted. After Ok or Broken no listing failed and no interrupt came. What
    // the worktree and the store tell stays, and no count falls. If the delegate tells what it got,
    // that of before stays in front, and what it got in this call is at or beneath this name; the
    // options hide none of it. What is handed up is an entry at this name. Both together have no
    // path twice.
    ensures walks { StepWalksOverAnyWorktree W.Worktree F.Find I.Interrupt D.Delegate
        (walk_state_of_parts parts.old) (walk_state_of_parts parts.new)
        (setting_of_shared M.Matcher shared.now) levels (at_name place.old.path name.now) result }
    // Let the tree be told (with rules, the store too), the rules be in step, `blocked` be as that
    // tree has it, and the delegate recurse by default. Then, after Ok without a fault of the
    // worktree, the delegate got exactly what this name's walk in that tree puts out and shows, in
    // any order, and the counts rose as there. The entry handed up and `blocks` are those of that
    // walk, which refuses nothing. After any other end without a fault the delegate got some of it.
    // A refusal is for what is in that tree, or for a fault or what one hid. It says nothing of
    // Interrupted, of OutOfMemory and of listings that failed.
    ensures told { StepWalksOverSources W.Worktree F.Find D.Delegate
        (walk_state_of_parts parts.old) (walk_state_of_parts parts.new)
        (setting_of_shared M.Matcher shared.now) blocked.now levels
        (at_name place.old.path name.now) result }
    // Some number of directories was opened: the worktree and the walk counted so many, and the
    // interrupt was asked at least so often. Told as above and without a fault, it is at most the
    // number that the walk enters from here within the limit, and one more if a listing or memory
    // was refused. If `recurse_repositories` is on, the mode of deletion is not the one in which
    // ignored directories can hide repositories, and the rules have no attributes, reads are
    // bounded: they rose by at most the directories opened, those from the root to the place's whose
    // rules are newly held, and 1 if refused. The 0 says that the caller opened the place's own
    // directory, so that nothing is taken off this bound for it.
    ensures opens { CountsOpenedDirectories W.Worktree I.Interrupt
        (walk_options_of shared.now.options) (components place.old.path) 0
        (walk_state_of_parts parts.old) (walk_state_of_parts parts.new) result
        (OpensAtMostEntered W.Worktree F.Find D.Delegate (walk_state_of_parts parts.old)
        (walk_state_of_parts parts.new) (setting_of_shared M.Matcher shared.now) blocked.now levels
        (at_name place.old.path name.now) result) }
    // If no rules file is mapped to a blob, the store stays as it was.
    ensures unmapped { maps_rules_files_to_blobs (setup_of_optional_stack parts.old.excludes.now)
        ≡ false → parts.new.objects.now ≡ parts.old.objects.now }
    // The rules keep the setup that they were made with; where they were in step with what is told
    // of the tree and the store, they still are.
    ensures rules { KeepsRulesInStep W.Worktree F.Find parts.old.worktree.now
        parts.old.objects.now parts.old.excludes.now parts.new.excludes.now }
    // The place is the same when all is done. After a refusal or a break nothing is said of it.
    ensures stays { OnOk result (place.new ≡ place.old) }
{
    let cut = place.push(alloc, name)?;
    let path = place.path();
    let full = place.whole();
    let class = classify_name_asking_disk(
        alloc,
        full,
        path,
        name,
        beneath,
        shared,
        parts.excludes,
        parts.worktree,
        parts.objects,
    )?;
    if delegate_enters_directory(&shared.options, path, &class, false, parts.delegate) {
        if levels == 0 {
            return Err(Stop::Refused(too_deep_or_interrupted_error(alloc, place, parts.interrupt)));
        }
        let handed = walk_directory(alloc, shared, blocked, place, &class, levels - 1, parts);
        place.truncate_to_directory_if_ok(cut, &handed);
        return handed;
    }
    let class = outcome_of_unentered_path(alloc, shared, place, &class, parts.worktree)?;
    let handed = hand_up_or_emit_leaf(
        alloc,
        &shared.options,
        path,
        &class,
        parts.delegate,
        parts.outcome,
    );
    place.truncate_to_directory_if_ok(cut, &handed);
    handed
}

/// Walks a directory that is entered, at `place` and of the class `class`; so many more levels of
/// directories may be entered below it. `blocked` is the directory that must not go, if there is
/// one.
///
/// The place is the same when the directory is done: the names in it are put behind its path one
/// after the other, and cut off again.
///
/// What its names hand up is put out or merged here, or the directory's own entry, folded over it,
/// is handed up in its place. Contracts speak of what the delegate was given by counts, since the
/// order of the names is the worktree's.
///
/// # Errors
///
/// - `Stop::Broken`: the delegate answered Break, which it counted.
/// - `Stop::Refused` with `Interrupted`: the interrupt was raised, which it counted.
/// - with `ExcludesAccess`: a lookup in the rules was refused.
/// - with `ReadDir`: a directory is not there, is none, or could not be opened, which the worktree
///   counted.
/// - with `DirEntry`: a name of a directory could not be had, which the worktree counted.
/// - with `TooDeep`: a directory that is to be entered lies deeper than the levels allow.
/// - with `OutOfMemory`: memory was refused.
#[cycle(walk)]
pub(crate) fn walk_directory<W: Worktree, F: Find, I: Interrupt, M: Matcher, D: Delegate>(
    alloc: Global,
    shared: &Shared<'_, M>,
    blocked: &Option<PathText>,
    place: &mut Place,
    class: &classify::Outcome,
    levels: usize,
    parts: &mut Parts<'_, '_, '_, '_, '_, '_, W, F, I, D>,
) -> Result<Handed, Stop>
    requires root { place.old.root ≡ shared.now.worktree_root.now }
    requires lookup { IsLookupOfIndexIfGiven shared.now.index.now
        shared.now.ignore_case_index_lookup.now }
    requires excludes { is_absent_or_has_excludes (setup_of_optional_stack parts.old.excludes.now)
        ≡ true }
    // The parts are behind the same references.
    ensures same { KeepsPartReferences parts.old parts.new }
    // Over any worktree, each refusal has its cause; what stays, and what the delegate is given.
    ensures walks { StepWalksOverAnyWorktree W.Worktree F.Find I.Interrupt D.Delegate
        (walk_state_of_parts parts.old) (walk_state_of_parts parts.new) (setting_of_shared M.Matcher
        shared.now) levels (at_directory place.old.path class.now) result }
    // Over what is told, it gives all that is there or a part, and is refused for what is there.
    ensures told { StepWalksOverSources W.Worktree F.Find D.Delegate
        (walk_state_of_parts parts.old) (walk_state_of_parts parts.new)
        (setting_of_shared M.Matcher shared.now) blocked.now levels
        (at_directory place.old.path class.now) result }
    // How the directories that are opened are counted, and how many they are at most.
    ensures opens { CountsOpenedDirectories W.Worktree I.Interrupt
        (walk_options_of shared.now.options) (components place.old.path) 1
        (walk_state_of_parts parts.old) (walk_state_of_parts parts.new) result
        (OpensAtMostEntered W.Worktree F.Find D.Delegate (walk_state_of_parts parts.old)
        (walk_state_of_parts parts.new) (setting_of_shared M.Matcher shared.now) blocked.now levels
        (at_directory place.old.path class.now) result) }
    // If no rules file is mapped to a blob, the store stays as it was.
    ensures unmapped { maps_rules_files_to_blobs (setup_of_optional_stack parts.old.excludes.now)
        ≡ false → parts.new.objects.now ≡ parts.old.objects.now }
    // The rules that were handed in stay in step.
    ensures rules { KeepsRulesInStep W.Worktree F.Find parts.old.worktree.now
        parts.old.objects.now parts.old.excludes.now parts.new.excludes.now }
    // The place is the same when all is done.
    ensures stays { OnOk result (place.new ≡ place.old) }
{
    let path = place.path();
    let names = list_directory(alloc, place, parts.worktree, parts.interrupt, parts.outcome)?;
    if names.as_slice().is_empty() {
        return close_empty_directory(
            alloc,
            shared,
            blocked,
            path,
            class,
            parts.delegate,
            parts.outcome,
        );
    }
    let mut held = Held::new(alloc);
    let beneath = shared.index.entries_beneath_directory(path);
    for name in names.as_slice() {
        let handed = walk_name_in_directory(
            alloc,
            shared,
            blocked,
            place,
            &beneath,
            name.as_bytes(),
            levels,
            parts,
        )?;
        held.add_entry_handed_up(alloc, handed)?;
    }
    fold_directory_or_emit_held(
        alloc,
        shared,
        blocked,
        place.path(),
        class,
        held,
        parts.delegate,
        parts.outcome,
    )
}
