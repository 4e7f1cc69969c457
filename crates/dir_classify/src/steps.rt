//! The steps to the class of a path: which case fits, and what is asked for it.
ghost use Rattle.std.specs.Prelude.{◌≡◌, ◌⊎◌, ◌&&◌, if◌then◌else◌, not, Bool, true, false, Option, Some, None, IfOk, IfErr, OnOk, is_some};
ghost use Rattle.gitbase_core.specs.Path.{components, is_empty};
ghost use Rattle.worktree_fs.specs.Causes.{CountNotIncreased};
ghost use Rattle.worktree_fs.specs.Kept.{KeepsTreeAndListCounts};
ghost use Rattle.worktree_fs.specs.Paths.{root_joined_with_relative, is_relative_without_dots, slash_joined_components};
ghost use Rattle.worktree_fs.specs.Tree.{Names};
ghost use Rattle.worktree_stack.specs.Reading.{TreeAndObjects};
ghost use Rattle.dir_classify.specs.Chosen.{walk_options_of};
ghost use Rattle.dir_classify.specs.Class.{is_kind_known_without_disk, is_dir_following_symlink, ruling_unless_worktree_root};
ghost use Rattle.dir_classify.specs.Classes.{ClassifiesPath, AnswersClassQuestion, AsksRulesAboutPath};
ghost use Rattle.dir_classify.specs.Evidence.{ruling_without_rule};
ghost use Rattle.dir_classify.specs.Excludes.{setup_of_optional_stack, is_absent_or_has_excludes, TellsTreeAndObjects, IsStackInStepIfGiven};
ghost use Rattle.dir_classify.specs.Faults.{IsRulingAsRead};
ghost use Rattle.dir_classify.specs.Kept.{LeavesAllUnchanged};
ghost use Rattle.std.specs.Option.{option_or};
ghost use Rattle.dir_classify.specs.Layers.{setting_of_shared, evidence_from_setting_and_sources, kind_of_node_at, index_kinds_by_setting, is_some_rules_file_unread, IsLookupOfIndexIfGiven, IsNameInIndexDirectory};
ghost use Rattle.dir_classify.specs.Question.{question_about_dot_git, question_about_known_kind};
ghost use Rattle.dir_classify.specs.Refused.{HoldsIfExcludesError};

use crate::cases::{
    index_and_disk_agree_on_directory, is_dot_git_by_options, outcome_of_dot_git,
    outcome_of_linked_worktree, outcome_without_possible_match,
};
use crate::classify::Outcome;
use crate::context::Shared;
use crate::entry::{Kind, is_dir};
use crate::error::Error;
use crate::excludes::{Ruling, ruling_of_optional_stack};
use crate::index::{InIndex, index_kinds_at_path};
use crate::options::{is_for_deletion, is_in_worktree_set};
use crate::repository_cases::{classify_indexed_path, classify_unindexed_path};
use gitbase_core::{Beneath, Find, OutOfMemory};
use glob_rules::pathspec::Matcher;
use std::alloc::Global;
use worktree_fs::{ReadError, Worktree};
use worktree_stack::Stack;

/// The class of `rela_path` as [`crate::classify::path`] says it, for a caller that has the parts
/// of a context and the whole path.
///
/// The path is `name` in a directory, and `beneath` the entries of the index beneath that, as
/// [`gitbase_core::State::beneath`] gives them: where the case of letters is regarded, the name is
/// searched among these alone. So a walk narrows the index once a directory; for a single path the
/// directory may be the worktree root, and the name the path. See
/// docs/DECISIONS.md#index-by-directory.
///
/// # Errors
///
/// - `ExcludesAccess`: the rules of a directory above the path were asked, and were not read, as
///   [`crate::classify::path`] says it.
/// - `OutOfMemory`: memory was refused.
#[tactic(auto, unfolding(crate::specs::Class::class, crate::specs::Class::asks_ignore_rules, crate::specs::Class::tests_path_for_repository, crate::specs::Class::asks_nothing_of_worktree, crate::specs::Layers::evidence_from_setting_and_sources))]
pub fn classify_name_in_directory<W: Worktree, F: Find, M: Matcher>(
    alloc: Global,
    full: &[u8],
    rela_path: &[u8],
    name: &[u8],
    beneath: &Beneath<'_>,
    disk_kind: Option<Kind>,
    ask_disk: bool,
    shared: &Shared<'_, M>,
    excludes: &mut Option<Stack>,
    worktree: &mut W,
    objects: &mut F,
) -> Result<Outcome, Error>
    requires full { full.now ≡ root_joined_with_relative shared.now.worktree_root.now
        rela_path.now }
    requires normal { is_relative_without_dots rela_path.now ≡ true }
    requires spelled { rela_path.now ≡ slash_joined_components (components rela_path.now) }
    requires lookup { IsLookupOfIndexIfGiven shared.now.index.now
        shared.now.ignore_case_index_lookup.now }
    requires seen { IsNameInIndexDirectory shared.now.index.now rela_path.now name.now beneath.now }
    requires excludes { is_absent_or_has_excludes (setup_of_optional_stack excludes.old) ≡ true }
    ensures { ClassifiesPath W.Worktree F.Find worktree.old worktree.new objects.old objects.new
        excludes.old excludes.new (setting_of_shared M.Matcher shared.now) rela_path.now disk_kind
        ask_disk result }
{
    if is_dot_git_by_options(&shared.options, rela_path) {
        let class = classify_dot_git(
            alloc, rela_path, disk_kind, shared, excludes, worktree, objects,
        )?;
        return Ok(class);
    }
    if !shared
        .pathspec
        .can_match_relative_path(rela_path, is_dir(disk_kind))
    {
        return Ok(outcome_without_possible_match(disk_kind));
    }
    let entry = index_kinds_by_options(shared, rela_path, name, beneath);
    let kind = kind_by_index_caller_or_disk(
        alloc,
        full,
        entry.up_to_date,
        disk_kind,
        ask_disk,
        worktree,
    )?;
    let class = classify_path_of_known_kind(
        alloc, full, rela_path, entry, kind, shared, excludes, worktree, objects,
    )?;
    Ok(class)
}

/// The class of a path named `.git`: the rules are asked in deletion alone.
/// See docs/DECISIONS.md#dot-git-in-deletion.
fn classify_dot_git<W: Worktree, F: Find, M: Matcher>(
    alloc: Global,
    rela_path: &[u8],
    disk_kind: Option<Kind>,
    shared: &Shared<'_, M>,
    excludes: &mut Option<Stack>,
    worktree: &mut W,
    objects: &mut F,
) -> Result<Outcome, Error>
    requires normal { is_relative_without_dots rela_path.now ≡ true }
    requires excludes { is_absent_or_has_excludes (setup_of_optional_stack excludes.old) ≡ true }
    ensures { (ask_disk : Bool) → AnswersClassQuestion W.Worktree F.Find worktree.old worktree.new
        objects.old objects.new excludes.old excludes.new (setting_of_shared M.Matcher shared.now)
        (question_about_dot_git (walk_options_of shared.now.options) rela_path.now disk_kind
        ask_disk) result }
{
    if !is_for_deletion(&shared.options) {
        return Ok(outcome_of_dot_git(shared, rela_path, disk_kind, Ruling::NONE));
    }
    let is_dir = is_dir(disk_kind);
    let ruling = ruling_of_optional_stack(alloc, rela_path, is_dir, excludes, worktree, objects)?;
    Ok(outcome_of_dot_git(shared, rela_path, disk_kind, ruling))
}

/// The class of a path whose kind is settled: in the worktree set, in the index, or by the rules.
#[tactic(auto, unfolding(crate::specs::Layers::evidence_from_setting_and_sources))]
fn classify_path_of_known_kind<W: Worktree, F: Find, M: Matcher>(
    alloc: Global,
    full: &[u8],
    rela_path: &[u8],
    entry: InIndex,
    kind: Option<Kind>,
    shared: &Shared<'_, M>,
    excludes: &mut Option<Stack>,
    worktree: &mut W,
    objects: &mut F,
) -> Result<Outcome, Error>
    requires full { full.now ≡ root_joined_with_relative shared.now.worktree_root.now
        rela_path.now }
    requires normal { is_relative_without_dots rela_path.now ≡ true }
    requires entry { entry ≡ index_kinds_by_setting (setting_of_shared M.Matcher shared.now)
        rela_path.now }
    requires excludes { is_absent_or_has_excludes (setup_of_optional_stack excludes.old) ≡ true }
    ensures { (ask_disk : Bool) → AnswersClassQuestion W.Worktree F.Find worktree.old worktree.new
        objects.old objects.new excludes.old excludes.new (setting_of_shared M.Matcher shared.now)
        (question_about_known_kind (walk_options_of shared.now.options) rela_path.now kind ask_disk)
        result }
{
    if is_in_worktree_set(alloc, &shared.options, rela_path) {
        return Ok(outcome_of_linked_worktree(shared, rela_path, kind));
    }
    if index_and_disk_agree_on_directory(entry, kind) {
        let class = classify_indexed_path(alloc, full, rela_path, entry, kind, shared, worktree)?;
        return Ok(class);
    }
    let ruling = ruling_unless_worktree_root(
        alloc, full, rela_path, kind, shared, excludes, worktree, objects,
    )?;
    let class = classify_unindexed_path(
        alloc, full, rela_path, entry, kind, ruling, shared, worktree,
    )?;
    Ok(class)
}

/// What the rules say of a path; none are asked of the worktree root.
#[tactic(auto, unfolding(crate::specs::Layers::evidence_from_setting_and_sources))]
fn ruling_unless_worktree_root<W: Worktree, F: Find, M: Matcher>(
    alloc: Global,
    full: &[u8],
    rela_path: &[u8],
    kind: Option<Kind>,
    shared: &Shared<'_, M>,
    excludes: &mut Option<Stack>,
    worktree: &mut W,
    objects: &mut F,
) -> Result<Ruling, Error>
    requires full { full.now ≡ root_joined_with_relative shared.now.worktree_root.now
        rela_path.now }
    requires normal { is_relative_without_dots rela_path.now ≡ true }
    requires excludes { is_absent_or_has_excludes (setup_of_optional_stack excludes.old) ≡ true }
    ensures ruling { (s : TreeAndObjects) → TellsTreeAndObjects (W.told worktree.old)
        (F.holds objects.old) (setup_of_optional_stack excludes.old) s → IsStackInStepIfGiven s
        excludes.old → CountNotIncreased (W.faults worktree.old) (W.faults worktree.new)
        → IfOk result (λ r. r ≡ ruling_unless_worktree_root (walk_options_of shared.now.options)
        (evidence_from_setting_and_sources (setting_of_shared M.Matcher shared.now)
        (setup_of_optional_stack excludes.old) s) rela_path.now kind) }
    ensures read { (s : TreeAndObjects) → TellsTreeAndObjects (W.told worktree.old)
        (F.holds objects.old) (setup_of_optional_stack excludes.old) s → IsStackInStepIfGiven s
        excludes.old → OnOk result ((is_some (setup_of_optional_stack excludes.old) && not
        (is_empty rela_path.now) && is_some_rules_file_unread (setup_of_optional_stack excludes.old)
        s rela_path.now) ≡ false) }
    ensures swallowed { (s : TreeAndObjects) → TellsTreeAndObjects (W.told worktree.old)
        (F.holds objects.old) (setup_of_optional_stack excludes.old) s → IsStackInStepIfGiven s
        excludes.old → IfOk result (IsRulingAsRead (W.faults worktree.old) (W.faults worktree.new)
        (λ ev. ruling_unless_worktree_root (walk_options_of shared.now.options) ev rela_path.now
        kind) (evidence_from_setting_and_sources (setting_of_shared M.Matcher shared.now)
        (setup_of_optional_stack excludes.old) s)) }
    // The rules are asked at most once, and about no other path. Each refusal has its cause. Of the
    // worktree and the store nothing changes but counts, and the rules stay in step.
    ensures asking { AsksRulesAboutPath W.Worktree F.Find worktree.old worktree.new objects.old
        objects.new excludes.old excludes.new 0 rela_path.now result }
    ensures asked { IfErr result (HoldsIfExcludesError
        ((is_some (setup_of_optional_stack excludes.old) && not (is_empty rela_path.now)) ≡ true)) }
    ensures no_rules { (is_some (setup_of_optional_stack excludes.old) && not
        (is_empty rela_path.now)) ≡ false → IfOk result (λ r. r ≡ ruling_without_rule) }
    ensures untouched { (is_some (setup_of_optional_stack excludes.old) && not
        (is_empty rela_path.now)) ≡ false → LeavesAllUnchanged worktree.old worktree.new objects.old
        objects.new excludes.old excludes.new }
{
    if rela_path.is_empty() || excludes.is_none() {
        return Ok(Ruling::NONE);
    }
    let is_dir = is_dir_for_ignore_rules(alloc, full, kind, shared, worktree)?;
    let ruling = ruling_of_optional_stack(alloc, rela_path, is_dir, excludes, worktree, objects)?;
    Ok(ruling)
}

/// As what the rules are asked about a path: a link may count as what it leads to. A fault reads as
/// nothing. See docs/DECISIONS.md#directory-for-rules.
#[tactic(auto, unfolding(crate::specs::Chosen::walk_options_of))]
fn is_dir_for_ignore_rules<W: Worktree, M: Matcher>(
    alloc: Global,
    full: &[u8],
    kind: Option<Kind>,
    shared: &Shared<'_, M>,
    worktree: &mut W,
) -> Result<Option<bool>, OutOfMemory>
    ensures is_dir { (t : Names) → W.told worktree.old ≡ Some t
        → CountNotIncreased (W.faults worktree.old) (W.faults worktree.new)
        → IfOk result (λ d. d ≡ is_dir_following_symlink (walk_options_of shared.now.options) kind
        (kind_of_node_at t full.now true)) }
    ensures swallowed { (t : Names) → W.told worktree.old ≡ Some t
        → IfOk result (λ d. (d ≡ is_dir_following_symlink (walk_options_of shared.now.options) kind
        (kind_of_node_at t full.now true)) ⊎ (d ≡ is_dir_following_symlink
        (walk_options_of shared.now.options) kind None)) }
    ensures keeps { KeepsTreeAndListCounts W.Worktree worktree.old worktree.new }
    ensures reads { W.reads worktree.new ≡ W.reads worktree.old }
{
    let follows = shared
        .options
        .symlinks_to_directories_are_ignored_like_directories;
    if !follows || kind != Some(Kind::Symlink) {
        return Ok(is_dir(kind));
    }
    match worktree.kind_following(alloc, full) {
        Ok(Some(kind)) => Ok(is_dir(Some(Kind::from(kind)))),
        Ok(None) | Err(ReadError::Fault) => Ok(None),
        Err(ReadError::OutOfMemory) => Err(OutOfMemory),
    }
}

/// The kind of a path: of an up-to-date entry, else the one that is known, else that of the node at
/// the whole path where the disk may be asked. A fault reads as no kind.
pub(crate) fn kind_by_index_caller_or_disk<W: Worktree>(
    alloc: Global,
    full: &[u8],
    up_to_date: Option<Kind>,
    disk_kind: Option<Kind>,
    ask_disk: bool,
    worktree: &mut W,
) -> Result<Option<Kind>, OutOfMemory>
    ensures kind { (t : Names) → W.told worktree.old ≡ Some t
        → CountNotIncreased (W.faults worktree.old) (W.faults worktree.new)
        → IfOk result (λ kind. kind ≡ option_or up_to_date
        (option_or disk_kind (if ask_disk then kind_of_node_at t full.now false else None))) }
    ensures swallowed { (t : Names) → W.told worktree.old ≡ Some t
        → IfOk result (λ kind. (kind ≡ option_or up_to_date
        (option_or disk_kind (if ask_disk then kind_of_node_at t full.now false else None)))
        ⊎ (kind ≡ option_or up_to_date (option_or disk_kind None))) }
    ensures untouched { is_kind_known_without_disk ask_disk up_to_date disk_kind ≡ true
        → IfOk result (λ kind. kind ≡ option_or up_to_date disk_kind)
        × (worktree.new ≡ worktree.old) }
    ensures keeps { KeepsTreeAndListCounts W.Worktree worktree.old worktree.new }
    ensures reads { W.reads worktree.new ≡ W.reads worktree.old }
{
    let known = up_to_date.or(disk_kind);
    if known.is_some() || !ask_disk {
        return Ok(known);
    }
    kind_on_disk_or_none(alloc, worktree, full)
}

/// The kind of the node at a whole path. A fault reads as no kind.
pub(crate) fn kind_on_disk_or_none<W: Worktree>(
    alloc: Global,
    worktree: &mut W,
    full: &[u8],
) -> Result<Option<Kind>, OutOfMemory>
    ensures kind { (t : Names) → W.told worktree.old ≡ Some t
        → CountNotIncreased (W.faults worktree.old) (W.faults worktree.new)
        → IfOk result (λ kind. kind ≡ kind_of_node_at t full.now false) }
    ensures swallowed { (t : Names) → W.told worktree.old ≡ Some t
        → IfOk result (λ kind. (kind ≡ kind_of_node_at t full.now false) ⊎ (kind ≡ None)) }
    ensures keeps { KeepsTreeAndListCounts W.Worktree worktree.old worktree.new }
    ensures reads { W.reads worktree.new ≡ W.reads worktree.old }
{
    match worktree.kind(alloc, full) {
        Ok(None) | Err(ReadError::Fault) => Ok(None),
        Ok(Some(kind)) => Ok(Some(Kind::from(kind))),
        Err(ReadError::OutOfMemory) => Err(OutOfMemory),
    }
}

/// What the index says of a path.
#[tactic(auto, unfolding(crate::specs::Chosen::walk_options_of))]
fn index_kinds_by_options<M: Matcher>(
    shared: &Shared<'_, M>,
    path: &[u8],
    name: &[u8],
    beneath: &Beneath<'_>,
) -> InIndex
    requires lookup { IsLookupOfIndexIfGiven shared.now.index.now
        shared.now.ignore_case_index_lookup.now }
    requires seen { IsNameInIndexDirectory shared.now.index.now path.now name.now beneath.now }
    ensures { result ≡ index_kinds_by_setting (setting_of_shared M.Matcher shared.now) path.now }
{
    let ignore_case = shared.options.ignore_case;
    index_kinds_at_path(
        shared.index,
        shared.ignore_case_index_lookup,
        ignore_case,
        path,
        name,
        beneath,
    )
}
