//! The cases of a class that look for repositories.
ghost use Rattle.std.specs.Prelude.{◌≡◌, ◌≤◌, ◌+◌, ◌⊎◌, Option, Some, None, true, false, IfOk};
ghost use Rattle.gitbase_core.specs.Path.{path_joined_with_slash};
ghost use Rattle.worktree_fs.specs.Causes.{CountNotIncreased};
ghost use Rattle.worktree_fs.specs.Kept.{KeepsTreeAndListCounts};
ghost use Rattle.worktree_fs.specs.Paths.{root_joined_with_relative};
ghost use Rattle.worktree_fs.specs.Tree.{Names};
ghost use Rattle.worktree_stack.specs.Reading.{TreeAndObjects};
ghost use Rattle.worktree_stack.specs.Setup.{StackSetup};
ghost use Rattle.dir_classify.specs.Chosen.{walk_options_of};
ghost use Rattle.dir_classify.specs.Class.{outcome_of_indexed_path, outcome_of_unindexed_path, pathspec_match_of_path, kind_after_repository_test, dot_git_bytes, outcome_of_ignored_path, outcome_by_ignore_kind, outcome_of_untracked_directory, outcome_of_unignored_path, outcome_of_index_entry, outcome_of_ignored_kind, disk_kind_of_ignored_path, disk_kind_of_indexed_path, deletion_finds_repositories_in_ignored, is_directory_of_indexed_submodule, tests_unindexed_for_repository, skips_repository_test};
ghost use Rattle.dir_classify.specs.Classes.{ClassifiesByRepositoryTest};
ghost use Rattle.dir_classify.specs.Faults.{IsKindTestedAsRead};
ghost use Rattle.dir_classify.specs.Kinds.{is_some_directory_kind};
ghost use Rattle.dir_classify.specs.Reads.{most_reads_to_classify_path, most_reads_of_repository_test};
ghost use Rattle.dir_classify.specs.Layers.{setting_of_shared, evidence_from_setting_and_sources, index_kinds_by_setting, repository_test_of_path};

use crate::cases::{
    deletion_finds_bare_in_ignored, deletion_finds_repositories_in_ignored,
    finds_bare_in_untracked_directories, is_directory_of_indexed_submodule,
    outcome_of_ignored_path, outcome_of_index_entry, outcome_of_unignored_path,
    pathspec_match_of_path, untracked_or_pruned_by_pathspec_match,
};
use crate::classify::Outcome;
use crate::context::Shared;
use crate::entry::{Kind, Status, is_some_directory_kind};
use crate::excludes::Ruling;
use crate::index::InIndex;
use crate::repository::maybe_upgrade_to_repository;
use gitbase_core::OutOfMemory;
use glob_rules::ignore;
use glob_rules::pathspec::Matcher;
use std::alloc::Global;
use worktree_fs::Worktree;

/// The kind of a path, or that of a repository where one is found there.
#[tactic(auto, unfolding(crate::specs::Chosen::walk_options_of))]
fn upgrade<W: Worktree, M: Matcher>(
    alloc: Global,
    full: &[u8],
    kind: Option<Kind>,
    hard: bool,
    shared: &Shared<'_, M>,
    worktree: &mut W,
) -> Result<Option<Kind>, OutOfMemory>
    ensures kind { (t : Names) → W.told worktree.old ≡ Some t → CountNotIncreased
        (W.faults worktree.old) (W.faults worktree.new)
        → IfOk result (λ k. k ≡ kind_after_repository_test
        (walk_options_of shared.now.options).recurse_repositories hard kind (repository_test_of_path
        t shared.now.current_dir.now shared.now.git_dir_realpath.now full.now)
        (repository_test_of_path t shared.now.current_dir.now shared.now.git_dir_realpath.now
        (path_joined_with_slash full.now dot_git_bytes))) }
    ensures swallowed { (t : Names) → W.told worktree.old ≡ Some t
        → IfOk result (IsKindTestedAsRead (W.faults worktree.old) (W.faults worktree.new)
        (kind_after_repository_test (walk_options_of shared.now.options).recurse_repositories hard
        kind) (repository_test_of_path t shared.now.current_dir.now shared.now.git_dir_realpath.now
        full.now) (repository_test_of_path t shared.now.current_dir.now
        shared.now.git_dir_realpath.now (path_joined_with_slash full.now dot_git_bytes))) }
    ensures keeps { KeepsTreeAndListCounts W.Worktree worktree.old worktree.new }
    ensures reads_most { W.reads worktree.new ≤ W.reads worktree.old + most_reads_of_repository_test
        (walk_options_of shared.now.options).recurse_repositories hard }
    ensures unasked { skips_repository_test (walk_options_of shared.now.options) true ≡ true
        → worktree.new ≡ worktree.old }
    ensures either { IfOk result (λ k. (k ≡ kind) ⊎ (k ≡ Some Kind.Repository)) }
    ensures certain { skips_repository_test (walk_options_of shared.now.options) true ≡ true
        → IfOk result (λ k. k ≡ kind) }
{
    maybe_upgrade_to_repository(
        alloc,
        kind,
        hard,
        shared.options.recurse_repositories,
        full,
        worktree,
        shared.current_dir,
        shared.git_dir_realpath,
    )
}

/// The kind of a path that the index has: a directory that is a submodule there is looked at.
///
/// See docs/DECISIONS.md#submodule-without-git.
/// See docs/DIFFERENCES.md#submodule-without-git.
#[tactic(auto, unfolding(crate::specs::Chosen::walk_options_of))]
fn disk_kind_of_indexed_path<W: Worktree, M: Matcher>(
    alloc: Global,
    full: &[u8],
    entry: InIndex,
    kind: Option<Kind>,
    shared: &Shared<'_, M>,
    worktree: &mut W,
) -> Result<Option<Kind>, OutOfMemory>
    ensures kind { (t : Names) → W.told worktree.old ≡ Some t → CountNotIncreased
        (W.faults worktree.old) (W.faults worktree.new)
        → IfOk result (λ k. k ≡ disk_kind_of_indexed_path (walk_options_of shared.now.options) entry
        kind (repository_test_of_path t shared.now.current_dir.now shared.now.git_dir_realpath.now
        full.now) (repository_test_of_path t shared.now.current_dir.now
        shared.now.git_dir_realpath.now (path_joined_with_slash full.now dot_git_bytes))) }
    ensures swallowed { (t : Names) → W.told worktree.old ≡ Some t
        → IfOk result (IsKindTestedAsRead (W.faults worktree.old) (W.faults worktree.new)
        (disk_kind_of_indexed_path (walk_options_of shared.now.options) entry kind)
        (repository_test_of_path t shared.now.current_dir.now shared.now.git_dir_realpath.now
        full.now) (repository_test_of_path t shared.now.current_dir.now
        shared.now.git_dir_realpath.now (path_joined_with_slash full.now dot_git_bytes))) }
    ensures keeps { KeepsTreeAndListCounts W.Worktree worktree.old worktree.new }
    ensures reads_most { W.reads worktree.new
        ≤ W.reads worktree.old + most_reads_to_classify_path (walk_options_of shared.now.options) }
    ensures unasked { skips_repository_test (walk_options_of shared.now.options)
        (is_directory_of_indexed_submodule entry kind) ≡ true → worktree.new ≡ worktree.old }
    ensures either { IfOk result (λ k. (k ≡ kind) ⊎ (k ≡ Some Kind.Repository)) }
    ensures certain { skips_repository_test (walk_options_of shared.now.options)
        (is_directory_of_indexed_submodule entry kind) ≡ true → IfOk result (λ k. k ≡ kind) }
{
    if !is_directory_of_indexed_submodule(entry, kind) {
        return Ok(kind);
    }
    let seen = upgrade(alloc, full, kind, false, shared, worktree)?;
    Ok(seen)
}

/// The kind of an ignored path: where ignored paths are shown, deletion that looks for repositories
/// looks at it. See docs/DECISIONS.md#upgrade-by-dot-git. See
/// docs/DIFFERENCES.md#ignored-repository-link.
#[tactic(auto, unfolding(crate::specs::Chosen::walk_options_of))]
fn disk_kind_of_ignored_path<W: Worktree, M: Matcher>(
    alloc: Global,
    full: &[u8],
    kind: Option<Kind>,
    shared: &Shared<'_, M>,
    worktree: &mut W,
) -> Result<Option<Kind>, OutOfMemory>
    ensures kind { (t : Names) → W.told worktree.old ≡ Some t → CountNotIncreased
        (W.faults worktree.old) (W.faults worktree.new)
        → IfOk result (λ k. k ≡ disk_kind_of_ignored_path (walk_options_of shared.now.options) kind
        (repository_test_of_path t shared.now.current_dir.now shared.now.git_dir_realpath.now
        full.now) (repository_test_of_path t shared.now.current_dir.now
        shared.now.git_dir_realpath.now (path_joined_with_slash full.now dot_git_bytes))) }
    ensures swallowed { (t : Names) → W.told worktree.old ≡ Some t
        → IfOk result (IsKindTestedAsRead (W.faults worktree.old) (W.faults worktree.new)
        (disk_kind_of_ignored_path (walk_options_of shared.now.options) kind)
        (repository_test_of_path t shared.now.current_dir.now shared.now.git_dir_realpath.now
        full.now) (repository_test_of_path t shared.now.current_dir.now
        shared.now.git_dir_realpath.now (path_joined_with_slash full.now dot_git_bytes))) }
    ensures keeps { KeepsTreeAndListCounts W.Worktree worktree.old worktree.new }
    ensures reads_most { W.reads worktree.new
        ≤ W.reads worktree.old + most_reads_to_classify_path (walk_options_of shared.now.options) }
    ensures unasked { skips_repository_test (walk_options_of shared.now.options)
        (deletion_finds_repositories_in_ignored (walk_options_of shared.now.options)) ≡ true
        → worktree.new ≡ worktree.old }
{
    if !deletion_finds_repositories_in_ignored(&shared.options) {
        return Ok(kind);
    }
    let hard = deletion_finds_bare_in_ignored(&shared.options);
    let seen = upgrade(alloc, full, kind, hard, shared, worktree)?;
    Ok(seen)
}

/// A path that the index has.
pub(crate) fn classify_indexed_path<W: Worktree, M: Matcher>(
    alloc: Global,
    full: &[u8],
    rela_path: &[u8],
    entry: InIndex,
    kind: Option<Kind>,
    shared: &Shared<'_, M>,
    worktree: &mut W,
) -> Result<Outcome, OutOfMemory>
    requires full { full.now ≡ root_joined_with_relative shared.now.worktree_root.now
        rela_path.now }
    requires entry { entry ≡ index_kinds_by_setting (setting_of_shared M.Matcher shared.now)
        rela_path.now }
    ensures classifies { ClassifiesByRepositoryTest W.Worktree worktree.old worktree.new
        (setting_of_shared M.Matcher shared.now) (λ ev. outcome_of_indexed_path (walk_options_of
        shared.now.options) ev rela_path.now kind) (skips_repository_test (walk_options_of
        shared.now.options) (is_directory_of_indexed_submodule entry kind)) result }
    ensures certain { skips_repository_test (walk_options_of shared.now.options)
        (is_directory_of_indexed_submodule entry kind) ≡ true → (made : Option StackSetup)
        (s : TreeAndObjects) → IfOk result (λ c. c ≡ outcome_of_indexed_path
        (walk_options_of shared.now.options) (evidence_from_setting_and_sources
        (setting_of_shared M.Matcher shared.now) made s) rela_path.now kind) }
{
    let found = pathspec_match_of_path(shared, rela_path, kind);
    let disk_kind = disk_kind_of_indexed_path(alloc, full, entry, kind, shared, worktree)?;
    Ok(outcome_of_index_entry(entry, disk_kind, found))
}

/// A path that the rules exclude.
pub(crate) fn classify_ignored_path<W: Worktree, M: Matcher>(
    alloc: Global,
    full: &[u8],
    rela_path: &[u8],
    entry: InIndex,
    kind: Option<Kind>,
    excluded: ignore::Kind,
    shared: &Shared<'_, M>,
    worktree: &mut W,
) -> Result<Outcome, OutOfMemory>
    requires full { full.now ≡ root_joined_with_relative shared.now.worktree_root.now
        rela_path.now }
    requires entry { entry ≡ index_kinds_by_setting (setting_of_shared M.Matcher shared.now)
        rela_path.now }
    ensures classifies { ClassifiesByRepositoryTest W.Worktree worktree.old worktree.new
        (setting_of_shared M.Matcher shared.now) (λ ev. outcome_of_ignored_path (walk_options_of
        shared.now.options) ev rela_path.now kind excluded) (skips_repository_test (walk_options_of
        shared.now.options) (deletion_finds_repositories_in_ignored (walk_options_of
        shared.now.options))) result }
{
    let found = pathspec_match_of_path(shared, rela_path, kind);
    let disk_kind = disk_kind_of_ignored_path(alloc, full, kind, shared, worktree)?;
    Ok(outcome_of_ignored_path(
        &shared.options,
        rela_path,
        excluded,
        entry,
        found,
        disk_kind,
    ))
}

/// A directory that no rule excludes.
pub(crate) fn classify_untracked_directory<W: Worktree, M: Matcher>(
    alloc: Global,
    full: &[u8],
    rela_path: &[u8],
    entry: InIndex,
    kind: Option<Kind>,
    shared: &Shared<'_, M>,
    worktree: &mut W,
) -> Result<Outcome, OutOfMemory>
    requires full { full.now ≡ root_joined_with_relative shared.now.worktree_root.now
        rela_path.now }
    requires entry { entry ≡ index_kinds_by_setting (setting_of_shared M.Matcher shared.now)
        rela_path.now }
    requires directory { is_some_directory_kind kind ≡ true }
    ensures classifies { ClassifiesByRepositoryTest W.Worktree worktree.old worktree.new
        (setting_of_shared M.Matcher shared.now) (λ ev. outcome_of_untracked_directory
        (walk_options_of shared.now.options) ev rela_path.now kind) (skips_repository_test
        (walk_options_of shared.now.options) true) result }
    ensures certain { skips_repository_test (walk_options_of shared.now.options) true ≡ true
        → (made : Option StackSetup) (s : TreeAndObjects)
        → IfOk result (λ c. c ≡ outcome_of_untracked_directory (walk_options_of shared.now.options)
        (evidence_from_setting_and_sources (setting_of_shared M.Matcher shared.now) made s)
        rela_path.now kind) }
{
    let found = pathspec_match_of_path(shared, rela_path, kind);
    let hard = finds_bare_in_untracked_directories(&shared.options);
    let disk_kind = upgrade(alloc, full, kind, hard, shared, worktree)?;
    Ok(outcome_of_unignored_path(Status::Untracked, entry, disk_kind, found))
}

/// A path that no rule excludes.
pub(crate) fn classify_unignored_path<W: Worktree, M: Matcher>(
    alloc: Global,
    full: &[u8],
    rela_path: &[u8],
    entry: InIndex,
    kind: Option<Kind>,
    shared: &Shared<'_, M>,
    worktree: &mut W,
) -> Result<Outcome, OutOfMemory>
    requires full { full.now ≡ root_joined_with_relative shared.now.worktree_root.now
        rela_path.now }
    requires entry { entry ≡ index_kinds_by_setting (setting_of_shared M.Matcher shared.now)
        rela_path.now }
    ensures classifies { ClassifiesByRepositoryTest W.Worktree worktree.old worktree.new
        (setting_of_shared M.Matcher shared.now) (λ ev. outcome_by_ignore_kind (walk_options_of
        shared.now.options) ev rela_path.now kind None) (skips_repository_test (walk_options_of
        shared.now.options) (is_some_directory_kind kind)) result }
    ensures certain { skips_repository_test (walk_options_of shared.now.options)
        (is_some_directory_kind kind) ≡ true → (made : Option StackSetup) (s : TreeAndObjects)
        → IfOk result (λ c. c ≡ outcome_by_ignore_kind (walk_options_of shared.now.options)
        (evidence_from_setting_and_sources (setting_of_shared M.Matcher shared.now) made s)
        rela_path.now kind None) }
{
    if is_some_directory_kind(kind) {
        let class = classify_untracked_directory(
            alloc, full, rela_path, entry, kind, shared, worktree,
        )?;
        return Ok(class);
    }
    let found = pathspec_match_of_path(shared, rela_path, kind);
    Ok(outcome_of_unignored_path(
        untracked_or_pruned_by_pathspec_match(found),
        entry,
        kind,
        found,
    ))
}

/// A path that the index does not have, by what the rules say of it.
pub(crate) fn classify_unindexed_path<W: Worktree, M: Matcher>(
    alloc: Global,
    full: &[u8],
    rela_path: &[u8],
    entry: InIndex,
    kind: Option<Kind>,
    ruling: Ruling,
    shared: &Shared<'_, M>,
    worktree: &mut W,
) -> Result<Outcome, OutOfMemory>
    requires full { full.now ≡ root_joined_with_relative shared.now.worktree_root.now
        rela_path.now }
    requires entry { entry ≡ index_kinds_by_setting (setting_of_shared M.Matcher shared.now)
        rela_path.now }
    ensures classifies { ClassifiesByRepositoryTest W.Worktree worktree.old worktree.new
        (setting_of_shared M.Matcher shared.now) (λ ev. outcome_of_unindexed_path (walk_options_of
        shared.now.options) ev rela_path.now kind ruling) (skips_repository_test (walk_options_of
        shared.now.options) (tests_unindexed_for_repository (walk_options_of shared.now.options)
        kind ruling.kind)) result }
    ensures certain { ruling.kind ≡ None → skips_repository_test
        (walk_options_of shared.now.options) (is_some_directory_kind kind) ≡ true
        → (made : Option StackSetup) (s : TreeAndObjects)
        → IfOk result (λ c. c ≡ outcome_of_unindexed_path (walk_options_of shared.now.options)
        (evidence_from_setting_and_sources (setting_of_shared M.Matcher shared.now) made s)
        rela_path.now kind ruling) }
{
    let class = match ruling.kind {
        Some(excluded) => classify_ignored_path(
            alloc, full, rela_path, entry, kind, excluded, shared, worktree,
        )?,
        None => classify_unignored_path(alloc, full, rela_path, entry, kind, shared, worktree)?,
    };
    Ok(Outcome {
        origin: ruling.origin,
        ..class
    })
}
