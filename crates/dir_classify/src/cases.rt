//! The cases of a class, each by what is known of the path.
ghost use Rattle.std.specs.Prelude.{◌≡◌, Option, Some, None, true, if◌then◌else◌, is_none};
ghost use Rattle.worktree_stack.specs.Reading.{TreeAndObjects};
ghost use Rattle.worktree_stack.specs.Setup.{StackSetup};
ghost use Rattle.dir_classify.specs.Chosen.{walk_options_of, finds_bare_repositories_in_ignored};
ghost use Rattle.dir_classify.specs.Class.{outcome_of_dot_git, outcome_without_possible_match, outcome_of_linked_worktree, ignore_kind_of_dot_git, pathspec_match_of_ignored_path, is_path_named_dot_git, index_and_disk_agree_on_directory, has_several_components, pathspec_match_of_path, outcome_with_status_only, ignored_or_status, outcome_of_unignored_path, outcome_of_index_entry, outcome_of_ignored_kind, deletion_finds_repositories_in_ignored, is_directory_of_indexed_submodule, may_lie_above_match_or_worktree};
ghost use Rattle.dir_classify.specs.Layers.{setting_of_shared, evidence_from_setting_and_sources};

use crate::classify::Outcome;
use crate::context::Shared;
use crate::entry::{Kind, PathspecMatch, Property, Status, is_dir};
use crate::excludes::Ruling;
use crate::index::InIndex;
use crate::options::{
    Options, finds_bare_repositories_in_ignored, finds_repositories_in_ignored,
    has_worktree_beneath,
};
use gitbase_core::{basename, eq_ignore_case, split_first_component};
use glob_rules::ignore;
use glob_rules::pathspec::Matcher;

/// Whether the last component is `.git`, in whatever case of letters where case makes no
/// difference.
fn is_path_named_dot_git(ignore_case: bool, path: &[u8]) -> bool
    ensures { result ≡ is_path_named_dot_git ignore_case path.now }
{
    let name = basename(path);
    if ignore_case {
        return eq_ignore_case(name, b".git");
    }
    name == b".git".as_slice()
}

/// The same, by the options.
#[tactic(auto, unfolding(crate::specs::Chosen::walk_options_of))]
pub(crate) fn is_dot_git_by_options(options: &Options<'_>, path: &[u8]) -> bool
    ensures { result ≡ is_path_named_dot_git (walk_options_of options.now).ignore_case path.now }
{
    is_path_named_dot_git(options.ignore_case, path)
}

/// Whether a path has more than one component.
fn has_several_components(path: &[u8]) -> bool
    ensures { result ≡ has_several_components path.now }
{
    match split_first_component(path) {
        None => false,
        Some((_, rest)) => split_first_component(rest).is_some(),
    }
}

/// Whether the index has a path: it is left out of a sparse worktree, or index and disk agree on
/// whether it holds names.
///
/// See docs/DIFFERENCES.md#excluded-replaced-file.
/// See docs/DIFFERENCES.md#replaced-file.
pub(crate) fn index_and_disk_agree_on_directory(entry: InIndex, kind: Option<Kind>) -> bool
    ensures { result ≡ index_and_disk_agree_on_directory entry kind }
{
    if entry.sparse.is_some() {
        return true;
    }
    match (entry.kind, kind) {
        (None, None) => true,
        (Some(indexed), Some(on_disk)) => indexed.is_dir() == on_disk.is_dir(),
        _ => false,
    }
}

/// How the path specs match a path.
#[tactic(auto, unfolding(crate::specs::Layers::evidence_from_setting_and_sources))]
pub(crate) fn pathspec_match_of_path<M: Matcher>(
    shared: &Shared<'_, M>,
    path: &[u8],
    kind: Option<Kind>,
) -> Option<PathspecMatch>
    ensures { (made : Option StackSetup) (s : TreeAndObjects) → result ≡ pathspec_match_of_path
        (evidence_from_setting_and_sources (setting_of_shared M.Matcher shared.now) made s) path.now
        kind }
{
    match shared
        .pathspec
        .pattern_matching_relative_path(path, is_dir(kind))
    {
        None => None,
        Some(found) => Some(PathspecMatch::from(found)),
    }
}

/// A class of which nothing is known but its status.
fn outcome_with_status_only(status: Status) -> Outcome
    ensures { result ≡ outcome_with_status_only status }
{
    Outcome {
        status,
        property: None,
        disk_kind: None,
        index_kind: None,
        pathspec_match: None,
        origin: None,
    }
}

/// Ignored where the rules exclude, else another status.
fn ignored_or_status(status: Status, excluded: Option<ignore::Kind>) -> Status
    ensures { result ≡ ignored_or_status status excluded }
{
    match excluded {
        Some(kind) => Status::Ignored(kind),
        None => status,
    }
}

/// How a path named `.git` is excluded: in deletion, below a directory, as the rules say.
#[tactic(auto, unfolding(crate::specs::Chosen::walk_options_of))]
fn ignore_kind_of_dot_git(
    options: &Options<'_>,
    path: &[u8],
    ruling: Ruling,
) -> Option<ignore::Kind>
    ensures { result ≡ ignore_kind_of_dot_git (walk_options_of options.now) path.now ruling }
{
    if options.for_deletion.is_none() {
        return None;
    }
    if !has_several_components(path) {
        return None;
    }
    ruling.kind
}

/// A path named `.git`.
pub(crate) fn outcome_of_dot_git<M: Matcher>(
    shared: &Shared<'_, M>,
    path: &[u8],
    known: Option<Kind>,
    ruling: Ruling,
) -> Outcome
    ensures { (made : Option StackSetup) (s : TreeAndObjects) → result ≡ outcome_of_dot_git
        (walk_options_of shared.now.options) (evidence_from_setting_and_sources
        (setting_of_shared M.Matcher shared.now) made s) path.now known ruling }
{
    let excluded = ignore_kind_of_dot_git(&shared.options, path, ruling);
    let origin = if excluded.is_some() {
        ruling.origin
    } else {
        None
    };
    Outcome {
        property: Some(Property::DotGit),
        disk_kind: known,
        pathspec_match: pathspec_match_of_path(shared, path, known),
        origin,
        ..outcome_with_status_only(ignored_or_status(Status::Pruned, excluded))
    }
}

/// A path that no spec can match.
pub(crate) fn outcome_without_possible_match(known: Option<Kind>) -> Outcome
    ensures { result ≡ outcome_without_possible_match known }
{
    Outcome {
        disk_kind: known,
        ..outcome_with_status_only(Status::Pruned)
    }
}

/// A path of the worktree set.
pub(crate) fn outcome_of_linked_worktree<M: Matcher>(
    shared: &Shared<'_, M>,
    path: &[u8],
    kind: Option<Kind>,
) -> Outcome
    ensures { (made : Option StackSetup) (s : TreeAndObjects) → result ≡ outcome_of_linked_worktree
        (evidence_from_setting_and_sources (setting_of_shared M.Matcher shared.now) made s) path.now
        kind }
{
    Outcome {
        disk_kind: Some(Kind::Repository),
        pathspec_match: pathspec_match_of_path(shared, path, kind),
        ..outcome_with_status_only(Status::Tracked)
    }
}

/// The class of a path that the index has.
///
/// See docs/DIFFERENCES.md#left-out-directory.
pub(crate) fn outcome_of_index_entry(
    entry: InIndex,
    kind: Option<Kind>,
    found: Option<PathspecMatch>,
) -> Outcome
    ensures { result ≡ outcome_of_index_entry entry kind found }
{
    let status = if entry.sparse.is_some() {
        Status::Pruned
    } else {
        Status::Tracked
    };
    Outcome {
        property: entry.sparse,
        disk_kind: kind,
        index_kind: entry.kind,
        pathspec_match: found,
        ..outcome_with_status_only(status)
    }
}

/// An ignored path, with the kind that it is seen to have.
pub(crate) fn outcome_of_ignored_path(
    options: &Options<'_>,
    path: &[u8],
    excluded: ignore::Kind,
    entry: InIndex,
    found: Option<PathspecMatch>,
    seen: Option<Kind>,
) -> Outcome
    ensures { result ≡ outcome_of_ignored_kind (walk_options_of options.now) path.now excluded entry
        found seen }
{
    Outcome {
        disk_kind: seen,
        index_kind: entry.kind,
        pathspec_match: pathspec_match_of_ignored_path(options, path, seen, found),
        ..outcome_with_status_only(Status::Ignored(excluded))
    }
}

pub(crate) fn outcome_of_unignored_path(
    status: Status,
    entry: InIndex,
    kind: Option<Kind>,
    found: Option<PathspecMatch>,
) -> Outcome
    ensures { result ≡ outcome_of_unignored_path status entry kind found }
{
    Outcome {
        disk_kind: kind,
        index_kind: entry.kind,
        pathspec_match: found,
        ..outcome_with_status_only(status)
    }
}

/// The status of what is no directory: pruned where no spec matches it.
pub(crate) fn untracked_or_pruned_by_pathspec_match(found: Option<PathspecMatch>) -> Status
    ensures { result ≡ (if is_none found then Status.Pruned else Status.Untracked) }
{
    match found {
        None => Status::Pruned,
        Some(_) => Status::Untracked,
    }
}

/// Whether untracked directories are tested for being bare repositories.
#[tactic(auto, unfolding(crate::specs::Chosen::walk_options_of))]
pub(crate) fn finds_bare_in_untracked_directories(options: &Options<'_>) -> bool
    ensures { result ≡ (walk_options_of options.now).classify_untracked_bare_repositories }
{
    options.classify_untracked_bare_repositories
}

/// Whether deletion looks at ignored paths, to find repositories.
#[tactic(auto, unfolding(crate::specs::Chosen::walk_options_of))]
pub(crate) fn deletion_finds_repositories_in_ignored(options: &Options<'_>) -> bool
    ensures { result ≡ deletion_finds_repositories_in_ignored (walk_options_of options.now) }
{
    if options.emit_ignored.is_none() {
        return false;
    }
    finds_repositories_in_ignored(options.for_deletion)
}

/// Whether it looks for bare ones too.
///
/// See docs/DIFFERENCES.md#bare-repository.
#[tactic(auto, unfolding(crate::specs::Chosen::walk_options_of))]
pub(crate) fn deletion_finds_bare_in_ignored(options: &Options<'_>) -> bool
    ensures { result ≡ finds_bare_repositories_in_ignored
        (walk_options_of options.now).for_deletion }
{
    finds_bare_repositories_in_ignored(options.for_deletion)
}

/// Whether a directory on disk is a submodule in the index.
pub(crate) fn is_directory_of_indexed_submodule(entry: InIndex, kind: Option<Kind>) -> bool
    ensures { result ≡ is_directory_of_indexed_submodule entry kind }
{
    matches!(
        (kind, entry.kind),
        (Some(Kind::Directory), Some(Kind::Repository))
    )
}

/// The match of an ignored path: a directory that no spec names is one above what is looked for,
/// and so is in deletion one above a path of the worktree set.
#[tactic(auto, unfolding(crate::specs::Chosen::walk_options_of))]
fn pathspec_match_of_ignored_path(
    options: &Options<'_>,
    path: &[u8],
    kind: Option<Kind>,
    found: Option<PathspecMatch>,
) -> Option<PathspecMatch>
    ensures { result ≡ pathspec_match_of_ignored_path (walk_options_of options.now) path.now kind
        found }
{
    if options.emit_ignored.is_none() || kind != Some(Kind::Directory) {
        return found;
    }
    if may_lie_above_match_or_worktree(options, path, found) {
        return Some(PathspecMatch::Prefix);
    }
    found
}

/// Whether an ignored directory lies above what is looked for.
#[tactic(auto, unfolding(crate::specs::Chosen::walk_options_of))]
fn may_lie_above_match_or_worktree(
    options: &Options<'_>,
    path: &[u8],
    found: Option<PathspecMatch>,
) -> bool
    ensures { result ≡ may_lie_above_match_or_worktree (walk_options_of options.now) path.now
        found }
{
    if found.is_none() {
        return true;
    }
    if options.for_deletion.is_none() {
        return false;
    }
    has_worktree_beneath(options, path)
}
