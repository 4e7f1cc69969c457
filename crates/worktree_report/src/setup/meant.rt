//! What the lines of a setup mean together.
ghost use Rattle.std.specs.Prelude.{◌≡◌, [], IfOk};
ghost use Rattle.worktree_report.specs.SetupMeant.{emit_untracked_from_options, emit_ignored_from_options, emit_collapsed_from_options, for_deletion_from_options, ignore_source_from_options, permissions_from_options, walk_strategy_of_setup_options, classification_options, reporting_options, setup_options_from_lines, value_of_named_option, depth_limit_from_options, insert_paths_in_order, setup_from_draft};

use crate::permissions::Permissions;
use crate::setup::configs::Configs;
use crate::setup::depth::parse_depth_limit;
use crate::setup::draft::Draft;
use crate::setup::files::store_from_blobs;
use crate::setup::option::{SetupOption, first_option_of_name, is_option_set_to};
use crate::setup::spec::search_from_spec_texts;
use crate::setup::{Setup, SetupOptions};
use dir_classify::{CollapsedEntriesEmissionMode, EmissionMode, ForDeletionMode};
use dir_walk::Strategy;
use gitbase_core::{Bytes, OutOfMemory, PathText};
use std::alloc::Global;
use std::collections::BTreeSet;
use worktree_stack::ignore_source;

/// How many components a directory that is entered may have below the worktree root, where no line
/// says that.
const DEPTH_LIMIT: usize = 256;

/// How untracked paths are reported.
fn emit_untracked_from_options(options: &[SetupOption]) -> EmissionMode
    ensures { result ≡ emit_untracked_from_options options.now }
{
    if is_option_set_to(b"emit_untracked", b"collapse", options) {
        EmissionMode::CollapseDirectory
    } else {
        EmissionMode::Matching
    }
}

/// Whether and how ignored paths are reported.
fn emit_ignored_from_options(options: &[SetupOption]) -> Option<EmissionMode>
    ensures { result ≡ emit_ignored_from_options options.now }
{
    if is_option_set_to(b"emit_ignored", b"matching", options) {
        Some(EmissionMode::Matching)
    } else if is_option_set_to(b"emit_ignored", b"collapse", options) {
        Some(EmissionMode::CollapseDirectory)
    } else {
        None
    }
}

/// Which paths are reported besides the directory that was folded over them.
fn emit_collapsed_from_options(options: &[SetupOption]) -> Option<CollapsedEntriesEmissionMode>
    ensures { result ≡ emit_collapsed_from_options options.now }
{
    if is_option_set_to(b"emit_collapsed", b"mismatch", options) {
        Some(CollapsedEntriesEmissionMode::OnStatusMismatch)
    } else if is_option_set_to(b"emit_collapsed", b"all", options) {
        Some(CollapsedEntriesEmissionMode::All)
    } else {
        None
    }
}

/// Whether the paths are to be deleted, and how ignored directories are looked into.
fn for_deletion_from_options(options: &[SetupOption]) -> Option<ForDeletionMode>
    ensures { result ≡ for_deletion_from_options options.now }
{
    if is_option_set_to(b"for_deletion", b"hide", options) {
        Some(ForDeletionMode::IgnoredDirectoriesCanHideNestedRepositories)
    } else if is_option_set_to(b"for_deletion", b"nonbare", options) {
        Some(ForDeletionMode::FindNonBareRepositoriesInIgnoredDirectories)
    } else if is_option_set_to(b"for_deletion", b"all", options) {
        Some(ForDeletionMode::FindRepositoriesInIgnoredDirectories)
    } else {
        None
    }
}

/// Where rules files are read.
fn ignore_source_from_options(options: &[SetupOption]) -> ignore_source::Source
    ensures { result ≡ ignore_source_from_options options.now }
{
    if is_option_set_to(b"ignore_source", b"mapping", options) {
        ignore_source::Source::IdMapping
    } else {
        ignore_source::Source::WorktreeThenIdMappingIfNotSkipped
    }
}

/// Which configurations are read.
fn permissions_from_options(options: &[SetupOption]) -> Permissions
    ensures { result ≡ permissions_from_options options.now }
{
    if is_option_set_to(b"permissions", b"isolated", options) {
        Permissions::isolated()
    } else if is_option_set_to(b"permissions", b"all", options) {
        Permissions::all()
    } else {
        Permissions::secure()
    }
}

/// How the walk goes.
fn walk_strategy_of_setup_options(options: &[SetupOption]) -> Strategy
    ensures { result ≡ walk_strategy_of_setup_options options.now }
{
    if is_option_set_to(b"strategy", b"at_once", options) {
        Strategy::AtOnce
    } else {
        Strategy::Held
    }
}

/// The options that say how paths are looked at.
#[derive(Clone, Copy)]
struct Looking {
    ignore_case: bool,
    recurse_repositories: bool,
    classify_untracked_bare_repositories: bool,
    symlinks_to_directories_are_ignored_like_directories: bool,
    excludes: bool,
    precious: bool,
    strict_parents: bool,
    for_deletion: Option<ForDeletionMode>,
    ignore_source: ignore_source::Source,
    strategy: Strategy,
}

/// The options that say what is reported.
#[derive(Clone, Copy)]
struct Reporting {
    emit_pruned: bool,
    emit_tracked: bool,
    emit_untracked: EmissionMode,
    emit_ignored: Option<EmissionMode>,
    emit_collapsed: Option<CollapsedEntriesEmissionMode>,
    emit_empty_directories: bool,
    origins: bool,
    submodules: bool,
    permissions: Permissions,
    print_outcome: bool,
}

#[tactic(auto, unfolding(crate::specs::SetupMeant::classification_options))]
fn classification_options(options: &[SetupOption]) -> Looking
    ensures { result ≡ classification_options options.now }
{
    Looking {
        ignore_case: is_option_set_to(b"ignore_case", b"yes", options),
        recurse_repositories: is_option_set_to(b"recurse_repositories", b"yes", options),
        classify_untracked_bare_repositories: is_option_set_to(
            b"classify_untracked_bare_repositories",
            b"yes",
            options,
        ),
        symlinks_to_directories_are_ignored_like_directories: is_option_set_to(
            b"symlinks_to_directories_are_ignored_like_directories",
            b"yes",
            options,
        ),
        excludes: !is_option_set_to(b"excludes", b"no", options),
        precious: is_option_set_to(b"precious", b"yes", options),
        strict_parents: is_option_set_to(b"strict_parents", b"yes", options),
        for_deletion: for_deletion_from_options(options),
        ignore_source: ignore_source_from_options(options),
        strategy: walk_strategy_of_setup_options(options),
    }
}

#[tactic(auto, unfolding(crate::specs::SetupMeant::reporting_options))]
fn reporting_options(options: &[SetupOption]) -> Reporting
    ensures { result ≡ reporting_options options.now }
{
    Reporting {
        emit_pruned: is_option_set_to(b"emit_pruned", b"yes", options),
        emit_tracked: is_option_set_to(b"emit_tracked", b"yes", options),
        emit_untracked: emit_untracked_from_options(options),
        emit_ignored: emit_ignored_from_options(options),
        emit_collapsed: emit_collapsed_from_options(options),
        emit_empty_directories: is_option_set_to(b"emit_empty_directories", b"yes", options),
        origins: is_option_set_to(b"origins", b"yes", options),
        submodules: is_option_set_to(b"submodules", b"yes", options),
        permissions: permissions_from_options(options),
        print_outcome: is_option_set_to(b"print_outcome", b"yes", options),
    }
}

#[tactic(auto, unfolding(crate::specs::SetupMeant::setup_options_from_lines))]
fn setup_options_from_lines(options: &[SetupOption]) -> SetupOptions
    ensures { result ≡ setup_options_from_lines options.now }
{
    let looking = classification_options(options);
    let reporting = reporting_options(options);
    SetupOptions {
        ignore_case: looking.ignore_case,
        recurse_repositories: looking.recurse_repositories,
        emit_pruned: reporting.emit_pruned,
        emit_tracked: reporting.emit_tracked,
        emit_untracked: reporting.emit_untracked,
        emit_ignored: reporting.emit_ignored,
        emit_collapsed: reporting.emit_collapsed,
        emit_empty_directories: reporting.emit_empty_directories,
        for_deletion: looking.for_deletion,
        classify_untracked_bare_repositories: looking.classify_untracked_bare_repositories,
        symlinks_to_directories_are_ignored_like_directories: looking.symlinks_to_directories_are_ignored_like_directories,
        excludes: looking.excludes,
        precious: looking.precious,
        strict_parents: looking.strict_parents,
        origins: reporting.origins,
        print_outcome: reporting.print_outcome,
        submodules: reporting.submodules,
        ignore_source: looking.ignore_source,
        permissions: reporting.permissions,
        strategy: looking.strategy,
    }
}

/// A path that stands once, by its keyword.
#[tactic(auto, unfolding(crate::specs::SetupMeant::value_of_named_option))]
fn path_of_option_value(
    alloc: Global,
    name: &[u8],
    options: &[SetupOption],
) -> Result<Option<PathText>, OutOfMemory>
    ensures { IfOk result (λ path. path ≡ value_of_named_option name.now options.now) }
{
    match first_option_of_name(name, options) {
        Some(option) => Ok(Some(PathText::from_bytes(alloc, option.value.as_bytes())?)),
        None => Ok(None),
    }
}

/// What stands once, by its keyword.
#[tactic(auto, unfolding(crate::specs::SetupMeant::value_of_named_option))]
fn bytes_of_option_value(
    alloc: Global,
    name: &[u8],
    options: &[SetupOption],
) -> Result<Option<Bytes>, OutOfMemory>
    ensures { IfOk result (λ value. value ≡ value_of_named_option name.now options.now) }
{
    match first_option_of_name(name, options) {
        Some(option) => Ok(Some(Bytes::from_slice(alloc, option.value.as_bytes())?)),
        None => Ok(None),
    }
}

/// The depth limit.
#[tactic(auto, unfolding(crate::specs::SetupMeant::depth_limit_from_options, crate::specs::SetupMeant::value_of_named_option))]
fn depth_limit_from_options(options: &[SetupOption]) -> usize
    ensures { result ≡ depth_limit_from_options options.now }
{
    match first_option_of_name(b"depth", options) {
        Some(option) => parse_depth_limit(option.value.as_bytes()).unwrap_or(DEPTH_LIMIT),
        None => DEPTH_LIMIT,
    }
}

/// Paths in the order of their bytes, each once.
fn path_set_from_paths(alloc: Global, paths: &[PathText]) -> Result<BTreeSet<PathText>, OutOfMemory>
    ensures { IfOk result (λ set. set.keys ≡ insert_paths_in_order [] paths.now) }
{
    let mut set = BTreeSet::new(alloc);
    for path in paths.iter() {
        set.insert(PathText::from_bytes(alloc, path.as_bytes())?)?;
    }
    Ok(set)
}

/// The setup that the lines mean together.
pub fn setup_from_draft(alloc: Global, draft: Draft) -> Result<Setup, OutOfMemory>
    ensures { IfOk result (λ setup. setup ≡ setup_from_draft draft) }
{
    let git_dir = path_of_option_value(alloc, b"git_dir", &draft.options)?;
    let current_dir = path_of_option_value(alloc, b"current_dir", &draft.options)?;
    let root = bytes_of_option_value(alloc, b"root", &draft.options)?;
    let depth = depth_limit_from_options(&draft.options);
    let options = setup_options_from_lines(&draft.options);
    let specs = search_from_spec_texts(alloc, options.ignore_case, &draft.specs)?;
    let worktrees = path_set_from_paths(alloc, &draft.worktrees)?;
    let blobs = store_from_blobs(alloc, &draft.blobs)?;
    Ok(Setup {
        git_dir,
        current_dir,
        root,
        depth,
        index: draft.index,
        blobs,
        overrides: Bytes::from_vec(draft.overrides),
        globals: Bytes::from_vec(draft.globals),
        specs,
        worktrees,
        configs: Configs::from_vec(draft.configs),
        options,
    })
}
