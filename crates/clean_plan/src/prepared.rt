//! The options by which a plan is made.
ghost use Rattle.std.specs.Prelude.{◌≡◌, ◌↔◌, true};
ghost use Rattle.clean_plan.specs.Prepared as prepared;

use crate::what::Finding;
use dir_classify::{EmissionMode, ForDeletionMode};
use worktree_report::SetupOptions;

/// How deletion goes about ignored directories.
fn for_deletion_mode_of_finding(finding: Finding) -> ForDeletionMode
    ensures { result ≡ prepared.for_deletion_mode_of_finding finding }
{
    match finding {
        Finding::NonBare => ForDeletionMode::FindNonBareRepositoriesInIgnoredDirectories,
        Finding::All => ForDeletionMode::FindRepositoriesInIgnoredDirectories,
    }
}

/// Sets the options that a plan needs: paths are to be deleted, with repositories found as asked;
/// nothing is folded or hidden; neither submodules nor origins are told. All others stay as they
/// are.
///
/// See docs/DECISIONS.md#prepared-options.
pub fn prepare(options: &mut SetupOptions, finding: Finding)
    ensures set { options.new ≡ prepared.options_prepared_for_plan finding options.old }
    ensures prepared { prepared.are_options_prepared_for_plan finding options.new ≡ true }
{
    options.for_deletion = Some(for_deletion_mode_of_finding(finding));
    options.classify_untracked_bare_repositories = matches!(finding, Finding::All);
    options.recurse_repositories = false;
    options.submodules = false;
    options.origins = false;
    options.emit_untracked = EmissionMode::Matching;
    options.emit_ignored = Some(EmissionMode::Matching);
    options.emit_collapsed = None;
    options.emit_pruned = true;
    options.emit_tracked = true;
    options.emit_empty_directories = true;
}

/// Whether repositories are found so in ignored directories.
fn for_deletion_mode_matches_finding(finding: Finding, mode: Option<ForDeletionMode>) -> bool
    ensures { result ≡ prepared.for_deletion_mode_matches_finding finding mode }
{
    match mode {
        None | Some(ForDeletionMode::IgnoredDirectoriesCanHideNestedRepositories) => false,
        Some(ForDeletionMode::FindNonBareRepositoriesInIgnoredDirectories) => {
            matches!(finding, Finding::NonBare)
        }
        Some(ForDeletionMode::FindRepositoriesInIgnoredDirectories) => {
            matches!(finding, Finding::All)
        }
    }
}

/// Whether bare repositories are looked for just where they are to be found.
fn bare_option_fits_finding(finding: Finding, bare: bool) -> bool
    ensures { result ≡ prepared.bare_option_fits_finding finding bare }
{
    match finding {
        Finding::NonBare => !bare,
        Finding::All => bare,
    }
}

/// Whether untracked and ignored paths are reported each by itself.
fn emits_each_path_uncollapsed(options: &SetupOptions) -> bool
    ensures { result ≡ prepared.emits_each_path_uncollapsed options.now }
{
    matches!(options.emit_untracked, EmissionMode::Matching)
        && matches!(options.emit_ignored, Some(EmissionMode::Matching))
        && options.emit_collapsed.is_none()
}

/// Whether nothing is hidden.
fn emits_pruned_tracked_and_empty(options: &SetupOptions) -> bool
    ensures { result ≡ prepared.emits_pruned_tracked_and_empty options.now }
{
    options.emit_pruned && options.emit_tracked && options.emit_empty_directories
}

/// Whether paths are to be deleted, with repositories found as asked and not looked into.
fn has_deletion_options_of_finding(options: &SetupOptions, finding: Finding) -> bool
    ensures { result ≡ prepared.has_deletion_options_of_finding finding options.now }
{
    for_deletion_mode_matches_finding(finding, options.for_deletion)
        && bare_option_fits_finding(finding, options.classify_untracked_bare_repositories)
        && !options.recurse_repositories
}

/// Whether options are prepared for a plan: exactly those are that [`prepare`] leaves as they are.
#[tactic(auto, using(crate::proofs::Preparing::is_same))]
pub fn are_options_prepared_for_plan(options: &SetupOptions, finding: Finding) -> bool
    ensures is { result ≡ prepared.are_options_prepared_for_plan finding options.now }
    ensures same { (result ≡ true) ↔ (prepared.options_prepared_for_plan finding options.now
        ≡ options.now) }
{
    emits_each_path_uncollapsed(options)
        && emits_pruned_tracked_and_empty(options)
        && has_deletion_options_of_finding(options, finding)
        && omits_submodules_and_origins(options)
}

/// Whether nothing is told of submodules and of the rules that decided.
fn omits_submodules_and_origins(options: &SetupOptions) -> bool
    ensures { result ≡ prepared.omits_submodules_and_origins options.now }
{
    !options.submodules && !options.origins
}
