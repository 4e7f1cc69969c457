//! What the walk is asked for.
ghost use Rattle.std.specs.Prelude.{◌≡◌};
ghost use Rattle.git_clean.specs.Walking as words;

use crate::options::Cleaning;
use dir_classify::{EmissionMode, ForDeletionMode};
use worktree_report::SetupOptions;

/// How ignored directories are walked.
fn for_deletion_mode_of_cleaning(cleaning: &Cleaning) -> ForDeletionMode
    ensures { result ≡ words.for_deletion_mode_of_cleaning cleaning.now }
{
    if cleaning.ignored_only {
        return ForDeletionMode::FindNonBareRepositoriesInIgnoredDirectories;
    }
    ForDeletionMode::IgnoredDirectoriesCanHideNestedRepositories
}

/// The options with which a setup is to be found, so that its report has what a cleaning needs: for
/// deletion, each path by itself and none folded or hidden but what is tracked, and no ignore rules
/// with `-x`. What git does is set; all others stay.
///
/// See docs/DECISIONS.md#dry-clean-by-leaves.
pub fn walk_options_for_cleaning(cleaning: &Cleaning, options: &SetupOptions) -> SetupOptions
    ensures { result ≡ words.walk_options_for_cleaning cleaning.now options.now }
{
    let mut options = *options;
    options.excludes = !cleaning.ignored_too;
    options.strict_parents = true;
    options.precious = false;
    options.recurse_repositories = false;
    options.symlinks_to_directories_are_ignored_like_directories = false;
    options.classify_untracked_bare_repositories = false;
    options.for_deletion = Some(for_deletion_mode_of_cleaning(cleaning));
    options.emit_pruned = true;
    options.emit_tracked = false;
    options.emit_untracked = EmissionMode::Matching;
    options.emit_ignored = Some(EmissionMode::Matching);
    options.emit_collapsed = None;
    options.emit_empty_directories = true;
    options.submodules = false;
    options.origins = false;
    options
}
