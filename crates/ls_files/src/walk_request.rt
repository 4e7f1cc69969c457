//! What the walk is asked for.
ghost use Rattle.std.specs.Prelude.{◌≡◌};
ghost use Rattle.ls_files.specs.Others.{lists_empty_directories};
ghost use Rattle.ls_files.specs.Walking as words;

use crate::cached::uses_per_directory_ignore_rules;
use crate::options::Listing;
use dir_classify::{EmissionMode, ForDeletionMode};
use worktree_report::SetupOptions;

/// Whether directories are shown that hold nothing to be shown.
pub fn lists_empty_directories(listing: &Listing) -> bool
    ensures { result ≡ lists_empty_directories listing.now }
{
    listing.directories && listing.empty_directories
}

/// Whether ignored paths are asked for, by rules of the walk.
fn asks_ignored_by_rules(listing: &Listing) -> bool
    ensures { result ≡ words.asks_ignored_by_rules listing.now }
{
    listing.ignored && uses_per_directory_ignore_rules(listing)
}

/// How ignored paths are reported.
fn ignored_emission_mode(listing: &Listing) -> Option<EmissionMode>
    ensures { result ≡ words.ignored_emission_mode listing.now }
{
    if asks_ignored_by_rules(listing) | lists_empty_directories(listing) {
        return Some(EmissionMode::Matching);
    }
    None
}

/// Whether it is asked for what lies in ignored directories.
fn needs_ignored_contents(listing: &Listing) -> bool
    ensures { result ≡ words.needs_ignored_contents listing.now }
{
    asks_ignored_by_rules(listing) && !lists_empty_directories(listing)
}

/// How ignored directories are walked.
fn deletion_mode_for_contents(listing: &Listing) -> Option<ForDeletionMode>
    ensures { result ≡ words.deletion_mode_for_contents listing.now }
{
    if needs_ignored_contents(listing) {
        return Some(ForDeletionMode::FindNonBareRepositoriesInIgnoredDirectories);
    }
    None
}

/// The options with which a setup is to be found, so that its report has what a listing shows: each
/// path by itself and none folded, what is left out, directories without names unless
/// `--no-empty-directory` leaves them out, the ignore rules where they are asked for, what is
/// ignored where it is listed or fills a directory, and what lies in ignored directories where that
/// is asked for. What git does is set; all others stay.
///
/// See docs/DECISIONS.md#listing-by-leaves.
pub fn walk_options_for_listing(listing: &Listing, options: &SetupOptions) -> SetupOptions
    ensures { result ≡ words.walk_options_for_listing listing.now options.now }
{
    let mut options = *options;
    options.excludes = uses_per_directory_ignore_rules(listing);
    options.strict_parents = true;
    options.precious = false;
    options.recurse_repositories = false;
    options.symlinks_to_directories_are_ignored_like_directories = false;
    options.classify_untracked_bare_repositories = false;
    options.for_deletion = deletion_mode_for_contents(listing);
    options.emit_pruned = true;
    options.emit_tracked = false;
    options.emit_untracked = EmissionMode::Matching;
    options.emit_ignored = ignored_emission_mode(listing);
    options.emit_collapsed = None;
    options.emit_empty_directories = lists_empty_directories(listing);
    options.submodules = false;
    options.origins = false;
    options
}
