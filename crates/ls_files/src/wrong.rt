//! Which listings there are not.
ghost use Rattle.std.specs.Prelude.{◌≡◌};
ghost use Rattle.std.specs.List.{list_any};
ghost use Rattle.gitbase_core.specs.Entry.{is_sparse_directory_entry};
ghost use Rattle.ls_files.specs.Wrong as words;

use crate::alone::has_patterns_without_standard_or_directory_rules;
use crate::cached::{lists_index_entries, needs_worktree_walk, uses_per_directory_ignore_rules};
use crate::options::Listing;
use diff_files::Unsupported;
use gitbase_core::{IndexEntry, State};

/// Why there is no such listing: in git, or not here.
#[derive(Clone, Copy, Debug, PartialEq, Eq)]
pub enum WrongListing {
    /// `-i` without `-o` and `-c`, which git refuses.
    IgnoredOfNothing,
    /// `-i` without rules, which git refuses.
    IgnoredWithoutRules,
    /// `-i` of what the index has, which is not answered here.
    IgnoredIndex,
    /// `-i` with `--directory` and `-k`, with path specs, or in a directory, which is not answered
    /// here.
    IgnoredDirectories,
    /// What a sparse index has, where an entry stands for all that is beneath a directory: git
    /// reads that from objects.
    SparseIndex,
    /// `-x` or `-X` alone with `-k`, or with `--directory` and not `-i`, which is not answered
    /// here.
    PatternsAlone,
    /// `--error-unmatch` with `-d` or `-m` and with `-o` or `-k`, which is not answered here.
    UnmatchedOfBoth,
    /// A rules file above an entry is not read, which is not answered here; only with `-i` and
    /// `-c`.
    UnreadRules,
    /// What stands at a path has a form that is not answered here; only with `-d` and `-m`.
    Unsupported(Unsupported),
}

/// What is told of a form that is not answered.
fn message_of_unsupported(form: Unsupported) -> &'static [u8]
    ensures { result.now ≡ words.message_of_unsupported form }
{
    match form {
        Unsupported::Repository => b"ls-files -m is not supported where a repository stands",
        Unsupported::Conversion => b"ls-files -m is not supported where bytes are converted",
        Unsupported::IgnoredSubmodule => b"ls-files -m is not supported for ignored submodules",
        Unsupported::SparseIndex => b"ls-files is not supported for what a sparse index has",
        Unsupported::Details => b"ls-files has no stat fields of an entry",
    }
}

impl WrongListing {
    /// What is told of it, behind `fatal: `; of what git refuses too in git's words.
    pub fn text(&self) -> &'static [u8]
        ensures { result.now ≡ words.message_of_wrong_listing self.now }
    {
        match self {
            WrongListing::IgnoredOfNothing => b"ls-files -i must be used with either -o or -c",
            WrongListing::IgnoredWithoutRules => b"ls-files --ignored needs some exclude pattern",
            WrongListing::IgnoredIndex => b"ls-files -i is not supported for what the index has",
            WrongListing::IgnoredDirectories => {
                b"ls-files -i --directory is not supported with -k, path specs, or below the top"
            }
            WrongListing::SparseIndex => b"ls-files is not supported for what a sparse index has",
            WrongListing::PatternsAlone => {
                b"ls-files -x or -X alone is not supported with -k, or with --directory and no -i"
            }
            WrongListing::UnmatchedOfBoth => {
                b"ls-files --error-unmatch is not supported with -d or -m beside -o or -k"
            }
            WrongListing::UnreadRules => {
                b"ls-files -i is not supported with a rules file that is not read"
            }
            WrongListing::Unsupported(form) => message_of_unsupported(*form),
        }
    }
}

/// Whether there are rules.
pub fn has_any_exclude_rules(listing: &Listing) -> bool
    ensures { result ≡ words.has_any_exclude_rules listing.now }
{
    uses_per_directory_ignore_rules(listing) || listing.patterns
}

/// Why there is no listing of only what is ignored.
fn refusal_of_ignored_option_combination(listing: &Listing) -> Option<WrongListing>
    ensures { result ≡ words.refusal_of_ignored_option_combination listing.now }
{
    if !(listing.others | listing.cached) {
        return Some(WrongListing::IgnoredOfNothing);
    }
    if !has_any_exclude_rules(listing) {
        return Some(WrongListing::IgnoredWithoutRules);
    }
    if lists_index_entries(listing) {
        return Some(WrongListing::IgnoredIndex);
    }
    if listing.directories & listing.killed {
        return Some(WrongListing::IgnoredDirectories);
    }
    None
}

/// The same where only what is ignored is asked for.
fn refusal_if_ignored_option_given(listing: &Listing) -> Option<WrongListing>
    ensures { result ≡ words.refusal_if_ignored_option_given listing.now }
{
    if listing.ignored {
        return refusal_of_ignored_option_combination(listing);
    }
    None
}

/// Whether directories are shown where something in them is not ignored.
fn lists_unignored_directories(listing: &Listing) -> bool
    ensures { result ≡ words.lists_unignored_directories listing.now }
{
    listing.others && listing.directories && !listing.ignored
}

/// Why there is no listing by patterns alone.
fn refusal_if_patterns_stand_alone(listing: &Listing) -> Option<WrongListing>
    ensures { result ≡ words.refusal_if_patterns_stand_alone listing.now }
{
    if !has_patterns_without_standard_or_directory_rules(listing) {
        return None;
    }
    if listing.killed | lists_unignored_directories(listing) {
        return Some(WrongListing::PatternsAlone);
    }
    None
}

/// Whether an entry stands for all that is beneath a directory.
fn is_sparse_directory_entry(entry: &IndexEntry) -> bool
    ensures { result ≡ is_sparse_directory_entry entry.now }
{
    entry.mode.is_sparse()
}

/// Whether an entry does.
pub fn has_sparse_directory_entry(entries: &[IndexEntry]) -> bool
    ensures { result ≡ list_any is_sparse_directory_entry entries.now }
{
    entries.iter().any(|entry| is_sparse_directory_entry(entry))
}

/// Why there is no listing of what an index has, or of what lies in its way.
fn refusal_if_index_is_sparse(listing: &Listing, index: &State) -> Option<WrongListing>
    ensures { result ≡ words.refusal_if_index_is_sparse listing.now index.now }
{
    if !(lists_index_entries(listing) | listing.killed) {
        return None;
    }
    if has_sparse_directory_entry(index.entries()) {
        return Some(WrongListing::SparseIndex);
    }
    None
}

/// Why there is no such listing of an index, the first reason that git asks for; none where there
/// is one.
///
/// See docs/DIFFERENCES.md#list-ignored-forms.
/// See docs/DIFFERENCES.md#list-sparse-index.
/// See docs/DIFFERENCES.md#list-patterns-alone.
pub fn first_refusal_of_options_and_index(listing: &Listing, index: &State) -> Option<WrongListing>
    ensures { result ≡ words.first_refusal_of_options_and_index listing.now index.now }
{
    let first = refusal_if_ignored_option_given(listing);
    if first.is_some() {
        return first;
    }
    let second = refusal_if_patterns_stand_alone(listing);
    if second.is_some() {
        return second;
    }
    refusal_if_index_is_sparse(listing, index)
}

/// Why there is no such listing of a part of a work tree; `whole` says that the whole is listed: no
/// path spec is written, and the command is called at the top.
///
/// See docs/DIFFERENCES.md#list-ignored-forms.
pub fn refusal_of_partial_ignored_directories(
    listing: &Listing,
    whole: bool,
) -> Option<WrongListing>
    ensures { result ≡ words.refusal_of_partial_ignored_directories listing.now whole }
{
    if listing.ignored & listing.directories & !whole {
        return Some(WrongListing::IgnoredDirectories);
    }
    None
}

/// Why there is no listing with what changed of an index, the first reason that git asks for; none
/// where there is one.
///
/// See docs/DIFFERENCES.md#list-ignored-forms.
/// See docs/DIFFERENCES.md#list-changed-and-others.
pub fn refusal_of_options_for_changes(listing: &Listing) -> Option<WrongListing>
    ensures { result ≡ words.refusal_of_options_for_changes listing.now }
{
    let first = refusal_if_ignored_option_given(listing);
    if first.is_some() {
        return first;
    }
    if listing.ignored {
        return Some(WrongListing::IgnoredIndex);
    }
    if needs_worktree_walk(listing) & listing.error_unmatch {
        return Some(WrongListing::UnmatchedOfBoth);
    }
    None
}
