//! What is listed of an index where that alone is asked for which rules exclude.
ghost use Rattle.std.specs.Prelude.{◌≡◌, IfOk, Ok};
ghost use Rattle.worktree_stack.specs.Mappings.{case_by_ignore_case};
ghost use Rattle.ls_files.specs.Alone.{rules_from_setup_patterns};
ghost use Rattle.ls_files.specs.Excluded as words;
ghost use Rattle.ls_files.specs.Finds.{FindsInWorktree};

use crate::alone::{
    case_from_ignore_case, has_patterns_without_standard_or_directory_rules,
    ignore_search_from_two_texts, is_path_or_parent_excluded,
};
use crate::cached::needs_worktree_walk;
use crate::entries::Entries;
use crate::excluded_error::ExcludedError;
use crate::is_directory_at::is_worktree_path_directory;
use crate::listed::{Listed, output_and_errors_of_index_entries};
use crate::options::{Listing, NamedSpec};
use crate::ruled_out::entries_excluded_by_setup_rules;
use crate::wrong::{WrongListing, has_any_exclude_rules, has_sparse_directory_entry};
use gitbase_core::{IndexEntry, OutOfMemory, State};
use glob_rules::Case;
use glob_rules::ignore::Search;
use std::alloc::Global;
use worktree_fs::Worktree;
use worktree_report::Setup;

/// Whether that alone is listed of the index which rules exclude, and nothing else.
pub fn lists_only_ignored_index_entries(listing: &Listing) -> bool
    ensures { result ≡ words.lists_only_ignored_index_entries listing.now }
{
    listing.ignored && listing.cached && !needs_worktree_walk(listing)
}

/// Why there is no such listing of an index, the first reason that git asks for; none where there
/// is one.
///
/// See docs/DIFFERENCES.md#list-sparse-index.
pub fn refusal_if_no_rules_or_sparse(listing: &Listing, index: &State) -> Option<WrongListing>
    ensures { result ≡ words.refusal_if_no_rules_or_sparse listing.now index.now }
{
    if !has_any_exclude_rules(listing) {
        return Some(WrongListing::IgnoredWithoutRules);
    }
    if has_sparse_directory_entry(index.entries()) {
        return Some(WrongListing::SparseIndex);
    }
    None
}

/// Whether patterns exclude an entry, by what stands at its path.
fn do_patterns_exclude_entry<W: Worktree>(
    alloc: Global,
    worktree: &mut W,
    root: &[u8],
    patterns: &Search,
    case: Case,
    entry: &IndexEntry,
) -> Result<bool, ExcludedError>
    ensures { FindsInWorktree W.Worktree worktree.old worktree.new
        (λ t. Ok (words.do_patterns_exclude_entry t root.now patterns.now case entry.now)) result }
{
    let path = entry.path.as_bytes();
    let is_dir = is_worktree_path_directory(alloc, worktree, root, path)?;
    Ok(is_path_or_parent_excluded(patterns, case, path, is_dir))
}

/// The entries that patterns exclude.
fn entries_excluded_by_patterns<W: Worktree>(
    alloc: Global,
    worktree: &mut W,
    root: &[u8],
    patterns: &Search,
    case: Case,
    entries: &[IndexEntry],
) -> Result<Entries, ExcludedError>
    ensures { FindsInWorktree W.Worktree worktree.old worktree.new
        (λ t. Ok (words.entries_excluded_by_patterns t root.now patterns.now case entries.now))
        result }
{
    let mut done = Entries::new(alloc);
    for entry in entries {
        let excluded = do_patterns_exclude_entry(alloc, worktree, root, patterns, case, entry)?;
        done.push_copy_if_excluded(alloc, entry, excluded)?;
    }
    Ok(done)
}

/// The entries of the index of a setup that its patterns exclude.
fn entries_excluded_by_setup_patterns<W: Worktree>(
    alloc: Global,
    worktree: &mut W,
    root: &[u8],
    setup: &Setup,
) -> Result<Entries, ExcludedError>
    ensures { FindsInWorktree W.Worktree worktree.old worktree.new
        (λ t. Ok (words.entries_excluded_by_patterns t root.now (rules_from_setup_patterns
        setup.now) (case_by_ignore_case setup.now.options.ignore_case) setup.now.index)) result }
{
    let patterns = ignore_search_from_two_texts(
        alloc,
        setup.globals.as_bytes(),
        setup.overrides.as_bytes(),
    )?;
    let case = case_from_ignore_case(setup.options.ignore_case);
    let entries = setup.index.entries();
    entries_excluded_by_patterns(alloc, worktree, root, &patterns, case, entries)
}

/// The entries of the index of a setup that are excluded.
fn excluded_entries_of_setup<W: Worktree>(
    alloc: Global,
    worktree: &mut W,
    root: &[u8],
    setup: &Setup,
    listing: &Listing,
) -> Result<Entries, ExcludedError>
    ensures { FindsInWorktree W.Worktree worktree.old worktree.new
        (λ t. words.excluded_entries_of_setup t root.now setup.now listing.now) result }
{
    if has_patterns_without_standard_or_directory_rules(listing) {
        return entries_excluded_by_setup_patterns(alloc, worktree, root, setup);
    }
    entries_excluded_by_setup_rules(alloc, worktree, root, setup)
}

/// What is listed of entries.
fn output_and_errors_of_excluded(
    alloc: Global,
    listing: &Listing,
    prefix: &[u8],
    named: &[NamedSpec],
    setup: &Setup,
    entries: &Entries,
) -> Result<Listed, OutOfMemory>
    ensures { IfOk result (λ made. made ≡ words.output_and_errors_of_excluded listing.now prefix.now
        named.now setup.now entries.now) }
{
    output_and_errors_of_index_entries(
        alloc,
        listing,
        prefix,
        named,
        &setup.specs,
        entries.as_slice(),
    )
}

/// What `git ls-files -i -c` lists of the work tree at `root`, called in its directory `prefix`:
/// the entries of the index that the rules of the setup exclude, each as an index is listed that
/// has these alone. That rule decides about an entry which would decide about its path if the index
/// did not have it: patterns of the setup come first, then those of the directories above, the
/// nearest first, and then those outside the work tree; and a directory that is excluded keeps all
/// beneath it excluded. Whether a path is that of a directory says what stands there, and not the
/// index.
///
/// See docs/DECISIONS.md#excluded-by-what-stands-there.
///
/// The listing has to be one that [`refusal_if_no_rules_or_sparse`] does not refuse, and the setup
/// is found as for [`list_files_of_worktree`](crate::list_files_of_worktree).
///
/// # Errors
///
/// - `Unread`: a rules file above an entry is not read, for one of the reasons of
///   [`AtPathError`](worktree_stack::AtPathError).
/// - `Fault`: the worktree failed, and counted it.
/// - `OutOfMemory`: memory was refused.
#[tactic(auto, unfolding(crate::specs::Excluded::output_of_ignored_index_or_error))]
pub fn list_ignored_index_entries<W: Worktree>(
    alloc: Global,
    worktree: &mut W,
    root: &[u8],
    setup: &Setup,
    listing: &Listing,
    prefix: &[u8],
    named: &[NamedSpec],
) -> Result<Listed, ExcludedError>
    ensures { FindsInWorktree W.Worktree worktree.old worktree.new
        (λ t. words.output_of_ignored_index_or_error t root.now setup.now listing.now prefix.now
        named.now) result }
{
    let entries = excluded_entries_of_setup(alloc, worktree, root, setup, listing)?;
    Ok(output_and_errors_of_excluded(alloc, listing, prefix, named, setup, &entries)?)
}
