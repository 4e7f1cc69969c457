//! The patterns of `-x` and those of files of `-X`, where no other rules stand beside them.
ghost use Rattle.std.specs.Prelude.{◌≡◌, ◌∷◌, ◌<◌, [], false, filter, length, IfOk};
ghost use Rattle.worktree_report.specs.Excluding.{ignore_rules_of_text};
ghost use Rattle.worktree_stack.specs.Mappings.{case_by_ignore_case};
ghost use Rattle.ls_files.specs.Alone as words;

use crate::cached::uses_per_directory_ignore_rules;
use crate::options::Listing;
use crate::place::{Place, place_from_name};
use gitbase_core::{Bytes, OutOfMemory, PathText};
use glob_rules::Case;
use glob_rules::ignore::{List, ParseIgnore, Search};
use std::alloc::Global;
use worktree_report::Setup;

/// Whether there are patterns, and the walk asks no rules.
pub fn has_patterns_without_standard_or_directory_rules(listing: &Listing) -> bool
    ensures { result ≡ words.has_patterns_without_standard_or_directory_rules listing.now }
{
    listing.patterns && !uses_per_directory_ignore_rules(listing)
}

/// The listing of all that is looked at then.
pub fn options_without_ignored_if_only_patterns(listing: &Listing) -> Listing
    ensures { result ≡ words.options_without_ignored_if_only_patterns listing.now }
{
    let mut listing = *listing;
    if has_patterns_without_standard_or_directory_rules(&listing) {
        listing.ignored = false;
    }
    listing
}

/// Whether the last pattern that matches a path excludes it.
fn last_match_excludes_place(rules: &Search, case: Case, place: &Place<'_>) -> bool
    ensures { result ≡ words.last_match_excludes_place rules.now case place.now }
{
    let is_dir = Some(place.is_directory_path());
    match rules.pattern_matching_relative_path(place.path(), is_dir, case) {
        Some(found) => !found.pattern.is_negative(),
        None => false,
    }
}

/// Whether the directory that ends before a byte of a path is excluded.
fn is_excluded_directory_ending_at(rules: &Search, case: Case, path: &[u8], at: usize) -> bool
    requires { at < length path.now }
    ensures { result ≡ words.is_excluded_directory_ending_at rules.now case path.now at }
{
    if path[at] != b'/' {
        return false;
    }
    last_match_excludes_place(rules, case, &Place::new(&path[..at], true))
}

/// Whether patterns exclude a directory on the way to a path.
pub fn is_below_excluded_directory(rules: &Search, case: Case, path: &[u8]) -> bool
    ensures { result ≡ words.is_below_excluded_directory rules.now case path.now }
{
    let mut at = 0;
    while at < path.len() {
        if is_excluded_directory_ending_at(rules, case, path, at) {
            return true;
        }
        at += 1;
    }
    false
}

/// Whether a path is excluded.
fn is_excluded(rules: &Search, case: Case, place: &Place<'_>) -> bool
    ensures { result ≡ words.is_excluded rules.now case place.now }
{
    if is_below_excluded_directory(rules, case, place.path()) {
        return true;
    }
    last_match_excludes_place(rules, case, place)
}

/// Whether patterns exclude a path, or a directory above it; `is_dir` says whether a directory
/// stands at the path.
pub fn is_path_or_parent_excluded(rules: &Search, case: Case, path: &[u8], is_dir: bool) -> bool
    ensures { result ≡ words.is_excluded rules.now case
        (record { path = path.now; holds_names = is_dir }) }
{
    is_excluded(rules, case, &Place::new(path, is_dir))
}

/// Whether a name is shown.
fn is_name_kept_by_patterns(listing: &Listing, rules: &Search, case: Case, name: &[u8]) -> bool
    ensures { result ≡ words.is_name_kept_by_patterns listing.now rules.now case name.now }
{
    let is_excluded = is_excluded(rules, case, &place_from_name(name));
    if listing.ignored {
        return is_excluded;
    }
    !is_excluded
}

/// The patterns of a text.
fn list_of(alloc: Global, text: &[u8]) -> Result<List, OutOfMemory>
    ensures { IfOk result (λ list. list ≡ ignore_rules_of_text false text.now) }
{
    let parse = ParseIgnore {
        support_precious: false,
    };
    List::from_bytes(alloc, text, None, PathText::new(alloc), parse)
}

/// The patterns of two texts, the second ones above the first.
pub fn ignore_search_from_two_texts(
    alloc: Global,
    below: &[u8],
    above: &[u8],
) -> Result<Search, OutOfMemory>
    ensures { IfOk result (λ rules. rules ≡ ignore_rules_of_text false below.now ∷
        ignore_rules_of_text false above.now ∷ []) }
{
    let mut rules = Search::new(alloc);
    rules.push_list(alloc, list_of(alloc, below)?)?;
    rules.push_list(alloc, list_of(alloc, above)?)?;
    Ok(rules)
}

/// How the letters of names compare.
pub fn case_from_ignore_case(ignore_case: bool) -> Case
    ensures { result ≡ case_by_ignore_case ignore_case }
{
    if ignore_case {
        Case::Fold
    } else {
        Case::Sensitive
    }
}

/// Of some names those that are shown.
fn names_kept_by_ignore_search(
    alloc: Global,
    listing: &Listing,
    rules: &Search,
    case: Case,
    names: Vec<Bytes>,
) -> Result<Vec<Bytes>, OutOfMemory>
    ensures { IfOk result (λ left. left.items
        ≡ filter (words.is_name_kept_by_patterns listing.now rules.now case) names.items) }
{
    let mut left = Vec::new(alloc);
    for name in names {
        if is_name_kept_by_patterns(listing, rules, case, name.as_bytes()) {
            left.push(name)?;
        }
    }
    Ok(left)
}

/// Of the names of what the index does not have those that are shown.
///
/// See docs/DECISIONS.md#patterns-alone.
pub fn filter_names_if_only_patterns(
    alloc: Global,
    listing: &Listing,
    setup: &Setup,
    names: Vec<Bytes>,
) -> Result<Vec<Bytes>, OutOfMemory>
    ensures { IfOk result (λ left. left.items ≡ words.filter_names_if_only_patterns listing.now
        setup.now names.items) }
{
    if !has_patterns_without_standard_or_directory_rules(listing) {
        return Ok(names);
    }
    let rules = ignore_search_from_two_texts(
        alloc,
        setup.globals.as_bytes(),
        setup.overrides.as_bytes(),
    )?;
    names_kept_by_ignore_search(
        alloc,
        listing,
        &rules,
        case_from_ignore_case(setup.options.ignore_case),
        names,
    )
}
