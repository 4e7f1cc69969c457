//! Which paths are kept, whatever stands there.
ghost use Rattle.std.specs.Prelude.{◌≡◌, ◌∷◌, ◌++◌, ℕ, List, [], false, true, is_some};
ghost use Rattle.gitbase_core.specs.Lookup.{IsCaseFoldedLookupOfEntries};
ghost use Rattle.gitbase_core.specs.Path.{is_empty_or_root_path};
ghost use Rattle.clean_plan.specs.Asked.{plan_inputs_of_cleaning};
ghost use Rattle.clean_plan.specs.Kept as kept;
ghost use Rattle.dir_classify.specs.Layers.{IsLookupOfIndexIfGiven};

use crate::inputs::Cleaning;
use gitbase_core::{
    AccelerateLookup, PathText, State, is_dot_git_ignoring_case, is_prefix_by_whole_components,
    split_first_component,
};
use glob_rules::pathspec::{Match, Matcher, Search};

/// Whether a component of a path is `.git`, whatever the case of the letters.
fn has_dot_git_component(path: &[u8]) -> bool
    ensures { result ≡ kept.has_dot_git_component path.now }
{
    let mut rest = path;
    while let Some((name, after)) = split_first_component(rest) {
        if is_dot_git_ignoring_case(name) {
            return true;
        }
        rest = after;
    }
    false
}

/// Whether the current directory is at a path or beneath it.
fn is_current_dir_at_or_beneath(current: &Option<PathText>, path: &[u8]) -> bool
    ensures { result ≡ kept.is_current_dir_at_or_beneath current.now path.now }
{
    match current {
        Some(current) => is_prefix_by_whole_components(path, current.as_bytes()),
        None => false,
    }
}

/// Whether the index has an entry at a path or beneath it, letters compared as they stand; `prefix`
/// is the path and a slash.
fn has_index_entry_in_exact_case(index: &State, path: &[u8], prefix: &[u8]) -> bool
    requires prefix { prefix.now ≡ path.now ++ 47 ∷ [] }
    requires below { is_empty_or_root_path path.now ≡ false }
    ensures { result ≡ kept.has_index_entry_at_or_below_path false index.now path.now }
{
    index.entry_by_path(path).is_some() || index.prefixed_entries_range(prefix).is_some()
}

/// The same where letters compare without regard to their case.
fn has_index_entry_ignoring_case(index: &State, lookup: &AccelerateLookup, path: &[u8]) -> bool
    requires { IsCaseFoldedLookupOfEntries index.now lookup.now }
    ensures { result ≡ kept.has_index_entry_at_or_below_path true index.now path.now }
{
    index.has_entry_at_path_icase(path, lookup)
        || index.has_entry_beneath_directory_icase(path, lookup)
}

/// Whether the index has an entry at a path or beneath it; `prefix` is the path and a slash.
fn has_index_entry_at_or_below_path(cleaning: &Cleaning<'_>, path: &[u8], prefix: &[u8]) -> bool
    requires lookup { IsLookupOfIndexIfGiven cleaning.now.index.now cleaning.now.lookup.now }
    requires prefix { prefix.now ≡ path.now ++ 47 ∷ [] }
    requires below { is_empty_or_root_path path.now ≡ false }
    ensures { result ≡ kept.has_index_entry_at_or_below_path (is_some cleaning.now.lookup.now)
        cleaning.now.index.now path.now }
{
    match cleaning.lookup {
        Some(lookup) => has_index_entry_ignoring_case(cleaning.index, lookup, path),
        None => has_index_entry_in_exact_case(cleaning.index, path, prefix),
    }
}

/// Whether a path is kept that is not the top; `prefix` is the path and a slash.
///
/// See docs/DECISIONS.md#plan-root-kept.
pub(crate) fn is_nonroot_path_protected_from_clean(
    cleaning: &Cleaning<'_>,
    path: &[u8],
    prefix: &[u8],
) -> bool
    requires lookup { IsLookupOfIndexIfGiven cleaning.now.index.now cleaning.now.lookup.now }
    requires prefix { prefix.now ≡ path.now ++ 47 ∷ [] }
    requires below { is_empty_or_root_path path.now ≡ false }
    ensures { result ≡ kept.is_nonroot_path_protected_from_clean (plan_inputs_of_cleaning
        cleaning.now) path.now }
{
    has_dot_git_component(path)
        || is_current_dir_at_or_beneath(cleaning.current, path)
        || has_index_entry_at_or_below_path(cleaning, path, prefix)
}

/// Whether a match takes out.
fn is_excluding_spec_match(found: Option<Match>) -> bool
    ensures { result ≡ kept.is_excluding_spec_match found }
{
    match found {
        Some(found) => found.is_excluded(),
        None => false,
    }
}

/// Whether path specs take out the directory at a path.
pub(crate) fn specs_exclude_directory(specs: &Search, path: &[u8]) -> bool
    ensures { result ≡ kept.specs_exclude_directory specs.now path.now }
{
    is_excluding_spec_match(specs.pattern_matching_relative_path(path, Some(true)))
}
