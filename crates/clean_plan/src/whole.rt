//! Which directories may go as a whole.
ghost use Rattle.std.specs.Prelude.{◌≡◌, ◌≤◌, ◌<◌, ◌+◌, ◌&&◌, ℕ, List, true, false, max, length, take, if◌then◌else◌};
ghost use Rattle.gitbase_core.specs.Path.{is_beneath_directory};
ghost use Rattle.clean_plan.specs.Above.{NoAncestorButMaybeSelfPasses, IsFirstPassingAncestorOrSelf, length_past_longest_passing_ancestor};
ghost use Rattle.clean_plan.specs.Asked.{plan_inputs_of_cleaning};
ghost use Rattle.clean_plan.specs.Kept as kept;
ghost use Rattle.dir_classify.specs.Layers.{IsLookupOfIndexIfGiven};
ghost use Rattle.clean_plan.specs.Whole.{is_directory_unblocked_and_removable};

use crate::fronts::has_ancestor_of_length;
use crate::inputs::Cleaning;
use crate::kept::{is_nonroot_path_protected_from_clean, specs_exclude_directory};
use crate::paths::Paths;
use crate::shared::shared_prefix_length;
use gitbase_core::{is_empty_or_root_path, is_prefix_by_whole_components};
use glob_rules::pathspec::Search;

/// Whether the directory that is the front of a path of so many bytes may go as a whole; `spoiled`
/// are those that have an entry in their way.
fn is_directory_unblocked_and_removable(
    cleaning: &Cleaning<'_>,
    spoiled: &Paths<'_>,
    path: &[u8],
    at: usize,
) -> bool
    requires lookup { IsLookupOfIndexIfGiven cleaning.now.index.now cleaning.now.lookup.now }
    requires front { at < length path.now }
    requires above { is_beneath_directory (take at path.now) path.now ≡ true }
    ensures { result ≡ is_directory_unblocked_and_removable (plan_inputs_of_cleaning cleaning.now)
        spoiled.now (take at path.now) }
{
    let front = &path[..at];
    if is_empty_or_root_path(front) {
        return false;
    }
    if spoiled.contains_path(front) {
        return false;
    }
    if !is_prefix_by_whole_components(cleaning.start, front) {
        return false;
    }
    !is_nonroot_path_protected_from_clean(cleaning, front, &path[..at + 1])
}

/// The same, if the path lies beneath that directory.
fn is_ancestor_unblocked_and_removable(
    cleaning: &Cleaning<'_>,
    spoiled: &Paths<'_>,
    path: &[u8],
    at: usize,
) -> bool
    requires lookup { IsLookupOfIndexIfGiven cleaning.now.index.now cleaning.now.lookup.now }
    requires front { at < length path.now }
    ensures { result ≡ (is_beneath_directory (take at path.now) path.now &&
        is_directory_unblocked_and_removable (plan_inputs_of_cleaning cleaning.now) spoiled.now
        (take at path.now)) }
{
    if !has_ancestor_of_length(path, at) {
        return false;
    }
    is_directory_unblocked_and_removable(cleaning, spoiled, path, at)
}

/// A path above which no directory may go as a whole, and whether it is that of one that may.
#[derive(Drop)]
pub struct Known<'a> {
    pub path: &'a [u8],
    pub is_whole: bool,
}

/// Whether a path lies beneath a known one that may go as a whole, which has as many bytes as the
/// two have in common.
fn lies_in_known_removable_directory(known: &Known<'_>, path: &[u8], shared: usize) -> bool
    requires { shared ≤ length path.now }
    ensures { result ≡ true → (known.now.is_whole ≡ true) × (shared ≡ length known.now.path.now)
        × (is_beneath_directory (take shared path.now) path.now ≡ true) }
{
    if !known.is_whole || shared != known.path.len() {
        return false;
    }
    shared < path.len() && has_ancestor_of_length(path, shared)
}

/// The first of the directories above a path, from the top on, that may go as a whole; the path
/// itself where there is none. Those that it has in common with a known path are not judged again.
pub(crate) fn target<'a>(
    cleaning: &Cleaning<'_>,
    spoiled: &Paths<'_>,
    known: &Known<'_>,
    path: &'a [u8],
) -> &'a [u8]
    requires lookup { IsLookupOfIndexIfGiven cleaning.now.index.now cleaning.now.lookup.now }
    requires known { NoAncestorButMaybeSelfPasses (is_directory_unblocked_and_removable
        (plan_inputs_of_cleaning cleaning.now) spoiled.now) known.now.path.now known.now.is_whole }
    ensures { IsFirstPassingAncestorOrSelf (is_directory_unblocked_and_removable
        (plan_inputs_of_cleaning cleaning.now) spoiled.now) path.now result.now }
{
    let shared = shared_prefix_length(known.path, path);
    if lies_in_known_removable_directory(known, path, shared) {
        return &path[..shared];
    }
    for at in shared..path.len() {
        if is_ancestor_unblocked_and_removable(cleaning, spoiled, path, at) {
            return &path[..at];
        }
    }
    path
}

/// Whether the path lies beneath its front of so many bytes, and the path specs take that out.
fn specs_exclude_ancestor_of_length(specs: &Search, path: &[u8], at: usize) -> bool
    requires { at < length path.now }
    ensures { result ≡ (is_beneath_directory (take at path.now) path.now
        && kept.specs_exclude_directory specs.now (take at path.now)) }
{
    has_ancestor_of_length(path, at) && specs_exclude_directory(specs, &path[..at])
}

/// The bytes of a front of a path and one more, if the path specs take that out; else what there
/// was.
fn length_past_ancestor_if_spec_excluded(
    specs: &Search,
    path: &[u8],
    at: usize,
    reach: usize,
) -> usize
    requires { at < length path.now }
    ensures { result ≡ (if is_beneath_directory (take at path.now) path.now
        && kept.specs_exclude_directory specs.now (take at path.now) then at + 1 else reach) }
{
    if specs_exclude_ancestor_of_length(specs, path, at) {
        return at + 1;
    }
    reach
}

/// One more than the bytes of the longest directory above a path that path specs take out, and
/// `begin` at least. None that has at least so many bytes, and fewer than `shared`, is taken out.
pub(crate) fn length_past_longest_spec_excluded_ancestor(
    specs: &Search,
    path: &[u8],
    begin: usize,
    shared: usize,
) -> usize
    requires begin { begin ≤ shared }
    requires shared { shared ≤ length path.now }
    requires none { (d : List ℕ) → is_beneath_directory d path.now ≡ true → begin ≤ length d
        → length d < shared → kept.specs_exclude_directory specs.now d ≡ false }
    ensures reach { result ≡ max begin (length_past_longest_passing_ancestor
        (kept.specs_exclude_directory specs.now) (length path.now) path.now) }
    ensures within { result ≤ length path.now }
{
    let mut reach = begin;
    for at in shared..path.len() {
        reach = length_past_ancestor_if_spec_excluded(specs, path, at, reach);
    }
    reach
}
