//! Which entries may go by themselves.
ghost use Rattle.std.specs.Prelude.{◌≡◌, ◌&&◌, not, true, IfOk};
ghost use Rattle.gitbase_core.specs.Path.{is_empty_or_root_path};
ghost use Rattle.dir_classify.specs.Kinds.{is_plain_directory_kind};
ghost use Rattle.dir_walk.specs.Emissions.{is_unmatched_or_excluded};
ghost use Rattle.clean_plan.specs.Asked.{plan_inputs_of_cleaning};
ghost use Rattle.clean_plan.specs.Kept as kept;
ghost use Rattle.dir_classify.specs.Layers.{IsLookupOfIndexIfGiven};
ghost use Rattle.clean_plan.specs.Removable as removable;

use crate::closed::stays_in_spec_excluded_directory;
use crate::inputs::Cleaning;
use crate::kept::{is_nonroot_path_protected_from_clean, specs_exclude_directory};
use crate::what::What;
use dir_classify::{Entry, Kind, PathspecMatch, Status};
use gitbase_core::{Bytes, OutOfMemory, is_empty_or_root_path};
use glob_rules::ignore;
use std::alloc::Global;

/// Whether what is asked for may have this status.
fn is_status_requested_for_removal(what: What, status: Status) -> bool
    ensures { result ≡ removable.is_status_requested_for_removal what status }
{
    match status {
        Status::Untracked => matches!(what, What::Untracked | What::UntrackedAndIgnored),
        Status::Ignored(ignore::Kind::Expendable) => {
            matches!(what, What::UntrackedAndIgnored | What::IgnoredOnly)
        }
        Status::Ignored(ignore::Kind::Precious) => false,
        Status::Tracked => false,
        Status::Pruned => false,
    }
}

/// Whether something is on disk, and no repository.
fn exists_and_is_no_repository(kind: Option<Kind>) -> bool
    ensures { result ≡ removable.exists_and_is_no_repository kind }
{
    match kind {
        None | Some(Kind::Repository) => false,
        Some(Kind::Untrackable | Kind::File | Kind::Symlink | Kind::Directory) => true,
    }
}

/// Whether no path spec matches, or one takes out.
fn is_unmatched_or_excluded(found: Option<PathspecMatch>) -> bool
    ensures { result ≡ is_unmatched_or_excluded found }
{
    matches!(found, None | Some(PathspecMatch::Excluded))
}

/// Whether the path specs take out an entry's path as that of a directory.
fn is_directory_entry_excluded_by_specs(cleaning: &Cleaning<'_>, entry: &Entry) -> bool
    ensures { result ≡ (is_plain_directory_kind entry.now.disk_kind
        && kept.specs_exclude_directory cleaning.now.specs.now entry.now.rela_path) }
{
    match entry.disk_kind {
        Some(Kind::Directory) => specs_exclude_directory(
            cleaning.specs,
            entry.rela_path.as_bytes(),
        ),
        _ => false,
    }
}

/// Whether a path is kept.
fn is_root_or_protected_from_clean(
    alloc: Global,
    cleaning: &Cleaning<'_>,
    path: &[u8],
) -> Result<bool, OutOfMemory>
    requires lookup { IsLookupOfIndexIfGiven cleaning.now.index.now cleaning.now.lookup.now }
    ensures { IfOk result (λ stays. stays ≡ kept.is_nonroot_path_protected_from_clean
        (plan_inputs_of_cleaning cleaning.now) path.now) }
{
    if is_empty_or_root_path(path) {
        return Ok(true);
    }
    let mut prefix = Bytes::from_slice(alloc, path)?;
    prefix.extend(alloc, b"/")?;
    Ok(is_nonroot_path_protected_from_clean(cleaning, path, prefix.as_bytes()))
}

/// Whether an entry may go by itself, if its path is not kept.
fn passes_status_kind_and_specs(cleaning: &Cleaning<'_>, entry: &Entry) -> bool
    ensures { result ≡ removable.passes_status_kind_and_specs (plan_inputs_of_cleaning cleaning.now)
        entry.now }
{
    is_status_requested_for_removal(cleaning.what, entry.status)
        && exists_and_is_no_repository(entry.disk_kind)
        && !is_unmatched_or_excluded(entry.pathspec_match)
        && !is_directory_entry_excluded_by_specs(cleaning, entry)
}

/// Whether an entry may go by itself.
pub(crate) fn is_entry_removable_by_itself(
    alloc: Global,
    cleaning: &Cleaning<'_>,
    entry: &Entry,
) -> Result<bool, OutOfMemory>
    requires lookup { IsLookupOfIndexIfGiven cleaning.now.index.now cleaning.now.lookup.now }
    ensures { IfOk result (λ may. may ≡ removable.is_entry_removable_by_itself
        (plan_inputs_of_cleaning cleaning.now) entry.now) }
{
    if !passes_status_kind_and_specs(cleaning, entry) {
        return Ok(false);
    }
    if stays_in_spec_excluded_directory(alloc, cleaning, entry)? {
        return Ok(false);
    }
    Ok(!is_root_or_protected_from_clean(alloc, cleaning, entry.rela_path.as_bytes())?)
}
