//! What stays because it lies in a directory that path specs take out.
ghost use Rattle.std.specs.Prelude.{◌≡◌, ◌<◌, ◌&&◌, ◌∷◌, ◌++◌, [], false, length, take, IfOk};
ghost use Rattle.gitbase_core.specs.Path.{is_empty_or_root_path, is_beneath_directory};
ghost use Rattle.clean_plan.specs.Closed as words;

use crate::fronts::has_ancestor_of_length;
use crate::inputs::Cleaning;
use crate::kept::specs_exclude_directory;
use crate::what::TakenOut;
use dir_classify::{Entry, Kind};
use gitbase_core::{Bytes, OutOfMemory, is_empty_or_root_path};
use glob_rules::pathspec::Search;
use std::alloc::Global;

/// Whether path specs take out a directory that is not the top; `name` is its path and a slash.
fn specs_exclude_with_or_without_slash(specs: &Search, path: &[u8], name: &[u8]) -> bool
    requires name { name.now ≡ path.now ++ 47 ∷ [] }
    requires below { is_empty_or_root_path path.now ≡ false }
    ensures { result ≡ words.specs_exclude_with_or_without_slash specs.now path.now }
{
    specs_exclude_directory(specs, path) || specs_exclude_directory(specs, name)
}

/// Whether a path lies beneath its front of so many bytes, and path specs take that out.
fn has_spec_excluded_ancestor_of_length(specs: &Search, path: &[u8], at: usize) -> bool
    requires { at < length path.now }
    ensures { result ≡ (is_beneath_directory (take at path.now) path.now
        && words.specs_exclude_with_or_without_slash specs.now (take at path.now)) }
{
    if !has_ancestor_of_length(path, at) {
        return false;
    }
    if is_empty_or_root_path(&path[..at]) {
        return false;
    }
    specs_exclude_with_or_without_slash(specs, &path[..at], &path[..at + 1])
}

/// Whether a path lies in a directory that path specs take out.
fn lies_beneath_spec_excluded_directory(specs: &Search, path: &[u8]) -> bool
    ensures { result ≡ words.lies_beneath_spec_excluded_directory specs.now path.now }
{
    for at in 0..path.len() {
        if has_spec_excluded_ancestor_of_length(specs, path, at) {
            return true;
        }
    }
    false
}

/// Whether path specs take out a directory.
fn is_directory_excluded_by_specs(
    alloc: Global,
    specs: &Search,
    path: &[u8],
) -> Result<bool, OutOfMemory>
    ensures { IfOk result (λ out. out ≡ words.specs_exclude_with_or_without_slash specs.now
        path.now) }
{
    if is_empty_or_root_path(path) {
        return Ok(false);
    }
    let mut name = Bytes::from_slice(alloc, path)?;
    name.extend(alloc, b"/")?;
    Ok(specs_exclude_with_or_without_slash(specs, path, name.as_bytes()))
}

/// Whether an entry lies in a directory that path specs take out, or is one.
fn is_or_lies_in_directory_excluded_by_specs(
    alloc: Global,
    specs: &Search,
    entry: &Entry,
) -> Result<bool, OutOfMemory>
    ensures { IfOk result (λ out. out ≡ words.is_or_lies_in_directory_excluded_by_specs specs.now
        entry.now) }
{
    let path = entry.rela_path.as_bytes();
    if lies_beneath_spec_excluded_directory(specs, path) {
        return Ok(true);
    }
    match entry.disk_kind {
        Some(Kind::Directory) => is_directory_excluded_by_specs(alloc, specs, path),
        _ => Ok(false),
    }
}

/// Whether an entry stays for that.
#[tactic(auto, unfolding(crate::specs::Closed::stays_in_spec_excluded_directory))]
pub(crate) fn stays_in_spec_excluded_directory(
    alloc: Global,
    cleaning: &Cleaning<'_>,
    entry: &Entry,
) -> Result<bool, OutOfMemory>
    ensures { IfOk result (λ stays.
        stays ≡ words.stays_in_spec_excluded_directory cleaning.now.taken_out cleaning.now.specs.now
        entry.now) }
{
    match cleaning.taken_out {
        TakenOut::Open => Ok(false),
        TakenOut::Closed => is_or_lies_in_directory_excluded_by_specs(alloc, cleaning.specs, entry),
    }
}
