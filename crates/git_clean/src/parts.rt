//! What would go of a directory that cannot go itself.
ghost use Rattle.std.specs.Prelude.{◌≡◌, ◌<◌, IfOk, length, option_copied};
ghost use Rattle.git_clean.specs.Parts as words;
ghost use Rattle.git_clean.specs.Scenes.{scene_in_specification};

use crate::above::set_contains_directory;
use crate::places::lies_in_kept_directory;
use crate::removable::is_repository_or_dot_git_kept;
use crate::scene::Scene;
use dir_classify::Entry;
use dir_classify::entry::is_repository_kind;
use gitbase_core::{Bytes, OutOfMemory, is_beneath_directory, is_prefix_by_whole_components};
use std::alloc::Global;
use std::collections::BTreeSet;
use worktree_report::ReportEntry;

/// Whether a directory beneath another can go.
fn is_removable_subdirectory(
    alloc: Global,
    scene: &Scene<'_>,
    directory: &[u8],
    below: &[u8],
) -> Result<bool, OutOfMemory>
    ensures { IfOk result (λ free. free ≡ words.is_removable_subdirectory (scene_in_specification
        scene.now) directory.now below.now) }
{
    if !is_beneath_directory(directory, below) {
        return Ok(false);
    }
    let held = set_contains_directory(alloc, scene.held, below)?;
    Ok(!held)
}

/// Whether the directory that ends before a byte of a path can.
fn is_removable_subdirectory_ending_at(
    alloc: Global,
    scene: &Scene<'_>,
    directory: &[u8],
    path: &[u8],
    at: usize,
) -> Result<bool, OutOfMemory>
    requires { at < length path.now }
    ensures { IfOk result (λ free. free ≡ words.is_removable_subdirectory_ending_at
        (scene_in_specification scene.now) directory.now path.now at) }
{
    if path[at] != b'/' {
        return Ok(false);
    }
    is_removable_subdirectory(alloc, scene, directory, &path[..at])
}

/// The highest directory above a path and beneath another that can go, else the path itself.
fn topmost_removable_part<'a>(
    alloc: Global,
    scene: &Scene<'_>,
    directory: &[u8],
    path: &'a [u8],
) -> Result<&'a [u8], OutOfMemory>
    ensures { IfOk result (λ part. part.now ≡ words.topmost_removable_part (scene_in_specification
        scene.now) directory.now path.now) }
{
    let mut at = 0;
    while at < path.len() {
        if is_removable_subdirectory_ending_at(alloc, scene, directory, path, at)? {
            return Ok(&path[..at]);
        }
        at += 1;
    }
    Ok(path)
}

/// Whether an entry beneath a directory stays.
fn entry_stays_in_place(
    alloc: Global,
    scene: &Scene<'_>,
    entry: &Entry,
) -> Result<bool, OutOfMemory>
    ensures { IfOk result (λ left. left ≡ words.entry_stays_in_place (scene_in_specification
        scene.now) entry.now) }
{
    if is_repository_or_dot_git_kept(scene.cleaning, entry) {
        return Ok(true);
    }
    if lies_in_kept_directory(alloc, scene, entry.rela_path.as_bytes())? {
        return Ok(true);
    }
    set_contains_directory(alloc, scene.held, entry.rela_path.as_bytes())
}

/// What goes of a directory for an entry, if something does.
fn removable_part_for_entry(
    alloc: Global,
    scene: &Scene<'_>,
    directory: &[u8],
    entry: &Entry,
) -> Result<Option<Bytes>, OutOfMemory>
    ensures { IfOk result (λ part. part ≡ words.removable_part_for_entry (scene_in_specification
        scene.now) directory.now entry.now) }
{
    if !is_beneath_directory(directory, entry.rela_path.as_bytes()) {
        return Ok(None);
    }
    if entry_stays_in_place(alloc, scene, entry)? {
        return Ok(None);
    }
    let part = topmost_removable_part(alloc, scene, directory, entry.rela_path.as_bytes())?;
    Ok(Some(Bytes::from_slice(alloc, part)?))
}

/// What goes of a directory, each path once.
pub fn removable_parts_of_directory(
    alloc: Global,
    scene: &Scene<'_>,
    directory: &[u8],
) -> Result<BTreeSet<Bytes>, OutOfMemory>
    ensures { IfOk result (λ parts. parts.keys ≡ words.removable_parts_of_directory
        (scene_in_specification scene.now) directory.now) }
{
    let mut parts = BTreeSet::new(alloc);
    for entry in scene.found {
        if let Some(part) = removable_part_for_entry(alloc, scene, directory, &entry.entry)? {
            parts.insert(part)?;
        }
    }
    Ok(parts)
}

/// Whether an entry is a repository in a directory.
fn is_repository_beneath(directory: &[u8], entry: &Entry) -> bool
    ensures { result ≡ words.is_repository_beneath directory.now entry.now }
{
    is_beneath_directory(directory, entry.rela_path.as_bytes())
        && is_repository_kind(entry.disk_kind)
}

/// Whether an entry is a repository in a directory that is skipped.
pub fn is_skipped_repository_in(
    alloc: Global,
    scene: &Scene<'_>,
    directory: &[u8],
    entry: &Entry,
) -> Result<bool, OutOfMemory>
    ensures { IfOk result (λ skipped. skipped ≡ words.is_skipped_repository_in
        (scene_in_specification scene.now) directory.now entry.now) }
{
    if scene.cleaning.repositories || !is_repository_beneath(directory, entry) {
        return Ok(false);
    }
    let kept = lies_in_kept_directory(alloc, scene, entry.rela_path.as_bytes())?;
    Ok(!kept)
}

/// Whether an entry stays in the current directory.
fn stays_in_current_directory(scene: &Scene<'_>, entry: &ReportEntry) -> bool
    ensures { result ≡ words.stays_in_current_directory (scene_in_specification scene.now)
        entry.now }
{
    is_repository_or_dot_git_kept(scene.cleaning, &entry.entry)
        && is_prefix_by_whole_components(scene.prefix, entry.entry.rela_path.as_bytes())
}

/// Whether something does.
fn any_stays_in_current_directory(scene: &Scene<'_>) -> bool
    ensures { result ≡ words.any_stays_in_current_directory (scene_in_specification scene.now) }
{
    scene
        .found
        .iter()
        .any(|entry| stays_in_current_directory(scene, entry))
}

/// Whether the current directory is refused where a directory goes.
pub fn refuses_current_directory(scene: &Scene<'_>, directory: &[u8]) -> bool
    ensures { result ≡ words.refuses_current_directory (scene_in_specification scene.now)
        directory.now }
{
    if scene.prefix.is_empty() {
        return false;
    }
    if !is_prefix_by_whole_components(directory, scene.prefix) {
        return false;
    }
    !any_stays_in_current_directory(scene)
}
