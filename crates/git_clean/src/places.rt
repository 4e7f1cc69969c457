//! Which directories go in the place of what they hold, and which paths are kept.
ghost use Rattle.std.specs.Prelude.{◌≡◌, ◌<◌, IfOk, length, option_copied};
ghost use Rattle.ls_files.specs.Others as others;
ghost use Rattle.git_clean.specs.Places as words;
ghost use Rattle.git_clean.specs.Scenes.{scene_in_specification};

use crate::above::set_contains_directory;
use crate::leading_pathspec::specs_take_directory_whole;
use crate::removable::name;
use crate::scene::Scene;
use gitbase_core::{EntryKind, OutOfMemory, State};
use ls_files::Place;
use std::alloc::Global;

/// Whether the index has a submodule at a path where it has this kind.
fn is_submodule_index_kind(kind: Option<EntryKind>) -> bool
    ensures { result ≡ words.is_submodule_index_kind kind }
{
    matches!(kind, Some(EntryKind::Repository))
}

/// Whether a directory is kept with all that it holds.
fn holds_dot_git_or_is_submodule(
    alloc: Global,
    scene: &Scene<'_>,
    directory: &[u8],
) -> Result<bool, OutOfMemory>
    ensures { IfOk result (λ kept. kept
        ≡ words.holds_dot_git_or_is_submodule (scene_in_specification scene.now) directory.now) }
{
    if set_contains_directory(alloc, scene.guarded, directory)? {
        return Ok(true);
    }
    Ok(is_submodule_index_kind(scene.index.kinds(directory).kind))
}

/// Whether the directory that ends before a byte of a path is kept.
fn is_kept_directory_before_slash_at(
    alloc: Global,
    scene: &Scene<'_>,
    path: &[u8],
    at: usize,
) -> Result<bool, OutOfMemory>
    requires { at < length path.now }
    ensures { IfOk result (λ kept. kept
        ≡ words.is_kept_directory_before_slash_at (scene_in_specification scene.now) path.now at) }
{
    if path[at] != b'/' {
        return Ok(false);
    }
    holds_dot_git_or_is_submodule(alloc, scene, &path[..at])
}

/// Whether a path is kept: a directory above it is.
pub fn lies_in_kept_directory(
    alloc: Global,
    scene: &Scene<'_>,
    path: &[u8],
) -> Result<bool, OutOfMemory>
    ensures { IfOk result (λ kept. kept ≡ words.lies_in_kept_directory (scene_in_specification
        scene.now) path.now) }
{
    let mut at = 0;
    while at < path.len() {
        if is_kept_directory_before_slash_at(alloc, scene, path, at)? {
            return Ok(true);
        }
        at += 1;
    }
    Ok(false)
}

/// Whether the index has something in a directory.
fn has_index_entry_beneath(
    alloc: Global,
    index: &State,
    directory: &[u8],
) -> Result<bool, OutOfMemory>
    ensures { IfOk result (λ has. has ≡ others.has_index_entry_beneath index.now
        (others.name (others.directory_place_of_path directory.now))) }
{
    let name = name(alloc, &Place::new(directory, true))?;
    let has = index.prefixed_entries_range(name.as_bytes()).is_some();
    Ok(has)
}

/// Whether the index has nothing in a directory that is not marked.
fn is_directory_unindexed_and_unmarked(
    alloc: Global,
    scene: &Scene<'_>,
    directory: &[u8],
) -> Result<bool, OutOfMemory>
    ensures { IfOk result (λ hidden. hidden ≡ words.is_directory_unindexed_and_unmarked
        (scene_in_specification scene.now) directory.now) }
{
    if has_index_entry_beneath(alloc, scene.index, directory)? {
        return Ok(false);
    }
    let marked = set_contains_directory(alloc, scene.marked, directory)?;
    Ok(!marked)
}

/// Whether the directory that ends before a byte of a path is one.
fn unindexed_unmarked_directory_ends_at(
    alloc: Global,
    scene: &Scene<'_>,
    path: &[u8],
    at: usize,
) -> Result<bool, OutOfMemory>
    requires { at < length path.now }
    ensures { IfOk result (λ hidden. hidden ≡ words.unindexed_unmarked_directory_ends_at
        (scene_in_specification scene.now) path.now at) }
{
    if path[at] != b'/' {
        return Ok(false);
    }
    is_directory_unindexed_and_unmarked(alloc, scene, &path[..at])
}

/// Whether a path lies beneath such a directory.
pub fn lies_in_unindexed_unmarked_directory(
    alloc: Global,
    scene: &Scene<'_>,
    path: &[u8],
) -> Result<bool, OutOfMemory>
    ensures { IfOk result (λ hidden. hidden ≡ words.lies_in_unindexed_unmarked_directory
        (scene_in_specification scene.now) path.now) }
{
    let mut at = 0;
    while at < path.len() {
        if unindexed_unmarked_directory_ends_at(alloc, scene, path, at)? {
            return Ok(true);
        }
        at += 1;
    }
    Ok(false)
}

/// Whether the path specs let a directory go as a whole.
pub fn scene_specs_take_directory_whole(
    alloc: Global,
    scene: &Scene<'_>,
    directory: &[u8],
) -> Result<bool, OutOfMemory>
    ensures { IfOk result (λ taken. taken ≡ words.scene_specs_take_directory_whole
        (scene_in_specification scene.now) directory.now) }
{
    let name = name(alloc, &Place::new(directory, true))?;
    let taken = specs_take_directory_whole(scene.specs, scene.named, name.as_bytes(), directory);
    Ok(taken)
}

/// Whether a directory goes as a whole.
fn directory_goes_whole(
    alloc: Global,
    scene: &Scene<'_>,
    directory: &[u8],
) -> Result<bool, OutOfMemory>
    ensures { IfOk result (λ goes. goes ≡ words.directory_goes_whole (scene_in_specification
        scene.now) directory.now) }
{
    if !is_directory_unindexed_and_unmarked(alloc, scene, directory)? {
        return Ok(false);
    }
    scene_specs_take_directory_whole(alloc, scene, directory)
}

/// Whether the directory that ends before a byte of a path does.
fn directory_ending_at_goes_whole(
    alloc: Global,
    scene: &Scene<'_>,
    path: &[u8],
    at: usize,
) -> Result<bool, OutOfMemory>
    requires { at < length path.now }
    ensures { IfOk result (λ goes. goes ≡ words.directory_ending_at_goes_whole
        (scene_in_specification scene.now) path.now at) }
{
    if path[at] != b'/' {
        return Ok(false);
    }
    directory_goes_whole(alloc, scene, &path[..at])
}

/// The highest directory above a path that goes as a whole.
pub fn highest_removed_directory_above<'a>(
    alloc: Global,
    scene: &Scene<'_>,
    path: &'a [u8],
) -> Result<Option<&'a [u8]>, OutOfMemory>
    ensures { IfOk result (λ found. option_copied found ≡ words.highest_removed_directory_above
        (scene_in_specification scene.now) path.now) }
{
    let mut at = 0;
    while at < path.len() {
        if directory_ending_at_goes_whole(alloc, scene, path, at)? {
            return Ok(Some(&path[..at]));
        }
        at += 1;
    }
    Ok(None)
}
