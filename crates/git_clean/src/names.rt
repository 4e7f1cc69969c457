//! The names of what would go.
ghost use Rattle.std.specs.Prelude.{◌≡◌, IfOk};
ghost use Rattle.ls_files.specs.Others as others;
ghost use Rattle.git_clean.specs.Places as words;
ghost use Rattle.git_clean.specs.Scenes.{scene_in_specification};

use crate::places::{
    highest_removed_directory_above, lies_in_kept_directory, lies_in_unindexed_unmarked_directory,
    scene_specs_take_directory_whole,
};
use crate::removable::{
    is_entry_matched_and_removable, is_untracked_status, name, place_of_entry, specs_include_entry,
};
use crate::scene::Scene;
use dir_classify::Entry;
use dir_classify::entry::is_some_directory_kind;
use gitbase_core::{Bytes, OutOfMemory, State};
use ls_files::{Place, lies_in_spec_skipped_directory};
use std::alloc::Global;
use std::collections::BTreeSet;

/// Whether git comes to a place.
fn is_place_outside_skipped_directory(
    alloc: Global,
    scene: &Scene<'_>,
    place: &Place<'_>,
) -> Result<bool, OutOfMemory>
    ensures { IfOk result (λ seen. seen ≡ words.is_place_outside_skipped_directory
        (scene_in_specification scene.now) (others.name place.now)) }
{
    let name = name(alloc, place)?;
    Ok(!lies_in_spec_skipped_directory(scene.index, scene.named, name.as_bytes()))
}

/// Whether an entry that git comes to may go by itself.
fn is_visited_and_removable(
    alloc: Global,
    scene: &Scene<'_>,
    entry: &Entry,
) -> Result<bool, OutOfMemory>
    ensures { IfOk result (λ goes. goes ≡ words.is_visited_and_removable (scene_in_specification
        scene.now) entry.now) }
{
    if !is_entry_matched_and_removable(alloc, scene.cleaning, scene.specs, entry)? {
        return Ok(false);
    }
    is_place_outside_skipped_directory(alloc, scene, &place_of_entry(entry))
}

/// Whether a directory goes for an entry that it holds.
fn may_parent_go_for_entry(
    alloc: Global,
    scene: &Scene<'_>,
    entry: &Entry,
) -> Result<bool, OutOfMemory>
    ensures { IfOk result (λ fills. fills ≡ words.may_parent_go_for_entry (scene_in_specification
        scene.now) entry.now) }
{
    if scene.cleaning.ignored_only {
        return is_visited_and_removable(alloc, scene, entry);
    }
    specs_include_entry(alloc, scene.specs, entry)
}

/// The directory that goes for an entry, if one does.
fn removed_whole_directory_above_entry<'a>(
    alloc: Global,
    scene: &Scene<'_>,
    entry: &'a Entry,
) -> Result<Option<Place<'a>>, OutOfMemory>
    ensures { IfOk result (λ place. place ≡ words.removed_whole_directory_above_entry
        (scene_in_specification scene.now) entry.now) }
{
    if !may_parent_go_for_entry(alloc, scene, entry)? {
        return Ok(None);
    }
    match highest_removed_directory_above(alloc, scene, entry.rela_path.as_bytes())? {
        Some(path) => Ok(Some(Place::new(path, true))),
        None => Ok(None),
    }
}

/// Whether the path specs let an entry go that stands for a directory, if it does.
fn do_specs_take_entry_if_directory(
    alloc: Global,
    scene: &Scene<'_>,
    entry: &Entry,
) -> Result<bool, OutOfMemory>
    ensures { IfOk result (λ goes. goes ≡ words.do_specs_take_entry_if_directory
        (scene_in_specification scene.now) entry.now) }
{
    if is_some_directory_kind(entry.disk_kind) && is_untracked_status(entry.status) {
        return scene_specs_take_directory_whole(alloc, scene, entry.rela_path.as_bytes());
    }
    Ok(true)
}

/// The place of an entry itself, if it goes.
fn entry_place_if_removed<'a>(
    alloc: Global,
    scene: &Scene<'_>,
    entry: &'a Entry,
) -> Result<Option<Place<'a>>, OutOfMemory>
    ensures { IfOk result (λ place. place ≡ words.entry_place_if_removed (scene_in_specification
        scene.now) entry.now) }
{
    if !is_entry_matched_and_removable(alloc, scene.cleaning, scene.specs, entry)? {
        return Ok(None);
    }
    if do_specs_take_entry_if_directory(alloc, scene, entry)? {
        return Ok(Some(place_of_entry(entry)));
    }
    Ok(None)
}

/// The same, where directories are passed over.
fn entry_place_unless_below_unindexed<'a>(
    alloc: Global,
    scene: &Scene<'_>,
    entry: &'a Entry,
) -> Result<Option<Place<'a>>, OutOfMemory>
    ensures { IfOk result (λ place. place ≡ words.entry_place_unless_below_unindexed
        (scene_in_specification scene.now) entry.now) }
{
    if lies_in_unindexed_unmarked_directory(alloc, scene, entry.rela_path.as_bytes())? {
        return Ok(None);
    }
    entry_place_if_removed(alloc, scene, entry)
}

/// The directory that goes for an entry, else the entry itself.
fn whole_directory_or_entry<'a>(
    alloc: Global,
    scene: &Scene<'_>,
    entry: &'a Entry,
) -> Result<Option<Place<'a>>, OutOfMemory>
    ensures { IfOk result (λ place. place ≡ words.whole_directory_or_entry (scene_in_specification
        scene.now) entry.now) }
{
    match removed_whole_directory_above_entry(alloc, scene, entry)? {
        Some(place) => Ok(Some(place)),
        None => entry_place_if_removed(alloc, scene, entry),
    }
}

/// What goes for an entry.
fn removal_place_of_entry<'a>(
    alloc: Global,
    scene: &Scene<'_>,
    entry: &'a Entry,
) -> Result<Option<Place<'a>>, OutOfMemory>
    ensures { IfOk result (λ place. place ≡ words.removal_place_of_entry (scene_in_specification
        scene.now) entry.now) }
{
    if lies_in_kept_directory(alloc, scene, entry.rela_path.as_bytes())? {
        return Ok(None);
    }
    if scene.cleaning.directories {
        return whole_directory_or_entry(alloc, scene, entry);
    }
    entry_place_unless_below_unindexed(alloc, scene, entry)
}

/// Whether an entry of the index stands at a path.
fn has_index_entry_at(index: &State, path: &[u8]) -> bool
    ensures { result ≡ others.has_index_entry_at index.now path.now }
{
    index.entry_by_path(path).is_some()
}

/// The name of what goes, unless the index has the path.
fn name_unless_indexed(
    alloc: Global,
    index: &State,
    place: &Place<'_>,
) -> Result<Option<Bytes>, OutOfMemory>
    ensures { IfOk result (λ name. name ≡ others.name_of_place_unless_indexed index.now place.now) }
{
    if has_index_entry_at(index, place.path()) {
        return Ok(None);
    }
    Ok(Some(name(alloc, place)?))
}

/// The name of a place that git comes to, unless the index has the path.
fn name_if_visited_and_unindexed(
    alloc: Global,
    scene: &Scene<'_>,
    place: &Place<'_>,
) -> Result<Option<Bytes>, OutOfMemory>
    ensures { IfOk result (λ name. name ≡ words.name_if_visited_and_unindexed
        (scene_in_specification scene.now) place.now) }
{
    if is_place_outside_skipped_directory(alloc, scene, place)? {
        return name_unless_indexed(alloc, scene.index, place);
    }
    Ok(None)
}

/// The name of what goes for an entry, if something does.
fn removal_name_of_entry(
    alloc: Global,
    scene: &Scene<'_>,
    entry: &Entry,
) -> Result<Option<Bytes>, OutOfMemory>
    ensures { IfOk result (λ name. name ≡ words.removal_name_of_entry (scene_in_specification
        scene.now) entry.now) }
{
    match removal_place_of_entry(alloc, scene, entry)? {
        Some(place) => name_if_visited_and_unindexed(alloc, scene, &place),
        None => Ok(None),
    }
}

/// The names of what goes, each once.
pub fn names_of_removed(alloc: Global, scene: &Scene<'_>) -> Result<BTreeSet<Bytes>, OutOfMemory>
    ensures { IfOk result (λ names. names.keys ≡ words.names_of_removed (scene_in_specification
        scene.now)) }
{
    let mut names = BTreeSet::new(alloc);
    for entry in scene.found {
        if let Some(name) = removal_name_of_entry(alloc, scene, &entry.entry)? {
            names.insert(name)?;
        }
    }
    Ok(names)
}
