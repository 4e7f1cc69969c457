//! The lines of a directory that cannot go itself.
ghost use Rattle.std.specs.Prelude.{◌≡◌, ◌++◌, ◌∷◌, [], true, IfOk, OnOk, drop};
ghost use Rattle.std.specs.List.{flat_map};
ghost use Rattle.git_clean.specs.Beneath.{AreSortedByPath};
ghost use Rattle.git_clean.specs.Lines as lines;
ghost use Rattle.git_clean.specs.Parts as parts;
ghost use Rattle.git_clean.specs.Scenes.{scene_in_specification};

use crate::beneath::entries_narrowed_to_directory_if_sorted;
use crate::line::{
    append_line_unless_quiet, would_refuse_current_directory_line, would_remove_words,
    would_skip_repository_words,
};
use crate::parts::{
    is_skipped_repository_in, refuses_current_directory, removable_parts_of_directory,
};
use crate::scene::Scene;
use git_paths::path_relative_to_prefix;
use gitbase_core::{Bytes, OutOfMemory};
use std::alloc::Global;
use worktree_report::ReportEntry;

/// What stands behind so many bytes of a path.
fn path_bytes_after_length(path: &[u8], length: usize) -> &[u8]
    ensures { result.now ≡ drop length path.now }
{
    if path.len() < length {
        return &[];
    }
    &path[length..]
}

/// The name of a directory, with a slash at its end, as it reads from the current one.
fn relative_name_of_directory(
    alloc: Global,
    prefix: &[u8],
    directory: &[u8],
) -> Result<Bytes, OutOfMemory>
    ensures { IfOk result (λ name. name ≡ lines.relative_name_of_directory prefix.now
        directory.now) }
{
    let mut name = Bytes::from_slice(alloc, directory)?;
    name.extend(alloc, b"/")?;
    let name = path_relative_to_prefix(alloc, name.as_bytes(), prefix)?;
    Ok(name)
}

/// A path in a directory, as it reads behind that directory's name.
fn relative_name_of_path_in_directory(
    alloc: Global,
    prefix: &[u8],
    directory: &[u8],
    path: &[u8],
) -> Result<Bytes, OutOfMemory>
    ensures { IfOk result (λ name. name ≡ lines.relative_name_of_path_in_directory prefix.now
        directory.now path.now) }
{
    let mut name = relative_name_of_directory(alloc, prefix, directory)?;
    name.extend(
        alloc,
        path_bytes_after_length(path, directory.len().saturating_add(1)),
    )?;
    Ok(name)
}

/// Adds the line of a path in a directory.
fn append_line_of_path_in_directory(
    alloc: Global,
    text: &mut Vec<u8>,
    scene: &Scene<'_>,
    words: &[u8],
    directory: &[u8],
    path: &[u8],
) -> Result<(), OutOfMemory>
    ensures { OnOk result (text.new.items ≡ text.old.items ++ lines.line_of_path_in_directory
        (scene_in_specification scene.now) words.now directory.now path.now) }
{
    let name = relative_name_of_path_in_directory(alloc, scene.prefix, directory, path)?;
    append_line_unless_quiet(text, scene.cleaning, words, name.as_bytes())
}

/// Adds the line of an entry, if it is a repository in the directory that is skipped.
fn append_line_if_repository_skipped(
    alloc: Global,
    text: &mut Vec<u8>,
    scene: &Scene<'_>,
    directory: &[u8],
    entry: &ReportEntry,
) -> Result<(), OutOfMemory>
    ensures { OnOk result (text.new.items ≡ text.old.items ++ lines.line_if_repository_skipped
        (scene_in_specification scene.now) directory.now entry.now) }
{
    if !is_skipped_repository_in(alloc, scene, directory, &entry.entry)? {
        return Ok(());
    }
    let path = entry.entry.rela_path.as_bytes();
    append_line_of_path_in_directory(
        alloc,
        text,
        scene,
        would_skip_repository_words(),
        directory,
        path,
    )
}

/// Adds the lines of the repositories in a directory that are skipped.
fn append_skipped_repository_lines(
    alloc: Global,
    text: &mut Vec<u8>,
    scene: &Scene<'_>,
    directory: &[u8],
) -> Result<(), OutOfMemory>
    ensures { OnOk result (text.new.items ≡ text.old.items
        ++ lines.skipped_repository_lines (scene_in_specification scene.now) directory.now) }
{
    for entry in scene.found {
        append_line_if_repository_skipped(alloc, text, scene, directory, entry)?;
    }
    Ok(())
}

/// Adds the line of the current directory, if it is refused.
fn append_line_if_current_directory_refused(
    text: &mut Vec<u8>,
    scene: &Scene<'_>,
    directory: &[u8],
) -> Result<(), OutOfMemory>
    ensures { OnOk result (text.new.items ≡ text.old.items ++
        lines.line_if_current_directory_refused (scene_in_specification scene.now) directory.now) }
{
    if !refuses_current_directory(scene, directory) {
        return Ok(());
    }
    text.extend_from_slice(would_refuse_current_directory_line())?;
    Ok(())
}

/// Adds the lines of what goes of a directory.
fn append_would_remove_lines_inside(
    alloc: Global,
    text: &mut Vec<u8>,
    scene: &Scene<'_>,
    directory: &[u8],
) -> Result<(), OutOfMemory>
    ensures { OnOk result (text.new.items ≡ text.old.items
        ++ lines.would_remove_lines_inside (scene_in_specification scene.now) directory.now) }
{
    for path in removable_parts_of_directory(alloc, scene, directory)? {
        append_line_of_path_in_directory(
            alloc,
            text,
            scene,
            would_remove_words(),
            directory,
            path.as_bytes(),
        )?;
    }
    Ok(())
}

/// The same scene, with the entries beneath a directory alone where paths do not fall.
fn scene_narrowed_to_directory_if_sorted<'a>(
    alloc: Global,
    scene: &Scene<'a>,
    rise: bool,
    directory: &[u8],
) -> Result<Scene<'a>, OutOfMemory>
    requires { rise ≡ true → AreSortedByPath scene.now.found.now }
    ensures skips { IfOk result (λ narrow. lines.skipped_repository_lines (scene_in_specification
        narrow) directory.now ≡ lines.skipped_repository_lines (scene_in_specification scene.now)
        directory.now) }
    ensures parts { IfOk result (λ narrow. lines.would_remove_lines_inside (scene_in_specification
        narrow) directory.now ≡ lines.would_remove_lines_inside (scene_in_specification scene.now)
        directory.now) }
{
    let found = entries_narrowed_to_directory_if_sorted(alloc, scene.found, rise, directory)?;
    Ok(scene.with_report_entries(found))
}

/// Adds the lines of a directory that cannot go itself; `rise` says that paths do not fall along
/// the entries.
pub fn append_lines_of_unremovable_directory(
    alloc: Global,
    text: &mut Vec<u8>,
    scene: &Scene<'_>,
    rise: bool,
    directory: &[u8],
) -> Result<(), OutOfMemory>
    requires { rise ≡ true → AreSortedByPath scene.now.found.now }
    ensures { OnOk result (text.new.items ≡ text.old.items
        ++ lines.lines_of_unremovable_directory (scene_in_specification scene.now) directory.now) }
{
    let narrow = scene_narrowed_to_directory_if_sorted(alloc, scene, rise, directory)?;
    append_skipped_repository_lines(alloc, text, &narrow, directory)?;
    append_line_if_current_directory_refused(text, scene, directory)?;
    append_would_remove_lines_inside(alloc, text, &narrow, directory)
}
