//! What would go, by the entries of a report.
ghost use Rattle.std.specs.Prelude.{◌≡◌, ◌++◌, true, IfOk, OnOk};
ghost use Rattle.gitbase_core.specs.Path as paths;
ghost use Rattle.git_clean.specs.Beneath.{AreSortedByPath};
ghost use Rattle.git_clean.specs.Cleaned as words;
ghost use Rattle.git_clean.specs.Lines as lines;
ghost use Rattle.git_clean.specs.Scenes.{scene_in_specification};

use crate::above::set_contains_directory;
use crate::beneath::is_sorted_by_path;
use crate::inside::append_lines_of_unremovable_directory;
use crate::line::{append_line_unless_quiet, would_remove_words};
use crate::names::names_of_removed;
use crate::options::Cleaning;
use crate::ruled::entries_ignored_by_sole_patterns;
use crate::scene::Scene;
use crate::sets::{
    directories_holding_dot_git, directories_marked_against_removal, directories_that_must_stay,
};
use git_paths::path_relative_to_prefix;
use gitbase_core::{Bytes, OutOfMemory};
use ls_files::NamedSpec;
use std::alloc::Global;
use worktree_report::{ReportEntry, Setup};

/// Whether a name ends in a slash.
fn name_ends_in_slash(name: &[u8]) -> bool
    ensures { result ≡ paths.ends_in_slash name.now }
{
    name.last() == Some(&b'/')
}

/// A name without the slash at its end, if there is one.
fn name_without_trailing_slash(name: &[u8]) -> &[u8]
    ensures { result.now ≡ paths.without_trailing_slash name.now }
{
    if name_ends_in_slash(name) {
        return &name[..name.len() - 1];
    }
    name
}

/// Whether a name is that of a directory that cannot go itself.
fn is_name_of_unremovable_directory(
    alloc: Global,
    scene: &Scene<'_>,
    name: &[u8],
) -> Result<bool, OutOfMemory>
    ensures { IfOk result (λ held. held ≡ lines.is_name_of_unremovable_directory
        (scene_in_specification scene.now) name.now) }
{
    if !name_ends_in_slash(name) {
        return Ok(false);
    }
    set_contains_directory(alloc, scene.held, name_without_trailing_slash(name))
}

/// Adds the line of what goes.
fn append_would_remove_line(
    alloc: Global,
    text: &mut Vec<u8>,
    scene: &Scene<'_>,
    name: &[u8],
) -> Result<(), OutOfMemory>
    ensures { OnOk result (text.new.items ≡ text.old.items
        ++ lines.would_remove_line (scene_in_specification scene.now) name.now) }
{
    let read = path_relative_to_prefix(alloc, name, scene.prefix)?;
    append_line_unless_quiet(text, scene.cleaning, would_remove_words(), read.as_bytes())
}

/// Adds the lines of a name.
fn append_removal_lines_of_name(
    alloc: Global,
    text: &mut Vec<u8>,
    scene: &Scene<'_>,
    rise: bool,
    name: &[u8],
) -> Result<(), OutOfMemory>
    requires { rise ≡ true → AreSortedByPath scene.now.found.now }
    ensures { OnOk result (text.new.items ≡ text.old.items
        ++ lines.removal_lines_of_name (scene_in_specification scene.now) name.now) }
{
    if is_name_of_unremovable_directory(alloc, scene, name)? {
        return append_lines_of_unremovable_directory(
            alloc,
            text,
            scene,
            rise,
            name_without_trailing_slash(name),
        );
    }
    append_would_remove_line(alloc, text, scene, name)
}

/// The lines of all that goes; `rise` says that paths do not fall along the entries.
fn dry_run_text_of_scene(alloc: Global, scene: &Scene<'_>, rise: bool) -> Result<Bytes, OutOfMemory>
    requires { rise ≡ true → AreSortedByPath scene.now.found.now }
    ensures { IfOk result (λ text. text ≡ lines.text (scene_in_specification scene.now)) }
{
    let mut text = Vec::new(alloc);
    for name in names_of_removed(alloc, scene)? {
        append_removal_lines_of_name(alloc, &mut text, scene, rise, name.as_bytes())?;
    }
    Ok(Bytes::from_vec(text))
}

/// What would go by entries, as the patterns have them.
#[tactic(auto, unfolding(crate::specs::Cleaned::dry_run_text_of_ruled_entries))]
fn dry_run_text_of_ruled_entries(
    alloc: Global,
    cleaning: &Cleaning,
    prefix: &[u8],
    named: &[NamedSpec],
    setup: &Setup,
    found: &[ReportEntry],
) -> Result<Bytes, OutOfMemory>
    ensures { IfOk result (λ text. text ≡ words.dry_run_text_of_ruled_entries cleaning.now
        prefix.now named.now setup.now found.now) }
{
    let guarded = directories_holding_dot_git(alloc, found)?;
    let marked = directories_marked_against_removal(alloc, cleaning, &guarded, found)?;
    let held = directories_that_must_stay(alloc, cleaning, prefix, found)?;
    let scene = Scene {
        cleaning,
        index: &setup.index,
        specs: &setup.specs,
        named,
        prefix,
        found,
        marked: &marked,
        guarded: &guarded,
        held: &held,
    };
    dry_run_text_of_scene(alloc, &scene, is_sorted_by_path(found))
}

/// What would go by the entries of a report, in the directory `prefix` of the work tree: the setup
/// has the index, the path specs and the patterns of `-e`, and `named` has each of the specs alone.
///
/// The entries are gone over once. For each directory that goes but for a repository in it, or for
/// the current directory, those beneath it are gone over twice more; they are found by a search
/// where paths do not fall along the entries, as in a report, else all are gone over.
///
/// # Errors
///
/// Memory was refused.
#[tactic(auto, unfolding(crate::specs::Cleaned::dry_run_text_of_entries))]
pub fn dry_run_text_of_entries(
    alloc: Global,
    cleaning: &Cleaning,
    prefix: &[u8],
    named: &[NamedSpec],
    setup: &Setup,
    found: Vec<ReportEntry>,
) -> Result<Bytes, OutOfMemory>
    ensures { IfOk result (λ text. text
        ≡ words.dry_run_text_of_entries cleaning.now prefix.now named.now setup.now found.items) }
{
    let ruled = entries_ignored_by_sole_patterns(alloc, cleaning, setup, found)?;
    dry_run_text_of_ruled_entries(alloc, cleaning, prefix, named, setup, &ruled)
}
