//! The path that a way spells.
ghost use Rattle.std.specs.Prelude.{◌≡◌, IfOk, ◌++◌, ◌∷◌};
ghost use Rattle.worktree_fs.specs.Tree.{reversed_names_from_root};
ghost use Rattle.worktree_fs.specs.Stored.{named_nodes_of_entries, AreSortedValidEntries};
ghost use Rattle.worktree_fs.specs.Way.{directory_reached_by_way, name_at_position};
ghost use Rattle.worktree_fs.specs.Changes.{slash_before_each_reversed_name};

use super::stored::Entry;
use super::trace::entries_of_child_directory;
use gitbase_core::OutOfMemory;
use std::alloc::Global;

/// Each name of a way behind a slash.
pub fn spell_path_of_way(
    alloc: Global,
    root: &[Entry],
    way: &[usize],
) -> Result<Vec<u8>, OutOfMemory>
    requires { AreSortedValidEntries root.now }
    ensures { IfOk result (λ text. text.items ≡ slash_before_each_reversed_name
        (reversed_names_from_root (directory_reached_by_way (named_nodes_of_entries root.now)
        way.now))) }
{
    let mut text = Vec::new(alloc);
    let mut dir = root;
    for at in way {
        append_slash_and_name_at(&mut text, dir, *at)?;
        dir = entries_of_child_directory(dir, *at);
    }
    Ok(text)
}

/// Adds the name at a position behind a slash.
pub fn append_slash_and_name_at(
    text: &mut Vec<u8>,
    dir: &[Entry],
    at: usize,
) -> Result<(), OutOfMemory>
    ensures { IfOk result (λ _. text.new.items
        ≡ text.old.items ++ 47 ∷ name_at_position (named_nodes_of_entries dir.now) at) }
{
    text.push(b'/')?;
    if at < dir.len() {
        text.extend_from_slice(dir[at].name())?;
    }
    Ok(())
}
