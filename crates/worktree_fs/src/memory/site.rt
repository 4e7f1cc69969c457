//! What a path offers to the making of a directory.
ghost use Rattle.std.specs.Prelude.{◌≡◌, ◌≤◌, ◌∷◌, IfOk, false, vec_capacity};
ghost use Rattle.worktree_fs.specs.Tree.{resolution_of_path, reversed_names_from_root};
ghost use Rattle.worktree_fs.specs.Composed.{nfc_if_composing};
ghost use Rattle.worktree_fs.specs.Changes.{slash_before_each_reversed_name};
ghost use Rattle.worktree_fs.specs.Stored.{named_nodes_of_entries, AreSortedValidEntries};
ghost use Rattle.worktree_fs.specs.Sites.{site_of_resolution};
ghost use Rattle.worktree_fs.specs.Way.{directory_reached_by_way, directory_depth_of_entries};

use super::spell::spell_path_of_way;
use super::stored::Entry;
use super::trace::{End, resolve_path_recording_way};
use crate::composed::nfc_if_composing;
use gitbase_core::{Bytes, OutOfMemory};
use std::alloc::Global;

/// What stands at a path, a last link not followed.
#[derive(Drop)]
pub enum Site {
    /// A node.
    Taken,
    /// Nothing, in a directory that is there, with the path without links that a node would have.
    Free(Bytes),
    /// Nothing, and no directory for it.
    Nowhere,
}

/// What stands at a path.
pub fn find_site_for_new_directory(
    alloc: Global,
    composes: bool,
    root: &[Entry],
    path: &[u8],
    way: &mut Vec<usize>,
) -> Result<Site, OutOfMemory>
    requires root { AreSortedValidEntries root.now }
    requires room { directory_depth_of_entries (named_nodes_of_entries root.now) ≤ vec_capacity
        way.old }
    ensures site { IfOk result (λ site. site ≡ site_of_resolution composes
        (resolution_of_path (named_nodes_of_entries root.now) path.now false)) }
    ensures room { vec_capacity way.old ≤ vec_capacity way.new }
{
    match resolve_path_recording_way(root, path, false, way) {
        End::Directory | End::Node(_) => Ok(Site::Taken),
        End::Missing(name, true) => Ok(Site::Free(real_path_of_missing_name(
            alloc, composes, root, way, name,
        )?)),
        End::Missing(_, false) | End::Nowhere | End::Endless => Ok(Site::Nowhere),
    }
}

/// The path without links that a name would have in the directory at the end of a way.
fn real_path_of_missing_name(
    alloc: Global,
    composes: bool,
    root: &[Entry],
    way: &[usize],
    name: &[u8],
) -> Result<Bytes, OutOfMemory>
    requires { AreSortedValidEntries root.now }
    ensures { IfOk result (λ full. full ≡ slash_before_each_reversed_name (nfc_if_composing composes
        name.now ∷ reversed_names_from_root (directory_reached_by_way (named_nodes_of_entries
        root.now) way.now))) }
{
    let kept = nfc_if_composing(alloc, composes, name)?;
    let mut text = spell_path_of_way(alloc, root, way)?;
    text.push(b'/')?;
    text.extend_from_slice(kept.as_bytes())?;
    Ok(Bytes::from_vec(text))
}
