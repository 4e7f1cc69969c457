//! What is in `/` of a tree in memory, with room for the way to each of its nodes.
ghost use Rattle.std.specs.Prelude.{◌≡◌, ◌≤◌, Some, None, Ok, IfOk, IfErr, OnOk, OnErr, IsErrOf, MatchResult, true, false, vec_capacity};
ghost use Rattle.std.specs.List.{AllByRecursion};
ghost use Rattle.gitbase_core.specs.Path.{pieces_between_slashes};
ghost use Rattle.worktree_fs.specs.Tree.{PathResolution, directory, none, resolution_of_path, look, found, file};
ghost use Rattle.worktree_fs.specs.Naming.{IsValidEntryName, IsValidTree, AreDistinctValidEntryNames};
ghost use Rattle.worktree_fs.specs.Answers.{kind_of_lookup, read_answer_of_lookup, HoldsUnlessFileRead, ListErrorFitsLookup, HoldsOnListFault};
ghost use Rattle.worktree_fs.specs.Memory.{ListsDirectoryNamesInOrder, AreSortedForwardOrReversed};
ghost use Rattle.worktree_fs.specs.Stored.{named_nodes_of_entries, AreSortedValidEntries};
ghost use Rattle.worktree_fs.specs.Grow.{node_with_descendant_added, add_error_at_names, add_error_at_path, IsAddErrorUnlessOutOfMemory};
ghost use Rattle.worktree_fs.specs.Changes.{real_path_of_resolution, answer_to_make_dir, entries_after_make_dir, make_answer_of_add_error, entries_with_directory_added, answer_to_remove_node, entries_after_remove_node};
ghost use Rattle.worktree_fs.specs.Way.{directory_reached_by_way, directory_depth_of_node, directory_depth_of_entries, ResolvesToEnd};

use super::found::{found_at_end_of_trace, kind_of_found, read_found_into};
use super::grow::{
    AddError, NewNode, add_node_below_entries, count_slash_separated_pieces,
    remove_entry_by_positions, store_new_node,
};
use super::list_of::list_of;
use super::path_below_root_if_normal;
use super::site::{Site, find_site_for_new_directory};
use super::spell::{append_slash_and_name_at, spell_path_of_way};
use super::stored::{Entry, Stored, deep_copy_entries};
use super::trace::{End, entries_at_end_of_way, resolve_path_recording_way};
use crate::{ListError, MakeAnswer, NameList, NodeKind, ReadAnswer, ReadError, RemoveAnswer};
use gitbase_core::{Bytes, OutOfMemory, PathText};
use std::alloc::Global;
use std::marker::Model;

/// The entries of `/`, and room for the way to each node below it, so that one is removed without
/// more memory.
///
/// Contracts see the names with their nodes.
#[derive(Drop)]
pub struct Root {
    entries: Vec<Entry>,
    way: Vec<usize>,
}

impl Model for Root {
    ghost use Rattle.std.specs.Prelude.{◌≤◌, vec_capacity};
    ghost use Rattle.worktree_fs.specs.Tree.{Names};
    ghost use Rattle.worktree_fs.specs.Codes.{entries_coding};
    ghost use Rattle.worktree_fs.specs.Stored.{named_nodes_of_entries, AreSortedValidEntries};
    ghost use Rattle.worktree_fs.specs.Way.{directory_depth_of_entries};

    ghost Value = { Names };

    ghost coded = { entries_coding };

    ghost view = { λ a. named_nodes_of_entries a.entries.items };

    ghost invariant = { λ a. AreSortedValidEntries a.entries.items
        × (directory_depth_of_entries (named_nodes_of_entries a.entries.items) ≤ vec_capacity a.way) };
}

impl Root {
    /// Without names; takes no memory.
    pub fn new(alloc: Global) -> Root
        ensures { result ≡ none }
    {
        Root {
            entries: Vec::new(alloc),
            way: Vec::new(alloc),
        }
    }

    /// The entries, sorted by name.
    pub fn entries(&self) -> &[Entry]
        ensures names { named_nodes_of_entries result.now ≡ self.now }
        ensures sorted { AreSortedValidEntries result.now }
        ensures tree { IsValidTree (directory self.now) }
    {
        &self.entries
    }

    /// A copy of all that is in `/`.
    pub fn copied(&self, alloc: Global) -> Result<Root, OutOfMemory>
        ensures { IfOk result (λ root. root ≡ self.now) }
    {
        let way = Vec::with_capacity(alloc, self.way.capacity())?;
        let entries = deep_copy_entries(alloc, &self.entries)?;
        Ok(Root { entries, way })
    }

    /// The kind of what a path leads to.
    pub fn kind(&mut self, path: &[u8], follow: bool) -> Option<NodeKind>
        ensures kind { result ≡ kind_of_lookup (look self.old path.now follow) }
        ensures unchanged { self.new ≡ self.old }
    {
        let end = resolve_path_recording_way(&self.entries, path, follow, &mut self.way);
        kind_of_found(&found_at_end_of_trace(&self.entries, &self.way, &end))
    }

    /// The names of the directory that a path leads to, or from last to first.
    pub fn list(
        &mut self,
        alloc: Global,
        path: &[u8],
        follow: bool,
        is_reversed: bool,
    ) -> Result<NameList, ListError>
        ensures answer { MatchResult result (ListsDirectoryNamesInOrder is_reversed
            (look self.old path.now follow)) (ListErrorFitsLookup (look self.old path.now follow)) }
        ensures names { IfOk result AreDistinctValidEntryNames }
        ensures sorted { IfOk result (AreSortedForwardOrReversed is_reversed) }
        ensures no_fault { HoldsOnListFault result ⊥ }
        ensures unchanged { self.new ≡ self.old }
    {
        let end = resolve_path_recording_way(&self.entries, path, follow, &mut self.way);
        let found = found_at_end_of_trace(&self.entries, &self.way, &end);
        list_of(alloc, &found, is_reversed)
    }

    /// Puts the bytes of the file that a path leads to into `into`, or answers what it leads to in
    /// its place.
    pub fn read(
        &mut self,
        alloc: Global,
        path: &[u8],
        follow: bool,
        into: &mut Bytes,
    ) -> Result<ReadAnswer, ReadError>
        ensures answer { IfOk result (λ answer. answer ≡ read_answer_of_lookup
            (look self.old path.now follow)) }
        ensures bytes { result ≡ Ok ReadAnswer.Read → look self.old path.now follow
            ≡ found (file into.new) }
        ensures into { HoldsUnlessFileRead result (into.new ≡ into.old) }
        ensures link { result ≡ Ok ReadAnswer.IsLink → follow ≡ false }
        ensures no_fault { IsErrOf result ReadError.Fault → ⊥ }
        ensures unchanged { self.new ≡ self.old }
    {
        let end = resolve_path_recording_way(&self.entries, path, follow, &mut self.way);
        read_found_into(
            alloc,
            &found_at_end_of_trace(&self.entries, &self.way, &end),
            into,
        )
    }

    /// The path without links of what a path leads to.
    pub fn real_path(&mut self, alloc: Global, path: &[u8]) -> Result<Option<PathText>, OutOfMemory>
        ensures real { IfOk result (λ real. real ≡ real_path_of_resolution
            (resolution_of_path self.old path.now true)) }
        ensures unchanged { self.new ≡ self.old }
    {
        let end = resolve_path_recording_way(&self.entries, path, true, &mut self.way);
        real_path_of_trace_end(alloc, &self.entries, &self.way, &end)
    }

    /// Puts a node at the end of a path below the root, with the directories on the way.
    pub fn add(&mut self, alloc: Global, path: &[u8], node: Stored) -> Result<(), AddError>
        requires names { AllByRecursion IsValidEntryName (pieces_between_slashes path.now) }
        requires tree { IsValidTree node }
        requires depth { directory_depth_of_node node ≤ 1 }
        ensures grown { OnOk result (directory self.new ≡ node_with_descendant_added
            (pieces_between_slashes path.now) node (Some (directory self.old))) }
        ensures free { OnOk result (add_error_at_names (pieces_between_slashes path.now)
            (Some (directory self.old)) ≡ None) }
        ensures refused { IfErr result (IsAddErrorUnlessOutOfMemory
            (add_error_at_names (pieces_between_slashes path.now) (Some (directory self.old)))) }
        ensures unchanged { OnErr result (self.new ≡ self.old) }
    {
        self.way.clear();
        self.way.reserve(count_slash_separated_pieces(path))?;
        add_node_below_entries(&mut self.entries, alloc, path, node)
    }

    /// Makes a directory where a path leads to a name that its directory does not have. Where the
    /// tree composes, the name is composed.
    pub fn make_dir(
        &mut self,
        alloc: Global,
        composes: bool,
        path: &[u8],
    ) -> Result<MakeAnswer, OutOfMemory>
        ensures answer { IfOk result (λ answer. answer
            ≡ answer_to_make_dir composes self.old (resolution_of_path self.old path.now false)) }
        ensures made { OnOk result (self.new ≡ entries_after_make_dir composes self.old
            (resolution_of_path self.old path.now false)) }
        ensures unchanged { OnErr result (self.new ≡ self.old) }
    {
        match find_site_for_new_directory(alloc, composes, &self.entries, path, &mut self.way)? {
            Site::Taken => Ok(MakeAnswer::Exists),
            Site::Nowhere => Ok(MakeAnswer::NoParent),
            Site::Free(full) => self.add_directory_at_path(alloc, full.as_bytes()),
        }
    }

    /// Makes a directory at the end of a path whose parent is there.
    fn add_directory_at_path(
        &mut self,
        alloc: Global,
        path: &[u8],
    ) -> Result<MakeAnswer, OutOfMemory>
        ensures answer { IfOk result (λ answer. answer
            ≡ make_answer_of_add_error (add_error_at_path self.old path.now)) }
        ensures made { OnOk result (self.new ≡ entries_with_directory_added
            (add_error_at_path self.old path.now) self.old path.now) }
        ensures unchanged { OnErr result (self.new ≡ self.old) }
    {
        let Some(below) = path_below_root_if_normal(path) else {
            return Ok(MakeAnswer::NoParent);
        };
        let node = store_new_node(alloc, NewNode::Directory)?;
        match self.add(alloc, below, node) {
            Ok(()) => Ok(MakeAnswer::Made),
            Err(AddError::OutOfMemory) => Err(OutOfMemory),
            Err(AddError::Exists) => Ok(MakeAnswer::Exists),
            Err(AddError::NoParent | AddError::NotNormal) => Ok(MakeAnswer::NoParent),
        }
    }

    /// Removes the node to which a path leads, unless it is a directory; takes no memory.
    pub fn remove(&mut self, path: &[u8]) -> RemoveAnswer
        ensures answer { result ≡ answer_to_remove_node (resolution_of_path self.old path.now
            false) }
        ensures removed { self.new ≡ entries_after_remove_node self.old (resolution_of_path self.old
            path.now false) }
    {
        let at = match resolve_path_recording_way(&self.entries, path, false, &mut self.way) {
            End::Node(at) => at,
            End::Directory => return RemoveAnswer::IsDirectory,
            End::Missing(_, _) | End::Nowhere | End::Endless => return RemoveAnswer::Absent,
        };
        remove_entry_by_positions(&mut self.entries, &self.way, at);
        RemoveAnswer::Removed
    }
}

/// The path without links of what a way and an end lead to.
fn real_path_of_trace_end(
    alloc: Global,
    root: &[Entry],
    way: &[usize],
    end: &End,
) -> Result<Option<PathText>, OutOfMemory>
    requires { AreSortedValidEntries root.now }
    ensures { (at : PathResolution) → ResolvesToEnd at (directory_reached_by_way
        (named_nodes_of_entries root.now) way.now) end.now → IfOk result (λ real. real
        ≡ real_path_of_resolution at) }
{
    match end {
        End::Missing(_, _) | End::Nowhere | End::Endless => Ok(None),
        End::Directory => {
            let mut text = spell_path_of_way(alloc, root, way)?;
            if text.is_empty() {
                text.push(b'/')?;
            }
            Ok(Some(PathText::from_vec(text)))
        }
        End::Node(at) => {
            let mut text = spell_path_of_way(alloc, root, way)?;
            append_slash_and_name_at(&mut text, entries_at_end_of_way(root, way), *at)?;
            Ok(Some(PathText::from_vec(text)))
        }
    }
}
