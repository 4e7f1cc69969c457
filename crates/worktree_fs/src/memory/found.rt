//! What a path leads to in a stored tree.
ghost use Rattle.std.specs.Prelude.{◌≡◌, Ok, IfOk, IsErrOf};
ghost use Rattle.worktree_fs.specs.Tree.{PathResolution, lookup_result_of_resolution, found, file};
ghost use Rattle.worktree_fs.specs.Answers.{kind_of_lookup, read_answer_of_lookup, HoldsUnlessFileRead};
ghost use Rattle.worktree_fs.specs.Stored.{named_nodes_of_entries, AreSortedValidEntries};
ghost use Rattle.worktree_fs.specs.Way.{node_at_position, directory_reached_by_way, ResolvesToEnd};
ghost use Rattle.worktree_fs.specs.Found.{lookup_of_found, HasSortedEntriesIfDirectory};

use super::stored::{Entry, Inner, Stored};
use super::trace::{End, entries_at_end_of_way};
use crate::{NodeKind, ReadAnswer, ReadError};
use gitbase_core::Bytes;
use std::alloc::Global;

/// What a path leads to.
#[derive(Drop)]
pub enum Found<'a> {
    /// A file, with its bytes.
    File(&'a Bytes),
    /// A link that was not to be followed, with its target.
    Link(&'a Bytes),
    /// A directory, with its entries.
    Directory(&'a [Entry]),
    /// A node of another kind.
    Other,
    /// Nothing.
    Absent,
    /// More links than one resolution follows.
    TooManyLinks,
}

/// What stands where a path ended, beside the way down to the directory of it.
pub fn found_at_end_of_trace<'a>(root: &'a [Entry], way: &[usize], end: &End<'_>) -> Found<'a>
    requires { AreSortedValidEntries root.now }
    ensures leads { (at : PathResolution) → ResolvesToEnd at (directory_reached_by_way
        (named_nodes_of_entries root.now) way.now) end.now → lookup_of_found result
        ≡ lookup_result_of_resolution at }
    ensures sorted { HasSortedEntriesIfDirectory result }
{
    match end {
        End::Directory => Found::Directory(entries_at_end_of_way(root, way)),
        End::Node(at) => found_at_entry_position(entries_at_end_of_way(root, way), *at),
        End::Missing(_, _) => Found::Absent,
        End::Nowhere => Found::Absent,
        End::Endless => Found::TooManyLinks,
    }
}

/// The node at a position of a directory.
fn found_at_entry_position(dir: &[Entry], at: usize) -> Found<'_>
    requires { AreSortedValidEntries dir.now }
    ensures leads { lookup_of_found result ≡ found
        (node_at_position (named_nodes_of_entries dir.now) at) }
    ensures sorted { HasSortedEntriesIfDirectory result }
{
    if dir.len() <= at {
        return Found::Other;
    }
    found_of_stored_node(&dir[at].node)
}

/// What leads to a node.
fn found_of_stored_node(node: &Stored) -> Found<'_>
    ensures leads { lookup_of_found result ≡ found node.now }
    ensures sorted { HasSortedEntriesIfDirectory result }
{
    match node.inner() {
        Inner::File(bytes) => Found::File(bytes),
        Inner::Link(target) => Found::Link(target),
        Inner::Directory(entries) => Found::Directory(entries),
        Inner::Other => Found::Other,
    }
}

/// The kind of what a path leads to.
pub fn kind_of_found(end: &Found) -> Option<NodeKind>
    ensures { result ≡ kind_of_lookup (lookup_of_found end.now) }
{
    match end {
        Found::File(_) => Some(NodeKind::File),
        Found::Link(_) => Some(NodeKind::Symlink),
        Found::Directory(_) => Some(NodeKind::Directory),
        Found::Other => Some(NodeKind::Untrackable),
        Found::Absent | Found::TooManyLinks => None,
    }
}

/// Puts the bytes of a file into `into`, or answers what the path leads to in its place.
pub fn read_found_into(
    alloc: Global,
    end: &Found,
    into: &mut Bytes,
) -> Result<ReadAnswer, ReadError>
    ensures answer { IfOk result (λ answer. answer ≡ read_answer_of_lookup
        (lookup_of_found end.now)) }
    ensures bytes { result ≡ Ok ReadAnswer.Read → lookup_of_found end.now ≡ found (file into.new) }
    ensures into { HoldsUnlessFileRead result (into.new ≡ into.old) }
    ensures no_fault { IsErrOf result ReadError.Fault → ⊥ }
{
    match end {
        Found::File(bytes) => {
            into.set(alloc, bytes.as_bytes())?;
            Ok(ReadAnswer::Read)
        }
        Found::Link(_) => Ok(ReadAnswer::IsLink),
        Found::Directory(_) => Ok(ReadAnswer::IsDirectory),
        Found::Other => Ok(ReadAnswer::Special),
        Found::Absent => Ok(ReadAnswer::Absent),
        Found::TooManyLinks => Ok(ReadAnswer::LinkLimit),
    }
}
