//! The resolution of a path, which keeps the way down to what it leads to, without memory of its
//! own.
ghost use Rattle.std.specs.Prelude.{◌≡◌, [], ◌∷◌, ◌++◌, Bool, Some, not, ◌&&◌, ◌*◌, ◌+◌, ◌^◌, ◌≤◌, ◌<◌, length, vec_len, vec_capacity, if◌then◌else◌};
ghost use Rattle.worktree_fs.specs.Tree.{resolve_components_within_links, resolution_of_path, parent_directory_or_root, resolve_from_node, resolver_continuations, link_resolver_with_limit, is_nil};
ghost use Rattle.worktree_fs.specs.Stored.{named_nodes_of_entries, AreSortedValidEntries};
ghost use Rattle.worktree_fs.specs.Way.{name_at_position, node_at_position, child_entries_at_position, directory_reached_by_way, entries_reached_by_way, IsWayOfDirectories, IsDirectoryAtEndOfWay, TurnFitsWay, turned, ResolvesToEnd, directory_depth_of_entries};

use super::route::Route;
use super::search::find_entry_by_name;
use super::stored::{Entry, Inner, Stored};
use crate::names::{is_dot, is_dot_dot, is_utf8_without_nul};
use gitbase_core::is_absolute;

/// Where a path leads, beside the way down to the directory of it.
#[derive(Drop)]
pub enum End<'a> {
    /// To the directory itself.
    Directory,
    /// To the node at a position of the directory, which is no directory.
    Node(usize),
    /// To a name that the directory does not have, and whether nothing of the path is behind it.
    Missing(&'a [u8], bool),
    /// Nowhere.
    Nowhere,
    /// Along more links than one resolution follows.
    Endless,
}

/// What a component of a path leads to, beside the way down to the directory of it.
#[derive(Drop)]
pub enum Turn<'a> {
    /// Into the directory, with its entries.
    Into(&'a [Entry]),
    /// To a name that the directory does not have.
    Missing(&'a [u8]),
    /// To the node at a position of the directory.
    Node(usize),
    /// Nowhere.
    Nowhere,
    /// Along more links than one resolution follows.
    Endless,
}

/// Where a path leads from the root, through at most 32 links. A last link is followed where
/// `follow` says so. The way is a position for each directory on it, and there is room for the
/// longest one.
///
/// A `..` goes down the way anew, so a path that has many of them far below the root costs their
/// number times that depth.
///
/// See docs/DECISIONS.md#step-needs-directory.
pub fn resolve_path_recording_way<'a>(
    root: &'a [Entry],
    path: &'a [u8],
    follow: bool,
    way: &mut Vec<usize>,
) -> End<'a>
    requires root { AreSortedValidEntries root.now }
    requires room { directory_depth_of_entries (named_nodes_of_entries root.now) ≤ vec_capacity
        way.old }
    ensures leads { ResolvesToEnd (resolution_of_path (named_nodes_of_entries root.now) path.now
        follow) (directory_reached_by_way (named_nodes_of_entries root.now) way.new.items) result }
    ensures is_way { IsWayOfDirectories way.new.items (named_nodes_of_entries root.now) }
    ensures room { vec_capacity way.old ≤ vec_capacity way.new }
{
    way.clear();
    if !is_utf8_without_nul(path) {
        return End::Nowhere;
    }
    let mut route = Route::new(path);
    let mut dir = root;
    while let Some(component) = route.next() {
        match resolve_one_component(root, dir, component, &mut route, follow, way) {
            Turn::Into(entries) => dir = entries,
            Turn::Missing(name) => return End::Missing(name, route.is_done()),
            Turn::Node(at) => return End::Node(at),
            Turn::Nowhere => return End::Nowhere,
            Turn::Endless => return End::Endless,
        }
    }
    End::Directory
}

/// Goes along one component, from the directory at the end of the way.
fn resolve_one_component<'a>(
    root: &'a [Entry],
    dir: &'a [Entry],
    component: &'a [u8],
    route: &mut Route<'a>,
    follow: bool,
    way: &mut Vec<usize>,
) -> Turn<'a>
    requires root { AreSortedValidEntries root.now }
    requires stands { IsDirectoryAtEndOfWay root.now dir.now way.old.items }
    requires room { directory_depth_of_entries (named_nodes_of_entries root.now) ≤ vec_capacity
        way.old }
    ensures leads { resolve_components_within_links route.old.links follow (directory_reached_by_way
        (named_nodes_of_entries root.now) way.old.items) (component.now ∷ route.old.left)
        ≡ turned follow (directory_reached_by_way (named_nodes_of_entries root.now) way.new.items)
        route.new.links route.new.left result }
    ensures stands { TurnFitsWay root.now way.new.items result }
    ensures room { vec_capacity way.old ≤ vec_capacity way.new }
    ensures smaller { route.new.links * 2 ^ 64 + length route.new.left
        ≤ route.old.links * 2 ^ 64 + length route.old.left }
{
    if is_dot(component) {
        return Turn::Into(dir);
    }
    if is_dot_dot(component) {
        return Turn::Into(go_to_parent(root, dir, way));
    }
    match find_entry_by_name(dir, component) {
        Ok(at) => resolve_past_node(root, dir, at, &dir[at].node, route, follow, way),
        Err(_) => Turn::Missing(component),
    }
}

/// The directory above, or the root itself.
fn go_to_parent<'a>(root: &'a [Entry], dir: &'a [Entry], way: &mut Vec<usize>) -> &'a [Entry]
    requires root { AreSortedValidEntries root.now }
    requires stands { IsDirectoryAtEndOfWay root.now dir.now way.old.items }
    ensures parent { directory_reached_by_way (named_nodes_of_entries root.now) way.new.items
        ≡ parent_directory_or_root (directory_reached_by_way (named_nodes_of_entries root.now)
        way.old.items) }
    ensures stands { IsDirectoryAtEndOfWay root.now result.now way.new.items }
    ensures room { vec_capacity way.old ≤ vec_capacity way.new }
{
    match way.pop() {
        Some(_) => entries_at_end_of_way(root, way),
        None => dir,
    }
}

/// The directory at the end of a way.
pub fn entries_at_end_of_way<'a>(root: &'a [Entry], way: &[usize]) -> &'a [Entry]
    requires root { AreSortedValidEntries root.now }
    ensures here { entries_reached_by_way way.now (named_nodes_of_entries root.now)
        ≡ named_nodes_of_entries result.now }
    ensures sorted { AreSortedValidEntries result.now }
{
    let mut dir = root;
    for at in way {
        dir = entries_of_child_directory(dir, *at);
    }
    dir
}

/// The entries of the directory at a position; none where another node is there.
pub fn entries_of_child_directory(dir: &[Entry], at: usize) -> &[Entry]
    requires { AreSortedValidEntries dir.now }
    ensures names { named_nodes_of_entries result.now ≡ child_entries_at_position
        (named_nodes_of_entries dir.now) at }
    ensures sorted { AreSortedValidEntries result.now }
{
    if dir.len() <= at {
        return &[];
    }
    match dir[at].node.inner() {
        Inner::Directory(entries) => entries,
        _ => &[],
    }
}

/// Goes on from the node at a position of the directory at the end of the way.
fn resolve_past_node<'a>(
    root: &'a [Entry],
    dir: &'a [Entry],
    at: usize,
    node: &'a Stored,
    route: &mut Route<'a>,
    follow: bool,
    way: &mut Vec<usize>,
) -> Turn<'a>
    requires root { AreSortedValidEntries root.now }
    requires stands { IsDirectoryAtEndOfWay root.now dir.now way.old.items }
    requires room { directory_depth_of_entries (named_nodes_of_entries root.now) ≤ vec_capacity
        way.old }
    requires there { at < length dir.now }
    requires node { node_at_position (named_nodes_of_entries dir.now) at ≡ node.now }
    ensures leads { resolve_from_node (resolver_continuations (λ p. resolve_components_within_links
        route.old.links follow p route.old.left) (link_resolver_with_limit route.old.links follow)
        follow) (directory_reached_by_way (named_nodes_of_entries root.now) way.old.items)
        route.old.left (name_at_position (named_nodes_of_entries dir.now) at) (Some node.now)
        ≡ turned follow (directory_reached_by_way (named_nodes_of_entries root.now) way.new.items)
        route.new.links route.new.left result }
    ensures stands { TurnFitsWay root.now way.new.items result }
    ensures room { vec_capacity way.old ≤ vec_capacity way.new }
    ensures smaller { route.new.links * 2 ^ 64 + length route.new.left
        ≤ route.old.links * 2 ^ 64 + length route.old.left }
{
    match node.inner() {
        Inner::Directory(entries) => {
            push_position_within_capacity(way, at);
            Turn::Into(entries)
        }
        Inner::Link(target) => {
            if ends_at_unfollowed_link(route, follow) {
                return Turn::Node(at);
            }
            follow_link(root, dir, target.as_bytes(), route, way)
        }
        Inner::File(_) => end_at_leaf_or_nowhere(at, route),
        Inner::Other => end_at_leaf_or_nowhere(at, route),
    }
}

/// Whether the path ends at a link that is not to be followed.
fn ends_at_unfollowed_link(route: &Route<'_>, follow: bool) -> bool
    ensures { result ≡ (not follow && is_nil route.now.left) }
{
    !follow && route.is_done()
}

/// A node that is neither link nor directory ends the path, or nothing is behind it.
fn end_at_leaf_or_nowhere<'a>(at: usize, route: &Route<'_>) -> Turn<'a>
    ensures { result ≡ (if is_nil route.now.left then Turn.Node at else Turn.Nowhere) }
{
    if route.is_done() {
        Turn::Node(at)
    } else {
        Turn::Nowhere
    }
}

/// Goes down by a position, for which there is room.
fn push_position_within_capacity(way: &mut Vec<usize>, at: usize)
    requires { vec_len way.old < vec_capacity way.old }
    ensures items { way.new.items ≡ way.old.items ++ at ∷ [] }
    ensures room { vec_capacity way.old ≤ vec_capacity way.new }
{
    match way.push(at) {
        Ok(()) => {}
        Err(_) => unreachable!(),
    }
}

/// Follows a link of the directory at the end of the way.
fn follow_link<'a>(
    root: &'a [Entry],
    dir: &'a [Entry],
    target: &'a [u8],
    route: &mut Route<'a>,
    way: &mut Vec<usize>,
) -> Turn<'a>
    requires root { AreSortedValidEntries root.now }
    requires stands { IsDirectoryAtEndOfWay root.now dir.now way.old.items }
    ensures leads { (follow : Bool) → link_resolver_with_limit route.old.links follow
        (directory_reached_by_way (named_nodes_of_entries root.now) way.old.items) target.now
        route.old.left ≡ turned follow (directory_reached_by_way (named_nodes_of_entries root.now)
        way.new.items) route.new.links route.new.left result }
    ensures stands { TurnFitsWay root.now way.new.items result }
    ensures room { vec_capacity way.old ≤ vec_capacity way.new }
    ensures smaller { route.new.links * 2 ^ 64 + length route.new.left
        ≤ route.old.links * 2 ^ 64 + length route.old.left }
{
    if route.links_left_to_follow() == 0 {
        return Turn::Endless;
    }
    if !is_utf8_without_nul(target) {
        return Turn::Nowhere;
    }
    route.follow(target);
    if is_absolute(target) {
        way.clear();
        Turn::Into(root)
    } else {
        Turn::Into(dir)
    }
}
