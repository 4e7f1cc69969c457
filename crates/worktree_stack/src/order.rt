//! The order in which the places of a rules file are asked.
ghost use Rattle.std.specs.Prelude.{◌≡◌, ℕ, List};
ghost use Rattle.worktree_stack.specs.Reading.{attribute_places_by_source, ignore_places_by_source, places_by_read_order};

use crate::{attributes_source, ignore_source};
use gitbase_core::ObjectId;

/// Which places of a rules file are asked, one after the other.
#[derive(Clone, Copy, Debug)]
pub enum Order {
    /// None.
    Nowhere,
    /// The file in the worktree, a last link followed or not.
    Worktree { follow: bool },
    /// The blob under an id.
    Store(ObjectId),
    /// The file in the worktree, which is not followed, and where that has no list, the blob under
    /// an id.
    WorktreeThenStore(ObjectId),
}

/// Where ignore rules are looked for, by their source and the blob that the rules file is mapped
/// to.
pub(crate) fn ignore_read_order(source: ignore_source::Source, mapped: Option<ObjectId>) -> Order
    ensures { (whole path : List ℕ) → places_by_read_order result whole path
        ≡ ignore_places_by_source source whole path mapped }
{
    match (source, mapped) {
        (ignore_source::Source::IdMapping, None) => Order::Nowhere,
        (ignore_source::Source::IdMapping, Some(id)) => Order::Store(id),
        (ignore_source::Source::WorktreeThenIdMappingIfNotSkipped, None) => {
            Order::Worktree { follow: true }
        }
        (ignore_source::Source::WorktreeThenIdMappingIfNotSkipped, Some(id)) => {
            Order::WorktreeThenStore(id)
        }
    }
}

/// Where the attributes of a directory are looked for, by their source and the blob that the file
/// is mapped to.
pub(crate) fn attributes_read_order(
    source: attributes_source::Source,
    mapped: Option<ObjectId>,
) -> Order
    ensures { (whole path : List ℕ) → places_by_read_order result whole path
        ≡ attribute_places_by_source source whole path mapped }
{
    match (source, mapped) {
        (attributes_source::Source::IdMapping, None) => Order::Nowhere,
        (attributes_source::Source::IdMapping, Some(id)) => Order::Store(id),
        (attributes_source::Source::IdMappingThenWorktree, None) => {
            Order::Worktree { follow: false }
        }
        (attributes_source::Source::IdMappingThenWorktree, Some(id)) => Order::Store(id),
        (attributes_source::Source::WorktreeThenIdMapping, None) => {
            Order::Worktree { follow: false }
        }
        (attributes_source::Source::WorktreeThenIdMapping, Some(id)) => {
            Order::WorktreeThenStore(id)
        }
    }
}
