//! What an index file says of its entries besides, in their order.
ghost use Rattle.std.specs.Prelude.{◌≡◌, []};

use git_index::Detail;
use std::alloc::Global;
use std::marker::Model;

/// What an index file says of its entries besides, in their order. Contracts see the list of it.
#[derive(Debug, Drop)]
pub struct Details {
    items: Vec<Detail>,
}

impl Model for Details {
    ghost use Rattle.std.specs.Prelude.{List};
    ghost use Rattle.git_index.specs.declared.stat.Detail.{Detail};

    ghost Value = { List Detail };

    ghost view = { λ details. details.items.items };
}

impl Details {
    /// Those of no entries; takes no memory.
    pub fn new(alloc: Global) -> Details
        ensures { result ≡ [] }
    {
        Details {
            items: Vec::new(alloc),
        }
    }

    /// Those of the vector; takes no memory.
    pub fn from_vec(items: Vec<Detail>) -> Details
        ensures { result ≡ items.items }
    {
        Details { items }
    }

    /// All of them, in their order.
    pub fn as_slice(&self) -> &[Detail]
        ensures { result.now ≡ self.now }
    {
        self.items.as_slice()
    }
}
