//! What was found of the attributes that are asked for, one after another.
ghost use Rattle.std.specs.Prelude.{◌≡◌};
ghost use Rattle.std.specs.Iterator.{YieldsFirstBy, item_count};
ghost use Rattle.glob_rules.specs.AttributeOutcome.{row_from_references};

use super::Assignment;
use super::outcome::Row;
use std::marker::Model;

/// The names that are asked for, each with what was found of it, in the order in which they are
/// asked for.
///
/// Contracts see the list of those that are left.
#[derive(Drop)]
pub struct Selected<'a> {
    rest: &'a [Row],
}

impl<'a> Model for Selected<'a> {
    ghost use Rattle.std.specs.Prelude.{List};
    ghost use Rattle.glob_rules.specs.declared.attributes.outcome.Row as declared;

    ghost Value = { List declared.Row };

    ghost view = { λ left. left.rest.now };
}

impl<'a> Selected<'a> {
    pub(super) fn new(rows: &'a [Row]) -> Selected<'a>
        ensures { result ≡ rows.now }
    {
        Selected { rest: rows }
    }
}

impl<'a> Iterator for Selected<'a> {
    type Item = (&'a [u8], Option<&'a Assignment>);

    ghost next_gives = { YieldsFirstBy row_from_references (λ left. left) };

    ghost remaining = { item_count (λ left. left) };

    fn next(&mut self) -> Option<(&'a [u8], Option<&'a Assignment>)> {
        let (row, rest) = self.rest.split_first()?;
        self.rest = rest;
        Some((row.name.as_bytes(), row.state.as_ref()))
    }
}
