//! The lists that speak of a path.
ghost use Rattle.std.specs.Prelude.{◌≡◌, ◌++◌, reverse, option_copied};
ghost use Rattle.glob_rules.specs.AttributeValues as values;

use super::word::{Assigned, Assignments};
use super::{Assignment, Search};
use gitbase_core::Bytes;
use std::marker::Model;

/// The lists of two searches, where those of the second are above those of the first.
///
/// Contracts see the list of the lists, the lowest first.
#[derive(Drop)]
pub struct Sources<'a> {
    globals: &'a Search,
    stack: &'a Search,
}

impl<'a> Model for Sources<'a> {
    ghost use Rattle.std.specs.Prelude.{List, ◌++◌};
    ghost use Rattle.glob_rules.specs.Attributes.{AttributeList};

    ghost Value = { List AttributeList };

    ghost view = { λ sources. sources.globals.now ++ sources.stack.now };
}

impl<'a> Sources<'a> {
    /// The lists of both.
    pub fn new(globals: &'a Search, stack: &'a Search) -> Sources<'a>
        ensures { result ≡ globals.now ++ stack.now }
    {
        Sources { globals, stack }
    }

    /// What the macro of a name stands for, by the highest list that defines it.
    fn assignments_of_macro(&self, name: &Bytes) -> Option<&'a Assignments>
        ensures { option_copied result ≡ values.macro_body_in_first_list name.now
            (reverse self.now) }
    {
        match self.stack.assignments_of_macro(name) {
            Some(body) => Some(body),
            None => self.globals.assignments_of_macro(name),
        }
    }

    /// What is said too where this is said first of its attribute, the last at first.
    pub fn macro_expansion_if_set(&self, assigned: &Assigned) -> &'a [Assigned]
        ensures { reverse result.now ≡ values.macro_assignments_if_set (reverse self.now)
            assigned.now }
    {
        match assigned.state {
            Assignment::Set => match self.assignments_of_macro(&assigned.name) {
                Some(body) => body.as_slice(),
                None => &[],
            },
            _ => &[],
        }
    }
}
