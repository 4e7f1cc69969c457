//! What stands of what was said so far.
ghost use Rattle.std.specs.Prelude.{◌≡◌, [], not, IfOk, OnOk, option_copied};
ghost use Rattle.glob_rules.specs.AttributeValues as values;
ghost use Rattle.glob_rules.specs.Standing.{standing_with_assignment_if_first};

use super::Assignment;
use super::word::Assigned;
use gitbase_core::OutOfMemory;
use std::alloc::Global;
use std::collections::BTreeMap;
use std::marker::Model;

/// What was said first of each attribute, in the order in which it was heard.
///
/// Contracts see the list.
#[derive(Drop)]
pub struct Standing<'a> {
    said: Vec<&'a Assigned>,
    /// The states by their names, among which one is found without passing over all.
    states: BTreeMap<&'a [u8], &'a Assignment>,
}

impl<'a> Model for Standing<'a> {
    ghost use Rattle.std.specs.Prelude.{List};
    ghost use Rattle.glob_rules.specs.Standing.{dereferenced_assignments, TableHasAllStates};
    ghost use Rattle.glob_rules.specs.declared.attributes.word.Assigned as declared;

    ghost Value = { List declared.Assigned };

    ghost view = { λ s. dereferenced_assignments s.said.items };

    ghost invariant = { λ s. TableHasAllStates s.states.entries (dereferenced_assignments
        s.said.items) };
}

impl<'a> Standing<'a> {
    /// Nothing stands; takes no memory.
    pub fn new(alloc: Global) -> Standing<'a>
        ensures { result ≡ [] }
    {
        Standing {
            said: Vec::new(alloc),
            states: BTreeMap::new(alloc),
        }
    }

    /// The state of a name, where something stands of it.
    pub fn state(&self, name: &[u8]) -> Option<&'a Assignment>
        ensures { option_copied result ≡ values.state_of_name name.now self.now }
    {
        match self.states.get(name) {
            Some(state) => Some(*state),
            None => None,
        }
    }

    /// Says something of an attribute, and tells whether it is the first.
    pub fn add_if_first(&mut self, assigned: &'a Assigned) -> Result<bool, OutOfMemory>
        ensures first { IfOk result (λ is_first. is_first
            ≡ not (values.has_assigned_name assigned.now.name self.old)) }
        ensures said { OnOk result (self.new ≡ standing_with_assignment_if_first self.old
            assigned.now) }
    {
        let name = assigned.name.as_bytes();
        if self.states.contains_key(name) {
            return Ok(false);
        }
        self.said.push(assigned)?;
        match self.states.insert(name, &assigned.state) {
            Ok(_) => Ok(true),
            Err(_) => {
                self.said.pop();
                Err(OutOfMemory)
            }
        }
    }
}
