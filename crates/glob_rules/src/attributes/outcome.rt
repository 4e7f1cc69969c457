//! Which attributes are asked for, and what was found of each.
ghost use Rattle.std.specs.Prelude.{◌≡◌, ◌++◌, map, true, IfOk, OnOk, OnErr, option_copied};
ghost use Rattle.glob_rules.specs.AttributeOutcome as outcomes;
ghost use Rattle.glob_rules.specs.AttributeValues as values;
ghost use Rattle.glob_rules.specs.AttributeOutcome.{outcome_reset_to_selection_or_names, outcome_without_states, outcome_filled_for_path, is_any_state_found, found_state_of_name, empty_outcome};

use super::selected::Selected;
use super::standing::Standing;
use super::standing_at::standing_assignments_of_path;
use super::{Assignment, MetadataCollection, Search};
use crate::Case;
use gitbase_core::{Bytes, OutOfMemory};
use std::alloc::Global;
use std::marker::Model;
use std::mem;

/// A name that is asked for, and what was found of it.
#[derive(Debug, Drop)]
pub struct Row {
    pub name: Bytes,
    pub state: Option<Assignment>,
}

/// Which attributes are asked for, all or a selection, and what `fill` found of each.
///
/// Contracts see a record: the names in the order in which they are asked for, each with what was
/// found, and whether they are a selection.
#[derive(Debug, Drop)]
pub struct Outcome {
    rows: Vec<Row>,
    is_selection: bool,
}

impl Model for Outcome {
    ghost use Rattle.glob_rules.specs.AttributeOutcome.{OutcomeRows};

    ghost Value = { OutcomeRows };

    ghost view = { λ o. record { rows = o.rows.items; is_selection = o.is_selection } };
}

/// The names, of which nothing was found.
fn rows_for_names_without_states(alloc: Global, names: &[Bytes]) -> Result<Vec<Row>, OutOfMemory>
    ensures { IfOk result (λ rows. rows.items ≡ map outcomes.row_without_state names.now) }
{
    let mut rows = Vec::with_capacity(alloc, names.len())?;
    for name in names {
        rows.push(Row {
            name: Bytes::from_slice(alloc, name.as_bytes())?,
            state: None,
        })?;
    }
    Ok(rows)
}

/// The names of rows, of which nothing was found.
fn rows_with_states_cleared(alloc: Global, rows: Vec<Row>) -> Result<Vec<Row>, OutOfMemory>
    ensures { IfOk result (λ made. made.items
        ≡ map outcomes.row_without_state (outcomes.names_of_rows rows.items)) }
{
    let mut made = Vec::with_capacity(alloc, rows.len())?;
    for row in rows {
        let Row {
            name,
            state: _state,
        } = row;
        made.push(Row { name, state: None })?;
    }
    Ok(made)
}

/// The state of a name among those that stand.
fn cloned_state_of_name(
    standing: &Standing<'_>,
    name: &Bytes,
) -> Result<Option<Assignment>, OutOfMemory>
    ensures { IfOk result (λ state. state ≡ values.state_of_name name.now standing.now) }
{
    match standing.state(name.as_bytes()) {
        Some(state) => Ok(Some(state.clone()?)),
        None => Ok(None),
    }
}

/// The names of rows, with what stands of them.
fn rows_with_standing_states(
    alloc: Global,
    rows: Vec<Row>,
    standing: &Standing<'_>,
) -> Result<Vec<Row>, OutOfMemory>
    ensures { IfOk result (λ made. made.items ≡ map (outcomes.row_with_standing_state standing.now)
        rows.items) }
{
    let mut made = Vec::with_capacity(alloc, rows.len())?;
    for row in rows {
        let Row {
            name,
            state: _state,
        } = row;
        let state = cloned_state_of_name(standing, &name)?;
        made.push(Row { name, state })?;
    }
    Ok(made)
}

/// Whether something was found of a name.
fn is_any_state_found(rows: &[Row]) -> bool
    ensures { result ≡ outcomes.is_any_state_found rows.now }
{
    rows.iter().any(|row| row.state.is_some())
}

impl Outcome {
    /// An outcome that asks for nothing until it is initialized; takes no memory.
    pub fn new(alloc: Global) -> Outcome
        ensures { result ≡ empty_outcome }
    {
        Outcome {
            rows: Vec::new(alloc),
            is_selection: false,
        }
    }

    /// Takes the rows, so that nothing is asked for any more; tells whether they were a selection.
    fn take(&mut self, alloc: Global) -> (bool, Vec<Row>)
        ensures nothing { self.new ≡ empty_outcome }
        ensures selection { result.0 ≡ self.old.is_selection }
        ensures rows { result.1.items ≡ self.old.rows }
    {
        let is_selection = self.is_selection;
        self.is_selection = false;
        (is_selection, mem::replace(&mut self.rows, Vec::new(alloc)))
    }

    /// Asks for the selection again, where there is one, and else for all names of a collection,
    /// and forgets what was found.
    ///
    /// Where memory is refused, the selection is lost, and nothing is asked for until this or the
    /// next call succeeds.
    pub fn initialize(
        &mut self,
        alloc: Global,
        collection: &MetadataCollection,
    ) -> Result<(), OutOfMemory>
        ensures asked { OnOk result (self.new ≡ outcome_reset_to_selection_or_names self.old
            collection.now) }
        ensures refused { OnErr result (self.new ≡ empty_outcome) }
    {
        let (is_selection, rows) = self.take(alloc);
        if is_selection {
            self.rows = rows_with_states_cleared(alloc, rows)?;
            self.is_selection = true;
            return Ok(());
        }
        self.rows = rows_for_names_without_states(alloc, collection.names())?;
        Ok(())
    }

    /// Asks for these names, in this order, and forgets what was found. Where memory is refused,
    /// nothing is asked for. See docs/DECISIONS.md#attribute-names-twice.
    pub fn initialize_with_selection(
        &mut self,
        alloc: Global,
        names: &[Bytes],
    ) -> Result<(), OutOfMemory>
        ensures asked { OnOk result (self.new ≡ outcome_without_states true names.now) }
        ensures refused { OnErr result (self.new ≡ empty_outcome) }
    {
        self.take(alloc);
        self.rows = rows_for_names_without_states(alloc, names)?;
        self.is_selection = true;
        Ok(())
    }

    /// What was found of a name. None where nothing was, and where the name is not asked for. All
    /// names that were asked for are gone over for it: [`Outcome::iter_selected`] gives them in one
    /// pass.
    pub fn found_state_of_name(&self, name: &[u8]) -> Option<&Assignment>
        ensures { option_copied result ≡ found_state_of_name name.now self.now.rows }
    {
        let mut rest = self.rows.as_slice();
        while let Some((row, after)) = rest.split_first() {
            if row.name.as_bytes() == name {
                return row.state.as_ref();
            }
            rest = after;
        }
        None
    }

    /// The names in the order in which they are asked for, each with what was found of it.
    pub fn iter_selected(&self) -> Selected<'_>
        ensures { result ≡ self.now.rows }
    {
        Selected::new(&self.rows)
    }

    /// Finds what is asked for of a path.
    fn fill(&mut self, alloc: Global, standing: &Standing<'_>) -> Result<bool, OutOfMemory>
        ensures filled { OnOk result (self.new
            ≡ record self.old {
              rows = map (outcomes.row_with_standing_state standing.now)
                  self.old.rows;
            }) }
        ensures finds { IfOk result (λ finds. finds ≡ is_any_state_found self.new.rows) }
        ensures refused { OnErr result (self.new ≡ empty_outcome) }
    {
        let (is_selection, rows) = self.take(alloc);
        self.rows = rows_with_standing_states(alloc, rows, standing)?;
        self.is_selection = is_selection;
        Ok(is_any_state_found(&self.rows))
    }
}

/// Finds which attributes a path has, among those that `out` asks for, and tells whether it has
/// one; what was found before is forgotten.
///
/// Lists of `stack` are above those of `globals`. `path` is relative to the root that the lists'
/// directories are relative to, `is_dir` says what is known of its kind, and `case` how letters of
/// patterns and paths compare. A state `Unspecified` is one that was found. Where memory is
/// refused, `out` has lost what it asks for, its selection too.
pub fn fill(
    alloc: Global,
    globals: &Search,
    stack: &Search,
    path: &[u8],
    case: Case,
    is_dir: Option<bool>,
    out: &mut Outcome,
) -> Result<bool, OutOfMemory>
    ensures filled { OnOk result (out.new
        ≡ outcome_filled_for_path (globals.now ++ stack.now) path.now is_dir case out.old) }
    ensures finds { IfOk result (λ finds. finds ≡ is_any_state_found out.new.rows) }
    ensures refused { OnErr result (out.new ≡ empty_outcome) }
{
    match standing_assignments_of_path(alloc, globals, stack, path, is_dir, case) {
        Ok(standing) => out.fill(alloc, &standing),
        Err(refused) => {
            out.take(alloc);
            Err(refused)
        }
    }
}
