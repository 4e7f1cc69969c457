//! The ignore rules that a setup asks for.
ghost use Rattle.std.specs.Prelude.{◌≡◌, ◌∷◌, [], IfOk};
ghost use Rattle.worktree_stack.specs.Reading.{TreeAndObjects};
ghost use Rattle.worktree_stack.specs.Stacked.{IsInStepWithTree, setup_of_stack};
ghost use Rattle.dir_classify.specs.Excludes.{setup_of_optional_stack, IsStackInStepIfGiven};
ghost use Rattle.worktree_report.specs.Excluding.{ignore_rules_of_text, ignore_rules_of_setup, stack_setup_of_setup, stack_setup_if_excludes_option};

use crate::setup::Setup;
use gitbase_core::{OutOfMemory, PathText};
use glob_rules::ignore::{List, ParseIgnore, Search};
use std::alloc::Global;
use worktree_stack::{Ignore, Stack, State};

/// The rules in a text that was read from no file, as the one list of a search.
fn ignore_search_from_text(
    alloc: Global,
    text: &[u8],
    parse: ParseIgnore,
) -> Result<Search, OutOfMemory>
    ensures { IfOk result (λ search. search ≡ ignore_rules_of_text parse.support_precious text.now ∷
        []) }
{
    let list = List::from_bytes(alloc, text, None, PathText::new(alloc), parse)?;
    let mut search = Search::new(alloc);
    search.push_list(alloc, list)?;
    Ok(search)
}

/// The rules of a setup, before any directory is looked at.
fn ignore_state_of_setup(alloc: Global, setup: &Setup) -> Result<Ignore, OutOfMemory>
    ensures made { IfOk result (λ ignore. ignore.setup ≡ ignore_rules_of_setup setup.now) }
    ensures lists { IfOk result (λ ignore. ignore.lists ≡ []) }
    ensures matches { IfOk result (λ ignore. ignore.matches ≡ []) }
{
    let parse = ParseIgnore {
        support_precious: setup.options.precious,
    };
    let overrides = ignore_search_from_text(alloc, setup.overrides.as_bytes(), parse)?;
    let globals = ignore_search_from_text(alloc, setup.globals.as_bytes(), parse)?;
    let source = setup.options.ignore_source;
    let ignore = Ignore::new(alloc, overrides, globals, None, source, parse)?;
    Ok(ignore.with_strict_parents(setup.options.strict_parents))
}

/// The rules of a setup below a worktree root, with no directory pushed. Rules files are mapped to
/// the blobs that the index has for them.
fn ignore_stack_of_setup(alloc: Global, root: &[u8], setup: &Setup) -> Result<Stack, OutOfMemory>
    ensures made { IfOk result (λ stack. setup_of_stack stack ≡ stack_setup_of_setup root.now
        setup.now) }
    ensures in_step { (s : TreeAndObjects) → IfOk result (IsInStepWithTree s) }
{
    let ignore = ignore_state_of_setup(alloc, setup)?;
    let root = PathText::from_bytes(alloc, root)?;
    let state = State::IgnoreStack(ignore);
    Stack::from_state_and_ignore_case(alloc, root, setup.options.ignore_case, state, &setup.index)
}

/// The ignore rules of the work tree at `root`, where the options ask for them. They are made from
/// the setup alone, and read no rules file yet: so they are in step with any tree and store.
///
/// # Errors
///
/// Memory was refused.
///
/// See docs/DECISIONS.md#overrides-and-globals.
pub fn ignore_stack_if_excludes_option(
    alloc: Global,
    root: &[u8],
    setup: &Setup,
) -> Result<Option<Stack>, OutOfMemory>
    ensures made { IfOk result (λ excludes. setup_of_optional_stack excludes
        ≡ stack_setup_if_excludes_option root.now setup.now) }
    ensures in_step { (s : TreeAndObjects) → IfOk result (IsStackInStepIfGiven s) }
{
    if !setup.options.excludes {
        return Ok(None);
    }
    Ok(Some(ignore_stack_of_setup(alloc, root, setup)?))
}
