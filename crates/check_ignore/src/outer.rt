//! The stack of ignore rules.
ghost use Rattle.std.specs.Prelude.{◌≡◌, ◌++◌, [], ◌∷◌, IfOk, OnOk, option_map};
ghost use Rattle.glob_rules.specs.Ignore.{matched_rule_of_match};
ghost use Rattle.worktree_stack.specs.Mappings.{case_by_ignore_case};
ghost use Rattle.worktree_stack.specs.Reading.{TreeAndObjects};
ghost use Rattle.worktree_stack.specs.Stacked.{IsInStepWithTree, setup_of_stack};
ghost use Rattle.check_ignore.specs.Outer as words;

use crate::found_rule::RulePlace;
use crate::options::{NamedRules, OuterRules};
use git_setup::exempt_top_from_star_rules;
use gitbase_core::{Bytes, OutOfMemory, PathText, State as Index};
use glob_rules::Case;
use glob_rules::ignore::{List, Match, ParseIgnore, Search};
use std::alloc::Global;
use worktree_stack::ignore_source::Source;
use worktree_stack::{Ignore, Stack, State};

/// No rule is for files that are worth keeping.
const PARSE: ParseIgnore = ParseIgnore {
    support_precious: false,
};

/// The rules of a file outside the work tree, as they leave its top alone.
fn list_of(alloc: Global, given: &NamedRules) -> Result<List, OutOfMemory>
    ensures { IfOk result (λ list. list ≡ words.list_of given.now) }
{
    let name = PathText::from_bytes(alloc, given.name.as_bytes())?;
    let rules = exempt_top_from_star_rules(alloc, given.bytes.as_bytes())?;
    List::from_bytes(
        alloc,
        rules.as_bytes(),
        Some(name),
        PathText::new(alloc),
        PARSE,
    )
}

/// Adds such rules above others, if there are some.
fn push_list_if_given(
    alloc: Global,
    search: &mut Search,
    given: &Option<NamedRules>,
) -> Result<(), OutOfMemory>
    ensures { OnOk result (search.new ≡ search.old ++ words.lists_of_optional_rules given.now) }
{
    match given {
        Some(given) => search.push_list(alloc, list_of(alloc, given)?),
        None => Ok(()),
    }
}

/// The rules below those of all directories.
fn search_of_user_and_repository_rules(
    alloc: Global,
    outer: &OuterRules,
) -> Result<Search, OutOfMemory>
    ensures { IfOk result (λ search. search ≡ words.search_of_user_and_repository_rules outer.now) }
{
    let mut search = Search::new(alloc);
    push_list_if_given(alloc, &mut search, &outer.user)?;
    push_list_if_given(alloc, &mut search, &outer.repository)?;
    Ok(search)
}

/// Where the list of a match was read.
pub fn source_or_empty<'a>(found: &Match<'a>) -> &'a [u8]
    ensures { result.now ≡ words.source_or_empty (matched_rule_of_match found.now) }
{
    match found.source {
        Some(source) => source,
        None => b"",
    }
}

/// Where the rule of a match stands.
fn file_and_line_of_match(alloc: Global, found: &Match<'_>) -> Result<RulePlace, OutOfMemory>
    ensures { IfOk result (λ place. place ≡ words.file_and_line_of_hit
        (matched_rule_of_match found.now)) }
{
    Ok(RulePlace {
        file: Bytes::from_slice(alloc, source_or_empty(found))?,
        line: found.sequence_number as usize,
    })
}

/// Where the rule stands, if there is one, and it excludes.
fn place_of_match_if_excluding(
    alloc: Global,
    found: &Option<Match<'_>>,
) -> Result<Option<RulePlace>, OutOfMemory>
    ensures { IfOk result (λ place. place ≡ words.place_of_match_if_excluding
        (option_map matched_rule_of_match found.now)) }
{
    let Some(found) = found else {
        return Ok(None);
    };
    if found.pattern.is_negative() {
        return Ok(None);
    }
    Ok(Some(file_and_line_of_match(alloc, found)?))
}

/// How letters compare.
fn case_by_ignore_case(ignore_case: bool) -> Case
    ensures { result ≡ case_by_ignore_case ignore_case }
{
    if ignore_case {
        Case::Fold
    } else {
        Case::Sensitive
    }
}

/// Where the rule outside the work tree stands that excludes a path without a name. None where no
/// rule does.
pub fn place_of_outer_rule_excluding_top(
    alloc: Global,
    outer: &OuterRules,
    ignore_case: bool,
) -> Result<Option<RulePlace>, OutOfMemory>
    ensures { IfOk result (λ place. place ≡ words.place_of_outer_rule_excluding_top outer.now
        ignore_case) }
{
    let globals = search_of_user_and_repository_rules(alloc, outer)?;
    let case = case_by_ignore_case(ignore_case);
    let found = globals.pattern_matching_relative_path(b"", Some(true), case);
    place_of_match_if_excluding(alloc, &found)
}

/// The rules, before any directory is looked at.
fn ignore_of_outer_rules(alloc: Global, outer: &OuterRules) -> Result<Ignore, OutOfMemory>
    ensures made { IfOk result (λ ignore. ignore.setup ≡ words.ignore_setup_of_outer_rules
        outer.now) }
    ensures lists { IfOk result (λ ignore. ignore.lists ≡ []) }
    ensures matches { IfOk result (λ ignore. ignore.matches ≡ []) }
{
    let globals = search_of_user_and_repository_rules(alloc, outer)?;
    let source = Source::WorktreeThenIdMappingIfNotSkipped;
    let none = Search::new(alloc);
    let ignore = Ignore::new(alloc, none, globals, None, source, PARSE)?;
    Ok(ignore.with_strict_parents(true))
}

/// The rules below the top of a work tree, with no directory pushed: they are in step with any tree
/// and store.
pub fn ignore_stack_of_work_tree(
    alloc: Global,
    root: &[u8],
    index: &Index,
    outer: &OuterRules,
    ignore_case: bool,
) -> Result<Stack, OutOfMemory>
    ensures made { IfOk result (λ stack. setup_of_stack stack
        ≡ words.stack_setup_of_work_tree root.now index.now outer.now ignore_case) }
    ensures in_step { (s : TreeAndObjects) → IfOk result (IsInStepWithTree s) }
{
    let ignore = ignore_of_outer_rules(alloc, outer)?;
    let root = PathText::from_bytes(alloc, root)?;
    let state = State::IgnoreStack(ignore);
    Stack::from_state_and_ignore_case(alloc, root, ignore_case, state, index)
}
