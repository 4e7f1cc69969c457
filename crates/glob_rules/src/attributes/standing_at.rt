//! What holds of a path, by lists.
ghost use Rattle.std.specs.Prelude.{◌≡◌, ◌++◌, reverse, IfOk, OnOk, option_copied};
ghost use Rattle.glob_rules.specs.AttributeValues as values;
ghost use Rattle.glob_rules.specs.AttributeValues.{path_assignments_reversed, line_assignments_for_path, lines_assignments_for_path, list_assignments_for_path};
ghost use Rattle.glob_rules.specs.Rule as rules;
ghost use Rattle.glob_rules.specs.Standing.{standing_after_assignments};

use super::Search;
use super::left::Left;
use super::list::{List, PathLine};
use super::sources::Sources;
use super::standing::Standing;
use super::word::Assigned;
use crate::Case;
use crate::pattern::{last_component, strip_directory_prefix};
use gitbase_core::OutOfMemory;
use std::alloc::Global;
use std::marker::Model;

/// Says words, from the last back, and at once what follows where one sets a macro.
fn apply_assignments_expanding_macros<'a>(
    alloc: Global,
    sources: &Sources<'a>,
    words: &'a [Assigned],
    standing: &mut Standing<'a>,
) -> Result<(), OutOfMemory>
    ensures { OnOk result (standing.new
        ≡ standing_after_assignments sources.now standing.old (reverse words.now)) }
{
    let mut left = Left::new(alloc, words);
    while let Some(assigned) = left.take() {
        if standing.add_if_first(assigned)? {
            left.put(sources.macro_expansion_if_set(assigned))?;
        }
    }
    Ok(())
}

/// What is asked of lists: a path, what is known of its kind, and how letters compare.
///
/// Contracts see a record.
#[derive(Drop)]
struct Question<'a> {
    path: &'a [u8],
    name: &'a [u8],
    is_dir: Option<bool>,
    case: Case,
}

impl<'a> Model for Question<'a> {
    ghost use Rattle.std.specs.Prelude.{◌≡◌};
    ghost use Rattle.glob_rules.specs.Rule.{last_component};
    ghost use Rattle.glob_rules.specs.Standing.{AttributeQuestion};

    ghost Value = { AttributeQuestion };

    ghost view = { λ q. record { path = q.path.now; is_dir = q.is_dir; case = q.case } };

    ghost invariant = { λ q. q.name.now ≡ last_component q.path.now };
}

/// What a line says of a path that reads `relative` from its directory.
fn assignments_for_path<'a>(
    line: &'a PathLine,
    question: &Question<'_>,
    relative: Option<&[u8]>,
) -> &'a [Assigned]
    ensures { result.now ≡ line_assignments_for_path (rules.last_component question.now.path)
        (option_copied relative.entry) question.now.is_dir question.now.case line.now }
{
    let is_dir = question.is_dir;
    if line
        .pattern
        .matches_name_or_relative_path(question.name, relative, is_dir, question.case)
    {
        line.assignments.as_slice()
    } else {
        &[]
    }
}

/// Says what lines say of a path that reads `relative` from their directory, from the last up.
fn apply_lines_matching_path<'a>(
    alloc: Global,
    sources: &Sources<'a>,
    lines: &'a [PathLine],
    question: &Question<'_>,
    relative: Option<&[u8]>,
    standing: &mut Standing<'a>,
) -> Result<(), OutOfMemory>
    ensures { OnOk result (standing.new ≡ standing_after_assignments sources.now standing.old
        (reverse (lines_assignments_for_path (rules.last_component question.now.path)
        (option_copied relative.entry) question.now.is_dir question.now.case lines.now))) }
{
    let mut rest = lines;
    while let Some((line, before)) = rest.split_last() {
        apply_assignments_expanding_macros(
            alloc,
            sources,
            assignments_for_path(line, question, relative),
            standing,
        )?;
        rest = before;
    }
    Ok(())
}

/// Says what a list says of a path.
fn apply_list_to_path<'a>(
    alloc: Global,
    sources: &Sources<'a>,
    list: &'a List,
    question: &Question<'_>,
    standing: &mut Standing<'a>,
) -> Result<(), OutOfMemory>
    ensures { OnOk result (standing.new ≡ standing_after_assignments sources.now standing.old
        (reverse (list_assignments_for_path question.now.path question.now.is_dir question.now.case
        list.now))) }
{
    let relative = strip_directory_prefix(question.path, list.base());
    apply_lines_matching_path(alloc, sources, list.lines(), question, relative, standing)
}

/// Says what lists say of a path, from the highest down.
fn apply_lists_to_path<'a>(
    alloc: Global,
    sources: &Sources<'a>,
    lists: &'a [List],
    question: &Question<'_>,
    standing: &mut Standing<'a>,
) -> Result<(), OutOfMemory>
    ensures { OnOk result (standing.new ≡ standing_after_assignments sources.now standing.old
        (path_assignments_reversed lists.now question.now.path question.now.is_dir question.now.case)) }
{
    let mut rest = lists;
    while let Some((list, before)) = rest.split_last() {
        apply_list_to_path(alloc, sources, list, question, standing)?;
        rest = before;
    }
    Ok(())
}

/// What stands of a path, by the lists of two searches.
pub fn standing_assignments_of_path<'a>(
    alloc: Global,
    globals: &'a Search,
    stack: &'a Search,
    path: &[u8],
    is_dir: Option<bool>,
    case: Case,
) -> Result<Standing<'a>, OutOfMemory>
    ensures { IfOk result (λ standing. standing
        ≡ values.standing_assignments_of_path (globals.now ++ stack.now) path.now is_dir case) }
{
    let sources = Sources::new(globals, stack);
    let question = Question {
        path,
        name: last_component(path),
        is_dir,
        case,
    };
    let mut standing = Standing::new(alloc);
    apply_lists_to_path(alloc, &sources, stack.lists(), &question, &mut standing)?;
    apply_lists_to_path(alloc, &sources, globals.lists(), &question, &mut standing)?;
    Ok(standing)
}
