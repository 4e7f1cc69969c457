//! The text of a rule as it stands in its file.
ghost use Rattle.std.specs.Prelude.{◌≡◌, IfOk, option_copied};
ghost use Rattle.check_ignore.specs.AsWritten as words;

use crate::found_rule::FoundRule;
use crate::options::{NamedRules, OuterRules};
use bstr::ByteSlice;
use gitbase_core::{Bytes, OutOfMemory};
use glob_rules::ignore::RuleGroup;
use std::alloc::Global;

/// The line of a number, from 1; no bytes where there is none.
fn line_at_number_or_empty(bytes: &[u8], number: usize) -> &[u8]
    ensures { result.now ≡ words.line_at_number_or_empty bytes.now number }
{
    let mut at = 0;
    for line in bytes.lines() {
        at += 1;
        if at == number {
            return line;
        }
    }
    b""
}

/// Whether a star stands at the front of a rule, behind its sign.
fn begins_with_star_past_negation(line: &[u8]) -> bool
    ensures { result ≡ words.begins_with_star_past_negation line.now }
{
    matches!(line, [b'*', ..] | [b'!', b'*', ..])
}

/// The text of a rule that stands in a line: a rule of stars alone is asked with a `?` in front.
fn strip_question_mark_of_star_rule<'a>(line: &[u8], text: &'a [u8]) -> &'a [u8]
    ensures { result.now ≡ words.strip_question_mark_of_star_rule line.now text.now }
{
    match text {
        [b'?', rest @ ..] if begins_with_star_past_negation(line) => rest,
        _ => text,
    }
}

/// What stands in a file, if it has this name.
fn rules_bytes_if_name_matches<'a>(source: &[u8], given: &'a Option<NamedRules>) -> Option<&'a [u8]>
    ensures { option_copied result ≡ words.rules_bytes_if_name_matches source.now given.now }
{
    match given {
        Some(given) if given.name.as_bytes() == source => Some(given.bytes.as_bytes()),
        _ => None,
    }
}

/// What stands in the file outside the work tree that has this name.
fn bytes_of_outer_rules_named<'a>(outer: &'a OuterRules, source: &[u8]) -> Option<&'a [u8]>
    ensures { option_copied result ≡ words.bytes_of_outer_rules_named outer.now source.now }
{
    match rules_bytes_if_name_matches(source, &outer.repository) {
        Some(bytes) => Some(bytes),
        None => rules_bytes_if_name_matches(source, &outer.user),
    }
}

/// The text of a rule of a file outside the work tree.
fn written_text_of_outer_rule<'a>(outer: &OuterRules, rule: &'a FoundRule) -> &'a [u8]
    ensures { result.now ≡ words.written_text_of_outer_rule rule.now
        (words.bytes_of_outer_rules_named outer.now rule.now.source) }
{
    let text = rule.text.as_bytes();
    match bytes_of_outer_rules_named(outer, rule.source.as_bytes()) {
        Some(bytes) => strip_question_mark_of_star_rule(
            line_at_number_or_empty(bytes, rule.line),
            text,
        ),
        None => text,
    }
}

/// Such a rule with its text as it is written.
fn outer_rule_as_written(
    alloc: Global,
    outer: &OuterRules,
    rule: FoundRule,
) -> Result<FoundRule, OutOfMemory>
    ensures { IfOk result (λ made. made ≡ words.outer_rule_as_written outer.now rule) }
{
    let text = Bytes::from_slice(alloc, written_text_of_outer_rule(outer, &rule))?;
    let mut rule = rule;
    rule.text = text;
    Ok(rule)
}

/// The rule that decides, if one does, with its text as it is written.
#[tactic(auto, unfolding(crate::specs::AsWritten::rule_as_written_if_outer))]
pub fn rule_as_written_if_outer(
    alloc: Global,
    outer: &OuterRules,
    rule: Option<FoundRule>,
) -> Result<Option<FoundRule>, OutOfMemory>
    ensures { IfOk result (λ made. made ≡ words.rule_as_written_if_outer outer.now rule) }
{
    let Some(rule) = rule else {
        return Ok(None);
    };
    match rule.group {
        RuleGroup::Overrides => Ok(Some(rule)),
        RuleGroup::Directory { depth: _ } => Ok(Some(rule)),
        RuleGroup::Globals => Ok(Some(outer_rule_as_written(alloc, outer, rule)?)),
    }
}
