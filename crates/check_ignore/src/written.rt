//! The pattern of a rule, as its line has it.
ghost use Rattle.std.specs.Prelude.{◌≡◌, ◌++◌, ◌-◌, Ok, IfOk, OnOk, map, slice_get};
ghost use Rattle.check_ignore.specs.Finds.{FindsInTree};
ghost use Rattle.check_ignore.specs.Lines as words;

use crate::found_rule::FoundRule;
use crate::options::{NamedRules, OuterRules};
use crate::stop::Stop;
use gitbase_core::{Bytes, OutOfMemory, without_byte_order_mark};
use glob_rules::ignore::RuleGroup;
use std::alloc::Global;
use worktree_fs::{ReadAnswer, Worktree};

/// The text of what a path leads to, no bytes where that is no file.
fn read_file_or_empty<W: Worktree>(
    alloc: Global,
    worktree: &mut W,
    path: &[u8],
) -> Result<Bytes, Stop>
    ensures { FindsInTree W.Worktree worktree.old worktree.new
        (λ t. Ok (words.read_file_or_empty t path.now)) result }
{
    let mut bytes = Bytes::new(alloc);
    match worktree.read(alloc, path, true, &mut bytes)? {
        ReadAnswer::Read => Ok(bytes),
        _ => Ok(Bytes::new(alloc)),
    }
}

/// Whether rules are named so.
fn has_rules_name(given: &Option<NamedRules>, name: &[u8]) -> bool
    ensures { result ≡ words.has_rules_name given.now name.now }
{
    match given {
        Some(given) => given.name.as_bytes() == name,
        None => false,
    }
}

/// What is read of rules.
fn bytes_of_rules_or_empty(given: &Option<NamedRules>) -> &[u8]
    ensures { result.now ≡ words.bytes_of_rules_or_empty given.now }
{
    match given {
        Some(given) => given.bytes.as_bytes(),
        None => b"",
    }
}

/// The text of the rules outside the work tree that are named so.
fn repository_rules_if_named_else_user<'a>(outer: &'a OuterRules, name: &[u8]) -> &'a [u8]
    ensures { result.now ≡ words.repository_rules_if_named_else_user outer.now name.now }
{
    if has_rules_name(&outer.repository, name) {
        return bytes_of_rules_or_empty(&outer.repository);
    }
    bytes_of_rules_or_empty(&outer.user)
}

/// The text of the list of a rule.
fn text_of_rule_source<W: Worktree>(
    alloc: Global,
    worktree: &mut W,
    outer: &OuterRules,
    rule: &FoundRule,
) -> Result<Bytes, Stop>
    ensures { FindsInTree W.Worktree worktree.old worktree.new
        (λ t. Ok (words.text_of_rule_source t outer.now rule.now)) result }
{
    let source = rule.source.as_bytes();
    match rule.group {
        RuleGroup::Globals => Ok(Bytes::from_slice(
            alloc,
            repository_rules_if_named_else_user(outer, source),
        )?),
        RuleGroup::Directory { depth: _ } => read_file_or_empty(alloc, worktree, source),
        RuleGroup::Overrides => read_file_or_empty(alloc, worktree, source),
    }
}

fn lines_at_line_feeds(alloc: Global, text: &[u8]) -> Result<Vec<&[u8]>, OutOfMemory>
    ensures { IfOk result (λ lines. map (λ line. line.now) lines.items
        ≡ words.lines_at_line_feeds text.now) }
{
    Ok(text.split(|b| *b == b'\n').collect(alloc)?)
}

/// What is left of a line without the sign at its front, if there is one.
fn without_negation_sign(line: &[u8]) -> &[u8]
    ensures { result.now ≡ words.without_negation_sign line.now }
{
    match line {
        [b'!', rest @ ..] => rest,
        _ => line,
    }
}

/// Whether a slash stands before the pattern of a line.
fn begins_with_slash_past_negation(line: &[u8]) -> bool
    ensures { result ≡ words.begins_with_slash_past_negation line.now }
{
    match without_negation_sign(line) {
        [first, ..] => *first == b'/',
        [] => false,
    }
}

/// Whether one stands before that of the line of this number.
fn is_line_at_number_anchored(
    alloc: Global,
    text: &[u8],
    number: usize,
) -> Result<bool, OutOfMemory>
    ensures { IfOk result (λ is. is ≡ words.is_line_at_number_anchored text.now number) }
{
    let lines = lines_at_line_feeds(alloc, without_byte_order_mark(text))?;
    match lines.get(number.saturating_sub(1)) {
        Some(line) => Ok(begins_with_slash_past_negation(line)),
        None => Ok(false),
    }
}

/// Adds a mark, where it stands.
fn append_bytes_if_flag(text: &mut Vec<u8>, there: bool, mark: &[u8]) -> Result<(), OutOfMemory>
    ensures { OnOk result (text.new.items ≡ text.old.items ++ words.bytes_or_empty_by_flag there
        mark.now) }
{
    if there {
        text.extend_from_slice(mark)?;
    }
    Ok(())
}

/// The pattern with the marks around it.
fn pattern_with_negation_and_slashes(
    alloc: Global,
    rule: &FoundRule,
    anchored: bool,
) -> Result<Bytes, OutOfMemory>
    ensures { IfOk result (λ text. text ≡ words.pattern_with_negation_and_slashes rule.now
        anchored) }
{
    let mut text = Vec::new(alloc);
    append_bytes_if_flag(&mut text, rule.is_negative, b"!")?;
    append_bytes_if_flag(&mut text, anchored, b"/")?;
    text.extend_from_slice(rule.text.as_bytes())?;
    append_bytes_if_flag(&mut text, rule.must_be_dir, b"/")?;
    Ok(Bytes::from_vec(text))
}

/// The pattern of a rule, as its line has it.
pub fn written_pattern_of_rule<W: Worktree>(
    alloc: Global,
    worktree: &mut W,
    outer: &OuterRules,
    rule: &FoundRule,
) -> Result<Bytes, Stop>
    ensures { FindsInTree W.Worktree worktree.old worktree.new
        (λ t. Ok (words.written_pattern_of_rule t outer.now rule.now)) result }
{
    let text = text_of_rule_source(alloc, worktree, outer, rule)?;
    let anchored = is_line_at_number_anchored(alloc, text.as_bytes(), rule.line)?;
    Ok(pattern_with_negation_and_slashes(alloc, rule, anchored)?)
}
