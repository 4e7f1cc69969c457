//! What is written of a path.
ghost use Rattle.std.specs.Prelude.{◌≡◌, ◌++◌, decimal, Ok, IfOk, OnOk};
ghost use Rattle.check_ignore.specs.Finds.{FindsInTree};
ghost use Rattle.check_ignore.specs.Lines as words;

use crate::found_rule::FoundRule;
use crate::options::{Checking, OuterRules};
use crate::stop::Stop;
use crate::written::written_pattern_of_rule;
use git_paths::append_path_quoted_if_needed;
use gitbase_core::{Bytes, OutOfMemory, strip_directory_prefix};
use glob_rules::ignore::RuleGroup;
use std::alloc::Global;
use worktree_fs::Worktree;

/// A path from the top, or the path itself where it does not lie beneath that.
fn path_relative_to_root_if_beneath<'a>(root: &[u8], path: &'a [u8]) -> &'a [u8]
    ensures { result.now ≡ words.path_relative_to_root_if_beneath root.now path.now }
{
    match strip_directory_prefix(path, root) {
        Some(rest) => rest,
        None => path,
    }
}

/// Where the list of a rule was read.
fn displayed_source_of_rule<'a>(root: &[u8], rule: &'a FoundRule) -> &'a [u8]
    ensures { result.now ≡ words.displayed_source_of_rule root.now rule.now.source rule.now.group }
{
    let source = rule.source.as_bytes();
    match rule.group {
        RuleGroup::Overrides => source,
        RuleGroup::Directory { depth: _ } => path_relative_to_root_if_beneath(root, source),
        RuleGroup::Globals => source,
    }
}

/// Adds a decimal number.
fn append_decimal(alloc: Global, text: &mut Vec<u8>, number: usize) -> Result<(), OutOfMemory>
    ensures { OnOk result (text.new.items ≡ text.old.items ++ decimal number) }
{
    let digits = format!(in alloc; "{number}")?;
    text.extend_from_slice(digits.as_bytes())?;
    Ok(())
}

/// A byte that is written, or with `-z` a NUL in its place.
fn byte_or_nul_if_z(checking: &Checking, byte: u8) -> u8
    ensures { result ≡ words.byte_or_nul_if_z checking.now byte }
{
    if checking.ends_in_nul { 0 } else { byte }
}

/// Adds a path in quotes, where it needs them; with `-z` as it is.
fn append_path_quoted_unless_z(
    text: &mut Vec<u8>,
    checking: &Checking,
    path: &[u8],
) -> Result<(), OutOfMemory>
    ensures { OnOk result (text.new.items ≡ text.old.items
        ++ words.path_quoted_unless_z checking.now path.now) }
{
    if checking.ends_in_nul {
        text.extend_from_slice(path)?;
        return Ok(());
    }
    append_path_quoted_if_needed(text, path, checking.quote_path)
}

/// Adds a path and what ends its line.
fn append_path_and_terminator(
    text: &mut Vec<u8>,
    checking: &Checking,
    path: &[u8],
) -> Result<(), OutOfMemory>
    ensures { OnOk result (text.new.items ≡ text.old.items
        ++ words.path_with_terminator checking.now path.now) }
{
    append_path_quoted_unless_z(text, checking, path)?;
    text.push(byte_or_nul_if_z(checking, b'\n'))?;
    Ok(())
}

/// Adds what stands before a path: the rule that decides about it.
fn append_source_line_number_and_pattern(
    alloc: Global,
    text: &mut Vec<u8>,
    checking: &Checking,
    root: &[u8],
    rule: &FoundRule,
    pattern: &[u8],
) -> Result<(), OutOfMemory>
    ensures { OnOk result (text.new.items ≡ text.old.items
        ++ words.source_line_number_and_pattern checking.now root.now rule.now pattern.now) }
{
    append_path_quoted_unless_z(text, checking, displayed_source_of_rule(root, rule))?;
    text.push(byte_or_nul_if_z(checking, b':'))?;
    append_decimal(alloc, text, rule.line)?;
    text.push(byte_or_nul_if_z(checking, b':'))?;
    text.extend_from_slice(pattern)?;
    text.push(byte_or_nul_if_z(checking, b'\t'))?;
    Ok(())
}

/// A path, and the rule that decides about it.
fn verbose_line_of_rule(
    alloc: Global,
    checking: &Checking,
    root: &[u8],
    path: &[u8],
    rule: &FoundRule,
    pattern: &[u8],
) -> Result<Bytes, OutOfMemory>
    ensures { IfOk result (λ line. line ≡ words.verbose_line_of_rule checking.now root.now path.now
        rule.now pattern.now) }
{
    let mut text = Vec::new(alloc);
    append_source_line_number_and_pattern(alloc, &mut text, checking, root, rule, pattern)?;
    append_path_and_terminator(&mut text, checking, path)?;
    Ok(Bytes::from_vec(text))
}

/// A path about which no rule decides.
fn unmatched_path_line_if_requested(
    alloc: Global,
    checking: &Checking,
    path: &[u8],
) -> Result<Bytes, OutOfMemory>
    ensures { IfOk result (λ line. line ≡ words.unmatched_path_line_if_requested checking.now
        path.now) }
{
    let mut text = Vec::new(alloc);
    if !checking.non_matching {
        return Ok(Bytes::from_vec(text));
    }
    text.push(byte_or_nul_if_z(checking, b':'))?;
    text.push(byte_or_nul_if_z(checking, b':'))?;
    text.push(byte_or_nul_if_z(checking, b'\t'))?;
    append_path_and_terminator(&mut text, checking, path)?;
    Ok(Bytes::from_vec(text))
}

/// What is written of a path with `-v`.
fn verbose_line<W: Worktree>(
    alloc: Global,
    worktree: &mut W,
    root: &[u8],
    outer: &OuterRules,
    checking: &Checking,
    path: &[u8],
    rule: &Option<FoundRule>,
) -> Result<Bytes, Stop>
    ensures { FindsInTree W.Worktree worktree.old worktree.new
        (λ t. Ok (words.verbose_line t root.now outer.now checking.now path.now rule.now)) result }
{
    let Some(rule) = rule else {
        return Ok(unmatched_path_line_if_requested(alloc, checking, path)?);
    };
    let pattern = written_pattern_of_rule(alloc, worktree, outer, rule)?;
    Ok(verbose_line_of_rule(alloc, checking, root, path, rule, pattern.as_bytes())?)
}

/// What is written of a path without `-v`.
fn path_line_if_matched(
    alloc: Global,
    checking: &Checking,
    path: &[u8],
    rule: &Option<FoundRule>,
) -> Result<Bytes, OutOfMemory>
    ensures { IfOk result (λ line. line ≡ words.path_line_if_matched checking.now path.now
        rule.now) }
{
    let mut text = Vec::new(alloc);
    if rule.is_none() {
        return Ok(Bytes::from_vec(text));
    }
    append_path_and_terminator(&mut text, checking, path)?;
    Ok(Bytes::from_vec(text))
}

/// What is written of a path by the rule that decides about it.
pub fn line<W: Worktree>(
    alloc: Global,
    worktree: &mut W,
    root: &[u8],
    outer: &OuterRules,
    checking: &Checking,
    path: &[u8],
    rule: &Option<FoundRule>,
) -> Result<Bytes, Stop>
    ensures { FindsInTree W.Worktree worktree.old worktree.new
        (λ t. Ok (words.line t root.now outer.now checking.now path.now rule.now)) result }
{
    if checking.quiet {
        return Ok(Bytes::new(alloc));
    }
    if checking.verbose {
        return verbose_line(alloc, worktree, root, outer, checking, path, rule);
    }
    Ok(path_line_if_matched(alloc, checking, path, rule)?)
}
