//! Rules that leave the top of the work tree alone.
//!
//! Git asks no rule about the top. Here a rule is asked about it, by a name without bytes, and what
//! excludes the top excludes all. So a rule of stars alone, which matches that name too, gets a `?`
//! in front: `?*` matches every other name, as `*` does.
ghost use Rattle.std.specs.Prelude.{◌≡◌, ◌++◌, [], ◌∷◌, IfOk, OnOk};
ghost use Rattle.git_setup.specs.BelowTop as words;

use bstr::ByteSlice;
use gitbase_core::{Bytes, OutOfMemory};
use std::alloc::Global;

/// What follows a byte at the front of a text, as often as it stands there.
fn skip_repeated_byte(mark: u8, text: &[u8]) -> &[u8]
    ensures { result.now ≡ words.skip_repeated_byte mark text.now }
{
    let mut at = 0;
    while at < text.len() && text[at] == mark {
        at += 1;
    }
    &text[at..]
}

/// What follows a slash at the front, if one is there.
fn skip_one_leading_slash(text: &[u8]) -> &[u8]
    ensures { result.now ≡ words.skip_one_leading_slash text.now }
{
    match text {
        [b'/', rest @ ..] => rest,
        _ => text,
    }
}

/// Whether nothing is left of a line.
fn is_line_end_or_empty(text: &[u8]) -> bool
    ensures { result ≡ words.is_line_end_or_empty text.now }
{
    matches!(text, [] | [b'\n'] | [b'\r', b'\n'])
}

/// Whether a rule is of stars alone, with a slash or spaces behind them or not.
fn is_rule_of_stars_only(rule: &[u8]) -> bool
    ensures { result ≡ words.is_rule_of_stars_only rule.now }
{
    match rule {
        [b'*', ..] => is_line_end_or_empty(skip_repeated_byte(
            b' ',
            skip_one_leading_slash(skip_repeated_byte(b'*', rule)),
        )),
        _ => false,
    }
}

/// Adds a rule without its sign.
fn append_rule_question_marked_if_stars(
    alloc: Global,
    rules: &mut Bytes,
    rule: &[u8],
) -> Result<(), OutOfMemory>
    ensures { OnOk result (rules.new ≡ rules.old ++ words.rule_question_marked_if_stars rule.now) }
{
    if is_rule_of_stars_only(rule) {
        rules.extend(alloc, b"?")?;
    }
    rules.extend(alloc, rule)?;
    Ok(())
}

/// Adds a line.
fn append_line_question_marked_if_stars(
    alloc: Global,
    rules: &mut Bytes,
    line: &[u8],
) -> Result<(), OutOfMemory>
    ensures { OnOk result (rules.new ≡ rules.old ++ words.line line.now) }
{
    match line {
        [b'!', rest @ ..] => {
            rules.extend(alloc, b"!")?;
            append_rule_question_marked_if_stars(alloc, rules, rest)
        }
        _ => append_rule_question_marked_if_stars(alloc, rules, line),
    }
}

/// The same rules, line by line; those of stars alone, with or without a sign, have a `?` in front.
///
/// Fails only where memory is refused. See docs/DIFFERENCES.md#empty-match.
#[tactic(auto, unfolding(crate::specs::BelowTop::exempt_top_from_star_rules))]
pub fn exempt_top_from_star_rules(alloc: Global, rules: &[u8]) -> Result<Bytes, OutOfMemory>
    ensures { IfOk result (λ made. made ≡ words.exempt_top_from_star_rules rules.now) }
{
    let mut made = Bytes::new(alloc);
    for line in rules.lines_with_terminator() {
        append_line_question_marked_if_stars(alloc, &mut made, line)?;
    }
    Ok(made)
}
