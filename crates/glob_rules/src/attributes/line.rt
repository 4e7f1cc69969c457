//! The lines of a file of attributes.
ghost use Rattle.std.specs.Prelude.{◌≡◌, ◌≤◌, length, true, None, IfOk, option_and_then, option_copied};
ghost use Rattle.glob_rules.specs.AttributeLines as lines;

use super::quoted::unquoted_text_and_rest;
use super::word::{
    Assignments, is_attribute_name, is_space_or_tab, length_before_first_blank, read_assignments,
};
use crate::Pattern;
use bstr::ByteSlice;
use gitbase_core::{Bytes, OutOfMemory, without_byte_order_mark};
use std::alloc::Global;

/// What a line speaks of.
#[derive(Debug, Drop)]
pub enum Head {
    /// The paths that a pattern matches.
    Paths(Pattern),
    /// Whatever has the attribute of this name set.
    Macro(Bytes),
}

/// A line that says something.
#[derive(Debug, Drop)]
pub struct Line {
    pub number: usize,
    pub head: Head,
    pub assignments: Assignments,
}

/// The bytes without the blanks at their front.
fn without_leading_blanks(bytes: &[u8]) -> &[u8]
    ensures { result.now ≡ lines.without_leading_blanks bytes.now }
{
    let mut rest = bytes;
    while let Some((byte, after)) = rest.split_first() {
        if !is_space_or_tab(*byte) {
            return rest;
        }
        rest = after;
    }
    rest
}

/// The name behind `[attr]`; where nothing is behind it, it is a pattern.
/// See docs/DIFFERENCES.md#attributes-macro-name.
fn name_after_attr_prefix(text: &[u8]) -> Option<&[u8]>
    ensures { option_copied result ≡ lines.name_after_attr_prefix text.now }
{
    if !text.starts_with(b"[attr]") {
        return None;
    }
    match &text[6..] {
        [] => None,
        name => Some(name),
    }
}

/// What a pattern is the head of; none where it is negative.
fn head_of_positive_pattern(alloc: Global, text: &[u8]) -> Result<Option<Head>, OutOfMemory>
    ensures { IfOk result (λ head. head ≡ lines.head_of_pattern_or_macro_name true text.now None) }
{
    match text {
        [b'!', ..] => Ok(None),
        _ => match Pattern::parse(alloc, text)? {
            Some(pattern) => Ok(Some(Head::Paths(pattern))),
            None => Ok(None),
        },
    }
}

/// What the front of a line is the head of.
fn head_of_pattern_or_macro(
    alloc: Global,
    macros: bool,
    text: &[u8],
) -> Result<Option<Head>, OutOfMemory>
    ensures { IfOk result (λ head. head ≡ lines.head_of_pattern_or_macro macros text.now) }
{
    let Some(name) = name_after_attr_prefix(text) else {
        return head_of_positive_pattern(alloc, text);
    };
    if macros && is_attribute_name(name) {
        Ok(Some(Head::Macro(Bytes::from_slice(alloc, name)?)))
    } else {
        Ok(None)
    }
}

/// A line of its parts: what it begins with, and the words.
fn line_from_front_and_words(
    alloc: Global,
    macros: bool,
    number: usize,
    front: &[u8],
    rest: &[u8],
) -> Result<Option<Line>, OutOfMemory>
    ensures { IfOk result (λ line. line ≡ lines.line_from_front_and_words macros number
        (front.now, rest.now)) }
{
    let Some(head) = head_of_pattern_or_macro(alloc, macros, front)? else {
        return Ok(None);
    };
    Ok(Some(Line {
        number,
        head,
        assignments: read_assignments(alloc, rest)?,
    }))
}

/// What a line without blanks at its front says, if it says anything.
fn parse_line_without_leading_blanks(
    alloc: Global,
    macros: bool,
    number: usize,
    text: &[u8],
) -> Result<Option<Line>, OutOfMemory>
    ensures { IfOk result (λ line. line ≡ option_and_then (lines.line_from_front_and_words macros
        number) (lines.pattern_and_rest_of_line text.now)) }
{
    match text {
        [] => Ok(None),
        [b'#', ..] => Ok(None),
        [b'"', quoted @ ..] => match unquoted_text_and_rest(alloc, quoted)? {
            Some((front, rest)) => line_from_front_and_words(
                alloc,
                macros,
                number,
                front.as_bytes(),
                rest,
            ),
            None => Ok(None),
        },
        _ => {
            let (front, rest) = text.split_at(length_before_first_blank(text));
            line_from_front_and_words(alloc, macros, number, front, rest)
        }
    }
}

/// What the lines of a file say.
/// See docs/DECISIONS.md#attribute-lines.
/// See docs/DIFFERENCES.md#attributes-returns.
/// See docs/DIFFERENCES.md#attributes-long-line.
/// See docs/DIFFERENCES.md#attributes-nul.
pub fn read_attribute_lines(
    alloc: Global,
    macros: bool,
    bytes: &[u8],
) -> Result<Vec<Line>, OutOfMemory>
    ensures { IfOk result (λ made. made.items ≡ lines.lines macros bytes.now) }
{
    let mut made = Vec::new(alloc);
    let mut number = 0;
    for text in without_byte_order_mark(bytes).lines() {
        number += 1;
        if let Some(line) = parse_line_without_leading_blanks(
            alloc,
            macros,
            number,
            without_leading_blanks(text),
        )? {
            made.push(line)?;
        }
    }
    Ok(made)
}
