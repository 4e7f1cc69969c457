//! What the words of a line say of attributes.
ghost use Rattle.std.specs.Prelude.{◌≡◌, ◌≤◌, ◌+◌, ◌∷◌, [], length, IfOk, MatchOption};
ghost use Rattle.std.specs.List.{list_all, position_or_len, slice_split};
ghost use Rattle.glob_rules.specs.AttributeWords as words;
ghost use Rattle.glob_rules.specs.AttributeWords.{is_space_or_tab, is_equals_sign};

use super::Assignment;
use crate::glob::bytes_from_offset;
use gitbase_core::{Bytes, OutOfMemory};
use std::alloc::{AllocError, Global};
use std::marker::Model;

/// What is said of one attribute.
#[derive(Debug, Drop)]
pub struct Assigned {
    pub name: Bytes,
    pub state: Assignment,
}

/// What a line says of attributes, in the order of its words.
///
/// Contracts see the list.
#[derive(Debug, Drop)]
pub struct Assignments {
    items: Vec<Assigned>,
}

impl Model for Assignments {
    ghost use Rattle.std.specs.Prelude.{List};
    ghost use Rattle.glob_rules.specs.declared.attributes.word.Assigned as declared;

    ghost Value = { List declared.Assigned };

    ghost view = { λ assignments. assignments.items.items };
}

impl Clone for Assigned {
    ghost is_clone = { λ assigned copy. copy ≡ assigned };

    fn clone(&self) -> Result<Assigned, AllocError> {
        Ok(Assigned {
            name: self.name.clone()?,
            state: self.state.clone()?,
        })
    }
}

impl Assignments {
    /// The assignments in their order.
    pub fn as_slice(&self) -> &[Assigned]
        ensures { result.now ≡ self.now }
    {
        &self.items
    }
}

impl Clone for Assignments {
    ghost is_clone = { λ assignments copy. copy ≡ assignments };

    fn clone(&self) -> Result<Assignments, AllocError> {
        Ok(Assignments {
            items: self.items.clone()?,
        })
    }
}

/// A space or a tab.
pub fn is_space_or_tab(byte: u8) -> bool
    ensures { result ≡ words.is_space_or_tab byte }
{
    byte == b' ' || byte == b'\t'
}

/// How many bytes stand before the first blank.
pub fn length_before_first_blank(text: &[u8]) -> usize
    ensures within { result ≤ length text.now }
    ensures value { result ≡ position_or_len is_space_or_tab text.now }
{
    let mut at = 0;
    while at < text.len() && !is_space_or_tab(text[at]) {
        at += 1;
    }
    at
}

/// The first of the words of a text, and what follows the blank behind it.
fn split_at_first_blank(text: &[u8]) -> (&[u8], Option<&[u8]>)
    ensures words { MatchOption result.1 (slice_split is_space_or_tab text.now ≡ result.0.now ∷ [])
        (λ rest. slice_split is_space_or_tab text.now ≡ result.0.now ∷ slice_split is_space_or_tab
        rest.now) }
    ensures lengths { MatchOption result.1 (result.0.now ≡ text.now)
        (λ rest. length result.0.now + 1 + length rest.now ≡ length text.now) }
{
    let at = length_before_first_blank(text);
    if at < text.len() {
        (&text[..at], Some(bytes_from_offset(text, at + 1)))
    } else {
        (text, None)
    }
}

/// An ASCII letter.
fn is_ascii_letter(byte: u8) -> bool
    ensures { result ≡ words.is_ascii_letter byte }
{
    matches!(byte, b'A'..=b'Z' | b'a'..=b'z')
}

/// A decimal digit.
fn is_decimal_digit(byte: u8) -> bool
    ensures { result ≡ words.is_decimal_digit byte }
{
    matches!(byte, b'0'..=b'9')
}

/// A letter, a digit, `-`, `.` or `_`.
fn is_attribute_name_byte(byte: u8) -> bool
    ensures { result ≡ words.is_attribute_name_byte byte }
{
    is_ascii_letter(byte) || is_decimal_digit(byte) || byte == b'-' || byte == b'.' || byte == b'_'
}

/// Whether all bytes may stand in the name of an attribute.
fn are_all_attribute_name_bytes(text: &[u8]) -> bool
    ensures { result ≡ list_all words.is_attribute_name_byte text.now }
{
    text.iter().all(|byte| is_attribute_name_byte(*byte))
}

/// Whether the text is the name of an attribute.
/// See docs/DIFFERENCES.md#attributes-reserved.
pub fn is_attribute_name(text: &[u8]) -> bool
    ensures { result ≡ words.is_attribute_name text.now }
{
    match text {
        [] => false,
        [b'-', ..] => false,
        _ => are_all_attribute_name_bytes(text),
    }
}

/// What is said of a name; nothing where it is none.
fn assignment_if_valid_name(
    alloc: Global,
    name: &[u8],
    state: Assignment,
) -> Result<Option<Assigned>, OutOfMemory>
    ensures { IfOk result (λ made. made ≡ words.assignment_if_valid_name name.now state) }
{
    if !is_attribute_name(name) {
        return Ok(None);
    }
    Ok(Some(Assigned {
        name: Bytes::from_slice(alloc, name)?,
        state,
    }))
}

/// How many bytes stand before the first `=`.
fn length_before_first_equals(word: &[u8]) -> usize
    ensures within { result ≤ length word.now }
    ensures value { result ≡ position_or_len is_equals_sign word.now }
{
    let mut at = 0;
    while at < word.len() && word[at] != b'=' {
        at += 1;
    }
    at
}

/// What the rest of a word from its first `=` on says.
/// See docs/DECISIONS.md#attribute-unspecified.
fn state_from_rest_at_equals(alloc: Global, rest: &[u8]) -> Result<Assignment, OutOfMemory>
    ensures { IfOk result (λ state. state ≡ words.state_from_rest_at_equals rest.now) }
{
    match rest {
        [] => Ok(Assignment::Set),
        [_, value @ ..] => Ok(Assignment::Value(Bytes::from_slice(alloc, value)?)),
    }
}

/// What a word without a mark at its front says.
fn parse_unprefixed_assignment(alloc: Global, word: &[u8]) -> Result<Option<Assigned>, OutOfMemory>
    ensures { IfOk result (λ made. made ≡ words.parse_unprefixed_assignment word.now) }
{
    let (name, rest) = word.split_at(length_before_first_equals(word));
    let state = state_from_rest_at_equals(alloc, rest)?;
    assignment_if_valid_name(alloc, name, state)
}

/// What a word says.
fn parse_assignment_word(alloc: Global, word: &[u8]) -> Result<Option<Assigned>, OutOfMemory>
    ensures { IfOk result (λ made. made ≡ words.parse_assignment_word word.now) }
{
    match word {
        [] => Ok(None),
        [b'-', name @ ..] => assignment_if_valid_name(alloc, name, Assignment::Unset),
        [b'!', name @ ..] => assignment_if_valid_name(alloc, name, Assignment::Unspecified),
        _ => parse_unprefixed_assignment(alloc, word),
    }
}

/// What the words of a text say.
/// See docs/DIFFERENCES.md#attributes-unknown-word.
/// See docs/DIFFERENCES.md#attributes-comment-behind.
pub fn read_assignments(alloc: Global, text: &[u8]) -> Result<Assignments, OutOfMemory>
    ensures { IfOk result (λ made. made ≡ words.parse_assignments text.now) }
{
    let mut items = Vec::new(alloc);
    let mut left = text;
    loop {
        let (word, rest) = split_at_first_blank(left);
        if let Some(assigned) = parse_assignment_word(alloc, word)? {
            items.push(assigned)?;
        }
        let Some(next) = rest else {
            return Ok(Assignments { items });
        };
        left = next;
    }
}
