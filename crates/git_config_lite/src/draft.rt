//! What the lines of a configuration file say, one after another.
ghost use Rattle.std.specs.Prelude.{◌≡◌, ◌≤◌, length, option_map, IfOk};
ghost use Rattle.git_config_lite.specs.Texts as texts;
ghost use Rattle.git_config_lite.specs.Grammar as grammar;
ghost use Rattle.git_config_lite.specs.Grammar.{parse_text_sections};
ghost use Rattle.git_config_lite.specs.Sections.{sections_with_entry_in_last};
ghost use Rattle.git_config_lite.specs.Gives.{DraftAgreesWithGrammar};
ghost use Rattle.git_config_lite.specs.Seen as seen;

use crate::element::Element;
use crate::entry::Entry;
use crate::error::ParseError;
use crate::header::{HeadedLine, parse_header_after_bracket};
use crate::key::{KeyedLine, parse_key_and_text};
use crate::metadata::Metadata;
use crate::section::{Section, push_entry_to_last_section};
use crate::text::{
    begins_with_byte, bytes_after_first_byte, is_empty_or_comment, without_leading_blanks,
};
use crate::value::{Piece, read_value_piece_of_line, value_of_elements};
use bstr::ByteSlice;
use gitbase_core::{Bytes, OutOfMemory};
use std::alloc::Global;
use std::marker::Model;

/// A key whose value goes on on the next line.
#[derive(Debug, Drop)]
pub struct Pending {
    key: Bytes,
    elements: Vec<Element>,
}

impl Model for Pending {
    ghost use Rattle.git_config_lite.specs.Grammar as grammar;

    ghost Value = { grammar.PendingValue };

    ghost view = { λ pending. record { key = pending.key; elements = pending.elements.items } };
}

/// What the lines so far say.
#[derive(Debug, Drop)]
pub struct Draft {
    pub sections: Vec<Section>,
    pending: Option<Pending>,
}

impl Model for Draft {
    ghost use Rattle.git_config_lite.specs.Grammar as grammar;

    ghost Value = { grammar.DraftConfiguration };

    ghost view = { λ draft. record { sections = draft.sections.items; pending = draft.pending } };
}

/// Sections, and one more key whose value is done.
fn draft_with_added_entry(
    mut sections: Vec<Section>,
    key: Bytes,
    value: Option<Bytes>,
) -> Result<Draft, OutOfMemory>
    ensures { IfOk result (λ draft. draft ≡ grammar.draft_without_pending
        (sections_with_entry_in_last (grammar.entry key value) sections.items)) }
{
    push_entry_to_last_section(&mut sections, Entry { key, value })?;
    Ok(Draft {
        sections,
        pending: None,
    })
}

/// Sections, and a key with one more piece of its value.
fn draft_with_value_piece(
    alloc: Global,
    sections: Vec<Section>,
    key: Bytes,
    piece: Option<Piece>,
) -> Result<Option<Draft>, OutOfMemory>
    ensures { IfOk result (λ draft. draft ≡ grammar.draft_with_value_piece sections.items key
        piece) }
{
    let Some(piece) = piece else {
        return Ok(None);
    };
    if piece.continues {
        let pending = Pending {
            key,
            elements: piece.elements,
        };
        return Ok(Some(Draft {
            sections,
            pending: Some(pending),
        }));
    }
    let value = value_of_elements(alloc, &piece.elements)?;
    let draft = draft_with_added_entry(sections, key, Some(value))?;
    Ok(Some(draft))
}

/// Sections, and a key by what is behind it.
fn draft_with_parsed_key(
    alloc: Global,
    sections: Vec<Section>,
    keyed: Option<KeyedLine<'_>>,
) -> Result<Option<Draft>, OutOfMemory>
    ensures { IfOk result (λ draft. draft ≡ grammar.draft_with_parsed_key sections.items
        (option_map seen.key_of_keyed_line keyed.entry)) }
{
    let Some(keyed) = keyed else {
        return Ok(None);
    };
    let key = Bytes::from_slice(alloc, keyed.key)?;
    let Some(text) = keyed.text else {
        let draft = draft_with_added_entry(sections, key, None)?;
        return Ok(Some(draft));
    };
    let piece = read_value_piece_of_line(Vec::new(alloc), text)?;
    draft_with_value_piece(alloc, sections, key, piece)
}

/// Sections, and a line that begins with a key.
/// See docs/DIFFERENCES.md#config-early-key.
fn parse_key_line_in_section(
    alloc: Global,
    sections: Vec<Section>,
    bytes: &[u8],
) -> Result<Option<Draft>, OutOfMemory>
    ensures { IfOk result (λ draft. draft ≡ grammar.parse_key_line_in_section sections.items
        bytes.now) }
{
    if sections.is_empty() {
        return Ok(None);
    }
    draft_with_parsed_key(alloc, sections, parse_key_and_text(bytes))
}

/// Sections, and what may follow a header on its line.
fn parse_comment_or_key_line(
    alloc: Global,
    sections: Vec<Section>,
    bytes: &[u8],
) -> Result<Option<Draft>, OutOfMemory>
    ensures { IfOk result (λ draft. draft ≡ grammar.parse_comment_or_key_line sections.items
        bytes.now) }
{
    if is_empty_or_comment(bytes) {
        return Ok(Some(Draft {
            sections,
            pending: None,
        }));
    }
    parse_key_line_in_section(alloc, sections, bytes)
}

/// Sections, and a line that begins with a header.
fn draft_with_header_line(
    alloc: Global,
    meta: &Metadata,
    mut sections: Vec<Section>,
    headed: Option<HeadedLine<'_>>,
) -> Result<Option<Draft>, OutOfMemory>
    ensures { IfOk result (λ draft. draft ≡ grammar.draft_with_header_line meta.now sections.items
        (option_map seen.header_of_headed_line headed.entry)) }
{
    let Some(headed) = headed else {
        return Ok(None);
    };
    let section = Section::new(alloc, headed.name, headed.subsection, meta)?;
    sections.push(section)?;
    parse_comment_or_key_line(alloc, sections, without_leading_blanks(headed.rest))
}

/// Sections, and a line that is not more of a value and begins with no blank.
fn parse_line_outside_value(
    alloc: Global,
    meta: &Metadata,
    sections: Vec<Section>,
    bytes: &[u8],
) -> Result<Option<Draft>, OutOfMemory>
    ensures { IfOk result (λ draft. draft ≡ grammar.parse_line_outside_value meta.now sections.items
        bytes.now) }
{
    if !begins_with_byte(b'[', bytes) {
        return parse_comment_or_key_line(alloc, sections, bytes);
    }
    let headed = parse_header_after_bracket(alloc, bytes_after_first_byte(bytes))?;
    draft_with_header_line(alloc, meta, sections, headed)
}

/// What is said with one more line. None where that is outside the grammar.
fn parse_next_line(
    alloc: Global,
    meta: &Metadata,
    draft: Draft,
    line: &[u8],
) -> Result<Option<Draft>, OutOfMemory>
    ensures { IfOk result (λ next. next ≡ grammar.parse_next_line meta.now draft line.now) }
{
    let Draft { sections, pending } = draft;
    let Some(pending) = pending else {
        return parse_line_outside_value(alloc, meta, sections, without_leading_blanks(line));
    };
    let Pending { key, elements } = pending;
    let piece = read_value_piece_of_line(elements, line)?;
    draft_with_value_piece(alloc, sections, key, piece)
}

/// What is said where no line is left, which ends a value.
fn finish_draft_at_end_of_text(alloc: Global, draft: Draft) -> Result<Draft, OutOfMemory>
    ensures { IfOk result (λ done. done ≡ grammar.draft_without_pending
        (grammar.sections_of_finished_draft draft)) }
{
    let Draft { sections, pending } = draft;
    let Some(pending) = pending else {
        return Ok(Draft {
            sections,
            pending: None,
        });
    };
    let Pending { key, elements } = pending;
    let value = value_of_elements(alloc, &elements)?;
    draft_with_added_entry(sections, key, Some(value))
}

/// The bytes without the byte order mark at their start.
fn without_byte_order_mark(bytes: &[u8]) -> &[u8]
    ensures within { length result.now ≤ length bytes.now }
    ensures value { result.now ≡ texts.without_byte_order_mark bytes.now }
{
    if bytes.starts_with(b"\xef\xbb\xbf") {
        &bytes[3..]
    } else {
        bytes
    }
}

/// What a text says.
///
/// `Syntax` names the first line outside the grammar, counted from 1.
pub fn read(alloc: Global, meta: &Metadata, bytes: &[u8]) -> Result<Draft, ParseError>
    ensures { DraftAgreesWithGrammar result (parse_text_sections meta.now bytes.now) }
{
    let mut draft = Draft {
        sections: Vec::new(alloc),
        pending: None,
    };
    let mut number = 0;
    for line in without_byte_order_mark(bytes).lines() {
        number += 1;
        match parse_next_line(alloc, meta, draft, line)? {
            Some(next) => draft = next,
            None => return Err(ParseError::Syntax { line: number }),
        }
    }
    Ok(finish_draft_at_end_of_text(alloc, draft)?)
}
