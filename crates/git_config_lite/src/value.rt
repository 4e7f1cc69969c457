//! The value of a key.
ghost use Rattle.std.specs.Prelude.{◌≡◌, option_map, IfOk};
ghost use Rattle.git_config_lite.specs.Values as values;
ghost use Rattle.git_config_lite.specs.Values.{parse_value_piece, piece_with_elements_before, value_of_elements};

use crate::element::{Element, Place, ValueByte, effect_of_value_byte, place_after_element};
use gitbase_core::{Bytes, OutOfMemory};
use std::alloc::Global;
use std::marker::Model;

/// What is read of a value, and whether it goes on on the next line.
///
/// Contracts see a record of both.
#[derive(Debug, Drop)]
pub struct Piece {
    pub elements: Vec<Element>,
    pub continues: bool,
}

impl Model for Piece {
    ghost use Rattle.git_config_lite.specs.Values as values;

    ghost Value = { values.ValuePiece };

    ghost view = { λ piece. record { elements = piece.elements.items; continues = piece.continues } };
}

/// What is read of a value at the end of a line. None within double quotes.
fn piece_at_line_end(elements: Vec<Element>, place: Place) -> Option<Piece>
    ensures { result ≡ option_map (piece_with_elements_before elements.items)
        (values.piece_at_line_end place) }
{
    if place.is_quoted {
        return None;
    }
    Some(Piece {
        elements,
        continues: place.is_escaped,
    })
}

/// A value with one more line, behind the elements of its earlier ones. None where the line is
/// outside the grammar. See docs/DIFFERENCES.md#config-open-quote. See
/// docs/DIFFERENCES.md#config-open-end.
pub fn read_value_piece_of_line(
    mut elements: Vec<Element>,
    line: &[u8],
) -> Result<Option<Piece>, OutOfMemory>
    ensures { IfOk result (λ piece. piece ≡ option_map (piece_with_elements_before elements.items)
        (parse_value_piece line.now)) }
{
    let mut place = Place {
        is_quoted: false,
        is_escaped: false,
    };
    let mut rest = line;
    while let Some((first, after)) = rest.split_first() {
        match effect_of_value_byte(place, *first) {
            ValueByte::Outside => return Ok(None),
            ValueByte::Ends => {
                return Ok(Some(Piece {
                    elements,
                    continues: false,
                }));
            }
            ValueByte::Escapes => place.is_escaped = true,
            ValueByte::Gives(element) => {
                elements.push(element)?;
                place = place_after_element(place, element);
            }
        }
        rest = after;
    }
    Ok(piece_at_line_end(elements, place))
}

fn is_blank_element(element: Element) -> bool
    ensures { result ≡ values.is_blank_element element }
{
    matches!(element, Element::Blank(_))
}

fn byte_of_element(element: Element) -> Option<u8>
    ensures { result ≡ values.byte_of_element element }
{
    match element {
        Element::Blank(byte) => Some(byte),
        Element::Plain(byte) => Some(byte),
        Element::Quote => None,
    }
}

/// Elements without the blanks at their start.
fn without_leading_blank_elements(elements: &[Element]) -> &[Element]
    ensures { result.now ≡ values.without_leading_blank_elements elements.now }
{
    let mut rest = elements;
    while let Some((first, after)) = rest.split_first() {
        if !is_blank_element(*first) {
            return rest;
        }
        rest = after;
    }
    rest
}

/// Elements without the blanks at both ends.
fn elements_without_outer_blanks(elements: &[Element]) -> &[Element]
    ensures { result.now ≡ values.elements_without_outer_blanks elements.now }
{
    let elements = without_leading_blank_elements(elements);
    let mut end = elements.len();
    while end > 0 && is_blank_element(elements[end - 1]) {
        end -= 1;
    }
    &elements[..end]
}

/// The value of the elements of all its lines.
/// See docs/DIFFERENCES.md#config-tab.
/// See docs/DIFFERENCES.md#config-empty-quote.
/// See docs/DIFFERENCES.md#config-blanks-before-last.
/// See docs/DIFFERENCES.md#config-nul-value.
pub fn value_of_elements(alloc: Global, elements: &[Element]) -> Result<Bytes, OutOfMemory>
    ensures { IfOk result (λ value. value ≡ value_of_elements elements.now) }
{
    let mut text = Vec::new(alloc);
    let mut rest = elements_without_outer_blanks(elements);
    while let Some((first, after)) = rest.split_first() {
        if let Some(byte) = byte_of_element(*first) {
            text.push(byte)?;
        }
        rest = after;
    }
    Ok(Bytes::from_vec(text))
}
