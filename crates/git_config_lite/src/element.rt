//! What the bytes of a value do, one by one.
ghost use Rattle.std.specs.Prelude.{◌≡◌};
ghost use Rattle.git_config_lite.specs.Values as values;

use crate::text::{is_comment_mark, is_space_or_tab};

/// A part of a value.
#[derive(Clone, Copy, Debug, PartialEq, Eq)]
pub enum Element {
    /// A space or a tab outside double quotes, which is dropped at either end of the value.
    Blank(u8),
    /// Any other byte of the value.
    Plain(u8),
    /// A double quote, which gives no byte.
    Quote,
}

/// Where a byte of a value stands.
#[derive(Clone, Copy, Debug, PartialEq, Eq)]
pub struct Place {
    /// Within double quotes.
    pub is_quoted: bool,
    /// Behind a backslash that no backslash escapes.
    pub is_escaped: bool,
}

/// What a byte of a value does.
#[derive(Clone, Copy, Debug, PartialEq, Eq)]
pub enum ValueByte {
    /// It may not stand there.
    Outside,
    /// It begins a comment.
    Ends,
    /// It is a backslash, which gives a meaning to the byte behind it.
    Escapes,
    /// It gives an element.
    Gives(Element),
}

/// What a byte does behind a backslash.
fn effect_of_byte_after_backslash(byte: u8) -> ValueByte
    ensures { result ≡ values.effect_of_escape (values.byte_for_escape_letter byte) }
{
    match byte {
        b'"' => ValueByte::Gives(Element::Plain(b'"')),
        b'\\' => ValueByte::Gives(Element::Plain(b'\\')),
        b'n' => ValueByte::Gives(Element::Plain(b'\n')),
        b't' => ValueByte::Gives(Element::Plain(b'\t')),
        b'b' => ValueByte::Gives(Element::Plain(8)),
        _ => ValueByte::Outside,
    }
}

/// What a byte does outside double quotes that is no quote and no backslash.
fn effect_of_unquoted_byte(byte: u8) -> ValueByte
    ensures { result ≡ values.effect_of_unquoted_byte byte }
{
    if is_space_or_tab(byte) {
        ValueByte::Gives(Element::Blank(byte))
    } else if is_comment_mark(byte) {
        ValueByte::Ends
    } else {
        ValueByte::Gives(Element::Plain(byte))
    }
}

/// What a byte does at a place.
pub fn effect_of_value_byte(place: Place, byte: u8) -> ValueByte
    ensures { result ≡ values.effect_of_value_byte place byte }
{
    if place.is_escaped {
        effect_of_byte_after_backslash(byte)
    } else if byte == b'\\' {
        ValueByte::Escapes
    } else if byte == b'"' {
        ValueByte::Gives(Element::Quote)
    } else if place.is_quoted {
        ValueByte::Gives(Element::Plain(byte))
    } else {
        effect_of_unquoted_byte(byte)
    }
}

/// The place behind an element.
pub fn place_after_element(place: Place, element: Element) -> Place
    ensures { result ≡ values.place_after_element place element }
{
    let is_quoted = match element {
        Element::Quote => !place.is_quoted,
        Element::Blank(_) => place.is_quoted,
        Element::Plain(_) => place.is_quoted,
    };
    Place {
        is_quoted,
        is_escaped: false,
    }
}
