//! Rows of tables: their words, and how they name what is wanted.
use bstr::ByteSlice;
use std::alloc::Global;
use std::fmt::Display;

/// A text with one byte in the place of another.
pub fn replaced(alloc: Global, text: &[u8], old: u8, new: u8) -> Option<Vec<u8>> {
    let mut copy = text.to_vec(alloc).ok()?;
    for byte in copy.iter_mut() {
        if *byte == old {
            *byte = new;
        }
    }
    Some(copy)
}

/// Texts behind one another.
pub fn joined(alloc: Global, parts: &[&[u8]]) -> Option<Vec<u8>> {
    let mut text = Vec::new(alloc);
    for part in parts {
        if text.extend_from_slice(part).is_err() {
            return None;
        }
    }
    Some(text)
}

/// The answer that is wanted: of two that differ, the one of the definitions.
pub fn wanted(answer: &[u8]) -> &[u8] {
    match answer.split_once_str(b"=>") {
        Some((_, own)) => own,
        None => answer,
    }
}

/// Whether something is printed so.
pub fn is_shown<T: Display>(alloc: Global, shown: &T, want: &[u8]) -> bool {
    match format!(in alloc; "{shown}") {
        Ok(text) => text.as_bytes() == want,
        Err(_) => false,
    }
}
