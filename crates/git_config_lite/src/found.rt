//! A value that was found.
use crate::metadata::Source;

/// A value, and what the section belongs to where it was found.
#[derive(Clone, Copy, Debug)]
pub struct FoundValue<'a> {
    pub value: Option<&'a [u8]>,
    pub source: Source,
}
