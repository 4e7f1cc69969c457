//! One key of a section.
use gitbase_core::Bytes;

/// A key as it is spelled, and its value where it has one: `key` alone has none, and `key =` an
/// empty one.
#[derive(Debug, Drop)]
pub struct Entry {
    pub key: Bytes,
    pub value: Option<Bytes>,
}
