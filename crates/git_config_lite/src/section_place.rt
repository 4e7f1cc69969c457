//! Where one section of a configuration stands.
use gitbase_core::Bytes;

/// The text by which a section is found, and how many sections stand before it.
#[derive(Debug, Drop)]
pub struct SectionPlace {
    pub key: Bytes,
    pub number: usize,
}
