//! The path of one submodule.
use gitbase_core::Bytes;

/// The path that a submodule says, and its name.
#[derive(Debug, Drop)]
pub struct NamedPath {
    pub path: Bytes,
    pub name: Bytes,
}
