//! Why some bytes are no index file.
use gitbase_core::OutOfMemory;

/// Why some bytes are no index file that is read here.
///
/// Of several faults the first in this order is told: the length, the head, the sum, the first
/// entry that is outside the grammar, the first such extension, and the first entry that stands for
/// a directory.
#[derive(Clone, Copy, Debug, PartialEq, Eq, thiserror::Error)]
pub enum IndexFileError {
    /// There are fewer bytes than those of a head and a sum, which are 32.
    #[error("Short")]
    Short,
    /// The first four bytes are not `DIRC`.
    #[error("Signature")]
    Signature,
    /// The version is none of 2, 3 and 4.
    #[error("Version")]
    Version { version: u32 },
    /// The last twenty bytes are neither the SHA-1 of those before them nor all NUL.
    ///
    /// See docs/DIFFERENCES.md#git-index-sum.
    #[error("Sum")]
    Sum,
    /// The first entry that is outside the grammar, counted from 0.
    ///
    /// See docs/DIFFERENCES.md#git-index-entry.
    #[error("Entry")]
    Entry { at: usize },
    /// An extension is cut, or bytes are left over before the sum.
    ///
    /// See docs/DIFFERENCES.md#git-index-extensions.
    #[error("Extensions")]
    Extensions,
    /// The index is split: some of its entries are in another file.
    ///
    /// See docs/DIFFERENCES.md#git-split-index.
    #[error("Split")]
    Split,
    /// The name of an extension that has to be understood, and is not.
    #[error("Unknown")]
    Unknown { name: [u8; 4] },
    /// The first entry that stands for a directory, counted from 0, where no extension says that
    /// the index is sparse.
    ///
    /// See docs/DIFFERENCES.md#git-index-directory.
    #[error("Directory")]
    Directory { at: usize },
    /// Want of memory.
    #[error("OutOfMemory")]
    OutOfMemory,
}

impl From<OutOfMemory> for IndexFileError {
    ghost use Rattle.std.specs.Prelude.{◌≡◌};
    ghost use Rattle.git_index.specs.declared.error.IndexFileError.TheVariants as errors;

    ghost from_gives = { λ _ e. e ≡ errors.OutOfMemory };

    fn from(_refused: OutOfMemory) -> IndexFileError {
        IndexFileError::OutOfMemory
    }
}
