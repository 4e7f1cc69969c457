//! Why the index is not read.
ghost use Rattle.std.specs.Prelude.{◌≡◌, ◌++◌, IfOk};
ghost use Rattle.tizhagor.specs.IndexLines as words;

use crate::lines::{
    MEMORY, copy_fixed_line, text_with_escaped_path, text_with_number, text_with_number_from_one,
};
use git_index::IndexFileError;
use gitbase_core::{Bytes, IndexError, OutOfMemory};
use std::alloc::Global;

/// What mends a broken index file.
const MEND: &[u8] = b"; move it away, and make it anew from HEAD with 'git reset'\n";

/// That an index is split, and what joins it.
const SPLIT: &[u8] = b": the index is split; join it with 'git update-index --no-split-index'\n";

/// How an index file is broken, and what mends it.
fn reason_with_repair_advice(alloc: Global, reason: &[u8]) -> Result<Bytes, OutOfMemory>
    ensures { IfOk result (λ line. line ≡ reason.now ++ words.index_repair_advice) }
{
    let mut line = Bytes::from_slice(alloc, reason)?;
    line.extend(alloc, MEND)?;
    Ok(line)
}

/// That an index has an extension of this name, which has to be understood.
fn unknown_index_extension_reason(alloc: Global, name: &[u8; 4]) -> Result<Bytes, OutOfMemory>
    ensures { IfOk result
        (λ line. line ≡ words.index_file_error_reason (IndexFileError.Unknown name.now)) }
{
    text_with_escaped_path(
        alloc,
        b": index uses ",
        name,
        b" extension, which we do not understand\n",
    )
}

/// How an index file is outside its grammar, behind its path.
pub fn index_file_error_reason(alloc: Global, error: &IndexFileError) -> Result<Bytes, OutOfMemory>
    ensures { IfOk result (λ line. line ≡ words.index_file_error_reason error.now) }
{
    match error {
        IndexFileError::Short => reason_with_repair_advice(
            alloc,
            b": index file smaller than expected",
        ),
        IndexFileError::Signature => reason_with_repair_advice(
            alloc,
            b": index file corrupt: bad signature",
        ),
        IndexFileError::Version { version } => text_with_number(
            alloc,
            b": index file corrupt: bad index version ",
            *version as usize,
            b"\n",
        ),
        IndexFileError::Sum => reason_with_repair_advice(
            alloc,
            b": index file corrupt: bad index file sha1 signature",
        ),
        IndexFileError::Entry { at } => text_with_number_from_one(
            alloc,
            b": index file corrupt: entry ",
            *at,
            MEND,
        ),
        IndexFileError::Extensions => reason_with_repair_advice(
            alloc,
            b": index file corrupt: bad extensions",
        ),
        IndexFileError::Split => copy_fixed_line(alloc, SPLIT),
        IndexFileError::Unknown { name } => unknown_index_extension_reason(alloc, name),
        IndexFileError::Directory { at } => text_with_number_from_one(
            alloc,
            b": index file corrupt: directory at entry ",
            *at,
            MEND,
        ),
        IndexFileError::OutOfMemory => copy_fixed_line(alloc, MEMORY),
    }
}

/// Which rule an entry breaks, behind the path of the index file.
pub fn index_entry_error_reason(alloc: Global, error: &IndexError) -> Result<Bytes, OutOfMemory>
    ensures { IfOk result (λ line. line ≡ words.index_entry_error_reason error.now) }
{
    match error {
        IndexError::Path { at } => text_with_number_from_one(
            alloc,
            b": index file corrupt: bad path at entry ",
            *at,
            MEND,
        ),
        IndexError::ModePath { at } => text_with_number_from_one(
            alloc,
            b": index file corrupt: bad mode at entry ",
            *at,
            MEND,
        ),
        IndexError::NotAscending { at } => text_with_number_from_one(
            alloc,
            b": unordered entries in index: entry ",
            *at,
            MEND,
        ),
        IndexError::Stage { at } => text_with_number_from_one(
            alloc,
            b": unordered stage entries in index: entry ",
            *at,
            MEND,
        ),
    }
}
