//! The path of an entry.
ghost use Rattle.std.specs.Prelude.{◌≡◌, ◌≤◌, ◌<◌, ◌++◌, option_map, IfOk};
ghost use Rattle.git_index.specs.Name as names;
ghost use Rattle.git_index.specs.Seen.{path_and_rest_as_record};

use crate::head::path_length_from_flags;
use crate::parts::{are_all_nul, split_first_bytes, text};
use crate::varint::read_varint;
use gitbase_core::{OutOfMemory, PathText};
use std::alloc::Global;

/// A path, and what is behind it.
#[derive(Drop)]
pub struct PathAndRest<'a> {
    pub path: PathText,
    pub rest: &'a [u8],
}

/// The path of an entry behind another, where `before` bytes of the entry are before it; none where
/// it is outside the grammar. It is copied once.
pub fn read_entry_path<'a>(
    alloc: Global,
    version: u32,
    previous: &[u8],
    before: usize,
    bytes: &'a [u8],
) -> Result<Option<PathAndRest<'a>>, OutOfMemory>
    requires { before < 100 }
    ensures { IfOk result (λ named. option_map path_and_rest_as_record named
        ≡ names.read_entry_path version previous.now before bytes.now) }
{
    if version == 4 {
        read_prefix_compressed_path(alloc, previous, bytes)
    } else {
        read_padded_path(alloc, before, bytes)
    }
}

/// The path in versions 2 and 3.
fn read_padded_path(
    alloc: Global,
    before: usize,
    bytes: &[u8],
) -> Result<Option<PathAndRest<'_>>, OutOfMemory>
    requires { before < 100 }
    ensures { IfOk result (λ named. option_map path_and_rest_as_record named
        ≡ names.read_padded_path before bytes.now) }
{
    let Some(name) = text(bytes) else {
        return Ok(None);
    };
    path_with_checked_padding(alloc, name.part, before + name.part.len(), name.rest)
}

/// A path with nothing but NULs behind it up to a multiple of eight bytes.
fn path_with_checked_padding<'a>(
    alloc: Global,
    path: &[u8],
    before: usize,
    bytes: &'a [u8],
) -> Result<Option<PathAndRest<'a>>, OutOfMemory>
    ensures { IfOk result (λ named. option_map path_and_rest_as_record named
        ≡ names.path_with_checked_padding path.now before bytes.now) }
{
    let Some(fill) = split_first_bytes(bytes, padding_length_after_nul(before)) else {
        return Ok(None);
    };
    if !are_all_nul(fill.part) {
        return Ok(None);
    }
    Ok(Some(PathAndRest {
        path: PathText::from_bytes(alloc, path)?,
        rest: fill.rest,
    }))
}

/// How many NULs fill up behind the one that ends a text.
fn padding_length_after_nul(before: usize) -> usize
    ensures { result ≡ names.padding_length_after_nul before }
{
    7 - before % 8
}

/// The path in version 4.
fn read_prefix_compressed_path<'a>(
    alloc: Global,
    previous: &[u8],
    bytes: &'a [u8],
) -> Result<Option<PathAndRest<'a>>, OutOfMemory>
    ensures { IfOk result (λ named. option_map path_and_rest_as_record named
        ≡ names.read_prefix_compressed_path previous.now bytes.now) }
{
    let Some(cut) = read_varint(bytes) else {
        return Ok(None);
    };
    path_with_kept_prefix(alloc, previous, cut.value, cut.rest)
}

/// The path that keeps all of the one before but `cut` bytes.
fn path_with_kept_prefix<'a>(
    alloc: Global,
    previous: &[u8],
    cut: u64,
    bytes: &'a [u8],
) -> Result<Option<PathAndRest<'a>>, OutOfMemory>
    ensures { IfOk result (λ named. option_map path_and_rest_as_record named
        ≡ names.path_with_kept_prefix previous.now cut bytes.now) }
{
    if cut > previous.len() as u64 {
        return Ok(None);
    }
    let Some(name) = text(bytes) else {
        return Ok(None);
    };
    let (kept, _) = previous.split_at(previous.len() - cut as usize);
    Ok(Some(PathAndRest {
        path: path_of_two_pieces(alloc, kept, name.part)?,
        rest: name.rest,
    }))
}

/// A path of two pieces.
fn path_of_two_pieces(alloc: Global, front: &[u8], back: &[u8]) -> Result<PathText, OutOfMemory>
    ensures { IfOk result (λ path. path ≡ front.now ++ back.now) }
{
    let mut bytes = Vec::with_capacity(alloc, front.len().saturating_add(back.len()))?;
    bytes.extend_from_slice(front)?;
    bytes.extend_from_slice(back)?;
    Ok(PathText::from_vec(bytes))
}

/// Whether the flags tell the length of a path.
pub fn path_length_matches_flags(flags: u16, named: &PathAndRest<'_>) -> bool
    ensures { result ≡ names.path_length_matches_flags flags (path_and_rest_as_record named.now) }
{
    named.path.as_bytes().len().min(4095) == path_length_from_flags(flags)
}
