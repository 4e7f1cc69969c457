//! The extensions of an index file.
ghost use Rattle.std.specs.Prelude.{◌≡◌, ◌≤◌, length, take, false};
ghost use Rattle.git_index.specs.Extensions as extensions;
ghost use Rattle.git_index.specs.Seen.{extension_head_result_as_record};

use crate::error::IndexFileError;
use crate::parts::nth_big_endian_u32;

/// What the head of an extension says: how many bytes are behind it, and whether it marks a sparse
/// index.
#[derive(Clone, Copy)]
struct Extension {
    size: u32,
    is_sparse: bool,
}

/// Whether one of the extensions marks a sparse index; or the first that is cut, or has to be
/// understood and is not.
pub fn read_sparse_mark_of_extensions(bytes: &[u8]) -> Result<bool, IndexFileError>
    ensures { result ≡ extensions.read_sparse_mark_of_rest 0 false bytes.now }
{
    let mut is_sparse = false;
    let mut left = bytes;
    while !left.is_empty() {
        let extension = read_extension_head(left)?;
        let (_, behind) = left.split_at(8);
        if (extension.size as usize) > behind.len() {
            return Err(IndexFileError::Extensions);
        }
        let (_, rest) = behind.split_at(extension.size as usize);
        is_sparse = is_sparse | extension.is_sparse;
        left = rest;
    }
    Ok(is_sparse)
}

/// What the head of the first extension says.
fn read_extension_head(bytes: &[u8]) -> Result<Extension, IndexFileError>
    ensures { extension_head_result_as_record result ≡ extensions.read_extension_head bytes.now }
{
    if bytes.len() < 8 {
        return Err(IndexFileError::Extensions);
    }
    match bytes.split_first_chunk::<4>() {
        Some((name, _)) => extension_head_of_name_and_size(*name, nth_big_endian_u32(bytes, 1)),
        None => Err(IndexFileError::Extensions),
    }
}

/// What a name and a size say.
fn extension_head_of_name_and_size(name: [u8; 4], size: u32) -> Result<Extension, IndexFileError>
    ensures { extension_head_result_as_record result ≡ extensions.extension_head_of_name_and_size
        name size }
{
    if name[0] >= b'A' && name[0] <= b'Z' {
        return Ok(Extension {
            size,
            is_sparse: false,
        });
    }
    if name == *b"sdir" {
        return Ok(Extension {
            size,
            is_sparse: true,
        });
    }
    if name == *b"link" {
        return Err(IndexFileError::Split);
    }
    Err(IndexFileError::Unknown { name })
}
