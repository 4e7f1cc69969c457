//! The id of a file's bytes.
ghost use Rattle.std.specs.Prelude.{◌≡◌, ◌++◌, IfOk};
ghost use Rattle.git_index.specs.Blobs.{blob_object_header, blob_id};
ghost use Rattle.sha1.specs.Sha1.{sha1};

use gitbase_core::{Bytes, ObjectId, OutOfMemory};
use sha1::Sha1;
use std::alloc::Global;

/// The id of the blob with these bytes, as `git hash-object` gives it without filters: the SHA-1 of
/// `blob `, how many bytes there are, a zero byte and the bytes.
///
/// # Errors
///
/// Memory was refused.
pub fn blob_id(alloc: Global, bytes: &[u8]) -> Result<ObjectId, OutOfMemory>
    ensures { IfOk result (λ id. id ≡ blob_id bytes.now) }
{
    let head = blob_object_header(alloc, bytes.len())?;
    Ok(sha1_id_of_header_and_bytes(head.as_bytes(), bytes))
}

/// What stands before the bytes of a blob.
fn blob_object_header(alloc: Global, length: usize) -> Result<Bytes, OutOfMemory>
    ensures { IfOk result (λ head. head ≡ blob_object_header length) }
{
    let head = format!(in alloc; "blob {length}\0")?;
    Ok(Bytes::from_slice(alloc, head.as_bytes())?)
}

/// The id of what comes in two pieces.
fn sha1_id_of_header_and_bytes(head: &[u8], bytes: &[u8]) -> ObjectId
    ensures { result ≡ sha1 (head.now ++ bytes.now) }
{
    let mut hasher = Sha1::new();
    hasher.update(head);
    hasher.update(bytes);
    ObjectId::from_bytes(hasher.finalize())
}
