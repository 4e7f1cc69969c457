//! The lines of a setup that give blobs and name configurations.
ghost use Rattle.std.specs.Prelude.{◌≡◌, IfOk};
ghost use Rattle.std.specs.FinMap.{empty};
ghost use Rattle.worktree_report.specs.SetupFiles.{parse_blob_line, objects_with_blobs_added, parse_config_source, parse_config_line};

use crate::escape::unescape_path;
use crate::setup::field::split_at_first_space;
use crate::setup::index_line::parse_id_word;
use git_config_lite::Source;
use gitbase_core::{Bytes, MemoryStore, ObjectId, OutOfMemory, PathText, is_absolute};
use std::alloc::Global;

/// A blob, as a line gives it.
#[derive(Debug, Drop)]
pub struct SetupBlob {
    pub id: ObjectId,
    pub bytes: Bytes,
}

/// The blob that a line gives behind its keyword, which is `ID BYTES`. None where a word is missing
/// or says nothing.
///
/// See docs/DECISIONS.md#same-blob-twice.
pub fn parse_blob_line(alloc: Global, rest: &[u8]) -> Result<Option<SetupBlob>, OutOfMemory>
    ensures { IfOk result (λ given. given ≡ parse_blob_line rest.now) }
{
    let Some(fields) = split_at_first_space(rest) else {
        return Ok(None);
    };
    let Some(id) = parse_id_word(fields.word) else {
        return Ok(None);
    };
    let Some(bytes) = unescape_path(alloc, fields.rest)? else {
        return Ok(None);
    };
    Ok(Some(SetupBlob {
        id,
        bytes: Bytes::from_vec(bytes.into_vec()),
    }))
}

/// A store of these blobs. Of two with one id the later stays.
pub fn store_from_blobs(alloc: Global, blobs: &[SetupBlob]) -> Result<MemoryStore, OutOfMemory>
    ensures { IfOk result (λ store. store ≡ objects_with_blobs_added empty blobs.now) }
{
    let mut store = MemoryStore::new(alloc);
    for blob in blobs.iter() {
        store.insert(alloc, blob.id, blob.bytes.as_bytes())?;
    }
    Ok(store)
}

/// What a configuration belongs to, by its word. None where no word is that.
fn parse_config_source(word: &[u8]) -> Option<Source>
    ensures { result ≡ parse_config_source word.now }
{
    if word == b"installation".as_slice() {
        Some(Source::GitInstallation)
    } else if word == b"system".as_slice() {
        Some(Source::System)
    } else if word == b"git".as_slice() {
        Some(Source::Git)
    } else if word == b"user".as_slice() {
        Some(Source::User)
    } else if word == b"local".as_slice() {
        Some(Source::Local)
    } else if word == b"env".as_slice() {
        Some(Source::Env)
    } else if word == b"api".as_slice() {
        Some(Source::Api)
    } else {
        None
    }
}

/// The configuration that a line names behind its keyword, which is `SOURCE PATH` with an absolute
/// path. None where a word is missing or says nothing.
pub fn parse_config_line(
    alloc: Global,
    rest: &[u8],
) -> Result<Option<(Source, PathText)>, OutOfMemory>
    ensures { IfOk result (λ named. named ≡ parse_config_line rest.now) }
{
    let Some(fields) = split_at_first_space(rest) else {
        return Ok(None);
    };
    let Some(source) = parse_config_source(fields.word) else {
        return Ok(None);
    };
    if !is_absolute(fields.rest) {
        return Ok(None);
    }
    Ok(Some((source, PathText::from_bytes(alloc, fields.rest)?)))
}
