//! The file of an index.
ghost use Rattle.std.specs.Prelude.{◌≡◌, ◌≤◌, ℕ, List, length, codes, position, take, Ok, Err, IfOk, MatchResult};
ghost use Rattle.std.specs.Str.{bytes_eq};
ghost use Rattle.gitbase_core.specs.Entry.{is_sparse_directory_entry};
ghost use Rattle.sha1.specs.Sha1.{sha1};
ghost use Rattle.git_index.specs.Fault.{IsFirstBadEntryAt};
ghost use Rattle.git_index.specs.IndexFile as files;
ghost use Rattle.git_index.specs.Gives.{IndexResultAgrees};
ghost use Rattle.git_index.specs.Seen.{entries_and_rest_as_record, entries_and_details_as_record};
ghost use Rattle.git_index.specs.Written.{WrittenExtension, IsIndexFileOfContents, IsIndexFileOfWritten, WrittenEntry, index_of_written};

use crate::entries::{Entries, Listed, read_entries};
use crate::error::IndexFileError;
use crate::extensions::read_sparse_mark_of_extensions;
use crate::parts::{are_all_nul, nth_big_endian_u32};
use crate::stat::Detail;
use gitbase_core::IndexEntry;
use sha1::Sha1;
use std::alloc::Global;
use std::marker::Model;

/// How many bytes are before the entries.
const HEAD_LENGTH: usize = 12;

/// How many bytes the sum has.
const SUM_LENGTH: usize = 20;

/// What an index file says.
///
/// Contracts see a record: its entries as they stand, beside each what else the file says of it,
/// and whether it is a sparse index.
#[derive(Debug, Drop)]
pub struct IndexFile {
    listed: Listed,
    is_sparse: bool,
}

impl Model for IndexFile {
    ghost use Rattle.git_index.specs.IndexFile as files;

    ghost Value = { files.IndexFileContents };

    ghost view = { λ file. record {
      entries = file.listed.entries.items;
      details = file.listed.details.items;
      is_sparse = file.is_sparse;
    } };
}

impl IndexFile {
    /// The entries as they stand, in the order of the file.
    pub fn entries(&self) -> &[IndexEntry]
        ensures { result.now ≡ self.now.entries }
    {
        &self.listed.entries
    }

    /// What the file says of each entry besides, in the order of the entries.
    pub fn details(&self) -> &[Detail]
        ensures { result.now ≡ self.now.details }
    {
        &self.listed.details
    }

    /// Whether the index is a sparse one, in which an entry may stand for all that is beneath a
    /// directory.
    pub fn is_sparse(&self) -> bool
        ensures { result ≡ self.now.is_sparse }
    {
        self.is_sparse
    }

    /// The entries, and what the file says of each besides; takes no memory.
    pub fn into_parts(self) -> (Vec<IndexEntry>, Vec<Detail>)
        ensures entries { result.0.items ≡ self.entries }
        ensures details { result.1.items ≡ self.details }
    {
        (self.listed.entries, self.listed.details)
    }
}

/// The index of a file of git, in version 2, 3 or 4.
///
/// The entries are those that the file says, as they stand: whether they may be an index is asked
/// by `State::from_entries`, whose refusals have an entry's number too.
///
/// # Errors
///
/// The first fault is told, in this order:
///
/// - `Short`: there are fewer than 32 bytes.
/// - `Signature`, `Version`: the first twelve are no head of a version that is read here.
/// - `Sum`: the last twenty are neither the SHA-1 of those before nor all NUL.
/// - `Entry`: the first entry outside the grammar, from 0.
/// - `Extensions`, `Split`, `Unknown`: behind the entries, the first extension that is cut, that
///   says that the index is split, or that has to be understood and is not.
/// - `Directory`: the first entry that stands for a directory, from 0, where no extension marks a
///   sparse index.
/// - `OutOfMemory` for want of memory. The count in the head is not believed: room is made for no
///   more entries than the bytes can hold.
pub fn read_index(alloc: Global, bytes: &[u8]) -> Result<IndexFile, IndexFileError>
    // It answers what the bytes say, or what is wrong with them first; want of memory alone is free.
    ensures gives { IndexResultAgrees result (files.parse_index_file_bytes bytes.now) }

    // Where it answers a file, the bytes are one that a writer makes of these entries.
    ensures sound { IfOk result (IsIndexFileOfContents bytes.now) }

    // Whatever entries and extensions the bytes are the file of, in whatever version, these are what it
    // answers.
    ensures written { (version : ℕ) (ws : List WrittenEntry) (es : List WrittenExtension)
        → IsIndexFileOfWritten bytes.now version ws es → MatchResult result
        (λ file. file ≡ index_of_written ws es) (λ error. error ≡ IndexFileError.OutOfMemory) }

    // These bytes are the file of one index at most, whether memory is wanted or not: the one that the
    // definition reads.
    ensures unique { (index : files.IndexFileContents) → IsIndexFileOfContents bytes.now index
        → files.parse_index_file_bytes bytes.now ≡ Ok index }
    ensures told { (index : files.IndexFileContents) → files.parse_index_file_bytes bytes.now
        ≡ Ok index → IsIndexFileOfContents bytes.now index }

    // `Entry` is told where as many entries as it says stand behind the head, which promises more, and what is
    // behind them begins with none.
    ensures fault { (at : ℕ) → files.parse_index_file_bytes bytes.now
        ≡ Err (IndexFileError.Entry at) → IsFirstBadEntryAt bytes.now at }

    // Beside each entry stands what else the file says of it.
    ensures beside { IfOk result (λ file. length file.details ≡ length file.entries) }
{
    parse_index_file_bytes(alloc, bytes)
}

/// The index of a file.
#[tactic(auto, unfolding(crate::specs::IndexFile::parse_index_file_bytes))]
fn parse_index_file_bytes(alloc: Global, bytes: &[u8]) -> Result<IndexFile, IndexFileError>
    ensures { IndexResultAgrees result (files.parse_index_file_bytes bytes.now) }
{
    if bytes.len() < HEAD_LENGTH + SUM_LENGTH {
        return Err(IndexFileError::Short);
    }
    let (body, sum) = bytes.split_at(bytes.len() - SUM_LENGTH);
    verify_and_read_body(alloc, body, sum)
}

/// The index in a body, with what stands behind it as its sum.
fn verify_and_read_body(alloc: Global, body: &[u8], sum: &[u8]) -> Result<IndexFile, IndexFileError>
    requires { 12 ≤ length body.now }
    ensures { IndexResultAgrees result (files.verify_and_read_body body.now sum.now) }
{
    if !has_index_signature(body) {
        return Err(IndexFileError::Signature);
    }
    let version = nth_big_endian_u32(body, 1);
    if !is_supported_version(version) {
        return Err(IndexFileError::Version { version });
    }
    if !is_checksum_or_nuls(body, sum) {
        return Err(IndexFileError::Sum);
    }
    let (_, rest) = body.split_at(HEAD_LENGTH);
    read_entries_and_extensions(alloc, version, nth_big_endian_u32(body, 2), rest)
}

/// Whether a body begins as git's index files do.
fn has_index_signature(body: &[u8]) -> bool
    requires { 4 ≤ length body.now }
    ensures { result ≡ bytes_eq (take 4 body.now) (codes "DIRC") }
{
    let (front, _) = body.split_at(4);
    front == b"DIRC".as_slice()
}

/// Whether a version is read here.
fn is_supported_version(version: u32) -> bool
    ensures { result ≡ files.is_supported_version version }
{
    2 <= version && version <= 4
}

/// Whether a sum is that of a body, or nothing but NULs.
fn is_checksum_or_nuls(body: &[u8], sum: &[u8]) -> bool
    ensures { result ≡ files.is_checksum_or_nuls body.now sum.now }
{
    are_all_nul(sum) || is_sha1_of_body(body, sum)
}

/// Whether a sum is that of a body.
fn is_sha1_of_body(body: &[u8], sum: &[u8]) -> bool
    ensures { result ≡ bytes_eq sum.now (sha1 body.now) }
{
    let digest = Sha1::digest(body);
    sum == digest.as_slice()
}

/// The index of so many entries, and of the extensions behind them.
fn read_entries_and_extensions(
    alloc: Global,
    version: u32,
    count: u32,
    bytes: &[u8],
) -> Result<IndexFile, IndexFileError>
    ensures { IndexResultAgrees result (files.read_entries_and_extensions version count bytes.now) }
{
    let read = read_entries(alloc, version, count, bytes)?;
    index_after_extensions_and_directory_check(read)
}

/// The index of these entries, and of the extensions behind them.
fn index_after_extensions_and_directory_check(
    read: Entries<'_>,
) -> Result<IndexFile, IndexFileError>
    ensures { IndexResultAgrees result (files.index_after_extensions_and_directory_check
        (entries_and_rest_as_record read.entry)) }
{
    let is_sparse = read_sparse_mark_of_extensions(read.rest)?;
    index_unless_stray_sparse_directory(read.listed, is_sparse)
}

/// The index of these entries; refused where one stands for a directory, and the index is not
/// sparse.
fn index_unless_stray_sparse_directory(
    listed: Listed,
    is_sparse: bool,
) -> Result<IndexFile, IndexFileError>
    ensures { result ≡ files.index_unless_stray_sparse_directory
        (entries_and_details_as_record listed) is_sparse }
{
    match place_of_first_sparse_directory(&listed.entries) {
        Some(at) if !is_sparse => Err(IndexFileError::Directory { at }),
        _ => Ok(IndexFile { listed, is_sparse }),
    }
}

/// The first entry that stands for a directory.
fn place_of_first_sparse_directory(entries: &[IndexEntry]) -> Option<usize>
    ensures { result ≡ position is_sparse_directory_entry entries.now }
{
    entries.iter().position(|entry| entry.mode.is_sparse())
}
