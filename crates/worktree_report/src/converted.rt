//! Why there is no report, where the walk was refused.
ghost use Rattle.std.specs.Prelude.{◌≡◌, IfOk};
ghost use Rattle.worktree_report.specs.Refusals.{status_of};
ghost use Rattle.worktree_report.specs.Converted.{refusal_of_lookup_error, refusal_of_walk_error, refusal_of_report_error, path_of_root_component};

use crate::below::{bytes_behind_length, join_components_through};
use crate::error::ReportError;
use crate::refusal::{Misread, Refusal, WalkWord};
use dir_classify::{Error, MetadataWhy, ReadWhy};
use gitbase_core::{ObjectId, OutOfMemory, PathText};
use std::alloc::Global;
use worktree_stack::{AtPathError, BlobWhy, RulesWhy};

/// That the walk was refused for what is at a path.
fn walk_refusal_at_path(alloc: Global, word: WalkWord, path: &[u8]) -> Result<Refusal, OutOfMemory>
    ensures { IfOk result (λ refusal. refusal ≡ Refusal.Walk word path.now) }
{
    Ok(Refusal::Walk {
        word,
        path: PathText::from_bytes(alloc, path)?,
    })
}

/// Why there is no report, where the blob of a rules file was not read.
fn refusal_of_blob_error(alloc: Global, id: &ObjectId, why: BlobWhy) -> Result<Refusal, OutOfMemory>
    ensures { IfOk result (λ refusal. refusal ≡ refusal_of_lookup_error (AtPathError.Blob id.now
        why)) }
{
    match why {
        BlobWhy::Missing => walk_refusal_at_path(alloc, WalkWord::Blob, &id.to_hex()),
        BlobWhy::NotABlob => walk_refusal_at_path(alloc, WalkWord::Blob, &id.to_hex()),
        BlobWhy::Fault => Ok(Refusal::Fault),
    }
}

/// Why there is no report, where the ignore rules could not be asked.
fn refusal_of_lookup_error(alloc: Global, refused: &AtPathError) -> Result<Refusal, OutOfMemory>
    ensures { IfOk result (λ refusal. refusal ≡ refusal_of_lookup_error refused.now) }
{
    match refused {
        AtPathError::Blob { id, why } => refusal_of_blob_error(alloc, id, *why),
        AtPathError::RulesFile {
            path: _,
            why: RulesWhy::Fault,
        } => Ok(Refusal::Fault),
        AtPathError::RulesFile { path, why: _ } => walk_refusal_at_path(
            alloc,
            WalkWord::RulesFile,
            path.as_bytes(),
        ),
        AtPathError::Collision { path } => walk_refusal_at_path(
            alloc,
            WalkWord::Lookup,
            path.as_bytes(),
        ),
        AtPathError::Directory { path, why: _ } => walk_refusal_at_path(
            alloc,
            WalkWord::Lookup,
            path.as_bytes(),
        ),
        AtPathError::NotNormal => walk_refusal_at_path(alloc, WalkWord::Lookup, b""),
        AtPathError::Component(_) => walk_refusal_at_path(alloc, WalkWord::Lookup, b""),
        AtPathError::OutOfMemory => Ok(Refusal::OutOfMemory),
    }
}

/// Why there is no report, where a listing was refused.
fn refusal_of_read_dir_error(path: PathText, why: ReadWhy) -> Refusal
    ensures { result ≡ refusal_of_walk_error (Error.ReadDir path why) }
{
    match why {
        ReadWhy::Absent => Refusal::Walk {
            word: WalkWord::AbsentDirectory,
            path,
        },
        ReadWhy::NotADirectory => Refusal::Walk {
            word: WalkWord::NotADirectory,
            path,
        },
        ReadWhy::Fault => Refusal::Fault,
    }
}

/// Why there is no report, where the kind of a component of the traversal root could not be had.
fn refusal_of_symlink_metadata_error(path: PathText, why: MetadataWhy) -> Refusal
    ensures { result ≡ refusal_of_walk_error (Error.SymlinkMetadata path why) }
{
    match why {
        MetadataWhy::Absent => Refusal::Walk {
            word: WalkWord::MissingRoot,
            path,
        },
        MetadataWhy::Fault => Refusal::Fault,
    }
}

/// Why there is no report, where a component of the traversal root is a link.
fn refusal_of_root_link(
    alloc: Global,
    whole: PathText,
    worktree_root: PathText,
    number: usize,
) -> Result<Refusal, OutOfMemory>
    ensures { IfOk result (λ refusal. refusal ≡ Refusal.Walk WalkWord.SymlinkInRoot
        (path_of_root_component whole worktree_root number)) }
{
    let root = worktree_root.as_bytes();
    let rest = bytes_behind_length(whole.as_bytes(), root.len());
    Ok(Refusal::Walk {
        word: WalkWord::SymlinkInRoot,
        path: join_components_through(alloc, root, number, rest)?,
    })
}

/// Why there is no report, where the walk was refused.
///
/// # Errors
///
/// Memory was refused.
pub fn refusal_of_walk_error(alloc: Global, error: Error) -> Result<Refusal, OutOfMemory>
    ensures { IfOk result (λ refusal. refusal ≡ refusal_of_walk_error error) }
{
    match error {
        Error::Interrupted => Ok(Refusal::Interrupted),
        Error::WorktreeRootIsFile { root } => Ok(Refusal::Walk {
            word: WalkWord::RootIsFile,
            path: root,
        }),
        Error::ExcludesAccess(refused) => refusal_of_lookup_error(alloc, &refused),
        Error::ReadDir { path, why } => Ok(refusal_of_read_dir_error(path, why)),
        Error::DirEntry {
            parent_directory: _,
        } => Ok(Refusal::Fault),
        Error::TooDeep { path } => Ok(Refusal::Walk {
            word: WalkWord::TooDeep,
            path,
        }),
        Error::NormalizeRoot { root } => Ok(Refusal::Walk {
            word: WalkWord::OutsideRoot,
            path: root,
        }),
        Error::SymlinkInRoot {
            root,
            worktree_root,
            component_index,
        } => refusal_of_root_link(alloc, root, worktree_root, component_index),
        Error::SymlinkMetadata { path, why } => Ok(refusal_of_symlink_metadata_error(path, why)),
        Error::OutOfMemory => Ok(Refusal::OutOfMemory),
    }
}

/// Why there is no report.
///
/// # Errors
///
/// Memory was refused.
pub fn refusal_of_report_error(alloc: Global, error: ReportError) -> Result<Refusal, OutOfMemory>
    ensures { IfOk result (λ refusal. refusal ≡ refusal_of_report_error error) }
{
    match error {
        ReportError::Config { at, line } => Ok(Refusal::Misread(Misread::Config { at, line })),
        ReportError::Modules { line } => Ok(Refusal::Misread(Misread::Modules { line })),
        ReportError::ActiveSpec { at } => Ok(Refusal::Misread(Misread::ActiveSpec { at })),
        ReportError::ReadFault => Ok(Refusal::Fault),
        ReportError::Walk(error) => refusal_of_walk_error(alloc, error),
        ReportError::OutOfMemory => Ok(Refusal::OutOfMemory),
    }
}

/// The status that the program ends with where the ignore rules could not be asked.
fn exit_status_of_lookup_error(refused: &AtPathError) -> u8
    ensures { result ≡ status_of (refusal_of_lookup_error refused.now) }
{
    match refused {
        AtPathError::RulesFile {
            path: _,
            why: RulesWhy::Fault,
        } => 6,
        AtPathError::RulesFile { path: _, why: _ } => 4,
        AtPathError::Collision { path: _ } => 4,
        AtPathError::Directory { path: _, why: _ } => 4,
        AtPathError::NotNormal => 4,
        AtPathError::Component(_) => 4,
        AtPathError::Blob {
            id: _,
            why: BlobWhy::Fault,
        } => 6,
        AtPathError::Blob { id: _, why: _ } => 4,
        AtPathError::OutOfMemory => 8,
    }
}

/// The status that the program ends with where the walk was refused.
fn exit_status_of_walk_error(error: &Error) -> u8
    ensures { result ≡ status_of (refusal_of_walk_error error.now) }
{
    match error {
        Error::Interrupted => 1,
        Error::WorktreeRootIsFile { root: _ } => 4,
        Error::NormalizeRoot { root: _ } => 4,
        Error::SymlinkInRoot {
            root: _,
            worktree_root: _,
            component_index: _,
        } => 4,
        Error::SymlinkMetadata {
            path: _,
            why: MetadataWhy::Fault,
        } => 6,
        Error::SymlinkMetadata { path: _, why: _ } => 4,
        Error::ExcludesAccess(refused) => exit_status_of_lookup_error(refused),
        Error::ReadDir {
            path: _,
            why: ReadWhy::Fault,
        } => 6,
        Error::ReadDir { path: _, why: _ } => 4,
        Error::DirEntry {
            parent_directory: _,
        } => 6,
        Error::TooDeep { path: _ } => 4,
        Error::OutOfMemory => 8,
    }
}

/// The status that the program ends with where there is no report; takes no memory.
///
/// | status | where |
/// |---|---|
/// | 1 | the interrupt was raised |
/// | 4 | the walk was refused for what is there |
/// | 5 | a configuration, `.gitmodules` or a value of `submodule.active` is outside its grammar |
/// | 6 | the worktree or the store failed |
/// | 8 | want of memory |
pub fn exit_status_of_report_error(error: &ReportError) -> u8
    ensures { result ≡ status_of (refusal_of_report_error error.now) }
{
    match error {
        ReportError::Config { at: _, line: _ } => 5,
        ReportError::Modules { line: _ } => 5,
        ReportError::ActiveSpec { at: _ } => 5,
        ReportError::ReadFault => 6,
        ReportError::Walk(error) => exit_status_of_walk_error(error),
        ReportError::OutOfMemory => 8,
    }
}
