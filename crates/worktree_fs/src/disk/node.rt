//! The calls of the system on one node, with its answers as those of a worktree.
ghost use Rattle.std.specs.Prelude.{◌≡◌, ◌↔◌, ◌≤◌, ◌<◌, ◌^◌, length, None, Ok, IfOk, IfErr, IfSome, IsErrOf, MatchOption, MatchResult, IsTrue, true, false};
ghost use Rattle.std.specs.Str.{is_utf8};
ghost use Rattle.worktree_fs.specs.Answers.{HoldsUnlessFileRead};
ghost use Rattle.worktree_fs.specs.Changes.{resolve_path_from_directory};
ghost use Rattle.worktree_fs.specs.Disk.{has_nul, is_non_utf8_without_nul, root_or_without_trailing_slashes, is_nonempty_relative_path, path_with_composed_last_name, IsPathAbsenceError, IsAllocatorOutOfMemory, IsPathOrRestBeneathCurrent};
ghost use Rattle.std.specs.Fs.{file_type, IsFile, IsDir, IsSymlink};

use crate::composed::nfc_if_composing;
use crate::names::resolve_path_from_directory;
use crate::{MakeAnswer, NodeKind, ReadAnswer, ReadError, RemoveAnswer};
use gitbase_core::{Bytes, OutOfMemory, PathText, basename};
use std::alloc::Global;
use std::fs::{File, Metadata};
use std::io::{ErrorKind, Read};
use std::rt::{Files, HostRuntime};
use std::{io, str};

/// How many bytes a file may have.
const BYTE_LIMIT: u64 = 1 << 30;

/// The text of bytes that are UTF-8.
#[tactic(auto, using(crate::proofs::Paths::Texts::is_utf8_not))]
fn str_if_utf8(bytes: &[u8]) -> Option<&str>
    ensures { MatchOption result (is_utf8 bytes.now ≡ false)
        (λ text. (text.now ≡ bytes.now) × (is_utf8 bytes.now ≡ true)) }
{
    match str::from_utf8(bytes) {
        Ok(text) => Some(text),
        Err(_) => None,
    }
}

/// The path as the system takes it, without slashes at its end; none exactly where it has a NUL,
/// and so leads nowhere.
///
/// # Errors
///
/// - `Fault` exactly where std cannot ask the system for it.
pub fn str_path_without_end_slashes(path: &[u8]) -> Result<Option<&str>, ReadError>
    ensures refused { IsTrue (is_non_utf8_without_nul path.now) → IsErrOf result ReadError.Fault }
    ensures wants_none { IsErrOf result ReadError.OutOfMemory → ⊥ }
    ensures asked { IfOk result (λ _. is_non_utf8_without_nul path.now ≡ false) }
    ensures askable { is_non_utf8_without_nul path.now ≡ false → IfErr result (λ _. ⊥) }
    ensures nowhere { IsTrue (has_nul path.now) → result ≡ Ok None }
    ensures somewhere { result ≡ Ok None → IsTrue (has_nul path.now) }
    ensures text { IfOk result (λ text. IfSome text
        (λ t. t.now ≡ root_or_without_trailing_slashes path.now)) }
{
    if path.contains(&0) {
        return Ok(None);
    }
    let Some(text) = str_if_utf8(path) else {
        return Err(ReadError::Fault);
    };
    let text = text.trim_end_matches('/');
    Ok(Some(if text.is_empty() { "/" } else { text }))
}

/// A path as it leads from the current directory, of which `current` is the path with a slash at its
/// end, where it lies beneath that; else as it is. The system walks fewer components then.
fn path_from_current_dir_if_beneath<'t>(path: &'t str, current: &str) -> &'t str
    ensures { IsPathOrRestBeneathCurrent current.now path.now result.now }
{
    match path.strip_prefix(current) {
        Some(rest) if is_nonempty_relative_path(rest) => rest,
        _ => path,
    }
}

/// Whether a path leads from the current directory.
fn is_nonempty_relative_path(path: &str) -> bool
    ensures { result ≡ is_nonempty_relative_path path.now }
{
    match path.as_bytes() {
        [] => false,
        [first, ..] => *first != b'/',
    }
}

/// The path that the system is asked for, from the current directory where it lies beneath that; none
/// exactly where it has a NUL.
///
/// # Errors
///
/// - `Fault` exactly where std cannot ask the system for it.
pub fn system_path_relative_to_cwd_if_beneath<'p>(
    path: &'p [u8],
    current: &str,
) -> Result<Option<&'p str>, ReadError>
    ensures refused { IsTrue (is_non_utf8_without_nul path.now) → IsErrOf result ReadError.Fault }
    ensures wants_none { IsErrOf result ReadError.OutOfMemory → ⊥ }
    ensures askable { is_non_utf8_without_nul path.now ≡ false → IfErr result (λ _. ⊥) }
    ensures nowhere { IsTrue (has_nul path.now) → result ≡ Ok None }
    ensures somewhere { result ≡ Ok None → IsTrue (has_nul path.now) }
    ensures text { IfOk result (λ text. IfSome text (λ t. IsPathOrRestBeneathCurrent current.now
        (root_or_without_trailing_slashes path.now) t.now)) }
{
    match str_path_without_end_slashes(path)? {
        Some(text) => Ok(Some(path_from_current_dir_if_beneath(text, current))),
        None => Ok(None),
    }
}

/// The kind that the system's word on a node tells.
fn node_kind_of_metadata(metadata: &Metadata) -> NodeKind
    ensures file { (result ≡ NodeKind.File) ↔ IsFile (file_type metadata.now) }
    ensures directory { (result ≡ NodeKind.Directory) ↔ IsDir (file_type metadata.now) }
    ensures link { (result ≡ NodeKind.Symlink) ↔ IsSymlink (file_type metadata.now) }
{
    if metadata.is_file() {
        NodeKind::File
    } else if metadata.is_dir() {
        NodeKind::Directory
    } else if metadata.is_symlink() {
        NodeKind::Symlink
    } else {
        NodeKind::Untrackable
    }
}

/// Whether the system says that the path leads nowhere.
pub fn is_path_absence_error(error: &io::Error) -> bool
    ensures { IsTrue result ↔ IsPathAbsenceError error.now }
{
    error.kind() == ErrorKind::NotFound || error.kind() == ErrorKind::NotADirectory
}

/// The kind of the node at a path, where there is one.
/// See docs/DIFFERENCES.md#gix-link-limit.
pub fn kind_at_path(
    rt: &HostRuntime,
    current: &str,
    path: &[u8],
    follow: bool,
) -> Result<Option<NodeKind>, ReadError>
    ensures wants_none { IsErrOf result ReadError.OutOfMemory → ⊥ }
    ensures unaskable { IsTrue (is_non_utf8_without_nul path.now) → IsErrOf result ReadError.Fault }
    ensures nowhere { IsTrue (has_nul path.now) → result ≡ Ok None }
{
    let Some(text) = system_path_relative_to_cwd_if_beneath(path, current)? else {
        return Ok(None);
    };
    let metadata = if follow {
        rt.metadata(text)
    } else {
        rt.symlink_metadata(text)
    };
    match metadata {
        Ok(metadata) => Ok(Some(node_kind_of_metadata(&metadata))),
        Err(error) if is_path_absence_error(&error) => Ok(None),
        Err(_) => Err(ReadError::Fault),
    }
}

/// Puts a file's bytes into `into`, or answers what stands there in its place.
pub fn read_file_into(
    rt: &HostRuntime,
    alloc: Global,
    current: &str,
    path: &[u8],
    follow: bool,
    into: &mut Bytes,
) -> Result<ReadAnswer, ReadError>
    ensures into { HoldsUnlessFileRead result (into.new ≡ into.old) }
    ensures link { result ≡ Ok ReadAnswer.IsLink → follow ≡ false }
    ensures short { result ≡ Ok ReadAnswer.Read → length into.new ≤ 2 ^ 30 }
    ensures unaskable { IsTrue (is_non_utf8_without_nul path.now) → IsErrOf result ReadError.Fault }
    ensures nowhere { IsTrue (has_nul path.now) → result ≡ Ok ReadAnswer.Absent }
{
    match kind_at_path(rt, current, path, follow)? {
        None => Ok(ReadAnswer::Absent),
        Some(NodeKind::Directory) => Ok(ReadAnswer::IsDirectory),
        Some(NodeKind::Symlink) if follow => Err(ReadError::Fault),
        Some(NodeKind::Symlink) => Ok(ReadAnswer::IsLink),
        Some(NodeKind::Untrackable) => Ok(ReadAnswer::Special),
        Some(NodeKind::File) => {
            let bytes = read_file_bytes(rt, alloc, current, path)?;
            *into = Bytes::from_vec(bytes);
            Ok(ReadAnswer::Read)
        }
    }
}

/// The bytes of a file.
fn read_file_bytes(
    rt: &HostRuntime,
    alloc: Global,
    current: &str,
    path: &[u8],
) -> Result<Vec<u8>, ReadError>
    ensures { IfOk result (λ bytes. length bytes.items ≤ 2 ^ 30) }
{
    let Some(text) = system_path_relative_to_cwd_if_beneath(path, current)? else {
        return Err(ReadError::Fault);
    };
    let Ok(file) = File::open(rt, text) else {
        return Err(ReadError::Fault);
    };
    read_to_end_within_limit(alloc, file)
}

/// All bytes that a reader gives, where they are no more than a file may have.
fn read_to_end_within_limit<R: Read + Drop>(alloc: Global, reader: R) -> Result<Vec<u8>, ReadError>
    ensures whole { IfOk result (λ bytes. IfSome (R.remaining reader)
        (λ given. bytes.items ≡ given)) }
    ensures short { IfOk result (λ bytes. length bytes.items ≤ 2 ^ 30) }
{
    let mut bytes = Vec::new(alloc);
    match reader.take(BYTE_LIMIT + 1).read_to_end(&mut bytes) {
        Ok(_) => bytes_if_within_file_limit(bytes),
        Err(error) if is_allocator_out_of_memory(&error) => Err(ReadError::OutOfMemory),
        Err(_) => Err(ReadError::Fault),
    }
}

/// The bytes of a file, where they are no more than a file may have; more are a fault.
fn bytes_if_within_file_limit(bytes: Vec<u8>) -> Result<Vec<u8>, ReadError>
    ensures { MatchResult result
        (λ kept. (kept ≡ bytes) × (length bytes.items ≤ 2 ^ 30))
        (λ error. (error ≡ ReadError.Fault) × (2 ^ 30 < length bytes.items)) }
{
    if bytes.len() as u64 > BYTE_LIMIT {
        return Err(ReadError::Fault);
    }
    Ok(bytes)
}

/// Whether the program's own allocator refused, and not the system.
fn is_allocator_out_of_memory(error: &io::Error) -> bool
    ensures { IsTrue result ↔ IsAllocatorOutOfMemory error.now }
{
    error.kind() == ErrorKind::OutOfMemory && error.raw_os_error().is_none()
}

/// The path without links, where there is a node.
pub fn real_path(
    rt: &HostRuntime,
    alloc: Global,
    path: &[u8],
    cwd: &[u8],
) -> Result<Option<PathText>, ReadError>
    ensures unaskable { IsTrue (is_non_utf8_without_nul (resolve_path_from_directory path.now
        cwd.now)) → IfOk result (λ _. ⊥) }
    ensures nowhere { IsTrue (has_nul (resolve_path_from_directory path.now cwd.now))
        → MatchResult result (λ real. real ≡ None) (λ error. error ≡ ReadError.OutOfMemory) }
{
    let full = resolve_path_from_directory(alloc, path, cwd)?;
    let Some(text) = str_path_without_end_slashes(full.as_bytes())? else {
        return Ok(None);
    };
    match rt.canonicalize(alloc, text) {
        Ok(real) => Ok(Some(PathText::from_bytes(alloc, real.as_str().as_bytes())?)),
        Err(error) if is_path_absence_error(&error) => Ok(None),
        Err(error) if is_allocator_out_of_memory(&error) => Err(ReadError::OutOfMemory),
        Err(_) => Err(ReadError::Fault),
    }
}

/// The path whose last name is as it is kept.
/// See docs/DECISIONS.md#empty-components.
/// See docs/DIFFERENCES.md#gix-trailing-slash.
fn path_with_composed_last_name(
    alloc: Global,
    composes: bool,
    path: &[u8],
) -> Result<Bytes, OutOfMemory>
    ensures { IfOk result (λ made. made ≡ path_with_composed_last_name composes path.now) }
{
    let name = basename(path);
    let (parent, _) = path.split_at(path.len() - name.len());
    let mut made = Bytes::from_slice(alloc, parent)?;
    made.extend(alloc, nfc_if_composing(alloc, composes, name)?.as_bytes())?;
    Ok(made)
}

/// Makes a directory, whose name is composed where names are.
pub fn make_dir(
    rt: &HostRuntime,
    alloc: Global,
    composes: bool,
    path: &[u8],
) -> Result<MakeAnswer, ReadError>
    ensures unaskable { IsTrue (is_non_utf8_without_nul path.now) → IsErrOf result ReadError.Fault }
    ensures nowhere { IsTrue (has_nul path.now) → result ≡ Ok MakeAnswer.NoParent }
{
    let Some(given) = str_path_without_end_slashes(path)? else {
        return Ok(MakeAnswer::NoParent);
    };
    let made = path_with_composed_last_name(alloc, composes, given.as_bytes())?;
    let Some(text) = str_path_without_end_slashes(made.as_bytes())? else {
        return Ok(MakeAnswer::NoParent);
    };
    match rt.create_dir(text) {
        Ok(()) => Ok(MakeAnswer::Made),
        Err(error) if error.kind() == ErrorKind::AlreadyExists => Ok(MakeAnswer::Exists),
        Err(error) if is_path_absence_error(&error) => Ok(MakeAnswer::NoParent),
        Err(_) => Err(ReadError::Fault),
    }
}

/// Removes a node that is no directory.
pub fn remove_node(rt: &HostRuntime, current: &str, path: &[u8]) -> Result<RemoveAnswer, ReadError>
    ensures wants_none { IsErrOf result ReadError.OutOfMemory → ⊥ }
    ensures unaskable { IsTrue (is_non_utf8_without_nul path.now) → IsErrOf result ReadError.Fault }
    ensures nowhere { IsTrue (has_nul path.now) → result ≡ Ok RemoveAnswer.Absent }
{
    match kind_at_path(rt, current, path, false)? {
        None => Ok(RemoveAnswer::Absent),
        Some(NodeKind::Directory) => Ok(RemoveAnswer::IsDirectory),
        Some(_) => {
            let Some(text) = system_path_relative_to_cwd_if_beneath(path, current)? else {
                return Ok(RemoveAnswer::Absent);
            };
            match rt.remove_file(text) {
                Ok(()) => Ok(RemoveAnswer::Removed),
                Err(error) if is_path_absence_error(&error) => Ok(RemoveAnswer::Absent),
                Err(_) => Err(ReadError::Fault),
            }
        }
    }
}
