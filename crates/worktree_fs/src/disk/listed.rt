//! The names of a directory of the system.
ghost use Rattle.std.specs.Prelude.{◌≡◌, ◌⊎◌, ◌↔◌, ◌≤◌, ◌<◌, ◌++◌, ◌∷◌, [], length, Some, None, if◌then◌else◌, IfOk, IfErr, OnOk, IfSome, MatchOption, All, IsTrue, false, IsErrOf, IsPermutation, bytes_eq, string_bytes};
ghost use Rattle.std.specs.Io.KnownBytes.{IsAtEnd};
ghost use Rattle.std.specs.List.{IsDistinct};
ghost use Rattle.std.specs.declared.cmp.Ordering.TheVariants.{Less};
ghost use Rattle.std.specs.List.Sorted.{IsStrictlySortedBy};
ghost use Rattle.worktree_fs.specs.Composed.{nfc_if_composing};
ghost use Rattle.worktree_fs.specs.Disk.{has_nul, is_non_utf8_without_nul, IsComposedIfComposing, AreValidListedNames, composed_names_without_dots, composed_names_of_chunk, path_with_slash_if_following, ListsNamesOfAllChunks, IsPathAbsenceError};
ghost use Rattle.worktree_fs.specs.Naming.{AreDistinctValidEntryNames, is_valid_entry_name};
ghost use Rattle.worktree_fs.specs.Order.{compare_path_bytes};

use super::node::{is_path_absence_error, kind_at_path, system_path_relative_to_cwd_if_beneath};
use crate::composed::nfc_if_composing;
use crate::names::{is_dot, is_dot_dot, is_valid_entry_name, split_once_at_byte};
use crate::{ListError, NameList, NodeKind};
use gitbase_core::{Bytes, OutOfMemory};
use std::alloc::Global;
use std::cmp::Ordering;
use std::io;
use std::io::Read;
use std::rt::{Files, HostRuntime};

/// How many bytes of names the system is asked for at a time.
const BUFFER_LEN: usize = 32_768;

/// How many names a directory may have.
const NAME_LIMIT: usize = 1_000_000;

/// The names of a directory.
pub fn list_directory(
    rt: &HostRuntime,
    alloc: Global,
    composes: bool,
    buffer: &mut Vec<u8>,
    current: &str,
    path: &[u8],
    follow: bool,
) -> Result<NameList, ListError>
    ensures names { IfOk result AreDistinctValidEntryNames }
    ensures kept { IfOk result (All (IsComposedIfComposing composes)) }
    ensures few { IfOk result (λ names. length names ≤ 1000000) }
    ensures sorted { IfOk result (IsStrictlySortedBy compare_path_bytes) }
    ensures unaskable { IsTrue (is_non_utf8_without_nul path.now)
        → IsErrOf result ListError.OpenFault }
    ensures nowhere { IsTrue (has_nul path.now) → IsErrOf result ListError.Absent }
{
    let Ok(text) = system_path_relative_to_cwd_if_beneath(path, current) else {
        return Err(ListError::OpenFault);
    };
    let Some(text) = text else {
        return Err(ListError::Absent);
    };
    if buffer.len() < BUFFER_LEN {
        buffer.resize(BUFFER_LEN, 0)?;
    }
    let text = path_with_slash_if_following(alloc, text, follow)?;
    match rt.open_dir(text.as_str()) {
        Ok(dir) => {
            let mut dir = dir;
            read_sorted_names(alloc, composes, &mut dir, buffer)
        }
        Err(error) => Err(list_error_of_failed_open(rt, current, path, follow, &error)),
    }
}

/// The path of a directory, with the slash that makes the system follow a last link where that is
/// asked for.
fn path_with_slash_if_following(
    alloc: Global,
    path: &str,
    follow: bool,
) -> Result<String, OutOfMemory>
    ensures { IfOk result (λ text. string_bytes text ≡ path_with_slash_if_following path.now
        follow) }
{
    let mut text = String::from_str(alloc, path)?;
    if follow {
        text.push('/')?;
    }
    Ok(text)
}

/// Why a directory was not opened.
fn list_error_of_failed_open(
    rt: &HostRuntime,
    current: &str,
    path: &[u8],
    follow: bool,
    error: &io::Error,
) -> ListError
    ensures { (IsPathAbsenceError error.now → ⊥) → result ≡ ListError.OpenFault }
{
    if !is_path_absence_error(error) {
        return ListError::OpenFault;
    }
    match kind_at_path(rt, current, path, follow) {
        Ok(Some(NodeKind::Symlink)) | Ok(Some(NodeKind::File)) | Ok(Some(NodeKind::Untrackable)) =>
            { ListError::NotADirectory }
        Ok(Some(NodeKind::Directory)) => ListError::OpenFault,
        Ok(None) => ListError::Absent,
        Err(_) => ListError::OpenFault,
    }
}

/// The names that an open directory gives, to its end.
fn read_sorted_names<D: Read>(
    alloc: Global,
    composes: bool,
    dir: &mut D,
    buffer: &mut [u8],
) -> Result<NameList, ListError>
    requires { 0 < length buffer.old }
    ensures end { IfOk result (λ _. IsAtEnd (D.remaining dir.new)) }
    ensures whole { IfOk result (λ names. IfSome (D.remaining dir.old)
        (λ given. ListsNamesOfAllChunks composes given names)) }
    ensures names { IfOk result AreDistinctValidEntryNames }
    ensures kept { IfOk result (All (IsComposedIfComposing composes)) }
    ensures few { IfOk result (λ names. length names ≤ 1000000) }
    ensures sorted { IfOk result (IsStrictlySortedBy compare_path_bytes) }
    ensures refused { IfErr result (λ error. (error ≡ ListError.EntryFault)
        ⊎ (error ≡ ListError.OutOfMemory)) }
{
    let mut names = Vec::new(alloc);
    for _ in 0..u64::MAX {
        let Ok(len) = dir.read(buffer) else {
            return Err(ListError::EntryFault);
        };
        if len == 0 {
            return sorted_names_if_distinct(composes, names).ok_or(ListError::EntryFault);
        }
        append_nul_separated_names(alloc, composes, &buffer[..len], &mut names)?;
    }
    Err(ListError::EntryFault)
}

/// Adds the names of a piece that the system gave, each ended by a NUL, as they are kept.
fn append_nul_separated_names(
    alloc: Global,
    composes: bool,
    piece: &[u8],
    names: &mut Vec<Bytes>,
) -> Result<(), ListError>
    requires { AreValidListedNames composes names.old.items }
    ensures listed { AreValidListedNames composes names.new.items }
    ensures all { OnOk result (names.new.items
        ≡ names.old.items ++ composed_names_of_chunk composes piece.now) }
    ensures refused { IfErr result (λ error. (error ≡ ListError.EntryFault)
        ⊎ (error ≡ ListError.OutOfMemory)) }
{
    let mut rest = piece;
    while let Some((name, behind)) = split_once_at_byte(rest, 0) {
        append_name_unless_dots(alloc, composes, name, names)?;
        rest = behind;
    }
    append_name_unless_dots(alloc, composes, rest, names)
}

/// Adds a name that the system gave, as it is kept, where it is that of a node in the directory.
/// See docs/DIFFERENCES.md#gix-utf8-names.
/// See docs/DIFFERENCES.md#utf8-names.
fn append_name_unless_dots(
    alloc: Global,
    composes: bool,
    name: &[u8],
    names: &mut Vec<Bytes>,
) -> Result<(), ListError>
    requires { AreValidListedNames composes names.old.items }
    ensures listed { AreValidListedNames composes names.new.items }
    ensures all { OnOk result (names.new.items
        ≡ names.old.items ++ composed_names_without_dots composes (name.now ∷ [])) }
    ensures refused { IfErr result (λ error. (error ≡ ListError.EntryFault)
        ⊎ (error ≡ ListError.OutOfMemory)) }
{
    if name.is_empty() || is_dot(name) || is_dot_dot(name) {
        return Ok(());
    }
    append_composed_valid_name(alloc, composes, name, names)
}

/// Adds a name as it is kept.
fn append_composed_valid_name(
    alloc: Global,
    composes: bool,
    name: &[u8],
    names: &mut Vec<Bytes>,
) -> Result<(), ListError>
    requires { AreValidListedNames composes names.old.items }
    ensures listed { AreValidListedNames composes names.new.items }
    ensures added { OnOk result (names.new.items
        ≡ names.old.items ++ nfc_if_composing composes name.now ∷ []) }
    ensures cause { IsErrOf result ListError.EntryFault
        → (is_valid_entry_name (nfc_if_composing composes name.now) ≡ false) ⊎
        (1000000 ≤ length names.old.items) }
    ensures refused { IfErr result (λ error. (error ≡ ListError.EntryFault)
        ⊎ (error ≡ ListError.OutOfMemory)) }
{
    let Some(name) = composed_name_if_valid(alloc, composes, name)? else {
        return Err(ListError::EntryFault);
    };
    if names.len() >= NAME_LIMIT {
        return Err(ListError::EntryFault);
    }
    names.push(name)?;
    Ok(())
}

/// A name of the system as it is kept; none where it may not stand in a directory.
fn composed_name_if_valid(
    alloc: Global,
    composes: bool,
    name: &[u8],
) -> Result<Option<Bytes>, OutOfMemory>
    ensures { IfOk result (λ kept. kept ≡ (if is_valid_entry_name (nfc_if_composing composes
        name.now) then Some (nfc_if_composing composes name.now) else None)) }
{
    let kept = nfc_if_composing(alloc, composes, name)?;
    if is_valid_entry_name(kept.as_bytes()) {
        return Ok(Some(kept));
    }
    Ok(None)
}

/// The names in ascending order; none exactly where two of them are equal.
fn sorted_names_if_distinct(_composes: bool, names: Vec<Bytes>) -> Option<NameList>
    requires { AreValidListedNames _composes names.items }
    ensures distinct { MatchOption result (IsDistinct bytes_eq names.items → ⊥)
        (λ _. IsDistinct bytes_eq names.items) }
    ensures all { IfSome result (IsPermutation names.items) }
    ensures names { IfSome result AreDistinctValidEntryNames }
    ensures kept { IfSome result (All (IsComposedIfComposing _composes)) }
    ensures few { IfSome result (λ names. length names ≤ 1000000) }
    ensures sorted { IfSome result (IsStrictlySortedBy compare_path_bytes) }
{
    let mut names = names;
    names.sort_unstable_by(|a, b| compare_names_by_bytes(a, b));
    if is_strictly_ascending(&names) {
        Some(NameList::from_vec(names))
    } else {
        None
    }
}

fn compare_names_by_bytes(a: &Bytes, b: &Bytes) -> Ordering
    ensures { result ≡ compare_path_bytes a.now b.now }
{
    a.as_bytes().cmp(&b.as_bytes())
}

/// Whether each name is below the next.
fn is_strictly_ascending(names: &[Bytes]) -> bool
    ensures { IsTrue result ↔ IsStrictlySortedBy compare_path_bytes names.now }
{
    for i in 1..names.len() {
        if !is_name_less(&names[i - 1], &names[i]) {
            return false;
        }
    }
    true
}

fn is_name_less(a: &Bytes, b: &Bytes) -> bool
    ensures { IsTrue result ↔ compare_path_bytes a.now b.now ≡ Less }
{
    compare_names_by_bytes(a, b).is_lt()
}
