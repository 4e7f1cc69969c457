//! Directories above paths, as sets.
ghost use Rattle.std.specs.Prelude.{◌≡◌, ◌<◌, ◌∷◌, [], OnOk, IfOk, length};
ghost use Rattle.gitbase_core.specs.Among.{is_text_in_list};
ghost use Rattle.ls_files.specs.Others.{directories_above_path};
ghost use Rattle.worktree_report.specs.SetupMeant.{insert_paths_in_order};
ghost use Rattle.git_clean.specs.Directories as words;

use gitbase_core::{Bytes, OutOfMemory};
use std::alloc::Global;
use std::collections::BTreeSet;

/// Whether a directory is one of a set.
pub fn set_contains_directory(
    alloc: Global,
    directories: &BTreeSet<Bytes>,
    directory: &[u8],
) -> Result<bool, OutOfMemory>
    ensures { IfOk result (λ there. there ≡ is_text_in_list directory.now directories.now.keys) }
{
    let key = Bytes::from_slice(alloc, directory)?;
    let there = set_contains_key(directories, &key);
    Ok(there)
}

/// Whether a directory is one of a set, by a search.
fn set_contains_key(directories: &BTreeSet<Bytes>, directory: &Bytes) -> bool
    ensures { result ≡ is_text_in_list directory.now directories.now.keys }
{
    directories.contains(directory)
}

/// Whether the directory that ends before a byte of a path is one of a set.
fn set_contains_prefix_ending_at(
    alloc: Global,
    directories: &BTreeSet<Bytes>,
    path: &[u8],
    at: usize,
) -> Result<bool, OutOfMemory>
    requires { at < length path.now }
    ensures { IfOk result (λ there. there ≡ words.set_contains_prefix_ending_at directories.now.keys
        path.now at) }
{
    if path[at] != b'/' {
        return Ok(false);
    }
    set_contains_directory(alloc, directories, &path[..at])
}

/// Whether a path lies in a directory of a set.
pub fn lies_beneath_any_directory(
    alloc: Global,
    directories: &BTreeSet<Bytes>,
    path: &[u8],
) -> Result<bool, OutOfMemory>
    ensures { IfOk result (λ lies. lies ≡ words.lies_beneath_any_directory directories.now.keys
        path.now) }
{
    let mut at = 0;
    while at < path.len() {
        if set_contains_prefix_ending_at(alloc, directories, path, at)? {
            return Ok(true);
        }
        at += 1;
    }
    Ok(false)
}

/// Puts a directory into a set.
pub fn add(
    alloc: Global,
    directories: &mut BTreeSet<Bytes>,
    directory: &[u8],
) -> Result<(), OutOfMemory>
    ensures { OnOk result (directories.new.keys
        ≡ insert_paths_in_order directories.old.keys (directory.now ∷ [])) }
{
    directories.insert(Bytes::from_slice(alloc, directory)?)?;
    Ok(())
}

/// Puts the directories above a path into a set.
pub fn add_directories_above_path(
    alloc: Global,
    directories: &mut BTreeSet<Bytes>,
    path: &[u8],
) -> Result<(), OutOfMemory>
    ensures { OnOk result (directories.new.keys
        ≡ insert_paths_in_order directories.old.keys (directories_above_path path.now)) }
{
    let mut at = 0;
    while at < path.len() {
        if path[at] == b'/' {
            add(alloc, directories, &path[..at])?;
        }
        at += 1;
    }
    Ok(())
}
