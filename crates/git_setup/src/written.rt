//! The path specs that are asked for, as they are written.
ghost use Rattle.std.specs.Prelude.{◌≡◌, ◌&&◌, ◌++◌, ◌∷◌, [], map, IfOk, OnOk};
ghost use Rattle.std.specs.List.{list_any};
ghost use Rattle.git_setup.specs.AskedSpecs as words;

use crate::placed::split_pathspec_into_magic_and_path;
use gitbase_core::{Bytes, OutOfMemory};
use std::alloc::Global;

/// A path spec as it is written.
#[derive(Debug, Drop)]
pub struct Written {
    /// What tells of it.
    pub told: Bytes,
    /// Its text, from the current directory on.
    pub text: Bytes,
}

/// Whether a text asks for what is not to be meant.
fn has_exclude_magic(alloc: Global, text: &[u8]) -> Result<bool, OutOfMemory>
    ensures { IfOk result (λ is. is ≡ words.has_exclude_magic text.now) }
{
    Ok(split_pathspec_into_magic_and_path(alloc, text)?.excludes)
}

/// Whether one of some texts does not.
fn has_positive_pathspec(alloc: Global, texts: &[Bytes]) -> Result<bool, OutOfMemory>
    ensures { IfOk result (λ is. is ≡ list_any words.is_positive_pathspec texts.now) }
{
    for text in texts {
        if !has_exclude_magic(alloc, text.as_bytes())? {
            return Ok(true);
        }
    }
    Ok(false)
}

/// Whether the directory itself is meant, in which texts are asked for.
fn is_current_directory_implied(
    alloc: Global,
    prefix: &[u8],
    texts: &[Bytes],
) -> Result<bool, OutOfMemory>
    ensures { IfOk result (λ is. is ≡ words.is_current_directory_implied prefix.now texts.now) }
{
    if texts.is_empty() {
        return Ok(!prefix.is_empty());
    }
    Ok(!has_positive_pathspec(alloc, texts)?)
}

/// What tells of the directory in which texts are asked for.
fn name_of_current_directory_spec(
    alloc: Global,
    prefix: &[u8],
    texts: &[Bytes],
) -> Result<Bytes, OutOfMemory>
    ensures { IfOk result (λ told. told ≡ words.name_of_current_directory_spec prefix.now
        texts.now) }
{
    if !texts.is_empty() {
        return Bytes::from_slice(alloc, b".");
    }
    let mut told = Bytes::from_slice(alloc, prefix)?;
    told.extend(alloc, b"/")?;
    Ok(told)
}

/// The directory in which texts are asked for, as one of them.
fn current_directory_pathspec(
    alloc: Global,
    prefix: &[u8],
    texts: &[Bytes],
) -> Result<Written, OutOfMemory>
    ensures { IfOk result (λ written. written ≡ words.current_directory_pathspec prefix.now
        texts.now) }
{
    Ok(Written {
        told: name_of_current_directory_spec(alloc, prefix, texts)?,
        text: Bytes::from_slice(alloc, b":(literal).")?,
    })
}

/// A text as it is asked for.
fn written_pathspec_of_text(alloc: Global, text: &[u8]) -> Result<Written, OutOfMemory>
    ensures { IfOk result (λ written. written ≡ words.written_pathspec_of_text text.now) }
{
    Ok(Written {
        told: Bytes::from_slice(alloc, text)?,
        text: Bytes::from_slice(alloc, text)?,
    })
}

/// Texts as they are asked for.
fn written_pathspecs_of_texts(alloc: Global, texts: &[Bytes]) -> Result<Vec<Written>, OutOfMemory>
    ensures { IfOk result (λ written. written.items ≡ map words.written_pathspec_of_text
        texts.now) }
{
    let mut written = Vec::new(alloc);
    for text in texts {
        written.push(written_pathspec_of_text(alloc, text.as_bytes())?)?;
    }
    Ok(written)
}

/// Adds the directory in which texts are asked for.
fn push_current_directory_pathspec(
    alloc: Global,
    written: &mut Vec<Written>,
    prefix: &[u8],
    texts: &[Bytes],
) -> Result<(), OutOfMemory>
    ensures { OnOk result (written.new.items ≡ written.old.items
        ++ words.current_directory_pathspec prefix.now texts.now ∷ []) }
{
    written.push(current_directory_pathspec(alloc, prefix, texts)?)?;
    Ok(())
}

/// Whether the directory is to stand behind some texts.
fn is_current_directory_to_be_added(
    alloc: Global,
    prefers: bool,
    prefix: &[u8],
    texts: &[Bytes],
) -> Result<bool, OutOfMemory>
    ensures { IfOk result (λ is. is ≡ (prefers && words.is_current_directory_implied prefix.now
        texts.now)) }
{
    if !prefers {
        return Ok(false);
    }
    is_current_directory_implied(alloc, prefix, texts)
}

/// Some texts as they are asked for in the directory `prefix` of a work tree. Where `prefers` says
/// so, the directory itself stands behind them if there are none, unless it is the top, and if each
/// excludes.
#[tactic(auto, unfolding(crate::specs::AskedSpecs::pathspecs_with_implied_current_directory))]
pub fn pathspecs_with_implied_current_directory(
    alloc: Global,
    prefers: bool,
    prefix: &[u8],
    texts: &[Bytes],
) -> Result<Vec<Written>, OutOfMemory>
    ensures { IfOk result (λ written. written.items ≡ words.pathspecs_with_implied_current_directory
        prefers prefix.now texts.now) }
{
    let mut written = written_pathspecs_of_texts(alloc, texts)?;
    if is_current_directory_to_be_added(alloc, prefers, prefix, texts)? {
        push_current_directory_pathspec(alloc, &mut written, prefix, texts)?;
    }
    Ok(written)
}
