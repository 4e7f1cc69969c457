//! Ceilings, by the text of `GIT_CEILING_DIRECTORIES`.
ghost use Rattle.std.specs.Prelude.{◌≡◌, ◌==◌, ◌+◌, ◌≤◌, [], ◌∷◌, false, length, drop, Ok, MatchOption, OnOk};
ghost use Rattle.std.specs.List.{slice_split};
ghost use Rattle.git_places.specs.Ceilings as words;
ghost use Rattle.git_places.specs.Finds.{FindsInTree};

use crate::error::PlacesError;
use bstr::ByteSlice;
use gitbase_core::{Bytes, OutOfMemory, is_absolute};
use std::alloc::Global;
use std::marker::Model;
use worktree_fs::Worktree;

/// Directories into which the search for a work tree does not go up. Contracts see the list of
/// their paths, without their first slash.
#[derive(Debug, Drop)]
pub struct Ceilings {
    items: Vec<Bytes>,
}

impl Model for Ceilings {
    ghost use Rattle.std.specs.Prelude.{ℕ, List};

    ghost Value = { List (List ℕ) };

    ghost view = { λ ceilings. ceilings.items.items };
}

impl Ceilings {
    /// No ceilings; takes no memory.
    pub fn new(alloc: Global) -> Ceilings
        ensures { result ≡ [] }
    {
        Ceilings {
            items: Vec::new(alloc),
        }
    }

    /// Their paths without their first slash, as [`crate::Limits`] has them.
    pub fn as_slice(&self) -> &[Bytes]
        ensures { result.now ≡ self.now }
    {
        self.items.as_slice()
    }

    fn push(&mut self, ceiling: Option<Bytes>) -> Result<(), OutOfMemory>
        ensures { OnOk result (self.new ≡ words.append_ceiling_if_any self.old ceiling) }
    {
        if let Some(ceiling) = ceiling {
            self.items.push(ceiling)?;
        }
        Ok(())
    }
}

/// A path without its first slash.
fn without_leading_slash(path: &[u8]) -> &[u8]
    ensures { result.now ≡ words.without_leading_slash path.now }
{
    match path {
        [_, rest @ ..] => rest,
        [] => path,
    }
}

/// A path without a slash at its end; a lone one stays.
fn without_trailing_slash(path: &[u8]) -> &[u8]
    ensures { result.now ≡ words.without_trailing_slash path.now }
{
    if path == b"/".as_slice() {
        return path;
    }
    if path.ends_with(b"/") {
        return &path[..path.len() - 1];
    }
    path
}

/// The ceiling of an absolute entry whose links are followed, if something is there.
fn ceiling_with_links_followed<W: Worktree>(
    alloc: Global,
    worktree: &mut W,
    entry: &[u8],
) -> Result<Option<Bytes>, PlacesError>
    ensures { FindsInTree W.Worktree worktree.old worktree.new
        (λ t. Ok (words.ceiling_of_absolute_entry t false entry.now)) result }
{
    match worktree.real_path(alloc, entry, b"/")? {
        Some(real) => Ok(Some(Bytes::from_slice(alloc, without_leading_slash(real.as_bytes()))?)),
        None => Ok(None),
    }
}

/// The ceiling of an absolute entry.
fn ceiling_of_absolute_entry<W: Worktree>(
    alloc: Global,
    worktree: &mut W,
    as_it_is: bool,
    entry: &[u8],
) -> Result<Option<Bytes>, PlacesError>
    ensures { FindsInTree W.Worktree worktree.old worktree.new
        (λ t. Ok (words.ceiling_of_absolute_entry t as_it_is entry.now)) result }
{
    if as_it_is {
        return Ok(Some(Bytes::from_slice(
            alloc,
            without_trailing_slash(without_leading_slash(entry)),
        )?));
    }
    ceiling_with_links_followed(alloc, worktree, entry)
}

/// The ceiling of an entry, if it has one.
fn ceiling_of_entry<W: Worktree>(
    alloc: Global,
    worktree: &mut W,
    as_it_is: bool,
    entry: &[u8],
) -> Result<Option<Bytes>, PlacesError>
    ensures { FindsInTree W.Worktree worktree.old worktree.new
        (λ t. Ok (words.ceiling_of_entry t as_it_is entry.now)) result }
{
    if !is_absolute(entry) {
        return Ok(None);
    }
    ceiling_of_absolute_entry(alloc, worktree, as_it_is, entry)
}

/// The bytes after the first `count`.
fn bytes_after_count(bytes: &[u8], count: usize) -> &[u8]
    requires { count ≤ length bytes.now }
    ensures { result.now ≡ drop count bytes.now }
{
    &bytes[count..]
}

/// The first of some entries that colons part, and what follows the colon behind it.
fn split_first_entry_at_colon(entries: &[u8]) -> (&[u8], Option<&[u8]>)
    ensures entries { MatchOption result.1
        (slice_split (λ b. b == 58) entries.now ≡ result.0.now ∷ [])
        (λ rest. slice_split (λ b. b == 58) entries.now
        ≡ result.0.now ∷ slice_split (λ b. b == 58) rest.now) }
    ensures lengths { MatchOption result.1 (result.0.now ≡ entries.now)
        (λ rest. length result.0.now + 1 + length rest.now ≡ length entries.now) }
{
    match entries.find_byte(b':') {
        Some(at) => (&entries[..at], Some(bytes_after_count(entries, at + 1))),
        None => (entries, None),
    }
}

/// The ceilings that `text` names, as git(1) has them for `GIT_CEILING_DIRECTORIES`: paths between
/// colons.
///
/// A path that is not absolute is none. Links in a path are followed, and one at which nothing is
/// is none; but behind an empty entry each path is taken as it stands, without one slash at its
/// end.
///
/// # Errors
///
/// - `Fault`: the worktree failed, which it counted. No fault reads as "nothing is there".
/// - `OutOfMemory` for want of memory.
pub fn parse_ceiling_directories<W: Worktree>(
    alloc: Global,
    worktree: &mut W,
    text: &[u8],
) -> Result<Ceilings, PlacesError>
    ensures { FindsInTree W.Worktree worktree.old worktree.new
        (λ t. Ok (words.parse_ceiling_directories t text.now)) result }
{
    let mut made = Ceilings::new(alloc);
    let mut as_it_is = false;
    let mut left = text;
    loop {
        let (entry, rest) = split_first_entry_at_colon(left);
        let ceiling = ceiling_of_entry(alloc, worktree, as_it_is, entry)?;
        made.push(ceiling)?;
        let Some(next) = rest else {
            return Ok(made);
        };
        as_it_is = as_it_is | entry.is_empty();
        left = next;
    }
}
