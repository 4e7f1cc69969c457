//! What git takes for the `HEAD` of a git directory.
ghost use Rattle.std.specs.Prelude.{◌≡◌, take, option_map, Ok, codes, false};
ghost use Rattle.std.specs.List.{list_all};
ghost use Rattle.std.specs.Char.{is_ascii_hexdigit};
ghost use Rattle.worktree_fs.specs.Repository.{text_after_prefix};
ghost use Rattle.worktree_fs.specs.Tree.{look};
ghost use Rattle.git_places.specs.Finds.{FindsInTree};
ghost use Rattle.git_places.specs.Head as words;

use crate::error::PlacesError;
use gitbase_core::Bytes;
use std::alloc::Global;
use worktree_fs::{ReadAnswer, Worktree};

/// What git says of the `HEAD` of a directory.
#[derive(Clone, Copy, Debug, PartialEq, Eq)]
pub enum Head {
    /// It is that of a git directory.
    Good,
    /// It is not, or is not there.
    Bad,
    /// What it says is not known here: a link, or a node that is no file.
    Unknown,
}

/// The text behind `front`.
fn strip_text_prefix<'a>(text: &'a [u8], front: &[u8]) -> Option<&'a [u8]>
    ensures { option_map (λ rest. rest.now) result ≡ text_after_prefix front.now text.now }
{
    text.strip_prefix(front)
}

fn begins_with(front: &[u8], text: &[u8]) -> bool
    ensures { result ≡ words.begins_with front.now text.now }
{
    strip_text_prefix(text, front).is_some()
}

fn is_space_tab_or_line_end(byte: u8) -> bool
    ensures { result ≡ words.is_space_tab_or_line_end byte }
{
    byte == b' ' || byte == b'\t' || byte == b'\n' || byte == b'\r'
}

/// A text without the blanks at its front.
fn without_leading_blanks(text: &[u8]) -> &[u8]
    ensures { result.now ≡ words.without_leading_blanks text.now }
{
    let mut rest = text;
    while let Some((first, after)) = rest.split_first() {
        if !is_space_tab_or_line_end(*first) {
            return rest;
        }
        rest = after;
    }
    rest
}

/// Whether what stands behind `ref:` names a ref.
fn is_symbolic_ref_text(text: &[u8]) -> bool
    ensures { result ≡ words.begins_with_refs_after_blanks (text_after_prefix (codes "ref:")
        text.now) }
{
    match strip_text_prefix(text, b"ref:".as_slice()) {
        Some(rest) => begins_with(b"refs/".as_slice(), without_leading_blanks(rest)),
        None => false,
    }
}

fn are_all_hex_digits(text: &[u8]) -> bool
    ensures { result ≡ list_all is_ascii_hexdigit text.now }
{
    text.iter().all(|b| b.is_ascii_hexdigit())
}

/// Whether a text begins with the 40 hex digits of an id.
fn begins_with_40_hex_digits(text: &[u8]) -> bool
    ensures { result ≡ words.begins_with_40_hex_digits text.now }
{
    if text.len() < 40 {
        return false;
    }
    are_all_hex_digits(&text[..40])
}

/// The first 255 bytes.
fn first_255_bytes(bytes: &[u8]) -> &[u8]
    ensures { result.now ≡ take 255 bytes.now }
{
    if bytes.len() < 255 {
        return bytes;
    }
    &bytes[..255]
}

fn is_valid_head_text(text: &[u8]) -> bool
    ensures { result ≡ words.is_valid_head_text text.now }
{
    is_symbolic_ref_text(text) || begins_with_40_hex_digits(text)
}

/// What git says of the bytes of a `HEAD`.
fn head_verdict_of_bytes(bytes: &[u8]) -> Head
    ensures { result ≡ words.head_verdict_of_bytes bytes.now }
{
    if is_valid_head_text(first_255_bytes(bytes)) {
        Head::Good
    } else {
        Head::Bad
    }
}

/// What git says of the `HEAD` at a path. It has to be a file that begins with `ref:`, any blanks
/// and `refs/`, or with the 40 digits of an id, as in the function `validate_headref` of git
/// 2.39.5.
///
/// # Errors
///
/// - `Fault`: the worktree failed, which it counted.
/// - `OutOfMemory` for want of memory.
pub fn head_verdict_at_path<W: Worktree>(
    alloc: Global,
    worktree: &mut W,
    path: &[u8],
) -> Result<Head, PlacesError>
    ensures { FindsInTree W.Worktree worktree.old worktree.new
        (λ t. Ok (words.head_verdict_of_lookup (look t path.now false))) result }
{
    let mut bytes = Bytes::new(alloc);
    match worktree.read(alloc, path, false, &mut bytes)? {
        ReadAnswer::Read => Ok(head_verdict_of_bytes(bytes.as_bytes())),
        ReadAnswer::Absent => Ok(Head::Bad),
        ReadAnswer::IsDirectory => Ok(Head::Bad),
        ReadAnswer::IsLink => Ok(Head::Unknown),
        ReadAnswer::LinkLimit => Ok(Head::Unknown),
        ReadAnswer::Special => Ok(Head::Unknown),
    }
}
