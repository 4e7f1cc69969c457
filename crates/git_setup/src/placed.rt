//! A path spec from a directory of the work tree, as it is from the top.
ghost use Rattle.std.specs.Char.{is_ascii_alphabetic};
ghost use Rattle.std.specs.List.{after_first, before_first, list_any, prefix_len, slice_split};
ghost use Rattle.std.specs.Prelude.{◌≡◌, ◌≤◌, ◌+◌, ◌==◌, ◌++◌, ◌∷◌, [], MatchOption, true, false, IfOk, IfNone, IfSome, drop, length, ok_or, option_copied};
ghost use Rattle.gitbase_core.specs.Path as paths;
ghost use Rattle.glob_rules.specs.Glob.{is_glob_special_byte};
ghost use Rattle.glob_rules.specs.Marks.{colon, comma};
ghost use Rattle.glob_rules.specs.PathSpecText.{is_closing_parenthesis, is_exclude_mark, is_short_magic_mark, comma_separated_words};
ghost use Rattle.glob_rules.specs.Rule.{strip_leading_byte};
ghost use Rattle.git_setup.specs.Finds.{IsFoundOrRefusesMemory};
ghost use Rattle.git_setup.specs.Placed as texts;

use crate::error::GitRefusal;
use bstr::ByteSlice;
use gitbase_core::{
    Bytes, OutOfMemory, PathText, is_absolute, needs_slash_before_component, strip_directory_prefix,
};
use std::alloc::Global;

/// The text of a path spec in two parts.
#[derive(Debug, Drop)]
pub struct SpecText {
    /// What stands before the path.
    pub front: Bytes,
    /// The path.
    pub path: Bytes,
    /// Whether the path is from the top, wherever it is asked for.
    pub is_top: bool,
    /// Whether its bytes stand for themselves.
    pub is_literal: bool,
    /// Whether its letters compare without regard to their case.
    pub folds: bool,
    /// Whether it asks for what is not to be meant.
    pub excludes: bool,
}

/// One text behind another.
fn concatenate_bytes(alloc: Global, front: &[u8], rest: &[u8]) -> Result<Bytes, OutOfMemory>
    ensures { IfOk result (λ made. made ≡ front.now ++ rest.now) }
{
    let mut made = Bytes::from_slice(alloc, front)?;
    made.extend(alloc, rest)?;
    Ok(made)
}

/// A path alone.
fn parse_pathspec_without_magic(alloc: Global, path: &[u8]) -> Result<SpecText, OutOfMemory>
    ensures { IfOk result (λ parted. parted ≡ texts.parse_pathspec_without_magic path.now) }
{
    Ok(SpecText {
        front: Bytes::from_slice(alloc, b"::")?,
        path: Bytes::from_slice(alloc, path)?,
        is_top: false,
        is_literal: false,
        folds: false,
        excludes: false,
    })
}

/// A text that is left as it is.
fn pathspec_text_left_unchanged(alloc: Global, text: &[u8]) -> Result<SpecText, OutOfMemory>
    ensures { IfOk result (λ parted. parted ≡ texts.pathspec_text_left_unchanged text.now) }
{
    Ok(SpecText {
        front: Bytes::new(alloc),
        path: Bytes::from_slice(alloc, text)?,
        is_top: true,
        is_literal: false,
        folds: false,
        excludes: false,
    })
}

/// The first of some words that commas part, and what follows the comma behind it.
fn split_word_at_comma(words: &[u8]) -> (&[u8], Option<&[u8]>)
    ensures words { MatchOption result.1
        (slice_split (λ b. b == comma) words.now ≡ result.0.now ∷ [])
        (λ rest. slice_split (λ b. b == comma) words.now
        ≡ result.0.now ∷ slice_split (λ b. b == comma) rest.now) }
    ensures lengths { MatchOption result.1 (result.0.now ≡ words.now)
        (λ rest. length result.0.now + 1 + length rest.now ≡ length words.now) }
{
    match words.find_byte(b',') {
        Some(at) => (&words[..at], Some(bytes_after_count(words, at + 1))),
        None => (words, None),
    }
}

/// Whether a word is among those that commas part.
fn is_among_comma_words(words: &[u8], word: &[u8]) -> bool
    ensures { result ≡ texts.has_word word.now (slice_split (λ b. b == comma) words.now) }
{
    let mut left = words;
    loop {
        let (said, rest) = split_word_at_comma(left);
        if said == word {
            return true;
        }
        let Some(next) = rest else {
            return false;
        };
        left = next;
    }
}

/// Whether a word is among those between parentheses.
fn has_magic_word(inside: &[u8], word: &[u8]) -> bool
    ensures { result ≡ texts.has_word word.now (comma_separated_words inside.now) }
{
    if inside.is_empty() {
        return false;
    }
    is_among_comma_words(inside, word)
}

fn spec_text_by_magic_words(
    alloc: Global,
    inside: &[u8],
    path: &[u8],
) -> Result<SpecText, OutOfMemory>
    ensures { IfOk result (λ parted. parted ≡ texts.spec_text_by_magic_words inside.now path.now) }
{
    let mut front = concatenate_bytes(alloc, b":(", inside)?;
    front.extend(alloc, b")")?;
    Ok(SpecText {
        front,
        path: Bytes::from_slice(alloc, path)?,
        is_top: has_magic_word(inside, b"top"),
        is_literal: has_magic_word(inside, b"literal"),
        folds: has_magic_word(inside, b"icase"),
        excludes: has_magic_word(inside, b"exclude"),
    })
}

/// What stands before the first parenthesis that closes, and what stands behind it.
fn split_at_closing_parenthesis(rest: &[u8]) -> Option<(&[u8], &[u8])>
    ensures closed { IfSome result (λ cut. list_any is_closing_parenthesis rest.now ≡ true) }
    ensures inside { IfSome result (λ cut. cut.0.now ≡ before_first is_closing_parenthesis
        rest.now) }
    ensures path { IfSome result (λ cut. cut.1.now ≡ after_first is_closing_parenthesis rest.now) }
    ensures open { IfNone result (list_any is_closing_parenthesis rest.now ≡ false) }
{
    match rest.find_byte(b')') {
        Some(end) => Some((&rest[..end], bytes_after_count(rest, end + 1))),
        None => None,
    }
}

/// By what stands behind `:(`.
fn parse_long_magic_pathspec(alloc: Global, rest: &[u8]) -> Result<SpecText, OutOfMemory>
    ensures { IfOk result (λ parted. parted ≡ texts.parse_long_magic_pathspec rest.now) }
{
    match split_at_closing_parenthesis(rest) {
        Some((inside, path)) => spec_text_by_magic_words(alloc, inside, path),
        None => {
            let text = concatenate_bytes(alloc, b":(", rest)?;
            pathspec_text_left_unchanged(alloc, text.as_bytes())
        }
    }
}

/// The bytes after the first `count`.
fn bytes_after_count(bytes: &[u8], count: usize) -> &[u8]
    requires { count ≤ length bytes.now }
    ensures { result.now ≡ drop count bytes.now }
{
    &bytes[count..]
}

fn is_magic_mark(byte: u8) -> bool
    ensures { result ≡ is_short_magic_mark byte }
{
    byte == b'!' || byte == b'^' || byte == b'/'
}

/// How many marks the bytes begin with.
fn count_leading_magic_marks(bytes: &[u8]) -> usize
    ensures within { result ≤ length bytes.now }
    ensures value { result ≡ prefix_len is_short_magic_mark bytes.now }
{
    let mut count = 0;
    while count < bytes.len() && is_magic_mark(bytes[count]) {
        count += 1;
    }
    count
}

/// What is left of some bytes without a colon at the front, if there is one.
fn skip_leading_colon(bytes: &[u8]) -> &[u8]
    ensures { result.now ≡ (strip_leading_byte colon bytes.now).1 }
{
    match bytes {
        [b':', rest @ ..] => rest,
        _ => bytes,
    }
}

/// Whether a mark excludes.
fn is_excluding_mark(mark: u8) -> bool
    ensures { result ≡ is_exclude_mark mark }
{
    mark == b'!' || mark == b'^'
}

/// Whether a mark among these does.
fn has_excluding_mark(marks: &[u8]) -> bool
    ensures { result ≡ list_any is_exclude_mark marks.now }
{
    marks.iter().any(|mark| is_excluding_mark(*mark))
}

fn spec_text_by_magic_marks(
    alloc: Global,
    marks: &[u8],
    path: &[u8],
) -> Result<SpecText, OutOfMemory>
    ensures { IfOk result (λ parted. parted ≡ texts.spec_text_by_magic_marks marks.now path.now) }
{
    let mut front = concatenate_bytes(alloc, b":", marks)?;
    front.extend(alloc, b":")?;
    Ok(SpecText {
        front,
        path: Bytes::from_slice(alloc, path)?,
        is_top: marks.contains(&b'/'),
        is_literal: false,
        folds: false,
        excludes: has_excluding_mark(marks),
    })
}

/// By what stands behind `:`, where no parenthesis comes next.
fn parse_short_magic_pathspec(alloc: Global, rest: &[u8]) -> Result<SpecText, OutOfMemory>
    ensures { IfOk result (λ parted. parted ≡ texts.parse_short_magic_pathspec rest.now) }
{
    let (marks, after) = rest.split_at(count_leading_magic_marks(rest));
    spec_text_by_magic_marks(alloc, marks, skip_leading_colon(after))
}

/// The two parts of a text.
pub fn split_pathspec_into_magic_and_path(
    alloc: Global,
    text: &[u8],
) -> Result<SpecText, OutOfMemory>
    ensures { IfOk result (λ parted. parted ≡ texts.split_pathspec_into_magic_and_path text.now) }
{
    match text {
        [] => pathspec_text_left_unchanged(alloc, text),
        [b':', b'(', rest @ ..] => parse_long_magic_pathspec(alloc, rest),
        [b':', rest @ ..] => parse_short_magic_pathspec(alloc, rest),
        _ => parse_pathspec_without_magic(alloc, text),
    }
}

/// What a path has behind that of the top, if it is there or beneath.
pub fn path_below_root<'a>(root: &[u8], path: &'a [u8]) -> Option<&'a [u8]>
    ensures { option_copied result ≡ texts.path_below_root root.now path.now }
{
    if path == root {
        return Some(b"");
    }
    strip_directory_prefix(path, root)
}

fn has_glob_special_byte(bytes: &[u8]) -> bool
    ensures { result ≡ list_any is_glob_special_byte bytes.now }
{
    bytes.iter().any(|b| is_glob_special_byte(*b))
}

/// Whether a byte has a meaning of its own in a pattern.
fn is_glob_special_byte(byte: u8) -> bool
    ensures { result ≡ is_glob_special_byte byte }
{
    byte == b'*' || byte == b'?' || byte == b'[' || byte == b'\\'
}

fn has_ascii_letter(bytes: &[u8]) -> bool
    ensures { result ≡ list_any is_ascii_alphabetic bytes.now }
{
    bytes.iter().any(|b| b.is_ascii_alphabetic())
}

/// Whether the bytes of a directory would mean something else in front of the path.
fn would_prefix_match_differently(parted: &SpecText, prefix: &[u8]) -> bool
    ensures { result ≡ texts.would_prefix_match_differently parted.now prefix.now }
{
    let special = has_glob_special_byte(prefix);
    let letters = has_ascii_letter(prefix);
    (!parted.is_literal & special) | (parted.folds & letters)
}

/// The refusal of a directory in front of a path.
fn refusal_of_prefix_matching_differently(
    alloc: Global,
    text: &[u8],
    prefix: &[u8],
) -> Result<GitRefusal, OutOfMemory>
    ensures { IfOk result (λ e. e ≡ GitRefusal.Prefix text.now prefix.now) }
{
    Ok(GitRefusal::Prefix {
        text: Bytes::from_slice(alloc, text)?,
        prefix: Bytes::from_slice(alloc, prefix)?,
    })
}

/// The path that a directory and a path behind it are.
fn join_prefix_and_path(alloc: Global, prefix: &[u8], path: &[u8]) -> Result<Bytes, OutOfMemory>
    ensures { IfOk result (λ whole. whole ≡ paths.path_joined_with_slash prefix.now path.now) }
{
    let mut whole = PathText::from_bytes(alloc, prefix)?;
    whole.push_component(alloc, path)?;
    Ok(Bytes::from_vec(whole.into_vec()))
}

/// A relative path, from a directory of the work tree.
fn relative_spec_path_from_top(
    alloc: Global,
    text: &[u8],
    prefix: &[u8],
    parted: &SpecText,
) -> Result<Bytes, GitRefusal>
    ensures { IsFoundOrRefusesMemory result (texts.relative_spec_path_from_top text.now prefix.now
        parted.now) }
{
    if prefix.is_empty() {
        return Ok(Bytes::from_slice(alloc, parted.path.as_bytes())?);
    }
    if would_prefix_match_differently(parted, prefix) {
        return Err(refusal_of_prefix_matching_differently(alloc, text, prefix)?);
    }
    Ok(join_prefix_and_path(alloc, prefix, parted.path.as_bytes())?)
}

/// The refusal of a path that leads out of the work tree.
pub fn outside_path_refusal(alloc: Global, text: &[u8]) -> Result<GitRefusal, OutOfMemory>
    ensures { IfOk result (λ e. e ≡ GitRefusal.OutsidePath text.now) }
{
    Ok(GitRefusal::OutsidePath {
        text: Bytes::from_slice(alloc, text)?,
    })
}

fn ends_in_slash(path: &[u8]) -> bool
    ensures { result ≡ paths.ends_in_slash path.now }
{
    path.last() == Some(&b'/')
}

/// A path with one slash behind it.
fn path_with_trailing_slash(alloc: Global, path: PathText) -> Result<Bytes, OutOfMemory>
    ensures { IfOk result (λ whole. whole ≡ paths.path_with_trailing_slash path) }
{
    let needs = needs_slash_before_component(path.as_bytes());
    let mut whole = Bytes::from_vec(path.into_vec());
    if needs {
        whole.extend(alloc, b"/")?;
    }
    Ok(whole)
}

/// An absolute path without empty components, `.` and `..`, as git looks at it; a slash at its end
/// stays.
fn normalized_path_keeping_slash(alloc: Global, path: &[u8]) -> Result<Bytes, OutOfMemory>
    ensures { IfOk result (λ normal. normal ≡ texts.normalized_path_keeping_slash path.now) }
{
    let whole = PathText::from_bytes(alloc, path)?;
    let Some(normal) = whole.normalize(alloc)? else {
        return Bytes::from_slice(alloc, path);
    };
    if ends_in_slash(path) {
        return path_with_trailing_slash(alloc, normal);
    }
    Ok(Bytes::from_vec(normal.into_vec()))
}

/// An absolute path, from the top.
fn absolute_spec_path_from_top(
    alloc: Global,
    root: &[u8],
    text: &[u8],
    path: &[u8],
) -> Result<Bytes, GitRefusal>
    ensures { IsFoundOrRefusesMemory result
        (ok_or (texts.path_below_root root.now (texts.normalized_path_keeping_slash path.now))
        (GitRefusal.OutsidePath text.now)) }
{
    let normal = normalized_path_keeping_slash(alloc, path)?;
    match path_below_root(root, normal.as_bytes()) {
        Some(path) => Ok(Bytes::from_slice(alloc, path)?),
        None => Err(outside_path_refusal(alloc, text)?),
    }
}

/// The path of a spec from the top, by the text of the spec.
fn spec_path_from_top(
    alloc: Global,
    root: &[u8],
    text: &[u8],
    prefix: &[u8],
    parted: &SpecText,
) -> Result<Bytes, GitRefusal>
    ensures { IsFoundOrRefusesMemory result (texts.spec_path_from_top root.now text.now prefix.now
        parted.now) }
{
    if parted.is_top {
        return Ok(Bytes::from_slice(alloc, parted.path.as_bytes())?);
    }
    if is_absolute(parted.path.as_bytes()) {
        return absolute_spec_path_from_top(alloc, root, text, parted.path.as_bytes());
    }
    relative_spec_path_from_top(alloc, text, prefix, parted)
}

/// The text of a path spec from the top of the work tree at `root`, where `text` is asked for from
/// the directory `prefix` in it.
///
/// See docs/DECISIONS.md#prefixed-spec.
#[tactic(auto, unfolding(crate::specs::Placed::resolve_pathspec_from_top))]
pub fn resolve_pathspec_from_top(
    alloc: Global,
    root: &[u8],
    prefix: &[u8],
    text: &[u8],
) -> Result<Bytes, GitRefusal>
    ensures { IsFoundOrRefusesMemory result (texts.resolve_pathspec_from_top root.now prefix.now
        text.now) }
{
    let parted = split_pathspec_into_magic_and_path(alloc, text)?;
    let path = spec_path_from_top(alloc, root, text, prefix, &parted)?;
    Ok(concatenate_bytes(alloc, parted.front.as_bytes(), path.as_bytes())?)
}
