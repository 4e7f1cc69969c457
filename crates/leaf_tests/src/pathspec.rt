//! Path specs.
use crate::pathspec_answers as git;
use crate::rows::is_shown;
use bstr::ByteSlice;
use glob_rules::pathspec::{Defaults, Error, Match, MatchKind, Matcher, Search, Spec};
use std::alloc::Global;
use test_cases::split_at_byte;

const AS_WRITTEN: Defaults = Defaults { ignore_case: false };

const FOLDING: Defaults = Defaults { ignore_case: true };

/// The specs that bars part.
fn specs_of(alloc: Global, specs: &[u8], defaults: Defaults) -> Result<Vec<Spec>, Error> {
    let mut all = Vec::new(alloc);
    for text in specs.split(|byte| *byte == b'|') {
        let spec = Spec::parse(alloc, text, defaults)?;
        if all.push(spec).is_err() {
            return Err(Error::OutOfMemory);
        }
    }
    Ok(all)
}

/// `y` where the path is matched and not excluded, `n` where it is not, `e` where a spec is
/// refused.
fn answer(
    alloc: Global,
    specs: &[u8],
    path: &[u8],
    is_dir: bool,
    defaults: Defaults,
) -> Option<u8> {
    match specs_of(alloc, specs, defaults) {
        Ok(specs) => Some(said_of(&Search::from_specs(specs), path, is_dir)),
        Err(Error::OutOfMemory) => None,
        Err(_) => Some(b'e'),
    }
}

fn said_of(search: &Search, path: &[u8], is_dir: bool) -> u8 {
    match search.pattern_matching_relative_path(path, Some(is_dir)) {
        Some(found) => { if found.is_excluded() { b'n' } else { b'y' } }
        None => b'n',
    }
}

/// Whether a row of git's answers holds: the answers, of which the last is ours, the kind, the path
/// and the specs.
fn is_answered(alloc: Global, row: &[u8], defaults: Defaults) -> bool {
    let (answers, rest) = split_at_byte(row, b';');
    let (kind, rest) = split_at_byte(rest, b';');
    let (path, specs) = split_at_byte(rest, b';');
    match (
        answers.last(),
        answer(alloc, specs, path, kind.starts_with(b"d"), defaults),
    ) {
        (Some(want), Some(found)) => *want == found,
        _ => false,
    }
}

/// The first row of a table that git answers and these specs do not.
fn first_lie(alloc: Global, table: &'static [u8], defaults: Defaults) -> Option<&'static [u8]> {
    for row in table.split(|byte| *byte == b'\n') {
        if !row.is_empty() && !is_answered(alloc, row, defaults) {
            return Some(row);
        }
    }
    None
}

#[test]
fn path_specs_as_git_has_them(rt: HostRuntime) {
    let alloc = rt.alloc();
    assert_eq!(rt; first_lie(alloc, git::ANSWERS, AS_WRITTEN), None);
    assert_eq!(rt; first_lie(alloc, git::FOLDED, FOLDING), None);
    assert_eq!(rt; first_lie(alloc, git::DIFFERENCES, AS_WRITTEN), None);
}

/// Rows, parted by LFs: what is asked, the specs, the path, its kind, and what is wanted, parted by
/// backquotes.
///
/// `read` is where a text is refused, or that it leads out of the worktree; `match` the first
/// letter of the match's kind, `!` where it excludes, and its number; `where` whether the path can
/// match, and whether it covers without and with what leads to it, and the directory in front of
/// all matches, or a dot.
const ROWS: &[u8] = b"\
read`:(glob,icase)a/**```\n\
read`:(literal,glob)x```10\n\
read`:(attr:x)y```2\n\
read`/a```leads out\n\
read````0\n\
read`:(top,)x```6\n\
read`:(top,,glob)x```6\n\
read`:(bad```5\n\
read`:(glob,bad,literal)/a```7\n\
read`:!/../a```leads out\n\
read`:::a```\n\
read`:```\n\
match`a`a`?`V.1\n\
match`b|a`a/x`?`P.2\n\
match`*.c`d/x.c`?`W.1\n\
match`a*|ab`ab`?`W.1\n\
match`./`q`f`A.1\n\
match`a`ab`?`none\n\
match`:!x`y`?`A.0\n\
match`:!x`x`?`V!1\n\
match`a|:!a/b`a/b/c`?`P!2\n\
match`a|:!a/b`a/c`?`P.1\n\
match`a/`a`d`V.1\n\
match`a/`a`?`none\n\
match`a/`a/b`?`P.1\n\
where`a/b/*.c`a`?`ynya/b\n\
where`a/b/*.c`a/b`?`yyya/b\n\
where`a/b/*.c`a/b/d`?`yyya/b\n\
where`a/b/*.c`a/bc`?`nnna/b\n\
where`a/b/x|:(glob)a/b/*/c|a/b/y/z`a/c`?`nnna/b\n\
where`a|ab`ab`?`yyy.\n\
where`a/b|a`a/b`?`yyya\n\
where`:(icase)a/b`A/B/c`?`yyy.\n\
where`a/b|:(icase)a/b`b`?`nnn.\n\
where`:(literal)a/*`a`?`ynya/*\n\
where`:!a`a`?`yyy.\n\
where`:!x|a/b`x`?`nnna/b\n";

/// Whether a text is refused so, or is a spec where nothing is wanted.
fn is_refused(alloc: Global, text: &[u8], want: &[u8]) -> bool {
    match Spec::parse(alloc, text, AS_WRITTEN) {
        Ok(_) => want.is_empty(),
        Err(Error::Parse { at }) => is_shown(alloc, &at, want),
        Err(Error::Normalize) => want == b"leads out".as_slice(),
        Err(Error::OutOfMemory) => false,
    }
}

fn letter(kind: MatchKind) -> u8 {
    match kind {
        MatchKind::Always => b'A',
        MatchKind::Prefix => b'P',
        MatchKind::WildcardMatch => b'W',
        MatchKind::Verbatim => b'V',
    }
}

fn is_match(found: Match, want: &[u8]) -> bool {
    match want {
        [kind, sign, digit] => {
            letter(found.kind) == *kind
                && found.excluded == (*sign == b'!')
                && found.sequence_number.checked_add(usize::from(b'0')) == Some(usize::from(*digit))
        }
        _ => false,
    }
}

fn is_dir(kind: &[u8]) -> Option<bool> {
    match kind {
        b"d" => Some(true),
        b"f" => Some(false),
        _ => None,
    }
}

/// Whether a matcher of any kind matches a path so.
fn matches_so<M: Matcher>(matcher: &M, path: &[u8], kind: &[u8], want: &[u8]) -> bool {
    match matcher.pattern_matching_relative_path(path, is_dir(kind)) {
        Some(found) => is_match(found, want),
        None => want == b"none".as_slice(),
    }
}

fn is_letter(said: bool, letter: u8) -> bool {
    said == (letter == b'y')
}

/// Whether a matcher of any kind has this directory in front of all matches, and none in front of
/// all specs.
fn has_front<M: Matcher>(matcher: &M, want: &[u8]) -> bool {
    let is_front = match matcher.longest_common_directory() {
        Some(directory) => directory == want,
        None => want == b".".as_slice(),
    };
    is_front && matcher.prefix_directory().is_empty()
}

/// Whether a matcher of any kind says so of where it may match.
fn leads_so<M: Matcher>(matcher: &M, path: &[u8], want: &[u8]) -> bool {
    match want {
        [can, covers, leads, front @ ..] => {
            is_letter(matcher.can_match_relative_path(path, None), *can)
                && is_letter(matcher.directory_matches_prefix(path, false), *covers)
                && is_letter(matcher.directory_matches_prefix(path, true), *leads)
                && has_front(matcher, front)
        }
        _ => false,
    }
}

fn holds(alloc: Global, row: &[u8]) -> bool {
    let (question, rest) = split_at_byte(row, b'`');
    let (specs, rest) = split_at_byte(rest, b'`');
    let (path, rest) = split_at_byte(rest, b'`');
    let (kind, want) = split_at_byte(rest, b'`');
    if question == b"read".as_slice() {
        return is_refused(alloc, specs, want);
    }
    match specs_of(alloc, specs, AS_WRITTEN) {
        Ok(specs) => is_said(&Search::from_specs(specs), question, path, kind, want),
        Err(_) => false,
    }
}

fn is_said(search: &Search, question: &[u8], path: &[u8], kind: &[u8], want: &[u8]) -> bool {
    match question {
        b"match" => matches_so(search, path, kind, want),
        b"where" => leads_so(search, path, want),
        _ => false,
    }
}

#[test]
fn path_specs(rt: HostRuntime) {
    for row in ROWS.lines() {
        assert!(rt; holds(rt.alloc(), row), "{row:?}");
    }
}

#[test]
fn without_path_specs_all_is_matched(rt: HostRuntime) {
    let all = Search::from_specs(Vec::new(rt.alloc()));
    assert!(rt; leads_so(&all, b"a", b"yyy.") && matches_so(&all, b"a", b"?", b"A.0"));
}
