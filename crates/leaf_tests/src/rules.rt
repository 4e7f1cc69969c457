//! Globs and the rules of ignore files.
use crate::rows::{joined, replaced};
use crate::rule_answers as git;
use gitbase_core::PathText;
use glob_rules::ignore::{Kind, List, Match, ParseIgnore, Search};
use glob_rules::{Case, Pattern, WildMode, wildmatch};
use std::alloc::Global;
use test_cases::split_at_byte;

/// As git reads rules, which knows no precious files.
const AS_GIT: ParseIgnore = ParseIgnore {
    support_precious: false,
};

const WITH_PRECIOUS: ParseIgnore = ParseIgnore {
    support_precious: true,
};

/// The rules of a text, for the paths beneath a directory.
fn list_of(alloc: Global, rules: &[u8], base: &[u8], parse: ParseIgnore) -> Option<List> {
    match (
        PathText::from_bytes(alloc, b"rules"),
        PathText::from_bytes(alloc, base),
    ) {
        (Ok(source), Ok(base)) => List::from_bytes(alloc, rules, Some(source), base, parse).ok(),
        _ => None,
    }
}

/// Whether a search took a list.
fn is_pushed(alloc: Global, search: &mut Search, list: Option<List>) -> bool {
    match list {
        Some(list) => search.push_list(alloc, list).is_ok(),
        None => false,
    }
}

/// The line of the rule that holds for a path, or 0.
fn line_of(search: &Search, path: &[u8], is_dir: bool, case: Case) -> usize {
    match search.pattern_matching_relative_path(path, Some(is_dir), case) {
        Some(found) => found.sequence_number as usize,
        None => 0,
    }
}

/// Whether the last digit of a text is this number.
fn is_digit(text: &[u8], number: usize) -> bool {
    match text.last() {
        Some(digit) => Some(usize::from(*digit)) == number.checked_add(usize::from(b'0')),
        None => false,
    }
}

/// Whether the line of a row decides about its path, by its rules with an LF in the place of each
/// bar.
fn is_decided(alloc: Global, row: Row<'_>, base: &[u8], case: Case) -> bool {
    let mut search = Search::new(alloc);
    match replaced(alloc, row.rules, b'|', b'\n') {
        Some(rules) => {
            is_pushed(alloc, &mut search, list_of(alloc, &rules, base, AS_GIT))
                && is_digit(
                    row.line,
                    line_of(&search, row.path, row.kind.starts_with(b"d"), case),
                )
        }
        None => false,
    }
}

/// A row: the line that decides, the kind of the path, the path, and the rules.
#[derive(Clone, Copy)]
struct Row<'a> {
    line: &'a [u8],
    kind: &'a [u8],
    path: &'a [u8],
    rules: &'a [u8],
}

fn row_of(row: &[u8]) -> Row<'_> {
    let (line, rest) = split_at_byte(row, b';');
    let (kind, rest) = split_at_byte(rest, b';');
    let (path, rules) = split_at_byte(rest, b';');
    Row {
        line,
        kind,
        path,
        rules,
    }
}

/// The first row of a table that git answers and these rules do not.
fn first_lie(
    alloc: Global,
    table: &'static [u8],
    base: &[u8],
    case: Case,
) -> Option<&'static [u8]> {
    for row in table.split(|byte| *byte == b'\n') {
        if !row.is_empty() && !is_decided(alloc, row_of(row), base, case) {
            return Some(row);
        }
    }
    None
}

#[test]
fn rules_as_git_has_them(rt: HostRuntime) {
    let alloc = rt.alloc();
    assert_eq!(rt; first_lie(alloc, git::ANSWERS, b"", Case::Sensitive), None);
    assert_eq!(rt; first_lie(alloc, git::FOLDED, b"", Case::Fold), None);
    assert_eq!(rt;
        first_lie(alloc, git::BENEATH, b"sub", Case::Sensitive),
        None
    );
}

#[test]
fn rules_where_git_answers_otherwise(rt: HostRuntime) {
    let alloc = rt.alloc();
    assert_eq!(rt;
        first_lie(alloc, git::DIFFERENCES, b"", Case::Sensitive),
        None
    );
    assert_eq!(rt;
        first_lie(alloc, git::FOLDED_DIFFERENCES, b"", Case::Fold),
        None
    );
    assert_eq!(rt;
        first_lie(alloc, git::BENEATH_DIFFERENCES, b"sub", Case::Sensitive),
        None
    );
}

/// A list with a rule of each form.
const LIST: &[u8] = b"*.o\n!k.o\n# c\n\\#x\n/a/b\ndoc/\nt\\ \n$p\n";

/// Paths, `d` where it is a directory and `?` where no kind is told, and the line that decides,
/// with `!` where it is negative and `$` where it is precious.
const ASKED: &[u8] = b"\
x.o;?;1|k.o;?;!2|#x;?;4|a/b;?;5|c/a/b;?;0|q/doc;d;6|q/doc;?;0|t ;?;7|p;?;$8";

/// What a rule is, as a row says it.
fn sign_of(found: &Match<'_>) -> &'static [u8] {
    if found.pattern.is_negative() {
        return b"!";
    }
    match found.kind {
        Kind::Precious => b"$",
        Kind::Expendable => b"",
    }
}

/// Whether this is the rule of a row.
fn is_rule(found: &Match<'_>, want: &[u8]) -> bool {
    match want.strip_prefix(sign_of(found)) {
        Some(line) => line.len() == 1 && is_digit(line, found.sequence_number as usize),
        None => false,
    }
}

fn is_asked(search: &Search, row: &[u8]) -> bool {
    let (path, rest) = split_at_byte(row, b';');
    let (kind, want) = split_at_byte(rest, b';');
    let is_dir = if kind == b"d".as_slice() {
        Some(true)
    } else {
        None
    };
    match search.pattern_matching_relative_path(path, is_dir, Case::Sensitive) {
        Some(found) => is_rule(&found, want),
        None => want == b"0".as_slice(),
    }
}

#[test]
fn a_rule_of_each_form(rt: HostRuntime) {
    let mut search = Search::new(rt.alloc());
    let list = list_of(rt.alloc(), LIST, b"", WITH_PRECIOUS);
    assert!(rt; is_pushed(rt.alloc(), &mut search, list));
    for row in ASKED.split(|byte| *byte == b'|') {
        assert!(rt; is_asked(&search, row), "{row:?}");
    }
}

/// Whether the rule that holds for a path is precious, of this line, and in the list of this
/// number.
fn is_in_list(search: &Search, path: &[u8], number: usize, line: usize) -> bool {
    match search.place_matching_relative_path(path, None, Case::Sensitive) {
        Some((found, rule)) => {
            found == number
                && rule.sequence_number as usize == line
                && rule.kind == Kind::Precious
                && rule.source == Some(b"rules".as_slice())
        }
        None => false,
    }
}

fn is_copied(alloc: Global, search: &Search) -> bool {
    match search.copy(alloc) {
        Ok(copy) => is_in_list(&copy, b"d/b", 1, 2) && is_in_list(&copy, b"d/a", 0, 1),
        Err(_) => false,
    }
}

/// Whether two lists are asked from the highest, also by a copy, and may be taken off.
fn are_lists(alloc: Global) -> bool {
    let mut search = Search::new(alloc);
    is_pushed(
        alloc,
        &mut search,
        list_of(alloc, b"$a\n$b\n", b"", WITH_PRECIOUS),
    ) && is_pushed(
        alloc,
        &mut search,
        list_of(alloc, b"\n$/b\n", b"d", WITH_PRECIOUS),
    ) && is_copied(alloc, &search)
        && search.pop_list()
        && is_in_list(&search, b"d/b", 0, 2)
        && search.pop_list()
        && !search.pop_list()
}

fn is_pattern(alloc: Global) -> bool {
    match Pattern::parse(alloc, b"!/a/b/") {
        Ok(Some(pattern)) => {
            pattern.text() == b"a/b".as_slice()
                && pattern.is_negative()
                && pattern.must_be_dir()
                && pattern.matches_repo_relative_path(b"d/A/b", b"d", Some(true), Case::Fold)
        }
        _ => false,
    }
}

#[test]
fn calls_answer_where_there_is_memory(rt: HostRuntime) {
    assert!(rt; are_lists(rt.alloc()));
    assert!(rt; is_pattern(rt.alloc()));
}

fn is_match(pattern: &[u8], text: &[u8]) -> bool {
    let mode = WildMode {
        case: Case::Sensitive,
        wildcards_take_slash: false,
    };
    wildmatch(pattern, text, mode)
}

#[test]
fn globs(rt: HostRuntime) {
    assert!(rt; is_match(b"**/b", b"b") && !is_match(b"*", b"a/b"));
    assert!(rt; !is_match(b"a/**", b"a") && !is_match(b"[", b"x"));
}

/// A text so many times, and an end behind it.
fn many(alloc: Global, part: &[u8], times: u32, end: &[u8]) -> Option<Vec<u8>> {
    let mut text = Vec::new(alloc);
    for _ in 0..times {
        if text.extend_from_slice(part).is_err() {
            return None;
        }
    }
    joined(alloc, &[&text, end])
}

/// Rules of each kind, some of one text, that stand behind a hundred others, so that the list has
/// tables.
const LONG_LIST: &[u8] = b"\
*.o\n!k.o\n*.tar.gz\n/p/q\np/r\nn\nn/\n!n\nn/\n**/deep\ncl[ab]*\n!clax\n.dot\n*.dot\n\\#x\nm/\nm/\n\
*.d/\nx*y.o\n!filler2\n*~\ns/*.c\n!s/k.c\n";

/// Paths, `d` where it is a directory, and the line that decides as `git check-ignore -v` has it: a
/// backquote for the hundredth, `a` for the next, and so on, and `-` for none.
const LONG_ASKED: &[u8] = b"\
x.o;f;a|k.o;f;b|a.tar.gz;f;c|a.gz;f;-|a.b.o;f;a|p/q;f;d|z/p/q;f;-|p/r;f;e|n;d;i|s/n;f;h|s/deep;f;j|\
clac;f;k|clax;f;l|.dot;f;n|a.dot;f;n|#x;f;o|m;f;-|s/m;d;q|q.d;d;r|s/q.d;f;-|xzy.o;f;s|filler;f;`|\
filler2;f;t|.o;f;a|a~;f;u|s/a.c;f;v|s/k.c;f;w|t/s/a.c;f;-|*.o;f;a";

/// A copy of a search with the long list.
fn long_search(alloc: Global) -> Option<Search> {
    let Some(text) = many(alloc, b"filler\n", 100, LONG_LIST) else {
        return None;
    };
    let mut search = Search::new(alloc);
    if is_pushed(alloc, &mut search, list_of(alloc, &text, b"", AS_GIT)) {
        return search.copy(alloc).ok();
    }
    None
}

/// Whether the line of a row decides about its path.
fn is_decided_by(search: &Search, row: &[u8]) -> bool {
    let (path, rest) = split_at_byte(row, b';');
    let (kind, want) = split_at_byte(rest, b';');
    let line = line_of(search, path, kind == b"d".as_slice(), Case::Sensitive);
    match want.first() {
        Some(b'-') => line == 0,
        Some(letter) => line.checked_sub(4) == Some(usize::from(*letter)),
        None => false,
    }
}

#[test]
fn a_long_list(rt: HostRuntime) {
    let found = long_search(rt.alloc());
    assert!(rt; found.is_some());
    let Some(search) = found else {
        return;
    };
    for row in LONG_ASKED.split(|byte| *byte == b'|') {
        assert!(rt; is_decided_by(&search, row), "{row:?}");
    }
}

/// Whether a pattern matches the text with `x` behind it alone, where both begin with many parts.
fn ends_in_x(alloc: Global, part: &[u8], piece: &[u8], times: u32) -> bool {
    match (
        many(alloc, part, times, b"x"),
        many(alloc, piece, times, b"x"),
        many(alloc, piece, times, b"y"),
    ) {
        (Some(pattern), Some(text), Some(other)) => {
            is_match(&pattern, &text) && !is_match(&pattern, &other)
        }
        _ => false,
    }
}

/// A search that tries each place for each star would not end.
#[test]
fn stars_do_not_blow_up(rt: HostRuntime) {
    let text = [b'a'; 400];
    let path = b"a/a/a/a/a/a/a/a/a/a/a/a/a/a/a/a/a/a/a/a/a/a/a/a/a/a/a/a/a/a/a/a/a/a/a/a/a/a/a/a";
    assert!(rt; !is_match(b"*a*a*a*a*a*a*a*a*a*a*a*a*b", &text));
    assert!(rt; !is_match(b"**/a/**/a/**/a/**/a/**/a/**/a/**/a/**/a/**/b", path));
    assert!(rt; !is_match(b"**/*a*a*a*a*a*a/**/a*a*a*a/b", path));
}

/// The stack would not hold a call for each star or `**/`.
#[test]
fn stars_need_no_stack(rt: HostRuntime) {
    assert!(rt; ends_in_x(rt.alloc(), b"**/", b"", 400_000));
    assert!(rt; ends_in_x(rt.alloc(), b"**/*?*/", b"a/", 100_000));
}
