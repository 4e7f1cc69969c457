//! What path specs say of a directory.
ghost use Rattle.std.specs.Prelude.{◌≡◌, ◌≤◌, length, take};
ghost use Rattle.std.specs.List.{before_first, list_any, position_or_len};
ghost use Rattle.glob_rules.specs.Glob as globs;
ghost use Rattle.glob_rules.specs.PathSpecs.{is_including_match};
ghost use Rattle.ls_files.specs.Others.{is_dot_or_dot_dot, is_excluded_match};
ghost use Rattle.git_clean.specs.Leading as words;

use gitbase_core::{basename, strip_directory_prefix};
use glob_rules::pathspec::{Match, MatchKind, Matcher, Search};
use ls_files::NamedSpec;

/// Whether a path lies beneath that of the spec that matches it so, or the spec has none.
fn is_always_or_prefix_match_kind(kind: MatchKind) -> bool
    ensures { result ≡ words.is_always_or_prefix_match_kind kind }
{
    match kind {
        MatchKind::Always => true,
        MatchKind::Prefix => true,
        MatchKind::WildcardMatch => false,
        MatchKind::Verbatim => false,
    }
}

/// Whether a path is matched so by wildcards.
fn is_wildcard_match_kind(kind: MatchKind) -> bool
    ensures { result ≡ words.is_wildcard_match_kind kind }
{
    match kind {
        MatchKind::Always => false,
        MatchKind::Prefix => false,
        MatchKind::WildcardMatch => true,
        MatchKind::Verbatim => false,
    }
}

/// Whether a spec that does not take out matches by wildcards.
fn is_including_wildcard_match(found: Option<Match>) -> bool
    ensures { result ≡ words.is_including_wildcard_match found }
{
    match found {
        Some(found) => !found.is_excluded() && is_wildcard_match_kind(found.kind),
        None => false,
    }
}

/// Whether a spec that does not take out is about the path itself.
fn is_including_match_of_path_itself(found: Option<Match>) -> bool
    ensures { result ≡ words.is_including_match_of_path_itself found }
{
    match found {
        Some(found) => !(found.is_excluded() || is_always_or_prefix_match_kind(found.kind)),
        None => false,
    }
}

/// Whether a spec takes out, or is about all beneath a directory above.
fn excludes_or_matches_all_beneath(found: Option<Match>) -> bool
    ensures { result ≡ words.excludes_or_matches_all_beneath found }
{
    match found {
        Some(found) => found.is_excluded() || is_always_or_prefix_match_kind(found.kind),
        None => false,
    }
}

/// Whether path specs take out.
fn is_excluding_match(found: Option<Match>) -> bool
    ensures { result ≡ is_excluded_match found }
{
    match found {
        Some(found) => found.is_excluded(),
        None => false,
    }
}

/// Whether path specs match, and do not take out.
fn is_included_by_match(found: Option<Match>) -> bool
    ensures { result ≡ is_including_match found }
{
    match found {
        Some(found) => !found.is_excluded(),
        None => false,
    }
}

/// Whether a name is `.` or `..`.
fn is_dot_or_dot_dot(name: &[u8]) -> bool
    ensures { result ≡ is_dot_or_dot_dot name.now }
{
    name == b".".as_slice() || name == b"..".as_slice()
}

/// Whether a spec asks for a directory where it matches this one.
fn spec_matches_only_as_directory(directory: &[u8], named: &NamedSpec) -> bool
    ensures { result ≡ words.spec_matches_only_as_directory directory.now named.now }
{
    if is_dot_or_dot_dot(basename(named.text.as_bytes())) {
        return true;
    }
    let as_file = named
        .spec
        .pattern_matching_relative_path(directory, Some(false));
    as_file.is_none()
}

/// Whether a spec that asks for a directory is about this one itself.
fn spec_means_directory_itself(directory: &[u8], named: &NamedSpec) -> bool
    ensures { result ≡ words.spec_means_directory_itself directory.now named.now }
{
    let found = named
        .spec
        .pattern_matching_relative_path(directory, Some(true));
    is_including_match_of_path_itself(found) && spec_matches_only_as_directory(directory, named)
}

/// Whether a spec settles that a directory of this name goes as a whole.
fn spec_takes_directory_whole(name: &[u8], directory: &[u8], named: &NamedSpec) -> bool
    ensures { result ≡ words.spec_takes_directory_whole name.now directory.now named.now }
{
    let found = named.spec.pattern_matching_relative_path(name, Some(false));
    is_including_wildcard_match(found) || spec_means_directory_itself(directory, named)
}

/// Whether a byte is part of a wildcard, or escapes one.
fn is_glob_special_byte(byte: u8) -> bool
    ensures { result ≡ globs.is_glob_special_byte byte }
{
    matches!(byte, b'*' | b'?' | b'[' | b'\\')
}

/// How many bytes of a text stand before its first wildcard.
fn length_before_first_wildcard(text: &[u8]) -> usize
    ensures within { result ≤ length text.now }
    ensures value { result ≡ position_or_len globs.is_glob_special_byte text.now }
{
    let mut at = 0;
    while at < text.len() && !is_glob_special_byte(text[at]) {
        at += 1;
    }
    at
}

/// What stands of the first component with wildcards before these.
fn component_text_before_wildcard(text: &[u8]) -> &[u8]
    ensures { result.now ≡ words.component_text_before_wildcard text.now }
{
    basename(&text[..length_before_first_wildcard(text)])
}

/// Whether a spec was written without words or signs before its path.
fn is_spec_without_magic(text: &[u8]) -> bool
    ensures { result ≡ words.is_spec_without_magic text.now }
{
    match text {
        [] => true,
        [first, ..] => *first != b':',
    }
}

/// The directory that all matches of a spec lie in.
fn common_directory_of_spec(named: &NamedSpec) -> &[u8]
    ensures { result.now ≡ words.common_directory_of_spec named.now }
{
    match named.spec.longest_common_directory() {
        Some(stem) => stem,
        None => &[],
    }
}

/// Whether a spec with wildcards is about names that begin otherwise than that of a directory.
fn directory_differs_from_wildcard_start(directory: &[u8], named: &NamedSpec) -> bool
    ensures { result ≡ words.directory_differs_from_wildcard_start directory.now named.now }
{
    if !is_spec_without_magic(named.text.as_bytes()) {
        return false;
    }
    match strip_directory_prefix(directory, common_directory_of_spec(named)) {
        Some(rest) => !rest.starts_with(component_text_before_wildcard(named.text.as_bytes())),
        None => false,
    }
}

/// Whether a spec is about what may lie further down in a directory of this name.
fn spec_may_match_deeper(name: &[u8], directory: &[u8], named: &NamedSpec) -> bool
    ensures { result ≡ words.spec_may_match_deeper name.now directory.now named.now }
{
    if !named.spec.can_match_relative_path(directory, Some(true)) {
        return false;
    }
    if spec_takes_directory_whole(name, directory, named) {
        return false;
    }
    let found = named.spec.pattern_matching_relative_path(name, Some(true));
    !(excludes_or_matches_all_beneath(found)
        || directory_differs_from_wildcard_start(directory, named))
}

/// Whether one of some specs settles that a directory goes as a whole.
fn any_spec_takes_directory_whole(name: &[u8], directory: &[u8], all: &[NamedSpec]) -> bool
    ensures { result ≡ list_any (words.spec_takes_directory_whole name.now directory.now) all.now }
{
    all.iter()
        .any(|named| spec_takes_directory_whole(name, directory, named))
}

/// Whether one of some specs leads further down.
fn any_spec_may_match_deeper(name: &[u8], directory: &[u8], all: &[NamedSpec]) -> bool
    ensures { result ≡ list_any (words.spec_may_match_deeper name.now directory.now) all.now }
{
    all.iter()
        .any(|named| spec_may_match_deeper(name, directory, named))
}

/// Whether path specs let a directory of this name go as a whole; `named` has each of them alone.
pub fn specs_take_directory_whole(
    specs: &Search,
    named: &[NamedSpec],
    name: &[u8],
    directory: &[u8],
) -> bool
    ensures { result ≡ words.specs_take_directory_whole specs.now named.now name.now directory.now }
{
    let found = specs.pattern_matching_relative_path(name, Some(true));
    if is_excluding_match(found) {
        return false;
    }
    if any_spec_takes_directory_whole(name, directory, named) {
        return true;
    }
    is_included_by_match(found) && !any_spec_may_match_deeper(name, directory, named)
}
