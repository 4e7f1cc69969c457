//! Configuration files.
use crate::config_answers as git;
use crate::rows::{is_shown, replaced, wanted};
use git_config_lite::{File, Metadata, ParseError, Source};
use gitbase_core::PathText;
use std::alloc::Global;
use test_cases::split_at_byte;

/// A configuration of a repository.
pub fn local(alloc: Global, text: &[u8]) -> Result<File, ParseError> {
    from_source(alloc, text, Source::Local)
}

/// A configuration of this source, and of no file.
pub fn from_source(alloc: Global, text: &[u8], source: Source) -> Result<File, ParseError> {
    File::from_bytes(alloc, text, Metadata { source, path: None })
}

/// A look-up of a row.
#[derive(Clone, Copy)]
struct Asked<'a> {
    section: &'a [u8],
    subsection: Option<&'a [u8]>,
    key: &'a [u8],
}

/// What stands behind the next value.
fn behind_value<'a>(rest: &'a [u8], value: &[u8]) -> Option<&'a [u8]> {
    match rest.strip_prefix(b"|") {
        Some(rest) => rest.strip_prefix(value),
        None => None,
    }
}

/// Whether these are all values of a key, each behind a bar.
fn has_values(file: &File, asked: Asked<'_>, want: &[u8]) -> bool {
    let mut rest = want;
    for value in file.strings(asked.section, asked.subsection, asked.key) {
        match behind_value(rest, value) {
            Some(behind) => rest = behind,
            None => return false,
        }
    }
    rest.is_empty()
}

/// Whether a text is refused at the line that stands behind a `!`.
fn is_refused_at(alloc: Global, error: &ParseError, want: &[u8]) -> bool {
    match (error, want.strip_prefix(b"!")) {
        (ParseError::Syntax { line }, Some(number)) => is_shown(alloc, line, number),
        _ => false,
    }
}

fn are_values(alloc: Global, text: &[u8], asked: Asked<'_>, want: &[u8]) -> bool {
    match local(alloc, text) {
        Ok(file) => has_values(&file, asked, want),
        Err(error) => is_refused_at(alloc, &error, want),
    }
}

fn is_boolean(alloc: Global, text: &[u8], asked: Asked<'_>, want: &[u8]) -> bool {
    match local(alloc, text) {
        Ok(file) => match file.boolean(asked.section, asked.subsection, asked.key) {
            Ok(Some(true)) => want == b"true".as_slice(),
            Ok(Some(false)) => want == b"false".as_slice(),
            Ok(None) => want == b"absent".as_slice(),
            Err(_) => want == b"error".as_slice(),
        },
        Err(ParseError::Syntax { .. }) => want == b"refused".as_slice(),
        Err(ParseError::OutOfMemory) => false,
    }
}

fn subsection_of(word: &[u8]) -> Option<&[u8]> {
    word.strip_prefix(b"\"")
}

/// Whether a row of git's answers holds: the answer, the section, the subsection, the key and the
/// text.
fn is_answered(alloc: Global, row: &[u8], asks_boolean: bool) -> bool {
    let (answer, rest) = split_at_byte(row, b'^');
    let (section, rest) = split_at_byte(rest, b'^');
    let (subsection, rest) = split_at_byte(rest, b'^');
    let (key, text) = split_at_byte(rest, b'^');
    let asked = Asked {
        section,
        subsection: subsection_of(subsection),
        key,
    };
    match (
        replaced(alloc, text, b'~', b'\n'),
        replaced(alloc, wanted(answer), b'~', b'\n'),
    ) {
        (Some(text), Some(want)) => {
            if asks_boolean {
                is_boolean(alloc, &text, asked, &want)
            } else {
                are_values(alloc, &text, asked, &want)
            }
        }
        _ => false,
    }
}

/// The first row of a table that git answers and these configurations do not.
fn first_lie(alloc: Global, table: &'static [u8], asks_boolean: bool) -> Option<&'static [u8]> {
    for row in table.split(|byte| *byte == b'\n') {
        if !row.is_empty() && !is_answered(alloc, row, asks_boolean) {
            return Some(row);
        }
    }
    None
}

#[test]
fn configurations_as_git_has_them(rt: HostRuntime) {
    let alloc = rt.alloc();
    assert_eq!(rt; first_lie(alloc, git::ANSWERS, false), None);
    assert_eq!(rt; first_lie(alloc, git::BOOLEANS, true), None);
    assert_eq!(rt; first_lie(alloc, git::DIFFERENCES, false), None);
    assert_eq!(rt; first_lie(alloc, git::BOOLEAN_DIFFERENCES, true), None);
}

/// Texts that bars part, each behind the first line outside the grammar and a backquote.
const REFUSED: &[u8] = b"\
1`[a \"b]|1`k = 1|2`[a]\nk = \"x|2`[a]\nk = \\q|3`[a]\nk = a\\\n\\q\nj = \\q|2`[a]\nk = \"x\\\ny\"|\
1`[a] [b]|1`[a \"s\0\"]";

fn is_refused(alloc: Global, row: &[u8]) -> bool {
    let (line, text) = split_at_byte(row, b'`');
    match local(alloc, text) {
        Err(ParseError::Syntax { line: found }) => is_shown(alloc, &found, line),
        _ => false,
    }
}

#[test]
fn the_first_line_outside_the_grammar(rt: HostRuntime) {
    for row in REFUSED.split(|byte| *byte == b'|') {
        assert!(rt; is_refused(rt.alloc(), row), "{row:?}");
    }
}

/// Whether a value is no boolean.
fn is_no_boolean(file: &File, alloc: Global, key: &[u8], want: &[u8]) -> bool {
    match file.boolean(b"b", None, key) {
        Err(error) => error.input == want && is_shown(alloc, &error, b"ValueError"),
        Ok(_) => false,
    }
}

/// Whether the one section of a name has this subsection, and a value of `k`, empty.
fn is_section(file: &File, name: &[u8], subsection: Option<&[u8]>) -> bool {
    let mut sections = file.sections_by_name(name);
    let is_first = match sections.next() {
        Some(section) => {
            section.subsection_name() == subsection
                && section.value(b"k") == Some(b"".as_slice())
                && section.meta().source == Source::User
        }
        None => false,
    };
    is_first && sections.next().is_none()
}

/// Whether each question to a configuration is answered.
fn is_asked(alloc: Global, file: &File) -> bool {
    is_section(file, b"A", Some(b"s"))
        && file.sections().next().is_some()
        && file.string(b"a", Some(b"S"), b"k").is_none()
        && file.string_with_source(b"b", None, b"N") == Some((b"v\0w".as_slice(), Source::User))
        && is_no_boolean(file, alloc, b"j", b"x\xff")
}

fn is_read(alloc: Global) -> bool {
    match from_source(
        alloc,
        b"[a \"s\"]\nk\n[b]\nj = x\xff\nn = v\0w\n",
        Source::User,
    ) {
        Ok(file) => is_asked(alloc, &file),
        Err(_) => false,
    }
}

#[test]
fn a_configuration_is_asked(rt: HostRuntime) {
    assert!(rt; is_read(rt.alloc()));
}

/// A configuration that was read from a file.
fn from_file(alloc: Global, path: &[u8]) -> Option<File> {
    match PathText::from_bytes(alloc, path) {
        Ok(path) => Some(File::new(
            alloc,
            Metadata {
                source: Source::Env,
                path: Some(path),
            },
        )),
        Err(_) => None,
    }
}

fn is_of_file(file: &File, want: &[u8]) -> bool {
    match &file.meta().path {
        Some(path) => path.as_bytes() == want && file.meta().source == Source::Env,
        None => false,
    }
}

/// Whether a section, a value and another configuration were added.
fn is_grown(alloc: Global, file: &mut File) -> bool {
    if file.push_section(alloc, b"a", b"s").is_err() {
        return false;
    }
    if file.push_value(alloc, b"k", b" v").is_err() {
        return false;
    }
    match from_source(alloc, b"[A \"s\"] K = w", Source::Modules) {
        Ok(other) => file.append(alloc, other).is_ok(),
        Err(_) => false,
    }
}

fn grows(alloc: Global) -> bool {
    let asked = Asked {
        section: b"a",
        subsection: Some(b"s"),
        key: b"k",
    };
    match from_file(alloc, b"/u") {
        Some(mut file) => {
            is_grown(alloc, &mut file)
                && has_values(&file, asked, b"| v|w")
                && file.string_with_source(b"a", Some(b"s"), b"k")
                    == Some((b"w".as_slice(), Source::Modules))
                && is_of_file(&file, b"/u")
        }
        None => false,
    }
}

#[test]
fn a_configuration_grows(rt: HostRuntime) {
    assert!(rt; grows(rt.alloc()));
}
