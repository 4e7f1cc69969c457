//! Submodules: the answers of git.
use crate::config::local;
use crate::rows::{joined, replaced, wanted};
use crate::submodule_answers as git;
use bstr::ByteSlice;
use gitbase_core::Bytes;
use glob_rules::pathspec::Defaults;
use std::alloc::Global;
use submodule::is_active_platform::Error;
use submodule::{Branch, File, IsActivePlatform, RefspecError, Url, UrlError};
use test_cases::split_at_byte;

/// What a row asks, with LF in the place of each `&`.
fn asked(alloc: Global, text: &[u8]) -> Option<Vec<u8>> {
    replaced(alloc, text, b'&', b'\n')
}

/// The submodules of a text alone.
pub fn modules(alloc: Global, text: &[u8]) -> Option<File> {
    match local(alloc, b"") {
        Ok(none) => File::from_bytes(alloc, text, None, &none).ok(),
        Err(_) => None,
    }
}

/// Whether a name is active, inactive or refused by a configuration.
fn is_state(
    platform: Result<IsActivePlatform, Error>,
    config: &git_config_lite::File,
    name: &[u8],
    want: &[u8],
) -> bool {
    match platform {
        Ok(mut platform) => match platform.is_active(config, name) {
            Ok(true) => want == b"active".as_slice(),
            Ok(false) => want == b"inactive".as_slice(),
            Err(_) => want == b"refused".as_slice(),
        },
        Err(Error::OutOfMemory) => false,
        Err(_) => want == b"refused".as_slice(),
    }
}

fn is_active_by(alloc: Global, text: &[u8], name: &[u8], want: &[u8]) -> bool {
    let defaults = Defaults { ignore_case: false };
    match (local(alloc, text), modules(alloc, b"")) {
        (Ok(config), Some(file)) => is_state(
            file.is_active_platform(alloc, &config, defaults),
            &config,
            name,
            want,
        ),
        _ => false,
    }
}

fn is_activity(alloc: Global, row: &[u8]) -> bool {
    let (answer, rest) = split_at_byte(row, b'`');
    let (name, text) = split_at_byte(rest, b'`');
    match asked(alloc, text) {
        Some(text) => is_active_by(alloc, &text, name, wanted(answer)),
        None => false,
    }
}

/// Whether a value of a key is taken.
fn is_taken(alloc: Global, file: &File, key: &[u8]) -> bool {
    match key {
        b"update" => file.update(alloc, b"m").is_ok(),
        b"ignore" => file.ignore(alloc, b"m").is_ok(),
        b"shallow" => file.shallow(b"m").is_ok(),
        b"path" => file.path(alloc, b"m").is_ok(),
        b"url" => file.url(alloc, b"m").is_ok(),
        _ => file.fetch_recurse(alloc, b"m").is_ok(),
    }
}

/// The submodules of a text with one key of `m`.
fn with_key(alloc: Global, key: &[u8], value: &[u8]) -> Option<File> {
    match joined(alloc, &[b"[submodule \"m\"]\n", key, b" = ", value]) {
        Some(text) => modules(alloc, &text),
        None => None,
    }
}

fn is_field(alloc: Global, row: &[u8]) -> bool {
    let (answer, rest) = split_at_byte(row, b'`');
    let (key, value) = split_at_byte(rest, b'`');
    match with_key(alloc, key, value) {
        Some(file) => is_taken(alloc, &file, key) == (wanted(answer) == b"taken".as_slice()),
        None => false,
    }
}

fn is_value_of(file: &File, name: &[u8], key: &[u8], want: &[u8]) -> bool {
    file.config().string(b"submodule", Some(name), key) == want.strip_prefix(b"|")
}

fn is_value(alloc: Global, row: &[u8]) -> bool {
    let (answer, rest) = split_at_byte(row, b'`');
    let (name, rest) = split_at_byte(rest, b'`');
    let (key, text) = split_at_byte(rest, b'`');
    match asked(alloc, text) {
        Some(text) => match modules(alloc, &text) {
            Some(file) => is_value_of(&file, name, key, answer),
            None => false,
        },
        None => false,
    }
}

/// Whether this is the name of the submodule with the path `lib`.
fn is_name_of_lib(alloc: Global, file: &File, want: &[u8]) -> bool {
    file.name_by_path(alloc, b"lib").ok() == Some(Some(want))
}

fn is_name(alloc: Global, row: &[u8]) -> bool {
    let (answer, text) = split_at_byte(row, b'`');
    match asked(alloc, text) {
        Some(text) => match modules(alloc, &text) {
            Some(file) => is_name_of_lib(alloc, &file, wanted(answer)),
            None => false,
        },
        None => false,
    }
}

/// What stands behind a part.
fn behind<'a>(rest: Option<&'a [u8]>, part: &[u8]) -> Option<&'a [u8]> {
    match rest {
        Some(rest) => rest.strip_prefix(part),
        None => None,
    }
}

/// What stands behind a mark and a text, if there is one.
fn behind_text<'a>(rest: Option<&'a [u8]>, mark: &[u8], text: &Option<Bytes>) -> Option<&'a [u8]> {
    match text {
        Some(text) => behind(behind(rest, mark), text.as_bytes()),
        None => rest,
    }
}

fn behind_port(alloc: Global, rest: Option<&[u8]>, port: Option<u16>) -> Option<&[u8]> {
    match port {
        Some(port) => match format!(in alloc; "|{port}|") {
            Ok(text) => behind(rest, text.as_bytes()),
            Err(_) => None,
        },
        None => behind(rest, b"|NONE|"),
    }
}

/// Whether a url has the parts of a row: the scheme, the user and the host, the port, and the path.
fn has_parts(alloc: Global, url: &Url, want: &[u8]) -> bool {
    let rest = behind(behind(Some(want), url.scheme.as_bytes()), b"|");
    let rest = behind_text(behind_text(rest, b"", &url.user), b":", &url.password);
    let rest = if url.user.is_some() {
        behind(rest, b"@")
    } else {
        rest
    };
    let rest = behind_port(alloc, behind_text(rest, b"", &url.host), url.port);
    rest == Some(url.path.as_bytes())
}

fn is_url(alloc: Global, row: &[u8]) -> bool {
    let (answer, text) = split_at_byte(row, b'`');
    let want = wanted(answer);
    match Url::parse(alloc, text) {
        Ok(url) => has_parts(alloc, &url, want),
        Err(UrlError::EmptyHost) => want == b"EmptyHost".as_slice(),
        Err(UrlError::Port) => want == b"Port".as_slice(),
        Err(UrlError::OutOfMemory) => false,
    }
}

/// Whether a name is the text itself where it is taken, or stands behind a bar.
fn is_named(name: &Bytes, text: &[u8], want: &[u8]) -> bool {
    match want.strip_prefix(b"|") {
        Some(want) => name.as_bytes() == want,
        None => want == b"taken".as_slice() && name.as_bytes() == text,
    }
}

fn is_branch(alloc: Global, row: &[u8]) -> bool {
    let (answer, text) = split_at_byte(row, b'`');
    let want = wanted(answer);
    match Branch::try_from(alloc, text) {
        Ok(Branch::Name(name)) => is_named(&name, text, want),
        Ok(Branch::CurrentInSuperproject) => want == b"current".as_slice(),
        Err(RefspecError::Invalid) => want == b"refused".as_slice(),
        Err(RefspecError::OutOfMemory) => false,
    }
}

/// What a table is about.
#[derive(Clone, Copy)]
pub enum About {
    Activity,
    Field,
    Value,
    Name,
    Url,
    Branch,
}

fn holds(alloc: Global, about: About, row: &[u8]) -> bool {
    match about {
        About::Activity => is_activity(alloc, row),
        About::Field => is_field(alloc, row),
        About::Value => is_value(alloc, row),
        About::Name => is_name(alloc, row),
        About::Url => is_url(alloc, row),
        About::Branch => is_branch(alloc, row),
    }
}

/// The first row of a table that git answers and these submodules do not.
pub fn first_lie(alloc: Global, about: About, table: &'static [u8]) -> Option<&'static [u8]> {
    for row in table.lines() {
        if !holds(alloc, about, row) {
            return Some(row);
        }
    }
    None
}

#[test]
fn submodules_as_git_has_them(rt: HostRuntime) {
    let alloc = rt.alloc();
    assert_eq!(rt; first_lie(alloc, About::Activity, git::ACTIVE), None);
    assert_eq!(rt; first_lie(alloc, About::Field, git::FIELDS), None);
    assert_eq!(rt; first_lie(alloc, About::Value, git::VALUES), None);
    assert_eq!(rt; first_lie(alloc, About::Name, git::NAMES), None);
    assert_eq!(rt; first_lie(alloc, About::Url, git::URLS), None);
    assert_eq!(rt; first_lie(alloc, About::Branch, git::BRANCHES), None);
}

#[test]
fn submodules_where_git_answers_otherwise(rt: HostRuntime) {
    let alloc = rt.alloc();
    assert_eq!(rt;
        first_lie(alloc, About::Activity, git::ACTIVE_DIFFERENCES),
        None
    );
    assert_eq!(rt;
        first_lie(alloc, About::Field, git::FIELD_DIFFERENCES),
        None
    );
    assert_eq!(rt; first_lie(alloc, About::Name, git::NAME_DIFFERENCES), None);
    assert_eq!(rt; first_lie(alloc, About::Url, git::URL_DIFFERENCES), None);
    assert_eq!(rt;
        first_lie(alloc, About::Branch, git::BRANCH_DIFFERENCES),
        None
    );
}
