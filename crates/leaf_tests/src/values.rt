//! Values of submodules: their words, urls and branches, and which submodules they make active.
use crate::rows::is_shown;
use crate::submodules_as_git::{About, first_lie};
use git_config_lite::ValueError;
use gitbase_core::Bytes;
use std::alloc::Global;
use submodule::{Branch, FetchRecurse, Ignore, Url};
use test_cases::split_at_byte;

/// Whether `m` is active, by a configuration with `&` in the place of each LF.
const ACTIVE: &[u8] = b"\
inactive`m`[submodule \"m\"]&active = false&url = u&\n\
active`m`[submodule \"m\"]&url = u&\n\
inactive`m`\n\
inactive`m`[submodule \"m\"]&url = u&[submodule]&active = x*&\n";

/// What a branch is, behind a bar its name, and the text that says so.
const BRANCHES: &[u8] = b"\
current`.\n\
|main`+main:x\n\
|HEAD`\n\
refused`a..b\n";

/// Urls with their scheme, user, password, host, port and path, `-` where there is none; or why
/// they are refused.
const URLS: &[u8] = b"\
https://u:p@h:8443/x`https`u`p`h`8443`/x|\
git@h:x/y`ssh`git`-`h`-`x/y|\
../y`file`-`-`-`-`../y|\
https:///x`EmptyHost|\
http:///x`EmptyHost|\
ssh://h:99999/`Port";

fn is_part(part: &Option<Bytes>, want: &[u8]) -> bool {
    match part {
        Some(part) => part.as_bytes() == want,
        None => want == b"-".as_slice(),
    }
}

fn is_port(alloc: Global, port: Option<u16>, want: &[u8]) -> bool {
    match port {
        Some(port) => is_shown(alloc, &port, want),
        None => want == b"-".as_slice(),
    }
}

fn has_parts(alloc: Global, url: &Url, want: &[u8]) -> bool {
    let (scheme, rest) = split_at_byte(want, b'`');
    let (user, rest) = split_at_byte(rest, b'`');
    let (password, rest) = split_at_byte(rest, b'`');
    let (host, rest) = split_at_byte(rest, b'`');
    let (port, path) = split_at_byte(rest, b'`');
    url.scheme.as_bytes() == scheme
        && is_part(&url.user, user)
        && is_part(&url.password, password)
        && is_part(&url.host, host)
        && is_port(alloc, url.port, port)
        && url.path.as_bytes() == path
}

fn is_url(alloc: Global, row: &[u8]) -> bool {
    let (text, want) = split_at_byte(row, b'`');
    match Url::parse(alloc, text) {
        Ok(url) => has_parts(alloc, &url, want),
        Err(error) => is_shown(alloc, &error, want),
    }
}

#[test]
fn urls(rt: HostRuntime) {
    for row in URLS.split(|byte| *byte == b'|') {
        assert!(rt; is_url(rt.alloc(), row), "{row:?}");
    }
}

fn is_default_branch(branch: Result<Branch, gitbase_core::OutOfMemory>) -> bool {
    match branch {
        Ok(Branch::Name(name)) => name.as_bytes() == b"HEAD".as_slice(),
        _ => false,
    }
}

#[test]
fn activity_and_branches(rt: HostRuntime) {
    let alloc = rt.alloc();
    assert_eq!(rt; first_lie(alloc, About::Activity, ACTIVE), None);
    assert_eq!(rt; first_lie(alloc, About::Branch, BRANCHES), None);
    assert!(rt; is_default_branch(Branch::default_branch(alloc)));
}

fn ignores(text: &[u8], want: Result<Ignore, ()>) -> bool {
    Ignore::try_from(text) == want
}

/// Whether a text that is no boolean says so.
fn recurses(text: &[u8], want: Result<Option<FetchRecurse>, &[u8]>) -> bool {
    FetchRecurse::new(Err(ValueError { input: text })) == want
}

#[test]
fn words(rt: HostRuntime) {
    assert!(rt; ignores(b"untracked", Ok(Ignore::Untracked)) && ignores(b"All", Err(())));
    assert!(rt; FetchRecurse::new(Ok(Some(false))) == Ok(Some(FetchRecurse::Never)));
    assert!(rt; FetchRecurse::new(Ok(None)) == Ok(None));
    assert!(rt; recurses(b"on-demand", Ok(Some(FetchRecurse::OnDemand))));
    assert!(rt; recurses(b"maybe", Err(b"maybe")));
}
