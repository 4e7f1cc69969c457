//! The parts of a url, within its text.
ghost use Rattle.std.specs.Prelude.{◌≡◌, ◌≤◌, ◌<◌, not, length, position, option_copied, IfSome};
ghost use Rattle.git_config_lite.specs.Texts.{first_byte_passes, is_ascii_letter};
ghost use Rattle.submodule.specs.Urls as urls;
ghost use Rattle.submodule.specs.Seen as seen;

use crate::port::parse_port;
use crate::text::{
    contains_byte, offset_of_first_occurrence, text_after_last_occurrence,
    text_before_first_occurrence, text_before_last_occurrence, text_from_first_occurrence,
    text_without_first_byte,
};
use crate::url::UrlError;

/// The parts of a url, as [`crate::Url`] has them.
#[derive(Clone, Copy, Debug)]
pub struct UrlParts<'a> {
    pub scheme: &'a [u8],
    pub user: Option<&'a [u8]>,
    pub password: Option<&'a [u8]>,
    pub host: Option<&'a [u8]>,
    pub port: Option<u16>,
    pub path: &'a [u8],
}

/// A host, and the text of its port; no port is the empty text.
#[derive(Clone, Copy, Debug)]
pub struct HostAndPort<'a> {
    pub host: &'a [u8],
    pub port: &'a [u8],
}

/// What stands before the last `@`, if there is one.
fn login_of_authority(authority: &[u8]) -> Option<&[u8]>
    ensures { option_copied result ≡ urls.login_of_authority authority.now }
{
    if contains_byte(b'@', authority) {
        Some(text_before_last_occurrence(b'@', authority))
    } else {
        None
    }
}

/// The user of a login.
fn user_of_login(login: Option<&[u8]>) -> Option<&[u8]>
    ensures { option_copied result ≡ urls.user_of_login (option_copied login.entry) }
{
    match login {
        Some(login) => Some(text_before_first_occurrence(b':', login)),
        None => None,
    }
}

/// What stands behind the first `:`, if there is one.
fn text_after_first_colon(text: &[u8]) -> Option<&[u8]>
    ensures { option_copied result ≡ urls.text_after_first_occurrence 58 text.now }
{
    if contains_byte(b':', text) {
        Some(text_without_first_byte(text_from_first_occurrence(b':', text)))
    } else {
        None
    }
}

/// The password of a login.
fn password_of_login(login: Option<&[u8]>) -> Option<&[u8]>
    ensures { option_copied result ≡ urls.password_of_login (option_copied login.entry) }
{
    match login {
        Some(login) => text_after_first_colon(login),
        None => None,
    }
}

/// The port behind a host in brackets.
fn port_text_after_bracket(rest: &[u8]) -> &[u8]
    ensures { result.now ≡ urls.port_text_after_bracket rest.now }
{
    if contains_byte(b':', rest) {
        text_after_last_occurrence(b':', rest)
    } else {
        b""
    }
}

/// A text up to its first `]`, and what is behind that; none where there is no `]`.
fn split_after_closing_bracket(part: &[u8]) -> Option<(&[u8], &[u8])>
    ensures { seen.optional_pair_of_references result ≡ urls.split_after_closing_bracket part.now }
{
    let at = offset_of_first_occurrence(b']', part);
    if at < part.len() {
        Some(part.split_at(at + 1))
    } else {
        None
    }
}

/// A host in brackets.
/// See docs/DIFFERENCES.md#url-ssh-brackets.
/// See docs/DIFFERENCES.md#url-open-bracket.
fn host_and_port_with_brackets(part: &[u8]) -> HostAndPort<'_>
    ensures { seen.host_and_port_text_of_parts result ≡ urls.host_and_port_with_brackets part.now }
{
    match split_after_closing_bracket(part) {
        Some((host, rest)) => HostAndPort {
            host,
            port: port_text_after_bracket(rest),
        },
        None => HostAndPort {
            host: part,
            port: b"",
        },
    }
}

/// A host without brackets.
fn host_and_port_without_brackets(part: &[u8]) -> HostAndPort<'_>
    ensures { seen.host_and_port_text_of_parts result ≡ urls.host_and_port_without_brackets
        part.now }
{
    if contains_byte(b':', part) {
        HostAndPort {
            host: text_before_last_occurrence(b':', part),
            port: text_after_last_occurrence(b':', part),
        }
    } else {
        HostAndPort {
            host: part,
            port: b"",
        }
    }
}

fn split_host_and_port(part: &[u8]) -> HostAndPort<'_>
    ensures { seen.host_and_port_text_of_parts result ≡ urls.split_host_and_port part.now }
{
    match part {
        [b'[', ..] => host_and_port_with_brackets(part),
        _ => host_and_port_without_brackets(part),
    }
}

/// Whether a scheme needs a host.
/// See docs/DECISIONS.md#scheme-by-bytes.
/// See docs/DIFFERENCES.md#url-scheme-case.
/// See docs/DIFFERENCES.md#url-git-ssh.
fn scheme_needs_host(scheme: &[u8]) -> bool
    ensures { result ≡ urls.scheme_needs_host scheme.now }
{
    scheme == b"http".as_slice()
        || scheme == b"https".as_slice()
        || scheme == b"ssh".as_slice()
        || scheme == b"git".as_slice()
}

/// Whether a host is empty that may not be.
fn lacks_required_host(scheme: &[u8], host: &[u8]) -> bool
    ensures { result ≡ urls.lacks_required_host scheme.now host.now }
{
    match host {
        [] => scheme_needs_host(scheme),
        _ => false,
    }
}

/// The host of a url: an empty one is none.
/// See docs/DECISIONS.md#empty-host.
/// See docs/DIFFERENCES.md#url-empty-host.
fn host_unless_empty(host: &[u8]) -> Option<&[u8]>
    ensures { option_copied result ≡ urls.host_unless_empty host.now }
{
    match host {
        [] => None,
        _ => Some(host),
    }
}

/// A url by its scheme, its login, its host with the port, and its path.
/// See docs/DECISIONS.md#host-before-port.
/// See docs/DIFFERENCES.md#url-dash-host.
fn url_of_scheme_login_host_and_path<'a>(
    scheme: &'a [u8],
    login: Option<&'a [u8]>,
    place: HostAndPort<'a>,
    path: &'a [u8],
) -> Result<UrlParts<'a>, UrlError>
    ensures { seen.url_of_parts_result result ≡ urls.url_of_scheme_login_host_and_path scheme.now
        (option_copied login.entry) (seen.host_and_port_text_of_parts place.entry) path.now }
{
    if lacks_required_host(scheme, place.host) {
        return Err(UrlError::EmptyHost);
    }
    let port = parse_port(place.port)?;
    Ok(UrlParts {
        scheme,
        user: user_of_login(login),
        password: password_of_login(login),
        host: host_unless_empty(place.host),
        port,
        path,
    })
}

/// A url by its scheme and what is behind `://`.
/// See docs/DIFFERENCES.md#url-home.
/// See docs/DIFFERENCES.md#url-percent.
/// See docs/DIFFERENCES.md#url-no-path.
fn parse_url_after_scheme<'a>(scheme: &'a [u8], rest: &'a [u8]) -> Result<UrlParts<'a>, UrlError>
    ensures { seen.url_of_parts_result result ≡ urls.parse_url_after_scheme scheme.now rest.now }
{
    let authority = text_before_first_occurrence(b'/', rest);
    url_of_scheme_login_host_and_path(
        scheme,
        login_of_authority(authority),
        split_host_and_port(text_after_last_occurrence(b'@', authority)),
        text_from_first_occurrence(b'/', rest),
    )
}

/// A url of `[user@]host` and a path, over ssh.
/// See docs/DIFFERENCES.md#url-tilde.
/// See docs/DIFFERENCES.md#url-dash-path.
/// See docs/DIFFERENCES.md#url-two-colons.
fn ssh_url_of_authority_and_path<'a>(
    authority: &'a [u8],
    path: &'a [u8],
) -> Result<UrlParts<'a>, UrlError>
    ensures { seen.url_of_parts_result result ≡ urls.ssh_url_of_authority_and_path authority.now
        path.now }
{
    let place = HostAndPort {
        host: text_after_last_occurrence(b'@', authority),
        port: b"",
    };
    url_of_scheme_login_host_and_path(b"ssh", login_of_authority(authority), place, path)
}

fn local(path: &[u8]) -> UrlParts<'_>
    ensures { seen.url_of_parts result ≡ urls.local path.now }
{
    UrlParts {
        scheme: b"file",
        user: None,
        password: None,
        host: None,
        port: None,
        path,
    }
}

fn is_scheme_byte(byte: u8) -> bool
    ensures { result ≡ urls.is_scheme_byte byte }
{
    matches!(byte, b'A'..=b'Z' | b'a'..=b'z' | b'0'..=b'9' | b'+' | b'.' | b'-')
}

/// The place of the first byte that may not stand in a scheme.
fn offset_of_first_non_scheme_byte(text: &[u8]) -> Option<usize>
    ensures place { result ≡ position (λ b. not (urls.is_scheme_byte b)) text.now }
    ensures within { IfSome result (λ at. at < length text.now) }
{
    text.iter().position(|byte| !is_scheme_byte(*byte))
}

/// How many bytes at the start may stand in a scheme.
fn length_of_leading_scheme(text: &[u8]) -> usize
    ensures value { result ≡ urls.length_of_leading_scheme text.now }
    ensures within { result ≤ length text.now }
{
    match offset_of_first_non_scheme_byte(text) {
        Some(at) => at,
        None => text.len(),
    }
}

fn begins_with_letter(text: &[u8]) -> bool
    ensures { result ≡ first_byte_passes is_ascii_letter text.now }
{
    match text {
        [first, ..] => matches!(*first, b'A'..=b'Z' | b'a'..=b'z'),
        [] => false,
    }
}

/// A scheme, and what is behind its `://`; none where the text begins with no scheme.
/// See docs/DIFFERENCES.md#url-no-scheme.
fn split_scheme_and_rest(text: &[u8]) -> Option<(&[u8], &[u8])>
    ensures { seen.optional_pair_of_references result ≡ urls.split_scheme_and_rest text.now }
{
    if !begins_with_letter(text) {
        return None;
    }
    let (scheme, after) = text.split_at(length_of_leading_scheme(text));
    match after {
        [b':', b'/', b'/', rest @ ..] => Some((scheme, rest)),
        _ => None,
    }
}

/// `[user@]host` and a path; none where no `:` parts them.
/// See docs/DECISIONS.md#first-colon.
/// See docs/DIFFERENCES.md#url-short-brackets.
/// See docs/DIFFERENCES.md#url-colon.
/// See docs/DIFFERENCES.md#url-local-bracket.
fn split_ssh_authority_and_path(text: &[u8]) -> Option<(&[u8], &[u8])>
    ensures { seen.optional_pair_of_references result ≡ urls.split_ssh_authority_and_path text.now }
{
    let colon = offset_of_first_occurrence(b':', text);
    if colon > 0 && colon < offset_of_first_occurrence(b'/', text) {
        Some((
            text_before_first_occurrence(b':', text),
            text_without_first_byte(text_from_first_occurrence(b':', text)),
        ))
    } else {
        None
    }
}

/// The parts of a url.
pub fn parse_url_parts(text: &[u8]) -> Result<UrlParts<'_>, UrlError>
    ensures { seen.url_of_parts_result result ≡ urls.parse_url text.now }
{
    if let Some((scheme, rest)) = split_scheme_and_rest(text) {
        return parse_url_after_scheme(scheme, rest);
    }
    match split_ssh_authority_and_path(text) {
        Some((authority, path)) => ssh_url_of_authority_and_path(authority, path),
        None => Ok(local(text)),
    }
}
