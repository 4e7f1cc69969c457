//! Submodules: what is said of them, and how the refusals of their values read.
use crate::config::{from_source, local};
use crate::rows::is_shown;
use bstr::ByteSlice;
use git_config_lite as config;
use git_config_lite::Source;
use gitbase_core::{OutOfMemory, PathText};
use glob_rules::pathspec::Defaults;
use std::alloc::Global;
use submodule::{
    Branch, FetchRecurse, File, Ignore, NamesAndActive, Update, init, is_active_platform,
};
use test_cases::split_at_byte;

/// Rows, parted by bars: what is asked, about what, what is wanted, the overrides and the text,
/// parted by backquotes.
///
/// Where a refusal is wanted, it is wanted as it reads; of a text that is refused the line is
/// wanted.
const ROWS: &[u8] = b"\
path`m`The submodule 'm' was missing its 'path' field or it was empty``[submodule \"m\"]\n|\
path`m`The submodule 'm' was missing its 'path' field or it was empty``[submodule \"m\"]\npath =\n|\
path`a`The path '/x' of submodule 'a' needs to be relative``[submodule \"a\"]\npath = /x\n|\
path`o`The path '../x' would lead outside of the repository worktree``[submodule \"o\"]\npath = ../x\n|\
path`b`The path 'x/../../y' would lead outside of the repository worktree``[submodule \"b\"]\npath = x/../../y\n|\
path`n`lib``[submodule \"a\"]\npath = /x\n[submodule \"m\"]\npath = lib\n[submodule \"n\"]\npath = lib\n|\
path`m`lib`[submodule \"m\"]\npath = q\nurl = v\nshallow = yes\n`[submodule \"m\"]\npath = lib\n|\
path``e``[submodule \"\"]\npath = e\n[submodule]\npath = none\n|\
first name`lib`m``[submodule \"a\"]\npath = /x\n[submodule \"m\"]\npath = lib\n[submodule \"n\"]\npath = lib\n|\
no name`/x```[submodule \"a\"]\npath = /x\n[submodule \"m\"]\npath = lib\n[submodule \"n\"]\npath = lib\n|\
no name`lib/```[submodule \"a\"]\npath = /x\n[submodule \"m\"]\npath = lib\n[submodule \"n\"]\npath = lib\n|\
no name`none```[submodule \"\"]\npath = e\n[submodule]\npath = none\n|\
two names`b`a`[submodule \"z\"]\nurl = w\n`[submodule \"b\"]\npath = p\n[submodule \"a\"]\n[submodule \"b\"]\nurl = u\n|\
two overrides`b`z`[submodule \"z\"]\nurl = w\n[submodule \"b\"]\nignore = dirty\n[submodule \"b\"]\nignore = none\n`|\
url`m`The submodule 'm' was missing its 'url' field or it was empty``[submodule \"m\"]\nurl =\n|\
url`unknown`The submodule 'unknown' was missing its 'url' field or it was empty``[submodule \"m\"]\nurl = u\n|\
url`m`The url of submodule 'm' could not be parsed``[submodule \"m\"]\nurl = ssh://h:x/\n|\
url`m`The submodule 'm' was missing its 'url' field or it was empty`[submodule \"m\"]\nurl\n`[submodule \"m\"]\nurl = u\n|\
url`m`w`[SubModule \"m\"]\nURL = v\n[submodule \"m\"]\nurl = w\n`[submodule \"m\"]\nurl = u\n|\
update`m`The 'update' field of submodule 'm' was invalid: 'make it'``[submodule \"m\"]\nupdate = make it\n|\
update`m`The 'update' field of submodule 'm' tried to set command 'cmd' to be shared``[submodule \"m\"]\nupdate = !cmd\n|\
update`m`!cmd`[submodule \"m\"]\nupdate = !cmd\n`[submodule \"m\"]\nupdate = !cmd\n|\
update`m`merge``[submodule \"m\"]\nupdate = merge\n|\
update`m`unset``[submodule \"m\"]\npath = lib\n|\
branch`m`The value '+a..b:c' of the 'branch' field of submodule 'm' couldn't be turned into a valid fetch refspec``\
[submodule \"m\"]\nbranch = +a..b:c\n|\
branch`m`HEAD`[submodule \"m\"]\nbranch\n`[submodule \"m\"]\nbranch = b\n|\
branch`a`.``[submodule \"a\"]\nbranch = .\n|\
branch`m`unset``[submodule \"m\"]\npath = lib\n|\
recurse`m`The 'fetchRecurseSubmodules' field of submodule 'm' was invalid: 'On-Demand'``\
[submodule \"m\"]\nfetchRecurseSubmodules = On-Demand\n|\
recurse`m`on-demand``[submodule \"m\"]\nfetchRecurseSubmodules = on-demand\n|\
recurse`m`always``[submodule \"m\"]\nfetchRecurseSubmodules\n|\
recurse`m`never`[submodule \"m\"]\nfetchrecursesubmodules = no\n`[submodule \"m\"]\npath = lib\n|\
recurse`m`never`[submodule \"m\"]\nfetchRecurseSubmodules\n`[submodule \"m\"]\npath = lib\n|\
recurse`m`unset``[submodule \"m\"]\npath = lib\n|\
ignore`m`The 'ignore' field of submodule 'm' was invalid: 'a\xef\xbf\xbdb'``[submodule \"m\"]\nignore = a\xffb\n|\
ignore`m`all``[submodule \"m\"]\nignore = all\n|\
ignore`m`unset``[submodule \"m\"]\npath = lib\n|\
shallow`m`deep``[submodule \"m\"]\nshallow = deep\n|\
shallow`m`true``[submodule \"m\"]\nshallow\n|\
shallow`m`unset`[submodule \"m\"]\nshallow = yes\nurl = v\n`[submodule \"m\"]\npath = lib\n|\
refused``3``[submodule \"m\"]\npath = lib\n[submodule \"n]\n[submodule \"o]\n";

/// The submodules of a text, with the overrides of another.
fn file_of(alloc: Global, text: &[u8], more: &[u8]) -> Result<File, init::Error> {
    match local(alloc, more) {
        Ok(more) => File::from_bytes(alloc, text, None, &more),
        Err(_) => Err(init::Error::OutOfMemory),
    }
}

fn path_is(alloc: Global, file: &File, name: &[u8], want: &[u8]) -> bool {
    match file.path(alloc, name) {
        Ok(path) => path == want,
        Err(error) => is_shown(alloc, &error, want),
    }
}

fn url_is(alloc: Global, file: &File, name: &[u8], want: &[u8]) -> bool {
    match file.url(alloc, name) {
        Ok(url) => url.path.as_bytes() == want,
        Err(error) => is_shown(alloc, &error, want),
    }
}

fn is_update(update: &Option<Update>, want: &[u8]) -> bool {
    match update {
        Some(Update::Command(command)) => want.strip_prefix(b"!") == Some(command.as_bytes()),
        Some(Update::Merge) => want == b"merge".as_slice(),
        None => want == b"unset".as_slice(),
        _ => false,
    }
}

fn update_is(alloc: Global, file: &File, name: &[u8], want: &[u8]) -> bool {
    match file.update(alloc, name) {
        Ok(update) => is_update(&update, want),
        Err(error) => is_shown(alloc, &error, want),
    }
}

fn is_branch(branch: &Option<Branch>, want: &[u8]) -> bool {
    match branch {
        Some(Branch::Name(name)) => name.as_bytes() == want,
        Some(Branch::CurrentInSuperproject) => want == b".".as_slice(),
        None => want == b"unset".as_slice(),
    }
}

fn branch_is(alloc: Global, file: &File, name: &[u8], want: &[u8]) -> bool {
    match file.branch(alloc, name) {
        Ok(branch) => is_branch(&branch, want),
        Err(error) => is_shown(alloc, &error, want),
    }
}

fn recurse_is(alloc: Global, file: &File, name: &[u8], want: &[u8]) -> bool {
    match file.fetch_recurse(alloc, name) {
        Ok(Some(FetchRecurse::OnDemand)) => want == b"on-demand".as_slice(),
        Ok(Some(FetchRecurse::Always)) => want == b"always".as_slice(),
        Ok(Some(FetchRecurse::Never)) => want == b"never".as_slice(),
        Ok(None) => want == b"unset".as_slice(),
        Err(error) => is_shown(alloc, &error, want),
    }
}

fn ignore_is(alloc: Global, file: &File, name: &[u8], want: &[u8]) -> bool {
    match file.ignore(alloc, name) {
        Ok(Some(ignore)) => ignore == Ignore::All && want == b"all".as_slice(),
        Ok(None) => want == b"unset".as_slice(),
        Err(error) => is_shown(alloc, &error, want),
    }
}

fn shallow_is(file: &File, name: &[u8], want: &[u8]) -> bool {
    match file.shallow(name) {
        Ok(Some(true)) => want == b"true".as_slice(),
        Ok(Some(false)) => want == b"false".as_slice(),
        Ok(None) => want == b"unset".as_slice(),
        Err(error) => error.input == want,
    }
}

/// Whether this is the first name of a path.
fn is_name_of(alloc: Global, file: &File, path: &[u8], want: Option<&[u8]>) -> bool {
    file.name_by_path(alloc, path).ok() == Some(want)
}

/// Whether a file has these two names and no more.
fn has_names(file: &File, first: &[u8], second: &[u8]) -> bool {
    let mut names = file.names();
    names.next() == Some(first) && names.next() == Some(second) && names.next().is_none()
}

/// Whether a configuration has two sections of these names and no more, the first not ignored and
/// of a local source.
fn has_overrides(config: &config::File, first: &[u8], second: &[u8]) -> bool {
    let mut sections = config.sections();
    let is_first = match sections.next() {
        Some(it) => {
            it.subsection_name() == Some(first)
                && it.value(b"ignore") == Some(b"none".as_slice())
                && it.meta().source == Source::Local
        }
        None => false,
    };
    let is_second = match sections.next() {
        Some(it) => it.subsection_name() == Some(second),
        None => false,
    };
    is_first && is_second && sections.next().is_none()
}

/// Whether a question about a value of a submodule is answered so.
fn says(alloc: Global, file: &File, question: &[u8], about: &[u8], want: &[u8]) -> bool {
    match question {
        b"path" => path_is(alloc, file, about, want),
        b"url" => url_is(alloc, file, about, want),
        b"update" => update_is(alloc, file, about, want),
        b"branch" => branch_is(alloc, file, about, want),
        b"recurse" => recurse_is(alloc, file, about, want),
        b"ignore" => ignore_is(alloc, file, about, want),
        b"shallow" => shallow_is(file, about, want),
        _ => false,
    }
}

fn answers(alloc: Global, file: File, question: &[u8], about: &[u8], want: &[u8]) -> bool {
    match question {
        b"first name" => is_name_of(alloc, &file, about, Some(want)),
        b"no name" => is_name_of(alloc, &file, about, None),
        b"two names" => has_names(&file, about, want),
        b"two overrides" => has_overrides(&file.into_config(), about, want),
        _ => says(alloc, &file, question, about, want),
    }
}

fn holds(alloc: Global, row: &[u8]) -> bool {
    let (question, rest) = split_at_byte(row, b'`');
    let (about, rest) = split_at_byte(rest, b'`');
    let (want, rest) = split_at_byte(rest, b'`');
    let (more, text) = split_at_byte(rest, b'`');
    match file_of(alloc, text, more) {
        Ok(file) => answers(alloc, file, question, about, want),
        Err(init::Error::Parse { line }) => {
            question == b"refused".as_slice() && is_shown(alloc, &line, want)
        }
        Err(init::Error::OutOfMemory) => false,
    }
}

#[test]
fn what_is_said_of_submodules(rt: HostRuntime) {
    for row in ROWS.split(|byte| *byte == b'|') {
        assert!(rt; holds(rt.alloc(), row), "{row:?}");
    }
}

/// Rows, parted by bars: the names that are active and not, whether letters fold, and the
/// configuration.
///
/// The submodules are `m` at the path `lib`, and `n`.
const ACTIVE: &[u8] = b"\
no no``|\
yes no``[submodule \"m\"]\nurl = u\n|\
no no``[submodule \"m\"]\nactive = false\nurl = u\n[submodule]\nactive = m\n|\
no no``[submodule \"m\"]\nurl = u\n[submodule]\nactive = x*\n|\
yes no``[submodule]\nactive = x*\nactive = m\n|\
no no``[submodule]\nactive = M\n|\
yes no`fold`[submodule]\nactive = M\n|\
maybe yes``[submodule \"m\"]\nactive = maybe\n[submodule \"n\"]\nurl = u\n|\
value 1, byte 0``[submodule]\nactive\n|\
value 2, byte 2``\
[submodule \"m\"]\nactive = maybe\n[submodule]\nactive = a\nactive = :(x)b\nactive = /c\n|\
value 2 leads out``\
[submodule]\nactive = m\nactive = ../x\n";

/// What the state of the next name is called.
fn state_name<'a>(states: &mut NamesAndActive<'a>, name: &[u8]) -> &'a [u8] {
    match states.next() {
        Some((found, state)) => match state {
            Ok(active) => {
                if found != name {
                    return b"";
                }
                if active { b"yes" } else { b"no" }
            }
            Err(error) => error.input,
        },
        None => b"",
    }
}

/// Whether a value of `submodule.active` is refused so.
fn is_refusal(alloc: Global, error: &is_active_platform::Error, want: &[u8]) -> bool {
    let text = match error {
        is_active_platform::Error::ParsePattern { value, at } => {
            format!(in alloc; "value {value}, byte {at}")
        }
        is_active_platform::Error::NormalizePattern { value } => {
            format!(in alloc; "value {value} leads out")
        }
        is_active_platform::Error::OutOfMemory => return false,
    };
    match text {
        Ok(text) => text.as_bytes() == want,
        Err(_) => false,
    }
}

/// Whether the names `m` and `n` have these states.
fn are_states(
    alloc: Global,
    file: &File,
    config: &config::File,
    ignore_case: bool,
    want: &[u8],
) -> bool {
    match file.names_and_active_state(alloc, config, Defaults { ignore_case }) {
        Ok(mut states) => {
            let first = state_name(&mut states, b"m");
            let second = state_name(&mut states, b"n");
            want.split_once_str(b" ") == Some((first, second)) && states.next().is_none()
        }
        Err(error) => is_refusal(alloc, &error, want),
    }
}

fn has_states(alloc: Global, row: &[u8]) -> bool {
    let text = b"[submodule \"m\"]\npath = lib\nurl = v\nactive = true\n[submodule \"n\"]\n";
    let (want, rest) = split_at_byte(row, b'`');
    let (fold, lines) = split_at_byte(rest, b'`');
    match (file_of(alloc, text, b""), local(alloc, lines)) {
        (Ok(file), Ok(config)) => are_states(alloc, &file, &config, !fold.is_empty(), want),
        _ => false,
    }
}

#[test]
fn which_submodules_are_active(rt: HostRuntime) {
    for row in ACTIVE.split(|byte| *byte == b'|') {
        assert!(rt; has_states(rt.alloc(), row), "{row:?}");
    }
}

/// The sections of many submodules, each with this key.
fn many(alloc: Global, count: u32, key: &[u8]) -> Option<Vec<u8>> {
    let mut text = Vec::new(alloc);
    for number in 0..count {
        match format!(in alloc; "[submodule \"m{number}\"]\n") {
            Ok(header) => {
                if add(&mut text, header.as_bytes(), key).is_err() {
                    return None;
                }
            }
            Err(_) => return None,
        }
    }
    Some(text)
}

fn add(text: &mut Vec<u8>, first: &[u8], second: &[u8]) -> Result<(), OutOfMemory> {
    text.extend_from_slice(first)?;
    text.extend_from_slice(second)?;
    Ok(())
}

/// Whether each of some names has this url.
fn have_url(alloc: Global, file: &File, want: &[u8]) -> bool {
    for name in file.names() {
        if !url_is(alloc, file, name, want) {
            return false;
        }
    }
    true
}

/// Whether many submodules are read and overridden, and each has the url of its override.
fn are_many(alloc: Global, count: u32) -> bool {
    match (
        many(alloc, count, b"path = p\nurl = u\n"),
        many(alloc, count, b"url = v\n"),
    ) {
        (Some(text), Some(more)) => match file_of(alloc, &text, &more) {
            Ok(file) => have_url(alloc, &file, b"v"),
            Err(_) => false,
        },
        _ => false,
    }
}

/// What stands where a key says nothing, as gitoxide has it.
#[test]
fn defaults(rt: HostRuntime) {
    assert!(rt; Ignore::default() == Ignore::None);
    assert!(rt; FetchRecurse::default() == FetchRecurse::OnDemand);
    assert!(rt; Update::default() == Update::Checkout);
}

/// A look-up passes over the sections of its own submodule alone, so that this is done at once.
#[test]
fn many_submodules_take_no_long_time(rt: HostRuntime) {
    assert!(rt; are_many(rt.alloc(), 10_000));
}

/// Whether an override that was read as `.gitmodules` belongs to the program, and names no
/// submodule.
fn is_overridden(alloc: Global, file: &mut File) -> bool {
    match from_source(
        alloc,
        b"[submodule \"n\"]\nupdate = !cmd\n",
        Source::Modules,
    ) {
        Ok(more) => {
            file.append_submodule_overrides(alloc, &more).is_ok()
                && update_is(alloc, file, b"n", b"!cmd")
                && is_name_of(alloc, file, b"lib", Some(b"m"))
                && has_api_section(file.config())
        }
        Err(_) => false,
    }
}

/// Whether the second section belongs to the program.
fn has_api_section(config: &config::File) -> bool {
    let mut sections = config.sections();
    let is_first = match sections.next() {
        Some(section) => section.meta().source == Source::Modules,
        None => false,
    };
    match sections.next() {
        Some(section) => is_first && section.meta().source == Source::Api,
        None => false,
    }
}

/// Whether a file that was read from a path knows it, and takes more overrides.
fn grows(alloc: Global, path: &[u8]) -> bool {
    let text = b"[submodule \"m\"]\npath = lib\n";
    match (PathText::from_bytes(alloc, path), local(alloc, b"")) {
        (Ok(source), Ok(none)) => match File::from_bytes(alloc, text, Some(source), &none) {
            Ok(mut file) => file.config_path() == Some(path) && is_overridden(alloc, &mut file),
            Err(_) => false,
        },
        _ => false,
    }
}

#[test]
fn a_file_takes_more_overrides(rt: HostRuntime) {
    assert!(rt; grows(rt.alloc(), b"/w/.gitmodules"));
}
