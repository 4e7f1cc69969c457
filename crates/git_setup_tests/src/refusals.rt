//! Refusals, of trees that are made by hand: each row has the word, letters for what is asked, the
//! directory, the path spec, if there is one, and the steps behind those of a repository without
//! entries. The letter `d` is for deletion, `e` for a variable that points elsewhere.
use crate::asked::{asked_alone, asked_for, owners_of, surroundings_in, usual_options};
use bstr::ByteSlice;
use dir_classify::ForDeletionMode;
use git_places::Surroundings;
use git_setup::{Asked, Found, GitRefusal, find_and_read_setup};
use gitbase_core::{Bytes, PathText};
use std::alloc::Global;
use test_cases::{split_at_byte, tree_from_steps};
use worktree_fs::{MemoryOwners, MemoryWorktree};
use worktree_report::SetupOptions;

/// A repository without entries, and directories `d` and `g[x]`.
const REPOSITORY: &[u8] = b"\
d /w/r/.git/objects;d /w/r/.git/refs;f /w/r/.git/HEAD=ref: refs/heads/main$;d /w/r/d;d /w/r/g[x];d /w/x";

const ROWS: &[u8] = b"\
ok^^/w/r/d^^\n\
elsewhere^e^/w/r^^f /w/r/.git/index=x\n\
places^^/w/x^^\n\
foreign /w/x^^/w/x^^d /w/x/.git/objects;d /w/x/.git/refs;f /w/x/.git/HEAD=ref: refs/heads/main$\n\
ok^^/w/x^^f /w/h/.gitconfig=[safe]$directory=/w/x$;d /w/x/.git/objects;d /w/x/.git/refs;f /w/x/.git/HEAD=ref: refs/heads/main$\n\
node^^/w/r^^d /w/r/.git/index\n\
node^^/w/r^^l /w/r/.git/index=index\n\
ok^^/w/r^^l /w/r/.git/index=nowhere\n\
index /w/r/.git/index^^/w/r^^f /w/r/.git/index=x;f /w/h/.gitconfig=[a$\n\
entry 1^^/w/r^^x /w/r/.git/index=444952430000000200000002000000000000000000000000000000000000000000000000000081a4000000000000000000000000000102030405060708090a0b0c0d0e0f1011121300016200000000000000000000000000000000000000000000000000000081a4000000000000000000000000000102030405060708090a0b0c0d0e0f10111213000161006a2bda890305b7415c3f8d2199409b18d33a1e09\n\
entry 0^^/w/r^^x /w/r/.git/index=444952430000000200000001000000000000000000000000000000000000000000000000000081a4000000000000000000000000000102030405060708090a0b0c0d0e0f101112130004612f2f620000000000005043cadf6627f3f4138144831e1634a92a60b5db\n\
places^^/w/r^^f /w/r/.git/config=[a$\n\
files^^/w/r^^f /w/h/.gitconfig=[a$\n\
files^^/w/r^^d /w/r/.git/info/exclude\n\
boolean core.ignoreCase^^/w/r^^f /w/r/.git/config=[core]$ignorecase=x$sparsecheckout=y$\n\
boolean core.sparseCheckout^^/w/r^^f /w/r/.git/config=[core]$sparsecheckout=y$\n\
boolean sparse.expectFilesOutsideOfPatterns^^/w/r^^f /w/r/.git/config=[sparse]$expectfilesoutsideofpatterns=x$\n\
ok^^/w/r^^x /w/r/.git/index=4449524300000003000000036b0bfb721f6528506b0bfb721f6528500000fe0000a7c2a1000081a4000000000000000000000002b8626c4cff2849624fb67f87cd0ad72b163671ad000161000000000000000000000000000000000000000000000000000000400000000000000000000000000063ba3f33d97a9a0cf002d599b4305e100598beef40024000662f0000000000006b0bfb721f6528506b0bfb721f6528500000fe0000a7c2a0000081a400000000000000000000000200750edc07d6415dcc07ae0351e9397b0222b7ba0003672f7a00000000000000545245450000004d003320320acdaed1e239959d8e5085070defc9373b8f029cb466003120300a63ba3f33d97a9a0cf002d599b4305e100598beef67003120300a7567fbcbe3e034d447fb160ea8050977014ae39f736469720000000060ee4f3b4ac6c924cf5f4c75868abd20d765a2e9\n\
sparse f/^^/w/r^^f /w/r/f/x=x;x /w/r/.git/index=4449524300000003000000036b0bfb721f6528506b0bfb721f6528500000fe0000a7c2a1000081a4000000000000000000000002b8626c4cff2849624fb67f87cd0ad72b163671ad000161000000000000000000000000000000000000000000000000000000400000000000000000000000000063ba3f33d97a9a0cf002d599b4305e100598beef40024000662f0000000000006b0bfb721f6528506b0bfb721f6528500000fe0000a7c2a0000081a400000000000000000000000200750edc07d6415dcc07ae0351e9397b0222b7ba0003672f7a00000000000000545245450000004d003320320acdaed1e239959d8e5085070defc9373b8f029cb466003120300a63ba3f33d97a9a0cf002d599b4305e100598beef67003120300a7567fbcbe3e034d447fb160ea8050977014ae39f736469720000000060ee4f3b4ac6c924cf5f4c75868abd20d765a2e9\n\
ok^^/w/r/.git2^^d /w/o;f /w/r/.git2/x=;f /w/r/.git/config=[core]$repositoryformatversion=0$worktree=/w/o$\n\
outside-root /w/o^^/w/r^a^d /w/o;f /w/r/.git/config=[core]$repositoryformatversion=0$worktree=/w/o$\n\
path-spec :(x)a^^/w/r/d^:(x)a^\n\
path-spec :(top^^/w/r/d^:(top^\n\
outside-path ../../a^^/w/r/d^../../a^\n\
outside-path /w/ra^^/w/r/d^/w/ra^\n\
outside-path :/../a^^/w/r/d^:/../a^\n\
prefix g[x]^^/w/r/g[x]^n*^\n\
prefix d^^/w/r/d^:(icase)a^\n\
ok^^/w/r/g[x]^:(literal)n^\n\
ok^^/w/r/g[x]^:(top)n*^\n\
submodule-case s^d^/w/r^^f /w/r/.git/config=[core]$ignorecase$;x /w/r/.git/index=4449524300000002000000010000000000000000000000000000000000000000000000000000e000000000000000000000000000000102030405060708090a0b0c0d0e0f1011121300017300b4446c489552e35e480a403e80a1aabd03043f34\n\
ok^^/w/r^^f /w/r/.git/config=[core]$ignorecase$;x /w/r/.git/index=4449524300000002000000010000000000000000000000000000000000000000000000000000e000000000000000000000000000000102030405060708090a0b0c0d0e0f1011121300017300b4446c489552e35e480a403e80a1aabd03043f34\n\
ok^d^/w/r^^x /w/r/.git/index=4449524300000002000000010000000000000000000000000000000000000000000000000000e000000000000000000000000000000102030405060708090a0b0c0d0e0f1011121300017300b4446c489552e35e480a403e80a1aabd03043f34\n\
";

/// Whether a word stands before this text.
fn is_text(want: &[u8], word: &[u8], text: &[u8]) -> bool {
    let (first, rest) = split_at_byte(want, b' ');
    first == word && rest == text
}

/// Whether a word stands before this number, which is 0 or 1.
fn is_entry(want: &[u8], error: &gitbase_core::IndexError) -> bool {
    let (first, rest) = split_at_byte(want, b' ');
    first == b"entry".as_slice() && rest == place_of(error)
}

fn place_of(error: &gitbase_core::IndexError) -> &'static [u8] {
    match error {
        gitbase_core::IndexError::Path { at: 0 } => b"0",
        gitbase_core::IndexError::NotAscending { at: 1 } => b"1",
        _ => b"-",
    }
}

/// Whether a refusal is the one that is wanted.
fn is_refused(error: &GitRefusal, want: &[u8]) -> bool {
    match error {
        GitRefusal::Elsewhere { .. } => want == b"elsewhere".as_slice(),
        GitRefusal::Places(_) => want == b"places".as_slice(),
        GitRefusal::Foreign { path } => is_text(want, b"foreign", path.as_bytes()),
        GitRefusal::IndexNode { .. } => want == b"node".as_slice(),
        GitRefusal::IndexFile { path, .. } => is_text(want, b"index", path.as_bytes()),
        GitRefusal::IndexEntry { error, .. } => is_entry(want, error),
        GitRefusal::Files(_) => want == b"files".as_slice(),
        GitRefusal::Boolean { key, .. } => is_text(want, b"boolean", key.as_bytes()),
        error => is_refused_path(error, want),
    }
}

fn is_refused_path(error: &GitRefusal, want: &[u8]) -> bool {
    match error {
        GitRefusal::SparseDirectory { path } => is_text(want, b"sparse", path.as_bytes()),
        GitRefusal::OutsideRoot { root, .. } => is_text(want, b"outside-root", root.as_bytes()),
        GitRefusal::PathSpec { text } => is_text(want, b"path-spec", text.as_bytes()),
        GitRefusal::OutsidePath { text } => is_text(want, b"outside-path", text.as_bytes()),
        GitRefusal::Prefix { prefix, .. } => is_text(want, b"prefix", prefix.as_bytes()),
        GitRefusal::SubmoduleCase { path } => is_text(want, b"submodule-case", path.as_bytes()),
        _ => false,
    }
}

fn answers(
    alloc: Global,
    tree: &mut MemoryWorktree,
    owners: &mut MemoryOwners,
    around: &Surroundings,
    asked: &Asked,
    want: &[u8],
) -> bool {
    match find_and_read_setup(alloc, tree, owners, around, asked) {
        Ok(_) => want == b"ok".as_slice(),
        Err(error) => is_refused(&error, want),
    }
}

fn options_of(alloc: Global, letters: &[u8]) -> Option<SetupOptions> {
    let usual = usual_options(alloc)?;
    if letters == b"d".as_slice() {
        return Some(SetupOptions {
            for_deletion: Some(ForDeletionMode::IgnoredDirectoriesCanHideNestedRepositories),
            ..usual
        });
    }
    Some(usual)
}

fn asked_of(alloc: Global, letters: &[u8], spec: &[u8]) -> Option<Asked> {
    let options = options_of(alloc, letters)?;
    if spec.is_empty() {
        return Some(asked_alone(alloc, options));
    }
    asked_for(alloc, options, spec).ok()
}

fn around_of(alloc: Global, letters: &[u8], directory: &[u8]) -> Option<Surroundings> {
    let mut around = surroundings_in(alloc, directory)?;
    if letters == b"e".as_slice() {
        around.elsewhere = Bytes::from_slice(alloc, b"GIT_DIR").ok();
    }
    Some(around)
}

/// The steps of a repository, and some behind them.
fn steps_of(alloc: Global, steps: &[u8]) -> Option<Vec<u8>> {
    let mut all = REPOSITORY.to_vec(alloc).ok()?;
    if !steps.is_empty() {
        all.push(b';').ok()?;
        all.extend_from_slice(steps).ok()?;
    }
    Some(all)
}

fn is_answered(alloc: Global, want: &[u8], letters: &[u8], rest: &[u8]) -> Option<bool> {
    let (directory, rest) = split_at_byte(rest, b'^');
    let (spec, steps) = split_at_byte(rest, b'^');
    let all = steps_of(alloc, steps)?;
    let mut tree = tree_from_steps(alloc, &all, b'$')?;
    let mut owners = owners_of(alloc).ok()?;
    let around = around_of(alloc, letters, directory)?;
    let asked = asked_of(alloc, letters, spec)?;
    Some(answers(alloc, &mut tree, &mut owners, &around, &asked, want))
}

/// Whether a row is met.
fn is_met(alloc: Global, row: &[u8]) -> bool {
    let (want, rest) = split_at_byte(row, b'^');
    let (letters, rest) = split_at_byte(rest, b'^');
    is_answered(alloc, want, letters, rest) == Some(true)
}

#[test]
fn what_is_refused_is_named(rt: HostRuntime) {
    for row in ROWS.lines() {
        assert!(rt; is_met(rt.alloc(), row), "{}", row.as_bstr());
    }
}
