//! What is asked by the words of a row.
use bstr::ByteSlice;
use git_clean::Cleaning;
use gitbase_core::Bytes;
use glob_rules::pathspec::{Defaults, Search, Spec};
use ls_files::NamedSpec;
use std::alloc::Global;
use test_cases::split_at_byte;

/// What is asked where there is no word.
fn usual() -> Cleaning {
    Cleaning {
        dry_run: true,
        directories: false,
        ignored_too: false,
        ignored_only: false,
        patterns: false,
        repositories: false,
        quiet: false,
        quote_path: true,
    }
}

/// Takes an option. Where rows say `-f`, but one, they say it twice.
fn take(cleaning: &mut Cleaning, word: &[u8]) {
    match word {
        b"-d" => cleaning.directories = true,
        b"-x" => cleaning.ignored_too = true,
        b"-X" => cleaning.ignored_only = true,
        b"-q" => cleaning.quiet = true,
        b"--raw" => cleaning.quote_path = false,
        b"-f" => {}
        _ => cleaning.patterns = true,
    }
}

/// Whether the path specs are those of the current directory alone, as where none is written.
fn is_own(specs: &[u8], prefix: &[u8]) -> bool {
    match specs.get(prefix.len()..) {
        Some(rest) => specs.starts_with(prefix) && rest.starts_with(b"/&"),
        None => false,
    }
}

/// What is asked by options, parted by `|`, and by path specs.
pub fn cleaning_of(words: &[u8], specs: &[u8], prefix: &[u8]) -> Cleaning {
    let mut cleaning = usual();
    for word in words.split(|byte| *byte == b'|') {
        if !word.is_empty() {
            take(&mut cleaning, word);
        }
    }
    cleaning.repositories = words.find(b"-f|-f").is_some();
    if !specs.is_empty() && !is_own(specs, prefix) {
        cleaning.directories = true;
    }
    cleaning
}

/// The patterns of `-e`, a line each.
pub fn patterns_of(alloc: Global, words: &[u8]) -> Option<Bytes> {
    let mut lines = Bytes::new(alloc);
    for word in words.split(|byte| *byte == b'|') {
        if word.starts_with(b"-e") {
            lines.extend(alloc, word.get(2..)?).ok()?;
            lines.extend(alloc, b"\n").ok()?;
        }
    }
    Some(lines)
}

fn spec_of(alloc: Global, text: &[u8]) -> Option<Spec> {
    Spec::parse(alloc, text, Defaults { ignore_case: false }).ok()
}

/// A path spec alone, as it is told and as it is from the top.
fn named_of(alloc: Global, told: &[u8], text: &[u8]) -> Option<NamedSpec> {
    let mut specs = Vec::new(alloc);
    specs.push(spec_of(alloc, text)?).ok()?;
    Some(NamedSpec {
        text: Bytes::from_slice(alloc, told).ok()?,
        spec: Search::from_specs(specs),
    })
}

/// Path specs one by one, parted by `|`: how each is told, `&`, and how it is from the top.
pub fn all_named(alloc: Global, words: &[u8]) -> Option<Vec<NamedSpec>> {
    let mut named = Vec::new(alloc);
    for word in words.split(|byte| *byte == b'|') {
        if !word.is_empty() {
            let (told, text) = split_at_byte(word, b'&');
            named.push(named_of(alloc, told, text)?).ok()?;
        }
    }
    Some(named)
}

/// The same path specs as a list.
pub fn specs_of(alloc: Global, words: &[u8]) -> Option<Search> {
    let mut specs = Vec::new(alloc);
    for word in words.split(|byte| *byte == b'|') {
        if !word.is_empty() {
            let (_, text) = split_at_byte(word, b'&');
            specs.push(spec_of(alloc, text)?).ok()?;
        }
    }
    Some(Search::from_specs(specs))
}
