//! What is asked of a listing by the words of a row.
use crate::words::spec_of;
use gitbase_core::Bytes;
use glob_rules::pathspec::Search;
use ls_files::{DeletedModifiedChoice, Listing, NamedSpec};
use std::alloc::Global;
use test_cases::split_at_byte;

/// What is asked where there is no word.
fn usual() -> Listing {
    Listing {
        cached: false,
        stages: false,
        unmerged: false,
        others: false,
        killed: false,
        ignored: false,
        directories: false,
        empty_directories: true,
        excludes_standard: false,
        excludes_directories: false,
        patterns: false,
        error_unmatch: false,
        tags: false,
        valid: false,
        ends_in_nul: false,
        deduplicates: false,
        full_names: false,
        quote_path: true,
    }
}

/// Takes a word.
fn take(listing: &mut Listing, word: &[u8]) {
    match word {
        b"-c" => listing.cached = true,
        b"-s" => listing.stages = true,
        b"-u" => listing.unmerged = true,
        b"-t" => listing.tags = true,
        b"-v" => listing.valid = true,
        b"-z" => listing.ends_in_nul = true,
        b"--error-unmatch" => listing.error_unmatch = true,
        b"--deduplicate" => listing.deduplicates = true,
        b"--full-name" => listing.full_names = true,
        b"core.quotePath=false" => listing.quote_path = false,
        _ => {}
    }
}

/// The listing that words ask for, parted by `|`.
pub fn listing_of(words: &[u8]) -> Listing {
    let mut listing = usual();
    for word in words.split(|byte| *byte == b'|') {
        take(&mut listing, word);
    }
    listing
}

fn has(words: &[u8], wanted: &[u8]) -> bool {
    words.split(|byte| *byte == b'|').any(|word| word == wanted)
}

/// Which paths words ask for.
pub fn standings_of(words: &[u8]) -> DeletedModifiedChoice {
    if !has(words, b"-m") {
        return DeletedModifiedChoice::Deleted;
    }
    if has(words, b"-d") {
        return DeletedModifiedChoice::Both;
    }
    DeletedModifiedChoice::Modified
}

/// A path spec alone, as it is told and as it is from the top.
fn named_of(alloc: Global, told: &[u8], text: &[u8]) -> Option<NamedSpec> {
    let mut specs = Vec::new(alloc);
    specs.push(spec_of(alloc, text)?).ok()?;
    Some(NamedSpec {
        text: Bytes::from_slice(alloc, told).ok()?,
        spec: Search::from_specs(specs),
    })
}

/// Path specs one by one, parted by `|`: how each is told, `&`, and how it is from the top.
pub fn all_named(alloc: Global, words: &[u8]) -> Option<Vec<NamedSpec>> {
    let mut named = Vec::new(alloc);
    for word in words.split(|byte| *byte == b'|') {
        if !word.is_empty() {
            let (told, text) = split_at_byte(word, b'&');
            named.push(named_of(alloc, told, text)?).ok()?;
        }
    }
    Some(named)
}

/// The same path specs as a list.
pub fn all_specs(alloc: Global, words: &[u8]) -> Option<Search> {
    let mut specs = Vec::new(alloc);
    for word in words.split(|byte| *byte == b'|') {
        if !word.is_empty() {
            let (_, text) = split_at_byte(word, b'&');
            specs.push(spec_of(alloc, text)?).ok()?;
        }
    }
    Some(Search::from_specs(specs))
}
