//! What is given and asked by the words of a row.
use check_ignore::{Checking, NamedRules, OuterRules};
use gitbase_core::{Bytes, Flags, IndexEntry, Mode, ObjectId, PathText, State};
use hex;
use std::alloc::Global;
use test_cases::{replace_marks_by_line_feeds, split_at_byte};

/// What is asked where there is no word.
fn usual() -> Checking {
    Checking {
        quiet: false,
        verbose: false,
        non_matching: false,
        stdin: false,
        ends_in_nul: false,
        quote_path: true,
        ignore_case: false,
    }
}

/// Takes an option.
fn take(checking: &mut Checking, word: &[u8]) {
    match word {
        b"-q" | b"--quiet" => checking.quiet = true,
        b"-v" | b"--verbose" => checking.verbose = true,
        b"-n" | b"--non-matching" => checking.non_matching = true,
        b"-z" => checking.ends_in_nul = true,
        b"--stdin" => checking.stdin = true,
        b"--raw" => checking.quote_path = false,
        b"--fold" => checking.ignore_case = true,
        _ => {}
    }
}

/// What is asked by options, parted by `|`.
pub fn checking_of(words: &[u8]) -> Checking {
    let mut checking = usual();
    for word in words.split(|byte| *byte == b'|') {
        take(&mut checking, word);
    }
    checking
}

/// Whether the index is left aside.
pub fn leaves_index(words: &[u8]) -> bool {
    words
        .split(|byte| *byte == b'|')
        .any(|word| word == b"--no-index".as_slice())
}

/// So many paths, parted by `|`.
pub fn paths_of(alloc: Global, count: usize, words: &[u8]) -> Option<Vec<Bytes>> {
    let mut paths = Vec::new(alloc);
    if count == 0 {
        return Some(paths);
    }
    for word in words.split(|byte| *byte == b'|') {
        paths.push(Bytes::from_slice(alloc, word).ok()?).ok()?;
    }
    Some(paths)
}

/// The entry of a path; that of a submodule is marked by `m`.
fn entry_of(alloc: Global, word: &[u8]) -> Option<IndexEntry> {
    let (mark, path) = split_at_byte(word, b' ');
    let mode = match mark {
        b"m" => Mode::COMMIT,
        _ => Mode::FILE,
    };
    Some(IndexEntry {
        path: PathText::from_bytes(alloc, path).ok()?,
        stage: 0,
        mode,
        flags: Flags::empty(),
        id: ObjectId::from_hex(b"8326e08e379b5161997a1ff46f9e0f95c04017b0").ok()?,
    })
}

/// The index of some words, parted by `;`.
pub fn index_of(alloc: Global, words: &[u8]) -> Option<State> {
    let mut entries = Vec::new(alloc);
    for word in words.split(|byte| *byte == b';') {
        if !word.is_empty() {
            entries.push(entry_of(alloc, word)?).ok()?;
        }
    }
    State::from_entries(entries).ok()
}

/// The rules of a word: the name and the text.
fn rules_of(alloc: Global, word: &[u8]) -> Option<NamedRules> {
    let (name, text) = split_at_byte(word, b'=');
    Some(NamedRules {
        name: Bytes::from_slice(alloc, name).ok()?,
        bytes: Bytes::from_vec(replace_marks_by_line_feeds(alloc, text, b'$')?),
    })
}

/// The rules of a word: the name, and the text by its hexadecimal digits.
fn rules_by_digits(alloc: Global, word: &[u8]) -> Option<NamedRules> {
    let (name, digits) = split_at_byte(word, b'=');
    Some(NamedRules {
        name: Bytes::from_slice(alloc, name).ok()?,
        bytes: Bytes::from_vec(hex::decode(alloc, digits).ok()?),
    })
}

/// The rules outside the work tree, parted by `;`.
pub fn outer_of(alloc: Global, words: &[u8]) -> Option<OuterRules> {
    let mut outer = OuterRules {
        user: None,
        repository: None,
    };
    for word in words.split(|byte| *byte == b';') {
        let (mark, rest) = split_at_byte(word, b' ');
        match mark {
            b"U" => outer.user = Some(rules_of(alloc, rest)?),
            b"R" => outer.repository = Some(rules_of(alloc, rest)?),
            b"Rx" => outer.repository = Some(rules_by_digits(alloc, rest)?),
            _ => {}
        }
    }
    Some(outer)
}
