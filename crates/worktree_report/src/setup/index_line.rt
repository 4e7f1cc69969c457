//! The lines of a setup that give the index.
ghost use Rattle.std.specs.Prelude.{◌≡◌, option_map, IfOk};
ghost use Rattle.worktree_report.specs.SetupIndex.{parse_mode_word, parse_stage_word, parse_flags_word, parse_flags_of_several_letters, parse_id_word, split_index_words, index_entry_from_words, parse_index_entry};
ghost use Rattle.worktree_report.specs.SetupSeen.{index_words_of_borrowed};

use crate::escape::unescape_path;
use crate::setup::field::split_at_first_space;
use gitbase_core::{Flags, IndexEntry, Mode, ObjectId, OutOfMemory};
use std::alloc::Global;

/// The words of an entry, as a line has them.
#[derive(Clone, Copy, Debug)]
struct IndexWords<'a> {
    mode: &'a [u8],
    stage: &'a [u8],
    flags: &'a [u8],
    id: &'a [u8],
    path: &'a [u8],
}

fn parse_mode_word(word: &[u8]) -> Option<Mode>
    ensures { result ≡ parse_mode_word word.now }
{
    if word == b"100644".as_slice() {
        Some(Mode::FILE)
    } else if word == b"100755".as_slice() {
        Some(Mode::FILE_EXECUTABLE)
    } else if word == b"120000".as_slice() {
        Some(Mode::SYMLINK)
    } else if word == b"160000".as_slice() {
        Some(Mode::COMMIT)
    } else if word == b"040000".as_slice() {
        Some(Mode::DIR)
    } else {
        None
    }
}

fn parse_stage_word(word: &[u8]) -> Option<u8>
    ensures { result ≡ parse_stage_word word.now }
{
    match word {
        [digit @ b'0'..=b'3'] => Some(*digit - b'0'),
        _ => None,
    }
}

fn parse_flags_word(word: &[u8]) -> Option<Flags>
    ensures { result ≡ parse_flags_word word.now }
{
    if word == b"-".as_slice() {
        Some(Flags::empty())
    } else if word == b"u".as_slice() {
        Some(Flags::UPTODATE)
    } else if word == b"a".as_slice() {
        Some(Flags::ASSUME_VALID)
    } else if word == b"s".as_slice() {
        Some(Flags::SKIP_WORKTREE)
    } else {
        parse_flags_of_several_letters(word)
    }
}

/// The flags of a word of several letters.
fn parse_flags_of_several_letters(word: &[u8]) -> Option<Flags>
    ensures { result ≡ parse_flags_of_several_letters word.now }
{
    if word == b"ua".as_slice() {
        Some(Flags::UPTODATE.union(Flags::ASSUME_VALID))
    } else if word == b"us".as_slice() {
        Some(Flags::UPTODATE.union(Flags::SKIP_WORKTREE))
    } else if word == b"as".as_slice() {
        Some(Flags::ASSUME_VALID.union(Flags::SKIP_WORKTREE))
    } else if word == b"uas".as_slice() {
        Some(Flags::UPTODATE.union(Flags::ASSUME_VALID.union(Flags::SKIP_WORKTREE)))
    } else {
        None
    }
}

/// The id of a word: a dash for that of no object, or 40 hexadecimal digits. None for any other
/// word.
pub fn parse_id_word(word: &[u8]) -> Option<ObjectId>
    ensures { result ≡ parse_id_word word.now }
{
    if word == b"-".as_slice() {
        return Some(ObjectId::null());
    }
    ObjectId::from_hex(word).ok()
}

fn split_index_words(rest: &[u8]) -> Option<IndexWords<'_>>
    ensures { option_map index_words_of_borrowed result ≡ split_index_words rest.now }
{
    let Some(mode) = split_at_first_space(rest) else {
        return None;
    };
    let Some(stage) = split_at_first_space(mode.rest) else {
        return None;
    };
    let Some(flags) = split_at_first_space(stage.rest) else {
        return None;
    };
    let Some(id) = split_at_first_space(flags.rest) else {
        return None;
    };
    Some(IndexWords {
        mode: mode.word,
        stage: stage.word,
        flags: flags.word,
        id: id.word,
        path: id.rest,
    })
}

/// The entry that a line gives behind its keyword, which is `MODE STAGE FLAGS ID PATH`. None where
/// a word is missing, or says nothing.
pub fn parse_index_entry(alloc: Global, rest: &[u8]) -> Result<Option<IndexEntry>, OutOfMemory>
    ensures { IfOk result (λ entry. entry ≡ parse_index_entry rest.now) }
{
    match split_index_words(rest) {
        Some(words) => index_entry_from_words(alloc, words),
        None => Ok(None),
    }
}

/// What the words of an entry say.
///
/// See docs/DECISIONS.md#index-lines.
fn index_entry_from_words(
    alloc: Global,
    words: IndexWords<'_>,
) -> Result<Option<IndexEntry>, OutOfMemory>
    ensures { IfOk result (λ entry. entry ≡ index_entry_from_words (index_words_of_borrowed
        words.entry)) }
{
    let Some(mode) = parse_mode_word(words.mode) else {
        return Ok(None);
    };
    let Some(stage) = parse_stage_word(words.stage) else {
        return Ok(None);
    };
    let Some(flags) = parse_flags_word(words.flags) else {
        return Ok(None);
    };
    let Some(id) = parse_id_word(words.id) else {
        return Ok(None);
    };
    let Some(path) = unescape_path(alloc, words.path)? else {
        return Ok(None);
    };
    Ok(Some(IndexEntry {
        path,
        stage,
        mode,
        flags,
        id,
    }))
}
