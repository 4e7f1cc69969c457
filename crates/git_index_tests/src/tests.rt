//! Each row of the tables is read or refused as it says.
use crate::files::{DESCENDING, FILES, PROMISED, REFUSED, SPARSE};
use bstr::ByteSlice;
use git_index::{Detail, IndexFile, IndexFileError, Stat, Time, read_index};
use gitbase_core::{Flags, IndexEntry, IndexError, State};
use std::alloc::Global;
use test_cases::split_at_byte;

/// What git saw of the first file of each index.
const STAT: Stat = Stat {
    ctime: TIME,
    mtime: TIME,
    dev: 65024,
    ino: 11_067_758,
    uid: 0,
    gid: 0,
    size: 1,
};

const TIME: Time = Time {
    seconds: 1_795_935_605,
    nanoseconds: 704_299_445,
};

/// The file of these digits.
fn file_of(alloc: Global, digits: &[u8]) -> Option<IndexFile> {
    let bytes = hex::decode(alloc, digits).ok()?;
    read_index(alloc, &bytes).ok()
}

/// Why the file of these digits is refused.
fn refusal_of(alloc: Global, digits: &[u8]) -> Option<IndexFileError> {
    let bytes = hex::decode(alloc, digits).ok()?;
    read_index(alloc, &bytes).err()
}

/// Whether an entry is what its letter says.
fn is_lettered(entry: &IndexEntry, detail: &Detail, letter: u8) -> bool {
    let flags = match letter {
        b'S' => Flags::SKIP_WORKTREE,
        b'h' => Flags::ASSUME_VALID,
        _ => Flags::empty(),
    };
    entry.flags == flags && detail.intent_to_add == (letter == b'N')
}

/// Whether the entries are what their letters say.
fn are_lettered(file: &IndexFile, letters: &[u8]) -> bool {
    let both = file.entries().iter().zip(file.details());
    file.entries().len() == letters.len()
        && both.zip(letters).all(|((entry, detail), letter)| is_lettered(entry, detail, *letter))
}

/// Whether the entries have these paths.
fn have_paths(file: &IndexFile, paths: &[u8]) -> bool {
    let wanted = paths.split(|byte| *byte == b',');
    file.entries()
        .iter()
        .zip(wanted)
        .all(|(entry, path)| entry.path.as_bytes() == path)
}

/// Whether a row is read as it says.
fn is_read(alloc: Global, row: &[u8]) -> bool {
    let (letters, rest) = split_at_byte(row, b' ');
    let (paths, digits) = split_at_byte(rest, b' ');
    match file_of(alloc, digits) {
        Some(file) => {
            are_lettered(&file, letters)
                && have_paths(&file, paths)
                && file.details().first().map(|detail| detail.stat) == Some(STAT)
                && !file.is_sparse()
        }
        None => false,
    }
}

/// Whether a row is refused as it says.
fn is_refused(alloc: Global, row: &[u8]) -> bool {
    let (said, digits) = split_at_byte(row, b' ');
    match refusal_of(alloc, digits) {
        Some(error) => match format!(in alloc; "{error}") {
            Ok(text) => text.as_bytes() == said,
            Err(_) => false,
        },
        None => false,
    }
}

/// Whether the entries of a file are an index.
fn state_of(alloc: Global, digits: &[u8]) -> Option<Result<State, IndexError>> {
    let (entries, _) = file_of(alloc, digits)?.into_parts();
    Some(State::from_entries(entries))
}

#[test]
fn files_of_git_are_read(rt: HostRuntime) {
    for row in FILES.lines() {
        assert!(rt; is_read(rt.alloc(), row), "{}", row.as_bstr());
    }
}

#[test]
fn each_refusal_names_its_variant(rt: HostRuntime) {
    for row in REFUSED.lines() {
        assert!(rt; is_refused(rt.alloc(), row), "{}", row.as_bstr());
    }
}

#[test]
fn entries_that_are_no_index_keep_their_number(rt: HostRuntime) {
    let refused = match state_of(rt.alloc(), DESCENDING) {
        Some(Err(error)) => error == IndexError::NotAscending { at: 1 },
        _ => false,
    };
    assert!(rt; refused);
}

#[test]
fn the_count_is_not_believed(rt: HostRuntime) {
    let refused = refusal_of(rt.alloc(), PROMISED) == Some(IndexFileError::Entry { at: 0 });
    assert!(rt; refused);
}

#[test]
fn a_marked_index_is_sparse(rt: HostRuntime) {
    let is_sparse = match file_of(rt.alloc(), SPARSE) {
        Some(file) => file.is_sparse(),
        None => false,
    };
    assert!(rt; is_sparse);
}
