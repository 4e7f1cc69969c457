//! Lists of entries, and what an index says of a path.
ghost use Rattle.gitbase_core.specs.Lookup.{IsCaseFoldedLookupOfEntries};

use gitbase_core::{
    AccelerateLookup, EntryKind, Flags, IndexEntry, IndexError, IndexKinds, Mode, ObjectId,
    PathText, State,
};
use std::alloc::Global;
use test_cases::split_at_byte;

/// Rows, parted by bars: what is asked, of what, and what is wanted, parted by backquotes. An entry
/// is its path, then behind a colon a digit for its stage, a letter for its mode and letters for
/// its flags. What an index says of a path is a letter for the kind that it vouches for, one for
/// the kind, and whether the sparse worktree leaves it out.
const ROWS: &[u8] = b"\
refused`b:0f,a:0f`not ascending 1|\
refused`a:0f,a:2f`stage 1|\
refused`a:2f,a:2f`not ascending 1|\
refused`a:4f,b:0f`stage 0|\
refused`a:0f,:0f`path 1|\
refused`/a:0f,b:0f`path 0|\
refused`a//b:0f,b:0f`path 0|\
refused`a:0f,b/:0f`mode 1|\
refused`a:0d,b:0f`mode 0|\
grown`a:0f,b:0f,b/:0d`b|\
says``---|\
says`a`ff-|\
says`b`---|\
says`c`-f-|\
says`d`dd-|\
says`d/x`-f-|\
says`d0`ll-|\
says`m`-r-|\
says`o`-d-|\
says`s`-dx|\
says`t`-dx|\
says`t/`---|\
says`u`dd-|\
says in d`x`-f-|\
says in d`y`ff-|\
says in d`z`---|\
says folded`A`ff-|\
says folded`a`ff-|\
says folded`b`-d-|\
says folded`b/A`ff-|\
says folded`B/Z`-f-|\
says folded`d`dd-|\
says folded`D`ff-|\
says folded`m`rr-|\
says folded`T`-d-|\
says folded`T/`---|\
says folded``---|\
says folded`zz`---|\
first folded`B/A`b/a|\
first folded`e`E|\
first beneath`b`B/z";

/// The entries of the rows that ask an index.
const ENTRIES: &[u8] =
    b"a:0fu,c:1f,c:3xu,d/x:0f,d/y:0fu,d0:0la,m:0c,o/x:0fs,s/x:0fs,s/y:0fs,t/:0d,u/:0du";

/// Those of the rows that ask without regard to case.
const FOLDED: &[u8] = b"B/z:0f,D:0fu,E:0f,M:0ca,a:0fu,b/a:0fu,d/x:0fa,e:0f,m/x:0fu,t/:0d";

fn mode_of(letter: u8) -> Mode {
    match letter {
        b'x' => Mode::FILE_EXECUTABLE,
        b'l' => Mode::SYMLINK,
        b'c' => Mode::COMMIT,
        b'd' => Mode::DIR,
        _ => Mode::FILE,
    }
}

fn flags_of(letters: &[u8]) -> Flags {
    match letters {
        b"u" => Flags::UPTODATE,
        b"a" => Flags::ASSUME_VALID,
        b"s" => Flags::SKIP_WORKTREE,
        _ => Flags::empty(),
    }
}

fn entry_of(alloc: Global, text: &[u8]) -> Option<IndexEntry> {
    let end = text.iter().position(|byte| *byte == b':')?;
    let (path, rest) = text.split_at(end);
    let [_, stage, mode, flags @ ..] = rest else {
        return None;
    };
    let path = PathText::from_bytes(alloc, path).ok()?;
    Some(IndexEntry {
        path,
        stage: stage.wrapping_sub(b'0'),
        mode: mode_of(*mode),
        flags: flags_of(flags),
        id: ObjectId::null(),
    })
}

fn add(alloc: Global, entries: &mut Vec<IndexEntry>, text: &[u8]) -> bool {
    match entry_of(alloc, text) {
        Some(entry) => entries.push(entry).is_ok(),
        None => false,
    }
}

fn entries_of(alloc: Global, texts: &[u8]) -> Option<Vec<IndexEntry>> {
    let mut entries = Vec::new(alloc);
    for text in texts.split(|byte| *byte == b',') {
        if !add(alloc, &mut entries, text) {
            return None;
        }
    }
    Some(entries)
}

fn is_error(error: IndexError, why: &[u8]) -> bool {
    match error {
        IndexError::Path { at: 0 } => why == b"path 0".as_slice(),
        IndexError::Path { at: 1 } => why == b"path 1".as_slice(),
        IndexError::ModePath { at: 0 } => why == b"mode 0".as_slice(),
        IndexError::ModePath { at: 1 } => why == b"mode 1".as_slice(),
        IndexError::NotAscending { at: 1 } => why == b"not ascending 1".as_slice(),
        IndexError::Stage { at: 0 } => why == b"stage 0".as_slice(),
        IndexError::Stage { at: 1 } => why == b"stage 1".as_slice(),
        _ => false,
    }
}

fn is_refused(alloc: Global, texts: &[u8], why: &[u8]) -> bool {
    let Some(entries) = entries_of(alloc, texts) else {
        return false;
    };
    match State::from_entries(entries) {
        Ok(_) => false,
        Err(error) => is_error(error, why),
    }
}

/// Puts an entry behind those that are there, if it may stand there.
fn push(alloc: Global, state: &mut State, entry: IndexEntry) -> bool {
    state.error_if_entry_were_pushed(&entry).is_none() && state.push(alloc, entry).is_ok()
}

/// Whether an index takes entries one by one, up to the last one's path.
fn is_grown(alloc: Global, texts: &[u8], last: &[u8]) -> bool {
    let mut state = State::new(alloc);
    for text in texts.split(|byte| *byte == b',') {
        let Some(entry) = entry_of(alloc, text) else {
            return false;
        };
        if !push(alloc, &mut state, entry) {
            return false;
        }
    }
    state.entry_by_path(last).is_some()
}

fn index_of(alloc: Global, texts: &[u8]) -> Option<State> {
    match entries_of(alloc, texts) {
        Some(entries) => State::from_entries(entries).ok(),
        None => None,
    }
}

fn letter_of(kind: Option<EntryKind>) -> u8 {
    match kind {
        Some(EntryKind::Repository) => b'r',
        Some(EntryKind::File) => b'f',
        Some(EntryKind::Symlink) => b'l',
        Some(EntryKind::Directory) => b'd',
        None => b'-',
    }
}

fn are(kinds: IndexKinds, want: &[u8]) -> bool {
    match want {
        [up_to_date, kind, left_out] => {
            letter_of(kinds.up_to_date) == *up_to_date
                && letter_of(kinds.kind) == *kind
                && kinds.is_left_out == (*left_out == b'x')
        }
        _ => false,
    }
}

fn says(state: &State, question: &[u8], path: &[u8], want: &[u8]) -> bool {
    match question {
        b"says" => are(state.kinds(path), want),
        b"says in d" => are(state.entries_beneath_directory(b"d").kinds(path), want),
        _ => false,
    }
}

fn is_at(entry: Option<&IndexEntry>, path: &[u8]) -> bool {
    match entry {
        Some(entry) => entry.path.as_bytes() == path,
        None => false,
    }
}

fn says_folded(
    state: &State,
    lookup: &AccelerateLookup,
    question: &[u8],
    path: &[u8],
    want: &[u8],
) -> bool
    requires { IsCaseFoldedLookupOfEntries state.now lookup.now }
{
    match question {
        b"says folded" => are(state.index_kinds_of_path_icase(path, lookup), want),
        b"first folded" => {
            is_at(state.entry_by_path_icase(path, lookup), want)
                && state.has_entry_at_path_icase(path, lookup)
                && !state.has_entry_at_path_icase(b"none of them", lookup)
        }
        b"first beneath" => {
            is_at(
                state.entry_closest_to_directory_or_directory_icase(path, lookup),
                want,
            ) && state.has_entry_beneath_directory_icase(path, lookup)
                && !state.has_entry_beneath_directory_icase(b"none of them", lookup)
        }
        _ => false,
    }
}

fn of_index(alloc: Global, question: &[u8], path: &[u8], want: &[u8]) -> bool {
    match index_of(alloc, ENTRIES) {
        Some(state) => says(&state, question, path, want),
        None => false,
    }
}

fn of_folded(alloc: Global, question: &[u8], path: &[u8], want: &[u8]) -> bool {
    let Some(state) = index_of(alloc, FOLDED) else {
        return false;
    };
    match AccelerateLookup::from_state(alloc, &state) {
        Ok(lookup) => says_folded(&state, &lookup, question, path, want),
        Err(_) => false,
    }
}

fn holds(alloc: Global, row: &[u8]) -> bool {
    let (question, rest) = split_at_byte(row, b'`');
    let (about, want) = split_at_byte(rest, b'`');
    match question {
        b"refused" => is_refused(alloc, about, want),
        b"grown" => is_grown(alloc, about, want),
        b"says" | b"says in d" => of_index(alloc, question, about, want),
        _ => of_folded(alloc, question, about, want),
    }
}

#[test]
fn flags_intersect(rt: HostRuntime) {
    let both = Flags::UPTODATE.union(Flags::SKIP_WORKTREE);
    assert!(rt; both.intersects(Flags::SKIP_WORKTREE.union(Flags::ASSUME_VALID)));
    assert!(rt; !both.intersects(Flags::ASSUME_VALID));
}

#[test]
fn lists_and_what_an_index_says(rt: HostRuntime) {
    for row in ROWS.split(|byte| *byte == b'|') {
        assert!(rt; holds(rt.alloc(), row), "{row:?}");
    }
}
