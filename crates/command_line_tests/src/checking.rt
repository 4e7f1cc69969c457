//! What words ask of `check-ignore`. Which words git 2.39.5 takes was asked of it.
use bstr::ByteSlice;
use command_line::{
    CheckAsked, Command, Topic, Verb, help_text_of_topic, message_of_misuse, parse_request_words,
};
use gitbase_core::Bytes;
use std::alloc::Global;

/// Rows: the words, parted by `,`, and behind `>` the letters of what is asked, `i` for the index
/// that is left aside; then the paths, each behind a blank; or behind `!` the line of the word that
/// is wrong.
const ROWS: &[u8] = b"\
check-ignore>\n\
check-ignore,-q,a>q a\n\
check-ignore,-vn,a,b>vn a b\n\
check-ignore,a,--verbose,--non-matching,--no-index>vni a\n\
check-ignore,-v,-v,--no-verbose,a> a\n\
check-ignore,--quiet,--no-quiet,-n,--no-non-matching>\n\
check-ignore,--no-index,--index,a> a\n\
check-ignore,--no-index,--no-no-index,--no-index,a>i a\n\
check-ignore,--stdin,-z>sz\n\
check-ignore,--stdin,--no-stdin,-> -\n\
check-ignore,a,--,-v,--> a -v --\n\
check-ignore,-x>!error: unknown switch `x'\n\
check-ignore,-vqx>!error: unknown switch `x'\n\
check-ignore,--no-z>!error: unknown option `--no-z'\n\
check-ignore,--no-help>!error: unknown option `--no-help'\n\
check-ignore,--verb>!error: unknown option `--verb'\n\
check-ignore,--quiet=1>!error: option `--quiet=1' takes no value";

fn words_of(alloc: Global, text: &[u8]) -> Option<Vec<Bytes>> {
    let mut words = Vec::new(alloc);
    for word in text.split(|byte| *byte == b',') {
        words.push(Bytes::from_slice(alloc, word).ok()?).ok()?;
    }
    Some(words)
}

/// Whether a letter stands exactly where something is asked.
fn tells(letters: &[u8], letter: u8, asked: bool) -> bool {
    letters.contains(&letter) == asked
}

fn is_asked(asked: &CheckAsked, letters: &[u8]) -> bool {
    tells(letters, b'q', asked.checking.quiet)
        && tells(letters, b'v', asked.checking.verbose)
        && tells(letters, b'n', asked.checking.non_matching)
        && tells(letters, b's', asked.checking.stdin)
        && tells(letters, b'z', asked.checking.ends_in_nul)
        && tells(letters, b'i', asked.leaves_index)
}

/// Whether the paths are these, parted by blanks.
fn are_paths(paths: &[Bytes], want: &[u8]) -> bool {
    if want.is_empty() {
        return paths.is_empty();
    }
    let mut left = paths.iter();
    for path in want.split(|byte| *byte == b' ') {
        if left.next().map(|path| path.as_bytes()) != Some(path) {
            return false;
        }
    }
    left.next().is_none()
}

fn is_wanted(command: &Command, want: &[u8]) -> bool {
    let (letters, paths) = want.split_once_str(b" ").unwrap_or((want, b""));
    match command {
        Command::Check { asked, checking } => {
            is_asked(checking, letters) && are_paths(&asked.paths, paths) && !asked.prefers_current
        }
        _ => false,
    }
}

fn holds(alloc: Global, row: &[u8]) -> Option<bool> {
    let (words, want) = row.split_once_str(b">")?;
    let words = words_of(alloc, words)?;
    match parse_request_words(alloc, &words) {
        Ok(request) => Some(is_wanted(&request.command, want)),
        Err(misuse) => {
            let line = message_of_misuse(alloc, &misuse).ok()?;
            let wrong = want.strip_prefix(b"!".as_slice())?;
            let usage = b"usage: tizhagor [-C DIR] check-ignore";
            Some(line.as_bytes().starts_with(wrong) && line.as_bytes().contains_str(usage))
        }
    }
}

fn first_lie(alloc: Global) -> Option<&'static [u8]> {
    for row in ROWS.split(|byte| *byte == b'\n') {
        if holds(alloc, row) != Some(true) {
            return Some(row);
        }
    }
    None
}

#[test]
fn words_of_check_ignore_are_read(rt: HostRuntime) {
    let lie = first_lie(rt.alloc());
    assert!(rt; lie.is_none(), "{lie:?}");
}

#[test]
fn the_help_text_of_check_ignore_names_the_options(rt: HostRuntime) {
    let text = help_text_of_topic(Topic::Of(Verb::Check));
    let names = b"-v, --verbose,-n, --non-matching,-q, --quiet,--no-index,--index,-h, --help";
    let all = names
        .split(|byte| *byte == b',')
        .all(|name| text.contains_str(name));
    assert!(rt; all);
}
