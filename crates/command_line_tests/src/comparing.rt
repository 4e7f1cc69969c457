//! What words ask of `diff-files`. Which words git 2.39.5 takes was asked of it.
use bstr::ByteSlice;
use command_line::{
    Command, Comparing, Ignoring, Topic, Verb, help_text_of_topic, message_of_misuse,
    parse_request_words,
};
use gitbase_core::Bytes;
use std::alloc::Global;

/// Rows: the words, parted by `,`, and behind `>` the letters of what is asked, in the order of the
/// fields; then the paths, each behind a blank; or behind `!` the line of the word that is wrong.
const ROWS: &[u8] = b"\
diff-files>\n\
diff-files,-q,--raw>r\n\
diff-files,--name-only,-z>nz\n\
diff-files,--name-status,--raw>rs\n\
diff-files,--name-only,--name-status>ns\n\
diff-files,--exit-code,--quiet>eq\n\
diff-files,--exit-code,--quiet,--no-exit-code>q\n\
diff-files,--quiet,--no-quiet>\n\
diff-files,-z,--,a,-z,-->z a -z --\n\
diff-files,--ignore-submodules>a\n\
diff-files,--ignore-submodules=all,--ignore-submodules=none>o\n\
diff-files,--ignore-submodules=dirty,-q>o\n\
diff-files,--ignore-submodules=untracked,--ignore-submodules=all>a\n\
diff-files,--ignore-submodules=some>!error: option `--ignore-submodules=some' has a value that is not known\n\
diff-files,--no-ignore-submodules>!error: unknown option `--no-ignore-submodules'\n\
diff-files,--> \n\
diff-files,a>!error: `a' may be a revision; write `--' before paths\n\
diff-files,->!error: `-' may be a revision; write `--' before paths\n\
diff-files,-p>!error: switch `p' is git's, and is not answered here\n\
diff-files,-M50%>!error: switch `M' is git's, and is not answered here\n\
diff-files,-0>!error: switch `0' is git's, and is not answered here\n\
diff-files,--stat=80>!error: option `--stat=80' is git's, and is not answered here\n\
diff-files,--diff-filter=A>!error: option `--diff-filter=A' is git's, and is not answered here\n\
diff-files,--relative>!error: option `--relative' is git's, and is not answered here\n\
diff-files,--no-raw>!error: unknown option `--no-raw'\n\
diff-files,--name-on>!error: unknown option `--name-on'\n\
diff-files,--name-only=x>!error: option `--name-only=x' takes no value\n\
diff-files,-e>!error: unknown switch `e'";

fn words_of(alloc: Global, text: &[u8]) -> Option<Vec<Bytes>> {
    let mut words = Vec::new(alloc);
    for word in text.split(|byte| *byte == b',') {
        words.push(Bytes::from_slice(alloc, word).ok()?).ok()?;
    }
    Some(words)
}

/// Whether a letter stands exactly where something is asked.
fn tells(letters: &[u8], letter: u8, asked: bool) -> bool {
    letters.contains(&letter) == asked
}

fn is_asked(comparing: &Comparing, letters: &[u8]) -> bool {
    tells(letters, b'r', comparing.raw)
        && tells(letters, b'n', comparing.names)
        && tells(letters, b's', comparing.statuses)
        && tells(letters, b'z', comparing.ends_in_nul)
        && tells(letters, b'e', comparing.tells_changes)
        && tells(letters, b'q', comparing.is_quiet)
        && tells(letters, b'a', comparing.ignoring == Ignoring::All)
        && tells(letters, b'o', comparing.ignoring == Ignoring::Nothing)
}

/// Whether the paths are these, parted by blanks.
fn are_paths(paths: &[Bytes], want: &[u8]) -> bool {
    if want.is_empty() {
        return paths.is_empty();
    }
    let mut left = paths.iter();
    for path in want.split(|byte| *byte == b' ') {
        if left.next().map(|path| path.as_bytes()) != Some(path) {
            return false;
        }
    }
    left.next().is_none()
}

fn is_wanted(command: &Command, want: &[u8]) -> bool {
    let (letters, paths) = want.split_once_str(b" ").unwrap_or((want, b""));
    match command {
        Command::Compare { asked, comparing } => {
            is_asked(comparing, letters) && are_paths(&asked.paths, paths) && !asked.prefers_current
        }
        _ => false,
    }
}

fn holds(alloc: Global, row: &[u8]) -> Option<bool> {
    let (words, want) = row.split_once_str(b">")?;
    let words = words_of(alloc, words)?;
    match parse_request_words(alloc, &words) {
        Ok(request) => Some(is_wanted(&request.command, want)),
        Err(misuse) => {
            let line = message_of_misuse(alloc, &misuse).ok()?;
            let wrong = want.strip_prefix(b"!".as_slice())?;
            let usage = b"usage: tizhagor [-C DIR] diff-files";
            Some(line.as_bytes().starts_with(wrong) && line.as_bytes().contains_str(usage))
        }
    }
}

fn first_lie(alloc: Global) -> Option<&'static [u8]> {
    for row in ROWS.split(|byte| *byte == b'\n') {
        if holds(alloc, row) != Some(true) {
            return Some(row);
        }
    }
    None
}

#[test]
fn words_of_diff_files_are_read(rt: HostRuntime) {
    let lie = first_lie(rt.alloc());
    assert!(rt; lie.is_none(), "{lie:?}");
}

#[test]
fn the_help_text_names_the_options(rt: HostRuntime) {
    let text = help_text_of_topic(Topic::Of(Verb::Compare));
    let names =
        b"--raw ,--name-status ,--name-only ,  -z ,  -q ,--exit-code ,--quiet ,--ignore-submodules[,-h, --help";
    let all = names
        .split(|byte| *byte == b',')
        .all(|name| text.contains_str(name));
    assert!(rt; all);
}
