//! One line in the form that is asked for.
ghost use Rattle.std.specs.Prelude.{◌≡◌, ◌==◌, ◌<◌, ◌++◌, length, position, IfSome, OnOk};
ghost use Rattle.command_line.specs.Rows as rows;

use crate::form::{LineEnd, Style, Wording};
use crate::unspelled::append_unescaped_path;
use gitbase_core::OutOfMemory;

/// The place of the first byte of a value.
fn index_of_first_byte(value: u8, bytes: &[u8]) -> Option<usize>
    ensures place { result ≡ position (λ b. b == value) bytes.now }
    ensures within { IfSome result (λ place. place < length bytes.now) }
{
    bytes.iter().position(|b| *b == value)
}

/// What stands before the first space, or all where there is none.
fn first_word(words: &[u8]) -> &[u8]
    ensures { result.now ≡ rows.first_word words.now }
{
    match index_of_first_byte(b' ', words) {
        Some(place) => {
            let (word, _) = words.split_at(place);
            word
        }
        None => words,
    }
}

/// What stands behind the first space, or nothing where there is none.
fn text_after_first_space(words: &[u8]) -> &[u8]
    ensures { result.now ≡ rows.text_after_first_space words.now }
{
    match index_of_first_byte(b' ', words) {
        Some(place) => {
            let (_, rest) = words.split_at(place + 1);
            rest
        }
        None => b"",
    }
}

/// The two letters of a status; another word stands for itself.
fn status_letters(status: &[u8]) -> &[u8]
    ensures { result.now ≡ rows.status_letters status.now }
{
    if status == b"untracked".as_slice() {
        b"??"
    } else if status == b"ignored".as_slice() {
        b"!!"
    } else if status == b"precious".as_slice() {
        b"$$"
    } else if status == b"tracked".as_slice() {
        b"  "
    } else if status == b"pruned".as_slice() {
        b"--"
    } else {
        status
    }
}

/// What a terminal is sent before a line of a status; nothing for another word.
fn color_escape_of_status(status: &[u8]) -> &'static [u8]
    ensures { result.now ≡ rows.color_escape_of_status status.now }
{
    if status == b"untracked".as_slice() {
        b"\x1b[31m"
    } else if status == b"ignored".as_slice() {
        b"\x1b[33m"
    } else if status == b"precious".as_slice() {
        b"\x1b[35m"
    } else if status == b"tracked".as_slice() {
        b"\x1b[32m"
    } else if status == b"pruned".as_slice() {
        b"\x1b[90m"
    } else {
        b""
    }
}

/// What it is sent before a line where lines are coloured.
fn color_escape_if_colored(is_colored: bool, status: &[u8]) -> &'static [u8]
    ensures { result.now ≡ rows.color_escape_if_colored is_colored status.now }
{
    if is_colored {
        color_escape_of_status(status)
    } else {
        b""
    }
}

/// What it is sent behind a line that it was sent something before.
fn color_reset_if_opened(opening: &[u8]) -> &'static [u8]
    ensures { result.now ≡ rows.color_reset_if_opened opening.now }
{
    if opening.is_empty() { b"" } else { b"\x1b[0m" }
}

/// The slash behind what holds other paths.
fn slash_for_directory_or_repository(disk: &[u8]) -> &'static [u8]
    ensures { result.now ≡ rows.slash_for_directory_or_repository disk.now }
{
    if disk == b"directory".as_slice() || disk == b"repository".as_slice() {
        b"/"
    } else {
        b""
    }
}

/// Adds a path: escaped as it is in the text, or as it is on disk.
pub fn append_path_unescaped_if_nul_end(
    text: &mut Vec<u8>,
    end: LineEnd,
    path: &[u8],
) -> Result<(), OutOfMemory>
    ensures { OnOk result (text.new.items ≡ text.old.items ++ rows.path_unescaped_if_nul_end end
        path.now) }
{
    match end {
        LineEnd::Feed => text.extend_from_slice(path)?,
        LineEnd::Nul => append_unescaped_path(text, path)?,
    }
    Ok(())
}

/// Adds the words of a line and its path.
fn append_words_tab_path(
    text: &mut Vec<u8>,
    end: LineEnd,
    words: &[u8],
    path: &[u8],
) -> Result<(), OutOfMemory>
    ensures { OnOk result (text.new.items ≡ text.old.items ++ rows.words_tab_path end words.now
        path.now) }
{
    text.extend_from_slice(words)?;
    text.push(b'\t')?;
    append_path_unescaped_if_nul_end(text, end, path)?;
    Ok(())
}

/// Adds the letters of a line and its path.
fn append_status_letters_and_path(
    text: &mut Vec<u8>,
    end: LineEnd,
    words: &[u8],
    path: &[u8],
) -> Result<(), OutOfMemory>
    ensures { OnOk result (text.new.items ≡ text.old.items ++ rows.status_letters_space_path end
        words.now path.now) }
{
    text.extend_from_slice(status_letters(first_word(words)))?;
    text.push(b' ')?;
    append_path_unescaped_if_nul_end(text, end, path)?;
    text.extend_from_slice(slash_for_directory_or_repository(first_word(text_after_first_space(
        words,
    ))))?;
    Ok(())
}

fn append_uncolored_styled_line(
    text: &mut Vec<u8>,
    style: Style,
    words: &[u8],
    path: &[u8],
) -> Result<(), OutOfMemory>
    ensures { OnOk result (text.new.items ≡ text.old.items ++ rows.uncolored_styled_line style
        words.now path.now) }
{
    match style.wording {
        Wording::Words => append_words_tab_path(text, style.end, words, path)?,
        Wording::Letters => append_status_letters_and_path(text, style.end, words, path)?,
    }
    Ok(())
}

/// Adds a line of words and a path, in its colour.
fn append_row_colored_if_style_says(
    text: &mut Vec<u8>,
    style: Style,
    words: &[u8],
    path: &[u8],
) -> Result<(), OutOfMemory>
    ensures { OnOk result (text.new.items ≡ text.old.items ++ rows.row_colored_if_style_says style
        words.now path.now) }
{
    let opening = color_escape_if_colored(style.is_colored, first_word(words));
    text.extend_from_slice(opening)?;
    append_uncolored_styled_line(text, style, words, path)?;
    text.extend_from_slice(color_reset_if_opened(opening))?;
    Ok(())
}

/// Adds a line of a report without its end: one that begins with `# ` stays, and so does one
/// without a tab.
pub fn append_styled_line(text: &mut Vec<u8>, style: Style, line: &[u8]) -> Result<(), OutOfMemory>
    ensures { OnOk result (text.new.items ≡ text.old.items ++ rows.line style line.now) }
{
    if line.starts_with(b"# ") {
        text.extend_from_slice(line)?;
        return Ok(());
    }
    match index_of_first_byte(b'\t', line) {
        Some(place) => {
            let (words, _) = line.split_at(place);
            let (_, path) = line.split_at(place + 1);
            append_row_colored_if_style_says(text, style, words, path)?;
        }
        None => text.extend_from_slice(line)?,
    }
    Ok(())
}

/// Adds the end of a line.
pub fn append_line_end(text: &mut Vec<u8>, end: LineEnd) -> Result<(), OutOfMemory>
    ensures { OnOk result (text.new.items ≡ text.old.items ++ rows.line_end_byte end) }
{
    match end {
        LineEnd::Feed => text.push(b'\n')?,
        LineEnd::Nul => text.push(0)?,
    }
    Ok(())
}
