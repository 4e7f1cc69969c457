//! The words of the command line.
ghost use Rattle.std.specs.Prelude.{◌≡◌, ◌==◌, not, option_map, option_and_then};
ghost use Rattle.std.specs.List.{slice_split, list_all, list_any};
ghost use Rattle.worktree_fs.specs.Tree.{is_absolute};
ghost use Rattle.worktree_fs.specs.Paths.{is_dot_or_dot_dot};
ghost use Rattle.worktree_report.specs.Words.{is_absolute_without_dots, is_absolute_without_dots_or_nul, parse_digits_behind_number, number_if_within_file_count_limit, parse_file_count, words_behind_first_word, words_behind_composed, parse_generate_words, parse_root_and_setup_words, parse_places_of_command, parse_command_words};
ghost use Rattle.worktree_report.specs.Named.{command_of_borrowed, places_of_borrowed};

use crate::setup::depth::parse_decimal_digit;
use gitbase_core::Bytes;

/// The most files that a tree in memory is asked to have.
const FILE_LIMIT: usize = 100_000;

/// Where a command looks: both paths are absolute, and have no `.`, `..` and NUL.
#[derive(Clone, Copy, Debug)]
pub struct Places<'a> {
    /// The root of the work tree.
    pub root: &'a [u8],
    /// The path of the setup text.
    pub setup: &'a [u8],
}

/// What the words of the report ask for.
#[derive(Clone, Copy, Debug)]
pub enum Command<'a> {
    /// The report of a work tree, by a setup.
    Report(Places<'a>),
    /// How much there is to report of a tree of so many files in memory.
    Generate { count: usize },
}

/// Whether a path begins at the root.
fn begins_with_slash(path: &[u8]) -> bool
    ensures { result ≡ is_absolute path.now }
{
    matches!(path, [b'/', ..])
}

/// Whether a piece of a path is `.` or `..`.
fn is_dot_or_dot_dot(piece: &[u8]) -> bool
    ensures { result ≡ is_dot_or_dot_dot piece.now }
{
    piece == b".".as_slice() || piece == b"..".as_slice()
}

fn has_no_dot_components(path: &[u8]) -> bool
    ensures { result ≡ list_all (λ piece. not (is_dot_or_dot_dot piece)) (slice_split
        (λ b. b == 47) path.now) }
{
    path.split(|b| *b == b'/')
        .all(|piece| !is_dot_or_dot_dot(piece))
}

/// Whether a NUL is among bytes.
pub fn contains_nul_byte(path: &[u8]) -> bool
    ensures { result ≡ list_any (λ b. b == 0) path.now }
{
    path.iter().any(|b| *b == 0)
}

/// Whether a path is absolute, and has no `.` and `..` between its slashes.
pub fn is_absolute_without_dots(path: &[u8]) -> bool
    ensures { result ≡ is_absolute_without_dots path.now }
{
    begins_with_slash(path) && has_no_dot_components(path)
}

/// The same of one without NUL.
pub fn is_absolute_without_dots_or_nul(path: &[u8]) -> bool
    ensures { result ≡ is_absolute_without_dots_or_nul path.now }
{
    is_absolute_without_dots(path) && !contains_nul_byte(path)
}

/// The number that digits write, up to the limit. None where a byte is no digit.
fn parse_number_up_to_limit(digits: &[u8]) -> Option<usize>
    ensures { result ≡ option_and_then number_if_within_file_count_limit (parse_digits_behind_number
        0 digits.now) }
{
    let mut number = 0;
    for byte in digits {
        let Some(digit) = parse_decimal_digit(*byte) else {
            return None;
        };
        number = 10 * number + digit;
        if number > FILE_LIMIT {
            return None;
        }
    }
    Some(number)
}

/// The number of files that a word gives. None where it gives none.
fn parse_file_count(word: &[u8]) -> Option<usize>
    ensures { result ≡ parse_file_count word.now }
{
    match word {
        [] | [b'0', ..] => None,
        _ => parse_number_up_to_limit(word),
    }
}

/// The words behind a first word. None where that is another one, or where there is none.
pub fn words_behind_first_word<'a>(name: &[u8], words: &'a [Bytes]) -> Option<&'a [Bytes]>
    ensures { option_map (λ rest. rest.now) result ≡ words_behind_first_word name.now words.now }
{
    let Some((word, rest)) = words.split_first() else {
        return None;
    };
    if word.as_bytes() != name {
        return None;
    }
    Some(rest)
}

/// The words of a command, over a worktree that composes names or not: those behind `composed`
/// where it does, else all. None where it does and the first word is not `composed`.
pub fn words_behind_composed(composes: bool, words: &[Bytes]) -> Option<&[Bytes]>
    ensures { option_map (λ rest. rest.now) result ≡ words_behind_composed composes words.now }
{
    if composes {
        words_behind_first_word(b"composed", words)
    } else {
        Some(words)
    }
}

/// ROOT and SETUP: two absolute paths without `.`, `..` and NUL. None for any other words.
pub fn parse_root_and_setup_words(words: &[Bytes]) -> Option<Places<'_>>
    ensures { option_map places_of_borrowed result ≡ parse_root_and_setup_words words.now }
{
    if words.len() != 2 {
        return None;
    }
    let root = words[0].as_bytes();
    let setup = words[1].as_bytes();
    if !is_absolute_without_dots_or_nul(root) || !is_absolute_without_dots_or_nul(setup) {
        return None;
    }
    Some(Places { root, setup })
}

/// The places that a command of this name is to look at, over a worktree that composes names or
/// not: its words are the name, ROOT and SETUP, with `composed` before them exactly where the
/// worktree composes names. None for any other words.
#[tactic(auto, unfolding(crate::specs::Words::parse_places_of_command))]
pub fn parse_places_of_command<'a>(
    name: &[u8],
    composes: bool,
    words: &'a [Bytes],
) -> Option<Places<'a>>
    ensures { option_map places_of_borrowed result ≡ parse_places_of_command name.now composes
        words.now }
{
    parse_root_and_setup_words(words_behind_first_word(
        name,
        words_behind_composed(composes, words)?,
    )?)
}

/// The number of files that is asked for by `generate N`.
fn parse_generate_words(words: &[Bytes]) -> Option<usize>
    ensures { result ≡ parse_generate_words words.now }
{
    if words.len() != 2 || words[0].as_bytes() != b"generate".as_slice() {
        return None;
    }
    parse_file_count(words[1].as_bytes())
}

/// What the words ask for, over a worktree that composes names or not: `generate N`, or `report
/// ROOT SETUP` with two plain paths, with `composed` before it exactly where the worktree composes
/// names. None for any other words.
///
/// See docs/DECISIONS.md#composed-word.
/// See docs/DECISIONS.md#no-guesses.
#[tactic(auto, unfolding(crate::specs::Words::parse_command_words))]
pub fn parse_command_words(composes: bool, words: &[Bytes]) -> Option<Command<'_>>
    ensures { option_map command_of_borrowed result ≡ parse_command_words composes words.now }
{
    if let Some(count) = parse_generate_words(words) {
        return Some(Command::Generate { count });
    }
    Some(Command::Report(parse_places_of_command(b"report", composes, words)?))
}
