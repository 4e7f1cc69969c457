//! Words that ask for nothing.
ghost use Rattle.std.specs.Prelude.{◌≡◌, ◌++◌, IfOk, OnOk};
ghost use Rattle.command_line.specs.Misuses as misuses;

use crate::help::usage_line_of_topic;
use crate::verb::Topic;
use gitbase_core::{Bytes, OutOfMemory};
use std::alloc::Global;
use thiserror::Error;
use worktree_report::append_path_escaped;

/// What is wrong with a word.
#[derive(Clone, Copy, Debug, PartialEq, Eq)]
pub enum Wrong {
    /// No command stands among the words.
    NoCommand,
    /// The word stands in the place of a command, and is none.
    UnknownCommand,
    /// The command has no such option.
    UnknownOption,
    /// The command has no option of this letter.
    UnknownSwitch {
        /// The letter.
        letter: u8,
    },
    /// The option needs a value, and has none.
    NoValue,
    /// The option of this letter needs a value, and has none.
    NoSwitchValue {
        /// The letter.
        letter: u8,
    },
    /// The option has a value, and takes none.
    TakesNoValue,
    /// The option has no such value.
    UnknownValue,
    /// The word is to be a depth, and is no number from 0 to 1000.
    NotADepth,
    /// The directory is said twice.
    SecondDirectory,
    /// The command takes no paths, and the word is one.
    Paths,
    /// The pattern cannot stand as a line of a rules file.
    Pattern,
    /// The word stands before `--`, and may be a revision.
    Undashed,
    /// The option is git's, and is not answered here.
    Left,
    /// The option of this letter is git's, and is not answered here.
    LeftSwitch {
        /// The letter.
        letter: u8,
    },
}

/// Why words ask for nothing.
#[derive(Debug, Drop, Error)]
pub enum Misuse {
    /// A word is wrong.
    #[error("Word")]
    Word {
        /// What is asked for so far.
        topic: Topic,
        /// What is wrong.
        wrong: Wrong,
        /// The word.
        word: Bytes,
    },
    /// Want of memory.
    #[error("OutOfMemory")]
    OutOfMemory,
}

impl From<OutOfMemory> for Misuse {
    ghost use Rattle.std.specs.Prelude.{◌≡◌};
    ghost use Rattle.command_line.specs.declared.misuse.Misuse.TheVariants as refused;

    ghost from_gives = { λ _ misuse. misuse ≡ refused.OutOfMemory };

    fn from(_refused: OutOfMemory) -> Misuse {
        Misuse::OutOfMemory
    }
}

/// What stands before the word in the line of a misuse.
fn error_text_before_wrong_word(wrong: Wrong) -> &'static [u8]
    ensures { result.now ≡ misuses.error_text_before_wrong_word wrong }
{
    match wrong {
        Wrong::NoCommand => b"error: no command is given",
        Wrong::UnknownCommand => b"error: unknown command `",
        Wrong::UnknownOption => b"error: unknown option `",
        Wrong::UnknownSwitch { letter: _ } => b"error: unknown switch `",
        Wrong::NoValue
        | Wrong::TakesNoValue
        | Wrong::UnknownValue
        | Wrong::SecondDirectory
        | Wrong::Left => b"error: option `",
        Wrong::NoSwitchValue { letter: _ } | Wrong::LeftSwitch { letter: _ } => b"error: switch `",
        Wrong::NotADepth | Wrong::Paths | Wrong::Undashed => b"error: `",
        Wrong::Pattern => b"error: the pattern in `",
    }
}

/// What stands behind it.
fn error_text_after_wrong_word(wrong: Wrong) -> &'static [u8]
    ensures { result.now ≡ misuses.error_text_after_wrong_word wrong }
{
    match wrong {
        Wrong::NoCommand => b"\n",
        Wrong::UnknownCommand | Wrong::UnknownOption | Wrong::UnknownSwitch { letter: _ } => b"'\n",
        Wrong::NoValue | Wrong::NoSwitchValue { letter: _ } => b"' requires a value\n",
        Wrong::TakesNoValue => b"' takes no value\n",
        Wrong::UnknownValue => b"' has a value that is not known\n",
        Wrong::NotADepth => b"' is no depth, which is a number from 0 to 1000\n",
        Wrong::SecondDirectory => b"' stands more than once\n",
        Wrong::Paths => b"' is a path, and this command takes none\n",
        Wrong::Undashed => b"' may be a revision; write `--' before paths\n",
        Wrong::Pattern => b"' has a line feed, or a blank or carriage return at its end\n",
        Wrong::Left | Wrong::LeftSwitch { letter: _ } => {
            b"' is git's, and is not answered here\n"
        }
    }
}

/// Adds what is wrong: the word, or the letter in it.
fn append_wrong_word_or_letter(
    text: &mut Vec<u8>,
    wrong: Wrong,
    word: &[u8],
) -> Result<(), OutOfMemory>
    ensures { OnOk result (text.new.items ≡ text.old.items ++ misuses.escaped_wrong_word_or_letter
        wrong word.now) }
{
    match wrong {
        Wrong::UnknownSwitch { letter }
        | Wrong::NoSwitchValue { letter }
        | Wrong::LeftSwitch { letter } => append_path_escaped(text, &[letter])?,
        _ => append_path_escaped(text, word)?,
    }
    Ok(())
}

/// The line of a word that is wrong, and the usage.
fn message_and_usage_of_wrong_word(
    alloc: Global,
    topic: Topic,
    wrong: Wrong,
    word: &[u8],
) -> Result<Bytes, OutOfMemory>
    ensures { IfOk result (λ text. text ≡ misuses.message_and_usage_of_wrong_word topic wrong
        word.now) }
{
    let mut text = Vec::new(alloc);
    text.extend_from_slice(error_text_before_wrong_word(wrong))?;
    append_wrong_word_or_letter(&mut text, wrong, word)?;
    text.extend_from_slice(error_text_after_wrong_word(wrong))?;
    text.extend_from_slice(usage_line_of_topic(topic))?;
    Ok(Bytes::from_vec(text))
}

/// What is said of words that ask for nothing, on standard error: a line that names the word that
/// is wrong, and the usage.
///
/// # Errors
///
/// Memory was refused.
pub fn message_of_misuse(alloc: Global, misuse: &Misuse) -> Result<Bytes, OutOfMemory>
    ensures { IfOk result (λ text. text ≡ misuses.message_of_misuse misuse.now) }
{
    match misuse {
        Misuse::Word { topic, wrong, word } => message_and_usage_of_wrong_word(
            alloc,
            *topic,
            *wrong,
            word.as_bytes(),
        ),
        Misuse::OutOfMemory => Bytes::from_slice(alloc, b"fatal: out of memory\n"),
    }
}
