//! The words of a command, one after the other.
ghost use Rattle.std.specs.Prelude.{◌≡◌, IfOk};
ghost use Rattle.command_line.specs.Readings as readings;

use crate::draft::{Draft, default_draft};
use crate::misuse::Wrong;
use crate::rules_given::RulesGiven;
use crate::step::{Next, Step, step_of_word};
use crate::verb::Verb;
use gitbase_core::{Bytes, OutOfMemory};
use std::alloc::Global;

/// What the words of a command say together.
#[derive(Debug, Drop)]
pub enum Read {
    /// What the options say, the paths as they are written, and the rules.
    Said(Draft, Vec<Bytes>, RulesGiven),
    /// The first word that is wrong, and how.
    Wrong(Wrong, Bytes),
}

/// What the words say where there are no more: an option may want a value still.
fn finish_reading_or_missing_value(
    alloc: Global,
    draft: Draft,
    next: Next,
    paths: Vec<Bytes>,
    rules: RulesGiven,
) -> Result<Read, OutOfMemory>
    ensures { IfOk result (λ read. readings.seen read ≡ readings.finish_reading_or_missing_value
        draft next paths.items rules) }
{
    match next {
        Next::Any | Next::Paths => Ok(Read::Said(draft, paths, rules)),
        Next::Depth => Ok(Read::Wrong(Wrong::NoValue, Bytes::from_slice(alloc, b"--depth")?)),
        Next::Pattern => Ok(Read::Wrong(Wrong::NoValue, Bytes::from_slice(alloc, b"--exclude")?)),
        Next::File => {
            Ok(Read::Wrong(Wrong::NoValue, Bytes::from_slice(alloc, b"--exclude-from")?))
        }
        Next::LetterPattern { letter } | Next::LetterFile { letter } => {
            let word = Bytes::from_slice(alloc, &[b'-', letter])?;
            Ok(Read::Wrong(Wrong::NoSwitchValue { letter }, word))
        }
    }
}

/// What the words of a command say together.
#[tactic(auto, unfolding(crate::specs::Readings::read_remaining_words))]
pub fn read_command_words(alloc: Global, verb: Verb, words: &[Bytes]) -> Result<Read, OutOfMemory>
    ensures { IfOk result (λ read. readings.seen read ≡ readings.read_command_words verb
        words.now) }
{
    let mut draft = default_draft();
    let mut next = Next::Any;
    let mut paths = Vec::new(alloc);
    let mut rules = RulesGiven::new(alloc);
    let mut rest = words;
    while let Some((word, after)) = rest.split_first() {
        match step_of_word(verb, next, word.as_bytes(), draft) {
            Step::Said(now, then) => {
                draft = now;
                next = then;
            }
            Step::Path => paths.push(Bytes::from_slice(alloc, word.as_bytes())?)?,
            Step::Rules(now, ruling) => {
                draft = now;
                next = Next::Any;
                rules = rules.with_ruling_of_word(alloc, ruling, word.as_bytes())?;
            }
            Step::Wrong(wrong) => {
                return Ok(Read::Wrong(wrong, Bytes::from_slice(alloc, word.as_bytes())?));
            }
        }
        rest = after;
    }
    finish_reading_or_missing_value(alloc, draft, next, paths, rules)
}
