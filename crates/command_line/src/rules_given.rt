//! The ignore rules that words give.
ghost use Rattle.std.specs.Prelude.{◌≡◌, ◌∷◌, ◌++◌, [], IfOk};
ghost use Rattle.std.specs.Vec.Iter.{into_iter_items};
ghost use Rattle.command_line.specs.RulesGiven as words;

use gitbase_core::{Bytes, OutOfMemory};
use std::alloc::Global;
use std::marker::Model;

/// The ignore rules that words give: patterns, and files of rules by their names. Of these the ones
/// before the last `--exclude-standard` are weaker than its rules.
///
/// Contracts see a record of the three lists.
#[derive(Debug, Drop)]
pub struct RulesGiven {
    /// Rules before all others, in their order. Each can stand as a line of a rules file, a `#` in
    /// front apart: no line feed is in it, and no blank and no carriage return at its end.
    pub patterns: Vec<Bytes>,
    /// Files whose rules are weaker than those of `--exclude-standard`, the weakest first.
    pub weaker: Vec<Bytes>,
    /// Files whose rules are stronger than those; all of them, where it is not given.
    pub stronger: Vec<Bytes>,
}

impl Model for RulesGiven {
    ghost use Rattle.command_line.specs.RulesGiven as words;

    ghost Value = { words.RulesGiven };

    ghost view = { λ rules. record { patterns = rules.patterns.items; weaker = rules.weaker.items; stronger = rules.stronger.items } };
}

/// What a word says of rules.
#[derive(Clone, Copy, Debug)]
pub enum Ruling {
    /// So many bytes at its end are a pattern.
    Pattern {
        /// How many.
        left: usize,
    },
    /// So many bytes at its end name a file of rules.
    File {
        /// How many.
        left: usize,
    },
    /// The rules of the repository, of the user and of each directory are asked.
    Standard,
}

/// The last bytes of a word, as many as are said.
fn last_bytes_of_word(alloc: Global, left: usize, word: &[u8]) -> Result<Bytes, OutOfMemory>
    ensures { IfOk result (λ text. text ≡ words.last_bytes_of_word left word.now) }
{
    let (_, text) = word.split_at(word.len().saturating_sub(left));
    Bytes::from_slice(alloc, text)
}

/// A list with one more at its end.
fn list_with_bytes_pushed(list: Vec<Bytes>, bytes: Bytes) -> Result<Vec<Bytes>, OutOfMemory>
    ensures { IfOk result (λ longer. longer.items ≡ list.items ++ bytes ∷ []) }
{
    let mut list = list;
    list.push(bytes)?;
    Ok(list)
}

/// A list with those of another at its end.
fn concatenated_lists(list: Vec<Bytes>, more: Vec<Bytes>) -> Result<Vec<Bytes>, OutOfMemory>
    ensures { IfOk result (λ longer. longer.items ≡ list.items ++ more.items) }
{
    let mut list = list;
    for bytes in more {
        list.push(bytes)?;
    }
    Ok(list)
}

impl RulesGiven {
    /// No rules; takes no memory.
    pub fn new(alloc: Global) -> RulesGiven
        ensures { result ≡ words.no_rules_given }
    {
        RulesGiven {
            patterns: Vec::new(alloc),
            weaker: Vec::new(alloc),
            stronger: Vec::new(alloc),
        }
    }

    /// The patterns alone.
    pub fn into_patterns(self) -> Vec<Bytes>
        ensures { result.items ≡ self.patterns }
    {
        self.patterns
    }

    /// These and what one more word says.
    pub fn with_ruling_of_word(
        self,
        alloc: Global,
        ruling: Ruling,
        word: &[u8],
    ) -> Result<RulesGiven, OutOfMemory>
        ensures { IfOk result (λ rules. rules ≡ words.with_ruling_of_word ruling word.now self) }
    {
        let RulesGiven {
            patterns,
            weaker,
            stronger,
        } = self;
        match ruling {
            Ruling::Pattern { left } => Ok(RulesGiven {
                patterns: list_with_bytes_pushed(patterns, last_bytes_of_word(alloc, left, word)?)?,
                weaker,
                stronger,
            }),
            Ruling::File { left } => Ok(RulesGiven {
                patterns,
                weaker,
                stronger: list_with_bytes_pushed(stronger, last_bytes_of_word(alloc, left, word)?)?,
            }),
            Ruling::Standard => Ok(RulesGiven {
                patterns,
                weaker: concatenated_lists(weaker, stronger)?,
                stronger: Vec::new(alloc),
            }),
        }
    }
}
