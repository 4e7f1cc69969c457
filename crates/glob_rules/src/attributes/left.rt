//! What is left to be said.
ghost use Rattle.std.specs.Prelude.{◌≡◌, ◌++◌, ◌∷◌, [], reverse, OnOk, MatchOption};

use super::word::Assigned;
use gitbase_core::OutOfMemory;
use std::alloc::Global;
use std::marker::Model;

/// What is left to be said: of each line or macro that was begun, the words before the one that was
/// said last.
///
/// Contracts see the list, in the order in which it will be heard.
#[derive(Drop)]
pub struct Left<'a> {
    words: &'a [Assigned],
    /// What comes after the words, the last at first.
    pending: Vec<&'a [Assigned]>,
}

impl<'a> Model for Left<'a> {
    ghost use Rattle.std.specs.Prelude.{List, ◌++◌, reverse};
    ghost use Rattle.glob_rules.specs.Standing.{reversed_words_of_slices};
    ghost use Rattle.glob_rules.specs.declared.attributes.word.Assigned as declared;

    ghost Value = { List declared.Assigned };

    ghost view = { λ left. reverse left.words.now ++ reversed_words_of_slices left.pending.items };
}

impl<'a> Left<'a> {
    /// The words, from the last back; takes no memory.
    pub fn new(alloc: Global, words: &'a [Assigned]) -> Left<'a>
        ensures { result ≡ reverse words.now }
    {
        Left {
            words,
            pending: Vec::new(alloc),
        }
    }

    /// Takes what is said next, if anything is left.
    pub fn take(&mut self) -> Option<&'a Assigned>
        ensures { MatchOption result (self.old ≡ []) (λ assigned. self.old
            ≡ assigned.now ∷ self.new) }
    {
        loop {
            if let Some((assigned, front)) = self.words.split_last() {
                self.words = front;
                return Some(assigned);
            }
            let Some(next) = self.pending.pop() else {
                return None;
            };
            self.words = next;
        }
    }

    /// Puts words before all that is left.
    pub fn put(&mut self, words: &'a [Assigned]) -> Result<(), OutOfMemory>
        ensures { OnOk result (self.new ≡ reverse words.now ++ self.old) }
    {
        if words.is_empty() {
            return Ok(());
        }
        self.pending.push(self.words)?;
        self.words = words;
        Ok(())
    }
}
