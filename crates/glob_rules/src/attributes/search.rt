//! Several lists of what files say of attributes.
ghost use Rattle.std.specs.Prelude.{◌≡◌, ◌↔◌, ◌<◌, ◌-◌, ◌++◌, [], ◌∷◌, length, take, true, reverse, IfOk, OnOk, OnErr, IsTrue, option_copied};
ghost use Rattle.glob_rules.specs.AttributeValues.{macro_body_in_first_list};
ghost use Rattle.glob_rules.specs.AttributeLines as texts;
ghost use Rattle.glob_rules.specs.AttributeNames.{attribute_names_of_lines, AddsNamesOrPartOnError};
ghost use Rattle.glob_rules.specs.Attributes.{builtin_attribute_list, builtin_attributes_text, attribute_list_from_lines};

use super::MetadataCollection;
use super::line::read_attribute_lines;
use super::list::List;
use super::word::Assignments;
use gitbase_core::{Bytes, OutOfMemory, PathText};
use std::alloc::Global;
use std::marker::Model;

/// Lists of what files say of attributes, the lowest first.
///
/// Contracts see the list of the lists.
///
/// See docs/DECISIONS.md#attribute-macros.
/// See docs/DECISIONS.md#attribute-lists.
#[derive(Debug, Drop)]
pub struct Search {
    lists: Vec<List>,
}

impl Model for Search {
    ghost use Rattle.std.specs.Prelude.{List as Items};
    ghost use Rattle.glob_rules.specs.Attributes.{AttributeList};

    ghost Value = { Items AttributeList };

    ghost view = { λ s. s.lists.items };
}

impl Search {
    /// A search without lists; takes no memory.
    pub fn new(alloc: Global) -> Search
        ensures { result ≡ [] }
    {
        Search {
            lists: Vec::new(alloc),
        }
    }

    /// A search with the one list that git knows without any file,
    /// `[attr]binary -diff -merge -text`. Its names go to the collection, and where memory is
    /// refused, the first of them may have gone there.
    #[tactic(auto, using(crate::proofs::SeenNames::part_none))]
    pub fn new_with_builtin_binary_macro(
        alloc: Global,
        collection: &mut MetadataCollection,
    ) -> Result<Search, OutOfMemory>
        ensures lists { IfOk result (λ search. search ≡ builtin_attribute_list ∷ []) }
        ensures names { AddsNamesOrPartOnError result collection.old
            (attribute_names_of_lines (texts.lines true builtin_attributes_text)) collection.new }
    {
        let mut search = Search::new(alloc);
        search.add_patterns_buffer(
            alloc,
            b"[attr]binary -diff -merge -text",
            PathText::from_bytes(alloc, b"[builtin]")?,
            PathText::new(alloc),
            collection,
            true,
        )?;
        Ok(search)
    }

    /// Adds what a file says above the other lists: `bytes` that were read at `source`, for the
    /// paths beneath the directory `base`. The format is that of gitattributes(5); `allow_macros`
    /// says whether the file may define macros.
    ///
    /// The names of attributes go to the collection. Where memory is refused, the search is as
    /// before, `source` and `base` are dropped, and the first of the names may have gone to the
    /// collection.
    #[tactic(auto, using(crate::proofs::SeenNames::part_none, crate::proofs::SeenNames::part_all))]
    pub fn add_patterns_buffer(
        &mut self,
        alloc: Global,
        bytes: &[u8],
        source: PathText,
        base: PathText,
        collection: &mut MetadataCollection,
        allow_macros: bool,
    ) -> Result<(), OutOfMemory>
        ensures added { OnOk result (self.new ≡ self.old ++ attribute_list_from_lines
            (texts.lines allow_macros bytes.now) source base ∷ []) }
        ensures kept { OnErr result (self.new ≡ self.old) }
        ensures names { AddsNamesOrPartOnError result collection.old
            (attribute_names_of_lines (texts.lines allow_macros bytes.now)) collection.new }
    {
        let lines = read_attribute_lines(alloc, allow_macros, bytes)?;
        collection.add_names_of_lines(alloc, &lines)?;
        let list = List::from_lines(alloc, lines, source, base)?;
        self.lists.push(list)?;
        Ok(())
    }

    /// Drops the highest list, and says whether there was one.
    pub fn pop_pattern_list(&mut self) -> bool
        ensures found { IsTrue result ↔ (0 < length self.old) }
        ensures left { self.new ≡ take (length self.old - 1) self.old }
    {
        self.lists.pop().is_some()
    }

    /// An equal search; fails only where memory is refused.
    pub fn copy(&self, alloc: Global) -> Result<Search, OutOfMemory>
        ensures { IfOk result (λ copy. copy ≡ self.now) }
    {
        let mut lists = Vec::with_capacity(alloc, self.lists.len())?;
        for list in &self.lists {
            lists.push(list.copy(alloc)?)?;
        }
        Ok(Search { lists })
    }
    /// What the macro of a name stands for, by the highest list that defines it.
    pub(super) fn assignments_of_macro(&self, name: &Bytes) -> Option<&Assignments>
        ensures { option_copied result ≡ macro_body_in_first_list name.now (reverse self.now) }
    {
        let mut at = self.lists.len();
        while at > 0 {
            at -= 1;
            if let Some(body) = self.lists[at].assignments_of_macro(name) {
                return Some(body);
            }
        }
        None
    }

    /// The lists, the lowest first.
    pub(super) fn lists(&self) -> &[List]
        ensures { result.now ≡ self.now }
    {
        &self.lists
    }
}
