//! Paths in their order.
ghost use Rattle.std.specs.Prelude.{◌≡◌, ℕ, List, [], Bool, ◌||◌, IfOk, OnOk, bytes_eq};
ghost use Rattle.clean_plan.specs.Paths.{AscendsStrictly, is_text_in_list, paths_without_others};

use gitbase_core::{OutOfMemory, PathText};
use std::alloc::Global;
use std::collections::BTreeSet;
use std::marker::Model;

/// Paths of others, each once and in their order, among which one is found without passing over
/// all.
///
/// Contracts see their list.
#[derive(Drop)]
pub struct Paths<'a> {
    sorted: BTreeSet<&'a [u8]>,
}

impl<'a> Model for Paths<'a> {
    ghost use Rattle.std.specs.Prelude.{ℕ, List};
    ghost use Rattle.clean_plan.specs.Paths.{borrowed_byte_strings};

    ghost Value = { List (List ℕ) };

    ghost view = { λ paths. borrowed_byte_strings paths.sorted.keys };
}

impl<'a> Paths<'a> {
    /// No paths; takes no memory.
    pub(crate) fn new(alloc: Global) -> Paths<'a>
        ensures { result ≡ [] }
    {
        Paths {
            sorted: BTreeSet::new(alloc),
        }
    }

    /// Whether a path is among them.
    pub(crate) fn contains_path(&self, path: &[u8]) -> bool
        ensures { result ≡ is_text_in_list path.now self.now }
    {
        self.sorted.contains(path)
    }

    /// Puts a path among them, unless it is there.
    pub(crate) fn add(&mut self, path: &'a [u8]) -> Result<(), OutOfMemory>
        ensures { (other : List ℕ) → OnOk result (is_text_in_list other self.new
            ≡ (bytes_eq other path.now || is_text_in_list other self.old)) }
    {
        self.sorted.insert(path)?;
        Ok(())
    }

    /// The paths but for those that stay, as texts of their own.
    pub(crate) fn into_path_texts_except(
        self,
        alloc: Global,
        staying: &Paths<'_>,
    ) -> Result<Vec<PathText>, OutOfMemory>
        ensures same { IfOk result (λ texts. texts.items ≡ paths_without_others staying.now
            self.entry) }
        ensures ascends { IfOk result (λ texts. AscendsStrictly texts.items) }
    {
        let mut texts = Vec::with_capacity(alloc, self.sorted.len())?;
        for path in self.sorted {
            if !staying.contains_path(path) {
                texts.push(PathText::from_bytes(alloc, path)?)?;
            }
        }
        Ok(texts)
    }
}
