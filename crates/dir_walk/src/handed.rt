//! What a path hands up to the directory above it, and why a walk ends before it is done.
ghost use Rattle.std.specs.Prelude.{◌≡◌, ◌==◌, ◌++◌, ◌||◌, [], false, length, OnOk, option_to_list};

use dir_classify::{Entry, Error};
use gitbase_core::OutOfMemory;
use std::alloc::Global;

/// What a path hands up to the directory above it when it is done. It is public for the contracts,
/// which name it; no public call takes or gives one.
#[derive(Debug, Drop)]
pub struct Handed {
    /// The entry that may go into that directory's own, if there is one.
    pub entry: Option<Entry>,
    /// Whether that directory must not be folded.
    pub blocks: bool,
}

/// Why a walk ends before it is done. It is public for the contracts, which name it; no public call
/// takes or gives one.
#[derive(Debug, Drop)]
pub enum Stop {
    /// It was refused.
    Refused(Error),
    /// The delegate answered Break.
    Broken,
}

impl From<Error> for Stop {
    ghost use Rattle.std.specs.Prelude.{◌≡◌};
    ghost use Rattle.dir_walk.specs.declared.handed.Stop.TheVariants.{Refused};

    ghost from_gives = { λ error stop. stop ≡ Refused error };

    fn from(refused: Error) -> Stop {
        Stop::Refused(refused)
    }
}

impl From<OutOfMemory> for Stop {
    ghost use Rattle.std.specs.Prelude.{◌≡◌};
    ghost use Rattle.dir_walk.specs.declared.handed.Stop.TheVariants.{Refused};
    ghost use Rattle.dir_classify.specs.declared.error.Error.TheVariants as errors;

    ghost from_gives = { λ _ stop. stop ≡ Refused errors.OutOfMemory };

    fn from(_refused: OutOfMemory) -> Stop {
        Stop::Refused(Error::OutOfMemory)
    }
}

/// What the names of a directory have handed up so far.
#[derive(Debug, Drop)]
pub(crate) struct Held {
    /// The entries that may go into the directory's own.
    pub entries: Vec<Entry>,
    /// Whether the directory must not be folded.
    pub blocked: bool,
}

impl Held {
    /// Nothing yet; takes no memory.
    pub fn new(alloc: Global) -> Held
        ensures entries { result.entries.items ≡ [] }
        ensures blocked { result.blocked ≡ false }
    {
        Held {
            entries: Vec::new(alloc),
            blocked: false,
        }
    }

    /// Whether there are no entries.
    pub fn is_empty(&self) -> bool
        ensures { result ≡ (length self.now.entries.items == 0) }
    {
        self.entries.is_empty()
    }

    /// Adds what one name hands up. The room comes from the allocator that made the list.
    #[inline(never)]
    pub fn add_entry_handed_up(&mut self, _alloc: Global, handed: Handed) -> Result<(), OutOfMemory>
        ensures entries { OnOk result
            (self.new.entries.items ≡ self.old.entries.items ++ option_to_list handed.entry) }
        ensures blocked { OnOk result (self.new.blocked ≡ (self.old.blocked || handed.blocks)) }
    {
        self.blocked = self.blocked | handed.blocks;
        match handed.entry {
            None => Ok(()),
            Some(entry) => {
                self.entries.push(entry)?;
                Ok(())
            }
        }
    }
}
