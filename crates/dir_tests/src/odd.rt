//! A delegate that looks into directories as it likes.
use dir_classify::{EntryRef, ForDeletionMode, Status};
use dir_walk::{Action, Collect, Delegate};
use gitbase_core::OutOfMemory;
use std::alloc::Global;

/// What a delegate looks into, whatever it is asked about.
#[derive(Clone, Copy)]
pub enum Looks {
    /// Everything.
    Always,
    /// Nothing.
    Never,
    /// What comes first, third, fifth.
    InTurn,
    /// The worktree root, and below it what has this path alone.
    Only(&'static [u8]),
}

/// A delegate that keeps what it is given, and may answer Break once.
///
/// Contracts see what it keeps.
#[derive(Drop)]
pub struct Odd {
    pub kept: Collect,
    /// None for default recursion.
    looks: Option<Looks>,
    is_turn: bool,
    /// The entry at which Break is answered, from 1; 0 for never.
    last: usize,
    breaks: u64,
    refusals: u64,
    is_stopped: bool,
}

impl Odd {
    pub fn new(alloc: Global, looks: Option<Looks>, last: usize) -> Odd {
        Odd {
            kept: Collect::new(alloc),
            looks,
            is_turn: false,
            last,
            breaks: 0,
            refusals: 0,
            is_stopped: false,
        }
    }
}

impl Delegate for Odd {
    ghost use Rattle.std.specs.Prelude.{Some, not, is_some};

    ghost given = { λ odd. Some odd.kept.unorded_entries };

    ghost is_default = { λ odd. not (is_some odd.looks) };

    ghost breaks = { λ odd. odd.breaks };

    ghost refusals = { λ odd. odd.refusals };

    ghost is_stopped = { λ odd. odd.is_stopped };

    fn emit(
        &mut self,
        alloc: Global,
        entry: EntryRef<'_>,
        collapsed_directory_status: Option<Status>,
    ) -> Result<Action, OutOfMemory> {
        self.kept.emit(alloc, entry, collapsed_directory_status)?;
        self.is_stopped = self.kept.unorded_entries.as_slice().len() == self.last;
        if !self.is_stopped {
            return Ok(Action::Continue);
        }
        self.breaks = self.breaks.saturating_add(1);
        Ok(Action::Break)
    }

    fn can_recurse(
        &mut self,
        entry: EntryRef<'_>,
        for_deletion: Option<ForDeletionMode>,
        worktree_root_is_repository: bool,
    ) -> bool {
        let by_status = entry.status.can_recurse(
            entry.disk_kind,
            entry.pathspec_match,
            for_deletion,
            worktree_root_is_repository,
        );
        let looks = match self.looks {
            None => by_status,
            Some(Looks::Always) => true,
            Some(Looks::Never) => false,
            Some(Looks::InTurn) => {
                self.is_turn = !self.is_turn;
                self.is_turn
            }
            Some(Looks::Only(path)) => {
                let asked = entry.rela_path;
                asked.is_empty() || asked == path
            }
        };
        if by_status && !looks {
            self.refusals = self.refusals.saturating_add(1);
        }
        looks
    }
}
