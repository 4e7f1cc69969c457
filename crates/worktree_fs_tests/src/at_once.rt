//! Jobs over forks of a worktree, a store and an interrupt, one after another; every fork is
//! absorbed.
ghost use Rattle.std.specs.Prelude.{◌≡◌, ◌≤◌, IsErrOf};
ghost use Rattle.gitbase_core.specs.Causes.{saturating_increment, CountIncreasedOrSaturated};
ghost use Rattle.worktree_fs.specs.Kept.{KeepsTreeWhileCountsMayRise, KeepsStoredObjects};

use gitbase_core::{Bytes, Find, FindError, ObjectId, OutOfMemory};
use std::alloc::Global;
use worktree_fs::{Interrupt, ListError, Worktree};

/// Why a walk gave up.
#[derive(Clone, Copy, Debug, PartialEq, Eq)]
pub enum WalkError {
    /// It was to stop.
    Interrupted,
    /// A listing failed.
    List,
    /// A question for a blob failed.
    Blob,
    /// The allocator refused memory.
    OutOfMemory,
}

impl From<OutOfMemory> for WalkError {
    ghost use Rattle.worktree_fs_tests.specs.declared.at_once.WalkError.TheVariants.{OutOfMemory as no_memory};

    ghost from_gives = { λ _ e. e ≡ no_memory };

    fn from(_refused: OutOfMemory) -> WalkError {
        WalkError::OutOfMemory
    }
}

/// Lists a directory on the worktree handed in, and each name in it on a fork.
///
/// That counts rise by those of the forks is told by no clause here: the forks are gone when the
/// call returns.
pub fn walk_at_once<W: Worktree, F: Find, I: Interrupt>(
    alloc: Global,
    worktree: &mut W,
    store: &mut F,
    interrupt: &mut I,
    root: &[u8],
) -> Result<usize, WalkError>
    ensures tree { KeepsTreeWhileCountsMayRise W.Worktree worktree.old worktree.new }
    ensures store { KeepsStoredObjects F.Find store.old store.new }
    ensures raised { I.raised interrupt.old ≤ I.raised interrupt.new }
    ensures lists { W.lists worktree.new ≡ saturating_increment (W.lists worktree.old) }
    ensures listing { IsErrOf result WalkError.List
        → CountIncreasedOrSaturated (W.faults worktree.old) (W.faults worktree.new) }
    ensures blob { IsErrOf result WalkError.Blob
        → CountIncreasedOrSaturated (F.faults store.old) (F.faults store.new) }
    ensures stopped { IsErrOf result WalkError.Interrupted
        → CountIncreasedOrSaturated (I.raised interrupt.old) (I.raised interrupt.new) }
{
    let names = match worktree.list(alloc, root, true) {
        Ok(names) => names,
        Err(ListError::OpenFault | ListError::EntryFault) => return Err(WalkError::List),
        Err(ListError::OutOfMemory) => return Err(WalkError::OutOfMemory),
        Err(ListError::Absent | ListError::NotADirectory) => return Ok(0),
    };
    let mut total = 0_usize;
    for name in names.as_slice() {
        let below = on_worktree(alloc, worktree, store, interrupt, name.as_bytes())?;
        total = total.saturating_add(below);
    }
    Ok(total)
}

/// One job, over a fork of the worktree.
fn on_worktree<W: Worktree, F: Find, I: Interrupt>(
    alloc: Global,
    worktree: &mut W,
    store: &mut F,
    interrupt: &mut I,
    name: &[u8],
) -> Result<usize, WalkError>
    ensures tree { KeepsTreeWhileCountsMayRise W.Worktree worktree.old worktree.new }
    ensures store { KeepsStoredObjects F.Find store.old store.new }
    ensures raised { I.raised interrupt.old ≤ I.raised interrupt.new }
    ensures lists { W.lists worktree.new ≡ W.lists worktree.old }
    ensures listing { IsErrOf result WalkError.List
        → CountIncreasedOrSaturated (W.faults worktree.old) (W.faults worktree.new) }
    ensures blob { IsErrOf result WalkError.Blob
        → CountIncreasedOrSaturated (F.faults store.old) (F.faults store.new) }
    ensures stopped { IsErrOf result WalkError.Interrupted
        → CountIncreasedOrSaturated (I.raised interrupt.old) (I.raised interrupt.new) }
{
    let mut fork = worktree.fork(alloc)?;
    let result = on_store(alloc, &mut fork, store, interrupt, name);
    worktree.absorb(fork);
    result
}

/// The same, over a fork of the store.
fn on_store<W: Worktree, F: Find, I: Interrupt>(
    alloc: Global,
    worktree: &mut W,
    store: &mut F,
    interrupt: &mut I,
    name: &[u8],
) -> Result<usize, WalkError>
    ensures tree { KeepsTreeWhileCountsMayRise W.Worktree worktree.old worktree.new }
    ensures store { KeepsStoredObjects F.Find store.old store.new }
    ensures raised { I.raised interrupt.old ≤ I.raised interrupt.new }
    ensures listing { IsErrOf result WalkError.List
        → CountIncreasedOrSaturated (W.faults worktree.old) (W.faults worktree.new) }
    ensures blob { IsErrOf result WalkError.Blob
        → CountIncreasedOrSaturated (F.faults store.old) (F.faults store.new) }
    ensures stopped { IsErrOf result WalkError.Interrupted
        → CountIncreasedOrSaturated (I.raised interrupt.old) (I.raised interrupt.new) }
{
    let mut fork = store.fork(alloc)?;
    let result = on_interrupt(alloc, worktree, &mut fork, interrupt, name);
    store.absorb(fork);
    result
}

/// The same, over a fork of the interrupt.
fn on_interrupt<W: Worktree, F: Find, I: Interrupt>(
    alloc: Global,
    worktree: &mut W,
    store: &mut F,
    interrupt: &mut I,
    name: &[u8],
) -> Result<usize, WalkError>
    ensures tree { KeepsTreeWhileCountsMayRise W.Worktree worktree.old worktree.new }
    ensures store { KeepsStoredObjects F.Find store.old store.new }
    ensures raised { I.raised interrupt.old ≤ I.raised interrupt.new }
    ensures listing { IsErrOf result WalkError.List
        → CountIncreasedOrSaturated (W.faults worktree.old) (W.faults worktree.new) }
    ensures blob { IsErrOf result WalkError.Blob
        → CountIncreasedOrSaturated (F.faults store.old) (F.faults store.new) }
    ensures stopped { IsErrOf result WalkError.Interrupted
        → CountIncreasedOrSaturated (I.raised interrupt.old) (I.raised interrupt.new) }
{
    let mut fork = interrupt.fork(alloc)?;
    let result = work(alloc, worktree, store, &mut fork, name);
    interrupt.absorb(fork);
    result
}

/// The work of a job.
fn work<W: Worktree, F: Find, I: Interrupt>(
    alloc: Global,
    worktree: &mut W,
    store: &mut F,
    interrupt: &mut I,
    name: &[u8],
) -> Result<usize, WalkError>
    ensures tree { KeepsTreeWhileCountsMayRise W.Worktree worktree.old worktree.new }
    ensures store { KeepsStoredObjects F.Find store.old store.new }
    ensures raised { I.raised interrupt.old ≤ I.raised interrupt.new }
    ensures listing { IsErrOf result WalkError.List
        → CountIncreasedOrSaturated (W.faults worktree.old) (W.faults worktree.new) }
    ensures blob { IsErrOf result WalkError.Blob
        → CountIncreasedOrSaturated (F.faults store.old) (F.faults store.new) }
    ensures stopped { IsErrOf result WalkError.Interrupted
        → CountIncreasedOrSaturated (I.raised interrupt.old) (I.raised interrupt.new) }
{
    if interrupt.is_raised() {
        return Err(WalkError::Interrupted);
    }
    let mut bytes = Bytes::new(alloc);
    match store.find_blob(alloc, &ObjectId::null(), &mut bytes) {
        Ok(_) => {}
        Err(FindError::Fault) => return Err(WalkError::Blob),
        Err(FindError::OutOfMemory) => return Err(WalkError::OutOfMemory),
    }
    match worktree.list(alloc, name, false) {
        Ok(names) => Ok(names.as_slice().len()),
        Err(ListError::OpenFault | ListError::EntryFault) => Err(WalkError::List),
        Err(ListError::OutOfMemory) => Err(WalkError::OutOfMemory),
        Err(ListError::Absent | ListError::NotADirectory) => Ok(0),
    }
}
