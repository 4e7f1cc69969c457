//! A store that fails, and a caller that works in a fork.
ghost use Rattle.std.specs.Prelude.{◌≡◌, ◌≤◌, IfOk, IsErrOf, None, Some};
ghost use Rattle.gitbase_core.specs.Causes.{CountIncreasedOrSaturated, saturating_sum};
ghost use Rattle.gitbase_core.specs.Objects.{ObjectsById, object_by_id, found_kind_of_object};

use gitbase_core::{Bytes, Find, FindError, Found, ObjectId, OutOfMemory};
use std::alloc::Global;

/// A store that tells nothing, and fails in each call.
#[derive(Drop)]
pub struct FailingStore {
    faults: u64,
}

impl FailingStore {
    /// A store that has not failed yet.
    pub fn new() -> FailingStore
        ensures { result.faults ≡ 0 }
    {
        FailingStore { faults: 0 }
    }

    /// How many calls failed, here and in the forks that were handed back.
    pub fn faults(&self) -> u64
        ensures { result ≡ self.now.faults }
    {
        self.faults
    }
}

impl Find for FailingStore {
    ghost holds = { λ store. None };

    ghost faults = { λ store. store.faults };

    fn find_blob(
        &mut self,
        _alloc: Global,
        _id: &ObjectId,
        _into: &mut Bytes,
    ) -> Result<Found, FindError> {
        self.faults = self.faults.saturating_add(1);
        Err(FindError::Fault)
    }

    fn fork(&self, _alloc: Global) -> Result<FailingStore, OutOfMemory> {
        Ok(FailingStore::new())
    }

    fn absorb(&mut self, other: FailingStore) {
        self.faults = self.faults.saturating_add(other.faults);
    }
}

/// Looks for a blob in a fork of a store, and hands the fork back, also where the look-up was
/// refused.
///
/// # Errors
///
/// - `Fault`: the fork failed, and the store has counted it.
/// - `OutOfMemory`: there is no room for the fork or for the bytes.
///
/// Where the question was answered the count rises by nothing. By how much it rises where the
/// question failed is told by no clause: the fork, which counted it, is gone when the call returns.
pub fn find_in_fork<F: Find>(
    alloc: Global,
    store: &mut F,
    id: &ObjectId,
    into: &mut Bytes,
) -> Result<Found, FindError>
    ensures answer { (held : ObjectsById) → F.holds store.old ≡ Some held
        → IfOk result (λ found. found ≡ found_kind_of_object (object_by_id held id.now)) }
    ensures held { F.holds store.new ≡ F.holds store.old }
    ensures cause { IsErrOf result FindError.Fault
        → CountIncreasedOrSaturated (F.faults store.old) (F.faults store.new) }
    ensures faults { F.faults store.old ≤ F.faults store.new }
    ensures unfaulted { IfOk result (λ _. F.faults store.new
        ≡ saturating_sum (F.faults store.old) 0) }
{
    let mut fork = store.fork(alloc)?;
    let found = fork.find_blob(alloc, id, into);
    store.absorb(fork);
    found
}
