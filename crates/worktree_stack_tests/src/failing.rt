//! A store of objects that fails.
use gitbase_core::{Bytes, Find, FindError, Found, ObjectId, OutOfMemory};
use std::alloc::Global;

/// A store that tells nothing, and fails in each call.
#[derive(Drop)]
pub struct FailingStore {
    pub faults: u64,
}

impl Find for FailingStore {
    ghost use Rattle.std.specs.Prelude.{None};

    ghost holds = { λ store. None };

    ghost faults = { λ store. store.faults };

    fn find_blob(
        &mut self,
        _alloc: Global,
        _id: &ObjectId,
        _into: &mut Bytes,
    ) -> Result<Found, FindError> {
        self.faults = self.faults.saturating_add(1);
        Err(FindError::Fault)
    }

    fn fork(&self, _alloc: Global) -> Result<FailingStore, OutOfMemory> {
        Ok(FailingStore { faults: 0 })
    }

    fn absorb(&mut self, other: FailingStore) {
        self.faults = self.faults.saturating_add(other.faults);
    }
}
