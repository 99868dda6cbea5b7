//! A folder that this run may not use.
ghost use Rattle.std.specs.Prelude.{◌≡◌, ◌≤◌};
ghost use Rattle.lake_store.specs.Cause.{Rose};

use lake_store::{Blob, Names, Store, StoreError};
use std::alloc::Global;

/// A folder that this run may not use, since another run holds it, say. Nothing is looked at and nothing is changed:
/// each call fails, and is counted.
#[derive(Drop)]
pub struct HeldFolder {
    faults: u64,
}

impl HeldFolder {
    /// No folder, and so no lock yet.
    pub fn new() -> HeldFolder {
        HeldFolder { faults: 0 }
    }

    fn refuse(&mut self) -> StoreError
        ensures kind { result ≡ StoreError.Failed }
        ensures rose { Rose self.old.faults self.new.faults }
        ensures faults { self.old.faults ≤ self.new.faults }
    {
        self.faults = self.faults.saturating_add(1);
        StoreError::Failed
    }
}

impl Store for HeldFolder {
    ghost use Rattle.std.specs.Prelude.{ℕ};
    ghost use Rattle.lake_store.specs.Cause.{count_ends, count_of};
    ghost use Rattle.lake_store.specs.Disk.{empty_disk};

    ghost tells = { ⊥ };

    ghost disk = { λ _. empty_disk };

    ghost time = { λ _. 0 };

    ghost left_since = { λ _ t image. ⊥ };

    ghost faults = { λ s. count_of s.faults };

    ghost may_fail = { λ _. Unit {0} };

    ghost contests = { λ _. 0 };

    ghost may_contest = { λ _. ⊥ };

    ghost counts_end = { λ s. (count_ends s.faults, count_ends 0) };

    ghost earlier = { λ s t u image told le left. absurd told };

    ghost counts_now = { λ s t image told le may. absurd told };

    ghost only_now = { λ s image told left. absurd told };

    fn list(&mut self, _alloc: Global, _folder: &str) -> Result<Names, StoreError> {
        Err(self.refuse())
    }

    fn read(&mut self, _alloc: Global, _path: &str) -> Result<Option<Blob>, StoreError> {
        Err(self.refuse())
    }

    fn read_part(
        &mut self,
        _alloc: Global,
        _path: &str,
        _from: u64,
        _len: u32,
    ) -> Result<Option<Blob>, StoreError> {
        Err(self.refuse())
    }

    fn write(&mut self, _path: &str, _bytes: &[u8]) -> Result<(), StoreError> {
        Err(self.refuse())
    }

    fn sync(&mut self) -> Result<(), StoreError> {
        Err(self.refuse())
    }

    fn publish(&mut self, _from: &str, _to: &str) -> Result<(), StoreError> {
        Err(self.refuse())
    }

    fn remove(&mut self, _path: &str) -> Result<(), StoreError> {
        Err(self.refuse())
    }
}
