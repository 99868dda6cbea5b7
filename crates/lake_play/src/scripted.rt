//! A fuse, as it is used while a target is synced.

use lake_basics::Blob;
use lake_store::{FuseStore, MemoryStore, Names, Script, Store, StoreError};
use std::alloc::Global;
use std::mem;

/// A fuse of which contracts see too that its script goes on naming the calls that it named, and
/// that behind a stop its files stay within the room that it had.
#[derive(Drop)]
pub(crate) struct Scripted {
    pub(crate) fuse: FuseStore,
    /// What `FuseStore::room` said at first.
    pub(crate) room: u64,
}

impl Store for Scripted {
    ghost use Rattle.lake_store.specs.Cause.{count_ends};
    ghost use Rattle.lake_store.specs.Memory.{counts_now, earlier, only_now};
    ghost use Rattle.lake_play.specs.Scripted.{ScriptedCanBeContested, ScriptedCanFail, scripted_contests, scripted_disk, scripted_faults, scripted_left_since, scripted_time};

    ghost tells = { Unit {0} };

    ghost disk = { scripted_disk };

    ghost time = { scripted_time };

    ghost left_since = { scripted_left_since };

    ghost faults = { scripted_faults };

    ghost may_fail = { ScriptedCanFail };

    ghost contests = { scripted_contests };

    ghost may_contest = { ScriptedCanBeContested };

    ghost counts_end = { λ s. (count_ends _, count_ends _) };

    ghost earlier = { λ s t u image told le left. earlier s.fuse.inner t u image le left };

    ghost counts_now = { λ s t image told le may. counts_now s.fuse.inner t image le may };

    ghost only_now = { λ s image told left. only_now s.fuse.inner image left };

    fn list(&mut self, alloc: Global, folder: &str) -> Result<Names, StoreError> {
        self.fuse.list(alloc, folder)
    }

    fn read(&mut self, alloc: Global, path: &str) -> Result<Option<Blob>, StoreError> {
        self.fuse.read(alloc, path)
    }

    fn read_part(
        &mut self,
        alloc: Global,
        path: &str,
        from: u64,
        len: u32,
    ) -> Result<Option<Blob>, StoreError> {
        self.fuse.read_part(alloc, path, from, len)
    }

    fn write(&mut self, path: &str, bytes: &[u8]) -> Result<(), StoreError> {
        self.fuse.write(path, bytes)
    }

    fn sync(&mut self) -> Result<(), StoreError> {
        self.fuse.sync()
    }

    fn publish(&mut self, from: &str, to: &str) -> Result<(), StoreError> {
        self.fuse.publish(from, to)
    }

    fn remove(&mut self, path: &str) -> Result<(), StoreError> {
        self.fuse.remove(path)
    }
}
