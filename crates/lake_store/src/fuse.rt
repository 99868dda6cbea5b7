//! A store in memory whose calls go wrong as a script says.
ghost use Rattle.std.specs.Prelude.{◌≡◌, ◌⊎◌, ◌<◌, ◌≤◌, List, ℕ, drop, length, take, IfOk, IfSome, IsErrOf, IsSome, IsTrue, None, OnErr, OnOk};
ghost use Rattle.std.specs.Borrow.{sem};
ghost use Rattle.std.specs.Option.{option_map};
ghost use Rattle.std.specs.Ordering.{nat_cmp};
ghost use Rattle.std.specs.Cmp.Lexicographic.{slice_cmp};
ghost use Rattle.std.specs.List.Sorted.{IsStrictlySortedBy};
ghost use Rattle.std.specs.FinMap as map;
ghost use Rattle.lake_store.specs.Cause.{HasContest, HasFault, HasNoContest, IsNotTooLong, IsTooLong};
ghost use Rattle.lake_store.specs.Disk.{AddsShort, HasLength, IsClean, IsPartlySynced, ListsFolder, Moves, SameElsewhere, names_in, removed, stored, synced, written};
ghost use Rattle.lake_store.specs.Fuse.{CanFail, FuseCanBeContested, FuseCanFail, PublishesByScript, RunsByScript, calls_of, contests_of, counted, fails, faults_of, fuse_disk, fuse_left_since, fuse_time, inner_of, room_of, script_of, with_stop};
ghost use Rattle.lake_store.specs.FuseLoan.{LendsInner};
ghost use Rattle.lake_store.specs.Moments.{Elapses};

use crate::memory::MemoryStore;
use crate::names::Names;
use crate::store::{Store, StoreError};
use lake_basics::Blob;
use lake_basics::limits::{MAX_FILE_BYTES, MAX_NAMES};
use std::alloc::Global;

/// Calls that go wrong, by their numbers from 0.
#[derive(Debug, Drop)]
pub struct Script {
    /// Calls that fail.
    pub failing: Vec<u64>,
    /// The first of the calls that all fail.
    pub stop: Option<u64>,
    /// Publications that find another writer's file in the way.
    pub contested: Vec<u64>,
}

/// A store in memory that fails as its script says.
#[derive(Drop)]
pub struct FuseStore {
    inner: MemoryStore,
    script: Script,
    calls: u64,
    faults: u64,
    contests: u64,
}

impl FuseStore {
    /// A fuse round a store, at its call number 0.
    pub fn new(_alloc: Global, inner: MemoryStore, script: Script) -> FuseStore
        ensures inner { inner_of result ≡ inner }
        ensures script { script_of result ≡ script }
        ensures calls { calls_of result ≡ 0 }
        ensures faults { faults_of result ≡ 0 }
        ensures contests { contests_of result ≡ 0 }
    {
        FuseStore {
            inner,
            script,
            calls: 0,
            faults: 0,
            contests: 0,
        }
    }

    /// Sets from which call on all fail, counted from the next one.
    pub fn set_stop(&mut self, call: Option<u64>)
        ensures { self.new ≡ with_stop self.old call }
    {
        self.script.stop = match call {
            Some(call) => Some(self.calls.saturating_add(call)),
            None => None,
        };
    }

    /// The store inside. What is done to it counts as no call.
    pub fn inner(&mut self) -> &mut MemoryStore
        ensures* lends { sem 𝓛 (LendsInner self.entry result) }
        ensures inner { result.now ≡ inner_of self.old }
    {
        &mut self.inner
    }

    /// How many files there may be at most once all calls fail: those that are there, and one for
    /// each call that is left until the stop, up to `u64::MAX`. 0 where there is no stop.
    pub fn room(&self) -> u64
        ensures { result ≡ room_of self.now }
    {
        match self.script.stop {
            Some(stop) => {
                let left = stop.saturating_sub(self.calls);
                self.inner.file_count().saturating_add(left)
            }
            None => 0,
        }
    }

    // Counts a call, and a fault where it fails.
    #[tactic(auto, using(crate::proofs::FuseLaws::fails_by_name))]
    fn fails_next(&mut self) -> bool
        ensures test { result ≡ fails (script_of self.old) (calls_of self.old) }
        ensures named { IsTrue result → CanFail (script_of self.old) }
        ensures later { faults_of self.old ≤ faults_of self.new }
        ensures counts { self.new ≡ counted self.old }
    {
        let call = self.calls;
        self.calls = call.saturating_add(1);
        let stopped = match self.script.stop {
            Some(stop) => stop <= call,
            None => false,
        };
        if stopped || self.script.failing.as_slice().contains(&call) {
            self.faults = self.faults.saturating_add(1);
            true
        } else {
            false
        }
    }
}

impl Store for FuseStore {
    ghost use Rattle.lake_store.specs.Cause.{count_ends};
    ghost use Rattle.lake_store.specs.Fuse.{FuseCanBeContested, FuseCanFail, contests_of, faults_of, fuse_disk, fuse_left_since, fuse_time};
    ghost use Rattle.lake_store.specs.Memory.{counts_now, earlier, only_now};

    ghost tells = { Unit {0} };

    ghost disk = { fuse_disk };

    ghost time = { fuse_time };

    ghost left_since = { fuse_left_since };

    ghost faults = { faults_of };

    ghost may_fail = { FuseCanFail };

    ghost contests = { contests_of };

    ghost may_contest = { FuseCanBeContested };

    ghost counts_end = { λ s. (count_ends s.faults, count_ends s.contests) };

    ghost earlier = { λ s t u image told le left. earlier s.inner t u image le left };

    ghost counts_now = { λ s t image told le may. counts_now s.inner t image le may };

    ghost only_now = { λ s image told left. only_now s.inner image left };

    fn list(&mut self, alloc: Global, folder: &str) -> Result<Names, StoreError>
        ensures names { IfOk result
            (λ names. names ≡ names_in (fuse_disk self.old).files folder.now) }
        ensures listed { IfOk result (ListsFolder (fuse_disk self.old).files folder.now) }
        ensures sorted { IfOk result (IsStrictlySortedBy (slice_cmp nat_cmp)) }
        ensures few { IfOk result (λ names. length names ≤ MAX_NAMES) }
        ensures too_long { (n : ℕ) → IsErrOf result (StoreError.TooLong n)
            → (MAX_NAMES < n) × (n ≡ length (names_in (fuse_disk self.old).files folder.now)) }
        ensures too_many { MAX_NAMES < length (names_in (fuse_disk self.old).files folder.now)
            → IsTooLong (length (names_in (fuse_disk self.old).files folder.now)) result }
        ensures same { fuse_disk self.new ≡ fuse_disk self.old }
        ensures elapses { Elapses fuse_disk fuse_time fuse_left_since self.old self.new }
        ensures cause { HasFault faults_of FuseCanFail self.old self.new
            (IsErrOf result StoreError.Failed) }
        ensures contest { HasNoContest contests_of FuseCanBeContested self.old self.new
            (IsErrOf result StoreError.Taken) }
        ensures fuse { RunsByScript self.old self.new result }
    {
        if self.fails_next() {
            return Err(StoreError::Failed);
        }
        self.inner.list(alloc, folder)
    }

    fn read(&mut self, alloc: Global, path: &str) -> Result<Option<Blob>, StoreError>
        ensures bytes { IfOk result (λ bytes. bytes ≡ map.get (fuse_disk self.old).files path.now) }
        ensures short { IfOk result
            (λ bytes. IfSome bytes (λ bytes. length bytes ≤ MAX_FILE_BYTES)) }
        ensures too_long { (n : ℕ) → IsErrOf result (StoreError.TooLong n)
            → (MAX_FILE_BYTES < n) × (HasLength (fuse_disk self.old).files path.now n) }
        ensures too_large { (n : ℕ) → MAX_FILE_BYTES < n
            → HasLength (fuse_disk self.old).files path.now n → IsTooLong n result }
        ensures same { fuse_disk self.new ≡ fuse_disk self.old }
        ensures elapses { Elapses fuse_disk fuse_time fuse_left_since self.old self.new }
        ensures cause { HasFault faults_of FuseCanFail self.old self.new
            (IsErrOf result StoreError.Failed) }
        ensures contest { HasNoContest contests_of FuseCanBeContested self.old self.new
            (IsErrOf result StoreError.Taken) }
        ensures fuse { RunsByScript self.old self.new result }
    {
        if self.fails_next() {
            return Err(StoreError::Failed);
        }
        self.inner.read(alloc, path)
    }

    fn read_part(
        &mut self,
        alloc: Global,
        path: &str,
        from: u64,
        len: u32,
    ) -> Result<Option<Blob>, StoreError>
        ensures bytes { IfOk result (λ part.
            part ≡ option_map (λ bytes. take len (drop from bytes))
            (map.get (fuse_disk self.old).files path.now)) }
        ensures short { IfOk result (λ part. IfSome part (λ bytes. length bytes ≤ len)) }
        ensures same { fuse_disk self.new ≡ fuse_disk self.old }
        ensures elapses { Elapses fuse_disk fuse_time fuse_left_since self.old self.new }
        ensures cause { HasFault faults_of FuseCanFail self.old self.new
            (IsErrOf result StoreError.Failed) }
        ensures not_too_long { IsNotTooLong result }
        ensures contest { HasNoContest contests_of FuseCanBeContested self.old self.new
            (IsErrOf result StoreError.Taken) }
        ensures fuse { RunsByScript self.old self.new result }
    {
        if self.fails_next() {
            return Err(StoreError::Failed);
        }
        self.inner.read_part(alloc, path, from, len)
    }

    fn write(&mut self, path: &str, bytes: &[u8]) -> Result<(), StoreError>
        ensures ok { OnOk result
            (fuse_disk self.new ≡ written (fuse_disk self.old) path.now bytes.now) }

        // The file is absent or has any bytes, and a crash may damage it.
        ensures err { OnErr result
            (SameElsewhere path.now (fuse_disk self.old) (fuse_disk self.new)) }

        // It has no more bytes than were to be written, or is as before.
        ensures short { OnErr result
            (AddsShort (length bytes.now) (fuse_disk self.old).files (fuse_disk self.new).files) }
        ensures elapses { Elapses fuse_disk fuse_time fuse_left_since self.old self.new }
        ensures cause { HasFault faults_of FuseCanFail self.old self.new
            (IsErrOf result StoreError.Failed) }
        ensures not_too_long { IsNotTooLong result }
        ensures contest { HasNoContest contests_of FuseCanBeContested self.old self.new
            (IsErrOf result StoreError.Taken) }
        ensures fuse { RunsByScript self.old self.new result }
    {
        if self.fails_next() {
            return Err(StoreError::Failed);
        }
        self.inner.write(path, bytes)
    }

    fn sync(&mut self) -> Result<(), StoreError>
        ensures ok { OnOk result (fuse_disk self.new ≡ synced (fuse_disk self.old)) }
        ensures err { OnErr result (IsPartlySynced (fuse_disk self.old) (fuse_disk self.new)) }
        ensures elapses { Elapses fuse_disk fuse_time fuse_left_since self.old self.new }
        ensures cause { HasFault faults_of FuseCanFail self.old self.new
            (IsErrOf result StoreError.Failed) }
        ensures not_too_long { IsNotTooLong result }
        ensures contest { HasNoContest contests_of FuseCanBeContested self.old self.new
            (IsErrOf result StoreError.Taken) }
        ensures fuse { RunsByScript self.old self.new result }
    {
        if self.fails_next() {
            return Err(StoreError::Failed);
        }
        self.inner.sync()
    }

    fn publish(&mut self, from: &str, to: &str) -> Result<(), StoreError>
        requires there { IsSome (map.get (fuse_disk self.old).files from.now) }
        requires durable { IsClean (fuse_disk self.old) from.now }
        requires free { map.get (fuse_disk self.old).files to.now ≡ None }
        ensures ok { OnOk result (Moves from.now to.now (fuse_disk self.old) (fuse_disk self.new)) }

        // Another writer's file came there, durably and with any bytes.
        ensures taken { IsErrOf result StoreError.Taken
            → (bytes : List ℕ) × (fuse_disk self.new ≡ stored (fuse_disk self.old) to.now bytes) }

        // It isn't too long to be read.
        ensures short { IsErrOf result StoreError.Taken
            → AddsShort MAX_FILE_BYTES (fuse_disk self.old).files (fuse_disk self.new).files }

        // All is as before, or the file has moved.
        ensures err { OnErr result ((IsErrOf result StoreError.Taken → ⊥)
            → (fuse_disk self.new ≡ fuse_disk self.old)
            ⊎ Moves from.now to.now (fuse_disk self.old) (fuse_disk self.new)) }
        ensures elapses { Elapses fuse_disk fuse_time fuse_left_since self.old self.new }
        ensures cause { HasFault faults_of FuseCanFail self.old self.new
            (IsErrOf result StoreError.Failed) }
        ensures contest { HasContest contests_of FuseCanBeContested self.old self.new
            (IsErrOf result StoreError.Taken) }
        ensures not_too_long { IsNotTooLong result }
        ensures fuse { PublishesByScript to.now self.old self.new result }
    {
        let call = self.calls;
        if self.fails_next() {
            return Err(StoreError::Failed);
        }
        if self.script.contested.as_slice().contains(&call) {
            self.inner.put(to, b"x")?;
            self.contests = self.contests.saturating_add(1);
            return Err(StoreError::Taken);
        }
        self.inner.publish(from, to)
    }

    fn remove(&mut self, path: &str) -> Result<(), StoreError>
        ensures ok { OnOk result (fuse_disk self.new ≡ removed (fuse_disk self.old) path.now) }
        ensures err { OnErr result
            ((fuse_disk self.new ≡ fuse_disk self.old)
            ⊎ (fuse_disk self.new ≡ removed (fuse_disk self.old) path.now)) }
        ensures elapses { Elapses fuse_disk fuse_time fuse_left_since self.old self.new }
        ensures cause { HasFault faults_of FuseCanFail self.old self.new
            (IsErrOf result StoreError.Failed) }
        ensures not_too_long { IsNotTooLong result }
        ensures contest { HasNoContest contests_of FuseCanBeContested self.old self.new
            (IsErrOf result StoreError.Taken) }
        ensures fuse { RunsByScript self.old self.new result }
    {
        if self.fails_next() {
            return Err(StoreError::Failed);
        }
        self.inner.remove(path)
    }
}
