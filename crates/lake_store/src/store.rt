//! A store of files as the bridge sees it: what its calls do, and what a crash may leave.
ghost use Rattle.std.specs.Prelude.{◌≡◌, ◌⊎◌, ◌<◌, ◌≤◌, ◌-◌, ◌^◌, List, ℕ, drop, length, take, IfOk, IfSome, IsErrOf, IsSome, None, OnErr, OnOk};
ghost use Rattle.std.specs.Option.{option_map};
ghost use Rattle.std.specs.FinMap as map;
ghost use Rattle.std.specs.Ordering.{nat_cmp};
ghost use Rattle.std.specs.Cmp.Lexicographic.{slice_cmp};
ghost use Rattle.std.specs.List.Sorted.{IsStrictlySortedBy};
ghost use Rattle.lake_store.specs.Cause.{HasContest, HasFault, HasNoContest, IsNotTooLong, IsTooLong};
ghost use Rattle.lake_store.specs.Disk.{AddsShort, Disk, Files, HasLength, IsClean, IsPartlySynced, ListsFolder, MayLeave, Moves, SameElsewhere, names_in, removed, stored, synced, written};
ghost use Rattle.lake_store.specs.Moments.{Elapses};
ghost use Rattle.lake_store.specs.declared.store.StoreError.TheVariants.{Memory};

use crate::names::Names;
use lake_basics::Blob;
use lake_basics::limits::{MAX_FILE_BYTES, MAX_NAMES};
use std::alloc::{AllocError, AllocFailed, Global};

/// Why a store refused a call.
#[derive(Clone, Copy, Debug, PartialEq, Eq, thiserror::Error)]
pub enum StoreError {
    #[error("out of memory")]
    Memory,
    /// The store failed, and counted it.
    #[error("the store failed")]
    Failed,
    /// A file or a list is too long to be given: it has so many bytes or names.
    #[error("{length} bytes or names are too many")]
    TooLong { length: u64 },
    /// Another writer's file came to the path, and was counted.
    #[error("another writer's file is there")]
    Taken,
}

impl From<AllocError> for StoreError {
    ghost from_gives = { λ _ e. e ≡ Memory };

    fn from(_: AllocError) -> Self {
        StoreError::Memory
    }
}

impl<T: Drop> From<AllocFailed<T>> for StoreError {
    ghost from_gives = { λ _ e. e ≡ Memory };

    fn from(_: AllocFailed<T>) -> Self {
        StoreError::Memory
    }
}

/// Files by their paths. A store over a real folder tells nothing of what it holds.
/// `Memory` leaves what `Failed` leaves.
pub trait Store {
    /// Whether contracts know what it holds.
    ghost tells: { Type 0 };

    /// Its files, and the paths that a crash may damage.
    ghost disk: { Self → Disk };

    /// The moment, as a number that doesn't fall.
    ghost time: { Self → ℕ };

    /// What a crash at some moment from that one on might have left, during a call or between two.
    ghost left_since: { Self → ℕ → Files → Type 0 };

    /// How often it has failed, up to the last number of 64 bits.
    ghost faults: { Self → ℕ };

    /// Whether a call may fail.
    ghost may_fail: { Self → Type 0 };

    /// How often another writer was in the way, up to the last number of 64 bits.
    ghost contests: { Self → ℕ };

    /// Whether another writer may be in the way.
    ghost may_contest: { Self → Type 0 };

    /// The names of the files directly in the folder, in byte order. It changes nothing.
    fn list(&mut self, alloc: Global, folder: &str) -> Result<Names, StoreError>
        ensures names { tells → IfOk result
            (λ names. names ≡ names_in (disk self.old).files folder.now) }
        ensures listed { tells → IfOk result (ListsFolder (disk self.old).files folder.now) }
        ensures sorted { IfOk result (IsStrictlySortedBy (slice_cmp nat_cmp)) }
        ensures few { IfOk result (λ names. length names ≤ MAX_NAMES) }
        ensures too_long { (n : ℕ) → IsErrOf result (StoreError.TooLong n)
            → (MAX_NAMES < n) × (tells → n ≡ length (names_in (disk self.old).files folder.now)) }
        ensures too_many { tells → MAX_NAMES < length (names_in (disk self.old).files folder.now)
            → IsTooLong (length (names_in (disk self.old).files folder.now)) result }
        ensures same { tells → disk self.new ≡ disk self.old }
        ensures elapses { tells → Elapses disk time left_since self.old self.new }
        ensures cause { HasFault faults may_fail self.old self.new
            (IsErrOf result StoreError.Failed) }
        ensures contest { HasNoContest contests may_contest self.old self.new
            (IsErrOf result StoreError.Taken) };

    /// The file's bytes, or `None` where there is no file. It changes nothing.
    fn read(&mut self, alloc: Global, path: &str) -> Result<Option<Blob>, StoreError>
        ensures bytes { tells → IfOk result
            (λ bytes. bytes ≡ map.get (disk self.old).files path.now) }
        ensures short { IfOk result
            (λ bytes. IfSome bytes (λ bytes. length bytes ≤ MAX_FILE_BYTES)) }
        ensures too_long { (n : ℕ) → IsErrOf result (StoreError.TooLong n)
            → (MAX_FILE_BYTES < n) × (tells → HasLength (disk self.old).files path.now n) }
        ensures too_large { tells → (n : ℕ) → MAX_FILE_BYTES < n
            → HasLength (disk self.old).files path.now n → IsTooLong n result }
        ensures same { tells → disk self.new ≡ disk self.old }
        ensures elapses { tells → Elapses disk time left_since self.old self.new }
        ensures cause { HasFault faults may_fail self.old self.new
            (IsErrOf result StoreError.Failed) }
        ensures contest { HasNoContest contests may_contest self.old self.new
            (IsErrOf result StoreError.Taken) };

    /// At most `len` bytes of the file from a place on, fewer only at its end. It changes nothing.
    fn read_part(
        &mut self,
        alloc: Global,
        path: &str,
        from: u64,
        len: u32,
    ) -> Result<Option<Blob>, StoreError>
        ensures bytes { tells → IfOk result (λ part.
            part ≡ option_map (λ bytes. take len (drop from bytes))
            (map.get (disk self.old).files path.now)) }
        ensures short { IfOk result (λ part. IfSome part (λ bytes. length bytes ≤ len)) }
        ensures same { tells → disk self.new ≡ disk self.old }
        ensures elapses { tells → Elapses disk time left_since self.old self.new }
        ensures cause { HasFault faults may_fail self.old self.new
            (IsErrOf result StoreError.Failed) }
        ensures not_too_long { IsNotTooLong result }
        ensures contest { HasNoContest contests may_contest self.old self.new
            (IsErrOf result StoreError.Taken) };

    /// Writes the file. Until a sync, a crash may leave it absent or with any bytes.
    fn write(&mut self, path: &str, bytes: &[u8]) -> Result<(), StoreError>
        ensures ok { tells → OnOk result
            (disk self.new ≡ written (disk self.old) path.now bytes.now) }

        // The file is absent or has any bytes, and a crash may damage it.
        ensures err { tells → OnErr result
            (SameElsewhere path.now (disk self.old) (disk self.new)) }

        // It has no more bytes than were to be written, or is as before.
        ensures short { tells → OnErr result
            (AddsShort (length bytes.now) (disk self.old).files (disk self.new).files) }
        ensures elapses { tells → Elapses disk time left_since self.old self.new }
        ensures cause { HasFault faults may_fail self.old self.new
            (IsErrOf result StoreError.Failed) }
        ensures not_too_long { IsNotTooLong result }
        ensures contest { HasNoContest contests may_contest self.old self.new
            (IsErrOf result StoreError.Taken) };

    /// Makes what is written durable.
    fn sync(&mut self) -> Result<(), StoreError>
        ensures ok { tells → OnOk result (disk self.new ≡ synced (disk self.old)) }
        ensures err { tells → OnErr result (IsPartlySynced (disk self.old) (disk self.new)) }
        ensures elapses { tells → Elapses disk time left_since self.old self.new }
        ensures cause { HasFault faults may_fail self.old self.new
            (IsErrOf result StoreError.Failed) }
        ensures not_too_long { IsNotTooLong result }
        ensures contest { HasNoContest contests may_contest self.old self.new
            (IsErrOf result StoreError.Taken) };

    /// Moves a file to a path where there is none, durably and in one step.
    fn publish(&mut self, from: &str, to: &str) -> Result<(), StoreError>
        requires there { tells → IsSome (map.get (disk self.old).files from.now) }
        requires durable { tells → IsClean (disk self.old) from.now }
        requires free { tells → map.get (disk self.old).files to.now ≡ None }
        ensures ok { tells → OnOk result (Moves from.now to.now (disk self.old) (disk self.new)) }

        // Another writer's file came there, durably and with any bytes.
        ensures taken { tells → IsErrOf result StoreError.Taken
            → (bytes : List ℕ) × (disk self.new ≡ stored (disk self.old) to.now bytes) }

        // It isn't too long to be read.
        ensures short { tells → IsErrOf result StoreError.Taken
            → AddsShort MAX_FILE_BYTES (disk self.old).files (disk self.new).files }

        // All is as before, or the file has moved.
        ensures err { tells → OnErr result ((IsErrOf result StoreError.Taken → ⊥)
            → (disk self.new ≡ disk self.old)
            ⊎ Moves from.now to.now (disk self.old) (disk self.new)) }
        ensures elapses { tells → Elapses disk time left_since self.old self.new }
        ensures cause { HasFault faults may_fail self.old self.new
            (IsErrOf result StoreError.Failed) }
        ensures contest { HasContest contests may_contest self.old self.new
            (IsErrOf result StoreError.Taken) }
        ensures not_too_long { IsNotTooLong result };

    /// Removes the file, durably. That there is none is no fault.
    fn remove(&mut self, path: &str) -> Result<(), StoreError>
        ensures ok { tells → OnOk result (disk self.new ≡ removed (disk self.old) path.now) }
        ensures err { tells → OnErr result
            ((disk self.new ≡ disk self.old) ⊎ (disk self.new ≡ removed (disk self.old) path.now)) }
        ensures elapses { tells → Elapses disk time left_since self.old self.new }
        ensures cause { HasFault faults may_fail self.old self.new
            (IsErrOf result StoreError.Failed) }
        ensures not_too_long { IsNotTooLong result }
        ensures contest { HasNoContest contests may_contest self.old self.new
            (IsErrOf result StoreError.Taken) };

    /// No count passes the last number of 64 bits, at which a count stands still.
    ghost counts_end: { (store : Self)
        → (faults store ≤ 2 ^ 64 - 1) × (contests store ≤ 2 ^ 64 - 1) };

    /// The moments since a time are among those since an earlier one.
    ghost earlier: { (store : Self) (t u : ℕ) (image : Files) → tells → t ≤ u
        → left_since store u image → left_since store t image };

    /// This moment is one of those since an earlier one.
    ghost counts_now: { (store : Self) (t : ℕ) (image : Files) → tells → t ≤ time store
        → MayLeave (disk store) image → left_since store t image };

    /// Since this moment there is no other.
    ghost only_now: { (store : Self) (image : Files) → tells → left_since store (time store) image
        → MayLeave (disk store) image };
}
