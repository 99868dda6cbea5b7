//! The calls of a store on the paths of one folder.
ghost use Rattle.std.specs.Prelude.{◌≡◌, ◌⊎◌, ◌<◌, ◌≤◌, List, ℕ, drop, length, take, IfOk, IfSome, IsErrOf, IsSome, None, OnErr, OnOk, string_bytes};
ghost use Rattle.std.specs.Option.{option_map};
ghost use Rattle.std.specs.FinMap as map;
ghost use Rattle.std.specs.Ordering.{nat_cmp};
ghost use Rattle.std.specs.Cmp.Lexicographic.{slice_cmp};
ghost use Rattle.std.specs.List.Sorted.{IsStrictlySortedBy};
ghost use Rattle.lake_store.specs.Cause.{HasContest, HasFault, HasNoContest, IsNotTooLong, IsTooLong};
ghost use Rattle.lake_store.specs.Disk.{AddsShort, HasLength, IsClean, IsPartlySynced, ListsFolder, Moves, SameElsewhere, names_in, removed, stored, synced, written};
ghost use Rattle.lake_batch.specs.Part.{PartElapses, StaysBeside, folder_in, part_disk, part_files, path_in};

use lake_basics::limits::{MAX_FILE_BYTES, MAX_NAMES};
use lake_store::{Blob, Names, Store, StoreError};
use std::alloc::{AllocError, Global};

// The path in the whole store of a path in its folder.
fn path_in(alloc: Global, folder: &str, path: &str) -> Result<String, AllocError>
    ensures { IfOk result (λ whole. string_bytes whole ≡ path_in folder.now path.now) }
{
    let mut whole = String::from_str(alloc, folder)?;
    if !folder.is_empty() {
        whole.push_str("/")?;
    }
    whole.push_str(path)?;
    Ok(whole)
}

// The folder in the whole store of one in its folder.
fn folder_in(alloc: Global, folder: &str, inner: &str) -> Result<String, AllocError>
    ensures { IfOk result (λ whole. string_bytes whole ≡ folder_in folder.now inner.now) }
{
    if inner.is_empty() {
        String::from_str(alloc, folder)
    } else {
        path_in(alloc, folder, inner)
    }
}

pub(crate) fn list<S: Store>(
    store: &mut S,
    alloc: Global,
    folder: &str,
    inner: &str,
) -> Result<Names, StoreError>
    ensures names { S.tells → IfOk result
        (λ names. names ≡ names_in (part_files folder.now (S.disk store.old).files) inner.now) }
    ensures listed { S.tells → IfOk result
        (ListsFolder (part_files folder.now (S.disk store.old).files) inner.now) }
    ensures sorted { IfOk result (IsStrictlySortedBy (slice_cmp nat_cmp)) }
    ensures few { IfOk result (λ names. length names ≤ MAX_NAMES) }
    ensures too_long { (n : ℕ) → IsErrOf result (StoreError.TooLong n)
        → (MAX_NAMES < n) × (S.tells
        → n ≡ length (names_in (part_files folder.now (S.disk store.old).files) inner.now)) }
    ensures too_many { S.tells
        → MAX_NAMES < length (names_in (part_files folder.now (S.disk store.old).files) inner.now)
        → IsTooLong (length (names_in (part_files folder.now (S.disk store.old).files) inner.now))
        result }
    ensures same { S.tells
        → part_disk folder.now (S.disk store.new) ≡ part_disk folder.now (S.disk store.old) }
    ensures elapses { PartElapses ⟦<S as Store>⟧ folder.now store.old store.new }
    ensures cause { HasFault S.faults S.may_fail store.old store.new
        (IsErrOf result StoreError.Failed) }
    ensures contest { HasNoContest S.contests S.may_contest store.old store.new
        (IsErrOf result StoreError.Taken) }
    ensures beside { StaysBeside ⟦<S as Store>⟧ folder.now store.old store.new }
{
    let whole = folder_in(alloc, folder, inner)?;
    store.list(alloc, whole.as_str())
}

pub(crate) fn read<S: Store>(
    store: &mut S,
    alloc: Global,
    folder: &str,
    path: &str,
) -> Result<Option<Blob>, StoreError>
    ensures bytes { S.tells → IfOk result
        (λ bytes. bytes ≡ map.get (part_files folder.now (S.disk store.old).files) path.now) }
    ensures short { IfOk result
        (λ bytes. IfSome bytes (λ bytes. length bytes ≤ MAX_FILE_BYTES)) }
    ensures too_long { (n : ℕ) → IsErrOf result (StoreError.TooLong n)
        → (MAX_FILE_BYTES < n) × (S.tells
        → HasLength (part_files folder.now (S.disk store.old).files) path.now n) }
    ensures too_large { S.tells → (n : ℕ) → MAX_FILE_BYTES < n
        → HasLength (part_files folder.now (S.disk store.old).files) path.now n
        → IsTooLong n result }
    ensures same { S.tells
        → part_disk folder.now (S.disk store.new) ≡ part_disk folder.now (S.disk store.old) }
    ensures elapses { PartElapses ⟦<S as Store>⟧ folder.now store.old store.new }
    ensures cause { HasFault S.faults S.may_fail store.old store.new
        (IsErrOf result StoreError.Failed) }
    ensures contest { HasNoContest S.contests S.may_contest store.old store.new
        (IsErrOf result StoreError.Taken) }
    ensures beside { StaysBeside ⟦<S as Store>⟧ folder.now store.old store.new }
{
    let whole = path_in(alloc, folder, path)?;
    store.read(alloc, whole.as_str())
}

pub(crate) fn read_part<S: Store>(
    store: &mut S,
    alloc: Global,
    folder: &str,
    path: &str,
    from: u64,
    len: u32,
) -> Result<Option<Blob>, StoreError>
    ensures bytes { S.tells → IfOk result (λ part.
        part ≡ option_map (λ bytes. take len (drop from bytes))
        (map.get (part_files folder.now (S.disk store.old).files) path.now)) }
    ensures short { IfOk result (λ part. IfSome part (λ bytes. length bytes ≤ len)) }
    ensures same { S.tells
        → part_disk folder.now (S.disk store.new) ≡ part_disk folder.now (S.disk store.old) }
    ensures elapses { PartElapses ⟦<S as Store>⟧ folder.now store.old store.new }
    ensures cause { HasFault S.faults S.may_fail store.old store.new
        (IsErrOf result StoreError.Failed) }
    ensures not_too_long { IsNotTooLong result }
    ensures contest { HasNoContest S.contests S.may_contest store.old store.new
        (IsErrOf result StoreError.Taken) }
    ensures beside { StaysBeside ⟦<S as Store>⟧ folder.now store.old store.new }
{
    let whole = path_in(alloc, folder, path)?;
    store.read_part(alloc, whole.as_str(), from, len)
}

pub(crate) fn write<S: Store>(
    store: &mut S,
    alloc: Global,
    folder: &str,
    path: &str,
    bytes: &[u8],
) -> Result<(), StoreError>
    ensures ok { S.tells → OnOk result (part_disk folder.now (S.disk store.new)
        ≡ written (part_disk folder.now (S.disk store.old)) path.now bytes.now) }
    ensures err { S.tells → OnErr result (SameElsewhere path.now
        (part_disk folder.now (S.disk store.old)) (part_disk folder.now (S.disk store.new))) }
    ensures short { S.tells → OnErr result (AddsShort (length bytes.now)
        (part_files folder.now (S.disk store.old).files)
        (part_files folder.now (S.disk store.new).files)) }
    ensures elapses { PartElapses ⟦<S as Store>⟧ folder.now store.old store.new }
    ensures cause { HasFault S.faults S.may_fail store.old store.new
        (IsErrOf result StoreError.Failed) }
    ensures not_too_long { IsNotTooLong result }
    ensures contest { HasNoContest S.contests S.may_contest store.old store.new
        (IsErrOf result StoreError.Taken) }
    ensures beside { StaysBeside ⟦<S as Store>⟧ folder.now store.old store.new }
{
    let whole = path_in(alloc, folder, path)?;
    store.write(whole.as_str(), bytes)
}

pub(crate) fn sync<S: Store>(store: &mut S, folder: &str) -> Result<(), StoreError>
    ensures ok { S.tells → OnOk result (part_disk folder.now (S.disk store.new)
        ≡ synced (part_disk folder.now (S.disk store.old))) }
    ensures err { S.tells → OnErr result (IsPartlySynced
        (part_disk folder.now (S.disk store.old)) (part_disk folder.now (S.disk store.new))) }
    ensures elapses { PartElapses ⟦<S as Store>⟧ folder.now store.old store.new }
    ensures cause { HasFault S.faults S.may_fail store.old store.new
        (IsErrOf result StoreError.Failed) }
    ensures not_too_long { IsNotTooLong result }
    ensures contest { HasNoContest S.contests S.may_contest store.old store.new
        (IsErrOf result StoreError.Taken) }
    ensures beside { StaysBeside ⟦<S as Store>⟧ folder.now store.old store.new }
{
    store.sync()
}

pub(crate) fn publish<S: Store>(
    store: &mut S,
    alloc: Global,
    folder: &str,
    from: &str,
    to: &str,
) -> Result<(), StoreError>
    requires there { S.tells
        → IsSome (map.get (part_files folder.now (S.disk store.old).files) from.now) }
    requires durable { S.tells → IsClean (part_disk folder.now (S.disk store.old)) from.now }
    requires free { S.tells
        → map.get (part_files folder.now (S.disk store.old).files) to.now ≡ None }
    ensures ok { S.tells → OnOk result (Moves from.now to.now
        (part_disk folder.now (S.disk store.old)) (part_disk folder.now (S.disk store.new))) }
    ensures taken { S.tells → IsErrOf result StoreError.Taken
        → (bytes : List ℕ) × (part_disk folder.now (S.disk store.new)
        ≡ stored (part_disk folder.now (S.disk store.old)) to.now bytes) }
    ensures short { S.tells → IsErrOf result StoreError.Taken → AddsShort MAX_FILE_BYTES
        (part_files folder.now (S.disk store.old).files)
        (part_files folder.now (S.disk store.new).files) }
    ensures err { S.tells → OnErr result ((IsErrOf result StoreError.Taken → ⊥)
        → (part_disk folder.now (S.disk store.new) ≡ part_disk folder.now (S.disk store.old))
        ⊎ Moves from.now to.now
        (part_disk folder.now (S.disk store.old)) (part_disk folder.now (S.disk store.new))) }
    ensures elapses { PartElapses ⟦<S as Store>⟧ folder.now store.old store.new }
    ensures cause { HasFault S.faults S.may_fail store.old store.new
        (IsErrOf result StoreError.Failed) }
    ensures contest { HasContest S.contests S.may_contest store.old store.new
        (IsErrOf result StoreError.Taken) }
    ensures not_too_long { IsNotTooLong result }
    ensures beside { StaysBeside ⟦<S as Store>⟧ folder.now store.old store.new }
{
    let whole_from = path_in(alloc, folder, from)?;
    let whole_to = path_in(alloc, folder, to)?;
    let from = whole_from.as_str();
    let to = whole_to.as_str();
    store.publish(from, to)
}

pub(crate) fn remove<S: Store>(
    store: &mut S,
    alloc: Global,
    folder: &str,
    path: &str,
) -> Result<(), StoreError>
    ensures ok { S.tells → OnOk result (part_disk folder.now (S.disk store.new)
        ≡ removed (part_disk folder.now (S.disk store.old)) path.now) }
    ensures err { S.tells → OnErr result
        ((part_disk folder.now (S.disk store.new) ≡ part_disk folder.now (S.disk store.old))
        ⊎ (part_disk folder.now (S.disk store.new)
        ≡ removed (part_disk folder.now (S.disk store.old)) path.now)) }
    ensures elapses { PartElapses ⟦<S as Store>⟧ folder.now store.old store.new }
    ensures cause { HasFault S.faults S.may_fail store.old store.new
        (IsErrOf result StoreError.Failed) }
    ensures not_too_long { IsNotTooLong result }
    ensures contest { HasNoContest S.contests S.may_contest store.old store.new
        (IsErrOf result StoreError.Taken) }
    ensures beside { StaysBeside ⟦<S as Store>⟧ folder.now store.old store.new }
{
    let whole = path_in(alloc, folder, path)?;
    store.remove(whole.as_str())
}
