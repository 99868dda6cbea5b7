//! Undoing what stopped commits left.
ghost use Rattle.std.specs.Prelude.{◌≡◌, ◌<◌, ℕ, IsErrOf, OnOk, length};
ghost use Rattle.lake_basics.specs.declared.limits.TheConstants.{MAX_FILE_BYTES, MAX_NAMES};
ghost use Rattle.lake_store.specs.Cause.{IsNotTooLong};
ghost use Rattle.lake_store.specs.Disk.{AddsShort, Files, names_in};
ghost use Rattle.lake_store.specs.Runs.{FailsBy, IsUncontestedBy, LeavesAlone};
ghost use Rattle.hudi_names.specs.Time.{IsSomeTime};
ghost use Rattle.hudi_commit.specs.Names.{claims_folder};
ghost use Rattle.hudi_commit.specs.Runs.{IsNotOf, IsNotOpen, IsRecovered, IsRecoveredAt, IsTidied, StaysAlike, cleared};
ghost use Rattle.hudi_commit.specs.Settled.{Stands};

use crate::paths::InstantPaths;
use hudi_names::read_time;
use lake_store::{Store, StoreError};
use std::alloc::Global;

/// Removes an instant's pending names and its claim, the claim last.
fn clear_claim<S: Store>(store: &mut S, paths: &InstantPaths) -> Result<(), StoreError>
    requires { IsSomeTime paths.now }
    ensures keeps { S.tells → (base : Files) → Stands base (S.disk store.old)
        → StaysAlike ⟦<S as Store>⟧ base store.old store.new }
    ensures cleared { S.tells → OnOk result (S.disk store.new ≡ cleared paths.now (S.disk store.old)) }
    ensures alone { S.tells → LeavesAlone ⟦<S as Store>⟧ (IsNotOf paths.now) store.old store.new }
    ensures short { S.tells
        → AddsShort MAX_FILE_BYTES (S.disk store.old).files (S.disk store.new).files }
    ensures cause { FailsBy ⟦<S as Store>⟧ store.old store.new (IsErrOf result StoreError.Failed) }
    ensures contest { IsUncontestedBy ⟦<S as Store>⟧ store.old store.new
        (IsErrOf result StoreError.Taken) }
    ensures not_too_long { IsNotTooLong result }
{
    store.remove(paths.inflight())?;
    store.remove(paths.requested())?;
    store.remove(paths.claim())
}

/// Undoes what a claim of this name began, where it is an instant's that isn't completed.
fn recover_claim<S: Store>(alloc: Global, store: &mut S, name: &str) -> Result<(), StoreError>
    ensures keeps { S.tells → (base : Files) → Stands base (S.disk store.old)
        → StaysAlike ⟦<S as Store>⟧ base store.old store.new }
    ensures tidied { S.tells → OnOk result (IsTidied (S.disk store.old) (S.disk store.new)) }
    ensures recovered { S.tells → OnOk result (IsRecoveredAt (S.disk store.new) name.now) }
    ensures alone { S.tells → LeavesAlone ⟦<S as Store>⟧ (IsNotOpen (S.disk store.old).files)
        store.old store.new }
    ensures short { S.tells
        → AddsShort MAX_FILE_BYTES (S.disk store.old).files (S.disk store.new).files }
    ensures cause { FailsBy ⟦<S as Store>⟧ store.old store.new (IsErrOf result StoreError.Failed) }
    ensures contest { IsUncontestedBy ⟦<S as Store>⟧ store.old store.new
        (IsErrOf result StoreError.Taken) }
    ensures not_too_long { IsNotTooLong result }
{
    if read_time(name.as_bytes()).is_none() {
        return Ok(());
    }
    let paths = InstantPaths::new(alloc, name)?;
    let completed = store.read_part(alloc, paths.completed(), 0, 0)?;
    match completed {
        Some(_) => Ok(()),
        None => clear_claim(store, &paths),
    }
}

/// Undoes each claim of an instant that isn't completed.
pub fn clear_claims<S: Store>(alloc: Global, store: &mut S) -> Result<(), StoreError>
    ensures keeps { S.tells → (base : Files) → Stands base (S.disk store.old)
        → StaysAlike ⟦<S as Store>⟧ base store.old store.new }
    ensures tidied { S.tells → OnOk result (IsTidied (S.disk store.old) (S.disk store.new)) }
    ensures recovered { S.tells → OnOk result (IsRecovered (S.disk store.new)) }
    ensures alone { S.tells → LeavesAlone ⟦<S as Store>⟧ (IsNotOpen (S.disk store.old).files)
        store.old store.new }
    ensures short { S.tells
        → AddsShort MAX_FILE_BYTES (S.disk store.old).files (S.disk store.new).files }
    ensures cause { FailsBy ⟦<S as Store>⟧ store.old store.new (IsErrOf result StoreError.Failed) }
    ensures contest { IsUncontestedBy ⟦<S as Store>⟧ store.old store.new
        (IsErrOf result StoreError.Taken) }
    ensures too_long { (n : ℕ) → IsErrOf result (StoreError.TooLong n) → (MAX_NAMES < n)
        × (S.tells → n ≡ length (names_in (S.disk store.old).files claims_folder)) }
{
    let names = store.list(alloc, ".hoodie/.lakebridge")?;
    let claims = names.as_slice();
    for name in claims {
        recover_claim(alloc, store, name.as_str())?;
    }
    Ok(())
}
