//! The names of one instant, from its claim to its completed file.
ghost use Rattle.std.specs.Prelude.{◌≡◌, ◌≤◌, IsErrOf, None, OnOk, Some, length};
ghost use Rattle.std.specs.FinMap as map;
ghost use Rattle.lake_basics.specs.declared.limits.TheConstants.{MAX_FILE_BYTES};
ghost use Rattle.lake_store.specs.Cause.{IsNotTooLong};
ghost use Rattle.lake_store.specs.Disk.{AddsShort, Files, with_file};
ghost use Rattle.lake_store.specs.Runs.{FailsBy, IsContestedBy, IsEachMoment, IsUncontestedBy, LeavesAlone};
ghost use Rattle.hudi_names.specs.Time.{IsSomeTime};
ghost use Rattle.hudi_commit.specs.Names.{IsThere, completed_path};
ghost use Rattle.hudi_commit.specs.Runs.{HasCome, IsNext, IsNoFileOf, IsNotOf, IsPublished, IsUncontested, LacksOrIs, StaysAlike, StaysOrGains, announced, claimed, completed};
ghost use Rattle.hudi_commit.specs.Settled.{IsAnnounceable, IsUnannounced, Stands};

use crate::paths::InstantPaths;
use lake_store::{Store, StoreError};

/// Claims an instant durably. The claim has the bytes that are to be published.
fn claim<S: Store>(store: &mut S, paths: &InstantPaths, bytes: &[u8]) -> Result<(), StoreError>
    requires { IsSomeTime paths.now }
    ensures keeps { S.tells → (base : Files) → Stands base (S.disk store.old)
        → IsUnannounced (S.disk store.old) paths.now
        → StaysAlike ⟦<S as Store>⟧ base store.old store.new }
    ensures claimed { S.tells
        → OnOk result (S.disk store.new ≡ claimed paths.now bytes.now (S.disk store.old)) }
    ensures alone { S.tells → LeavesAlone ⟦<S as Store>⟧ (IsNotOf paths.now) store.old store.new }
    ensures short { S.tells → length bytes.now ≤ MAX_FILE_BYTES
        → AddsShort MAX_FILE_BYTES (S.disk store.old).files (S.disk store.new).files }
    ensures cause { FailsBy ⟦<S as Store>⟧ store.old store.new (IsErrOf result StoreError.Failed) }
    ensures contest { IsUncontestedBy ⟦<S as Store>⟧ store.old store.new
        (IsErrOf result StoreError.Taken) }
    ensures not_too_long { IsNotTooLong result }
{
    store.write(paths.claim(), bytes)?;
    store.sync()
}

/// Makes the pending names of a claimed instant.
fn announce<S: Store>(store: &mut S, paths: &InstantPaths) -> Result<(), StoreError>
    requires { IsSomeTime paths.now }
    ensures keeps { S.tells → (base : Files) → Stands base (S.disk store.old)
        → IsAnnounceable (S.disk store.old) paths.now
        → StaysAlike ⟦<S as Store>⟧ base store.old store.new }
    ensures announced { S.tells
        → OnOk result (S.disk store.new ≡ announced paths.now (S.disk store.old)) }
    ensures alone { S.tells → LeavesAlone ⟦<S as Store>⟧ (IsNotOf paths.now) store.old store.new }
    ensures short { S.tells
        → AddsShort MAX_FILE_BYTES (S.disk store.old).files (S.disk store.new).files }
    ensures cause { FailsBy ⟦<S as Store>⟧ store.old store.new (IsErrOf result StoreError.Failed) }
    ensures contest { IsUncontestedBy ⟦<S as Store>⟧ store.old store.new
        (IsErrOf result StoreError.Taken) }
    ensures not_too_long { IsNotTooLong result }
{
    store.write(paths.requested(), b"")?;
    store.write(paths.inflight(), b"")?;
    store.sync()
}

/// Completes an instant of which nothing is pending, with these bytes.
pub fn complete<S: Store>(
    store: &mut S,
    paths: &InstantPaths,
    bytes: &[u8],
) -> Result<(), StoreError>
    requires real { IsSomeTime paths.now }
    requires free { S.tells → map.get (S.disk store.old).files (completed_path paths.now) ≡ None }
    ensures gains { S.tells → IsUncontested result → (base : Files)
        → Stands base (S.disk store.old) → IsNext paths.now (S.disk store.old)
        → StaysOrGains ⟦<S as Store>⟧ base paths.now bytes.now store.old store.new }
    ensures published { S.tells → (base : Files)
        → Stands base (S.disk store.old) → IsNext paths.now (S.disk store.old)
        → HasCome result paths.now (S.disk store.new).files
        → IsPublished base paths.now bytes.now (S.disk store.old) (S.disk store.new) }
    ensures completed { S.tells → HasCome result paths.now (S.disk store.new).files
        → S.disk store.new ≡ completed paths.now bytes.now (S.disk store.old) }
    ensures taken { S.tells → IsErrOf result StoreError.Taken
        → IsThere (S.disk store.new).files (completed_path paths.now) }
    ensures theirs { S.tells → IsErrOf result StoreError.Taken
        → IsEachMoment ⟦<S as Store>⟧ store.old store.new
        (LacksOrIs paths.now (S.disk store.old) (S.disk store.new).files) }
    ensures alone { S.tells → LeavesAlone ⟦<S as Store>⟧ (IsNoFileOf paths.now)
        store.old store.new }
    ensures short { S.tells → length bytes.now ≤ MAX_FILE_BYTES
        → AddsShort MAX_FILE_BYTES (S.disk store.old).files (S.disk store.new).files }
    ensures cause { FailsBy ⟦<S as Store>⟧ store.old store.new (IsErrOf result StoreError.Failed) }
    ensures contest { IsContestedBy ⟦<S as Store>⟧ store.old store.new
        (IsErrOf result StoreError.Taken) }
    ensures not_too_long { IsNotTooLong result }
{
    claim(store, paths, bytes)?;
    announce(store, paths)?;
    store.publish(paths.claim(), paths.completed())
}
