//! One commit, with the recovery before it.
ghost use Rattle.std.specs.Prelude.{◌≡◌, ◌≤◌, ℕ, List, IfSome, IsErrOf, IsSome, None, OnOk, Some, length};
ghost use Rattle.std.specs.Option.{option_copied};
ghost use Rattle.std.specs.FinMap as map;
ghost use Rattle.lake_basics.specs.declared.limits.TheConstants.{MAX_FILE_BYTES};
ghost use Rattle.lake_store.specs.Cause.{IsNotTooLong};
ghost use Rattle.lake_store.specs.Disk.{AddsShort, Files};
ghost use Rattle.lake_store.specs.Runs.{FailsBy, IsContestedBy, IsEachMoment, LeavesAlone};
ghost use Rattle.hudi_names.specs.Time.{IsSomeTime};
ghost use Rattle.hudi_commit.specs.Names.{IsThere, StaysOrGoes, completed_path, properties_path, staged_properties_path};
ghost use Rattle.hudi_commit.specs.Orderly.{IsOrderly};
ghost use Rattle.hudi_commit.specs.Runs.{HasCome, HasCompleted, HasManyClaims, IsIdle, IsKept, IsKeptBut, IsOneStep, IsPrepared, IsReady, IsTakenBy, IsUncontested, LacksOrIs, NotGiven, StaysBefore};
ghost use Rattle.hudi_commit.specs.Settled.{IsSettled, Stands};

use crate::paths::InstantPaths;
use crate::properties::publish_properties;
use crate::publication::complete;
use crate::recovery::clear_claims;
use lake_store::{Store, StoreError};
use std::alloc::Global;

/// Publishes the properties that are given before the first commit.
fn prepare<S: Store>(store: &mut S, properties: Option<&[u8]>) -> Result<(), StoreError>
    ensures keeps { S.tells → IsUncontested result → (base : Files)
        → Stands base (S.disk store.old) → IsIdle (S.disk store.old)
        → IsReady (option_copied properties.entry) (S.disk store.old).files
        → StaysBefore ⟦<S as Store>⟧ (option_copied properties.entry) base store.old store.new }
    ensures prepared { S.tells → (base : Files)
        → Stands base (S.disk store.old) → IsIdle (S.disk store.old)
        → IsReady (option_copied properties.entry) (S.disk store.old).files
        → OnOk result (IsPrepared (option_copied properties.entry) base (S.disk store.old)
        (S.disk store.new)) }
    ensures others { S.tells → OnOk result ((path : List ℕ)
        → NotGiven (option_copied properties.entry) path
        → StaysOrGoes (S.disk store.old).files (S.disk store.new).files path) }
    ensures staged { S.tells → OnOk result (IsSome (option_copied properties.entry)
        → map.get (S.disk store.new).files staged_properties_path ≡ None) }
    ensures taken { S.tells → IsErrOf result StoreError.Taken
        → IsSome (option_copied properties.entry)
        × IsThere (S.disk store.new).files properties_path }
    ensures alone { S.tells → LeavesAlone ⟦<S as Store>⟧ (IsKeptBut (option_copied properties.entry))
        store.old store.new }
    ensures short { S.tells
        → IfSome (option_copied properties.entry) (λ text. length text ≤ MAX_FILE_BYTES)
        → AddsShort MAX_FILE_BYTES (S.disk store.old).files (S.disk store.new).files }
    ensures cause { FailsBy ⟦<S as Store>⟧ store.old store.new (IsErrOf result StoreError.Failed) }
    ensures contest { IsContestedBy ⟦<S as Store>⟧ store.old store.new
        (IsErrOf result StoreError.Taken) }
    ensures not_too_long { IsNotTooLong result }
{
    match properties {
        Some(properties) => publish_properties(store, properties),
        None => Ok(()),
    }
}

/// Publishes a replacecommit of this text under an instant that isn't completed, 17 digits that
/// spell a day and a time in UTC, after undoing what stopped commits left. The text of the table's
/// properties is given before its first commit. A crash at any moment leaves the timeline as before
/// or as after (Hudi technical specification, timeline).
pub fn publish_commit<S: Store>(
    alloc: Global,
    store: &mut S,
    properties: Option<&[u8]>,
    instant: &str,
    text: &[u8],
) -> Result<(), StoreError>
    requires real { IsSomeTime instant.now }
    requires free { S.tells → map.get (S.disk store.old).files (completed_path instant.now) ≡ None }

    // What stands once its file has come, also where it is refused then.
    ensures comes { S.tells → HasCome result instant.now (S.disk store.new).files
        → HasCompleted (option_copied properties.entry) instant.now text.now
        (S.disk store.old) (S.disk store.new) }

    // At any moment the timeline reads as before or as after, and it stays settled.
    ensures one_step { S.tells → IsUncontested result → IsOrderly (S.disk store.old).files
        → IsSettled (S.disk store.old)
        → IsReady (option_copied properties.entry) (S.disk store.old).files
        → IsOneStep ⟦<S as Store>⟧ (option_copied properties.entry) instant.now text.now
        store.old store.new }

    // Whatever the answer, completed instants stay byte for byte at any moment, and all else but
    // what stopped commits left.
    ensures kept { S.tells → LeavesAlone ⟦<S as Store>⟧
        (IsKept (option_copied properties.entry) instant.now (S.disk store.old).files)
        store.old store.new }
    ensures taken { S.tells → IsErrOf result StoreError.Taken
        → IsTakenBy (option_copied properties.entry) instant.now (S.disk store.new).files }

    // Where another writer was first, no crash leaves an instant completed that isn't so at return.
    ensures theirs { S.tells → IsErrOf result StoreError.Taken
        → IsEachMoment ⟦<S as Store>⟧ store.old store.new
        (LacksOrIs instant.now (S.disk store.old) (S.disk store.new).files) }

    // Each file is as before, or can be read whole, where the texts can.
    ensures short { S.tells
        → IfSome (option_copied properties.entry) (λ text. length text ≤ MAX_FILE_BYTES)
        → length text.now ≤ MAX_FILE_BYTES
        → AddsShort MAX_FILE_BYTES (S.disk store.old).files (S.disk store.new).files }
    ensures cause { FailsBy ⟦<S as Store>⟧ store.old store.new (IsErrOf result StoreError.Failed) }
    ensures contest { IsContestedBy ⟦<S as Store>⟧ store.old store.new
        (IsErrOf result StoreError.Taken) }
    ensures too_long { (n : ℕ) → IsErrOf result (StoreError.TooLong n)
        → HasManyClaims ⟦<S as Store>⟧ instant.now n store.old store.new }
{
    let paths = InstantPaths::new(alloc, instant)?;
    store.sync()?;
    clear_claims(alloc, store)?;
    prepare(store, properties)?;
    complete(store, &paths, text)
}
