//! The properties of a table, published before its first commit.
ghost use Rattle.std.specs.Prelude.{◌≡◌, ◌≤◌, IsErrOf, OnOk, Some, length};
ghost use Rattle.lake_basics.specs.declared.limits.TheConstants.{MAX_FILE_BYTES};
ghost use Rattle.lake_store.specs.Cause.{IsNotTooLong};
ghost use Rattle.lake_store.specs.Disk.{AddsShort, Files};
ghost use Rattle.lake_store.specs.Runs.{FailsBy, IsContestedBy, LeavesAlone};
ghost use Rattle.hudi_commit.specs.Names.{IsThere, properties_path};
ghost use Rattle.hudi_commit.specs.Runs.{HasProperties, IsNoProperties, IsQuiet, IsUncontested, StaysBefore};
ghost use Rattle.hudi_commit.specs.Settled.{Stands};

use lake_store::{Store, StoreError};

const PROPERTIES_PATH: &str = ".hoodie/hoodie.properties";

const STAGED_PATH: &str = ".hoodie/.lakebridge/properties";

/// Publishes the properties of a table without an instant, in place of any that are there.
pub fn publish_properties<S: Store>(store: &mut S, properties: &[u8]) -> Result<(), StoreError>
    ensures keeps { S.tells → IsUncontested result → (base : Files)
        → Stands base (S.disk store.old) → IsQuiet (S.disk store.old)
        → StaysBefore ⟦<S as Store>⟧ (Some properties.now) base store.old store.new }
    ensures published { S.tells
        → OnOk result (HasProperties properties.now (S.disk store.old) (S.disk store.new)) }
    ensures taken { S.tells → IsErrOf result StoreError.Taken
        → IsThere (S.disk store.new).files properties_path }
    ensures alone { S.tells → LeavesAlone ⟦<S as Store>⟧ IsNoProperties
        store.old store.new }

    // Each file is as before, or can be read whole, where the properties can.
    ensures short { S.tells → length properties.now ≤ MAX_FILE_BYTES
        → AddsShort MAX_FILE_BYTES (S.disk store.old).files (S.disk store.new).files }
    ensures cause { FailsBy ⟦<S as Store>⟧ store.old store.new (IsErrOf result StoreError.Failed) }
    ensures contest { IsContestedBy ⟦<S as Store>⟧ store.old store.new
        (IsErrOf result StoreError.Taken) }
    ensures not_too_long { IsNotTooLong result }
{
    store.remove(PROPERTIES_PATH)?;
    store.write(STAGED_PATH, properties)?;
    store.sync()?;
    store.publish(STAGED_PATH, PROPERTIES_PATH)
}
