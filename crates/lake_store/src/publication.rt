//! Publishing a file in one step.
ghost use Rattle.std.specs.Prelude.{◌≡◌, ◌≢◌, ◌≤◌, length, IsErrOf, None, OnOk};
ghost use Rattle.std.specs.FinMap as map;
ghost use Rattle.lake_basics.specs.declared.limits.TheConstants.{MAX_FILE_BYTES};
ghost use Rattle.lake_store.specs.Cause.{IsNotTooLong};
ghost use Rattle.lake_store.specs.Disk.{AddsShort};
ghost use Rattle.lake_store.specs.Publication.{IsPublished, IsStaged, IsStagedImage, IsTaken};
ghost use Rattle.lake_store.specs.Runs.{FailsBy, IsContestedBy, LeavesOnly};

use crate::store::{Store, StoreError};

/// Publishes a file under a name, by way of a staged file. At any moment a crash leaves the name
/// absent or whole. After a refusal the staged file may be left.
pub fn stage_and_publish<S: Store>(
    store: &mut S,
    staged: &str,
    name: &str,
    bytes: &[u8],
) -> Result<(), StoreError>
    requires apart { staged.now ≢ name.now }
    requires free { S.tells → map.get (S.disk store.old).files name.now ≡ None }
    ensures published { S.tells → OnOk result
        (IsPublished staged.now name.now bytes.now (S.disk store.old) (S.disk store.new)) }
    ensures taken { S.tells → IsErrOf result StoreError.Taken
        → IsTaken ⟦<S as Store>⟧ staged.now name.now bytes.now store.old store.new }
    ensures left { S.tells → IsStaged staged.now name.now bytes.now
        (IsErrOf result StoreError.Taken) (S.disk store.old) (S.disk store.new) }
    ensures short { S.tells → length bytes.now ≤ MAX_FILE_BYTES
        → AddsShort MAX_FILE_BYTES (S.disk store.old).files (S.disk store.new).files }
    ensures any_moment { LeavesOnly ⟦<S as Store>⟧ store.old store.new
        (IsStagedImage staged.now name.now bytes.now (IsErrOf result StoreError.Taken)
        (S.disk store.old)) }
    ensures cause { FailsBy ⟦<S as Store>⟧ store.old store.new (IsErrOf result StoreError.Failed) }
    ensures contest { IsContestedBy ⟦<S as Store>⟧ store.old store.new
        (IsErrOf result StoreError.Taken) }
    ensures not_too_long { IsNotTooLong result }
{
    store.write(staged, bytes)?;
    store.sync()?;
    store.publish(staged, name)
}
