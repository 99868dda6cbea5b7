//! The names in a folder, and whether a file is there.

ghost use Rattle.std.specs.Prelude.{◌≡◌, ◌↔◌, IfErr, IfOk, IsErrOf, IsTrue, OnOk};
ghost use Rattle.lake_store.specs.Disk.{names_in};
ghost use Rattle.lake_store.specs.Runs.{FailsBy, IsUncontestedBy, OnlyReads};
ghost use Rattle.hudi_commit.specs.Names.{IsThere};
ghost use Rattle.lake_sweep.specs.Refusals.{HasCause, HasFewNames, HasManyNames};
ghost use Rattle.lake_sweep.specs.declared.error.SweepError.TheVariants.{StoreFault};

use crate::error::SweepError;
use lake_store::{Names, Store};
use std::alloc::Global;

/// The names of the files directly in the folder, in byte order.
pub(crate) fn list_names<S: Store>(
    alloc: Global,
    store: &mut S,
    folder: &str,
) -> Result<Names, SweepError>
    ensures names { S.tells → IfOk result
        (λ names. names ≡ names_in (S.disk store.old).files folder.now) }
    ensures few { S.tells → OnOk result (HasFewNames (S.disk store.old).files folder.now) }
    ensures refused { S.tells → IfErr result
        (HasCause (HasManyNames (S.disk store.old).files folder.now)) }
    ensures only_reads { S.tells → OnlyReads ⟦<S as Store>⟧ store.old store.new }
    ensures cause { FailsBy ⟦<S as Store>⟧ store.old store.new (IsErrOf result StoreFault) }
    ensures contest { IsUncontestedBy ⟦<S as Store>⟧ store.old store.new ⊥ }
{
    Ok(store.list(alloc, folder)?)
}

/// Whether there is a file at the path.
pub(crate) fn is_there<S: Store>(
    alloc: Global,
    store: &mut S,
    path: &str,
) -> Result<bool, SweepError>
    ensures there { S.tells → IfOk result
        (λ there. IsTrue there ↔ IsThere (S.disk store.old).files path.now) }
    ensures refused { IfErr result (HasCause (λ e. ⊥)) }
    ensures only_reads { S.tells → OnlyReads ⟦<S as Store>⟧ store.old store.new }
    ensures cause { FailsBy ⟦<S as Store>⟧ store.old store.new (IsErrOf result StoreFault) }
    ensures contest { IsUncontestedBy ⟦<S as Store>⟧ store.old store.new ⊥ }
{
    let part = store.read_part(alloc, path, 0, 0)?;
    Ok(part.is_some())
}
