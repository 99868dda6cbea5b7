//! Removing files in order.

ghost use Rattle.std.specs.Prelude.{◌≡◌, [], IfErr, IsErrOf, OnOk};
ghost use Rattle.lake_store.specs.Runs.{FailsBy, IsUncontestedBy, OnlyReads};
ghost use Rattle.lake_sweep.specs.Refusals.{HasCause};
ghost use Rattle.lake_sweep.specs.Removing.{AreGone, Removes};
ghost use Rattle.lake_sweep.specs.declared.error.SweepError.TheVariants.{StoreFault};

use crate::error::SweepError;
use lake_basics::Text;
use lake_store::Store;

/// Removes the files at these paths, in their order. Before the first removal the store is synced, so
/// that no path is dirty; where there is no path, nothing is done.
pub(crate) fn remove_all<S: Store>(store: &mut S, paths: &[Text]) -> Result<(), SweepError>
    ensures none { S.tells → paths.now ≡ [] → OnlyReads ⟦<S as Store>⟧ store.old store.new }
    ensures gone { S.tells → OnOk result
        (AreGone paths.now (S.disk store.old).files (S.disk store.new).files) }
    ensures removes { S.tells → Removes ⟦<S as Store>⟧ paths.now store.old store.new }
    ensures refused { IfErr result (HasCause (λ e. ⊥)) }
    ensures cause { FailsBy ⟦<S as Store>⟧ store.old store.new (IsErrOf result StoreFault) }
    ensures contest { IsUncontestedBy ⟦<S as Store>⟧ store.old store.new ⊥ }
{
    if paths.is_empty() {
        return Ok(());
    }
    store.sync()?;
    for path in paths {
        store.remove(path.as_str())?;
    }
    Ok(())
}
