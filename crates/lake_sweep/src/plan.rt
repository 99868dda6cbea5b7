//! What is to be swept.

ghost use Rattle.std.specs.Prelude.{◌≡◌, IfErr, IfOk, IsErrOf, OnOk};
ghost use Rattle.lake_store.specs.Runs.{FailsBy, IsUncontestedBy, OnlyReads};
ghost use Rattle.target_core.specs.TargetMeanings.{meaning};
ghost use Rattle.lake_sweep.specs.Plan.{IsKnown, IsPlan};
ghost use Rattle.lake_sweep.specs.Refusals.{HasCause, IsReadable, IsReadingRefused, IsSweepRefused};
ghost use Rattle.lake_sweep.specs.declared.error.SweepError.TheVariants.{StoreFault};

use crate::delta::delta_leftovers;
use crate::error::SweepError;
use crate::hudi::hudi_leftovers;
use crate::iceberg::iceberg_leftovers;
use crate::known::require_known;
use lake_basics::{Items, Text};
use lake_store::Store;
use std::alloc::Global;
use table_history::Kind;
use target_core::Target;

/// The paths that a sweep removes, in the order of removal.
#[derive(Drop)]
pub struct Swept {
    pub removed: Items<Text>,
}

/// The leftovers in the folder of a format.
fn leftovers<S: Store>(alloc: Global, store: &mut S, kind: Kind) -> Result<Items<Text>, SweepError>
    ensures planned { S.tells → IfOk result (IsPlan kind (S.disk store.old).files) }
    ensures readable { S.tells → OnOk result (IsReadable kind (S.disk store.old).files) }
    ensures refused { S.tells → IfErr result
        (HasCause (IsReadingRefused kind (S.disk store.old).files)) }
    ensures only_reads { S.tells → OnlyReads ⟦<S as Store>⟧ store.old store.new }
    ensures cause { FailsBy ⟦<S as Store>⟧ store.old store.new (IsErrOf result StoreFault) }
    ensures contest { IsUncontestedBy ⟦<S as Store>⟧ store.old store.new ⊥ }
{
    match kind {
        Kind::Delta => delta_leftovers(alloc, store),
        Kind::Iceberg => iceberg_leftovers(alloc, store),
        Kind::Hudi => hudi_leftovers(alloc, store),
    }
}

/// The paths that `sweep` would remove: what interrupted commits left in the target's folder and no
/// published commit reaches. It changes no file. `Foreign` is a target that is neither without a
/// commit nor all ours for a source of one of the other formats, or an Iceberg target of which some
/// version or list can't be read; `Limit` tells of a number that is passed before that is known.
pub fn sweep_plan<T: Target, S: Store>(
    alloc: Global,
    target: &T,
    store: &mut S,
) -> Result<Swept, SweepError>
    ensures planned { S.tells → IfOk result
        (λ swept. IsPlan (T.kind target.now) (S.disk store.old).files swept.removed) }

    // Where no refusal has a cause, this is the answer, unless memory runs out or the store fails.
    ensures known { S.tells → OnOk result
        (IsKnown (meaning ⟦<T as Target>⟧ target.now) (S.disk store.old).files) }
    ensures readable { S.tells → OnOk result
        (IsReadable (T.kind target.now) (S.disk store.old).files) }
    ensures refused { S.tells → IfErr result (HasCause
        (IsSweepRefused (T.is_foreign target.now) (T.is_crowded target.now)
        (meaning ⟦<T as Target>⟧ target.now) (S.disk store.old).files)) }
    ensures only_reads { S.tells → OnlyReads ⟦<S as Store>⟧ store.old store.new }
    ensures cause { FailsBy ⟦<S as Store>⟧ store.old store.new (IsErrOf result StoreFault) }
    ensures contest { IsUncontestedBy ⟦<S as Store>⟧ store.old store.new ⊥ }
{
    require_known(alloc, target, store)?;
    Ok(Swept {
        removed: leftovers(alloc, store, target.kind())?,
    })
}
