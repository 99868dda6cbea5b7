//! A sweep.

ghost use Rattle.std.specs.Prelude.{◌≡◌, [], IfErr, IfOk, IsErrOf, OnOk};
ghost use Rattle.lake_store.specs.Runs.{FailsBy, IsEachMoment, IsUncontestedBy, LeavesAlone, OnlyReads};
ghost use Rattle.target_core.specs.Step.{IsBefore};
ghost use Rattle.target_core.specs.TargetMeanings.{meaning};
ghost use Rattle.target_core.specs.Views.{View};
ghost use Rattle.target_leftovers.specs.Loose.{ReadsWithoutLoose};
ghost use Rattle.target_leftovers.specs.Leftovers.{IsLeftover};
ghost use Rattle.lake_sweep.specs.Plan.{IsKnown};
ghost use Rattle.lake_sweep.specs.Refusals.{HasCause, IsReadable, IsSweepRefused};
ghost use Rattle.lake_sweep.specs.Removing.{IsEarly, IsSwept, Sweeps};
ghost use Rattle.lake_sweep.specs.declared.error.SweepError.TheVariants.{StoreFault};

use crate::error::SweepError;
use crate::plan::{Swept, sweep_plan};
use crate::removing::remove_all;
use lake_store::Store;
use std::alloc::Global;
use target_core::Target;

/// Removes the leftovers, and answers their paths.
fn remove_leftovers<T: Target, S: Store>(
    alloc: Global,
    target: &T,
    store: &mut S,
) -> Result<Swept, SweepError>
    ensures swept { S.tells → IfOk result (λ swept. IsSwept (T.kind target.now)
        (S.disk store.old).files (S.disk store.new).files swept.removed) }
    ensures none { S.tells → IfOk result
        (λ swept. swept.removed ≡ [] → OnlyReads ⟦<S as Store>⟧ store.old store.new) }
    ensures sweeps { S.tells
        → Sweeps ⟦<S as Store>⟧ (T.kind target.now) store.old store.new }
    ensures known { S.tells → OnOk result
        (IsKnown (meaning ⟦<T as Target>⟧ target.now) (S.disk store.old).files) }
    ensures readable { S.tells → OnOk result
        (IsReadable (T.kind target.now) (S.disk store.old).files) }
    ensures refused { S.tells → IfErr result (HasCause
        (IsSweepRefused (T.is_foreign target.now) (T.is_crowded target.now)
        (meaning ⟦<T as Target>⟧ target.now) (S.disk store.old).files)) }
    ensures early { S.tells → IfErr result
        (λ e. IsEarly e → OnlyReads ⟦<S as Store>⟧ store.old store.new) }
    ensures cause { FailsBy ⟦<S as Store>⟧ store.old store.new (IsErrOf result StoreFault) }
    ensures contest { IsUncontestedBy ⟦<S as Store>⟧ store.old store.new ⊥ }
{
    let swept = sweep_plan(alloc, target, store)?;
    remove_all(store, swept.removed.as_slice())?;
    Ok(swept)
}

/// Removes what interrupted commits left in the target's folder and no published commit reaches, and
/// answers the removed paths. The refusals are those of `sweep_plan`; `Foreign` and `Limit` remove
/// nothing. At each moment the target reads as before.
pub fn sweep<T: Target, S: Store>(
    alloc: Global,
    target: &T,
    store: &mut S,
) -> Result<Swept, SweepError>
    requires loose { ReadsWithoutLoose (meaning ⟦<T as Target>⟧ target.now) }

    // At `Ok` all leftovers are gone, these are their paths, and all other files are as before.
    ensures swept { S.tells → IfOk result (λ swept. IsSwept (T.kind target.now)
        (S.disk store.old).files (S.disk store.new).files swept.removed) }
    ensures none { S.tells → IfOk result
        (λ swept. swept.removed ≡ [] → OnlyReads ⟦<S as Store>⟧ store.old store.new) }

    // Whatever it answers, a first part of them is gone, in their order and at each moment, and
    // nothing else is changed.
    ensures sweeps { S.tells
        → Sweeps ⟦<S as Store>⟧ (T.kind target.now) store.old store.new }
    ensures alone { S.tells → LeavesAlone ⟦<S as Store>⟧
        (λ path. ¬ IsLeftover (T.kind target.now) (S.disk store.old).files path)
        store.old store.new }

    // Whatever it answers, the target reads as before, with the same commits. Where it was settled,
    // so it does at any moment after a crash.
    ensures reads { S.tells → (view : View) → T.reads target.now (S.disk store.old).files view
        → IsBefore (meaning ⟦<T as Target>⟧ target.now) view (S.disk store.old).files
        (S.disk store.new).files }
    ensures moments { S.tells → T.settled target.now (S.disk store.old) → (view : View)
        → T.reads target.now (S.disk store.old).files view
        → IsEachMoment ⟦<S as Store>⟧ store.old store.new
        (IsBefore (meaning ⟦<T as Target>⟧ target.now) view (S.disk store.old).files) }

    // Where no refusal has a cause, the answer is `Ok`, unless memory runs out or the store fails.
    ensures known { S.tells → OnOk result
        (IsKnown (meaning ⟦<T as Target>⟧ target.now) (S.disk store.old).files) }
    ensures readable { S.tells → OnOk result
        (IsReadable (T.kind target.now) (S.disk store.old).files) }
    ensures refused { S.tells → IfErr result (HasCause
        (IsSweepRefused (T.is_foreign target.now) (T.is_crowded target.now)
        (meaning ⟦<T as Target>⟧ target.now) (S.disk store.old).files)) }
    ensures early { S.tells → IfErr result
        (λ e. IsEarly e → OnlyReads ⟦<S as Store>⟧ store.old store.new) }
    ensures cause { FailsBy ⟦<S as Store>⟧ store.old store.new (IsErrOf result StoreFault) }
    ensures contest { IsUncontestedBy ⟦<S as Store>⟧ store.old store.new ⊥ }
{
    remove_leftovers(alloc, target, store)
}
