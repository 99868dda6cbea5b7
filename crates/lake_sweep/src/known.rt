//! Which targets are swept: those without a commit, and those that are all ours for a source of one
//! of the other two formats.

ghost use Rattle.std.specs.Prelude.{◌≡◌, IfErr, IfOk, IsErrOf, MatchOption, OnOk};
ghost use Rattle.lake_store.specs.Runs.{FailsBy, IsUncontestedBy, OnlyReads};
ghost use Rattle.target_core.specs.TargetMeanings.{meaning};
ghost use Rattle.lake_sweep.specs.Plan.{IsKnown, IsKnownFor, first_source, second_source};
ghost use Rattle.lake_sweep.specs.Refusals.{HasCause, IsCrowdedFor, IsUnknown};
ghost use Rattle.lake_sweep.specs.declared.error.SweepError.TheVariants.{StoreFault};

use crate::error::SweepError;
use lake_basics::Text;
use lake_store::Store;
use std::alloc::Global;
use table_history::Kind;
use target_core::{Seen, Target};

/// The first of the other two formats, in the order Delta, Iceberg, Hudi.
fn first_source(kind: Kind) -> Kind
    ensures { result ≡ first_source kind }
{
    match kind {
        Kind::Delta => Kind::Iceberg,
        Kind::Iceberg | Kind::Hudi => Kind::Delta,
    }
}

/// The second of the other two formats.
fn second_source(kind: Kind) -> Kind
    ensures { result ≡ second_source kind }
{
    match kind {
        Kind::Delta | Kind::Iceberg => Kind::Hudi,
        Kind::Hudi => Kind::Iceberg,
    }
}

/// The first path at fault, where the target is foreign to a source of this format.
fn foreign_path<T: Target, S: Store>(
    alloc: Global,
    target: &T,
    store: &mut S,
    source: Kind,
) -> Result<Option<Text>, SweepError>
    ensures seen { S.tells → IfOk result (λ found. MatchOption found
        (IsKnownFor (meaning ⟦<T as Target>⟧ target.now) source (S.disk store.old).files)
        (T.is_foreign target.now source (S.disk store.old).files)) }
    ensures refused { S.tells → IfErr result
        (HasCause (IsCrowdedFor (T.is_crowded target.now source (S.disk store.old).files))) }
    ensures only_reads { S.tells → OnlyReads ⟦<S as Store>⟧ store.old store.new }
    ensures cause { FailsBy ⟦<S as Store>⟧ store.old store.new (IsErrOf result StoreFault) }
    ensures contest { IsUncontestedBy ⟦<S as Store>⟧ store.old store.new ⊥ }
{
    match target.inspect(alloc, store, source)? {
        Seen::Absent => Ok(None),
        Seen::Ours(kept) => {
            drop(kept);
            Ok(None)
        }
        Seen::Foreign(path) => Ok(Some(path)),
    }
}

/// Refuses a target that is foreign to the sources of both other formats, with the first one's path.
/// The second is looked at only where the target is foreign to the first.
pub(crate) fn require_known<T: Target, S: Store>(
    alloc: Global,
    target: &T,
    store: &mut S,
) -> Result<(), SweepError>
    ensures known { S.tells → OnOk result
        (IsKnown (meaning ⟦<T as Target>⟧ target.now) (S.disk store.old).files) }
    ensures refused { S.tells → IfErr result (HasCause
        (IsUnknown (T.is_foreign target.now) (T.is_crowded target.now) (T.kind target.now)
        (S.disk store.old).files)) }
    ensures only_reads { S.tells → OnlyReads ⟦<S as Store>⟧ store.old store.new }
    ensures cause { FailsBy ⟦<S as Store>⟧ store.old store.new (IsErrOf result StoreFault) }
    ensures contest { IsUncontestedBy ⟦<S as Store>⟧ store.old store.new ⊥ }
{
    let kind = target.kind();
    let Some(path) = foreign_path(alloc, target, store, first_source(kind))? else {
        return Ok(());
    };
    match foreign_path(alloc, target, store, second_source(kind))? {
        None => Ok(()),
        Some(_) => Err(SweepError::Foreign { path }),
    }
}
