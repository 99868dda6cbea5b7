//! The leftovers of a Delta target.

ghost use Rattle.std.specs.Prelude.{◌≡◌, ◌++◌, IfErr, IfOk, IsErrOf, OnOk, codes};
ghost use Rattle.std.specs.Cmp.Lexicographic.{slice_cmp};
ghost use Rattle.std.specs.List.Sorted.{IsStrictlySortedBy};
ghost use Rattle.std.specs.Ordering.{nat_cmp};
ghost use Rattle.lake_store.specs.Runs.{FailsBy, IsUncontestedBy, OnlyReads};
ghost use Rattle.table_history.specs.declared.kind.Kind.TheVariants.{Delta};
ghost use Rattle.target_leftovers.specs.Names.{IsDeltaName};
ghost use Rattle.lake_sweep.specs.Picking.{ArePicked, IsWithName};
ghost use Rattle.lake_sweep.specs.Plan.{IsPlan};
ghost use Rattle.lake_sweep.specs.Refusals.{HasCause, IsReadable, IsReadingRefused};
ghost use Rattle.lake_sweep.specs.declared.error.SweepError.TheVariants.{StoreFault};

use crate::error::SweepError;
use crate::names::list_names;
use lake_basics::{Items, Text};
use lake_store::Store;
use std::alloc::{AllocError, Global};
use target_leftovers::is_delta_name;

/// The folder of a Delta table's log (Delta protocol, "Delta Log Entries").
const LOG_FOLDER: &str = "_delta_log";

/// The path of a name in the log's folder.
fn log_path(alloc: Global, name: &Text) -> Result<Text, AllocError>
    ensures { IfOk result (λ path. path ≡ codes "_delta_log/" ++ name.now) }
{
    Ok(Text::from_string(format!(in alloc; "_delta_log/{}", name.as_str())?))
}

/// The paths with that of this name more, where a version may have been staged under it.
fn with_staged(alloc: Global, paths: Items<Text>, name: &Text) -> Result<Items<Text>, AllocError>
    ensures { IfOk result (IsWithName IsDeltaName (codes "_delta_log/") name.now paths) }
{
    if !is_delta_name(name.as_bytes()) {
        return Ok(paths);
    }
    let path = log_path(alloc, name)?;
    let mut paths = paths;
    paths.push(path)?;
    Ok(paths)
}

/// The paths of the names that a version may have been staged under.
fn staged_paths(alloc: Global, names: &[Text]) -> Result<Items<Text>, AllocError>
    requires { IsStrictlySortedBy (slice_cmp nat_cmp) names.now }
    ensures { IfOk result (ArePicked IsDeltaName (codes "_delta_log/") names.now) }
{
    let mut paths = Items::new(alloc);
    for name in names {
        paths = with_staged(alloc, paths, name)?;
    }
    Ok(paths)
}

/// The staged versions that are there, in byte order.
pub(crate) fn delta_leftovers<S: Store>(
    alloc: Global,
    store: &mut S,
) -> Result<Items<Text>, SweepError>
    ensures planned { S.tells → IfOk result (IsPlan Delta (S.disk store.old).files) }
    ensures readable { S.tells → OnOk result (IsReadable Delta (S.disk store.old).files) }
    ensures refused { S.tells → IfErr result
        (HasCause (IsReadingRefused Delta (S.disk store.old).files)) }
    ensures only_reads { S.tells → OnlyReads ⟦<S as Store>⟧ store.old store.new }
    ensures cause { FailsBy ⟦<S as Store>⟧ store.old store.new (IsErrOf result StoreFault) }
    ensures contest { IsUncontestedBy ⟦<S as Store>⟧ store.old store.new ⊥ }
{
    let names = list_names(alloc, store, LOG_FOLDER)?;
    let paths = staged_paths(alloc, names.as_slice())?;
    Ok(paths)
}
