//! The leftovers of an Iceberg target.

ghost use Rattle.std.specs.Prelude.{◌≡◌, ◌⊎◌, ℕ, List, Contains, IfErr, IfOk, IsErrOf, OnOk, codes};
ghost use Rattle.std.specs.Cmp.Lexicographic.{slice_cmp};
ghost use Rattle.std.specs.List.Sorted.{IsStrictlySortedBy};
ghost use Rattle.std.specs.Ordering.{nat_cmp};
ghost use Rattle.lake_store.specs.Disk.{names_in};
ghost use Rattle.lake_store.specs.Runs.{FailsBy, IsUncontestedBy, OnlyReads};
ghost use Rattle.table_history.specs.declared.kind.Kind.TheVariants.{Iceberg};
ghost use Rattle.iceberg_table.specs.Folder.{metadata_folder};
ghost use Rattle.lake_sweep.specs.Picking.{ArePicked, IsWithName};
ghost use Rattle.lake_sweep.specs.Plan.{IsPlan};
ghost use Rattle.lake_sweep.specs.Reading.{IsFree, IsWhole};
ghost use Rattle.lake_sweep.specs.Refusals.{AreAllVersionsRead, HasCause, HasFewVersions, IsReachRefused, IsReadable, IsReadingRefused, ReachesFew};
ghost use Rattle.lake_sweep.specs.declared.error.SweepError.TheVariants.{StoreFault};

use crate::error::SweepError;
use crate::names::list_names;
use crate::reached::{Reached, read_reached};
use crate::versions::versions_of;
use iceberg_table::{METADATA_FOLDER, metadata_file_path};
use lake_basics::limits::{MAX_ACTIONS, MAX_COMMITS};
use lake_basics::{Items, Text};
use lake_store::Store;
use std::alloc::{AllocError, Global};
use table_history::LimitKind;
use target_leftovers::is_iceberg_name;

/// The paths with that of this name more, where a commit may have written it and it isn't reached.
fn with_unreached(
    alloc: Global,
    paths: Items<Text>,
    name: &Text,
    reached: &Reached,
) -> Result<Items<Text>, AllocError>
    ensures { IfOk result (IsWithName (IsFree reached.now) (codes "metadata/") name.now paths) }
{
    if !is_iceberg_name(name.as_bytes()) {
        return Ok(paths);
    }
    let path = metadata_file_path(alloc, name.as_str())?;
    if reached.contains(&path) {
        return Ok(paths);
    }
    let mut paths = paths;
    paths.push(path)?;
    Ok(paths)
}

/// The paths of the names that a commit may have written, but for those that are reached.
fn unreached_paths(
    alloc: Global,
    names: &[Text],
    reached: &Reached,
) -> Result<Items<Text>, AllocError>
    requires sorted { IsStrictlySortedBy (slice_cmp nat_cmp) names.now }
    ensures { IfOk result (ArePicked (IsFree reached.now) (codes "metadata/") names.now) }
{
    let mut paths = Items::new(alloc);
    for name in names {
        paths = with_unreached(alloc, paths, name, reached)?;
    }
    Ok(paths)
}

/// What the versions that these names are of reach, where neither they nor that are too many.
fn reached_by<S: Store>(alloc: Global, store: &mut S, names: &[Text]) -> Result<Reached, SweepError>
    requires names { S.tells → names.now ≡ names_in (S.disk store.old).files metadata_folder }
    ensures whole { S.tells → IfOk result (IsWhole (S.disk store.old).files) }
    ensures readable { S.tells → OnOk result (HasFewVersions (S.disk store.old).files
        × AreAllVersionsRead (S.disk store.old).files × ReachesFew (S.disk store.old).files) }
    ensures refused { S.tells → IfErr result
        (HasCause (IsReachRefused (S.disk store.old).files)) }
    ensures only_reads { S.tells → OnlyReads ⟦<S as Store>⟧ store.old store.new }
    ensures cause { FailsBy ⟦<S as Store>⟧ store.old store.new (IsErrOf result StoreFault) }
    ensures contest { IsUncontestedBy ⟦<S as Store>⟧ store.old store.new ⊥ }
{
    let versions = versions_of(alloc, names)?;
    if versions.len() as u64 > MAX_COMMITS {
        return Err(SweepError::Limit {
            which: LimitKind::Commits,
            number: MAX_COMMITS,
        });
    }
    let reached = read_reached(alloc, store, versions.as_slice())?;
    if reached.len() as u64 > MAX_ACTIONS {
        return Err(SweepError::Limit {
            which: LimitKind::Actions,
            number: MAX_ACTIONS,
        });
    }
    Ok(reached)
}

/// The files that a commit wrote and no version reaches, in byte order.
pub(crate) fn iceberg_leftovers<S: Store>(
    alloc: Global,
    store: &mut S,
) -> Result<Items<Text>, SweepError>
    ensures planned { S.tells → IfOk result (IsPlan Iceberg (S.disk store.old).files) }
    ensures readable { S.tells → OnOk result (IsReadable Iceberg (S.disk store.old).files) }
    ensures refused { S.tells → IfErr result
        (HasCause (IsReadingRefused Iceberg (S.disk store.old).files)) }
    ensures only_reads { S.tells → OnlyReads ⟦<S as Store>⟧ store.old store.new }
    ensures cause { FailsBy ⟦<S as Store>⟧ store.old store.new (IsErrOf result StoreFault) }
    ensures contest { IsUncontestedBy ⟦<S as Store>⟧ store.old store.new ⊥ }
{
    let names = list_names(alloc, store, METADATA_FOLDER)?;
    let reached = reached_by(alloc, store, names.as_slice())?;
    let paths = unreached_paths(alloc, names.as_slice(), &reached)?;
    Ok(paths)
}
