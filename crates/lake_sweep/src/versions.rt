//! The versions of an Iceberg table, and where the manifest lists of each lie.

ghost use Rattle.std.specs.Prelude.{◌≡◌, ◌⊎◌, ◌↔◌, ℕ, List, Contains, IfErr, IfOk, IsErrOf, MatchOption, None};
ghost use Rattle.std.specs.List.Sorted.{IsStrictlySortedBy};
ghost use Rattle.std.specs.Ordering.{nat_cmp};
ghost use Rattle.lake_store.specs.Runs.{FailsBy, IsUncontestedBy, OnlyReads};
ghost use Rattle.iceberg_live.specs.MetadataPaths.{IsMetadataPath};
ghost use Rattle.iceberg_manifest.specs.Lists.{AreEach};
ghost use Rattle.iceberg_metadata.specs.declared.metadata.Snapshot.{Snapshot};
ghost use Rattle.iceberg_metadata.specs.VersionName.{IsVersionName};
ghost use Rattle.iceberg_table.specs.Folder.{IsNamed};
ghost use Rattle.lake_sweep.specs.Refusals.{HasCause};
ghost use Rattle.lake_sweep.specs.Versions.{IsVersionRefused, LacksList, SaysLists};
ghost use Rattle.lake_sweep.specs.declared.error.SweepError.TheVariants.{Memory, StoreFault};

use crate::error::SweepError;
use iceberg_live::metadata_path;
use iceberg_manifest::ManifestError;
use iceberg_metadata::{Metadata, Snapshot, version_of_name};
use iceberg_table::{read_version, version_path};
use lake_basics::{Items, Text};
use lake_store::Store;
use std::alloc::{AllocError, Global};

/// The versions that these names are of, rising, each once.
pub(crate) fn versions_of(alloc: Global, names: &[Text]) -> Result<Vec<u32>, AllocError>
    ensures rising { IfOk result (λ versions. IsStrictlySortedBy nat_cmp versions.items) }
    ensures members { IfOk result (λ versions. (version : ℕ)
        → Contains versions.items version ↔ IsNamed names.now version) }
{
    let mut versions = named_versions(alloc, names)?;
    versions.sort_unstable();
    versions.dedup();
    Ok(versions)
}

/// The versions with the one that this name is of.
fn with_named(versions: Vec<u32>, name: &Text) -> Result<Vec<u32>, AllocError>
    ensures { IfOk result (λ after. (version : ℕ) → Contains after.items version
        ↔ (Contains versions.items version ⊎ IsVersionName name.now version)) }
{
    let Some(version) = version_of_name(name.as_bytes()) else {
        return Ok(versions);
    };
    let mut versions = versions;
    versions.push(version)?;
    Ok(versions)
}

/// The versions that these names are of.
fn named_versions(alloc: Global, names: &[Text]) -> Result<Vec<u32>, AllocError>
    ensures { IfOk result (λ versions. (version : ℕ)
        → Contains versions.items version ↔ IsNamed names.now version) }
{
    let mut versions = Vec::new(alloc);
    for name in names {
        versions = with_named(versions, name)?;
    }
    Ok(versions)
}

/// The path in the table of a snapshot's manifest list, or `None` where it doesn't lie in the
/// table's folder of metadata.
fn list_path(
    alloc: Global,
    metadata: &Metadata,
    snapshot: &Snapshot,
) -> Result<Option<Text>, SweepError>
    ensures found { IfOk result (λ found. MatchOption found
        ((path : List ℕ) → ¬ IsMetadataPath metadata.now.location snapshot.now.list path)
        (IsMetadataPath metadata.now.location snapshot.now.list)) }
    ensures memory { IfErr result (λ e. e ≡ Memory) }
{
    match metadata_path(alloc, metadata.location.as_str(), &snapshot.list) {
        Ok(path) => Ok(Some(path)),
        Err(error) => nothing_at(error),
    }
}

/// What is found where a name stands for no path: nothing, unless memory ran out.
fn nothing_at(error: ManifestError) -> Result<Option<Text>, SweepError>
    ensures nothing { IfOk result (λ found. (found ≡ None) × ¬ (error ≡ ManifestError.Memory)) }
    ensures memory { IfErr result (λ e. e ≡ Memory) }
{
    match error {
        ManifestError::Memory => Err(SweepError::Memory),
        _ => Ok(None),
    }
}

/// The paths in the table of the manifest lists of all snapshots, in their order, or `None` where
/// one doesn't lie in the table's folder of metadata.
fn list_paths(alloc: Global, metadata: &Metadata) -> Result<Option<Items<Text>>, SweepError>
    ensures found { IfOk result (λ found. MatchOption found (LacksList metadata.now)
        (AreEach (λ (s : Snapshot). IsMetadataPath metadata.now.location s.list)
        metadata.now.snapshots)) }
    ensures memory { IfErr result (λ e. e ≡ Memory) }
{
    let mut paths = Items::new(alloc);
    let snapshots = metadata.snapshots.as_slice();
    for snapshot in snapshots {
        let Some(path) = list_path(alloc, metadata, snapshot)? else {
            return Ok(None);
        };
        paths.push(path)?;
    }
    Ok(Some(paths))
}

/// The metadata of a version, and the paths in the table of its snapshots' manifest lists.
#[derive(Drop)]
pub(crate) struct VersionLists {
    pub metadata: Metadata,
    pub paths: Items<Text>,
}

/// The metadata of a version, and where its lists lie.
pub(crate) fn read_lists<S: Store>(
    alloc: Global,
    store: &mut S,
    version: u32,
) -> Result<VersionLists, SweepError>
    ensures says { S.tells → IfOk result
        (λ read. SaysLists (S.disk store.old).files version read.metadata read.paths) }
    ensures refused { S.tells → IfErr result
        (HasCause (IsVersionRefused (S.disk store.old).files version)) }
    ensures only_reads { S.tells → OnlyReads ⟦<S as Store>⟧ store.old store.new }
    ensures cause { FailsBy ⟦<S as Store>⟧ store.old store.new (IsErrOf result StoreFault) }
    ensures contest { IsUncontestedBy ⟦<S as Store>⟧ store.old store.new ⊥ }
{
    let path = version_path(alloc, version)?;
    let metadata = read_version(alloc, store, version)?;
    match list_paths(alloc, &metadata)? {
        Some(paths) => Ok(VersionLists { metadata, paths }),
        None => Err(SweepError::Foreign { path }),
    }
}
