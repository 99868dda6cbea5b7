//! The store calls that publish a new version.

ghost use Rattle.std.specs.List.{All};
ghost use Rattle.std.specs.Prelude.{◌≡◌, IfErr, IfOk, IsErrOf, None, OnOk, is_ok, length};
ghost use Rattle.std.specs.FinMap as map;
ghost use Rattle.iceberg_table.specs.Folder.{path_of, version_path};
ghost use Rattle.iceberg_commit.specs.Texts.{AreShort, IsShort};
ghost use Rattle.iceberg_version.specs.Names.{manifest_name};
ghost use Rattle.lake_basics.specs.declared.limits.TheConstants.{MAX_FILE_BYTES};
ghost use Rattle.lake_store.specs.Cause.{IsNotTooLong};
ghost use Rattle.lake_store.specs.Disk.{AddsShort};
ghost use Rattle.lake_store.specs.Runs.{FailsBy, IsContestedBy, IsUncontestedBy, LeavesAlone};
ghost use Rattle.target_core.specs.Outcome.{Uncontested};
ghost use Rattle.target_core.specs.Refusals.{IsCommitRefusal};
ghost use Rattle.target_iceberg.specs.Publishing.{AreApart, AreManifestPaths, HaveBytes, IsNoneOf, PublishesVersion};

use iceberg_table::version_path;
use iceberg_version::{list_path, staged_path};
use lake_basics::{Blob, Text};
use lake_store::{Store, StoreError};
use std::alloc::{AllocError, Global};
use target_core::TargetError;

/// The path of a version's manifest of this number.
fn manifest_path(alloc: Global, version: u32, number: usize) -> Result<Text, AllocError>
    ensures { IfOk result (λ path. path ≡ path_of (manifest_name version number)) }
{
    Ok(Text::from_string(format!(in alloc; "metadata/lb-m-{version}-{number}.avro")?))
}

/// The paths of the first manifests of a version, so many.
fn manifest_paths(alloc: Global, version: u32, count: usize) -> Result<Vec<Text>, AllocError>
    ensures { IfOk result (λ paths. AreManifestPaths version count paths.items) }
{
    let mut paths = Vec::with_capacity(alloc, count)?;
    for number in 0..count {
        paths.push(manifest_path(alloc, version, number)?)?;
    }
    Ok(paths)
}

/// Writes the manifests in their order, each at its path.
fn write_manifests<S: Store>(
    store: &mut S,
    paths: &[Text],
    manifests: &[Blob],
) -> Result<(), StoreError>
    requires same { length paths.now ≡ length manifests.now }
    requires apart { AreApart paths.now }
    requires short { All IsShort manifests.now }
    ensures alone { S.tells
        → LeavesAlone ⟦<S as Store>⟧ (IsNoneOf paths.now) store.old store.new }
    ensures written { S.tells
        → OnOk result (HaveBytes paths.now manifests.now (S.disk store.new).files) }
    ensures short { S.tells
        → AddsShort MAX_FILE_BYTES (S.disk store.old).files (S.disk store.new).files }
    ensures cause { FailsBy ⟦<S as Store>⟧ store.old store.new (IsErrOf result StoreError.Failed) }
    ensures contest { IsUncontestedBy ⟦<S as Store>⟧ store.old store.new
        (IsErrOf result StoreError.Taken) }
    ensures not_too_long { IsNotTooLong result }
{
    for (number, bytes) in manifests.iter().enumerate() {
        store.write(paths[number].as_str(), bytes.as_slice())?;
    }
    Ok(())
}

/// Publishes a new version (Iceberg specification, "File System Tables"): its manifests, its list and
/// its staged metadata are written and made durable, and the metadata is then renamed in one step.
/// What an earlier commit left under their names is written over.
pub(crate) fn publish_version<S: Store>(
    alloc: Global,
    store: &mut S,
    version: u32,
    manifests: &[Blob],
    list: &Blob,
    metadata: &Blob,
) -> Result<(), TargetError>
    requires free { S.tells → map.get (S.disk store.old).files (version_path version) ≡ None }
    requires short { AreShort manifests.now list.now metadata.now }
    ensures publishes { S.tells → PublishesVersion ⟦<S as Store>⟧
        (record { version = version; manifests = manifests.now; list = list.now; metadata = metadata.now })
        (Uncontested result) (IsErrOf result TargetError.Contested) (is_ok result)
        store.old store.new }
    ensures short { S.tells
        → AddsShort MAX_FILE_BYTES (S.disk store.old).files (S.disk store.new).files }
    ensures refusal { IfErr result (IsCommitRefusal (λ which number. ⊥)) }
    ensures cause { FailsBy ⟦<S as Store>⟧ store.old store.new
        (IsErrOf result TargetError.StoreFault) }
    ensures contest { IsContestedBy ⟦<S as Store>⟧ store.old store.new
        (IsErrOf result TargetError.Contested) }
{
    let manifest_paths = manifest_paths(alloc, version, manifests.len())?;
    let list_path = list_path(alloc, version)?;
    let staged_path = staged_path(alloc, version)?;
    let path = version_path(alloc, version)?;
    write_manifests(store, manifest_paths.as_slice(), manifests)?;
    store.write(list_path.as_str(), list.as_slice())?;
    store.write(staged_path.as_str(), metadata.as_slice())?;
    store.sync()?;
    store.publish(staged_path.as_str(), path.as_str())?;
    Ok(())
}
