//! The manifest list of a snapshot.

ghost use Rattle.std.specs.Prelude.{◌≡◌, ◌↔◌, List, Ok, IfErr, IfOk, IsErrOf, IsTrue};
ghost use Rattle.lake_store.specs.Runs.{FailsBy, IsUncontestedBy, OnlyReads};
ghost use Rattle.iceberg_manifest.specs.Lists.{AreEach};
ghost use Rattle.iceberg_table.specs.Errors.{IsFault, IsFileFault, IsRefusal};
ghost use Rattle.iceberg_table.specs.Files.{HoldsShortFile};
ghost use Rattle.iceberg_table.specs.Lists.{AreRows, HasDeletes, HaveContents, IsListFault, IsListed, IsRowFault, SaysList};
ghost use Rattle.iceberg_table.specs.Order.{StopsAt};
ghost use Rattle.iceberg_table.specs.declared.error.IcebergError.TheVariants.{StoreFault};
ghost use Rattle.iceberg_table.specs.declared.list.ManifestFile.{ManifestFile};

use crate::error::{Fault, IcebergError, manifest_fault, unsupported};
use crate::file::{read_file, refusal};
use crate::plan::path_in_table;
use iceberg_manifest::{Infos, ManifestInfo};
use iceberg_manifest_reading::read_list;
use iceberg_metadata::Metadata;
use lake_basics::{Items, ReadError, Text};
use lake_store::Store;
use std::alloc::Global;
use table_history::Feature;

/// A manifest that a list names: its path in the table, and its row in the list.
#[derive(Debug, Drop)]
pub struct ManifestFile {
    pub path: Text,
    pub info: ManifestInfo,
}

fn has_deletes(info: &ManifestInfo) -> bool
    ensures { IsTrue result ↔ HasDeletes info.now }
{
    info.content != 0 && (info.added_files_count != 0 || info.existing_files_count != 0)
}

/// The manifest that a row of a list names.
fn listed(
    alloc: Global,
    metadata: &Metadata,
    info: ManifestInfo,
) -> Result<ManifestFile, ReadError<Fault>>
    ensures found { IfOk result (IsListed metadata.now info) }
    ensures refused { IfErr result (IsFault (IsRowFault metadata.now info)) }
{
    let path = path_in_table(alloc, metadata, &info.manifest_path)?;
    if info.partition_spec_id != metadata.default_spec {
        return Err(unsupported(Feature::PartitionSpecs));
    }
    if has_deletes(&info) {
        return Err(unsupported(Feature::RowDeletes));
    }
    Ok(ManifestFile { path, info })
}

/// The manifests that the rows of a list name. The first row at fault is refused.
fn all_listed(
    alloc: Global,
    metadata: &Metadata,
    infos: Infos,
) -> Result<Items<ManifestFile>, ReadError<Fault>>
    ensures found { IfOk result (AreEach (IsListed metadata.now) infos) }
    ensures refused { IfErr result (IsFault
        (StopsAt (IsListed metadata.now) (λ list. IsRowFault metadata.now) infos)) }
{
    let mut files = Items::new(alloc);
    for info in infos.into_vec() {
        files.push(listed(alloc, metadata, info)?)?;
    }
    Ok(files)
}

/// The manifests that the bytes of a list name.
fn list_in(
    alloc: Global,
    metadata: &Metadata,
    bytes: &[u8],
) -> Result<Items<ManifestFile>, ReadError<Fault>>
    ensures found { IfOk result (λ list. (infos : List ManifestInfo) × AreRows bytes.now infos
        × AreEach (IsListed metadata.now) infos list
        × ((others : List ManifestInfo) → AreRows bytes.now others → others ≡ infos)) }
    ensures refused { IfErr result (IsFault (IsListFault metadata.now bytes.now)) }
{
    match read_list(alloc, bytes) {
        Ok(infos) => all_listed(alloc, metadata, infos),
        Err(error) => Err(manifest_fault(error)),
    }
}

/// The manifests that the list at this path names, in the order of its rows (Apache Iceberg
/// specification, "Manifest Lists"). Each is of the default spec, and none has live row-level
/// deletes. What is refused is the list, or the first of its rows at fault.
pub fn read_list_file<S: Store>(
    alloc: Global,
    store: &mut S,
    metadata: &Metadata,
    path: &Text,
) -> Result<Items<ManifestFile>, IcebergError>
    ensures says { S.tells → IfOk result
        (SaysList (S.disk store.old).files metadata.now path.now) }
    ensures only { S.tells → IfOk result (λ list. (others : List ManifestFile)
        → SaysList (S.disk store.old).files metadata.now path.now others → others ≡ list) }
    ensures contents { IfOk result HaveContents }
    ensures short { S.tells → IfOk result (λ list.
        HoldsShortFile (S.disk store.old).files path.now) }
    ensures refused { S.tells → IfErr result (IsRefusal
        (IsFileFault (S.disk store.old).files path.now (IsListFault metadata.now))) }
    ensures only_reads { S.tells → OnlyReads ⟦<S as Store>⟧ store.old store.new }
    ensures cause { FailsBy ⟦<S as Store>⟧ store.old store.new (IsErrOf result StoreFault) }
    ensures contest { IsUncontestedBy ⟦<S as Store>⟧ store.old store.new ⊥ }
{
    let bytes = read_file(alloc, store, path)?;
    match list_in(alloc, metadata, bytes.as_slice()) {
        Ok(list) => Ok(list),
        Err(error) => Err(refusal(alloc, path, error)),
    }
}
