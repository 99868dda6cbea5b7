//! The newest metadata of an Iceberg table.

ghost use Rattle.std.specs.Prelude.{◌≡◌, ◌≢◌, ◌≤◌, IfErr, IfOk, IsErrOf, OnOk, length};
ghost use Rattle.lake_basics.specs.declared.limits.TheConstants.{MAX_NAMES};
ghost use Rattle.lake_store.specs.Disk.{names_in};
ghost use Rattle.lake_store.specs.Runs.{FailsBy, IsUncontestedBy, OnlyReads};
ghost use Rattle.iceberg_metadata.specs.Writing.{IsWritable};
ghost use Rattle.iceberg_table.specs.Files.{SaysMetadata};
ghost use Rattle.iceberg_table.specs.Folder.{HasVersion, IsNewest, metadata_folder, path_of};
ghost use Rattle.source_core.specs.Answers.{IsHeadRefusal, IsReadRefusal};
ghost use Rattle.source_core.specs.declared.error.SourceError.TheVariants.{StoreFault, Unsupported};
ghost use Rattle.source_core.specs.declared.head.Head.{Head};
ghost use Rattle.source_iceberg.specs.Heads.{HasNoName, IsAbsent, IsIcebergHead, IsNewestMetadata};
ghost use Rattle.source_iceberg.specs.Reading.{IsRefusedVersion, ShowsAtHead, TellsNames};

use crate::told::source_error;
use iceberg_metadata::Metadata;
use iceberg_table::{MetadataNames, list_metadata, metadata_file_path, read_version};
use lake_basics::Text;
use lake_store::Store;
use source_core::SourceError;
use std::alloc::Global;
use table_history::Feature;

/// The newest version of a table's metadata, and what it says.
#[derive(Drop)]
pub(crate) struct Newest {
    pub version: u32,
    pub metadata: Metadata,
}

/// The file of this name in the folder of the metadata shows a feature that isn't supported.
fn unsupported(alloc: Global, feature: Feature, name: &Text) -> SourceError
    ensures told { IsReadRefusal (λ e. e ≡ Unsupported feature (path_of name.now)) result }
    ensures fault { result ≢ StoreFault }
{
    match metadata_file_path(alloc, name.as_str()) {
        Ok(path) => SourceError::Unsupported { feature, path },
        Err(_) => SourceError::Memory,
    }
}

/// What is told of a folder in which no version of the metadata is.
fn names_error(alloc: Global, found: &MetadataNames) -> SourceError
    ensures told { IsHeadRefusal (HasNoName found.now.names) (TellsNames found.now.names) result }
    ensures fault { result ≢ StoreFault }
{
    if let Some(name) = found.first_compressed() {
        return unsupported(alloc, Feature::CompressedMetadata, name);
    }
    match found.first_metadata() {
        Some(name) => unsupported(alloc, Feature::CatalogNames, name),
        None => SourceError::Absent,
    }
}

/// The newest version of the metadata.
fn newest_version<S: Store>(alloc: Global, store: &mut S) -> Result<u32, SourceError>
    ensures newest { S.tells → IfOk result (IsNewest (HasVersion (S.disk store.old).files)) }
    ensures few { S.tells → OnOk result
        (length (names_in (S.disk store.old).files metadata_folder) ≤ MAX_NAMES) }
    ensures refused { S.tells → IfErr result
        (IsHeadRefusal (IsAbsent (S.disk store.old).files) (ShowsAtHead (S.disk store.old).files)) }
    ensures only_reads { S.tells → OnlyReads ⟦<S as Store>⟧ store.old store.new }
    ensures cause { FailsBy ⟦<S as Store>⟧ store.old store.new (IsErrOf result StoreFault) }
    ensures contest { IsUncontestedBy ⟦<S as Store>⟧ store.old store.new ⊥ }
{
    match list_metadata(alloc, store) {
        Ok(found) => match found.newest {
            Some(version) => Ok(version),
            None => Err(names_error(alloc, &found)),
        },
        Err(error) => Err(source_error(error)),
    }
}

/// What this version of the metadata says.
fn metadata_of<S: Store>(
    alloc: Global,
    store: &mut S,
    version: u32,
) -> Result<Metadata, SourceError>
    ensures says { S.tells → IfOk result (SaysMetadata (S.disk store.old).files version) }
    ensures writable { IfOk result IsWritable }
    ensures refused { S.tells
        → IfErr result (IsReadRefusal (IsRefusedVersion (S.disk store.old).files version)) }
    ensures only_reads { S.tells → OnlyReads ⟦<S as Store>⟧ store.old store.new }
    ensures cause { FailsBy ⟦<S as Store>⟧ store.old store.new (IsErrOf result StoreFault) }
    ensures contest { IsUncontestedBy ⟦<S as Store>⟧ store.old store.new ⊥ }
{
    match read_version(alloc, store, version) {
        Ok(metadata) => Ok(metadata),
        Err(error) => Err(source_error(error)),
    }
}

/// The newest version of the metadata, and what it says.
pub(crate) fn newest_metadata<S: Store>(alloc: Global, store: &mut S) -> Result<Newest, SourceError>
    ensures newest { S.tells → IfOk result
        (λ n. IsNewestMetadata (S.disk store.old).files n.version n.metadata) }
    ensures writable { IfOk result (λ n. IsWritable n.metadata) }
    ensures few { S.tells → OnOk result
        (length (names_in (S.disk store.old).files metadata_folder) ≤ MAX_NAMES) }
    ensures refused { S.tells → IfErr result
        (IsHeadRefusal (IsAbsent (S.disk store.old).files) (ShowsAtHead (S.disk store.old).files)) }
    // Where there is a head, it is read again.
    ensures again { S.tells → (head : Head) → IsIcebergHead (S.disk store.old).files head
        → IfErr result (IsReadRefusal (λ _. ⊥)) }
    ensures only_reads { S.tells → OnlyReads ⟦<S as Store>⟧ store.old store.new }
    ensures cause { FailsBy ⟦<S as Store>⟧ store.old store.new (IsErrOf result StoreFault) }
    ensures contest { IsUncontestedBy ⟦<S as Store>⟧ store.old store.new ⊥ }
{
    let version = newest_version(alloc, store)?;
    let metadata = metadata_of(alloc, store, version)?;
    Ok(Newest { version, metadata })
}
