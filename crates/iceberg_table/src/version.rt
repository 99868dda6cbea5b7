//! The metadata of one version.

ghost use Rattle.std.specs.Prelude.{◌≡◌, IfErr, IfOk, IsErrOf, OnOk};
ghost use Rattle.lake_store.specs.Runs.{FailsBy, IsUncontestedBy, OnlyReads};
ghost use Rattle.table_history.specs.First.{NoneOf};
ghost use Rattle.iceberg_ancestry.specs.Ancestry.{FormsCycle};
ghost use Rattle.iceberg_metadata.specs.Reading.{HasCause, IsRead, causes};
ghost use Rattle.iceberg_metadata.specs.Writing.{IsWritable};
ghost use Rattle.iceberg_table.specs.Errors.{IsFault, IsFileFault, IsRefusal};
ghost use Rattle.iceberg_table.specs.Files.{SaysMetadata};
ghost use Rattle.iceberg_table.specs.Folder.{version_path};
ghost use Rattle.iceberg_table.specs.Refusals.{IsMetadataFault};
ghost use Rattle.iceberg_table.specs.declared.error.IcebergError.TheVariants.{StoreFault};

use crate::error::{Fault, IcebergError, metadata_fault};
use crate::file::{read_file, refusal};
use iceberg_ancestry::ancestry;
use iceberg_metadata::Metadata;
use iceberg_metadata_reading::read_metadata;
use lake_basics::{ReadError, Text};
use lake_store::Store;
use std::alloc::{AllocError, Global};

/// The path of the metadata of a version.
pub fn version_path(alloc: Global, version: u32) -> Result<Text, AllocError>
    ensures { IfOk result (λ path. path ≡ version_path version) }
{
    Ok(Text::from_string(format!(in alloc; "metadata/v{}.metadata.json", version)?))
}

/// The metadata that bytes are, in which the parents of the snapshots form no cycle.
fn metadata_in(alloc: Global, bytes: &[u8]) -> Result<Metadata, ReadError<Fault>>
    ensures read { IfOk result (IsRead bytes.now) }
    ensures supported { OnOk result (NoneOf (HasCause bytes.now) causes) }
    ensures acyclic { IfOk result (λ m. ¬ FormsCycle m) }
    ensures writable { IfOk result IsWritable }
    ensures refused { IfErr result (IsFault (IsMetadataFault bytes.now)) }
{
    let metadata = match read_metadata(alloc, bytes) {
        Ok(metadata) => metadata,
        Err(error) => return Err(metadata_fault(error)),
    };
    match ancestry(alloc, &metadata) {
        Ok(_) => Ok(metadata),
        Err(error) => Err(metadata_fault(error)),
    }
}

/// The metadata of a version (Apache Iceberg specification, "Table Metadata").
pub fn read_version<S: Store>(
    alloc: Global,
    store: &mut S,
    version: u32,
) -> Result<Metadata, IcebergError>
    ensures says { S.tells → IfOk result (SaysMetadata (S.disk store.old).files version) }
    // What is read can be written again.
    ensures writable { IfOk result IsWritable }
    ensures refused { S.tells → IfErr result (IsRefusal
        (IsFileFault (S.disk store.old).files (version_path version) IsMetadataFault)) }
    ensures only_reads { S.tells → OnlyReads ⟦<S as Store>⟧ store.old store.new }
    ensures cause { FailsBy ⟦<S as Store>⟧ store.old store.new (IsErrOf result StoreFault) }
    ensures contest { IsUncontestedBy ⟦<S as Store>⟧ store.old store.new ⊥ }
{
    let path = version_path(alloc, version)?;
    let bytes = read_file(alloc, store, &path)?;
    match metadata_in(alloc, bytes.as_slice()) {
        Ok(metadata) => Ok(metadata),
        Err(error) => Err(refusal(alloc, &path, error)),
    }
}
