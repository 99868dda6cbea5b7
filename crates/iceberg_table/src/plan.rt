//! What a table's metadata says of a snapshot.

ghost use Rattle.std.specs.Prelude.{◌≡◌, Ok, Err, IfErr, IfOk};
ghost use Rattle.lake_basics.specs.declared.outcome.ReadError.TheVariants as read;
ghost use Rattle.iceberg_live.specs.MetadataPaths.{IsMetadataPath};
ghost use Rattle.iceberg_columns.specs.SourceColumns.{columns_of};
ghost use Rattle.iceberg_table.specs.Errors.{IsFault};
ghost use Rattle.iceberg_table.specs.Plan.{IsPlanFault, IsPlanOf, ShowsColumns, ShowsPath, names_of, part_columns, snapshot_schema};

use crate::error::{Fault, manifest_fault, metadata_fault, unsupported};
use iceberg_columns::{SourceColumn, default_columns};
use iceberg_live::metadata_path;
use iceberg_manifest::PartColumn;
use iceberg_metadata::{Metadata, Snapshot, held_schema};
use lake_basics::{Items, ReadError, Text};
use schema_map::Ids;
use std::alloc::{AllocError, Global};
use table_history::{Feature, Schema};

/// What the metadata says of a snapshot: the path of its manifest list, its schema, and the columns
/// of the default spec in that schema.
#[derive(Drop)]
pub struct Plan {
    pub list: Text,
    pub schema: Schema,
    pub columns: Items<SourceColumn>,
}

/// The path in the table of a file that is named so.
pub(crate) fn path_in_table(
    alloc: Global,
    metadata: &Metadata,
    name: &Text,
) -> Result<Text, ReadError<Fault>>
    ensures found { IfOk result (IsMetadataPath metadata.now.location name.now) }
    ensures refused { IfErr result (IsFault (ShowsPath metadata.now.location name.now)) }
{
    match metadata_path(alloc, metadata.location.as_str(), name) {
        Ok(path) => Ok(path),
        Err(error) => Err(manifest_fault(error)),
    }
}

fn snapshot_schema<'a>(
    metadata: &'a Metadata,
    snapshot: &Snapshot,
) -> Result<&'a (i32, Schema, Ids), Fault>
    ensures found { IfOk result (λ held. snapshot_schema metadata.now snapshot.now ≡ Ok held.now) }
    ensures refused { IfErr result (λ f. snapshot_schema metadata.now snapshot.now ≡ Err f) }
{
    match snapshot.schema_id {
        None => Err(Fault::Unsupported {
            feature: Feature::NoSchemaId,
        }),
        Some(id) => held_schema(metadata, id).ok_or(Fault::Malformed),
    }
}

fn columns(
    alloc: Global,
    metadata: &Metadata,
    held: &(i32, Schema, Ids),
) -> Result<Items<SourceColumn>, ReadError<Fault>>
    ensures found { IfOk result (λ columns. columns_of metadata.now held.now ≡ Ok columns) }
    ensures refused { IfErr result (IsFault (ShowsColumns metadata.now held.now)) }
{
    match default_columns(alloc, metadata, held) {
        Ok(columns) => Ok(columns),
        Err(error) => Err(metadata_fault(error)),
    }
}

/// What the metadata says of a snapshot.
pub(crate) fn plan_of(
    alloc: Global,
    metadata: &Metadata,
    snapshot: &Snapshot,
) -> Result<Plan, ReadError<Fault>>
    ensures found { IfOk result (IsPlanOf metadata.now snapshot.now) }
    ensures refused { IfErr result (IsFault (IsPlanFault metadata.now snapshot.now)) }
{
    let list = path_in_table(alloc, metadata, &snapshot.list)?;
    let held = match snapshot_schema(metadata, snapshot) {
        Ok(held) => held,
        Err(fault) => return Err(ReadError::Fault(fault)),
    };
    let columns = columns(alloc, metadata, held)?;
    Ok(Plan {
        list,
        schema: held.1.copy(alloc)?,
        columns,
    })
}

/// The names of these columns.
pub fn names_of(alloc: Global, columns: &[SourceColumn]) -> Result<Items<Text>, AllocError>
    ensures { IfOk result (λ names. names ≡ names_of columns.now) }
{
    let mut names = Items::new(alloc);
    for column in columns {
        names.push(column.name.copy(alloc)?)?;
    }
    Ok(names)
}

/// The columns as manifests have them.
pub fn part_columns(
    alloc: Global,
    columns: &[SourceColumn],
) -> Result<Items<PartColumn>, AllocError>
    ensures { IfOk result (λ parts. parts ≡ part_columns columns.now) }
{
    let mut parts = Items::new(alloc);
    for column in columns {
        parts.push(PartColumn {
            field_id: column.field_id,
            kind: column.kind,
        })?;
    }
    Ok(parts)
}
