//! Whether a table's partition columns go on as they are.

ghost use Rattle.std.specs.Prelude.{◌≡◌, ◌≢◌, List, IfErr, IfOk, MatchOption, Ok};
ghost use Rattle.std.specs.Bool.{Decides};
ghost use Rattle.iceberg_metadata.specs.Schemas.{HeldSchema};
ghost use Rattle.iceberg_columns.specs.SourceColumns.{columns_of};
ghost use Rattle.iceberg_columns.specs.declared.columns.SourceColumn.{SourceColumn};
ghost use Rattle.iceberg_table.specs.Plan.{names_of, snapshot_schema};
ghost use Rattle.source_core.specs.Answers.{IsReadRefusal};
ghost use Rattle.source_core.specs.declared.error.SourceError.TheVariants.{Memory, StoreFault};
ghost use Rattle.source_iceberg.specs.Since.{ChangesPartition, HasOtherColumns, NamesOtherColumns, SnapshotChanges, TellsChange};

use iceberg_columns::{SourceColumn, default_columns};
use iceberg_metadata::{Metadata, MetadataError, Snapshot, held_schema};
use iceberg_table::version_path;
use lake_basics::{Items, Text};
use partition_map::has_other_kind;
use schema_map::Ids;
use source_core::SourceError;
use std::alloc::{AllocError, Global};
use table_history::{Feature, Schema, Table};

/// The names of these columns.
fn names_of(alloc: Global, columns: &[SourceColumn]) -> Result<Items<Text>, AllocError>
    ensures { IfOk result (λ names. names ≡ names_of columns.now) }
{
    let mut names = Items::new(alloc);
    for column in columns {
        names.push(column.name.copy(alloc)?)?;
    }
    Ok(names)
}

/// The columns of the default spec in this schema, where it has them all.
fn columns_in(
    alloc: Global,
    metadata: &Metadata,
    schema: &(i32, Schema, Ids),
) -> Result<Option<Items<SourceColumn>>, SourceError>
    ensures found { IfOk result (λ found. MatchOption found
        ((columns : List SourceColumn) → columns_of metadata.now schema.now ≢ Ok columns)
        (λ columns. columns_of metadata.now schema.now ≡ Ok columns)) }
    ensures memory { IfErr result (λ e. e ≡ Memory) }
{
    match default_columns(alloc, metadata, schema) {
        Ok(columns) => Ok(Some(columns)),
        Err(MetadataError::Memory) => Err(SourceError::Memory),
        Err(_) => Ok(None),
    }
}

/// Whether these are the names of the table's partition columns.
fn are_partition_of(names: &Items<Text>, before: &Table) -> bool
    ensures { Decides result (names.now ≡ before.now.partition) }
{
    *names == before.partition
}

/// Whether the columns of the default spec have other names in this schema than the table's.
fn has_other_names(
    alloc: Global,
    metadata: &Metadata,
    schema: &(i32, Schema, Ids),
    before: &Table,
) -> Result<bool, SourceError>
    ensures other { IfOk result
        (λ other. Decides other (HasOtherColumns metadata.now schema.now before.now)) }
    ensures memory { IfErr result (λ e. e ≡ Memory) }
{
    let Some(columns) = columns_in(alloc, metadata, schema)? else {
        return Ok(false);
    };
    let names = names_of(alloc, columns.as_slice())?;
    Ok(!are_partition_of(&names, before))
}

/// Whether the columns of the default spec have other names in the current schema than the table's.
pub(crate) fn names_other_columns(
    alloc: Global,
    metadata: &Metadata,
    base: &Table,
) -> Result<bool, SourceError>
    ensures other { IfOk result
        (λ other. Decides other (NamesOtherColumns metadata.now base.now)) }
    ensures memory { IfErr result (λ e. e ≡ Memory) }
{
    match held_schema(metadata, metadata.current_schema) {
        Some(schema) => has_other_names(alloc, metadata, schema, base),
        None => Ok(false),
    }
}

/// Whether these columns have other names in this schema, or one of them another kind.
fn changes_partition(
    alloc: Global,
    metadata: &Metadata,
    schema: &(i32, Schema, Ids),
    before: &Table,
) -> Result<bool, SourceError>
    ensures changes { IfOk result
        (λ changes. Decides changes (ChangesPartition metadata.now schema.now before.now)) }
    ensures memory { IfErr result (λ e. e ≡ Memory) }
{
    if has_other_names(alloc, metadata, schema, before)? {
        return Ok(true);
    }
    Ok(has_other_kind(
        alloc,
        &before.schema,
        &schema.1,
        before.partition.as_slice(),
    )?)
}

/// The schema that the snapshot names, where it is held.
fn schema_of<'a>(metadata: &'a Metadata, snapshot: &Snapshot) -> Option<&'a (i32, Schema, Ids)>
    ensures { MatchOption result
        ((held : HeldSchema) → snapshot_schema metadata.now snapshot.now ≢ Ok held)
        (λ held. snapshot_schema metadata.now snapshot.now ≡ Ok held.now) }
{
    match snapshot.schema_id {
        None => None,
        Some(id) => held_schema(metadata, id),
    }
}

/// The same in the schema that the snapshot names.
pub(crate) fn snapshot_changes(
    alloc: Global,
    metadata: &Metadata,
    snapshot: &Snapshot,
    before: &Table,
) -> Result<bool, SourceError>
    ensures changes { IfOk result
        (λ changes. Decides changes (SnapshotChanges metadata.now snapshot.now before.now)) }
    ensures memory { IfErr result (λ e. e ≡ Memory) }
{
    match schema_of(metadata, snapshot) {
        Some(schema) => changes_partition(alloc, metadata, schema, before),
        None => Ok(false),
    }
}

/// What is told where the partition columns of the newest metadata aren't those of the table before.
pub(crate) fn partition_change(alloc: Global, version: u32) -> SourceError
    ensures told { IsReadRefusal (TellsChange version) result }
    ensures fault { result ≢ StoreFault }
{
    match version_path(alloc, version) {
        Ok(path) => SourceError::Unsupported {
            feature: Feature::PartitionChange,
            path,
        },
        Err(_) => SourceError::Memory,
    }
}
