//! The partition columns of a table in one of its schemas.

ghost use Rattle.std.specs.Prelude.{◌≡◌, option_and_then, option_map, IfOk};
ghost use Rattle.lake_basics.specs.Outcome.{each, required};
ghost use Rattle.iceberg_metadata.specs.Errors.{Gives};
ghost use Rattle.iceberg_metadata.specs.Paths.{default_fields, path_ids_of};
ghost use Rattle.iceberg_columns.specs.PathMaps.{path_at};
ghost use Rattle.iceberg_columns.specs.SourceColumns.{named_column, top_column, column_of, columns_of};
ghost use Rattle.iceberg_metadata.specs.declared.error.MetadataError.TheVariants.{PartitionType};

use crate::paths::{PathsById, path_at, path_ids_of, paths_by_id};
use iceberg_metadata::{Metadata, MetadataError, SpecField, default_fields, kind_of};
use lake_basics::{Items, Text};
use partition_map::PartKind;
use schema_map::Ids;
use std::alloc::{AllocError, Global};
use table_history::Schema;

/// A partition column: the id of its field in the partition records of manifests, its name in the
/// schema, and the kind of its values.
#[derive(Debug, Drop)]
pub struct SourceColumn {
    pub field_id: i32,
    pub name: Text,
    pub kind: PartKind,
}

fn named_column(
    alloc: Global,
    schema: &Schema,
    field: &SpecField,
    name: &Text,
) -> Result<Option<SourceColumn>, AllocError>
    ensures { IfOk result (λ c. c ≡ named_column schema.now field.now name.now) }
{
    match kind_of(schema, name.as_str()) {
        None => Ok(None),
        Some(kind) => Ok(Some(SourceColumn {
            field_id: field.field_id,
            name: name.copy(alloc)?,
            kind,
        })),
    }
}

fn top_column(
    alloc: Global,
    schema: &Schema,
    field: &SpecField,
    path: &[Text],
) -> Result<Option<SourceColumn>, AllocError>
    ensures { IfOk result (λ c. c ≡ top_column schema.now field.now path.now) }
{
    match path {
        [name] => named_column(alloc, schema, field, name),
        _ => Ok(None),
    }
}

fn column_at(
    alloc: Global,
    schema: &Schema,
    paths: &PathsById,
    field: &SpecField,
) -> Result<Option<SourceColumn>, AllocError>
    ensures { IfOk result (λ c. c ≡ option_and_then (top_column schema.now field.now)
        (path_at paths.now field.now.source_id)) }
{
    match path_at(paths, field.source_id) {
        None => Ok(None),
        Some(path) => top_column(alloc, schema, field, path.as_slice()),
    }
}

fn column_of(
    alloc: Global,
    schema: &Schema,
    paths: &PathsById,
    field: &SpecField,
) -> Result<SourceColumn, MetadataError>
    ensures { Gives result (required PartitionType
        (option_and_then (top_column schema.now field.now)
        (path_at paths.now field.now.source_id))) }
{
    match column_at(alloc, schema, paths, field)? {
        Some(column) => Ok(column),
        None => Err(MetadataError::PartitionType),
    }
}

fn columns_at(
    alloc: Global,
    schema: &Schema,
    paths: &PathsById,
    fields: &[SpecField],
) -> Result<Items<SourceColumn>, MetadataError>
    ensures { Gives result (each (λ f. required PartitionType
        (option_and_then (top_column schema.now f) (path_at paths.now f.source_id))) fields.now) }
{
    let mut columns = Items::new(alloc);
    for field in fields {
        columns.push(column_of(alloc, schema, paths, field)?)?;
    }
    Ok(columns)
}

/// The partition columns of the default spec in this schema, in the order of the spec's fields
/// (Apache Iceberg specification, "Partitioning"). `PartitionType` where a field is made of a column
/// that isn't a top-level one of the schema, or whose type has no kind.
pub fn default_columns(
    alloc: Global,
    metadata: &Metadata,
    schema: &(i32, Schema, Ids),
) -> Result<Items<SourceColumn>, MetadataError>
    ensures { Gives result (columns_of metadata.now schema.now) }
{
    let pairs = path_ids_of(alloc, &schema.1, &schema.2)?;
    let paths = paths_by_id(alloc, pairs.as_slice())?;
    columns_at(alloc, &schema.1, &paths, default_fields(metadata))
}
