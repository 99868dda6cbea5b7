//! The Avro types of what is written.

ghost use Rattle.std.specs.Prelude.{◌≡◌, ◌++◌, ◌∷◌, [], Some, pos, map, length, codes, string_bytes, IfOk};
ghost use Rattle.std.specs.Fmt.{signed_decimal};
ghost use Rattle.std.specs.List.{AllByRecursion};
ghost use Rattle.avro_schema.specs.Tree.{tree_of, shape_of, field_of};
ghost use Rattle.iceberg_manifest.specs.ManifestWriting.{HasId};
ghost use Rattle.iceberg_manifest.specs.WrittenTypes.{plain_type, int_type, long_type, text_type, nullable_type, record_type, list_fields as list_fields_of, list_type};
ghost use Rattle.iceberg_manifest.specs.WrittenTypes.{kind_type, part_field, part_fields as part_fields_of, part_names, id_name as id_name_of, file_fields as file_fields_of, entry_fields as entry_fields_of, entry_type, manifest_type};

use crate::avro_name::are_avro_names;
use avro_value::{Field, Schema, Shape};
use iceberg_manifest::PartColumn;
use lake_basics::Text;
use partition_map::PartKind;
use std::alloc::{AllocError, Global};

pub(crate) fn plain(shape: Shape) -> Schema
    ensures { tree_of result ≡ plain_type (shape_of shape) }
{
    Schema {
        shape,
        logical: None,
        precision: None,
        scale: None,
    }
}

/// The union of null and the type.
pub(crate) fn nullable(alloc: Global, schema: Schema) -> Result<Schema, AllocError>
    ensures { IfOk result (λ s. tree_of s ≡ nullable_type (tree_of schema)) }
{
    let branches = vec![in alloc; plain(Shape::Null), schema]?;
    Ok(plain(Shape::Union(branches)))
}

pub(crate) fn record(alloc: Global, name: &str, fields: Vec<Field>) -> Result<Schema, AllocError>
    ensures { IfOk result (λ s. tree_of s ≡ record_type name.now (map field_of fields.items)) }
{
    let name = Text::from_str(alloc, name)?;
    Ok(plain(Shape::Fields { name, fields }))
}

/// The fields with one more behind them.
pub(crate) fn with_field(
    alloc: Global,
    mut fields: Vec<Field>,
    name: &str,
    schema: Schema,
    id: i32,
) -> Result<Vec<Field>, AllocError>
    ensures { IfOk result (λ fs. map field_of fs.items
        ≡ map field_of fields.items ++ (name.now, tree_of schema, Some id) ∷ []) }
{
    let name = Text::from_str(alloc, name)?;
    fields.push(Field {
        name,
        schema,
        field_id: Some(id),
    })?;
    Ok(fields)
}

fn list_fields(alloc: Global) -> Result<Vec<Field>, AllocError>
    ensures { IfOk result (λ fs. map field_of fs.items ≡ list_fields_of) }
{
    let fields = Vec::new(alloc);
    let fields = with_field(alloc, fields, "manifest_path", plain(Shape::Text), 500)?;
    let fields = with_field(alloc, fields, "manifest_length", plain(Shape::Long), 501)?;
    let fields = with_field(alloc, fields, "partition_spec_id", plain(Shape::Int), 502)?;
    let fields = with_field(alloc, fields, "content", plain(Shape::Int), 517)?;
    let fields = with_field(alloc, fields, "sequence_number", plain(Shape::Long), 515)?;
    let fields = with_field(
        alloc,
        fields,
        "min_sequence_number",
        plain(Shape::Long),
        516,
    )?;
    let fields = with_field(alloc, fields, "added_snapshot_id", plain(Shape::Long), 503)?;
    let fields = with_field(alloc, fields, "added_files_count", plain(Shape::Int), 504)?;
    let fields = with_field(
        alloc,
        fields,
        "existing_files_count",
        plain(Shape::Int),
        505,
    )?;
    let fields = with_field(alloc, fields, "deleted_files_count", plain(Shape::Int), 506)?;
    let fields = with_field(alloc, fields, "added_rows_count", plain(Shape::Long), 512)?;
    let fields = with_field(
        alloc,
        fields,
        "existing_rows_count",
        plain(Shape::Long),
        513,
    )?;
    with_field(alloc, fields, "deleted_rows_count", plain(Shape::Long), 514)
}

/// The record of a manifest list.
pub(crate) fn list_schema(alloc: Global) -> Result<Schema, AllocError>
    ensures { IfOk result (λ s. tree_of s ≡ list_type) }
{
    record(alloc, "manifest_file", list_fields(alloc)?)
}

// ---- manifests

/// A date is the int of its days after 1970-01-01.
fn date(alloc: Global) -> Result<Schema, AllocError>
    ensures { IfOk result (λ s. tree_of s ≡ kind_type PartKind.Date) }
{
    let logical = Text::from_str(alloc, "date")?;
    Ok(Schema {
        shape: Shape::Int,
        logical: Some(logical),
        precision: None,
        scale: None,
    })
}

/// The type of a partition column's values.
fn kind_schema(alloc: Global, kind: PartKind) -> Result<Schema, AllocError>
    ensures { IfOk result (λ s. tree_of s ≡ kind_type kind) }
{
    match kind {
        PartKind::Boolean => Ok(plain(Shape::Boolean)),
        PartKind::Int => Ok(plain(Shape::Int)),
        PartKind::Long => Ok(plain(Shape::Long)),
        PartKind::Text => Ok(plain(Shape::Text)),
        PartKind::Date => date(alloc),
    }
}

/// The fields with that of a partition column behind them.
fn with_part(
    alloc: Global,
    fields: Vec<Field>,
    name: &str,
    column: PartColumn,
) -> Result<Vec<Field>, AllocError>
    ensures fields { IfOk result (λ fs. map field_of fs.items
        ≡ map field_of fields.items ++ part_field column name.now ∷ []) }
    ensures id { IfOk result (λ _. HasId column) }
{
    let schema = nullable(alloc, kind_schema(alloc, column.kind)?)?;
    with_field(alloc, fields, name, schema, column.field_id)
}

fn part_fields(
    alloc: Global,
    columns: &[PartColumn],
    names: &[Text],
) -> Result<Vec<Field>, AllocError>
    requires { length names.now ≡ length columns.now }
    ensures fields { IfOk
        result (λ fs. map field_of fs.items ≡ part_fields_of columns.now names.now) }
    ensures ids { IfOk result (λ _. AllByRecursion HasId columns.now) }
{
    let mut fields = Vec::with_capacity(alloc, columns.len())?;
    for place in 0..columns.len() {
        fields = with_part(alloc, fields, names[place].as_str(), columns[place])?;
    }
    Ok(fields)
}

fn id_name(alloc: Global, id: i32) -> Result<Text, AllocError>
    ensures { IfOk result (λ t. t ≡ codes "p" ++ signed_decimal id) }
{
    Ok(Text::from_string(format!(in alloc; "p{id}")?))
}

fn id_names(alloc: Global, columns: &[PartColumn]) -> Result<Vec<Text>, AllocError>
    ensures { IfOk result (λ ns. ns.items ≡ map id_name_of columns.now) }
{
    let mut names = Vec::with_capacity(alloc, columns.len())?;
    for column in columns {
        names.push(id_name(alloc, column.field_id)?)?;
    }
    Ok(names)
}

/// The fields of the partition columns. They have the columns' names where each of these is an Avro
/// name, and else are named by their ids.
fn named_fields(
    alloc: Global,
    columns: &[PartColumn],
    names: &[Text],
) -> Result<Vec<Field>, AllocError>
    requires { length names.now ≡ length columns.now }
    ensures fields { IfOk result (λ fs. map field_of fs.items
        ≡ part_fields_of columns.now (part_names columns.now names.now)) }
    ensures ids { IfOk result (λ _. AllByRecursion HasId columns.now) }
{
    if are_avro_names(names) {
        return part_fields(alloc, columns, names);
    }
    let names = id_names(alloc, columns)?;
    part_fields(alloc, columns, names.as_slice())
}

/// The fields of `data_file` before its partition.
fn path_fields(alloc: Global) -> Result<Vec<Field>, AllocError>
    ensures { IfOk result (λ fs. map field_of fs.items
        ≡ (codes "content", int_type, Some (pos 134))
        ∷ (codes "file_path", text_type, Some (pos 100))
        ∷ (codes "file_format", text_type, Some (pos 101)) ∷ []) }
{
    let fields = Vec::new(alloc);
    let fields = with_field(alloc, fields, "content", plain(Shape::Int), 134)?;
    let fields = with_field(alloc, fields, "file_path", plain(Shape::Text), 100)?;
    with_field(alloc, fields, "file_format", plain(Shape::Text), 101)
}

fn file_fields(alloc: Global, partition: Schema) -> Result<Vec<Field>, AllocError>
    ensures { IfOk result (λ fs. map field_of fs.items ≡ file_fields_of (tree_of partition)) }
{
    let fields = path_fields(alloc)?;
    let fields = with_field(alloc, fields, "partition", partition, 102)?;
    let fields = with_field(alloc, fields, "record_count", plain(Shape::Long), 103)?;
    with_field(alloc, fields, "file_size_in_bytes", plain(Shape::Long), 104)
}

/// The fields with that of a whole number, which may be null, behind them.
fn with_whole(
    alloc: Global,
    fields: Vec<Field>,
    name: &str,
    id: i32,
) -> Result<Vec<Field>, AllocError>
    ensures { IfOk result (λ fs. map field_of fs.items
        ≡ map field_of fields.items ++ (name.now, nullable_type long_type, Some id) ∷ []) }
{
    let schema = nullable(alloc, plain(Shape::Long))?;
    with_field(alloc, fields, name, schema, id)
}

/// The fields of an entry before its data file.
fn number_fields(alloc: Global) -> Result<Vec<Field>, AllocError>
    ensures { IfOk result (λ fs. map field_of fs.items
        ≡ (codes "status", int_type, Some (pos 0))
        ∷ (codes "snapshot_id", nullable_type long_type, Some (pos 1))
        ∷ (codes "sequence_number", nullable_type long_type, Some (pos 3))
        ∷ (codes "file_sequence_number", nullable_type long_type, Some (pos 4)) ∷ []) }
{
    let fields = Vec::new(alloc);
    let fields = with_field(alloc, fields, "status", plain(Shape::Int), 0)?;
    let fields = with_whole(alloc, fields, "snapshot_id", 1)?;
    let fields = with_whole(alloc, fields, "sequence_number", 3)?;
    with_whole(alloc, fields, "file_sequence_number", 4)
}

fn entry_fields(alloc: Global, file: Schema) -> Result<Vec<Field>, AllocError>
    ensures { IfOk result (λ fs. map field_of fs.items ≡ entry_fields_of (tree_of file)) }
{
    let fields = number_fields(alloc)?;
    with_field(alloc, fields, "data_file", file, 2)
}

fn entry_schema(alloc: Global, parts: Vec<Field>) -> Result<Schema, AllocError>
    ensures { IfOk result (λ s. tree_of s ≡ entry_type (map field_of parts.items)) }
{
    let partition = record(alloc, "r102", parts)?;
    let file = record(alloc, "r2", file_fields(alloc, partition)?)?;
    record(alloc, "manifest_entry", entry_fields(alloc, file)?)
}

/// The record of a manifest's entries.
pub(crate) fn manifest_schema(
    alloc: Global,
    columns: &[PartColumn],
    names: &[Text],
) -> Result<Schema, AllocError>
    requires { length names.now ≡ length columns.now }
    ensures tree { IfOk result (λ s. tree_of s ≡ manifest_type columns.now names.now) }
    ensures ids { IfOk result (λ _. AllByRecursion HasId columns.now) }
{
    let parts = named_fields(alloc, columns, names)?;
    entry_schema(alloc, parts)
}
