//! Reading a schema from an Avro schema (Apache Avro specification, "Schema Declaration" and "Logical
//! Types").

ghost use Rattle.std.specs.Prelude.{◌≡◌, IfOk, IfErr, Ok, map};
ghost use Rattle.lake_basics.specs.Outcome.{Gives, GivesUnlessMemory};
ghost use Rattle.avro_schema.specs.Tree.{tree_of, shape_of, field_of, branches_of, fields_of};
ghost use Rattle.table_history.specs.SchemaView.{type_view, column_view, columns_view};
ghost use Rattle.table_history.specs.TypeTree.{ColumnTrees};
ghost use Rattle.schema_map.specs.Errors.{is_memory};
ghost use Rattle.schema_avro.specs.Avro.{is_logical, avro_decimal, avro_int, avro_long};
ghost use Rattle.schema_avro.specs.Avro.{avro_bytes, avro_fixed, is_null, nullable_if, avro_union};
ghost use Rattle.schema_avro.specs.Avro.{avro_type, avro_shape, avro_part, avro_column, avro_columns};
ghost use Rattle.schema_avro.specs.Avro.{avro_list, avro_map, avro_struct, avro_top_column};
ghost use Rattle.schema_avro.specs.Avro.{avro_top_columns, schema_of_avro, avro_schema_of};
ghost use Rattle.schema_avro.specs.Avro.{limited_avro_schema_of};
ghost use Rattle.schema_avro.specs.AvroSpelling.{IsAvroText, IsUnread, IsAvroRefused};
ghost use Rattle.table_history.specs.SchemaSize.{IsWithinLimits};
ghost use Rattle.table_history.specs.Sound.{IsSound};

use crate::fault::{NO_ROW, TypeFault};
use avro_schema::{Field, SchemaError, Shape};
use lake_basics::{ReadError, Text};
use schema_map::{MapError, decimal_in_range, schema_limit};
use std::alloc::Global;
use table_history::{Column, ColumnType, Schema};

/// Whether the logical type is this one.
fn is_logical(logical: &Option<Text>, word: &str) -> bool
    ensures { result ≡ is_logical word.now logical.now }
{
    match logical {
        None => false,
        Some(logical) => logical.as_str() == word,
    }
}

fn decimal_type(
    precision: Option<u32>,
    scale: Option<u32>,
) -> Result<ColumnType, ReadError<TypeFault>>
    ensures { Gives type_view result (avro_decimal precision scale) }
{
    match precision {
        None => Err(NO_ROW),
        Some(precision) => match decimal_in_range(precision, scale.unwrap_or(0)) {
            Some((precision, scale)) => Ok(ColumnType::Decimal { precision, scale }),
            None => Err(NO_ROW),
        },
    }
}

#[tactic(auto, unfolding(crate::specs::Avro::avro_int))]
fn int_type(logical: &Option<Text>) -> Result<ColumnType, ReadError<TypeFault>>
    ensures { Gives type_view result (avro_int logical.now) }
{
    if is_logical(logical, "date") {
        Ok(ColumnType::Date)
    } else if is_logical(logical, "time-millis") {
        Err(NO_ROW)
    } else {
        Ok(ColumnType::Int)
    }
}

#[tactic(auto, unfolding(crate::specs::Avro::avro_long))]
fn long_type(logical: &Option<Text>) -> Result<ColumnType, ReadError<TypeFault>>
    ensures { Gives type_view result (avro_long logical.now) }
{
    if is_logical(logical, "timestamp-micros") {
        Ok(ColumnType::Timestamp)
    } else if is_logical(logical, "timestamp-millis") {
        Ok(ColumnType::Timestamp)
    } else if is_logical(logical, "local-timestamp-micros") {
        Ok(ColumnType::TimestampNtz)
    } else if is_logical(logical, "local-timestamp-millis") {
        Ok(ColumnType::TimestampNtz)
    } else if is_logical(logical, "time-micros") {
        Err(NO_ROW)
    } else {
        Ok(ColumnType::Long)
    }
}

fn bytes_type(
    logical: &Option<Text>,
    precision: Option<u32>,
    scale: Option<u32>,
) -> Result<ColumnType, ReadError<TypeFault>>
    ensures { Gives type_view result (avro_bytes logical.now precision scale) }
{
    if is_logical(logical, "decimal") {
        decimal_type(precision, scale)
    } else {
        Ok(ColumnType::Binary)
    }
}

fn fixed_type(
    logical: &Option<Text>,
    precision: Option<u32>,
    scale: Option<u32>,
) -> Result<ColumnType, ReadError<TypeFault>>
    ensures { Gives type_view result (avro_fixed logical.now precision scale) }
{
    if is_logical(logical, "decimal") {
        decimal_type(precision, scale)
    } else {
        Err(NO_ROW)
    }
}

fn is_null(schema: &avro_schema::Schema) -> bool
    ensures { result ≡ is_null (tree_of schema.now) }
{
    match &schema.shape {
        Shape::Null => true,
        _ => false,
    }
}

/// The type of a schema that isn't a union.
#[cycle(avro)]
fn type_of(alloc: Global, schema: &avro_schema::Schema) -> Result<ColumnType, ReadError<TypeFault>>
    ensures { Gives type_view result (avro_type (tree_of schema.now)) }
{
    match &schema.shape {
        Shape::Boolean => Ok(ColumnType::Boolean),
        Shape::Int => int_type(&schema.logical),
        Shape::Long => long_type(&schema.logical),
        Shape::Float => Ok(ColumnType::Float),
        Shape::Double => Ok(ColumnType::Double),
        Shape::Bytes => bytes_type(&schema.logical, schema.precision, schema.scale),
        Shape::Text => Ok(ColumnType::Text),
        Shape::Fixed { .. } => fixed_type(&schema.logical, schema.precision, schema.scale),
        Shape::Array { items, .. } => list_type(alloc, items),
        Shape::Map { values, .. } => map_type(alloc, values),
        Shape::Fields { fields, .. } => struct_type(alloc, fields),
        Shape::Null | Shape::Enum { .. } | Shape::Union(_) => Err(NO_ROW),
    }
}

#[cycle(avro)]
fn list_type(alloc: Global, items: &avro_schema::Schema) -> Result<ColumnType, ReadError<TypeFault>>
    ensures { Gives type_view result (avro_list (avro_part (tree_of items.now))) }
{
    let (element, nullable) = part_of(alloc, items)?;
    let element = Box::new(alloc, element)?;
    Ok(ColumnType::List { element, nullable })
}

#[cycle(avro)]
fn map_type(alloc: Global, values: &avro_schema::Schema) -> Result<ColumnType, ReadError<TypeFault>>
    ensures { Gives type_view result (avro_map (avro_part (tree_of values.now))) }
{
    let (value, nullable) = part_of(alloc, values)?;
    let key = Box::new(alloc, ColumnType::Text)?;
    let value = Box::new(alloc, value)?;
    Ok(ColumnType::Map {
        key,
        value,
        nullable,
    })
}

#[cycle(avro)]
fn struct_type(alloc: Global, fields: &Vec<Field>) -> Result<ColumnType, ReadError<TypeFault>>
    ensures { Gives type_view result
        (avro_struct (avro_columns (fields_of (map field_of fields.now.items)))) }
{
    let columns = columns_of(alloc, fields)?;
    Ok(ColumnType::Struct(columns))
}

#[cycle(avro)]
fn columns_of(alloc: Global, fields: &Vec<Field>) -> Result<Vec<Column>, ReadError<TypeFault>>
    ensures { Gives (λ v. map column_view v.items) result
        (avro_columns (fields_of (map field_of fields.now.items))) }
{
    let mut columns = Vec::new(alloc);
    for field in fields {
        columns.push(column_of(alloc, field)?)?;
    }
    Ok(columns)
}

#[cycle(avro)]
fn column_of(alloc: Global, field: &Field) -> Result<Column, ReadError<TypeFault>>
    ensures { Gives column_view result
        (avro_column (field_of field.now).0 (avro_part (field_of field.now).1)) }
{
    let (kind, nullable) = part_of(alloc, &field.schema)?;
    let name = field.name.copy(alloc)?;
    Ok(Column {
        name,
        kind,
        nullable,
    })
}

/// The type of a part, and whether it may be null: whether it is a union with null.
#[cycle(avro)]
fn part_of(
    alloc: Global,
    schema: &avro_schema::Schema,
) -> Result<(ColumnType, bool), ReadError<TypeFault>>
    ensures { Gives (λ p. (type_view p.0, p.1)) result (avro_part (tree_of schema.now)) }
{
    match &schema.shape {
        Shape::Union(branches) => union_of(alloc, branches.as_slice()),
        _ => branch_of(alloc, schema, false),
    }
}

#[tactic(auto, using(crate::proofs::AvroFields::few_branches, crate::proofs::AvroFields::many_branches))]
#[cycle(avro)]
fn union_of(
    alloc: Global,
    branches: &[avro_schema::Schema],
) -> Result<(ColumnType, bool), ReadError<TypeFault>>
    ensures { Gives (λ p. (type_view p.0, p.1)) result
        (avro_union (branches_of (map tree_of branches.now))) }
{
    match branches {
        [] => Err(NO_ROW),
        [only] => branch_of(alloc, only, false),
        [first, second] => {
            if is_null(first) {
                branch_of(alloc, second, true)
            } else if is_null(second) {
                branch_of(alloc, first, true)
            } else {
                Err(NO_ROW)
            }
        }
        [_, _, _, ..] => Err(NO_ROW),
    }
}

#[cycle(avro)]
fn branch_of(
    alloc: Global,
    schema: &avro_schema::Schema,
    nullable: bool,
) -> Result<(ColumnType, bool), ReadError<TypeFault>>
    ensures { Gives (λ p. (type_view p.0, p.1)) result
        (nullable_if nullable (avro_type (tree_of schema.now))) }
{
    let kind = type_of(alloc, schema)?;
    Ok((kind, nullable))
}

// ---- a schema

fn top_column_of(alloc: Global, field: &Field) -> Result<Column, MapError>
    ensures { GivesUnlessMemory is_memory column_view result
        (avro_top_column (field_of field.now).0 (avro_part (field_of field.now).1)) }
{
    match column_of(alloc, field) {
        Ok(column) => Ok(column),
        Err(ReadError::Memory) => Err(MapError::Memory),
        Err(ReadError::Fault(TypeFault::NoRow)) => Err(MapError::SchemaType {
            column: field.name.copy(alloc)?,
        }),
    }
}

fn top_columns_of(alloc: Global, fields: &Vec<Field>) -> Result<Vec<Column>, MapError>
    ensures { GivesUnlessMemory is_memory (λ v. map column_view v.items) result
        (avro_top_columns (fields_of (map field_of fields.now.items))) }
{
    let mut columns = Vec::new(alloc);
    for field in fields {
        columns.push(top_column_of(alloc, field)?)?;
    }
    Ok(columns)
}

fn schema_from(alloc: Global, schema: &avro_schema::Schema) -> Result<Schema, MapError>
    ensures { GivesUnlessMemory is_memory (λ s. s) result (schema_of_avro (tree_of schema.now)) }
{
    match &schema.shape {
        Shape::Fields { fields, .. } => Ok(Schema::new(top_columns_of(alloc, fields)?)),
        _ => Err(MapError::BadSchema),
    }
}

fn schema_of_text(alloc: Global, text: &[u8]) -> Result<Schema, MapError>
    ensures { GivesUnlessMemory is_memory (λ s. s) result (avro_schema_of text.now) }
{
    match avro_schema::Schema::from_json(alloc, text) {
        Ok(schema) => schema_from(alloc, &schema),
        Err(SchemaError::Memory) => Err(MapError::Memory),
        Err(_) => Err(MapError::BadSchema),
    }
}

/// The schema that an Avro schema text spells, whatever its size: the text is of a record, whose
/// fields are the columns. `BadSchema` comes where it isn't, both faults of an Avro schema text among
/// them, and `SchemaType` with the first column whose type isn't one of a column.
pub fn read_avro(alloc: Global, text: &[u8]) -> Result<Schema, MapError>
    // What is read is spelled by the text, and is sound.
    ensures found { IfOk result (λ s. IsAvroText s text.now × IsSound s) }
    // What a text spells is read, unless memory runs out.
    ensures only { (s : ColumnTrees) → IsAvroText s text.now
        → GivesUnlessMemory is_memory (λ t. t) result (Ok s) }
    // A refusal names its cause.
    ensures refused { IfErr result (λ e. IsUnread text.now e) }
    // The same as a function of the bytes.
    ensures exact { GivesUnlessMemory is_memory (λ s. s) result (avro_schema_of text.now) }
{
    schema_of_text(alloc, text)
}

fn limited_schema_of_text(alloc: Global, text: &[u8]) -> Result<Schema, MapError>
    ensures { GivesUnlessMemory is_memory (λ s. s) result (limited_avro_schema_of text.now) }
{
    let schema = schema_of_text(alloc, text)?;
    match schema_limit(&schema) {
        None => Ok(schema),
        Some(which) => Err(MapError::Limit { which }),
    }
}

/// The schema that an Avro schema text spells, as `read_avro` gives it, where it is within the limits.
/// `Limit` comes where it isn't, with what `schema_limit` gives.
pub fn from_avro(alloc: Global, text: &[u8]) -> Result<Schema, MapError>
    ensures found { IfOk result (λ s. IsAvroText s text.now × IsSound s × IsWithinLimits s) }
    ensures only { (s : ColumnTrees) → IsAvroText s text.now → IsWithinLimits s
        → GivesUnlessMemory is_memory (λ t. t) result (Ok s) }
    ensures refused { IfErr result (λ e. IsAvroRefused text.now e) }
    ensures exact { GivesUnlessMemory is_memory (λ s. s) result
        (limited_avro_schema_of text.now) }
{
    limited_schema_of_text(alloc, text)
}
