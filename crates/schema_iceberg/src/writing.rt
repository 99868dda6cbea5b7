//! Writing Iceberg's JSON of a schema (Apache Iceberg specification, "JSON serialization", Schemas).

ghost use Rattle.std.specs.Prelude.{◌≡◌, IfOk, Ok, map, length, string_bytes};
ghost use Rattle.serde_json.specs.Data.{Data, string};
ghost use Rattle.serde_json.specs.View.{view};
ghost use Rattle.lake_basics.specs.Outcome.{GivesUnlessMemory};
ghost use Rattle.table_history.specs.SchemaView.{type_view, columns_view};
ghost use Rattle.schema_map.specs.Errors.{is_memory};
ghost use Rattle.schema_iceberg.specs.Iceberg.{iceberg_schema};
ghost use Rattle.schema_iceberg.specs.IcebergSpelling.{IsIcebergSchema};
ghost use Rattle.schema_map.specs.Paths.{column_paths};
ghost use Rattle.schema_map.specs.Image.{wide_columns};
ghost use Rattle.schema_map.specs.IcebergFits.{AreIds};
ghost use Rattle.schema_map.specs.IcebergFits.{FitsIceberg};
ghost use Rattle.table_history.specs.Sound.{IsSound};
ghost use Rattle.schema_iceberg.specs.IcebergWriting.{first_id, ids_behind, iceberg_decimal_text};
ghost use Rattle.schema_iceberg.specs.IcebergWriting.{iceberg_list_data, iceberg_map_data};
ghost use Rattle.schema_iceberg.specs.IcebergWriting.{iceberg_field_data, iceberg_schema_data};
ghost use Rattle.schema_iceberg.specs.IcebergWriting.{iceberg_data, iceberg_fields, iceberg_value};

use json_reading::{text_value, with_member, with_text};
use schema_map::{Ids, MapError, struct_json};
use serde_json::{Map, Value};
use std::alloc::{AllocError, Global};
use table_history::{Column, ColumnType, Schema};

/// The first id, or 0 where there is none, and the ids behind it.
pub(crate) fn first_id(ids: &[i32]) -> (i32, &[i32])
    ensures id { result.0 ≡ first_id ids.now }
    ensures behind { result.1.now ≡ ids_behind ids.now }
{
    match ids {
        [id, behind @ ..] => (*id, behind),
        [] => (0, ids),
    }
}

fn decimal_text(alloc: Global, precision: u8, scale: u8) -> Result<String, AllocError>
    ensures { IfOk result (λ s. string_bytes s ≡ iceberg_decimal_text precision scale) }
{
    format!(in alloc; "decimal({precision}, {scale})")
}

fn decimal_json(alloc: Global, precision: u8, scale: u8) -> Result<Value, AllocError>
    ensures { IfOk result (λ v. view v ≡ string (iceberg_decimal_text precision scale)) }
{
    Ok(Value::String(decimal_text(alloc, precision, scale)?))
}

fn list_json(alloc: Global, id: i32, element: Value, is_required: bool) -> Result<Value, AllocError>
    ensures { IfOk result (λ v. view v ≡ iceberg_list_data id (view element) is_required) }
{
    let members = with_member(alloc, Map::new(alloc), "element", element)?;
    let members = with_member(alloc, members, "element-id", Value::from(id))?;
    let members = with_member(alloc, members, "element-required", Value::Bool(is_required))?;
    let members = with_text(alloc, members, "type", "list")?;
    Ok(Value::Object(members))
}

fn map_json(
    alloc: Global,
    key_id: i32,
    key: Value,
    value_id: i32,
    value: Value,
    is_required: bool,
) -> Result<Value, AllocError>
    ensures { IfOk result (λ v. view v
        ≡ iceberg_map_data key_id (view key) value_id (view value) is_required) }
{
    let members = with_member(alloc, Map::new(alloc), "key", key)?;
    let members = with_member(alloc, members, "value", value)?;
    let members = with_member(alloc, members, "key-id", Value::from(key_id))?;
    let members = with_member(alloc, members, "value-id", Value::from(value_id))?;
    let members = with_member(alloc, members, "value-required", Value::Bool(is_required))?;
    let members = with_text(alloc, members, "type", "map")?;
    Ok(Value::Object(members))
}

fn field_json(
    alloc: Global,
    id: i32,
    name: &str,
    kind: Value,
    is_required: bool,
) -> Result<Value, AllocError>
    ensures { IfOk result (λ v. view v ≡ iceberg_field_data id name.now (view kind) is_required) }
{
    let members = with_member(alloc, Map::new(alloc), "type", kind)?;
    let members = with_member(alloc, members, "id", Value::from(id))?;
    let members = with_text(alloc, members, "name", name)?;
    let members = with_member(alloc, members, "required", Value::Bool(is_required))?;
    Ok(Value::Object(members))
}

fn schema_json(alloc: Global, fields: Value, schema_id: i32) -> Result<Value, AllocError>
    ensures { IfOk result (λ v. view v ≡ iceberg_schema_data (view fields) schema_id) }
{
    let members = with_member(alloc, Map::new(alloc), "fields", fields)?;
    let members = with_member(alloc, members, "schema-id", Value::from(schema_id))?;
    let members = with_text(alloc, members, "type", "struct")?;
    Ok(Value::Object(members))
}

/// The word of a type without parts.
fn word_json<'a>(
    alloc: Global,
    word: &str,
    ids: &'a [i32],
) -> Result<(Value, &'a [i32]), AllocError>
    ensures { IfOk result (λ p. (view p.0 ≡ string word.now) × (p.1.now ≡ ids.now)) }
{
    Ok((text_value(alloc, word)?, ids))
}

/// The JSON of a type whose ids begin the list, and the ids that are left.
#[cycle(iceberg_write)]
fn type_json<'a>(
    alloc: Global,
    kind: &ColumnType,
    ids: &'a [i32],
) -> Result<(Value, &'a [i32]), AllocError>
    ensures { IfOk result (λ p. (view p.0, p.1.now) ≡ iceberg_data (type_view kind.now) ids.now) }
{
    match kind {
        ColumnType::Boolean => word_json(alloc, "boolean", ids),
        ColumnType::Byte | ColumnType::Short | ColumnType::Int => word_json(alloc, "int", ids),
        ColumnType::Long => word_json(alloc, "long", ids),
        ColumnType::Float => word_json(alloc, "float", ids),
        ColumnType::Double => word_json(alloc, "double", ids),
        ColumnType::Text => word_json(alloc, "string", ids),
        ColumnType::Binary => word_json(alloc, "binary", ids),
        ColumnType::Date => word_json(alloc, "date", ids),
        ColumnType::Timestamp => word_json(alloc, "timestamptz", ids),
        ColumnType::TimestampNtz => word_json(alloc, "timestamp", ids),
        ColumnType::Decimal { precision, scale } => {
            Ok((decimal_json(alloc, *precision, *scale)?, ids))
        }
        ColumnType::Struct(columns) => {
            let (fields, left) = fields_json(alloc, columns.as_slice(), ids)?;
            Ok((struct_json(alloc, Value::Array(fields))?, left))
        }
        ColumnType::List { element, nullable } => {
            let (id, inner) = first_id(ids);
            let (element, left) = type_json(alloc, element, inner)?;
            Ok((list_json(alloc, id, element, !*nullable)?, left))
        }
        ColumnType::Map {
            key,
            value,
            nullable,
        } => {
            let (key_id, inner) = first_id(ids);
            let (key, behind) = type_json(alloc, key, inner)?;
            let (value_id, inner) = first_id(behind);
            let (value, left) = type_json(alloc, value, inner)?;
            Ok((
                map_json(alloc, key_id, key, value_id, value, !*nullable)?,
                left,
            ))
        }
    }
}

#[cycle(iceberg_write)]
fn fields_json<'a>(
    alloc: Global,
    columns: &[Column],
    ids: &'a [i32],
) -> Result<(Vec<Value>, &'a [i32]), AllocError>
    ensures { IfOk result (λ p. (map view p.0.items, p.1.now)
        ≡ iceberg_fields (columns_view columns.now) ids.now) }
{
    let mut fields = Vec::with_capacity(alloc, columns.len())?;
    let mut left = ids;
    for column in columns {
        let (id, inner) = first_id(left);
        let (kind, behind) = type_json(alloc, &column.kind, inner)?;
        let name = column.name.as_str();
        fields.push(field_json(alloc, id, name, kind, !column.nullable)?)?;
        left = behind;
    }
    Ok((fields, left))
}

fn whole_json(alloc: Global, schema: &Schema, ids: &Ids, schema_id: i32) -> Result<Value, MapError>
    ensures { GivesUnlessMemory is_memory view result
        (Ok (iceberg_value schema.now ids.now schema_id)) }
{
    let (fields, _left) = fields_json(alloc, schema.columns(), ids.as_slice())?;
    Ok(schema_json(alloc, Value::Array(fields), schema_id)?)
}

/// Iceberg's JSON of a schema with these field ids, in depth-first order, and this schema id.
/// Memory is its only error.
pub fn iceberg_json(
    alloc: Global,
    schema: &Schema,
    ids: &Ids,
    schema_id: i32,
) -> Result<Value, MapError>
    ensures value { GivesUnlessMemory is_memory view result
        (Ok (iceberg_value schema.now ids.now schema_id)) }
    // It spells the Image of the schema, where there is one id for each column path.
    ensures spells { IfOk result (λ v. IsSound schema.now → AreIds ids.now
        → length ids.now ≡ length (column_paths schema.now)
        → IsIcebergSchema (wide_columns schema.now) ids.now (view v)) }
    // `from_iceberg` gives back the Image and the ids.
    ensures reads_back { IfOk result (λ v. FitsIceberg schema.now ids.now
        → iceberg_schema (view v) ≡ Ok (wide_columns schema.now, ids.now)) }
    // `from_iceberg` gives back what it once gave.
    ensures again { IfOk result (λ v. (d : Data) → iceberg_schema d ≡ Ok (schema.now, ids.now)
        → iceberg_schema (view v) ≡ Ok (schema.now, ids.now)) }
{
    whole_json(alloc, schema, ids, schema_id)
}
