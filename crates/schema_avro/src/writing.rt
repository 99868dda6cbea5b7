//! Writing the Avro schema of a schema (Apache Avro specification, "Schema Declaration").

ghost use Rattle.std.specs.Prelude.{◌≡◌, ◌≤◌, IfOk, IfErr, OnOk, Ok, Some, None, map, true, false, string_bytes, ◌+◌};
ghost use Rattle.serde_json.specs.Data.{string, depth};
ghost use Rattle.serde_json.specs.Read.{max_depth};
ghost use Rattle.json_reading.specs.Json.{IsReadAgain};
ghost use Rattle.serde_json.specs.View.{view};
ghost use Rattle.lake_basics.specs.Outcome.{GivesUnlessMemory};
ghost use Rattle.table_history.specs.SchemaView.{type_view, columns_view};
ghost use Rattle.table_history.specs.TypeTree.{struct_of};
ghost use Rattle.table_history.specs.declared.kind.Kind.TheVariants.{Hudi};
ghost use Rattle.table_history.specs.Sound.{IsSound};
ghost use Rattle.table_history.specs.SchemaSize.{IsWithinLimits};
ghost use Rattle.schema_map.specs.Errors.{is_memory};
ghost use Rattle.schema_avro.specs.Avro.{limited_avro_schema_of};
ghost use Rattle.schema_avro.specs.AvroSpelling.{IsAvroText};
ghost use Rattle.schema_map.specs.Image.{image, wide_columns};
ghost use Rattle.schema_avro.specs.AvroWriting.{logical_data, decimal_data, items_data};
ghost use Rattle.schema_avro.specs.AvroWriting.{values_data, record_name, record_data};
ghost use Rattle.schema_avro.specs.AvroWriting.{optional_data, nullable_data, avro_field_data};
ghost use Rattle.schema_avro.specs.AvroWriting.{avro_data, avro_fields};
ghost use Rattle.schema_avro.specs.AvroWriting.{avro_text, avro_schema_text, named_record_data};

use crate::names::avro_columns;
use json_reading::{json_text, text_value, with_member, with_text};
use lake_basics::Text;
use schema_map::MapError;
use serde_json::{Map, Value, json};
use std::alloc::{AllocError, Global};
use table_history::{Column, ColumnType, Schema};

fn logical_json(alloc: Global, logical: &str, word: &str) -> Result<Value, AllocError>
    ensures { IfOk result (λ v. view v ≡ logical_data logical.now word.now) }
{
    let members = with_text(alloc, Map::new(alloc), "logicalType", logical)?;
    let members = with_text(alloc, members, "type", word)?;
    Ok(Value::Object(members))
}

fn decimal_json(alloc: Global, precision: u8, scale: u8) -> Result<Value, AllocError>
    ensures { IfOk result (λ v. view v ≡ decimal_data precision scale) }
{
    let members = with_text(alloc, Map::new(alloc), "logicalType", "decimal")?;
    let members = with_member(alloc, members, "precision", Value::from(precision))?;
    let members = with_member(alloc, members, "scale", Value::from(scale))?;
    let members = with_text(alloc, members, "type", "bytes")?;
    Ok(Value::Object(members))
}

fn array_json(alloc: Global, items: Value) -> Result<Value, AllocError>
    ensures { IfOk result (λ v. view v ≡ items_data (view items)) }
{
    let members = with_member(alloc, Map::new(alloc), "items", items)?;
    let members = with_text(alloc, members, "type", "array")?;
    Ok(Value::Object(members))
}

fn map_json(alloc: Global, values: Value) -> Result<Value, AllocError>
    ensures { IfOk result (λ v. view v ≡ values_data (view values)) }
{
    let members = with_member(alloc, Map::new(alloc), "values", values)?;
    let members = with_text(alloc, members, "type", "map")?;
    Ok(Value::Object(members))
}

fn record_name(alloc: Global, number: u64) -> Result<String, AllocError>
    ensures { IfOk result (λ s. string_bytes s ≡ record_name number) }
{
    format!(in alloc; "r{number}")
}

fn named_record_json(alloc: Global, name: &str, fields: Value) -> Result<Value, AllocError>
    ensures { IfOk result (λ v. view v ≡ named_record_data name.now (view fields)) }
{
    let members = with_member(alloc, Map::new(alloc), "fields", fields)?;
    let members = with_text(alloc, members, "name", name)?;
    let members = with_text(alloc, members, "type", "record")?;
    Ok(Value::Object(members))
}

fn record_json(alloc: Global, number: u64, fields: Value) -> Result<Value, AllocError>
    ensures { IfOk result (λ v. view v ≡ record_data number (view fields)) }
{
    let name = record_name(alloc, number)?;
    named_record_json(alloc, name.as_str(), fields)
}

/// The union of null and a type.
fn optional_json(alloc: Global, kind: Value) -> Result<Value, AllocError>
    ensures { IfOk result (λ v. view v ≡ optional_data (view kind)) }
{
    json!(in alloc; ["null", kind])
}

fn nullable_json(alloc: Global, nullable: bool, kind: Value) -> Result<Value, AllocError>
    ensures { IfOk result (λ v. view v ≡ nullable_data nullable (view kind)) }
{
    if nullable {
        optional_json(alloc, kind)
    } else {
        Ok(kind)
    }
}

fn optional_field_json(alloc: Global, name: &str, kind: Value) -> Result<Value, AllocError>
    ensures { IfOk result (λ v. view v ≡ avro_field_data true name.now (view kind)) }
{
    let kind = optional_json(alloc, kind)?;
    let members = with_member(alloc, Map::new(alloc), "type", kind)?;
    let members = with_member(alloc, members, "default", Value::Null)?;
    let members = with_text(alloc, members, "name", name)?;
    Ok(Value::Object(members))
}

fn required_field_json(alloc: Global, name: &str, kind: Value) -> Result<Value, AllocError>
    ensures { IfOk result (λ v. view v ≡ avro_field_data false name.now (view kind)) }
{
    let members = with_member(alloc, Map::new(alloc), "type", kind)?;
    let members = with_text(alloc, members, "name", name)?;
    Ok(Value::Object(members))
}

fn field_json(alloc: Global, nullable: bool, name: &str, kind: Value) -> Result<Value, AllocError>
    ensures { IfOk result (λ v. view v ≡ avro_field_data nullable name.now (view kind)) }
{
    if nullable {
        optional_field_json(alloc, name, kind)
    } else {
        required_field_json(alloc, name, kind)
    }
}

/// The number of the record behind this one. No memory holds 2 ^ 64 records.
fn number_behind(number: u64) -> Result<u64, AllocError>
    ensures { IfOk result (λ n. n ≡ number + 1) }
{
    number.checked_add(1).ok_or(AllocError)
}

fn word_json(alloc: Global, word: &str, records: u64) -> Result<(Value, u64), AllocError>
    ensures { IfOk result (λ p. (view p.0 ≡ string word.now) × (p.1 ≡ records)) }
{
    Ok((text_value(alloc, word)?, records))
}

fn logical_type_json(
    alloc: Global,
    logical: &str,
    word: &str,
    records: u64,
) -> Result<(Value, u64), AllocError>
    ensures { IfOk result (λ p. (view p.0 ≡ logical_data logical.now word.now) × (p.1 ≡ records)) }
{
    Ok((logical_json(alloc, logical, word)?, records))
}

/// The JSON of a type, where so many records stand before it, and how many stand before what
/// follows.
#[cycle(avro_write)]
fn type_json(alloc: Global, kind: &ColumnType, records: u64) -> Result<(Value, u64), AllocError>
    ensures { IfOk result (λ p. (view p.0, p.1) ≡ avro_data (type_view kind.now) records) }
{
    match kind {
        ColumnType::Boolean => word_json(alloc, "boolean", records),
        ColumnType::Byte | ColumnType::Short | ColumnType::Int => word_json(alloc, "int", records),
        ColumnType::Long => word_json(alloc, "long", records),
        ColumnType::Float => word_json(alloc, "float", records),
        ColumnType::Double => word_json(alloc, "double", records),
        ColumnType::Text => word_json(alloc, "string", records),
        ColumnType::Binary => word_json(alloc, "bytes", records),
        ColumnType::Date => logical_type_json(alloc, "date", "int", records),
        ColumnType::Timestamp => logical_type_json(alloc, "timestamp-micros", "long", records),
        ColumnType::TimestampNtz => {
            logical_type_json(alloc, "local-timestamp-micros", "long", records)
        }
        ColumnType::Decimal { precision, scale } => {
            Ok((decimal_json(alloc, *precision, *scale)?, records))
        }
        ColumnType::Struct(columns) => {
            let inner = number_behind(records)?;
            let (fields, behind) = fields_json(alloc, columns.as_slice(), inner)?;
            Ok((record_json(alloc, records, Value::Array(fields))?, behind))
        }
        ColumnType::List { element, nullable } => {
            let (items, behind) = type_json(alloc, element, records)?;
            let items = nullable_json(alloc, *nullable, items)?;
            Ok((array_json(alloc, items)?, behind))
        }
        ColumnType::Map {
            value,
            nullable,
            ..
        } => {
            let (values, behind) = type_json(alloc, value, records)?;
            let values = nullable_json(alloc, *nullable, values)?;
            Ok((map_json(alloc, values)?, behind))
        }
    }
}

#[cycle(avro_write)]
fn fields_json(
    alloc: Global,
    columns: &[Column],
    records: u64,
) -> Result<(Vec<Value>, u64), AllocError>
    ensures { IfOk result (λ p. (map view p.0.items, p.1)
        ≡ avro_fields (columns_view columns.now) records) }
{
    let mut fields = Vec::with_capacity(alloc, columns.len())?;
    let mut before = records;
    for column in columns {
        let (kind, behind) = type_json(alloc, &column.kind, before)?;
        let name = column.name.as_str();
        fields.push(field_json(alloc, column.nullable, name, kind)?)?;
        before = behind;
    }
    Ok((fields, before))
}

/// The JSON of the record that is the schema.
fn schema_json(alloc: Global, columns: &[Column]) -> Result<Value, AllocError>
    ensures { IfOk result (λ v. view v ≡ (avro_data (struct_of (columns_view columns.now)) 0).0) }
{
    let (fields, _behind) = fields_json(alloc, columns, 1)?;
    record_json(alloc, 0, Value::Array(fields))
}

fn text_of(alloc: Global, columns: &[Column]) -> Result<Text, AllocError>
    ensures text { IfOk result (λ t. t ≡ avro_text (columns_view columns.now)) }
    ensures again { OnOk result (depth (avro_data (struct_of (columns_view columns.now)) 0).0
        ≤ max_depth → IsReadAgain (avro_data (struct_of (columns_view columns.now)) 0).0) }
{
    let value = schema_json(alloc, columns)?;
    json_text(alloc, &value)
}

fn schema_text(alloc: Global, schema: &Schema) -> Result<Text, MapError>
    ensures text { GivesUnlessMemory is_memory (λ t. t) result (avro_schema_text schema.now) }
    ensures again { OnOk result (depth (avro_data (struct_of schema.now) 0).0 ≤ max_depth
        → IsReadAgain (avro_data (struct_of schema.now) 0).0) }
{
    let columns = avro_columns(alloc, schema.columns())?;
    Ok(text_of(alloc, columns)?)
}

/// The Avro schema of a schema, as a compact JSON text: its Image in Hudi. `SchemaType` comes exactly
/// where a map's key isn't a text, and `AvroName` exactly where a name isn't an Avro name; of both,
/// `SchemaType` comes.
pub fn to_avro(alloc: Global, schema: &Schema) -> Result<Text, MapError>
    // The text, or the first refusal.
    ensures exact { GivesUnlessMemory is_memory (λ t. t) result (avro_schema_text schema.now) }
    // It refuses where the Image isn't defined, and nowhere else.
    ensures defined { IfOk result (λ _. image Hudi schema.now ≡ Some (wide_columns schema.now)) }
    ensures undefined { IfErr result (λ e. is_memory e ≡ false → image Hudi schema.now ≡ None) }
    // Within the limits the text spells the Image, and `from_avro` gives this back.
    ensures reads_back { IfOk result (λ t. IsSound schema.now → IsWithinLimits schema.now
        → IsAvroText (wide_columns schema.now) t
        × (limited_avro_schema_of t ≡ Ok (wide_columns schema.now))) }
    // What the Image reads back as has that Image too.
    ensures settled { IfOk result (λ _. image Hudi (wide_columns schema.now)
        ≡ Some (wide_columns schema.now)) }
{
    schema_text(alloc, schema)
}
