//! Writing schemas in Delta's spelling (Delta Lake protocol, "Schema Serialization Format").

ghost use Rattle.std.specs.Prelude.{◌≡◌, ◌≤◌, IfOk, Ok, Some, string_bytes};
ghost use Rattle.serde_json.specs.Data.{string, boolean};
ghost use Rattle.serde_json.specs.View.{view, items_view};
ghost use Rattle.table_history.specs.SchemaView.{type_view, columns_view};
ghost use Rattle.table_history.specs.TypeTree.{struct_of};
ghost use Rattle.schema_delta.specs.DeltaWriting.{delta_decimal_text};
ghost use Rattle.schema_delta.specs.DeltaSpelling.{IsDeltaText};
ghost use Rattle.schema_delta.specs.Delta.{delta_schema_of};
ghost use Rattle.schema_map.specs.Shared.{struct_data};
ghost use Rattle.schema_delta.specs.DeltaWriting.{list_data, map_data, column_data, delta_data, delta_fields, delta_text};
ghost use Rattle.table_history.specs.SchemaSize.{column_levels, max_type_levels, IsWithinLimits};
ghost use Rattle.table_history.specs.Sound.{IsSound};
ghost use Rattle.table_history.specs.declared.kind.Kind.TheVariants.{Delta};
ghost use Rattle.schema_map.specs.Image.{image};
ghost use Rattle.schema_map.specs.Errors.{is_memory};
ghost use Rattle.lake_basics.specs.Outcome.{GivesUnlessMemory};

use json_reading::{json_text, text_value, with_member, with_text};
use lake_basics::Text;
use schema_map::{MapError, struct_json};
use serde_json::{Map, Value};
use std::alloc::{AllocError, Global};
use table_history::{Column, ColumnType, Schema};

fn decimal_text(alloc: Global, precision: u8, scale: u8) -> Result<String, AllocError>
    ensures { IfOk result (λ s. string_bytes s ≡ delta_decimal_text precision scale) }
{
    format!(in alloc; "decimal({precision},{scale})")
}

fn decimal_json(alloc: Global, precision: u8, scale: u8) -> Result<Value, AllocError>
    ensures { IfOk result (λ v. view v ≡ string (delta_decimal_text precision scale)) }
{
    Ok(Value::String(decimal_text(alloc, precision, scale)?))
}

fn list_json(alloc: Global, element: Value, nullable: bool) -> Result<Value, AllocError>
    ensures { IfOk result (λ v. view v ≡ list_data (view element) (boolean nullable)) }
{
    let members = with_member(alloc, Map::new(alloc), "elementType", element)?;
    let members = with_member(alloc, members, "containsNull", Value::Bool(nullable))?;
    let members = with_text(alloc, members, "type", "array")?;
    Ok(Value::Object(members))
}

fn map_json(alloc: Global, key: Value, value: Value, nullable: bool) -> Result<Value, AllocError>
    ensures { IfOk result (λ v. view v ≡ map_data (view key) (view value) (boolean nullable)) }
{
    let members = with_member(alloc, Map::new(alloc), "keyType", key)?;
    let members = with_member(alloc, members, "valueType", value)?;
    let members = with_member(alloc, members, "valueContainsNull", Value::Bool(nullable))?;
    let members = with_text(alloc, members, "type", "map")?;
    Ok(Value::Object(members))
}

fn column_json(alloc: Global, name: &str, kind: Value, nullable: bool) -> Result<Value, AllocError>
    ensures { IfOk result (λ v. view v ≡ column_data name.now (view kind) (boolean nullable)) }
{
    let members = with_member(alloc, Map::new(alloc), "type", kind)?;
    let members = with_member(alloc, members, "metadata", Value::Object(Map::new(alloc)))?;
    let members = with_text(alloc, members, "name", name)?;
    let members = with_member(alloc, members, "nullable", Value::Bool(nullable))?;
    Ok(Value::Object(members))
}

#[cycle(write)]
fn type_json(alloc: Global, kind: &ColumnType) -> Result<Value, AllocError>
    ensures { IfOk result (λ v. view v ≡ delta_data (type_view kind.now)) }
{
    match kind {
        ColumnType::Boolean => text_value(alloc, "boolean"),
        ColumnType::Byte => text_value(alloc, "byte"),
        ColumnType::Short => text_value(alloc, "short"),
        ColumnType::Int => text_value(alloc, "integer"),
        ColumnType::Long => text_value(alloc, "long"),
        ColumnType::Float => text_value(alloc, "float"),
        ColumnType::Double => text_value(alloc, "double"),
        ColumnType::Text => text_value(alloc, "string"),
        ColumnType::Binary => text_value(alloc, "binary"),
        ColumnType::Date => text_value(alloc, "date"),
        ColumnType::Timestamp => text_value(alloc, "timestamp"),
        ColumnType::TimestampNtz => text_value(alloc, "timestamp_ntz"),
        ColumnType::Decimal { precision, scale } => decimal_json(alloc, *precision, *scale),
        ColumnType::Struct(columns) => {
            let fields = Value::Array(fields_json(alloc, columns)?);
            struct_json(alloc, fields)
        }
        ColumnType::List { element, nullable } => {
            let element = type_json(alloc, element)?;
            list_json(alloc, element, *nullable)
        }
        ColumnType::Map {
            key,
            value,
            nullable,
        } => {
            let key = type_json(alloc, key)?;
            let value = type_json(alloc, value)?;
            map_json(alloc, key, value, *nullable)
        }
    }
}

#[tactic(auto, using(crate::proofs::Fields::delta_fields_of))]
#[cycle(write)]
fn fields_json(alloc: Global, columns: &[Column]) -> Result<Vec<Value>, AllocError>
    ensures { IfOk result (λ v. items_view v.items ≡ delta_fields (columns_view columns.now)) }
{
    let mut fields = Vec::with_capacity(alloc, columns.len())?;
    for column in columns {
        let kind = type_json(alloc, &column.kind)?;
        fields.push(column_json(alloc, column.name.as_str(), kind, column.nullable)?)?;
    }
    Ok(fields)
}

fn schema_json(alloc: Global, schema: &Schema) -> Result<Value, AllocError>
    ensures { IfOk result (λ v. view v ≡ delta_data (struct_of schema.now)) }
{
    let fields = Value::Array(fields_json(alloc, schema.columns())?);
    struct_json(alloc, fields)
}

/// Delta's compact JSON text of a schema. Memory is its only error.
#[tactic(auto, using(crate::proofs::Spelled::schema_flat))]
pub fn to_delta(alloc: Global, schema: &Schema) -> Result<Text, MapError>
    ensures text { GivesUnlessMemory is_memory (λ t. t) result (Ok (delta_text schema.now)) }
    // The Image in Delta is the schema itself.
    ensures image { image Delta schema.now ≡ Some schema.now }
    // The text spells the schema, whatever its number of columns.
    ensures spells { IfOk result (λ t. IsSound schema.now
        → column_levels schema.now ≤ max_type_levels → IsDeltaText schema.now t) }
    // `from_delta` gives back what was written.
    ensures reads_back { IfOk result (λ t. IsSound schema.now → IsWithinLimits schema.now
        → delta_schema_of t ≡ Ok schema.now) }
{
    let value = schema_json(alloc, schema)?;
    Ok(json_text(alloc, &value)?)
}
