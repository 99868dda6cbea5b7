//! Reading Delta's spelling of schemas (Delta Lake protocol, "Schema Serialization Format").

ghost use Rattle.std.specs.Prelude.{◌≡◌, map, IfOk, IfErr, Ok};
ghost use Rattle.serde_json.specs.View.{view, items_view};
ghost use Rattle.table_history.specs.SchemaView.{type_view, column_view, columns_view};
ghost use Rattle.table_history.specs.TypeTree.{ColumnTrees};
ghost use Rattle.lake_basics.specs.Outcome.{Gives, GivesUnlessMemory, each};
ghost use Rattle.json_reading.specs.Json.{items};
ghost use Rattle.schema_map.specs.Errors.{is_memory};
ghost use Rattle.schema_delta.specs.Delta.{delta_type, delta_shape, delta_nested, delta_struct};
ghost use Rattle.schema_delta.specs.Delta.{delta_list, delta_map, delta_columns, delta_column};
ghost use Rattle.schema_delta.specs.Delta.{delta_top_column, delta_schema, delta_schema_of};
ghost use Rattle.schema_delta.specs.DeltaSpelling.{IsDeltaText};
ghost use Rattle.schema_delta.specs.DeltaRefusal.{IsDeltaRefused};
ghost use Rattle.table_history.specs.SchemaSize.{IsWithinLimits};
ghost use Rattle.table_history.specs.Sound.{IsSound};

use crate::word::delta_simple_type;
use lake_basics::{ReadError, Text};
use schema_map::{
    BAD_SCHEMA, DEPTH, Fault, MAX_TYPE_LEVELS, MapError, SCHEMA_TYPE, error_in, have_own_names,
    json_of, name_of, required_bool, required_list, required_member, required_text, schema_fields,
    schema_of,
};
use serde_json::Value;
use std::alloc::Global;
use table_history::{Column, ColumnType, Schema};

/// The type that a value spells in at most this many levels.
#[tactic(auto, unfolding(crate::specs::Delta::delta_type))]
#[cycle(delta)]
fn type_of(alloc: Global, value: &Value, levels: u64) -> Result<ColumnType, ReadError<Fault>>
    ensures { Gives type_view result (delta_type levels (view value.now)) }
{
    if levels == 0 {
        return Err(DEPTH);
    }
    shape_of(alloc, value, levels - 1)
}

#[cycle(delta)]
fn shape_of(alloc: Global, value: &Value, below: u64) -> Result<ColumnType, ReadError<Fault>>
    ensures { Gives type_view result (delta_shape (delta_type below) (view value.now)) }
{
    match value {
        Value::String(word) => delta_simple_type(word.as_str()),
        Value::Object(_) => nested_of(alloc, value, below),
        _ => Err(BAD_SCHEMA),
    }
}

#[tactic(auto, unfolding(crate::specs::Delta::delta_nested))]
#[cycle(delta)]
fn nested_of(alloc: Global, value: &Value, below: u64) -> Result<ColumnType, ReadError<Fault>>
    ensures { Gives type_view result (delta_nested (delta_type below) (view value.now)) }
{
    let word = required_text(value, "type")?;
    if word == "struct" {
        struct_of(alloc, value, below)
    } else if word == "array" {
        list_of(alloc, value, below)
    } else if word == "map" {
        map_of(alloc, value, below)
    } else {
        Err(SCHEMA_TYPE)
    }
}

#[tactic(auto, unfolding(crate::specs::Delta::delta_struct))]
#[cycle(delta)]
fn struct_of(alloc: Global, value: &Value, below: u64) -> Result<ColumnType, ReadError<Fault>>
    ensures { Gives type_view result (delta_struct (delta_type below) (view value.now)) }
{
    let fields = required_list(value, "fields")?;
    let columns = columns_of(alloc, fields, below)?;
    Ok(ColumnType::Struct(columns))
}

#[tactic(auto, unfolding(crate::specs::Delta::delta_list))]
#[cycle(delta)]
fn list_of(alloc: Global, value: &Value, below: u64) -> Result<ColumnType, ReadError<Fault>>
    ensures { Gives type_view result (delta_list (delta_type below) (view value.now)) }
{
    let nullable = required_bool(value, "containsNull")?;
    let element = required_member(value, "elementType")?;
    let element = type_of(alloc, element, below)?;
    let element = Box::new(alloc, element)?;
    Ok(ColumnType::List { element, nullable })
}

#[tactic(auto, unfolding(crate::specs::Delta::delta_map))]
#[cycle(delta)]
fn map_of(alloc: Global, value: &Value, below: u64) -> Result<ColumnType, ReadError<Fault>>
    ensures { Gives type_view result (delta_map (delta_type below) (view value.now)) }
{
    let nullable = required_bool(value, "valueContainsNull")?;
    let key = required_member(value, "keyType")?;
    let key = type_of(alloc, key, below)?;
    let value = required_member(value, "valueType")?;
    let value = type_of(alloc, value, below)?;
    let key = Box::new(alloc, key)?;
    let value = Box::new(alloc, value)?;
    Ok(ColumnType::Map {
        key,
        value,
        nullable,
    })
}

#[tactic(auto, unfolding(crate::specs::Delta::delta_columns))]
#[cycle(delta)]
fn columns_of(
    alloc: Global,
    fields: &Vec<Value>,
    below: u64,
) -> Result<Vec<Column>, ReadError<Fault>>
    ensures { Gives (λ v. columns_view v.items) result
        (delta_columns (delta_type below) (items_view fields.now.items)) }
{
    let mut columns = Vec::new(alloc);
    for field in fields {
        columns.push(column_of(alloc, field, below)?)?;
    }
    if have_own_names(alloc, columns.as_slice())? {
        Ok(columns)
    } else {
        Err(BAD_SCHEMA)
    }
}

#[tactic(auto, unfolding(crate::specs::Delta::delta_column))]
#[cycle(delta)]
fn column_of(alloc: Global, field: &Value, below: u64) -> Result<Column, ReadError<Fault>>
    ensures { Gives column_view result (delta_column (delta_type below) (view field.now)) }
{
    let name = required_text(field, "name")?;
    let nullable = required_bool(field, "nullable")?;
    let kind = required_member(field, "type")?;
    let name = Text::from_str(alloc, name)?;
    let kind = type_of(alloc, kind, below)?;
    Ok(Column {
        name,
        kind,
        nullable,
    })
}

// ---- a schema

fn top_column_of(alloc: Global, field: &Value) -> Result<Column, MapError>
    ensures { GivesUnlessMemory is_memory column_view result
        (delta_top_column (view field.now)) }
{
    let name = name_of(field);
    match column_of(alloc, field, MAX_TYPE_LEVELS) {
        Ok(column) => Ok(column),
        Err(error) => Err(error_in(alloc, name, error)),
    }
}

fn top_columns_of(alloc: Global, fields: &Vec<Value>) -> Result<Vec<Column>, MapError>
    ensures { GivesUnlessMemory is_memory (λ v. map column_view v.items) result
        (each delta_top_column (items (items_view fields.now.items))) }
{
    let mut columns = Vec::new(alloc);
    for field in fields {
        columns.push(top_column_of(alloc, field)?)?;
    }
    Ok(columns)
}

#[tactic(auto, unfolding(crate::specs::Delta::delta_schema))]
fn delta_schema(alloc: Global, value: &Value) -> Result<Schema, MapError>
    ensures { GivesUnlessMemory is_memory (λ s. s) result (delta_schema (view value.now)) }
{
    let fields = match schema_fields(value) {
        Ok(fields) => fields,
        Err(error) => return Err(error_in(alloc, "", error)),
    };
    let columns = top_columns_of(alloc, fields)?;
    schema_of(alloc, columns)
}

fn schema_from(alloc: Global, text: &[u8]) -> Result<Schema, MapError>
    ensures { GivesUnlessMemory is_memory (λ s. s) result (delta_schema_of text.now) }
{
    let value = json_of(alloc, text)?;
    delta_schema(alloc, &value)
}

/// The schema that a Delta schema text spells. `BadSchema` comes only where the text isn't in the
/// grammar or two columns of one struct have one name, `SchemaType` only where the column has a type
/// without a row in the table of types, and `Limit` only where Columns or Depth is passed.
pub fn from_delta(alloc: Global, text: &[u8]) -> Result<Schema, MapError>
    // What is read is spelled by the text, is sound, and is within the limits.
    ensures found { IfOk result (λ s. IsDeltaText s text.now × IsSound s × IsWithinLimits s) }
    // What a text spells within the limits is read, unless memory runs out.
    ensures only { (s : ColumnTrees) → IsDeltaText s text.now → IsWithinLimits s
        → GivesUnlessMemory is_memory (λ t. t) result (Ok s) }
    // A refusal names its cause.
    ensures refused { IfErr result (λ e. IsDeltaRefused text.now e) }
    // The same as a function of the bytes, which says the first fault too.
    ensures exact { GivesUnlessMemory is_memory (λ s. s) result (delta_schema_of text.now) }
{
    schema_from(alloc, text)
}
