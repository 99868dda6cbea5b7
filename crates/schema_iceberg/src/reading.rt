//! Reading Iceberg's spelling of schemas (Apache Iceberg specification, "JSON serialization", Schemas)
//! with its field ids.

ghost use Rattle.std.specs.Prelude.{◌≡◌, ◌∷◌, ◌++◌, map, IfOk, IfErr, Ok, Some, List, ℤ};
ghost use Rattle.serde_json.specs.View.{view, items_view};
ghost use Rattle.table_history.specs.SchemaView.{type_view, column_view, columns_view};
ghost use Rattle.table_history.specs.TypeTree.{ColumnTrees};
ghost use Rattle.lake_basics.specs.Outcome.{Gives, GivesUnlessMemory};
ghost use Rattle.json_reading.specs.Json.{items};
ghost use Rattle.table_history.specs.declared.kind.Kind.TheVariants.{Iceberg};
ghost use Rattle.schema_map.specs.Image.{image};
ghost use Rattle.schema_map.specs.IcebergFits.{FitsIceberg};
ghost use Rattle.schema_map.specs.Errors.{is_memory};
ghost use Rattle.schema_iceberg.specs.Iceberg.{iceberg_word, iceberg_simple, iceberg_type};
ghost use Rattle.schema_iceberg.specs.Iceberg.{iceberg_shape, iceberg_nested, iceberg_struct};
ghost use Rattle.schema_iceberg.specs.Iceberg.{iceberg_list, iceberg_map, iceberg_columns};
ghost use Rattle.schema_iceberg.specs.Iceberg.{iceberg_column, iceberg_top_column, iceberg_schema};
ghost use Rattle.schema_iceberg.specs.Iceberg.{each_with_ids};
ghost use Rattle.schema_iceberg.specs.IcebergSpelling.{IsIcebergSchema};
ghost use Rattle.schema_iceberg.specs.IcebergRefusal.{IsIcebergRefused};
ghost use Rattle.table_history.specs.SchemaSize.{IsWithinLimits};

use lake_basics::{Items, ReadError, Text};
use schema_map::{
    BAD_SCHEMA, DEPTH, Fault, Ids, MAX_TYPE_LEVELS, MapError, SCHEMA_TYPE, decimal_of, error_in,
    have_own_names, name_of, required_bool, required_int, required_list, required_member,
    required_text, schema_fields, schema_of,
};
use serde_json::Value;
use std::alloc::{AllocError, Global};
use table_history::{Column, ColumnType, Schema};

#[tactic(auto, unfolding(crate::specs::Iceberg::iceberg_word))]
fn word_type(word: &str) -> Result<ColumnType, ReadError<Fault>>
    ensures { Gives type_view result (iceberg_word word.now) }
{
    match word {
        "boolean" => Ok(ColumnType::Boolean),
        "int" => Ok(ColumnType::Int),
        "long" => Ok(ColumnType::Long),
        "float" => Ok(ColumnType::Float),
        "double" => Ok(ColumnType::Double),
        "string" => Ok(ColumnType::Text),
        "binary" => Ok(ColumnType::Binary),
        "date" => Ok(ColumnType::Date),
        "timestamptz" => Ok(ColumnType::Timestamp),
        "timestamp" => Ok(ColumnType::TimestampNtz),
        _ => Err(SCHEMA_TYPE),
    }
}

fn simple_type(alloc: Global, name: &str) -> Result<(ColumnType, Ids), ReadError<Fault>>
    ensures { Gives (λ p. (type_view p.0, p.1)) result (iceberg_simple name.now) }
{
    let kind = match decimal_of(name) {
        Some((precision, scale)) => ColumnType::Decimal { precision, scale },
        None => word_type(name)?,
    };
    Ok((kind, Items::new(alloc)))
}

/// The type that a value spells in at most this many levels, and the ids in it.
#[tactic(auto, unfolding(crate::specs::Iceberg::iceberg_type))]
#[cycle(iceberg)]
fn type_of(alloc: Global, value: &Value, levels: u64) -> Result<(ColumnType, Ids), ReadError<Fault>>
    ensures { Gives (λ p. (type_view p.0, p.1)) result (iceberg_type levels (view value.now)) }
{
    if levels == 0 {
        return Err(DEPTH);
    }
    shape_of(alloc, value, levels - 1)
}

#[cycle(iceberg)]
fn shape_of(alloc: Global, value: &Value, below: u64) -> Result<(ColumnType, Ids), ReadError<Fault>>
    ensures { Gives (λ p. (type_view p.0, p.1)) result (iceberg_shape (iceberg_type below) (view value.now)) }
{
    match value {
        Value::String(word) => simple_type(alloc, word.as_str()),
        Value::Object(_) => nested_of(alloc, value, below),
        _ => Err(BAD_SCHEMA),
    }
}

#[tactic(auto, unfolding(crate::specs::Iceberg::iceberg_nested))]
#[cycle(iceberg)]
fn nested_of(
    alloc: Global,
    value: &Value,
    below: u64,
) -> Result<(ColumnType, Ids), ReadError<Fault>>
    ensures { Gives (λ p. (type_view p.0, p.1)) result (iceberg_nested (iceberg_type below) (view value.now)) }
{
    let word = required_text(value, "type")?;
    if word == "struct" {
        struct_of(alloc, value, below)
    } else if word == "list" {
        list_of(alloc, value, below)
    } else if word == "map" {
        map_of(alloc, value, below)
    } else {
        Err(SCHEMA_TYPE)
    }
}

#[tactic(auto, unfolding(crate::specs::Iceberg::iceberg_struct))]
#[cycle(iceberg)]
fn struct_of(
    alloc: Global,
    value: &Value,
    below: u64,
) -> Result<(ColumnType, Ids), ReadError<Fault>>
    ensures { Gives (λ p. (type_view p.0, p.1)) result (iceberg_struct (iceberg_type below) (view value.now)) }
{
    let fields = required_list(value, "fields")?;
    let (columns, ids) = columns_of(alloc, fields, below)?;
    Ok((ColumnType::Struct(columns), ids))
}

/// The id, and then these.
fn id_before(alloc: Global, id: i32, inner: &Ids) -> Result<Ids, AllocError>
    ensures { IfOk result (λ ids. ids ≡ id ∷ inner.now) }
{
    let mut ids = Vec::new(alloc);
    ids.push(id)?;
    ids.extend_from_slice(inner.as_slice())?;
    Ok(Items::from_vec(ids))
}

/// These ids, and then those.
fn ids_joined(alloc: Global, front: &Ids, behind: &Ids) -> Result<Ids, AllocError>
    ensures { IfOk result (λ ids. ids ≡ front.now ++ behind.now) }
{
    let mut ids = Vec::new(alloc);
    ids.extend_from_slice(front.as_slice())?;
    ids.extend_from_slice(behind.as_slice())?;
    Ok(Items::from_vec(ids))
}

#[tactic(auto, unfolding(crate::specs::Iceberg::iceberg_list))]
#[cycle(iceberg)]
fn list_of(alloc: Global, value: &Value, below: u64) -> Result<(ColumnType, Ids), ReadError<Fault>>
    ensures { Gives (λ p. (type_view p.0, p.1)) result (iceberg_list (iceberg_type below) (view value.now)) }
{
    let id = required_int(value, "element-id")?;
    let is_required = required_bool(value, "element-required")?;
    let element = required_member(value, "element")?;
    let (element, inner) = type_of(alloc, element, below)?;
    let element = Box::new(alloc, element)?;
    let ids = id_before(alloc, id, &inner)?;
    let nullable = !is_required;
    Ok((ColumnType::List { element, nullable }, ids))
}

#[tactic(auto, unfolding(crate::specs::Iceberg::iceberg_map))]
#[cycle(iceberg)]
fn map_of(alloc: Global, value: &Value, below: u64) -> Result<(ColumnType, Ids), ReadError<Fault>>
    ensures { Gives (λ p. (type_view p.0, p.1)) result (iceberg_map (iceberg_type below) (view value.now)) }
{
    let key_id = required_int(value, "key-id")?;
    let value_id = required_int(value, "value-id")?;
    let is_required = required_bool(value, "value-required")?;
    let key = required_member(value, "key")?;
    let (key, key_ids) = type_of(alloc, key, below)?;
    let value = required_member(value, "value")?;
    let (value, value_ids) = type_of(alloc, value, below)?;
    let key = Box::new(alloc, key)?;
    let value = Box::new(alloc, value)?;
    let behind = id_before(alloc, value_id, &value_ids)?;
    let inner = ids_joined(alloc, &key_ids, &behind)?;
    let ids = id_before(alloc, key_id, &inner)?;
    let nullable = !is_required;
    Ok((
        ColumnType::Map {
            key,
            value,
            nullable,
        },
        ids,
    ))
}

#[tactic(auto, unfolding(crate::specs::Iceberg::iceberg_columns))]
#[cycle(iceberg)]
fn columns_of(
    alloc: Global,
    fields: &Vec<Value>,
    below: u64,
) -> Result<(Vec<Column>, Ids), ReadError<Fault>>
    ensures { Gives (λ p. (columns_view p.0.items, p.1)) result (iceberg_columns (iceberg_type below) (items_view fields.now.items)) }
{
    let mut columns = Vec::new(alloc);
    let mut ids = Vec::new(alloc);
    for field in fields {
        let (column, inner) = column_of(alloc, field, below)?;
        columns.push(column)?;
        ids.extend_from_slice(inner.as_slice())?;
    }
    if have_own_names(alloc, columns.as_slice())? {
        Ok((columns, Items::from_vec(ids)))
    } else {
        Err(BAD_SCHEMA)
    }
}

#[tactic(auto, unfolding(crate::specs::Iceberg::iceberg_column))]
#[cycle(iceberg)]
fn column_of(alloc: Global, field: &Value, below: u64) -> Result<(Column, Ids), ReadError<Fault>>
    ensures { Gives (λ p. (column_view p.0, p.1)) result (iceberg_column (iceberg_type below) (view field.now)) }
{
    let id = required_int(field, "id")?;
    let name = required_text(field, "name")?;
    let is_required = required_bool(field, "required")?;
    let kind = required_member(field, "type")?;
    let name = Text::from_str(alloc, name)?;
    let (kind, inner) = type_of(alloc, kind, below)?;
    let ids = id_before(alloc, id, &inner)?;
    let nullable = !is_required;
    Ok((
        Column {
            name,
            kind,
            nullable,
        },
        ids,
    ))
}

// ---- a schema

fn top_column_of(alloc: Global, field: &Value) -> Result<(Column, Ids), MapError>
    ensures { GivesUnlessMemory is_memory (λ p. (column_view p.0, p.1)) result (iceberg_top_column (view field.now)) }
{
    let name = name_of(field);
    match column_of(alloc, field, MAX_TYPE_LEVELS) {
        Ok(column) => Ok(column),
        Err(error) => Err(error_in(alloc, name, error)),
    }
}

fn top_columns_of(alloc: Global, fields: &Vec<Value>) -> Result<(Vec<Column>, Ids), MapError>
    ensures { GivesUnlessMemory is_memory (λ p. (map column_view p.0.items, p.1)) result
        (each_with_ids iceberg_top_column (items (items_view fields.now.items))) }
{
    let mut columns = Vec::new(alloc);
    let mut ids = Vec::new(alloc);
    for field in fields {
        let (column, inner) = top_column_of(alloc, field)?;
        columns.push(column)?;
        ids.extend_from_slice(inner.as_slice())?;
    }
    Ok((columns, Items::from_vec(ids)))
}

#[tactic(auto, unfolding(crate::specs::Iceberg::iceberg_schema))]
fn schema_and_ids(alloc: Global, value: &Value) -> Result<(Schema, Ids), MapError>
    ensures { GivesUnlessMemory is_memory (λ p. p) result (iceberg_schema (view value.now)) }
{
    let fields = match schema_fields(value) {
        Ok(fields) => fields,
        Err(error) => return Err(error_in(alloc, "", error)),
    };
    let (columns, ids) = top_columns_of(alloc, fields)?;
    let schema = schema_of(alloc, columns)?;
    Ok((schema, ids))
}

/// The schema that Iceberg's JSON of a schema spells, and its field ids in depth-first order.
/// `BadSchema` comes only where the JSON isn't in the grammar or two columns of one struct have one
/// name, `SchemaType` only where the column has a type without a row in the table of types, and
/// `Limit` only where Columns or Depth is passed.
pub fn from_iceberg(alloc: Global, value: &Value) -> Result<(Schema, Ids), MapError>
    // What is read is spelled by the value with these ids, and is within the limits.
    ensures found { IfOk result
        (λ p. IsIcebergSchema p.0 p.1 (view value.now) × IsWithinLimits p.0) }
    // It can be spelled with these ids again, and is its own Image.
    ensures fits { IfOk result (λ p. FitsIceberg p.0 p.1) }
    ensures settled { IfOk result (λ p. image Iceberg p.0 ≡ Some p.0) }
    // What a value spells within the limits is read, unless memory runs out.
    ensures only { (s : ColumnTrees) (ids : List ℤ) → IsIcebergSchema s ids (view value.now)
        → IsWithinLimits s → GivesUnlessMemory is_memory (λ p. p) result (Ok (s, ids)) }
    // A refusal names its cause.
    ensures refused { IfErr result (λ e. IsIcebergRefused (view value.now) e) }
    // The same as a function of the value, which says the first fault too.
    ensures exact { GivesUnlessMemory is_memory (λ p. p) result (iceberg_schema (view value.now)) }
{
    schema_and_ids(alloc, value)
}
