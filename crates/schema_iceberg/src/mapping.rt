//! The name mapping of a schema (Apache Iceberg specification, "Column Projection").

ghost use Rattle.std.specs.Prelude.{◌≡◌, ◌∷◌, [], IfOk, Ok, map, option_map, false};
ghost use Rattle.serde_json.specs.View.{view};
ghost use Rattle.lake_basics.specs.Outcome.{GivesUnlessMemory};
ghost use Rattle.table_history.specs.SchemaView.{type_view, columns_view};
ghost use Rattle.schema_map.specs.Errors.{is_memory};
ghost use Rattle.schema_iceberg.specs.NameMapping.{leaf_data, nested_data, entry_data};
ghost use Rattle.schema_iceberg.specs.NameMapping.{part_entries, column_entries};
ghost use Rattle.schema_iceberg.specs.NameMapping.{name_mapping_data, name_mapping_text};

use crate::writing::first_id;
use json_reading::json_text;
use lake_basics::Text;
use schema_map::{Ids, MapError};
use serde_json::{Value, json};
use std::alloc::{AllocError, Global};
use table_history::{Column, ColumnType, Schema};

fn leaf_json(alloc: Global, id: i32, name: &str) -> Result<Value, AllocError>
    ensures { IfOk result (λ v. view v ≡ leaf_data id name.now) }
{
    json!(in alloc; {"field-id": id, "names": [name]})
}

fn nested_json(alloc: Global, id: i32, name: &str, parts: Value) -> Result<Value, AllocError>
    ensures { IfOk result (λ v. view v ≡ nested_data id name.now (view parts)) }
{
    json!(in alloc; {"field-id": id, "fields": parts, "names": [name]})
}

/// The entry of a name, with those of its type's parts where it has parts.
fn entry_json(
    alloc: Global,
    id: i32,
    name: &str,
    parts: Option<Vec<Value>>,
) -> Result<Value, AllocError>
    ensures { IfOk result (λ v. view v
        ≡ entry_data id name.now (option_map (λ ps. map view ps.items) parts)) }
{
    match parts {
        None => leaf_json(alloc, id, name),
        Some(parts) => nested_json(alloc, id, name, Value::Array(parts)),
    }
}

fn one_entry(alloc: Global, entry: Value) -> Result<Vec<Value>, AllocError>
    ensures { IfOk result (λ v. map view v.items ≡ view entry ∷ []) }
{
    let mut entries = Vec::new(alloc);
    entries.push(entry)?;
    Ok(entries)
}

fn two_entries(alloc: Global, first: Value, second: Value) -> Result<Vec<Value>, AllocError>
    ensures { IfOk result (λ v. map view v.items ≡ view first ∷ view second ∷ []) }
{
    let mut entries = Vec::new(alloc);
    entries.push(first)?;
    entries.push(second)?;
    Ok(entries)
}

/// The entries of a type's parts, whose ids begin the list, and the ids that are left.
#[cycle(mapping)]
fn parts_json<'a>(
    alloc: Global,
    kind: &ColumnType,
    ids: &'a [i32],
) -> Result<(Option<Vec<Value>>, &'a [i32]), AllocError>
    ensures { IfOk result (λ p. (option_map (λ ps. map view ps.items) p.0, p.1.now)
        ≡ part_entries (type_view kind.now) ids.now) }
{
    match kind {
        ColumnType::Struct(columns) => {
            let (entries, left) = columns_json(alloc, columns.as_slice(), ids)?;
            Ok((Some(entries), left))
        }
        ColumnType::List { element, .. } => {
            let (id, inner) = first_id(ids);
            let (parts, left) = parts_json(alloc, element, inner)?;
            let entry = entry_json(alloc, id, "element", parts)?;
            Ok((Some(one_entry(alloc, entry)?), left))
        }
        ColumnType::Map { key, value, .. } => {
            let (id, inner) = first_id(ids);
            let (parts, behind) = parts_json(alloc, key, inner)?;
            let in_key = entry_json(alloc, id, "key", parts)?;
            let (id, inner) = first_id(behind);
            let (parts, left) = parts_json(alloc, value, inner)?;
            let in_value = entry_json(alloc, id, "value", parts)?;
            Ok((Some(two_entries(alloc, in_key, in_value)?), left))
        }
        _ => Ok((None, ids)),
    }
}

#[cycle(mapping)]
fn columns_json<'a>(
    alloc: Global,
    columns: &[Column],
    ids: &'a [i32],
) -> Result<(Vec<Value>, &'a [i32]), AllocError>
    ensures { IfOk result (λ p. (map view p.0.items, p.1.now)
        ≡ column_entries (columns_view columns.now) ids.now) }
{
    let mut entries = Vec::with_capacity(alloc, columns.len())?;
    let mut left = ids;
    for column in columns {
        let (id, inner) = first_id(left);
        let (parts, behind) = parts_json(alloc, &column.kind, inner)?;
        entries.push(entry_json(alloc, id, column.name.as_str(), parts)?)?;
        left = behind;
    }
    Ok((entries, left))
}

fn mapping_json(alloc: Global, schema: &Schema, ids: &Ids) -> Result<Value, AllocError>
    ensures { IfOk result (λ v. view v ≡ name_mapping_data schema.now ids.now) }
{
    let (entries, _left) = columns_json(alloc, schema.columns(), ids.as_slice())?;
    Ok(Value::Array(entries))
}

/// The name mapping of a schema with these field ids, as a compact JSON text. Memory is its only
/// error.
pub fn name_mapping(alloc: Global, schema: &Schema, ids: &Ids) -> Result<Text, MapError>
    ensures { GivesUnlessMemory is_memory (λ t. t) result
        (Ok (name_mapping_text schema.now ids.now)) }
{
    let value = mapping_json(alloc, schema, ids)?;
    Ok(json_text(alloc, &value)?)
}
