//! What the JSON of a held schema has in it, whatever its types and however large it is.

ghost use Rattle.std.specs.Prelude.{◌≡◌, ◌≤◌, ◌∷◌, ◌++◌, [], codes, pos, true, IfOk, IfErr};
ghost use Rattle.serde_json.specs.Data.{string, array, item, no_items, depth};
ghost use Rattle.serde_json.specs.Read.{max_depth};
ghost use Rattle.serde_json.specs.View.{view, items_view};
ghost use Rattle.lake_basics.specs.Outcome.{each};
ghost use Rattle.json_reading.specs.Json.{items};
ghost use Rattle.schema_iceberg.specs.IcebergWriting.{iceberg_field_data, iceberg_schema_data};
ghost use Rattle.iceberg_metadata.specs.Errors.{Gives};
ghost use Rattle.iceberg_metadata.specs.Members.{text_in};
ghost use Rattle.iceberg_metadata.specs.Outlines.{one_column, column_of_word, kind_of_word};
ghost use Rattle.iceberg_metadata.specs.Outlines.{with_word, own_names};
ghost use Rattle.iceberg_metadata.specs.Outlines.{part_outline, field_outline, fields_outline};
ghost use Rattle.iceberg_metadata.specs.Outlines.{struct_outline, list_outline, map_outline};
ghost use Rattle.iceberg_metadata.specs.Outlines.{nested_outline, shape_outline, type_outline};
ghost use Rattle.iceberg_metadata.specs.Outlines.{schema_outline, field_kind, field_kinds};
ghost use Rattle.iceberg_schemas.specs.SchemaOutlines.{IsIcebergOutline, IsNoIcebergOutline};

use crate::required::{required_bool, required_int, required_list, required_member, required_text};
use iceberg_metadata::{MALFORMED, MetadataError, Outline, kind_of};
use json_reading::{int_of, text_of};
use lake_basics::{Items, Text};
use partition_map::{PartKind, are_distinct};
use schema_iceberg::from_iceberg;
use schema_map::{ColumnPath, MapError};
use serde_json::{Value, json};
use std::alloc::{AllocError, Global};
use table_history::Schema;

/// The most levels in which JSON is read.
const MAX_JSON_LEVELS: u64 = 127;

// ---- words

fn column_value(alloc: Global, word: &str) -> Result<Value, AllocError>
    ensures { IfOk result (λ v. view v
        ≡ iceberg_field_data (pos 0) (codes "a") (string word.now) true) }
{
    json!(in alloc; {"id": 0, "name": "a", "required": true, "type": word})
}

fn schema_value(alloc: Global, column: Value) -> Result<Value, AllocError>
    ensures { IfOk result (λ v. view v
        ≡ iceberg_schema_data (array (item (view column) no_items)) (pos 0)) }
{
    json!(in alloc; {"fields": [column], "schema-id": 0, "type": "struct"})
}

/// The JSON of a schema with one column of the type of this word.
fn one_column(alloc: Global, word: &str) -> Result<Value, AllocError>
    ensures { IfOk result (λ v. view v ≡ one_column word.now) }
{
    let column = column_value(alloc, word)?;
    schema_value(alloc, column)
}

/// The column of that schema, where the word spells a type.
fn column_of_word(alloc: Global, word: &str) -> Result<Option<Schema>, AllocError>
    ensures { IfOk result (λ s. s ≡ column_of_word word.now) }
{
    let value = one_column(alloc, word)?;
    match from_iceberg(alloc, &value) {
        Ok((schema, _)) => Ok(Some(schema)),
        Err(MapError::Memory) => Err(AllocError),
        Err(_) => Ok(None),
    }
}

fn word_outline(alloc: Global, word: &str, outline: Outline) -> Result<Outline, AllocError>
    ensures { IfOk result (λ o. o ≡ with_word (column_of_word word.now) outline) }
{
    match column_of_word(alloc, word)? {
        Some(_) => Ok(outline),
        None => Ok(outline.with_other()),
    }
}

// ---- types

fn path_with(alloc: Global, prefix: &ColumnPath, name: &str) -> Result<ColumnPath, AllocError>
    ensures { IfOk result (λ p. p ≡ prefix.now ++ name.now ∷ []) }
{
    let mut path = Items::new(alloc);
    for part in prefix.as_slice() {
        path.push(part.copy(alloc)?)?;
    }
    path.push(Text::from_str(alloc, name)?)?;
    Ok(path)
}

fn names_of(alloc: Global, fields: &Vec<Value>) -> Result<Items<Text>, MetadataError>
    ensures { Gives result (each (text_in (codes "name")) (items (items_view fields.now.items))) }
{
    let mut names = Items::new(alloc);
    for field in fields {
        names.push(required_text(alloc, field, "name")?)?;
    }
    Ok(names)
}

/// No two of the fields have one name.
fn own_names(alloc: Global, fields: &Vec<Value>) -> Result<(), MetadataError>
    ensures { Gives result (own_names (items (items_view fields.now.items))) }
{
    let names = names_of(alloc, fields)?;
    if are_distinct(alloc, names.as_slice())? {
        Ok(())
    } else {
        Err(MALFORMED)
    }
}

/// The type of a part of this name and id.
#[cycle(outline)]
fn part_outline(
    alloc: Global,
    prefix: &ColumnPath,
    name: &str,
    id: i32,
    kind: &Value,
    outline: Outline,
    below: u64,
) -> Result<Outline, MetadataError>
    ensures { Gives result
        (part_outline (type_outline below) prefix.now name.now id (view kind.now) outline) }
{
    let path = path_with(alloc, prefix, name)?;
    let met = path_with(alloc, prefix, name)?;
    let outline = outline.with_column(met, id)?;
    type_outline(alloc, &path, kind, outline, below)
}

#[tactic(auto, unfolding(iceberg_metadata::specs::Outlines::field_outline))]
#[cycle(outline)]
fn field_outline(
    alloc: Global,
    prefix: &ColumnPath,
    field: &Value,
    outline: Outline,
    below: u64,
) -> Result<Outline, MetadataError>
    ensures { Gives result
        (field_outline (type_outline below) prefix.now (view field.now) outline) }
{
    let id = required_int(field, "id")?;
    let name = required_text(alloc, field, "name")?;
    required_bool(field, "required")?;
    let kind = required_member(field, "type")?;
    part_outline(alloc, prefix, name.as_str(), id, kind, outline, below)
}

#[cycle(outline)]
fn fields_outline(
    alloc: Global,
    prefix: &ColumnPath,
    fields: &Vec<Value>,
    outline: Outline,
    below: u64,
) -> Result<Outline, MetadataError>
    ensures { Gives result (fields_outline (field_outline (type_outline below) prefix.now)
        (items (items_view fields.now.items)) outline) }
{
    let mut met = outline;
    for field in fields {
        met = field_outline(alloc, prefix, field, met, below)?;
    }
    Ok(met)
}

#[tactic(auto, unfolding(iceberg_metadata::specs::Outlines::struct_outline))]
#[cycle(outline)]
fn struct_outline(
    alloc: Global,
    prefix: &ColumnPath,
    value: &Value,
    outline: Outline,
    below: u64,
) -> Result<Outline, MetadataError>
    ensures { Gives result
        (struct_outline (type_outline below) prefix.now (view value.now) outline) }
{
    let fields = required_list(value, "fields")?;
    own_names(alloc, fields)?;
    fields_outline(alloc, prefix, fields, outline, below)
}

#[tactic(auto, unfolding(iceberg_metadata::specs::Outlines::list_outline))]
#[cycle(outline)]
fn list_outline(
    alloc: Global,
    prefix: &ColumnPath,
    value: &Value,
    outline: Outline,
    below: u64,
) -> Result<Outline, MetadataError>
    ensures { Gives result
        (list_outline (type_outline below) prefix.now (view value.now) outline) }
{
    let id = required_int(value, "element-id")?;
    required_bool(value, "element-required")?;
    let element = required_member(value, "element")?;
    part_outline(alloc, prefix, "element", id, element, outline, below)
}

#[tactic(auto, unfolding(iceberg_metadata::specs::Outlines::map_outline))]
#[cycle(outline)]
fn map_outline(
    alloc: Global,
    prefix: &ColumnPath,
    value: &Value,
    outline: Outline,
    below: u64,
) -> Result<Outline, MetadataError>
    ensures { Gives result
        (map_outline (type_outline below) prefix.now (view value.now) outline) }
{
    let key_id = required_int(value, "key-id")?;
    let value_id = required_int(value, "value-id")?;
    required_bool(value, "value-required")?;
    let key = required_member(value, "key")?;
    let values = required_member(value, "value")?;
    let met = part_outline(alloc, prefix, "key", key_id, key, outline, below)?;
    part_outline(alloc, prefix, "value", value_id, values, met, below)
}

#[tactic(auto, unfolding(iceberg_metadata::specs::Outlines::nested_outline))]
#[cycle(outline)]
fn nested_outline(
    alloc: Global,
    prefix: &ColumnPath,
    value: &Value,
    outline: Outline,
    below: u64,
) -> Result<Outline, MetadataError>
    ensures { Gives result
        (nested_outline (type_outline below) prefix.now (view value.now) outline) }
{
    let word = required_text(alloc, value, "type")?;
    if word.as_str() == "struct" {
        struct_outline(alloc, prefix, value, outline, below)
    } else if word.as_str() == "list" {
        list_outline(alloc, prefix, value, outline, below)
    } else if word.as_str() == "map" {
        map_outline(alloc, prefix, value, outline, below)
    } else {
        Ok(outline.with_other())
    }
}

#[cycle(outline)]
fn shape_outline(
    alloc: Global,
    prefix: &ColumnPath,
    value: &Value,
    outline: Outline,
    below: u64,
) -> Result<Outline, MetadataError>
    ensures { Gives result
        (shape_outline (type_outline below) prefix.now (view value.now) outline) }
{
    match value {
        Value::String(word) => Ok(word_outline(alloc, word.as_str(), outline)?),
        Value::Object(_) => nested_outline(alloc, prefix, value, outline, below),
        _ => Err(MALFORMED),
    }
}

/// The columns inside a type of at most this many levels, behind what was met before.
#[tactic(auto, unfolding(iceberg_metadata::specs::Outlines::type_outline))]
#[cycle(outline)]
fn type_outline(
    alloc: Global,
    prefix: &ColumnPath,
    value: &Value,
    outline: Outline,
    levels: u64,
) -> Result<Outline, MetadataError>
    ensures { Gives result (type_outline levels prefix.now (view value.now) outline) }
{
    if levels == 0 {
        return Err(MALFORMED);
    }
    shape_outline(alloc, prefix, value, outline, levels - 1)
}

#[tactic(auto, unfolding(iceberg_metadata::specs::Outlines::schema_outline))]
fn outline_of(alloc: Global, value: &Value) -> Result<Outline, MetadataError>
    ensures { Gives result (schema_outline (view value.now)) }
{
    let word = required_text(alloc, value, "type")?;
    if word.as_str() != "struct" {
        return Err(MALFORMED);
    }
    let outline = Outline {
        paths: Items::new(alloc),
        has_other: false,
    };
    struct_outline(alloc, &Items::new(alloc), value, outline, MAX_JSON_LEVELS)
}

/// The outline of a schema (Apache Iceberg specification, "JSON serialization", Schemas), which is
/// gone over whole: its columns at all levels, and whether a type has no row in the table of types.
/// `Malformed` comes only where the JSON isn't in the grammar.
pub(crate) fn schema_outline(alloc: Global, value: &Value) -> Result<Outline, MetadataError>
    // The JSON is in the grammar, and has just what the outline tells.
    ensures found { IfOk result (IsIcebergOutline (view value.now)) }
    // JSON of no more levels than are read, without an outline, isn't in the grammar.
    ensures refused { depth (view value.now) ≤ max_depth
        → IfErr result (IsNoIcebergOutline (view value.now)) }
    // The same as a function of the value.
    ensures exact { Gives result (schema_outline (view value.now)) }
{
    outline_of(alloc, value)
}

// ---- kinds of partition columns

fn kind_of_word(alloc: Global, word: &str) -> Result<Option<PartKind>, AllocError>
    ensures { IfOk result (λ kind. kind ≡ kind_of_word word.now) }
{
    match column_of_word(alloc, word)? {
        None => Ok(None),
        Some(schema) => Ok(kind_of(&schema, "a")),
    }
}

/// The field id of a column and its kind, where it has one.
fn field_kind(alloc: Global, field: &Value) -> Result<Option<(i32, PartKind)>, AllocError>
    ensures { IfOk result (λ kind. kind ≡ field_kind (view field.now)) }
{
    let Some(id) = int_of(field, "id") else {
        return Ok(None);
    };
    let Some(word) = text_of(field, "type") else {
        return Ok(None);
    };
    match kind_of_word(alloc, word)? {
        None => Ok(None),
        Some(kind) => Ok(Some((id, kind))),
    }
}

/// The field ids of the columns that have a kind, with their kinds.
pub(crate) fn field_kinds(
    alloc: Global,
    fields: &Vec<Value>,
) -> Result<Items<(i32, PartKind)>, AllocError>
    ensures { IfOk result (λ kinds. kinds ≡ field_kinds (items (items_view fields.now.items))) }
{
    let mut kinds = Items::new(alloc);
    for field in fields {
        if let Some(kind) = field_kind(alloc, field)? {
            kinds.push(kind)?;
        }
    }
    Ok(kinds)
}
