//! Writing types as JSON values.
ghost use Rattle.std.specs.Prelude.{◌≡◌, IfOk, OnOk, option_map, map, codes};
ghost use Rattle.std.specs.Str.{bytes_eq};
ghost use Rattle.serde_json.specs.Data.{string, object, put as with_member};
ghost use Rattle.serde_json.specs.View.{view, items_view, members_view};
ghost use Rattle.indexmap.specs.IndexSet.{insert_key};
ghost use Rattle.avro_schema.specs.Names.{namespace_of as namespace_in};
ghost use Rattle.avro_schema.specs.Tree.{tree_of, field_of, branches_of, fields_of};
ghost use Rattle.avro_schema.specs.Writing.{put_some, size_json, id_json, with_annotations, type_members, primitive_json, named_members, fixed_members, enum_members, array_members, map_members, record_members, field_json, definition_json, written_as, schema_json, branches_json, fields_json};

use crate::names::{has_dot, namespace_of};
use crate::schema::{Field, Schema, Shape};
use indexmap::IndexSet;
use json_reading::{text_value, texts_array};
use lake_basics::Text;
use serde_json::{Map, Value, put};
use std::alloc::{AllocError, Global};

type Members = Map<String, Value>;

fn put_text(alloc: Global, members: &mut Members, key: &str, text: &str) -> Result<(), AllocError>
    ensures { OnOk result (members_view members.new.entries
        ≡ with_member key.now (string text.now)
        (members_view members.old.entries)) }
{
    put(members, alloc, key, text_value(alloc, text)?)
}

fn put_size(
    alloc: Global,
    members: &mut Members,
    key: &str,
    size: Option<u32>,
) -> Result<(), AllocError>
    ensures { OnOk result (members_view members.new.entries
        ≡ put_some key.now (option_map size_json size) (members_view members.old.entries)) }
{
    match size {
        None => Ok(()),
        Some(size) => put(members, alloc, key, Value::from(size)),
    }
}

fn put_id(
    alloc: Global,
    members: &mut Members,
    key: &str,
    id: Option<i32>,
) -> Result<(), AllocError>
    ensures { OnOk result (members_view members.new.entries
        ≡ put_some key.now (option_map id_json id) (members_view members.old.entries)) }
{
    match id {
        None => Ok(()),
        Some(id) => put(members, alloc, key, Value::from(id)),
    }
}

fn put_logical(
    alloc: Global,
    members: &mut Members,
    logical: &Option<Text>,
) -> Result<(), AllocError>
    ensures { OnOk result (members_view members.new.entries
        ≡ put_some (codes "logicalType") (option_map string logical.now)
        (members_view members.old.entries)) }
{
    match logical {
        None => Ok(()),
        Some(text) => put_text(alloc, members, "logicalType", text.as_str()),
    }
}

/// An object with these members, and what the schema says beside its type.
fn annotated(alloc: Global, schema: &Schema, members: Members) -> Result<Value, AllocError>
    ensures { IfOk result (λ v. view v ≡ object (with_annotations schema.now.logical
        schema.now.precision schema.now.scale (members_view members.entries))) }
{
    let mut members = members;
    put_logical(alloc, &mut members, &schema.logical)?;
    put_size(alloc, &mut members, "precision", schema.precision)?;
    put_size(alloc, &mut members, "scale", schema.scale)?;
    Ok(Value::Object(members))
}

fn typed(alloc: Global, word: &str) -> Result<Members, AllocError>
    ensures { IfOk result (λ m. members_view m.entries ≡ type_members word.now) }
{
    let mut members = Map::new(alloc);
    put_text(alloc, &mut members, "type", word)?;
    Ok(members)
}

fn primitive_value(alloc: Global, schema: &Schema, word: &str) -> Result<Value, AllocError>
    ensures { IfOk result (λ v. view v ≡ primitive_json word.now schema.now.logical
        schema.now.precision schema.now.scale) }
{
    match (&schema.logical, schema.precision, schema.scale) {
        (None, None, None) => text_value(alloc, word),
        _ => annotated(alloc, schema, typed(alloc, word)?),
    }
}

/// The members that the definition of a named type begins with.
fn named(alloc: Global, word: &str, space: &str, name: &str) -> Result<Members, AllocError>
    ensures { IfOk result (λ m. members_view m.entries
        ≡ named_members word.now space.now name.now) }
{
    let mut members = typed(alloc, word)?;
    if !has_dot(name) && !space.is_empty() {
        put_text(alloc, &mut members, "namespace", "")?;
    }
    put_text(alloc, &mut members, "name", name)?;
    Ok(members)
}

fn fixed_value(
    alloc: Global,
    schema: &Schema,
    space: &str,
    name: &Text,
    size: u32,
) -> Result<Value, AllocError>
    ensures { IfOk result (λ v. view v ≡ object (with_annotations schema.now.logical
        schema.now.precision schema.now.scale (fixed_members space.now name.now size))) }
{
    let mut members = named(alloc, "fixed", space, name.as_str())?;
    put(&mut members, alloc, "size", Value::from(size))?;
    annotated(alloc, schema, members)
}

fn enum_value(
    alloc: Global,
    schema: &Schema,
    space: &str,
    name: &Text,
    symbols: &Vec<Text>,
) -> Result<Value, AllocError>
    ensures { IfOk result (λ v. view v ≡ object (with_annotations schema.now.logical
        schema.now.precision schema.now.scale
        (enum_members space.now name.now symbols.now.items))) }
{
    let mut members = named(alloc, "enum", space, name.as_str())?;
    put(
        &mut members,
        alloc,
        "symbols",
        texts_array(alloc, symbols.as_slice())?,
    )?;
    annotated(alloc, schema, members)
}

fn array_value(
    alloc: Global,
    schema: &Schema,
    items: Value,
    element_id: Option<i32>,
) -> Result<Value, AllocError>
    ensures { IfOk result (λ v. view v ≡ object (with_annotations schema.now.logical
        schema.now.precision schema.now.scale (array_members (view items) element_id))) }
{
    let mut members = typed(alloc, "array")?;
    put(&mut members, alloc, "items", items)?;
    put_id(alloc, &mut members, "element-id", element_id)?;
    annotated(alloc, schema, members)
}

fn map_value(
    alloc: Global,
    schema: &Schema,
    values: Value,
    key_id: Option<i32>,
    value_id: Option<i32>,
) -> Result<Value, AllocError>
    ensures { IfOk result (λ v. view v ≡ object (with_annotations schema.now.logical
        schema.now.precision schema.now.scale (map_members (view values) key_id value_id))) }
{
    let mut members = typed(alloc, "map")?;
    put(&mut members, alloc, "values", values)?;
    put_id(alloc, &mut members, "key-id", key_id)?;
    put_id(alloc, &mut members, "value-id", value_id)?;
    annotated(alloc, schema, members)
}

fn record_value(
    alloc: Global,
    schema: &Schema,
    space: &str,
    name: &Text,
    fields: Vec<Value>,
) -> Result<Value, AllocError>
    ensures { IfOk result (λ v. view v ≡ object (with_annotations schema.now.logical
        schema.now.precision schema.now.scale
        (record_members space.now name.now (items_view fields.items)))) }
{
    let mut members = named(alloc, "record", space, name.as_str())?;
    put(&mut members, alloc, "fields", Value::Array(fields))?;
    annotated(alloc, schema, members)
}

fn field_value(
    alloc: Global,
    name: &Text,
    inner: Value,
    field_id: Option<i32>,
) -> Result<Value, AllocError>
    ensures { IfOk result (λ v. view v ≡ field_json name.now (view inner) field_id) }
{
    let mut members = Map::new(alloc);
    put_text(alloc, &mut members, "name", name.as_str())?;
    put(&mut members, alloc, "type", inner)?;
    put_id(alloc, &mut members, "field-id", field_id)?;
    Ok(Value::Object(members))
}

/// A value that defines a name, which is defined from now on.
fn defined(
    alloc: Global,
    value: Value,
    name: &Text,
    names: &mut IndexSet<Text>,
) -> Result<Value, AllocError>
    ensures { IfOk result (λ v. (view v ≡ view value)
        × (names.new.keys ≡ insert_key bytes_eq names.old.keys name.now)) }
{
    names.insert(name.copy(alloc)?)?;
    Ok(value)
}

fn fixed_definition(
    alloc: Global,
    schema: &Schema,
    space: &str,
    name: &Text,
    size: u32,
    names: &mut IndexSet<Text>,
) -> Result<Value, AllocError>
    ensures { IfOk result (λ v. (view v, names.new.keys)
        ≡ definition_json name.now names.old.keys (
          object (with_annotations schema.now.logical
              schema.now.precision schema.now.scale (fixed_members space.now name.now size)),
          names.old.keys,
        )) }
{
    if names.contains(name) {
        return text_value(alloc, name.as_str());
    }
    let value = fixed_value(alloc, schema, space, name, size)?;
    defined(alloc, value, name, names)
}

fn enum_definition(
    alloc: Global,
    schema: &Schema,
    space: &str,
    name: &Text,
    symbols: &Vec<Text>,
    names: &mut IndexSet<Text>,
) -> Result<Value, AllocError>
    ensures { IfOk result (λ v. (view v, names.new.keys)
        ≡ definition_json name.now names.old.keys (
          object (with_annotations schema.now.logical
              schema.now.precision schema.now.scale
              (enum_members space.now name.now symbols.now.items)),
          names.old.keys,
        )) }
{
    if names.contains(name) {
        return text_value(alloc, name.as_str());
    }
    let value = enum_value(alloc, schema, space, name, symbols)?;
    defined(alloc, value, name, names)
}

fn record_definition(
    alloc: Global,
    schema: &Schema,
    space: &str,
    name: &Text,
    fields: Vec<Value>,
    names: &mut IndexSet<Text>,
) -> Result<Value, AllocError>
    ensures { IfOk result (λ v. (view v ≡ object (with_annotations schema.now.logical
        schema.now.precision schema.now.scale
        (record_members space.now name.now (items_view fields.items))))
        × (names.new.keys ≡ insert_key bytes_eq names.old.keys name.now)) }
{
    let value = record_value(alloc, schema, space, name, fields)?;
    defined(alloc, value, name, names)
}

/// The JSON of a schema in a namespace, where these full names are defined before.
#[cycle(json)]
pub fn schema_value(
    alloc: Global,
    schema: &Schema,
    space: &str,
    names: &mut IndexSet<Text>,
) -> Result<Value, AllocError>
    ensures { IfOk result (λ v. (view v, names.new.keys)
        ≡ schema_json (tree_of schema.now) space.now names.old.keys) }
{
    match &schema.shape {
        Shape::Null => primitive_value(alloc, schema, "null"),
        Shape::Boolean => primitive_value(alloc, schema, "boolean"),
        Shape::Int => primitive_value(alloc, schema, "int"),
        Shape::Long => primitive_value(alloc, schema, "long"),
        Shape::Float => primitive_value(alloc, schema, "float"),
        Shape::Double => primitive_value(alloc, schema, "double"),
        Shape::Bytes => primitive_value(alloc, schema, "bytes"),
        Shape::Text => primitive_value(alloc, schema, "string"),
        Shape::Fixed { name, size } => {
            fixed_definition(alloc, schema, space, name, *size, names)
        }
        Shape::Enum { name, symbols } => {
            enum_definition(alloc, schema, space, name, symbols, names)
        }
        Shape::Array { items, element_id } => {
            let items = schema_value(alloc, items, space, names)?;
            array_value(alloc, schema, items, *element_id)
        }
        Shape::Map {
            values,
            key_id,
            value_id,
        } => {
            let values = schema_value(alloc, values, space, names)?;
            map_value(alloc, schema, values, *key_id, *value_id)
        }
        Shape::Union(branches) => {
            Ok(Value::Array(branch_values(alloc, branches, space, names)?))
        }
        Shape::Fields { name, fields } => {
            if names.contains(name) {
                return text_value(alloc, name.as_str());
            }
            let fields = field_values(alloc, fields, namespace_of(name.as_str()), names)?;
            record_definition(alloc, schema, space, name, fields, names)
        }
    }
}

#[cycle(json)]
fn branch_values(
    alloc: Global,
    branches: &Vec<Schema>,
    space: &str,
    names: &mut IndexSet<Text>,
) -> Result<Vec<Value>, AllocError>
    ensures { IfOk result (λ vs. (items_view vs.items, names.new.keys)
        ≡ branches_json (branches_of (map tree_of branches.now.items)) space.now
        names.old.keys) }
{
    let mut values = Vec::new(alloc);
    for branch in branches {
        values.push(schema_value(alloc, branch, space, names)?)?;
    }
    Ok(values)
}

#[cycle(json)]
fn field_values(
    alloc: Global,
    fields: &Vec<Field>,
    space: &str,
    names: &mut IndexSet<Text>,
) -> Result<Vec<Value>, AllocError>
    ensures { IfOk result (λ vs. (items_view vs.items, names.new.keys)
        ≡ fields_json (fields_of (map field_of fields.now.items)) space.now names.old.keys) }
{
    let mut values = Vec::new(alloc);
    for field in fields {
        let inner = schema_value(alloc, &field.schema, space, names)?;
        values.push(field_value(alloc, &field.name, inner, field.field_id)?)?;
    }
    Ok(values)
}
