//! Reading types, one function for each form that a type has (Avro specification, "Schema
//! Declaration").
ghost use Rattle.std.specs.Prelude.{◌≡◌, ◌+◌, ◌<◌, ◌≤◌, map, None, IfOk, option_map};
ghost use Rattle.serde_json.specs.View.{view, items_view};
ghost use Rattle.lake_basics.specs.Outcome.{Gives, ◌>>=◌ as and_then};
ghost use Rattle.avro_schema.specs.Tree.{ShapeTree, tree_of, shape_of, field_of};
ghost use Rattle.avro_schema.specs.Names.{full_name as full_name_of, primitive_of};
ghost use Rattle.json_reading.specs.Json.{items};
ghost use Rattle.avro_schema.specs.Reading.{counted as counted_by, defined as defined_by, type_at, single_type as single_type_of, array_type as array_type_of, map_type as map_type_of, union_type as union_type_of, in_turn, used_name as used_name_of, one_type as one_type_of, text_type as text_type_of, annotated as annotated_of, object_type as object_type_of, fixed_type as fixed_type_of, enum_type as enum_type_of, record_type as record_type_of, field_type as field_type_of, new_name as new_name_of, symbols_in, record_with, other_type as other_type_of};
ghost use Rattle.avro_schema.specs.State.{state_of};

use crate::definitions::{Definitions, counted, define, definition, is_new, is_open, open_name};
use crate::distinct::{fields_are_distinct, texts_are_distinct};
use crate::error::SchemaFault;
use crate::member::{id_of, size_of};
use crate::names::{full_name, is_name, namespace_of, primitive};
use crate::schema::{Field, Schema, Shape};
use crate::size::{budget_behind, has_levels_within};
use json_reading::{list_of, text_of, texts_from};
use lake_basics::{ReadError, Text};
use serde_json::Value;
use std::alloc::{AllocError, Global};

type Reading<T> = Result<T, ReadError<SchemaFault>>;

fn bad() -> ReadError<SchemaFault>
    ensures { result ≡ ReadError.Fault SchemaFault.BadSchema }
{
    ReadError::Fault(SchemaFault::BadSchema)
}

fn plain(shape: Shape) -> Schema
    ensures { result ≡ record { shape = shape; logical = None; precision = None; scale = None } }
{
    Schema {
        shape,
        logical: None,
        precision: None,
        scale: None,
    }
}

fn text_if_any(alloc: Global, found: Option<&str>) -> Result<Option<Text>, AllocError>
    ensures { IfOk result (λ t. t ≡ option_map (λ s. s.now) found.entry) }
{
    match found {
        None => Ok(None),
        Some(found) => Ok(Some(Text::from_str(alloc, found)?)),
    }
}

/// The type, with what its object says beside it.
fn annotated(alloc: Global, value: &Value, shape: Shape) -> Result<Schema, AllocError>
    ensures { IfOk result (λ s. tree_of s ≡ annotated_of (view value.now) (shape_of shape)) }
{
    Ok(Schema {
        shape,
        logical: text_if_any(alloc, text_of(value, "logicalType"))?,
        precision: size_of(value, "precision"),
        scale: size_of(value, "scale"),
    })
}

/// The type of that full name, with so many levels left, counted with all its parts.
fn used_name(alloc: Global, left: u32, name: &Text, names: &mut Definitions) -> Reading<Schema>
    ensures { Gives (λ s. (tree_of s, state_of names.new)) result
        (used_name_of left name.now (state_of names.old)) }
{
    if is_open(names, name) {
        return Err(ReadError::Fault(SchemaFault::Recursive));
    }
    let Some(schema) = definition(names, name) else {
        return Err(bad());
    };
    if !has_levels_within(schema, left) {
        return Err(bad());
    }
    let Some(budget) = budget_behind(schema, names.budget) else {
        return Err(bad());
    };
    let schema = schema.copy(alloc)?;
    names.budget = budget;
    Ok(schema)
}

/// The type of that name in a namespace, with so many levels left.
fn named_type(
    alloc: Global,
    left: u32,
    space: &str,
    name: &str,
    names: &mut Definitions,
) -> Reading<Schema>
    ensures { Gives (λ s. (tree_of s, state_of names.new)) result
        (used_name_of left (full_name_of space.now name.now) (state_of names.old)) }
{
    let name = full_name(alloc, space, name)?;
    used_name(alloc, left, &name, names)
}

/// The type, which is counted as one.
fn one_type(schema: Schema, names: &mut Definitions) -> Reading<Schema>
    ensures { Gives (λ s. (tree_of s, state_of names.new)) result
        (one_type_of (tree_of schema) (state_of names.old)) }
{
    counted(names)?;
    Ok(schema)
}

/// The type of a text.
fn text_type(
    alloc: Global,
    left: u32,
    space: &str,
    name: &str,
    names: &mut Definitions,
) -> Reading<Schema>
    ensures { Gives (λ s. (tree_of s, state_of names.new)) result
        (text_type_of left space.now name.now (state_of names.old)) }
{
    match primitive(name) {
        Some(shape) => one_type(plain(shape), names),
        None => named_type(alloc, left, space, name, names),
    }
}

/// The full name that an object defines.
fn new_name(alloc: Global, space: &str, value: &Value, names: &Definitions) -> Reading<Text>
    ensures { Gives (λ t. t) result
        (new_name_of space.now (view value.now) (state_of names.now)) }
{
    let Some(name) = text_of(value, "name") else {
        return Err(bad());
    };
    if !is_name(name) {
        return Err(bad());
    }
    let space = text_of(value, "namespace").unwrap_or(space);
    let name = full_name(alloc, space, name)?;
    if !is_new(names, &name) {
        return Err(bad());
    }
    Ok(name)
}

fn symbols(alloc: Global, value: &Value) -> Reading<Vec<Text>>
    ensures { Gives (λ ts. ts.items) result (symbols_in (view value.now)) }
{
    let Some(list) = list_of(value, "symbols") else {
        return Err(bad());
    };
    let symbols = texts_from(alloc, list, SchemaFault::BadSchema)?.into_vec();
    if !texts_are_distinct(alloc, &symbols)? {
        return Err(bad());
    }
    Ok(symbols)
}

/// The type of that name, with what its object says beside it, which is defined now.
fn defined(
    alloc: Global,
    value: &Value,
    name: &Text,
    shape: Shape,
    names: &mut Definitions,
) -> Result<Schema, AllocError>
    ensures { IfOk result (λ s. (tree_of s, state_of names.new)
        ≡ defined_by name.now (annotated_of (view value.now) (shape_of shape))
        (state_of names.old)) }
{
    let schema = annotated(alloc, value, shape)?;
    define(alloc, names, name, &schema)?;
    Ok(schema)
}

/// An array of these items, with what its object says beside it.
fn array_of(
    alloc: Global,
    value: &Value,
    items: Schema,
    element_id: Option<i32>,
) -> Result<Schema, AllocError>
    ensures { IfOk result (λ s. tree_of s ≡ annotated_of (view value.now)
        (ShapeTree.array_of (tree_of items) element_id)) }
{
    let items = Box::new(alloc, items)?;
    annotated(alloc, value, Shape::Array { items, element_id })
}

/// A map of these values, with what its object says beside it.
fn map_of(
    alloc: Global,
    value: &Value,
    values: Schema,
    key_id: Option<i32>,
    value_id: Option<i32>,
) -> Result<Schema, AllocError>
    ensures { IfOk result (λ s. tree_of s ≡ annotated_of (view value.now)
        (ShapeTree.map_of (tree_of values) key_id value_id)) }
{
    let values = Box::new(alloc, values)?;
    let shape = Shape::Map {
        values,
        key_id,
        value_id,
    };
    annotated(alloc, value, shape)
}

fn fixed_type(alloc: Global, space: &str, value: &Value, names: &mut Definitions) -> Reading<Schema>
    ensures { Gives (λ s. (tree_of s, state_of names.new)) result
        (and_then (counted_by (state_of names.old))
        (fixed_type_of space.now (view value.now))) }
{
    counted(names)?;
    let name = new_name(alloc, space, value, names)?;
    let Some(size) = size_of(value, "size") else {
        return Err(bad());
    };
    let shape = Shape::Fixed {
        name: name.copy(alloc)?,
        size,
    };
    Ok(defined(alloc, value, &name, shape, names)?)
}

fn enum_type(alloc: Global, space: &str, value: &Value, names: &mut Definitions) -> Reading<Schema>
    ensures { Gives (λ s. (tree_of s, state_of names.new)) result
        (and_then (counted_by (state_of names.old))
        (enum_type_of space.now (view value.now))) }
{
    counted(names)?;
    let name = new_name(alloc, space, value, names)?;
    let symbols = symbols(alloc, value)?;
    let shape = Shape::Enum {
        name: name.copy(alloc)?,
        symbols,
    };
    Ok(defined(alloc, value, &name, shape, names)?)
}

/// The type that a value is, with so many levels from its own on.
#[cycle(types)]
#[tactic(auto, using(crate::proofs::Steps::type_zero, crate::proofs::Steps::type_step))]
pub fn any_type(
    alloc: Global,
    left: u32,
    space: &str,
    value: &Value,
    names: &mut Definitions,
) -> Reading<Schema>
    requires { left ≤ 64 }
    ensures { Gives (λ s. (tree_of s, state_of names.new)) result
        (type_at left space.now (view value.now) (state_of names.old)) }
{
    if left == 0 {
        return Err(bad());
    }
    match value.as_array() {
        Some(branches) => union_type(alloc, left - 1, space, branches, names),
        None => single_type(alloc, left - 1, space, value, names),
    }
}

/// A union of types that are no unions.
#[cycle(types)]
fn union_type(
    alloc: Global,
    below: u32,
    space: &str,
    branches: &Vec<Value>,
    names: &mut Definitions,
) -> Reading<Schema>
    requires { below < 64 }
    ensures { Gives (λ s. (tree_of s, state_of names.new)) result
        (union_type_of (single_type_of (below + 1) (type_at below)) space.now
        (items (items_view branches.now.items)) (state_of names.old)) }
{
    counted(names)?;
    let schemas = branch_list(alloc, below, space, branches, names)?;
    Ok(plain(Shape::Union(schemas)))
}

/// A union's branches.
#[cycle(types)]
fn branch_list(
    alloc: Global,
    below: u32,
    space: &str,
    branches: &Vec<Value>,
    names: &mut Definitions,
) -> Reading<Vec<Schema>>
    requires { below < 64 }
    ensures { Gives (λ ss. (map tree_of ss.items, state_of names.new)) result
        (in_turn (single_type_of (below + 1) (type_at below) space.now)
        (items (items_view branches.now.items)) (state_of names.old)) }
{
    let mut schemas = Vec::new(alloc);
    for branch in branches {
        schemas.push(single_type(alloc, below, space, branch, names)?)?;
    }
    Ok(schemas)
}

/// A type that is no union.
#[cycle(types)]
fn single_type(
    alloc: Global,
    below: u32,
    space: &str,
    value: &Value,
    names: &mut Definitions,
) -> Reading<Schema>
    requires { below < 64 }
    ensures { Gives (λ s. (tree_of s, state_of names.new)) result
        (single_type_of (below + 1) (type_at below) space.now (view value.now)
        (state_of names.old)) }
{
    match value {
        Value::String(name) => text_type(alloc, below + 1, space, name.as_str(), names),
        Value::Object(_) => match text_of(value, "type") {
            Some(word) => object_type(alloc, below, space, value, word, names),
            None => Err(bad()),
        },
        _ => Err(bad()),
    }
}

/// The type of an object that says it by that word.
#[cycle(types)]
fn object_type(
    alloc: Global,
    below: u32,
    space: &str,
    value: &Value,
    word: &str,
    names: &mut Definitions,
) -> Reading<Schema>
    requires { below < 64 }
    ensures { Gives (λ s. (tree_of s, state_of names.new)) result
        (object_type_of (below + 1) (type_at below) space.now (view value.now) word.now
        (state_of names.old)) }
{
    match word {
        "record" => record_type(alloc, below, space, value, names),
        "enum" => enum_type(alloc, space, value, names),
        "fixed" => fixed_type(alloc, space, value, names),
        "array" => array_type(alloc, below, space, value, names),
        "map" => map_type(alloc, below, space, value, names),
        _ => other_type(alloc, below + 1, space, value, word, names),
    }
}

/// A primitive type in an object, or a name that is used there.
fn other_type(
    alloc: Global,
    left: u32,
    space: &str,
    value: &Value,
    word: &str,
    names: &mut Definitions,
) -> Reading<Schema>
    ensures { Gives (λ s. (tree_of s, state_of names.new)) result
        (other_type_of (primitive_of word.now) left space.now (view value.now) word.now
        (state_of names.old)) }
{
    match primitive(word) {
        Some(shape) => one_type(annotated(alloc, value, shape)?, names),
        None => named_type(alloc, left, space, word, names),
    }
}

#[cycle(types)]
fn array_type(
    alloc: Global,
    below: u32,
    space: &str,
    value: &Value,
    names: &mut Definitions,
) -> Reading<Schema>
    requires { below < 64 }
    ensures { Gives (λ s. (tree_of s, state_of names.new)) result
        (and_then (counted_by (state_of names.old))
        (array_type_of (type_at below) space.now (view value.now))) }
{
    counted(names)?;
    let Some(items) = value.get("items") else {
        return Err(bad());
    };
    let inner = any_type(alloc, below, space, items, names)?;
    let element_id = id_of(value, "element-id")?;
    Ok(array_of(alloc, value, inner, element_id)?)
}

#[cycle(types)]
fn map_type(
    alloc: Global,
    below: u32,
    space: &str,
    value: &Value,
    names: &mut Definitions,
) -> Reading<Schema>
    requires { below < 64 }
    ensures { Gives (λ s. (tree_of s, state_of names.new)) result
        (and_then (counted_by (state_of names.old))
        (map_type_of (type_at below) space.now (view value.now))) }
{
    counted(names)?;
    let Some(values) = value.get("values") else {
        return Err(bad());
    };
    let inner = any_type(alloc, below, space, values, names)?;
    let key_id = id_of(value, "key-id")?;
    let value_id = id_of(value, "value-id")?;
    Ok(map_of(alloc, value, inner, key_id, value_id)?)
}

#[cycle(types)]
fn record_type(
    alloc: Global,
    below: u32,
    space: &str,
    value: &Value,
    names: &mut Definitions,
) -> Reading<Schema>
    requires { below < 64 }
    ensures { Gives (λ s. (tree_of s, state_of names.new)) result
        (and_then (counted_by (state_of names.old))
        (record_type_of (type_at below) space.now (view value.now))) }
{
    counted(names)?;
    let name = new_name(alloc, space, value, names)?;
    let Some(list) = list_of(value, "fields") else {
        return Err(bad());
    };
    let depth = names.open_names.len();
    open_name(alloc, names, &name)?;
    let fields = field_list(alloc, below, namespace_of(name.as_str()), list, names)?;
    names.open_names.truncate(depth);
    named_record(alloc, value, name, fields, names)
}

/// A record of these fields, which is defined now.
fn named_record(
    alloc: Global,
    value: &Value,
    name: Text,
    fields: Vec<Field>,
    names: &mut Definitions,
) -> Reading<Schema>
    ensures { Gives (λ s. (tree_of s, state_of names.new)) result
        (record_with (view value.now) name (map field_of fields.items) (state_of names.old)) }
{
    if !fields_are_distinct(alloc, &fields)? {
        return Err(bad());
    }
    let shape = Shape::Fields {
        name: name.copy(alloc)?,
        fields,
    };
    Ok(defined(alloc, value, &name, shape, names)?)
}

/// A record's fields.
#[cycle(types)]
fn field_list(
    alloc: Global,
    below: u32,
    space: &str,
    list: &Vec<Value>,
    names: &mut Definitions,
) -> Reading<Vec<Field>>
    requires { below < 64 }
    ensures { Gives (λ fs. (map field_of fs.items, state_of names.new)) result
        (in_turn (field_type_of (type_at below) space.now) (items (items_view list.now.items))
        (state_of names.old)) }
{
    let mut fields = Vec::new(alloc);
    for value in list {
        fields.push(field_type(alloc, below, space, value, names)?)?;
    }
    Ok(fields)
}

#[cycle(types)]
fn field_type(
    alloc: Global,
    below: u32,
    space: &str,
    value: &Value,
    names: &mut Definitions,
) -> Reading<Field>
    requires { below < 64 }
    ensures { Gives (λ f. (field_of f, state_of names.new)) result
        (field_type_of (type_at below) space.now (view value.now) (state_of names.old)) }
{
    let Some(name) = text_of(value, "name") else {
        return Err(bad());
    };
    let Some(inner) = value.get("type") else {
        return Err(bad());
    };
    let name = Text::from_str(alloc, name)?;
    let schema = any_type(alloc, below, space, inner, names)?;
    let field_id = id_of(value, "field-id")?;
    Ok(Field {
        name,
        schema,
        field_id,
    })
}
