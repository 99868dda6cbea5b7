//! Reading values with parts.

ghost use Rattle.std.specs.Prelude.{◌≡◌, map, length, IfOk};
ghost use Rattle.avro_value.specs.Layout.{layout, field_layout, layouts_of};
ghost use Rattle.avro_value.specs.ValueTree.{value_tree, entry_tree, ValueTree, values_of, entries_of};
ghost use Rattle.lake_basics.specs.Outcome.{Gives};
ghost use Rattle.avro_value.specs.Reading.{map_reading, value_at, content_at, all_blocks_at, one_block_at, with_block, many_at, entry_at, parts_at, union_at, read_behind};

use crate::bare::is_bare;
use crate::fault::{Fault, FaultAt};
use crate::input::Input;
use crate::leaf;
use crate::value::Value;
use avro_schema::{Field, Schema, Shape};
use lake_basics::{ReadError, Text};
use std::alloc::{AllocError, Global};

/// A value, which counts as soon as it begins.
#[cycle(decode)]
#[tactic(auto, unfolding(crate::specs::Reading::value_at, crate::specs::Reading::with_count))]
pub fn value(
    alloc: Global,
    schema: &Schema,
    input: &mut Input<'_>,
) -> Result<Value, ReadError<FaultAt>>
    ensures { Gives (λ v. (value_tree v, input.new.rest.now, input.new.budget)) result
        (value_at (layout schema.now) input.old.rest.now input.old.budget) }
{
    if input.budget == 0 {
        return Err(ReadError::Fault(input.fault(Fault::Limit)));
    }
    input.budget -= 1;
    content(alloc, schema, input)
}

#[cycle(decode)]
fn content(
    alloc: Global,
    schema: &Schema,
    input: &mut Input<'_>,
) -> Result<Value, ReadError<FaultAt>>
    ensures { Gives (λ v. (value_tree v, input.new.rest.now, input.new.budget)) result
        (content_at (layout schema.now) input.old.rest.now input.old.budget) }
{
    match &schema.shape {
        Shape::Null => Ok(Value::Null),
        Shape::Boolean => leaf::boolean(input),
        Shape::Int => leaf::int(input),
        Shape::Long => leaf::long(input),
        Shape::Float => leaf::float(input),
        Shape::Double => leaf::double(input),
        Shape::Bytes => leaf::bytes(alloc, input),
        Shape::Text => leaf::text(alloc, input),
        Shape::Fixed { size, .. } => leaf::fixed(alloc, *size, input),
        Shape::Enum { symbols, .. } => leaf::symbol(symbols.len(), input),
        Shape::Array { items, .. } => array(alloc, items, input),
        Shape::Map { values, .. } => entries(alloc, values, input),
        Shape::Union(branches) => union(alloc, branches, input),
        Shape::Fields { fields, .. } => record(alloc, fields, input),
    }
}

/// The blocks of an array. Each takes a byte at least.
#[cycle(decode)]
fn array(alloc: Global, schema: &Schema, input: &mut Input<'_>) -> Result<Value, ReadError<FaultAt>>
    ensures { Gives (λ v. (value_tree v, input.new.rest.now, input.new.budget)) result
        (map_reading (λ vs. ValueTree.array_of (values_of vs))
        (all_blocks_at (value_at (layout schema.now)) input.old.rest.now input.old.budget)) }
{
    let mut items = Vec::new(alloc);
    let fuel = input.rest.len() + 1;
    for _ in 0..fuel {
        if !block(alloc, schema, &mut items, input)? {
            return Ok(Value::Array(items));
        }
    }
    Err(ReadError::Fault(input.fault(Fault::Short)))
}

/// Adds the values of the next block, and says whether there is one.
#[cycle(decode)]
#[tactic(auto, unfolding(crate::specs::Reading::one_block_at))]
fn block(
    alloc: Global,
    schema: &Schema,
    values: &mut Vec<Value>,
    input: &mut Input<'_>,
) -> Result<bool, ReadError<FaultAt>>
    ensures { Gives (λ more.
        (more, map value_tree values.new.items, input.new.rest.now, input.new.budget)) result
        (with_block (map value_tree values.old.items)
        (one_block_at (value_at (layout schema.now)) input.old.rest.now input.old.budget)) }
{
    let Some(block) = input.begin_block()? else {
        return Ok(false);
    };
    many(alloc, schema, block.count, values, input)?;
    input.end_block(block)?;
    Ok(true)
}

/// Adds so many values. Where they take no bytes and pass the limit, none of them is made.
#[cycle(decode)]
fn many(
    alloc: Global,
    schema: &Schema,
    count: u64,
    values: &mut Vec<Value>,
    input: &mut Input<'_>,
) -> Result<(), ReadError<FaultAt>>
    ensures { Gives (λ _. (map value_tree values.new.items, input.new.rest.now, input.new.budget))
        result
        (read_behind (map value_tree values.old.items)
        (many_at (value_at (layout schema.now)) count input.old.rest.now input.old.budget)) }
{
    if count > input.budget as u64 && is_bare(schema) {
        return Err(ReadError::Fault(input.fault(Fault::Limit)));
    }
    for _ in 0..count {
        values.push(value(alloc, schema, input)?)?;
    }
    Ok(())
}

/// The blocks of a map.
#[cycle(decode)]
fn entries(
    alloc: Global,
    schema: &Schema,
    input: &mut Input<'_>,
) -> Result<Value, ReadError<FaultAt>>
    ensures { Gives (λ v. (value_tree v, input.new.rest.now, input.new.budget)) result
        (map_reading (λ es. ValueTree.map_of (entries_of es))
        (all_blocks_at (entry_at (value_at (layout schema.now)))
        input.old.rest.now input.old.budget)) }
{
    let mut found = Vec::new(alloc);
    let fuel = input.rest.len() + 1;
    for _ in 0..fuel {
        if !block_of_entries(alloc, schema, &mut found, input)? {
            return Ok(Value::Map(found));
        }
    }
    Err(ReadError::Fault(input.fault(Fault::Short)))
}

/// Adds the entries of the next block, and says whether there is one.
#[cycle(decode)]
#[tactic(auto, unfolding(crate::specs::Reading::one_block_at))]
fn block_of_entries(
    alloc: Global,
    schema: &Schema,
    found: &mut Vec<(Text, Value)>,
    input: &mut Input<'_>,
) -> Result<bool, ReadError<FaultAt>>
    ensures { Gives (λ more.
        (more, map entry_tree found.new.items, input.new.rest.now, input.new.budget)) result
        (with_block (map entry_tree found.old.items)
        (one_block_at (entry_at (value_at (layout schema.now)))
        input.old.rest.now input.old.budget)) }
{
    let Some(block) = input.begin_block()? else {
        return Ok(false);
    };
    many_entries(alloc, schema, block.count, found, input)?;
    input.end_block(block)?;
    Ok(true)
}

/// Adds so many entries.
#[cycle(decode)]
fn many_entries(
    alloc: Global,
    schema: &Schema,
    count: u64,
    found: &mut Vec<(Text, Value)>,
    input: &mut Input<'_>,
) -> Result<(), ReadError<FaultAt>>
    ensures { Gives (λ _. (map entry_tree found.new.items, input.new.rest.now, input.new.budget))
        result
        (read_behind (map entry_tree found.old.items)
        (many_at (entry_at (value_at (layout schema.now)))
        count input.old.rest.now input.old.budget)) }
{
    for _ in 0..count {
        found.push(one_entry(alloc, schema, input)?)?;
    }
    Ok(())
}

/// A key and its value.
#[cycle(decode)]
#[tactic(auto, unfolding(crate::specs::Reading::entry_at))]
fn one_entry(
    alloc: Global,
    schema: &Schema,
    input: &mut Input<'_>,
) -> Result<(Text, Value), ReadError<FaultAt>>
    ensures { Gives (λ e. (entry_tree e, input.new.rest.now, input.new.budget)) result
        (entry_at (value_at (layout schema.now)) input.old.rest.now input.old.budget) }
{
    let key = leaf::key(alloc, input)?;
    let value = value(alloc, schema, input)?;
    Ok((key, value))
}

/// The value of a union's branch. Null takes no memory.
fn branch(alloc: Global, index: u32, value: Value) -> Result<Value, AllocError>
    ensures { IfOk result (λ v. value_tree v ≡ ValueTree.union_of index (value_tree value)) }
{
    match value {
        Value::Null => Ok(Value::NullBranch(index)),
        value => Ok(Value::Union(index, Box::new(alloc, value)?)),
    }
}

#[cycle(decode)]
fn union(
    alloc: Global,
    branches: &Vec<Schema>,
    input: &mut Input<'_>,
) -> Result<Value, ReadError<FaultAt>>
    ensures { Gives (λ v. (value_tree v, input.new.rest.now, input.new.budget)) result
        (union_at (layouts_of (map layout branches.now.items))
        input.old.rest.now input.old.budget) }
{
    let index = leaf::index(branches.len(), input)?;
    let inner = value(alloc, &branches[index as usize], input)?;
    Ok(branch(alloc, index, inner)?)
}

/// The values of a record's fields.
#[cycle(decode)]
fn record(
    alloc: Global,
    fields: &Vec<Field>,
    input: &mut Input<'_>,
) -> Result<Value, ReadError<FaultAt>>
    ensures { Gives (λ v. (value_tree v, input.new.rest.now, input.new.budget)) result
        (map_reading (λ vs. ValueTree.record_of (values_of vs))
        (parts_at (layouts_of (map field_layout fields.now.items))
        input.old.rest.now input.old.budget)) }
{
    let mut values = Vec::with_capacity(alloc, fields.len())?;
    for field in fields {
        values.push(value(alloc, &field.schema, input)?)?;
    }
    Ok(Value::Fields(values))
}
