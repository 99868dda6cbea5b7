//! Reading values without parts.

ghost use Rattle.std.specs.Prelude.{◌≡◌, ◌<◌, IfOk};
ghost use Rattle.avro_value.specs.Layout.{indices};
ghost use Rattle.avro_value.specs.ValueTree.{value_tree, ValueTree};
ghost use Rattle.lake_basics.specs.Outcome.{Gives};
ghost use Rattle.avro_value.specs.Reading.{map_reading, item_at, boolean_at, int_at, long_at, run_at, bytes_at, text_at, index_at};

use crate::fault::FaultAt;
use crate::input::Input;
use crate::item;
use crate::value::Value;
use lake_basics::{Blob, ReadError, Text};
use std::alloc::Global;

/// Takes a `boolean`.
pub fn boolean(input: &mut Input<'_>) -> Result<Value, ReadError<FaultAt>>
    ensures { Gives (λ v. (value_tree v, input.new.rest.now, input.new.budget)) result
        (map_reading ValueTree.boolean (item_at boolean_at input.old.rest.now input.old.budget)) }
{
    let item = item::boolean(input.rest);
    Ok(Value::Boolean(input.take(item)?))
}

/// Takes an `int`.
pub fn int(input: &mut Input<'_>) -> Result<Value, ReadError<FaultAt>>
    ensures { Gives (λ v. (value_tree v, input.new.rest.now, input.new.budget)) result
        (map_reading ValueTree.int (item_at int_at input.old.rest.now input.old.budget)) }
{
    let item = item::int(input.rest);
    Ok(Value::Int(input.take(item)?))
}

/// Takes a `long`.
pub fn long(input: &mut Input<'_>) -> Result<Value, ReadError<FaultAt>>
    ensures { Gives (λ v. (value_tree v, input.new.rest.now, input.new.budget)) result
        (map_reading ValueTree.long (item_at long_at input.old.rest.now input.old.budget)) }
{
    let item = item::long(input.rest);
    Ok(Value::Long(input.take(item)?))
}

/// Takes a `float`: four bytes, the lowest first.
pub fn float(input: &mut Input<'_>) -> Result<Value, ReadError<FaultAt>>
    ensures { Gives (λ v. (value_tree v, input.new.rest.now, input.new.budget)) result
        (map_reading ValueTree.float (item_at (run_at 4) input.old.rest.now input.old.budget)) }
{
    let item = item::array::<4>(input.rest);
    Ok(Value::Float(input.take(item)?))
}

/// Takes a `double`: eight bytes, the lowest first.
pub fn double(input: &mut Input<'_>) -> Result<Value, ReadError<FaultAt>>
    ensures { Gives (λ v. (value_tree v, input.new.rest.now, input.new.budget)) result
        (map_reading ValueTree.double (item_at (run_at 8) input.old.rest.now input.old.budget)) }
{
    let item = item::array::<8>(input.rest);
    Ok(Value::Double(input.take(item)?))
}

/// Takes `bytes`.
pub fn bytes(alloc: Global, input: &mut Input<'_>) -> Result<Value, ReadError<FaultAt>>
    ensures { Gives (λ v. (value_tree v, input.new.rest.now, input.new.budget)) result
        (map_reading ValueTree.bytes (item_at bytes_at input.old.rest.now input.old.budget)) }
{
    let item = item::bytes(input.rest);
    Ok(Value::Bytes(Blob::from_slice(alloc, input.take_bytes(item)?)?))
}

/// Takes a `string`.
pub fn text(alloc: Global, input: &mut Input<'_>) -> Result<Value, ReadError<FaultAt>>
    ensures { Gives (λ v. (value_tree v, input.new.rest.now, input.new.budget)) result
        (map_reading ValueTree.text (item_at text_at input.old.rest.now input.old.budget)) }
{
    Ok(Value::Text(key(alloc, input)?))
}

/// A text alone, as a map's key.
pub fn key(alloc: Global, input: &mut Input<'_>) -> Result<Text, ReadError<FaultAt>>
    ensures { Gives (λ t. (t, input.new.rest.now, input.new.budget)) result
        (item_at text_at input.old.rest.now input.old.budget) }
{
    let item = item::text(input.rest);
    Ok(Text::from_str(alloc, input.take_text(item)?)?)
}

/// Takes a `fixed` of so many bytes.
pub fn fixed(alloc: Global, size: u32, input: &mut Input<'_>) -> Result<Value, ReadError<FaultAt>>
    ensures { Gives (λ v. (value_tree v, input.new.rest.now, input.new.budget)) result
        (map_reading ValueTree.fixed (item_at (run_at size) input.old.rest.now input.old.budget)) }
{
    let item = item::run(size as usize, input.rest);
    Ok(Value::Fixed(Blob::from_slice(alloc, input.take_bytes(item)?)?))
}

/// An index under that number.
pub fn index(count: usize, input: &mut Input<'_>) -> Result<u32, ReadError<FaultAt>>
    ensures read { Gives (λ i. (i, input.new.rest.now, input.new.budget)) result
        (item_at (index_at (indices count)) input.old.rest.now input.old.budget) }
    ensures below { IfOk result (λ i. i < indices count) }
{
    let item = item::index(count, input.rest);
    let index = input.take(item)?;
    Ok(index)
}

/// Takes the index of a symbol of an `enum` that has so many.
pub fn symbol(symbols: usize, input: &mut Input<'_>) -> Result<Value, ReadError<FaultAt>>
    ensures { Gives (λ v. (value_tree v, input.new.rest.now, input.new.budget)) result
        (map_reading ValueTree.enum_of
        (item_at (index_at (indices symbols)) input.old.rest.now input.old.budget)) }
{
    Ok(Value::Enum(index(symbols, input)?))
}
