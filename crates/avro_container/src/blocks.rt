//! Reading blocks of objects.

ghost use Rattle.std.specs.Prelude.{◌≡◌, ◌+◌, ◌^◌, ◌<◌, map, length};
ghost use Rattle.avro_value.specs.Reading.{GivesAlways, many_at, read_behind};
ghost use Rattle.avro_value.specs.Layout.{layout};
ghost use Rattle.avro_value.specs.ValueTree.{value_tree};
ghost use Rattle.lake_basics.specs.Outcome.{Gives};
ghost use Rattle.avro_container.specs.Reading.{natural_in, object_at, objects_in, block_at, blocks_at, block_behind, objects_behind};

use crate::fault::{ContainerFault, Flaw};
use crate::header::run;
use avro_value::fault::{Fault, FaultAt};
use avro_value::input::Input;
use avro_value::{MAX_VALUES, Schema, Value, is_bare, item, read_value};
use lake_basics::ReadError;
use std::alloc::Global;

/// A count or a size, in a block that has so many bytes from its first one on.
#[tactic(auto, unfolding(crate::specs::Reading::natural_in))]
fn natural(block: usize, bytes: &[u8]) -> Result<(u64, &[u8]), ContainerFault>
    ensures { GivesAlways (λ x. (x.0, x.1.now)) result (natural_in block bytes.now) }
{
    match item::natural(Fault::BadLength, bytes) {
        Ok(number) => Ok(number),
        Err(Fault::Short) => Err(ContainerFault {
            flaw: Flaw::Short,
            left: block,
        }),
        Err(_) => Err(ContainerFault {
            flaw: Flaw::BadBlock,
            left: bytes.len(),
        }),
    }
}

/// An object. One that passes the limit does so at its first byte.
#[tactic(auto, unfolding(crate::specs::Reading::object_at))]
fn object(
    alloc: Global,
    schema: &Schema,
    input: &mut Input<'_>,
) -> Result<Value, ReadError<FaultAt>>
    ensures { Gives (λ v. (value_tree v, input.new.rest.now, input.new.budget)) result
        (object_at (layout schema.now) input.old.rest.now input.old.budget) }
{
    let limit = input.fault(Fault::Limit);
    match read_value(alloc, schema, input) {
        Ok(value) => Ok(value),
        Err(ReadError::Memory) => Err(ReadError::Memory),
        Err(ReadError::Fault(fault)) => Err(ReadError::Fault(match fault.fault {
            Fault::Limit => limit,
            _ => fault,
        })),
    }
}

/// Adds so many objects. Where they take no bytes and pass the limit, none of them is made.
fn many(
    alloc: Global,
    schema: &Schema,
    count: u64,
    found: &mut Vec<Value>,
    input: &mut Input<'_>,
) -> Result<(), ReadError<FaultAt>>
    ensures { Gives (λ _. (map value_tree found.new.items, input.new.rest.now, input.new.budget))
        result
        (read_behind (map value_tree found.old.items)
        (many_at (object_at (layout schema.now)) count input.old.rest.now input.old.budget)) }
{
    if count > input.budget as u64 && is_bare(schema) {
        return Err(ReadError::Fault(input.fault(Fault::Limit)));
    }
    for _ in 0..count {
        found.push(object(alloc, schema, input)?)?;
    }
    Ok(())
}

/// Adds so many objects, which are followed by nothing else and so many bytes, and says how many
/// more values may be made.
#[tactic(auto, unfolding(crate::specs::Reading::objects_in))]
fn objects(
    alloc: Global,
    schema: &Schema,
    count: u64,
    after: usize,
    found: &mut Vec<Value>,
    mut input: Input<'_>,
) -> Result<usize, ReadError<ContainerFault>>
    requires { length input.rest.now + after < 2 ^ 64 }
    ensures { Gives (λ budget. (map value_tree found.new.items, budget)) result
        (objects_behind (map value_tree found.old.items)
        (objects_in (layout schema.now) count input.entry.rest.now after input.entry.budget)) }
{
    match many(alloc, schema, count, found, &mut input) {
        Ok(()) => {}
        Err(ReadError::Memory) => return Err(ReadError::Memory),
        Err(ReadError::Fault(fault)) => {
            return Err(ReadError::Fault(ContainerFault {
                flaw: Flaw::Value(fault.fault),
                left: fault.left.saturating_add(after),
            }));
        }
    }
    if !input.rest.is_empty() {
        return Err(ReadError::Fault(ContainerFault {
            flaw: Flaw::BadBlock,
            left: input.rest.len() + after,
        }));
    }
    Ok(input.budget)
}

/// Adds the values of the next block (Apache Avro specification, "Object Container Files"). Its objects
/// are read once its bytes and its marker are there. A block that isn't whole is short at its first
/// byte. After a fault, some of its values may have been added.
#[tactic(auto, unfolding(crate::specs::Reading::block_at))]
pub fn block(
    alloc: Global,
    schema: &Schema,
    marker: &[u8],
    found: &mut Vec<Value>,
    input: &mut Input<'_>,
) -> Result<(), ReadError<ContainerFault>>
    ensures { Gives (λ _. (map value_tree found.new.items, input.new.rest.now, input.new.budget))
        result
        (block_behind (map value_tree found.old.items)
        (block_at (layout schema.now) marker.now input.old.rest.now input.old.budget)) }
{
    let whole = input.rest.len();
    let (count, rest) = natural(whole, input.rest)?;
    let (size, rest) = natural(whole, rest)?;
    let (inside, after) = run(whole, size as usize, rest)?;
    let (sync, rest) = run(whole, 16, after)?;
    let inner = Input {
        rest: inside,
        budget: input.budget,
    };
    let budget = objects(alloc, schema, count, after.len(), found, inner)?;
    if sync != marker {
        return Err(ReadError::Fault(ContainerFault {
            flaw: Flaw::BadSync,
            left: after.len(),
        }));
    }
    input.rest = rest;
    input.budget = budget;
    Ok(())
}

/// The values of all blocks up to the end of the bytes, or the first fault. Each block takes a byte at
/// least.
pub fn blocks(
    alloc: Global,
    schema: &Schema,
    marker: &[u8],
    bytes: &[u8],
) -> Result<Vec<Value>, ReadError<ContainerFault>>
    ensures { Gives (λ vs. map value_tree vs.items) result
        (blocks_at (layout schema.now) marker.now (length bytes.now + 1) bytes.now MAX_VALUES) }
{
    let mut found = Vec::new(alloc);
    let mut input = Input {
        rest: bytes,
        budget: MAX_VALUES,
    };
    let fuel = bytes.len() + 1;
    for _ in 0..fuel {
        if input.rest.is_empty() {
            return Ok(found);
        }
        block(alloc, schema, marker, &mut found, &mut input)?;
    }
    Err(ReadError::Fault(ContainerFault {
        flaw: Flaw::Short,
        left: input.rest.len(),
    }))
}
