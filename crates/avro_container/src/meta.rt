//! Reading the metadata, a map of bytes.

ghost use Rattle.std.specs.Prelude.{◌≡◌, ℕ, List, length, option_map, drop};
ghost use Rattle.lake_basics.specs.Outcome.{Gives};
ghost use Rattle.avro_value.specs.Reading.{item_at, bytes_at, with_count, entry_at, all_blocks_at, one_block_at, many_at, with_block, read_behind};
ghost use Rattle.avro_container.specs.Reading.{meta_at};
ghost use Rattle.avro_container.specs.Format.{first_named as first_named_of};

use avro_value::fault::{Fault, FaultAt};
use avro_value::input::Input;
use avro_value::{item, leaf};
use lake_basics::{Blob, ReadError, Text};
use std::alloc::Global;

/// The pairs, which count as one value more than there are.
#[tactic(auto, unfolding(crate::specs::Reading::meta_at, avro_value::specs::Reading::with_count))]
pub fn meta(alloc: Global, input: &mut Input<'_>) -> Result<Vec<(Text, Blob)>, ReadError<FaultAt>>
    ensures { Gives (λ ps. (ps.items, input.new.rest.now, input.new.budget)) result
        (meta_at input.old.rest.now input.old.budget) }
{
    if input.budget == 0 {
        return Err(ReadError::Fault(input.fault(Fault::Limit)));
    }
    input.budget -= 1;
    pairs(alloc, input)
}

/// The blocks of the map. Each takes a byte at least.
fn pairs(alloc: Global, input: &mut Input<'_>) -> Result<Vec<(Text, Blob)>, ReadError<FaultAt>>
    ensures { Gives (λ ps. (ps.items, input.new.rest.now, input.new.budget)) result
        (all_blocks_at (entry_at (with_count (item_at bytes_at)))
        input.old.rest.now input.old.budget) }
{
    let mut found = Vec::new(alloc);
    let fuel = input.rest.len() + 1;
    for _ in 0..fuel {
        if !block(alloc, &mut found, input)? {
            return Ok(found);
        }
    }
    Err(ReadError::Fault(input.fault(Fault::Short)))
}

/// Adds the pairs of the next block, and says whether there is one.
#[tactic(auto, unfolding(avro_value::specs::Reading::one_block_at))]
fn block(
    alloc: Global,
    found: &mut Vec<(Text, Blob)>,
    input: &mut Input<'_>,
) -> Result<bool, ReadError<FaultAt>>
    ensures { Gives (λ more. (more, found.new.items, input.new.rest.now, input.new.budget))
        result
        (with_block found.old.items
        (one_block_at (entry_at (with_count (item_at bytes_at)))
        input.old.rest.now input.old.budget)) }
{
    let Some(block) = input.begin_block()? else {
        return Ok(false);
    };
    many(alloc, block.count, found, input)?;
    input.end_block(block)?;
    Ok(true)
}

/// Adds so many pairs.
fn many(
    alloc: Global,
    count: u64,
    found: &mut Vec<(Text, Blob)>,
    input: &mut Input<'_>,
) -> Result<(), ReadError<FaultAt>>
    ensures { Gives (λ _. (found.new.items, input.new.rest.now, input.new.budget))
        result
        (read_behind found.old.items
        (many_at (entry_at (with_count (item_at bytes_at)))
        count input.old.rest.now input.old.budget)) }
{
    for _ in 0..count {
        found.push(pair(alloc, input)?)?;
    }
    Ok(())
}

/// A name and its bytes.
#[tactic(auto, unfolding(avro_value::specs::Reading::entry_at))]
fn pair(alloc: Global, input: &mut Input<'_>) -> Result<(Text, Blob), ReadError<FaultAt>>
    ensures { Gives (λ p. (p, input.new.rest.now, input.new.budget)) result
        (entry_at (with_count (item_at bytes_at)) input.old.rest.now input.old.budget) }
{
    let name = leaf::key(alloc, input)?;
    let bytes = blob(alloc, input)?;
    Ok((name, bytes))
}

#[tactic(auto, unfolding(avro_value::specs::Reading::with_count))]
fn blob(alloc: Global, input: &mut Input<'_>) -> Result<Blob, ReadError<FaultAt>>
    ensures { Gives (λ b. (b, input.new.rest.now, input.new.budget)) result
        (with_count (item_at bytes_at) input.old.rest.now input.old.budget) }
{
    if input.budget == 0 {
        return Err(ReadError::Fault(input.fault(Fault::Limit)));
    }
    input.budget -= 1;
    let item = item::bytes(input.rest);
    Ok(Blob::from_slice(alloc, input.take_bytes(item)?)?)
}

/// What the first pair of that name has.
pub fn first_named<'a>(name: &[u8], pairs: &'a Vec<(Text, Blob)>) -> Option<&'a [u8]>
    ensures { option_map (λ v. v.now) result ≡ first_named_of name.now pairs.now.items }
{
    for pair in pairs {
        if pair.0.as_bytes() == name {
            return Some(pair.1.as_slice());
        }
    }
    None
}
