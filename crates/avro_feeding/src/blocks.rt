//! Reading the blocks behind a header, each as it becomes whole.

ghost use Rattle.std.specs.Prelude.{◌≡◌, ◌≤◌, ◌++◌, ℕ, IfOk, List, drop, map, length, Some};
ghost use Rattle.avro_schema.specs.Tree.{tree_of};
ghost use Rattle.avro_value.specs.ValueTree.{value_tree};
ghost use Rattle.avro_container.specs.Laws.{flaw_error as error_of_flaw};
ghost use Rattle.avro_feeding.specs.Calls.{behind_of};
ghost use Rattle.avro_feeding.specs.Feeding.{in_blocks, waits_or_refused, refusal as refusal_of, ended};
ghost use Rattle.avro_feeding.specs.Views.{IsFedBy, IsRead, IsReadOn, behind_front, summed, trees_found, with_found as found_with};

use crate::place::{Fed, Place, Refused, out_of_memory};
use avro_container::ContainerError;
use avro_container::blocks::block;
use avro_container::fault::{ContainerFault, Flaw};
use avro_value::input::Input;
use avro_value::{Schema, Value, fault_error};
use lake_basics::{Blob, ReadError};
use std::alloc::{AllocError, Global};

/// What stands behind a header, and maybe behind some blocks: the bytes that are kept, the place of
/// the first of them from the container's first byte on, and how many more values may be made.
#[derive(Drop)]
pub(crate) struct BlocksSoFar {
    pub(crate) schema: Schema,
    pub(crate) marker: Blob,
    pub(crate) offset: usize,
    pub(crate) rest: Blob,
    pub(crate) budget: usize,
}

/// What was read of the bytes behind a header.
#[derive(Drop)]
struct Read {
    /// The values of the blocks, where there is one.
    found: Option<Vec<Value>>,
    /// The place behind the last whole block, counted from the first byte of the container.
    offset: usize,
    /// How many bytes stand behind the last whole block.
    left: usize,
    /// How many more values may be made.
    budget: usize,
    /// Why the block behind it is refused, if it is.
    refusal: Option<ContainerError>,
}

/// The error of a flaw at that place.
fn flaw_error(flaw: Flaw, at: usize) -> ContainerError
    ensures { result ≡ error_of_flaw flaw at }
{
    match flaw {
        Flaw::Short => ContainerError::Short { at },
        Flaw::BadMagic => ContainerError::BadMagic,
        Flaw::BadMeta => ContainerError::BadMeta { at },
        Flaw::BadSchema => ContainerError::BadSchema,
        Flaw::Codec => ContainerError::Codec,
        Flaw::BadBlock => ContainerError::BadBlock { at },
        Flaw::Value(fault) => ContainerError::Value(fault_error(fault, at)),
        Flaw::BadSync => ContainerError::BadSync { at },
    }
}

/// Why so many bytes behind an offset are refused, if they don't only end too early.
pub(crate) fn refusal(offset: usize, len: usize, fault: ContainerFault) -> Option<ContainerError>
    ensures { (bytes : List ℕ) → length bytes ≡ len → result ≡ refusal_of offset bytes fault }
{
    match fault.flaw {
        Flaw::Short => None,
        flaw => {
            let at = offset.saturating_add(len.saturating_sub(fault.left));
            Some(flaw_error(flaw, at))
        }
    }
}

/// The values, with these behind them.
fn with_found(
    found: Option<Vec<Value>>,
    mut values: Vec<Value>,
) -> Result<Option<Vec<Value>>, AllocError>
    ensures { IfOk result (λ all. trees_found all
        ≡ found_with (trees_found found) (Some (map value_tree values.items))) }
{
    match found {
        None => Ok(Some(values)),
        Some(mut all) => {
            all.append(&mut values)?;
            Ok(Some(all))
        }
    }
}

/// Reads all whole blocks at the front of the bytes, which stand behind the offset. So many more
/// values may be made.
fn read_blocks(
    alloc: Global,
    schema: &Schema,
    marker: &[u8],
    offset: usize,
    bytes: &[u8],
    budget: usize,
) -> Result<Read, AllocError>
    ensures { IfOk result (IsRead (record {
      schema = tree_of schema.now;
      marker = marker.now;
      offset = offset;
      rest = bytes.now;
      budget = budget;
    })) }
{
    let mut found = None;
    let mut offset = offset;
    let mut budget = budget;
    let mut rest = bytes;
    let fuel = bytes.len() + 1;
    for _ in 0..fuel {
        let mut values = Vec::new(alloc);
        let mut input = Input { rest, budget };
        match block(alloc, schema, marker, &mut values, &mut input) {
            Ok(()) => {
                found = with_found(found, values)?;
                offset = offset.saturating_add(rest.len().saturating_sub(input.rest.len()));
                rest = input.rest;
                budget = input.budget;
            }
            Err(ReadError::Memory) => return Err(AllocError),
            Err(ReadError::Fault(fault)) => {
                return Ok(Read {
                    found,
                    offset,
                    left: rest.len(),
                    budget,
                    refusal: refusal(offset, rest.len(), fault),
                });
            }
        }
    }
    Ok(Read {
        found,
        offset,
        left: rest.len(),
        budget,
        refusal: None,
    })
}

/// Drops so many bytes at the front. The room stays.
fn drop_front(bytes: &mut Vec<u8>, count: usize)
    requires { count ≤ length bytes.old.items }
    ensures { bytes.new.items ≡ drop count bytes.old.items }
{
    if count == 0 {
        return;
    }
    let left = bytes.len() - count;
    // `truncate` takes a step for each byte that it drops, `clear` takes none.
    if left == 0 {
        bytes.clear();
        return;
    }
    if left <= count {
        let (front, back) = bytes.as_mut_slice().split_at_mut(count);
        front[..left].copy_from_slice(back);
    } else {
        bytes.rotate_left(count);
    }
    bytes.truncate(left);
}

/// How reading leaves the bytes: those that were taken are dropped where it may go on.
fn left_behind(schema: Schema, marker: Blob, mut bytes: Vec<u8>, taken: usize, read: Read) -> Fed
    requires { taken ≤ length bytes.items }
    ensures { summed result
        ≡ (
          waits_or_refused (in_blocks (record {
            schema = tree_of schema;
            marker = marker;
            offset = read.offset;
            rest = drop taken bytes.items;
            budget = read.budget;
          })) (Some (tree_of schema)) read.refusal,
          trees_found read.found,
        ) }
{
    let state = match read.refusal {
        Some(error) => Err(Refused {
            error,
            schema: Some(schema),
        }),
        None => {
            drop_front(&mut bytes, taken);
            Ok(Place::Blocks(BlocksSoFar {
                schema,
                marker,
                offset: read.offset,
                rest: Blob::from_vec(bytes),
                budget: read.budget,
            }))
        }
    };
    Fed {
        state,
        found: read.found,
    }
}

impl BlocksSoFar {
    pub(crate) fn schema(&self) -> &Schema
        ensures { result.now ≡ self.now.schema }
    {
        &self.schema
    }

    /// Drops so many bytes at the front of those that are kept, and reads all whole blocks behind
    /// them. The bytes behind the blocks alone are kept then.
    pub(crate) fn read_behind(self, alloc: Global, front: usize) -> Fed
        requires { front ≤ length self.rest }
        ensures { IsReadOn (behind_front front (behind_of self)) (summed result) }
    {
        let BlocksSoFar {
            schema,
            marker,
            offset,
            rest,
            budget,
        } = self;
        let bytes = rest.into_vec();
        let blocks = &bytes.as_slice()[front..];
        let len = blocks.len();
        let Ok(read) = read_blocks(
            alloc,
            &schema,
            marker.as_slice(),
            offset.saturating_add(front),
            blocks,
            budget,
        ) else {
            return out_of_memory(Some(schema));
        };
        let taken = front + len.saturating_sub(read.left);
        left_behind(schema, marker, bytes, taken, read)
    }

    /// What a piece more makes of it. A block that isn't whole is found by its count and its size.
    pub(crate) fn fed(self, alloc: Global, piece: &[u8]) -> Fed
        ensures { IsFedBy (Ok (in_blocks (behind_of self))) piece.now (summed result) }
    {
        let BlocksSoFar {
            schema,
            marker,
            offset,
            rest,
            budget,
        } = self;
        let mut bytes = rest.into_vec();
        if bytes.extend_from_slice(piece).is_err() {
            return out_of_memory(Some(schema));
        }
        BlocksSoFar {
            schema,
            marker,
            offset,
            rest: Blob::from_vec(bytes),
            budget,
        }
        .read_behind(alloc, 0)
    }

    /// What the end of the bytes makes of it: they are at fault where a block isn't whole.
    pub(crate) fn ended(self) -> Result<(), ContainerError>
        ensures { result ≡ ended (Ok (in_blocks (behind_of self))) }
    {
        if self.rest.as_slice().is_empty() {
            return Ok(());
        }
        Err(ContainerError::Short { at: self.offset })
    }
}
