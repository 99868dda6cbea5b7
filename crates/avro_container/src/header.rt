//! Reading what stands before the blocks.

ghost use Rattle.std.specs.Prelude.{◌≡◌, length, Ok};
ghost use Rattle.avro_value.specs.Reading.{GivesAlways};
ghost use Rattle.avro_schema.specs.Tree.{tree_of};
ghost use Rattle.lake_basics.specs.Outcome.{Gives};
ghost use Rattle.avro_container.specs.Reading.{after_magic as after_magic_of, run_in, header_at, schema_in, codec_in, step_of, meta_step, meta_at, meta_fault};

use crate::fault::{ContainerFault, Flaw};
use crate::meta::{first_named, meta};
use avro_schema::{Schema, SchemaError};
use avro_value::fault::{Fault, FaultAt};
use avro_value::input::Input;
use avro_value::{MAX_VALUES, item};
use lake_basics::{Blob, ReadError, Text};
use std::alloc::Global;

/// The metadata, the marker, and the bytes behind it.
#[derive(Debug, Drop)]
pub struct Header<'a> {
    pub meta: Vec<(Text, Blob)>,
    pub marker: &'a [u8],
    pub blocks: &'a [u8],
}

/// What follows the magic.
#[tactic(auto, unfolding(crate::specs::Reading::after_magic))]
fn after_magic(bytes: &[u8]) -> Result<&[u8], Flaw>
    ensures { GivesAlways (λ rest. rest.now) result (after_magic_of bytes.now) }
{
    let Ok((front, rest)) = item::run(4, bytes) else {
        return Err(Flaw::Short);
    };
    if front != b"Obj\x01".as_slice() {
        return Err(Flaw::BadMagic);
    }
    Ok(rest)
}

/// So many bytes and those behind them, of a part that has so many bytes from its first one on. Fewer
/// are a fault at the part's first byte.
#[tactic(auto, unfolding(crate::specs::Reading::run_in))]
pub fn run(whole: usize, len: usize, bytes: &[u8]) -> Result<(&[u8], &[u8]), ContainerFault>
    ensures { GivesAlways (λ x. (x.0.now, x.1.now)) result (run_in whole len bytes.now) }
{
    match item::run(len, bytes) {
        Ok(run) => Ok(run),
        Err(_) => Err(ContainerFault {
            flaw: Flaw::Short,
            left: whole,
        }),
    }
}

/// A header that ends early is at fault at its first byte.
fn fault(whole: usize, fault: FaultAt) -> ContainerFault
    ensures { result ≡ meta_fault whole fault }
{
    match fault.fault {
        Fault::Short => ContainerFault {
            flaw: Flaw::Short,
            left: whole,
        },
        _ => ContainerFault {
            flaw: Flaw::BadMeta,
            left: fault.left,
        },
    }
}

fn meta_in(
    alloc: Global,
    whole: usize,
    input: &mut Input<'_>,
) -> Result<Vec<(Text, Blob)>, ReadError<ContainerFault>>
    ensures { Gives (λ ps. (ps.items, input.new.rest.now, input.new.budget)) result
        (meta_step whole (meta_at input.old.rest.now input.old.budget)) }
{
    match meta(alloc, input) {
        Ok(pairs) => Ok(pairs),
        Err(ReadError::Memory) => Err(ReadError::Memory),
        Err(ReadError::Fault(met)) => Err(ReadError::Fault(fault(whole, met))),
    }
}

/// The header of a container file: its metadata, its marker, and where its blocks begin (Apache Avro
/// specification, "Object Container Files").
#[tactic(auto, unfolding(crate::specs::Reading::header_at))]
pub fn read_header(alloc: Global, bytes: &[u8]) -> Result<Header<'_>, ReadError<ContainerFault>>
    ensures { Gives (λ h. (h.meta.items, h.marker.now, h.blocks.now))
        result (header_at MAX_VALUES bytes.now) }
{
    let whole = bytes.len();
    let rest = match after_magic(bytes) {
        Ok(rest) => rest,
        Err(flaw) => return Err(ReadError::Fault(ContainerFault { flaw, left: whole })),
    };
    let mut input = Input {
        rest,
        budget: MAX_VALUES,
    };
    let meta = meta_in(alloc, whole, &mut input)?;
    let (marker, blocks) = run(whole, 16, input.rest)?;
    Ok(Header {
        meta,
        marker,
        blocks,
    })
}

/// The schema that the metadata names, by the text of the first `avro.schema`. Where there is none, or
/// its text is no schema, the fault has so many bytes from its place to the end.
#[tactic(auto, unfolding(crate::specs::Reading::schema_in))]
pub fn schema(
    alloc: Global,
    whole: usize,
    meta: &Vec<(Text, Blob)>,
) -> Result<Schema, ReadError<ContainerFault>>
    ensures { Gives (λ s. tree_of s) result (step_of whole (schema_in meta.now.items)) }
{
    let refused = ReadError::Fault(ContainerFault {
        flaw: Flaw::BadSchema,
        left: whole,
    });
    let Some(text) = first_named(b"avro.schema", meta) else {
        return Err(refused);
    };
    match Schema::from_json(alloc, text) {
        Ok(schema) => Ok(schema),
        Err(SchemaError::Memory) => Err(ReadError::Memory),
        Err(_) => Err(refused),
    }
}

/// Judges the codec that the metadata names: the first `avro.codec` is absent or `null`.
#[tactic(auto, unfolding(crate::specs::Reading::codec_in))]
pub fn codec(meta: &Vec<(Text, Blob)>) -> Result<(), Flaw>
    ensures { GivesAlways (λ _. tt) result (codec_in meta.now.items) }
{
    match first_named(b"avro.codec", meta) {
        None => Ok(()),
        Some(codec) if codec == b"null".as_slice() => Ok(()),
        Some(_) => Err(Flaw::Codec),
    }
}
