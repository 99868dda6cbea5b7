//! Whole containers.

ghost use Rattle.std.specs.Prelude.{◌≡◌, ℕ, List, ◌⊎◌, ◌-◌, Err, IfOk, IfErr, MatchResult, length, map};
ghost use Rattle.lake_basics.specs.Outcome.{Gives};
ghost use Rattle.avro_schema.specs.Tree.{SchemaTree, tree_of};
ghost use Rattle.std.specs.List.{AllByRecursion};
ghost use Rattle.avro_value.specs.Layout.{layout_of};
ghost use Rattle.avro_value.specs.Fitting.{Fits};
ghost use Rattle.avro_value.specs.ValueTree.{ValueTree, value_tree};
ghost use Rattle.avro_container.specs.Reading.{container_at};
ghost use Rattle.avro_container.specs.Laws.{error_of, Answers, IsThat, IsRefused, IsLimit, IsNoContainer, HasOtherCodec};
ghost use Rattle.avro_container.specs.Format.{Pairs, IsWithin};

use crate::blocks::blocks;
use crate::error::ContainerError;
use crate::fault::{ContainerFault, Flaw};
use crate::header::{codec, read_header, schema};
use avro_schema::Schema;
use avro_value::{MAX_VALUES, Value, fault_error};
use lake_basics::{Blob, Items, ReadError, Text};
use std::alloc::Global;

/// Metadata: names with their bytes, in the order of the file.
pub type Meta = Items<(Text, Blob)>;

/// Values, in the order of the file.
pub type Values = Items<Value>;

/// A container's metadata, its schema and the values of all its blocks.
#[derive(Debug, Drop)]
pub struct Container {
    pub meta: Meta,
    pub schema: Schema,
    pub values: Values,
}

/// The error of a fault in an input of that length.
fn error(fault: ContainerFault, len: usize) -> ContainerError
    ensures { result ≡ error_of len fault }
{
    let at = len.saturating_sub(fault.left);
    match fault.flaw {
        Flaw::Short => ContainerError::Short { at },
        Flaw::BadMagic => ContainerError::BadMagic,
        Flaw::BadMeta => ContainerError::BadMeta { at },
        Flaw::BadSchema => ContainerError::BadSchema,
        Flaw::Codec => ContainerError::Codec,
        Flaw::BadBlock => ContainerError::BadBlock { at },
        Flaw::Value(fault) => ContainerError::Value(fault_error(fault, at)),
        Flaw::BadSync => ContainerError::BadSync { at },
    }
}

#[tactic(auto, unfolding(crate::specs::Reading::container_at))]
fn read(alloc: Global, bytes: &[u8]) -> Result<Container, ReadError<ContainerFault>>
    ensures { Gives (λ c. (c.meta, tree_of c.schema, map value_tree c.values)) result
        (container_at MAX_VALUES bytes.now) }
{
    let whole = bytes.len();
    let header = read_header(alloc, bytes)?;
    let schema = schema(alloc, whole, &header.meta)?;
    if let Err(flaw) = codec(&header.meta) {
        return Err(ReadError::Fault(ContainerFault { flaw, left: whole }));
    }
    let values = blocks(alloc, &schema, header.marker, header.blocks)?;
    Ok(Container {
        meta: Items::from_vec(header.meta),
        schema,
        values: Items::from_vec(values),
    })
}

/// What reading the whole input gives.
fn answer(alloc: Global, bytes: &[u8]) -> Result<Container, ContainerError>
    ensures { Answers (λ c. (c.meta, tree_of c.schema, map value_tree c.values)) (length bytes.now)
        result (container_at MAX_VALUES bytes.now) }
{
    match read(alloc, bytes) {
        Ok(container) => Ok(container),
        Err(ReadError::Memory) => Err(ContainerError::Memory),
        Err(ReadError::Fault(fault)) => Err(error(fault, bytes.len())),
    }
}

/// The container that the whole input is, without compression. Its objects together have at most
/// 16,777,216 values, and so has its metadata; a value counts as it begins. What is refused is the
/// first fault in byte order; the schema and the codec are judged behind the header's marker, and a
/// block's objects once the block is whole.
pub fn read_container(alloc: Global, bytes: &[u8]) -> Result<Container, ContainerError>
    // What is read is a container.
    ensures found { IfOk result (λ c.
        IsWithin MAX_VALUES bytes.now c.meta (tree_of c.schema) (map value_tree c.values)) }
    ensures fits { IfOk result (λ c.
        AllByRecursion (Fits (layout_of (tree_of c.schema))) (map value_tree c.values)) }
    // A container is read, unless memory runs out.
    ensures only { (meta : Pairs) (t : SchemaTree) (vs : List ValueTree)
        → IsWithin MAX_VALUES bytes.now meta t vs
        → MatchResult result (λ c. IsThat c meta t vs) (λ e. e ≡ ContainerError.Memory) }
    // What is refused is the first fault of the input.
    ensures refused { IfErr
        result (λ e. (e ≡ ContainerError.Memory) ⊎ IsRefused MAX_VALUES bytes.now e) }
    // Each refusal but that of too many values says that the input is no container, however many
    // values its objects have.
    ensures none { IfErr result (λ e. (e ≡ ContainerError.Memory) ⊎ IsLimit e
        ⊎ IsNoContainer MAX_VALUES bytes.now) }
    // The first fault of the input is refused, unless memory runs out.
    ensures first { (e : ContainerError) → IsRefused MAX_VALUES bytes.now e
        → (result ≡ Err e) ⊎ (result ≡ Err ContainerError.Memory) }
    // Codec is answered where the header and its schema are read and the codec is another one, and
    // only there.
    ensures codec { IfErr
        result (λ e. e ≡ ContainerError.Codec → HasOtherCodec MAX_VALUES bytes.now) }
    ensures other_codec { HasOtherCodec MAX_VALUES bytes.now
        → (result ≡ Err ContainerError.Codec) ⊎ (result ≡ Err ContainerError.Memory) }
{
    answer(alloc, bytes)
}
