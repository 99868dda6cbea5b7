//! Why a container could not be read.
ghost use Rattle.std.specs.Prelude.{◌≡◌};
ghost use Rattle.avro_container.specs.declared.error.ContainerError.TheVariants.{Memory};

use avro_value::AvroError;
use std::alloc::AllocError;

/// Each place counts from the first byte of the input.
#[derive(Clone, Copy, Debug, PartialEq, Eq, thiserror::Error)]
pub enum ContainerError {
    #[error("out of memory")]
    Memory,
    /// There are four bytes, and they aren't the magic.
    #[error("the magic is wrong")]
    BadMagic,
    /// The input ends inside the header, at 0, or inside the block that begins there.
    #[error("the input ends inside the part at {at}")]
    Short { at: usize },
    /// The item of the metadata map at fault.
    #[error("the metadata is wrong at {at}")]
    BadMeta { at: usize },
    /// `avro.schema` is absent or no schema.
    #[error("there is no schema")]
    BadSchema,
    /// `avro.codec` is there and isn't `null`.
    #[error("the codec is not null")]
    Codec,
    /// A count or size at fault, or the first byte that a block's objects leave over.
    #[error("the block is wrong at {at}")]
    BadBlock { at: usize },
    /// An object doesn't decode within its block, or the objects together pass the limit of values.
    #[error("an object is wrong: {0}")]
    Value(AvroError),
    /// The wrong marker.
    #[error("the marker at {at} is wrong")]
    BadSync { at: usize },
}

impl From<AllocError> for ContainerError {
    ghost from_gives = { λ _ e. e ≡ Memory };

    fn from(_error: AllocError) -> ContainerError {
        ContainerError::Memory
    }
}
