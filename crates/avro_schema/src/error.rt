//! Why a text is no schema.
ghost use Rattle.std.specs.Prelude.{◌≡◌};
ghost use Rattle.avro_schema.specs.declared.error.SchemaError.TheVariants.{Memory};

use std::alloc::AllocError;

/// Why no schema was read, or none written.
#[derive(Clone, Copy, Debug, PartialEq, Eq, thiserror::Error)]
pub enum SchemaError {
    #[error("out of memory")]
    Memory,
    /// The text is no schema, for another cause than `Recursive`.
    #[error("the text is no Avro schema")]
    BadSchema,
    /// A name is used inside its own definition.
    #[error("a name is used inside its own definition")]
    Recursive,
}

impl From<AllocError> for SchemaError {
    ghost from_gives = { λ _ e. e ≡ Memory };

    fn from(_error: AllocError) -> SchemaError {
        SchemaError::Memory
    }
}

/// The faults that a schema text may have.
#[derive(Clone, Copy, Drop)]
pub(crate) enum SchemaFault {
    BadSchema,
    Recursive,
}
