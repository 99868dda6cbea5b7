//! Why a schema was not read or written.

ghost use Rattle.std.specs.Prelude.{◌≡◌};
ghost use Rattle.schema_map.specs.declared.fault.MapError.TheVariants.{Memory};

use lake_basics::{ReadError, Text};
use std::alloc::{AllocError, AllocFailed};
use table_history::LimitKind;

/// What is wrong with the JSON of a type, before the column that has it is named.
#[derive(Clone, Copy, Debug, PartialEq, Eq)]
pub enum Fault {
    BadSchema,
    SchemaType,
    Depth,
}

/// Not in the grammar.
pub const BAD_SCHEMA: ReadError<Fault> = ReadError::Fault(Fault::BadSchema);

/// A type without a row in the table of types.
pub const SCHEMA_TYPE: ReadError<Fault> = ReadError::Fault(Fault::SchemaType);

/// Too many levels.
pub const DEPTH: ReadError<Fault> = ReadError::Fault(Fault::Depth);

/// Why a schema was not read or written. A type or a name at fault is told by the top-level column
/// that has it.
#[derive(Debug, Drop, thiserror::Error)]
pub enum MapError {
    #[error("out of memory")]
    Memory,
    /// Not in the grammar, or two columns of one name in one struct.
    #[error("the text is no schema")]
    BadSchema,
    /// A type that the other side can't spell.
    #[error("a column has a type that has no counterpart")]
    SchemaType { column: Text },
    /// A name that isn't an Avro name.
    #[error("a column has a name that isn't an Avro name")]
    AvroName { column: Text },
    /// Too many columns, too many levels, or no field id left.
    #[error("more {which:?} than are read")]
    Limit { which: LimitKind },
}

impl From<AllocError> for MapError {
    ghost from_gives = { λ _ e. e ≡ Memory };

    fn from(_error: AllocError) -> MapError {
        MapError::Memory
    }
}

impl<T: Drop> From<AllocFailed<T>> for MapError {
    ghost from_gives = { λ _ e. e ≡ Memory };

    fn from(_error: AllocFailed<T>) -> MapError {
        MapError::Memory
    }
}
