//! Why metadata wasn't read.

ghost use Rattle.std.specs.Prelude.{◌≡◌};
ghost use Rattle.iceberg_metadata.specs.declared.error.MetadataError.TheVariants.{Memory};

use std::alloc::{AllocError, AllocFailed};
use table_history::LimitKind;
use thiserror::Error;

/// Why metadata wasn't read: it isn't in the grammar, shows a feature that isn't supported, or passes
/// a number.
#[derive(Clone, Copy, Debug, PartialEq, Eq, Error)]
pub enum MetadataError {
    #[error("out of memory")]
    Memory,
    /// A format version other than 2.
    #[error("the format version isn't 2")]
    FormatVersion,
    /// The text isn't in the grammar of table metadata.
    #[error("the metadata is malformed")]
    Malformed,
    /// A column of a type that no column has here.
    #[error("a column's type isn't supported")]
    SchemaType,
    /// A field of the default spec with a transform other than identity.
    #[error("a partition transform isn't identity")]
    Transform,
    /// A renamed or reused column.
    #[error("a column was renamed or its id reused")]
    Renamed,
    /// A partition column that isn't a top-level column, is named twice, or has a type without a kind.
    #[error("a partition column isn't supported")]
    PartitionType,
    #[error("more {which:?} than are read")]
    Limit { which: LimitKind },
}

impl From<AllocError> for MetadataError {
    ghost from_gives = { λ _ e. e ≡ Memory };

    fn from(_error: AllocError) -> MetadataError {
        MetadataError::Memory
    }
}

impl<T: Drop> From<AllocFailed<T>> for MetadataError {
    ghost from_gives = { λ _ e. e ≡ Memory };

    fn from(_error: AllocFailed<T>) -> MetadataError {
        MetadataError::Memory
    }
}

/// The text isn't in the grammar of table metadata.
pub const MALFORMED: MetadataError = MetadataError::Malformed;
