//! Why a manifest or a manifest list wasn't read.

ghost use Rattle.std.specs.Prelude.{◌≡◌};
ghost use Rattle.iceberg_manifest.specs.declared.error.ManifestError.TheVariants.{Memory};

use lake_basics::ReadError;
use std::alloc::{AllocError, AllocFailed};
use table_history::LimitKind;

/// Why a manifest or a manifest list wasn't read, or none written.
#[derive(Clone, Copy, Debug, PartialEq, Eq, thiserror::Error)]
pub enum ManifestError {
    #[error("out of memory")]
    Memory,
    /// The bytes aren't in the grammar of manifests or manifest lists.
    #[error("the manifest is malformed")]
    Malformed,
    /// The container has another codec than `null`.
    #[error("the manifest is compressed")]
    Codec,
    /// A live entry is a delete file.
    #[error("a live entry is a delete file")]
    RowDeletes,
    /// A live file isn't Parquet.
    #[error("a live file isn't Parquet")]
    FileFormat,
    /// A live file lies outside the table's location.
    #[error("a live file lies outside the table")]
    OutsideTable,
    /// A number is passed.
    #[error("more {which:?} than are read")]
    Limit { which: LimitKind },
}

impl From<AllocError> for ManifestError {
    ghost from_gives = { λ _ e. e ≡ Memory };

    fn from(_error: AllocError) -> ManifestError {
        ManifestError::Memory
    }
}

impl<T: Drop> From<AllocFailed<T>> for ManifestError {
    ghost from_gives = { λ _ e. e ≡ Memory };

    fn from(_error: AllocFailed<T>) -> ManifestError {
        ManifestError::Memory
    }
}

/// What is wrong with an entry or a row.
#[derive(Clone, Copy, Debug, Drop, PartialEq, Eq)]
pub enum Fault {
    Malformed,
    OutsideTable,
    LongPath,
}

/// What is wrong with Avro values that should be entries or rows of a list.
#[derive(Clone, Copy, Debug, Drop, PartialEq, Eq)]
pub enum Flaw {
    Malformed,
}

/// Avro values that are no entries or rows of a list.
pub const FLAW: ReadError<Flaw> = ReadError::Fault(Flaw::Malformed);

/// What is wrong with an entry.
#[derive(Clone, Copy, Debug, Drop, PartialEq, Eq)]
pub enum EntryFault {
    Malformed,
    RowDeletes,
    FileFormat,
}
