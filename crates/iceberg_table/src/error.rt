//! Why a table wasn't read.

ghost use Rattle.std.specs.Prelude.{◌≡◌};
ghost use Rattle.iceberg_table.specs.declared.error.IcebergError.TheVariants.{Memory};
ghost use Rattle.iceberg_table.specs.Errors.{error_at, error_of_list, error_of_read, manifest_fault, metadata_fault};

use iceberg_manifest::ManifestError;
use iceberg_metadata::MetadataError;
use lake_basics::{ReadError, Text};
use lake_store::StoreError;
use std::alloc::{AllocError, AllocFailed};
use table_history::{Feature, LimitKind};
use thiserror::Error;

/// What is wrong with a file of a table's metadata.
#[derive(Clone, Copy, Debug, Drop, PartialEq, Eq)]
pub enum Fault {
    /// It isn't in its grammar.
    Malformed,
    /// It shows a feature that isn't supported.
    Unsupported { feature: Feature },
    /// A number is passed.
    Limit { which: LimitKind },
}

/// Why a table wasn't read: the first of its files at fault, with its cause.
#[derive(Debug, Drop, Error)]
pub enum IcebergError {
    #[error("out of memory")]
    Memory,
    /// The store failed, and counted it.
    #[error("the store failed")]
    StoreFault,
    /// The folder has more names than are listed.
    #[error("the folder of the metadata has too many names")]
    ManyNames,
    /// The file isn't there.
    #[error("a file of the metadata is missing")]
    Missing { path: Text },
    /// The file has more bytes than are read.
    #[error("a file of the metadata is too large")]
    Large { path: Text },
    /// The file can't be read.
    #[error("a file of the metadata is refused: {fault:?}")]
    Refused { path: Text, fault: Fault },
}

impl From<AllocError> for IcebergError {
    ghost from_gives = { λ _ e. e ≡ Memory };

    fn from(_error: AllocError) -> IcebergError {
        IcebergError::Memory
    }
}

impl<T: Drop> From<AllocFailed<T>> for IcebergError {
    ghost from_gives = { λ _ e. e ≡ Memory };

    fn from(_error: AllocFailed<T>) -> IcebergError {
        IcebergError::Memory
    }
}

/// The fault of metadata that is refused so.
pub(crate) fn metadata_fault(error: MetadataError) -> ReadError<Fault>
    ensures { result ≡ metadata_fault error }
{
    match error {
        MetadataError::Memory => ReadError::Memory,
        MetadataError::FormatVersion => unsupported(Feature::FormatVersion),
        MetadataError::Malformed => ReadError::Fault(Fault::Malformed),
        MetadataError::SchemaType => unsupported(Feature::SchemaType),
        MetadataError::Transform => unsupported(Feature::Transform),
        MetadataError::Renamed => unsupported(Feature::Renamed),
        MetadataError::PartitionType => unsupported(Feature::PartitionType),
        MetadataError::Limit { which } => ReadError::Fault(Fault::Limit { which }),
    }
}

/// The fault of a manifest or a manifest list that is refused so.
pub(crate) fn manifest_fault(error: ManifestError) -> ReadError<Fault>
    ensures { result ≡ manifest_fault error }
{
    match error {
        ManifestError::Memory => ReadError::Memory,
        ManifestError::Malformed => ReadError::Fault(Fault::Malformed),
        ManifestError::Codec => unsupported(Feature::AvroCodec),
        ManifestError::RowDeletes => unsupported(Feature::RowDeletes),
        ManifestError::FileFormat => unsupported(Feature::FileFormat),
        ManifestError::OutsideTable => unsupported(Feature::OutsideTable),
        ManifestError::Limit { which } => ReadError::Fault(Fault::Limit { which }),
    }
}

pub(crate) fn unsupported(feature: Feature) -> ReadError<Fault>
    ensures { result ≡ ReadError.Fault (Fault.Unsupported feature) }
{
    ReadError::Fault(Fault::Unsupported { feature })
}

/// What is told of a folder that couldn't be listed.
pub(crate) fn error_of_list(error: StoreError) -> IcebergError
    ensures { result ≡ error_of_list error }
{
    match error {
        StoreError::Memory | StoreError::Taken => IcebergError::Memory,
        StoreError::Failed => IcebergError::StoreFault,
        StoreError::TooLong { .. } => IcebergError::ManyNames,
    }
}

/// What is told of a file that couldn't be read from the store.
pub(crate) fn error_of_read(path: Text, error: StoreError) -> IcebergError
    ensures { result ≡ error_of_read path error }
{
    match error {
        StoreError::Memory | StoreError::Taken => IcebergError::Memory,
        StoreError::Failed => IcebergError::StoreFault,
        StoreError::TooLong { .. } => IcebergError::Large { path },
    }
}

/// What is told of the file at this path, which has this fault.
pub(crate) fn error_at(path: Text, error: ReadError<Fault>) -> IcebergError
    ensures { result ≡ error_at path error }
{
    match error {
        ReadError::Memory => IcebergError::Memory,
        ReadError::Fault(fault) => IcebergError::Refused { path, fault },
    }
}
