//! Why a log wasn't read.

ghost use Rattle.std.specs.Prelude.{◌≡◌};
ghost use Rattle.delta_table.specs.declared.error.LogError.TheVariants.{Memory};
ghost use Rattle.delta_table.specs.Refusals.{error_at, error_of_list, error_of_read};

use delta_log::DeltaError;
use lake_store::StoreError;
use std::alloc::{AllocError, AllocFailed};
use thiserror::Error;

/// Why a log wasn't read: the first of its versions at fault, with its cause.
#[derive(Clone, Copy, Debug, PartialEq, Eq, Error)]
pub enum LogError {
    #[error("out of memory")]
    Memory,
    /// The store failed, and counted it.
    #[error("the store failed")]
    StoreFault,
    /// The folder has more names than are listed.
    #[error("the log's folder has too many names")]
    ManyNames,
    /// There are more commits than are read.
    #[error("the log has too many commits")]
    ManyCommits,
    /// The version isn't there.
    #[error("version {version} is missing")]
    Missing { version: u64 },
    /// The version has more bytes than are read.
    #[error("version {version} is too large")]
    Large { version: u64 },
    /// The version can't be read, or can't be taken over the table before it.
    #[error("version {version} is refused: {error}")]
    Refused { version: u64, error: DeltaError },
}

impl From<AllocError> for LogError {
    ghost from_gives = { λ _ e. e ≡ Memory };

    fn from(_error: AllocError) -> LogError {
        LogError::Memory
    }
}

impl<T: Drop> From<AllocFailed<T>> for LogError {
    ghost from_gives = { λ _ e. e ≡ Memory };

    fn from(_error: AllocFailed<T>) -> LogError {
        LogError::Memory
    }
}

/// What is told of a folder that couldn't be listed.
pub(crate) fn error_of_list(error: StoreError) -> LogError
    ensures { result ≡ error_of_list error }
{
    match error {
        StoreError::Memory | StoreError::Taken => LogError::Memory,
        StoreError::Failed => LogError::StoreFault,
        StoreError::TooLong { .. } => LogError::ManyNames,
    }
}

/// What is told of a version that couldn't be read from the store.
pub(crate) fn error_of_read(error: StoreError, version: u64) -> LogError
    ensures { result ≡ error_of_read version error }
{
    match error {
        StoreError::Memory | StoreError::Taken => LogError::Memory,
        StoreError::Failed => LogError::StoreFault,
        StoreError::TooLong { .. } => LogError::Large { version },
    }
}

/// What is told of a version's commit that is refused.
pub(crate) fn error_at(version: u64, error: DeltaError) -> LogError
    ensures { result ≡ error_at version error }
{
    match error {
        DeltaError::Memory => LogError::Memory,
        error => LogError::Refused { version, error },
    }
}
