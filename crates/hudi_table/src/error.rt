//! Why a timeline wasn't read.

ghost use Rattle.std.specs.Prelude.{◌≡◌};
ghost use Rattle.hudi_table.specs.declared.error.TimelineError.TheVariants.{Memory};
ghost use Rattle.hudi_table.specs.Refusals.{error_of_list, error_of_read};

use hudi_names::HudiError;
use lake_basics::Text;
use lake_store::StoreError;
use std::alloc::{AllocError, AllocFailed};
use thiserror::Error;

/// Why a timeline wasn't read: the first of its files at fault, with its cause.
#[derive(Debug, Drop, Error)]
pub enum TimelineError {
    #[error("out of memory")]
    Memory,
    /// The store failed, and counted it.
    #[error("the store failed")]
    StoreFault,
    /// The folder has more names than are listed.
    #[error("the timeline's folder has too many names")]
    ManyNames,
    /// There are more completed instants than are read.
    #[error("the timeline has too many commits")]
    ManyCommits,
    /// The file isn't there.
    #[error("a file of the timeline is missing")]
    Missing { path: Text },
    /// The file has more bytes than are read.
    #[error("a file of the timeline is too large")]
    Large { path: Text },
    /// The file can't be read, or can't be taken over the table before it.
    #[error("a file of the timeline is refused: {error}")]
    Refused { path: Text, error: HudiError },
}

impl From<AllocError> for TimelineError {
    ghost from_gives = { λ _ e. e ≡ Memory };

    fn from(_error: AllocError) -> TimelineError {
        TimelineError::Memory
    }
}

impl<T: Drop> From<AllocFailed<T>> for TimelineError {
    ghost from_gives = { λ _ e. e ≡ Memory };

    fn from(_error: AllocFailed<T>) -> TimelineError {
        TimelineError::Memory
    }
}

/// What is told of a folder that couldn't be listed.
pub(crate) fn error_of_list(error: StoreError) -> TimelineError
    ensures { result ≡ error_of_list error }
{
    match error {
        StoreError::Memory | StoreError::Taken => TimelineError::Memory,
        StoreError::Failed => TimelineError::StoreFault,
        StoreError::TooLong { .. } => TimelineError::ManyNames,
    }
}

/// What is told of a file that couldn't be read from the store.
pub(crate) fn error_of_read(path: Text, error: StoreError) -> TimelineError
    ensures { result ≡ error_of_read path error }
{
    match error {
        StoreError::Memory | StoreError::Taken => TimelineError::Memory,
        StoreError::Failed => TimelineError::StoreFault,
        StoreError::TooLong { .. } => TimelineError::Large { path },
    }
}
