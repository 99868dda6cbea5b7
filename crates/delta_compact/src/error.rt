//! Why a log wasn't compacted.

ghost use Rattle.std.specs.Prelude.{◌≡◌};
ghost use Rattle.delta_compact.specs.Refusals.{of_source, of_store};
ghost use Rattle.delta_compact.specs.declared.error.CompactFault.TheVariants.{Memory};

use lake_basics::Text;
use lake_store::StoreError;
use source_core::SourceError;
use std::alloc::{AllocError, AllocFailed};
use table_history::{Feature, LimitKind};
use thiserror::Error;

/// Why a Delta log wasn't compacted: the first cause in the order of the work.
#[derive(Debug, Drop, Error)]
pub enum CompactFault {
    #[error("out of memory")]
    Memory,
    /// The log has no version.
    #[error("there is no table")]
    Absent,
    /// The file at the path isn't in its grammar, or isn't there.
    #[error("a file is malformed")]
    Malformed { path: Text },
    /// The file at the path shows a feature that isn't supported.
    #[error("a file shows {feature:?}, which isn't supported")]
    Unsupported { feature: Feature, path: Text },
    /// A number is passed.
    #[error("more {which:?} than {number}")]
    Limit { which: LimitKind, number: u64 },
    /// Another writer's log compaction came to the name of one that was to be written.
    #[error("another writer was in the way")]
    Contested,
    /// The log compaction at the path is too large to be read, or doesn't agree with its commits.
    #[error("a log compaction is stale")]
    Stale { path: Text },
    /// The store failed, and counted it.
    #[error("the store failed")]
    StoreFault,
}

impl From<AllocError> for CompactFault {
    ghost from_gives = { λ _ e. e ≡ Memory };

    fn from(_error: AllocError) -> CompactFault {
        CompactFault::Memory
    }
}

impl<T: Drop> From<AllocFailed<T>> for CompactFault {
    ghost from_gives = { λ _ e. e ≡ Memory };

    fn from(_error: AllocFailed<T>) -> CompactFault {
        CompactFault::Memory
    }
}

/// What is told of a log that the Delta source refuses.
pub(crate) fn source_fault(error: SourceError) -> CompactFault
    ensures { result ≡ of_source error }
{
    match error {
        SourceError::Memory => CompactFault::Memory,
        SourceError::Absent => CompactFault::Absent,
        SourceError::Malformed { path } => CompactFault::Malformed { path },
        SourceError::Unsupported { feature, path } => CompactFault::Unsupported { feature, path },
        SourceError::Limit { which, number } => CompactFault::Limit { which, number },
        SourceError::StoreFault => CompactFault::StoreFault,
    }
}

/// What is told where a log compaction couldn't be written.
pub(crate) fn store_fault(error: StoreError) -> CompactFault
    ensures { result ≡ of_store error }
{
    match error {
        StoreError::Memory | StoreError::TooLong { .. } => CompactFault::Memory,
        StoreError::Failed => CompactFault::StoreFault,
        StoreError::Taken => CompactFault::Contested,
    }
}
