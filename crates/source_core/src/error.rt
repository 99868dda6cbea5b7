//! Why a source wasn't read.

ghost use Rattle.std.specs.Prelude.{◌≡◌};
ghost use Rattle.source_core.specs.declared.error.SourceError.TheVariants.{Memory};

use lake_basics::Text;
use std::alloc::{AllocError, AllocFailed};
use table_history::{Feature, LimitKind};
use thiserror::Error;

/// Why a source wasn't read: the first cause in the order of reading.
#[derive(Debug, Drop, PartialEq, Eq, Error)]
pub enum SourceError {
    #[error("out of memory")]
    Memory,
    /// Nothing of a table is there.
    #[error("there is no table")]
    Absent,
    /// The file at the path isn't in its grammar, or isn't there.
    #[error("a file is malformed")]
    Malformed { path: Text },
    /// The file at the path shows a feature that isn't supported.
    #[error("a file shows {feature:?}, which isn't supported")]
    Unsupported { feature: Feature, path: Text },
    /// A number is passed.
    #[error("more {which:?} than {number}")]
    Limit { which: LimitKind, number: u64 },
    /// The store failed, and counted it.
    #[error("the store failed")]
    StoreFault,
}

impl From<AllocError> for SourceError {
    ghost from_gives = { λ _ e. e ≡ Memory };

    fn from(_error: AllocError) -> SourceError {
        SourceError::Memory
    }
}

impl<T: Drop> From<AllocFailed<T>> for SourceError {
    ghost from_gives = { λ _ e. e ≡ Memory };

    fn from(_error: AllocFailed<T>) -> SourceError {
        SourceError::Memory
    }
}
