//! Why commits weren't joined.

ghost use Rattle.std.specs.Prelude.{◌≡◌};
ghost use Rattle.delta_compaction.specs.declared.error.CompactError.TheVariants.{Memory};

use std::alloc::{AllocError, AllocFailed};
use table_history::{Feature, LimitKind};
use thiserror::Error;

/// Why commits weren't joined: the first of them at fault, counted from 0, with its first line at
/// fault, counted from 1.
#[derive(Clone, Copy, Debug, Error)]
pub enum CompactError {
    #[error("out of memory")]
    Memory,
    /// The line isn't in the grammar of Delta commits.
    #[error("line {line} of commit {index} is malformed")]
    Malformed {
        index: usize,
        line: u64,
    },
    /// The line shows a feature that isn't supported.
    #[error("line {line} of commit {index} shows {feature:?}, which isn't supported")]
    Unsupported {
        feature: Feature,
        index: usize,
        line: u64,
    },
    /// A number is passed.
    #[error("more {which:?} than are read")]
    Limit {
        which: LimitKind,
    },
}

impl From<AllocError> for CompactError {
    ghost from_gives = { λ _ e. e ≡ Memory };

    fn from(_error: AllocError) -> CompactError {
        CompactError::Memory
    }
}

impl<T: Drop> From<AllocFailed<T>> for CompactError {
    ghost from_gives = { λ _ e. e ≡ Memory };

    fn from(_error: AllocFailed<T>) -> CompactError {
        CompactError::Memory
    }
}
