//! Why a commit wasn't read.

ghost use Rattle.std.specs.Prelude.{◌≡◌};
ghost use Rattle.delta_log.specs.declared.error.DeltaError.TheVariants.{Memory};

use lake_basics::ReadError;
use std::alloc::{AllocError, AllocFailed};
use table_history::{Feature, LimitKind};
use thiserror::Error;

/// What is wrong with a line by itself.
#[derive(Clone, Copy)]
pub enum LineFault {
    /// It isn't in the grammar.
    Malformed,
}

/// What is wrong with a line behind other lines.
#[derive(Clone, Copy)]
pub enum Fault {
    Malformed,
    Unsupported(Feature),
    Limit(LimitKind),
    DoublePath,
}

pub(crate) const MALFORMED: ReadError<Fault> = ReadError::Fault(Fault::Malformed);

/// Why a commit wasn't read: its first line at fault, counted from 1, with its fault. Line 0 is the
/// commit as a whole, over the table before it.
#[derive(Clone, Copy, Debug, PartialEq, Eq, Error)]
pub enum DeltaError {
    #[error("out of memory")]
    Memory,
    /// The line isn't in the grammar of Delta commits.
    #[error("line {line} is malformed")]
    Malformed { line: u64 },
    /// A second action on one path.
    #[error("line {line} acts again on a path")]
    DoublePath { line: u64 },
    /// The line shows a feature that isn't supported.
    #[error("line {line} shows {feature:?}, which isn't supported")]
    Unsupported { feature: Feature, line: u64 },
    /// A number is passed.
    #[error("more {which:?} than are read")]
    Limit { which: LimitKind },
}

impl From<AllocError> for DeltaError {
    ghost from_gives = { λ _ e. e ≡ Memory };

    fn from(_error: AllocError) -> DeltaError {
        DeltaError::Memory
    }
}

impl<T: Drop> From<AllocFailed<T>> for DeltaError {
    ghost from_gives = { λ _ e. e ≡ Memory };

    fn from(_error: AllocFailed<T>) -> DeltaError {
        DeltaError::Memory
    }
}
