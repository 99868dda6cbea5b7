//! Why a file of the timeline wasn't read.

ghost use Rattle.std.specs.Prelude.{◌≡◌};
ghost use Rattle.hudi_names.specs.declared.error.HudiError.TheVariants.{Memory};

use std::alloc::{AllocError, AllocFailed};
use table_history::{Feature, LimitKind};
use thiserror::Error;

/// Why a file wasn't read. Lines count from 1, and 0 is the whole file.
#[derive(Clone, Copy, Debug, PartialEq, Eq, Error)]
pub enum HudiError {
    #[error("out of memory")]
    Memory,
    #[error("line {line} is malformed")]
    Malformed { line: u64 },
    #[error("{feature:?} isn't supported")]
    Unsupported { feature: Feature },
    #[error("more {which:?} than are read")]
    Limit { which: LimitKind },
}

/// A file as a whole isn't in its grammar.
pub const MALFORMED: HudiError = HudiError::Malformed { line: 0 };

impl From<AllocError> for HudiError {
    ghost from_gives = { λ _ e. e ≡ Memory };

    fn from(_e: AllocError) -> HudiError {
        HudiError::Memory
    }
}

impl<T: Drop> From<AllocFailed<T>> for HudiError {
    ghost from_gives = { λ _ e. e ≡ Memory };

    fn from(_e: AllocFailed<T>) -> HudiError {
        HudiError::Memory
    }
}
