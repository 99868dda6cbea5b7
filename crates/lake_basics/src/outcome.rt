//! Why something wasn't read.
ghost use Rattle.std.specs.Prelude.{◌≡◌};
ghost use Rattle.lake_basics.specs.declared.outcome.ReadError.TheVariants.{Memory};

use std::alloc::{AllocError, AllocFailed};

/// Why a part of an input wasn't read: memory ran out, or a fault `F` is in it.
#[derive(Clone, Copy, Debug, Drop, PartialEq, Eq)]
pub enum ReadError<F> {
    Memory,
    Fault(F),
}

impl<F> From<AllocError> for ReadError<F> {
    ghost from_gives = { λ _ e. e ≡ Memory };

    fn from(_error: AllocError) -> ReadError<F> {
        ReadError::Memory
    }
}

impl<F, T: Drop> From<AllocFailed<T>> for ReadError<F> {
    ghost from_gives = { λ _ e. e ≡ Memory };

    fn from(_error: AllocFailed<T>) -> ReadError<F> {
        ReadError::Memory
    }
}
