//! Why a value could not be decoded.
ghost use Rattle.std.specs.Prelude.{◌≡◌};
ghost use Rattle.avro_value.specs.declared.error.AvroError.TheVariants.{Memory};

use std::alloc::AllocError;

/// Each place is that of the first item at fault, in bytes from the front of the input.
#[derive(Clone, Copy, Debug, PartialEq, Eq, thiserror::Error)]
pub enum AvroError {
    #[error("out of memory")]
    Memory,
    /// The input ends inside the item.
    #[error("the input ends inside the item at {at}")]
    Short { at: usize },
    /// The number has more than ten bytes or is out of 64 bits, or for an int out of 32 bits.
    #[error("the number at {at} is out of range")]
    BadLong { at: usize },
    /// A negative length, a count without an absolute value of 64 bits, or a block's byte size that
    /// isn't its size.
    #[error("the length at {at} is none")]
    BadLength { at: usize },
    /// An index that isn't under the number of symbols or branches.
    #[error("the index at {at} is out of range")]
    BadIndex { at: usize },
    /// Bytes that aren't UTF-8.
    #[error("the text at {at} is not UTF-8")]
    BadText { at: usize },
    /// A byte other than 0 and 1.
    #[error("the boolean at {at} is neither 0 nor 1")]
    BadBool { at: usize },
    /// More than 16,777,216 values would be made.
    #[error("the value at {at} passes the limit of values")]
    Limit { at: usize },
}

impl From<AllocError> for AvroError {
    ghost from_gives = { λ _ e. e ≡ Memory };

    fn from(_error: AllocError) -> AvroError {
        AvroError::Memory
    }
}
