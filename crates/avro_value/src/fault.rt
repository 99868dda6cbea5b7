//! What is wrong with an item, and where.
ghost use Rattle.std.specs.Prelude.{◌≡◌};
ghost use Rattle.lake_basics.specs.declared.outcome.ReadError.TheVariants.{Fault as IsFault};

use lake_basics::ReadError;

/// What is wrong with an item.
#[derive(Clone, Copy, Debug, PartialEq, Eq)]
pub enum Fault {
    /// The input ends inside the item.
    Short,
    /// A number has more than ten bytes or is out of range.
    BadLong,
    /// A length or a count is negative or too great, or a block's byte size isn't its size.
    BadLength,
    /// There is no such symbol or branch.
    BadIndex,
    /// Bytes of text aren't UTF-8.
    BadText,
    /// A byte other than 0 and 1.
    BadBool,
    /// There are too many values.
    Limit,
}

/// The first item that can't be read, by the number of bytes from its first byte to the end.
#[derive(Clone, Copy, Debug, PartialEq, Eq)]
pub struct FaultAt {
    pub fault: Fault,
    pub left: usize,
}

impl From<FaultAt> for ReadError<FaultAt> {
    ghost from_gives = { λ f e. e ≡ IsFault f };

    fn from(fault: FaultAt) -> ReadError<FaultAt> {
        ReadError::Fault(fault)
    }
}
