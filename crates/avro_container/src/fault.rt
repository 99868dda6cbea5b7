//! What is wrong with bytes that are no container, and where.
ghost use Rattle.std.specs.Prelude.{◌≡◌};
ghost use Rattle.lake_basics.specs.declared.outcome.ReadError.TheVariants.{Fault as IsFault};

use avro_value::fault::Fault;
use lake_basics::ReadError;

/// What is wrong.
#[derive(Clone, Copy, Debug, PartialEq, Eq)]
pub enum Flaw {
    /// The input ends inside the header or a block.
    Short,
    BadMagic,
    /// The metadata isn't a map of bytes, or has too many values.
    BadMeta,
    BadSchema,
    /// The codec isn't `null`.
    Codec,
    /// A count or a size is no number from 0 on, or the objects leave bytes over.
    BadBlock,
    /// An object doesn't decode.
    Value(Fault),
    BadSync,
}

/// The first flaw, by the number of bytes from its place to the end.
#[derive(Clone, Copy, Debug, PartialEq, Eq)]
pub struct ContainerFault {
    pub flaw: Flaw,
    pub left: usize,
}

impl From<ContainerFault> for ReadError<ContainerFault> {
    ghost from_gives = { λ f e. e ≡ IsFault f };

    fn from(fault: ContainerFault) -> ReadError<ContainerFault> {
        ReadError::Fault(fault)
    }
}
