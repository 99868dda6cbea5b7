//! Why a text has no outline.

use lake_basics::ReadError;

/// What is wrong with the text of a schema.
#[derive(Clone, Copy, Debug, PartialEq, Eq)]
pub enum OutlineFault {
    /// It isn't in the grammar, or two fields of one struct have one name.
    Malformed,
}

pub(crate) const MALFORMED: ReadError<OutlineFault> = ReadError::Fault(OutlineFault::Malformed);
