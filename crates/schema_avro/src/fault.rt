//! Why an Avro type was not read.

use lake_basics::ReadError;

/// What is wrong with an Avro type: it is none of a column.
#[derive(Clone, Copy)]
pub(crate) enum TypeFault {
    NoRow,
}

pub(crate) const NO_ROW: ReadError<TypeFault> = ReadError::Fault(TypeFault::NoRow);
