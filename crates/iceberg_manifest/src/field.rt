//! What reading a field gives.

use crate::error::Flaw;
use lake_basics::ReadError;

/// What is read of Avro values, or their flaw, or want of memory.
pub type Reading<T> = Result<T, ReadError<Flaw>>;

/// What the values of a field are. A whole number is an int or a long.
#[derive(Clone, Copy, Debug, Drop, PartialEq, Eq)]
pub enum FieldKind {
    Boolean,
    Whole,
    Text,
}
