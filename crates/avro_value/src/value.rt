//! Avro values.

use lake_basics::{Blob, Text};

/// A value of an Avro type. Floats are kept as their bytes, the lowest first.
#[derive(Debug, Drop)]
pub enum Value {
    Null,
    Boolean(bool),
    Int(i32),
    Long(i64),
    Float([u8; 4]),
    Double([u8; 8]),
    Bytes(Blob),
    Text(Text),
    Fixed(Blob),
    /// The index of a symbol.
    Enum(u32),
    Array(Vec<Value>),
    Map(Vec<(Text, Value)>),
    /// The index of a branch, and the value of that branch.
    Union(u32, Box<Value>),
    /// The index of a branch that is null. It stands for the same as `Union` with `Null`.
    NullBranch(u32),
    /// A record's values, in the order of its fields.
    Fields(Vec<Value>),
}
