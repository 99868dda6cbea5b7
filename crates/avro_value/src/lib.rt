//! Avro values and their binary encoding, by the Apache Avro specification, "Binary Encoding".
#![tactic(auto)]

mod api;
mod bare;
mod error;
pub mod fault;
pub mod input;
pub mod item;
pub mod leaf;
mod reader;
mod value;
mod writer;

pub use api::{MAX_VALUES, decode, decode_within, encode, fault_error, read_long};
pub use avro_schema::{Field, Schema, SchemaError, Shape};
pub use bare::is_bare;
pub use error::AvroError;
pub use reader::value as read_value;
pub use value::Value;
pub use writer::{
    push_blob, push_boolean, push_bytes, push_int, push_long, push_natural, push_text, push_value,
    push_values, put_long,
};
