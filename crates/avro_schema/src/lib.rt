//! Avro schemas and their JSON, by the Apache Avro specification, "Schema Declaration".
#![tactic(auto)]

mod copy;
mod definitions;
mod distinct;
mod error;
mod member;
mod names;
mod schema;
mod size;
mod text;
mod types;
mod write;

pub use error::SchemaError;
pub use schema::{Field, Schema, Shape};
