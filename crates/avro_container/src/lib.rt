//! Avro object container files, by the Apache Avro specification, "Object Container Files".
#![tactic(auto)]

pub mod blocks;
mod container;
mod error;
pub mod fault;
pub mod header;
mod meta;
mod write;

pub use container::{Container, Meta, Values, read_container};
pub use error::ContainerError;
pub use write::{write_container, write_encoded};
