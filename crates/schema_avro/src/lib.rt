//! The Avro schema that Hudi keeps of a table, read and written (Apache Avro specification, "Schema
//! Declaration" and "Logical Types").
#![tactic(auto)]

mod fault;
mod names;
mod reading;
mod writing;

pub use reading::{from_avro, read_avro};
pub use writing::to_avro;
