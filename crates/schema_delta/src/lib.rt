//! A schema in Delta's spelling, read and written (Delta Lake protocol, "Schema Serialization Format").
#![tactic(auto)]

mod reading;
mod word;
mod writing;

pub use reading::from_delta;
pub use writing::to_delta;
