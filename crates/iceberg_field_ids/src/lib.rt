//! The field ids that are given to a schema's columns: a known column path keeps its id, and a new one takes
//! the next (Apache Iceberg specification, "Schemas and Data Types").
#![tactic(auto)]

mod ids;
mod wide;

pub use ids::{KnownIds, to_iceberg};
