//! The steps of rows of Iceberg tables: their metadata and manifests, read and written, and a table
//! as a source and as a target.
#![tactic(auto)]

mod containers;
mod interpreter;
mod manifests;
mod metadata;
mod samples;
mod showing;
mod tables;

pub use interpreter::IcebergSteps;
