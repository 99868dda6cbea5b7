//! The text of an Iceberg table's metadata, read (Apache Iceberg specification, "Table Metadata and
//! Snapshots"), and the metadata judged.
#![tactic(auto)]

mod consistent;
mod members;
mod reading;

pub use reading::read_metadata;
