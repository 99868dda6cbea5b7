//! The text of an Iceberg table's metadata, written (Apache Iceberg specification, "Table Metadata and
//! Snapshots"). It reads back as the same metadata.
#![tactic(auto)]

mod writing;

pub use writing::metadata_text;
