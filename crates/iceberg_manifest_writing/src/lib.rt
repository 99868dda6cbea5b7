//! Iceberg's manifests and manifest lists, written (Apache Iceberg table specification, "Manifests" and
//! "Manifest Lists"). What is written reads back.
#![tactic(auto)]

mod avro_name;
mod container;
mod entry_writing;
mod list_writing;
mod manifest_writing;
mod row_entry;
mod schema;

pub use list_writing::list_bytes;
pub use manifest_writing::manifest_bytes;
pub use row_entry::{EntryStatus, RowEntry};
