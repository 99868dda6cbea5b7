//! Iceberg's manifests and manifest lists, read (Apache Iceberg table specification, "Manifests" and
//! "Manifest Lists"): fields are found by their ids.
#![tactic(auto)]

mod field;
mod list;
mod partition;
mod plan;
mod reading;
mod scan;
mod value;

pub use reading::{container_error, entries_of, read_list, read_manifest};
