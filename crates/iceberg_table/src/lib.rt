//! An Iceberg table in its folder: which versions of its metadata are there, and the table that a
//! snapshot's manifest list and manifests stand for.
#![tactic(auto)]

mod counted;
mod error;
mod file;
mod folder;
mod list;
mod manifest;
mod pieces;
mod plan;
mod rows;
mod snapshot;
mod version;

pub use counted::Counted;
pub use error::{Fault, IcebergError};
pub use file::metadata_file_path;
pub use folder::{METADATA_FOLDER, MetadataNames, list_metadata};
pub use list::{ManifestFile, read_list_file};
pub use manifest::{Manifest, read_manifest_file};
pub use plan::{Plan, names_of, part_columns};
pub use snapshot::{SnapshotTable, plan_snapshot, read_snapshot, read_table};
pub use version::{read_version, version_path};
