//! Rows of manifest lists.

use lake_basics::{Items, Text};

/// A row of a manifest list ("Manifest Lists"): the manifest's path and length in bytes, the id of
/// its partition spec, its content (0 data, 1 deletes), the sequence number at which it was added and
/// the least one of its live files, the snapshot that added it, how many files and records of each
/// status it has, and the row's place in the list, from 0.
#[derive(Debug, PartialEq, Eq, Drop)]
pub struct ManifestInfo {
    pub manifest_path: Text,
    pub manifest_length: i64,
    pub partition_spec_id: i32,
    pub content: i32,
    pub sequence_number: i64,
    pub min_sequence_number: i64,
    pub added_snapshot_id: i64,
    pub added_files_count: i32,
    pub existing_files_count: i32,
    pub deleted_files_count: i32,
    pub added_rows_count: i64,
    pub existing_rows_count: i64,
    pub deleted_rows_count: i64,
    pub place: u32,
}

/// Rows in the order of their list.
pub type Infos = Items<ManifestInfo>;
