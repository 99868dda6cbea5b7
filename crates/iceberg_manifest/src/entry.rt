//! Entries of manifests.

use lake_basics::{Items, Text};
use std::marker::Model;
use table_history::Values;

/// An entry of a manifest ("Manifest Entry Fields"): its status (0 existing, 1 added, 2 deleted), the
/// snapshot that added or deleted the file, its data and file sequence numbers, the file's path as it
/// is written, the values of the partition columns in their order, how many records the file has,
/// and its size in bytes.
#[derive(Debug, PartialEq, Eq, Drop)]
pub struct Entry {
    pub status: u8,
    pub snapshot: Option<i64>,
    pub sequence: Option<i64>,
    pub file_sequence: Option<i64>,
    pub path: Text,
    pub values: Values,
    pub count: u64,
    pub size: u64,
}

impl Model for Entry {
    ghost use Rattle.std.specs.Prelude.{◌<◌, ◌^◌};
    ghost use Rattle.iceberg_manifest.specs.Entry.{EntryData};

    ghost Value = { EntryData };

    ghost view = { λ e. record {
      status = e.status;
      snapshot = e.snapshot;
      sequence = e.sequence;
      file_sequence = e.file_sequence;
      path = e.path;
      values = e.values;
      count = e.count;
      size = e.size;
    } };

    ghost inverse = { λ e. record {
      status = e.status;
      snapshot = e.snapshot;
      sequence = e.sequence;
      file_sequence = e.file_sequence;
      path = e.path;
      values = e.values;
      count = e.count;
      size = e.size;
    } };

    ghost invariant = { λ e. (e.status < 3) × (e.count < 2 ^ 63) × (e.size < 2 ^ 63) };
}

/// Entries in the order of their manifest.
pub type Entries = Items<Entry>;
