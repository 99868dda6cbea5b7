//! Entries that are written, of rows of a table.

ghost use Rattle.std.specs.Prelude.{◌≡◌, ◌<◌};
ghost use Rattle.iceberg_manifest_writing.specs.RowEntries.{status_number};

use table_history::FileRow;

/// What a manifest says of a file ("Manifest Entry Fields", `status`).
#[derive(Clone, Copy, Debug, PartialEq, Eq)]
pub enum EntryStatus {
    /// An earlier snapshot added it, and it stays.
    Existing,
    /// The manifest's snapshot adds it.
    Added,
    /// The manifest's snapshot deletes it.
    Deleted,
}

impl EntryStatus {
    /// The number that it is written as.
    pub(crate) fn number(self) -> u64
        ensures is { result ≡ status_number self }
        ensures known { result < 3 }
    {
        match self {
            EntryStatus::Existing => 0,
            EntryStatus::Added => 1,
            EntryStatus::Deleted => 2,
        }
    }
}

/// An entry that is written, of a row of the table ("Manifest Entry Fields"): its status, the
/// snapshot that added or deleted the file, and the sequence number that stands for its data and
/// for its file. The path that is written has the front of the table's location before the row's.
#[derive(Clone, Copy)]
pub struct RowEntry<'a> {
    pub status: EntryStatus,
    pub snapshot: Option<i64>,
    pub sequence: Option<i64>,
    pub row: &'a FileRow,
}
