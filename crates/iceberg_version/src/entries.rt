//! The entries of new manifests.

ghost use Rattle.std.specs.Prelude.{◌≡◌, ◌<◌, ◌^◌, List, ℕ};
ghost use Rattle.iceberg_manifest_writing.specs.RowEntries.{entry_in};
ghost use Rattle.iceberg_version.specs.Manifests.{added_entry as added_entry_of, deleted_entry as deleted_entry_of, existing_entry as existing_entry_of};

use file_links::Held;
use iceberg_manifest_writing::{EntryStatus, RowEntry};
use table_history::FileRow;

/// The entry of a row that stays in a manifest which is written anew.
pub(crate) fn existing_entry<'a>(held: &'a Held) -> RowEntry<'a>
    requires { held.now.born < 2 ^ 63 }
    ensures { (front : List ℕ) → entry_in front result ≡ existing_entry_of front held.now }
{
    let born = Some(held.born as i64);
    RowEntry {
        status: EntryStatus::Existing,
        snapshot: born,
        sequence: born,
        row: &held.row,
    }
}

/// The entry of a row that a version adds.
pub(crate) fn added_entry<'a>(version: u32, row: &'a FileRow) -> RowEntry<'a>
    ensures { (front : List ℕ) → entry_in front result ≡ added_entry_of front version row.now }
{
    RowEntry {
        status: EntryStatus::Added,
        snapshot: Some(i64::from(version)),
        sequence: None,
        row,
    }
}

/// The entry of a row that a version removes.
pub(crate) fn deleted_entry<'a>(version: u32, held: &'a Held) -> RowEntry<'a>
    requires { held.now.born < 2 ^ 63 }
    ensures { (front : List ℕ) → entry_in front result
        ≡ deleted_entry_of front version held.now }
{
    RowEntry {
        status: EntryStatus::Deleted,
        snapshot: Some(i64::from(version)),
        sequence: Some(held.born as i64),
        row: &held.row,
    }
}
