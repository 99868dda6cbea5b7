//! The rows of new manifests in their list.

ghost use Rattle.std.specs.Prelude.{◌≡◌, ◌≤◌, ◌∷◌, ◌++◌, [], ℕ, ℤ, IfOk, List, Some, length, map};
ghost use Rattle.iceberg_manifest.specs.Entry.{is_live};
ghost use Rattle.iceberg_manifest_writing.specs.RowEntries.{entry_in, status_number};
ghost use Rattle.lake_basics.specs.declared.limits.TheConstants.{MAX_LIVE_FILES};
ghost use Rattle.iceberg_version.specs.Manifests.{IsInfoOf, IsLeast, IsLeastOf, files_of as count_of_files, if_any, live_sequences, records_of as count_of_records, sequence_in as sequence_of};

use crate::names::{file_at, manifest_path};
use iceberg_manifest::ManifestInfo;
use iceberg_manifest_writing::{EntryStatus, RowEntry};
use lake_basics::{Blob, Text};
use std::alloc::{AllocError, Global};

const MAX_LONG: u64 = i64::MAX as u64;

/// How many entries are of this status.
fn files_of(entries: &[RowEntry<'_>], status: EntryStatus) -> i32
    requires { length entries.now ≤ MAX_LIVE_FILES }
    ensures { (front : List ℕ) → result
        ≡ count_of_files (status_number status) (map (entry_in front) entries.now) }
{
    let mut count: u32 = 0;
    for entry in entries {
        if entry.status == status {
            count += 1;
        }
    }
    count as i32
}

/// How many records the files of this status have, or the greatest whole number where there are
/// more.
fn records_of(entries: &[RowEntry<'_>], status: EntryStatus) -> i64
    ensures { (front : List ℕ) → result
        ≡ count_of_records (status_number status) (map (entry_in front) entries.now) }
{
    let mut total: u64 = 0;
    for entry in entries {
        if entry.status == status {
            let row = entry.row;
            total = (total + row.count).min(MAX_LONG);
        }
    }
    total as i64
}

/// The sequence number of an entry in a manifest of this version.
fn sequence_in(entry: &RowEntry<'_>, version: u32) -> i64
    ensures { (front : List ℕ) → result ≡ sequence_of version (entry_in front entry.now) }
{
    entry.sequence.unwrap_or(i64::from(version))
}

/// The least of some numbers and of one more, where `least` is that of the numbers if there is any.
fn least_with(any: bool, least: i64, number: i64) -> i64
    ensures { (numbers : List ℤ) → IsLeastOf numbers (if_any any least)
        → IsLeastOf (numbers ++ number ∷ []) (Some result) }
{
    if !any {
        return number;
    }
    if number < least { number } else { least }
}

/// Whether the entry is live.
fn is_live(entry: &RowEntry<'_>) -> bool
    ensures { (front : List ℕ) → result ≡ is_live (entry_in front entry.now) }
{
    entry.status != EntryStatus::Deleted
}

/// The least sequence number of the live entries, and the version where none is live.
fn least_sequence(entries: &[RowEntry<'_>], version: u32) -> i64
    ensures { (front : List ℕ) → IsLeast
        version
        (live_sequences version (map (entry_in front) entries.now))
        result }
{
    let mut any = false;
    let mut least = i64::from(version);
    for entry in entries {
        if is_live(entry) {
            least = least_with(any, least, sequence_in(entry, version));
            any = true;
        }
    }
    least
}

/// The row in its list of a version's new manifest of this number, which has these entries and
/// these bytes.
pub fn info_of(
    alloc: Global,
    front: &Text,
    version: u32,
    number: u32,
    entries: &[RowEntry<'_>],
    bytes: &Blob,
    place: u32,
) -> Result<ManifestInfo, AllocError>
    requires { length entries.now ≤ MAX_LIVE_FILES }
    ensures { IfOk result
        (IsInfoOf front.now version number (map (entry_in front.now) entries.now) bytes.now place) }
{
    let path = manifest_path(alloc, version, number)?;
    Ok(ManifestInfo {
        manifest_path: file_at(alloc, front, path.as_str())?,
        manifest_length: bytes.as_slice().len() as i64,
        partition_spec_id: 0,
        content: 0,
        sequence_number: i64::from(version),
        min_sequence_number: least_sequence(entries, version),
        added_snapshot_id: i64::from(version),
        added_files_count: files_of(entries, EntryStatus::Added),
        existing_files_count: files_of(entries, EntryStatus::Existing),
        deleted_files_count: files_of(entries, EntryStatus::Deleted),
        added_rows_count: records_of(entries, EntryStatus::Added),
        existing_rows_count: records_of(entries, EntryStatus::Existing),
        deleted_rows_count: records_of(entries, EntryStatus::Deleted),
        place,
    })
}
