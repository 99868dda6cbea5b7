//! A manifest and a manifest list that are written.
ghost use Rattle.std.specs.Prelude.{◌≡◌, ◌≤◌, ◌∷◌, [], ℕ, IfOk, List, length, map, pos};
ghost use Rattle.std.specs.List.{AllByRecursion};
ghost use Rattle.iceberg_manifest.specs.ManifestWriting.{HasValues};
ghost use Rattle.iceberg_manifest_writing.specs.RowEntries.{entry_in};
ghost use Rattle.iceberg_rows.specs.declared.samples.TheConstants.{COLUMNS as columns};

use crate::showing::show_bytes;
use iceberg_manifest::{ManifestError, ManifestInfo, PartColumn};
use iceberg_manifest_writing::{EntryStatus, RowEntry, list_bytes, manifest_bytes};
use lake_basics::{Blob, Items, Text};
use partition_map::PartKind;
use std::alloc::{AllocError, Global};
use table_history::{FileRow, PartValue};

const COLUMNS: [PartColumn; 2] = [
    PartColumn {
        field_id: 1000,
        kind: PartKind::Date,
    },
    PartColumn {
        field_id: 1001,
        kind: PartKind::Text,
    },
];

/// A file of the table, of a day and a country.
fn row(
    alloc: Global,
    path: &str,
    day: PartValue,
    country: PartValue,
    count: u32,
    size: u32,
) -> Result<FileRow, AllocError>
    ensures { IfOk result (λ row. row.values ≡ day ∷ country ∷ []) }
{
    Ok(FileRow {
        path: Text::from_str(alloc, path)?,
        values: Items::from_vec(vec![in alloc; day, country]?),
        count: u64::from(count),
        size: u64::from(size),
    })
}

/// The entry of a file that snapshot 30 deleted.
fn deleted(row: &FileRow) -> RowEntry<'_>
    ensures { result.row.now ≡ row.now }
{
    RowEntry {
        status: EntryStatus::Deleted,
        snapshot: Some(30),
        sequence: Some(2),
        row,
    }
}

/// The entry of a file that snapshot 20 added.
fn existing(row: &FileRow) -> RowEntry<'_>
    ensures { result.row.now ≡ row.now }
{
    RowEntry {
        status: EntryStatus::Existing,
        snapshot: Some(20),
        sequence: Some(2),
        row,
    }
}

/// The entry of a file that snapshot 30 added.
fn added(row: &FileRow) -> RowEntry<'_>
    ensures { result.row.now ≡ row.now }
{
    RowEntry {
        status: EntryStatus::Added,
        snapshot: Some(30),
        sequence: None,
        row,
    }
}

/// A manifest of these entries, of the partition columns `day` and `country`.
fn manifest_of(alloc: Global, entries: &[RowEntry<'_>]) -> Result<Blob, ManifestError>
    requires few { length entries.now ≤ 3 }
    requires values { (front : List ℕ)
        → AllByRecursion (HasValues columns) (map (entry_in front) entries.now) }
{
    let names = [
        Text::from_str(alloc, "day")?,
        Text::from_str(alloc, "country")?,
    ];
    let front = Text::from_str(alloc, "/w/")?;
    let schema = Text::from_str(alloc, "{\"type\":\"struct\"}")?;
    let spec = Text::from_str(alloc, "[{\"field-id\":1000}]")?;
    manifest_bytes(alloc, &front, entries, &COLUMNS, &names, &schema, 7, &spec)
}

/// A manifest of a deleted, an existing and an added file.
fn manifest(alloc: Global) -> Result<Blob, ManifestError> {
    let empty = PartValue::Text(Text::from_str(alloc, "")?);
    let germany = PartValue::Text(Text::from_str(alloc, "DE")?);
    let first = row(alloc, "c.parquet", PartValue::Date(1), empty, 1, 10)?;
    let second = row(alloc, "b.parquet", PartValue::Null, germany, 5, 200)?;
    let third = row(
        alloc,
        "a.parquet",
        PartValue::Date(-1),
        PartValue::Null,
        4,
        100,
    )?;
    manifest_of(alloc, &[deleted(&first), existing(&second), added(&third)])
}

/// The row of a manifest that snapshot 30 added with sequence number 3.
fn info(alloc: Global) -> Result<ManifestInfo, AllocError>
    ensures place { IfOk result (λ info. info.place ≡ 0) }
    ensures content { IfOk result (λ info. info.content ≡ pos 0) }
{
    Ok(ManifestInfo {
        manifest_path: Text::from_str(alloc, "/w/metadata/m1.avro")?,
        manifest_length: 965,
        partition_spec_id: 0,
        content: 0,
        sequence_number: 3,
        min_sequence_number: 2,
        added_snapshot_id: 30,
        added_files_count: 1,
        existing_files_count: 1,
        deleted_files_count: 1,
        added_rows_count: 4,
        existing_rows_count: 5,
        deleted_rows_count: 1,
        place: 0,
    })
}

/// The list of one manifest, of snapshot 30, whose parent is 20.
fn list(alloc: Global) -> Result<Blob, ManifestError> {
    let infos = [info(alloc)?];
    list_bytes(alloc, &infos, 30, Some(20), 3)
}

/// Adds the bytes of the manifest of three files, or of the list of one manifest.
pub(crate) fn tell_written(
    alloc: Global,
    what: &str,
    shown: &mut String,
) -> Result<(), AllocError> {
    let written = match what {
        "manifest" => manifest(alloc),
        _ => list(alloc),
    };
    match written {
        Ok(bytes) => show_bytes(bytes.as_slice(), shown),
        Err(error) => write!(shown, "{error:?}"),
    }
}
