//! The rows of a manifest that are live.

ghost use Rattle.std.specs.Prelude.{◌≡◌, ◌≤◌, List, ◌⊎◌, Ok, IfOk, IfErr, MatchResult, drop, length};
ghost use Rattle.lake_basics.specs.Outcome.{Gives, GivesUnlessMemory};
ghost use Rattle.iceberg_manifest.specs.Errors.{is_memory, error_of};
ghost use Rattle.iceberg_live.specs.LiveRows.{AreLiveRows, IsFirstFault, live_rows_of};
ghost use Rattle.iceberg_metadata.specs.Location.{front_of};
ghost use Rattle.iceberg_live.specs.Live.{path_in_table as path_in_table_of, row_path as row_path_of, inherited as inherited_from, live_row as live_row_of, rows_in};

use iceberg_manifest::{Entries, Entry, Fault, ManifestError, ManifestInfo};
use iceberg_metadata::{after_front, location_front};
use lake_basics::limits::MAX_PATH_BYTES;
use lake_basics::{Items, ReadError, Text};
use std::alloc::Global;
use table_history::{FileRow, LimitKind, path_form_of_any_length};

/// A live row of a manifest: the file, and the snapshot and the data sequence number of the commit
/// that added it.
#[derive(Debug, PartialEq, Eq, Drop)]
pub struct LiveRow {
    pub row: FileRow,
    pub snapshot: i64,
    pub sequence: i64,
}

/// Live rows in the order of their entries.
pub type Rows = Items<LiveRow>;

const MALFORMED: ReadError<Fault> = ReadError::Fault(Fault::Malformed);

/// The path that stands behind so many bytes.
fn path_in_table(alloc: Global, path: &str, front: usize) -> Result<Text, ReadError<Fault>>
    requires { front ≤ length path.now }
    ensures { Gives (λ p. p) result (path_in_table_of (drop front path.now)) }
{
    let rest = &path.as_bytes()[front..];
    if !path_form_of_any_length(rest) {
        return Err(MALFORMED);
    }
    if rest.len() as u64 > MAX_PATH_BYTES {
        return Err(ReadError::Fault(Fault::LongPath));
    }
    Ok(Text::from_str(alloc, &path[front..])?)
}

fn row_path(alloc: Global, front: &[u8], path: &Text) -> Result<Text, ReadError<Fault>>
    ensures { Gives (λ p. p) result (row_path_of front.now path.now) }
{
    match after_front(front, path.as_bytes()) {
        None => Err(ReadError::Fault(Fault::OutsideTable)),
        Some(_) => path_in_table(alloc, path.as_str(), front.len()),
    }
}

/// The number of an entry. That of an added one may be null, and is then the one of the manifest.
fn inherited(status: u8, number: Option<i64>, from: i64) -> Result<i64, ReadError<Fault>>
    ensures { Gives (λ n. n) result (inherited_from status number from) }
{
    match number {
        Some(number) => Ok(number),
        None => {
            if status == 0 {
                Err(MALFORMED)
            } else {
                Ok(from)
            }
        }
    }
}

/// The row of a live entry.
#[tactic(auto, unfolding(crate::specs::Live::live_row))]
fn live_row(
    alloc: Global,
    front: &[u8],
    info: &ManifestInfo,
    entry: Entry,
) -> Result<LiveRow, ReadError<Fault>>
    ensures { Gives (λ r. r) result (live_row_of front.now info.now entry) }
{
    let snapshot = inherited(entry.status, entry.snapshot, info.added_snapshot_id)?;
    let sequence = inherited(entry.status, entry.sequence, info.sequence_number)?;
    inherited(entry.status, entry.file_sequence, info.sequence_number)?;
    let path = row_path(alloc, front, &entry.path)?;
    let row = FileRow {
        path,
        values: entry.values,
        count: entry.count,
        size: entry.size,
    };
    Ok(LiveRow {
        row,
        snapshot,
        sequence,
    })
}

fn rows(
    alloc: Global,
    front: &[u8],
    info: &ManifestInfo,
    entries: Vec<Entry>,
) -> Result<Vec<LiveRow>, ReadError<Fault>>
    ensures { Gives (λ rs. rs.items) result (rows_in front.now info.now entries.items) }
{
    let mut rows = Vec::new(alloc);
    for entry in entries {
        if entry.status < 2 {
            rows.push(live_row(alloc, front, info, entry)?)?;
        }
    }
    Ok(rows)
}

fn error(fault: Fault) -> ManifestError
    ensures { result ≡ error_of fault }
{
    match fault {
        Fault::Malformed => ManifestError::Malformed,
        Fault::OutsideTable => ManifestError::OutsideTable,
        Fault::LongPath => ManifestError::Limit {
            which: LimitKind::Path,
        },
    }
}

fn found_rows(
    alloc: Global,
    entries: Entries,
    info: &ManifestInfo,
    location: &str,
) -> Result<Vec<LiveRow>, ReadError<Fault>>
    ensures { Gives (λ rs. rs.items) result (rows_in (front_of location.now) info.now entries) }
{
    let front = location_front(alloc, location)?;
    rows(alloc, front.as_slice(), info, entries.into_vec())
}

fn answer(
    alloc: Global,
    entries: Entries,
    info: &ManifestInfo,
    location: &str,
) -> Result<Rows, ManifestError>
    ensures { GivesUnlessMemory is_memory (λ rows. rows) result
        (live_rows_of location.now info.now entries) }
{
    match found_rows(alloc, entries, info, location) {
        Ok(rows) => Ok(Items::from_vec(rows)),
        Err(ReadError::Memory) => Err(ManifestError::Memory),
        Err(ReadError::Fault(fault)) => Err(error(fault)),
    }
}

/// The rows of the live entries of a manifest, in their order (Iceberg specification, "Scan
/// Planning"): those of status 0 or 1, whose paths are relative to the table's location. An added
/// entry takes its null numbers from the manifest's row in its list. The first live entry at fault is
/// refused, as `Malformed` where it is an existing one with a null number or its path in the table is
/// none, as `OutsideTable` where its path doesn't begin with the location and `/`, and as `Limit`
/// where its path in the table is too long.
pub fn live_rows(
    alloc: Global,
    entries: Entries,
    info: &ManifestInfo,
    location: &str,
) -> Result<Rows, ManifestError>
    // What is found are the rows of the live entries.
    ensures found { IfOk result (λ rows. AreLiveRows location.now info.now entries rows) }
    // Where each live entry has a row, these are found, unless memory runs out.
    ensures only { (rows : List LiveRow) → AreLiveRows location.now info.now entries rows
        → MatchResult result (λ found. found ≡ rows) (λ e. e ≡ ManifestError.Memory) }
    // What is refused is the first live entry at fault.
    ensures refused { IfErr result (λ e. (e ≡ ManifestError.Memory)
        ⊎ IsFirstFault location.now info.now entries e) }
    // The same as a function.
    ensures exact { GivesUnlessMemory is_memory (λ rows. rows) result
        (live_rows_of location.now info.now entries) }
{
    answer(alloc, entries, info, location)
}
