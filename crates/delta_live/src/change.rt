//! The change that the file actions of a commit make of the rows before it.

ghost use Rattle.std.specs.Prelude.{◌↔◌, ◌<◌, IfOk, IfErr, IsTrue, All, length};
ghost use Rattle.std.specs.List.{IsDistinct};
ghost use Rattle.std.specs.Str.{bytes_eq};
ghost use Rattle.table_history.specs.Rows.{HasDistinctPaths};
ghost use Rattle.delta_log.specs.Commit.{file_paths};
ghost use Rattle.delta_log.specs.Sound.{IsSoundFile, HaveDistinctNames};
ghost use Rattle.delta_live.specs.RowSteps.{rows_behind, IsChangeOver, IsRefusalOver};

use crate::between::{change_between, held_count};
use crate::rows::rows_of;
use crate::texts::judged_values;
use delta_log::{DeltaError, FileAction};
use lake_basics::Text;
use lake_basics::limits::{MAX_LIVE_FILES, MAX_PARTITION_COLUMNS};
use partition_map::PartKind;
use std::alloc::Global;
use table_history::{Change, FileRow, FileRows, LimitKind, Schema};

const MANY_COLUMNS: DeltaError = DeltaError::Limit {
    which: LimitKind::PartitionColumns,
};

const MANY_FILES: DeltaError = DeltaError::Limit {
    which: LimitKind::LiveFiles,
};

/// Whether there are too many rows behind the actions, where these are the rows that they add. The
/// rows that the actions replace are counted only where that may tell.
fn has_many_files(before: &FileRows, files: &[FileAction], rows: &[FileRow]) -> bool
    requires distinct { IsDistinct bytes_eq (file_paths files.now) }
    ensures many { IsTrue result
        ↔ (MAX_LIVE_FILES < length (rows_behind before.now files.now rows.now)) }
    ensures before { HasDistinctPaths before.now }
{
    let most = u128::from(MAX_LIVE_FILES);
    let all = before.len() as u128 + rows.len() as u128;
    all > most && all - u128::from(held_count(before, files)) > most
}

/// The change that file actions make of the rows before (Delta protocol, "Action Reconciliation"), with
/// the kinds of the partition columns and the schema that it states. Its parts are in no order. Refused
/// are a text that stands for no value of its column, and then too many columns and too many live
/// files. With too many columns no row is made.
pub fn change_over(
    alloc: Global,
    stated: Option<Schema>,
    columns: &[(Text, PartKind)],
    before: &FileRows,
    files: &[FileAction],
) -> Result<Change, DeltaError>
    requires names { HaveDistinctNames columns.now }
    requires sound { All IsSoundFile files.now }
    requires distinct { IsDistinct bytes_eq (file_paths files.now) }
    ensures ok { IfOk result (IsChangeOver columns.now before.now files.now stated) }
    ensures refused { IfErr result (IsRefusalOver columns.now before.now files.now) }
{
    if columns.len() as u64 > MAX_PARTITION_COLUMNS {
        judged_values(alloc, columns, files)?;
        return Err(MANY_COLUMNS);
    }
    let rows = rows_of(alloc, columns, files)?;
    if has_many_files(before, files, rows.as_slice()) {
        return Err(MANY_FILES);
    }
    Ok(change_between(alloc, stated, before, files, rows)?)
}
