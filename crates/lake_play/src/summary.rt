//! What is told of the tables of a drill.
ghost use Rattle.std.specs.Prelude.{◌≡◌, IfOk, string_bytes};
ghost use Rattle.table_lines.specs.TableLines.{totals};
ghost use Rattle.lake_play.specs.Drilled.{TellsOf};
ghost use Rattle.lake_play.specs.Lines.{counted_line, source_line, target_line};

use conformance::sync_points;
use std::alloc::{AllocError, Global};
use table_history::{FileRows, Kind};
use table_lines::{rows_in_order, totals};

/// How many commits a drill has.
const COMMITS: u64 = 200;

/// The lines of a drill: one of the source, and one of each target.
#[derive(Drop)]
pub(crate) struct Summary {
    pub(crate) source: String,
    pub(crate) hudi: String,
    pub(crate) iceberg: String,
}

/// The numbers of these files, of their records and of their bytes.
fn totals_of(alloc: Global, rows: &FileRows) -> Result<String, AllocError>
    ensures { IfOk result (λ part. TellsOf totals rows.now (string_bytes part)) }
{
    let rows = rows_in_order(alloc, rows)?;
    totals(alloc, &rows)
}

/// The line of the source of the drill of this number, whose targets are synced so often.
fn counted_line(
    alloc: Global,
    number: u64,
    syncs: u64,
    rows: &FileRows,
) -> Result<String, AllocError>
    ensures { IfOk result
        (λ text. TellsOf (counted_line number syncs) rows.now (string_bytes text)) }
{
    let commits = COMMITS;
    let totals = totals_of(alloc, rows)?;
    let totals = totals.as_str();
    format!(in alloc; "drill {number}: commits {commits}{totals}, syncs {syncs}\n")
}

/// The line of the source of the drill of this number.
pub(crate) fn source_line(alloc: Global, number: u64, rows: &FileRows) -> Result<String, AllocError>
    ensures { IfOk result (λ text. TellsOf (source_line number) rows.now (string_bytes text)) }
{
    counted_line(alloc, number, sync_points(number), rows)
}

/// The line of a target with so many commits.
pub(crate) fn target_line(
    alloc: Global,
    target: Kind,
    commits: u64,
    rows: &FileRows,
) -> Result<String, AllocError>
    ensures { IfOk result
        (λ text. TellsOf (target_line target commits) rows.now (string_bytes text)) }
{
    let format = target.word();
    let totals = totals_of(alloc, rows)?;
    let totals = totals.as_str();
    format!(in alloc; "{format}: commits {commits}{totals}\n")
}
