//! The line of a table as a whole.

ghost use Rattle.std.specs.Prelude.{◌≡◌, IfOk, map, string_bytes};
ghost use Rattle.std.specs.List.{sum};
ghost use Rattle.table_lines.specs.TableLines.{columns_part, summary_line, totals};

use crate::line::line_of_text;
use lake_basics::Text;
use std::alloc::{AllocError, Global};
use table_history::{FileRow, Kind, Table};

/// The records of these files.
fn records_of(rows: &[&FileRow]) -> u128
    ensures { result ≡ sum (map (λ row. row.now.count) rows.now) }
{
    let mut total: u128 = 0;
    for row in rows {
        total += u128::from(row.count);
    }
    total
}

/// The bytes of these files.
fn bytes_of(rows: &[&FileRow]) -> u128
    ensures { result ≡ sum (map (λ row. row.now.size) rows.now) }
{
    let mut total: u128 = 0;
    for row in rows {
        total += u128::from(row.size);
    }
    total
}

/// The numbers of live files, of their records and of their bytes, as they stand in lines: `, files 2,
/// records 10, bytes 200`. Refused where memory runs out.
pub fn totals(alloc: Global, rows: &[&FileRow]) -> Result<String, AllocError>
    ensures { IfOk result (λ part. string_bytes part ≡ totals (map (λ row. row.now) rows.now)) }
{
    let files = rows.len();
    let records = records_of(rows);
    let bytes = bytes_of(rows);
    format!(in alloc; ", files {files}, records {records}, bytes {bytes}")
}

/// The numbers of top-level columns and of partition columns.
fn columns_part(alloc: Global, table: &Table) -> Result<String, AllocError>
    ensures { IfOk result (λ part. string_bytes part ≡ columns_part table.now) }
{
    let columns = table.schema.columns().len();
    let partitions = table.partition.len();
    format!(in alloc; ": columns {columns}, partitions {partitions}")
}

/// The line of a table at a position, with these live files.
pub(crate) fn summary_line(
    alloc: Global,
    kind: Kind,
    position: &Text,
    table: &Table,
    rows: &[&FileRow],
) -> Result<Vec<u8>, AllocError>
    ensures { IfOk result (λ bytes. bytes.items
        ≡ summary_line kind position.now table.now (map (λ row. row.now) rows.now)) }
{
    let format = kind.word();
    let position = position.as_str();
    let columns = columns_part(alloc, table)?;
    let columns = columns.as_str();
    let totals = totals(alloc, rows)?;
    let totals = totals.as_str();
    let text = format!(in alloc; "{format} at {position}{columns}{totals}")?;
    line_of_text(alloc, text.as_str())
}
