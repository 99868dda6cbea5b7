//! Putting a table's lines out.

ghost use Rattle.std.specs.Prelude.{◌≡◌, ◌++◌, ℕ, IfOk, IsErrOf, OnErr, OnOk, map, take};
ghost use Rattle.std.specs.List.{concat};
ghost use Rattle.lake_store.specs.Cause.{HasFault};
ghost use Rattle.table_history.specs.Rows.{HasDistinctPaths, IsInPathOrder, SameRows};
ghost use Rattle.table_lines.specs.TableLines.{lines_over, row_line};

use crate::row::row_line;
use crate::summary::summary_line;
use lake_basics::Text;
use lake_store::{Sink, SinkError};
use std::alloc::{AllocError, Global};
use table_history::{FileRow, FileRows, Kind, Table};

fn row_list<'a>(alloc: Global, rows: &'a FileRows) -> Result<Vec<&'a FileRow>, AllocError>
    ensures rows { IfOk result (λ list. map (λ row. row.now) list.items ≡ rows.now) }
    ensures distinct { IfOk result (λ _. HasDistinctPaths rows.now) }
{
    let mut list = Vec::with_capacity(alloc, rows.len())?;
    for place in 0..rows.len() {
        list.push(rows.at(place).unwrap())?;
    }
    Ok(list)
}

/// The rows in byte order of their paths.
pub fn rows_in_order<'a>(alloc: Global, rows: &'a FileRows) -> Result<Vec<&'a FileRow>, AllocError>
    ensures order { IfOk result (λ list. IsInPathOrder (map (λ row. row.now) list.items)) }
    ensures same { IfOk result (λ list. SameRows (map (λ row. row.now) list.items) rows.now) }
{
    let mut list = row_list(alloc, rows)?;
    list.sort_by(|a, b| a.path.cmp(&b.path))?;
    Ok(list)
}

fn put_row<O: Sink>(alloc: Global, out: &mut O, row: &FileRow) -> Result<(), SinkError>
    ensures ok { O.tells → OnOk result (O.output out.new ≡ O.output out.old ++ row_line row.now) }
    ensures err { O.tells → OnErr result
        ((n : ℕ) × (O.output out.new ≡ O.output out.old ++ take n (row_line row.now))) }
    ensures cause { HasFault O.faults O.may_fail out.old out.new (IsErrOf result SinkError.Failed) }
{
    let line = row_line(alloc, row)?;
    out.put(&line)
}

fn put_rows<O: Sink>(alloc: Global, out: &mut O, rows: &[&FileRow]) -> Result<(), SinkError>
    ensures ok { O.tells → OnOk result (O.output out.new
        ≡ O.output out.old ++ concat (map (λ row. row_line row.now) rows.now)) }
    ensures err { O.tells → OnErr result ((n : ℕ) × (O.output out.new
        ≡ O.output out.old ++ take n (concat (map (λ row. row_line row.now) rows.now)))) }
    ensures cause { HasFault O.faults O.may_fail out.old out.new (IsErrOf result SinkError.Failed) }
{
    for row in rows {
        put_row(alloc, out, row)?;
    }
    Ok(())
}

/// Puts the lines of a table at a position out, one by one: the table's own, and one of each of
/// these rows. After a refusal a front of them may have gone out.
pub fn put_lines<O: Sink>(
    alloc: Global,
    out: &mut O,
    kind: Kind,
    position: &Text,
    table: &Table,
    rows: &[&FileRow],
) -> Result<(), SinkError>
    ensures ok { O.tells → OnOk result (O.output out.new ≡ O.output out.old
        ++ lines_over kind position.now table.now (map (λ row. row.now) rows.now)) }
    ensures err { O.tells → OnErr result ((n : ℕ) × (O.output out.new ≡ O.output out.old
        ++ take n (lines_over kind position.now table.now (map (λ row. row.now) rows.now)))) }
    ensures cause { HasFault O.faults O.may_fail out.old out.new (IsErrOf result SinkError.Failed) }
{
    let line = summary_line(alloc, kind, position, table, rows)?;
    out.put(&line)?;
    put_rows(alloc, out, rows)
}
