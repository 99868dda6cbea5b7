//! The table of live rows.

ghost use Rattle.std.specs.Prelude.{◌≡◌, ◌++◌, ◌∷◌, [], List, ℕ, IfErr, IfOk, IsErrOf};
ghost use Rattle.table_history.specs.Rows.{HasPath};
ghost use Rattle.table_history.specs.TypeTree.{ColumnTrees};
ghost use Rattle.table_history.specs.declared.row.FileRow.{FileRow};
ghost use Rattle.iceberg_table.specs.Errors.{IsFault, IsRefusal, IsTold};
ghost use Rattle.iceberg_table.specs.Tables.{AreShared, IsShared, IsTableOfRows, rows_in};
ghost use Rattle.iceberg_table.specs.declared.error.IcebergError.TheVariants.{StoreFault};

use crate::error::{Fault, IcebergError, unsupported};
use crate::file::refusal;
use iceberg_live::{LiveRow, Rows};
use lake_basics::{Items, ReadError, Text};
use std::alloc::{AllocError, Global};
use table_history::{Feature, FileRow, FileRows, Schema, Table};

fn copied_row(alloc: Global, live: &LiveRow) -> Result<LiveRow, AllocError>
    ensures { IfOk result (λ row. row ≡ live.now) }
{
    let row = live.row.copy(alloc)?;
    Ok(LiveRow {
        row,
        snapshot: live.snapshot,
        sequence: live.sequence,
    })
}

/// Equal rows, in their order.
pub(crate) fn copied_rows(alloc: Global, live: &[LiveRow]) -> Result<Rows, AllocError>
    ensures { IfOk result (λ rows. rows ≡ live.now) }
{
    let mut copies = Vec::with_capacity(alloc, live.len())?;
    for row in live {
        copies.push(copied_row(alloc, row)?)?;
    }
    Ok(Items::from_vec(copies))
}

/// The table with a row more, of whose path it has none.
fn with_row(table: Table, row: FileRow) -> Result<Table, ReadError<Fault>>
    ensures found { (schema : ColumnTrees) (partition : List (List ℕ)) (rows : List FileRow)
        → IsTableOfRows schema partition rows table
        → IfOk result (IsTableOfRows schema partition (rows ++ row ∷ [])) }
    ensures refused { IfErr result (IsFault
        (λ f. IsShared f × HasPath table.rows row.path)) }
{
    let mut table = table;
    if !table.rows.insert_new(row)? {
        return Err(unsupported(Feature::SharedFile));
    }
    Ok(table)
}

/// The table with the rows of a manifest more.
fn with_rows(before: Table, live: Rows) -> Result<Table, ReadError<Fault>>
    ensures found { (schema : ColumnTrees) (partition : List (List ℕ)) (rows : List FileRow)
        → IsTableOfRows schema partition rows before
        → IfOk result (IsTableOfRows schema partition (rows ++ rows_in live)) }
    ensures refused { (schema : ColumnTrees) (partition : List (List ℕ)) (rows : List FileRow)
        → IsTableOfRows schema partition rows before
        → IfErr result (IsFault (AreShared (rows ++ rows_in live))) }
{
    let mut table = before;
    for found in live.into_vec() {
        table = with_row(table, found.row)?;
    }
    Ok(table)
}

/// The table with the rows of a manifest more, of the list at this path.
pub(crate) fn joined(
    alloc: Global,
    path: &Text,
    table: Table,
    live: Rows,
) -> Result<Table, IcebergError>
    ensures found { (schema : ColumnTrees) (partition : List (List ℕ)) (rows : List FileRow)
        → IsTableOfRows schema partition rows table
        → IfOk result (IsTableOfRows schema partition (rows ++ rows_in live)) }
    ensures refused { (schema : ColumnTrees) (partition : List (List ℕ)) (rows : List FileRow)
        → IsTableOfRows schema partition rows table
        → IfErr result (IsRefusal (IsTold path.now (AreShared (rows ++ rows_in live)))) }
    ensures no_fault { IsErrOf result StoreFault → ⊥ }
{
    match with_rows(table, live) {
        Ok(table) => Ok(table),
        Err(error) => Err(refusal(alloc, path, error)),
    }
}

/// The table without rows.
pub(crate) fn empty_table(alloc: Global, schema: Schema, partition: Items<Text>) -> Table
    ensures { IsTableOfRows schema partition [] result }
{
    Table {
        schema,
        partition,
        rows: FileRows::new(alloc),
    }
}
