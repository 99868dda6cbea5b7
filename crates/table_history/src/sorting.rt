//! Rows in byte order of their paths.

ghost use Rattle.std.specs.Prelude.{◌≡◌, IfOk, length, map};
ghost use Rattle.table_history.specs.Rows.{HasDistinctPaths, IsInPathOrder, SameRows};

use crate::row::FileRow;
use std::alloc::{AllocError, Global};

/// The rows in byte order of their paths.
pub fn sorted_rows(rows: Vec<FileRow>) -> Result<Vec<FileRow>, AllocError>
    requires { HasDistinctPaths rows.items }
    ensures rows { IfOk result (λ sorted. SameRows sorted.items rows.items) }
    ensures order { IfOk result (λ sorted. IsInPathOrder sorted.items) }
{
    let mut sorted = rows;
    sorted.sort_by(|a, b| a.path.cmp(&b.path))?;
    Ok(sorted)
}

fn all_rows<'a>(alloc: Global, rows: &'a [FileRow]) -> Result<Vec<&'a FileRow>, AllocError>
    ensures { IfOk result (λ all. map (λ r. r.now) all.items ≡ rows.now) }
{
    let mut all = Vec::with_capacity(alloc, rows.len())?;
    for row in rows {
        all.push(row)?;
    }
    Ok(all)
}

/// The rows in byte order of their paths, each where it lies.
pub fn rows_in_order<'a>(alloc: Global, rows: &'a [FileRow]) -> Result<Vec<&'a FileRow>, AllocError>
    requires { HasDistinctPaths rows.now }
    ensures rows { IfOk result (λ sorted. SameRows rows.now (map (λ r. r.now) sorted.items)) }
    ensures order { IfOk result (λ sorted. IsInPathOrder (map (λ r. r.now) sorted.items)) }
    ensures count { IfOk result (λ sorted. length sorted.items ≡ length rows.now) }
{
    let mut sorted = all_rows(alloc, rows)?;
    sorted.sort_by(|a, b| a.path.cmp(&b.path))?;
    Ok(sorted)
}
