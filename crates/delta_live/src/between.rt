//! What differs between the rows before a commit and those behind it.

ghost use Rattle.std.specs.Prelude.{◌≡◌, ◌↔◌, ◌++◌, ◌∷◌, [], filter, cond, Some, Contains, IsTrue, IfOk, ◌⊎◌};
ghost use Rattle.std.specs.Option.{option_copied};
ghost use Rattle.std.specs.List.{count_by, IsDistinct};
ghost use Rattle.std.specs.Str.{bytes_eq};
ghost use Rattle.table_history.specs.Rows.{HasDistinctPaths, paths_of};
ghost use Rattle.table_history.specs.declared.row.FileRow.{FileRow};
ghost use Rattle.delta_log.specs.Commit.{file_path, file_paths};
ghost use Rattle.delta_live.specs.Differences.{IsUnorderedDiff};
ghost use Rattle.delta_live.specs.RowSteps.{has_path, removed_path, removed_paths, added_paths, rows_behind};

use delta_log::FileAction;
use lake_basics::{Items, Text};
use std::alloc::{AllocError, Global};
use table_history::{Change, FileRow, FileRows, Schema};

fn has_path(rows: &FileRows, path: &Text) -> bool
    ensures path { result ≡ has_path rows.now path.now }
    ensures distinct { HasDistinctPaths rows.now }
{
    rows.get(path.as_bytes()).is_some()
}

/// How many of the actions are on a path that has a row.
pub(crate) fn held_count(rows: &FileRows, files: &[FileAction]) -> u64
    ensures count { result ≡ count_by (λ f. has_path rows.now (file_path f)) files.now }
{
    let mut count = 0;
    for file in files {
        if has_path(rows, file.path()) {
            count += 1;
        }
    }
    count
}

/// Whether the row that is held, if there is one, is this very row.
fn is_same(held: Option<&FileRow>, row: &FileRow) -> bool
    ensures { IsTrue result ↔ (option_copied held.entry ≡ Some row.now) }
{
    match held {
        Some(held) => *held == *row,
        None => false,
    }
}

/// Rows that aren't there before, and the paths of those of them that have another row there.
#[derive(Drop)]
struct NewRows {
    rows: Vec<FileRow>,
    replaced: Vec<Text>,
}

/// With this row more, unless it is there before.
fn with_new(
    alloc: Global,
    before: &FileRows,
    new: NewRows,
    row: FileRow,
) -> Result<NewRows, AllocError>
    ensures rows { IfOk result (λ all.
        (Contains before.now row × (all.rows.items ≡ new.rows.items))
        ⊎ (¬ Contains before.now row × (all.rows.items ≡ new.rows.items ++ row ∷ []))) }
    ensures replaced { IfOk result (λ all.
        new.replaced.items ≡ filter (has_path before.now) (paths_of new.rows.items)
        → all.replaced.items ≡ filter (has_path before.now) (paths_of all.rows.items)) }
{
    let held = before.get(row.path.as_bytes());
    if is_same(held, &row) {
        return Ok(new);
    }
    let NewRows { mut rows, replaced } = new;
    let replaced = with_held_path(alloc, replaced, held.is_some(), &row.path)?;
    rows.push(row)?;
    Ok(NewRows { rows, replaced })
}

/// Those of the rows that aren't there before.
fn new_rows(alloc: Global, before: &FileRows, mut rows: Vec<FileRow>) -> Result<NewRows, AllocError>
    requires { HasDistinctPaths rows.items }
    ensures rows { IfOk result (λ new. (row : FileRow)
        → Contains new.rows.items row ↔ (Contains rows.items row × ¬ Contains before.now row)) }
    ensures distinct { IfOk result (λ new. HasDistinctPaths new.rows.items) }
    ensures replaced { IfOk result (λ new. new.replaced.items
        ≡ filter (has_path before.now) (paths_of new.rows.items)) }
{
    let mut new = NewRows {
        rows: Vec::new(alloc),
        replaced: Vec::new(alloc),
    };
    while let Some(row) = rows.pop() {
        new = with_new(alloc, before, new, row)?;
    }
    Ok(new)
}

/// The paths with this one more, where a row is held there.
fn with_held_path(
    alloc: Global,
    paths: Vec<Text>,
    is_held: bool,
    path: &Text,
) -> Result<Vec<Text>, AllocError>
    ensures { IfOk result (λ all. all.items
        ≡ paths.items ++ cond is_held (path.now ∷ []) []) }
{
    let mut all = paths;
    if is_held {
        all.push(path.copy(alloc)?)?;
    }
    Ok(all)
}

fn with_removed(
    alloc: Global,
    paths: Vec<Text>,
    rows: &FileRows,
    file: &FileAction,
) -> Result<Vec<Text>, AllocError>
    ensures { IfOk result (λ all. all.items
        ≡ paths.items ++ filter (has_path rows.now) (removed_paths (file.now ∷ []))) }
{
    match file {
        FileAction::Add { .. } => Ok(paths),
        FileAction::Remove { path } => with_held_path(alloc, paths, has_path(rows, path), path),
    }
}

/// The paths of removes that have a row.
fn removed_paths(
    alloc: Global,
    rows: &FileRows,
    files: &[FileAction],
) -> Result<Vec<Text>, AllocError>
    ensures { IfOk result (λ all. all.items
        ≡ filter (has_path rows.now) (removed_paths files.now)) }
{
    let mut paths = Vec::new(alloc);
    for file in files {
        paths = with_removed(alloc, paths, rows, file)?;
    }
    Ok(paths)
}

/// The change that the actions make of the rows before, in no order, where these are the rows that
/// they add.
pub(crate) fn change_between(
    alloc: Global,
    schema: Option<Schema>,
    before: &FileRows,
    files: &[FileAction],
    rows: Vec<FileRow>,
) -> Result<Change, AllocError>
    requires before { HasDistinctPaths before.now }
    requires distinct { IsDistinct bytes_eq (file_paths files.now) }
    requires added { paths_of rows.items ≡ added_paths files.now }
    ensures schema { IfOk result (λ change. change.schema ≡ schema) }
    ensures diff { IfOk result (λ change. IsUnorderedDiff before.now
        (rows_behind before.now files.now rows.items) change.removed change.added) }
{
    let NewRows {
        rows: added,
        mut replaced,
    } = new_rows(alloc, before, rows)?;
    let mut removed = removed_paths(alloc, before, files)?;
    removed.append(&mut replaced)?;
    Ok(Change {
        schema,
        removed: Items::from_vec(removed),
        added: Items::from_vec(added),
    })
}
