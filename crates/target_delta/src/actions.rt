//! The file actions that a change is written as.

ghost use Rattle.std.specs.Prelude.{◌≡◌, ◌↔◌, ◌<◌, ℕ, List, All, Contains, IfOk, length, map};
ghost use Rattle.std.specs.List.{IsDistinct};
ghost use Rattle.std.specs.Str.{bytes_eq};
ghost use Rattle.table_history.specs.Path.{IsPath};
ghost use Rattle.table_history.specs.Row.{Row};
ghost use Rattle.table_history.specs.Rows.{HasDistinctPaths, HasPath, IsInByteOrder};
ghost use Rattle.table_history.specs.declared.row.PartValue.{PartValue};
ghost use Rattle.partition_map.specs.DeltaText.{HasNoDeltaText, IsDeltaText};
ghost use Rattle.delta_log.specs.Sound.{IsSoundFile};
ghost use Rattle.delta_log.specs.declared.commit.FileAction.{FileAction};
ghost use Rattle.target_delta.specs.Writing.{AreActions, AreAdds, AreTexts, CanAdd, IsAddOf, LeavesAdded, LosesRemoved};

use delta_log::FileAction;
use lake_basics::{Items, Text};
use partition_map::{PartError, to_delta_text};
use std::alloc::{AllocError, Global};
use table_history::{Change, FileRow, FileRows, PartValue, rows_in_order};

/// The text of a value that has one, or None for null.
fn text_of(alloc: Global, value: &PartValue) -> Result<Option<Text>, AllocError>
    requires { HasNoDeltaText value.now → ⊥ }
    ensures { IfOk result (IsDeltaText value.now) }
{
    match to_delta_text(alloc, value) {
        Ok(text) => Ok(text),
        Err(PartError::Memory) => Err(AllocError),
        Err(_) => unreachable!(),
    }
}

/// The texts of the values, each under its column's name.
fn texts_of(
    alloc: Global,
    partition: &[Text],
    values: &[PartValue],
) -> Result<Vec<(Text, Option<Text>)>, AllocError>
    requires len { length values.now ≡ length partition.now }
    requires texts { (value : PartValue) → Contains values.now value → HasNoDeltaText value → ⊥ }
    ensures { IfOk result (λ texts. AreTexts partition.now values.now texts.items) }
{
    let mut texts = Vec::with_capacity(alloc, partition.len())?;
    for i in 0..partition.len() {
        let text = text_of(alloc, &values[i])?;
        texts.push((partition[i].copy(alloc)?, text))?;
    }
    Ok(texts)
}

/// The action that adds the row.
pub(crate) fn add_of(
    alloc: Global,
    partition: &[Text],
    row: &FileRow,
) -> Result<FileAction, AllocError>
    requires len { length row.now.values ≡ length partition.now }
    requires texts { (value : PartValue) → Contains row.now.values value → HasNoDeltaText value → ⊥ }
    ensures add { IfOk result (IsAddOf partition.now row.now) }
    ensures sound { IfOk result (λ action. IsPath row.now.path → IsDistinct bytes_eq partition.now
        → IsSoundFile action) }
{
    let path = row.path.copy(alloc)?;
    let values = texts_of(alloc, partition, row.values.as_slice())?;
    Ok(FileAction::Add {
        path,
        values: Items::from_vec(values),
        size: row.size,
        count: row.count,
    })
}

/// The texts in byte order.
fn sorted_texts(texts: Vec<Text>) -> Result<Vec<Text>, AllocError>
    requires { IsDistinct bytes_eq texts.items }
    ensures texts { IfOk result (λ sorted. (text : List ℕ)
        → Contains sorted.items text ↔ Contains texts.items text) }
    ensures order { IfOk result (λ sorted. IsInByteOrder sorted.items) }
{
    let mut sorted = texts;
    sorted.sort_by(|a, b| a.cmp(b))?;
    Ok(sorted)
}

/// The paths of these that no row has any more, in byte order.
fn lost_paths(alloc: Global, removed: &[Text], after: &FileRows) -> Result<Vec<Text>, AllocError>
    requires { IsDistinct bytes_eq removed.now }
    ensures paths { IfOk result (λ lost. (path : List ℕ) → Contains lost.items path
        ↔ (Contains removed.now path × ¬ HasPath after.now path)) }
    ensures order { IfOk result (λ lost. IsInByteOrder lost.items) }
{
    let mut lost = Vec::new(alloc);
    for path in removed {
        if after.get(path.as_bytes()).is_none() {
            lost.push(path.copy(alloc)?)?;
        }
    }
    sorted_texts(lost)
}

/// The removes of these paths.
fn removes_of(alloc: Global, paths: Vec<Text>) -> Result<Vec<FileAction>, AllocError>
    ensures { IfOk result (λ files. files.items ≡ map FileAction.Remove paths.items) }
{
    let mut files = Vec::with_capacity(alloc, paths.len())?;
    for path in paths {
        files.push(FileAction::Remove { path })?;
    }
    Ok(files)
}

/// The actions that add the rows, in their order.
fn adds_of(
    alloc: Global,
    partition: &[Text],
    rows: &[&FileRow],
) -> Result<Vec<FileAction>, AllocError>
    requires { (row : Row) → Contains (map (λ r. r.now) rows.now) row → CanAdd partition.now row }
    ensures adds { IfOk result
        (λ files. AreAdds partition.now (map (λ r. r.now) rows.now) files.items) }
    ensures sound { IfOk result (λ files. ((row : Row)
        → Contains (map (λ r. r.now) rows.now) row → IsPath row.path)
        → IsDistinct bytes_eq partition.now → All IsSoundFile files.items) }
{
    let mut files = Vec::with_capacity(alloc, rows.len())?;
    for row in rows {
        files.push(add_of(alloc, partition, row)?)?;
    }
    Ok(files)
}

/// The file actions that a change is written as, where these are the rows behind it: the removes of
/// the paths that are removed and not added again, and then the adds, each in byte order of paths.
pub(crate) fn actions_of(
    alloc: Global,
    partition: &[Text],
    change: &Change,
    after: &FileRows,
) -> Result<Items<FileAction>, AllocError>
    requires leaves { LeavesAdded change.now.added after.now }
    requires loses { LosesRemoved change.now after.now }
    requires removed { IsDistinct bytes_eq change.now.removed }
    requires added { HasDistinctPaths change.now.added }
    requires fit { (row : Row) → Contains change.now.added row → CanAdd partition.now row }
    ensures actions { IfOk result (AreActions partition.now change.now) }
    ensures sound { IfOk result (λ files. ((path : List ℕ) → Contains change.now.removed path
        → IsPath path) → ((row : Row) → Contains after.now row → IsPath row.path)
        → IsDistinct bytes_eq partition.now → All IsSoundFile files) }
{
    let lost = lost_paths(alloc, change.removed.as_slice(), after)?;
    let mut files = removes_of(alloc, lost)?;
    let rows = rows_in_order(alloc, change.added.as_slice())?;
    let mut adds = adds_of(alloc, partition, rows.as_slice())?;
    files.append(&mut adds)?;
    Ok(Items::from_vec(files))
}
