//! The field ids of column paths in the schemas that a table holds.

ghost use Rattle.std.specs.Prelude.{◌≡◌, ◌&&◌, ◌∷◌, ◌++◌, [], flat_map, option_map, IfOk, OnOk, MatchOption};
ghost use Rattle.std.specs.List.{list_all};
ghost use Rattle.iceberg_metadata.specs.Paths.{path_ids_of, path_ids, unread_paths, all_path_ids};
ghost use Rattle.iceberg_columns.specs.PathMaps.{path_at, id_at, HoldsPaths, HoldsPathIds};
ghost use Rattle.iceberg_metadata.specs.Judging.{is_path, is_id, is_renamed};

use iceberg_metadata::Unread;
use lake_basics::{Items, Text};
use schema_map::{ColumnPath, Ids, column_paths};
use std::alloc::{AllocError, Global};
use std::collections::BTreeMap;
use table_history::Schema;

/// The path of each field id. Of several the first.
pub(crate) type PathsById<'a> = BTreeMap<i32, &'a ColumnPath>;

/// The field id of each path. Of several the first.
type IdsByPath<'a> = BTreeMap<&'a [Text], i32>;

fn next_id(ids: &[i32]) -> Option<(i32, &[i32])>
    ensures { MatchOption result (ids.now ≡ []) (λ p. ids.now ≡ p.0 ∷ p.1.now) }
{
    match ids {
        [] => None,
        [id, behind @ ..] => Some((*id, behind)),
    }
}

/// The column paths of a schema with their field ids.
pub(crate) fn path_ids_of(
    alloc: Global,
    schema: &Schema,
    ids: &Ids,
) -> Result<Vec<(ColumnPath, i32)>, AllocError>
    ensures { IfOk result (λ found. found.items ≡ path_ids_of schema.now ids.now) }
{
    let mut left = ids.as_slice();
    let mut found = Vec::new(alloc);
    for path in column_paths(alloc, schema)? {
        let Some((id, behind)) = next_id(left) else {
            return Ok(found);
        };
        found.push((path, id))?;
        left = behind;
    }
    Ok(found)
}

/// The column paths of the schemas with their field ids.
fn read_paths(
    alloc: Global,
    schemas: &[(i32, Schema, Ids)],
) -> Result<Vec<(ColumnPath, i32)>, AllocError>
    ensures { IfOk result (λ found. found.items ≡ flat_map path_ids schemas.now) }
{
    let mut found = Vec::new(alloc);
    for held in schemas {
        let mut pairs = path_ids_of(alloc, &held.1, &held.2)?;
        found.append(&mut pairs)?;
    }
    Ok(found)
}

fn copy_of(alloc: Global, path: &ColumnPath) -> Result<ColumnPath, AllocError>
    ensures { IfOk result (λ p. p ≡ path.now) }
{
    let mut copy = Items::new(alloc);
    for part in path.as_slice() {
        copy.push(part.copy(alloc)?)?;
    }
    Ok(copy)
}

/// Adds these column paths with their field ids.
fn push_paths(
    alloc: Global,
    found: &mut Vec<(ColumnPath, i32)>,
    pairs: &[(ColumnPath, i32)],
) -> Result<(), AllocError>
    ensures { OnOk result (found.new.items ≡ found.old.items ++ pairs.now) }
{
    for pair in pairs {
        let path = copy_of(alloc, &pair.0)?;
        found.push((path, pair.1))?;
    }
    Ok(())
}

/// The column paths of the schemas that can't be taken over, with their field ids.
fn unread_paths(
    alloc: Global,
    unread: &[(i32, Unread)],
) -> Result<Vec<(ColumnPath, i32)>, AllocError>
    ensures { IfOk result (λ found. found.items ≡ unread_paths unread.now) }
{
    let mut found = Vec::new(alloc);
    for held in unread {
        push_paths(alloc, &mut found, held.1.paths.as_slice())?;
    }
    Ok(found)
}

/// The column paths of all held schemas with their field ids.
fn all_path_ids(
    alloc: Global,
    unread: &[(i32, Unread)],
    schemas: &[(i32, Schema, Ids)],
) -> Result<Vec<(ColumnPath, i32)>, AllocError>
    ensures { IfOk result (λ found. found.items ≡ all_path_ids unread.now schemas.now) }
{
    let mut found = unread_paths(alloc, unread)?;
    let mut pairs = read_paths(alloc, schemas)?;
    found.append(&mut pairs)?;
    Ok(found)
}

pub(crate) fn paths_by_id<'a>(
    alloc: Global,
    pairs: &'a [(ColumnPath, i32)],
) -> Result<PathsById<'a>, AllocError>
    ensures { IfOk result (λ m. HoldsPaths m pairs.now) }
{
    let mut found = BTreeMap::new(alloc);
    let mut place = pairs.len();
    while place > 0 {
        place -= 1;
        let pair = &pairs[place];
        found.insert(pair.1, &pair.0)?;
    }
    Ok(found)
}

fn ids_by_path<'a>(
    alloc: Global,
    pairs: &'a [(ColumnPath, i32)],
) -> Result<IdsByPath<'a>, AllocError>
    ensures { IfOk result (λ m. HoldsPathIds m pairs.now) }
{
    let mut found = BTreeMap::new(alloc);
    let mut place = pairs.len();
    while place > 0 {
        place -= 1;
        let pair = &pairs[place];
        found.insert(pair.0.as_slice(), pair.1)?;
    }
    Ok(found)
}

/// The path of this id.
pub(crate) fn path_at<'a>(by_id: &PathsById<'a>, id: i32) -> Option<&'a ColumnPath>
    ensures { option_map (λ p. p.now) result ≡ path_at by_id.now id }
{
    match by_id.get(&id) {
        None => None,
        Some(path) => Some(*path),
    }
}

fn has_path(by_id: &PathsById, id: i32, path: &ColumnPath) -> bool
    ensures { result ≡ is_path (path_at by_id.now id) path.now }
{
    match path_at(by_id, id) {
        None => false,
        Some(first) => *first == *path,
    }
}

fn has_id<'a>(by_path: &IdsByPath<'a>, path: &'a ColumnPath, id: i32) -> bool
    ensures { result ≡ is_id (id_at by_path.now path.now) id }
{
    match by_path.get(&path.as_slice()) {
        None => false,
        Some(first) => *first == id,
    }
}

fn is_first<'a>(by_id: &PathsById<'a>, by_path: &IdsByPath<'a>, pair: &'a (ColumnPath, i32)) -> bool
    ensures { result ≡ (is_path (path_at by_id.now pair.now.1) pair.now.0
        && is_id (id_at by_path.now pair.now.0) pair.now.1) }
{
    let is_path = has_path(by_id, pair.1, &pair.0);
    let is_id = has_id(by_path, &pair.0, pair.1);
    is_path && is_id
}

/// Whether each path and its id are those that are met first.
fn are_first<'a>(
    by_id: &PathsById<'a>,
    by_path: &IdsByPath<'a>,
    pairs: &'a [(ColumnPath, i32)],
) -> bool
    ensures { result ≡ list_all (λ p. is_path (path_at by_id.now p.1) p.0
        && is_id (id_at by_path.now p.0) p.1) pairs.now }
{
    for pair in pairs {
        if !is_first(by_id, by_path, pair) {
            return false;
        }
    }
    true
}

/// Whether the schemas, one alone or two, give one id two column paths, or one column path two ids.
pub fn is_renamed(
    alloc: Global,
    unread: &[(i32, Unread)],
    schemas: &[(i32, Schema, Ids)],
) -> Result<bool, AllocError>
    ensures { IfOk result (λ is. is ≡ is_renamed (all_path_ids unread.now schemas.now)) }
{
    let pairs = all_path_ids(alloc, unread, schemas)?;
    let by_id = paths_by_id(alloc, pairs.as_slice())?;
    let by_path = ids_by_path(alloc, pairs.as_slice())?;
    Ok(!are_first(&by_id, &by_path, pairs.as_slice()))
}
