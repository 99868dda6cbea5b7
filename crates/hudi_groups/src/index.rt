//! The paths of a table's rows, by the file groups that they are named by file ids.

ghost use Rattle.std.specs.Prelude.{◌≡◌, ◌&&◌, ◌||◌, ◌++◌, ℕ, List, None, Some, cond, not, Contains, IfOk};
ghost use Rattle.std.specs.HashMap.{get_by};
ghost use Rattle.std.specs.List.{list_any, IsDistinct};
ghost use Rattle.std.specs.Str.{bytes_eq};
ghost use Rattle.hudi_groups.specs.declared.form.Form.TheVariants.{Base};
ghost use Rattle.hudi_groups.specs.declared.index.Paths.TheVariants.{One, Many};
ghost use Rattle.hudi_groups.specs.GroupIndex.{IsIndexOf, has_path, is_among, is_path_of, is_row_of, paths_at, rows_among, rows_by_index};

use crate::form::Form;
use crate::group::path_to_file_id;
use crate::groups::{Groups, with_row_at};
use lake_basics::{Blob, Text};
use std::alloc::{AllocError, Global};
use std::collections::hash_map::Entry;
use std::collections::{HashMap, HashSet};
use table_history::{FileRow, FileRows};

/// The paths of a group, as a set. Most groups have a lone path, which needs no table.
#[derive(Drop)]
pub(crate) enum Paths {
    One(Blob),
    Many(Box<HashSet<Blob>>),
}

/// The paths of each group, by the group's name.
pub(crate) type Index = HashMap<Blob, Paths>;

// ---- the paths of one group

/// The two paths, as a set.
fn two_paths(alloc: Global, path: Blob, other: Blob) -> Result<Paths, AllocError>
    ensures { IfOk result (λ both. (p : List ℕ) → is_among p (Some both)
        ≡ (bytes_eq p other || is_among p (Some (One path)))) }
{
    let mut paths = HashSet::new(alloc);
    drop(paths.insert(path)?);
    drop(paths.insert(other)?);
    Ok(Paths::Many(Box::new(alloc, paths)?))
}

/// The set, and this path.
fn one_more(held: Box<HashSet<Blob>>, path: Blob) -> Result<Paths, AllocError>
    ensures { IfOk result (λ all. (p : List ℕ) → is_among p (Some all)
        ≡ (bytes_eq p path || is_among p (Some (Many held)))) }
{
    let mut paths = held;
    drop(paths.insert(path)?);
    Ok(Paths::Many(paths))
}

/// The paths of a group, and this one.
fn paths_with(alloc: Global, paths: Paths, path: Blob) -> Result<Paths, AllocError>
    ensures { IfOk result (λ all. (p : List ℕ) → is_among p (Some all)
        ≡ (bytes_eq p path || is_among p (Some paths))) }
{
    match paths {
        Paths::One(held) => two_paths(alloc, held, path),
        Paths::Many(held) => one_more(held, path),
    }
}

/// The path that is held, where it is another than this one.
fn other_path(held: Blob, path: &[u8]) -> Option<Paths>
    ensures { (p : List ℕ) → is_among p result
        ≡ (not (bytes_eq p path.now) && is_among p (Some (One held))) }
{
    if held.as_slice() == path {
        return None;
    }
    Some(Paths::One(held))
}

/// The set without this path, or `None` where none is left.
fn one_less(
    alloc: Global,
    held: Box<HashSet<Blob>>,
    path: &[u8],
) -> Result<Option<Paths>, AllocError>
    ensures { IfOk result (λ rest. (p : List ℕ) → is_among p rest
        ≡ (not (bytes_eq p path.now) && is_among p (Some (Many held)))) }
{
    let key = Blob::from_slice(alloc, path)?;
    let mut paths = held;
    paths.remove(&key);
    if paths.is_empty() {
        return Ok(None);
    }
    Ok(Some(Paths::Many(paths)))
}

/// The paths of a group without this one, or `None` where none is left.
fn paths_without(
    alloc: Global,
    paths: Option<Paths>,
    path: &[u8],
) -> Result<Option<Paths>, AllocError>
    ensures { IfOk result (λ rest. (p : List ℕ) → is_among p rest
        ≡ (not (bytes_eq p path.now) && is_among p paths)) }
{
    match paths {
        None => Ok(None),
        Some(Paths::One(held)) => Ok(other_path(held, path)),
        Some(Paths::Many(held)) => one_less(alloc, held, path),
    }
}

// ---- one path

/// The index with these paths of a group that isn't there. A group without a path is left out.
fn put_group(index: Index, group: Blob, paths: Option<Paths>) -> Result<Index, AllocError>
    requires { get_by (bytes_eq group) index ≡ None }
    ensures { IfOk result (λ all. (q p : List ℕ) → has_path all q p
        ≡ cond (bytes_eq group q) (is_among p paths) (has_path index q p)) }
{
    let Some(paths) = paths else {
        return Ok(index);
    };
    let mut all = index;
    drop(all.insert(group, paths)?);
    Ok(all)
}

/// The index, and this path in its group.
fn with_path(alloc: Global, index: Index, path: &[u8]) -> Result<Index, AllocError>
    ensures { IfOk result (λ all. (q p : List ℕ) → has_path all q p
        ≡ (is_path_of q p path.now || has_path index q p)) }
{
    let group = Blob::from_slice(alloc, path_to_file_id(path))?;
    let key = Blob::from_slice(alloc, path)?;
    let mut all = index;
    match all.entry(group)? {
        Entry::Vacant(place) => {
            place.insert(Paths::One(key));
        }
        Entry::Occupied(mut place) => {
            // An empty path stands there while the group's own are taken out.
            let held = place.insert(Paths::One(Blob::new(alloc)));
            let paths = paths_with(alloc, held, key)?;
            drop(place.insert(paths));
        }
    }
    Ok(all)
}

/// The index without this path.
fn without_path(alloc: Global, index: Index, path: &[u8]) -> Result<Index, AllocError>
    ensures { IfOk result (λ rest. (q p : List ℕ) → has_path rest q p
        ≡ (not (is_path_of q p path.now) && has_path index q p)) }
{
    let group = Blob::from_slice(alloc, path_to_file_id(path))?;
    let mut rest = index;
    let paths = paths_without(alloc, rest.remove(&group), path)?;
    put_group(rest, group, paths)
}

// ---- paths of rows

/// The index, and the paths of these rows.
fn with_rows(alloc: Global, index: Index, rows: &[FileRow]) -> Result<Index, AllocError>
    ensures { IfOk result (λ all. (q p : List ℕ) → has_path all q p
        ≡ (list_any (is_row_of q p) rows.now || has_path index q p)) }
{
    let mut all = index;
    for row in rows {
        all = with_path(alloc, all, row.path.as_bytes())?;
    }
    Ok(all)
}

/// The index without these paths.
fn without_paths(alloc: Global, index: Index, paths: &[Text]) -> Result<Index, AllocError>
    ensures { IfOk result (λ rest. (q p : List ℕ) → has_path rest q p
        ≡ (not (list_any (is_path_of q p) paths.now) && has_path index q p)) }
{
    let mut rest = index;
    for path in paths {
        rest = without_path(alloc, rest, path.as_bytes())?;
    }
    Ok(rest)
}

/// The index after these paths are taken out and those of these rows put in.
pub(crate) fn changed(
    alloc: Global,
    index: Index,
    removed: &[Text],
    added: &[FileRow],
) -> Result<Index, AllocError>
    ensures { IfOk result (λ next. (q p : List ℕ) → has_path next q p
        ≡ (list_any (is_row_of q p) added.now
        || (not (list_any (is_path_of q p) removed.now) && has_path index q p))) }
{
    let rest = without_paths(alloc, index, removed)?;
    with_rows(alloc, rest, added)
}

/// The index of these rows.
pub(crate) fn index_of(alloc: Global, rows: &FileRows) -> Result<Index, AllocError>
    ensures { IfOk result (λ index. IsIndexOf index rows.now) }
{
    let mut index = HashMap::new(alloc);
    for place in 0..rows.len() {
        let row = rows.at(place).unwrap();
        index = with_path(alloc, index, row.path.as_bytes())?;
    }
    Ok(index)
}

// ---- rows of groups

/// The rows found, and those of the group at these paths.
fn with_rows_at(
    alloc: Global,
    group: &[u8],
    paths: &HashSet<Blob>,
    rows: &FileRows,
    found: Vec<FileRow>,
) -> Result<Vec<FileRow>, AllocError>
    ensures rows { IfOk result (λ v. v.items
        ≡ found.items ++ rows_among rows.now group.now paths.now.keys) }
    ensures unique { IfOk result (λ _. IsDistinct bytes_eq paths.now.keys) }
{
    let mut all = found;
    for path in paths {
        all = with_row_at(alloc, &Form::Base, group, path.as_slice(), rows, all)?;
    }
    Ok(all)
}

/// The rows found, and those of the group.
fn with_group_of(
    alloc: Global,
    index: &Index,
    group: &Blob,
    rows: &FileRows,
    found: Vec<FileRow>,
) -> Result<Vec<FileRow>, AllocError>
    ensures rows { IfOk result (λ v. v.items
        ≡ found.items ++ rows_among rows.now group.now (paths_at index.now group.now)) }
    ensures unique { IfOk result (λ _. IsDistinct bytes_eq (paths_at index.now group.now)) }
{
    let name = group.as_slice();
    match index.get(group) {
        None => Ok(found),
        Some(Paths::One(path)) => {
            with_row_at(alloc, &Form::Base, name, path.as_slice(), rows, found)
        }
        Some(Paths::Many(paths)) => with_rows_at(alloc, name, paths, rows, found),
    }
}

/// The rows of these groups, found by the index.
pub(crate) fn rows_by_index(
    alloc: Global,
    index: &Index,
    groups: &Groups,
    rows: &FileRows,
) -> Result<Vec<FileRow>, AllocError>
    ensures rows { IfOk result (λ v. v.items ≡ rows_by_index rows.now index.now groups.now.keys) }
    ensures unique { IfOk result (λ _. IsDistinct bytes_eq groups.now.keys) }
    ensures each { IfOk result (λ _. (k : List ℕ) → Contains groups.now.keys k
        → IsDistinct bytes_eq (paths_at index.now k)) }
{
    let mut found = Vec::new(alloc);
    for group in groups {
        found = with_group_of(alloc, index, group, rows, found)?;
    }
    Ok(found)
}
