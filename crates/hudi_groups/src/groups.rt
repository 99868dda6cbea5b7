//! The file groups that an instant writes and replaces.

ghost use Rattle.std.specs.Prelude.{◌≡◌, ◌||◌, ◌++◌, ℕ, List, reverse, IfOk};
ghost use Rattle.std.specs.List.{list_any, IsDistinct};
ghost use Rattle.std.specs.Str.{bytes_eq};
ghost use Rattle.table_history.specs.Path.{is_slash};
ghost use Rattle.hudi_groups.specs.Group.{joined};
ghost use Rattle.hudi_groups.specs.Files.{group_name};
ghost use Rattle.hudi_groups.specs.GroupSets.{has_group, is_row_of_group, names_group, newest_rows, row_in_group, rows_at_group, rows_at_paths, is_touched};

use crate::form::{Form, group_name};
use lake_basics::{Blob, Items, Text};
use std::alloc::{AllocError, Global};
use std::collections::HashSet;
use table_history::{FileRow, FileRows};

/// File groups, by their names.
pub type Groups = HashSet<Blob>;

/// The newest row of each group that an instant writes, and the groups that it touches.
#[derive(Drop)]
pub struct Newest {
    pub rows: Vec<FileRow>,
    pub groups: Groups,
}

/// The rows of which no later one is of the same group.
fn newest_rows(alloc: Global, form: &Form, rows: Items<FileRow>) -> Result<Newest, AllocError>
    ensures rows { IfOk result (λ n. n.rows.items ≡ reverse (newest_rows form.now rows)) }
    ensures groups { IfOk result (λ n. (q : List ℕ)
        → has_group n.groups q ≡ list_any (is_row_of_group form.now q) rows) }
{
    let mut left = rows.into_vec();
    let mut newest = Vec::new(alloc);
    let mut groups = HashSet::new(alloc);
    while let Some(row) = left.pop() {
        let group = Blob::from_slice(alloc, group_name(form, row.path.as_bytes()))?;
        if groups.insert(group)? {
            newest.push(row)?;
        }
    }
    Ok(Newest {
        rows: newest,
        groups,
    })
}

/// A folder and a name, joined.
fn joined(alloc: Global, folder: &[u8], name: &[u8]) -> Result<Vec<u8>, AllocError>
    ensures { IfOk result (λ v. v.items ≡ joined folder.now name.now) }
{
    if folder.is_empty() {
        return Vec::from_slice(alloc, name);
    }
    let mut path = Vec::from_slice(alloc, folder)?;
    path.push(b'/')?;
    path.extend_from_slice(name)?;
    Ok(path)
}

/// The groups, and that of a replaced file id. A text with a `/` is no file id.
fn with_group(alloc: Global, groups: Groups, pair: &(Text, Text)) -> Result<Groups, AllocError>
    ensures { IfOk result (λ all. (q : List ℕ)
        → has_group all q ≡ (names_group q pair.now || has_group groups q)) }
{
    if has_slash(pair.1.as_bytes()) {
        return Ok(groups);
    }
    let mut all = groups;
    let group = joined(alloc, pair.0.as_bytes(), pair.1.as_bytes())?;
    drop(all.insert(Blob::from_vec(group))?);
    Ok(all)
}

fn has_slash(bytes: &[u8]) -> bool
    ensures { result ≡ list_any is_slash bytes.now }
{
    bytes.iter().any(|b| *b == b'/')
}

/// The groups, and those of the replaced file ids.
fn with_replaced(
    alloc: Global,
    groups: Groups,
    replaced: &[(Text, Text)],
) -> Result<Groups, AllocError>
    ensures { IfOk result (λ all. (q : List ℕ)
        → has_group all q ≡ (has_group groups q || list_any (names_group q) replaced.now)) }
{
    let mut all = groups;
    for pair in replaced {
        all = with_group(alloc, all, pair)?;
    }
    Ok(all)
}

/// What an instant makes of the groups that it writes or replaces. Its replacements take effect
/// first, so that they remove none of its rows (Hudi technical specification, "Timeline"). It fails
/// for want of memory alone.
pub fn touched(
    alloc: Global,
    form: &Form,
    rows: Items<FileRow>,
    replaced: &[(Text, Text)],
) -> Result<Newest, AllocError>
    ensures rows { IfOk result (λ n. n.rows.items ≡ reverse (newest_rows form.now rows)) }
    ensures groups { IfOk result (λ n. (q : List ℕ)
        → has_group n.groups q ≡ is_touched form.now replaced.now rows q) }
{
    let newest = newest_rows(alloc, form, rows)?;
    let groups = with_replaced(alloc, newest.groups, replaced)?;
    Ok(Newest {
        rows: newest.rows,
        groups,
    })
}

/// The rows of groups that are named by their files' paths, found by these.
pub(crate) fn rows_at_paths(
    alloc: Global,
    form: &Form,
    groups: &Groups,
    rows: &FileRows,
) -> Result<Vec<FileRow>, AllocError>
    ensures rows { IfOk result (λ v. v.items ≡ rows_at_paths form.now rows.now groups.now.keys) }
    ensures unique { IfOk result (λ _. IsDistinct bytes_eq groups.now.keys) }
{
    let mut found = Vec::new(alloc);
    for group in groups {
        found = with_rows_at(alloc, form, group.as_slice(), rows, found)?;
    }
    Ok(found)
}

/// The rows found, and those of the group: of the path that is its name, and of the path that is a
/// `/` and its name, since a group's name leaves out a `/` that stands before a lone file name.
fn with_rows_at(
    alloc: Global,
    form: &Form,
    group: &[u8],
    rows: &FileRows,
    found: Vec<FileRow>,
) -> Result<Vec<FileRow>, AllocError>
    ensures { IfOk result (λ v. v.items
        ≡ found.items ++ rows_at_group form.now rows.now group.now) }
{
    let all = with_row_at(alloc, form, group, group, rows, found)?;
    let mut rooted = Vec::from_slice(alloc, b"/")?;
    rooted.extend_from_slice(group)?;
    with_row_at(alloc, form, group, &rooted, rows, all)
}

/// The rows found, and that at the path where it is of the group.
pub(crate) fn with_row_at(
    alloc: Global,
    form: &Form,
    group: &[u8],
    path: &[u8],
    rows: &FileRows,
    found: Vec<FileRow>,
) -> Result<Vec<FileRow>, AllocError>
    ensures { IfOk result (λ v. v.items
        ≡ found.items ++ row_in_group form.now rows.now group.now path.now) }
{
    let mut all = found;
    if group_name(form, path) == group {
        if let Some(row) = rows.get(path) {
            all.push(row.copy(alloc)?)?;
        }
    }
    Ok(all)
}
