//! The file groups that a commit replaces.

ghost use Rattle.std.specs.Prelude.{◌≡◌, ◌↔◌, ◌≤◌, Contains, IfOk, List, length, map, ℕ};
ghost use Rattle.std.specs.List.{IsDistinct};
ghost use Rattle.std.specs.List.Sorted.{IsSorted, IsStrictlySortedBy};
ghost use Rattle.std.specs.Str.{bytes_eq};
ghost use Rattle.table_history.specs.Path.{IsPath};
ghost use Rattle.table_history.specs.Rows.{HasPath};
ghost use Rattle.hudi_groups.specs.Group.{joined};
ghost use Rattle.hudi_instant.specs.InstantText.{replaced_cmp};
ghost use Rattle.target_hudi.specs.Writing.{replaced_of};

use crate::stats::split_path;
use lake_basics::Text;
use std::alloc::{AllocError, Global};
use std::cmp::Ordering;
use table_history::FileRows;

/// The paths of these that no row has any more.
fn lost_paths(alloc: Global, removed: &[Text], after: &FileRows) -> Result<Vec<Text>, AllocError>
    requires { IsDistinct bytes_eq removed.now }
    ensures paths { IfOk result (λ lost. (path : List ℕ) → Contains lost.items path
        ↔ (Contains removed.now path × ¬ HasPath after.now path)) }
    ensures distinct { IfOk result (λ lost. IsDistinct bytes_eq lost.items) }
    ensures few { IfOk result (λ lost. length lost.items ≤ length removed.now) }
{
    let mut lost = Vec::new(alloc);
    for path in removed {
        if after.get(path.as_bytes()).is_none() {
            lost.push(path.copy(alloc)?)?;
        }
    }
    Ok(lost)
}

/// The folder of a path and its name, which is the id of its file group.
fn replaced_of(alloc: Global, path: &Text) -> Result<(Text, Text), AllocError>
    ensures { IfOk result (λ id. id ≡ replaced_of path.now) }
{
    let (folder, name) = split_path(path.as_str());
    Ok((Text::from_str(alloc, folder)?, Text::from_str(alloc, name)?))
}

/// The folders and file ids of the paths.
fn ids_of(alloc: Global, paths: &[Text]) -> Result<Vec<(Text, Text)>, AllocError>
    ensures { IfOk result (λ ids. ids.items ≡ map replaced_of paths.now) }
{
    let mut ids = Vec::with_capacity(alloc, paths.len())?;
    for path in paths {
        ids.push(replaced_of(alloc, path)?)?;
    }
    Ok(ids)
}

fn compare_ids(a: &(Text, Text), b: &(Text, Text)) -> Ordering
    ensures { result ≡ replaced_cmp a.now b.now }
{
    let by_folder = a.0.cmp(&b.0);
    by_folder.then(a.1.cmp(&b.1))
}

/// The ids in byte order of their folders, and in one folder of their names.
fn sorted_ids(ids: Vec<(Text, Text)>) -> Result<Vec<(Text, Text)>, AllocError>
    requires { IsDistinct bytes_eq (map (λ (p : List ℕ × List ℕ). joined p.0 p.1) ids.items) }
    ensures ids { IfOk result (λ sorted. (p : List ℕ × List ℕ)
        → Contains sorted.items p ↔ Contains ids.items p) }
    ensures order { IfOk result (λ sorted. IsStrictlySortedBy replaced_cmp sorted.items) }
    ensures sorted { IfOk result (λ sorted. IsSorted replaced_cmp sorted.items) }
    ensures len { IfOk result (λ sorted. length sorted.items ≡ length ids.items) }
{
    let mut sorted = ids;
    sorted.sort_by(|a, b| compare_ids(a, b))?;
    Ok(sorted)
}

/// The folders and file ids of the removed paths that no row behind the change has, in byte order.
pub(crate) fn replaced_ids(
    alloc: Global,
    removed: &[Text],
    after: &FileRows,
) -> Result<Vec<(Text, Text)>, AllocError>
    requires distinct { IsDistinct bytes_eq removed.now }
    requires paths { (path : List ℕ) → Contains removed.now path → IsPath path }
    ensures ids { IfOk result (λ ids. (p : List ℕ × List ℕ) → Contains ids.items p
        ↔ ((path : List ℕ) × (Contains removed.now path × ¬ HasPath after.now path)
        × (p ≡ replaced_of path))) }
    ensures order { IfOk result (λ ids. IsStrictlySortedBy replaced_cmp ids.items) }
    ensures sorted { IfOk result (λ ids. IsSorted replaced_cmp ids.items) }
    ensures few { IfOk result (λ ids. length ids.items ≤ length removed.now) }
{
    let lost = lost_paths(alloc, removed, after)?;
    let ids = ids_of(alloc, lost.as_slice())?;
    sorted_ids(ids)
}
