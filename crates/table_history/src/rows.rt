//! The live files of a table, by their paths.
ghost use Rattle.std.specs.Prelude.{◌≡◌, ◌↔◌, ◌<◌, ◌≤◌, ◌++◌, ℕ, List, [], ◌∷◌, length, map, if◌then◌else◌, Some, None, false, IsTrue, IfOk, OnOk, OnErr, IfSome, MatchOption, slice_get, vec_len, Contains, All};
ghost use Rattle.std.specs.List.{list_any, IsDistinct};
ghost use Rattle.std.specs.Option.{option_copied, option_or};
ghost use Rattle.std.specs.Str.{bytes_eq};
ghost use Rattle.indexmap.specs.IndexSet.{spare, IsUnique};
ghost use Rattle.table_history.specs.Rows.{row_at, HasPath, HasDistinctPaths, IsInPathOrder};
ghost use Rattle.table_history.specs.declared.row.FileRow.{FileRow};
ghost use Rattle.table_history.specs.RowSet.{same_path};

use crate::by_path::{PathQuery, RowByPath};
use crate::row::FileRow;
use indexmap::IndexSet;
use lake_basics::Text;
use std::alloc::{AllocError, Global};
use std::marker::Model;

type RowSet = IndexSet<RowByPath>;

/// The live files of a table. No two have one path. Their order is not promised.
#[derive(Drop)]
pub struct FileRows {
    rows: RowSet,
}

impl Model for FileRows {
    ghost use Rattle.std.specs.Prelude.{List};
    ghost use Rattle.table_history.specs.declared.row.FileRow.{FileRow};
    ghost use Rattle.indexmap.specs.IndexSet.{IsUnique};
    ghost use Rattle.table_history.specs.RowSet.{same_path};

    ghost Value = { List FileRow };

    ghost view = { λ a. a.rows.keys };

    ghost invariant = { λ a. IsUnique same_path a.rows };
}

impl FileRows {
    /// No row.
    pub fn new(alloc: Global) -> FileRows
        ensures { result ≡ [] }
    {
        FileRows {
            rows: IndexSet::new(alloc),
        }
    }

    /// The number of rows.
    pub fn len(&self) -> usize
        ensures len { result ≡ length self.now }
        ensures distinct { HasDistinctPaths self.now }
    {
        self.rows.len()
    }

    /// Whether there is no row.
    pub fn is_empty(&self) -> bool
        ensures { IsTrue result ↔ (length self.now ≡ 0) }
    {
        self.rows.is_empty()
    }

    /// The row at a place of the list, counted from 0.
    pub fn at(&self, place: usize) -> Option<&FileRow>
        ensures { option_copied result ≡ slice_get self.now place }
    {
        let held = self.rows.get_index(place)?;
        Some(&held.row)
    }

    /// The row of a path.
    pub fn get(&self, path: &[u8]) -> Option<&FileRow>
        ensures value { option_copied result ≡ row_at self.now path.now }
        ensures cases { MatchOption result (¬ HasPath self.now path.now)
            (λ r. Contains self.now r.now × (r.now.path ≡ path.now)) }
        ensures distinct { HasDistinctPaths self.now }
    {
        let held = self.rows.get(PathQuery { path })?;
        Some(&held.row)
    }

    // Whether this very row is there.
    fn contains(&self, row: &FileRow) -> bool
        ensures { IsTrue result ↔ Contains self.now row.now }
    {
        match self.get(row.path.as_bytes()) {
            Some(held) => held.is_same(row),
            None => false,
        }
    }

    // The rows that are not rows of `other`, in this list's order.
    fn unsorted_missing_from<'a>(
        &'a self,
        other: &FileRows,
        alloc: Global,
    ) -> Result<Vec<&'a FileRow>, AllocError>
        ensures rows { IfOk result (λ v. (row : FileRow)
            → Contains (map (λ r. r.now) v.items) row
            ↔ (Contains self.now row × ¬ Contains other.now row)) }
        ensures distinct { IfOk result (λ v. HasDistinctPaths (map (λ r. r.now) v.items)) }
        ensures own_distinct { IfOk result (λ _. HasDistinctPaths self.now) }
    {
        let mut missing = Vec::new(alloc);
        for place in 0..self.len() {
            let row = self.at(place).unwrap();
            if !other.contains(row) {
                missing.push(row)?;
            }
        }
        Ok(missing)
    }

    // The rows that are not rows of `other`, in byte order of their paths.
    pub(crate) fn missing_from<'a>(
        &'a self,
        other: &FileRows,
        alloc: Global,
    ) -> Result<Vec<&'a FileRow>, AllocError>
        ensures rows { IfOk result (λ v. (row : FileRow)
            → Contains (map (λ r. r.now) v.items) row
            ↔ (Contains self.now row × ¬ Contains other.now row)) }
        ensures order { IfOk result (λ v. IsInPathOrder (map (λ r. r.now) v.items)) }
        ensures own_distinct { IfOk result (λ _. HasDistinctPaths self.now) }
    {
        let mut missing = self.unsorted_missing_from(other, alloc)?;
        missing.sort_by(|a, b| a.path.cmp(&b.path))?;
        Ok(missing)
    }

    /// The same rows in the same order.
    pub fn copy(&self, alloc: Global) -> Result<FileRows, AllocError>
        ensures { IfOk result (λ rows. rows ≡ self.now) }
    {
        let mut rows = IndexSet::with_capacity(alloc, self.len())?;
        for held in self.rows.as_slice() {
            let row = held.row.copy(alloc)?;
            rows.insert(RowByPath { row })?;
        }
        Ok(FileRows { rows })
    }

    /// Puts a row in behind the others where there is none of its path, and says whether that is so. If
    /// there is one, and for want of memory, the rows stay as they are.
    pub fn insert_new(&mut self, row: FileRow) -> Result<bool, AllocError>
        ensures new { IfOk result (λ is_new. IsTrue is_new
            → (¬ HasPath self.old row.path) × (self.new ≡ self.old ++ row ∷ [])) }
        ensures held { IfOk result (λ is_new. is_new ≡ false
            → HasPath self.old row.path × (self.new ≡ self.old)) }
        ensures err { OnErr result (self.new ≡ self.old) }
    {
        let (_, is_new) = self.rows.insert_full(RowByPath { row })?;
        Ok(is_new)
    }

    // Takes out the rows of these paths, and then puts the added rows in. A row of `added` replaces
    // one of its path.
    #[tactic(auto, using(crate::proofs::RowSetLemmas::distinct_paths))]
    pub(crate) fn update(&mut self, removed: &[Text], added: Vec<FileRow>) -> Result<(), AllocError>
        ensures ok { OnOk result ((p : List ℕ) → row_at self.new p
            ≡ option_or (row_at added.items p)
            (if list_any (bytes_eq p) removed.now then None else row_at self.old p)) }
        ensures distinct { OnOk result (HasDistinctPaths self.new) }
        ensures was_distinct { OnOk result (HasDistinctPaths self.old) }
        ensures err { OnErr result (self.new ≡ self.old) }
    {
        self.rows.reserve(added.len())?;
        remove_paths(&mut self.rows, removed);
        insert_rows(&mut self.rows, added);
        Ok(())
    }
}

fn remove_paths(rows: &mut RowSet, paths: &[Text])
    requires { IsUnique same_path rows.old }
    ensures lookups { (p : List ℕ) → row_at rows.new.keys p
        ≡ (if list_any (bytes_eq p) paths.now then None else row_at rows.old.keys p) }
    ensures room { spare rows.old ≤ spare rows.new }
    ensures unique { IsUnique same_path rows.new }
{
    for path in paths {
        rows.swap_remove(PathQuery {
            path: path.as_bytes(),
        });
    }
}

// Puts the rows in. The first of a path takes the place of the one that was there.
fn insert_rows(rows: &mut RowSet, mut added: Vec<FileRow>)
    requires room { vec_len added ≤ spare rows.old }
    requires unique { IsUnique same_path rows.old }
    ensures lookups { (p : List ℕ) → row_at rows.new.keys p
        ≡ option_or (row_at added.items p) (row_at rows.old.keys p) }
    ensures unique { IsUnique same_path rows.new }
{
    while let Some(row) = added.pop() {
        drop(rows.replace(RowByPath { row }).unwrap());
    }
}
