//! Tables, and the changes that commits make of them.

ghost use Rattle.std.specs.Prelude.{◌≡◌, map, IfOk, OnOk, OnErr, Some};
ghost use Rattle.table_history.specs.Rows.{SameRows};
ghost use Rattle.table_history.specs.Tables.{CanApply, IsAfter, IsDiff, LeadsTo, change_of, empty_table};

use crate::row::{FileRow, copy_rows};
use crate::rows::FileRows;
use crate::schema::Schema;
use lake_basics::{Items, Text};
use std::alloc::{AllocError, Global};

/// A table: its schema, its partition columns in their order, and its live files.
#[derive(Drop)]
pub struct Table {
    pub schema: Schema,
    pub partition: Items<Text>,
    pub rows: FileRows,
}

/// What a commit makes of a table: the schema that it states, if it states one, the paths of the
/// rows that it takes out, and the rows that it puts in. A row that changes has its path among the
/// removed and stands anew among the added.
#[derive(Drop)]
pub struct Change {
    pub schema: Option<Schema>,
    pub removed: Items<Text>,
    pub added: Items<FileRow>,
}

/// A change with the position of its commit in the source's history.
#[derive(Drop)]
pub struct Commit {
    pub position: Text,
    pub change: Change,
}

impl Table {
    /// The table of these partition columns that has no column and no row.
    pub fn empty(alloc: Global, partition: &[Text]) -> Result<Table, AllocError>
        ensures { IfOk result (λ t. t ≡ empty_table partition.now) }
    {
        Ok(Table {
            schema: Schema::new(Vec::new(alloc)),
            partition: Items::from_vec(copy_texts(partition, alloc)?),
            rows: FileRows::new(alloc),
        })
    }

    /// An equal table.
    pub fn copy(&self, alloc: Global) -> Result<Table, AllocError>
        ensures { IfOk result (λ t. t ≡ self.now) }
    {
        Ok(Table {
            schema: self.schema.copy(alloc)?,
            partition: Items::from_vec(copy_texts(self.partition.as_slice(), alloc)?),
            rows: self.rows.copy(alloc)?,
        })
    }

    /// Makes the change. For want of memory the table stays as it is.
    pub fn apply(&mut self, alloc: Global, change: &Change) -> Result<(), AllocError>
        requires { CanApply self.old change.now }
        ensures ok { OnOk result (IsAfter self.old change.now self.new) }
        ensures err { OnErr result (self.new ≡ self.old) }
    {
        let schema = copy_stated(&change.schema, alloc)?;
        let added = copy_rows(change.added.as_slice(), alloc)?;
        self.make(schema, change.removed.as_slice(), added)
    }

    /// Makes the change as `apply` does. The rows and the schema move into the table, without a copy.
    pub fn apply_owned(&mut self, change: Change) -> Result<(), AllocError>
        requires { CanApply self.old change }
        ensures ok { OnOk result (IsAfter self.old change self.new) }
        ensures err { OnErr result (self.new ≡ self.old) }
    {
        let Change {
            schema,
            removed,
            added,
        } = change;
        self.make(schema, removed.as_slice(), added.into_vec())
    }

    fn make(
        &mut self,
        schema: Option<Schema>,
        removed: &[Text],
        added: Vec<FileRow>,
    ) -> Result<(), AllocError>
        requires { CanApply self.old (change_of schema removed.now added.items) }
        ensures ok { OnOk result
            (IsAfter self.old (change_of schema removed.now added.items) self.new) }
        ensures err { OnErr result (self.new ≡ self.old) }
    {
        self.rows.update(removed, added)?;
        if let Some(schema) = schema {
            self.schema = schema;
        }
        Ok(())
    }

    /// The change that leads from the rows of this table to those of `after`, with the schema of
    /// `after`.
    pub fn change_to(&self, alloc: Global, after: &Table) -> Result<Change, AllocError>
        ensures diff { IfOk result (λ c. IsDiff self.now.rows after.now.rows c.removed c.added) }
        ensures schema { IfOk result (λ c. c.schema ≡ Some after.now.schema) }
        // What follows for `apply`: it may be called with this change, and leads to these rows.
        ensures fits { IfOk result (λ c. CanApply self.now c) }
        ensures leads { IfOk result (λ c. LeadsTo self.now.rows c.removed c.added after.now.rows) }
    {
        let lost = self.rows.missing_from(&after.rows, alloc)?;
        let new = after.rows.missing_from(&self.rows, alloc)?;
        Ok(Change {
            schema: Some(after.schema.copy(alloc)?),
            removed: Items::from_vec(paths_of(lost.as_slice(), alloc)?),
            added: Items::from_vec(copies_of(new.as_slice(), alloc)?),
        })
    }
}

fn copy_texts(texts: &[Text], alloc: Global) -> Result<Vec<Text>, AllocError>
    ensures { IfOk result (λ v. v.items ≡ texts.now) }
{
    let mut copies = Vec::with_capacity(alloc, texts.len())?;
    for text in texts {
        copies.push(text.copy(alloc)?)?;
    }
    Ok(copies)
}

fn copy_stated(schema: &Option<Schema>, alloc: Global) -> Result<Option<Schema>, AllocError>
    ensures { IfOk result (λ s. s ≡ schema.now) }
{
    match schema {
        Some(schema) => Ok(Some(schema.copy(alloc)?)),
        None => Ok(None),
    }
}

// The paths of the rows.
fn paths_of(rows: &[&FileRow], alloc: Global) -> Result<Vec<Text>, AllocError>
    ensures { IfOk result (λ v. v.items ≡ map (λ r. r.now.path) rows.now) }
{
    let mut paths = Vec::with_capacity(alloc, rows.len())?;
    for row in rows {
        paths.push(row.path.copy(alloc)?)?;
    }
    Ok(paths)
}

// Copies of the rows.
fn copies_of(rows: &[&FileRow], alloc: Global) -> Result<Vec<FileRow>, AllocError>
    ensures { IfOk result (λ v. v.items ≡ map (λ r. r.now) rows.now) }
{
    let mut copies = Vec::with_capacity(alloc, rows.len())?;
    for row in rows {
        copies.push(row.copy(alloc)?)?;
    }
    Ok(copies)
}
