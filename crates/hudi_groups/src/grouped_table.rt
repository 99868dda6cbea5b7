//! A table whose rows are found by their file groups.

ghost use Rattle.std.specs.Prelude.{◌≡◌, filter, IfOk, IfSome};
ghost use Rattle.table_history.specs.Rows.{HasDistinctPaths, SameRows};
ghost use Rattle.table_history.specs.Tables.{CanApply, IsAfter};
ghost use Rattle.table_history.specs.declared.table.Table.{Table};
ghost use Rattle.hudi_groups.specs.declared.form.Form.TheVariants.{Base};
ghost use Rattle.hudi_groups.specs.Files.{group_name};
ghost use Rattle.hudi_groups.specs.GroupSets.{has_group};
ghost use Rattle.hudi_groups.specs.GroupIndex.{IsIndexOf};

use crate::form::Form;
use crate::groups::{Groups, rows_at_paths};
use crate::index::{Index, changed, index_of, rows_by_index};
use std::alloc::{AllocError, Global};
use std::marker::Model;
use table_history::{Change, FileRow, FileRows, Table};

/// A table, for which instants are told one after another which of its rows are of a file group.
/// Clauses see the table alone. Groups that are named by their files' paths are found by these. For
/// groups that are named by file ids it may keep an index, which goes along with each change, so
/// that an instant costs its own files and not all rows.
#[derive(Drop)]
pub struct GroupedTable {
    table: Table,
    index: Option<Index>,
}

impl Model for GroupedTable {
    ghost use Rattle.std.specs.Coded.{codes};
    ghost use Rattle.std.specs.Prelude.{IfSome};
    ghost use Rattle.table_history.specs.TypeTreeCode.{columns_code};
    ghost use Rattle.table_history.specs.declared.table.Table.{Table};
    ghost use Rattle.hudi_groups.specs.GroupIndex.{IsIndexOf};

    ghost Value = { Table };

    ghost coded = { Prim.hlevel (codes, columns_code) };

    ghost view = { λ g. g.table };

    ghost invariant = { λ g. IfSome g.index (λ i. IsIndexOf i g.table.rows) };
}

impl GroupedTable {
    /// The table, without an index.
    pub fn by_paths(table: Table) -> GroupedTable
        ensures { result ≡ table }
    {
        GroupedTable { table, index: None }
    }

    /// The table, with an index of the groups that file ids name.
    pub fn by_file_ids(alloc: Global, table: Table) -> Result<GroupedTable, AllocError>
        ensures { IfOk result (λ grouped. grouped ≡ table) }
    {
        let index = index_of(alloc, &table.rows)?;
        Ok(GroupedTable {
            table,
            index: Some(index),
        })
    }

    /// The table.
    pub fn table(&self) -> &Table
        ensures { result.now ≡ self.now }
    {
        &self.table
    }

    /// The table alone.
    pub fn into_table(self) -> Table
        ensures { result ≡ self }
    {
        self.table
    }

    /// The table after the change.
    pub fn with_change(self, alloc: Global, change: &Change) -> Result<GroupedTable, AllocError>
        requires { CanApply self change.now }
        ensures { IfOk result (λ next. IsAfter self change.now next) }
    {
        let GroupedTable { mut table, index } = self;
        let next = next_index(alloc, index, change)?;
        table.apply(alloc, change)?;
        Ok(GroupedTable { table, index: next })
    }

    /// The table after a change that it takes over, whose rows are not copied.
    pub fn with_owned_change(
        self,
        alloc: Global,
        change: Change,
    ) -> Result<GroupedTable, AllocError>
        requires { CanApply self change }
        ensures { IfOk result (λ next. IsAfter self change next) }
    {
        let GroupedTable { mut table, index } = self;
        let next = next_index(alloc, index, &change)?;
        table.apply_owned(change)?;
        Ok(GroupedTable { table, index: next })
    }

    /// The rows of these groups, where the rows of the table have distinct paths. It fails for want
    /// of memory alone.
    pub fn rows_of_groups(
        &self,
        alloc: Global,
        form: &Form,
        groups: &Groups,
    ) -> Result<Vec<FileRow>, AllocError>
        ensures rows { HasDistinctPaths self.now.rows → IfOk result (λ v. SameRows v.items
            (filter (λ r. has_group groups.now (group_name form.now r.path)) self.now.rows)) }
        ensures distinct { HasDistinctPaths self.now.rows
            → IfOk result (λ v. HasDistinctPaths v.items) }
    {
        match form {
            Form::Base => rows_of_file_ids(alloc, &self.index, groups, &self.table.rows),
            Form::External { .. } => rows_at_paths(alloc, form, groups, &self.table.rows),
        }
    }
}

/// The index of a table after the change, where there was one before.
fn next_index(
    alloc: Global,
    index: Option<Index>,
    change: &Change,
) -> Result<Option<Index>, AllocError>
    ensures { (old new : Table) → IfSome index (λ i. IsIndexOf i old.rows)
        → IsAfter old change.now new
        → IfOk result (λ next. IfSome next (λ i. IsIndexOf i new.rows)) }
{
    let Some(index) = index else {
        return Ok(None);
    };
    let removed = change.removed.as_slice();
    let next = changed(alloc, index, removed, change.added.as_slice())?;
    Ok(Some(next))
}

/// The rows of groups that are named by file ids. Where there is no index, one is made of all rows.
fn rows_of_file_ids(
    alloc: Global,
    index: &Option<Index>,
    groups: &Groups,
    rows: &FileRows,
) -> Result<Vec<FileRow>, AllocError>
    requires { IfSome index.now (λ i. IsIndexOf i rows.now) }
    ensures rows { HasDistinctPaths rows.now → IfOk result (λ v. SameRows v.items
        (filter (λ r. has_group groups.now (group_name Base r.path)) rows.now)) }
    ensures distinct { HasDistinctPaths rows.now → IfOk result (λ v. HasDistinctPaths v.items) }
{
    match index {
        Some(index) => rows_by_index(alloc, index, groups, rows),
        None => rows_by_index(alloc, &index_of(alloc, rows)?, groups, rows),
    }
}
