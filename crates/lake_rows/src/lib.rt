//! The steps of rows on what a table is made of: its rows and the changes between two tables, rows held by their
//! owners, schemas in the spellings of the formats, and partition values, paths and folders.
#![tactic(auto)]

mod columns;
mod folders;
mod links;
mod part_values;
mod schemas;
mod tables;

use crate::columns::Columns;
use crate::folders::Folders;
use crate::links::Owners;
use crate::tables::Tables;
use rows::{Step, Steps};
use std::alloc::{AllocError, Global};

/// What the steps of a row work on.
#[derive(Drop)]
pub struct Parts {
    alloc: Global,
    columns: Columns,
    folders: Folders,
    owners: Owners,
    tables: Tables,
}

impl Parts {
    /// A row that has just begun.
    pub fn new(alloc: Global) -> Parts {
        Parts {
            alloc,
            columns: Columns::new(alloc),
            folders: Folders::new(alloc),
            owners: Owners::new(alloc),
            tables: Tables::new(alloc),
        }
    }

    /// Does a step on columns, or else one on folders.
    fn step_on_columns(&mut self, step: &Step<'_>, shown: &mut String) -> Result<(), AllocError> {
        let lines = step.lines();
        match step.words() {
            "columns before" => self.columns.set_before(lines),
            "columns" => self.columns.set(lines),
            "kinds of" => self.columns.show_kinds(lines, shown),
            "changed kinds of" => self.columns.show_changed(lines, shown),
            "distinct names" => self.columns.show_distinct(lines, shown),
            _ => self.step_on_folders(step, shown),
        }
    }

    /// Does a step on folders, or else one on tables.
    fn step_on_folders(&mut self, step: &Step<'_>, shown: &mut String) -> Result<(), AllocError> {
        let lines = step.lines();
        match step.each_word() {
            ["partition", "columns"] => self.folders.set_columns(lines),
            ["carried", "values"] => self.folders.set_values(lines),
            ["carried", "by"] => self.folders.show_carried(lines, shown),
            _ => self.step_on_tables(step, shown),
        }
    }

    /// Does a step on tables, or else one on rows held by their owners.
    fn step_on_tables(&mut self, step: &Step<'_>, shown: &mut String) -> Result<(), AllocError> {
        let lines = step.lines();
        match step.words() {
            "table" => self.tables.set(lines),
            "lead to" => self.tables.lead_to_rows(lines, shown),
            "lead to schema" => self.tables.lead_to_schema(lines, shown),
            "copy of the table" => self.tables.show_copy(shown),
            _ => self.step_on_rows(step, shown),
        }
    }

    /// Does a step on the rows of a table or of owners, or else one that nothing came before.
    fn step_on_rows(&mut self, step: &Step<'_>, shown: &mut String) -> Result<(), AllocError> {
        match step.each_word() {
            ["run"] => self.owners.run(step.lines(), shown),
            ["where", path] => self.owners.show_place(path, shown),
            ["lines", kind, position] => self.tables.show_lines(kind, position, shown),
            words => match self.owners.act(words)? {
                Some(outcome) => writeln!(shown, "{outcome}"),
                None => part_values::step(self.alloc, step, shown),
            },
        }
    }
}

impl Steps for Parts {
    fn begin(&mut self) -> Result<(), AllocError> {
        *self = Parts::new(self.alloc);
        Ok(())
    }

    fn step(&mut self, step: &Step<'_>, shown: &mut String) -> Result<(), AllocError> {
        self.step_on_columns(step, shown)
    }
}
