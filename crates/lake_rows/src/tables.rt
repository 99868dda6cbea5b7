//! Steps on tables, and on the changes that lead from one to another.
use lake_basics::{Items, Text};
use lake_store::MemorySink;
use schema_delta::from_delta;
use std::alloc::{AllocError, Global};
use std::str::from_utf8;
use table_history::{Change, FileRow, FileRows, Kind, PartValue, Schema, Table};
use table_lines::{put_lines, rows_in_order};

/// The table of a row, if it has one.
#[derive(Drop)]
pub struct Tables {
    alloc: Global,
    table: Option<Table>,
}

impl Tables {
    /// No table.
    pub fn new(alloc: Global) -> Tables {
        Tables { alloc, table: None }
    }

    /// Sets the table to that of the rows on these lines.
    pub fn set(&mut self, lines: &[&str]) -> Result<(), AllocError> {
        self.table = Some(table_of(self.alloc, lines)?);
        Ok(())
    }

    /// Leads to the table of the rows on these lines.
    pub fn lead_to_rows(&mut self, lines: &[&str], shown: &mut String) -> Result<(), AllocError> {
        let after = table_of(self.alloc, lines)?;
        self.lead(&after, shown)
    }

    /// Leads to the table of no rows that has this schema.
    pub fn lead_to_schema(&mut self, lines: &[&str], shown: &mut String) -> Result<(), AllocError> {
        let mut after = Table::empty(self.alloc, &[])?;
        if let Some(schema) = first_schema(self.alloc, lines) {
            after.schema = schema;
        }
        self.lead(&after, shown)
    }

    /// Leads the table to another one, and shows the change.
    fn lead(&mut self, after: &Table, shown: &mut String) -> Result<(), AllocError> {
        let Some(table) = &mut self.table else {
            return writeln!(shown, "not asked: no table");
        };
        show_change(shown, &led(self.alloc, table, after)?)?;
        let columns = table.schema.columns().len();
        let is_same = table.schema == after.schema;
        writeln!(shown, "schema of {columns} columns, as there: {is_same}")
    }

    /// Shows the lines that tell of the table at a position.
    pub fn show_lines(
        &self,
        kind: &str,
        position: &str,
        shown: &mut String,
    ) -> Result<(), AllocError> {
        match (Kind::from_word(kind), &self.table) {
            (Some(kind), Some(table)) => show_lines(self.alloc, kind, position, table, shown),
            _ => writeln!(shown, "not asked: no kind or no table"),
        }
    }

    /// Shows a copy of the table beside it.
    pub fn show_copy(&self, shown: &mut String) -> Result<(), AllocError> {
        match &self.table {
            Some(table) => show_copy(table, &table.copy(self.alloc)?, self.alloc, shown),
            None => writeln!(shown, "not asked: no table"),
        }
    }
}

fn show_lines(
    alloc: Global,
    kind: Kind,
    position: &str,
    table: &Table,
    shown: &mut String,
) -> Result<(), AllocError> {
    let position = Text::from_str(alloc, position)?;
    let mut sink = MemorySink::new(alloc, Vec::new(alloc));
    let rows = rows_in_order(alloc, &table.rows)?;
    match put_lines(alloc, &mut sink, kind, &position, table, &rows) {
        Ok(()) => show_bytes(sink.bytes(), shown),
        Err(_) => Err(AllocError),
    }
}

fn show_bytes(bytes: &[u8], shown: &mut String) -> Result<(), AllocError> {
    match from_utf8(bytes) {
        Ok(text) => shown.push_str(text),
        Err(_) => writeln!(shown, "lines that aren't UTF-8"),
    }
}

/// Shows a copy of a table, and a copy of its rows.
fn show_copy(
    table: &Table,
    copy: &Table,
    alloc: Global,
    shown: &mut String,
) -> Result<(), AllocError> {
    let partitions = copy.partition.len();
    let same_schema = copy.schema == table.schema;
    writeln!(
        shown,
        "partition columns {partitions}, same schema: {same_schema}"
    )?;
    show_rows(&table.rows, &copy.rows.copy(alloc)?, shown)
}

/// Shows whether the rows of a copy are those that were copied.
fn show_rows(rows: &FileRows, copy: &FileRows, shown: &mut String) -> Result<(), AllocError> {
    let (count, is_empty) = (copy.len(), copy.is_empty());
    writeln!(shown, "rows {count}, empty: {is_empty}")?;
    for place in 0..=count {
        show_row(place, rows.at(place), copy.at(place), shown)?;
    }
    Ok(())
}

fn show_row(
    place: usize,
    row: Option<&FileRow>,
    copy: Option<&FileRow>,
    shown: &mut String,
) -> Result<(), AllocError> {
    let is_there = copy.is_some();
    let is_same = copy == row;
    writeln!(shown, "at {place}: a row: {is_there}, the same: {is_same}")
}

/// Leads the table to another one, by the change that is given.
fn led(alloc: Global, table: &mut Table, after: &Table) -> Result<Change, AllocError> {
    let change = table.change_to(alloc, after)?;
    table.apply(alloc, &change)?;
    Ok(change)
}

/// Shows the paths that a change takes out and the rows that it puts in.
fn show_change(shown: &mut String, change: &Change) -> Result<(), AllocError> {
    show_removed(shown, change.removed.as_slice())?;
    show_added(shown, change.added.as_slice())
}

fn show_removed(shown: &mut String, paths: &[Text]) -> Result<(), AllocError> {
    for path in paths {
        writeln!(shown, "- {}", path.as_str())?;
    }
    Ok(())
}

fn show_added(shown: &mut String, rows: &[FileRow]) -> Result<(), AllocError> {
    for row in rows {
        writeln!(shown, "+ {} of {} bytes", row.path.as_str(), row.size)?;
    }
    Ok(())
}

/// Delta's schema on the first line.
fn first_schema(alloc: Global, lines: &[&str]) -> Option<Schema> {
    let line = lines.first()?;
    from_delta(alloc, line.as_bytes()).ok()
}

/// A row of 7 records with the partition value `x`.
fn row(alloc: Global, path: &str, size: u32) -> Result<FileRow, AllocError> {
    let mut values = Items::new(alloc);
    values.push(PartValue::Text(Text::from_str(alloc, "x")?))?;
    Ok(FileRow {
        path: Text::from_str(alloc, path)?,
        values,
        count: 7,
        size: size as u64,
    })
}

/// Adds a row, where no row has its path.
fn add(alloc: Global, table: &mut Table, path: &str, size: u32) -> Result<(), AllocError> {
    let row = row(alloc, path, size)?;
    match table.rows.get(row.path.as_bytes()) {
        Some(_) => Ok(()),
        None => {
            let mut added = Items::new(alloc);
            added.push(row)?;
            let removed = Items::new(alloc);
            let change = Change {
                schema: None,
                removed,
                added,
            };
            table.apply(alloc, &change)
        }
    }
}

/// The table of the rows on these lines, each a path and a size.
fn table_of(alloc: Global, lines: &[&str]) -> Result<Table, AllocError> {
    let mut table = Table::empty(alloc, &[])?;
    for line in lines {
        if let Some((path, size)) = line.split_once(' ') {
            add(alloc, &mut table, path, size.parse::<u32>().unwrap_or(0))?;
        }
    }
    Ok(table)
}
