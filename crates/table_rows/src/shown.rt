//! Tables, changes, commits and refusals as lines.
use lake_basics::Text;
use schema_delta::to_delta;
use source_core::{Head, SourceError};
use std::alloc::{AllocError, Global};
use table_history::{Change, Commit, FileRow, Schema, Table};
use table_lines::{row_line, rows_in_order};
use target_core::TargetError;

/// Adds a line.
pub fn show_line(shown: &mut String, line: &str) -> Result<(), AllocError> {
    shown.push_str(line)?;
    shown.push('\n')
}

/// Adds a table: its schema as Delta's text, the names of its partition columns, and a line for each live
/// file, in the order of their paths.
pub fn show_table(alloc: Global, table: &Table, shown: &mut String) -> Result<(), AllocError> {
    show_schema(alloc, &table.schema, shown)?;
    show_names("partition", table.partition.as_slice(), shown)?;
    show_rows(alloc, rows_in_order(alloc, &table.rows)?.as_slice(), shown)
}

/// Adds a line of these names behind a word.
pub fn show_names(word: &str, names: &[Text], shown: &mut String) -> Result<(), AllocError> {
    shown.push_str(word)?;
    for name in names {
        write!(shown, " {}", name.as_str())?;
    }
    shown.push('\n')
}

fn show_rows(alloc: Global, rows: &[&FileRow], shown: &mut String) -> Result<(), AllocError> {
    for row in rows {
        show_row(alloc, "", row, shown)?;
    }
    Ok(())
}

fn show_schema(alloc: Global, schema: &Schema, shown: &mut String) -> Result<(), AllocError> {
    shown.push_str("schema ")?;
    match to_delta(alloc, schema) {
        Ok(text) => show_line(shown, text.as_str()),
        Err(_) => show_line(shown, "that Delta can't spell"),
    }
}

/// Adds the line of a live file behind a word.
fn show_row(
    alloc: Global,
    word: &str,
    row: &FileRow,
    shown: &mut String,
) -> Result<(), AllocError> {
    shown.push_str(word)?;
    let line = row_line(alloc, row)?;
    match str::from_utf8(line.as_slice()) {
        Ok(line) => shown.push_str(line),
        Err(_) => show_line(shown, "no text"),
    }
}

/// Adds a change: the schema that it states, if it states one, the paths that it removes behind `remove`, and
/// the files that it adds behind `add`.
pub fn show_change(alloc: Global, change: &Change, shown: &mut String) -> Result<(), AllocError> {
    if let Some(schema) = &change.schema {
        show_schema(alloc, schema, shown)?;
    }
    for path in change.removed.as_slice() {
        shown.push_str("remove ")?;
        show_line(shown, path.as_str())?;
    }
    for row in change.added.as_slice() {
        show_row(alloc, "add ", row, shown)?;
    }
    Ok(())
}

/// Adds commits: for each its position behind `at`, and its change.
pub(crate) fn show_commits(
    alloc: Global,
    commits: &[Commit],
    shown: &mut String,
) -> Result<(), AllocError> {
    if commits.is_empty() {
        return show_line(shown, "no commit");
    }
    for commit in commits {
        writeln!(shown, "at {}", commit.position.as_str())?;
        show_change(alloc, &commit.change, shown)?;
    }
    Ok(())
}

/// The text, or `none`.
pub fn or_none(text: Option<&Text>) -> &str {
    match text {
        Some(text) => text.as_str(),
        None => "none",
    }
}

/// Adds a source's head: the id of its table, its position, and the first commit that is pending behind it.
pub(crate) fn show_head(head: &Head, shown: &mut String) -> Result<(), AllocError> {
    let table = or_none(head.table.as_ref());
    let pending = or_none(head.pending.as_ref());
    writeln!(
        shown,
        "{table} at {}, pending {pending}",
        head.position.as_str()
    )
}

/// Adds why a source wasn't read, with the path at fault.
pub fn show_source_error(error: &SourceError, shown: &mut String) -> Result<(), AllocError> {
    match error {
        SourceError::Malformed { path } => writeln!(shown, "malformed {}", path.as_str()),
        SourceError::Unsupported { feature, path } => {
            writeln!(shown, "{} {}", feature.word(), path.as_str())
        }
        error => writeln!(shown, "{error}"),
    }
}

/// Adds why a target refused a call, with the path, the column or the number at fault.
pub(crate) fn show_target_error(error: &TargetError, shown: &mut String) -> Result<(), AllocError> {
    match error {
        TargetError::Limit { which, number } => writeln!(shown, "{} {number}", which.word()),
        TargetError::Unsupported { feature, path } => show_unsupported(feature.word(), path, shown),
        error => writeln!(shown, "{error}"),
    }
}

/// Adds what isn't supported, and the path at fault, if there is one.
fn show_unsupported(feature: &str, path: &Text, shown: &mut String) -> Result<(), AllocError> {
    shown.push_str(feature)?;
    if !path.as_str().is_empty() {
        write!(shown, " {}", path.as_str())?;
    }
    shown.push('\n')
}
