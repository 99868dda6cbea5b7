//! What a source tells of the files in a store.
ghost use Rattle.std.specs.Prelude.{IfOk};
ghost use Rattle.target_core.specs.Conditions.{IsPublishable};

use crate::shown::{show_commits, show_head, show_source_error, show_table};
use lake_basics::Text;
use lake_store::{FuseStore, Store};
use source_core::{Since, Source, SourceError};
use std::alloc::{AllocError, Global};
use table_history::Table;

/// Adds the source's head, or why there is none.
pub fn tell_head<S: Source>(
    alloc: Global,
    source: &S,
    store: &mut FuseStore,
    shown: &mut String,
) -> Result<(), AllocError> {
    match source.head(alloc, store) {
        Ok(head) => show_head(&head, shown),
        Err(error) => show_source_error(&error, shown),
    }
}

/// The table at the source's head.
pub(crate) fn table_at_head<S: Source, D: Store>(
    alloc: Global,
    source: &S,
    store: &mut D,
) -> Result<Table, SourceError>
    ensures { IfOk result IsPublishable }
{
    let head = source.head(alloc, store)?;
    source.whole(alloc, store, &head)
}

/// Adds the table at the source's head, or why it isn't read.
pub fn tell_table<S: Source>(
    alloc: Global,
    source: &S,
    store: &mut FuseStore,
    shown: &mut String,
) -> Result<(), AllocError> {
    match table_at_head(alloc, source, store) {
        Ok(table) => show_table(alloc, &table, shown),
        Err(error) => show_source_error(&error, shown),
    }
}

fn commits_since<S: Source>(
    alloc: Global,
    source: &S,
    store: &mut FuseStore,
    position: &str,
    base: &Table,
) -> Result<Since, SourceError> {
    let position = Text::from_str(alloc, position)?;
    let head = source.head(alloc, store)?;
    source.since(alloc, store, &head, &position, base)
}

/// Adds the commits of the source after a position, over this table, or why they aren't read.
pub fn tell_since<S: Source>(
    alloc: Global,
    source: &S,
    store: &mut FuseStore,
    position: &str,
    base: &Table,
    shown: &mut String,
) -> Result<(), AllocError> {
    match commits_since(alloc, source, store, position, base) {
        Ok(Since::Commits(commits)) => show_commits(alloc, commits.as_slice(), shown),
        Ok(Since::NotReached) => shown.push_str("not reached\n"),
        Err(error) => show_source_error(&error, shown),
    }
}
