//! Logs in a store.
use crate::names::range_in;
use delta_compact::{CompactFault, compact, whole_compacted};
use delta_table::{Log, list_versions, read_log, version_path};
use lake_basics::limits::MAX_DELTA_VERSION;
use lake_store::FuseStore;
use rows::{Step, show_no_step};
use source_core::{Source, SourceError};
use source_delta::DeltaSource;
use std::alloc::{AllocError, Global};
use table_history::Table;
use table_rows::{put_file, put_text, show_source_error, show_table, tell_file};

/// Does a step on the files of the store, or on the log that they are.
pub(crate) fn tell_log_step(
    alloc: Global,
    store: &mut FuseStore,
    step: &Step<'_>,
    text: &str,
    shown: &mut String,
) -> Result<(), AllocError> {
    match step.word_at(0) {
        "versions" => tell_versions(alloc, store, shown),
        "file" if step.word_at(2) == "filled" => put_filled(alloc, store, step, text, shown),
        "file" => put_file(store, step, text, shown),
        "empty" => put_versions(alloc, store, step, shown),
        "show" => tell_file(alloc, store, step.word_at(1), shown),
        _ => tell_number_step(alloc, store, step, shown),
    }
}

// ---- files

/// Puts the file that words `file PATH filled to NUMBER bytes` say.
fn put_filled(
    alloc: Global,
    store: &mut FuseStore,
    step: &Step<'_>,
    text: &str,
    shown: &mut String,
) -> Result<(), AllocError> {
    match step.word_at(4).parse::<u64>() {
        Ok(length) => put_text(
            store,
            step.word_at(1),
            filled(alloc, text, length)?.as_str(),
        ),
        Err(_) => show_no_step(shown, step),
    }
}

/// The text with so many newlines behind it that it has this length.
fn filled(alloc: Global, text: &str, length: u64) -> Result<String, AllocError> {
    let mut filled = String::from_str(alloc, text)?;
    for _ in text.len() as u64..length {
        filled.push('\n')?;
    }
    Ok(filled)
}

/// Puts a version without a line at each of the numbers that words `empty versions FIRST to LAST` say.
fn put_versions(
    alloc: Global,
    store: &mut FuseStore,
    step: &Step<'_>,
    shown: &mut String,
) -> Result<(), AllocError> {
    match range_in(step) {
        Some((first, last)) => put_empty(alloc, store, first, last),
        None => show_no_step(shown, step),
    }
}

fn put_empty(
    alloc: Global,
    store: &mut FuseStore,
    first: u64,
    last: u64,
) -> Result<(), AllocError> {
    if last > MAX_DELTA_VERSION {
        return Ok(());
    }
    for version in first..last + 1 {
        put_text(store, version_path(alloc, version)?.as_str(), "")?;
    }
    Ok(())
}

// ---- numbers

/// The number that a step says: `log VERSION`, `table in NUMBER calls`, `stop at call NUMBER` or
/// `compacted table in NUMBER calls`.
fn number_in(step: &Step<'_>) -> Option<u64> {
    let place = match step.word_at(0) {
        "log" => 1,
        "table" => 2,
        _ => 3,
    };
    step.word_at(place).parse::<u64>().ok()
}

/// Does a step that a number is said to.
fn tell_number_step(
    alloc: Global,
    store: &mut FuseStore,
    step: &Step<'_>,
    shown: &mut String,
) -> Result<(), AllocError> {
    match number_in(step) {
        Some(number) => tell_number(alloc, store, step.word_at(0), number, shown),
        None => show_no_step(shown, step),
    }
}

fn tell_number(
    alloc: Global,
    store: &mut FuseStore,
    verb: &str,
    number: u64,
    shown: &mut String,
) -> Result<(), AllocError> {
    match verb {
        "log" => tell_log(alloc, store, number, shown),
        "compacted" => tell_compacted(alloc, store, number, shown),
        "table" => tell_whole(alloc, store, number, shown),
        _ => {
            store.set_stop(Some(number));
            Ok(())
        }
    }
}

// ---- logs

/// Adds which versions of the log are there.
fn tell_versions(
    alloc: Global,
    store: &mut FuseStore,
    shown: &mut String,
) -> Result<(), AllocError> {
    match list_versions(alloc, store) {
        Ok(Some(found)) => writeln!(shown, "{} to {}", found.first, found.newest),
        Ok(None) => shown.push_str("none\n"),
        Err(error) => writeln!(shown, "{error}"),
    }
}

/// Adds what the log says up to a version, or why it isn't read.
fn tell_log(
    alloc: Global,
    store: &mut FuseStore,
    newest: u64,
    shown: &mut String,
) -> Result<(), AllocError> {
    if newest > MAX_DELTA_VERSION {
        return shown.push_str("not asked: no version\n");
    }
    match read_log(alloc, store, newest) {
        Ok(log) => show_log(alloc, &log, shown),
        Err(error) => writeln!(shown, "{error}"),
    }
}

fn show_log(alloc: Global, log: &Log, shown: &mut String) -> Result<(), AllocError> {
    write!(shown, "{} by {}, ", log.meta.id.as_str(), log.meta_version)?;
    let protocol = &log.protocol;
    writeln!(
        shown,
        "reader {} writer {}",
        protocol.reader, protocol.writer
    )?;
    show_table(alloc, &log.table, shown)
}

/// Writes the log compactions, and reads the table with them.
fn read_compacted(alloc: Global, store: &mut FuseStore, calls: u64) -> Result<Table, CompactFault> {
    let done = compact(alloc, store)?;
    store.set_stop(Some(calls));
    whole_compacted(alloc, store, done.head)
}

/// Adds the table that the log makes when it is read with its log compactions, which are written first,
/// or why it isn't read in so many calls of the store.
fn tell_compacted(
    alloc: Global,
    store: &mut FuseStore,
    calls: u64,
    shown: &mut String,
) -> Result<(), AllocError> {
    let table = read_compacted(alloc, store, calls);
    store.set_stop(None);
    match table {
        Ok(table) => show_table(alloc, &table, shown),
        Err(error) => writeln!(shown, "{error}"),
    }
}

/// Finds the source's head, and reads the table there in so many calls of the store.
fn read_whole(alloc: Global, store: &mut FuseStore, calls: u64) -> Result<Table, SourceError> {
    let source = DeltaSource::new();
    let head = source.head(alloc, store)?;
    store.set_stop(Some(calls));
    source.whole(alloc, store, &head)
}

/// Adds the table at the source's head, or why it isn't read in so many calls of the store behind those
/// that find the head.
fn tell_whole(
    alloc: Global,
    store: &mut FuseStore,
    calls: u64,
    shown: &mut String,
) -> Result<(), AllocError> {
    let table = read_whole(alloc, store, calls);
    store.set_stop(None);
    match table {
        Ok(table) => show_table(alloc, &table, shown),
        Err(error) => show_source_error(&error, shown),
    }
}
