//! Commits of a Delta log as lines.
ghost use Rattle.std.specs.Prelude.{IfOk};
ghost use Rattle.table_history.specs.Tables.{CanApply};

use crate::names::tell_name_step;
use delta_change::change_of;
use delta_feeding::LineFeeder;
use delta_log::{DeltaCommit, DeltaError, FileAction, MetaData, Protocol, read_commit};
use delta_text::commit_text;
use lake_basics::{Blob, Items, Text};
use rows::{Step, bytes_given, unended};
use std::alloc::{AllocError, Global};
use table_history::{Change, Table};
use table_rows::{NOON_MS, show_change, show_names, show_text};

/// Does a step on the text of a commit, or on a name.
pub(crate) fn tell_text_step(
    alloc: Global,
    step: &Step<'_>,
    text: &str,
    shown: &mut String,
) -> Result<(), AllocError> {
    match step.words() {
        "read" => tell_commit(alloc, text.as_bytes(), shown),
        "read bytes" => tell_commit(alloc, bytes_given(alloc, text)?.as_slice(), shown),
        "cut" => tell_cuts(alloc, text.as_bytes(), shown),
        "cut unended" => tell_cuts(alloc, unended(text).as_bytes(), shown),
        "write" => tell_text(alloc, text, shown),
        "change" => tell_first(alloc, text, shown),
        _ => tell_name_step(alloc, step, shown),
    }
}

fn show_error(error: DeltaError, shown: &mut String) -> Result<(), AllocError> {
    writeln!(shown, "{error:?}")
}

fn show_features(
    word: &str,
    features: &Option<Items<Text>>,
    shown: &mut String,
) -> Result<(), AllocError> {
    match features {
        Some(features) => show_names(word, features.as_slice(), shown),
        None => Ok(()),
    }
}

fn show_protocol(protocol: &Protocol, shown: &mut String) -> Result<(), AllocError> {
    writeln!(shown, "protocol {} {}", protocol.reader, protocol.writer)?;
    show_features("reader features", &protocol.reader_features, shown)?;
    show_features("writer features", &protocol.writer_features, shown)
}

fn show_settings(settings: &[(Text, Text)], shown: &mut String) -> Result<(), AllocError> {
    for (key, value) in settings {
        writeln!(shown, "setting {} = {}", key.as_str(), value.as_str())?;
    }
    Ok(())
}

fn show_meta(meta: &MetaData, shown: &mut String) -> Result<(), AllocError> {
    let id = meta.id.as_str();
    writeln!(shown, "metadata {id}\nschema {}", meta.schema.as_str())?;
    show_names("partition", meta.partition.as_slice(), shown)?;
    show_settings(meta.configuration.as_slice(), shown)
}

fn show_value(name: &Text, value: &Option<Text>, shown: &mut String) -> Result<(), AllocError> {
    match value {
        Some(value) => write!(shown, ", {} = {:?}", name.as_str(), value.as_str()),
        None => write!(shown, ", {} = null", name.as_str()),
    }
}

fn show_values(values: &[(Text, Option<Text>)], shown: &mut String) -> Result<(), AllocError> {
    for (name, value) in values {
        show_value(name, value, shown)?;
    }
    shown.push('\n')
}

fn show_file(file: &FileAction, shown: &mut String) -> Result<(), AllocError> {
    match file {
        FileAction::Add {
            path,
            values,
            size,
            count,
        } => {
            write!(
                shown,
                "add {}, {count} records, {size} bytes",
                path.as_str()
            )?;
            show_values(values.as_slice(), shown)
        }
        FileAction::Remove { path } => writeln!(shown, "remove {}", path.as_str()),
    }
}

fn show_commit(commit: &DeltaCommit, shown: &mut String) -> Result<(), AllocError> {
    if let Some(protocol) = &commit.protocol {
        show_protocol(protocol, shown)?;
    }
    if let Some(meta) = &commit.meta {
        show_meta(meta, shown)?;
    }
    for file in commit.files.as_slice() {
        show_file(file, shown)?;
    }
    writeln!(shown, "read {} files", commit.files.len())
}

fn show_reading(
    reading: Result<DeltaCommit, DeltaError>,
    shown: &mut String,
) -> Result<(), AllocError> {
    match reading {
        Ok(commit) => show_commit(&commit, shown),
        Err(error) => show_error(error, shown),
    }
}

/// Adds what the commit of these bytes says, or why it isn't read.
fn tell_commit(alloc: Global, bytes: &[u8], shown: &mut String) -> Result<(), AllocError> {
    show_reading(read_commit(alloc, bytes), shown)
}

// ---- pieces

/// What two pieces say, of which the second one is read after a refusal too.
fn read_in_two(alloc: Global, front: &[u8], behind: &[u8]) -> Result<DeltaCommit, DeltaError> {
    let mut feeder = LineFeeder::new(alloc);
    drop(feeder.feed(front));
    drop(feeder.feed(behind));
    feeder.finish()
}

/// What as many pieces say as there are bytes.
fn read_in_bytes(alloc: Global, bytes: &[u8]) -> Result<DeltaCommit, DeltaError> {
    let mut feeder = LineFeeder::new(alloc);
    for at in 0..bytes.len() {
        drop(feeder.feed(&bytes[at..at + 1]));
    }
    feeder.finish()
}

/// Whether two pieces say this.
fn is_said_in_two(
    alloc: Global,
    front: &[u8],
    behind: &[u8],
    whole: &str,
) -> Result<bool, AllocError> {
    let mut shown = String::new(alloc);
    show_reading(read_in_two(alloc, front, behind), &mut shown)?;
    Ok(shown.as_str() == whole)
}

/// The first place at which the commit of these bytes is cut in two and says something else.
fn odd_cut(alloc: Global, bytes: &[u8], whole: &str) -> Result<Option<usize>, AllocError> {
    for at in 0..bytes.len() + 1 {
        if !is_said_in_two(alloc, &bytes[..at], &bytes[at..], whole)? {
            return Ok(Some(at));
        }
    }
    Ok(None)
}

/// Adds what the commit of these bytes says where it is read byte by byte, if that is something else.
fn tell_bytewise(
    alloc: Global,
    bytes: &[u8],
    whole: &str,
    shown: &mut String,
) -> Result<(), AllocError> {
    let mut bytewise = String::new(alloc);
    show_reading(read_in_bytes(alloc, bytes), &mut bytewise)?;
    if bytewise.as_str() == whole {
        return Ok(());
    }
    shown.push_str(bytewise.as_str())
}

/// Adds what the commit of these bytes says, and whether it says the same where it is cut in two at each
/// place, and where it is read byte by byte.
fn tell_cuts(alloc: Global, bytes: &[u8], shown: &mut String) -> Result<(), AllocError> {
    let mut whole = String::new(alloc);
    tell_commit(alloc, bytes, &mut whole)?;
    shown.push_str(whole.as_str())?;
    tell_bytewise(alloc, bytes, whole.as_str(), shown)?;
    match odd_cut(alloc, bytes, whole.as_str())? {
        None => writeln!(shown, "the same at each of {} cuts", bytes.len() + 1),
        Some(at) => writeln!(shown, "something else where it is cut at {at}"),
    }
}

// ---- texts and changes

fn text_of(alloc: Global, text: &str) -> Result<Blob, DeltaError> {
    let commit = read_commit(alloc, text.as_bytes())?;
    commit_text(alloc, &commit, NOON_MS)
}

/// Adds the text that the commit of this text is written in.
fn tell_text(alloc: Global, text: &str, shown: &mut String) -> Result<(), AllocError> {
    match text_of(alloc, text) {
        Ok(written) => show_text(written.as_slice(), shown),
        Err(error) => show_error(error, shown),
    }
}

fn first_change(alloc: Global, text: &str) -> Result<Change, DeltaError> {
    let commit = read_commit(alloc, text.as_bytes())?;
    change_of(alloc, &commit, None)
}

/// Adds the change that the commit of this text makes as the first of a table, or why it makes none.
fn tell_first(alloc: Global, text: &str, shown: &mut String) -> Result<(), AllocError> {
    match first_change(alloc, text) {
        Ok(change) => show_change(alloc, &change, shown),
        Err(error) => show_error(error, shown),
    }
}

/// The change that the commit of this text makes of the table.
fn next_change(alloc: Global, text: &str, table: &Table) -> Result<Change, DeltaError>
    ensures { IfOk result (CanApply table.now) }
{
    let commit = read_commit(alloc, text.as_bytes())?;
    change_of(alloc, &commit, Some(table))
}

/// Makes the change of the table, and adds it with the number of live files behind it.
fn show_next(
    alloc: Global,
    change: &Change,
    table: &mut Table,
    shown: &mut String,
) -> Result<(), AllocError>
    requires { CanApply table.old change.now }
{
    table.apply(alloc, change)?;
    show_change(alloc, change, shown)?;
    let removed = change.removed.len();
    let added = change.added.len();
    writeln!(
        shown,
        "{removed} removed, {added} added, {} live",
        table.rows.len()
    )
}

/// Adds the change that the commit of this text makes of the table, or why it makes none, and the number of
/// live files behind it.
pub(crate) fn tell_next(
    alloc: Global,
    text: &str,
    table: &mut Table,
    shown: &mut String,
) -> Result<(), AllocError> {
    match next_change(alloc, text, table) {
        Ok(change) => show_next(alloc, &change, table, shown),
        Err(error) => show_error(error, shown),
    }
}
