//! Properties and completed instants as lines.
use crate::times::tell_time_step;
use hudi_instant::{Instant, Stat, read_instant};
use hudi_names::HudiError;
use hudi_properties::{HudiTable, Pairs, check_properties, properties_text, read_properties};
use lake_basics::{Blob, Text};
use rows::{Step, bytes_given, unended};
use std::alloc::{AllocError, Global};
use table_rows::show_text;

/// Does a step on a text: properties or a completed instant, which stand in the lines, or a name or a time.
pub(crate) fn tell_text_step(
    alloc: Global,
    step: &Step<'_>,
    text: &str,
    shown: &mut String,
) -> Result<(), AllocError> {
    match step.words() {
        "properties" => tell_properties(alloc, text.as_bytes(), shown),
        "properties unended" => tell_properties(alloc, unended(text).as_bytes(), shown),
        "properties bytes" => {
            tell_properties(alloc, bytes_given(alloc, text)?.as_slice(), shown)
        }
        "properties text" => tell_written(alloc, text.as_bytes(), shown),
        "properties table" => tell_checked(alloc, unended(text).as_bytes(), shown),
        "instant" => tell_instant(alloc, unended(text).as_bytes(), shown),
        _ => tell_time_step(alloc, step, shown),
    }
}

/// Adds why something wasn't read.
pub(crate) fn show_error(error: HudiError, shown: &mut String) -> Result<(), AllocError> {
    writeln!(shown, "{error:?}")
}

fn show_pairs(pairs: &Pairs, shown: &mut String) -> Result<(), AllocError> {
    for (key, value) in pairs.as_slice() {
        write!(shown, "[{}]=[{}]", key.as_str(), value.as_str())?;
    }
    shown.push('\n')
}

/// Adds the keys and values of properties, or why they aren't read.
fn tell_properties(alloc: Global, bytes: &[u8], shown: &mut String) -> Result<(), AllocError> {
    match read_properties(alloc, bytes) {
        Ok(pairs) => show_pairs(&pairs, shown),
        Err(error) => show_error(error, shown),
    }
}

fn written(alloc: Global, bytes: &[u8]) -> Result<Blob, HudiError> {
    let pairs = read_properties(alloc, bytes)?;
    properties_text(alloc, &pairs)
}

/// Adds the text that properties are written in.
fn tell_written(alloc: Global, bytes: &[u8], shown: &mut String) -> Result<(), AllocError> {
    match written(alloc, bytes) {
        Ok(text) => show_text(text.as_slice(), shown),
        Err(error) => show_error(error, shown),
    }
}

fn show_partition(names: &[Text], shown: &mut String) -> Result<(), AllocError> {
    shown.push_str("partition")?;
    for name in names {
        write!(shown, " [{}]", name.as_str())?;
    }
    Ok(())
}

fn show_checked(table: &HudiTable, shown: &mut String) -> Result<(), AllocError> {
    show_partition(table.partition.as_slice(), shown)?;
    writeln!(
        shown,
        ", hive style {}, URL encoding {}, ours {}",
        table.hive_style, table.url_encode, table.ours
    )
}

fn checked(alloc: Global, bytes: &[u8]) -> Result<HudiTable, HudiError> {
    let pairs = read_properties(alloc, bytes)?;
    check_properties(alloc, &pairs)
}

/// Adds the table that properties say, or why it isn't read.
fn tell_checked(alloc: Global, bytes: &[u8], shown: &mut String) -> Result<(), AllocError> {
    match checked(alloc, bytes) {
        Ok(table) => show_checked(&table, shown),
        Err(error) => show_error(error, shown),
    }
}

// ---- instants

fn show_stat(stat: &Stat, shown: &mut String) -> Result<(), AllocError> {
    let folder = stat.partition_path.as_str();
    write!(shown, "write [{folder}] [{}] ", stat.file_id.as_str())?;
    let path = stat.path.as_str();
    writeln!(
        shown,
        "[{path}], {} records, {} bytes",
        stat.writes, stat.size
    )
}

fn show_replaced(replaced: &[(Text, Text)], shown: &mut String) -> Result<(), AllocError> {
    for (folder, id) in replaced {
        writeln!(shown, "replace [{}] [{}]", folder.as_str(), id.as_str())?;
    }
    Ok(())
}

/// Adds a line of a text behind a word, where there is one.
fn show_some(word: &str, text: &Option<Text>, shown: &mut String) -> Result<(), AllocError> {
    match text {
        Some(text) => writeln!(shown, "{word} {}", text.as_str()),
        None => Ok(()),
    }
}

fn show_instant(instant: &Instant, shown: &mut String) -> Result<(), AllocError> {
    for stat in instant.stats.as_slice() {
        show_stat(stat, shown)?;
    }
    show_replaced(instant.replaced.as_slice(), shown)?;
    show_some("schema", &instant.schema, shown)?;
    show_some("mark", &instant.mark, shown)?;
    let stats = instant.stats.len();
    writeln!(shown, "{stats} stats, {} ids", instant.replaced.len())
}

/// Adds what a completed instant says, or why it isn't read.
fn tell_instant(alloc: Global, bytes: &[u8], shown: &mut String) -> Result<(), AllocError> {
    match read_instant(alloc, bytes) {
        Ok(instant) => show_instant(&instant, shown),
        Err(error) => show_error(error, shown),
    }
}
