//! The parts of Iceberg tables as lines of a transcript.
use iceberg_live::LiveRow;
use iceberg_manifest::{Entry, ManifestInfo};
use std::alloc::AllocError;
use table_history::PartValue;

fn push_value(shown: &mut String, value: &PartValue) -> Result<(), AllocError> {
    match value {
        PartValue::Null => shown.push_str("null"),
        PartValue::Boolean(is) => write!(shown, "boolean {is}"),
        PartValue::Int(number) => write!(shown, "int {number}"),
        PartValue::Long(number) => write!(shown, "long {number}"),
        PartValue::Text(text) => write!(shown, "text {:?}", text.as_str()),
        PartValue::Date(days) => write!(shown, "date {days}"),
    }
}

fn push_behind(shown: &mut String, front: &str, value: &PartValue) -> Result<(), AllocError> {
    shown.push_str(front)?;
    push_value(shown, value)
}

/// Adds values of partition columns, in brackets.
fn push_values(shown: &mut String, values: &[PartValue]) -> Result<(), AllocError> {
    let mut front = "[";
    for value in values {
        push_behind(shown, front, value)?;
        front = ", ";
    }
    shown.push_str(if values.is_empty() { "[]" } else { "]" })
}

fn status_word(status: u8) -> &'static str {
    match status {
        0 => "existing",
        1 => "added",
        _ => "deleted",
    }
}

/// Adds the line of an entry of a manifest.
pub(crate) fn show_entry(shown: &mut String, entry: &Entry) -> Result<(), AllocError> {
    let path = entry.path.as_str();
    write!(shown, "{} {path} ", status_word(entry.status))?;
    push_values(shown, entry.values.as_slice())?;
    show_entry_numbers(shown, entry)
}

fn show_entry_numbers(shown: &mut String, entry: &Entry) -> Result<(), AllocError> {
    write!(shown, ": count {}, size {}, ", entry.count, entry.size)?;
    writeln!(
        shown,
        "snapshot {:?}, sequence {:?}, file sequence {:?}",
        entry.snapshot, entry.sequence, entry.file_sequence
    )
}

/// Adds the line of a live row.
fn show_live(shown: &mut String, live: &LiveRow) -> Result<(), AllocError> {
    let row = &live.row;
    write!(shown, "{} ", row.path.as_str())?;
    push_values(shown, row.values.as_slice())?;
    write!(shown, ": count {}, size {}, ", row.count, row.size)?;
    writeln!(
        shown,
        "snapshot {}, sequence {}",
        live.snapshot, live.sequence
    )
}

/// Adds a line for each of the live rows, behind a text.
pub(crate) fn show_rows(
    front: &str,
    rows: &[LiveRow],
    shown: &mut String,
) -> Result<(), AllocError> {
    shown.push_str(front)?;
    for live in rows {
        show_live(shown, live)?;
    }
    Ok(())
}

/// Adds the line of a row of a manifest list.
pub(crate) fn show_info(shown: &mut String, info: &ManifestInfo) -> Result<(), AllocError> {
    write!(
        shown,
        "{}: length {}, spec {}, content {}, ",
        info.manifest_path.as_str(),
        info.manifest_length,
        info.partition_spec_id,
        info.content
    )?;
    write!(
        shown,
        "sequence {}, least {}, snapshot {}, ",
        info.sequence_number, info.min_sequence_number, info.added_snapshot_id
    )?;
    writeln!(
        shown,
        "files {} {} {}, rows {} {} {}",
        info.added_files_count,
        info.existing_files_count,
        info.deleted_files_count,
        info.added_rows_count,
        info.existing_rows_count,
        info.deleted_rows_count
    )
}

/// Adds bytes as a text where they are one of printable lines, else with a byte that isn't printable ASCII as
/// `\x` and two digits.
pub(crate) fn show_bytes(bytes: &[u8], shown: &mut String) -> Result<(), AllocError> {
    match str::from_utf8(bytes) {
        Ok(text) if !text.contains(|c: char| c < ' ' && c != '\n') => shown.push_str(text),
        _ => push_escaped(shown, bytes),
    }
}

fn push_escaped(shown: &mut String, bytes: &[u8]) -> Result<(), AllocError> {
    for byte in bytes {
        push_byte(shown, *byte)?;
    }
    Ok(())
}

fn push_byte(shown: &mut String, byte: u8) -> Result<(), AllocError> {
    if byte.is_ascii_graphic() || byte == b' ' {
        shown.push(char::from(byte))
    } else {
        write!(shown, "\\x{byte:02x}")
    }
}
