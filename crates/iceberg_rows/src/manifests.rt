//! Steps that read manifests and manifest lists.
use crate::showing::{show_entry, show_info, show_rows};
use iceberg_live::{Rows, live_rows, metadata_path};
use iceberg_manifest::{Entry, ManifestError, ManifestInfo, PartColumn};
use iceberg_manifest_reading::{read_list, read_manifest};
use lake_basics::Text;
use partition_map::PartKind;
use std::alloc::{AllocError, Global};

fn kind_of(word: &str) -> Option<PartKind> {
    match word {
        "boolean" => Some(PartKind::Boolean),
        "int" => Some(PartKind::Int),
        "long" => Some(PartKind::Long),
        "text" => Some(PartKind::Text),
        "date" => Some(PartKind::Date),
        _ => None,
    }
}

/// The partition column that a word as `1000:long` is.
fn column_of(word: &str) -> Option<PartColumn> {
    let (id, kind) = word.split_once(':')?;
    Some(PartColumn {
        field_id: id.parse::<i32>().ok()?,
        kind: kind_of(kind)?,
    })
}

/// The partition columns that words are.
fn columns_of(alloc: Global, words: &[&str]) -> Result<Option<Vec<PartColumn>>, AllocError> {
    let mut columns = Vec::new(alloc);
    for word in words {
        match column_of(word) {
            Some(column) => columns.push(column)?,
            None => return Ok(None),
        }
    }
    Ok(Some(columns))
}

fn show_error(error: ManifestError, shown: &mut String) -> Result<(), AllocError> {
    write!(shown, "{error:?}")
}

fn show_infos(infos: &[ManifestInfo], shown: &mut String) -> Result<(), AllocError> {
    shown.push_str("a list\n")?;
    for info in infos {
        show_info(shown, info)?;
    }
    Ok(())
}

fn show_entries(entries: &[Entry], shown: &mut String) -> Result<(), AllocError> {
    shown.push_str("a manifest\n")?;
    for entry in entries {
        show_entry(shown, entry)?;
    }
    Ok(())
}

/// Adds the rows of a manifest list.
pub(crate) fn tell_list(alloc: Global, bytes: &[u8], shown: &mut String) -> Result<(), AllocError> {
    match read_list(alloc, bytes) {
        Ok(infos) => show_infos(infos.as_slice(), shown),
        Err(error) => show_error(error, shown),
    }
}

fn tell_entries(
    alloc: Global,
    bytes: &[u8],
    columns: &[PartColumn],
    shown: &mut String,
) -> Result<(), AllocError> {
    match read_manifest(alloc, bytes, columns) {
        Ok(entries) => show_entries(entries.as_slice(), shown),
        Err(error) => show_error(error, shown),
    }
}

/// Adds the entries of a manifest with the partition columns that words are.
pub(crate) fn tell_manifest(
    alloc: Global,
    bytes: &[u8],
    words: &[&str],
    shown: &mut String,
) -> Result<(), AllocError> {
    match columns_of(alloc, words)? {
        Some(columns) => tell_entries(alloc, bytes, columns.as_slice(), shown),
        None => shown.push_str("not asked: no columns"),
    }
}

/// The live rows of a manifest without partition columns, which the first row of the list is of, in a
/// table at this location.
fn rows_of(
    alloc: Global,
    list: &[u8],
    manifest: &[u8],
    location: &str,
) -> Result<Rows, ManifestError> {
    let infos = read_list(alloc, list)?;
    let Some(info) = infos.get(0) else {
        return Err(ManifestError::Malformed);
    };
    let entries = read_manifest(alloc, manifest, &[])?;
    live_rows(alloc, entries, info, location)
}

/// Adds the live rows of a manifest, as `rows_of` has them.
pub(crate) fn tell_live(
    alloc: Global,
    list: &[u8],
    manifest: &[u8],
    location: &str,
    shown: &mut String,
) -> Result<(), AllocError> {
    match rows_of(alloc, list, manifest, location) {
        Ok(rows) => show_rows("live rows\n", rows.as_slice(), shown),
        Err(error) => show_error(error, shown),
    }
}

fn path_of(alloc: Global, location: &str, name: &str) -> Result<Text, ManifestError> {
    let name = Text::from_str(alloc, name)?;
    metadata_path(alloc, location, &name)
}

/// Adds the path in a table at this location of a list or a manifest of that name.
pub(crate) fn tell_path(
    alloc: Global,
    location: &str,
    name: &str,
    shown: &mut String,
) -> Result<(), AllocError> {
    match path_of(alloc, location, name) {
        Ok(path) => shown.push_str(path.as_str()),
        Err(error) => show_error(error, shown),
    }
}
