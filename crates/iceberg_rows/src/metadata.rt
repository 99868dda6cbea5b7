//! Steps that read the metadata of a table.
use crate::showing::show_bytes;
use iceberg_ancestry::ancestry;
use iceberg_metadata::{MetadataError, Snapshot, Snapshots, version_of_name};
use iceberg_metadata_reading::read_metadata;
use iceberg_metadata_writing::metadata_text;
use lake_basics::Blob;
use std::alloc::{AllocError, Global};

fn show_error(error: MetadataError, shown: &mut String) -> Result<(), AllocError> {
    write!(shown, "{error:?}")
}

fn written(alloc: Global, bytes: &[u8]) -> Result<Blob, MetadataError> {
    let metadata = read_metadata(alloc, bytes)?;
    metadata_text(alloc, &metadata)
}

/// Adds the metadata that bytes are, as it is written, or why it isn't read.
pub(crate) fn tell_metadata(
    alloc: Global,
    bytes: &[u8],
    shown: &mut String,
) -> Result<(), AllocError> {
    match written(alloc, bytes) {
        Ok(text) => show_bytes(text.as_slice(), shown),
        Err(error) => show_error(error, shown),
    }
}

fn ancestors(alloc: Global, bytes: &[u8]) -> Result<Snapshots, MetadataError> {
    let metadata = read_metadata(alloc, bytes)?;
    ancestry(alloc, &metadata)
}

fn show_ancestors(ancestors: &[Snapshot], shown: &mut String) -> Result<(), AllocError> {
    shown.push_str("ancestors:")?;
    for ancestor in ancestors {
        write!(shown, " {}", ancestor.id)?;
    }
    Ok(())
}

/// Adds the ids of the current snapshot and its ancestors.
pub(crate) fn tell_ancestors(
    alloc: Global,
    bytes: &[u8],
    shown: &mut String,
) -> Result<(), AllocError> {
    match ancestors(alloc, bytes) {
        Ok(ancestors) => show_ancestors(ancestors.as_slice(), shown),
        Err(error) => show_error(error, shown),
    }
}

/// Adds the version that a name in the folder of the metadata is of.
pub(crate) fn tell_version(name: &str, shown: &mut String) -> Result<(), AllocError> {
    write!(shown, "{:?}", version_of_name(name.as_bytes()))
}
