//! Steps that read a table from its folder.
use crate::showing::show_rows;
use iceberg_metadata::Metadata;
use iceberg_table::{
    IcebergError, MetadataNames, SnapshotTable, list_metadata, read_snapshot, read_version,
};
use lake_basics::Text;
use lake_store::{MemoryStore, Store};
use std::alloc::{AllocError, Global};

fn name_or_none(name: Option<&Text>) -> &str {
    match name {
        Some(name) => name.as_str(),
        None => "none",
    }
}

fn show_refusal(error: &IcebergError, shown: &mut String) -> Result<(), AllocError> {
    match error {
        IcebergError::Refused { path, fault } => write!(shown, "{}: {fault:?}", path.as_str()),
        IcebergError::Missing { path } => write!(shown, "{} is missing", path.as_str()),
        error => write!(shown, "{error}"),
    }
}

fn show_found(found: &MetadataNames, shown: &mut String) -> Result<(), AllocError> {
    let compressed = name_or_none(found.first_compressed());
    let metadata = name_or_none(found.first_metadata());
    write!(
        shown,
        "newest {:?}, compressed {compressed}, metadata {metadata}",
        found.newest
    )
}

/// Adds what the names in the folder of the metadata tell.
pub(crate) fn tell_names(
    alloc: Global,
    store: &mut MemoryStore,
    shown: &mut String,
) -> Result<(), AllocError> {
    match list_metadata(alloc, store) {
        Ok(found) => show_found(&found, shown),
        Err(error) => show_refusal(&error, shown),
    }
}

/// Adds the names of the files in the folder of the metadata.
pub(crate) fn tell_files(
    alloc: Global,
    store: &mut MemoryStore,
    shown: &mut String,
) -> Result<(), AllocError> {
    match store.list(alloc, "metadata") {
        Ok(names) => show_names(names.as_slice(), shown),
        Err(_) => Err(AllocError),
    }
}

fn show_names(names: &[Text], shown: &mut String) -> Result<(), AllocError> {
    for name in names {
        writeln!(shown, "{}", name.as_str())?;
    }
    Ok(())
}

fn show_snapshot(read: &SnapshotTable, shown: &mut String) -> Result<(), AllocError> {
    shown.push_str("a snapshot\n")?;
    for manifest in read.manifests.as_slice() {
        show_rows("", manifest.rows.as_slice(), shown)?;
    }
    Ok(())
}

/// The table of the first snapshot of this version of the metadata.
fn snapshot_in(
    alloc: Global,
    store: &mut MemoryStore,
    metadata: &Metadata,
    version: u32,
) -> Result<Option<SnapshotTable>, IcebergError> {
    match metadata.snapshots.get(0) {
        None => Ok(None),
        Some(snapshot) => Ok(Some(read_snapshot(alloc, store, metadata, version, snapshot)?)),
    }
}

/// The table of the first snapshot of a version of the metadata.
fn first_snapshot(
    alloc: Global,
    store: &mut MemoryStore,
    version: u32,
) -> Result<Option<SnapshotTable>, IcebergError> {
    let metadata = read_version(alloc, store, version)?;
    snapshot_in(alloc, store, &metadata, version)
}

/// Adds the live rows of the first snapshot of a version of the metadata, manifest by manifest.
pub(crate) fn tell_snapshot(
    alloc: Global,
    store: &mut MemoryStore,
    version: &str,
    shown: &mut String,
) -> Result<(), AllocError> {
    match version.parse::<u32>() {
        Ok(version) => tell_first(alloc, store, version, shown),
        Err(_) => shown.push_str("not asked: the version is no number"),
    }
}

fn tell_first(
    alloc: Global,
    store: &mut MemoryStore,
    version: u32,
    shown: &mut String,
) -> Result<(), AllocError> {
    match first_snapshot(alloc, store, version) {
        Ok(Some(read)) => show_snapshot(&read, shown),
        Ok(None) => shown.push_str("no snapshot"),
        Err(error) => show_refusal(&error, shown),
    }
}
