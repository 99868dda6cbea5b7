//! Manifests and manifest lists from their bytes.

ghost use Rattle.std.specs.Prelude.{◌≡◌, List, ◌⊎◌, map, Err, IfOk, IfErr, MatchResult, ◌≤◌, length};
ghost use Rattle.std.specs.Result.{ForOk};
ghost use Rattle.lake_basics.specs.Outcome.{GivesUnlessMemory};
ghost use Rattle.avro_schema.specs.Tree.{tree_of};
ghost use Rattle.avro_value.specs.ValueTree.{value_tree};
ghost use Rattle.iceberg_manifest.specs.Entry.{EntryData};
ghost use Rattle.iceberg_manifest.specs.Errors.{is_memory};
ghost use Rattle.iceberg_manifest.specs.Containers.{StandsFor, IsRefusedBy, scan_of, container_error as container_error_of, value_error as value_error_of};
ghost use Rattle.iceberg_manifest.specs.Scans.{entry_error as entry_error_of, entries_of as entries_by, infos_of};

use crate::list::infos;
use crate::scan::entries;
use avro_container::{Container, ContainerError, Values, read_container};
use avro_value::{AvroError, MAX_VALUES, Schema, Value};
use iceberg_manifest::{
    Entries, Entry, EntryFault, Flaw, Infos, ManifestError, ManifestInfo, PartColumn,
};
use lake_basics::{Items, ReadError};
use std::alloc::Global;
use table_history::LimitKind;

fn value_error(error: AvroError) -> ManifestError
    ensures { result ≡ value_error_of error }
{
    match error {
        AvroError::Limit { .. } => ManifestError::Limit {
            which: LimitKind::Values,
        },
        _ => ManifestError::Malformed,
    }
}

/// The error of bytes that are no container: `Codec` where it is compressed, `Limit` where it has too
/// many Avro values, and else `Malformed`.
pub fn container_error(error: ContainerError) -> ManifestError
    ensures { result ≡ container_error_of error }
{
    match error {
        ContainerError::Memory => ManifestError::Memory,
        ContainerError::Codec => ManifestError::Codec,
        ContainerError::Value(error) => value_error(error),
        _ => ManifestError::Malformed,
    }
}

fn entry_error(fault: EntryFault) -> ManifestError
    ensures { result ≡ entry_error_of fault }
{
    match fault {
        EntryFault::Malformed => ManifestError::Malformed,
        EntryFault::RowDeletes => ManifestError::RowDeletes,
        EntryFault::FileFormat => ManifestError::FileFormat,
    }
}

/// The entries that values of a manifest's schema stand for. Fields are found by their ids ("Manifest
/// Entry Fields", "Avro"): an int may stand for a long and the other way round where the value fits,
/// and a field that must be there may be a union with null, where null is as absent. The schema is
/// judged first, and then the first entry at fault is refused: as `Malformed` where it lacks a field
/// or has one of another type, as `RowDeletes` where it is live and its file is no data file, as
/// `FileFormat` where it is live and its file isn't Parquet, in this order.
pub fn entries_of(
    alloc: Global,
    schema: &Schema,
    values: &Values,
    columns: &[PartColumn],
) -> Result<Entries, ManifestError>
    ensures { GivesUnlessMemory is_memory (λ es. es) result
        (entries_by columns.now (tree_of schema.now) (map value_tree values.now)) }
{
    match entries(alloc, schema, values.as_slice(), columns) {
        Ok(entries) => Ok(Items::from_vec(entries)),
        Err(ReadError::Memory) => Err(ManifestError::Memory),
        Err(ReadError::Fault(fault)) => Err(entry_error(fault)),
    }
}

fn manifest(
    alloc: Global,
    container: Result<Container, ContainerError>,
    columns: &[PartColumn],
) -> Result<Entries, ManifestError>
    ensures { GivesUnlessMemory is_memory (λ es. es) result
        (scan_of (entries_by columns.now) container) }
{
    match container {
        Ok(container) => entries_of(alloc, &container.schema, &container.values, columns),
        Err(error) => Err(container_error(error)),
    }
}

/// The entries of a manifest, as `entries_of` has them of its values. `Codec` where it is compressed,
/// `Limit` where it has more than 16,777,216 Avro values, and `Malformed` where it is otherwise no
/// container.
pub fn read_manifest(
    alloc: Global,
    bytes: &[u8],
    columns: &[PartColumn],
) -> Result<Entries, ManifestError>
    // What is read are the entries of the manifest.
    ensures found { IfOk
        result (λ es. StandsFor MAX_VALUES (entries_by columns.now) bytes.now es) }
    // The entries of a manifest are read, unless memory runs out.
    ensures only { (es : List EntryData)
        → StandsFor MAX_VALUES (entries_by columns.now) bytes.now es
        → MatchResult result (λ found. found ≡ es) (λ e. e ≡ ManifestError.Memory) }
    // What is refused is refused as a container, or else for its values.
    ensures refused { IfErr result (λ e. (e ≡ ManifestError.Memory)
        ⊎ IsRefusedBy MAX_VALUES (entries_by columns.now) bytes.now e) }
    // What is so refused is refused so, unless memory runs out.
    ensures first { (e : ManifestError)
        → IsRefusedBy MAX_VALUES (entries_by columns.now) bytes.now e
        → (result ≡ Err e) ⊎ (result ≡ Err ManifestError.Memory) }
{
    manifest(alloc, read_container(alloc, bytes), columns)
}

fn list_rows(alloc: Global, schema: &Schema, values: &[Value]) -> Result<Infos, ManifestError>
    requires { length values.now ≤ MAX_VALUES }
    ensures { GivesUnlessMemory is_memory (λ rs. rs) result
        (infos_of (tree_of schema.now) (map value_tree values.now)) }
{
    match infos(alloc, schema, values) {
        Ok(rows) => Ok(Items::from_vec(rows)),
        Err(ReadError::Memory) => Err(ManifestError::Memory),
        Err(ReadError::Fault(Flaw::Malformed)) => Err(ManifestError::Malformed),
    }
}

fn list(alloc: Global, container: Result<Container, ContainerError>) -> Result<Infos, ManifestError>
    requires { ForOk container (λ c. length c.values ≤ MAX_VALUES) }
    ensures { GivesUnlessMemory is_memory (λ rs. rs) result (scan_of infos_of container) }
{
    match container {
        Ok(container) => list_rows(alloc, &container.schema, container.values.as_slice()),
        Err(error) => Err(container_error(error)),
    }
}

/// The rows of a manifest list, in their order and with their places in it, from 0 ("Manifest
/// Lists"). Fields are found as `entries_of` finds them. `Malformed` where a field is missing or of
/// another type, or the content is neither 0 nor 1; in a row of data a count may be missing, and then
/// is 0. `Codec`, `Limit` and `Malformed` of a container as in `read_manifest`.
pub fn read_list(alloc: Global, bytes: &[u8]) -> Result<Infos, ManifestError>
    // What is read are the rows of the list.
    ensures found { IfOk result (λ rows. StandsFor MAX_VALUES infos_of bytes.now rows) }
    // The rows of a list are read, unless memory runs out.
    ensures only { (rows : List ManifestInfo) → StandsFor MAX_VALUES infos_of bytes.now rows
        → MatchResult result (λ found. found ≡ rows) (λ e. e ≡ ManifestError.Memory) }
    // What is refused is refused as a container, or else for its values.
    ensures refused { IfErr result (λ e. (e ≡ ManifestError.Memory)
        ⊎ IsRefusedBy MAX_VALUES infos_of bytes.now e) }
    // What is so refused is refused so, unless memory runs out.
    ensures first { (e : ManifestError) → IsRefusedBy MAX_VALUES infos_of bytes.now e
        → (result ≡ Err e) ⊎ (result ≡ Err ManifestError.Memory) }
{
    list(alloc, read_container(alloc, bytes))
}
