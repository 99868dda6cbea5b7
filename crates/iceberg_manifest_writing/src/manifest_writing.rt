//! Manifests written.

ghost use Rattle.std.specs.Prelude.{◌≡◌, map, IfOk, IfErr};
ghost use Rattle.std.specs.List.{AllByRecursion};
ghost use Rattle.avro_value.specs.Fitting.{AreSound};
ghost use Rattle.avro_value.specs.ValueTree.{values_of};
ghost use Rattle.avro_value.specs.Writing.{values_encoding};
ghost use Rattle.avro_container.specs.Writing.{IsWritten};
ghost use Rattle.iceberg_manifest.specs.Containers.{StandsFor};
ghost use Rattle.iceberg_manifest.specs.Scans.{entries_of as entries_by};
ghost use Rattle.iceberg_manifest.specs.WrittenTypes.{manifest_type};
ghost use Rattle.iceberg_manifest.specs.ListWriting.{marker};
ghost use Rattle.iceberg_manifest.specs.ManifestWriting.{entry_tree, HasRanges, IsWritableManifest, manifest_meta as manifest_meta_of};
ghost use Rattle.iceberg_manifest_writing.specs.RowEntries.{entry_in};

use crate::container::encoded;
use crate::entry_writing::push_entry;
use crate::list_writing::{with_number, with_pair};
use crate::row_entry::RowEntry;
use crate::schema::manifest_schema;
use avro_container::Meta;
use avro_value::MAX_VALUES;
use iceberg_manifest::{ManifestError, PartColumn};
use lake_basics::{Blob, Items, Text};
use std::alloc::{AllocError, Global};

/// The entries one behind the other, encoded.
fn entry_objects(
    alloc: Global,
    front: &Text,
    entries: &[RowEntry<'_>],
) -> Result<Vec<u8>, AllocError>
    ensures bytes { IfOk
        result (λ b. b.items
        ≡ values_encoding (values_of (map entry_tree (map (entry_in front.now) entries.now)))) }
    ensures sound { IfOk
        result (λ _. AreSound (values_of (map entry_tree (map (entry_in front.now) entries.now)))) }
    ensures ranges { IfOk
        result (λ _. AllByRecursion HasRanges (map (entry_in front.now) entries.now)) }
{
    let mut out = Vec::new(alloc);
    for entry in entries {
        push_entry(&mut out, front, entry)?;
    }
    Ok(out)
}

fn manifest_meta(
    alloc: Global,
    schema_json: &Text,
    schema_id: i32,
    spec_json: &Text,
) -> Result<Meta, AllocError>
    ensures { IfOk result (λ m. m ≡ manifest_meta_of schema_json.now schema_id spec_json.now) }
{
    let pairs = with_pair(alloc, Items::new(alloc), "content", b"data")?;
    let pairs = with_pair(alloc, pairs, "format-version", b"2")?;
    let pairs = with_pair(alloc, pairs, "partition-spec", spec_json.as_bytes())?;
    let pairs = with_pair(alloc, pairs, "partition-spec-id", b"0")?;
    let pairs = with_pair(alloc, pairs, "schema", schema_json.as_bytes())?;
    with_number(alloc, pairs, "schema-id", i64::from(schema_id))
}

/// A manifest of these entries, an Avro container without compression ("Manifests"): each with its
/// status and its numbers as they are, as a Parquet file of data, whose path is the front of the
/// table's location and the row's path. The partition fields have the columns' names where each of
/// these is an Avro name, and else `p` and their ids. The container's metadata tells the JSON of the
/// schema, its id, and the JSON of the fields of the partition spec, whose id is 0. The only error is
/// want of memory.
pub fn manifest_bytes(
    alloc: Global,
    front: &Text,
    entries: &[RowEntry<'_>],
    columns: &[PartColumn],
    names: &[Text],
    schema_json: &Text,
    schema_id: i32,
    spec_json: &Text,
) -> Result<Blob, ManifestError>
    requires { IsWritableManifest MAX_VALUES columns.now names.now
        (map (entry_in front.now) entries.now) }
    ensures written { IfOk result (λ b. IsWritten MAX_VALUES b
        (manifest_meta_of schema_json.now schema_id spec_json.now)
        (manifest_type columns.now names.now) marker
        (map entry_tree (map (entry_in front.now) entries.now))) }
    // Reading gives the entries back.
    ensures reads_back { IfOk result (λ b.
        StandsFor MAX_VALUES (entries_by columns.now) b (map (entry_in front.now) entries.now)) }
    ensures err { IfErr result (λ e. e ≡ ManifestError.Memory) }
{
    let objects = entry_objects(alloc, front, entries)?;
    let schema = manifest_schema(alloc, columns, names)?;
    let meta = manifest_meta(alloc, schema_json, schema_id, spec_json)?;
    encoded(alloc, &meta, &schema, entries.len(), objects.as_slice())
}
