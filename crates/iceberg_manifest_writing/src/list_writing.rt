//! Manifest lists written.

ghost use Rattle.std.specs.Prelude.{◌≡◌, ◌++◌, ◌∷◌, [], map, IfOk, IfErr, string_bytes};
ghost use Rattle.std.specs.Fmt.{signed_decimal};
ghost use Rattle.std.specs.List.{AllByRecursion};
ghost use Rattle.avro_value.specs.ValueTree.{value_tree};
ghost use Rattle.avro_container.specs.Writing.{IsWritten};
ghost use Rattle.iceberg_manifest.specs.Containers.{StandsFor};
ghost use Rattle.iceberg_manifest.specs.Scans.{infos_of};
ghost use Rattle.iceberg_manifest.specs.WrittenTypes.{list_type};
ghost use Rattle.iceberg_manifest.specs.ListWriting.{marker, info_tree, IsWritableList, HasInts, parent_text as parent_text_of, list_meta as list_meta_of};

use crate::container::written;
use crate::schema::list_schema;
use avro_container::Meta;
use avro_value::{MAX_VALUES, Value};
use iceberg_manifest::{ManifestError, ManifestInfo};
use lake_basics::{Blob, Items, Text};
use std::alloc::{AllocError, Global};

fn info_value(alloc: Global, info: &ManifestInfo) -> Result<Value, AllocError>
    ensures tree { IfOk result (λ v. value_tree v ≡ info_tree info.now) }
    ensures ints { IfOk result (λ _. HasInts info.now) }
{
    let values = vec![in alloc;
        Value::Text(info.manifest_path.copy(alloc)?),
        Value::Long(info.manifest_length),
        Value::Int(info.partition_spec_id),
        Value::Int(info.content),
        Value::Long(info.sequence_number),
        Value::Long(info.min_sequence_number),
        Value::Long(info.added_snapshot_id),
        Value::Int(info.added_files_count),
        Value::Int(info.existing_files_count),
        Value::Int(info.deleted_files_count),
        Value::Long(info.added_rows_count),
        Value::Long(info.existing_rows_count),
        Value::Long(info.deleted_rows_count),
    ]?;
    Ok(Value::Fields(values))
}

fn info_values(alloc: Global, infos: &[ManifestInfo]) -> Result<Vec<Value>, AllocError>
    ensures trees { IfOk result (λ vs. map value_tree vs.items ≡ map info_tree infos.now) }
    ensures ints { IfOk result (λ _. AllByRecursion HasInts infos.now) }
{
    let mut values = Vec::with_capacity(alloc, infos.len())?;
    for info in infos {
        values.push(info_value(alloc, info)?)?;
    }
    Ok(values)
}

/// The pairs with one more behind them.
pub(crate) fn with_pair(
    alloc: Global,
    pairs: Meta,
    name: &str,
    bytes: &[u8],
) -> Result<Meta, AllocError>
    ensures { IfOk result (λ ps. ps ≡ pairs ++ (name.now, bytes.now) ∷ []) }
{
    let mut pairs = pairs;
    let name = Text::from_str(alloc, name)?;
    pairs.push((name, Blob::from_slice(alloc, bytes)?))?;
    Ok(pairs)
}

/// The pairs with a whole number behind them.
pub(crate) fn with_number(
    alloc: Global,
    pairs: Meta,
    name: &str,
    number: i64,
) -> Result<Meta, AllocError>
    ensures { IfOk result (λ ps. ps ≡ pairs ++ (name.now, signed_decimal number) ∷ []) }
{
    let text = number.to_string(alloc)?;
    with_pair(alloc, pairs, name, text.as_bytes())
}

fn parent_text(alloc: Global, parent: Option<i64>) -> Result<String, AllocError>
    ensures { IfOk result (λ s. string_bytes s ≡ parent_text_of parent) }
{
    match parent {
        None => String::from_str(alloc, "null"),
        Some(id) => id.to_string(alloc),
    }
}

fn list_meta(
    alloc: Global,
    snapshot: i64,
    parent: Option<i64>,
    sequence: i64,
) -> Result<Meta, AllocError>
    ensures { IfOk result (λ m. m ≡ list_meta_of snapshot parent sequence) }
{
    let parent = parent_text(alloc, parent)?;
    let pairs = with_pair(alloc, Items::new(alloc), "format-version", b"2")?;
    let pairs = with_pair(alloc, pairs, "parent-snapshot-id", parent.as_bytes())?;
    let pairs = with_number(alloc, pairs, "sequence-number", sequence)?;
    with_number(alloc, pairs, "snapshot-id", snapshot)
}

/// A manifest list of these rows, an Avro container without compression ("Manifest Lists"). It tells
/// the snapshot that it is of, that one's parent and sequence number. The only error is want of
/// memory.
pub fn list_bytes(
    alloc: Global,
    infos: &[ManifestInfo],
    snapshot: i64,
    parent: Option<i64>,
    sequence: i64,
) -> Result<Blob, ManifestError>
    requires { IsWritableList MAX_VALUES infos.now }
    ensures written { IfOk result (λ b. IsWritten MAX_VALUES b
        (list_meta_of snapshot parent sequence) list_type marker (map info_tree infos.now)) }
    // Reading gives the rows back.
    ensures reads_back { IfOk result (λ b. StandsFor MAX_VALUES infos_of b infos.now) }
    ensures err { IfErr result (λ e. e ≡ ManifestError.Memory) }
{
    let values = info_values(alloc, infos)?;
    let schema = list_schema(alloc)?;
    let meta = list_meta(alloc, snapshot, parent, sequence)?;
    written(alloc, meta, schema, values)
}
