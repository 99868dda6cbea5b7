//! Writing containers.

ghost use Rattle.std.specs.Prelude.{◌≡◌, Ok, ◌++◌, ◌*◌, ◌<◌, ◌^◌, ◌∷◌, List, length, map, OnOk, IfOk, IfErr};
ghost use Rattle.std.specs.List.{AllByRecursion};
ghost use Rattle.serde_json.specs.Written.{compact_text};
ghost use Rattle.avro_schema.specs.Tree.{tree_of};
ghost use Rattle.avro_schema.specs.Writing.{json_of};
ghost use Rattle.avro_schema.specs.Spelled.{IsSpelled};
ghost use Rattle.avro_schema.specs.Plain.{IsPlain};
ghost use Rattle.avro_schema.specs.Reading.{schema_of};
ghost use Rattle.avro_value.specs.Layout.{layout_of};
ghost use Rattle.avro_value.specs.ValueTree.{ValueTree, value_tree, values_of};
ghost use Rattle.avro_value.specs.Writing.{values_encoding};
ghost use Rattle.avro_value.specs.Fitting.{AreSound, Fits};
ghost use Rattle.avro_container.specs.Writing.{pairs_text, meta_text, block_text, objects_text, ArePairs, AreEncoded, IsFree, AreWritten, IsWritten};
ghost use Rattle.avro_container.specs.Format.{schema_name, codec_name, null_codec};

use crate::container::Meta;
use crate::error::ContainerError;
use avro_schema::Schema;
use avro_value::{MAX_VALUES, Value, push_blob, push_bytes, push_natural, push_text, push_values};
use lake_basics::{Blob, Text};
use std::alloc::{AllocError, Global};

/// Adds names and their bytes one behind the other.
fn push_pairs(out: &mut Vec<u8>, pairs: &[(Text, Blob)]) -> Result<(), AllocError>
    ensures text { OnOk result (out.new.items ≡ out.old.items ++ pairs_text pairs.now) }
    ensures are { OnOk result (ArePairs pairs.now) }
{
    for pair in pairs {
        push_text(out, &pair.0)?;
        push_blob(out, &pair.1)?;
    }
    Ok(())
}

/// Adds a map of bytes.
fn push_meta(out: &mut Vec<u8>, pairs: &Vec<(Text, Blob)>) -> Result<(), AllocError>
    ensures text { OnOk result (out.new.items ≡ out.old.items ++ meta_text pairs.now.items) }
    ensures are { OnOk result (ArePairs pairs.now.items) }
{
    if !pairs.is_empty() {
        push_natural(out, pairs.len() as u64)?;
        push_pairs(out, pairs)?;
    }
    push_bytes(out, &[0])
}

/// The objects one behind the other.
fn objects(alloc: Global, values: &[Value]) -> Result<Vec<u8>, AllocError>
    ensures bytes { IfOk
        result (λ v. v.items ≡ values_encoding (values_of (map value_tree values.now))) }
    ensures sound { IfOk result (λ _. AreSound (values_of (map value_tree values.now))) }
{
    let mut out = Vec::new(alloc);
    push_values(&mut out, values)?;
    Ok(out)
}

/// Adds one block, or none where there are no values.
fn push_block(
    out: &mut Vec<u8>,
    count: usize,
    objects: &[u8],
    marker: &[u8],
) -> Result<(), AllocError>
    requires { count < 2 ^ 63 }
    ensures { OnOk
        result (out.new.items ≡ out.old.items ++ block_text count objects.now marker.now) }
{
    if count == 0 {
        return Ok(());
    }
    push_natural(out, count as u64)?;
    push_natural(out, objects.len() as u64)?;
    push_bytes(out, objects)?;
    push_bytes(out, marker)
}

/// A container of so many objects, with the metadata as it stands.
fn container(
    alloc: Global,
    meta: &Vec<(Text, Blob)>,
    count: usize,
    objects: &[u8],
    marker: [u8; 16],
) -> Result<Vec<u8>, AllocError>
    requires { count < 2 ^ 63 }
    ensures text { IfOk
        result (λ b. b.items ≡ objects_text meta.now.items marker count objects.now) }
    ensures are { IfOk result (λ _. ArePairs meta.now.items) }
    ensures small { length objects.now < 2 ^ 63 }
{
    let mut out = Vec::new(alloc);
    push_bytes(&mut out, b"Obj\x01")?;
    push_meta(&mut out, meta)?;
    push_bytes(&mut out, &marker)?;
    push_block(&mut out, count, objects, &marker)?;
    Ok(out)
}

/// The metadata with the codec and the schema before it.
fn with_schema(alloc: Global, meta: &Meta, schema: &[u8]) -> Result<Vec<(Text, Blob)>, AllocError>
    ensures { IfOk
        result (λ ps. ps.items ≡ (codec_name, null_codec) ∷ (schema_name, schema.now) ∷ meta.now) }
{
    let mut pairs = Vec::new(alloc);
    let codec = Text::from_str(alloc, "avro.codec")?;
    pairs.push((codec, Blob::from_slice(alloc, b"null")?))?;
    let name = Text::from_str(alloc, "avro.schema")?;
    pairs.push((name, Blob::from_slice(alloc, schema)?))?;
    for pair in meta.as_slice() {
        let name = pair.0.copy(alloc)?;
        pairs.push((name, pair.1.copy(alloc)?))?;
    }
    Ok(pairs)
}

/// The metadata as it is written.
fn metadata(alloc: Global, meta: &Meta, schema: &[u8]) -> Result<Vec<(Text, Blob)>, AllocError>
    ensures { IfOk result (λ ps. AreWritten meta.now schema.now ps.items) }
{
    let mut pairs = with_schema(alloc, meta, schema)?;
    pairs.sort_by(|a, b| a.0.as_bytes().cmp(b.0.as_bytes()))?;
    Ok(pairs)
}

fn schema_text(alloc: Global, schema: &Schema) -> Result<Blob, AllocError>
    ensures text { IfOk result (λ b. b ≡ compact_text (json_of (tree_of schema.now))) }
    ensures reads_back { IfOk result (λ b. IsSpelled (tree_of schema.now)
        → schema_of b ≡ Ok (tree_of schema.now)) }
{
    match schema.to_json(alloc) {
        Ok(text) => Ok(text),
        Err(_) => Err(AllocError),
    }
}

fn written(
    alloc: Global,
    meta: &Meta,
    schema: &Schema,
    count: usize,
    objects: &[u8],
    marker: [u8; 16],
) -> Result<Vec<u8>, AllocError>
    requires many { count < 2 ^ 63 }
    requires free { IsFree MAX_VALUES meta.now }
    ensures { (vs : List ValueTree)
        → AreEncoded (layout_of (tree_of schema.now)) vs count objects.now
        → IfOk result (λ b. IsWritten MAX_VALUES b.items meta.now (tree_of schema.now) marker vs) }
{
    let text = schema_text(alloc, schema)?;
    let pairs = metadata(alloc, meta, text.as_slice())?;
    container(alloc, &pairs, count, objects, marker)
}

/// A container of the schema and of so many objects of it, fewer than 2^63, that are encoded one behind
/// the other ("Object Container Files"). It is what `write_container` makes of their values, which
/// need not be in memory together. The only error is want of memory.
pub fn write_encoded(
    alloc: Global,
    meta: &Meta,
    schema: &Schema,
    count: usize,
    objects: &[u8],
    marker: [u8; 16],
) -> Result<Blob, ContainerError>
    requires many { count < 2 ^ 63 }
    requires free { IsFree MAX_VALUES meta.now }
    ensures written { (vs : List ValueTree)
        → AreEncoded (layout_of (tree_of schema.now)) vs count objects.now
        → IfOk result (λ b. IsWritten MAX_VALUES b meta.now (tree_of schema.now) marker vs) }
    // A text can spell each schema that gives no name twice and keeps to the grammar.
    ensures plain { IsPlain (tree_of schema.now) → IsSpelled (tree_of schema.now) }
    ensures err { IfErr result (λ e. e ≡ ContainerError.Memory) }
{
    match written(alloc, meta, schema, count, objects, marker) {
        Ok(bytes) => Ok(Blob::from_vec(bytes)),
        Err(_) => Err(ContainerError::Memory),
    }
}

/// A container of the schema and the values, in one block, or none where there are no values. Its
/// metadata has the codec and the schema besides, and is in byte order of the names. The only error
/// is want of memory.
pub fn write_container(
    alloc: Global,
    meta: &Meta,
    schema: &Schema,
    values: &[Value],
    marker: [u8; 16],
) -> Result<Blob, ContainerError>
    requires fit { AllByRecursion (Fits (layout_of (tree_of schema.now)))
        (map value_tree values.now) }
    requires free { IsFree MAX_VALUES meta.now }
    ensures written { IfOk result (λ b.
        IsWritten MAX_VALUES b meta.now (tree_of schema.now) marker (map value_tree values.now)) }
    // A text can spell each schema that gives no name twice and keeps to the grammar.
    ensures plain { IsPlain (tree_of schema.now) → IsSpelled (tree_of schema.now) }
    ensures err { IfErr result (λ e. e ≡ ContainerError.Memory) }
{
    match objects(alloc, values) {
        Ok(objects) => write_encoded(alloc, meta, schema, values.len(), &objects, marker),
        Err(_) => Err(ContainerError::Memory),
    }
}
