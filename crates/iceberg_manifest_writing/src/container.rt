//! The containers that are written.

ghost use Rattle.std.specs.Prelude.{◌≡◌, ◌<◌, ◌^◌, List, map, IfOk, IfErr};
ghost use Rattle.std.specs.List.{AllByRecursion};
ghost use Rattle.avro_schema.specs.Plain.{IsPlain};
ghost use Rattle.avro_schema.specs.Spelled.{IsSpelled};
ghost use Rattle.avro_schema.specs.Tree.{tree_of};
ghost use Rattle.avro_value.specs.Fitting.{Fits};
ghost use Rattle.avro_value.specs.Layout.{layout_of};
ghost use Rattle.avro_value.specs.ValueTree.{ValueTree, value_tree};
ghost use Rattle.avro_container.specs.Writing.{AreEncoded, IsFree, IsWritten};
ghost use Rattle.iceberg_manifest.specs.ListWriting.{marker};

use avro_container::{Meta, write_container, write_encoded};
use avro_value::{MAX_VALUES, Schema, Value};
use iceberg_manifest::ManifestError;
use lake_basics::Blob;
use std::alloc::Global;

const MARKER: [u8; 16] = *b"lakebridge-sync!";

fn container_of(
    alloc: Global,
    meta: &Meta,
    schema: &Schema,
    values: &[Value],
) -> Result<Blob, ManifestError>
    requires fit { AllByRecursion (Fits (layout_of (tree_of schema.now)))
        (map value_tree values.now) }
    requires free { IsFree MAX_VALUES meta.now }
    ensures written { IfOk result (λ b.
        IsWritten MAX_VALUES b meta.now (tree_of schema.now) marker (map value_tree values.now)) }
    ensures plain { IsPlain (tree_of schema.now) → IsSpelled (tree_of schema.now) }
    ensures err { IfErr result (λ e. e ≡ ManifestError.Memory) }
{
    match write_container(alloc, meta, schema, values, MARKER) {
        Ok(bytes) => Ok(bytes),
        Err(_) => Err(ManifestError::Memory),
    }
}

/// A container of so many objects of the schema, which are encoded one behind the other, without
/// compression, with this metadata. The only error is want of memory.
pub(crate) fn encoded(
    alloc: Global,
    meta: &Meta,
    schema: &Schema,
    count: usize,
    objects: &[u8],
) -> Result<Blob, ManifestError>
    requires many { count < 2 ^ 63 }
    requires free { IsFree MAX_VALUES meta.now }
    ensures written { (vs : List ValueTree)
        → AreEncoded (layout_of (tree_of schema.now)) vs count objects.now
        → IfOk result (λ b. IsWritten MAX_VALUES b meta.now (tree_of schema.now) marker vs) }
    ensures plain { IsPlain (tree_of schema.now) → IsSpelled (tree_of schema.now) }
    ensures err { IfErr result (λ e. e ≡ ManifestError.Memory) }
{
    match write_encoded(alloc, meta, schema, count, objects, MARKER) {
        Ok(bytes) => Ok(bytes),
        Err(_) => Err(ManifestError::Memory),
    }
}

/// A container of these values of the schema, without compression, with this metadata. The only
/// error is want of memory.
pub(crate) fn written(
    alloc: Global,
    meta: Meta,
    schema: Schema,
    values: Vec<Value>,
) -> Result<Blob, ManifestError>
    requires fit { AllByRecursion (Fits (layout_of (tree_of schema))) (map value_tree values.items) }
    requires free { IsFree MAX_VALUES meta }
    ensures written { IfOk result (λ b.
        IsWritten MAX_VALUES b meta (tree_of schema) marker (map value_tree values.items)) }
    ensures plain { IsPlain (tree_of schema) → IsSpelled (tree_of schema) }
    ensures err { IfErr result (λ e. e ≡ ManifestError.Memory) }
{
    container_of(alloc, &meta, &schema, values.as_slice())
}
