//! Writing the metadata of a table.

ghost use Rattle.std.specs.Prelude.{◌≡◌, ◌≤◌, false, Some, codes, map, Ok, FitsSigned, IfOk, IfErr, OnOk, IfSome};
ghost use Rattle.std.specs.Int.{w32, w64};
ghost use Rattle.std.specs.List.{AllByRecursion};
ghost use Rattle.serde_json.specs.Data.{string, array, object, no_members, member, depth};
ghost use Rattle.serde_json.specs.Read.{max_depth};
ghost use Rattle.serde_json.specs.Written.{compact_text, has_float};
ghost use Rattle.serde_json.specs.View.{view, items_of, members_view};
ghost use Rattle.json_reading.specs.Json.{members_with, IsReadAgain};
ghost use Rattle.iceberg_metadata.specs.Judging.{metadata_of};
ghost use Rattle.iceberg_metadata.specs.declared.error.MetadataError.TheVariants as errors;
ghost use Rattle.iceberg_metadata.specs.declared.metadata.Metadata.{Metadata};
ghost use Rattle.iceberg_metadata.specs.Writing.{whole_data, spec_field_data, spec_data, put_whole, put_operation, snapshot_members, snapshot_data, schema_data, refs_data, orders_data, current_members, put_last, put_table, put_parts, metadata_data, metadata_text, IsWritable, SameMetadata};
ghost use Rattle.iceberg_metadata.specs.Writing.{FieldFits, SpecFits, SnapshotFits, SchemaFits, LastFit, MetadataFits};

use iceberg_metadata::{Metadata, MetadataError, Snapshot, Spec, SpecField};
use json_reading::{text_value, texts_object};
use lake_basics::{Blob, Text};
use schema_iceberg::iceberg_json;
use schema_map::Ids;
use serde_json::{Map, Value, json, put};
use std::alloc::{AllocError, Global};
use table_history::Schema;

// ---- partition specs

fn spec_field_value(alloc: Global, field: &SpecField) -> Result<Value, AllocError>
    ensures value { IfOk result (λ v. view v ≡ spec_field_data field.now) }
    ensures fits { OnOk result (FieldFits field.now) }
{
    json!(in alloc; {
        "field-id": field.field_id,
        "name": field.name.as_str(),
        "source-id": field.source_id,
        "transform": field.transform.as_str(),
    })
}

fn spec_field_values(alloc: Global, fields: &[SpecField]) -> Result<Vec<Value>, AllocError>
    ensures value { IfOk result (λ vs. map view vs.items ≡ map spec_field_data fields.now) }
    ensures fit { OnOk result (AllByRecursion FieldFits fields.now) }
{
    let mut values = Vec::with_capacity(alloc, fields.len())?;
    for field in fields {
        values.push(spec_field_value(alloc, field)?)?;
    }
    Ok(values)
}

fn spec_object(alloc: Global, id: i32, fields: Value) -> Result<Value, AllocError>
    ensures value { IfOk result (λ v. view v ≡ object (member (codes "fields") (view fields)
        (member (codes "spec-id") (whole_data id) no_members))) }
    ensures fits { OnOk result (FitsSigned w32 id) }
{
    json!(in alloc; {"fields": fields, "spec-id": id})
}

fn spec_value(alloc: Global, spec: &Spec) -> Result<Value, AllocError>
    ensures value { IfOk result (λ v. view v ≡ spec_data spec.now) }
    ensures fits { OnOk result (SpecFits spec.now) }
{
    let fields = spec_field_values(alloc, spec.fields.as_slice())?;
    spec_object(alloc, spec.id, Value::Array(fields))
}

fn spec_values(alloc: Global, specs: &[Spec]) -> Result<Vec<Value>, AllocError>
    ensures value { IfOk result (λ vs. map view vs.items ≡ map spec_data specs.now) }
    ensures fit { OnOk result (AllByRecursion SpecFits specs.now) }
{
    let mut values = Vec::with_capacity(alloc, specs.len())?;
    for spec in specs {
        values.push(spec_value(alloc, spec)?)?;
    }
    Ok(values)
}

// ---- snapshots

/// The members of a snapshot that must be there.
fn required_members(alloc: Global, snapshot: &Snapshot) -> Result<Map<String, Value>, AllocError>
    ensures value { IfOk result (λ m. members_view m.entries ≡ snapshot_members snapshot.now) }
    ensures id { OnOk result (FitsSigned w64 snapshot.now.id) }
    ensures sequence { OnOk result (FitsSigned w64 snapshot.now.sequence) }
    ensures timestamp { OnOk result (FitsSigned w64 snapshot.now.timestamp) }
{
    let mut map = Map::new(alloc);
    let list = text_value(alloc, snapshot.list.as_str())?;
    put(&mut map, alloc, "manifest-list", list)?;
    put(
        &mut map,
        alloc,
        "sequence-number",
        Value::from(snapshot.sequence),
    )?;
    put(&mut map, alloc, "snapshot-id", Value::from(snapshot.id))?;
    put(
        &mut map,
        alloc,
        "timestamp-ms",
        Value::from(snapshot.timestamp),
    )?;
    Ok(map)
}

fn put_number(
    alloc: Global,
    map: &mut Map<String, Value>,
    name: &str,
    n: i64,
) -> Result<(), AllocError>
    ensures value { OnOk result (members_view map.new.entries
        ≡ put_whole name.now (Some n) (members_view map.old.entries)) }
    ensures fits { OnOk result (FitsSigned w64 n) }
{
    put(map, alloc, name, Value::from(n))
}

fn put_whole(
    alloc: Global,
    map: &mut Map<String, Value>,
    name: &str,
    number: Option<i64>,
) -> Result<(), AllocError>
    ensures value { OnOk result (members_view map.new.entries
        ≡ put_whole name.now number (members_view map.old.entries)) }
    ensures fits { OnOk result (IfSome number (FitsSigned w64)) }
{
    match number {
        None => Ok(()),
        Some(n) => put_number(alloc, map, name, n),
    }
}

fn put_small_number(
    alloc: Global,
    map: &mut Map<String, Value>,
    name: &str,
    n: i32,
) -> Result<(), AllocError>
    ensures value { OnOk result (members_view map.new.entries
        ≡ put_whole name.now (Some n) (members_view map.old.entries)) }
    ensures fits { OnOk result (FitsSigned w32 n) }
{
    put(map, alloc, name, Value::from(n))
}

fn put_int(
    alloc: Global,
    map: &mut Map<String, Value>,
    name: &str,
    number: Option<i32>,
) -> Result<(), AllocError>
    ensures value { OnOk result (members_view map.new.entries
        ≡ put_whole name.now number (members_view map.old.entries)) }
    ensures fits { OnOk result (IfSome number (FitsSigned w32)) }
{
    match number {
        None => Ok(()),
        Some(n) => put_small_number(alloc, map, name, n),
    }
}

fn summary_value(alloc: Global, operation: &str) -> Result<Value, AllocError>
    ensures { IfOk result (λ v. view v
        ≡ object (member (codes "operation") (string operation.now) no_members)) }
{
    json!(in alloc; {"operation": operation})
}

fn put_operation(
    alloc: Global,
    map: &mut Map<String, Value>,
    operation: &Option<Text>,
) -> Result<(), AllocError>
    ensures { OnOk result (members_view map.new.entries
        ≡ put_operation operation.now (members_view map.old.entries)) }
{
    match operation {
        None => Ok(()),
        Some(operation) => {
            let summary = summary_value(alloc, operation.as_str())?;
            put(map, alloc, "summary", summary)
        }
    }
}

fn snapshot_value(alloc: Global, snapshot: &Snapshot) -> Result<Value, AllocError>
    ensures value { IfOk result (λ v. view v ≡ snapshot_data snapshot.now) }
    ensures fits { OnOk result (SnapshotFits snapshot.now) }
{
    let mut map = required_members(alloc, snapshot)?;
    put_whole(alloc, &mut map, "parent-snapshot-id", snapshot.parent)?;
    put_int(alloc, &mut map, "schema-id", snapshot.schema_id)?;
    put_operation(alloc, &mut map, &snapshot.operation)?;
    Ok(Value::Object(map))
}

fn snapshot_values(alloc: Global, snapshots: &[Snapshot]) -> Result<Vec<Value>, AllocError>
    ensures value { IfOk result (λ vs. map view vs.items ≡ map snapshot_data snapshots.now) }
    ensures fit { OnOk result (AllByRecursion SnapshotFits snapshots.now) }
{
    let mut values = Vec::with_capacity(alloc, snapshots.len())?;
    for snapshot in snapshots {
        values.push(snapshot_value(alloc, snapshot)?)?;
    }
    Ok(values)
}

// ---- schemas

fn schema_value(alloc: Global, schema: &(i32, Schema, Ids)) -> Result<Value, AllocError>
    ensures value { IfOk result (λ v. view v ≡ schema_data schema.now) }
    ensures fits { OnOk result (SchemaFits schema.now) }
{
    match iceberg_json(alloc, &schema.1, &schema.2, schema.0) {
        Ok(value) => Ok(value),
        Err(_) => Err(AllocError),
    }
}

fn schema_values(alloc: Global, schemas: &[(i32, Schema, Ids)]) -> Result<Vec<Value>, AllocError>
    ensures value { IfOk result (λ vs. map view vs.items ≡ map schema_data schemas.now) }
    ensures fit { OnOk result (AllByRecursion SchemaFits schemas.now) }
{
    let mut values = Vec::with_capacity(alloc, schemas.len())?;
    for schema in schemas {
        values.push(schema_value(alloc, schema)?)?;
    }
    Ok(values)
}

// ---- the table

fn main_value(alloc: Global, id: i64) -> Result<Value, AllocError>
    ensures value { IfOk result (λ v. view v ≡ refs_data (Some id)) }
    ensures fits { OnOk result (FitsSigned w64 id) }
{
    json!(in alloc; {"main": {"snapshot-id": id, "type": "branch"}})
}

/// The branch `main`, which stands at the current snapshot.
fn refs_value(alloc: Global, current: Option<i64>) -> Result<Value, AllocError>
    ensures value { IfOk result (λ v. view v ≡ refs_data current) }
    ensures fits { OnOk result (IfSome current (FitsSigned w64)) }
{
    match current {
        None => Ok(Value::Object(Map::new(alloc))),
        Some(id) => main_value(alloc, id),
    }
}

/// The order that sorts nothing.
fn orders_value(alloc: Global) -> Result<Value, AllocError>
    ensures { IfOk result (λ v. view v ≡ orders_data) }
{
    json!(in alloc; [{"fields": [], "order-id": 0}])
}

/// Which schema, snapshot, order and spec are the current ones, and the version of the format.
fn current_members(alloc: Global, metadata: &Metadata) -> Result<Map<String, Value>, AllocError>
    ensures value { IfOk result (λ m. members_view m.entries ≡ current_members metadata.now) }
    ensures schema { OnOk result (FitsSigned w32 metadata.now.current_schema) }
    ensures spec { OnOk result (FitsSigned w32 metadata.now.default_spec) }
{
    let schema = Value::from(metadata.current_schema);
    let snapshot = Value::from(metadata.current_snapshot.unwrap_or(-1));
    let spec = Value::from(metadata.default_spec);
    let mut map = Map::new(alloc);
    put(&mut map, alloc, "current-schema-id", schema)?;
    put(&mut map, alloc, "current-snapshot-id", snapshot)?;
    put(&mut map, alloc, "default-sort-order-id", Value::from(0i64))?;
    put(&mut map, alloc, "default-spec-id", spec)?;
    put(&mut map, alloc, "format-version", Value::from(2i64))?;
    Ok(map)
}

fn put_last(
    alloc: Global,
    map: &mut Map<String, Value>,
    metadata: &Metadata,
) -> Result<(), AllocError>
    ensures value { OnOk result (members_view map.new.entries
        ≡ put_last metadata.now (members_view map.old.entries)) }
    ensures fit { OnOk result (LastFit metadata.now) }
{
    put(
        map,
        alloc,
        "last-column-id",
        Value::from(metadata.last_column_id),
    )?;
    put(
        map,
        alloc,
        "last-partition-id",
        Value::from(metadata.last_partition_id),
    )?;
    put(
        map,
        alloc,
        "last-sequence-number",
        Value::from(metadata.last_sequence),
    )?;
    put(
        map,
        alloc,
        "last-updated-ms",
        Value::from(metadata.last_updated),
    )
}

fn put_table(
    alloc: Global,
    map: &mut Map<String, Value>,
    metadata: &Metadata,
) -> Result<(), AllocError>
    ensures { OnOk result (members_view map.new.entries
        ≡ put_table metadata.now (members_view map.old.entries)) }
{
    let location = text_value(alloc, metadata.location.as_str())?;
    put(map, alloc, "location", location)?;
    put(map, alloc, "sort-orders", orders_value(alloc)?)?;
    let uuid = text_value(alloc, metadata.uuid.as_str())?;
    put(map, alloc, "table-uuid", uuid)
}

/// The lists and objects of a table.
#[derive(Drop)]
struct Parts {
    specs: Value,
    properties: Value,
    refs: Value,
    schemas: Value,
    snapshots: Value,
}

fn put_parts(alloc: Global, map: &mut Map<String, Value>, parts: Parts) -> Result<(), AllocError>
    ensures { OnOk result (members_view map.new.entries
        ≡ put_parts (view parts.specs) (view parts.properties) (view parts.refs)
        (view parts.schemas) (view parts.snapshots) (members_view map.old.entries)) }
{
    put(map, alloc, "partition-specs", parts.specs)?;
    put(map, alloc, "properties", parts.properties)?;
    put(map, alloc, "refs", parts.refs)?;
    put(map, alloc, "schemas", parts.schemas)?;
    put(map, alloc, "snapshots", parts.snapshots)
}

fn parts_of(alloc: Global, metadata: &Metadata) -> Result<Parts, AllocError>
    ensures specs { IfOk result (λ p. view p.specs
        ≡ array (items_of (map spec_data metadata.now.specs))) }
    ensures properties { IfOk result (λ p. view p.properties
        ≡ object (members_with string metadata.now.properties no_members)) }
    ensures refs { IfOk result (λ p. view p.refs ≡ refs_data metadata.now.current_snapshot) }
    ensures schemas { IfOk result (λ p. view p.schemas
        ≡ array (items_of (map schema_data metadata.now.schemas))) }
    ensures snapshots { IfOk result (λ p. view p.snapshots
        ≡ array (items_of (map snapshot_data metadata.now.snapshots))) }
    ensures current { OnOk result (IfSome metadata.now.current_snapshot (FitsSigned w64)) }
    ensures fit_specs { OnOk result (AllByRecursion SpecFits metadata.now.specs) }
    ensures fit_schemas { OnOk result (AllByRecursion SchemaFits metadata.now.schemas) }
    ensures fit_snapshots { OnOk result (AllByRecursion SnapshotFits metadata.now.snapshots) }
{
    let specs = spec_values(alloc, metadata.specs.as_slice())?;
    let properties = texts_object(alloc, metadata.properties.as_slice())?;
    let refs = refs_value(alloc, metadata.current_snapshot)?;
    let schemas = schema_values(alloc, metadata.schemas.as_slice())?;
    let snapshots = snapshot_values(alloc, metadata.snapshots.as_slice())?;
    Ok(Parts {
        specs: Value::Array(specs),
        properties,
        refs,
        schemas: Value::Array(schemas),
        snapshots: Value::Array(snapshots),
    })
}

fn metadata_value(alloc: Global, metadata: &Metadata) -> Result<Value, AllocError>
    ensures value { IfOk result (λ v. view v ≡ metadata_data metadata.now) }
    ensures fits { OnOk result (MetadataFits metadata.now) }
{
    let parts = parts_of(alloc, metadata)?;
    let mut map = current_members(alloc, metadata)?;
    put_last(alloc, &mut map, metadata)?;
    put_table(alloc, &mut map, metadata)?;
    put_parts(alloc, &mut map, parts)?;
    Ok(Value::Object(map))
}

/// The compact text of a value, which is read as that value again.
fn json_bytes(alloc: Global, value: &Value) -> Result<Vec<u8>, AllocError>
    requires no_float { has_float (view value.now) ≡ false }
    requires shallow { depth (view value.now) ≤ max_depth }
    ensures text { IfOk result (λ v. v.items ≡ compact_text (view value.now)) }
    ensures reads_back { OnOk result (IsReadAgain (view value.now)) }
{
    let bytes = value.to_vec(alloc)?;
    Ok(bytes)
}

#[tactic(auto, using(crate::proofs::ShapeLemmas::metadata_no_float, crate::proofs::ShapeLemmas::metadata_shallow))]
fn metadata_bytes(alloc: Global, metadata: &Metadata) -> Result<Vec<u8>, AllocError>
    requires { IsWritable metadata.now }
    ensures text { IfOk result (λ b. b.items ≡ metadata_text metadata.now) }
    ensures reads_back { OnOk result (IsReadAgain (metadata_data metadata.now)) }
    ensures fits { OnOk result (MetadataFits metadata.now) }
{
    let value = metadata_value(alloc, metadata)?;
    json_bytes(alloc, &value)
}

/// The text of metadata (Apache Iceberg specification, "Table Metadata Fields"): compact JSON, the
/// members of each object in byte order of their names. Beside what is given it says format version
/// 2, one sort order that sorts nothing, and the branch `main` at the current snapshot, whose id is
/// -1 where there is none. The only error is want of memory.
pub fn metadata_text(alloc: Global, metadata: &Metadata) -> Result<Blob, MetadataError>
    requires { IsWritable metadata.now }
    ensures text { IfOk result (λ b. b ≡ metadata_text metadata.now) }
    // Reading gives the metadata back, its properties in any order.
    ensures reads_back { IfOk result (λ b. (again : Metadata)
        × (metadata_of b ≡ Ok again) × SameMetadata metadata.now again) }
    ensures err { IfErr result (λ e. e ≡ errors.Memory) }
{
    Ok(Blob::from_vec(metadata_bytes(alloc, metadata)?))
}
