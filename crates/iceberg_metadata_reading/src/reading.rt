//! Reading the metadata of a table.

ghost use Rattle.std.specs.Prelude.{◌≡◌, ◌⊎◌, List, codes, IfOk, IfErr, OnOk, Err};
ghost use Rattle.serde_json.specs.View.{view};
ghost use Rattle.lake_basics.specs.Outcome.{required};
ghost use Rattle.json_reading.specs.Json.{json};
ghost use Rattle.table_history.specs.First.{IsFirst, NoneOf};
ghost use Rattle.iceberg_metadata.specs.Errors.{Gives, GivesBy};
ghost use Rattle.iceberg_metadata.specs.Judging.{members, unkept, consistent, version_two, contents, limit_passed, judged, metadata_of};
ghost use Rattle.iceberg_metadata.specs.Members.{integer, format_version};
ghost use Rattle.iceberg_metadata.specs.Reading.{HasCause, causes, IsRead};
ghost use Rattle.iceberg_metadata.specs.Schemas.{HeldSchema};
ghost use Rattle.iceberg_metadata.specs.Writing.{HaveOwnNames, IsWritable};
ghost use Rattle.iceberg_metadata.specs.declared.error.MetadataError.TheVariants as errors;
ghost use Rattle.iceberg_metadata.specs.declared.metadata.Metadata.{Metadata};

use crate::consistent::is_consistent;
use crate::members::{
    current_snapshot_of, properties_of, refs_fit, required_str, snapshots_of, specs_of,
};
use iceberg_columns::{has_other_partition, has_other_transform, is_renamed};
use iceberg_metadata::{MALFORMED, Metadata, MetadataError, SpecField, Unread, default_fields};
use iceberg_schemas::{
    has_limit_of_columns, has_limit_of_depth, has_schema_type, required_int, required_list,
    required_whole, schemas_in,
};
use json_reading::read_json;
use lake_basics::limits::MAX_PARTITION_COLUMNS;
use lake_basics::{Items, ReadError, Text};
use schema_map::Ids;
use serde_json::Value;
use std::alloc::Global;
use table_history::{LimitKind, Schema};

fn json_of(alloc: Global, bytes: &[u8]) -> Result<Value, MetadataError>
    ensures { GivesBy view result (required errors.Malformed (json bytes.now)) }
{
    match read_json(alloc, bytes, MALFORMED) {
        Ok(value) => Ok(value),
        Err(ReadError::Memory) => Err(MetadataError::Memory),
        Err(ReadError::Fault(fault)) => Err(fault),
    }
}

/// The version is 2. Another whole number of 64 bits, with a sign or without, is another version.
fn is_two(version: &Value) -> Result<(), MetadataError>
    ensures { Gives result (version_two (integer (view version.now))) }
{
    match version.as_u64() {
        Some(2) => Ok(()),
        Some(_) => Err(MetadataError::FormatVersion),
        None if version.is_i64() => Err(MetadataError::FormatVersion),
        None => Err(MALFORMED),
    }
}

/// The format version is 2.
fn version_two(value: &Value) -> Result<(), MetadataError>
    ensures { Gives result (version_two (format_version (view value.now))) }
{
    match value.get("format-version") {
        None => Err(MALFORMED),
        Some(version) => is_two(version),
    }
}

/// The members that are kept, without the schemas.
#[tactic(auto, unfolding(iceberg_metadata::specs::Judging::members))]
fn stated_in(alloc: Global, value: &Value) -> Result<Metadata, MetadataError>
    ensures read { (schemas : List HeldSchema) → GivesBy {A = Metadata}
        (λ m. record m { schemas = schemas }) result (members (view value.now) schemas) }
    ensures own { IfOk result (λ m. HaveOwnNames m.properties) }
{
    let uuid = required_str(value, "table-uuid")?;
    let location = required_str(value, "location")?;
    let last_sequence = required_whole(value, "last-sequence-number")?;
    let last_updated = required_whole(value, "last-updated-ms")?;
    let last_column_id = required_int(value, "last-column-id")?;
    let current_schema = required_int(value, "current-schema-id")?;
    let listed = required_list(value, "partition-specs")?;
    let uuid = Text::from_str(alloc, uuid)?;
    let location = Text::from_str(alloc, location)?;
    let specs = specs_of(alloc, listed)?;
    let default_spec = required_int(value, "default-spec-id")?;
    let last_partition_id = required_int(value, "last-partition-id")?;
    let properties = properties_of(alloc, value)?;
    let current_snapshot = current_snapshot_of(value)?;
    let snapshots = snapshots_of(alloc, value)?;
    Ok(Metadata {
        uuid,
        location,
        last_sequence,
        last_updated,
        last_column_id,
        schemas: Items::new(alloc),
        current_schema,
        specs,
        default_spec,
        last_partition_id,
        properties,
        current_snapshot,
        snapshots,
    })
}

/// The members that are kept, beside these schemas.
fn members_of(
    alloc: Global,
    value: &Value,
    schemas: Items<(i32, Schema, Ids)>,
) -> Result<Metadata, MetadataError>
    ensures read { Gives result (members (view value.now) schemas) }
    ensures own { IfOk result (λ m. HaveOwnNames m.properties) }
{
    let mut metadata = stated_in(alloc, value)?;
    metadata.schemas = schemas;
    Ok(metadata)
}

/// The members that aren't kept are of their kinds.
#[tactic(auto, unfolding(iceberg_metadata::specs::Judging::unkept))]
fn unkept(value: &Value) -> Result<(), MetadataError>
    ensures { Gives result (unkept (view value.now)) }
{
    required_list(value, "sort-orders")?;
    required_int(value, "default-sort-order-id")?;
    if refs_fit(value) {
        Ok(())
    } else {
        Err(MALFORMED)
    }
}

fn consistent(alloc: Global, metadata: &Metadata, schemas: &[i64]) -> Result<(), MetadataError>
    ensures { Gives result (consistent metadata.now schemas.now) }
{
    if is_consistent(alloc, metadata, schemas)? {
        Ok(())
    } else {
        Err(MALFORMED)
    }
}

/// What the value says, and the schemas that can't be taken over.
#[tactic(auto, unfolding(iceberg_metadata::specs::Judging::contents))]
fn contents_of(
    alloc: Global,
    value: &Value,
) -> Result<(Metadata, Items<(i32, Unread)>), MetadataError>
    ensures read { Gives result (contents (view value.now)) }
    ensures own { IfOk result (λ p. HaveOwnNames p.0.properties) }
{
    version_two(value)?;
    let listed = required_list(value, "schemas")?;
    let schemas = schemas_in(alloc, listed)?;
    let metadata = members_of(alloc, value, schemas.read)?;
    unkept(value)?;
    consistent(alloc, &metadata, schemas.ids.as_slice())?;
    Ok((metadata, schemas.unread))
}

/// Nothing is shown that isn't supported, and no number is passed.
fn judged(alloc: Global, metadata: &Metadata, unread: &[(i32, Unread)]) -> Result<(), MetadataError>
    ensures { Gives result (judged metadata.now unread.now) }
{
    let fields = default_fields(metadata);
    if has_schema_type(unread) {
        return Err(MetadataError::SchemaType);
    }
    if has_other_transform(fields) {
        return Err(MetadataError::Transform);
    }
    if is_renamed(alloc, unread, metadata.schemas.as_slice())? {
        return Err(MetadataError::Renamed);
    }
    if has_other_partition(alloc, metadata, unread)? {
        return Err(MetadataError::PartitionType);
    }
    match limit_passed(fields, unread) {
        None => Ok(()),
        Some(which) => Err(MetadataError::Limit { which }),
    }
}

fn limit_passed(fields: &[SpecField], unread: &[(i32, Unread)]) -> Option<LimitKind>
    ensures { result ≡ limit_passed fields.now unread.now }
{
    if has_limit_of_columns(unread) {
        Some(LimitKind::Columns)
    } else if has_limit_of_depth(unread) {
        Some(LimitKind::Depth)
    } else if fields.len() as u64 > MAX_PARTITION_COLUMNS {
        Some(LimitKind::PartitionColumns)
    } else {
        None
    }
}

#[tactic(auto, unfolding(iceberg_metadata::specs::Judging::metadata_of))]
fn metadata_of(alloc: Global, bytes: &[u8]) -> Result<Metadata, MetadataError>
    ensures read { Gives result (metadata_of bytes.now) }
    ensures own { IfOk result (λ m. HaveOwnNames m.properties) }
{
    let value = json_of(alloc, bytes)?;
    let (metadata, unread) = contents_of(alloc, &value)?;
    judged(alloc, &metadata, unread.as_slice())?;
    Ok(metadata)
}

/// The metadata that a text says (Apache Iceberg specification, "Table Metadata"). `FormatVersion`
/// where its format version is a whole number other than 2; then `Malformed` where it isn't in the
/// grammar; then what isn't supported, `SchemaType`, `Transform`, `Renamed` and `PartitionType`; then
/// `Limit`, of the columns and levels of a schema and of partition columns.
pub fn read_metadata(alloc: Global, bytes: &[u8]) -> Result<Metadata, MetadataError>
    // What is read is what the text says.
    ensures found { IfOk result (IsRead bytes.now) }
    // It is read only where there is no cause against it.
    ensures supported { OnOk result (NoneOf (HasCause bytes.now) causes) }
    // A refusal has its cause, and no cause that is told before it.
    ensures refused { IfErr result (λ e. (e ≡ errors.Memory)
        ⊎ IsFirst (HasCause bytes.now) causes e) }
    // Without a cause the text is read, unless memory runs out.
    ensures complete { NoneOf (HasCause bytes.now) causes
        → IfErr result (λ e. e ≡ errors.Memory) }
    // What was read can be written.
    ensures writable { IfOk result IsWritable }
    // The same as a function.
    ensures exact { Gives result (metadata_of bytes.now) }
{
    metadata_of(alloc, bytes)
}
