//! The members of table metadata by their kinds.

ghost use Rattle.std.specs.Prelude.{◌≡◌, codes, Some, IfOk};
ghost use Rattle.serde_json.specs.View.{view, items_view, members_view};
ghost use Rattle.lake_basics.specs.Outcome.{each};
ghost use Rattle.json_reading.specs.Json.{items, pairs, present, text};
ghost use Rattle.iceberg_metadata.specs.declared.error.MetadataError.TheVariants.{Malformed};
ghost use Rattle.iceberg_metadata.specs.Errors.{Gives, GivesBy};
ghost use Rattle.iceberg_metadata.specs.Members as read;
ghost use Rattle.iceberg_metadata.specs.Writing.{HaveOwnNames};

use iceberg_metadata::{MALFORMED, MetadataError, Snapshot, Snapshots, Spec, SpecField};
use iceberg_schemas::{required_int, required_list, required_text, required_whole};
use json_reading::{int_in, present_of, text_of, whole_in};
use lake_basics::{Items, Text};
use serde_json::{Map, Value};
use std::alloc::Global;

/// The text of this member. `Malformed` where there is none.
pub(crate) fn required_str<'a>(value: &'a Value, name: &str) -> Result<&'a str, MetadataError>
    ensures { GivesBy (λ s. s.now) result (read.text_in name.now (view value.now)) }
{
    text_of(value, name).ok_or(MALFORMED)
}

// ---- members that may be absent or null

fn whole_if_any(value: &Value, name: &str) -> Result<Option<i64>, MetadataError>
    ensures { Gives result (read.whole_if_any (present name.now (view value.now))) }
{
    match present_of(value, name) {
        None => Ok(None),
        Some(member) => Ok(Some(whole_in(member).ok_or(MALFORMED)?)),
    }
}

fn int_if_any(value: &Value, name: &str) -> Result<Option<i32>, MetadataError>
    ensures { Gives result (read.int_if_any (present name.now (view value.now))) }
{
    match present_of(value, name) {
        None => Ok(None),
        Some(member) => Ok(Some(int_in(member).ok_or(MALFORMED)?)),
    }
}

fn text_from(alloc: Global, value: &Value) -> Result<Text, MetadataError>
    ensures { Gives result (text Malformed (view value.now)) }
{
    let text = value.as_str().ok_or(MALFORMED)?;
    Ok(Text::from_str(alloc, text)?)
}

fn text_if_any(alloc: Global, value: &Value, name: &str) -> Result<Option<Text>, MetadataError>
    ensures { Gives result (read.text_if_any (present name.now (view value.now))) }
{
    match present_of(value, name) {
        None => Ok(None),
        Some(member) => Ok(Some(text_from(alloc, member)?)),
    }
}

fn sequence_of(value: &Value) -> Result<i64, MetadataError>
    ensures { Gives result (read.sequence (present (codes "sequence-number") (view value.now))) }
{
    match present_of(value, "sequence-number") {
        None => Ok(0),
        Some(member) => whole_in(member).ok_or(MALFORMED),
    }
}

fn operation_of(alloc: Global, value: &Value) -> Result<Option<Text>, MetadataError>
    ensures { Gives result (read.operation (present (codes "summary") (view value.now))) }
{
    let Some(summary) = present_of(value, "summary") else {
        return Ok(None);
    };
    if !summary.is_object() {
        return Err(MALFORMED);
    }
    text_if_any(alloc, summary, "operation")
}

fn snapshot_id_in(value: &Value) -> Result<Option<i64>, MetadataError>
    ensures { Gives result (read.current_snapshot (Some (view value.now))) }
{
    let id = whole_in(value).ok_or(MALFORMED)?;
    Ok(if id == -1 { None } else { Some(id) })
}

pub(crate) fn current_snapshot_of(value: &Value) -> Result<Option<i64>, MetadataError>
    ensures { Gives result
        (read.current_snapshot (present (codes "current-snapshot-id") (view value.now))) }
{
    match present_of(value, "current-snapshot-id") {
        None => Ok(None),
        Some(member) => snapshot_id_in(member),
    }
}

// ---- partition specs

#[tactic(auto, unfolding(iceberg_metadata::specs::Members::spec_field))]
fn spec_field_of(alloc: Global, value: &Value) -> Result<SpecField, MetadataError>
    ensures { Gives result (read.spec_field (view value.now)) }
{
    let field_id = required_int(value, "field-id")?;
    let source_id = required_int(value, "source-id")?;
    let name = required_text(alloc, value, "name")?;
    let transform = required_text(alloc, value, "transform")?;
    Ok(SpecField {
        field_id,
        source_id,
        name,
        transform,
    })
}

fn spec_fields_of(alloc: Global, values: &Vec<Value>) -> Result<Items<SpecField>, MetadataError>
    ensures { Gives result (each read.spec_field (items (items_view values.now.items))) }
{
    let mut fields = Items::new(alloc);
    for value in values {
        fields.push(spec_field_of(alloc, value)?)?;
    }
    Ok(fields)
}

#[tactic(auto, unfolding(iceberg_metadata::specs::Members::spec))]
fn spec_of(alloc: Global, value: &Value) -> Result<Spec, MetadataError>
    ensures { Gives result (read.spec (view value.now)) }
{
    let id = required_int(value, "spec-id")?;
    let listed = required_list(value, "fields")?;
    let fields = spec_fields_of(alloc, listed)?;
    Ok(Spec { id, fields })
}

pub(crate) fn specs_of(alloc: Global, values: &Vec<Value>) -> Result<Items<Spec>, MetadataError>
    ensures { Gives result (each read.spec (items (items_view values.now.items))) }
{
    let mut specs = Items::new(alloc);
    for value in values {
        specs.push(spec_of(alloc, value)?)?;
    }
    Ok(specs)
}

// ---- snapshots

#[tactic(auto, unfolding(iceberg_metadata::specs::Members::snapshot))]
fn snapshot_of(alloc: Global, value: &Value) -> Result<Snapshot, MetadataError>
    ensures { Gives result (read.snapshot (view value.now)) }
{
    let id = required_whole(value, "snapshot-id")?;
    let parent = whole_if_any(value, "parent-snapshot-id")?;
    let sequence = sequence_of(value)?;
    let timestamp = required_whole(value, "timestamp-ms")?;
    let list = required_str(value, "manifest-list")?;
    let schema_id = int_if_any(value, "schema-id")?;
    let list = Text::from_str(alloc, list)?;
    let operation = operation_of(alloc, value)?;
    Ok(Snapshot {
        id,
        parent,
        sequence,
        timestamp,
        list,
        schema_id,
        operation,
    })
}

fn snapshots_in(alloc: Global, values: &Vec<Value>) -> Result<Snapshots, MetadataError>
    ensures { Gives result (each read.snapshot (items (items_view values.now.items))) }
{
    let mut snapshots = Items::new(alloc);
    for value in values {
        snapshots.push(snapshot_of(alloc, value)?)?;
    }
    Ok(snapshots)
}

pub(crate) fn snapshots_of(alloc: Global, value: &Value) -> Result<Snapshots, MetadataError>
    ensures { Gives result (read.snapshots (present (codes "snapshots") (view value.now))) }
{
    match present_of(value, "snapshots") {
        None => Ok(Items::new(alloc)),
        Some(member) => snapshots_in(alloc, member.as_array().ok_or(MALFORMED)?),
    }
}

// ---- properties and refs

fn properties_in(
    alloc: Global,
    members: &Map<String, Value>,
) -> Result<Items<(Text, Text)>, MetadataError>
    ensures read { Gives result (each read.property (pairs (members_view members.now.entries))) }
    ensures own { IfOk result HaveOwnNames }
{
    let mut properties = Items::from_vec(Vec::with_capacity(alloc, members.len())?);
    for (name, value) in members {
        let name = Text::from_str(alloc, name.as_str())?;
        properties.push((name, text_from(alloc, value)?))?;
    }
    Ok(properties)
}

#[tactic(auto, using(crate::proofs::AgainLemmas::no_names))]
pub(crate) fn properties_of(
    alloc: Global,
    value: &Value,
) -> Result<Items<(Text, Text)>, MetadataError>
    ensures read { Gives result (read.properties (present (codes "properties") (view value.now))) }
    ensures own { IfOk result HaveOwnNames }
{
    match present_of(value, "properties") {
        None => Ok(Items::new(alloc)),
        Some(member) => properties_in(alloc, member.as_object().ok_or(MALFORMED)?),
    }
}

/// Whether `refs`, where it is there and not null, is an object.
pub(crate) fn refs_fit(value: &Value) -> bool
    ensures { result ≡ read.refs_fit (present (codes "refs") (view value.now)) }
{
    match present_of(value, "refs") {
        None => true,
        Some(member) => member.is_object(),
    }
}
