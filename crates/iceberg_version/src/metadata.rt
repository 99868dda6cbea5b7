//! The metadata of a new version.

ghost use Rattle.std.specs.Prelude.{◌≡◌, ◌<◌, ◌≤◌, ◌^◌, IfOk, OnOk, Some, length, slice_get};
ghost use Rattle.serde_json.specs.Written.{compact_text};
ghost use Rattle.lake_basics.specs.declared.limits.TheConstants.{MAX_PARTITION_COLUMNS};
ghost use Rattle.iceberg_metadata.specs.Schemas.{HeldSchema};
ghost use Rattle.target_core.specs.Mark.{IsMarkText, mark_data};
ghost use Rattle.iceberg_version.specs.Writing.{MAX_SNAPSHOTS as SNAPSHOTS, last_of, later as later_of, list_file as list_file_of, operation_of as operation_name, properties_of as two_properties, snapshot_of as new_snapshot, with_properties, with_snapshot, with_spec};

use crate::names::{file_at, front_of, list_path};
use crate::spec::FIRST_PARTITION_ID;
use iceberg_metadata::{Metadata, Snapshot, Spec, SpecField};
use lake_basics::{Items, Text};
use schema_iceberg::name_mapping;
use schema_map::Ids;
use std::alloc::{AllocError, Global};
use table_history::{Change, Schema};
use target_core::{Mark, mark_text};

const MAX_SNAPSHOTS: usize = 100;

/// The later of the clock and the last time, in milliseconds since 1970-01-01.
fn later(now_ms: u64, last: i64) -> i64
    requires { now_ms < 2 ^ 63 }
    ensures { result ≡ later_of now_ms last }
{
    let now = now_ms as i64;
    if now < last { last } else { now }
}

/// What a snapshot's summary says of a change.
fn operation_of(change: &Change) -> &'static str
    ensures { result.now ≡ operation_name change.now }
{
    match (change.removed.as_slice(), change.added.as_slice()) {
        ([], _) => "append",
        (_, []) => "delete",
        _ => "overwrite",
    }
}

/// The name of the manifest list of a version, as a snapshot names it.
fn list_file(alloc: Global, location: &Text, version: u32) -> Result<Text, AllocError>
    ensures { IfOk result (λ file. file ≡ list_file_of location.now version) }
{
    let front = front_of(alloc, location)?;
    let path = list_path(alloc, version)?;
    file_at(alloc, &front, path.as_str())
}

/// The snapshot of a new version behind this metadata, where the current schema is of that id.
pub fn snapshot_of(
    alloc: Global,
    metadata: &Metadata,
    version: u32,
    change: &Change,
    schema_id: i32,
    now_ms: u64,
) -> Result<Snapshot, AllocError>
    requires { now_ms < 2 ^ 63 }
    ensures { IfOk result (λ snapshot. snapshot
        ≡ new_snapshot metadata.now version change.now schema_id now_ms) }
{
    Ok(Snapshot {
        id: i64::from(version),
        parent: metadata.current_snapshot,
        sequence: i64::from(version),
        timestamp: later(now_ms, metadata.last_updated),
        list: list_file(alloc, &metadata.location, version)?,
        schema_id: Some(schema_id),
        operation: Some(Text::from_str(alloc, operation_of(change))?),
    })
}

/// The last of the snapshots, so many as a version holds at most.
fn newest(snapshots: Vec<Snapshot>) -> Vec<Snapshot>
    ensures { result.items ≡ last_of SNAPSHOTS snapshots.items }
{
    let mut newest = snapshots;
    let old = newest.len().saturating_sub(MAX_SNAPSHOTS);
    let rest = newest.len() - old;
    newest.rotate_left(old);
    newest.truncate(rest);
    newest
}

/// The table's two properties: the mark, and the name mapping of the current schema.
fn properties_of(
    alloc: Global,
    mark: &Mark,
    schema: &(i32, Schema, Ids),
) -> Result<Items<(Text, Text)>, AllocError>
    ensures properties { IfOk result (λ properties. properties
        ≡ two_properties mark.now schema.now) }
    ensures reads_back { OnOk result (IsMarkText (compact_text (mark_data mark.now)) mark.now) }
{
    let mark = mark_text(alloc, mark)?;
    let Ok(mapping) = name_mapping(alloc, &schema.1, &schema.2) else {
        return Err(AllocError);
    };
    let mut properties = Items::new(alloc);
    properties.push((Text::from_str(alloc, "lakebridge.mark")?, mark))?;
    properties.push((
        Text::from_str(alloc, "schema.name-mapping.default")?,
        mapping,
    ))?;
    Ok(properties)
}

/// Holds the one spec of a table, of these fields.
pub fn hold_spec(
    alloc: Global,
    metadata: &mut Metadata,
    fields: Items<SpecField>,
) -> Result<(), AllocError>
    requires { length fields ≤ MAX_PARTITION_COLUMNS }
    ensures { OnOk result (metadata.new ≡ with_spec metadata.old fields) }
{
    metadata.last_partition_id = FIRST_PARTITION_ID - 1 + fields.len() as i32;
    metadata.default_spec = 0;
    let mut specs = Items::new(alloc);
    specs.push(Spec { id: 0, fields })?;
    metadata.specs = specs;
    Ok(())
}

/// Holds a snapshot as the current one, and of all held ones the newest. For want of memory none may
/// be held any more.
pub fn hold_snapshot(
    alloc: Global,
    metadata: &mut Metadata,
    snapshot: Snapshot,
) -> Result<(), AllocError>
    ensures { OnOk result (metadata.new ≡ with_snapshot metadata.old snapshot) }
{
    metadata.last_sequence = snapshot.sequence;
    metadata.last_updated = snapshot.timestamp;
    metadata.current_snapshot = Some(snapshot.id);
    let held = std::mem::replace(&mut metadata.snapshots, Items::new(alloc));
    let mut snapshots = held.into_vec();
    snapshots.push(snapshot)?;
    metadata.snapshots = Items::from_vec(newest(snapshots));
    Ok(())
}

/// Gives a version its two properties, the mark and the name mapping of its current schema, which
/// has that place among those that are held.
pub fn hold_properties(
    alloc: Global,
    metadata: &mut Metadata,
    mark: &Mark,
    place: usize,
) -> Result<(), AllocError>
    requires { place < length metadata.old.schemas }
    ensures properties { OnOk result ((schema : HeldSchema)
        → slice_get metadata.old.schemas place ≡ Some schema
        → metadata.new ≡ with_properties metadata.old mark.now schema) }
    ensures reads_back { OnOk result (IsMarkText (compact_text (mark_data mark.now)) mark.now) }
{
    let schema = &metadata.schemas.as_slice()[place];
    metadata.properties = properties_of(alloc, mark, schema)?;
    Ok(())
}
