//! The new version that a commit makes.

ghost use Rattle.std.specs.Prelude.{◌≡◌, ◌≤◌, ◌<◌, ◌+◌, ◌^◌, IfErr, IfOk, List, length, unwrap_or};
ghost use Rattle.std.specs.Option.{option_copied};
ghost use Rattle.iceberg_metadata.specs.Writing.{IsWritable};
ghost use Rattle.iceberg_metadata.specs.declared.metadata.Metadata.{Metadata};
ghost use Rattle.iceberg_metadata.specs.declared.metadata.SpecField.{SpecField};
ghost use Rattle.iceberg_manifest.specs.ListWriting.{IsWritableList};
ghost use Rattle.iceberg_version.specs.KeptEnd.{end_of, end_with, view_of};
ghost use Rattle.iceberg_version.specs.Manifests.{NextManifest};
ghost use Rattle.iceberg_commit.specs.NewVersion.{AreNextOf, AreTextsBehind, ChangesKinds, HasColumns, HoldsCurrent, IsBehind, IsGoneOn, IsLayoutOf, IsNewText, IsNewVersion, IsTextsRefusal, IsVersionRefusal, KeepsRest};
ghost use Rattle.iceberg_version.specs.Schemas.{IsSchemaRefusal, Schemas};
ghost use Rattle.iceberg_commit.specs.Texts.{AreTexts, IsTextRefusal};
ghost use Rattle.iceberg_version.specs.Writing.{PassesAt};
ghost use Rattle.lake_basics.specs.declared.limits.TheConstants.{MAX_AVRO_VALUES, MAX_ICEBERG_VERSION as LAST_VERSION, MAX_PARTITION_COLUMNS};
ghost use Rattle.target_core.specs.Conditions.{CanPublish};
ghost use Rattle.target_core.specs.declared.target.TargetError.TheVariants.{Limit};
ghost use Rattle.target_core.specs.Views.{origin_of};
ghost use Rattle.table_history.specs.declared.limit.LimitKind.TheVariants.{Versions};

use crate::new_list::NewList;
use crate::texts::{list_text, manifest_texts, text_of};
use iceberg_manifest::ManifestInfo;
use iceberg_metadata::Metadata;
use iceberg_version::{
    IcebergKept, Layout, before_of, hold_properties, hold_schema, hold_snapshot, hold_spec,
    layout_of, mark_of, next_manifests, no_version, parts_of, snapshot_of, spec_fields,
};
use lake_basics::limits::MAX_ICEBERG_VERSION;
use lake_basics::{Blob, Text};
use std::alloc::Global;
use table_history::{Change, Commit, Kind, LimitKind, Schema, Table, rows_in_order};
use target_core::{Mark, TargetError};

/// What is written for a commit: the rows of the new list, the bytes of the new manifests among
/// them in their order, those of the list, and those of the metadata.
#[derive(Drop)]
pub(crate) struct NewVersion {
    pub(crate) infos: Vec<ManifestInfo>,
    pub(crate) manifests: Vec<Blob>,
    pub(crate) list: Blob,
    pub(crate) metadata: Blob,
}

fn no_text(alloc: Global) -> Text {
    Text::from_string(String::new(alloc))
}

/// The version behind this one. `Limit` where it would pass the greatest.
fn version_behind(version: u32) -> Result<u32, TargetError>
    ensures next { IfOk result (λ next. next ≡ version + 1) }
    ensures within { IfOk result (λ next. next ≤ LAST_VERSION) }
    ensures last { IfErr result
        (λ e. (e ≡ Limit Versions LAST_VERSION) × (LAST_VERSION < version + 1)) }
{
    if u64::from(version) >= MAX_ICEBERG_VERSION {
        return Err(TargetError::Limit {
            which: LimitKind::Versions,
            number: MAX_ICEBERG_VERSION,
        });
    }
    Ok(version + 1)
}

/// The schema that the commit states, or else the one before.
fn stated_behind<'a>(table: &'a Table, change: &'a Change) -> &'a Schema
    ensures { result.now ≡ unwrap_or change.now.schema table.now.schema }
{
    match &change.schema {
        Some(schema) => schema,
        None => &table.schema,
    }
}

/// Makes the metadata that of the version behind it, which carries this commit of this table with
/// this mark, and gives the place of its current schema.
fn go_on(
    alloc: Global,
    metadata: &mut Metadata,
    version: u32,
    table: &Table,
    commit: &Commit,
    mark: &Mark,
    now_ms: u64,
) -> Result<usize, TargetError>
    requires now { now_ms < 2 ^ 63 }
    requires few { length table.now.partition ≤ MAX_PARTITION_COLUMNS }
    requires columns { HasColumns metadata.old
        (unwrap_or commit.now.change.schema table.now.schema) table.now.partition }
    ensures is { IfOk result (λ place. IsGoneOn metadata.old version table.now commit.now
        mark.now now_ms metadata.new place) }
    ensures refusal { IfErr result (IsSchemaRefusal metadata.old
        (unwrap_or commit.now.change.schema table.now.schema)) }
{
    let place = hold_schema(alloc, metadata, stated_behind(table, &commit.change))?;
    let schema = &metadata.schemas.as_slice()[place];
    let schema_id = schema.0;
    let fields = spec_fields(alloc, schema, table.partition.as_slice())?;
    let snapshot = snapshot_of(alloc, metadata, version, &commit.change, schema_id, now_ms)?;
    hold_snapshot(alloc, metadata, snapshot)?;
    hold_spec(alloc, metadata, fields)?;
    hold_properties(alloc, metadata, mark, place)?;
    Ok(place)
}

/// The rows of the new list and the bytes of its new manifests, for a commit behind what is kept.
fn list_of(
    alloc: Global,
    kept: &IcebergKept,
    layout: &Layout<'_>,
    commit: &Commit,
) -> Result<NewList, TargetError>
    requires can { CanPublish (view_of kept.now) commit.now }
    requires kinds { ¬ ChangesKinds kept.now commit.now.change }
    requires layout { IsLayoutOf kept.now.table commit.now.change layout.now }
    ensures texts { IfOk result (λ list. (next : List NextManifest)
        × AreNextOf kept.now layout.now commit.now.change next
        × AreTexts layout.now next list) }
    ensures writable { IfOk result
        (λ list. IsWritableList MAX_AVRO_VALUES list.infos.items) }
    ensures refusal { IfErr result
        (IsTextRefusal (IsNewText kept.now layout.now commit.now.change)) }
{
    let added = rows_in_order(alloc, commit.change.added.as_slice())?;
    let manifests = kept.manifests.as_slice();
    let removed = commit.change.removed.as_slice();
    let parts = parts_of(alloc, added.as_slice())?;
    let next = next_manifests(alloc, &kept.links, manifests, removed, parts.len())?;
    let before = before_of(alloc, &kept.links, manifests, removed, parts.as_slice())?;
    manifest_texts(alloc, layout, &before, next.as_slice())
}

/// The bytes of the version of this number and this metadata, for a commit behind what is kept. Its
/// current schema has that place in the metadata, and its snapshot that parent.
fn texts_of(
    alloc: Global,
    kept: &IcebergKept,
    metadata: &Metadata,
    place: usize,
    version: u32,
    parent: Option<i64>,
    commit: &Commit,
) -> Result<NewVersion, TargetError>
    requires can { CanPublish (view_of kept.now) commit.now }
    requires kinds { ¬ ChangesKinds kept.now commit.now.change }
    requires writable { IsWritable metadata.now }
    requires holds { HoldsCurrent kept.now.table commit.now.change metadata.now place }
    ensures texts { (before : Metadata) (schemas : Schemas) (fields : List SpecField)
        → IsBehind kept.now before metadata.now place version parent schemas fields
        → IfOk result (AreTextsBehind (end_with kept.now before) commit.now.change metadata.now
        schemas fields) }
    ensures refusal { (before : Metadata) (schemas : Schemas) (fields : List SpecField)
        → IsBehind kept.now before metadata.now place version parent schemas fields
        → IfErr result (IsTextsRefusal (end_with kept.now before) commit.now.change metadata.now
        schemas fields) }
{
    let layout = layout_of(
        alloc,
        &metadata.location,
        version,
        &metadata.schemas.as_slice()[place],
        metadata.specs.as_slice()[0].fields.as_slice(),
        kept.table.partition.as_slice(),
    )?;
    let made = list_of(alloc, kept, &layout, commit)?;
    let list = list_text(alloc, made.infos.as_slice(), version, parent)?;
    let text = text_of(alloc, metadata)?;
    Ok(NewVersion {
        infos: made.infos,
        manifests: made.manifests,
        list,
        metadata: text,
    })
}

/// The version that carries a commit behind what is kept, with a mark of its position in the source
/// of this format and table id, at this time in milliseconds since 1970-01-01. What is kept goes on
/// to its number and its metadata; its manifests and their rows stand as before. `Limit` where a
/// text is longer than a file may be, or the version or a new field id would pass the greatest. After
/// a refusal what is kept is spent.
pub(crate) fn new_version(
    alloc: Global,
    kept: &mut IcebergKept,
    commit: &Commit,
    source: Kind,
    table: Option<&Text>,
    now_ms: u64,
) -> Result<NewVersion, TargetError>
    requires now { now_ms < 2 ^ 63 }
    requires can { CanPublish (view_of kept.old) commit.now }
    requires kinds { ¬ ChangesKinds kept.old commit.now.change }
    ensures written { IfOk result (λ written. IsNewVersion kept.old
        (origin_of source (option_copied table.entry)) now_ms commit.now
        written kept.new) }
    ensures rest { KeepsRest kept.old kept.new }
    ensures refusal { IfErr result (IsVersionRefusal (PassesAt (end_of kept.old)
        (origin_of source (option_copied table.entry)) now_ms commit.now)) }
{
    let version = version_behind(kept.version)?;
    let mark = mark_of(alloc, version, &commit.position, source, table)?;
    let parent = kept.metadata.current_snapshot;
    let spent = no_version(alloc, no_text(alloc), no_text(alloc));
    let mut metadata = std::mem::replace(&mut kept.metadata, spent);
    let place = go_on(
        alloc,
        &mut metadata,
        version,
        &kept.table,
        commit,
        &mark,
        now_ms,
    )?;
    let written = texts_of(alloc, kept, &metadata, place, version, parent, commit)?;
    kept.version = version;
    kept.metadata = metadata;
    Ok(written)
}
