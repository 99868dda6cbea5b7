//! The bytes of a new version's manifests and of their list, with the rows of that list.

ghost use Rattle.std.specs.Prelude.{◌≡◌, ◌<◌, ◌^◌, Contains, IfErr, IfOk, List, OnOk, length, map, slice_get};
ghost use Rattle.iceberg_version.specs.Carrying.{parts_at};
ghost use Rattle.iceberg_version.specs.Manifests.{added_entry as added_entry_of};
ghost use Rattle.table_history.specs.Row.{Row};
ghost use Rattle.iceberg_manifest.specs.Lists.{AreEach};
ghost use Rattle.iceberg_manifest.specs.ListWriting.{IsWritableList};
ghost use Rattle.iceberg_manifest_writing.specs.RowEntries.{entry_in};
ghost use Rattle.iceberg_metadata.specs.Writing.{IsWritable};
ghost use Rattle.iceberg_version.specs.KeptEnd.{held_rows};
ghost use Rattle.iceberg_version.specs.Manifests.{NextManifest, rewritten_entries as anew, with_place};
ghost use Rattle.iceberg_commit.specs.Texts.{Adds, AddsKept, AddsNew, AreTexts, CanBeMade, HasOwners, IsListOf, IsMadeOf, IsMetadataIn, IsShort, IsTextAmong, IsTextIn, IsTextOfNext, IsTextRefusal, IsWritableIn};
ghost use Rattle.iceberg_version.specs.Writing.{IsLong};
ghost use Rattle.iceberg_version.specs.declared.carrying.Next.{Next};
ghost use Rattle.iceberg_version.specs.declared.kept.KeptManifest.{KeptManifest};
ghost use Rattle.lake_basics.specs.declared.limits.TheConstants.{MAX_AVRO_VALUES, MAX_FILE_BYTES as MOST_BYTES};
ghost use Rattle.target_core.specs.declared.target.TargetError.TheVariants.{Limit};
ghost use Rattle.table_history.specs.declared.limit.LimitKind.TheVariants.{File};

use crate::new_list::NewList;
use iceberg_manifest::ManifestInfo;
use iceberg_manifest_writing::{RowEntry, list_bytes, manifest_bytes};
use iceberg_metadata::Metadata;
use iceberg_metadata_writing::metadata_text;
use iceberg_version::{Before, Layout, Next, added_entries, info_of, rewritten_entries};
use lake_basics::Blob;
use lake_basics::limits::MAX_FILE_BYTES;
use std::alloc::{AllocError, Global};
use table_history::LimitKind;
use target_core::TargetError;

/// The bytes, where a file may have so many.
fn within(bytes: Blob) -> Result<Blob, TargetError>
    ensures same { IfOk result (λ kept. kept ≡ bytes) }
    ensures short { IfOk result IsShort }
    ensures long { IfErr result (λ e. (e ≡ Limit File MOST_BYTES) × IsLong bytes) }
{
    if MAX_FILE_BYTES < bytes.as_slice().len() as u64 {
        return Err(TargetError::Limit {
            which: LimitKind::File,
            number: MAX_FILE_BYTES,
        });
    }
    Ok(bytes)
}

/// The bytes of a manifest of these entries. `Limit` where they are more than a file may have.
fn manifest_text(
    alloc: Global,
    layout: &Layout<'_>,
    entries: &[RowEntry<'_>],
) -> Result<Blob, TargetError>
    requires { IsWritableIn layout.now (map (entry_in layout.now.front) entries.now) }
    ensures text { IfOk
        result (IsTextIn layout.now (map (entry_in layout.now.front) entries.now)) }
    ensures short { IfOk result IsShort }
    ensures refusal { IfErr
        result (IsTextRefusal (IsTextIn layout.now (map (entry_in layout.now.front) entries.now))) }
{
    match manifest_bytes(
        alloc,
        &layout.front,
        entries,
        layout.columns.as_slice(),
        layout.partition,
        &layout.schema_text,
        layout.schema.0,
        &layout.fields_text,
    ) {
        Ok(bytes) => within(bytes),
        Err(_) => Err(TargetError::Memory),
    }
}

/// The bytes of the list of these rows, in the snapshot of this version behind that parent. `Limit`
/// where they are more than a file may have.
pub(crate) fn list_text(
    alloc: Global,
    infos: &[ManifestInfo],
    version: u32,
    parent: Option<i64>,
) -> Result<Blob, TargetError>
    requires { IsWritableList MAX_AVRO_VALUES infos.now }
    ensures text { IfOk result (IsListOf infos.now version parent) }
    ensures short { IfOk result IsShort }
    ensures refusal { IfErr result (IsTextRefusal (IsListOf infos.now version parent)) }
{
    let snapshot = i64::from(version);
    match list_bytes(alloc, infos, snapshot, parent, snapshot) {
        Ok(bytes) => within(bytes),
        Err(_) => Err(TargetError::Memory),
    }
}

/// The bytes of metadata. `Limit` where they are more than a file may have.
pub(crate) fn text_of(alloc: Global, metadata: &Metadata) -> Result<Blob, TargetError>
    requires { IsWritable metadata.now }
    ensures text { IfOk result (IsMetadataIn metadata.now) }
    ensures short { IfOk result IsShort }
    ensures refusal { IfErr result (IsTextRefusal (IsMetadataIn metadata.now)) }
{
    match metadata_text(alloc, metadata) {
        Ok(bytes) => within(bytes),
        Err(_) => Err(TargetError::Memory),
    }
}

/// The same row of a list at another place.
fn info_at(alloc: Global, info: &ManifestInfo, place: u32) -> Result<ManifestInfo, AllocError>
    ensures { IfOk result (λ moved. moved ≡ with_place info.now place) }
{
    Ok(ManifestInfo {
        manifest_path: info.manifest_path.copy(alloc)?,
        manifest_length: info.manifest_length,
        partition_spec_id: info.partition_spec_id,
        content: info.content,
        sequence_number: info.sequence_number,
        min_sequence_number: info.min_sequence_number,
        added_snapshot_id: info.added_snapshot_id,
        added_files_count: info.added_files_count,
        existing_files_count: info.existing_files_count,
        deleted_files_count: info.deleted_files_count,
        added_rows_count: info.added_rows_count,
        existing_rows_count: info.existing_rows_count,
        deleted_rows_count: info.deleted_rows_count,
        place,
    })
}

/// The entries of the manifest at this place of the list before, as it is written anew.
fn entries_anew<'a>(
    alloc: Global,
    layout: &Layout<'_>,
    before: &Before<'a>,
    place: usize,
) -> Result<Vec<RowEntry<'a>>, AllocError>
    requires owners { HasOwners before.now }
    requires place { place < length before.now.manifests.now }
    ensures { IfOk result (λ entries. (m : KeptManifest)
        → slice_get before.now.manifests.now place ≡ Some m
        → map (entry_in layout.now.front) entries.items
        ≡ anew layout.now.front layout.now.version before.now.removed.now
        (held_rows before.now.links.now m.owner)) }
{
    let owner = before.manifests[place].owner;
    rewritten_entries(alloc, layout.version, before, owner)
}

/// The entries of the part of the added rows at this place.
fn entries_added<'a>(
    alloc: Global,
    layout: &Layout<'_>,
    before: &Before<'a>,
    place: usize,
) -> Result<Vec<RowEntry<'a>>, AllocError>
    requires { place < length before.now.parts.now }
    ensures { IfOk result (λ entries. (rows : List Row)
        → slice_get (parts_at before.now.parts.now) place ≡ Some rows
        → map (entry_in layout.now.front) entries.items
        ≡ map (added_entry_of layout.now.front layout.now.version) rows) }
{
    added_entries(alloc, layout.version, before.parts[place])
}

/// Puts a manifest that stays behind the others.
fn push_kept(alloc: Global, info: &ManifestInfo, list: &mut NewList) -> Result<(), AllocError>
    requires { length list.old.infos.items < 2 ^ 32 }
    ensures { OnOk result (AddsKept info.now list.old list.new) }
{
    let place = list.infos.len() as u32;
    list.infos.push(info_at(alloc, info, place)?)?;
    Ok(())
}

/// Puts a new manifest of these entries behind the others.
fn push_new(
    alloc: Global,
    layout: &Layout<'_>,
    entries: &[RowEntry<'_>],
    list: &mut NewList,
) -> Result<(), TargetError>
    requires entries { IsWritableIn layout.now (map (entry_in layout.now.front) entries.now) }
    requires room { length list.old.infos.items < 2 ^ 32 }
    ensures adds { OnOk
        result (AddsNew layout.now (map (entry_in layout.now.front) entries.now) list.old list.new) }
    ensures refusal { IfErr
        result (IsTextRefusal (IsTextIn layout.now (map (entry_in layout.now.front) entries.now))) }
{
    let bytes = manifest_text(alloc, layout, entries)?;
    let place = list.infos.len() as u32;
    let number = list.manifests.len() as u32;
    let info = info_of(
        alloc,
        &layout.front,
        layout.version,
        number,
        entries,
        &bytes,
        place,
    )?;
    list.infos.push(info)?;
    list.manifests.push(bytes)?;
    Ok(())
}

/// Puts the manifest that is made of this behind the others.
fn push_next(
    alloc: Global,
    layout: &Layout<'_>,
    before: &Before<'_>,
    next: Next,
    list: &mut NewList,
) -> Result<(), TargetError>
    requires owners { HasOwners before.now }
    requires can { CanBeMade layout.now before.now next }
    requires room { length list.old.infos.items < 2 ^ 32 }
    ensures adds { OnOk result ((m : NextManifest) → IsMadeOf layout.now before.now next m
        → Adds layout.now m list.old list.new) }
    ensures refusal { IfErr result
        (IsTextRefusal (IsTextOfNext layout.now before.now next)) }
{
    match next {
        Next::Stays(place) => {
            push_kept(alloc, &before.manifests[place].info, list)?;
            Ok(())
        }
        Next::Anew(place) => {
            let entries = entries_anew(alloc, layout, before, place)?;
            push_new(alloc, layout, entries.as_slice(), list)
        }
        Next::Added(place) => {
            let entries = entries_added(alloc, layout, before, place)?;
            push_new(alloc, layout, entries.as_slice(), list)
        }
    }
}

/// The rows of a new list, and the bytes of its new manifests. Entries are made for one manifest at
/// a time. `Limit` where a text has more bytes than a file may have.
pub(crate) fn manifest_texts(
    alloc: Global,
    layout: &Layout<'_>,
    before: &Before<'_>,
    next: &[Next],
) -> Result<NewList, TargetError>
    requires owners { HasOwners before.now }
    requires can { (one : Next) → Contains next.now one
        → CanBeMade layout.now before.now one }
    requires few { length next.now < 2 ^ 32 }
    ensures texts { IfOk result (λ list. (are : List NextManifest)
        → AreEach (IsMadeOf layout.now before.now) next.now are
        → AreTexts layout.now are list) }
    ensures refusal { IfErr result
        (IsTextRefusal (IsTextAmong layout.now before.now next.now)) }
{
    let mut list = NewList {
        infos: Vec::with_capacity(alloc, next.len())?,
        manifests: Vec::new(alloc),
    };
    for one in next {
        push_next(alloc, layout, before, *one, &mut list)?;
    }
    Ok(list)
}
