//! What an Iceberg target stands at.

ghost use Rattle.std.specs.Prelude.{◌≡◌, ◌↔◌, ◌<◌, ℕ, List, IfErr, IfOk, IsErrOf, IsTrue, MatchOption, Some, find, option_map};
ghost use Rattle.std.specs.Fmt.{decimal};
ghost use Rattle.std.specs.Option.{option_copied};
ghost use Rattle.lake_store.specs.Runs.{FailsBy, IsUncontestedBy, OnlyReads};
ghost use Rattle.table_history.specs.declared.kind.Kind.{Kind};
ghost use Rattle.schema_map.specs.Image.{wide_columns};
ghost use Rattle.iceberg_ancestry.specs.Ancestry.{held, held_at};
ghost use Rattle.iceberg_metadata.specs.Writing.{IsWritable};
ghost use Rattle.iceberg_table.specs.Folder.{HasVersion, IsNewest, version_path as path_of_version};
ghost use Rattle.iceberg_table.specs.Snapshots.{HasManifestRows};
ghost use Rattle.iceberg_table.specs.Tables.{AreOfContents, IsTableOfSnapshots};
ghost use Rattle.iceberg_table.specs.declared.error.IcebergError.TheVariants as iceberg;
ghost use Rattle.iceberg_version.specs.KeptEnd.{view_of};
ghost use Rattle.target_core.specs.Refusals.{IsInspectRefusal, IsOfInspect};
ghost use Rattle.target_core.specs.SeenView.{IsSeen, IsSeenSound};
ghost use Rattle.target_core.specs.declared.mark.Mark.{Mark};
ghost use Rattle.target_core.specs.declared.target.Seen.TheVariants.{Foreign};
ghost use Rattle.target_core.specs.declared.target.TargetError.TheVariants.{Contested, Memory, StoreFault};
ghost use Rattle.target_iceberg.specs.Form.{HasOwnForm};
ghost use Rattle.target_iceberg.specs.Inspecting.{IsCrowded, IsForeign, IsNewestRead};
ghost use Rattle.target_iceberg.specs.InspectSteps.{IsKeptBy, IsOursBy, IsOwnMark, IsOwnVersion, IsSeenIn, limit_of, told_fault, told_of};
ghost use Rattle.target_iceberg.specs.Kept.{StandsFor};
ghost use Rattle.target_iceberg.specs.Reading.{HasMark, Reads, property};

use crate::form::has_own_form;
use crate::linking::link_all;
use crate::names::first_stray;
use iceberg_metadata::{Metadata, Snapshot};
use iceberg_table::{
    Fault, IcebergError, SnapshotTable, list_metadata, metadata_file_path, read_snapshot,
    read_version, version_path,
};
use iceberg_version::IcebergKept;
use lake_basics::Text;
use lake_store::Store;
use std::alloc::{AllocError, Global};
use table_history::{Kind, LimitKind};
use target_core::{Mark, Seen, TargetError, read_mark};

/// Reads what an Iceberg target stands at for a source of this format. It changes no file, and reads
/// each file once. Foreign are, in this order: without a version the first name in byte order that
/// no commit writes before it publishes; the newest version, where it can't be read, has no mark
/// that names it and a source of this format, has no current snapshot, or isn't of the form that
/// commits go on from; and the first file of its current snapshot that can't be read.
pub(crate) fn inspect<S: Store>(
    alloc: Global,
    store: &mut S,
    source: Kind,
) -> Result<Seen<IcebergKept>, TargetError>
    // What is kept stands for the files with any id and location of a new table.
    ensures seen { (id location : List ℕ) → S.tells
        → IfOk result (IsSeen (Reads (S.disk store.old).files)
        (IsForeign source (S.disk store.old).files) view_of
        (λ kept. StandsFor id location kept (S.disk store.old).files) source) }
    ensures sound { IfOk result (IsSeenSound view_of source) }
    ensures refusal { S.tells
        → IfErr result (IsInspectRefusal (IsCrowded source (S.disk store.old).files)) }
    ensures few { IfErr result IsOfInspect }
    ensures only_reads { S.tells → OnlyReads ⟦<S as Store>⟧ store.old store.new }
    ensures cause { FailsBy ⟦<S as Store>⟧ store.old store.new (IsErrOf result StoreFault) }
    ensures contest { IsUncontestedBy ⟦<S as Store>⟧ store.old store.new
        (IsErrOf result Contested) }
{
    match list_metadata(alloc, store) {
        Ok(found) => match found.newest {
            Some(version) => inspect_version(alloc, store, version, source),
            None => unpublished(alloc, found.names.as_slice()),
        },
        Err(error) => told(error),
    }
}

/// What a target of these names stands at, of which none is a version's.
fn unpublished(alloc: Global, names: &[Text]) -> Result<Seen<IcebergKept>, TargetError>
    ensures seen { IfOk result (IsSeenIn names.now) }
    ensures memory { IfErr result (λ e. e ≡ Memory) }
{
    match first_stray(names) {
        None => Ok(Seen::Absent),
        Some(name) => Ok(Seen::Foreign(metadata_file_path(alloc, name.as_str())?)),
    }
}

/// What the newest version stands at.
fn inspect_version<S: Store>(
    alloc: Global,
    store: &mut S,
    version: u32,
    source: Kind,
) -> Result<Seen<IcebergKept>, TargetError>
    requires { S.tells → IsNewest (HasVersion (S.disk store.old).files) version }
    ensures seen { (id location : List ℕ) → S.tells
        → IfOk result (IsSeen (Reads (S.disk store.old).files)
        (IsForeign source (S.disk store.old).files) view_of
        (λ kept. StandsFor id location kept (S.disk store.old).files) source) }
    ensures sound { IfOk result (IsSeenSound view_of source) }
    ensures refusal { S.tells
        → IfErr result (IsInspectRefusal (IsCrowded source (S.disk store.old).files)) }
    ensures few { IfErr result IsOfInspect }
    ensures only_reads { S.tells → OnlyReads ⟦<S as Store>⟧ store.old store.new }
    ensures cause { FailsBy ⟦<S as Store>⟧ store.old store.new (IsErrOf result StoreFault) }
    ensures contest { IsUncontestedBy ⟦<S as Store>⟧ store.old store.new
        (IsErrOf result Contested) }
{
    match read_version(alloc, store, version) {
        Ok(metadata) => inspect_metadata(alloc, store, version, metadata, source),
        Err(error) => told(error),
    }
}

/// What the newest version with this metadata stands at.
#[tactic(none)]
fn inspect_metadata<S: Store>(
    alloc: Global,
    store: &mut S,
    version: u32,
    metadata: Metadata,
    source: Kind,
) -> Result<Seen<IcebergKept>, TargetError>
    requires newest { S.tells
        → IsNewestRead (S.disk store.old).files version metadata }
    requires writable { IsWritable metadata }
    ensures seen { (id location : List ℕ) → S.tells
        → IfOk result (IsSeen (Reads (S.disk store.old).files)
        (IsForeign source (S.disk store.old).files) view_of
        (λ kept. StandsFor id location kept (S.disk store.old).files) source) }
    ensures sound { IfOk result (IsSeenSound view_of source) }
    ensures refusal { S.tells
        → IfErr result (IsInspectRefusal (IsCrowded source (S.disk store.old).files)) }
    ensures few { IfErr result IsOfInspect }
    ensures only_reads { S.tells → OnlyReads ⟦<S as Store>⟧ store.old store.new }
    ensures cause { FailsBy ⟦<S as Store>⟧ store.old store.new (IsErrOf result StoreFault) }
    ensures contest { IsUncontestedBy ⟦<S as Store>⟧ store.old store.new
        (IsErrOf result Contested) }
{
    match own_version(alloc, version, &metadata, source) {
        Ok(Some(mark)) => inspect_own(alloc, store, version, metadata, mark),
        Ok(None) => foreign_version(alloc, version),
        Err(_) => Err(TargetError::Memory),
    }
}

/// What the newest version with this metadata stands at, which has its own form and this mark.
#[tactic(none)]
fn inspect_own<S: Store>(
    alloc: Global,
    store: &mut S,
    version: u32,
    metadata: Metadata,
    mark: Mark,
) -> Result<Seen<IcebergKept>, TargetError>
    requires newest { S.tells
        → IsNewestRead (S.disk store.old).files version metadata }
    requires writable { IsWritable metadata }
    requires own { IsOwnVersion mark.source version metadata mark }
    ensures seen { (id location : List ℕ) → S.tells
        → IfOk result (IsSeen (Reads (S.disk store.old).files)
        (IsForeign mark.source (S.disk store.old).files) view_of
        (λ kept. StandsFor id location kept (S.disk store.old).files) mark.source) }
    ensures sound { IfOk result (IsSeenSound view_of mark.source) }
    ensures refusal { S.tells
        → IfErr result (IsInspectRefusal (IsCrowded mark.source (S.disk store.old).files)) }
    ensures few { IfErr result IsOfInspect }
    ensures only_reads { S.tells → OnlyReads ⟦<S as Store>⟧ store.old store.new }
    ensures cause { FailsBy ⟦<S as Store>⟧ store.old store.new (IsErrOf result StoreFault) }
    ensures contest { IsUncontestedBy ⟦<S as Store>⟧ store.old store.new
        (IsErrOf result Contested) }
{
    let Some(snapshot) = current_snapshot(&metadata) else {
        return foreign_version(alloc, version);
    };
    match read_snapshot(alloc, store, &metadata, version, snapshot) {
        Ok(read) => ours(alloc, version, metadata, mark, read),
        Err(error) => told(error),
    }
}

/// The newest version isn't ours.
fn foreign_version(alloc: Global, version: u32) -> Result<Seen<IcebergKept>, TargetError>
    ensures foreign { IfOk result (λ seen. seen ≡ Foreign (path_of_version version)) }
    ensures memory { IfErr result (λ e. e ≡ Memory) }
{
    Ok(Seen::Foreign(version_path(alloc, version)?))
}

/// The snapshot that the metadata names as the current one.
fn current_snapshot(metadata: &Metadata) -> Option<&Snapshot>
    ensures { option_copied result
        ≡ held_at metadata.now.snapshots metadata.now.current_snapshot }
{
    match metadata.current_snapshot {
        Some(id) => held_snapshot(metadata.snapshots.as_slice(), id),
        None => None,
    }
}

/// The snapshot of this id.
fn held_snapshot(snapshots: &[Snapshot], id: i64) -> Option<&Snapshot>
    ensures { option_copied result ≡ held snapshots.now id }
{
    for snapshot in snapshots {
        if snapshot.id == id {
            return Some(snapshot);
        }
    }
    None
}

// ---- the mark

/// The mark of this version, where it names the version and a source of this format and the version
/// has the form that commits go on from.
fn own_version(
    alloc: Global,
    version: u32,
    metadata: &Metadata,
    source: Kind,
) -> Result<Option<Mark>, AllocError>
    ensures { IfOk result (λ found. MatchOption found
        ((mark : Mark) → ¬ IsOwnVersion source version metadata.now mark)
        (IsOwnVersion source version metadata.now)) }
{
    let Some(mark) = own_mark(alloc, version, metadata, source)? else {
        return Ok(None);
    };
    if has_own_form(alloc, version, metadata)? {
        Ok(Some(mark))
    } else {
        Ok(None)
    }
}

/// The mark of this version, where it names the version, which is 1 or more, and a source of this
/// format.
fn own_mark(
    alloc: Global,
    version: u32,
    metadata: &Metadata,
    source: Kind,
) -> Result<Option<Mark>, AllocError>
    ensures { IfOk result (λ found. MatchOption found
        ((mark : Mark) → ¬ IsOwnMark source version metadata.now mark)
        (IsOwnMark source version metadata.now)) }
{
    if version == 0 {
        return Ok(None);
    }
    let Some(mark) = mark_of(alloc, metadata)? else {
        return Ok(None);
    };
    if names_version(alloc, &mark, version, source)? {
        Ok(Some(mark))
    } else {
        Ok(None)
    }
}

/// The mark among the properties of the metadata.
fn mark_of(alloc: Global, metadata: &Metadata) -> Result<Option<Mark>, AllocError>
    ensures { IfOk result (λ found. MatchOption found
        ((mark : Mark) → ¬ HasMark metadata.now mark)
        (HasMark metadata.now)) }
{
    let Some(text) = property(metadata.properties.as_slice(), "lakebridge.mark") else {
        return Ok(None);
    };
    read_mark(alloc, text.as_str())
}

/// The value of the first property of this name.
fn property<'a>(properties: &'a [(Text, Text)], name: &str) -> Option<&'a Text>
    ensures { option_map (λ t. t.now) result ≡ property name.now properties.now }
{
    let (_, value) = properties
        .iter()
        .find(|property| property.0.as_str() == name)?;
    Some(value)
}

/// Whether the mark names this version and a source of this format.
fn names_version(alloc: Global, mark: &Mark, version: u32, source: Kind) -> Result<bool, AllocError>
    ensures { IfOk result (λ names. IsTrue names
        ↔ ((mark.now.at ≡ decimal version) × (mark.now.source ≡ source))) }
{
    let text = version.to_string(alloc)?;
    Ok(mark.at.as_str() == text.as_str() && mark.source == source)
}

// ---- what is kept

/// A version with this mark is ours, of whose current snapshot this was read.
fn ours(
    alloc: Global,
    version: u32,
    metadata: Metadata,
    mark: Mark,
    read: SnapshotTable,
) -> Result<Seen<IcebergKept>, TargetError>
    requires first { 0 < version }
    requires form { HasOwnForm version metadata }
    requires writable { IsWritable metadata }
    requires rows { HasManifestRows read }
    requires table { IsTableOfSnapshots read.table }
    requires image { wide_columns read.table.schema ≡ read.table.schema }
    requires contents { AreOfContents read.manifests }
    ensures ours { IfOk result (IsOursBy version metadata mark read) }
    ensures memory { IfErr result (λ e. e ≡ Memory) }
{
    Ok(Seen::Ours(kept_of(alloc, version, metadata, mark, read)?))
}

/// What is kept of a version with this mark, of whose current snapshot this was read.
fn kept_of(
    alloc: Global,
    version: u32,
    metadata: Metadata,
    mark: Mark,
    read: SnapshotTable,
) -> Result<IcebergKept, AllocError>
    requires first { 0 < version }
    requires form { HasOwnForm version metadata }
    requires writable { IsWritable metadata }
    requires rows { HasManifestRows read }
    requires table { IsTableOfSnapshots read.table }
    requires image { wide_columns read.table.schema ≡ read.table.schema }
    requires contents { AreOfContents read.manifests }
    ensures { IfOk result (IsKeptBy version metadata mark read) }
{
    let rows = read.table.rows.len() as u32;
    let linked = link_all(alloc, read.manifests, rows)?;
    Ok(IcebergKept {
        table: read.table,
        mark: Some(mark),
        version,
        metadata,
        manifests: linked.manifests,
        links: linked.links,
    })
}

// ---- why it isn't read

/// What is told of a table that wasn't read.
fn told(error: IcebergError) -> Result<Seen<IcebergKept>, TargetError>
    ensures told { result ≡ told_of error }
    ensures sound { (source : Kind) → IfOk result (IsSeenSound view_of source) }
    ensures few { IfErr result IsOfInspect }
    ensures fault { IsErrOf result StoreFault → error ≡ iceberg.StoreFault }
    ensures contest { ¬ IsErrOf result Contested }
{
    match error {
        IcebergError::Memory => Err(TargetError::Memory),
        IcebergError::StoreFault => Err(TargetError::StoreFault),
        IcebergError::ManyNames => Err(limit_of(LimitKind::Names)),
        IcebergError::Missing { path } => Ok(Seen::Foreign(path)),
        IcebergError::Large { .. } => Err(limit_of(LimitKind::File)),
        IcebergError::Refused { path, fault } => told_fault(path, fault),
    }
}

/// What is told of a file with this fault.
fn told_fault(path: Text, fault: Fault) -> Result<Seen<IcebergKept>, TargetError>
    ensures told { result ≡ told_fault path fault }
    ensures sound { (source : Kind) → IfOk result (IsSeenSound view_of source) }
    ensures few { IfErr result IsOfInspect }
    ensures fault { ¬ IsErrOf result StoreFault }
    ensures contest { ¬ IsErrOf result Contested }
{
    match fault {
        Fault::Malformed | Fault::Unsupported { .. } => Ok(Seen::Foreign(path)),
        Fault::Limit { which } => Err(limit_of(which)),
    }
}

fn limit_of(which: LimitKind) -> TargetError
    ensures { result ≡ limit_of which }
{
    TargetError::Limit {
        which,
        number: which.number(Kind::Iceberg),
    }
}
