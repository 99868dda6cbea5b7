//! The manifests of a snapshot.

ghost use Rattle.std.specs.Prelude.{◌≡◌, ◌≤◌, ◌+◌, ◌++◌, ◌∷◌, ℕ, List, [], true, length, IfErr, IfOk, IsErrOf, OnOk};
ghost use Rattle.lake_basics.specs.declared.limits.TheConstants.{MAX_ACTIONS, MAX_FILE_BYTES};
ghost use Rattle.lake_store.specs.Runs.{FailsBy, IsUncontestedBy, OnlyReads};
ghost use Rattle.iceberg_manifest.specs.Lists.{AreEach};
ghost use Rattle.iceberg_manifest_feeding.specs.Feeding.{HasRead, so_far};
ghost use Rattle.iceberg_table.specs.Errors.{IsFault, IsRefusal};
ghost use Rattle.iceberg_table.specs.Files.{HoldsShortFile};
ghost use Rattle.iceberg_live.specs.LiveRows.{AreLiveRows};
ghost use Rattle.iceberg_table.specs.Kept.{IsMadeOf};
ghost use Rattle.iceberg_table.specs.Kinds.{FitLive};
ghost use Rattle.iceberg_table.specs.Lists.{HaveContents};
ghost use Rattle.iceberg_table.specs.Manifests.{AreManifestsRefused, HasEntries, IsContent, IsEntriesFault, IsManifestFault, IsManifestOf, IsManifestRefusal};
ghost use Rattle.iceberg_table.specs.Once.{entries_once};
ghost use Rattle.iceberg_table.specs.Pieces.{HasReadSome};
ghost use Rattle.iceberg_table.specs.Tables.{IsTableOfRows, TakesNoDeletes};
ghost use Rattle.iceberg_table.specs.declared.error.IcebergError.TheVariants.{StoreFault};
ghost use Rattle.iceberg_table.specs.declared.manifest.Manifest.{Manifest};

use crate::counted::Counted;
use crate::error::{Fault, IcebergError, manifest_fault};
use crate::file::refusal;
use crate::list::ManifestFile;
use crate::pieces::read_whole;
use crate::rows::{copied_rows, joined};
use crate::snapshot::SnapshotTable;
use iceberg_live::{Rows, live_rows};
use iceberg_manifest::{Entries, PartColumn};
use iceberg_manifest_feeding::ManifestFeeder;
use lake_basics::limits::MAX_ACTIONS;
use lake_basics::{Items, ReadError, Text};
use lake_store::Store;
use std::alloc::{AllocError, Global};
use table_history::{LimitKind, Table};

/// What is read of a manifest: how many entries it has, and the rows of those that are live, in
/// their order. No row is taken from a manifest of deletes.
#[derive(Debug, Drop)]
pub struct Manifest {
    pub file: ManifestFile,
    pub entries: u64,
    pub rows: Rows,
}

/// How many entries the bytes of a manifest have, and the rows of those that are live.
#[derive(Drop)]
struct Content {
    entries: u64,
    rows: Rows,
}

/// What these entries of a manifest give, behind those of the manifests before it.
fn content_of(
    alloc: Global,
    location: &str,
    file: &ManifestFile,
    before: u64,
    entries: Entries,
) -> Result<Content, ReadError<Fault>>
    requires { before ≤ MAX_ACTIONS }
    ensures count { IfOk result (λ c. c.entries ≡ length entries) }
    ensures within { IfOk result (λ c. before + c.entries ≤ MAX_ACTIONS) }
    ensures rows { IfOk result
        (λ c. AreLiveRows location.now file.now.info entries c.rows) }
    ensures refused { IfErr result
        (IsFault (IsEntriesFault location.now file.now before entries)) }
{
    let count = entries.len() as u64;
    if count > MAX_ACTIONS - before {
        return Err(ReadError::Fault(Fault::Limit {
            which: LimitKind::Actions,
        }));
    }
    match live_rows(alloc, entries, &file.info, location) {
        Ok(rows) => Ok(Content {
            entries: count,
            rows,
        }),
        Err(error) => Err(manifest_fault(error)),
    }
}

/// What a manifest that was fed gives at its end, behind the entries of the manifests before it.
fn content_in(
    alloc: Global,
    location: &str,
    columns: &[PartColumn],
    file: &ManifestFile,
    before: u64,
    feeder: ManifestFeeder,
) -> Result<Content, ReadError<Fault>>
    requires { before ≤ MAX_ACTIONS }
    ensures found { (bytes : List ℕ) → HasRead columns.now bytes (so_far feeder)
        → length bytes ≤ MAX_FILE_BYTES
        → IfOk result (IsContent location.now columns.now file.now bytes) }
    ensures fit { HasReadSome columns.now feeder → IfOk result (λ c. FitLive columns.now c.rows) }
    ensures within { IfOk result (λ c. before + c.entries ≤ MAX_ACTIONS) }
    ensures refused { (bytes : List ℕ) → HasRead columns.now bytes (so_far feeder)
        → length bytes ≤ MAX_FILE_BYTES
        → IfErr result (IsFault (IsManifestFault location.now columns.now before file.now bytes)) }
{
    match feeder.finish(columns) {
        Ok(entries) => content_of(alloc, location, file, before, entries),
        Err(error) => Err(manifest_fault(error)),
    }
}

/// The entries and live rows of a manifest, behind the entries of the manifests before it. Its file is
/// read in pieces.
fn read_entries<S: Store>(
    alloc: Global,
    store: &mut S,
    location: &str,
    columns: &[PartColumn],
    before: u64,
    file: ManifestFile,
) -> Result<Manifest, IcebergError>
    requires { before ≤ MAX_ACTIONS }
    ensures file { IfOk result (λ r. r.file ≡ file) }
    ensures entries { S.tells
        → IfOk result (HasEntries (S.disk store.old).files location.now columns.now) }
    ensures short { S.tells → OnOk result (HoldsShortFile (S.disk store.old).files file.path) }
    ensures fit { IfOk result (λ r. FitLive columns.now r.rows) }
    ensures within { IfOk result (λ r. before + r.entries ≤ MAX_ACTIONS) }
    ensures refused { S.tells → IfErr result (IsRefusal
        (IsManifestRefusal (S.disk store.old).files location.now columns.now before file)) }
    ensures only_reads { S.tells → OnlyReads ⟦<S as Store>⟧ store.old store.new }
    ensures cause { FailsBy ⟦<S as Store>⟧ store.old store.new (IsErrOf result StoreFault) }
    ensures contest { IsUncontestedBy ⟦<S as Store>⟧ store.old store.new ⊥ }
{
    let feeder = read_whole(alloc, store, columns, &file.path)?;
    match content_in(alloc, location, columns, &file, before, feeder) {
        Ok(Content { entries, rows }) => Ok(Manifest {
            file,
            entries,
            rows,
        }),
        Err(error) => Err(refusal(alloc, &file.path, error)),
    }
}

/// What is read of a manifest that a list names (Apache Iceberg specification, "Manifests"), after
/// so many entries of other manifests, with which its own may not be too many. No row is taken from
/// a manifest of deletes. What is refused is this manifest.
pub fn read_manifest_file<S: Store>(
    alloc: Global,
    store: &mut S,
    location: &str,
    columns: &[PartColumn],
    before: u64,
    file: ManifestFile,
) -> Result<Manifest, IcebergError>
    requires { before ≤ MAX_ACTIONS }
    ensures found { S.tells
        → IfOk result (IsManifestOf (S.disk store.old).files location.now columns.now file) }
    ensures file { IfOk result (λ r. r.file ≡ file) }
    // A manifest that is given has no more bytes than are read of a file.
    ensures short { S.tells → OnOk result (HoldsShortFile (S.disk store.old).files file.path) }
    ensures fit { IfOk result (λ r. FitLive columns.now r.rows) }
    ensures no_deletes { IfOk result TakesNoDeletes }
    ensures within { IfOk result (λ r. before + r.entries ≤ MAX_ACTIONS) }
    ensures refused { S.tells → IfErr result (IsRefusal
        (IsManifestRefusal (S.disk store.old).files location.now columns.now before file)) }
    ensures only_reads { S.tells → OnlyReads ⟦<S as Store>⟧ store.old store.new }
    ensures cause { FailsBy ⟦<S as Store>⟧ store.old store.new (IsErrOf result StoreFault) }
    ensures contest { IsUncontestedBy ⟦<S as Store>⟧ store.old store.new ⊥ }
{
    let manifest = read_entries(alloc, store, location, columns, before, file)?;
    if manifest.file.info.content == 0 {
        return Ok(manifest);
    }
    Ok(Manifest {
        file: manifest.file,
        entries: manifest.entries,
        rows: Items::new(alloc),
    })
}

/// The live rows of a manifest, for the table. Where manifests are kept, they are a copy, and this
/// manifest stands behind those that were kept before it.
fn taken_rows(
    alloc: Global,
    manifests: &mut Items<Manifest>,
    manifest: Manifest,
    keep: bool,
) -> Result<Rows, AllocError>
    ensures rows { IfOk result (λ rows. rows ≡ manifest.rows) }
    ensures kept { keep ≡ true
        → OnOk result (manifests.new ≡ manifests.old ++ manifest ∷ []) }
{
    if keep {
        let rows = copied_rows(alloc, manifest.rows.as_slice())?;
        manifests.push(manifest)?;
        return Ok(rows);
    }
    Ok(manifest.rows)
}

/// The table of the live rows of the manifests that the list at this path names, which is empty at
/// first, and, where they are kept, what is read of each of them. They are read one after another.
/// The entries of one that is named twice count once.
pub(crate) fn read_manifests<S: Store>(
    alloc: Global,
    store: &mut S,
    location: &str,
    columns: &[PartColumn],
    path: &Text,
    list: Items<ManifestFile>,
    empty: Table,
    keep: bool,
) -> Result<SnapshotTable, IcebergError>
    requires table { IsTableOfRows empty.schema empty.partition [] empty }
    requires contents { HaveContents list }
    ensures made { IfOk result
        (λ t. (read : List Manifest) × IsMadeOf keep columns.now empty read t) }
    ensures found { S.tells → IfOk result (λ t. (read : List Manifest)
        × (entries_once read ≤ MAX_ACTIONS)
        × AreEach (IsManifestOf (S.disk store.old).files location.now columns.now) list read
        × IsMadeOf keep columns.now empty read t) }
    ensures refused { S.tells → IfErr result (IsRefusal (AreManifestsRefused
        (S.disk store.old).files location.now columns.now path.now list)) }
    ensures only_reads { S.tells → OnlyReads ⟦<S as Store>⟧ store.old store.new }
    ensures cause { FailsBy ⟦<S as Store>⟧ store.old store.new (IsErrOf result StoreFault) }
    ensures contest { IsUncontestedBy ⟦<S as Store>⟧ store.old store.new ⊥ }
{
    let mut manifests = Items::new(alloc);
    let mut table = empty;
    let mut counted = Counted::new(alloc);
    for file in list.into_vec() {
        let before = counted.before(&file.path);
        let manifest = read_manifest_file(alloc, store, location, columns, before, file)?;
        counted = counted.with_manifest(alloc, &manifest)?;
        let rows = taken_rows(alloc, &mut manifests, manifest, keep)?;
        table = joined(alloc, path, table, rows)?;
    }
    Ok(SnapshotTable { table, manifests })
}
