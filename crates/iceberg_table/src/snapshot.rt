//! The table that a snapshot stands for.

ghost use Rattle.std.specs.Prelude.{◌≡◌, ◌⊎◌, ◌<◌, ◌≤◌, true, length, IfErr, IfOk, IsErrOf};
ghost use Rattle.lake_basics.specs.declared.limits.TheConstants.{MAX_LIVE_FILES};
ghost use Rattle.table_history.specs.declared.limit.LimitKind.TheVariants.{LiveFiles};
ghost use Rattle.lake_store.specs.Runs.{FailsBy, IsUncontestedBy, OnlyReads};
ghost use Rattle.iceberg_metadata.specs.Writing.{IsWritable};
ghost use Rattle.iceberg_table.specs.Errors.{IsRefusal, IsTold, error_at};
ghost use Rattle.iceberg_table.specs.Folder.{version_path};
ghost use Rattle.iceberg_table.specs.Kept.{IsKeptOf};
ghost use Rattle.iceberg_table.specs.Plan.{IsPlanFault, IsPlanOf, IsSoundPlan, names_of};
ghost use Rattle.iceberg_table.specs.Refusals.{IsListedRefusal, IsSnapshotRefusal};
ghost use Rattle.iceberg_table.specs.Snapshots.{HasColumnsOf, HasManifestRows, IsReadAs, IsReadBy, IsTableOfSnapshot};
ghost use Rattle.iceberg_table.specs.Tables.{AreOfContents, IsTableOfSnapshots, TakeNoDeletes};
ghost use Rattle.iceberg_table.specs.declared.error.IcebergError.TheVariants.{Memory, Refused, StoreFault};
ghost use Rattle.iceberg_table.specs.declared.snapshot.SnapshotTable.{SnapshotTable};

use crate::error::{Fault, IcebergError, error_at};
use crate::list::read_list_file;
use crate::manifest::{Manifest, read_manifests};
use crate::plan::{Plan, names_of, part_columns, plan_of};
use crate::rows::empty_table;
use crate::version::version_path;
use iceberg_metadata::{Metadata, Snapshot};
use lake_basics::limits::MAX_LIVE_FILES;
use lake_basics::{Items, ReadError, Text};
use lake_store::Store;
use std::alloc::Global;
use table_history::{LimitKind, Table};

/// The table that a snapshot stands for, and what was read of each manifest that its list names, in
/// the order of the list.
#[derive(Drop)]
pub struct SnapshotTable {
    pub table: Table,
    pub manifests: Items<Manifest>,
}

/// What is told of the metadata of this version, which has this fault.
fn version_refusal(alloc: Global, version: u32, error: ReadError<Fault>) -> IcebergError
    ensures { (result ≡ Memory) ⊎ (result ≡ error_at (version_path version) error) }
{
    match version_path(alloc, version) {
        Ok(path) => error_at(path, error),
        Err(_) => IcebergError::Memory,
    }
}

/// What was read of the list at this path, where its live rows aren't too many.
fn bounded(path: Text, read: SnapshotTable) -> Result<SnapshotTable, IcebergError>
    ensures same { IfOk result (λ t. t ≡ read) }
    ensures few { IfOk result (λ t. length t.table.rows ≤ MAX_LIVE_FILES) }
    ensures many { IfErr result (λ e. (e ≡ Refused path (Fault.Limit LiveFiles))
        × (MAX_LIVE_FILES < length read.table.rows)) }
{
    if read.table.rows.len() as u64 > MAX_LIVE_FILES {
        let which = LimitKind::LiveFiles;
        let fault = Fault::Limit { which };
        return Err(IcebergError::Refused { path, fault });
    }
    Ok(read)
}

/// The table of a snapshot of which the metadata says this, and, where they are kept, its manifests.
fn read_planned<S: Store>(
    alloc: Global,
    store: &mut S,
    metadata: &Metadata,
    plan: Plan,
    keep: bool,
) -> Result<SnapshotTable, IcebergError>
    ensures read { S.tells → IfOk result (λ t. (whole : SnapshotTable)
        × IsReadBy (S.disk store.old).files metadata.now plan whole × IsKeptOf keep whole t) }
    ensures columns { IfOk result (λ t. (t.table.schema ≡ plan.schema)
        × (t.table.partition ≡ names_of plan.columns)) }
    // Its rows are those of the manifests, also where the store tells nothing.
    ensures rows { keep ≡ true → IfOk result HasManifestRows }
    ensures no_deletes { keep ≡ true → IfOk result (λ t. TakeNoDeletes t.manifests) }
    ensures contents { keep ≡ true → IfOk result (λ t. AreOfContents t.manifests) }
    // The table may be published where the schema and the columns are a table's own.
    ensures sound { IsSoundPlan plan → IfOk result (λ t. IsTableOfSnapshots t.table) }
    ensures refused { S.tells → IfErr result
        (IsRefusal (IsListedRefusal (S.disk store.old).files metadata.now plan)) }
    ensures only_reads { S.tells → OnlyReads ⟦<S as Store>⟧ store.old store.new }
    ensures cause { FailsBy ⟦<S as Store>⟧ store.old store.new (IsErrOf result StoreFault) }
    ensures contest { IsUncontestedBy ⟦<S as Store>⟧ store.old store.new ⊥ }
{
    let Plan {
        list: path,
        schema,
        columns,
    } = plan;
    let names = names_of(alloc, columns.as_slice())?;
    let columns = part_columns(alloc, columns.as_slice())?;
    let list = read_list_file(alloc, store, metadata, &path)?;
    let empty = empty_table(alloc, schema, names);
    let location = metadata.location.as_str();
    let read = read_manifests(
        alloc,
        store,
        location,
        columns.as_slice(),
        &path,
        list,
        empty,
        keep,
    )?;
    bounded(path, read)
}

/// What the metadata of this version says of a snapshot (Apache Iceberg specification, "Snapshots").
/// A refusal names the metadata.
pub fn plan_snapshot(
    alloc: Global,
    metadata: &Metadata,
    version: u32,
    snapshot: &Snapshot,
) -> Result<Plan, IcebergError>
    ensures found { IfOk result (IsPlanOf metadata.now snapshot.now) }
    // A table's own metadata gives a schema and columns that its table may have.
    ensures sound { IsWritable metadata.now → IfOk result IsSoundPlan }
    ensures refused { IfErr result (IsRefusal
        (IsTold (version_path version) (IsPlanFault metadata.now snapshot.now))) }
    ensures no_fault { IsErrOf result StoreFault → ⊥ }
{
    match plan_of(alloc, metadata, snapshot) {
        Ok(plan) => Ok(plan),
        Err(error) => Err(version_refusal(alloc, version, error)),
    }
}

/// The table that a snapshot stands for (Apache Iceberg specification, "Scan Planning"): its
/// schema, the partition columns of the default spec, and the rows of the live entries of its
/// manifests. Each file is read once. The metadata is that of this version. A refusal is that of the
/// first file at fault: the metadata, the snapshot's manifest list, or one of the manifests in the
/// order of the list.
pub fn read_snapshot<S: Store>(
    alloc: Global,
    store: &mut S,
    metadata: &Metadata,
    version: u32,
    snapshot: &Snapshot,
) -> Result<SnapshotTable, IcebergError>
    ensures table { S.tells → IfOk result
        (λ t. IsTableOfSnapshot (S.disk store.old).files metadata.now snapshot.now t.table) }
    // What was read of the list and of each manifest.
    ensures read { S.tells → IfOk result
        (IsReadAs (S.disk store.old).files metadata.now snapshot.now) }
    ensures columns { IfOk result
        (λ t. HasColumnsOf metadata.now snapshot.now t.table) }
    // Its rows are those of the manifests, also where the store tells nothing.
    ensures rows { IfOk result HasManifestRows }
    ensures no_deletes { IfOk result (λ t. TakeNoDeletes t.manifests) }
    ensures contents { IfOk result (λ t. AreOfContents t.manifests) }
    // What is read of a table's own metadata may be published, and passes no number.
    ensures sound { IsWritable metadata.now
        → IfOk result (λ t. IsTableOfSnapshots t.table) }
    ensures refused { S.tells → IfErr result (IsRefusal
        (IsSnapshotRefusal (S.disk store.old).files metadata.now version snapshot.now)) }
    ensures only_reads { S.tells → OnlyReads ⟦<S as Store>⟧ store.old store.new }
    ensures cause { FailsBy ⟦<S as Store>⟧ store.old store.new (IsErrOf result StoreFault) }
    ensures contest { IsUncontestedBy ⟦<S as Store>⟧ store.old store.new ⊥ }
{
    match plan_snapshot(alloc, metadata, version, snapshot) {
        Ok(plan) => read_planned(alloc, store, metadata, plan, true),
        Err(error) => Err(error),
    }
}

/// The table that a snapshot stands for, as `read_snapshot` gives it, without its manifests. Each row
/// goes into the table without a copy, and of a manifest only its path is kept as the next is read.
pub fn read_table<S: Store>(
    alloc: Global,
    store: &mut S,
    metadata: &Metadata,
    version: u32,
    snapshot: &Snapshot,
) -> Result<Table, IcebergError>
    ensures table { S.tells → IfOk result
        (IsTableOfSnapshot (S.disk store.old).files metadata.now snapshot.now) }
    // It is that of what is read of the list and of each manifest.
    ensures read { S.tells → IfOk result (λ table. (t : SnapshotTable)
        × IsReadAs (S.disk store.old).files metadata.now snapshot.now t × (t.table ≡ table)) }
    ensures columns { IfOk result (HasColumnsOf metadata.now snapshot.now) }
    // What is read of a table's own metadata may be published, and passes no number.
    ensures sound { IsWritable metadata.now → IfOk result IsTableOfSnapshots }
    ensures refused { S.tells → IfErr result (IsRefusal
        (IsSnapshotRefusal (S.disk store.old).files metadata.now version snapshot.now)) }
    ensures only_reads { S.tells → OnlyReads ⟦<S as Store>⟧ store.old store.new }
    ensures cause { FailsBy ⟦<S as Store>⟧ store.old store.new (IsErrOf result StoreFault) }
    ensures contest { IsUncontestedBy ⟦<S as Store>⟧ store.old store.new ⊥ }
{
    let plan = plan_snapshot(alloc, metadata, version, snapshot)?;
    let read = read_planned(alloc, store, metadata, plan, false)?;
    Ok(read.table)
}
