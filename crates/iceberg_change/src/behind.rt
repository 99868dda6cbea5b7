//! A snapshot read behind the one before it.

ghost use Rattle.std.specs.Prelude.{◌≡◌, ◌≤◌, ◌+◌, ◌-◌, ◌++◌, ℕ, List, length, map, Contains, Some, IfOk, IsErrOf, IsTrue};
ghost use Rattle.lake_basics.specs.declared.limits.TheConstants.{MAX_ACTIONS, MAX_LIVE_FILES};
ghost use Rattle.lake_store.specs.Disk.{Files};
ghost use Rattle.lake_store.specs.Runs.{FailsBy, IsUncontestedBy, OnlyReads};
ghost use Rattle.table_history.specs.Rows.{HasDistinctPaths, HasPath, SameRows};
ghost use Rattle.table_history.specs.Tables.{IsDiff};
ghost use Rattle.table_history.specs.declared.row.FileRow.{FileRow};
ghost use Rattle.iceberg_table.specs.Once.{entries_once};
ghost use Rattle.iceberg_table.specs.Plan.{part_columns};
ghost use Rattle.iceberg_table.specs.Tables.{rows_of};
ghost use Rattle.iceberg_change.specs.Behind.{AreFit, AreParts, GoesOn, HoldsRead, IsChangeTo, IsListRead, IsListed, IsStart, IsStep, IsStepBy, held_rows, others_of};
ghost use Rattle.iceberg_change.specs.declared.joining.Stop.TheVariants.{StoreFault};

use crate::held::Held;
use crate::joining::{Joining, Stop, join_list, stop_for};
use iceberg_manifest::PartColumn;
use iceberg_metadata::{Metadata, Snapshot};
use iceberg_table::{Manifest, Plan, part_columns, plan_snapshot, read_list_file};
use lake_basics::Items;
use lake_basics::limits::MAX_LIVE_FILES;
use lake_store::Store;
use std::alloc::{AllocError, Global};
use table_history::{Change, FileRow, FileRows, Schema, Table};

/// What was read of the manifests that a snapshot's list names, in its order, and for which columns
/// of their partition records. Without these the next snapshot can't be read behind this one.
#[derive(Drop)]
pub struct Listed {
    pub manifests: Items<Manifest>,
    pub columns: Option<Items<PartColumn>>,
}

/// What is known of the table before a snapshot: the manifests that are held, and whether they are all
/// that its rows are of. If not, no manifest is held.
#[derive(Drop)]
struct Start {
    held: Held,
    is_held: bool,
}

/// What was read of a snapshot's list for these columns, and whether the manifests of all rows before
/// were held.
#[derive(Drop)]
struct ListRead {
    columns: Items<PartColumn>,
    is_held: bool,
    joining: Joining,
}

/// What a snapshot makes of the table before it.
#[derive(Drop)]
pub(crate) struct Step {
    pub change: Change,
    pub listed: Listed,
}

// ---- rows

/// The rows of a table, which are these. Rows that share a path aren't taken.
fn file_rows(alloc: Global, rows: Vec<FileRow>) -> Result<FileRows, Stop>
    ensures rows { IfOk result (λ r. r ≡ rows.items) }
    ensures distinct { IfOk result (λ _. HasDistinctPaths rows.items) }
    ensures no_fault { IsErrOf result StoreFault → ⊥ }
{
    let mut found = FileRows::new(alloc);
    for row in rows {
        if !found.insert_new(row)? {
            return Err(Stop::Scratch);
        }
    }
    Ok(found)
}

/// A table of this schema and these rows. Rows that share a path aren't taken.
fn table_of(alloc: Global, schema: Schema, rows: Vec<FileRow>) -> Result<Table, Stop>
    ensures rows { IfOk result (λ t. t.rows ≡ rows.items) }
    ensures distinct { IfOk result (λ _. HasDistinctPaths rows.items) }
    ensures schema { IfOk result (λ t. t.schema ≡ schema) }
    ensures no_fault { IsErrOf result StoreFault → ⊥ }
{
    let rows = file_rows(alloc, rows)?;
    Ok(Table {
        schema,
        partition: Items::new(alloc),
        rows,
    })
}

/// Whether the row's path is free in the table before, once the rows that went are out of it. If not,
/// it shares its file with a row that stays.
fn is_free(before: &Table, went: &Table, row: &FileRow) -> bool
    ensures { IsTrue result → HasPath before.now.rows row.now.path
        → HasPath went.now.rows row.now.path }
{
    match before.rows.get(row.path.as_bytes()) {
        Some(_) => went.rows.get(row.path.as_bytes()).is_some(),
        None => true,
    }
}

/// Whether this is so of each of the rows.
fn are_free(before: &Table, went: &Table, rows: &[FileRow]) -> bool
    ensures { IsTrue result → (row : FileRow) → Contains rows.now row
        → HasPath before.now.rows row.path → HasPath went.now.rows row.path }
{
    for row in rows {
        if !is_free(before, went, row) {
            return false;
        }
    }
    true
}

/// Whether so many rows may be live, where those that went were among those before.
fn is_within(before: usize, went: usize, came: usize) -> bool
    ensures { IsTrue result → (before - went) + came ≤ MAX_LIVE_FILES }
{
    before.saturating_sub(went).saturating_add(came) as u64 <= MAX_LIVE_FILES
}

/// The table of the rows that went: those of the manifests that are left.
fn went_of(alloc: Global, left: Held) -> Result<Table, Stop>
    ensures rows { IfOk result (λ t. t.rows ≡ held_rows left) }
    ensures distinct { IfOk result (λ _. HasDistinctPaths (held_rows left)) }
    ensures no_fault { IsErrOf result StoreFault → ⊥ }
{
    let mut went = Table::empty(alloc, &[])?;
    let left = left.into_rows(alloc)?;
    went.rows = file_rows(alloc, left)?;
    Ok(went)
}

/// The change from the rows that went to those that came, if so many may be live then.
fn change_within(alloc: Global, count: usize, went: &Table, came: &Table) -> Result<Change, Stop>
    ensures within { IfOk result (λ _. (count - length went.now.rows) + length came.now.rows
        ≤ MAX_LIVE_FILES) }
    ensures diff { IfOk result (λ c. IsDiff went.now.rows came.now.rows c.removed c.added) }
    ensures schema { IfOk result (λ c. c.schema ≡ Some came.now.schema) }
    ensures no_fault { IsErrOf result StoreFault → ⊥ }
{
    if !is_within(count, went.rows.len(), came.rows.len()) {
        return Err(Stop::Scratch);
    }
    Ok(went.change_to(alloc, came)?)
}

/// The change from the rows before to those of the manifests of a list, where these rows went and
/// these came.
fn change_over(
    alloc: Global,
    before: &Table,
    count: usize,
    went: &Table,
    came: Vec<FileRow>,
    schema: Schema,
) -> Result<Change, Stop>
    requires count { count ≡ length before.now.rows }
    requires own { HasDistinctPaths before.now.rows }
    requires went { HasDistinctPaths went.now.rows }
    ensures change { (others left all : List FileRow)
        → AreParts before.now.rows others left came.items all
        → SameRows went.now.rows (others ++ left)
        → IfOk result (IsChangeTo before.now.rows all) }
    ensures schema { IfOk result (λ c. c.schema ≡ Some schema) }
    ensures no_fault { IsErrOf result StoreFault → ⊥ }
{
    if !are_free(before, went, came.as_slice()) {
        return Err(Stop::Scratch);
    }
    let came = table_of(alloc, schema, came)?;
    change_within(alloc, count, went, &came)
}

/// The change from the rows before to those of the manifests of a list: of these manifests some were
/// held, and the rows of the others came. If no manifest was held, all rows before went.
fn change_of(
    alloc: Global,
    before: &Table,
    count: usize,
    is_held: bool,
    left: Held,
    came: Vec<FileRow>,
    schema: Schema,
) -> Result<Change, Stop>
    requires count { count ≡ length before.now.rows }
    requires own { HasDistinctPaths before.now.rows }
    requires parts { (all : List FileRow)
        × AreParts before.now.rows (others_of is_held before.now.rows) (held_rows left)
        came.items all }
    ensures change { (all : List FileRow)
        → AreParts before.now.rows (others_of is_held before.now.rows) (held_rows left)
        came.items all
        → IfOk result (IsChangeTo before.now.rows all) }
    ensures schema { IfOk result (λ c. c.schema ≡ Some schema) }
    ensures no_fault { IsErrOf result StoreFault → ⊥ }
{
    if !is_held {
        return change_over(alloc, before, count, before, came, schema);
    }
    let went = went_of(alloc, left)?;
    change_over(alloc, before, count, &went, came, schema)
}

// ---- a snapshot

/// Whether the manifests were read for these columns.
fn is_for(known: &Option<Items<PartColumn>>, columns: &Items<PartColumn>) -> bool
    ensures { IsTrue result → known.now ≡ Some columns.now }
{
    match known {
        Some(known) => *known == *columns,
        None => false,
    }
}

/// These manifests held.
fn start_of(alloc: Global, manifests: Items<Manifest>, is_held: bool) -> Result<Start, AllocError>
    ensures held { IfOk result (λ s. s.held.slots.items ≡ map Some manifests) }
    ensures is_held { IfOk result (λ s. s.is_held ≡ is_held) }
{
    let held = Held::new(alloc, manifests)?;
    Ok(Start { held, is_held })
}

/// What is held of the list before, if it was read for these columns.
fn begin(
    alloc: Global,
    _before: &Table,
    listed: Listed,
    columns: &Items<PartColumn>,
) -> Result<Start, AllocError>
    requires own { HasDistinctPaths _before.now.rows }
    requires on { GoesOn _before.now listed }
    ensures start { IfOk result (IsStart columns.now _before.now) }
    ensures read { (files : Files) (location : List ℕ) → IsListed files location listed
        → IfOk result (λ s. HoldsRead files location columns.now s.held) }
{
    if is_for(&listed.columns, columns) {
        return start_of(alloc, listed.manifests, true);
    }
    start_of(alloc, Items::new(alloc), false)
}

/// What is read of the list that the plan names, behind what was read of the list before.
fn read_list<S: Store>(
    alloc: Global,
    store: &mut S,
    metadata: &Metadata,
    plan: &Plan,
    before: &Table,
    listed: Listed,
) -> Result<ListRead, Stop>
    requires own { HasDistinctPaths before.now.rows }
    requires on { GoesOn before.now listed }
    ensures columns { IfOk result (λ r. r.columns ≡ part_columns plan.now.columns) }
    ensures parts { IfOk result (λ r. AreParts before.now.rows (others_of r.is_held before.now.rows)
        (held_rows r.joining.held) r.joining.came.items (rows_of r.joining.manifests)) }
    ensures fit { IfOk result (λ r. AreFit r.columns r.joining.manifests) }
    ensures within { IfOk result (λ r. entries_once r.joining.manifests ≤ MAX_ACTIONS) }
    ensures read { S.tells → IsListed (S.disk store.old).files metadata.now.location listed
        → IfOk result (λ r. IsListRead (S.disk store.old).files metadata.now plan.now
        r.joining.manifests) }
    ensures only_reads { S.tells → OnlyReads ⟦<S as Store>⟧ store.old store.new }
    ensures cause { FailsBy ⟦<S as Store>⟧ store.old store.new (IsErrOf result StoreFault) }
    ensures contest { IsUncontestedBy ⟦<S as Store>⟧ store.old store.new ⊥ }
{
    let columns = part_columns(alloc, plan.columns.as_slice())?;
    let list = match read_list_file(alloc, store, metadata, &plan.list) {
        Ok(list) => list,
        Err(error) => return Err(stop_for(error)),
    };
    let Start { held, is_held } = begin(alloc, before, listed, &columns)?;
    let location = metadata.location.as_str();
    let joining = join_list(alloc, store, location, columns.as_slice(), list, held)?;
    Ok(ListRead {
        columns,
        is_held,
        joining,
    })
}

/// What a snapshot of this schema makes of the table before it, by what was read of its list.
fn step_by(
    alloc: Global,
    before: &Table,
    count: usize,
    read: ListRead,
    schema: Schema,
) -> Result<Step, Stop>
    requires count { count ≡ length before.now.rows }
    requires own { HasDistinctPaths before.now.rows }
    requires parts { AreParts before.now.rows (others_of read.is_held before.now.rows)
        (held_rows read.joining.held) read.joining.came.items (rows_of read.joining.manifests) }
    ensures change { IfOk result
        (λ s. IsChangeTo before.now.rows (rows_of read.joining.manifests) s.change) }
    ensures schema { IfOk result (λ s. s.change.schema ≡ Some schema) }
    ensures manifests { IfOk result (λ s. s.listed.manifests ≡ read.joining.manifests) }
    ensures columns { IfOk result (λ s. s.listed.columns ≡ Some read.columns) }
    ensures no_fault { IsErrOf result StoreFault → ⊥ }
{
    let ListRead {
        columns,
        is_held,
        joining,
    } = read;
    let Joining {
        held: left,
        manifests,
        came,
        ..
    } = joining;
    let change = change_of(alloc, before, count, is_held, left, came, schema)?;
    Ok(Step {
        change,
        listed: Listed {
            manifests,
            columns: Some(columns),
        },
    })
}

/// What a snapshot of which the metadata says this makes of the table before it.
fn step_planned<S: Store>(
    alloc: Global,
    store: &mut S,
    metadata: &Metadata,
    plan: Plan,
    before: &Table,
    listed: Listed,
) -> Result<Step, Stop>
    requires { GoesOn before.now listed }
    ensures step { IfOk result (IsStepBy S.tells (S.disk store.old).files metadata.now plan before.now listed) }
    ensures only_reads { S.tells → OnlyReads ⟦<S as Store>⟧ store.old store.new }
    ensures cause { FailsBy ⟦<S as Store>⟧ store.old store.new (IsErrOf result StoreFault) }
    ensures contest { IsUncontestedBy ⟦<S as Store>⟧ store.old store.new ⊥ }
{
    let count = before.rows.len();
    let read = read_list(alloc, store, metadata, &plan, before, listed)?;
    step_by(alloc, before, count, read, plan.schema)
}

/// What a snapshot makes of the table before it (Apache Iceberg specification, "Scan Planning"). Its
/// list is read, and those of its manifests that the list before didn't name. Where something is at
/// fault, the snapshot has to be read from scratch, which tells the first cause in the list's order.
pub(crate) fn step_of<S: Store>(
    alloc: Global,
    store: &mut S,
    metadata: &Metadata,
    version: u32,
    snapshot: &Snapshot,
    before: &Table,
    listed: Listed,
) -> Result<Step, Stop>
    requires { GoesOn before.now listed }
    ensures step { IfOk result (IsStep S.tells (S.disk store.old).files metadata.now snapshot.now
        before.now listed) }
    ensures only_reads { S.tells → OnlyReads ⟦<S as Store>⟧ store.old store.new }
    ensures cause { FailsBy ⟦<S as Store>⟧ store.old store.new (IsErrOf result StoreFault) }
    ensures contest { IsUncontestedBy ⟦<S as Store>⟧ store.old store.new ⊥ }
{
    match plan_snapshot(alloc, metadata, version, snapshot) {
        Ok(plan) => step_planned(alloc, store, metadata, plan, before, listed),
        Err(error) => Err(stop_for(error)),
    }
}
