//! A snapshot's own table, read behind the one before it.

ghost use Rattle.std.specs.Prelude.{◌≡◌, IfErr, IfOk, IsErrOf};
ghost use Rattle.lake_store.specs.Runs.{FailsBy, IsUncontestedBy, OnlyReads};
ghost use Rattle.table_history.specs.Tables.{CanApply, IsAfter};
ghost use Rattle.iceberg_table.specs.Errors.{IsRefusal};
ghost use Rattle.iceberg_table.specs.Refusals.{IsSnapshotRefusal};
ghost use Rattle.iceberg_table.specs.declared.error.IcebergError.TheVariants.{StoreFault};
ghost use Rattle.iceberg_change.specs.Behind.{GoesOn};
ghost use Rattle.iceberg_change.specs.Own.{IsOwn, KeepsPartition};
ghost use Rattle.iceberg_change.specs.declared.behind.Listed.{Listed};

use crate::behind::{Listed, Step, step_of};
use crate::joining::Stop;
use iceberg_metadata::{Metadata, Snapshot};
use iceberg_table::{IcebergError, SnapshotTable, read_snapshot};
use lake_store::Store;
use std::alloc::{AllocError, Global};
use table_history::{Change, Table};

/// A snapshot's own table, the change that leads to it, and what was read of its list.
#[derive(Drop)]
pub struct Own {
    pub change: Change,
    pub table: Table,
    pub listed: Listed,
}

/// The snapshot read from scratch, whatever was read before.
fn read_whole<S: Store>(
    alloc: Global,
    store: &mut S,
    metadata: &Metadata,
    version: u32,
    snapshot: &Snapshot,
    before: &Table,
) -> Result<Own, IcebergError>
    ensures own { (was : Listed) → IfOk result (IsOwn S.tells (S.disk store.old).files metadata.now
        snapshot.now before.now was) }
    ensures refused { S.tells → IfErr result (IsRefusal
        (IsSnapshotRefusal (S.disk store.old).files metadata.now version snapshot.now)) }
    ensures only_reads { S.tells → OnlyReads ⟦<S as Store>⟧ store.old store.new }
    ensures cause { FailsBy ⟦<S as Store>⟧ store.old store.new (IsErrOf result StoreFault) }
    ensures contest { IsUncontestedBy ⟦<S as Store>⟧ store.old store.new ⊥ }
{
    let SnapshotTable { table, manifests } = match read_snapshot(
        alloc, store, metadata, version, snapshot,
    ) {
        Ok(read) => read,
        Err(error) => return Err(error),
    };
    let change = before.change_to(alloc, &table)?;
    Ok(Own {
        change,
        table,
        listed: Listed {
            manifests,
            columns: None,
        },
    })
}

/// The snapshot's own table, by what it makes of the table before it.
fn own_behind(alloc: Global, before: Table, step: Step) -> Result<Own, AllocError>
    requires { CanApply before step.change }
    ensures after { IfOk result (λ o. IsAfter before step.change o.table) }
    ensures same { IfOk result (λ o. (o.change ≡ step.change) × (o.listed ≡ step.listed)) }
{
    let Step { change, listed } = step;
    let mut table = before;
    table.apply(alloc, &change)?;
    Ok(Own {
        change,
        table,
        listed,
    })
}

/// The snapshot's own table over the one before it (Apache Iceberg specification, "Scan Planning"). A
/// manifest that the list before named too isn't read again. A refusal is that of `read_snapshot`.
///
/// The partition columns that the metadata gives the snapshot have to be those of `before`. `listed`
/// is what this call gave with `before`, or, behind any other table, one without manifests and columns.
pub fn read_behind<S: Store>(
    alloc: Global,
    store: &mut S,
    metadata: &Metadata,
    version: u32,
    snapshot: &Snapshot,
    before: Table,
    listed: Listed,
) -> Result<Own, IcebergError>
    requires on { GoesOn before listed }
    requires kept { KeepsPartition metadata.now snapshot.now before }
    ensures own { IfOk result (IsOwn S.tells (S.disk store.old).files metadata.now snapshot.now
        before listed) }
    ensures refused { S.tells → IfErr result (IsRefusal
        (IsSnapshotRefusal (S.disk store.old).files metadata.now version snapshot.now)) }
    ensures only_reads { S.tells → OnlyReads ⟦<S as Store>⟧ store.old store.new }
    ensures cause { FailsBy ⟦<S as Store>⟧ store.old store.new (IsErrOf result StoreFault) }
    ensures contest { IsUncontestedBy ⟦<S as Store>⟧ store.old store.new ⊥ }
{
    match step_of(alloc, store, metadata, version, snapshot, &before, listed) {
        Ok(step) => Ok(own_behind(alloc, before, step)?),
        Err(Stop::Scratch) => read_whole(alloc, store, metadata, version, snapshot, &before),
        Err(Stop::Memory) => Err(IcebergError::Memory),
        Err(Stop::StoreFault) => Err(IcebergError::StoreFault),
    }
}
