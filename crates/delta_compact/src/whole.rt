//! Reading a log with log compactions in place of the commits of their blocks.

ghost use Rattle.std.specs.Bool.{Decides};
ghost use Rattle.std.specs.Prelude.{◌≡◌, ◌≢◌, ◌⊎◌, ◌<◌, ◌≤◌, ◌+◌, ◌*◌, ℕ, IfErr, IfOk, IfSome, IsErrOf, IsSome, MatchOption, None, Some};
ghost use Rattle.std.specs.FinMap as map;
ghost use Rattle.lake_basics.specs.declared.limits.TheConstants.{MAX_DELTA_VERSION};
ghost use Rattle.lake_store.specs.Runs.{FailsBy, IsUncontestedBy, OnlyReads};
ghost use Rattle.table_history.specs.Tables.{CanApply, IsAfter};
ghost use Rattle.table_history.specs.Words.{limit_number};
ghost use Rattle.table_history.specs.declared.kind.Kind.TheVariants.{Delta};
ghost use Rattle.delta_change.specs.Change.{IsChangeRefusal, IsTableOfLog};
ghost use Rattle.delta_change.specs.TableBehind.{table_before};
ghost use Rattle.delta_log.specs.Readable.{IsReadableCommit, IsRefusal};
ghost use Rattle.delta_log.specs.Sound.{IsSound};
ghost use Rattle.delta_log.specs.declared.error.DeltaError.TheVariants as delta;
ghost use Rattle.delta_table.specs.Log.{IsTaken};
ghost use Rattle.delta_table.specs.Versions.{HasVersion};
ghost use Rattle.source_delta.specs.Reading.{HasEach, IsLastMissing};
ghost use Rattle.delta_compact.specs.Refusals.{HasCause};
ghost use Rattle.delta_compact.specs.Steps.{IsPlainFault};
ghost use Rattle.delta_compact.specs.Whole.{AllCompacted, IsFileRefusal, IsLargeFile, IsOfReading, IsPartPath, IsTableBefore, IsTakenAt, IsUnreadUpTo, StopsAtPart, TellsFile};
ghost use Rattle.delta_compact.specs.declared.error.CompactFault.TheVariants.{Contested, Limit, Memory, StoreFault};

use crate::blocks::{block_count, block_path};
use crate::error::CompactFault;
use crate::joining::unsupported;
use crate::reading::too_long;
use delta_change::change_of;
use delta_log::{DeltaCommit, DeltaError, read_commit};
use delta_table::version_path;
use lake_basics::limits::MAX_DELTA_VERSION;
use lake_basics::{Blob, Text};
use lake_store::{Store, StoreError};
use std::alloc::{AllocError, Global};
use table_history::{Change, Feature, Kind, LimitKind, Table};

/// What is told of a log that passes a number.
fn limit(which: LimitKind) -> CompactFault
    ensures { result ≡ Limit which (limit_number Delta which) }
{
    CompactFault::Limit {
        which,
        number: which.number(Kind::Delta),
    }
}

/// What is told of a fault of the commit in the file at this path.
fn file_fault(path: Text, error: DeltaError) -> CompactFault
    ensures told { HasCause (TellsFile path error) result }
    ensures never { IsOfReading result }
    ensures fault { result ≢ StoreFault }
    ensures memory { result ≡ Memory → error ≡ delta.Memory }
{
    match error {
        DeltaError::Memory => CompactFault::Memory,
        DeltaError::Malformed { .. } | DeltaError::DoublePath { .. } => {
            CompactFault::Malformed { path }
        }
        DeltaError::Unsupported { feature, .. } => CompactFault::Unsupported { feature, path },
        DeltaError::Limit { which } => limit(which),
    }
}

/// Whether a version is there. None of its bytes is read.
fn has_version<S: Store>(alloc: Global, store: &mut S, version: u64) -> Result<bool, CompactFault>
    requires { version ≤ MAX_DELTA_VERSION }
    ensures there { S.tells → IfOk result
        (λ there. Decides there (HasVersion (S.disk store.old).files version)) }
    ensures refused { IfErr result IsPlainFault }
    ensures only_reads { S.tells → OnlyReads ⟦<S as Store>⟧ store.old store.new }
    ensures cause { FailsBy ⟦<S as Store>⟧ store.old store.new (IsErrOf result StoreFault) }
    ensures contest { IsUncontestedBy ⟦<S as Store>⟧ store.old store.new
        (IsErrOf result Contested) }
{
    let path = version_path(alloc, version)?;
    match store.read_part(alloc, path.as_str(), 0, 0) {
        Ok(Some(_)) => Ok(true),
        Ok(None) => Ok(false),
        Err(StoreError::Failed) => Err(CompactFault::StoreFault),
        Err(StoreError::TooLong { .. }) => Err(CompactFault::Memory),
        Err(StoreError::Memory | StoreError::Taken) => Err(CompactFault::Memory),
    }
}

/// The greatest version up to the head that isn't there, where those before the last few are. None
/// where none is missing.
fn missing_version<S: Store>(
    alloc: Global,
    store: &mut S,
    head: u64,
    few: u64,
) -> Result<Option<u64>, CompactFault>
    requires within { head ≤ MAX_DELTA_VERSION }
    requires few { few ≤ head + 1 }
    requires before { S.tells → (version : ℕ) → version + few ≤ head
        → HasVersion (S.disk store.old).files version }
    ensures missing { S.tells → IfOk result (λ found. MatchOption found
        (HasEach (S.disk store.old).files head) (IsLastMissing (S.disk store.old).files head)) }
    ensures within { IfOk result
        (λ found. IfSome found (λ version. version ≤ MAX_DELTA_VERSION)) }
    ensures refused { IfErr result IsPlainFault }
    ensures only_reads { S.tells → OnlyReads ⟦<S as Store>⟧ store.old store.new }
    ensures cause { FailsBy ⟦<S as Store>⟧ store.old store.new (IsErrOf result StoreFault) }
    ensures contest { IsUncontestedBy ⟦<S as Store>⟧ store.old store.new
        (IsErrOf result Contested) }
{
    for back in 0..few {
        let version = head - back;
        if !has_version(alloc, store, version)? {
            return Ok(Some(version));
        }
    }
    Ok(None)
}

/// The path of one of the files that are read: the log compaction of a block, or a version behind the
/// last block.
fn part_path(alloc: Global, blocks: u64, part: u64) -> Result<Text, AllocError>
    requires blocks { 10 * blocks ≤ MAX_DELTA_VERSION + 1 }
    requires part { 9 * blocks + part ≤ MAX_DELTA_VERSION }
    ensures { IfOk result (IsPartPath blocks part) }
{
    if part < blocks {
        block_path(alloc, part)
    } else {
        version_path(alloc, 9 * blocks + part)
    }
}

/// The bytes of the file at a path, if it is there.
fn bytes_at<S: Store>(
    alloc: Global,
    store: &mut S,
    path: &Text,
) -> Result<Option<Blob>, CompactFault>
    ensures found { S.tells → IfOk result
        (λ found. found ≡ map.get (S.disk store.old).files path.now) }
    ensures refused { S.tells → IfErr result
        (HasCause (IsLargeFile (S.disk store.old).files path.now)) }
    ensures never { IfErr result IsOfReading }
    ensures only_reads { S.tells → OnlyReads ⟦<S as Store>⟧ store.old store.new }
    ensures cause { FailsBy ⟦<S as Store>⟧ store.old store.new (IsErrOf result StoreFault) }
    ensures contest { IsUncontestedBy ⟦<S as Store>⟧ store.old store.new
        (IsErrOf result Contested) }
{
    match store.read(alloc, path.as_str()) {
        Ok(found) => Ok(found),
        Err(StoreError::TooLong { .. }) => Err(too_long()),
        Err(StoreError::Failed) => Err(CompactFault::StoreFault),
        Err(StoreError::Memory | StoreError::Taken) => Err(CompactFault::Memory),
    }
}

/// The table before the first commit: it has the commit's partition columns, and no row.
fn table_before_first(alloc: Global, commit: &DeltaCommit) -> Result<Table, AllocError>
    ensures { IfOk result (λ t. t ≡ table_before commit.now None) }
{
    let partition = match &commit.meta {
        Some(meta) => meta.partition.as_slice(),
        None => &[],
    };
    Table::empty(alloc, partition)
}

/// The table after a change.
fn table_after(alloc: Global, table: Table, change: &Change) -> Result<Table, DeltaError>
    requires { CanApply table change.now }
    ensures after { IfOk result (IsAfter table change.now) }
    ensures memory { IfErr result (λ e. e ≡ DeltaError.Memory) }
{
    let mut table = table;
    table.apply(alloc, change)?;
    Ok(table)
}

/// The table that the first commit makes.
fn first_table(alloc: Global, commit: &DeltaCommit) -> Result<Table, DeltaError>
    requires { IsSound commit.now }
    ensures taken { IfOk result (IsTaken commit.now None) }
    ensures sound { IfOk result IsTableOfLog }
    ensures refused { IfErr result (IsChangeRefusal commit.now None) }
{
    let table = table_before_first(alloc, commit)?;
    let change = change_of(alloc, commit, None)?;
    table_after(alloc, table, &change)
}

/// The table that a commit makes of the one before it.
fn next_table(alloc: Global, table: Table, commit: &DeltaCommit) -> Result<Table, DeltaError>
    requires commit { IsSound commit.now }
    requires table { IsTableOfLog table }
    ensures taken { IfOk result (IsTaken commit.now (Some table)) }
    ensures sound { IfOk result IsTableOfLog }
    ensures refused { IfErr result (IsChangeRefusal commit.now (Some table)) }
{
    let change = change_of(alloc, commit, Some(&table))?;
    table_after(alloc, table, &change)
}

/// The table that a commit makes of the one before it, if there is one.
fn table_behind(
    alloc: Global,
    base: Option<Table>,
    commit: &DeltaCommit,
) -> Result<Table, DeltaError>
    requires commit { IsSound commit.now }
    requires base { IfSome base IsTableOfLog }
    ensures taken { IfOk result (IsTaken commit.now base) }
    ensures sound { IfOk result IsTableOfLog }
    ensures refused { IfErr result (IsChangeRefusal commit.now base) }
{
    match base {
        None => first_table(alloc, commit),
        Some(table) => next_table(alloc, table, commit),
    }
}

/// The table that the commit of these bytes makes of the one before it.
fn table_behind_bytes(alloc: Global, base: Option<Table>, bytes: &[u8]) -> Result<Table, DeltaError>
    requires { IfSome base IsTableOfLog }
    ensures taken { IfOk result (λ next. (c : DeltaCommit) × IsReadableCommit bytes.now c
        × IsTaken c base next) }
    ensures sound { IfOk result IsTableOfLog }
    ensures refused { IfErr result (λ e. IsRefusal bytes.now e ⊎ ((c : DeltaCommit)
        × IsReadableCommit bytes.now c × IsChangeRefusal c base e)) }
{
    let commit = read_commit(alloc, bytes)?;
    table_behind(alloc, base, &commit)
}

/// The table that the file at a path, which is there, makes of the one before it.
fn table_behind_file<S: Store>(
    alloc: Global,
    store: &mut S,
    base: Option<Table>,
    path: Text,
) -> Result<Table, CompactFault>
    requires base { IfSome base IsTableOfLog }
    requires there { S.tells → IsSome (map.get (S.disk store.old).files path) }
    ensures taken { S.tells → IfOk result (IsTakenAt (S.disk store.old).files path base) }
    ensures sound { IfOk result IsTableOfLog }
    ensures refused { S.tells → IfErr result
        (HasCause (IsFileRefusal (S.disk store.old).files path base)) }
    ensures never { IfErr result IsOfReading }
    ensures only_reads { S.tells → OnlyReads ⟦<S as Store>⟧ store.old store.new }
    ensures cause { FailsBy ⟦<S as Store>⟧ store.old store.new (IsErrOf result StoreFault) }
    ensures contest { IsUncontestedBy ⟦<S as Store>⟧ store.old store.new
        (IsErrOf result Contested) }
{
    let Some(bytes) = bytes_at(alloc, store, &path)? else {
        return Err(CompactFault::Malformed { path });
    };
    match table_behind_bytes(alloc, base, bytes.as_slice()) {
        Ok(table) => Ok(table),
        Err(error) => Err(file_fault(path, error)),
    }
}

/// The table that the files make one after another, where each version up to the head is there.
fn read_parts<S: Store>(alloc: Global, store: &mut S, head: u64) -> Result<Table, CompactFault>
    requires within { head ≤ MAX_DELTA_VERSION }
    requires compacted { S.tells → AllCompacted (S.disk store.old).files head }
    requires each { S.tells → HasEach (S.disk store.old).files head }
    ensures table { S.tells → IfOk result (IsTableBefore (S.disk store.old).files (head + 1)) }
    ensures sound { IfOk result IsTableOfLog }
    ensures refused { S.tells → IfErr result
        (HasCause (StopsAtPart (S.disk store.old).files head)) }
    ensures never { IfErr result IsOfReading }
    ensures only_reads { S.tells → OnlyReads ⟦<S as Store>⟧ store.old store.new }
    ensures cause { FailsBy ⟦<S as Store>⟧ store.old store.new (IsErrOf result StoreFault) }
    ensures contest { IsUncontestedBy ⟦<S as Store>⟧ store.old store.new
        (IsErrOf result Contested) }
{
    let blocks = block_count(head);
    let count = head + 1 - 9 * blocks;
    let mut table = None;
    for part in 0..count {
        let path = part_path(alloc, blocks, part)?;
        table = Some(table_behind_file(alloc, store, table, path)?);
    }
    match table {
        Some(table) => Ok(table),
        None => unreachable!(),
    }
}

/// The table of a Delta log at version `head` (Delta protocol, "Action Reconciliation"), read with the
/// log compaction of each block in place of its ten commits ("Log Compaction Files"), and the versions
/// behind the last block as they are. A missing version is told before any file is read, the greatest
/// one, and then the first of the files at fault. A head past 2^63 - 1 is told as `Limit Versions`.
pub fn whole_compacted<S: Store>(
    alloc: Global,
    store: &mut S,
    head: u64,
) -> Result<Table, CompactFault>
    // Each block up to the head has a log compaction that agrees.
    requires compacted { S.tells → AllCompacted (S.disk store.old).files head }

    // Its rows are the live ones, its schema and its partition columns those of the newest metadata.
    ensures table { S.tells → IfOk result (IsTableBefore (S.disk store.old).files (head + 1)) }

    // It may be followed on and published, and passes no number.
    ensures sound { IfOk result IsTableOfLog }

    // Where no refusal has a cause, the answer is `Ok`, unless memory runs out or the store fails.
    ensures refused { S.tells → IfErr result
        (HasCause (IsUnreadUpTo (S.disk store.old).files head)) }

    // It is never absent, stale or contested.
    ensures never { IfErr result IsOfReading }
    ensures only_reads { S.tells → OnlyReads ⟦<S as Store>⟧ store.old store.new }
    ensures cause { FailsBy ⟦<S as Store>⟧ store.old store.new (IsErrOf result StoreFault) }
    ensures contest { IsUncontestedBy ⟦<S as Store>⟧ store.old store.new
        (IsErrOf result Contested) }
{
    if head > MAX_DELTA_VERSION {
        return Err(limit(LimitKind::Versions));
    }
    let few = head + 1 - 10 * block_count(head);
    match missing_version(alloc, store, head, few)? {
        Some(version) => Err(unsupported(alloc, Feature::NeedsCheckpoint, version)),
        None => read_parts(alloc, store, head),
    }
}
