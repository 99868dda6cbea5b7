//! What the versions of a log say, one after another.

ghost use Rattle.std.specs.Prelude.{◌≡◌, ◌<◌, ◌≤◌, ◌+◌, ◌^◌, ◌⊎◌, ℕ, IfErr, IfOk, IsErrOf, OnOk, Some, None, unwrap_or};
ghost use Rattle.lake_basics.specs.declared.limits.TheConstants.{MAX_COMMITS, MAX_DELTA_VERSION};
ghost use Rattle.lake_store.specs.Runs.{FailsBy, IsUncontestedBy, OnlyReads};
ghost use Rattle.delta_change.specs.Change.{IsChangeRefusal, IsTableOfLog};
ghost use Rattle.delta_log.specs.Sound.{IsSound};
ghost use Rattle.delta_table.specs.Log.{HasLiveRows, IsLogOf, IsTaken, SaysCommit, stated_at};
ghost use Rattle.delta_table.specs.Refusals.{IsLogRefusal, IsShort, IsStepRefusal, IsVersionRefusal, TellsOf};
ghost use Rattle.delta_table.specs.declared.error.LogError.TheVariants.{ManyCommits, StoreFault};

use crate::error::{LogError, error_at};
use crate::pieces::read_whole;
use crate::versions::version_path;
use delta_change::change_of;
use delta_log::{DeltaCommit, DeltaError, MetaData, Protocol};
use lake_basics::limits::MAX_COMMITS;
use lake_store::Store;
use std::alloc::Global;
use table_history::Table;

/// What a log's versions have said so far: the table, the newest metadata with the version that it
/// is from, and the newest protocol.
#[derive(Drop)]
pub struct Log {
    pub table: Table,
    pub meta: MetaData,
    pub meta_version: u64,
    pub protocol: Protocol,
}

/// The commit of a version, up to version 2^63 - 1. Its file is read in pieces of 65,536 bytes, and
/// isn't kept. Where it is too large, a line at fault among the bytes that are read is told instead.
pub fn read_version<S: Store>(
    alloc: Global,
    store: &mut S,
    version: u64,
) -> Result<DeltaCommit, LogError>
    requires { version ≤ MAX_DELTA_VERSION }
    ensures says { S.tells → IfOk result (SaysCommit (S.disk store.old).files version) }
    ensures short { S.tells → OnOk result (IsShort (S.disk store.old).files version) }
    ensures sound { IfOk result IsSound }
    ensures told { IfErr result (TellsOf (λ v. v ≡ version)) }
    ensures refused { S.tells → IfErr result (IsVersionRefusal (S.disk store.old).files version) }
    ensures only_reads { S.tells → OnlyReads ⟦<S as Store>⟧ store.old store.new }
    ensures cause { FailsBy ⟦<S as Store>⟧ store.old store.new (IsErrOf result StoreFault) }
    ensures contest { IsUncontestedBy ⟦<S as Store>⟧ store.old store.new ⊥ }
{
    let path = version_path(alloc, version)?;
    let feeder = read_whole(alloc, store, version, path.as_str())?;
    match feeder.finish() {
        Ok(commit) => Ok(commit),
        Err(error) => Err(error_at(version, error)),
    }
}

/// What the first commit says.
fn first_log(alloc: Global, commit: DeltaCommit) -> Result<Log, DeltaError>
    requires { IsSound commit }
    ensures taken { IfOk result (λ log. IsTaken commit None log.table) }
    ensures sound { IfOk result (λ log. IsTableOfLog log.table) }
    ensures meta { IfOk result (λ log. commit.meta ≡ Some log.meta) }
    ensures meta_version { IfOk result (λ log. log.meta_version ≡ 0) }
    ensures protocol { IfOk result (λ log. commit.protocol ≡ Some log.protocol) }
    ensures refused { IfErr result (IsChangeRefusal commit None) }
{
    let change = change_of(alloc, &commit, None)?;
    let DeltaCommit { protocol, meta, .. } = commit;
    let Some(meta) = meta else {
        unreachable!();
    };
    let Some(protocol) = protocol else {
        unreachable!();
    };
    let mut table = Table::empty(alloc, meta.partition.as_slice())?;
    table.apply(alloc, &change)?;
    Ok(Log {
        table,
        meta,
        meta_version: 0,
        protocol,
    })
}

/// What the commit of one version more says.
fn next_log(alloc: Global, log: Log, version: u64, commit: DeltaCommit) -> Result<Log, DeltaError>
    requires commit { IsSound commit }
    requires table { IsTableOfLog log.table }
    ensures taken { IfOk result (λ next. IsTaken commit (Some log.table) next.table) }
    ensures sound { IfOk result (λ next. IsTableOfLog next.table) }
    ensures meta { IfOk result (λ next. next.meta ≡ unwrap_or commit.meta log.meta) }
    ensures meta_version { IfOk result (λ next. next.meta_version
        ≡ stated_at commit.meta version log.meta_version) }
    ensures protocol { IfOk result
        (λ next. next.protocol ≡ unwrap_or commit.protocol log.protocol) }
    ensures refused { IfErr result (IsChangeRefusal commit (Some log.table)) }
{
    let change = change_of(alloc, &commit, Some(&log.table))?;
    let DeltaCommit { protocol, meta, .. } = commit;
    let mut table = log.table;
    table.apply(alloc, &change)?;
    let meta_version = if meta.is_some() {
        version
    } else {
        log.meta_version
    };
    Ok(Log {
        table,
        meta: meta.unwrap_or(log.meta),
        meta_version,
        protocol: protocol.unwrap_or(log.protocol),
    })
}

fn read_first<S: Store>(alloc: Global, store: &mut S) -> Result<Log, LogError>
    ensures log { S.tells → IfOk result (IsLogOf (S.disk store.old).files 1) }
    ensures sound { IfOk result (λ log. IsTableOfLog log.table) }
    ensures told { IfErr result (TellsOf (λ v. v ≡ 0)) }
    ensures refused { S.tells → IfErr result (IsStepRefusal (S.disk store.old).files 0 None) }
    ensures only_reads { S.tells → OnlyReads ⟦<S as Store>⟧ store.old store.new }
    ensures cause { FailsBy ⟦<S as Store>⟧ store.old store.new (IsErrOf result StoreFault) }
    ensures contest { IsUncontestedBy ⟦<S as Store>⟧ store.old store.new ⊥ }
{
    let commit = read_version(alloc, store, 0)?;
    match first_log(alloc, commit) {
        Ok(log) => Ok(log),
        Err(error) => Err(error_at(0, error)),
    }
}

/// What the log says with one version more.
fn read_next<S: Store>(
    alloc: Global,
    store: &mut S,
    log: Log,
    version: u64,
) -> Result<Log, LogError>
    requires version { version ≤ MAX_DELTA_VERSION }
    requires table { IsTableOfLog log.table }
    ensures log { S.tells → IsLogOf (S.disk store.old).files version log
        → IfOk result (IsLogOf (S.disk store.old).files (version + 1)) }
    ensures sound { IfOk result (λ next. IsTableOfLog next.table) }
    ensures told { IfErr result (TellsOf (λ v. v ≡ version)) }
    ensures refused { S.tells
        → IfErr result (IsStepRefusal (S.disk store.old).files version (Some log.table)) }
    ensures only_reads { S.tells → OnlyReads ⟦<S as Store>⟧ store.old store.new }
    ensures cause { FailsBy ⟦<S as Store>⟧ store.old store.new (IsErrOf result StoreFault) }
    ensures contest { IsUncontestedBy ⟦<S as Store>⟧ store.old store.new ⊥ }
{
    let commit = read_version(alloc, store, version)?;
    match next_log(alloc, log, version, commit) {
        Ok(log) => Ok(log),
        Err(error) => Err(error_at(version, error)),
    }
}

/// What the versions of a log say from the first to the newest (Delta protocol, "Action
/// Reconciliation"). Each is read once. A refusal is that of the first version at fault.
pub fn read_log<S: Store>(alloc: Global, store: &mut S, newest: u64) -> Result<Log, LogError>
    requires { newest ≤ MAX_DELTA_VERSION }
    ensures log { S.tells → IfOk result (IsLogOf (S.disk store.old).files (newest + 1)) }
    ensures live { S.tells → IfOk result
        (λ log. HasLiveRows (S.disk store.old).files (newest + 1) log.table) }
    // What is read may be followed on and published, and passes no number.
    ensures sound { IfOk result (λ log. IsTableOfLog log.table) }
    ensures few { OnOk result (newest < MAX_COMMITS) }
    ensures many { MAX_COMMITS ≤ newest → IsErrOf result ManyCommits }
    ensures told { IfErr result (TellsOf (λ v. v ≤ newest)) }
    ensures refused { S.tells → IfErr result (IsLogRefusal (S.disk store.old).files newest) }
    ensures only_reads { S.tells → OnlyReads ⟦<S as Store>⟧ store.old store.new }
    ensures cause { FailsBy ⟦<S as Store>⟧ store.old store.new (IsErrOf result StoreFault) }
    ensures contest { IsUncontestedBy ⟦<S as Store>⟧ store.old store.new ⊥ }
{
    if newest >= MAX_COMMITS {
        return Err(LogError::ManyCommits);
    }
    let mut log = read_first(alloc, store)?;
    for version in 1..newest + 1 {
        log = read_next(alloc, store, log, version)?;
    }
    Ok(log)
}
