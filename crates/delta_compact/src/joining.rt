//! Joining a block's commits.

ghost use Rattle.std.specs.Prelude.{◌≡◌, ◌≢◌, ◌⊎◌, ◌≤◌, ℕ, List, length, IfErr, IfOk, IsErrOf, OnOk};
ghost use Rattle.lake_basics.specs.declared.limits.TheConstants.{MAX_ACTIONS, MAX_DELTA_VERSION};
ghost use Rattle.lake_store.specs.Runs.{FailsBy, IsUncontestedBy, OnlyReads};
ghost use Rattle.delta_log.specs.declared.commit.DeltaCommit.{DeltaCommit};
ghost use Rattle.delta_table.specs.Versions.{IsVersionPath};
ghost use Rattle.delta_compaction.specs.Reconciled.{AreNewest};
ghost use Rattle.delta_compaction.specs.Taken.{AreTaken};
ghost use Rattle.source_delta.specs.Reading.{HasEach};
ghost use Rattle.delta_compact.specs.Blocks.{HoldsBlock, IsWithin};
ghost use Rattle.delta_compact.specs.Joinable.{IsJoinable, file_count};
ghost use Rattle.delta_compact.specs.Refusals.{AreJoinable, HasCause, HasUnjoinable, HaveManyActions, IsUnjoinable, IsUnjoined, TellsJoin};
ghost use Rattle.delta_compact.specs.Steps.{TellsAmong};
ghost use Rattle.delta_compact.specs.declared.error.CompactFault.TheVariants.{Contested, Malformed, StoreFault, Unsupported};

use crate::blocks::block_count;
use crate::error::CompactFault;
use crate::reading::read_block;
use delta_compaction::{CompactError, NewestLines, newest_lines};
use delta_table::version_path;
use lake_basics::Blob;
use lake_basics::limits::MAX_ACTIONS;
use lake_store::Store;
use std::alloc::Global;
use table_history::{Feature, Kind, LimitKind};

/// What is told of the commit at a place in a block that is malformed.
fn malformed(alloc: Global, version: u64) -> CompactFault
    requires { version ≤ MAX_DELTA_VERSION }
    ensures told { HasCause (λ e. (path : List ℕ) × IsVersionPath path version
        × (e ≡ Malformed path)) result }
    ensures fault { (result ≢ StoreFault) × (result ≢ Contested) }
{
    match version_path(alloc, version) {
        Ok(path) => CompactFault::Malformed { path },
        Err(_) => CompactFault::Memory,
    }
}

/// What is told of a version that shows a feature.
pub(crate) fn unsupported(alloc: Global, feature: Feature, version: u64) -> CompactFault
    requires { version ≤ MAX_DELTA_VERSION }
    ensures told { HasCause (λ e. (path : List ℕ) × IsVersionPath path version
        × (e ≡ Unsupported feature path)) result }
    ensures fault { (result ≢ StoreFault) × (result ≢ Contested) }
{
    match version_path(alloc, version) {
        Ok(path) => CompactFault::Unsupported { feature, path },
        Err(_) => CompactFault::Memory,
    }
}

/// What is told of a block whose commits can't be joined.
pub(crate) fn join_fault(alloc: Global, block: u64, error: CompactError) -> CompactFault
    requires within { IsWithin MAX_DELTA_VERSION block }
    requires among { TellsAmong 10 error }
    ensures told { HasCause (TellsJoin block error) result }
    ensures fault { (result ≢ StoreFault) × (result ≢ Contested) }
{
    match error {
        CompactError::Memory => CompactFault::Memory,
        CompactError::Malformed { index, .. } => malformed(alloc, 10 * block + index as u64),
        CompactError::Unsupported { feature, index, .. } => {
            unsupported(alloc, feature, 10 * block + index as u64)
        }
        CompactError::Limit { which } => CompactFault::Limit {
            which,
            number: which.number(Kind::Delta),
        },
    }
}

/// The newest lines of a block's commits, where they don't have more file actions than one commit may
/// have.
pub(crate) fn block_lines<'a>(
    alloc: Global,
    block: u64,
    commits: &'a [Blob],
) -> Result<NewestLines<'a>, CompactFault>
    requires within { IsWithin MAX_DELTA_VERSION block }
    requires count { length commits.now ≡ 10 }
    ensures newest { IfOk result (AreNewest commits.now) }
    ensures taken { OnOk result ((said : List DeltaCommit) × AreTaken commits.now said) }
    ensures few { IfOk result (λ lines. file_count lines ≤ MAX_ACTIONS) }
    ensures refused { IfErr result (HasCause
        (λ e. IsUnjoined block commits.now e ⊎ HaveManyActions commits.now e)) }
    ensures fault { IfErr result (λ e. (e ≢ StoreFault) × (e ≢ Contested)) }
{
    let lines = match newest_lines(alloc, commits) {
        Ok(lines) => lines,
        Err(error) => return Err(join_fault(alloc, block, error)),
    };
    let count = lines.file_count() as u64;
    if count > MAX_ACTIONS {
        return Err(CompactFault::Limit {
            which: LimitKind::Actions,
            number: MAX_ACTIONS,
        });
    }
    Ok(lines)
}

/// Reads a block's commits, and joins them.
fn judge_block<S: Store>(alloc: Global, store: &mut S, block: u64) -> Result<(), CompactFault>
    requires within { IsWithin MAX_DELTA_VERSION block }
    requires held { S.tells → (commits : List (List ℕ))
        × HoldsBlock (S.disk store.old).files block commits }
    ensures joinable { S.tells → OnOk result (IsJoinable (S.disk store.old).files block) }
    ensures refused { S.tells → IfErr result
        (HasCause (IsUnjoinable (S.disk store.old).files block)) }
    ensures only_reads { S.tells → OnlyReads ⟦<S as Store>⟧ store.old store.new }
    ensures cause { FailsBy ⟦<S as Store>⟧ store.old store.new (IsErrOf result StoreFault) }
    ensures contest { IsUncontestedBy ⟦<S as Store>⟧ store.old store.new
        (IsErrOf result Contested) }
{
    let commits = read_block(alloc, store, block)?;
    block_lines(alloc, block, commits.as_slice())?;
    Ok(())
}

/// Reads and joins each block up to the newest version, one after another.
pub(crate) fn judge_blocks<S: Store>(
    alloc: Global,
    store: &mut S,
    newest: u64,
) -> Result<(), CompactFault>
    requires within { newest ≤ MAX_DELTA_VERSION }
    requires there { S.tells → HasEach (S.disk store.old).files newest }
    ensures joinable { S.tells → OnOk result (AreJoinable (S.disk store.old).files newest) }
    ensures refused { S.tells → IfErr result
        (HasCause (HasUnjoinable (S.disk store.old).files newest)) }
    ensures only_reads { S.tells → OnlyReads ⟦<S as Store>⟧ store.old store.new }
    ensures cause { FailsBy ⟦<S as Store>⟧ store.old store.new (IsErrOf result StoreFault) }
    ensures contest { IsUncontestedBy ⟦<S as Store>⟧ store.old store.new
        (IsErrOf result Contested) }
{
    for block in 0..block_count(newest) {
        judge_block(alloc, store, block)?;
    }
    Ok(())
}
