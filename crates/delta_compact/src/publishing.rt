//! Writing the log compaction of one block.

ghost use Rattle.std.specs.Prelude.{◌≡◌, ◌≢◌, ◌⊎◌, ◌≤◌, ℕ, List, length, None, IfErr, IfOk, IfSome, IsErrOf, OnOk};
ghost use Rattle.std.specs.FinMap as map;
ghost use Rattle.lake_basics.specs.declared.limits.TheConstants.{MAX_DELTA_VERSION, MAX_FILE_BYTES};
ghost use Rattle.lake_store.specs.Runs.{FailsBy, IsContestedBy, IsUncontestedBy, OnlyReads};
ghost use Rattle.delta_log.specs.declared.commit.DeltaCommit.{DeltaCommit};
ghost use Rattle.delta_compaction.specs.Agreeing.{Agrees};
ghost use Rattle.delta_compaction.specs.Taken.{AreTaken};
ghost use Rattle.delta_compact.specs.Blocks.{HoldsBlock, IsBlockPath, IsCompacted, IsWithin};
ghost use Rattle.delta_compact.specs.Compacting.{Compacts};
ghost use Rattle.delta_compact.specs.Refusals.{HasCause, HaveManyActions, IsStale, IsUnjoinable, IsUnjoined};
ghost use Rattle.delta_compact.specs.Steps.{IsToldStale, IsWritten};
ghost use Rattle.delta_compact.specs.declared.error.CompactFault.TheVariants.{Contested, Stale, StoreFault};

use crate::blocks::block_path;
use crate::error::{CompactFault, store_fault};
use crate::joining::{block_lines, join_fault};
use crate::reading::read_block;
use delta_compaction::agrees;
use lake_basics::{Blob, Text};
use lake_store::{Store, StoreError, stage_and_publish};
use std::alloc::Global;

/// Where a log compaction is written before it gets its name.
const STAGED_PATH: &str = ".lakebridge/compact.json";

/// What is told of a stale log compaction.
fn stale(alloc: Global, path: &Text) -> CompactFault
    ensures told { HasCause (λ e. e ≡ Stale path.now) result }
    ensures fault { (result ≢ StoreFault) × (result ≢ Contested) }
{
    match path.copy(alloc) {
        Ok(path) => CompactFault::Stale { path },
        Err(_) => CompactFault::Memory,
    }
}

/// The bytes of a block's log compaction, if it is there. One that is too large to be read is stale.
fn read_compaction<S: Store>(
    alloc: Global,
    store: &mut S,
    block: u64,
    path: &Text,
) -> Result<Option<Blob>, CompactFault>
    requires path { IsBlockPath path.now block }
    ensures found { S.tells → IfOk result
        (λ found. found ≡ map.get (S.disk store.old).files path.now) }
    ensures short { IfOk result
        (λ found. IfSome found (λ bytes. length bytes ≤ MAX_FILE_BYTES)) }
    ensures refused { S.tells → IfErr result (HasCause
        (λ e. IsStale (S.disk store.old).files block × (e ≡ Stale path.now))) }
    ensures only_reads { S.tells → OnlyReads ⟦<S as Store>⟧ store.old store.new }
    ensures cause { FailsBy ⟦<S as Store>⟧ store.old store.new (IsErrOf result StoreFault) }
    ensures contest { IsUncontestedBy ⟦<S as Store>⟧ store.old store.new
        (IsErrOf result Contested) }
{
    match store.read(alloc, path.as_str()) {
        Ok(found) => Ok(found),
        Err(StoreError::TooLong { .. }) => Err(stale(alloc, path)),
        Err(StoreError::Failed) => Err(CompactFault::StoreFault),
        Err(StoreError::Memory | StoreError::Taken) => Err(CompactFault::Memory),
    }
}

/// Refuses a log compaction that doesn't agree with the block's commits.
fn judge_compaction(
    alloc: Global,
    block: u64,
    path: Text,
    bytes: &[u8],
    commits: &[Blob],
) -> Result<(), CompactFault>
    requires within { IsWithin MAX_DELTA_VERSION block }
    requires count { length commits.now ≡ 10 }
    ensures agrees { OnOk result (Agrees bytes.now commits.now) }
    ensures taken { OnOk result ((said : List DeltaCommit) × AreTaken commits.now said) }
    ensures refused { IfErr result (HasCause (λ e. IsUnjoined block commits.now e
        ⊎ ((¬ Agrees bytes.now commits.now) × (e ≡ Stale path)))) }
    ensures fault { IfErr result (λ e. (e ≢ StoreFault) × (e ≢ Contested)) }
{
    match agrees(alloc, bytes, commits) {
        Ok(true) => Ok(()),
        Ok(false) => Err(CompactFault::Stale { path }),
        Err(error) => Err(join_fault(alloc, block, error)),
    }
}

/// Writes a block's log compaction, which isn't there: its text is staged, made durable and renamed in
/// one step.
fn publish_block<S: Store>(
    alloc: Global,
    store: &mut S,
    block: u64,
    path: &Text,
    commits: &[Blob],
) -> Result<(), CompactFault>
    requires within { IsWithin MAX_DELTA_VERSION block }
    requires path { IsBlockPath path.now block }
    requires held { S.tells → HoldsBlock (S.disk store.old).files block commits.now }
    requires count { length commits.now ≡ 10 }
    requires free { S.tells → map.get (S.disk store.old).files path.now ≡ None }
    ensures compacted { S.tells → OnOk result (IsCompacted (S.disk store.new).files block) }
    ensures compacts { S.tells → Compacts ⟦<S as Store>⟧ (λ b. b ≡ block)
        (λ b. (b ≡ block) × IsErrOf result Contested) store.old store.new }
    ensures refused { IfErr result (HasCause
        (λ e. IsUnjoined block commits.now e ⊎ HaveManyActions commits.now e)) }
    ensures cause { FailsBy ⟦<S as Store>⟧ store.old store.new (IsErrOf result StoreFault) }
    ensures contest { IsContestedBy ⟦<S as Store>⟧ store.old store.new
        (IsErrOf result Contested) }
{
    let lines = block_lines(alloc, block, commits)?;
    let text = lines.text(alloc)?;
    match stage_and_publish(store, STAGED_PATH, path.as_str(), text.as_slice()) {
        Ok(()) => Ok(()),
        Err(error) => Err(store_fault(error)),
    }
}

/// Sees to it that a block has a log compaction that agrees: keeps the one that is there, or writes
/// it. Answers whether it was written.
pub(crate) fn compact_block<S: Store>(
    alloc: Global,
    store: &mut S,
    block: u64,
) -> Result<bool, CompactFault>
    requires within { IsWithin MAX_DELTA_VERSION block }
    requires held { S.tells → (commits : List (List ℕ))
        × HoldsBlock (S.disk store.old).files block commits }
    ensures compacted { S.tells → OnOk result (IsCompacted (S.disk store.new).files block) }
    ensures fresh { S.tells → OnOk result (¬ IsStale (S.disk store.old).files block) }
    ensures written { S.tells → IfOk result
        (λ written. IsWritten (S.disk store.old).files block written) }
    ensures compacts { S.tells → Compacts ⟦<S as Store>⟧ (λ b. b ≡ block)
        (λ b. (b ≡ block) × IsErrOf result Contested) store.old store.new }
    ensures refused { S.tells → IfErr result (HasCause
        (λ e. IsUnjoinable (S.disk store.old).files block e
        ⊎ IsToldStale (S.disk store.old).files block e)) }
    ensures unwritten { S.tells → (path : List ℕ) → IsErrOf result (Stale path)
        → OnlyReads ⟦<S as Store>⟧ store.old store.new }
    ensures cause { FailsBy ⟦<S as Store>⟧ store.old store.new (IsErrOf result StoreFault) }
    ensures contest { IsContestedBy ⟦<S as Store>⟧ store.old store.new
        (IsErrOf result Contested) }
{
    let commits = read_block(alloc, store, block)?;
    let path = block_path(alloc, block)?;
    match read_compaction(alloc, store, block, &path)? {
        Some(bytes) => {
            judge_compaction(alloc, block, path, bytes.as_slice(), commits.as_slice())?;
            Ok(false)
        }
        None => {
            publish_block(alloc, store, block, &path, commits.as_slice())?;
            Ok(true)
        }
    }
}
