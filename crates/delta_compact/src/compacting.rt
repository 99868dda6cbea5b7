//! Compacting a log.

ghost use Rattle.std.specs.Prelude.{◌<◌, ◌≤◌, ◌+◌, ◌^◌, ℕ, List, IfErr, IfOk, IsErrOf};
ghost use Rattle.lake_basics.specs.declared.limits.TheConstants.{MAX_DELTA_VERSION};
ghost use Rattle.lake_store.specs.Runs.{FailsBy, IsContestedBy, OnlyReads};
ghost use Rattle.delta_compact.specs.Blocks.{IsBlockPath};
ghost use Rattle.delta_compact.specs.Compacting.{AreCompacted, CompactsUpTo, IsDone, StopsBefore};
ghost use Rattle.delta_compact.specs.Refusals.{AreJoinable, HasCause, HasStale, IsEarly, IsRefused};
ghost use Rattle.delta_compact.specs.Steps.{IsCounted};
ghost use Rattle.delta_compact.specs.declared.error.CompactFault.TheVariants.{Contested, Stale, StoreFault};

use crate::blocks::block_count;
use crate::error::CompactFault;
use crate::joining::judge_blocks;
use crate::publishing::compact_block;
use crate::reading::read_whole;
use lake_store::Store;
use std::alloc::Global;

/// What was done: the newest version, how many log compactions were written and how many were kept,
/// and the number of the table's live files at the newest version.
#[derive(Clone, Copy)]
pub struct Compacted {
    pub head: u64,
    pub written: u64,
    pub kept: u64,
    pub files: u64,
}

/// How many log compactions were written, and how many were kept.
#[derive(Clone, Copy)]
struct Counts {
    written: u64,
    kept: u64,
}

impl Counts {
    /// The counts with one block more.
    fn with_block(self, written: bool) -> Counts
        requires { self.written + self.kept < 2 ^ 63 }
        ensures { IsCounted written self result }
    {
        if written {
            Counts {
                written: self.written + 1,
                kept: self.kept,
            }
        } else {
            Counts {
                written: self.written,
                kept: self.kept + 1,
            }
        }
    }
}

/// Sees to it that each block up to the newest version has a log compaction that agrees, one block
/// after another.
fn compact_blocks<S: Store>(
    alloc: Global,
    store: &mut S,
    newest: u64,
) -> Result<Counts, CompactFault>
    requires within { newest ≤ MAX_DELTA_VERSION }
    requires joinable { S.tells → AreJoinable (S.disk store.old).files newest }
    ensures compacted { S.tells → IfOk result (λ counts. AreCompacted (S.disk store.old).files
        (S.disk store.new).files newest counts.written counts.kept) }
    ensures compacts { S.tells → (end : ℕ) × CompactsUpTo ⟦<S as Store>⟧ end
        (IsErrOf result Contested) store.old store.new }
    ensures stale { S.tells → (path : List ℕ) (block : ℕ) → IsErrOf result (Stale path)
        → IsBlockPath path block → StopsBefore ⟦<S as Store>⟧ block store.old store.new }
    ensures refused { S.tells → IfErr result
        (HasCause (HasStale (S.disk store.old).files newest)) }
    ensures cause { FailsBy ⟦<S as Store>⟧ store.old store.new (IsErrOf result StoreFault) }
    ensures contest { IsContestedBy ⟦<S as Store>⟧ store.old store.new
        (IsErrOf result Contested) }
{
    let mut counts = Counts {
        written: 0,
        kept: 0,
    };
    for block in 0..block_count(newest) {
        let written = compact_block(alloc, store, block)?;
        counts = counts.with_block(written);
    }
    Ok(counts)
}

/// Joins the log of a Delta table in blocks of ten versions, from 10 b to 10 b + 9, and writes a log
/// compaction for each block up to the newest version that has none (Delta protocol, "Log Compaction
/// Files"). The log is first read whole, as the Delta source reads it, and each block is joined,
/// before anything is written. A log compaction that is there is kept where it agrees with its
/// commits, and refused as stale where it doesn't.
pub fn compact<S: Store>(alloc: Global, store: &mut S) -> Result<Compacted, CompactFault>
    // Each block up to the newest version has a log compaction that agrees.
    ensures done { S.tells → IfOk result
        (IsDone (S.disk store.old).files (S.disk store.new).files) }

    // Whatever it answers, no file changes but the staged one and log compactions that weren't there,
    // from the first block on up to the one at which it ends. At each moment each of these is absent
    // or whole. It ends before a stale one.
    ensures compacts { S.tells → (end : ℕ) × CompactsUpTo ⟦<S as Store>⟧ end
        (IsErrOf result Contested) store.old store.new }
    ensures stale { S.tells → (path : List ℕ) (block : ℕ) → IsErrOf result (Stale path)
        → IsBlockPath path block → StopsBefore ⟦<S as Store>⟧ block store.old store.new }

    // Where no refusal has a cause, the answer is `Ok`, unless memory runs out, the store fails or
    // another writer is in the way.
    ensures refused { S.tells → IfErr result (HasCause (IsRefused (S.disk store.old).files)) }

    // What isn't told of a stale log compaction is told before anything is written.
    ensures early { S.tells → IfErr result
        (λ e. IsEarly e → OnlyReads ⟦<S as Store>⟧ store.old store.new) }
    ensures cause { FailsBy ⟦<S as Store>⟧ store.old store.new (IsErrOf result StoreFault) }
    ensures contest { IsContestedBy ⟦<S as Store>⟧ store.old store.new
        (IsErrOf result Contested) }
{
    let log = read_whole(alloc, store)?;
    judge_blocks(alloc, store, log.newest)?;
    let counts = compact_blocks(alloc, store, log.newest)?;
    Ok(Compacted {
        head: log.newest,
        written: counts.written,
        kept: counts.kept,
        files: log.files,
    })
}
