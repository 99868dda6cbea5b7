//! A sync of one target.
ghost use Rattle.std.specs.Prelude.{◌<◌, ◌^◌, IfErr, IfOk, IsErrOf, None, Some};
ghost use Rattle.lake_store.specs.Runs.{FailsBy, IsUncontestedBy, OnlyReads};
ghost use Rattle.target_core.specs.SeenView.{IsSeen, IsSeenSound};
ghost use Rattle.target_sync.specs.Along.{IsWholeSync};
ghost use Rattle.target_sync.specs.Answered.{IsEarly, IsLate, IsLookRefusal, IsNotForeign, IsOfLook, IsOfSync, IsSync};
ghost use Rattle.target_sync.specs.Plans.{IsFound, IsFoundOurs, IsFoundPublishable};
ghost use Rattle.target_sync.specs.Sources.{source_meaning};
ghost use Rattle.target_sync.specs.Targets.{target_facts};
ghost use Rattle.target_sync.specs.declared.status.Status.TheVariants.{Contested, StoreFault};

use crate::apply::{Report, apply_one};
use crate::cause::{status_of_source, status_of_target};
use crate::plan::{Mode, plan_found};
use crate::status::Status;
use lake_store::Store;
use source_core::{Head, Source};
use std::alloc::Global;
use table_history::Kind;
use target_core::{Seen, Target};

/// What inspecting a target sees.
pub fn inspected<T: Target, S: Store>(
    alloc: Global,
    target: &T,
    store: &mut S,
    source: Kind,
) -> Result<Seen<T::Kept>, Status>
    ensures sound { IfOk result (IsSeenSound (T.view target.now) source) }
    ensures seen { S.tells → IfOk result (IsSeen (T.reads target.now (S.disk store.old).files)
        (T.is_foreign target.now source (S.disk store.old).files) (T.view target.now)
        (λ kept. T.stands_for target.now kept (S.disk store.old).files) source) }
    ensures refused { S.tells → IfErr result (IsLookRefusal (T.kind target.now)
        (T.is_crowded target.now source (S.disk store.old).files)) }
    ensures few { IfErr result (IsOfSync (T.kind target.now)) }
    ensures look { IfErr result (IsLookRefusal (T.kind target.now) (λ which number. Unit {0})) }
    ensures only_reads { S.tells → OnlyReads ⟦<S as Store>⟧ store.old store.new }
    ensures cause { FailsBy ⟦<S as Store>⟧ store.old store.new (IsErrOf result StoreFault) }
    ensures contest { IsUncontestedBy ⟦<S as Store>⟧ store.old store.new
        (IsErrOf result (Contested (T.kind target.now))) }
{
    match target.inspect(alloc, store, source) {
        Ok(seen) => Ok(seen),
        Err(error) => Err(status_of_target(target.kind(), error)),
    }
}

/// What was found of a target by inspecting it: what is kept of ours, or no commit. A foreign one is
/// refused.
pub fn found<F: Source, T: Target, S: Store>(
    alloc: Global,
    source: &F,
    target: &T,
    store: &mut S,
) -> Result<Option<T::Kept>, Status>
    ensures ours { IfOk result (IsFoundOurs (T.view target.now) (F.kind source.now)) }
    ensures publishable { IfOk result (IsFoundPublishable (T.view target.now)) }
    ensures found { S.tells → IfOk result (IsFound (T.reads target.now) (T.stands_for target.now)
        (S.disk store.old).files) }
    ensures refused { S.tells → IfErr result (IsEarly (source_meaning ⟦<F as Source>⟧ source.now)
        (target_facts ⟦<T as Target>⟧ target.now) (S.disk store.old).files) }
    ensures few { IfErr result (IsOfSync (T.kind target.now)) }
    ensures look { IfErr result (IsOfLook (T.kind target.now)) }
    ensures only_reads { S.tells → OnlyReads ⟦<S as Store>⟧ store.old store.new }
    ensures cause { FailsBy ⟦<S as Store>⟧ store.old store.new (IsErrOf result StoreFault) }
    ensures contest { IsUncontestedBy ⟦<S as Store>⟧ store.old store.new
        (IsErrOf result (Contested (T.kind target.now))) }
{
    match inspected(alloc, target, store, source.kind()) {
        Ok(Seen::Absent) => Ok(None),
        Ok(Seen::Ours(kept)) => Ok(Some(kept)),
        Ok(Seen::Foreign(path)) => Err(Status::Foreign {
            target: target.kind(),
            path,
        }),
        Err(refused) => Err(refused),
    }
}

/// Brings a target of which this was found to the source's head, which is this one.
pub fn sync_found<F: Source, T: Target, S: Store>(
    alloc: Global,
    source: &F,
    head: &Head,
    target: &T,
    store: &mut S,
    found: Option<T::Kept>,
    mode: Mode,
    now_ms: u64,
) -> Result<Report, Status>
    requires now { now_ms < 2 ^ 63 }
    requires head { S.tells → F.is_head source.now (S.disk store.old).files head.now }
    requires there { S.tells → ¬ F.is_absent source.now (S.disk store.old).files }
    requires ours { IsFoundOurs (T.view target.now) (F.kind source.now) found }
    requires publishable { IsFoundPublishable (T.view target.now) found }
    requires found { S.tells → IsFound (T.reads target.now) (T.stands_for target.now)
        (S.disk store.old).files found }
    ensures sync { IsSync ⟦<S as Store>⟧ (source_meaning ⟦<F as Source>⟧ source.now)
        (target_facts ⟦<T as Target>⟧ target.now) None mode now_ms store.old store.new (Some result) }
    ensures late { S.tells → IfErr result (IsLate (source_meaning ⟦<F as Source>⟧ source.now)
        (target_facts ⟦<T as Target>⟧ target.now) mode now_ms (S.disk store.old).files) }
    ensures known { IfErr result IsNotForeign }
{
    match plan_found(alloc, source, head, target, store, found, mode) {
        Ok(plan) => apply_one(alloc, target, store, plan, source.kind(), now_ms),
        Err(error) => Err(status_of_source(error)),
    }
}

/// Brings a target to the source's head, which is this one.
pub fn sync_from<F: Source, T: Target, S: Store>(
    alloc: Global,
    source: &F,
    head: &Head,
    target: &T,
    store: &mut S,
    mode: Mode,
    now_ms: u64,
) -> Result<Report, Status>
    requires now { now_ms < 2 ^ 63 }
    requires head { S.tells → F.is_head source.now (S.disk store.old).files head.now }
    requires there { S.tells → ¬ F.is_absent source.now (S.disk store.old).files }
    ensures { IsSync ⟦<S as Store>⟧ (source_meaning ⟦<F as Source>⟧ source.now)
        (target_facts ⟦<T as Target>⟧ target.now) None mode now_ms store.old store.new (Some result) }
{
    match found(alloc, source, target, store) {
        Ok(kept) => sync_found(alloc, source, head, target, store, kept, mode, now_ms),
        Err(refused) => Err(refused),
    }
}

/// Brings a target to the source's head.
pub fn sync_one<F: Source, T: Target, S: Store>(
    alloc: Global,
    source: &F,
    target: &T,
    store: &mut S,
    mode: Mode,
    now_ms: u64,
) -> Result<Report, Status>
    requires now { now_ms < 2 ^ 63 }
    ensures { IsWholeSync ⟦<S as Store>⟧ (source_meaning ⟦<F as Source>⟧ source.now)
        (target_facts ⟦<T as Target>⟧ target.now) None mode now_ms store.old store.new (Some result) }
{
    match source.head(alloc, store) {
        Ok(head) => sync_from(alloc, source, &head, target, store, mode, now_ms),
        Err(error) => Err(status_of_source(error)),
    }
}
