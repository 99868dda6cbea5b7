//! A sync of two targets with its lines.
ghost use Rattle.std.specs.Prelude.{◌≡◌, ◌≢◌, ◌<◌, ◌^◌, ◌↔◌, IfSome, IsTrue, Some};
ghost use Rattle.target_core.specs.Conditions.{IsPublishable};
ghost use Rattle.target_sync.specs.Plans.{IsDuePlan, IsFound, IsFoundOurs, IsFoundPublishable, IsSoundPlan};
ghost use Rattle.target_sync.specs.Sources.{source_meaning};
ghost use Rattle.target_sync.specs.Targets.{target_facts};
ghost use Rattle.sync_driver.specs.Both.{GoesBoth, IsAtOnce, SyncsBoth, TellsBehind, first_refusal, status_behind};

use crate::command::put_answer;
use crate::tell::{put_pending, refuse};
use lake_store::{Sink, Store};
use source_core::{Head, Source};
use std::alloc::Global;
use table_history::{Kind, Table};
use target_core::Target;
use target_sync::{
    Mode, Plan, Report, Status, apply_one, found, plan_beside, plan_with, status_of_source,
    sync_found, sync_from,
};

/// Whether a command ends at once whose line gave this status.
fn ends(status: &Status) -> bool
    ensures { IsTrue result ↔ IsAtOnce status.now }
{
    matches!(
        status,
        Status::Memory | Status::StoreFault | Status::SinkFault
    )
}

/// The first of the two that isn't `Done`.
fn first_refusal(so_far: Status, next: Status) -> Status
    ensures { result ≡ first_refusal so_far next }
{
    match so_far {
        Status::Done => next,
        so_far => so_far,
    }
}

/// The status of a command with one line more.
fn status_behind(so_far: Status, next: Status) -> Status
    ensures { result ≡ status_behind so_far next }
{
    if ends(&next) {
        return next;
    }
    first_refusal(so_far, next)
}

/// Puts the line of a target out behind others, which gave this status so far.
fn put_behind<O: Sink>(
    alloc: Global,
    out: &mut O,
    so_far: Status,
    target: Kind,
    answer: Result<Report, Status>,
) -> Status
    ensures { TellsBehind ⟦<O as Sink>⟧ out.old out.new so_far target (Some answer) result }
{
    let last = put_answer(alloc, out, target, answer);
    status_behind(so_far, last)
}

/// Brings two targets to the source's head, of which this is planned for the first and this was found
/// of the second. `whole` is the source's table there, where it was read.
fn sync_planned<F: Source, T: Target, U: Target, S: Store, O: Sink>(
    alloc: Global,
    source: &F,
    head: &Head,
    first: &T,
    first_plan: Plan<T::Kept>,
    second: &U,
    second_found: Option<U::Kept>,
    whole: Option<Table>,
    store: &mut S,
    mode: Mode,
    now_ms: u64,
    out: &mut O,
) -> Status
    requires now { now_ms < 2 ^ 63 }
    requires far { F.kind source.now ≢ T.kind first.now }
    requires far_second { F.kind source.now ≢ U.kind second.now }
    requires apart { T.kind first.now ≢ U.kind second.now }
    requires head { S.tells → F.is_head source.now (S.disk store.old).files head.now }
    requires there { S.tells → ¬ F.is_absent source.now (S.disk store.old).files }
    requires first_sound { IsSoundPlan (T.view first.now) (T.image first.now) (F.kind source.now)
        mode first_plan }
    requires first_due { S.tells → IsDuePlan (T.view first.now) (T.stands_for first.now)
        (source_meaning ⟦<F as Source>⟧ source.now) mode (S.disk store.old).files head.now
        first_plan }
    requires second_ours { IsFoundOurs (U.view second.now) (F.kind source.now) second_found }
    requires second_publishable { IsFoundPublishable (U.view second.now) second_found }
    requires second_found { S.tells → IsFound (U.reads second.now) (U.stands_for second.now)
        (S.disk store.old).files second_found }
    requires whole { S.tells → IfSome whole (F.is_table source.now (S.disk store.old).files) }
    requires whole_publishable { IfSome whole IsPublishable }
    ensures { GoesBoth ⟦<S as Store>⟧ ⟦<O as Sink>⟧ (source_meaning ⟦<F as Source>⟧ source.now)
        (target_facts ⟦<T as Target>⟧ first.now) (target_facts ⟦<U as Target>⟧ second.now) mode
        now_ms store.old store.new out.old out.new result }
{
    let second_plan = match plan_beside(
        alloc,
        source,
        head,
        first,
        &first_plan,
        second,
        store,
        second_found,
        mode,
        whole,
    ) {
        Ok(plan) => plan,
        Err(error) => return refuse(alloc, out, status_of_source(error)),
    };
    let answer = apply_one(alloc, first, store, first_plan, source.kind(), now_ms);
    let so_far = put_answer(alloc, out, first.kind(), answer);
    if ends(&so_far) {
        return so_far;
    }
    let answer = apply_one(alloc, second, store, second_plan, source.kind(), now_ms);
    put_behind(alloc, out, so_far, second.kind(), answer)
}

/// Brings two targets of which this was found to the source's head.
fn sync_found_both<F: Source, T: Target, U: Target, S: Store, O: Sink>(
    alloc: Global,
    source: &F,
    head: &Head,
    first: &T,
    first_found: Option<T::Kept>,
    second: &U,
    second_found: Option<U::Kept>,
    store: &mut S,
    mode: Mode,
    now_ms: u64,
    out: &mut O,
) -> Status
    requires now { now_ms < 2 ^ 63 }
    requires far { F.kind source.now ≢ T.kind first.now }
    requires far_second { F.kind source.now ≢ U.kind second.now }
    requires apart { T.kind first.now ≢ U.kind second.now }
    requires head { S.tells → F.is_head source.now (S.disk store.old).files head.now }
    requires there { S.tells → ¬ F.is_absent source.now (S.disk store.old).files }
    requires first_ours { IsFoundOurs (T.view first.now) (F.kind source.now) first_found }
    requires first_publishable { IsFoundPublishable (T.view first.now) first_found }
    requires first_found { S.tells → IsFound (T.reads first.now) (T.stands_for first.now)
        (S.disk store.old).files first_found }
    requires second_ours { IsFoundOurs (U.view second.now) (F.kind source.now) second_found }
    requires second_publishable { IsFoundPublishable (U.view second.now) second_found }
    requires second_found { S.tells → IsFound (U.reads second.now) (U.stands_for second.now)
        (S.disk store.old).files second_found }
    ensures { GoesBoth ⟦<S as Store>⟧ ⟦<O as Sink>⟧ (source_meaning ⟦<F as Source>⟧ source.now)
        (target_facts ⟦<T as Target>⟧ first.now) (target_facts ⟦<U as Target>⟧ second.now) mode
        now_ms store.old store.new out.old out.new result }
{
    let mut whole = None;
    match plan_with(
        alloc,
        source,
        head,
        first,
        store,
        first_found,
        mode,
        &mut whole,
    ) {
        Ok(first_plan) => sync_planned(
            alloc,
            source,
            head,
            first,
            first_plan,
            second,
            second_found,
            whole,
            store,
            mode,
            now_ms,
            out,
        ),
        Err(error) => refuse(alloc, out, status_of_source(error)),
    }
}

/// Brings two targets to the source's head, of the first of which this was found.
fn sync_left<F: Source, T: Target, U: Target, S: Store, O: Sink>(
    alloc: Global,
    source: &F,
    head: &Head,
    first: &T,
    first_found: Option<T::Kept>,
    second: &U,
    store: &mut S,
    mode: Mode,
    now_ms: u64,
    out: &mut O,
) -> Status
    requires now { now_ms < 2 ^ 63 }
    requires far { F.kind source.now ≢ T.kind first.now }
    requires far_second { F.kind source.now ≢ U.kind second.now }
    requires apart { T.kind first.now ≢ U.kind second.now }
    requires head { S.tells → F.is_head source.now (S.disk store.old).files head.now }
    requires there { S.tells → ¬ F.is_absent source.now (S.disk store.old).files }
    requires first_ours { IsFoundOurs (T.view first.now) (F.kind source.now) first_found }
    requires first_publishable { IsFoundPublishable (T.view first.now) first_found }
    requires first_found { S.tells → IsFound (T.reads first.now) (T.stands_for first.now)
        (S.disk store.old).files first_found }
    ensures { GoesBoth ⟦<S as Store>⟧ ⟦<O as Sink>⟧ (source_meaning ⟦<F as Source>⟧ source.now)
        (target_facts ⟦<T as Target>⟧ first.now) (target_facts ⟦<U as Target>⟧ second.now) mode
        now_ms store.old store.new out.old out.new result }
{
    match found(alloc, source, second, store) {
        Ok(second_found) => sync_found_both(
            alloc,
            source,
            head,
            first,
            first_found,
            second,
            second_found,
            store,
            mode,
            now_ms,
            out,
        ),
        Err(refused) => {
            let so_far = refuse(alloc, out, refused);
            if ends(&so_far) {
                return so_far;
            }
            let answer = sync_found(alloc, source, head, first, store, first_found, mode, now_ms);
            put_behind(alloc, out, so_far, first.kind(), answer)
        }
    }
}

/// Brings two targets to the source's head, which is this one.
fn sync_both_from<F: Source, T: Target, U: Target, S: Store, O: Sink>(
    alloc: Global,
    source: &F,
    head: &Head,
    first: &T,
    second: &U,
    store: &mut S,
    mode: Mode,
    now_ms: u64,
    out: &mut O,
) -> Status
    requires now { now_ms < 2 ^ 63 }
    requires far { F.kind source.now ≢ T.kind first.now }
    requires far_second { F.kind source.now ≢ U.kind second.now }
    requires apart { T.kind first.now ≢ U.kind second.now }
    requires head { S.tells → F.is_head source.now (S.disk store.old).files head.now }
    requires there { S.tells → ¬ F.is_absent source.now (S.disk store.old).files }
    ensures { GoesBoth ⟦<S as Store>⟧ ⟦<O as Sink>⟧ (source_meaning ⟦<F as Source>⟧ source.now)
        (target_facts ⟦<T as Target>⟧ first.now) (target_facts ⟦<U as Target>⟧ second.now) mode
        now_ms store.old store.new out.old out.new result }
{
    match found(alloc, source, first, store) {
        Ok(first_found) => sync_left(
            alloc,
            source,
            head,
            first,
            first_found,
            second,
            store,
            mode,
            now_ms,
            out,
        ),
        Err(refused) => {
            let so_far = refuse(alloc, out, refused);
            if ends(&so_far) {
                return so_far;
            }
            let answer = sync_from(alloc, source, head, second, store, mode, now_ms);
            put_behind(alloc, out, so_far, second.kind(), answer)
        }
    }
}

/// Brings two targets to the source's head, puts the lines out, and answers how that ended.
pub(crate) fn sync_both<F: Source, T: Target, U: Target, S: Store, O: Sink>(
    alloc: Global,
    source: &F,
    first: &T,
    second: &U,
    store: &mut S,
    mode: Mode,
    now_ms: u64,
    out: &mut O,
) -> Status
    requires now { now_ms < 2 ^ 63 }
    requires far { F.kind source.now ≢ T.kind first.now }
    requires far_second { F.kind source.now ≢ U.kind second.now }
    requires apart { T.kind first.now ≢ U.kind second.now }
    ensures { SyncsBoth ⟦<S as Store>⟧ ⟦<O as Sink>⟧ (source_meaning ⟦<F as Source>⟧ source.now)
        (target_facts ⟦<T as Target>⟧ first.now) (target_facts ⟦<U as Target>⟧ second.now) mode
        now_ms store.old store.new out.old out.new result }
{
    let head = match source.head(alloc, store) {
        Ok(head) => head,
        Err(error) => return refuse(alloc, out, status_of_source(error)),
    };
    match put_pending(alloc, out, &head) {
        Ok(()) => sync_both_from(
            alloc, source, &head, first, second, store, mode, now_ms, out,
        ),
        Err(cut) => cut,
    }
}
