//! Publishing what is planned.
ghost use Rattle.std.specs.Prelude.{◌≡◌, ◌<◌, ◌^◌, IfOk, Result};
ghost use Rattle.target_core.specs.TargetMeanings.{meaning};
ghost use Rattle.target_core.specs.declared.target.TargetError.{TargetError};
ghost use Rattle.target_core.specs.Views.{origin_of};
ghost use Rattle.target_sync.specs.Applied.{Applies, CanApplyPlan, IsReportOf, answer_of_target, position_at};
ghost use Rattle.target_sync.specs.Targets.{HaveWritten};
ghost use Rattle.target_sync.specs.declared.apply.Report.{Report};

use crate::cause::status_of_target;
use crate::plan::Plan;
use crate::status::Status;
use lake_basics::Text;
use lake_store::Store;
use std::alloc::{AllocError, Global};
use table_history::Kind;
use target_core::{Target, TargetError, follow};

/// What is told of a target that is at the source's head.
#[derive(Debug, Drop)]
pub struct Report {
    /// Whether it took one commit with the whole table.
    pub full: bool,
    /// How many commits were published.
    pub published: u64,
    /// How many live files it has.
    pub files: u64,
    /// The source's position that it stands at.
    pub at: Text,
}

/// The position that the target stands at, and the empty text where nothing is published.
pub fn position_of<T: Target>(alloc: Global, target: &T, kept: &T::Kept) -> Result<Text, AllocError>
    ensures { IfOk result (λ at. at ≡ position_at (T.view target.now kept.now).mark) }
{
    match target.mark(kept) {
        Some(mark) => mark.to.copy(alloc),
        None => Text::from_str(alloc, ""),
    }
}

/// What is told of a target of which this is kept.
fn report_of<T: Target>(
    alloc: Global,
    target: &T,
    kept: &T::Kept,
    full: bool,
    published: u64,
) -> Result<Report, AllocError>
    ensures { IfOk result (IsReportOf published full (T.view target.now kept.now)) }
{
    Ok(Report {
        full,
        published,
        files: target.table(kept).rows.len() as u64,
        at: position_of(alloc, target, kept)?,
    })
}

/// Publishes what is planned, where it fits the target.
fn publish_plan<T: Target, S: Store>(
    alloc: Global,
    target: &T,
    store: &mut S,
    plan: &mut Plan<T::Kept>,
    source: Kind,
    now_ms: u64,
) -> Result<Report, TargetError>
    requires now { now_ms < 2 ^ 63 }
    requires counted { S.tells → T.counted target.now plan.old.kept (S.disk store.old).files }
    requires can { CanApplyPlan (T.image target.now) source
        (origin_of source plan.old.table) plan.old.partition plan.old.commits
        (T.view target.now plan.old.kept) }
    ensures { Applies ⟦<S as Store>⟧ (meaning ⟦<T as Target>⟧ target.now)
        (T.unfit target.now plan.old.kept plan.old.partition plan.old.commits)
        (T.passes target.now plan.old.kept (S.disk store.old).files
        (origin_of source plan.old.table) now_ms)
        (HaveWritten ⟦<T as Target>⟧ target.now plan.old.kept (S.disk store.old).files
        (origin_of source plan.old.table) now_ms)
        (origin_of source plan.old.table) (T.view target.now plan.old.kept)
        plan.old.partition plan.old.commits plan.old.full
        (T.stands_for target.now plan.old.kept (S.disk store.old).files
        × T.settled target.now (S.disk store.old)) store.old store.new result }
{
    let commits = plan.commits.as_slice();
    target.fits(alloc, &plan.kept, plan.partition.as_slice(), commits)?;
    let published = follow(
        alloc,
        target,
        store,
        &mut plan.kept,
        commits,
        source,
        plan.table.as_ref(),
        now_ms,
    )?;
    Ok(report_of(alloc, target, &plan.kept, plan.full, published)?)
}

/// Publishes what is planned, where it fits the target, and tells what the target then has.
pub fn apply_one<T: Target, S: Store>(
    alloc: Global,
    target: &T,
    store: &mut S,
    plan: Plan<T::Kept>,
    source: Kind,
    now_ms: u64,
) -> Result<Report, Status>
    requires now { now_ms < 2 ^ 63 }
    requires counted { S.tells → T.counted target.now plan.kept (S.disk store.old).files }
    requires can { CanApplyPlan (T.image target.now) source
        (origin_of source plan.table) plan.partition plan.commits
        (T.view target.now plan.kept) }
    ensures { (answer : Result Report TargetError)
        × (result ≡ answer_of_target (T.kind target.now) answer)
        × Applies ⟦<S as Store>⟧ (meaning ⟦<T as Target>⟧ target.now)
        (T.unfit target.now plan.kept plan.partition plan.commits)
        (T.passes target.now plan.kept (S.disk store.old).files
        (origin_of source plan.table) now_ms)
        (HaveWritten ⟦<T as Target>⟧ target.now plan.kept (S.disk store.old).files
        (origin_of source plan.table) now_ms)
        (origin_of source plan.table) (T.view target.now plan.kept)
        plan.partition plan.commits plan.full
        (T.stands_for target.now plan.kept (S.disk store.old).files
        × T.settled target.now (S.disk store.old)) store.old store.new answer }
{
    let mut plan = plan;
    match publish_plan(alloc, target, store, &mut plan, source, now_ms) {
        Ok(report) => Ok(report),
        Err(error) => Err(status_of_target(target.kind(), error)),
    }
}
