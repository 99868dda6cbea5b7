//! What is to be published to a target.
ghost use Rattle.std.specs.Prelude.{◌≡◌, ◌↔◌, IfErr, IfOk, IfSome, IsErrOf, IsTrue};
ghost use Rattle.std.specs.Option.{option_copied};
ghost use Rattle.lake_store.specs.Runs.{FailsBy, IsUncontestedBy, OnlyReads};
ghost use Rattle.source_core.specs.Answers.{IsReadRefusal};
ghost use Rattle.source_core.specs.Since.{CanApplySince};
ghost use Rattle.table_history.specs.Tables.{CanApply, LeadsTo};
ghost use Rattle.table_history.specs.declared.kind.Kind.{Kind};
ghost use Rattle.target_core.specs.Conditions.{GoesOn, IsPublishable};
ghost use Rattle.target_core.specs.Views.{IsOfSource};
ghost use Rattle.target_core.specs.SeenView.{IsSeen, IsSeenSound};
ghost use Rattle.target_core.specs.declared.target.Seen.TheVariants.{Ours};
ghost use Rattle.target_sync.specs.Applied.{answer_of_source};
ghost use Rattle.target_sync.specs.Answered.{IsOfSync, IsPlanRefusal, IsReadFault};
ghost use Rattle.target_sync.specs.Dues.{IsChangeTo, IsIdBehind, IsMarked, IsSinceFault, IsWhole, MayBeSame, TakesCommits};
ghost use Rattle.target_sync.specs.Plans.{IsDuePlan, IsFound, IsFoundInFull, IsFoundOfSource, IsFoundOurs, IsFoundPublishable, IsFullPlan, IsSeenPublishable, IsSinceMark, IsSincePlan, IsSoundPlan, IsStartOf, id_or, marked_id};
ghost use Rattle.target_sync.specs.Sources.{source_meaning};
ghost use Rattle.target_sync.specs.Targets.{target_facts};
ghost use Rattle.target_sync.specs.declared.plan.Mode.TheVariants.{Sync};
ghost use Rattle.target_sync.specs.declared.status.Status.TheVariants as status;

use crate::cause::status_of_source;
use crate::copying::copy_texts;
use crate::status::Status;
use lake_basics::{Items, Text};
use lake_store::Store;
use source_core::{Head, Since, Source, SourceError};
use std::alloc::{AllocError, Global};
use table_history::{Commit, Table};
use target_core::{Seen, Target};

/// How a target is brought to the source's head.
#[derive(Clone, Copy, Debug, PartialEq, Eq)]
pub enum Mode {
    /// By the commits since the target's mark, where they are all there.
    Sync,
    /// By one commit with the whole table.
    Full,
}

/// What is to be published, over what is kept of a target.
#[derive(Drop)]
pub struct Plan<A: Drop> {
    pub kept: A,
    /// The source's partition columns.
    pub partition: Items<Text>,
    pub commits: Items<Commit>,
    /// Whether the commits are one with the whole table.
    pub full: bool,
    /// The id of the source's table that the commits' marks state.
    pub table: Option<Text>,
}

// The ids of the source's table.

/// Whether the two ids are the same, or one of them isn't stated.
pub fn may_be_same(id: &Option<Text>, other: &Option<Text>) -> bool
    ensures { IsTrue result ↔ MayBeSame id.now other.now }
{
    match (id, other) {
        (Some(id), Some(other)) => id == other,
        _ => true,
    }
}

/// The id that the mark of what is kept states.
fn id_of_mark<'a, T: Target>(target: &T, kept: &'a T::Kept) -> Option<&'a Text>
    ensures { option_copied result ≡ marked_id (T.view target.now kept.now).mark }
{
    target.mark(kept)?.table.as_ref()
}

/// The first id, or else the second.
fn id_or(alloc: Global, id: &Option<Text>, other: Option<&Text>) -> Result<Option<Text>, AllocError>
    ensures { IfOk result (λ copy. copy ≡ id_or id.now (option_copied other.entry)) }
{
    match (id, other) {
        (Some(id), _) => Ok(Some(id.copy(alloc)?)),
        (None, Some(other)) => Ok(Some(other.copy(alloc)?)),
        (None, None) => Ok(None),
    }
}

// The commits since the mark.

/// The commits since the mark of what is kept, where the history since it is whole.
fn commits_since<F: Source, T: Target, S: Store>(
    alloc: Global,
    source: &F,
    head: &Head,
    target: &T,
    store: &mut S,
    kept: &T::Kept,
) -> Result<Since, SourceError>
    requires head { S.tells → F.is_head source.now (S.disk store.old).files head.now }
    requires goes_on { S.tells → GoesOn (F.kind source.now) (T.view target.now kept.now) }
    ensures since { S.tells → IfOk result (IsSinceMark (source_meaning ⟦<F as Source>⟧ source.now)
        (S.disk store.old).files (T.view target.now kept.now)) }
    ensures can { IsPublishable (T.view target.now kept.now).table
        → IfOk result (CanApplySince (T.view target.now kept.now).table) }
    ensures refused { S.tells → IfErr result
        (IsReadRefusal (IsSinceFault (source_meaning ⟦<F as Source>⟧ source.now)
        (S.disk store.old).files (T.view target.now kept.now))) }
    ensures only_reads { S.tells → OnlyReads ⟦<S as Store>⟧ store.old store.new }
    ensures cause { FailsBy ⟦<S as Store>⟧ store.old store.new
        (IsErrOf result SourceError.StoreFault) }
    ensures contest { IsUncontestedBy ⟦<S as Store>⟧ store.old store.new ⊥ }
{
    let Some(mark) = target.mark(kept) else {
        return Ok(Since::NotReached);
    };
    if !may_be_same(&head.table, &mark.table) {
        return Ok(Since::NotReached);
    }
    source.since(alloc, store, head, &mark.to, target.table(kept))
}

/// Whether the history since the mark of what is kept is whole. Where reading it is refused for a
/// cause, it is.
fn is_whole<F: Source, T: Target, S: Store>(
    alloc: Global,
    source: &F,
    head: &Head,
    target: &T,
    store: &mut S,
    kept: &T::Kept,
) -> Result<bool, SourceError>
    requires head { S.tells → F.is_head source.now (S.disk store.old).files head.now }
    requires goes_on { S.tells → GoesOn (F.kind source.now) (T.view target.now kept.now) }
    ensures whole { S.tells → IfOk result (λ whole. IsTrue whole
        ↔ IsMarked (T.view target.now kept.now)
        (IsWhole (source_meaning ⟦<F as Source>⟧ source.now) (S.disk store.old).files)) }
    ensures refused { IfErr result (IsReadRefusal (λ _. ⊥)) }
    ensures only_reads { S.tells → OnlyReads ⟦<S as Store>⟧ store.old store.new }
    ensures cause { FailsBy ⟦<S as Store>⟧ store.old store.new
        (IsErrOf result SourceError.StoreFault) }
    ensures contest { IsUncontestedBy ⟦<S as Store>⟧ store.old store.new ⊥ }
{
    match commits_since(alloc, source, head, target, store, kept) {
        Ok(Since::Commits(_)) => Ok(true),
        Ok(Since::NotReached) => Ok(false),
        Err(SourceError::Memory) => Err(SourceError::Memory),
        Err(SourceError::StoreFault) => Err(SourceError::StoreFault),
        Err(_) => Ok(true),
    }
}

/// The id that the mark of a commit in full states over what is kept.
fn id_behind<F: Source, T: Target, S: Store>(
    alloc: Global,
    source: &F,
    head: &Head,
    target: &T,
    store: &mut S,
    kept: &T::Kept,
    mode: Mode,
) -> Result<Option<Text>, SourceError>
    requires head { S.tells → F.is_head source.now (S.disk store.old).files head.now }
    requires goes_on { S.tells → GoesOn (F.kind source.now) (T.view target.now kept.now) }
    requires not_since { S.tells → ¬ TakesCommits (source_meaning ⟦<F as Source>⟧ source.now) mode
        (S.disk store.old).files (T.view target.now kept.now) }
    ensures id { S.tells → IfOk result (IsIdBehind (source_meaning ⟦<F as Source>⟧ source.now)
        (S.disk store.old).files (T.view target.now kept.now) head.now.table) }
    ensures refused { IfErr result (IsReadRefusal (λ _. ⊥)) }
    ensures only_reads { S.tells → OnlyReads ⟦<S as Store>⟧ store.old store.new }
    ensures cause { FailsBy ⟦<S as Store>⟧ store.old store.new
        (IsErrOf result SourceError.StoreFault) }
    ensures contest { IsUncontestedBy ⟦<S as Store>⟧ store.old store.new ⊥ }
{
    let marked = id_of_mark(target, kept);
    if head.table.is_some() || marked.is_none() || mode == Mode::Sync {
        return Ok(id_or(alloc, &head.table, None)?);
    }
    if is_whole(alloc, source, head, target, store, kept)? {
        Ok(id_or(alloc, &head.table, marked)?)
    } else {
        Ok(None)
    }
}

/// Plans these commits since its mark over what is kept of a target.
pub(crate) fn plan_since<T: Target>(
    alloc: Global,
    head: &Head,
    target: &T,
    kept: T::Kept,
    commits: Items<Commit>,
) -> Result<Plan<T::Kept>, AllocError>
    ensures { IfOk result (IsSincePlan (T.view target.now) head.now kept commits) }
{
    let partition = copy_texts(alloc, target.table(&kept).partition.as_slice())?;
    let table = id_or(alloc, &head.table, id_of_mark(target, &kept))?;
    Ok(Plan {
        kept,
        partition,
        commits,
        full: false,
        table,
    })
}

// The whole table.

/// The commit that makes the source's table at the head of what a target has.
fn commit_to(
    alloc: Global,
    before: &Table,
    head: &Head,
    table: &Table,
) -> Result<Commit, AllocError>
    ensures position { IfOk result (λ commit. commit.position ≡ head.now.position) }
    ensures change { IfOk result (λ commit. IsChangeTo before.now table.now commit.change) }
    ensures fits { IfOk result (λ commit. CanApply before.now commit.change) }
    ensures leads { IfOk result (λ commit. LeadsTo before.now.rows commit.change.removed
        commit.change.added table.now.rows) }
{
    let change = before.change_to(alloc, table)?;
    Ok(Commit {
        position: head.position.copy(alloc)?,
        change,
    })
}

/// What was found of a target, or else what is kept before the first commit.
fn start_of<T: Target>(
    alloc: Global,
    target: &T,
    found: Option<T::Kept>,
    partition: &[Text],
) -> Result<T::Kept, AllocError>
    ensures { IfOk result (IsStartOf (T.view target.now) (T.reads target.now)
        (T.stands_for target.now) found partition.now) }
{
    match found {
        Some(kept) => Ok(kept),
        None => match target.fresh(alloc, partition) {
            Ok(kept) => Ok(kept),
            Err(_) => Err(AllocError),
        },
    }
}

/// Plans one commit with this table at the head, whose mark states this id, over what is kept of a
/// target.
fn plan_over<T: Target>(
    alloc: Global,
    target: &T,
    kept: T::Kept,
    head: &Head,
    table: &Table,
    id: Option<Text>,
) -> Result<Plan<T::Kept>, AllocError>
    requires { IsPublishable table.now }
    ensures { IfOk result (IsFullPlan (T.view target.now) head.now table.now id kept) }
{
    let commit = commit_to(alloc, target.table(&kept), head, table)?;
    let partition = copy_texts(alloc, table.partition.as_slice())?;
    Ok(Plan {
        kept,
        partition,
        commits: Items::from_vec(vec![in alloc; commit]?),
        full: true,
        table: id,
    })
}

/// The source's table at its head, which is read where it wasn't read before.
fn table_at_head<F: Source, S: Store>(
    alloc: Global,
    source: &F,
    head: &Head,
    store: &mut S,
    whole: Option<Table>,
) -> Result<Table, SourceError>
    requires head { S.tells → F.is_head source.now (S.disk store.old).files head.now }
    requires whole { S.tells → IfSome whole (F.is_table source.now (S.disk store.old).files) }
    requires publishable { IfSome whole IsPublishable }
    ensures table { S.tells → IfOk result (F.is_table source.now (S.disk store.old).files) }
    ensures sound { IfOk result IsPublishable }
    ensures refused { S.tells → IfErr result
        (IsReadRefusal (F.from_scratch source.now (S.disk store.old).files)) }
    ensures only_reads { S.tells → OnlyReads ⟦<S as Store>⟧ store.old store.new }
    ensures cause { FailsBy ⟦<S as Store>⟧ store.old store.new
        (IsErrOf result SourceError.StoreFault) }
    ensures contest { IsUncontestedBy ⟦<S as Store>⟧ store.old store.new ⊥ }
{
    match whole {
        Some(table) => Ok(table),
        None => source.whole(alloc, store, head),
    }
}

/// Plans one commit with this table, which is the source's at its head.
fn plan_whole<F: Source, T: Target, S: Store>(
    alloc: Global,
    source: &F,
    head: &Head,
    target: &T,
    store: &mut S,
    found: Option<T::Kept>,
    mode: Mode,
    table: &Table,
) -> Result<Plan<T::Kept>, SourceError>
    requires head { S.tells → F.is_head source.now (S.disk store.old).files head.now }
    requires ours { S.tells → IsFoundOfSource (T.view target.now) (F.kind source.now) found }
    requires found { S.tells → IsFound (T.reads target.now) (T.stands_for target.now)
        (S.disk store.old).files found }
    requires in_full { S.tells → IsFoundInFull (T.view target.now)
        (source_meaning ⟦<F as Source>⟧ source.now) mode (S.disk store.old).files found }
    requires table { S.tells → F.is_table source.now (S.disk store.old).files table.now }
    requires publishable { IsPublishable table.now }
    ensures sound { IsFoundOurs (T.view target.now) (F.kind source.now) found
        → IfOk result (IsSoundPlan (T.view target.now) (T.image target.now) (F.kind source.now)
        mode) }
    ensures due { S.tells → IfOk result (IsDuePlan (T.view target.now) (T.stands_for target.now)
        (source_meaning ⟦<F as Source>⟧ source.now) mode (S.disk store.old).files head.now) }
    ensures refused { S.tells → IfErr result
        (IsReadRefusal (F.from_scratch source.now (S.disk store.old).files)) }
    ensures only_reads { S.tells → OnlyReads ⟦<S as Store>⟧ store.old store.new }
    ensures cause { FailsBy ⟦<S as Store>⟧ store.old store.new
        (IsErrOf result SourceError.StoreFault) }
    ensures contest { IsUncontestedBy ⟦<S as Store>⟧ store.old store.new ⊥ }
{
    let kept = start_of(alloc, target, found, table.partition.as_slice())?;
    let id = id_behind(alloc, source, head, target, store, &kept, mode)?;
    Ok(plan_over(alloc, target, kept, head, table, id)?)
}

/// Plans one commit with the source's whole table at its head. `whole` is that table where it was
/// read before, and after.
pub(crate) fn plan_full<F: Source, T: Target, S: Store>(
    alloc: Global,
    source: &F,
    head: &Head,
    target: &T,
    store: &mut S,
    found: Option<T::Kept>,
    mode: Mode,
    whole: &mut Option<Table>,
) -> Result<Plan<T::Kept>, SourceError>
    requires head { S.tells → F.is_head source.now (S.disk store.old).files head.now }
    requires ours { S.tells → IsFoundOfSource (T.view target.now) (F.kind source.now) found }
    requires found { S.tells → IsFound (T.reads target.now) (T.stands_for target.now)
        (S.disk store.old).files found }
    requires in_full { S.tells → IsFoundInFull (T.view target.now)
        (source_meaning ⟦<F as Source>⟧ source.now) mode (S.disk store.old).files found }
    requires whole { S.tells → IfSome whole.old (F.is_table source.now (S.disk store.old).files) }
    requires whole_publishable { IfSome whole.old IsPublishable }
    ensures sound { IsFoundOurs (T.view target.now) (F.kind source.now) found
        → IfOk result (IsSoundPlan (T.view target.now) (T.image target.now) (F.kind source.now)
        mode) }
    ensures due { S.tells → IfOk result (IsDuePlan (T.view target.now) (T.stands_for target.now)
        (source_meaning ⟦<F as Source>⟧ source.now) mode (S.disk store.old).files head.now) }
    ensures whole { S.tells → IfSome whole.new (F.is_table source.now (S.disk store.old).files) }
    ensures whole_publishable { IfSome whole.new IsPublishable }
    ensures refused { S.tells → IfErr result
        (IsReadRefusal (F.from_scratch source.now (S.disk store.old).files)) }
    ensures only_reads { S.tells → OnlyReads ⟦<S as Store>⟧ store.old store.new }
    ensures cause { FailsBy ⟦<S as Store>⟧ store.old store.new
        (IsErrOf result SourceError.StoreFault) }
    ensures contest { IsUncontestedBy ⟦<S as Store>⟧ store.old store.new ⊥ }
{
    let table = table_at_head(alloc, source, head, store, whole.take())?;
    let planned = plan_whole(alloc, source, head, target, store, found, mode, &table);
    *whole = Some(table);
    planned
}

/// Plans the commits since the mark of what is kept of ours, or the whole table where the history
/// since it isn't whole.
fn plan_sync<F: Source, T: Target, S: Store>(
    alloc: Global,
    source: &F,
    head: &Head,
    target: &T,
    store: &mut S,
    kept: T::Kept,
    whole: &mut Option<Table>,
) -> Result<Plan<T::Kept>, SourceError>
    requires head { S.tells → F.is_head source.now (S.disk store.old).files head.now }
    requires publishable { IsPublishable (T.view target.now kept).table }
    requires ours { S.tells → IsOfSource (F.kind source.now) (T.view target.now kept) }
    requires stands { S.tells → T.stands_for target.now kept (S.disk store.old).files }
    requires whole { S.tells → IfSome whole.old (F.is_table source.now (S.disk store.old).files) }
    requires whole_publishable { IfSome whole.old IsPublishable }
    ensures sound { IsSeenSound (T.view target.now) (F.kind source.now) (Ours kept)
        → IfOk result (IsSoundPlan (T.view target.now) (T.image target.now) (F.kind source.now)
        Sync) }
    ensures due { S.tells → IfOk result (IsDuePlan (T.view target.now) (T.stands_for target.now)
        (source_meaning ⟦<F as Source>⟧ source.now) Sync (S.disk store.old).files head.now) }
    ensures whole { S.tells → IfSome whole.new (F.is_table source.now (S.disk store.old).files) }
    ensures whole_publishable { IfSome whole.new IsPublishable }
    ensures refused { S.tells → IfErr result
        (IsReadRefusal (IsReadFault (source_meaning ⟦<F as Source>⟧ source.now)
        (target_facts ⟦<T as Target>⟧ target.now) Sync (S.disk store.old).files)) }
    ensures only_reads { S.tells → OnlyReads ⟦<S as Store>⟧ store.old store.new }
    ensures cause { FailsBy ⟦<S as Store>⟧ store.old store.new
        (IsErrOf result SourceError.StoreFault) }
    ensures contest { IsUncontestedBy ⟦<S as Store>⟧ store.old store.new ⊥ }
{
    match commits_since(alloc, source, head, target, store, &kept)? {
        Since::Commits(commits) => Ok(plan_since(alloc, head, target, kept, commits)?),
        Since::NotReached => {
            plan_full(
                alloc,
                source,
                head,
                target,
                store,
                Some(kept),
                Mode::Sync,
                whole,
            )
        }
    }
}

fn of_source<A: Drop>(planned: Result<A, SourceError>) -> Result<A, Status>
    ensures answer { result ≡ answer_of_source planned }
    ensures few { (target : Kind) → IfErr result (IsOfSync target) }
{
    match planned {
        Ok(plan) => Ok(plan),
        Err(error) => Err(status_of_source(error)),
    }
}

/// Plans what is due to a target of which this was found: what is kept of ours, or no commit. It reads
/// the source and writes nothing. `whole` is the source's table at its head where that was read
/// before, and after.
pub fn plan_with<F: Source, T: Target, S: Store>(
    alloc: Global,
    source: &F,
    head: &Head,
    target: &T,
    store: &mut S,
    found: Option<T::Kept>,
    mode: Mode,
    whole: &mut Option<Table>,
) -> Result<Plan<T::Kept>, SourceError>
    requires head { S.tells → F.is_head source.now (S.disk store.old).files head.now }
    requires publishable { IsFoundPublishable (T.view target.now) found }
    requires ours { S.tells → IsFoundOfSource (T.view target.now) (F.kind source.now) found }
    requires found { S.tells → IsFound (T.reads target.now) (T.stands_for target.now)
        (S.disk store.old).files found }
    requires whole { S.tells → IfSome whole.old (F.is_table source.now (S.disk store.old).files) }
    requires whole_publishable { IfSome whole.old IsPublishable }
    ensures sound { IsFoundOurs (T.view target.now) (F.kind source.now) found
        → IfOk result (IsSoundPlan (T.view target.now) (T.image target.now) (F.kind source.now)
        mode) }
    ensures due { S.tells → IfOk result (IsDuePlan (T.view target.now) (T.stands_for target.now)
        (source_meaning ⟦<F as Source>⟧ source.now) mode (S.disk store.old).files head.now) }
    ensures whole { S.tells → IfSome whole.new (F.is_table source.now (S.disk store.old).files) }
    ensures whole_publishable { IfSome whole.new IsPublishable }
    ensures refused { S.tells → IfErr result
        (IsReadRefusal (IsReadFault (source_meaning ⟦<F as Source>⟧ source.now)
        (target_facts ⟦<T as Target>⟧ target.now) mode (S.disk store.old).files)) }
    ensures only_reads { S.tells → OnlyReads ⟦<S as Store>⟧ store.old store.new }
    ensures cause { FailsBy ⟦<S as Store>⟧ store.old store.new
        (IsErrOf result SourceError.StoreFault) }
    ensures contest { IsUncontestedBy ⟦<S as Store>⟧ store.old store.new ⊥ }
{
    match found {
        None => plan_full(alloc, source, head, target, store, None, mode, whole),
        Some(kept) => match mode {
            Mode::Sync => plan_sync(alloc, source, head, target, store, kept, whole),
            Mode::Full => plan_full(alloc, source, head, target, store, Some(kept), mode, whole),
        },
    }
}

/// Plans what is due to a target of which this was found: what is kept of ours, or no commit. It reads
/// the source and writes nothing.
pub fn plan_found<F: Source, T: Target, S: Store>(
    alloc: Global,
    source: &F,
    head: &Head,
    target: &T,
    store: &mut S,
    found: Option<T::Kept>,
    mode: Mode,
) -> Result<Plan<T::Kept>, SourceError>
    requires head { S.tells → F.is_head source.now (S.disk store.old).files head.now }
    requires publishable { IsFoundPublishable (T.view target.now) found }
    requires ours { S.tells → IsFoundOfSource (T.view target.now) (F.kind source.now) found }
    requires found { S.tells → IsFound (T.reads target.now) (T.stands_for target.now)
        (S.disk store.old).files found }
    ensures sound { IsFoundOurs (T.view target.now) (F.kind source.now) found
        → IfOk result (IsSoundPlan (T.view target.now) (T.image target.now) (F.kind source.now)
        mode) }
    ensures due { S.tells → IfOk result (IsDuePlan (T.view target.now) (T.stands_for target.now)
        (source_meaning ⟦<F as Source>⟧ source.now) mode (S.disk store.old).files head.now) }
    ensures refused { S.tells → IfErr result
        (IsReadRefusal (IsReadFault (source_meaning ⟦<F as Source>⟧ source.now)
        (target_facts ⟦<T as Target>⟧ target.now) mode (S.disk store.old).files)) }
    ensures only_reads { S.tells → OnlyReads ⟦<S as Store>⟧ store.old store.new }
    ensures cause { FailsBy ⟦<S as Store>⟧ store.old store.new
        (IsErrOf result SourceError.StoreFault) }
    ensures contest { IsUncontestedBy ⟦<S as Store>⟧ store.old store.new ⊥ }
{
    let mut whole = None;
    plan_with(alloc, source, head, target, store, found, mode, &mut whole)
}

/// Plans what is due to a target of which inspecting it has seen this. It reads the source and writes
/// nothing. A foreign target is refused, as is what reading the source refuses.
pub fn plan_one<F: Source, T: Target, S: Store>(
    alloc: Global,
    source: &F,
    head: &Head,
    target: &T,
    store: &mut S,
    seen: Seen<T::Kept>,
    mode: Mode,
) -> Result<Plan<T::Kept>, Status>
    requires head { S.tells → F.is_head source.now (S.disk store.old).files head.now }
    requires publishable { IsSeenPublishable (T.view target.now) seen }
    requires seen { S.tells → IsSeen (T.reads target.now (S.disk store.old).files)
        (T.is_foreign target.now (F.kind source.now) (S.disk store.old).files)
        (T.view target.now) (λ kept. T.stands_for target.now kept (S.disk store.old).files)
        (F.kind source.now) seen }
    ensures sound { IsSeenSound (T.view target.now) (F.kind source.now) seen
        → IfOk result (IsSoundPlan (T.view target.now) (T.image target.now) (F.kind source.now)
        mode) }
    ensures due { S.tells → IfOk result (IsDuePlan (T.view target.now) (T.stands_for target.now)
        (source_meaning ⟦<F as Source>⟧ source.now) mode (S.disk store.old).files head.now) }
    ensures refused { S.tells → IfErr result (IsPlanRefusal
        (source_meaning ⟦<F as Source>⟧ source.now) (target_facts ⟦<T as Target>⟧ target.now) mode
        (S.disk store.old).files) }
    ensures few { IfErr result (IsOfSync (T.kind target.now)) }
    ensures only_reads { S.tells → OnlyReads ⟦<S as Store>⟧ store.old store.new }
    ensures cause { FailsBy ⟦<S as Store>⟧ store.old store.new
        (IsErrOf result status.StoreFault) }
    ensures contest { IsUncontestedBy ⟦<S as Store>⟧ store.old store.new
        (IsErrOf result (status.Contested (T.kind target.now))) }
{
    match seen {
        Seen::Foreign(path) => Err(Status::Foreign {
            target: target.kind(),
            path,
        }),
        Seen::Absent => of_source(plan_found(alloc, source, head, target, store, None, mode)),
        Seen::Ours(kept) => {
            of_source(plan_found(alloc, source, head, target, store, Some(kept), mode))
        }
    }
}
