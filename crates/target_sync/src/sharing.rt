//! What is planned for one target, and due to another one too.
ghost use Rattle.std.specs.Prelude.{◌≡◌, ◌↔◌, [], IfErr, IfOk, IfSome, IsErrOf, IsTrue};
ghost use Rattle.std.specs.Bool.{Decides};
ghost use Rattle.lake_store.specs.Runs.{FailsBy, IsUncontestedBy, OnlyReads};
ghost use Rattle.source_core.specs.Answers.{IsReadRefusal};
ghost use Rattle.table_history.specs.Tables.{SameTable};
ghost use Rattle.table_history.specs.Rows.{SameRows};
ghost use Rattle.target_core.specs.Conditions.{IsPublishable};
ghost use Rattle.target_sync.specs.Answered.{IsReadFault};
ghost use Rattle.target_sync.specs.Plans.{IsDuePlan, IsFound, IsFoundOfSource, IsFoundOurs, IsFoundPublishable, IsSoundPlan};
ghost use Rattle.target_sync.specs.Shared.{AreAtOnePosition, IsAlike, whole_in};
ghost use Rattle.target_sync.specs.Sources.{source_meaning};
ghost use Rattle.target_sync.specs.Targets.{target_facts};

use crate::copying::copy_commits;
use crate::plan::{Mode, Plan, may_be_same, plan_full, plan_since, plan_with};
use lake_basics::Items;
use lake_store::Store;
use source_core::{Head, Source, SourceError};
use std::alloc::{AllocError, Global};
use table_history::{Change, Commit, Schema, Table};
use target_core::Target;

fn same_partition(table: &Table, other: &Table) -> bool
    ensures { Decides result (table.now.partition ≡ other.now.partition) }
{
    table.partition == other.partition
}

fn same_schema(schema: &Schema, other: &Schema) -> bool
    ensures { IsTrue result ↔ (schema.now ≡ other.now) }
{
    schema == other
}

/// Whether the change takes out no row and puts in none.
fn moves_nothing(change: &Change) -> bool
    ensures { IsTrue result → (change.now.removed ≡ []) × (change.now.added ≡ []) }
{
    change.removed.is_empty() && change.added.is_empty()
}

/// Whether the two tables have the same rows, in whatever order.
fn same_rows(alloc: Global, table: &Table, other: &Table) -> Result<bool, AllocError>
    ensures { IfOk result (λ same. IsTrue same → SameRows table.now.rows other.now.rows) }
{
    if table.rows.len() != other.rows.len() {
        return Ok(false);
    }
    let change = table.change_to(alloc, other)?;
    Ok(moves_nothing(&change))
}

/// Whether the two tables have the same partition columns and schema.
fn same_columns(table: &Table, other: &Table) -> bool
    ensures { IsTrue result → (table.now.partition ≡ other.now.partition)
        × (table.now.schema ≡ other.now.schema) }
{
    same_partition(table, other) && same_schema(&table.schema, &other.schema)
}

/// Whether the two tables have the same rows, partition columns and schema.
fn same_table(alloc: Global, table: &Table, other: &Table) -> Result<bool, AllocError>
    ensures { IfOk result (λ same. IsTrue same → SameTable table.now other.now) }
{
    if !same_columns(table, other) {
        return Ok(false);
    }
    let same = same_rows(alloc, table, other)?;
    Ok(same)
}

/// Whether the marks of what is kept of two targets have one position, and are of the source's table
/// as far as they and it say.
fn at_one_position<T: Target, U: Target>(
    head: &Head,
    first: &T,
    first_kept: &T::Kept,
    second: &U,
    second_kept: &U::Kept,
) -> bool
    ensures { IsTrue result ↔ AreAtOnePosition head.now (T.view first.now first_kept.now)
        (U.view second.now second_kept.now) }
{
    match (first.mark(first_kept), second.mark(second_kept)) {
        (Some(mark), Some(other)) => {
            other.to == mark.to
                && may_be_same(&head.table, &mark.table)
                && may_be_same(&head.table, &other.table)
        }
        _ => false,
    }
}

/// What two targets need of the source alike.
#[derive(Drop)]
pub(crate) enum Alike {
    /// The commits that are planned for the first one.
    Commits(Items<Commit>),
    /// The whole table, since the history after the position of both isn't whole.
    Whole,
    /// Nothing that is known.
    Nothing,
}

/// What the second target, of which this is kept, needs of the source like the first one, for which
/// this is planned.
fn needs_alike<T: Target, U: Target>(
    alloc: Global,
    head: &Head,
    first: &T,
    planned: &Plan<T::Kept>,
    second: &U,
    kept: &U::Kept,
    mode: Mode,
) -> Result<Alike, AllocError>
    ensures { IfOk result (IsAlike (T.view first.now) (U.view second.now) head.now mode planned.now
        kept.now) }
{
    if !at_one_position(head, first, &planned.kept, second, kept) {
        return Ok(Alike::Nothing);
    }
    if planned.full {
        return Ok(whole_in(mode));
    }
    let same = same_table(alloc, second.table(kept), first.table(&planned.kept))?;
    if !same {
        return Ok(Alike::Nothing);
    }
    Ok(Alike::Commits(copy_commits(alloc, planned.commits.as_slice())?))
}

/// What two targets at one position need alike where the first takes the whole table.
fn whole_in(mode: Mode) -> Alike
    ensures { result ≡ whole_in mode }
{
    match mode {
        Mode::Sync => Alike::Whole,
        Mode::Full => Alike::Nothing,
    }
}

/// Plans what is due to a target beside another one, where the source's table at its head is `whole`
/// where it was read.
fn plan_shared<F: Source, T: Target, U: Target, S: Store>(
    alloc: Global,
    source: &F,
    head: &Head,
    first: &T,
    planned: &Plan<T::Kept>,
    second: &U,
    store: &mut S,
    found: Option<U::Kept>,
    mode: Mode,
    whole: &mut Option<Table>,
) -> Result<Plan<U::Kept>, SourceError>
    requires head { S.tells → F.is_head source.now (S.disk store.old).files head.now }
    requires first_sound { IsSoundPlan (T.view first.now) (T.image first.now) (F.kind source.now)
        mode planned.now }
    requires first_due { S.tells → IsDuePlan (T.view first.now) (T.stands_for first.now)
        (source_meaning ⟦<F as Source>⟧ source.now) mode (S.disk store.old).files head.now
        planned.now }
    requires publishable { IsFoundPublishable (U.view second.now) found }
    requires ours { S.tells → IsFoundOfSource (U.view second.now) (F.kind source.now) found }
    requires found { S.tells → IsFound (U.reads second.now) (U.stands_for second.now)
        (S.disk store.old).files found }
    requires whole { S.tells → IfSome whole.old (F.is_table source.now (S.disk store.old).files) }
    requires whole_publishable { IfSome whole.old IsPublishable }
    ensures sound { IsFoundOurs (U.view second.now) (F.kind source.now) found
        → IfOk result (IsSoundPlan (U.view second.now) (U.image second.now) (F.kind source.now)
        mode) }
    ensures due { S.tells → IfOk result (IsDuePlan (U.view second.now) (U.stands_for second.now)
        (source_meaning ⟦<F as Source>⟧ source.now) mode (S.disk store.old).files head.now) }
    ensures refused { S.tells → IfErr result
        (IsReadRefusal (IsReadFault (source_meaning ⟦<F as Source>⟧ source.now)
        (target_facts ⟦<U as Target>⟧ second.now) mode (S.disk store.old).files)) }
    ensures only_reads { S.tells → OnlyReads ⟦<S as Store>⟧ store.old store.new }
    ensures cause { FailsBy ⟦<S as Store>⟧ store.old store.new
        (IsErrOf result SourceError.StoreFault) }
    ensures contest { IsUncontestedBy ⟦<S as Store>⟧ store.old store.new ⊥ }
{
    let Some(kept) = found else {
        return plan_with(alloc, source, head, second, store, None, mode, whole);
    };
    match needs_alike(alloc, head, first, planned, second, &kept, mode)? {
        Alike::Commits(commits) => Ok(plan_since(alloc, head, second, kept, commits)?),
        Alike::Whole => plan_full(alloc, source, head, second, store, Some(kept), mode, whole),
        Alike::Nothing => plan_with(alloc, source, head, second, store, Some(kept), mode, whole),
    }
}

/// Plans what is due to a target of which this was found, beside another one for which this is
/// planned. What both need of the source isn't read again: neither the commits since a position, nor
/// the table at the head, which is `whole` where it was read. It writes nothing.
pub fn plan_beside<F: Source, T: Target, U: Target, S: Store>(
    alloc: Global,
    source: &F,
    head: &Head,
    first: &T,
    planned: &Plan<T::Kept>,
    second: &U,
    store: &mut S,
    found: Option<U::Kept>,
    mode: Mode,
    whole: Option<Table>,
) -> Result<Plan<U::Kept>, SourceError>
    requires head { S.tells → F.is_head source.now (S.disk store.old).files head.now }
    requires first_sound { IsSoundPlan (T.view first.now) (T.image first.now) (F.kind source.now)
        mode planned.now }
    requires first_due { S.tells → IsDuePlan (T.view first.now) (T.stands_for first.now)
        (source_meaning ⟦<F as Source>⟧ source.now) mode (S.disk store.old).files head.now
        planned.now }
    requires publishable { IsFoundPublishable (U.view second.now) found }
    requires ours { S.tells → IsFoundOfSource (U.view second.now) (F.kind source.now) found }
    requires found { S.tells → IsFound (U.reads second.now) (U.stands_for second.now)
        (S.disk store.old).files found }
    requires whole { S.tells → IfSome whole (F.is_table source.now (S.disk store.old).files) }
    requires whole_publishable { IfSome whole IsPublishable }
    ensures sound { IsFoundOurs (U.view second.now) (F.kind source.now) found
        → IfOk result (IsSoundPlan (U.view second.now) (U.image second.now) (F.kind source.now)
        mode) }
    ensures due { S.tells → IfOk result (IsDuePlan (U.view second.now) (U.stands_for second.now)
        (source_meaning ⟦<F as Source>⟧ source.now) mode (S.disk store.old).files head.now) }
    ensures refused { S.tells → IfErr result
        (IsReadRefusal (IsReadFault (source_meaning ⟦<F as Source>⟧ source.now)
        (target_facts ⟦<U as Target>⟧ second.now) mode (S.disk store.old).files)) }
    ensures only_reads { S.tells → OnlyReads ⟦<S as Store>⟧ store.old store.new }
    ensures cause { FailsBy ⟦<S as Store>⟧ store.old store.new
        (IsErrOf result SourceError.StoreFault) }
    ensures contest { IsUncontestedBy ⟦<S as Store>⟧ store.old store.new ⊥ }
{
    let mut whole = whole;
    plan_shared(
        alloc, source, head, first, planned, second, store, found, mode, &mut whole,
    )
}
