//! The commits after a position.

ghost use Rattle.std.specs.Prelude.{◌≡◌, ◌+◌, ◌++◌, ◌∷◌, ◌≤◌, ℕ, [], IfErr, IfOk, IsErrOf, Some, drop};
ghost use Rattle.std.specs.Bool.{Decides};
ghost use Rattle.std.specs.List.{list_any, prefix_len};
ghost use Rattle.std.specs.Str.{bytes_eq};
ghost use Rattle.lake_basics.specs.declared.limits.TheConstants.{MAX_ACTIONS};
ghost use Rattle.lake_store.specs.Disk.{Files, names_in};
ghost use Rattle.lake_store.specs.Runs.{FailsBy, IsUncontestedBy, OnlyReads};
ghost use Rattle.table_history.specs.Tables.{CanApply, IsAfter};
ghost use Rattle.table_history.specs.declared.table.Table.{Table};
ghost use Rattle.target_core.specs.Conditions.{IsPublishable};
ghost use Rattle.hudi_timeline.specs.Change.{GoesOn, IsChangeOf};
ghost use Rattle.hudi_timeline.specs.Live.{completed};
ghost use Rattle.hudi_groups.specs.declared.form.Form.TheVariants.{Base};
ghost use Rattle.hudi_table.specs.Files.{SaysInstant};
ghost use Rattle.hudi_table.specs.Folder.{IsHead, IsReached};
ghost use Rattle.hudi_table.specs.Instants.{timeline_folder, timeline_of};
ghost use Rattle.source_core.specs.Answers.{IsReadRefusal};
ghost use Rattle.source_core.specs.Since.{CanApplyAll, CanApplySince, FitAll, FitSince, IsSinceAnswer};
ghost use Rattle.source_core.specs.declared.error.SourceError.TheVariants.{StoreFault};
ghost use Rattle.source_hudi.specs.Instants.{is_up_to};
ghost use Rattle.source_hudi.specs.Since.{AreCommitsOf, AreCommitsUpTo, AreTaken, HasBadInstant, HasManyActions, HasRefusedAfter, HasUnfit, IsCommitOf, IsSince, ShowsAtInstant, ShowsInLater, ShowsOfInstant, ShowsOver, ShowsReached, ShowsSince, actions_of};

use crate::instants::{count_up_to, first_unread_after, unread};
use crate::told::{limit, partition_change, source_error};
use hudi_groups::GroupedTable;
use hudi_instant::Instant;
use hudi_properties::HudiTable;
use hudi_table::{
    CompletedInstant, Naming, Timeline, instant_change, read_instant_file, read_table_properties,
};
use lake_basics::limits::{MAX_ACTIONS, MAX_COMMITS};
use lake_basics::{Items, Text};
use lake_store::Store;
use source_core::{Since, SourceError};
use std::alloc::{AllocError, Global};
use table_history::{Commit, LimitKind, Table};

/// The commits of some instants, the table after them, and the number of their actions.
#[derive(Drop)]
struct Taken {
    commits: Items<Commit>,
    last: GroupedTable,
    actions: u64,
}

/// What the file of a completed instant says.
fn read_said<S: Store>(
    alloc: Global,
    store: &mut S,
    instant: &CompletedInstant,
) -> Result<Instant, SourceError>
    ensures says { S.tells → IfOk result (SaysInstant (S.disk store.old).files instant.now) }
    ensures refused { S.tells → IfErr result
        (IsReadRefusal (HasBadInstant (S.disk store.old).files instant.now)) }
    ensures only_reads { S.tells → OnlyReads ⟦<S as Store>⟧ store.old store.new }
    ensures cause { FailsBy ⟦<S as Store>⟧ store.old store.new (IsErrOf result StoreFault) }
    ensures contest { IsUncontestedBy ⟦<S as Store>⟧ store.old store.new ⊥ }
{
    match read_instant_file(alloc, store, instant) {
        Ok(said) => Ok(said),
        Err(error) => Err(source_error(error)),
    }
}

/// The number of actions with those of one instant more.
fn count_actions(actions: u64, said: &Instant) -> Result<u64, SourceError>
    requires { actions ≤ MAX_ACTIONS }
    ensures counted { IfOk result (λ together. together ≡ actions + actions_of said.now) }
    ensures few { IfOk result (λ together. together ≤ MAX_ACTIONS) }
    ensures refused { IfErr result (HasManyActions actions said.now) }
{
    let more = said.stats.len() as u128 + said.replaced.len() as u128;
    if more > u128::from(MAX_ACTIONS - actions) {
        return Err(limit(LimitKind::Actions));
    }
    Ok(actions + more as u64)
}

/// The commit of an instant, which says this, with the change that it makes of the table before it.
fn commit_over(
    alloc: Global,
    said: &Instant,
    instant: &CompletedInstant,
    table: &HudiTable,
    before: &GroupedTable,
) -> Result<Commit, SourceError>
    ensures position { IfOk result (λ commit. commit.position ≡ instant.now.time) }
    ensures found { IfOk result (λ commit.
        IsChangeOf (completed Base said.now) table.now (Some before.now) commit.change) }
    ensures goes_on { IfOk result (λ commit. GoesOn table.now (Some before.now) commit.change) }
    ensures refused { IfErr result
        (IsReadRefusal (HasUnfit table.now instant.now said.now before.now)) }
    ensures fault { IsErrOf result StoreFault → ⊥ }
{
    let position = instant.time.copy(alloc)?;
    match instant_change(alloc, said, instant, Naming::Base, table, Some(before)) {
        Ok(change) => Ok(Commit { position, change }),
        Err(error) => Err(source_error(error)),
    }
}

/// With this commit more, and so many actions.
fn with_commit(
    alloc: Global,
    taken: Taken,
    commit: Commit,
    actions: u64,
) -> Result<Taken, AllocError>
    requires { CanApply taken.last commit.change }
    ensures commits { IfOk result (λ next. next.commits ≡ taken.commits ++ commit ∷ []) }
    ensures last { IfOk result (λ next. IsAfter taken.last commit.change next.last) }
    ensures actions { IfOk result (λ next. next.actions ≡ actions) }
{
    let last = taken.last.with_change(alloc, &commit.change)?;
    let mut commits = taken.commits;
    commits.push(commit)?;
    Ok(Taken {
        commits,
        last,
        actions,
    })
}

/// The commit of the instant that comes next, which says this, and how many actions there are with
/// its own. They are counted before its change is made.
fn counted_commit(
    alloc: Global,
    said: &Instant,
    instant: &CompletedInstant,
    table: &HudiTable,
    taken: &Taken,
) -> Result<(Commit, u64), SourceError>
    requires { taken.now.actions ≤ MAX_ACTIONS }
    ensures next { (files : Files) → SaysInstant files instant.now said.now
        → IfOk result (λ next. (is : IsCommitOf files table.now taken.now.last instant.now next.0)
        × (next.1 ≡ taken.now.actions + actions_of is.instant)) }
    ensures few { IfOk result (λ next. next.1 ≤ MAX_ACTIONS) }
    ensures goes_on { IfOk result
        (λ next. GoesOn table.now (Some taken.now.last) (next.0).change) }
    ensures refused { IfErr result (IsReadRefusal
        (ShowsOfInstant table.now instant.now said.now taken.now.last taken.now.actions)) }
    ensures fault { IsErrOf result StoreFault → ⊥ }
{
    let actions = count_actions(taken.actions, said)?;
    let commit = commit_over(alloc, said, instant, table, &taken.last)?;
    Ok((commit, actions))
}

/// The same of the instant's file, which is read.
fn next_commit<S: Store>(
    alloc: Global,
    store: &mut S,
    table: &HudiTable,
    instant: &CompletedInstant,
    taken: &Taken,
) -> Result<(Commit, u64), SourceError>
    requires { taken.now.actions ≤ MAX_ACTIONS }
    ensures next { S.tells → IfOk result (λ next.
        (is : IsCommitOf (S.disk store.old).files table.now taken.now.last instant.now next.0)
        × (next.1 ≡ taken.now.actions + actions_of is.instant)) }
    ensures few { IfOk result (λ next. next.1 ≤ MAX_ACTIONS) }
    ensures goes_on { IfOk result
        (λ next. GoesOn table.now (Some taken.now.last) (next.0).change) }
    ensures refused { S.tells → IfErr result (IsReadRefusal
        (ShowsAtInstant (S.disk store.old).files table.now instant.now taken.now.last
        taken.now.actions)) }
    ensures only_reads { S.tells → OnlyReads ⟦<S as Store>⟧ store.old store.new }
    ensures cause { FailsBy ⟦<S as Store>⟧ store.old store.new (IsErrOf result StoreFault) }
    ensures contest { IsUncontestedBy ⟦<S as Store>⟧ store.old store.new ⊥ }
{
    let said = read_said(alloc, store, instant)?;
    counted_commit(alloc, &said, instant, table, taken)
}

/// The commits of the instants, of which the oldest comes first, each over the table that those
/// before it make of the base.
fn take_each<S: Store>(
    alloc: Global,
    store: &mut S,
    table: &HudiTable,
    instants: &[CompletedInstant],
    base: GroupedTable,
) -> Result<Items<Commit>, SourceError>
    requires { table.now.partition ≡ base.partition }
    ensures taken { S.tells → IfOk result (λ commits. (last : Table) × (actions : ℕ)
        × AreTaken (S.disk store.old).files table.now base instants.now commits last actions) }
    ensures fits { IfOk result (FitAll base) }
    ensures sound { IsPublishable base → IfOk result (CanApplyAll base) }
    ensures refused { S.tells → IfErr result
        (IsReadRefusal (HasRefusedAfter (S.disk store.old).files table.now base instants.now)) }
    ensures only_reads { S.tells → OnlyReads ⟦<S as Store>⟧ store.old store.new }
    ensures cause { FailsBy ⟦<S as Store>⟧ store.old store.new (IsErrOf result StoreFault) }
    ensures contest { IsUncontestedBy ⟦<S as Store>⟧ store.old store.new ⊥ }
{
    let mut taken = Taken {
        commits: Items::new(alloc),
        last: base,
        actions: 0,
    };
    for instant in instants {
        let (commit, actions) = next_commit(alloc, store, table, instant, &taken)?;
        taken = with_commit(alloc, taken, commit, actions)?;
    }
    Ok(taken.commits)
}

/// The same over a copy of the base, which isn't made where there is no instant. More instants than
/// are read are refused before the first of them is read.
fn commits_of<S: Store>(
    alloc: Global,
    store: &mut S,
    table: &HudiTable,
    instants: &[CompletedInstant],
    base: &Table,
) -> Result<Items<Commit>, SourceError>
    requires { table.now.partition ≡ base.now.partition }
    ensures made { S.tells → IfOk result
        (AreCommitsOf (S.disk store.old).files table.now base.now instants.now) }
    ensures fits { IfOk result (FitAll base.now) }
    ensures sound { IsPublishable base.now → IfOk result (CanApplyAll base.now) }
    ensures refused { S.tells → IfErr result (IsReadRefusal
        (ShowsInLater (S.disk store.old).files table.now base.now instants.now)) }
    ensures only_reads { S.tells → OnlyReads ⟦<S as Store>⟧ store.old store.new }
    ensures cause { FailsBy ⟦<S as Store>⟧ store.old store.new (IsErrOf result StoreFault) }
    ensures contest { IsUncontestedBy ⟦<S as Store>⟧ store.old store.new ⊥ }
{
    if instants.len() as u64 > MAX_COMMITS {
        return Err(limit(LimitKind::Commits));
    }
    if instants.is_empty() {
        return Ok(Items::new(alloc));
    }
    let copy = GroupedTable::by_file_ids(alloc, base.copy(alloc)?)?;
    take_each(alloc, store, table, instants, copy)
}

/// Those of the instants, of which the oldest comes first, that are later than the position.
fn later<'a>(instants: &'a [CompletedInstant], position: &Text) -> &'a [CompletedInstant]
    ensures { result.now
        ≡ drop (prefix_len (λ c. is_up_to position.now c.time) instants.now) instants.now }
{
    &instants[count_up_to(instants, position)..]
}

/// Whether the properties name the partition columns of the base.
fn has_partition_of(table: &HudiTable, base: &Table) -> bool
    ensures { Decides result (table.now.partition ≡ base.now.partition) }
{
    table.partition == base.partition
}

/// The commits after a position that is reached, up to the head, of a table whose properties say
/// this.
fn commits_up_to<S: Store>(
    alloc: Global,
    store: &mut S,
    table: &HudiTable,
    timeline: &Timeline,
    head: &Text,
    position: &Text,
    base: &Table,
) -> Result<Items<Commit>, SourceError>
    requires timeline { S.tells
        → timeline.now ≡ timeline_of (names_in (S.disk store.old).files timeline_folder) }
    ensures made { S.tells → IfOk result
        (AreCommitsUpTo (S.disk store.old).files position.now head.now table.now base.now) }
    ensures fits { IfOk result (FitAll base.now) }
    ensures sound { IsPublishable base.now → IfOk result (CanApplyAll base.now) }
    ensures refused { S.tells → IfErr result (IsReadRefusal
        (ShowsOver (S.disk store.old).files position.now head.now table.now base.now)) }
    ensures only_reads { S.tells → OnlyReads ⟦<S as Store>⟧ store.old store.new }
    ensures cause { FailsBy ⟦<S as Store>⟧ store.old store.new (IsErrOf result StoreFault) }
    ensures contest { IsUncontestedBy ⟦<S as Store>⟧ store.old store.new ⊥ }
{
    if !has_partition_of(table, base) {
        return Err(partition_change(alloc));
    }
    match first_unread_after(timeline.instants.as_slice(), head, position) {
        Some(instant) => Err(unread(alloc, instant)),
        None => commits_of(
            alloc,
            store,
            table,
            later(timeline.up_to_head(), position),
            base,
        ),
    }
}

/// The commits after a position that is reached, up to the head.
fn commits_since<S: Store>(
    alloc: Global,
    store: &mut S,
    timeline: &Timeline,
    head: &Text,
    position: &Text,
    base: &Table,
) -> Result<Items<Commit>, SourceError>
    requires timeline { S.tells
        → timeline.now ≡ timeline_of (names_in (S.disk store.old).files timeline_folder) }
    requires head { S.tells → IsHead (S.disk store.old).files head.now }
    ensures made { S.tells → IfOk result
        (IsSince (S.disk store.old).files position.now base.now) }
    ensures fits { IfOk result (FitAll base.now) }
    ensures sound { IsPublishable base.now → IfOk result (CanApplyAll base.now) }
    ensures refused { S.tells → IfErr result
        (IsReadRefusal (ShowsReached (S.disk store.old).files position.now base.now)) }
    ensures only_reads { S.tells → OnlyReads ⟦<S as Store>⟧ store.old store.new }
    ensures cause { FailsBy ⟦<S as Store>⟧ store.old store.new (IsErrOf result StoreFault) }
    ensures contest { IsUncontestedBy ⟦<S as Store>⟧ store.old store.new ⊥ }
{
    match read_table_properties(alloc, store) {
        Ok(properties) => commits_up_to(
            alloc,
            store,
            &properties.table,
            timeline,
            head,
            position,
            base,
        ),
        Err(error) => Err(source_error(error)),
    }
}

/// Whether one of the instants is of this time.
fn has_time(instants: &[CompletedInstant], time: &Text) -> bool
    ensures { result ≡ list_any (λ c. bytes_eq c.time time.now) instants.now }
{
    instants.iter().any(|instant| instant.time == *time)
}

/// The commits after a position up to the head of a timeline. The position is reached where it is
/// the time of one of the timeline's instants up to there.
pub(crate) fn since<S: Store>(
    alloc: Global,
    store: &mut S,
    timeline: &Timeline,
    head: &Text,
    position: &Text,
    base: &Table,
) -> Result<Since, SourceError>
    requires timeline { S.tells
        → timeline.now ≡ timeline_of (names_in (S.disk store.old).files timeline_folder) }
    requires head { S.tells → IsHead (S.disk store.old).files head.now }
    ensures since { S.tells → IfOk result
        (IsSinceAnswer (IsReached (S.disk store.old).files position.now)
        (IsSince (S.disk store.old).files position.now base.now)) }
    ensures fits { IfOk result (FitSince base.now) }
    ensures sound { IsPublishable base.now → IfOk result (CanApplySince base.now) }
    ensures refused { S.tells → IfErr result
        (IsReadRefusal (ShowsSince (S.disk store.old).files position.now base.now)) }
    ensures only_reads { S.tells → OnlyReads ⟦<S as Store>⟧ store.old store.new }
    ensures cause { FailsBy ⟦<S as Store>⟧ store.old store.new (IsErrOf result StoreFault) }
    ensures contest { IsUncontestedBy ⟦<S as Store>⟧ store.old store.new ⊥ }
{
    if !has_time(timeline.up_to_head(), position) {
        return Ok(Since::NotReached);
    }
    let commits = commits_since(alloc, store, timeline, head, position, base)?;
    Ok(Since::Commits(commits))
}
