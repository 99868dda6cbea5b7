//! The commits of a log after a version.

ghost use Rattle.std.specs.Prelude.{◌≡◌, ◌≢◌, ◌<◌, ◌≤◌, ◌+◌, ℕ, List, [], length, IfErr, IfOk, IsErrOf, MatchOption, OnOk, Some};
ghost use Rattle.lake_basics.specs.declared.limits.TheConstants.{MAX_ACTIONS, MAX_COMMITS, MAX_DELTA_VERSION, MAX_NAMES};
ghost use Rattle.lake_store.specs.Disk.{Files, names_in};
ghost use Rattle.table_history.specs.declared.limit.LimitKind.TheVariants.{Commits};
ghost use Rattle.table_history.specs.declared.table.Table.{Table};
ghost use Rattle.lake_store.specs.Runs.{FailsBy, IsUncontestedBy, OnlyReads};
ghost use Rattle.delta_change.specs.Change.{GoesOn};
ghost use Rattle.delta_log.specs.Sound.{IsSound};
ghost use Rattle.delta_table.specs.Log.{SaysCommit};
ghost use Rattle.delta_table.specs.Versions.{log_folder};
ghost use Rattle.target_core.specs.Conditions.{IsPublishable};
ghost use Rattle.source_core.specs.Answers.{IsReadRefusal};
ghost use Rattle.source_core.specs.Since.{CanApplyAll, CanApplySince, FitAll, FitSince, IsSinceAnswer, IsSinceRefusal};
ghost use Rattle.source_core.specs.declared.error.SourceError.TheVariants.{Limit, StoreFault};
ghost use Rattle.source_delta.specs.Heads.{IsNewest};
ghost use Rattle.source_delta.specs.Reading.{HasManyNames};
ghost use Rattle.source_delta.specs.Since.{HasManyActions, IsMadeOf, IsReached, IsRefusedBehind, IsRefusedOver, IsSince, Reaches, ShowsFromPosition};
ghost use Rattle.source_delta.specs.Later.{GoesOnBy, IsOneMore};

use crate::position::{position, version_spelled};
use crate::told::{commit_error, limit, list_error, source_error};
use delta_change::change_of;
use delta_log::DeltaCommit;
use delta_table::{Versions, list_versions, read_version};
use lake_basics::limits::{MAX_ACTIONS, MAX_COMMITS};
use lake_basics::{Items, Text};
use lake_store::Store;
use source_core::{Since, SourceError};
use std::alloc::{AllocError, Global};
use table_history::{Commit, LimitKind, Table};

/// What the versions after a position have made so far: their commits, the table behind them, and
/// the number of their adds and removes.
#[derive(Drop)]
struct Later {
    commits: Items<Commit>,
    table: Table,
    actions: u64,
}

/// The version, where it is up to the newest and no later one up to that is missing.
fn reached(versions: Versions, version: u64, newest: u64) -> Option<u64>
    requires { version ≤ MAX_DELTA_VERSION }
    ensures { MatchOption result (¬ ((version ≤ newest) × (versions.first ≤ version + 1)))
        (λ v. (v ≡ version) × (version ≤ newest) × (versions.first ≤ version + 1)) }
{
    if version <= newest && versions.first <= version + 1 {
        Some(version)
    } else {
        None
    }
}

/// The version of a position from which all later ones up to the newest are there.
fn reached_version<S: Store>(
    alloc: Global,
    store: &mut S,
    position: &Text,
    newest: u64,
) -> Result<Option<u64>, SourceError>
    requires { newest ≤ MAX_DELTA_VERSION }
    ensures reached { S.tells → IsNewest (S.disk store.old).files newest
        → IfOk result (λ found. MatchOption found (¬ Reaches (S.disk store.old).files position.now)
        (λ version. IsReached (S.disk store.old).files position.now version newest)) }
    ensures within { IfOk result
        (λ found. MatchOption found (Unit {0}) (λ version. version ≤ newest)) }
    ensures refused { S.tells → IfErr result (IsReadRefusal (HasManyNames (S.disk store.old).files)) }
    ensures only_reads { S.tells → OnlyReads ⟦<S as Store>⟧ store.old store.new }
    ensures cause { FailsBy ⟦<S as Store>⟧ store.old store.new (IsErrOf result StoreFault) }
    ensures contest { IsUncontestedBy ⟦<S as Store>⟧ store.old store.new ⊥ }
{
    let Some(version) = version_spelled(alloc, position.as_str())? else {
        return Ok(None);
    };
    match list_versions(alloc, store) {
        Ok(Some(versions)) => Ok(reached(versions, version, newest)),
        Ok(None) => Ok(None),
        Err(error) => Err(list_error(error)),
    }
}

/// The commit, where its actions and those before it aren't more than are read.
fn within_actions(commit: DeltaCommit, before: u64) -> Result<DeltaCommit, SourceError>
    requires { before ≤ MAX_ACTIONS }
    ensures ok { IfOk result
        (λ c. (c ≡ commit) × (before + length commit.files ≤ MAX_ACTIONS)) }
    ensures err { IfErr result (HasManyActions before commit) }
{
    if commit.files.len() as u64 > MAX_ACTIONS - before {
        return Err(limit(LimitKind::Actions));
    }
    Ok(commit)
}

/// The commit of a version that comes behind so many actions.
fn version_behind<S: Store>(
    alloc: Global,
    store: &mut S,
    version: u64,
    actions: u64,
) -> Result<DeltaCommit, SourceError>
    requires version { version ≤ MAX_DELTA_VERSION }
    requires actions { actions ≤ MAX_ACTIONS }
    ensures says { S.tells → IfOk result (SaysCommit (S.disk store.old).files version) }
    ensures sound { IfOk result IsSound }
    ensures few { IfOk result (λ commit. actions + length commit.files ≤ MAX_ACTIONS) }
    ensures refused { S.tells → (before : Table) → IfErr result
        (IsReadRefusal (IsRefusedBehind (S.disk store.old).files version before actions)) }
    ensures only_reads { S.tells → OnlyReads ⟦<S as Store>⟧ store.old store.new }
    ensures cause { FailsBy ⟦<S as Store>⟧ store.old store.new (IsErrOf result StoreFault) }
    ensures contest { IsUncontestedBy ⟦<S as Store>⟧ store.old store.new ⊥ }
{
    match read_version(alloc, store, version) {
        Ok(commit) => within_actions(commit, actions),
        Err(error) => Err(source_error(alloc, error)),
    }
}

/// The commit of a version, with the change that what the version says makes of the table before it.
fn commit_of(
    alloc: Global,
    version: u64,
    says: &DeltaCommit,
    before: &Table,
) -> Result<Commit, SourceError>
    requires version { version ≤ MAX_DELTA_VERSION }
    requires sound { IsSound says.now }
    ensures made { IfOk result (IsMadeOf version says.now before.now) }
    ensures goes_on { IfOk result (λ commit. GoesOn says.now (Some before.now) commit.change) }
    ensures refused { IfErr result (IsReadRefusal (IsRefusedOver version says.now before.now)) }
    ensures fault { IfErr result (λ e. e ≢ StoreFault) }
{
    match change_of(alloc, says, Some(before)) {
        Ok(change) => Ok(Commit {
            position: position(alloc, version)?,
            change,
        }),
        Err(error) => Err(commit_error(alloc, version, error)),
    }
}

impl Later {
    /// Nothing has been made of the base.
    fn new(alloc: Global, base: &Table) -> Result<Later, AllocError>
        ensures { IfOk result
            (λ later. (later.commits ≡ []) × (later.table ≡ base.now) × (later.actions ≡ 0)) }
    {
        Ok(Later {
            commits: Items::new(alloc),
            table: base.copy(alloc)?,
            actions: 0,
        })
    }

    /// Takes one version more, which says this.
    fn take(&mut self, alloc: Global, version: u64, says: &DeltaCommit) -> Result<(), SourceError>
        requires version { version ≤ MAX_DELTA_VERSION }
        requires sound { IsSound says.now }
        requires few { self.old.actions + length says.now.files ≤ MAX_ACTIONS }
        ensures next { (files : Files) → SaysCommit files version says.now
            → OnOk result (IsOneMore files version self.old self.new) }
        ensures few { OnOk result (self.new.actions ≤ MAX_ACTIONS) }
        ensures sound { OnOk result (GoesOnBy self.old self.new) }
        ensures refused { IfErr result
            (IsReadRefusal (IsRefusedOver version says.now self.old.table)) }
        ensures fault { IfErr result (λ e. e ≢ StoreFault) }
    {
        let commit = commit_of(alloc, version, says, &self.table)?;
        self.table.apply(alloc, &commit.change)?;
        self.commits.push(commit)?;
        self.actions += says.files.len() as u64;
        Ok(())
    }

    /// Takes one version more.
    fn take_version<S: Store>(
        &mut self,
        alloc: Global,
        store: &mut S,
        version: u64,
    ) -> Result<(), SourceError>
        requires version { version ≤ MAX_DELTA_VERSION }
        requires actions { self.old.actions ≤ MAX_ACTIONS }
        ensures next { S.tells
            → OnOk result (IsOneMore (S.disk store.old).files version self.old self.new) }
        ensures few { OnOk result (self.new.actions ≤ MAX_ACTIONS) }
        ensures sound { OnOk result (GoesOnBy self.old self.new) }
        ensures refused { S.tells → IfErr result (IsReadRefusal
            (IsRefusedBehind (S.disk store.old).files version self.old.table self.old.actions)) }
        ensures only_reads { S.tells → OnlyReads ⟦<S as Store>⟧ store.old store.new }
        ensures cause { FailsBy ⟦<S as Store>⟧ store.old store.new (IsErrOf result StoreFault) }
        ensures contest { IsUncontestedBy ⟦<S as Store>⟧ store.old store.new ⊥ }
    {
        let says = version_behind(alloc, store, version, self.actions)?;
        self.take(alloc, version, &says)
    }
}

/// The commits of the versions after this one up to the newest, all of which are there. Each version
/// is read once, and the base is copied once.
fn read_later<S: Store>(
    alloc: Global,
    store: &mut S,
    version: u64,
    newest: u64,
    base: &Table,
) -> Result<Items<Commit>, SourceError>
    requires within { newest ≤ MAX_DELTA_VERSION }
    requires order { version ≤ newest }
    requires few { newest ≤ version + MAX_COMMITS }
    ensures commits { S.tells → (position : List ℕ)
        → IsReached (S.disk store.old).files position version newest
        → IfOk result (IsSince (S.disk store.old).files position base.now) }
    ensures fits { IfOk result (FitAll base.now) }
    ensures sound { IsPublishable base.now → IfOk result (CanApplyAll base.now) }
    ensures refused { S.tells → (position : List ℕ)
        → IsReached (S.disk store.old).files position version newest
        → IfErr result (IsReadRefusal
        (ShowsFromPosition (S.disk store.old).files position base.now)) }
    ensures only_reads { S.tells → OnlyReads ⟦<S as Store>⟧ store.old store.new }
    ensures cause { FailsBy ⟦<S as Store>⟧ store.old store.new (IsErrOf result StoreFault) }
    ensures contest { IsUncontestedBy ⟦<S as Store>⟧ store.old store.new ⊥ }
{
    let mut later = Later::new(alloc, base)?;
    for next in version + 1..newest + 1 {
        later.take_version(alloc, store, next)?;
    }
    Ok(later.commits)
}

/// The same, where they aren't more than are read.
fn later_commits<S: Store>(
    alloc: Global,
    store: &mut S,
    version: u64,
    newest: u64,
    base: &Table,
) -> Result<Items<Commit>, SourceError>
    requires within { newest ≤ MAX_DELTA_VERSION }
    requires order { version ≤ newest }
    ensures commits { S.tells → (position : List ℕ)
        → IsReached (S.disk store.old).files position version newest
        → IfOk result (IsSince (S.disk store.old).files position base.now) }
    ensures fits { IfOk result (FitAll base.now) }
    ensures sound { IsPublishable base.now → IfOk result (CanApplyAll base.now) }
    ensures refused { S.tells → (position : List ℕ)
        → IsReached (S.disk store.old).files position version newest
        → IfErr result (IsReadRefusal
        (ShowsFromPosition (S.disk store.old).files position base.now)) }
    ensures many { version + MAX_COMMITS < newest
        → IsErrOf result (Limit Commits MAX_COMMITS) }
    ensures only_reads { S.tells → OnlyReads ⟦<S as Store>⟧ store.old store.new }
    ensures cause { FailsBy ⟦<S as Store>⟧ store.old store.new (IsErrOf result StoreFault) }
    ensures contest { IsUncontestedBy ⟦<S as Store>⟧ store.old store.new ⊥ }
{
    if newest - version > MAX_COMMITS {
        return Err(limit(LimitKind::Commits));
    }
    if newest == version {
        return Ok(Items::new(alloc));
    }
    read_later(alloc, store, version, newest, base)
}

/// The commits after a position up to the newest version, where all of these versions are there.
pub(crate) fn commits_since<S: Store>(
    alloc: Global,
    store: &mut S,
    newest: u64,
    position: &Text,
    base: &Table,
) -> Result<Since, SourceError>
    requires { newest ≤ MAX_DELTA_VERSION }
    ensures since { S.tells → IsNewest (S.disk store.old).files newest → IfOk result
        (IsSinceAnswer (Reaches (S.disk store.old).files position.now)
        (IsSince (S.disk store.old).files position.now base.now)) }
    ensures fits { IfOk result (FitSince base.now) }
    ensures sound { IsPublishable base.now → IfOk result (CanApplySince base.now) }
    ensures refused { S.tells → IsNewest (S.disk store.old).files newest
        → length (names_in (S.disk store.old).files log_folder) ≤ MAX_NAMES → IfErr result
        (IsSinceRefusal (Reaches (S.disk store.old).files position.now)
        (ShowsFromPosition (S.disk store.old).files position.now base.now)) }
    ensures only_reads { S.tells → OnlyReads ⟦<S as Store>⟧ store.old store.new }
    ensures cause { FailsBy ⟦<S as Store>⟧ store.old store.new (IsErrOf result StoreFault) }
    ensures contest { IsUncontestedBy ⟦<S as Store>⟧ store.old store.new ⊥ }
{
    match reached_version(alloc, store, position, newest)? {
        Some(version) => Ok(Since::Commits(later_commits(alloc, store, version, newest, base)?)),
        None => Ok(Since::NotReached),
    }
}
