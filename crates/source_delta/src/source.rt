//! The Delta source.

ghost use Rattle.std.specs.Prelude.{◌≡◌, ◌≢◌, ◌≤◌, ◌+◌, ℕ, IfErr, IfOk, IsErrOf, MatchOption, None, OnOk, length};
ghost use Rattle.lake_basics.specs.declared.limits.TheConstants.{MAX_DELTA_VERSION, MAX_NAMES};
ghost use Rattle.lake_store.specs.Disk.{names_in};
ghost use Rattle.lake_store.specs.Runs.{FailsBy, IsUncontestedBy, OnlyReads};
ghost use Rattle.target_core.specs.Conditions.{IsPublishable};
ghost use Rattle.delta_table.specs.Refusals.{TellsOf};
ghost use Rattle.delta_table.specs.Versions.{log_folder};
ghost use Rattle.delta_table.specs.declared.error.LogError.TheVariants as log;
ghost use Rattle.source_core.specs.Answers.{IsHeadRefusal, IsReadRefusal};
ghost use Rattle.source_core.specs.declared.error.SourceError.TheVariants.{StoreFault};
ghost use Rattle.source_delta.specs.Heads.{IsAbsent, IsNewest, IsTableAtHead, IsTableId};
ghost use Rattle.source_delta.specs.Reading.{HasEach, HasFewNames, HasManyNames, IsFirstRefused, IsLastMissing, IsRefusedLog, ShowsFromScratch, Tells};

use crate::position::{position, version_at};
use crate::since::commits_since;
use crate::told::{list_error, source_error, unsupported};
use delta_log::MetaData;
use delta_table::{LOG_FOLDER, Log, LogError, list_versions, read_log};
use lake_basics::Text;
use lake_store::Store;
use source_core::{Head, Since, Source, SourceError};
use std::alloc::Global;
use table_history::{Feature, Kind, Table};

/// A Delta table as a source.
#[derive(Clone, Copy, Debug, PartialEq, Eq)]
pub struct DeltaSource {}

/// The newest version of a log.
fn newest_version<S: Store>(alloc: Global, store: &mut S) -> Result<u64, SourceError>
    ensures newest { S.tells → IfOk result (IsNewest (S.disk store.old).files) }
    ensures within { IfOk result (λ newest. newest ≤ MAX_DELTA_VERSION) }
    ensures few { S.tells → OnOk result
        (length (names_in (S.disk store.old).files log_folder) ≤ MAX_NAMES) }
    ensures refused { S.tells → IfErr result
        (IsHeadRefusal (IsAbsent (S.disk store.old).files)
        (HasManyNames (S.disk store.old).files)) }
    ensures only_reads { S.tells → OnlyReads ⟦<S as Store>⟧ store.old store.new }
    ensures cause { FailsBy ⟦<S as Store>⟧ store.old store.new (IsErrOf result StoreFault) }
    ensures contest { IsUncontestedBy ⟦<S as Store>⟧ store.old store.new ⊥ }
{
    match list_versions(alloc, store) {
        Ok(Some(versions)) => Ok(versions.newest),
        Ok(None) => Err(SourceError::Absent),
        Err(error) => Err(list_error(error)),
    }
}

fn id_of(log: Log) -> Text
    ensures { result ≡ log.meta.id }
{
    let Log { meta, .. } = log;
    let MetaData { id, .. } = meta;
    id
}

/// What is told where version 0 wasn't read: no id, where it isn't there.
fn without_id(alloc: Global, error: LogError) -> Result<Option<Text>, SourceError>
    requires { TellsOf (λ version. version ≤ MAX_DELTA_VERSION) error }
    ensures missing { IfOk result
        (λ id. (id ≡ None) × ((version : ℕ) × (error ≡ log.Missing version))) }
    ensures refused { IfErr result (λ e. IsReadRefusal (Tells error) e
        × ((version : ℕ) → error ≢ log.Missing version)) }
    ensures fault { IfErr result (λ e. e ≡ StoreFault → error ≡ log.StoreFault) }
{
    match error {
        LogError::Missing { .. } => Ok(None),
        error => Err(source_error(alloc, error)),
    }
}

/// The id that version 0 states for the table, where that version is there. The whole version is
/// judged.
fn table_id<S: Store>(alloc: Global, store: &mut S) -> Result<Option<Text>, SourceError>
    ensures id { S.tells → IfOk result (IsTableId (S.disk store.old).files) }
    ensures refused { S.tells
        → IfErr result (IsReadRefusal (IsFirstRefused (S.disk store.old).files)) }
    ensures only_reads { S.tells → OnlyReads ⟦<S as Store>⟧ store.old store.new }
    ensures cause { FailsBy ⟦<S as Store>⟧ store.old store.new (IsErrOf result StoreFault) }
    ensures contest { IsUncontestedBy ⟦<S as Store>⟧ store.old store.new ⊥ }
{
    match read_log(alloc, store, 0) {
        Ok(log) => Ok(Some(id_of(log))),
        Err(error) => without_id(alloc, error),
    }
}

/// The version before this one, if there is one.
fn version_before(version: u64) -> Option<u64>
    ensures { MatchOption result (version ≡ 0) (λ before. before + 1 ≡ version) }
{
    version.checked_sub(1)
}

/// The greatest version up to the newest that isn't there. None where none is missing.
fn missing_version<S: Store>(
    alloc: Global,
    store: &mut S,
    newest: u64,
) -> Result<Option<u64>, SourceError>
    requires { newest ≤ MAX_DELTA_VERSION }
    ensures missing { S.tells → IsNewest (S.disk store.old).files newest
        → IfOk result (λ found. MatchOption found
        (HasEach (S.disk store.old).files newest) (IsLastMissing (S.disk store.old).files newest)) }
    ensures within { IfOk result
        (λ found. MatchOption found (Unit {0}) (λ version. version ≤ MAX_DELTA_VERSION)) }
    ensures refused { S.tells → IsNewest (S.disk store.old).files newest
        → IfErr result (IsReadRefusal (HasManyNames (S.disk store.old).files)) }
    ensures only_reads { S.tells → OnlyReads ⟦<S as Store>⟧ store.old store.new }
    ensures cause { FailsBy ⟦<S as Store>⟧ store.old store.new (IsErrOf result StoreFault) }
    ensures contest { IsUncontestedBy ⟦<S as Store>⟧ store.old store.new ⊥ }
{
    match list_versions(alloc, store) {
        Ok(Some(versions)) => Ok(version_before(versions.first)),
        Ok(None) => Ok(Some(newest)),
        Err(error) => Err(list_error(error)),
    }
}

/// The table that the versions from 0 to this one make.
fn table_up_to<S: Store>(alloc: Global, store: &mut S, newest: u64) -> Result<Table, SourceError>
    requires { newest ≤ MAX_DELTA_VERSION }
    ensures table { S.tells → IsNewest (S.disk store.old).files newest
        → IfOk result (IsTableAtHead (S.disk store.old).files) }
    ensures sound { IfOk result IsPublishable }
    ensures refused { S.tells
        → IfErr result (IsReadRefusal (IsRefusedLog (S.disk store.old).files newest)) }
    ensures only_reads { S.tells → OnlyReads ⟦<S as Store>⟧ store.old store.new }
    ensures cause { FailsBy ⟦<S as Store>⟧ store.old store.new (IsErrOf result StoreFault) }
    ensures contest { IsUncontestedBy ⟦<S as Store>⟧ store.old store.new ⊥ }
{
    match read_log(alloc, store, newest) {
        Ok(log) => Ok(log.table),
        Err(error) => Err(source_error(alloc, error)),
    }
}

/// The same, where none of the versions is missing.
fn whole_table<S: Store>(alloc: Global, store: &mut S, newest: u64) -> Result<Table, SourceError>
    requires { newest ≤ MAX_DELTA_VERSION }
    ensures table { S.tells → IsNewest (S.disk store.old).files newest
        → IfOk result (IsTableAtHead (S.disk store.old).files) }
    ensures sound { IfOk result IsPublishable }
    ensures refused { S.tells → HasFewNames (S.disk store.old).files
        → IsNewest (S.disk store.old).files newest
        → IfErr result (IsReadRefusal (ShowsFromScratch (S.disk store.old).files)) }
    ensures only_reads { S.tells → OnlyReads ⟦<S as Store>⟧ store.old store.new }
    ensures cause { FailsBy ⟦<S as Store>⟧ store.old store.new (IsErrOf result StoreFault) }
    ensures contest { IsUncontestedBy ⟦<S as Store>⟧ store.old store.new ⊥ }
{
    match missing_version(alloc, store, newest) {
        Ok(Some(version)) => Err(unsupported(alloc, Feature::NeedsCheckpoint, version)),
        Ok(None) => table_up_to(alloc, store, newest),
        Err(error) => Err(error),
    }
}

/// What is told where the position that was asked for is that of no version.
fn no_version(alloc: Global) -> SourceError
    ensures { result ≢ StoreFault }
{
    match Text::from_str(alloc, LOG_FOLDER) {
        Ok(path) => SourceError::Malformed { path },
        Err(_) => SourceError::Memory,
    }
}

impl DeltaSource {
    /// The source of Delta tables.
    pub fn new() -> DeltaSource {
        DeltaSource {}
    }
}

impl Source for DeltaSource {
    ghost use Rattle.table_history.specs.declared.kind.Kind.TheVariants.{Delta};
    ghost use Rattle.source_delta.specs.Heads.{IsAbsent, IsDeltaHead, IsTableAtHead};
    ghost use Rattle.source_delta.specs.Reading.{ShowsAtHead, ShowsFromScratch};
    ghost use Rattle.source_delta.specs.Since.{IsSince, Reaches, ShowsFromPosition};
    ghost use Rattle.source_delta.specs.Histories.{HoldsHistory};
    ghost use Rattle.source_delta.specs.SinceLemmas.{ends, head_there, none_at_head, one_head};
    ghost use Rattle.source_delta.specs.HistoryLemmas.{along, holds_own, last, one_table, reached_held};
    ghost use Rattle.source_delta.specs.OwnLemmas.{absent_own, at_head_own, from_position_own, from_scratch_own, head_own, reaches_own, since_own, table_own};

    ghost kind = { λ source. Delta };

    ghost is_absent = { λ source files. IsAbsent files };

    ghost is_head = { λ source files head. IsDeltaHead files head };

    ghost is_table = { λ source files table. IsTableAtHead files table };

    ghost reaches = { λ source files position. Reaches files position };

    ghost is_since = { λ source files position base commits. IsSince files position base commits };

    ghost holds = { λ source files history. HoldsHistory files history };

    ghost at_head = { λ source files e. ShowsAtHead files e };

    ghost from_scratch = { λ source files e. ShowsFromScratch files e };

    ghost from_position = { λ source files position base e. ShowsFromPosition files position base e };

    fn kind(&self) -> Kind {
        Kind::Delta
    }

    /// The newest version in the log, and the table's id, which version 0 states. It is absent
    /// exactly where no version is there. Version 0, where it is there, is judged whole; what else
    /// is wrong with the log, `whole` tells.
    fn head<S: Store>(&self, alloc: Global, store: &mut S) -> Result<Head, SourceError> {
        let newest = newest_version(alloc, store)?;
        let table = table_id(alloc, store)?;
        Ok(Head {
            position: position(alloc, newest)?,
            pending: None,
            table,
        })
    }

    /// The table at the head, which `head` has given, read from version 0 (Delta protocol, "Action
    /// Reconciliation"). Where a version is missing, the greatest such one is told; otherwise the
    /// first version at fault.
    fn whole<S: Store>(
        &self,
        alloc: Global,
        store: &mut S,
        head: &Head,
    ) -> Result<Table, SourceError> {
        match version_at(head.position.as_str()) {
            Some(newest) => whole_table(alloc, store, newest),
            None => Err(no_version(alloc)),
        }
    }

    /// The commits of the versions after a position up to the head, which `head` has given, over the
    /// table of that position (Delta protocol, "Action Reconciliation"). They aren't told where one of
    /// these versions is missing, or where the position is that of no version up to the head. Whether
    /// the position's version is there, or one before it, is no matter. A refusal is that of the first
    /// version at fault.
    fn since<S: Store>(
        &self,
        alloc: Global,
        store: &mut S,
        head: &Head,
        position: &Text,
        base: &Table,
    ) -> Result<Since, SourceError> {
        match version_at(head.position.as_str()) {
            Some(newest) => commits_since(alloc, store, newest, position, base),
            None => Err(no_version(alloc)),
        }
    }

    ghost one_head = { λ source files a b x y. one_head files a b x y };

    ghost ends = { λ source files head position base commits is reached since. ends files head position base commits is since };

    ghost none_at_head = { λ source files head base commits is since. none_at_head files head base commits is since };

    ghost head_there = { λ source files head is absent. head_there files head is absent };

    ghost one_table = { λ source files a b x y. one_table files a b x y };

    ghost last = { λ source files history head is holds at. last files history head holds at };

    ghost reached_held = { λ source files history position holds reached. reached_held files history position holds reached };

    ghost along = { λ source files front behind entry base commits is holds like reached since. along files front behind entry base commits holds like reached since };

    ghost absent_own = { λ source a b same h. absent_own a b same h };

    ghost head_own = { λ source a b head same h. head_own a b head same h };

    ghost table_own = { λ source a b table same h. table_own a b table same h };

    ghost holds_own = { λ source a b history same h. holds_own a b history same h };

    ghost reaches_own = { λ source a b position same h. reaches_own a b position same h };

    ghost since_own = { λ source a b position base commits same h. since_own a b position base commits same h };

    ghost at_head_own = { λ source a b e same h. at_head_own a b e same h };

    ghost from_scratch_own = { λ source a b e same h. from_scratch_own a b e same h };

    ghost from_position_own = { λ source a b position base e same h. from_position_own a b position base e same h };
}
