//! The Iceberg source.

ghost use Rattle.std.specs.Prelude.{◌≡◌, ◌⊎◌, None, Some, IfErr, IfOk, IsErrOf, OnOk, find};
ghost use Rattle.std.specs.Fmt.{signed_decimal};
ghost use Rattle.std.specs.Option.{option_copied};
ghost use Rattle.lake_store.specs.Runs.{FailsBy, IsUncontestedBy, OnlyReads};
ghost use Rattle.target_core.specs.Conditions.{IsPublishable};
ghost use Rattle.iceberg_ancestry.specs.Ancestry.{held_at};
ghost use Rattle.iceberg_ancestry.specs.ById.{has_id};
ghost use Rattle.iceberg_metadata.specs.Writing.{IsWritable};
ghost use Rattle.iceberg_table.specs.Snapshots.{IsReadAs, IsTableOfSnapshot};
ghost use Rattle.iceberg_table.specs.declared.snapshot.SnapshotTable.{SnapshotTable};
ghost use Rattle.source_core.specs.Answers.{IsReadRefusal};
ghost use Rattle.source_core.specs.declared.error.SourceError.TheVariants.{Absent, Memory, StoreFault};
ghost use Rattle.iceberg_metadata.specs.declared.metadata.Snapshot.{Snapshot};
ghost use Rattle.source_iceberg.specs.Heads.{IsIcebergHead, IsNewestMetadata, IsTableAtHead};
ghost use Rattle.source_iceberg.specs.Reading.{IsRefusedSnapshot, ShowsFromScratch};

use crate::later::ancestors_to;
use crate::newest::{Newest, newest_metadata};
use crate::since::commits_since;
use crate::told::{lacks_head, source_error};
use iceberg_metadata::{Metadata, Snapshot};
use iceberg_table::read_table;
use lake_basics::Text;
use lake_store::Store;
use source_core::{Head, Since, Source, SourceError, position_of};
use std::alloc::Global;
use table_history::{Kind, Table};

/// An Iceberg table as a source.
#[derive(Clone, Copy, Debug, PartialEq, Eq)]
pub struct IcebergSource {}

fn held(snapshots: &[Snapshot], id: i64) -> Option<&Snapshot>
    ensures { option_copied result ≡ find (has_id id) snapshots.now }
{
    snapshots.iter().find(|snapshot| snapshot.id == id)
}

/// The current snapshot.
#[tactic(auto, using(crate::specs::HeadLemmas::held_found))]
fn current_snapshot(metadata: &Metadata) -> Option<&Snapshot>
    ensures { option_copied result
        ≡ held_at metadata.now.snapshots metadata.now.current_snapshot }
{
    match metadata.current_snapshot {
        None => None,
        Some(id) => held(metadata.snapshots.as_slice(), id),
    }
}

/// The table that a snapshot stands for.
fn table_of<S: Store>(
    alloc: Global,
    store: &mut S,
    newest: &Newest,
    snapshot: &Snapshot,
) -> Result<Table, SourceError>
    ensures table { S.tells → IfOk result (IsTableOfSnapshot (S.disk store.old).files
        newest.now.metadata snapshot.now) }
    ensures read { S.tells → OnOk result ((t : SnapshotTable)
        × IsReadAs (S.disk store.old).files newest.now.metadata snapshot.now t) }
    ensures sound { IsWritable newest.now.metadata → IfOk result IsPublishable }
    ensures refused { S.tells → IfErr result (IsReadRefusal (IsRefusedSnapshot
        (S.disk store.old).files newest.now.metadata newest.now.version snapshot.now)) }
    ensures only_reads { S.tells → OnlyReads ⟦<S as Store>⟧ store.old store.new }
    ensures cause { FailsBy ⟦<S as Store>⟧ store.old store.new (IsErrOf result StoreFault) }
    ensures contest { IsUncontestedBy ⟦<S as Store>⟧ store.old store.new ⊥ }
{
    match read_table(alloc, store, &newest.metadata, newest.version, snapshot) {
        Ok(table) => Ok(table),
        Err(error) => Err(source_error(error)),
    }
}

/// The table that the head's snapshot stands for. The newest metadata may have newer ones by now.
fn head_table<S: Store>(
    alloc: Global,
    store: &mut S,
    newest: &Newest,
    head: &Head,
) -> Result<Table, SourceError>
    requires newest { S.tells
        → IsNewestMetadata (S.disk store.old).files newest.now.version newest.now.metadata }
    requires head { S.tells → IsIcebergHead (S.disk store.old).files head.now }
    ensures table { S.tells → IfOk result (IsTableAtHead (S.disk store.old).files) }
    ensures sound { IsWritable newest.now.metadata → IfOk result IsPublishable }
    ensures refused { S.tells → IfErr result
        (IsReadRefusal (ShowsFromScratch (S.disk store.old).files)) }
    ensures only_reads { S.tells → OnlyReads ⟦<S as Store>⟧ store.old store.new }
    ensures cause { FailsBy ⟦<S as Store>⟧ store.old store.new (IsErrOf result StoreFault) }
    ensures contest { IsUncontestedBy ⟦<S as Store>⟧ store.old store.new ⊥ }
{
    let ancestors = ancestors_to(alloc, &newest.metadata, &head.position)?;
    match ancestors.get(0) {
        Some(snapshot) => table_of(alloc, store, newest, snapshot),
        None => Err(lacks_head(alloc, newest.version)),
    }
}

/// The current snapshot's position.
fn current_position(alloc: Global, metadata: &Metadata) -> Result<Text, SourceError>
    ensures position { IfOk result (λ position. (s : Snapshot)
        × (held_at metadata.now.snapshots metadata.now.current_snapshot ≡ Some s)
        × (position ≡ signed_decimal s.id)) }
    ensures refused { IfErr result (λ e. (e ≡ Memory) ⊎ ((e ≡ Absent)
        × (held_at metadata.now.snapshots metadata.now.current_snapshot ≡ None))) }
{
    match current_snapshot(metadata) {
        Some(snapshot) => Ok(position_of(alloc, Kind::Iceberg, snapshot.id)?),
        None => Err(SourceError::Absent),
    }
}

fn uuid_of(metadata: Metadata) -> Text
    ensures { result ≡ metadata.uuid }
{
    let Metadata { uuid, .. } = metadata;
    uuid
}

/// The head that metadata says.
fn head_of(alloc: Global, metadata: Metadata) -> Result<Head, SourceError>
    ensures head { IfOk result (λ head. (s : Snapshot)
        × (held_at metadata.snapshots metadata.current_snapshot ≡ Some s)
        × (head.position ≡ signed_decimal s.id) × (head.pending ≡ None)
        × (head.table ≡ Some metadata.uuid)) }
    ensures refused { IfErr result (λ e. (e ≡ Memory)
        ⊎ ((e ≡ Absent) × (held_at metadata.snapshots metadata.current_snapshot ≡ None))) }
{
    let position = current_position(alloc, &metadata);
    let table = uuid_of(metadata);
    Ok(Head {
        position: position?,
        pending: None,
        table: Some(table),
    })
}

impl IcebergSource {
    /// The source of Iceberg tables.
    pub fn new() -> IcebergSource {
        IcebergSource {}
    }
}

impl Source for IcebergSource {
    ghost use Rattle.table_history.specs.declared.kind.Kind.TheVariants.{Iceberg};
    ghost use Rattle.source_iceberg.specs.Heads.{IsAbsent, IsIcebergHead, IsTableAtHead};
    ghost use Rattle.source_iceberg.specs.Reading.{ShowsAtHead, ShowsFromScratch};
    ghost use Rattle.source_iceberg.specs.Since.{IsSince, Reaches, ShowsFromPosition};
    ghost use Rattle.source_iceberg.specs.Histories.{HoldsHistory};
    ghost use Rattle.source_iceberg.specs.HeadLemmas.{head_there, one_head};
    ghost use Rattle.source_iceberg.specs.SinceLemmas.{ends, none_at_head};
    ghost use Rattle.source_iceberg.specs.HistoryLemmas.{along, last, one_table, reached_held};
    ghost use Rattle.source_iceberg.specs.SinceOwnLemmas.{from_position_own, holds_own, reaches_own, since_own};
    ghost use Rattle.source_iceberg.specs.OwnLemmas.{absent_own, at_head_own, from_scratch_own, head_own, table_own};

    ghost kind = { λ source. Iceberg };

    ghost is_absent = { λ source files. IsAbsent files };

    ghost is_head = { λ source files head. IsIcebergHead files head };

    ghost is_table = { λ source files table. IsTableAtHead files table };

    ghost reaches = { λ source files position. Reaches files position };

    ghost is_since = { λ source files position base commits. IsSince files position base commits };

    ghost holds = { λ source files history. HoldsHistory files history };

    ghost at_head = { λ source files e. ShowsAtHead files e };

    ghost from_scratch = { λ source files e. ShowsFromScratch files e };

    ghost from_position = { λ source files position base e. ShowsFromPosition files position base e };

    fn kind(&self) -> Kind {
        Kind::Iceberg
    }

    /// The newest metadata's current snapshot, and the table's UUID. It is absent exactly where there
    /// is no metadata, or the newest has no current snapshot. What else is wrong with a snapshot,
    /// `whole` and `since` tell.
    fn head<S: Store>(&self, alloc: Global, store: &mut S) -> Result<Head, SourceError> {
        let newest = newest_metadata(alloc, store)?;
        head_of(alloc, newest.metadata)
    }

    /// The table at the head, which `head` has given (Apache Iceberg specification, "Scan Planning").
    /// The first file at fault is told: the newest metadata, the current snapshot's manifest list, or
    /// one of its manifests in the order of the list.
    fn whole<S: Store>(
        &self,
        alloc: Global,
        store: &mut S,
        head: &Head,
    ) -> Result<Table, SourceError> {
        let newest = newest_metadata(alloc, store)?;
        head_table(alloc, store, &newest, head)
    }

    /// The commits of the ancestors behind a position up to the head, which `head` has given, over
    /// the table of that position (Apache Iceberg specification, "Snapshots" and "Scan Planning").
    /// They aren't told where the position is that of no ancestor that the newest metadata holds. A
    /// refusal is that of the first snapshot at fault.
    fn since<S: Store>(
        &self,
        alloc: Global,
        store: &mut S,
        head: &Head,
        position: &Text,
        base: &Table,
    ) -> Result<Since, SourceError> {
        commits_since(alloc, store, head, position, base)
    }

    ghost one_head = { λ source files a b x y. one_head files a b x y };

    ghost ends = { λ source files head position base commits is reached since. ends files head position base commits is since };

    ghost none_at_head = { λ source files head base commits is since. none_at_head files head base commits is since };

    ghost head_there = { λ source files head is absent. head_there files head is absent };

    ghost one_table = { λ source files a b x y. one_table files a b x y };

    ghost last = { λ source files history head is holds at. last files history head holds at };

    ghost reached_held = { λ source files history position holds reached. reached_held files history position holds reached };

    ghost along = { λ source files front behind entry base commits is holds like reached since. along files front behind entry base commits is holds like since };

    ghost absent_own = { λ source a b same h. absent_own a b same h };

    ghost head_own = { λ source a b head same h. head_own a b head same h };

    ghost table_own = { λ source a b table same h. table_own a b table same h };

    ghost holds_own = { λ source a b history same h. holds_own a b history same h };

    ghost reaches_own = { λ source a b position same h. reaches_own a b position same h };

    ghost since_own = { λ source a b position base commits same h. since_own a b position base commits same h };

    ghost at_head_own = { λ source a b e same h. at_head_own a b e same h };

    ghost from_scratch_own = { λ source a b e same h. from_scratch_own a b e same h };

    ghost from_position_own = { λ source a b position base e same h. from_position_own a b position base e same h };
}
