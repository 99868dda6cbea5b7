//! The Hudi source.

ghost use Rattle.std.specs.Prelude.{◌≡◌, ◌≢◌, ◌≤◌, ◌⊎◌, [], codes, IfErr, IfOk, IsErrOf, None, OnOk, Some, length};
ghost use Rattle.lake_basics.specs.declared.limits.TheConstants.{MAX_NAMES};
ghost use Rattle.lake_store.specs.Disk.{names_in};
ghost use Rattle.lake_store.specs.Runs.{FailsBy, IsUncontestedBy, OnlyReads};
ghost use Rattle.target_core.specs.Conditions.{IsPublishable};
ghost use Rattle.hudi_properties.specs.TableProperties.{property};
ghost use Rattle.hudi_table.specs.Folder.{IsHead};
ghost use Rattle.hudi_table.specs.Instants.{head_of, timeline_folder, timeline_of};
ghost use Rattle.source_core.specs.Answers.{IsHeadRefusal, IsReadRefusal};
ghost use Rattle.source_core.specs.declared.error.SourceError.TheVariants.{Absent, Memory, StoreFault};
ghost use Rattle.source_hudi.specs.Heads.{IsAbsent, IsPending, IsTableName, IsTableOfInstants, IsTableUpTo, IsWholeTable};
ghost use Rattle.source_hudi.specs.Reading.{HasManyNames, HasNoProperties, HasRefused, ShowsInInstants, ShowsInTimeline, ShowsUpTo};

use crate::archive::first_archived;
use crate::instants::{first_unread, unread, up_to};
use crate::since::since;
use crate::told::source_error;
use hudi_properties::HudiTable;
use hudi_table::{
    CompletedInstant, Naming, Properties, Timeline, list_timeline, read_table_properties,
    read_timeline,
};
use lake_basics::Text;
use lake_store::Store;
use source_core::{Head, Since, Source, SourceError};
use std::alloc::Global;
use table_history::{Feature, Kind, Table};

/// A Hudi table as a source.
#[derive(Clone, Copy, Debug, PartialEq, Eq)]
pub struct HudiSource {}

/// The head of a timeline.
fn head_time(alloc: Global, timeline: &Timeline) -> Result<Text, SourceError>
    ensures found { IfOk result (λ time. head_of timeline.now ≡ Some time) }
    ensures refused { IfErr result
        (λ e. (e ≡ Memory) ⊎ ((e ≡ Absent) × (head_of timeline.now ≡ None))) }
{
    match timeline.head() {
        Some(time) => Ok(time.copy(alloc)?),
        None => Err(SourceError::Absent),
    }
}

/// The head of a timeline and what is pending behind it, without the table's name.
fn head_in(alloc: Global, timeline: Timeline) -> Result<Head, SourceError>
    ensures position { IfOk result (λ head. head_of timeline ≡ Some head.position) }
    ensures pending { IfOk result (λ head. head.pending ≡ timeline.pending) }
    ensures refused { IfErr result
        (λ e. (e ≡ Memory) ⊎ ((e ≡ Absent) × (head_of timeline ≡ None))) }
{
    let position = head_time(alloc, &timeline)?;
    Ok(Head {
        position,
        pending: timeline.pending,
        table: None,
    })
}

/// The head of the table's timeline and what is pending behind it, without the table's name.
fn find_head<S: Store>(alloc: Global, store: &mut S) -> Result<Head, SourceError>
    ensures position { S.tells
        → IfOk result (λ head. IsHead (S.disk store.old).files head.position) }
    ensures pending { S.tells
        → IfOk result (λ head. IsPending (S.disk store.old).files head.pending) }
    ensures few { S.tells → OnOk result
        (length (names_in (S.disk store.old).files timeline_folder) ≤ MAX_NAMES) }
    ensures refused { S.tells → IfErr result
        (IsHeadRefusal (IsAbsent (S.disk store.old).files)
        (HasManyNames (S.disk store.old).files timeline_folder)) }
    ensures only_reads { S.tells → OnlyReads ⟦<S as Store>⟧ store.old store.new }
    ensures cause { FailsBy ⟦<S as Store>⟧ store.old store.new (IsErrOf result StoreFault) }
    ensures contest { IsUncontestedBy ⟦<S as Store>⟧ store.old store.new ⊥ }
{
    match list_timeline(alloc, store) {
        Ok(timeline) => head_in(alloc, timeline),
        Err(error) => Err(source_error(error)),
    }
}

fn name_of(alloc: Global, properties: &Properties) -> Result<Option<Text>, SourceError>
    ensures name { IfOk result
        (λ name. name ≡ property (codes "hoodie.table.name") properties.now.pairs) }
    ensures memory { IfErr result (λ e. e ≡ Memory) }
{
    match properties.name() {
        Some(name) => Ok(Some(name.copy(alloc)?)),
        None => Ok(None),
    }
}

/// The table's name, where its properties state one.
fn table_name<S: Store>(alloc: Global, store: &mut S) -> Result<Option<Text>, SourceError>
    ensures name { S.tells → IfOk result (IsTableName (S.disk store.old).files) }
    ensures refused { S.tells
        → IfErr result (IsReadRefusal (HasNoProperties (S.disk store.old).files)) }
    ensures only_reads { S.tells → OnlyReads ⟦<S as Store>⟧ store.old store.new }
    ensures cause { FailsBy ⟦<S as Store>⟧ store.old store.new (IsErrOf result StoreFault) }
    ensures contest { IsUncontestedBy ⟦<S as Store>⟧ store.old store.new ⊥ }
{
    match read_table_properties(alloc, store) {
        Ok(properties) => name_of(alloc, &properties),
        Err(error) => Err(source_error(error)),
    }
}

/// The table that the completed instants make, of which the oldest comes first.
fn table_of<S: Store>(
    alloc: Global,
    store: &mut S,
    table: &HudiTable,
    instants: &[CompletedInstant],
) -> Result<Table, SourceError>
    ensures made { S.tells → IfOk result
        (IsTableOfInstants (S.disk store.old).files table.now instants.now) }
    ensures sound { IfOk result IsPublishable }
    ensures refused { S.tells → instants.now ≢ [] → IfErr result
        (IsReadRefusal (HasRefused (S.disk store.old).files table.now instants.now)) }
    ensures only_reads { S.tells → OnlyReads ⟦<S as Store>⟧ store.old store.new }
    ensures cause { FailsBy ⟦<S as Store>⟧ store.old store.new (IsErrOf result StoreFault) }
    ensures contest { IsUncontestedBy ⟦<S as Store>⟧ store.old store.new ⊥ }
{
    match read_timeline(alloc, store, instants, Naming::Base, table) {
        Ok(Some(latest)) => Ok(latest.table.into_table()),
        Ok(None) => Err(SourceError::Absent),
        Err(error) => Err(source_error(error)),
    }
}

/// The table that the instants of a timeline make up to the head.
fn table_up_to<S: Store>(
    alloc: Global,
    store: &mut S,
    table: &HudiTable,
    timeline: &Timeline,
    head: &Text,
) -> Result<Table, SourceError>
    requires timeline { S.tells
        → timeline.now ≡ timeline_of (names_in (S.disk store.old).files timeline_folder) }
    requires head { S.tells → IsHead (S.disk store.old).files head.now }
    ensures made { S.tells → IfOk result
        (IsTableUpTo (S.disk store.old).files table.now head.now) }
    ensures sound { IfOk result IsPublishable }
    ensures refused { S.tells → IfErr result
        (IsReadRefusal (ShowsUpTo (S.disk store.old).files table.now head.now)) }
    ensures only_reads { S.tells → OnlyReads ⟦<S as Store>⟧ store.old store.new }
    ensures cause { FailsBy ⟦<S as Store>⟧ store.old store.new (IsErrOf result StoreFault) }
    ensures contest { IsUncontestedBy ⟦<S as Store>⟧ store.old store.new ⊥ }
{
    match first_unread(timeline.instants.as_slice(), head) {
        Some(instant) => Err(unread(alloc, instant)),
        None => table_of(
            alloc,
            store,
            table,
            up_to(timeline.completed.as_slice(), head),
        ),
    }
}

/// The table at the head, where nothing is archived.
fn table_at<S: Store>(
    alloc: Global,
    store: &mut S,
    table: &HudiTable,
    head: &Text,
) -> Result<Table, SourceError>
    requires { S.tells → IsHead (S.disk store.old).files head.now }
    ensures made { S.tells → IfOk result
        (IsTableUpTo (S.disk store.old).files table.now head.now) }
    ensures sound { IfOk result IsPublishable }
    ensures refused { S.tells → IfErr result
        (IsReadRefusal (ShowsInTimeline (S.disk store.old).files table.now)) }
    ensures only_reads { S.tells → OnlyReads ⟦<S as Store>⟧ store.old store.new }
    ensures cause { FailsBy ⟦<S as Store>⟧ store.old store.new (IsErrOf result StoreFault) }
    ensures contest { IsUncontestedBy ⟦<S as Store>⟧ store.old store.new ⊥ }
{
    match list_timeline(alloc, store) {
        Ok(timeline) => table_up_to(alloc, store, table, &timeline, head),
        Err(error) => Err(source_error(error)),
    }
}

/// The table at the head. It isn't read where an instant is archived.
fn whole_table<S: Store>(
    alloc: Global,
    store: &mut S,
    table: &HudiTable,
    head: &Text,
) -> Result<Table, SourceError>
    requires { S.tells → IsHead (S.disk store.old).files head.now }
    ensures made { S.tells → IfOk result
        (IsWholeTable (S.disk store.old).files table.now head.now) }
    ensures sound { IfOk result IsPublishable }
    ensures refused { S.tells → IfErr result
        (IsReadRefusal (ShowsInInstants (S.disk store.old).files table.now)) }
    ensures only_reads { S.tells → OnlyReads ⟦<S as Store>⟧ store.old store.new }
    ensures cause { FailsBy ⟦<S as Store>⟧ store.old store.new (IsErrOf result StoreFault) }
    ensures contest { IsUncontestedBy ⟦<S as Store>⟧ store.old store.new ⊥ }
{
    match first_archived(alloc, store) {
        Ok(None) => table_at(alloc, store, table, head),
        Ok(Some(path)) => Err(SourceError::Unsupported {
            feature: Feature::NeedsArchive,
            path,
        }),
        Err(error) => Err(error),
    }
}

impl HudiSource {
    /// The source of Hudi tables.
    pub fn new() -> HudiSource {
        HudiSource {}
    }
}

impl Source for HudiSource {
    ghost use Rattle.table_history.specs.declared.kind.Kind.TheVariants.{Hudi};
    ghost use Rattle.hudi_table.specs.Folder.{IsReached};
    ghost use Rattle.source_hudi.specs.Heads.{IsAbsent, IsHudiHead, IsTableAtHead};
    ghost use Rattle.source_hudi.specs.Histories.{HoldsHistory};
    ghost use Rattle.source_hudi.specs.HistoryLemmas.{along, holds_own, last, reached_held};
    ghost use Rattle.source_hudi.specs.OnceLemmas.{head_there, one_table};
    ghost use Rattle.source_hudi.specs.Reading.{ShowsAtHead, ShowsFromScratch};
    ghost use Rattle.source_hudi.specs.Since.{IsSince, ShowsSince};
    ghost use Rattle.source_hudi.specs.OwnLemmas.{absent_own, at_head_own, from_scratch_own, head_own, reaches_own, table_own};
    ghost use Rattle.source_hudi.specs.SinceLemmas.{ends, from_position_own, none_at_head, one_head, since_own};

    ghost kind = { λ source. Hudi };

    ghost is_absent = { λ source files. IsAbsent files };

    ghost is_head = { λ source files head. IsHudiHead files head };

    ghost is_table = { λ source files table. IsTableAtHead files table };

    ghost reaches = { λ source files position. IsReached files position };

    ghost is_since = { λ source files position base commits. IsSince files position base commits };

    ghost holds = { λ source files history. HoldsHistory files history };

    ghost at_head = { λ source files e. ShowsAtHead files e };

    ghost from_scratch = { λ source files e. ShowsFromScratch files e };

    ghost from_position = { λ source files position base e. ShowsSince files position base e };

    fn kind(&self) -> Kind {
        Kind::Hudi
    }

    /// The last commit or replacecommit that is completed before the first pending one, that one,
    /// and the table's name, which `hoodie.properties` states (Hudi technical specification,
    /// "Timeline" and "Table Properties"). Names tell the head; then the properties are judged, and
    /// what else is wrong, `whole` tells.
    fn head<S: Store>(&self, alloc: Global, store: &mut S) -> Result<Head, SourceError> {
        let head = find_head(alloc, store)?;
        let table = table_name(alloc, store)?;
        Ok(Head {
            position: head.position,
            pending: head.pending,
            table,
        })
    }

    /// The table at the head, which `head` has given, read from the first instant on (Hudi technical
    /// specification, "File groups"). The properties come first, then the archive, in which no file
    /// may be, then the actions of the instants by their names, and then the completed instants, the
    /// oldest first.
    fn whole<S: Store>(
        &self,
        alloc: Global,
        store: &mut S,
        head: &Head,
    ) -> Result<Table, SourceError> {
        match read_table_properties(alloc, store) {
            Ok(properties) => whole_table(alloc, store, &properties.table, &head.position),
            Err(error) => Err(source_error(error)),
        }
    }

    /// The commits after a position over the table that a target has of it, up to the head, which
    /// `head` has given. They are told where the position's completed file is in the timeline up to
    /// the head; what is archived is no matter. The names of the timeline come first, then the
    /// properties, with their partition columns, then the actions of the later instants by their
    /// names, then their number, and then those that are completed, the oldest first: each is read,
    /// its write stats and replaced ids are counted with those before it, and its change is made.
    fn since<S: Store>(
        &self,
        alloc: Global,
        store: &mut S,
        head: &Head,
        position: &Text,
        base: &Table,
    ) -> Result<Since, SourceError> {
        match list_timeline(alloc, store) {
            Ok(timeline) => since(alloc, store, &timeline, &head.position, position, base),
            Err(error) => Err(source_error(error)),
        }
    }

    ghost one_head = { λ source files a b ha hb. one_head files a b ha hb };

    ghost ends = { λ source files head position base commits is at since. ends files head position base commits is at since };

    ghost none_at_head = { λ source files head base commits is since. none_at_head files head base commits is since };

    ghost head_there = { λ source files head is absent. head_there files head is absent };

    ghost one_table = { λ source files a b x y. one_table files a b x y };

    ghost last = { λ source files history head is holds at. last files history head is holds at };

    ghost reached_held = { λ source files history position holds at. reached_held files history position holds at };

    ghost along = { λ source files front behind entry base commits is holds like at since. along files front behind entry base commits is holds like at since };

    ghost absent_own = { λ source a b same h. absent_own a b same h };

    ghost head_own = { λ source a b head same h. head_own a b head same h };

    ghost table_own = { λ source a b table same h. table_own a b table same h };

    ghost holds_own = { λ source a b history same h. holds_own a b history same h };

    ghost reaches_own = { λ source a b position same h. reaches_own a b position same h };

    ghost since_own = { λ source a b position base commits same h. since_own a b position base commits same h };

    ghost at_head_own = { λ source a b e same h. at_head_own a b e same h };

    ghost from_scratch_own = { λ source a b e same h. from_scratch_own a b e same h };

    ghost from_position_own = { λ source a b position base e same h. from_position_own a b position base e same h };
}
