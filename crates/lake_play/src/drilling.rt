//! The drill: a table's history of 200 commits, brought to two targets through stops and crashes.
ghost use Rattle.std.specs.Prelude.{◌≡◌, ◌++◌, ℕ, List, false, slice_get, true, IfErr, IfOk, OnOk, Some, string_bytes};
ghost use Rattle.std.specs.List.{AllByRecursion};
ghost use Rattle.conformance.specs.Drill.{AreSaid};
ghost use Rattle.conformance.specs.Events.{drill_events};
ghost use Rattle.conformance.specs.Histories.{IsHistoryOf};
ghost use Rattle.lake_store.specs.Fuse.{CanFail, fuse_disk, script_of};
ghost use Rattle.lake_store.specs.Memory.{disk_of};
ghost use Rattle.source_core.specs.declared.head.Head.{Head};
ghost use Rattle.source_delta.specs.Heads.{IsDeltaHead, IsTableAtHead};
ghost use Rattle.table_history.specs.History.{History};
ghost use Rattle.table_history.specs.declared.kind.Kind.TheVariants.{Delta};
ghost use Rattle.target_core.specs.TargetMeanings.{meaning};
ghost use Rattle.lake_play.specs.Drilled.{AreDrillLines, Drills, IsBroughtOnce, IsEnded, IsFirstRefusal, IsLookEnd, IsPlayedThrough, IsRead, IsReadEnd, IsTableRefusal, LeavesDrill, TellsLast, TellsTarget};
ghost use Rattle.lake_play.specs.Lines.{source_line};
ghost use Rattle.lake_play.specs.Standing.{IsFresh, meaning_of_hudi, meaning_of_iceberg};

use crate::playing::play;
use crate::putting::put_summary;
use crate::summary::{Summary, source_line, target_line};
use crate::syncing::{LOCATION, empty_fuse};
use conformance::events;
use lake_basics::Items;
use lake_store::{FuseStore, MemoryStore, Sink};
use source_core::{Source, SourceError};
use source_delta::DeltaSource;
use std::alloc::Global;
use table_history::{Kind, Table};
use target_core::{Seen, Target};
use target_hudi::HudiTarget;
use target_iceberg::IcebergTarget;
use target_sync::{Status, status_of_source, status_of_target};

/// The time of a drill's syncs: 2024-01-05 12:00:00 UTC, in milliseconds since 1970.
const DRILL_TIME: u64 = 1_704_456_000_000;

/// Whether a sync of a drill ended as it may: it is done, or the store stopped.
fn is_ended(answer: &Status) -> bool
    ensures yes { result ≡ true → IsEnded answer.now }
    ensures no { result ≡ false → ¬ IsEnded answer.now }
{
    match answer {
        Status::Done | Status::StoreFault => true,
        _ => false,
    }
}

/// The first answer that is neither Done nor that of a store that stopped, if there is one.
fn refusal_of(answers: Items<Status>) -> Result<(), Status>
    ensures ended { OnOk result (AllByRecursion IsEnded answers) }
    ensures refused { IfErr result (IsFirstRefusal answers) }
{
    for answer in answers.into_vec() {
        if !is_ended(&answer) {
            return Err(answer);
        }
    }
    Ok(())
}

/// Plays the events of the drill of a number over a store.
fn play_drill(alloc: Global, number: u64, store: &mut FuseStore) -> Result<(), Status>
    requires fresh { IsFresh store.old }
    requires unscripted { ¬ CanFail (script_of store.old) }
    ensures played { OnOk result (IsPlayedThrough number store.new) }
    ensures leaves { OnOk result (LeavesDrill number (fuse_disk store.new).files) }
    ensures said { OnOk result (AreSaid number) }
    ensures refused { IfErr result (λ e. e ≡ Status.Memory) }
{
    let Ok(events) = events(alloc, number, true) else {
        return Err(Status::Memory);
    };
    match play(alloc, events.as_slice(), store, DRILL_TIME) {
        Ok(answers) => refusal_of(answers),
        Err(_) => Err(Status::Memory),
    }
}

/// The table at the source's head.
fn source_table(alloc: Global, store: &mut MemoryStore) -> Result<Table, SourceError>
    ensures head { OnOk result
        ((head : Head) × IsDeltaHead (disk_of store.old).files head) }
    ensures table { IfOk result (IsTableAtHead (disk_of store.old).files) }
    ensures refused { IfErr result (IsTableRefusal (disk_of store.old).files) }
    ensures still { disk_of store.new ≡ disk_of store.old }
{
    let source = DeltaSource::new();
    match source.head(alloc, store) {
        Ok(head) => source.whole(alloc, store, &head),
        Err(error) => Err(error),
    }
}

/// The line of the source of the drill of a number, which has its commits.
fn line_of_source(alloc: Global, number: u64, store: &mut MemoryStore) -> Result<String, Status>
    requires leaves { LeavesDrill number (disk_of store.old).files }
    requires said { AreSaid number }
    ensures line { IfOk result (λ text. (history : History)
        → IsHistoryOf (drill_events number true) history
        → TellsLast (source_line number) history (string_bytes text)) }
    ensures refused { IfErr result (IsReadEnd (disk_of store.old).files) }
    ensures still { disk_of store.new ≡ disk_of store.old }
{
    match source_table(alloc, store) {
        Ok(table) => match source_line(alloc, number, &table.rows) {
            Ok(line) => Ok(line),
            Err(_) => Err(Status::Memory),
        },
        Err(error) => Err(status_of_source(error)),
    }
}

/// What a target keeps, to which a commit was published.
fn kept_of<T: Target>(alloc: Global, target: &T, store: &mut MemoryStore) -> Result<T::Kept, Status>
    requires ours { IsBroughtOnce (meaning ⟦<T as Target>⟧ target.now) (disk_of store.old).files }
    ensures view { IfOk result (λ kept. IsRead (meaning ⟦<T as Target>⟧ target.now)
        (disk_of store.old).files (T.view target.now kept)) }
    ensures refused { IfErr result (IsLookEnd (T.kind target.now)
        (T.is_crowded target.now Delta (disk_of store.old).files)) }
    ensures still { disk_of store.new ≡ disk_of store.old }
{
    match target.inspect(alloc, store, Kind::Delta) {
        Ok(Seen::Ours(kept)) => Ok(kept),
        Ok(Seen::Absent) => unreachable!(),
        Ok(Seen::Foreign(_)) => unreachable!(),
        Err(error) => Err(status_of_target(target.kind(), error)),
    }
}

/// The line of a target to which a commit was published.
fn line_of<T: Target>(alloc: Global, target: &T, store: &mut MemoryStore) -> Result<String, Status>
    requires ours { IsBroughtOnce (meaning ⟦<T as Target>⟧ target.now) (disk_of store.old).files }
    ensures line { IfOk result (λ text. TellsTarget (meaning ⟦<T as Target>⟧ target.now)
        (disk_of store.old).files (string_bytes text)) }
    ensures refused { IfErr result (IsLookEnd (T.kind target.now)
        (T.is_crowded target.now Delta (disk_of store.old).files)) }
    ensures still { disk_of store.new ≡ disk_of store.old }
{
    let kept = match kept_of(alloc, target, store) {
        Ok(kept) => kept,
        Err(refused) => return Err(refused),
    };
    match target_line(
        alloc,
        target.kind(),
        target.commits(&kept),
        &target.table(&kept).rows,
    ) {
        Ok(line) => Ok(line),
        Err(_) => Err(Status::Memory),
    }
}

/// The line of the Hudi target.
fn line_of_hudi(alloc: Global, store: &mut MemoryStore) -> Result<String, Status>
    requires ours { IsBroughtOnce meaning_of_hudi (disk_of store.old).files }
    ensures line { IfOk result (λ text. TellsTarget meaning_of_hudi (disk_of store.old).files
        (string_bytes text)) }
    ensures refused { IfErr result (IsReadEnd (disk_of store.old).files) }
    ensures still { disk_of store.new ≡ disk_of store.old }
{
    match HudiTarget::new(alloc, LOCATION) {
        Ok(target) => line_of(alloc, &target, store),
        Err(_) => Err(Status::Memory),
    }
}

/// The line of the Iceberg target.
fn line_of_iceberg(alloc: Global, store: &mut MemoryStore) -> Result<String, Status>
    requires ours { IsBroughtOnce meaning_of_iceberg (disk_of store.old).files }
    ensures line { IfOk result (λ text. TellsTarget meaning_of_iceberg (disk_of store.old).files
        (string_bytes text)) }
    ensures refused { IfErr result (IsReadEnd (disk_of store.old).files) }
    ensures still { disk_of store.new ≡ disk_of store.old }
{
    match IcebergTarget::new(alloc, LOCATION) {
        Ok(target) => line_of(alloc, &target, store),
        Err(_) => Err(Status::Memory),
    }
}

/// The lines that tell of the source and of both targets.
fn lines_of(alloc: Global, number: u64, store: &mut MemoryStore) -> Result<Summary, Status>
    requires leaves { LeavesDrill number (disk_of store.old).files }
    requires said { AreSaid number }
    ensures lines { IfOk result (λ lines. (history : History)
        → IsHistoryOf (drill_events number true) history
        → AreDrillLines number history (string_bytes lines.source
        ++ (string_bytes lines.hudi ++ string_bytes lines.iceberg))) }
    ensures refused { IfErr result (IsReadEnd (disk_of store.old).files) }
    ensures still { disk_of store.new ≡ disk_of store.old }
{
    let source = line_of_source(alloc, number, store)?;
    let hudi = line_of_hudi(alloc, store)?;
    let iceberg = line_of_iceberg(alloc, store)?;
    Ok(Summary {
        source,
        hudi,
        iceberg,
    })
}

/// Plays the drill of a number over a store, and prints what it leaves.
fn drill_over<O: Sink>(alloc: Global, number: u64, store: &mut FuseStore, out: &mut O) -> Status
    requires fresh { IsFresh store.old }
    requires unscripted { ¬ CanFail (script_of store.old) }
    ensures { Drills ⟦<O as Sink>⟧ number out.old out.new result store.new }
{
    match play_drill(alloc, number, store) {
        Ok(()) => match lines_of(alloc, number, store.inner()) {
            Ok(summary) => put_summary(out, &summary),
            Err(refused) => refused,
        },
        Err(refused) => refused,
    }
}

/// Plays the drill of a number over a store that it makes, prints a line of the source and one of
/// each target by a put of its own, and hands the store back as it stands. It ends with Done,
/// with Memory, or with SinkFault where the sink failed.
pub fn drill<O: Sink>(alloc: Global, number: u64, out: &mut O) -> (Status, FuseStore)
    ensures { Drills ⟦<O as Sink>⟧ number out.old out.new result.0 result.1 }
{
    let mut store = empty_fuse(alloc);
    let status = drill_over(alloc, number, &mut store, out);
    (status, store)
}
