//! The top call.
ghost use Rattle.lake_play.specs.Drilled.{Drills};
ghost use Rattle.lake_store.specs.declared.fuse.FuseStore.{FuseStore};
ghost use Rattle.sync_driver.specs.Answers.{Command};
ghost use Rattle.sync_driver.specs.Lines.{refusal_line};
ghost use Rattle.sync_driver.specs.Tellings.{Tells};
ghost use Rattle.target_sync.specs.declared.status.Status.TheVariants.{Usage};

use crate::compacting::compact_log;
use crate::formats::{bring, compare, print, sweep_at};
use crate::tell::refuse;
use crate::words::{Form, command_of};
use lake_play::drill;
use lake_store::{Clock, Sink, Store};
use source_core::Source;
use source_delta::DeltaSource;
use source_hudi::HudiSource;
use source_iceberg::IcebergSource;
use std::alloc::Global;
use target_core::Target;
use target_delta::DeltaTarget;
use target_hudi::HudiTarget;
use target_iceberg::IcebergTarget;
use target_sync::{Mode, Status};

/// Answers words that are no form.
pub fn refuse_words<O: Sink>(alloc: Global, out: &mut O) -> Status
    ensures { Tells ⟦<O as Sink>⟧ out.old out.new (refusal_line Usage) Usage result }
{
    refuse(alloc, out, Status::Usage)
}

/// Plays the drill of a number over a store of its own, which is let go, and answers how it ended.
fn play_drill<O: Sink>(alloc: Global, number: u64, out: &mut O) -> Status
    ensures { (store : FuseStore) × Drills ⟦<O as Sink>⟧ number out.old out.new result store }
{
    let (status, store) = drill(alloc, number, out);
    drop(store);
    status
}

/// Does what the words ask for, puts its line out, and answers how it ended. The first word is the
/// table's place, and the others are a form.
pub fn run<S: Store, C: Clock, O: Sink>(
    alloc: Global,
    words: &[String],
    store: &mut S,
    clock: &mut C,
    out: &mut O,
) -> Status
    ensures { Command ⟦<S as Store>⟧ ⟦<O as Sink>⟧ (record {
      delta = ⟦<DeltaSource as Source>⟧;
      hudi = ⟦<HudiSource as Source>⟧;
      iceberg = ⟦<IcebergSource as Source>⟧;
      to_delta = ⟦<DeltaTarget as Target>⟧;
      to_hudi = ⟦<HudiTarget as Target>⟧;
      to_iceberg = ⟦<IcebergTarget as Target>⟧;
    })
        (C.gives clock.old) words.now store.old store.new out.old out.new result }
{
    let Some(command) = command_of(words) else {
        return refuse(alloc, out, Status::Usage);
    };
    let location = command.location;
    match command.form {
        Form::Show(source) => print(alloc, source, store, out),
        Form::Sync(source, first, second) => {
            bring(
                alloc,
                source,
                first,
                second,
                location,
                store,
                Mode::Sync,
                clock.now_ms(),
                out,
            )
        }
        Form::Full(source, first, second) => {
            bring(
                alloc,
                source,
                first,
                second,
                location,
                store,
                Mode::Full,
                clock.now_ms(),
                out,
            )
        }
        Form::Check(source, target) => compare(alloc, source, target, location, store, out),
        Form::Sweep(target) => sweep_at(alloc, target, location, store, out),
        Form::Compact => compact_log(alloc, store, out),
        Form::Drill(number) => play_drill(alloc, number, out),
    }
}
