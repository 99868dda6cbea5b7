//! Lists of events, played one after another.
ghost use Rattle.std.specs.Prelude.{◌≡◌, ◌≤◌, ◌<◌, ◌^◌, length, IfOk, OnOk};
ghost use Rattle.lake_basics.specs.declared.limits.TheConstants.{MAX_DELTA_VERSION};
ghost use Rattle.conformance.specs.Histories.{AreInOrder, IsHistoryOf};
ghost use Rattle.lake_store.specs.Fuse.{faults_of, fuse_disk, script_of};
ghost use Rattle.table_history.specs.History.{History};
ghost use Rattle.lake_play.specs.Causes.{AreCaused, IsFaulty, nothing_before};
ghost use Rattle.lake_play.specs.Playing.{Crashes, Plays, PlaysAll, nothing_played, with_answer};
ghost use Rattle.lake_play.specs.declared.playing.Progress.{Progress as Played};
ghost use Rattle.lake_play.specs.Standing.{BothHaveEachOnce, BothStand, IsFresh, LogHolds, answer_count};

use crate::log::{extend, shorten};
use crate::syncing::sync;
use conformance::Event;
use lake_basics::Items;
use lake_store::FuseStore;
use std::alloc::{AllocError, Global};
use target_sync::{Mode, Status};

/// How far a list of events was played.
#[derive(Drop)]
struct Progress {
    /// The first of the source's versions that is there.
    first: u64,
    /// How many versions were written.
    next: u64,
    /// What each sync answered.
    answers: Items<Status>,
}

impl Progress {
    fn new(alloc: Global) -> Progress
        ensures { result ≡ nothing_played }
    {
        Progress {
            first: 0,
            next: 0,
            answers: Items::new(alloc),
        }
    }

    fn with_answer(self, status: Status) -> Result<Progress, AllocError>
        ensures { IfOk result (λ after. after ≡ with_answer self status) }
    {
        let Progress {
            first,
            next,
            mut answers,
        } = self;
        answers.push(status)?;
        Ok(Progress {
            first,
            next,
            answers,
        })
    }
}

/// Makes one image of a crash of the store, which works again.
fn crash(alloc: Global, store: &mut FuseStore, choices: &[u64]) -> Result<(), AllocError>
    ensures { OnOk result (Crashes choices.now store.old store.new) }
{
    store.set_stop(None);
    store.inner().crash(alloc, choices)
}

/// Plays an event.
fn play_one(
    alloc: Global,
    event: &Event,
    store: &mut FuseStore,
    now_ms: u64,
    so_far: Progress,
) -> Result<Progress, AllocError>
    requires now { now_ms < 2 ^ 63 }
    requires within { so_far.next < MAX_DELTA_VERSION }
    ensures { IfOk result
        (λ after. Plays now_ms event.now so_far store.old after store.new) }
{
    match event {
        Event::Extend { bytes } => {
            extend(alloc, store, so_far.next, bytes.as_slice())?;
            Ok(Progress {
                next: so_far.next + 1,
                ..so_far
            })
        }
        Event::Shorten { below } => {
            let end = (*below).min(so_far.next);
            shorten(alloc, store, so_far.first, end)?;
            Ok(Progress {
                first: so_far.first.max(end),
                ..so_far
            })
        }
        Event::Sync { target } => {
            so_far.with_answer(sync(alloc, *target, store, Mode::Sync, now_ms))
        }
        Event::Full { target } => {
            so_far.with_answer(sync(alloc, *target, store, Mode::Full, now_ms))
        }
        Event::Stop { call } => {
            store.set_stop(Some(*call));
            Ok(so_far)
        }
        Event::Crash { choices } => {
            crash(alloc, store, choices.as_slice())?;
            Ok(so_far)
        }
    }
}

/// Plays the events one after another.
fn play_all(
    alloc: Global,
    events: &[Event],
    store: &mut FuseStore,
    now_ms: u64,
) -> Result<Progress, AllocError>
    requires { now_ms < 2 ^ 63 }
    ensures plays { IfOk result
        (λ after. PlaysAll now_ms events.now nothing_played store.old after store.new) }
    ensures few { length events.now ≤ 2 ^ 64 }
{
    let mut so_far = Progress::new(alloc);
    for event in events {
        so_far = play_one(alloc, event, store, now_ms, so_far)?;
    }
    Ok(so_far)
}

/// Plays a list of events over a store, and answers the status of each Sync and Full. The source is
/// a Delta table whose versions are numbered from 0 as they come; the targets are of the location
/// `/t`, and a sync of Delta itself is answered with Usage. A stop counts the calls of syncs alone.
/// Memory alone is refused.
pub fn play(
    alloc: Global,
    events: &[Event],
    store: &mut FuseStore,
    now_ms: u64,
) -> Result<Items<Status>, AllocError>
    requires now { now_ms < 2 ^ 63 }

    // The events were played one after another, each over what those before it left.
    ensures plays { IfOk result (λ answers. (after : Played) × (after.answers ≡ answers)
        × PlaysAll now_ms events.now nothing_played store.old after store.new) }

    // There is one answer for each Sync and Full.
    ensures answered { IfOk result (λ answers. length answers ≡ answer_count events.now) }

    // The log holds the commits, but for those that were removed.
    ensures log { AreInOrder 0 events.now → IsFresh store.old → IfOk result (λ _.
        (history : History) → IsHistoryOf events.now history
        → LogHolds events.now (fuse_disk store.new)) }

    // Each target stands at a table of the history that the commits make, whatever else happens, and
    // not before the one where a sync was last done.
    ensures stand { AreInOrder 0 events.now → IsFresh store.old → IfOk result (λ answers.
        (history : History) → IsHistoryOf events.now history
        → BothStand events.now answers history (fuse_disk store.new)) }

    // A target that was synced before each commit but the first has one commit for each table.
    ensures once { AreInOrder 0 events.now → IsFresh store.old → IfOk result (λ answers.
        (history : History) → IsHistoryOf events.now history
        → BothHaveEachOnce events.now answers history (fuse_disk store.new)) }

    // However they were played to these answers, each has its cause in the files that its sync had.
    ensures caused { AreInOrder 0 events.now → IsFresh store.old → IfOk result (λ answers.
        (history : History) → IsHistoryOf events.now history
        → (after : Played) → after.answers ≡ answers
        → (plays : PlaysAll now_ms events.now nothing_played store.old after store.new)
        → AreCaused (IsFaulty (script_of store.old) (faults_of store.old) (faults_of store.new))
        now_ms history nothing_before events.now nothing_played store.old after store.new plays) }
{
    let end = play_all(alloc, events, store, now_ms)?;
    let Progress { answers, .. } = end;
    Ok(answers)
}
