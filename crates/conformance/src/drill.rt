//! The events of the drill.
ghost use Rattle.std.specs.Prelude.{◌≡◌, ◌<◌, ◌≤◌, ◌+◌, ◌++◌, ◌∷◌, [], IfOk, OnOk};
ghost use Rattle.conformance.specs.Events.{commit_events, drill_events, is_stopped, is_sync_point, stopped_sync, sync_events, sync_points, syncs_behind, target_sync};
ghost use Rattle.conformance.specs.Drill.{AreSaid, SaysDrill, SpellsDrill, commit_count};
ghost use Rattle.conformance.specs.Histories.{AreLegal};

use crate::commit::bytes_at;
use crate::event::Event;
use crate::file::remainder;
use lake_basics::Items;
use std::alloc::{AllocError, Global};
use table_history::Kind;

/// How many commits the drill has.
const COMMITS: u64 = 200;

/// Whether the targets are synced after a commit.
fn is_sync_point(number: u64, commit: u64) -> bool
    ensures { result ≡ is_sync_point number commit }
{
    commit == 0 || commit == 199 || remainder(number, commit, 5) == 0
}

/// Whether the syncs of this number are stopped, where there are stops.
fn is_stopped(number: u64, sync: u64) -> bool
    ensures { result ≡ is_stopped number sync }
{
    remainder(number, sync, 3) == 1
}

/// The choices of the crash after a sync of this number that is stopped.
fn choices_at(alloc: Global, sync: u64) -> Result<Items<u64>, AllocError>
    requires few { sync ≤ 200 }
    ensures { IfOk result (λ choices.
        choices ≡ sync ∷ (sync + 1) ∷ (sync + 2) ∷ (sync + 3) ∷ []) }
{
    let choices = vec![in alloc; sync, sync + 1, sync + 2, sync + 3]?;
    Ok(Items::from_vec(choices))
}

/// Pushes a sync of this number that is stopped, a crash, and the sync again.
fn push_stopped(
    alloc: Global,
    events: &mut Vec<Event>,
    number: u64,
    sync: u64,
    target: Kind,
) -> Result<(), AllocError>
    requires few { sync ≤ 200 }
    ensures { OnOk result (events.new.items
        ≡ events.old.items ++ stopped_sync number sync target) }
{
    let call = remainder(number, 5 * sync, 23);
    let choices = choices_at(alloc, sync)?;
    events.push(Event::Stop { call })?;
    events.push(Event::Sync { target })?;
    events.push(Event::Crash { choices })?;
    events.push(Event::Sync { target })?;
    Ok(())
}

/// Pushes the sync of this number of a target.
fn push_sync(
    alloc: Global,
    events: &mut Vec<Event>,
    number: u64,
    stops: bool,
    sync: u64,
    target: Kind,
) -> Result<(), AllocError>
    requires few { sync ≤ 200 }
    ensures { OnOk result (events.new.items
        ≡ events.old.items ++ target_sync number stops sync target) }
{
    if stops && is_stopped(number, sync) {
        return push_stopped(alloc, events, number, sync, target);
    }
    events.push(Event::Sync { target })?;
    Ok(())
}

/// Pushes the syncs of this number of both targets.
fn push_syncs(
    alloc: Global,
    events: &mut Vec<Event>,
    number: u64,
    stops: bool,
    sync: u64,
) -> Result<(), AllocError>
    requires few { sync ≤ 200 }
    ensures { OnOk result (events.new.items
        ≡ events.old.items ++ sync_events number stops sync) }
{
    push_sync(alloc, events, number, stops, sync, Kind::Hudi)?;
    push_sync(alloc, events, number, stops, sync, Kind::Iceberg)
}

/// Pushes the syncs of this number after a commit, if there are some.
#[tactic(auto, using(crate::proofs::Syncs::no_syncs, crate::proofs::Syncs::some_syncs))]
fn push_due(
    alloc: Global,
    events: &mut Vec<Event>,
    number: u64,
    stops: bool,
    commit: u64,
    sync: u64,
) -> Result<(), AllocError>
    requires few { sync ≤ 200 }
    requires sync { sync ≡ sync_points number commit }
    ensures { OnOk result (events.new.items
        ≡ events.old.items ++ syncs_behind number stops commit) }
{
    if is_sync_point(number, commit) {
        push_syncs(alloc, events, number, stops, sync)?;
    }
    Ok(())
}

/// The number of the next syncs after a commit.
fn next_sync(number: u64, commit: u64, sync: u64) -> u64
    requires few { sync ≤ 200 }
    requires sync { sync ≡ sync_points number commit }
    ensures { result ≡ sync_points number (commit + 1) }
{
    if is_sync_point(number, commit) {
        sync + 1
    } else {
        sync
    }
}

/// Pushes a commit, and the syncs of this number after it, if there are some.
fn push_commit(
    alloc: Global,
    events: &mut Vec<Event>,
    number: u64,
    stops: bool,
    commit: u64,
    sync: u64,
) -> Result<(), AllocError>
    requires commit { commit < 200 }
    requires few { sync ≤ 200 }
    requires sync { sync ≡ sync_points number commit }
    ensures events { OnOk result (events.new.items
        ≡ events.old.items ++ commit_events number stops commit) }
    ensures says { OnOk result (SaysDrill number commit) }
    ensures spells { OnOk result (commit ≡ 0 → SpellsDrill) }
{
    let bytes = bytes_at(alloc, number, commit)?;
    events.push(Event::Extend { bytes })?;
    push_due(alloc, events, number, stops, commit, sync)?;
    Ok(())
}

/// The events of the drill of a number: 200 commits of a Delta table, and at some of them a sync of
/// Hudi and one of Iceberg; where there are stops, some syncs are stopped, crash and are done again.
/// What is read of a commit's bytes is the commit. Want of memory alone is refused.
pub fn events(alloc: Global, number: u64, stops: bool) -> Result<Items<Event>, AllocError>
    ensures events { IfOk result (λ events. events ≡ drill_events number stops) }
    ensures legal { IfOk result AreLegal }
    ensures said { OnOk result (AreSaid number) }
{
    let mut events = Vec::new(alloc);
    let mut sync = 0;
    for commit in 0..COMMITS {
        push_commit(alloc, &mut events, number, stops, commit, sync)?;
        sync = next_sync(number, commit, sync);
    }
    Ok(Items::from_vec(events))
}

/// How often the drill of a number syncs its targets. A sync that is stopped and done again counts
/// once.
pub fn sync_points(number: u64) -> u64
    ensures { result ≡ sync_points number commit_count }
{
    let mut sync = 0;
    for commit in 0..COMMITS {
        sync = next_sync(number, commit, sync);
    }
    sync
}
