//! What a target tells of the files in a store, and commits that are published to it.
ghost use Rattle.std.specs.Prelude.{◌≡◌, ◌<◌, ◌^◌, ◌⊎◌, IfOk, IfSome};
ghost use Rattle.lake_store.specs.Fuse.{fuse_disk};
ghost use Rattle.target_core.specs.Conditions.{GoesOn, IsPublishable};

use crate::shown::{show_table, show_target_error};
use lake_basics::Text;
use lake_store::FuseStore;
use std::alloc::{AllocError, Global};
use table_history::{Commit, Kind, Table};
use target_core::{Mark, Seen, Target, TargetError};

/// Adds what inspecting the target for a source of this format tells: whose it is, and the table where it is
/// ours.
pub fn tell_seen<T: Target>(
    alloc: Global,
    target: &T,
    store: &mut FuseStore,
    source: Kind,
    shown: &mut String,
) -> Result<(), AllocError> {
    match target.inspect(alloc, store, source) {
        Ok(Seen::Absent) => shown.push_str("absent\n"),
        Ok(Seen::Ours(kept)) => show_kept(alloc, target, &kept, shown),
        Ok(Seen::Foreign(path)) => writeln!(shown, "foreign {}", path.as_str()),
        Err(error) => show_target_error(&error, shown),
    }
}

/// Adds what is kept of a target: how many commits it has, the newest one's mark, and the table.
fn show_kept<T: Target>(
    alloc: Global,
    target: &T,
    kept: &T::Kept,
    shown: &mut String,
) -> Result<(), AllocError> {
    write!(shown, "ours: {} commits, ", target.commits(kept))?;
    show_mark(target.mark(kept), shown)?;
    show_table(alloc, target.table(kept), shown)
}

fn show_mark(mark: Option<&Mark>, shown: &mut String) -> Result<(), AllocError> {
    match mark {
        Some(mark) => writeln!(shown, "at {} to {}", mark.at.as_str(), mark.to.as_str()),
        None => shown.push_str("no mark\n"),
    }
}

/// Adds whether the commits of a source with these partition columns fit a target that has none yet.
pub fn tell_fit<T: Target>(
    alloc: Global,
    target: &T,
    partition: &[Text],
    commits: &[Commit],
    shown: &mut String,
) -> Result<(), AllocError> {
    match fit_fresh(alloc, target, partition, commits) {
        Ok(()) => shown.push_str("fits\n"),
        Err(error) => show_target_error(&error, shown),
    }
}

fn fit_fresh<T: Target>(
    alloc: Global,
    target: &T,
    partition: &[Text],
    commits: &[Commit],
) -> Result<(), TargetError> {
    let kept = target.fresh(alloc, partition)?;
    target.fits(alloc, &kept, partition, commits)
}

// ---- publishing

/// What a mark says of a commit's source, and the time in milliseconds since 1970-01-01.
#[derive(Drop)]
pub struct Origin<'a> {
    pub source: Kind,
    pub table: Option<Text>,
    pub position: &'a str,
    pub now_ms: u64,
    ghost past: { now_ms < 2 ^ 63 },
}

/// What is kept of the target, or nothing where it is foreign.
fn kept_of<T: Target>(
    alloc: Global,
    target: &T,
    store: &mut FuseStore,
    source: Kind,
    partition: &[Text],
) -> Result<Option<T::Kept>, TargetError>
    ensures goes_on { IfOk result
        (λ kept. IfSome kept (λ k. GoesOn source (T.view target.now k))) }
    ensures counted { IfOk result (λ kept. IfSome kept
        (λ k. T.counted target.now k (fuse_disk store.new).files)) }
    ensures columns { IfOk result (λ kept. IfSome kept
        (λ k. ((T.view target.now k).table.partition ≡ partition.now)
        ⊎ (0 < (T.view target.now k).commits))) }
{
    match target.inspect(alloc, store, source)? {
        Seen::Absent => Ok(Some(target.fresh(alloc, partition)?)),
        Seen::Ours(kept) => Ok(Some(kept)),
        Seen::Foreign(_) => Ok(None),
    }
}

/// Publishes what leads from the target's table to this one as one commit, which states the table's schema
/// where it is another than the target's. Answers whether the target isn't foreign.
fn publish<T: Target>(
    alloc: Global,
    target: &T,
    store: &mut FuseStore,
    table: &Table,
    origin: &Origin<'_>,
) -> Result<bool, TargetError>
    requires { IsPublishable table.now }
{
    let partition = table.partition.as_slice();
    let Some(mut kept) = kept_of(alloc, target, store, origin.source, partition)? else {
        return Ok(false);
    };
    let commit = Commit {
        position: Text::from_str(alloc, origin.position)?,
        change: target.table(&kept).change_to(alloc, table)?,
    };
    let commits = [commit];
    target.fits(alloc, &kept, partition, &commits)?;
    let [commit] = &commits;
    target.commit(
        alloc,
        store,
        &mut kept,
        commit,
        origin.source,
        origin.table.as_ref(),
        origin.now_ms,
    )?;
    Ok(true)
}

/// Publishes what leads from the target's table to this one as one commit, and adds whether it is published
/// or why it isn't.
pub fn tell_publication<T: Target>(
    alloc: Global,
    target: &T,
    store: &mut FuseStore,
    table: &Table,
    origin: &Origin<'_>,
    shown: &mut String,
) -> Result<(), AllocError>
    requires { IsPublishable table.now }
{
    match publish(alloc, target, store, table, origin) {
        Ok(true) => shown.push_str("published\n"),
        Ok(false) => shown.push_str("foreign\n"),
        Err(error) => show_target_error(&error, shown),
    }
}
