//! Comparing a target with its source.
ghost use Rattle.std.specs.Prelude.{◌≡◌, ◌⊎◌, ◌≢◌, ◌↔◌, List, IfErr, IfOk, IsTrue, MatchOption, Some};
ghost use Rattle.std.specs.Ordering.{nat_cmp};
ghost use Rattle.std.specs.declared.cmp.Ordering.TheVariants.{Greater};
ghost use Rattle.std.specs.Cmp.Lexicographic.{slice_cmp};
ghost use Rattle.table_history.specs.Rows.{SameRows};
ghost use Rattle.table_history.specs.Tables.{IsDiff, LeadsTo};
ghost use Rattle.table_history.specs.declared.row.FileRow.{FileRow};
ghost use Rattle.target_core.specs.SeenView.{IsSeenSound};
ghost use Rattle.sync_driver.specs.Checked.{Checks, IsCheck, IsCompared, IsFirstDifference, IsKeptAtHead, IsMarkedAt, IsSeenRefusal, check_line, check_status};
ghost use Rattle.sync_driver.specs.Tellings.{Tells};
ghost use Rattle.target_sync.specs.Sources.{source_meaning};
ghost use Rattle.target_sync.specs.Targets.{target_facts};
ghost use Rattle.target_sync.specs.declared.status.Status.TheVariants as status;

use crate::line::same_line;
use crate::tell::{put_line, put_pending, refuse};
use lake_basics::Text;
use lake_store::{Sink, Store};
use source_core::{Head, Source};
use std::alloc::{AllocError, Global};
use std::cmp::Ordering;
use table_history::{Change, Kind, Table};
use target_core::{Seen, Target};
use target_sync::{Status, inspected, may_be_same, position_of, status_of_source};

/// What is told of a target that has the source's rows.
#[derive(Debug, Drop, PartialEq, Eq)]
pub struct Same {
    /// How many live files it has.
    pub files: u64,
    /// The source's position that it stands at.
    pub at: Text,
}

/// The path that is less in byte order.
fn lesser<'a>(path: &'a Text, other: &'a Text) -> &'a Text
    ensures { ((result.now ≡ path.now) × (slice_cmp nat_cmp path.now other.now ≢ Greater))
        ⊎ ((result.now ≡ other.now) × (slice_cmp nat_cmp path.now other.now ≡ Greater)) }
{
    match path.cmp(other) {
        Ordering::Greater => other,
        _ => path,
    }
}

/// The least path in byte order that the change takes out or puts in.
fn first_path(change: &Change) -> Option<&Text>
    ensures { (held rows : List FileRow)
        → LeadsTo held change.now.removed change.now.added rows
        → IsDiff held rows change.now.removed change.now.added
        → MatchOption result (SameRows held rows)
        (λ path. IsFirstDifference held rows path.now) }
{
    match (change.removed.get(0), change.added.get(0)) {
        (None, None) => None,
        (Some(lost), None) => Some(lost),
        (None, Some(new)) => Some(&new.path),
        (Some(lost), Some(new)) => Some(lesser(lost, &new.path)),
    }
}

/// The least path in byte order at which the rows of the two tables differ.
fn first_difference(alloc: Global, held: &Table, table: &Table) -> Result<Option<Text>, AllocError>
    ensures { IfOk result (λ path. MatchOption path (SameRows held.now.rows table.now.rows)
        (IsFirstDifference held.now.rows table.now.rows)) }
{
    let change = held.change_to(alloc, table)?;
    match first_path(&change) {
        None => Ok(None),
        Some(path) => Ok(Some(path.copy(alloc)?)),
    }
}

/// Whether the mark of what is kept is of the head's position, and of the source's table as far as
/// the two say.
fn is_marked_at<T: Target>(target: &T, head: &Head, kept: &T::Kept) -> bool
    ensures { IsTrue result ↔ IsMarkedAt head.now (T.view target.now kept.now) }
{
    match target.mark(kept) {
        Some(mark) => mark.to == head.position && may_be_same(&head.table, &mark.table),
        None => false,
    }
}

fn behind(alloc: Global, target: Kind, at: Option<Text>, head: &Head) -> Status
    ensures { (result ≡ status.Memory) ⊎ (result ≡ status.Behind target at head.now.position) }
{
    match head.position.copy(alloc) {
        Ok(head) => Status::Behind { target, at, head },
        Err(_) => Status::Memory,
    }
}

/// What is kept of a target whose mark is at the source's head.
fn kept_at_head<T: Target>(
    alloc: Global,
    head: &Head,
    target: &T,
    seen: Seen<T::Kept>,
    source: Kind,
) -> Result<T::Kept, Status>
    requires { IsSeenSound (T.view target.now) source seen }
    ensures kept { IfOk result (IsKeptAtHead (T.view target.now) head.now seen) }
    ensures refused { IfErr result (IsSeenRefusal (T.kind target.now) (T.view target.now) head.now
        seen) }
{
    match seen {
        Seen::Foreign(path) => Err(Status::Foreign {
            target: target.kind(),
            path,
        }),
        Seen::Absent => Err(behind(alloc, target.kind(), None, head)),
        Seen::Ours(kept) => {
            if is_marked_at(target, head, &kept) {
                return Ok(kept);
            }
            match position_of(alloc, target, &kept) {
                Ok(at) => Err(behind(alloc, target.kind(), Some(at), head)),
                Err(_) => Err(Status::Memory),
            }
        }
    }
}

/// Compares the rows of what is kept of a target with those of the source's table.
fn compared<T: Target>(
    alloc: Global,
    target: &T,
    kept: &T::Kept,
    table: &Table,
) -> Result<Same, Status>
    ensures { IsCompared (T.kind target.now) (T.view target.now kept.now) table.now result }
{
    let held = target.table(kept);
    match first_difference(alloc, held, table) {
        Ok(None) => match position_of(alloc, target, kept) {
            Ok(at) => Ok(Same {
                files: held.rows.len() as u64,
                at,
            }),
            Err(_) => Err(Status::Memory),
        },
        Ok(Some(path)) => Err(Status::Differs {
            target: target.kind(),
            path,
        }),
        Err(_) => Err(Status::Memory),
    }
}

/// Compares a target with the source's table at its head.
fn check_from<F: Source, T: Target, S: Store>(
    alloc: Global,
    source: &F,
    head: &Head,
    target: &T,
    store: &mut S,
) -> Result<Same, Status>
    requires head { S.tells → F.is_head source.now (S.disk store.old).files head.now }
    requires there { S.tells → ¬ F.is_absent source.now (S.disk store.old).files }
    ensures { IsCheck ⟦<S as Store>⟧ (source_meaning ⟦<F as Source>⟧ source.now)
        (target_facts ⟦<T as Target>⟧ target.now) store.old store.new (Some result) }
{
    let seen = inspected(alloc, target, store, source.kind())?;
    let kept = kept_at_head(alloc, head, target, seen, source.kind())?;
    match source.whole(alloc, store, head) {
        Ok(table) => compared(alloc, target, &kept, &table),
        Err(error) => Err(status_of_source(error)),
    }
}

/// Puts the line of what comparing a target answered out, and answers how that ended.
fn put_check<O: Sink>(
    alloc: Global,
    out: &mut O,
    target: Kind,
    answer: Result<Same, Status>,
) -> Status
    ensures { Tells ⟦<O as Sink>⟧ out.old out.new (check_line target (Some answer))
        (check_status (Some answer)) result }
{
    match answer {
        Ok(same) => match same_line(alloc, target, &same) {
            Ok(line) => put_line(out, &line, Status::Done),
            Err(_) => Status::Memory,
        },
        Err(status) => refuse(alloc, out, status),
    }
}

/// Compares a target with the source's table at its head, tells whether its mark is there and its
/// rows are those, and answers how that ended. No file changes.
pub fn check<F: Source, T: Target, S: Store, O: Sink>(
    alloc: Global,
    source: &F,
    target: &T,
    store: &mut S,
    out: &mut O,
) -> Status
    ensures { Checks ⟦<S as Store>⟧ ⟦<O as Sink>⟧ (source_meaning ⟦<F as Source>⟧ source.now)
        (target_facts ⟦<T as Target>⟧ target.now) store.old store.new out.old out.new result }
{
    let head = match source.head(alloc, store) {
        Ok(head) => head,
        Err(error) => return refuse(alloc, out, status_of_source(error)),
    };
    match put_pending(alloc, out, &head) {
        Ok(()) => {
            let answer = check_from(alloc, source, &head, target, store);
            put_check(alloc, out, target.kind(), answer)
        }
        Err(cut) => cut,
    }
}
