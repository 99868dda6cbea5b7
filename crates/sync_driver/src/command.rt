//! A sync of one target with its lines.
ghost use Rattle.std.specs.Prelude.{◌≡◌, ◌<◌, ◌^◌, Some};
ghost use Rattle.sync_driver.specs.Commands.{Syncs, answer_line, answer_status};
ghost use Rattle.target_sync.specs.Sources.{source_meaning};
ghost use Rattle.target_sync.specs.Targets.{target_facts};
ghost use Rattle.sync_driver.specs.Tellings.{Tells};

use crate::line::report_line;
use crate::tell::{put_line, put_pending, refuse};
use lake_store::{Sink, Store};
use source_core::{Head, Source};
use std::alloc::Global;
use table_history::Kind;
use target_core::Target;
use target_sync::{Mode, Report, Status, status_of_source, sync_from};

/// Puts the line of a target out, and answers how that ended.
pub(crate) fn put_answer<O: Sink>(
    alloc: Global,
    out: &mut O,
    target: Kind,
    answer: Result<Report, Status>,
) -> Status
    ensures { Tells ⟦<O as Sink>⟧ out.old out.new (answer_line target (Some answer))
        (answer_status (Some answer)) result }
{
    match answer {
        Ok(report) => match report_line(alloc, target, &report) {
            Ok(line) => put_line(out, &line, Status::Done),
            Err(_) => Status::Memory,
        },
        Err(status) => refuse(alloc, out, status),
    }
}

/// Brings a target to the source's head, puts the lines out, and answers how that ended.
pub(crate) fn sync_target<F: Source, T: Target, S: Store, O: Sink>(
    alloc: Global,
    source: &F,
    target: &T,
    store: &mut S,
    mode: Mode,
    now_ms: u64,
    out: &mut O,
) -> Status
    requires now { now_ms < 2 ^ 63 }
    ensures { Syncs ⟦<S as Store>⟧ ⟦<O as Sink>⟧ (source_meaning ⟦<F as Source>⟧ source.now)
        (target_facts ⟦<T as Target>⟧ target.now) mode now_ms store.old store.new out.old out.new
        result }
{
    let head = match source.head(alloc, store) {
        Ok(head) => head,
        Err(error) => return refuse(alloc, out, status_of_source(error)),
    };
    match put_pending(alloc, out, &head) {
        Ok(()) => {
            let answer = sync_from(alloc, source, &head, target, store, mode, now_ms);
            put_answer(alloc, out, target.kind(), answer)
        }
        Err(cut) => cut,
    }
}
