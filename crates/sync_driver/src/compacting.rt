//! Compacting a Delta log, and what is told of it.
ghost use Rattle.std.specs.Prelude.{◌≡◌};
ghost use Rattle.sync_driver.specs.Compacted.{TellsCompaction, compacted_status, compacted_text, status_of_compact};
ghost use Rattle.sync_driver.specs.Tellings.{Tells};

use crate::line::compacted_line;
use crate::tell::{put_line, refuse};
use delta_compact::{CompactFault, Compacted, compact};
use lake_store::{Sink, Store};
use std::alloc::Global;
use table_history::Kind;
use target_sync::{Side, Status};

/// How a command ends whose Delta log wasn't compacted for this.
fn status_of_compact(fault: CompactFault) -> Status
    ensures { result ≡ status_of_compact fault }
{
    match fault {
        CompactFault::Memory => Status::Memory,
        CompactFault::Absent => Status::Absent,
        CompactFault::Malformed { path } => Status::Malformed { path },
        CompactFault::Unsupported { feature, path } => Status::Unsupported {
            side: Side::Source,
            feature,
            path,
        },
        CompactFault::Limit { which, number } => Status::Limit {
            side: Side::Source,
            which,
            number,
        },
        CompactFault::Contested => Status::Contested {
            target: Kind::Delta,
        },
        CompactFault::Stale { path } => Status::Stale { path },
        CompactFault::StoreFault => Status::StoreFault,
    }
}

/// Puts the line of a compaction out, and answers how that ended.
fn put_compaction<O: Sink>(
    alloc: Global,
    out: &mut O,
    answer: Result<Compacted, CompactFault>,
) -> Status
    ensures { Tells ⟦<O as Sink>⟧ out.old out.new (compacted_text answer)
        (compacted_status answer) result }
{
    match answer {
        Ok(compacted) => match compacted_line(alloc, compacted) {
            Ok(line) => put_line(out, &line, Status::Done),
            Err(_) => Status::Memory,
        },
        Err(fault) => refuse(alloc, out, status_of_compact(fault)),
    }
}

/// Writes the log compactions of a Delta log that aren't there, tells of them, and answers how that
/// ended.
pub(crate) fn compact_log<S: Store, O: Sink>(alloc: Global, store: &mut S, out: &mut O) -> Status
    ensures { TellsCompaction ⟦<S as Store>⟧ ⟦<O as Sink>⟧ store.old store.new out.old out.new
        result }
{
    let answer = compact(alloc, store);
    put_compaction(alloc, out, answer)
}
