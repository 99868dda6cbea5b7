//! Putting the lines of a drill out, one by one.
ghost use Rattle.std.specs.Prelude.{◌≡◌, ◌++◌, ℕ, IsErrOf, OnErr, OnOk, string_bytes, take};
ghost use Rattle.lake_store.specs.Cause.{HasFault};
ghost use Rattle.lake_play.specs.Drilled.{PutsText};

use crate::summary::Summary;
use lake_store::{Sink, SinkError};
use target_sync::Status;

/// Puts a line out, and then another one.
fn put_two<O: Sink>(out: &mut O, first: &[u8], second: &[u8]) -> Result<(), SinkError>
    ensures ok { O.tells → OnOk result
        (O.output out.new ≡ O.output out.old ++ (first.now ++ second.now)) }
    ensures err { O.tells → OnErr result
        ((n : ℕ) × (O.output out.new ≡ O.output out.old ++ take n (first.now ++ second.now))) }
    ensures cause { HasFault O.faults O.may_fail out.old out.new (IsErrOf result SinkError.Failed) }
{
    out.put(first)?;
    out.put(second)
}

/// Puts a line out, and then two others.
fn put_three<O: Sink>(
    out: &mut O,
    first: &[u8],
    second: &[u8],
    third: &[u8],
) -> Result<(), SinkError>
    ensures ok { O.tells → OnOk result
        (O.output out.new ≡ O.output out.old ++ (first.now ++ (second.now ++ third.now))) }
    ensures err { O.tells → OnErr result ((n : ℕ) × (O.output out.new
        ≡ O.output out.old ++ take n (first.now ++ (second.now ++ third.now)))) }
    ensures cause { HasFault O.faults O.may_fail out.old out.new (IsErrOf result SinkError.Failed) }
{
    out.put(first)?;
    put_two(out, second, third)
}

/// Puts the lines out, and answers how that ended.
pub(crate) fn put_summary<O: Sink>(out: &mut O, summary: &Summary) -> Status
    ensures { PutsText ⟦<O as Sink>⟧ out.old out.new (string_bytes summary.now.source
        ++ (string_bytes summary.now.hudi ++ string_bytes summary.now.iceberg)) result }
{
    let source = summary.source.as_bytes();
    let hudi = summary.hudi.as_bytes();
    let iceberg = summary.iceberg.as_bytes();
    match put_three(out, source, hudi, iceberg) {
        Ok(()) => Status::Done,
        Err(SinkError::Memory) => Status::Memory,
        Err(SinkError::Failed) => Status::SinkFault,
    }
}
