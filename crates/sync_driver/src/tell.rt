//! Putting a command's line out.
ghost use Rattle.std.specs.Prelude.{◌≡◌, IfOk};
ghost use Rattle.sync_driver.specs.Lines.{pending_line, refusal_line};
ghost use Rattle.sync_driver.specs.Tellings.{Puts, Tells, cut_of_put, put_status};

use crate::line::{line_of_refusal, pending_line};
use lake_store::{Sink, SinkError};
use source_core::Head;
use std::alloc::Global;
use target_sync::Status;

/// Puts the line out, if it isn't empty. The answer is the status that is due, unless the line is
/// cut.
pub fn put_line<O: Sink>(out: &mut O, line: &[u8], due: Status) -> Status
    ensures { Tells ⟦<O as Sink>⟧ out.old out.new line.now due result }
{
    if line.is_empty() {
        return due;
    }
    let put = out.put(line);
    match cut_of_put(put) {
        Ok(()) => due,
        Err(cut) => cut,
    }
}

/// Puts the line of a refusal out.
pub fn refuse<O: Sink>(alloc: Global, out: &mut O, due: Status) -> Status
    ensures { Tells ⟦<O as Sink>⟧ out.old out.new (refusal_line due) due result }
{
    match line_of_refusal(alloc, &due) {
        Ok(line) => put_line(out, &line, due),
        Err(_) => Status::Memory,
    }
}

/// How a command ends whose lines were put out so.
pub(crate) fn status_of_put(put: Result<(), SinkError>) -> Status
    ensures { result ≡ put_status put }
{
    match put {
        Ok(()) => Status::Done,
        Err(SinkError::Memory) => Status::Memory,
        Err(SinkError::Failed) => Status::SinkFault,
    }
}

/// What is left to do behind a put: nothing, where it was cut.
fn cut_of_put(put: Result<(), SinkError>) -> Result<(), Status>
    ensures { result ≡ cut_of_put put }
{
    match put {
        Ok(()) => Ok(()),
        Err(SinkError::Memory) => Err(Status::Memory),
        Err(SinkError::Failed) => Err(Status::SinkFault),
    }
}

/// Puts the line of the commit that is pending behind the head out, if one is. Where it is cut the
/// answer is how the command ends.
pub(crate) fn put_pending<O: Sink>(alloc: Global, out: &mut O, head: &Head) -> Result<(), Status>
    ensures { Puts ⟦<O as Sink>⟧ out.old out.new (pending_line head.now.pending) result }
{
    let Some(instant) = &head.pending else {
        return Ok(());
    };
    let Ok(line) = pending_line(alloc, instant) else {
        return Err(Status::Memory);
    };
    let put = out.put(&line);
    cut_of_put(put)
}
