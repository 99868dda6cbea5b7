//! A commit that is read as its bytes come.

ghost use Rattle.std.specs.Prelude.{◌≡◌, ℕ, ◌-◌, ◌^◌, ◌<◌, List, length, Err, IfErr, IfOk};
ghost use Rattle.delta_log.specs.Judging.{Answers};
ghost use Rattle.delta_log.specs.Sound.{IsWritable};
ghost use Rattle.delta_feeding.specs.Feeding.{ended, fed, nothing_read, told};
ghost use Rattle.delta_feeding.specs.Laws.{IsAnswerFor};

use crate::so_far::LinesSoFar;
use delta_log::{DeltaCommit, DeltaError};
use std::alloc::Global;
use std::marker::Model;
use std::mem;

/// A commit of a Delta log (Delta protocol, "Actions") whose bytes come in pieces, cut anywhere.
/// Contracts see what has been read, or the refusal that was answered. Beside the commit and the
/// paths of its file actions it keeps the bytes behind the last newline, and the working space of its
/// lines.
#[derive(Drop)]
pub struct LineFeeder {
    alloc: Global,
    state: Result<LinesSoFar, DeltaError>,
}

impl Model for LineFeeder {
    ghost use Rattle.std.specs.Prelude.{Result};
    ghost use Rattle.delta_log.specs.declared.error.DeltaError.{DeltaError};
    ghost use Rattle.delta_feeding.specs.Feeding.{SoFar};

    ghost Value = { Result SoFar DeltaError };

    ghost view = { λ f. f.state };
}

fn fed_by(
    state: Result<LinesSoFar, DeltaError>,
    alloc: Global,
    piece: &[u8],
) -> Result<LinesSoFar, DeltaError>
    ensures fed { Answers result (fed state piece.now) }
    ensures refused { IfErr state (λ e. result ≡ Err e) }
{
    match state {
        Ok(lines) => lines.fed(alloc, piece),
        Err(error) => Err(error),
    }
}

fn ended_by(state: Result<LinesSoFar, DeltaError>, alloc: Global) -> Result<DeltaCommit, DeltaError>
    ensures ended { Answers result (ended state) }
    ensures refused { IfErr state (λ e. result ≡ Err e) }
    ensures sound { IfOk result IsWritable }
{
    match state {
        Ok(lines) => lines.ended(alloc),
        Err(error) => Err(error),
    }
}

fn told(state: &Result<LinesSoFar, DeltaError>) -> Result<(), DeltaError>
    ensures { result ≡ told state.now }
{
    match state {
        Ok(_) => Ok(()),
        Err(error) => Err(*error),
    }
}

impl LineFeeder {
    /// A feeder that has read nothing. It takes no memory yet.
    pub fn new(alloc: Global) -> LineFeeder
        ensures { result ≡ nothing_read }
    {
        LineFeeder {
            alloc,
            state: Ok(LinesSoFar::new(alloc)),
        }
    }

    /// Reads the next piece of the commit. It refuses the first line at fault, with the errors of
    /// `read_commit`, as soon as its newline has come. After a refusal, also for want of memory, it
    /// answers the same again.
    pub fn feed(&mut self, piece: &[u8]) -> Result<(), DeltaError>
        // What has been read is what the piece makes of it, unless memory runs out.
        ensures fed { Answers self.new (fed self.old piece.now) }
        // The answer is the refusal, where there is one.
        ensures told { result ≡ told self.new }
        // A refusal stays as it is.
        ensures refused { IfErr self.old (λ e. self.new ≡ Err e) }
    {
        let state = mem::replace(&mut self.state, Err(DeltaError::Memory));
        self.state = fed_by(state, self.alloc, piece);
        told(&self.state)
    }

    /// The commit that all pieces together are, or its first line at fault, as `read_commit` gives
    /// it. The bytes behind the last newline are the last line.
    pub fn finish(self) -> Result<DeltaCommit, DeltaError>
        // What is answered is what the end makes of what has been read, unless memory runs out.
        ensures ended { Answers result (ended self) }
        // Where these bytes have been read, it is what `read_commit` answers for them whole.
        ensures whole { (bytes : List ℕ) → self ≡ fed nothing_read bytes
            → length bytes < 2 ^ 64 - 1 → IsAnswerFor bytes result }
        // A refusal is answered again.
        ensures refused { IfErr self (λ e. result ≡ Err e) }
        // No names stand twice, and no paths: what is read may be written again, and make a change.
        ensures sound { IfOk result IsWritable }
    {
        let LineFeeder { alloc, state } = self;
        ended_by(state, alloc)
    }
}
