//! The lines of a commit so far, of which the last one isn't ended.

ghost use Rattle.std.specs.Prelude.{◌≡◌, ◌↔◌, ◌++◌, [], Ok, IfOk, IsTrue, MatchOption, false};
ghost use Rattle.std.specs.List.{list_any};
ghost use Rattle.delta_log.specs.Judging.{Answers, is_newline};
ghost use Rattle.delta_log.specs.Sound.{IsWritable};
ghost use Rattle.delta_feeding.specs.Feeding.{ended, fed, nothing_read, with_end};
ghost use Rattle.delta_feeding.specs.Cut.{IsCut};

use crate::lines::WholeLines;
use delta_log::{DeltaCommit, DeltaError, newline_in};
use lake_basics::Blob;
use std::alloc::Global;
use std::marker::Model;

/// The lines that a newline ends, and the bytes behind the last newline.
#[derive(Drop)]
pub(crate) struct LinesSoFar {
    whole: WholeLines,
    rest: Blob,
}

impl Model for LinesSoFar {
    ghost use Rattle.delta_feeding.specs.Feeding.{SoFar};

    ghost Value = { SoFar };

    ghost view = { λ s. record { whole = s.whole; rest = s.rest } };
}

/// The first line that a newline ends, and what stands behind the newline.
fn cut_line(bytes: &[u8]) -> Option<(&[u8], &[u8])>
    ensures { MatchOption result (list_any is_newline bytes.now ≡ false)
        (λ parts. IsCut bytes.now parts.0.now parts.1.now) }
{
    match newline_in(bytes) {
        None => None,
        Some(at) => Some((&bytes[..at], &bytes[at + 1..])),
    }
}

impl LinesSoFar {
    pub(crate) fn new(alloc: Global) -> LinesSoFar
        ensures { Ok result ≡ nothing_read }
    {
        LinesSoFar {
            whole: WholeLines::new(alloc),
            rest: Blob::new(alloc),
        }
    }

    /// The line that begins with these bytes is just these bytes. They aren't copied.
    fn with_only(self, alloc: Global, line: &[u8]) -> Result<LinesSoFar, DeltaError>
        requires { self.rest ≡ [] }
        ensures { Answers result (with_end self line.now) }
    {
        let LinesSoFar { whole, rest } = self;
        let closed = whole.with_next_line(alloc, line)?;
        Ok(LinesSoFar {
            whole: closed,
            rest,
        })
    }

    /// The unfinished line with these bytes behind is a line. Its room is kept.
    fn with_both(self, alloc: Global, end: &[u8]) -> Result<LinesSoFar, DeltaError>
        ensures { Answers result (with_end self end.now) }
    {
        let LinesSoFar { whole, rest } = self;
        let mut line = rest.into_vec();
        line.extend_from_slice(end)?;
        let closed = whole.with_next_line(alloc, line.as_slice())?;
        line.clear();
        Ok(LinesSoFar {
            whole: closed,
            rest: Blob::from_vec(line),
        })
    }

    fn begins_line(&self) -> bool
        ensures { IsTrue result ↔ (self.now.rest ≡ []) }
    {
        self.rest.as_slice().is_empty()
    }

    /// The unfinished line with these bytes behind is a line.
    fn with_end(self, alloc: Global, end: &[u8]) -> Result<LinesSoFar, DeltaError>
        ensures { Answers result (with_end self end.now) }
    {
        if self.begins_line() {
            return self.with_only(alloc, end);
        }
        self.with_both(alloc, end)
    }

    /// The unfinished line goes on with these bytes.
    fn with_rest(self, bytes: &[u8]) -> Result<LinesSoFar, DeltaError>
        requires { list_any is_newline bytes.now ≡ false }
        ensures { Answers result (Ok (record self { rest = self.rest ++ bytes.now })) }
    {
        let LinesSoFar { whole, rest } = self;
        let mut line = rest.into_vec();
        line.extend_from_slice(bytes)?;
        Ok(LinesSoFar {
            whole,
            rest: Blob::from_vec(line),
        })
    }

    /// What a piece more makes of it. Newlines are looked for in the piece alone.
    pub(crate) fn fed(self, alloc: Global, piece: &[u8]) -> Result<LinesSoFar, DeltaError>
        ensures { Answers result (fed (Ok self) piece.now) }
    {
        let mut lines = self;
        let mut rest = piece;
        while let Some((end, behind)) = cut_line(rest) {
            lines = lines.with_end(alloc, end)?;
            rest = behind;
        }
        lines.with_rest(rest)
    }

    /// The commit, where the bytes end here.
    #[tactic(auto, unfolding(crate::specs::Feeding::ended))]
    pub(crate) fn ended(self, alloc: Global) -> Result<DeltaCommit, DeltaError>
        ensures read { Answers result (ended (Ok self)) }
        ensures sound { IfOk result IsWritable }
    {
        let LinesSoFar { whole, rest } = self;
        let all = whole.with_next_line(alloc, rest.as_slice())?;
        Ok(all.into_commit())
    }
}
