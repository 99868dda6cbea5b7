//! The standard output as a sink.
ghost use Rattle.std.specs.Prelude.{◌≡◌, ◌≤◌, [], ℕ, List};
ghost use Rattle.lake_store.specs.Cause.{Rose, count_of, count_ends as small};

use lake_store::{Sink, SinkError};
use std::io::{self, Write};

/// The standard output. Each piece is one write.
#[derive(Drop)]
pub struct StdSink<R> {
    rt: R,
    faults: u64,
}

impl<R: Print> StdSink<R> {
    /// The standard output of this program, with no fault so far.
    pub fn new(rt: R) -> StdSink<R> {
        StdSink { rt, faults: 0 }
    }

    fn fail(&mut self) -> SinkError
        ensures failed { result ≡ SinkError.Failed }
        ensures no_fewer { self.old.faults ≤ self.new.faults }
        ensures rose { Rose self.old.faults self.new.faults }
    {
        self.faults = self.faults.saturating_add(1);
        SinkError::Failed
    }
}

impl<R: Print> Sink for StdSink<R> {
    ghost tells = { ⊥ };

    ghost output = { λ _. [] };

    ghost faults = { λ s. count_of s.faults };

    ghost may_fail = { λ _. Unit {0} };

    ghost count_ends = { λ s. small s.faults };

    fn put(&mut self, bytes: &[u8]) -> Result<(), SinkError> {
        match io::writer(&self.rt).write_all(bytes) {
            Ok(()) => Ok(()),
            Err(_) => Err(self.fail()),
        }
    }
}
