//! Where lines of output go.
ghost use Rattle.std.specs.Prelude.{◌≡◌, ◌≤◌, ◌-◌, ◌^◌, [], ◌++◌, List, ℕ, take, IsErrOf, OnErr, OnOk};
ghost use Rattle.lake_store.specs.Cause.{HasFault};

use std::alloc::{AllocError, Global};

/// Why bytes weren't put out.
#[derive(Clone, Copy, Debug, PartialEq, Eq, thiserror::Error)]
pub enum SinkError {
    #[error("out of memory")]
    Memory,
    #[error("the sink failed")]
    Failed,
}

impl From<AllocError> for SinkError {
    ghost use Rattle.std.specs.Prelude.{◌≡◌};
    ghost use Rattle.lake_store.specs.declared.sink.SinkError.TheVariants.{Memory};

    ghost from_gives = { λ _ e. e ≡ Memory };

    fn from(_: AllocError) -> Self {
        SinkError::Memory
    }
}

/// Where bytes are put out, one piece behind the other.
pub trait Sink {
    /// Whether contracts know what has gone out.
    ghost tells: { Type 0 };

    /// All that has gone out.
    ghost output: { Self → List ℕ };

    /// How often it has failed, up to the last number of 64 bits.
    ghost faults: { Self → ℕ };

    /// Whether a put may fail.
    ghost may_fail: { Self → Type 0 };

    /// The count doesn't pass the last number of 64 bits, at which it stands still.
    ghost count_ends: { (sink : Self) → faults sink ≤ 2 ^ 64 - 1 };

    /// Puts a piece out. After a refusal a front of it may have gone out.
    fn put(&mut self, bytes: &[u8]) -> Result<(), SinkError>
        ensures ok { tells → OnOk result (output self.new ≡ output self.old ++ bytes.now) }
        ensures err { tells → OnErr result
            ((n : ℕ) × (output self.new ≡ output self.old ++ take n bytes.now)) }
        ensures cause { HasFault faults may_fail self.old self.new
            (IsErrOf result SinkError.Failed) };
}

/// A sink in memory, whose puts of some numbers, from 0, fail.
#[derive(Drop)]
pub struct MemorySink {
    bytes: Vec<u8>,
    failing: Vec<u64>,
    puts: u64,
    faults: u64,
}

impl MemorySink {
    ghost use Rattle.lake_store.specs.Sink.{failing_of, output_of, puts_of, sink_faults_of};

    /// A sink to which nothing has gone out, and whose puts of these numbers fail.
    pub fn new(alloc: Global, failing: Vec<u64>) -> MemorySink
        ensures output { output_of result ≡ [] }
        ensures failing { failing_of result ≡ failing.items }
        ensures puts { puts_of result ≡ 0 }
        ensures faults { sink_faults_of result ≡ 0 }
    {
        MemorySink {
            bytes: Vec::new(alloc),
            failing,
            puts: 0,
            faults: 0,
        }
    }

    /// All that has gone out.
    pub fn bytes(&self) -> &[u8]
        ensures { result.now ≡ output_of self.now }
    {
        self.bytes.as_slice()
    }
}

impl Sink for MemorySink {
    ghost use Rattle.lake_store.specs.Cause.{count_ends};
    ghost use Rattle.lake_store.specs.Sink.{PutsByNumber, SinkCanFail, output_of, sink_faults_of};

    ghost tells = { Unit {0} };

    ghost output = { output_of };

    ghost faults = { sink_faults_of };

    ghost may_fail = { SinkCanFail };

    ghost count_ends = { λ s. count_ends s.faults };

    fn put(&mut self, bytes: &[u8]) -> Result<(), SinkError>
        ensures ok { OnOk result (output_of self.new ≡ output_of self.old ++ bytes.now) }
        ensures err { OnErr result
            ((n : ℕ) × (output_of self.new ≡ output_of self.old ++ take n bytes.now)) }
        ensures cause { HasFault sink_faults_of SinkCanFail self.old self.new
            (IsErrOf result SinkError.Failed) }
        ensures exact { PutsByNumber self.old self.new result }
    {
        let put = self.puts;
        self.puts = put.saturating_add(1);
        if self.failing.as_slice().contains(&put) {
            self.faults = self.faults.saturating_add(1);
            return Err(SinkError::Failed);
        }
        self.bytes.extend_from_slice(bytes)?;
        Ok(())
    }
}
