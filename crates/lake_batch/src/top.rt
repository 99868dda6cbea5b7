//! The top call over all words.
ghost use Rattle.std.specs.Prelude.{◌≡◌, MatchOption};
ghost use Rattle.lake_batch.specs.Whole.{IsBatchCommand, IsNoBatch, RunsAll, RunsFile, TellsWhy, batch_number};

use crate::batch::Why;
use crate::command::{Bridge, Commands};
use crate::file::{FileError, read_file};
use crate::lines::why_line;
use crate::tables::run_batch;
use lake_store::{Clock, Sink, Store};
use source_core::Source;
use source_delta::DeltaSource;
use source_hudi::HudiSource;
use source_iceberg::IcebergSource;
use std::alloc::Global;
use sync_driver::{Status, location_in, put_line, refuse, run};
use table_history::path_form;
use target_core::Target;
use target_delta::DeltaTarget;
use target_hudi::HudiTarget;
use target_iceberg::IcebergTarget;

/// How the words end.
#[derive(Debug, Drop)]
pub enum BatchStatus {
    /// As one command does, or as the first table of the batch that isn't done.
    Run(Status),
    /// The file is no batch, and no table was run.
    File { why: Why },
}

impl BatchStatus {
    /// The exit status of the process: 15 where the file is no batch.
    pub fn number(&self) -> u8
        ensures { result ≡ batch_number self.now }
    {
        match self {
            BatchStatus::Run(status) => status.number(),
            BatchStatus::File { .. } => 15,
        }
    }
}

// The location and the file of a batch, where the words are one.
fn batch_words(words: &[String]) -> Option<(&str, &str)>
    ensures { MatchOption result (IsNoBatch words.now)
        (λ batch. IsBatchCommand words.now batch.0.now batch.1.now) }
{
    let [_, verb, file] = words else {
        return None;
    };
    if verb.as_str() != "batch" || !path_form(file.as_str().as_bytes()) {
        return None;
    }
    let place = location_in(words)?;
    Some((place, file.as_str()))
}

// Puts the line of a file that is no batch out.
fn tell_why<O: Sink>(alloc: Global, out: &mut O, why: Why) -> BatchStatus
    ensures { TellsWhy ⟦<O as Sink>⟧ out.old out.new why result }
{
    let Ok(line) = why_line(alloc, why) else {
        return BatchStatus::Run(Status::Memory);
    };
    match put_line(out, &line, Status::Done) {
        Status::Done => BatchStatus::File { why },
        cut => BatchStatus::Run(cut),
    }
}

// Reads the batch's file, and runs its tables.
fn run_file<R: Commands, S: Store, C: Clock, O: Sink>(
    commands: &R,
    alloc: Global,
    place: &str,
    file: &str,
    store: S,
    clock: &mut C,
    out: &mut O,
) -> (S, BatchStatus)
    ensures { RunsFile ⟦<S as Store>⟧ ⟦<O as Sink>⟧ R.formats (C.gives clock.old) place.now file.now store result.0 out.old out.new result.1 }
{
    let mut store = store;
    match read_file(alloc, place, file, &mut store) {
        Ok(batch) => {
            let (store, status) = run_batch(commands, alloc, place, &batch, store, clock, out);
            (store, BatchStatus::Run(status))
        }
        Err(FileError::Memory) => (store, BatchStatus::Run(Status::Memory)),
        Err(FileError::Failed) => (
            store,
            BatchStatus::Run(refuse(alloc, out, Status::StoreFault)),
        ),
        Err(FileError::No(why)) => (store, tell_why(alloc, out, why)),
    }
}

/// Does what the words ask for, and answers how it ended. A place, `batch` and a file's path run one
/// command for each table of that file, over a store that sees the table's folder alone. All other
/// words are one command over the whole store. The store is handed back in any case.
pub fn run_all<S: Store, C: Clock, O: Sink>(
    alloc: Global,
    words: &[String],
    store: S,
    clock: &mut C,
    out: &mut O,
) -> (S, BatchStatus)
    ensures { RunsAll ⟦<S as Store>⟧ ⟦<O as Sink>⟧ (record {
      delta = ⟦<DeltaSource as Source>⟧;
      hudi = ⟦<HudiSource as Source>⟧;
      iceberg = ⟦<IcebergSource as Source>⟧;
      to_delta = ⟦<DeltaTarget as Target>⟧;
      to_hudi = ⟦<HudiTarget as Target>⟧;
      to_iceberg = ⟦<IcebergTarget as Target>⟧;
    })
        (C.gives clock.old) words.now store result.0 out.old out.new result.1 }
{
    match batch_words(words) {
        Some((place, file)) => run_file(&Bridge, alloc, place, file, store, clock, out),
        None => {
            let mut store = store;
            let status = run(alloc, words, &mut store, clock, out);
            (store, BatchStatus::Run(status))
        }
    }
}
