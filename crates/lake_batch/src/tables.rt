//! Runs over the tables of a batch.
ghost use Rattle.std.specs.Prelude.{◌≡◌, ◌<◌, ◌^◌, ◌+◌, ◌++◌, ◌∷◌, ℕ, [], IfOk, IsTrue, ◌↔◌, string_bytes};
ghost use Rattle.lake_batch.specs.Tables.{AreWords, HaveRun, IsEnd, RanTable, RunsBatch, batch_line, done_count, table_line};
ghost use Rattle.sync_driver.specs.Both.{first_refusal};
ghost use Rattle.sync_driver.specs.Tellings.{Tells};

use crate::batch::{Batch, Item};
use crate::command::Commands;
use crate::lines::{batch_line, table_line};
use crate::part::Under;
use lake_store::{Clock, Sink, Store, Text};
use std::alloc::{AllocError, Global};
use sync_driver::{Status, put_line};

// ---- one table

// What a table's run is given: its line, its folder and its words.
#[derive(Drop)]
struct Given {
    line: Vec<u8>,
    folder: Text,
    words: Vec<String>,
}

// The place of a table in the folder.
fn place_in(alloc: Global, place: &str, folder: &Text) -> Result<String, AllocError>
    ensures { IfOk result (λ text. string_bytes text ≡ place.now ++ 47 ∷ folder.now) }
{
    let mut text = String::from_str(alloc, place)?;
    text.push_str("/")?;
    text.push_str(folder.as_str())?;
    Ok(text)
}

fn words_of(alloc: Global, place: &str, item: &Item) -> Result<Vec<String>, AllocError>
    ensures { IfOk result (λ words. AreWords place.now item.now words.items) }
{
    let mut words = Vec::new(alloc);
    words.push(place_in(alloc, place, &item.folder)?)?;
    for word in item.command.as_slice() {
        words.push(String::from_str(alloc, word.as_str())?)?;
    }
    Ok(words)
}

fn given_to(alloc: Global, place: &str, item: &Item) -> Result<Given, AllocError>
    ensures { IfOk result (λ given. (given.line.items ≡ table_line item.now.folder)
        × (given.folder ≡ item.now.folder) × AreWords place.now item.now given.words.items) }
{
    Ok(Given {
        line: table_line(alloc, &item.folder)?,
        folder: item.folder.copy(alloc)?,
        words: words_of(alloc, place, item)?,
    })
}

// Puts a table's line out and runs its command, unless the line is cut or memory runs out before.
fn run_table<R: Commands, S: Store, C: Clock, O: Sink>(
    commands: &R,
    alloc: Global,
    place: &str,
    item: &Item,
    store: S,
    clock: &mut C,
    out: &mut O,
) -> (S, Result<Status, Status>)
    ensures ran { RanTable ⟦<S as Store>⟧ ⟦<O as Sink>⟧ R.formats (C.gives clock.old) place.now item.now store result.0 out.old out.new result.1 }
    ensures still { (time : ℕ) → C.gives clock.new time → C.gives clock.old time }
{
    let Ok(given) = given_to(alloc, place, item) else {
        return (store, Err(Status::Memory));
    };
    match put_line(out, &given.line, Status::Done) {
        Status::Done => {}
        cut => return (store, Err(cut)),
    }
    let now = clock.now_ms();
    let under = Under::new(alloc, store, given.folder);
    let (store, status) = commands.run_part(alloc, given.words.as_slice(), under, now, out);
    (store, Ok(status))
}

// ---- all of them

// What the runs so far gave: how many are done, and the first status that isn't `Done`.
#[derive(Drop)]
struct Tally {
    done: usize,
    status: Status,
}

fn is_end(status: &Status) -> bool
    ensures { IsTrue result ↔ IsEnd status.now }
{
    matches!(
        status,
        Status::Memory | Status::StoreFault | Status::SinkFault
    )
}

impl Tally {
    // With one more status.
    fn with(self, status: Status) -> Tally
        requires { self.done < 2 ^ 63 }
        ensures done { result.done ≡ self.done + done_count (status ∷ []) }
        ensures status { result.status ≡ first_refusal self.status status }
    {
        let done = match status {
            Status::Done => self.done + 1,
            _ => self.done,
        };
        match self.status {
            Status::Done => Tally { done, status },
            so_far => Tally {
                done,
                status: so_far,
            },
        }
    }
}

// Runs the tables in order, until one ends the batch.
fn run_tables<R: Commands, S: Store, C: Clock, O: Sink>(
    commands: &R,
    alloc: Global,
    place: &str,
    tables: &[Item],
    store: S,
    clock: &mut C,
    out: &mut O,
) -> (S, Result<Tally, Status>)
    ensures { HaveRun ⟦<S as Store>⟧ ⟦<O as Sink>⟧ R.formats (C.gives clock.old) place.now tables.now store result.0 out.old out.new result.1 }
{
    let mut store = store;
    let mut tally = Tally {
        done: 0,
        status: Status::Done,
    };
    for item in tables {
        let (next, ran) = run_table(commands, alloc, place, item, store, clock, out);
        store = next;
        match ran {
            Ok(status) if !is_end(&status) => tally = tally.with(status),
            Ok(end) => return (store, Err(end)),
            Err(cut) => return (store, Err(cut)),
        }
    }
    (store, Ok(tally))
}

// Puts the last line out. The answer is the first status that isn't `Done`, unless the line is cut.
fn tell<O: Sink>(alloc: Global, tables: usize, tally: Tally, out: &mut O) -> Status
    ensures { Tells ⟦<O as Sink>⟧ out.old out.new (batch_line tables tally.done) tally.status result }
{
    match batch_line(alloc, tables, tally.done) {
        Ok(line) => put_line(out, &line, tally.status),
        Err(_) => Status::Memory,
    }
}

/// Runs the tables of a batch at this location in order, and puts its last line out.
pub(crate) fn run_batch<R: Commands, S: Store, C: Clock, O: Sink>(
    commands: &R,
    alloc: Global,
    place: &str,
    batch: &Batch,
    store: S,
    clock: &mut C,
    out: &mut O,
) -> (S, Status)
    ensures { RunsBatch ⟦<S as Store>⟧ ⟦<O as Sink>⟧ R.formats (C.gives clock.old) place.now batch.now.tables store result.0 out.old out.new result.1 }
{
    let tables = batch.tables.as_slice();
    let (store, ran) = run_tables(commands, alloc, place, tables, store, clock, out);
    match ran {
        Ok(tally) => (store, tell(alloc, tables.len(), tally, out)),
        Err(end) => (store, end),
    }
}
