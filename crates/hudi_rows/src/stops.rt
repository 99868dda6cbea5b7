//! Commits that stop at each of their calls, a crash, and the next commit.
use hudi_commit::publish_commit;
use hudi_names::read_time;
use lake_store::{FuseStore, Store, StoreError};
use rows::Step;
use std::alloc::{AllocError, Global};
use table_rows::empty_store;

const PROPERTIES: &[u8] = b"hoodie.table.name=t\n";

/// What becomes of the files that a crash may damage.
const CRASHES: [&[u64]; 3] = [&[0, 0, 0, 0], &[2, 2, 2, 2], &[5, 0, 2, 1]];

/// More calls than a commit makes.
const CALLS: u64 = 16;

/// Publishes a commit whose text is its instant, where that isn't completed.
fn commit<S: Store>(
    alloc: Global,
    store: &mut S,
    properties: Option<&[u8]>,
    instant: &str,
) -> Result<(), StoreError> {
    let path = format!(in alloc; ".hoodie/{instant}.replacecommit")?;
    match read_time(instant.as_bytes()) {
        None => Ok(()),
        Some(_) => match store.read(alloc, path.as_str())? {
            Some(_) => Ok(()),
            None => publish_commit(alloc, store, properties, instant, instant.as_bytes()),
        },
    }
}

/// The names in the timeline's folder, then those in the claims'.
fn names<S: Store>(alloc: Global, store: &mut S) -> Result<String, StoreError> {
    let mut joined = String::new(alloc);
    for folder in [".hoodie", ".hoodie/.lakebridge"] {
        for name in store.list(alloc, folder)?.as_slice() {
            write!(joined, " {}", name.as_str())?;
        }
    }
    Ok(joined)
}

/// The times of a commit that is published before, of the one that stops, and of the next one.
#[derive(Clone, Copy)]
struct Times<'a> {
    before: Option<&'a str>,
    stopped: &'a str,
    next: &'a str,
}

/// What stands in an empty store after the commits, where the one that stops does so at this call, and a crash.
fn after_stop(
    alloc: Global,
    store: &mut FuseStore,
    times: Times<'_>,
    stop: u64,
    choices: &[u64],
) -> Result<String, StoreError> {
    let mut properties = Some(PROPERTIES);
    if let Some(before) = times.before {
        commit(alloc, store, properties, before)?;
        properties = None;
    }
    store.set_stop(Some(stop));
    if commit(alloc, store, properties, times.stopped).is_ok() {
        properties = None;
    }
    store.set_stop(None);
    store.inner().crash(alloc, choices)?;
    commit(alloc, store, properties, times.next)?;
    names(alloc, store)
}

fn outcome_in(
    alloc: Global,
    store: &mut FuseStore,
    times: Times<'_>,
    stop: u64,
    choices: &[u64],
) -> Result<String, AllocError> {
    match after_stop(alloc, store, times, stop, choices) {
        Ok(names) => Ok(names),
        Err(StoreError::Memory) => Err(AllocError),
        Err(error) => format!(in alloc; " {error:?}"),
    }
}

fn outcome(
    alloc: Global,
    times: Times<'_>,
    stop: u64,
    choices: &[u64],
) -> Result<String, AllocError> {
    let mut store = empty_store(alloc);
    outcome_in(alloc, &mut store, times, stop, choices)
}

/// Adds what stands after a stop at this call and a crash, where it is another than the last.
fn tell_stop(
    alloc: Global,
    times: Times<'_>,
    stop: u64,
    choices: &[u64],
    last: &mut String,
    shown: &mut String,
) -> Result<(), AllocError> {
    let names = outcome(alloc, times, stop, choices)?;
    if names.as_str() == last.as_str() {
        return Ok(());
    }
    writeln!(shown, "from call {stop} on:{}", names.as_str())?;
    *last = names;
    Ok(())
}

/// Adds what stands after a stop at each call and each crash: a line where it is another than after the one
/// before.
fn tell_stops(alloc: Global, times: Times<'_>, shown: &mut String) -> Result<(), AllocError> {
    let mut last = String::new(alloc);
    for stop in 0..CALLS {
        for choices in CRASHES {
            tell_stop(alloc, times, stop, choices, &mut last, shown)?;
        }
    }
    Ok(())
}

/// The times that words `stops of TIME before NEXT` and `stops of TIME behind TIME before NEXT` say.
fn times_of<'a>(step: &Step<'a>) -> Times<'a> {
    let stopped = step.word_at(2);
    match step.word_at(3) {
        "behind" => Times {
            before: Some(step.word_at(4)),
            stopped,
            next: step.word_at(6),
        },
        _ => Times {
            before: None,
            stopped,
            next: step.word_at(4),
        },
    }
}

/// Does a step on commits of which one stops.
pub(crate) fn tell_stops_step(
    alloc: Global,
    step: &Step<'_>,
    shown: &mut String,
) -> Result<(), AllocError> {
    tell_stops(alloc, times_of(step), shown)
}
