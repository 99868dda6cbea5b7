//! Lists of events, played over a store without files, and drills.
use conformance::Event;
use lake_basics::{Blob, Items};
use lake_play::{drill, play};
use lake_store::{FuseStore, MemorySink, MemoryStore};
use rows::{Step, first_of, numbers_of};
use std::alloc::{AllocError, Global};
use store_rows::no_trouble;
use table_history::{FileRows, Kind};
use table_lines::rows_in_order;
use target_core::{Seen, Target};
use target_hudi::HudiTarget;
use target_iceberg::IcebergTarget;
use target_sync::Status;

/// The time at which events are played: 2024-01-05 12:00:00 UTC, in milliseconds since 1970.
const TIME: u64 = 1_704_456_000_000;

/// The location of the targets.
const LOCATION: &str = "/t";

/// The event of this word with a number.
fn numbered(word: &str, number: u64) -> Option<Event> {
    match word {
        "shorten" => Some(Event::Shorten { below: number }),
        "stop" => Some(Event::Stop { call: number }),
        _ => None,
    }
}

/// The event of this word with a format.
fn of_target(word: &str, target: Kind) -> Option<Event> {
    match word {
        "sync" => Some(Event::Sync { target }),
        "full" => Some(Event::Full { target }),
        _ => None,
    }
}

fn with_argument(word: &str, argument: &str) -> Option<Event> {
    if let Ok(number) = argument.parse::<u64>() {
        return numbered(word, number);
    }
    of_target(word, Kind::from_word(argument)?)
}

fn crash_of(alloc: Global, choices: &str) -> Result<Option<Event>, AllocError> {
    match numbers_of(alloc, choices)? {
        Some(numbers) => Ok(Some(Event::Crash {
            choices: Items::from_vec(numbers),
        })),
        None => Ok(None),
    }
}

fn extend_by(alloc: Global, step: &Step<'_>) -> Result<Option<Event>, AllocError> {
    let text = step.text(alloc)?;
    let bytes = Blob::from_slice(alloc, text.as_bytes())?;
    Ok(Some(Event::Extend { bytes }))
}

/// The event that a step says, if it says one.
pub(crate) fn event_of(alloc: Global, step: &Step<'_>) -> Result<Option<Event>, AllocError> {
    let (verb, rest) = first_of(step.words());
    match verb {
        "extend" => extend_by(alloc, step),
        "crash" => crash_of(alloc, rest),
        _ => Ok(with_argument(verb, rest)),
    }
}

/// The word of a status, with what it says.
fn show_status(status: &Status, shown: &mut String) -> Result<(), AllocError> {
    let number = status.number();
    match status {
        Status::Done => writeln!(shown, "done"),
        Status::Unsupported { feature, path, .. } => {
            writeln!(
                shown,
                "status {number}: {} {}",
                feature.word(),
                path.as_str()
            )
        }
        Status::Malformed { path } | Status::Foreign { path, .. } => {
            writeln!(shown, "status {number}: {}", path.as_str())
        }
        Status::Limit {
            which,
            number: most,
            ..
        } => writeln!(shown, "status {number}: {} {most}", which.word()),
        _ => writeln!(shown, "status {number}"),
    }
}

fn show_rows(alloc: Global, rows: &FileRows, shown: &mut String) -> Result<(), AllocError> {
    for row in rows_in_order(alloc, rows)? {
        write!(shown, " {}", row.path.as_str())?;
    }
    writeln!(shown)
}

/// Shows how many commits a target has, and its live files.
fn show_target<T: Target>(
    alloc: Global,
    target: &T,
    store: &mut FuseStore,
    shown: &mut String,
) -> Result<(), AllocError> {
    let word = target.kind().word();
    match target.inspect(alloc, store, Kind::Delta) {
        Ok(Seen::Ours(kept)) => {
            let commits = target.commits(&kept);
            write!(shown, "{word}: commits {commits},")?;
            show_rows(alloc, &target.table(&kept).rows, shown)
        }
        Ok(Seen::Absent) => writeln!(shown, "{word}: none"),
        Ok(Seen::Foreign(path)) => writeln!(shown, "{word}: foreign {}", path.as_str()),
        Err(_) => writeln!(shown, "{word}: not read"),
    }
}

fn show_targets(
    alloc: Global,
    store: &mut FuseStore,
    shown: &mut String,
) -> Result<(), AllocError> {
    let (Ok(hudi), Ok(iceberg)) = (
        HudiTarget::new(alloc, LOCATION),
        IcebergTarget::new(alloc, LOCATION),
    ) else {
        return Err(AllocError);
    };
    show_target(alloc, &hudi, store, shown)?;
    show_target(alloc, &iceberg, store, shown)
}

/// Plays the events over a store without files, and shows what each sync answers and where each
/// target stands then.
pub(crate) fn show_play(
    alloc: Global,
    events: &[Event],
    shown: &mut String,
) -> Result<(), AllocError> {
    let mut store = FuseStore::new(alloc, MemoryStore::new(alloc), no_trouble(alloc));
    let answers = play(alloc, events, &mut store, TIME)?;
    for answer in answers.as_slice() {
        show_status(answer, shown)?;
    }
    store.set_stop(None);
    show_targets(alloc, &mut store, shown)
}

/// Shows what the drill of a number prints, and how it ends.
pub(crate) fn show_drill(
    alloc: Global,
    number: &str,
    shown: &mut String,
) -> Result<(), AllocError> {
    let Ok(number) = number.parse::<u64>() else {
        return writeln!(shown, "no number");
    };
    let mut out = MemorySink::new(alloc, Vec::new(alloc));
    let (status, _store) = drill(alloc, number, &mut out);
    match str::from_utf8(out.bytes()) {
        Ok(text) => shown.push_str(text)?,
        Err(_) => writeln!(shown, "no text")?,
    }
    show_status(&status, shown)
}
