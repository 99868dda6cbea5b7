//! Samples and events, shown.
use conformance::{Event, events, vector};
use lake_basics::Items;
use rows::{first_of, hex_of};
use std::alloc::{AllocError, Global};

/// Shows a sample in hexadecimal digits.
pub(crate) fn show_vector(
    alloc: Global,
    index: &str,
    shown: &mut String,
) -> Result<(), AllocError> {
    let Ok(index) = index.parse::<u32>() else {
        return writeln!(shown, "no number");
    };
    match vector(alloc, index)? {
        Some(bytes) => {
            let text = hex_of(alloc, bytes.as_slice())?;
            writeln!(shown, "{text}")
        }
        None => writeln!(shown, "none"),
    }
}

/// Shows an event: the text of a commit, or the event's words.
fn show(event: &Event, shown: &mut String) -> Result<(), AllocError> {
    match event {
        Event::Extend { bytes } => match str::from_utf8(bytes.as_slice()) {
            Ok(text) => shown.push_str(text),
            Err(_) => writeln!(shown, "no text"),
        },
        Event::Shorten { below } => writeln!(shown, "shorten {below}"),
        Event::Sync { target } => writeln!(shown, "sync {}", target.word()),
        Event::Full { target } => writeln!(shown, "full {}", target.word()),
        Event::Stop { call } => writeln!(shown, "stop {call}"),
        Event::Crash { choices } => show_choices(choices.as_slice(), shown),
    }
}

fn show_choices(choices: &[u64], shown: &mut String) -> Result<(), AllocError> {
    shown.push_str("crash")?;
    for choice in choices {
        write!(shown, " {choice}")?;
    }
    writeln!(shown)
}

/// The events of the drill of a number, or with `stopped` behind it of the drill with stops.
pub(crate) fn events_of(alloc: Global, drill: &str) -> Result<Option<Items<Event>>, AllocError> {
    let (number, word) = first_of(drill);
    match number.parse::<u64>() {
        Ok(number) => Ok(Some(events(alloc, number, word == "stopped")?)),
        Err(_) => Ok(None),
    }
}

/// Shows the event at this place of a drill, counted from 0.
pub(crate) fn show_event(alloc: Global, words: &str, shown: &mut String) -> Result<(), AllocError> {
    let Some((place, drill)) = words.split_once(" of ") else {
        return writeln!(shown, "no number");
    };
    match (place.parse::<usize>(), events_of(alloc, drill)?) {
        (Ok(place), Some(list)) => show_at(list.as_slice(), place, shown),
        _ => writeln!(shown, "no number"),
    }
}

fn show_at(list: &[Event], place: usize, shown: &mut String) -> Result<(), AllocError> {
    match list.get(place) {
        Some(event) => show(event, shown),
        None => writeln!(shown, "none"),
    }
}
