//! How many events of each kind there are.
use crate::samples::events_of;
use conformance::Event;
use std::alloc::{AllocError, Global};

/// How many events there are of each kind.
#[derive(Clone, Copy)]
struct Counts {
    extend: usize,
    sync: usize,
    stop: usize,
    crash: usize,
    others: usize,
}

/// The counts with one more event.
fn counted(counts: Counts, event: &Event) -> Counts {
    let mut more = counts;
    match event {
        Event::Extend { .. } => more.extend = counts.extend.saturating_add(1),
        Event::Sync { .. } => more.sync = counts.sync.saturating_add(1),
        Event::Stop { .. } => more.stop = counts.stop.saturating_add(1),
        Event::Crash { .. } => more.crash = counts.crash.saturating_add(1),
        _ => more.others = counts.others.saturating_add(1),
    }
    more
}

fn counts_of(events: &[Event]) -> Counts {
    let mut counts = Counts {
        extend: 0,
        sync: 0,
        stop: 0,
        crash: 0,
        others: 0,
    };
    for event in events {
        counts = counted(counts, event);
    }
    counts
}

/// Shows how many events of each kind a drill has.
pub(crate) fn show_counts(
    alloc: Global,
    drill: &str,
    shown: &mut String,
) -> Result<(), AllocError> {
    let Some(list) = events_of(alloc, drill)? else {
        return writeln!(shown, "no number");
    };
    let counts = counts_of(list.as_slice());
    write!(shown, "extend {}, sync {}, ", counts.extend, counts.sync)?;
    write!(shown, "stop {}, crash {}, ", counts.stop, counts.crash)?;
    writeln!(shown, "others {}", counts.others)
}
