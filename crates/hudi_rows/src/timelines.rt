//! Timelines in a store.
use hudi_properties::HudiTable;
use hudi_table::{
    CompletedInstant, InstantChange, Latest, Naming, Timeline, TimelineError, list_timeline,
    read_change, read_table_properties, read_timeline,
};
use lake_basics::Text;
use lake_store::FuseStore;
use rows::{Step, show_no_step};
use std::alloc::{AllocError, Global};
use table_rows::{or_none, put_file, show_change, show_table, tell_file};

/// Does a step on the files of the store, or on the timeline that they are.
pub(crate) fn tell_store_step(
    alloc: Global,
    store: &mut FuseStore,
    table: &HudiTable,
    step: &Step<'_>,
    text: &str,
    shown: &mut String,
) -> Result<(), AllocError> {
    match step.word_at(0) {
        "file" => put_file(store, step, text, shown),
        "show" => tell_file(alloc, store, step.word_at(1), shown),
        "timeline" => tell_timeline(alloc, store, shown),
        "table" => tell_table_properties(alloc, store, shown),
        _ => tell_read(alloc, store, table, step, shown),
    }
}

/// Reads what words `read timeline`, `read external timeline` or `read commit TIME` say.
fn tell_read(
    alloc: Global,
    store: &mut FuseStore,
    table: &HudiTable,
    step: &Step<'_>,
    shown: &mut String,
) -> Result<(), AllocError> {
    match step.word_at(1) {
        "timeline" => tell_latest(alloc, store, Naming::Base, table, shown),
        "external" => tell_latest(alloc, store, Naming::External, table, shown),
        "commit" => tell_commit(alloc, store, step.word_at(2), table, shown),
        _ => show_no_step(shown, step),
    }
}

fn show_error(error: &TimelineError, shown: &mut String) -> Result<(), AllocError> {
    match error {
        TimelineError::Refused { path, error } => {
            writeln!(shown, "{} is refused: {error}", path.as_str())
        }
        TimelineError::Missing { path } => writeln!(shown, "{} is missing", path.as_str()),
        error => writeln!(shown, "{error}"),
    }
}

fn show_timeline(timeline: &Timeline, shown: &mut String) -> Result<(), AllocError> {
    let head = or_none(timeline.head());
    let pending = or_none(timeline.pending.as_ref());
    writeln!(shown, "{head}, {pending}, {}", timeline.completed.len())
}

/// Adds the head of the timeline, the first pending instant, and the number of completed ones.
fn tell_timeline(
    alloc: Global,
    store: &mut FuseStore,
    shown: &mut String,
) -> Result<(), AllocError> {
    match list_timeline(alloc, store) {
        Ok(timeline) => show_timeline(&timeline, shown),
        Err(error) => show_error(&error, shown),
    }
}

fn latest(
    alloc: Global,
    store: &mut FuseStore,
    naming: Naming,
    table: &HudiTable,
) -> Result<Option<Latest>, TimelineError> {
    let timeline = list_timeline(alloc, store)?;
    read_timeline(alloc, store, timeline.up_to_head(), naming, table)
}

fn show_mark(mark: &Option<Text>, shown: &mut String) -> Result<(), AllocError> {
    writeln!(shown, "mark {}", or_none(mark.as_ref()))
}

fn show_latest(alloc: Global, latest: &Latest, shown: &mut String) -> Result<(), AllocError> {
    show_table(alloc, latest.table.table(), shown)?;
    show_mark(&latest.mark, shown)
}

/// Adds the table at the head of the timeline and the newest instant's mark, or why it isn't read.
fn tell_latest(
    alloc: Global,
    store: &mut FuseStore,
    naming: Naming,
    table: &HudiTable,
    shown: &mut String,
) -> Result<(), AllocError> {
    match latest(alloc, store, naming, table) {
        Ok(Some(latest)) => show_latest(alloc, &latest, shown),
        Ok(None) => shown.push_str("no instant\n"),
        Err(error) => show_error(&error, shown),
    }
}

fn change_at(
    alloc: Global,
    store: &mut FuseStore,
    time: &str,
    table: &HudiTable,
) -> Result<InstantChange, TimelineError> {
    let instant = CompletedInstant {
        name: Text::from_string(format!(in alloc; "{time}.commit")?),
        time: Text::from_str(alloc, time)?,
        is_second: false,
    };
    read_change(alloc, store, &instant, Naming::Base, table, None)
}

fn show_made(alloc: Global, made: &InstantChange, shown: &mut String) -> Result<(), AllocError> {
    show_change(alloc, &made.change, shown)?;
    show_mark(&made.mark, shown)
}

/// Adds the change that the commit of this time makes as the first, and its mark, or why it isn't read.
fn tell_commit(
    alloc: Global,
    store: &mut FuseStore,
    time: &str,
    table: &HudiTable,
    shown: &mut String,
) -> Result<(), AllocError> {
    match change_at(alloc, store, time, table) {
        Ok(made) => show_made(alloc, &made, shown),
        Err(error) => show_error(&error, shown),
    }
}

/// Adds whether this bridge made the table, and the table's name.
fn tell_table_properties(
    alloc: Global,
    store: &mut FuseStore,
    shown: &mut String,
) -> Result<(), AllocError> {
    match read_table_properties(alloc, store) {
        Ok(found) => writeln!(shown, "{} {}", found.table.ours, or_none(found.name())),
        Err(error) => show_error(&error, shown),
    }
}
