//! Names and times.
use crate::properties::show_error;
use crate::stops::tell_stops_step;
use hudi_groups::group_of;
use hudi_names::{HudiError, instant_of_name, next_instant, read_time, time_text};
use lake_basics::Text;
use rows::{Step, show_no_step};
use std::alloc::{AllocError, Global};
use table_rows::show_line;

/// Does a step on a name or on times.
pub(crate) fn tell_time_step(
    alloc: Global,
    step: &Step<'_>,
    shown: &mut String,
) -> Result<(), AllocError> {
    match step.word_at(0) {
        "name" => tell_name(step.word_at(1), shown),
        "time" => tell_time(step.word_at(1), shown),
        "group" => tell_group(step.word_at(1), shown),
        "write" => tell_time_text(alloc, step, shown),
        "stops" => tell_stops_step(alloc, step, shown),
        _ => tell_next(alloc, step, shown),
    }
}

/// Adds what the name of a timeline's file says.
fn tell_name(name: &str, shown: &mut String) -> Result<(), AllocError> {
    match instant_of_name(name.as_bytes()) {
        Some((digits, action, state)) => {
            writeln!(shown, "{digits} digits, {action:?}, {state:?}")
        }
        None => shown.push_str("no instant\n"),
    }
}

/// Adds the milliseconds since 1970-01-01 of an instant's time.
fn tell_time(text: &str, shown: &mut String) -> Result<(), AllocError> {
    match read_time(text.as_bytes()) {
        Some(ms) => writeln!(shown, "{ms}"),
        None => shown.push_str("no time\n"),
    }
}

/// Adds how many bytes of the path are its folder, and how many bytes of its name are its file group.
fn tell_group(path: &str, shown: &mut String) -> Result<(), AllocError> {
    let (folder, group) = group_of(path.as_bytes());
    writeln!(shown, "folder {folder}, group {group}")
}

/// Adds the text of the time that words `write time MILLISECONDS` say.
fn tell_time_text(alloc: Global, step: &Step<'_>, shown: &mut String) -> Result<(), AllocError> {
    match step.word_at(2).parse::<i64>() {
        Ok(ms) => show_time(alloc, ms, shown),
        Err(_) => show_no_step(shown, step),
    }
}

/// Adds the text of a time in milliseconds since 1970-01-01.
fn show_time(alloc: Global, ms: i64, shown: &mut String) -> Result<(), AllocError> {
    match time_text(alloc, ms)? {
        Some(text) => show_line(shown, text.as_str()),
        None => shown.push_str("no text\n"),
    }
}

fn next_behind(alloc: Global, last: Option<&str>, now_ms: u64) -> Result<Text, HudiError> {
    let Some(last) = last else {
        return next_instant(alloc, None, now_ms);
    };
    let last = Text::from_str(alloc, last)?;
    match read_time(last.as_bytes()) {
        None => Err(HudiError::Malformed { line: 0 }),
        Some(_) => next_instant(alloc, Some(&last), now_ms),
    }
}

/// The last instant, if there is one, and the clock that words `next at MILLISECONDS` and
/// `next behind TIME at MILLISECONDS` say.
fn clock_of<'a>(step: &Step<'a>) -> (Option<&'a str>, &'a str) {
    match step.word_at(1) {
        "behind" => (Some(step.word_at(2)), step.word_at(4)),
        _ => (None, step.word_at(2)),
    }
}

/// Adds the instant that is next behind the last one, if there is one, at a time of the clock.
fn tell_next(alloc: Global, step: &Step<'_>, shown: &mut String) -> Result<(), AllocError> {
    let (last, clock) = clock_of(step);
    match clock.parse::<u64>() {
        Ok(now_ms) => show_next(alloc, last, now_ms, shown),
        Err(_) => show_no_step(shown, step),
    }
}

fn show_next(
    alloc: Global,
    last: Option<&str>,
    now_ms: u64,
    shown: &mut String,
) -> Result<(), AllocError> {
    match next_behind(alloc, last, now_ms) {
        Ok(time) => show_line(shown, time.as_str()),
        Err(error) => show_error(error, shown),
    }
}
