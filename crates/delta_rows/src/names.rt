//! The names of versions and of log compactions.
use delta_compaction::{name_of_range, range_of_name};
use delta_log::{name_of_version, version_of_name};
use rows::{Step, show_no_step};
use std::alloc::{AllocError, Global};
use table_rows::show_line;

/// Does a step on the name that stands behind `of`, or on the versions there.
pub(crate) fn tell_name_step(
    alloc: Global,
    step: &Step<'_>,
    shown: &mut String,
) -> Result<(), AllocError> {
    match step.word_at(0) {
        "version" => tell_version(step.word_at(2), shown),
        "range" => tell_range(step.word_at(2), shown),
        "name" => tell_name(alloc, step, shown),
        _ => show_no_step(shown, step),
    }
}

/// Adds the version that a file's name names.
fn tell_version(name: &str, shown: &mut String) -> Result<(), AllocError> {
    match version_of_name(name.as_bytes()) {
        Some(version) => writeln!(shown, "version {version}"),
        None => shown.push_str("no version\n"),
    }
}

/// Adds the versions that a name names.
fn tell_range(name: &str, shown: &mut String) -> Result<(), AllocError> {
    match range_of_name(name.as_bytes()) {
        Some((first, last)) => writeln!(shown, "{first} to {last}"),
        None => shown.push_str("none\n"),
    }
}

/// Adds the name that words `name of VERSION` or `name of FIRST to LAST` ask for.
fn tell_name(alloc: Global, step: &Step<'_>, shown: &mut String) -> Result<(), AllocError> {
    match (step.word_at(2).parse::<u64>(), step.word_at(3)) {
        (Ok(version), "") => show_line(shown, name_of_version(alloc, version)?.as_str()),
        _ => tell_range_name(alloc, range_in(step), shown),
    }
}

/// Adds the name of these versions.
fn tell_range_name(
    alloc: Global,
    range: Option<(u64, u64)>,
    shown: &mut String,
) -> Result<(), AllocError> {
    match range {
        Some((first, last)) if first < last => {
            show_line(shown, name_of_range(alloc, first, last)?.as_str())
        }
        _ => shown.push_str("no range\n"),
    }
}

/// The numbers that words `FIRST to LAST` say behind the first two.
pub(crate) fn range_in(step: &Step<'_>) -> Option<(u64, u64)> {
    Some((
        step.word_at(2).parse::<u64>().ok()?,
        step.word_at(4).parse::<u64>().ok()?,
    ))
}
