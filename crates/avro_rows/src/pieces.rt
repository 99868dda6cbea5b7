//! Steps on containers that come in pieces.
use crate::containers::{bytes_below, show_values};
use avro_container::{ContainerError, Values, read_container};
use avro_feeding::Feeder;
use rows::{Step, bytes_given, show_error};
use std::alloc::{AllocError, Global};

/// Shows the values that a call gave, or why it refused.
fn show_fed(fed: &Result<Values, ContainerError>, shown: &mut String) -> Result<(), AllocError> {
    match fed {
        Ok(values) => show_values(values.as_slice(), shown),
        Err(error) => show_error(shown, error),
    }
}

/// Shows how reading a container ends: well, or with a refusal.
fn show_end(refusal: Option<ContainerError>, shown: &mut String) -> Result<(), AllocError> {
    match refusal {
        None => writeln!(shown, "Ok"),
        Some(error) => show_error(shown, &error),
    }
}

/// What feeding these pieces and ending them gives: the values, and then how it ends.
fn read_in_pieces(alloc: Global, pieces: &[&[u8]]) -> Result<String, AllocError> {
    let mut shown = String::new(alloc);
    let mut feeder = Feeder::new(alloc);
    feed_each(&mut feeder, pieces, &mut shown)?;
    show_end(feeder.finish().err(), &mut shown)?;
    Ok(shown)
}

/// Feeds the pieces, and shows the values that they give.
fn feed_each(feeder: &mut Feeder, pieces: &[&[u8]], shown: &mut String) -> Result<(), AllocError> {
    for piece in pieces {
        if let Ok(values) = feeder.feed(piece) {
            show_values(values.as_slice(), shown)?;
        }
    }
    Ok(())
}

/// How reading the container whole ends, in the same form.
fn end_of_whole(alloc: Global, bytes: &[u8]) -> Result<String, AllocError> {
    let mut shown = String::new(alloc);
    show_end(read_container(alloc, bytes).err(), &mut shown)?;
    Ok(shown)
}

/// Cuts the container in two at each place, and shows what all cuts give, and each cut that gives
/// something else.
pub fn show_cuts(alloc: Global, step: &Step<'_>, shown: &mut String) -> Result<(), AllocError> {
    let bytes = bytes_below(alloc, step)?;
    let first = read_in_pieces(alloc, &[bytes.as_slice()])?;
    show_compared(alloc, &bytes, first.as_str(), shown)
}

/// Shows what each cut gives beside what the first one gave.
fn show_compared(
    alloc: Global,
    bytes: &[u8],
    first: &str,
    shown: &mut String,
) -> Result<(), AllocError> {
    let alike = show_other_cuts(alloc, bytes, first, shown)?;
    shown.push_str(first)?;
    let whole = end_of_whole(alloc, bytes)?;
    let ends = first.lines().last() == whole.lines().last();
    writeln!(shown, "{alike} cuts alike, ends as read whole: {ends}")
}

/// Shows each cut that gives something else than the first one, and counts the others.
fn show_other_cuts(
    alloc: Global,
    bytes: &[u8],
    first: &str,
    shown: &mut String,
) -> Result<usize, AllocError> {
    let mut alike = 0usize;
    for cut in 0..bytes.len() + 1 {
        let read = read_in_pieces(alloc, &[&bytes[..cut], &bytes[cut..]])?;
        if read.as_str() == first {
            alike = alike.saturating_add(1);
        }
        show_cut(cut, read.as_str(), first, shown)?;
    }
    Ok(alike)
}

/// Shows what a cut gives, unless the first one gave it too.
fn show_cut(cut: usize, read: &str, first: &str, shown: &mut String) -> Result<(), AllocError> {
    if read == first {
        return Ok(());
    }
    write!(shown, "cut at {cut}: {read}")
}

/// Feeds the container byte by byte, and shows what comes behind how many bytes.
pub fn show_bytes(alloc: Global, step: &Step<'_>, shown: &mut String) -> Result<(), AllocError> {
    let bytes = bytes_below(alloc, step)?;
    let mut feeder = Feeder::new(alloc);
    feed_bytes(&mut feeder, &bytes, shown)?;
    show_finished(feeder, shown)
}

fn feed_bytes(feeder: &mut Feeder, bytes: &[u8], shown: &mut String) -> Result<(), AllocError> {
    for at in 0..bytes.len() {
        feed_byte(feeder, &bytes[at..at + 1], at + 1, shown)?;
    }
    Ok(())
}

/// Feeds a byte, and shows what comes behind so many bytes.
fn feed_byte(
    feeder: &mut Feeder,
    byte: &[u8],
    count: usize,
    shown: &mut String,
) -> Result<(), AllocError> {
    let was_named = feeder.schema().is_some();
    let fed = feeder.feed(byte);
    if feeder.schema().is_some() != was_named {
        writeln!(shown, "behind {count} bytes: a schema")?;
    }
    match &fed {
        Ok(values) if values.is_empty() => Ok(()),
        _ => show_fed_behind(count, &fed, shown),
    }
}

fn show_fed_behind(
    count: usize,
    fed: &Result<Values, ContainerError>,
    shown: &mut String,
) -> Result<(), AllocError> {
    write!(shown, "behind {count} bytes: ")?;
    show_fed(fed, shown)
}

fn show_finished(feeder: Feeder, shown: &mut String) -> Result<(), AllocError> {
    writeln!(shown, "at the end: {:?}", feeder.finish())
}

/// Feeds the bytes of each line as a piece, and shows what each call gives.
pub fn show_pieces(alloc: Global, lines: &[&str], shown: &mut String) -> Result<(), AllocError> {
    let mut feeder = Feeder::new(alloc);
    feed_lines(alloc, &mut feeder, lines, shown)?;
    show_finished(feeder, shown)
}

/// Feeds the bytes of each line, and shows whether there is a schema then.
fn feed_lines(
    alloc: Global,
    feeder: &mut Feeder,
    lines: &[&str],
    shown: &mut String,
) -> Result<(), AllocError> {
    for line in lines {
        feed_line(alloc, feeder, line, shown)?;
    }
    let named = feeder.schema().is_some();
    writeln!(shown, "a schema: {named}")
}

fn feed_line(
    alloc: Global,
    feeder: &mut Feeder,
    line: &str,
    shown: &mut String,
) -> Result<(), AllocError> {
    let bytes = bytes_given(alloc, line)?;
    shown.push_str("fed:\n")?;
    show_fed(&feeder.feed(&bytes), shown)
}
