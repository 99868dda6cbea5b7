//! Steps on texts, bytes and lists.
use crate::json;
use lake_basics::{Blob, Items, ReadError, Text, TextError};
use rows::{Step, bytes_given, hex_of, show_error};
use std::alloc::{AllocError, Global};
use std::collections::{BTreeMap, HashMap};

/// Does a step on texts, bytes or lists, or else one on JSON.
pub fn step(alloc: Global, step: &Step<'_>, shown: &mut String) -> Result<(), AllocError> {
    match step.words() {
        "texts in order" => show_texts(alloc, step.lines(), shown),
        "bytes in order" => show_order(alloc, step.lines(), shown),
        "out of memory" => show_memory(shown),
        _ => step_on_bytes(alloc, step, shown),
    }
}

fn step_on_bytes(alloc: Global, step: &Step<'_>, shown: &mut String) -> Result<(), AllocError> {
    match step.each_word() {
        ["bytes", "as", "text", hex] => show_text(alloc, hex, shown),
        ["bytes", hex] => show_bytes(alloc, hex, shown),
        ["repeat", hex, count] => show_repeated(alloc, hex, count, shown),
        ["items", numbers @ ..] => show_list(alloc, numbers, shown),
        _ => json::step(alloc, step, shown),
    }
}

/// Shows the text that the bytes are.
fn show_text(alloc: Global, hex: &str, shown: &mut String) -> Result<(), AllocError> {
    let bytes = bytes_given(alloc, hex)?;
    match Text::from_bytes(alloc, &bytes) {
        Ok(text) => show_length(&text.copy(alloc)?, shown),
        Err(error) => show_error(shown, &error),
    }
}

fn show_length(text: &Text, shown: &mut String) -> Result<(), AllocError> {
    let length = text.as_bytes().len();
    writeln!(shown, "{} of {length} bytes", text.as_str())
}

/// Shows the texts by their bytes, each with its place among the lines.
fn show_texts(alloc: Global, lines: &[&str], shown: &mut String) -> Result<(), AllocError> {
    let mut places = BTreeMap::new(alloc);
    place_each(alloc, lines, &mut places)?;
    show_places(&places, shown)
}

fn place_each(
    alloc: Global,
    lines: &[&str],
    places: &mut BTreeMap<Text, usize>,
) -> Result<(), AllocError> {
    for (place, line) in lines.iter().enumerate() {
        places.insert(Text::from_string(String::from_str(alloc, line)?), place)?;
    }
    Ok(())
}

fn show_places(places: &BTreeMap<Text, usize>, shown: &mut String) -> Result<(), AllocError> {
    for (text, place) in places {
        writeln!(shown, "{} was line {place}", text.as_str())?;
    }
    Ok(())
}

/// Shows a copy of the bytes, taken apart and put together again.
fn show_bytes(alloc: Global, hex: &str, shown: &mut String) -> Result<(), AllocError> {
    let bytes = bytes_given(alloc, hex)?;
    let blob = Blob::from_slice(alloc, &bytes)?;
    let copy = Blob::from_vec(blob.copy(alloc)?.into_vec());
    show_copy(alloc, &blob, &copy, shown)
}

fn show_copy(
    alloc: Global,
    blob: &Blob,
    copy: &Blob,
    shown: &mut String,
) -> Result<(), AllocError> {
    let is_same = copy == blob;
    let length = copy.as_slice().len();
    let digits = hex_of(alloc, copy.as_slice())?;
    writeln!(
        shown,
        "{digits} of {length} bytes, same as before: {is_same}"
    )
}

/// Shows the runs of bytes in order, and how often each of them came.
fn show_order(alloc: Global, lines: &[&str], shown: &mut String) -> Result<(), AllocError> {
    let mut counts: HashMap<Blob, u32> = HashMap::new(alloc);
    let mut blobs = vec![in alloc; Blob::new(alloc)]?;
    for line in lines {
        add(alloc, line, &mut blobs, &mut counts)?;
    }
    blobs.sort()?;
    show_counted(alloc, &blobs, &counts, shown)
}

/// Adds the bytes that digits give, and counts them once more.
fn add(
    alloc: Global,
    hex: &str,
    blobs: &mut Vec<Blob>,
    counts: &mut HashMap<Blob, u32>,
) -> Result<(), AllocError> {
    let bytes = bytes_given(alloc, hex)?;
    blobs.push(Blob::from_slice(alloc, &bytes)?)?;
    let count = counts.entry(Blob::from_vec(bytes))?.or_insert(0);
    *count = count.saturating_add(1);
    Ok(())
}

fn show_counted(
    alloc: Global,
    blobs: &[Blob],
    counts: &HashMap<Blob, u32>,
    shown: &mut String,
) -> Result<(), AllocError> {
    for blob in blobs {
        let count = counts.get(blob).copied().unwrap_or(0);
        let digits = hex_of(alloc, blob.as_slice())?;
        writeln!(shown, "\"{digits}\" came {count} times")?;
    }
    Ok(())
}

fn show_repeated(
    alloc: Global,
    hex: &str,
    count: &str,
    shown: &mut String,
) -> Result<(), AllocError> {
    let byte = u8::from_str_radix(hex, 16).unwrap_or(0);
    let count = count.parse::<u16>().unwrap_or(0);
    let blob = Blob::repeated(alloc, byte, usize::from(count))?;
    let digits = hex_of(alloc, blob.as_slice())?;
    writeln!(shown, "{digits}")
}

/// Shows a list of the numbers by its places, and that there is nothing behind them.
fn show_list(alloc: Global, numbers: &[&str], shown: &mut String) -> Result<(), AllocError> {
    let mut items: Items<u8> = Items::new(alloc);
    let was_empty = items.is_empty();
    for number in numbers {
        items.push(number.parse::<u8>().unwrap_or(0))?;
    }
    let length = items.len();
    writeln!(shown, "empty at first: {was_empty}, items then: {length}")?;
    show_items(&items, shown)?;
    let items = Items::from_vec(items.into_vec());
    let behind = items.get(length).is_some();
    writeln!(shown, "at {length}: anything: {behind}")
}

fn show_items(items: &Items<u8>, shown: &mut String) -> Result<(), AllocError> {
    for (place, item) in items.as_slice().iter().enumerate() {
        let is_there = items.get(place).copied() == Some(*item);
        writeln!(shown, "at {place}: {item}, got from there: {is_there}")?;
    }
    Ok(())
}

fn show_memory(shown: &mut String) -> Result<(), AllocError> {
    let reading = ReadError::<u8>::from(AllocError);
    let text = TextError::from(AllocError);
    writeln!(shown, "reading: {reading:?}")?;
    writeln!(shown, "texts: {text:?}")
}
