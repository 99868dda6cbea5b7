//! Steps on JSON.
use crate::words;
use json_reading::{
    bool_of, count_of, int_of, json_text, list_of, nullable_texts_object, object_of, present_of,
    read_json, read_json_text, text_member, text_of, text_or_null, texts_array, texts_from,
    texts_object, whole_of,
};
use lake_basics::{ReadError, Text};
use rows::{Step, bytes_given, show_answer, show_error};
use serde_json::Value;
use std::alloc::{AllocError, Global};
use std::fmt::Display;

/// Does a step on JSON, or else one on words.
pub fn step(alloc: Global, step: &Step<'_>, shown: &mut String) -> Result<(), AllocError> {
    match step.words() {
        "json" => show_texts(alloc, step.lines(), shown),
        "object" => show_object(alloc, step.lines(), shown),
        "object with nulls" => show_nullable(alloc, step.lines(), shown),
        _ => step_on_members(alloc, step, shown),
    }
}

fn step_on_members(alloc: Global, step: &Step<'_>, shown: &mut String) -> Result<(), AllocError> {
    match step.each_word() {
        ["json", "of", "bytes", hex] => show_bytes(alloc, hex, shown),
        ["members", "as", "texts", names @ ..] => show_text_members(alloc, names, step, shown),
        ["members", names @ ..] => show_members(alloc, names, step, shown),
        ["texts", "in", name] => show_list(alloc, name, step, shown),
        _ => words::step(alloc, step, shown),
    }
}

/// The fault that texts which are no JSON are told by.
const NO_JSON: u8 = 5;

/// The compact text of what was read, or the fault.
fn compact(alloc: Global, read: Result<Value, ReadError<u8>>) -> Result<Text, AllocError> {
    match read {
        Ok(value) => json_text(alloc, &value),
        Err(error) => Ok(Text::from_string(format!(in alloc; "Err {error:?}")?)),
    }
}

fn show_texts(alloc: Global, lines: &[&str], shown: &mut String) -> Result<(), AllocError> {
    for line in lines {
        show_compact(alloc, line, shown)?;
    }
    Ok(())
}

fn show_compact(alloc: Global, text: &str, shown: &mut String) -> Result<(), AllocError> {
    let answer = compact(alloc, read_json_text(alloc, text, NO_JSON))?;
    show_answer(shown, text, answer.as_str())
}

fn show_bytes(alloc: Global, hex: &str, shown: &mut String) -> Result<(), AllocError> {
    let bytes = bytes_given(alloc, hex)?;
    let answer = compact(alloc, read_json(alloc, &bytes, NO_JSON))?;
    writeln!(shown, "{}", answer.as_str())
}

/// The JSON below a step, or null where there is none.
fn value_below(alloc: Global, step: &Step<'_>) -> Result<Value, AllocError> {
    let text = step.text(alloc)?;
    match read_json(alloc, text.as_bytes(), NO_JSON) {
        Ok(value) => Ok(value),
        Err(ReadError::Memory) => Err(AllocError),
        Err(ReadError::Fault(_)) => Ok(Value::Null),
    }
}

fn show_members(
    alloc: Global,
    names: &[&str],
    step: &Step<'_>,
    shown: &mut String,
) -> Result<(), AllocError> {
    let value = value_below(alloc, step)?;
    show_each(&value, names, shown)
}

fn show_each(value: &Value, names: &[&str], shown: &mut String) -> Result<(), AllocError> {
    for name in names {
        show_member(value, name, shown)?;
    }
    Ok(())
}

/// Shows a member as each kind of value that it is.
fn show_member(value: &Value, name: &str, shown: &mut String) -> Result<(), AllocError> {
    let is_present = present_of(value, name).is_some();
    write!(shown, "{name}: present {is_present}")?;
    show_found("whole", whole_of(value, name), shown)?;
    show_found("int", int_of(value, name), shown)?;
    show_found("count", count_of(value, name), shown)?;
    show_others(value, name, shown)?;
    shown.push('\n')
}

fn show_others(value: &Value, name: &str, shown: &mut String) -> Result<(), AllocError> {
    show_found("text", text_of(value, name), shown)?;
    show_found("flag", bool_of(value, name), shown)?;
    if list_of(value, name).is_some() {
        shown.push_str(", list")?;
    }
    if object_of(value, name).is_some() {
        shown.push_str(", object")?;
    }
    Ok(())
}

/// Shows a value of a kind, if there is one.
fn show_found<T: Display + Drop>(
    kind: &str,
    found: Option<T>,
    shown: &mut String,
) -> Result<(), AllocError> {
    match found {
        Some(value) => write!(shown, ", {kind} {value}"),
        None => Ok(()),
    }
}

/// Shows each member as it is written again: as its text, or as null.
fn show_text_members(
    alloc: Global,
    names: &[&str],
    step: &Step<'_>,
    shown: &mut String,
) -> Result<(), AllocError> {
    let value = value_below(alloc, step)?;
    show_each_text(alloc, &value, names, shown)
}

fn show_each_text(
    alloc: Global,
    value: &Value,
    names: &[&str],
    shown: &mut String,
) -> Result<(), AllocError> {
    for name in names {
        show_text_member(alloc, value, name, shown)?;
    }
    Ok(())
}

fn show_text_member(
    alloc: Global,
    value: &Value,
    name: &str,
    shown: &mut String,
) -> Result<(), AllocError> {
    let text = text_member(alloc, value, name)?;
    let written = json_text(alloc, &text_or_null(alloc, &text)?)?;
    show_answer(shown, name, written.as_str())
}

/// Shows the texts of a list as they are written again.
fn show_list(
    alloc: Global,
    name: &str,
    step: &Step<'_>,
    shown: &mut String,
) -> Result<(), AllocError> {
    let value = value_below(alloc, step)?;
    match list_of(&value, name) {
        Some(list) => show_texts_from(alloc, list, shown),
        None => writeln!(shown, "no list"),
    }
}

fn show_texts_from(alloc: Global, list: &Vec<Value>, shown: &mut String) -> Result<(), AllocError> {
    match texts_from(alloc, list, NO_JSON) {
        Ok(texts) => show_written(alloc, &texts_array(alloc, texts.as_slice())?, shown),
        Err(error) => show_error(shown, &error),
    }
}

/// Shows JSON as it is written.
fn show_written(alloc: Global, value: &Value, shown: &mut String) -> Result<(), AllocError> {
    writeln!(shown, "{}", json_text(alloc, value)?.as_str())
}

/// Shows the object whose members are given as a name and a text on each line.
fn show_object(alloc: Global, lines: &[&str], shown: &mut String) -> Result<(), AllocError> {
    let pairs = pairs_of(alloc, lines)?;
    let object = texts_object(alloc, pairs.as_slice())?;
    show_written(alloc, &object, shown)
}

fn pairs_of(alloc: Global, lines: &[&str]) -> Result<Vec<(Text, Text)>, AllocError> {
    let mut pairs = Vec::new(alloc);
    for line in lines {
        if let Some((name, text)) = line.split_once(' ') {
            pairs.push(pair_of(alloc, name, text)?)?;
        }
    }
    Ok(pairs)
}

fn pair_of(alloc: Global, name: &str, text: &str) -> Result<(Text, Text), AllocError> {
    Ok((Text::from_str(alloc, name)?, Text::from_str(alloc, text)?))
}

/// Shows the object whose members are given as a name on each line, with a text or alone for null.
fn show_nullable(alloc: Global, lines: &[&str], shown: &mut String) -> Result<(), AllocError> {
    let pairs = nullable_pairs_of(alloc, lines)?;
    let object = nullable_texts_object(alloc, pairs.as_slice())?;
    show_written(alloc, &object, shown)
}

fn nullable_pairs_of(
    alloc: Global,
    lines: &[&str],
) -> Result<Vec<(Text, Option<Text>)>, AllocError> {
    let mut pairs = Vec::new(alloc);
    for line in lines {
        pairs.push(nullable_pair_of(alloc, line)?)?;
    }
    Ok(pairs)
}

fn nullable_pair_of(alloc: Global, line: &str) -> Result<(Text, Option<Text>), AllocError> {
    match line.split_once(' ') {
        Some((name, text)) => {
            let (name, text) = pair_of(alloc, name, text)?;
            Ok((name, Some(text)))
        }
        None => Ok((Text::from_str(alloc, line)?, None)),
    }
}
