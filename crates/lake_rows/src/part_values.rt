//! Steps on partition values: as Delta's texts, as components of folders, and as Avro values.
use crate::columns::show_kind_of;
use crate::folders;
use avro_schema::Schema;
use avro_value::{Value, decode};
use lake_basics::Text;
use partition_map::{
    PartError, PartKind, decode_uri_path, encode_uri_path, from_avro_value, from_delta_text,
    from_hive, to_avro_value, to_delta_text,
};
use rows::{Step, bytes_given, show_answer, show_error, show_refused};
use std::alloc::{AllocError, Global};
use table_history::PartValue;

/// Does a step on partition values or on paths as URIs, or else one on kinds or folders.
pub fn step(alloc: Global, step: &Step<'_>, shown: &mut String) -> Result<(), AllocError> {
    let lines = step.lines();
    match step.words() {
        "missing values" => show_missing(alloc, lines, shown),
        "copies" => show_copies(alloc, lines, shown),
        "delta texts of" => show_texts(alloc, lines, shown),
        "avro fields of" => show_fields(alloc, lines, shown),
        "paths of uris" => show_paths(alloc, lines, shown),
        "uris of paths" => show_uris(alloc, lines, shown),
        _ => step_on_kinds(alloc, step, shown),
    }
}

fn step_on_kinds(alloc: Global, step: &Step<'_>, shown: &mut String) -> Result<(), AllocError> {
    match step.each_word() {
        ["kind", "of", word] => show_kind_of(word, shown),
        ["values", kind] => show_values(alloc, kind, step.lines(), shown),
        ["avro", "value", hex, "of", schema, "as", kind] => {
            show_avro(alloc, kind, schema, hex, shown)
        }
        _ => folders::step(alloc, step, shown),
    }
}

/// The kind that a word names.
fn kind_of(word: &str) -> Option<PartKind> {
    match word {
        "boolean" => Some(PartKind::Boolean),
        "int" => Some(PartKind::Int),
        "long" => Some(PartKind::Long),
        "text" => Some(PartKind::Text),
        "date" => Some(PartKind::Date),
        _ => None,
    }
}

/// The value that a line spells, with its kind: the word of the kind, and then `null`, a number, a truth
/// value, the number of days of a date, or any text.
pub fn value_of(alloc: Global, line: &str) -> Result<Option<(PartKind, PartValue)>, AllocError> {
    let (word, rest) = line.split_once(' ').unwrap_or((line, ""));
    match kind_of(word) {
        Some(kind) => Ok(Some((kind, value_of_kind(alloc, kind, rest)?))),
        None => Ok(None),
    }
}

fn value_of_kind(alloc: Global, kind: PartKind, text: &str) -> Result<PartValue, AllocError> {
    match kind {
        PartKind::Text => Ok(PartValue::Text(Text::from_str(alloc, text)?)),
        PartKind::Boolean if text != "null" => Ok(PartValue::Boolean(text == "true")),
        _ => Ok(number_of(kind, text.parse::<i64>().ok())),
    }
}

/// The value of a kind that a number gives, or null.
fn number_of(kind: PartKind, number: Option<i64>) -> PartValue {
    match (kind, number) {
        (PartKind::Long, Some(number)) => PartValue::Long(number),
        (_, Some(number)) => small_number_of(kind, i32::try_from(number).ok()),
        _ => PartValue::Null,
    }
}

fn small_number_of(kind: PartKind, number: Option<i32>) -> PartValue {
    match (kind, number) {
        (PartKind::Int, Some(number)) => PartValue::Int(number),
        (PartKind::Date, Some(number)) => PartValue::Date(number),
        _ => PartValue::Null,
    }
}

/// A value as `value_of` reads it.
fn spelled(alloc: Global, value: &PartValue) -> Result<String, AllocError> {
    match value {
        PartValue::Null => String::from_str(alloc, "null"),
        PartValue::Boolean(truth) => format!(in alloc; "boolean {truth}"),
        PartValue::Text(text) => format!(in alloc; "text {}", text.as_str()),
        PartValue::Int(number) => spelled_number(alloc, "int", i64::from(*number)),
        PartValue::Long(number) => spelled_number(alloc, "long", *number),
        PartValue::Date(days) => spelled_number(alloc, "date", i64::from(*days)),
    }
}

fn spelled_number(alloc: Global, kind: &str, number: i64) -> Result<String, AllocError> {
    format!(in alloc; "{kind} {number}")
}

fn told(alloc: Global, read: &Result<PartValue, PartError>) -> Result<String, AllocError> {
    match read {
        Ok(value) => spelled(alloc, value),
        Err(error) => format!(in alloc; "Err {error:?}"),
    }
}

/// Shows the value that each text stands for, in Delta and as a component of a folder.
fn show_values(
    alloc: Global,
    kind: &str,
    lines: &[&str],
    shown: &mut String,
) -> Result<(), AllocError> {
    let Some(kind) = kind_of(kind) else {
        return writeln!(shown, "not asked: no kind");
    };
    for line in lines {
        show_value(alloc, kind, line, shown)?;
    }
    Ok(())
}

fn show_value(
    alloc: Global,
    kind: PartKind,
    text: &str,
    shown: &mut String,
) -> Result<(), AllocError> {
    let of_delta = told(alloc, &from_delta_text(alloc, kind, Some(text)))?;
    let of_hive = told(alloc, &from_hive(alloc, kind, text))?;
    let answer = format!(in alloc; "{of_delta} in Delta, {of_hive} in a folder")?;
    show_answer(shown, text, answer.as_str())
}

/// Shows the value that a missing text stands for, and Avro's null, for each kind.
fn show_missing(alloc: Global, lines: &[&str], shown: &mut String) -> Result<(), AllocError> {
    for line in lines {
        if let Some(kind) = kind_of(line) {
            show_none(alloc, line, kind, shown)?;
        }
    }
    Ok(())
}

fn show_none(
    alloc: Global,
    word: &str,
    kind: PartKind,
    shown: &mut String,
) -> Result<(), AllocError> {
    let of_delta = told(alloc, &from_delta_text(alloc, kind, None))?;
    let of_avro = told(alloc, &from_avro_value(alloc, kind, &Value::Null))?;
    writeln!(shown, "{word} -> {of_delta} in Delta, {of_avro} in Avro")
}

/// Shows the value that the bytes of an Avro value stand for.
fn show_avro(
    alloc: Global,
    kind: &str,
    schema: &str,
    hex: &str,
    shown: &mut String,
) -> Result<(), AllocError> {
    let bytes = bytes_given(alloc, hex)?;
    match (kind_of(kind), Schema::from_json(alloc, schema.as_bytes())) {
        (Some(kind), Ok(schema)) => show_decoded(alloc, kind, &schema, &bytes, shown),
        _ => writeln!(shown, "not asked: no kind or no schema"),
    }
}

fn show_decoded(
    alloc: Global,
    kind: PartKind,
    schema: &Schema,
    bytes: &[u8],
    shown: &mut String,
) -> Result<(), AllocError> {
    match decode(alloc, schema, bytes, 0) {
        Ok((value, _)) => {
            let answer = told(alloc, &from_avro_value(alloc, kind, &value))?;
            writeln!(shown, "{}", answer.as_str())
        }
        Err(error) => writeln!(shown, "not asked: {error:?}"),
    }
}

/// Shows a copy of each value, and whether it is the same.
fn show_copies(alloc: Global, lines: &[&str], shown: &mut String) -> Result<(), AllocError> {
    for line in lines {
        if let Some((_, value)) = value_of(alloc, line)? {
            show_copy(alloc, line, &value, shown)?;
        }
    }
    Ok(())
}

fn show_copy(
    alloc: Global,
    line: &str,
    value: &PartValue,
    shown: &mut String,
) -> Result<(), AllocError> {
    let copy = value.copy(alloc)?;
    let is_same = copy == *value;
    let copy = spelled(alloc, &copy)?;
    writeln!(shown, "{line} -> {copy}, the same: {is_same}")
}

fn show_texts(alloc: Global, lines: &[&str], shown: &mut String) -> Result<(), AllocError> {
    for line in lines {
        if let Some((_, value)) = value_of(alloc, line)? {
            show_text(alloc, line, &value, shown)?;
        }
    }
    Ok(())
}

/// Shows the text of a value in Delta.
fn show_text(
    alloc: Global,
    line: &str,
    value: &PartValue,
    shown: &mut String,
) -> Result<(), AllocError> {
    match to_delta_text(alloc, value) {
        Ok(Some(text)) => show_answer(shown, line, text.as_str()),
        Ok(None) => show_answer(shown, line, "no text"),
        Err(error) => show_refused(shown, line, &error),
    }
}

/// Shows the Avro value of each partition value, and what is read of it.
fn show_fields(alloc: Global, lines: &[&str], shown: &mut String) -> Result<(), AllocError> {
    for line in lines {
        if let Some((kind, value)) = value_of(alloc, line)? {
            show_field(alloc, line, kind, &value, shown)?;
        }
    }
    Ok(())
}

fn show_field(
    alloc: Global,
    line: &str,
    kind: PartKind,
    value: &PartValue,
    shown: &mut String,
) -> Result<(), AllocError> {
    match to_avro_value(alloc, value) {
        Ok(written) => {
            let again = told(alloc, &from_avro_value(alloc, kind, &written))?;
            writeln!(shown, "{line} -> {written:?}, read as {again}")
        }
        Err(error) => show_refused(shown, line, &error),
    }
}

fn show_path(
    shown: &mut String,
    input: &str,
    path: &Result<Text, PartError>,
) -> Result<(), AllocError> {
    match path {
        Ok(path) => show_answer(shown, input, path.as_str()),
        Err(error) if input.is_empty() => show_refused(shown, "(empty)", error),
        Err(error) => show_refused(shown, input, error),
    }
}

fn show_paths(alloc: Global, lines: &[&str], shown: &mut String) -> Result<(), AllocError> {
    for line in lines {
        show_path(shown, line, &decode_uri_path(alloc, line))?;
    }
    Ok(())
}

fn show_uris(alloc: Global, lines: &[&str], shown: &mut String) -> Result<(), AllocError> {
    for line in lines {
        show_path(shown, line, &encode_uri_path(alloc, line))?;
    }
    Ok(())
}
