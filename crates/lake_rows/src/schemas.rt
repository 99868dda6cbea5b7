//! Steps on schemas in the spellings of Delta, Iceberg and Avro.
use iceberg_field_ids::{KnownIds, to_iceberg};
use json_reading::{json_text, read_json};
use lake_basics::{Items, ReadError, Text};
use rows::{Step, show_no_step};
use schema_avro::{from_avro, read_avro, to_avro};
use schema_delta::{from_delta, to_delta};
use schema_iceberg::{from_iceberg, iceberg_json, name_mapping};
use schema_map::{Ids, MapError, column_paths, schema_limit};
use std::alloc::{AllocError, Global};
use table_history::Schema;

/// What is done with a text.
#[derive(Clone, Copy)]
enum Form {
    DeltaRead,
    AvroRead,
    IcebergRead,
    IcebergAgain,
    AvroWritten,
    IcebergWritten,
    Mapped,
}

/// The form that the words of a step name.
fn form_of(words: &str) -> Option<Form> {
    match words {
        "read delta" => Some(Form::DeltaRead),
        "read avro" => Some(Form::AvroRead),
        "read iceberg" => Some(Form::IcebergRead),
        "iceberg again" => Some(Form::IcebergAgain),
        "write avro" => Some(Form::AvroWritten),
        "write iceberg" => Some(Form::IcebergWritten),
        "name mapping" => Some(Form::Mapped),
        _ => None,
    }
}

/// Does a step on schemas.
pub fn step(alloc: Global, step: &Step<'_>, shown: &mut String) -> Result<(), AllocError> {
    match form_of(step.words()) {
        Some(form) => show_forms(alloc, form, step.lines(), shown),
        None => other_step(alloc, step, shown),
    }
}

/// Does a step on schemas that doesn't take each line alone.
fn other_step(alloc: Global, step: &Step<'_>, shown: &mut String) -> Result<(), AllocError> {
    let lines = step.lines();
    match step.each_word() {
        ["limit", "of", "avro"] => show_limits(alloc, lines, shown),
        ["many", "columns", count] => show_many(alloc, count, shown),
        ["ids", "behind", last, ids @ ..] => show_ids(alloc, last, ids, lines, shown),
        ["compare"] => show_compared(alloc, lines, shown),
        _ => show_no_step(shown, step),
    }
}

/// The schema and the ids of Iceberg's JSON.
fn read_iceberg(alloc: Global, text: &[u8]) -> Result<(Schema, Ids), MapError> {
    match read_json(alloc, text, ()) {
        Ok(value) => from_iceberg(alloc, &value),
        Err(ReadError::Memory) => Err(MapError::Memory),
        Err(ReadError::Fault(())) => Err(MapError::BadSchema),
    }
}

/// The Image of Delta's schema, and its ids where none is known.
fn image_of(alloc: Global, text: &[u8]) -> Result<(Schema, Ids), MapError> {
    let none = KnownIds {
        pairs: Items::new(alloc),
        last: 0,
    };
    to_iceberg(alloc, &from_delta(alloc, text)?, &none)
}

/// What a form gives: Delta's text of what is read, and what is written of Delta's text.
fn given(alloc: Global, form: Form, text: &[u8]) -> Result<Text, MapError> {
    match form {
        Form::DeltaRead => to_delta(alloc, &from_delta(alloc, text)?),
        Form::AvroRead => to_delta(alloc, &from_avro(alloc, text)?),
        Form::AvroWritten => to_avro(alloc, &from_delta(alloc, text)?),
        Form::IcebergRead => to_delta(alloc, &read_iceberg(alloc, text)?.0),
        Form::IcebergAgain => iceberg_text(alloc, read_iceberg(alloc, text)?),
        Form::IcebergWritten => iceberg_text(alloc, image_of(alloc, text)?),
        Form::Mapped => mapped(alloc, text),
    }
}

/// Iceberg's text of a schema with ids.
fn iceberg_text(alloc: Global, (schema, ids): (Schema, Ids)) -> Result<Text, MapError> {
    Ok(json_text(alloc, &iceberg_json(alloc, &schema, &ids, 0)?)?)
}

fn mapped(alloc: Global, text: &[u8]) -> Result<Text, MapError> {
    let (image, ids) = image_of(alloc, text)?;
    name_mapping(alloc, &image, &ids)
}

/// Shows why a schema was not read or written, with its column or its limit.
fn show_refusal(shown: &mut String, error: &MapError) -> Result<(), AllocError> {
    match error {
        MapError::Memory => writeln!(shown, "Err Memory"),
        MapError::BadSchema => writeln!(shown, "Err BadSchema"),
        MapError::SchemaType { column } => writeln!(shown, "Err SchemaType {}", column.as_str()),
        MapError::AvroName { column } => writeln!(shown, "Err AvroName {}", column.as_str()),
        MapError::Limit { which } => writeln!(shown, "Err Limit {}", which.word()),
    }
}

fn show_forms(
    alloc: Global,
    form: Form,
    lines: &[&str],
    shown: &mut String,
) -> Result<(), AllocError> {
    for line in lines {
        show_given(&given(alloc, form, line.as_bytes()), shown)?;
    }
    Ok(())
}

fn show_given(given: &Result<Text, MapError>, shown: &mut String) -> Result<(), AllocError> {
    match given {
        Ok(text) => writeln!(shown, "{}", text.as_str()),
        Err(error) => show_refusal(shown, error),
    }
}

/// Shows the limit that a schema which was read passes, or its number of columns.
fn show_limit(shown: &mut String, read: &Result<Schema, MapError>) -> Result<(), AllocError> {
    match read {
        Ok(schema) => match schema_limit(schema) {
            Some(limit) => writeln!(shown, "passes {}", limit.word()),
            None => writeln!(shown, "columns {}", schema.columns().len()),
        },
        Err(error) => show_refusal(shown, error),
    }
}

/// Shows the limits that schemas pass which are read without their limits.
fn show_limits(alloc: Global, lines: &[&str], shown: &mut String) -> Result<(), AllocError> {
    for line in lines {
        show_limit(shown, &read_avro(alloc, line.as_bytes()))?;
    }
    Ok(())
}

/// Delta's text of a schema of so many columns, and one more.
fn columns_and_one(alloc: Global, count: u16) -> Result<String, AllocError> {
    let mut text = String::from_str(alloc, r#"{"type":"struct","fields":["#)?;
    for number in 0..count {
        write!(
            text,
            "{{\"name\":\"c{number}\",\"nullable\":true,\"type\":\"long\"}},"
        )?;
    }
    text.push_str(r#"{"name":"last","nullable":true,"type":"long"}]}"#)?;
    Ok(text)
}

/// Shows whether Delta's schema of so many columns is within the limits.
fn show_many(alloc: Global, count: &str, shown: &mut String) -> Result<(), AllocError> {
    let count = count.parse::<u16>().unwrap_or(0);
    let text = columns_and_one(alloc, count.saturating_sub(1))?;
    show_limit(shown, &from_delta(alloc, text.as_bytes()))
}

/// The ids of the column paths of a Delta schema, in their order, with the last id that was given.
fn known_ids(alloc: Global, text: &str, last: i32, ids: &[&str]) -> Result<KnownIds, MapError> {
    let schema = from_delta(alloc, text.as_bytes())?;
    let mut pairs = Items::new(alloc);
    for (path, id) in column_paths(alloc, &schema)?.into_iter().zip(ids.iter()) {
        pairs.push((path, id.parse::<i32>().unwrap_or(0)))?;
    }
    Ok(KnownIds { pairs, last })
}

/// Shows the ids of each Delta schema but the first, whose column paths have the ids that are given.
fn show_ids(
    alloc: Global,
    last: &str,
    ids: &[&str],
    lines: &[&str],
    shown: &mut String,
) -> Result<(), AllocError> {
    let [older, newer] = lines else {
        return writeln!(shown, "not asked: no two schemas");
    };
    let last = last.parse::<i32>().unwrap_or(0);
    match ids_of(alloc, older, newer, last, ids) {
        Ok(ids) => writeln!(shown, "{:?}", ids.as_slice()),
        Err(error) => show_refusal(shown, &error),
    }
}

/// The ids of the newer schema.
fn ids_of(
    alloc: Global,
    older: &str,
    newer: &str,
    last: i32,
    ids: &[&str],
) -> Result<Ids, MapError> {
    let known = known_ids(alloc, older, last, ids)?;
    let newer = from_delta(alloc, newer.as_bytes())?;
    let (_, ids) = to_iceberg(alloc, &newer, &known)?;
    Ok(ids)
}

/// Shows whether a copy of the first Delta schema is the same as each of them, and has its types.
fn show_compared(alloc: Global, lines: &[&str], shown: &mut String) -> Result<(), AllocError> {
    let Some(first) = lines.first() else {
        return Ok(());
    };
    match from_delta(alloc, first.as_bytes()) {
        Ok(schema) => show_each_compared(alloc, &schema.copy(alloc)?, lines, shown),
        Err(_) => writeln!(shown, "not asked: no schema"),
    }
}

fn show_each_compared(
    alloc: Global,
    first: &Schema,
    lines: &[&str],
    shown: &mut String,
) -> Result<(), AllocError> {
    for line in lines {
        match from_delta(alloc, line.as_bytes()) {
            Ok(other) => show_same(alloc, first, &other, shown)?,
            Err(error) => show_refusal(shown, &error)?,
        }
    }
    Ok(())
}

fn show_same(
    alloc: Global,
    first: &Schema,
    other: &Schema,
    shown: &mut String,
) -> Result<(), AllocError> {
    let same_schema = first == other;
    let same_types = have_same_types(alloc, first, other)?;
    writeln!(
        shown,
        "same schema: {same_schema}, same types: {same_types}"
    )
}

/// Whether the columns have the same types in their order, as far as both schemas have them.
fn have_same_types(alloc: Global, schema: &Schema, other: &Schema) -> Result<bool, AllocError> {
    let mut are_same = true;
    for (column, other) in schema.columns().iter().zip(other.columns().iter()) {
        are_same &= column.kind.copy(alloc)?.is_same(&other.kind);
    }
    Ok(are_same)
}
