//! Steps on Avro schemas, numbers and values.
use crate::containers;
use crate::schemas::show_schemas;
use avro_schema::Schema;
use avro_value::{AvroError, decode, decode_within, encode, put_long, read_long};
use lake_basics::Blob;
use rows::{Step, bytes_given, hex_of, show_refused};
use std::alloc::{AllocError, Global};

/// What is shown of the bytes of a value.
#[derive(Clone, Copy)]
enum Form {
    /// The value that they begin with.
    Decoded,
    /// The same, where so many values may be made.
    Within(usize),
    /// The bytes that the value is encoded as.
    Encoded,
}

/// Does a step on schemas, numbers or values, or else one on containers.
pub fn step(alloc: Global, step: &Step<'_>, shown: &mut String) -> Result<(), AllocError> {
    match step.words() {
        "schemas" => show_schemas(alloc, step.lines(), shown),
        "numbers" => show_numbers(alloc, step.lines(), shown),
        "bytes of numbers" => show_digits(alloc, step.lines(), shown),
        "decode" => show_values(alloc, Form::Decoded, step.lines(), shown),
        "encode" => show_values(alloc, Form::Encoded, step.lines(), shown),
        _ => step_within(alloc, step, shown),
    }
}

fn step_within(alloc: Global, step: &Step<'_>, shown: &mut String) -> Result<(), AllocError> {
    match step.each_word() {
        ["decode", budget, "values"] => {
            let budget = budget.parse::<usize>().unwrap_or(0);
            show_values(alloc, Form::Within(budget), step.lines(), shown)
        }
        _ => containers::step(alloc, step, shown),
    }
}

/// Shows the number that the bytes of each line begin with, and where it ends.
fn show_numbers(alloc: Global, lines: &[&str], shown: &mut String) -> Result<(), AllocError> {
    for line in lines {
        show_number(alloc, line, shown)?;
    }
    Ok(())
}

fn show_number(alloc: Global, line: &str, shown: &mut String) -> Result<(), AllocError> {
    let read = read_long(&bytes_given(alloc, line)?, 0);
    match read {
        Ok((number, end)) => writeln!(shown, "{line} -> {number}, ends at {end}"),
        Err(error) => show_refused(shown, line, &error),
    }
}

/// Shows the bytes of each number.
fn show_digits(alloc: Global, lines: &[&str], shown: &mut String) -> Result<(), AllocError> {
    for line in lines {
        if let Ok(number) = line.parse::<i64>() {
            show_digits_of(alloc, line, number, shown)?;
        }
    }
    Ok(())
}

fn show_digits_of(
    alloc: Global,
    line: &str,
    number: i64,
    shown: &mut String,
) -> Result<(), AllocError> {
    let mut bytes = [0; 10];
    let length = put_long(&mut bytes, number);
    show_hex(alloc, line, &bytes[..length], shown)
}

fn show_hex(alloc: Global, line: &str, bytes: &[u8], shown: &mut String) -> Result<(), AllocError> {
    let digits = hex_of(alloc, bytes)?;
    writeln!(shown, "{line} -> {digits}")
}

/// Shows each line's bytes in this form. The first line is the schema.
fn show_values(
    alloc: Global,
    form: Form,
    lines: &[&str],
    shown: &mut String,
) -> Result<(), AllocError> {
    match lines.split_first() {
        Some((first, rest)) => match Schema::from_json(alloc, first.as_bytes()) {
            Ok(schema) => show_each(alloc, form, &schema, rest, shown),
            Err(_) => writeln!(shown, "not asked: no schema"),
        },
        None => writeln!(shown, "not asked: no schema"),
    }
}

fn show_each(
    alloc: Global,
    form: Form,
    schema: &Schema,
    lines: &[&str],
    shown: &mut String,
) -> Result<(), AllocError> {
    for line in lines {
        let bytes = bytes_given(alloc, line)?;
        show_in_form(alloc, form, schema, line, &bytes, shown)?;
    }
    Ok(())
}

fn show_in_form(
    alloc: Global,
    form: Form,
    schema: &Schema,
    line: &str,
    bytes: &[u8],
    shown: &mut String,
) -> Result<(), AllocError> {
    match form {
        Form::Decoded => show_decoded(alloc, schema, line, bytes, shown),
        Form::Within(budget) => show_within(alloc, schema, line, bytes, budget, shown),
        Form::Encoded => show_encoded(alloc, schema, line, bytes, shown),
    }
}

/// Shows the value that the bytes of a line begin with, and where it ends.
fn show_decoded(
    alloc: Global,
    schema: &Schema,
    line: &str,
    bytes: &[u8],
    shown: &mut String,
) -> Result<(), AllocError> {
    match decode(alloc, schema, bytes, 0) {
        Ok((value, end)) => writeln!(shown, "{line} -> {value:?}, ends at {end}"),
        Err(error) => show_refused(shown, line, &error),
    }
}

/// Shows the value that the bytes of a line begin with where so many values may be made, and how many more
/// might be.
fn show_within(
    alloc: Global,
    schema: &Schema,
    line: &str,
    bytes: &[u8],
    budget: usize,
    shown: &mut String,
) -> Result<(), AllocError> {
    match decode_within(alloc, schema, bytes, 0, budget) {
        Ok((value, end, left)) => {
            writeln!(shown, "{line} -> {value:?}, ends at {end}, {left} left")
        }
        Err(error) => show_refused(shown, line, &error),
    }
}

/// Shows the bytes that the value at the front of a line's bytes is encoded as.
fn show_encoded(
    alloc: Global,
    schema: &Schema,
    line: &str,
    bytes: &[u8],
    shown: &mut String,
) -> Result<(), AllocError> {
    match encoded_again(alloc, schema, bytes) {
        Ok(bytes) => show_hex(alloc, line, bytes.as_slice(), shown),
        Err(error) => show_refused(shown, line, &error),
    }
}

fn encoded_again(alloc: Global, schema: &Schema, bytes: &[u8]) -> Result<Blob, AvroError> {
    let (value, _) = decode(alloc, schema, bytes, 0)?;
    encode(alloc, schema, &value)
}
