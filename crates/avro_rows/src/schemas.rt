//! Steps on Avro schemas.
use avro_schema::{Schema, SchemaError};
use lake_basics::Blob;
use rows::show_error;
use std::alloc::{AllocError, Global};
use std::str::from_utf8;

/// Shows the text of the schema that each line spells, or why it spells none.
pub fn show_schemas(alloc: Global, lines: &[&str], shown: &mut String) -> Result<(), AllocError> {
    for line in lines {
        show_schema(alloc, line, shown)?;
    }
    Ok(())
}

fn show_schema(alloc: Global, line: &str, shown: &mut String) -> Result<(), AllocError> {
    match written(alloc, line) {
        Ok(text) => writeln!(shown, "{}", text_or_none(text.as_slice())),
        Err(error) => show_error(shown, &error),
    }
}

/// The bytes as a text, or words for that they are none.
pub fn text_or_none(bytes: &[u8]) -> &str {
    from_utf8(bytes).unwrap_or("no text")
}

/// The text of a copy of the schema that a text spells.
fn written(alloc: Global, text: &str) -> Result<Blob, SchemaError> {
    let schema = Schema::from_json(alloc, text.as_bytes())?;
    schema.copy(alloc)?.to_json(alloc)
}
