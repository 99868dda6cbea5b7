//! Avro containers, put together from their parts, so that a script can spell any of them.
use rows::bytes_of_hex;
use std::alloc::{AllocError, Global};

const MARKER: &[u8] = b"lakebridge-sync!";

/// Adds a number as Avro writes a long.
fn push_long(bytes: &mut Vec<u8>, number: usize) -> Result<(), AllocError> {
    let mut left = number.saturating_mul(2);
    for _ in 0..10 {
        let low = (left % 128) as u8;
        left /= 128;
        if left == 0 {
            bytes.push(low)?;
            return Ok(());
        }
        bytes.push(low + 128)?;
    }
    Ok(())
}

/// Adds a text as Avro writes a string.
fn push_text(bytes: &mut Vec<u8>, text: &str) -> Result<(), AllocError> {
    push_long(bytes, text.len())?;
    bytes.extend_from_slice(text.as_bytes())
}

/// Adds the bytes that hexadecimal digits give. Whether they give some.
fn push_digits(alloc: Global, bytes: &mut Vec<u8>, digits: &str) -> Result<bool, AllocError> {
    match bytes_of_hex(alloc, digits)? {
        Some(found) => {
            bytes.extend_from_slice(found.as_slice())?;
            Ok(true)
        }
        None => Ok(false),
    }
}

/// The text of a line that stands in quotes.
fn quoted(line: &str) -> Option<&str> {
    line.strip_prefix('"')?.strip_suffix('"')
}

/// Adds the bytes of a line: those of an Avro string where it stands in quotes, else those that its
/// hexadecimal digits give. Whether it is one or the other.
fn push_line(alloc: Global, bytes: &mut Vec<u8>, line: &str) -> Result<bool, AllocError> {
    let Some(text) = quoted(line) else {
        return push_digits(alloc, bytes, line);
    };
    push_text(bytes, text)?;
    Ok(true)
}

/// The bytes that lines give, one behind the other, or nothing where one of them gives none.
pub(crate) fn bytes_of_lines(alloc: Global, lines: &[&str]) -> Result<Option<Vec<u8>>, AllocError> {
    let mut bytes = Vec::new(alloc);
    for line in lines {
        if !push_line(alloc, &mut bytes, line)? {
            return Ok(None);
        }
    }
    Ok(Some(bytes))
}

/// Adds a block of that many objects, whose bytes these are.
fn push_block(bytes: &mut Vec<u8>, count: usize, objects: &[u8]) -> Result<(), AllocError> {
    push_long(bytes, count)?;
    push_long(bytes, objects.len())?;
    bytes.extend_from_slice(objects)?;
    bytes.extend_from_slice(MARKER)
}

/// Adds the header of a container of this codec and schema.
fn push_header(bytes: &mut Vec<u8>, codec: &str, schema: &str) -> Result<(), AllocError> {
    bytes.extend_from_slice(b"Obj\x01\x04")?;
    for text in ["avro.codec", codec, "avro.schema", schema] {
        push_text(bytes, text)?;
    }
    bytes.push(0)?;
    bytes.extend_from_slice(MARKER)
}

/// An Avro container of this codec and schema, with one block of that many objects, whose bytes these are.
/// Without an object it has no block.
fn container(
    alloc: Global,
    codec: &str,
    schema: &str,
    count: usize,
    objects: &[u8],
) -> Result<Vec<u8>, AllocError> {
    let mut bytes = Vec::new(alloc);
    push_header(&mut bytes, codec, schema)?;
    if count > 0 {
        push_block(&mut bytes, count, objects)?;
    }
    Ok(bytes)
}

/// The container of this codec whose schema is the first line, and whose objects' bytes the lines behind it
/// give. Nothing where they give none, or the count is no number.
pub(crate) fn container_of_lines(
    alloc: Global,
    codec: &str,
    count: &str,
    lines: &[&str],
) -> Result<Option<Vec<u8>>, AllocError> {
    let ([schema, objects @ ..], Ok(count)) = (lines, count.parse::<usize>()) else {
        return Ok(None);
    };
    match bytes_of_lines(alloc, objects)? {
        Some(objects) => { Ok(Some(container(alloc, codec, schema, count, objects.as_slice())?)) }
        None => Ok(None),
    }
}
