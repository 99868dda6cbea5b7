//! Avro containers, also of what no writer writes.
use avro_value::{push_bytes, push_natural, put_long};
use rows::bytes_of_hex;
use std::alloc::{AllocError, Global};

/// The bytes of a container of one block that is said to hold so many objects, of which the lines state the
/// schema and, in hexadecimal digits, the objects.
pub(crate) fn container_of_lines(
    alloc: Global,
    codec: &str,
    count: &str,
    lines: &[&str],
) -> Result<Option<Vec<u8>>, AllocError> {
    let (Ok(count), Some((schema, digits))) = (count.parse::<i64>(), lines.split_first()) else {
        return Ok(None);
    };
    match bytes_of_lines(alloc, digits)? {
        Some(objects) => {
            let mut bytes = Vec::new(alloc);
            push_head(&mut bytes, codec, schema)?;
            push_block(&mut bytes, count, objects.as_slice())?;
            Ok(Some(bytes))
        }
        None => Ok(None),
    }
}

/// Adds a head, by "Object Container Files" of the Avro specification.
fn push_head(out: &mut Vec<u8>, codec: &str, schema: &str) -> Result<(), AllocError> {
    push_bytes(out, b"Obj\x01\x04")?;
    push_sized(out, b"avro.codec")?;
    push_sized(out, codec.as_bytes())?;
    push_sized(out, b"avro.schema")?;
    push_sized(out, schema.as_bytes())?;
    push_bytes(out, b"\x00")?;
    push_bytes(out, MARKER)
}

/// Adds a block, by the same.
fn push_block(out: &mut Vec<u8>, count: i64, objects: &[u8]) -> Result<(), AllocError> {
    push_long(out, count)?;
    push_sized(out, objects)?;
    push_bytes(out, MARKER)
}

/// What the marker of each container is.
const MARKER: &[u8] = b"lakebridge-sync!";

/// The bytes of which lines have the hexadecimal digits.
pub(crate) fn bytes_of_lines(alloc: Global, lines: &[&str]) -> Result<Option<Vec<u8>>, AllocError> {
    let mut digits = String::new(alloc);
    for line in lines {
        digits.push_str(line)?;
    }
    bytes_of_hex(alloc, digits.as_str())
}

/// Adds the length of the bytes, and them.
fn push_sized(out: &mut Vec<u8>, bytes: &[u8]) -> Result<(), AllocError> {
    push_natural(out, bytes.len() as u64)?;
    push_bytes(out, bytes)
}

fn push_long(out: &mut Vec<u8>, number: i64) -> Result<(), AllocError> {
    let mut spelled = [0; 10];
    let len = put_long(&mut spelled, number);
    push_bytes(out, &spelled[..len])
}
