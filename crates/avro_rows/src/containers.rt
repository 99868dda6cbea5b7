//! Steps on Avro containers.
use crate::pieces::{show_bytes, show_cuts, show_pieces};
use crate::schemas::text_or_none;
use avro_container::{Container, ContainerError, Meta, read_container, write_container};
use avro_value::Value;
use lake_basics::{Blob, Items};
use rows::{Step, bytes_given, hex_of, show_error, show_no_step};
use std::alloc::{AllocError, Global};

/// Does a step on containers.
pub fn step(alloc: Global, step: &Step<'_>, shown: &mut String) -> Result<(), AllocError> {
    match step.words() {
        "container" => show_container(alloc, step, shown),
        "container again" => show_again(alloc, step, shown),
        "cut in two" => show_cuts(alloc, step, shown),
        "byte by byte" => show_bytes(alloc, step, shown),
        "pieces" => show_pieces(alloc, step.lines(), shown),
        _ => show_no_step(shown, step),
    }
}

/// The bytes that the digits of all lines give.
pub fn bytes_below(alloc: Global, step: &Step<'_>) -> Result<Vec<u8>, AllocError> {
    bytes_given(alloc, step.text(alloc)?.as_str())
}

/// Shows the metadata and the values of the container that the bytes are.
fn show_container(alloc: Global, step: &Step<'_>, shown: &mut String) -> Result<(), AllocError> {
    let bytes = bytes_below(alloc, step)?;
    show_read(read_container(alloc, &bytes), shown)
}

fn show_read(
    read: Result<Container, ContainerError>,
    shown: &mut String,
) -> Result<(), AllocError> {
    match read {
        Ok(container) => show_parts(&container, shown),
        Err(error) => show_error(shown, &error),
    }
}

fn show_parts(container: &Container, shown: &mut String) -> Result<(), AllocError> {
    show_meta(&container.meta, shown)?;
    show_values(container.values.as_slice(), shown)
}

fn show_meta(meta: &Meta, shown: &mut String) -> Result<(), AllocError> {
    for (name, bytes) in meta.as_slice() {
        let text = text_or_none(bytes.as_slice());
        writeln!(shown, "{}: {text}", name.as_str())?;
    }
    Ok(())
}

/// Shows each value.
pub fn show_values(values: &[Value], shown: &mut String) -> Result<(), AllocError> {
    for value in values {
        writeln!(shown, "{value:?}")?;
    }
    Ok(())
}

/// Shows the bytes of a container of the same values, with no metadata of its own.
fn show_again(alloc: Global, step: &Step<'_>, shown: &mut String) -> Result<(), AllocError> {
    let bytes = bytes_below(alloc, step)?;
    show_written(alloc, written_again(alloc, &bytes), shown)
}

fn show_written(
    alloc: Global,
    written: Result<Blob, ContainerError>,
    shown: &mut String,
) -> Result<(), AllocError> {
    match written {
        Ok(bytes) => show_hex(alloc, bytes.as_slice(), shown),
        Err(error) => show_error(shown, &error),
    }
}

fn show_hex(alloc: Global, bytes: &[u8], shown: &mut String) -> Result<(), AllocError> {
    let digits = hex_of(alloc, bytes)?;
    writeln!(shown, "{digits}")
}

fn written_again(alloc: Global, bytes: &[u8]) -> Result<Blob, ContainerError> {
    let container = read_container(alloc, bytes)?;
    let values = container.values.as_slice();
    let meta = Items::new(alloc);
    write_container(
        alloc,
        &meta,
        &container.schema,
        values,
        *b"lakebridge-sync!",
    )
}
