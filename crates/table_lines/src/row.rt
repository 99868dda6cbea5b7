//! The line of a live file. It is written token by token, so no tree of its JSON stands in memory.

ghost use Rattle.std.specs.Prelude.{◌≡◌, ◌++◌, IfOk, OnOk, map};
ghost use Rattle.json.specs.Tree.{json_tokens};
ghost use Rattle.serde_json.specs.Data.{array};
ghost use Rattle.serde_json.specs.View.{items_of};
ghost use Rattle.serde_json.specs.Written.{outline};
ghost use Rattle.table_lines.specs.TableLines.{value_data, row_data, row_line};

use json::Writer;
use std::alloc::{AllocError, Global};
use table_history::{FileRow, PartValue};

fn write_value(out: &mut Writer, value: &PartValue) -> Result<(), AllocError>
    ensures before { OnOk result (out.new.before ≡ out.old.before) }
    ensures tokens { OnOk result (out.new.tokens
        ≡ out.old.tokens ++ json_tokens (outline (value_data value.now))) }
{
    match value {
        PartValue::Null => out.null(),
        PartValue::Boolean(truth) => out.boolean(*truth),
        PartValue::Int(number) => out.i64(i64::from(*number)),
        PartValue::Long(number) => out.i64(*number),
        PartValue::Text(text) => out.string(text.as_str()),
        PartValue::Date(days) => out.i64(i64::from(*days)),
    }
}

fn write_values(out: &mut Writer, values: &[PartValue]) -> Result<(), AllocError>
    ensures before { OnOk result (out.new.before ≡ out.old.before) }
    ensures tokens { OnOk result (out.new.tokens
        ≡ out.old.tokens ++ json_tokens (outline (array (items_of (map value_data values.now))))) }
{
    out.begin_array()?;
    for value in values {
        write_value(out, value)?;
    }
    out.end_array()
}

fn write_row(out: &mut Writer, row: &FileRow) -> Result<(), AllocError>
    ensures before { OnOk result (out.new.before ≡ out.old.before) }
    ensures tokens { OnOk result (out.new.tokens
        ≡ out.old.tokens ++ json_tokens (outline (row_data row.now))) }
{
    out.begin_array()?;
    out.string(row.path.as_str())?;
    out.u64(row.count)?;
    out.u64(row.size)?;
    write_values(out, row.values.as_slice())?;
    out.end_array()
}

/// The most bytes of a number, a truth value or a null, with a comma.
const PLAIN_BYTES: usize = 21;

/// The bytes that a text takes with its quotes and a comma, unless it has escapes.
fn text_bytes(text: &str) -> usize {
    text.len().saturating_add(3)
}

fn value_bytes(value: &PartValue) -> usize {
    match value {
        PartValue::Text(text) => text_bytes(text.as_str()),
        _ => PLAIN_BYTES,
    }
}

/// Room for the line of a live file, unless it has escapes.
fn line_bytes(row: &FileRow) -> usize {
    // The brackets and the newline are 5 more.
    let mut room = text_bytes(row.path.as_str()).saturating_add(2 * PLAIN_BYTES + 5);
    for value in row.values.as_slice() {
        room = room.saturating_add(value_bytes(value));
    }
    room
}

/// The line of a live file: its path, number of records, size in bytes and partition values, as
/// compact JSON.
pub fn row_line(alloc: Global, row: &FileRow) -> Result<Vec<u8>, AllocError>
    ensures { IfOk result (λ bytes. bytes.items ≡ row_line row.now) }
{
    let room = Vec::with_capacity(alloc, line_bytes(row))?;
    let mut out = Writer::new(room);
    write_row(&mut out, row)?;
    // JSON has no byte under 32, so each is printed as it is.
    let mut line = out.into_inner();
    line.push(b'\n')?;
    Ok(line)
}
