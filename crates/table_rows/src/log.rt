//! Tables from lines, by way of a Delta log that says the same.
ghost use Rattle.std.specs.Prelude.{IfOk, IfSome};
ghost use Rattle.target_core.specs.Conditions.{IsPublishable};

use crate::lines::{Parts, parts_of};
use crate::sources::table_at_head;
use json_reading::text_value;
use lake_store::MemoryStore;
use partition_map::encode_uri_path;
use serde_json::Value;
use source_delta::DeltaSource;
use std::alloc::{AllocError, Global};
use table_history::Table;

const VERSION_0: &str = "_delta_log/00000000000000000000.json";

const PROTOCOL: &str = r#"{"protocol":{"minReaderVersion":1,"minWriterVersion":2}}"#;

/// The text as a JSON string.
fn quoted(alloc: Global, text: &str) -> Result<String, AllocError> {
    text_value(alloc, text)?.to_string(alloc)
}

/// The text that a Delta commit has for a JSON value, as a JSON string, or `null`.
fn value_text(alloc: Global, value: &Value) -> Result<String, AllocError> {
    match value {
        Value::Null => String::from_str(alloc, "null"),
        Value::String(text) => quoted(alloc, text.as_str()),
        other => quoted(alloc, other.to_string(alloc)?.as_str()),
    }
}

/// The members of `partitionValues`: these values under these names.
fn members(alloc: Global, names: &[&str], values: &[Value]) -> Result<String, AllocError> {
    let mut text = String::new(alloc);
    for (place, name) in names.iter().enumerate() {
        if place > 0 {
            text.push(',')?;
        }
        push_member(alloc, name, values.get(place), &mut text)?;
    }
    Ok(text)
}

fn push_member(
    alloc: Global,
    name: &str,
    value: Option<&Value>,
    text: &mut String,
) -> Result<(), AllocError> {
    text.push_str(quoted(alloc, name)?.as_str())?;
    text.push(':')?;
    match value {
        Some(value) => text.push_str(value_text(alloc, value)?.as_str()),
        None => text.push_str("null"),
    }
}

/// Adds the line of a Delta commit that adds the file of the parts of a JSON array: its path, its number of
/// records, its size and its partition values. Answers whether they say a file.
fn add_file(
    alloc: Global,
    names: &[&str],
    parts: &[Value],
    text: &mut String,
) -> Result<bool, AllocError> {
    let [Value::String(path), count, size, Value::Array(values)] = parts else {
        return Ok(false);
    };
    let path = uri_of(alloc, path.as_str())?;
    let values = members(alloc, names, values.as_slice())?;
    let count = count.to_string(alloc)?;
    let size = size.to_string(alloc)?;
    writeln!(
        text,
        r#"{{"add":{{"path":{path},"partitionValues":{{{values}}},"size":{size},"stats":"{{\"numRecords\":{count}}}"}}}}"#
    )?;
    Ok(true)
}

/// Adds the line of a Delta commit that adds the file of a JSON array. Answers whether the line is one.
fn add_line(
    alloc: Global,
    names: &[&str],
    line: &str,
    text: &mut String,
) -> Result<bool, AllocError> {
    match Value::from_str(alloc, line) {
        Ok(Value::Array(parts)) => add_file(alloc, names, parts.as_slice(), text),
        _ => Ok(false),
    }
}

/// The URI of a path, as a JSON string.
fn uri_of(alloc: Global, path: &str) -> Result<String, AllocError> {
    match encode_uri_path(alloc, path) {
        Ok(uri) => quoted(alloc, uri.as_str()),
        Err(_) => Err(AllocError),
    }
}

fn name_list(alloc: Global, names: &[&str]) -> Result<String, AllocError> {
    let mut list = String::new(alloc);
    for (place, name) in names.iter().enumerate() {
        if place > 0 {
            list.push(',')?;
        }
        list.push_str(quoted(alloc, name)?.as_str())?;
    }
    Ok(list)
}

/// The first version of a Delta log of this table.
fn version_text(alloc: Global, parts: &Parts<'_>) -> Result<Option<String>, AllocError> {
    let names: Vec<&str> = parts.partition.split_whitespace().collect(alloc)?;
    let mut text = head_text(alloc, parts.schema.unwrap_or_default(), names.as_slice())?;
    for row in parts.rows.iter() {
        if !add_line(alloc, names.as_slice(), row, &mut text)? {
            return Ok(None);
        }
    }
    Ok(Some(text))
}

/// The lines of the version that add no file.
fn head_text(alloc: Global, schema: &str, names: &[&str]) -> Result<String, AllocError> {
    let schema = quoted(alloc, schema)?;
    let columns = name_list(alloc, names)?;
    format!(in alloc;
        r#"{PROTOCOL}
{{"metaData":{{"id":"t","format":{{"provider":"parquet"}},"schemaString":{schema},"partitionColumns":[{columns}]}}}}
"#
    )
}

/// The table of a log of this one version.
fn table_of_version(alloc: Global, text: &str) -> Result<Option<Table>, AllocError>
    ensures { IfOk result (λ table. IfSome table IsPublishable) }
{
    let mut store = MemoryStore::new(alloc);
    store.put(VERSION_0, text.as_bytes())?;
    match table_at_head(alloc, &DeltaSource::new(), &mut store) {
        Ok(table) => Ok(Some(table)),
        Err(_) => Ok(None),
    }
}

fn table_of_parts(alloc: Global, parts: &Parts<'_>) -> Result<Option<Table>, AllocError>
    ensures { IfOk result (λ table. IfSome table IsPublishable) }
{
    match version_text(alloc, parts)? {
        Some(text) => table_of_version(alloc, text.as_str()),
        None => Ok(None),
    }
}

/// The table that lines say: `schema` before Delta's text of its schema, `partition` before the names of its
/// partition columns, and each file as a JSON array of path, number of records, size and partition values,
/// these as Delta's texts, as numbers or as truths. Nothing where they say no table that may be published.
pub fn table_of_lines(alloc: Global, lines: &[&str]) -> Result<Option<Table>, AllocError>
    ensures { IfOk result (λ table. IfSome table IsPublishable) }
{
    match parts_of(alloc, lines)? {
        Some(parts) => table_of_parts(alloc, &parts),
        None => Ok(None),
    }
}
