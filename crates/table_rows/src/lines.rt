//! Tables and changes from lines.
use json_reading::{count_in, int_in, whole_in};
use lake_basics::{Items, Text};
use partition_map::{PartKind, column_kinds};
use schema_delta::from_delta;
use schema_map::MapError;
use serde_json::Value;
use std::alloc::{AllocError, Global};
use table_history::{Change, Commit, FileRow, PartValue, Schema, Values};

/// What lines say, by their first words.
#[derive(Drop)]
pub(crate) struct Parts<'a> {
    pub schema: Option<&'a str>,
    pub partition: &'a str,
    pub removed: Vec<&'a str>,
    pub rows: Vec<&'a str>,
}

impl<'a> Parts<'a> {
    /// Whether the line is one that may stand there.
    fn read(&mut self, line: &'a str) -> Result<bool, AllocError> {
        let (word, rest) = line.split_once(' ').unwrap_or((line, ""));
        match word {
            "schema" => self.schema = Some(rest),
            "partition" => self.partition = rest,
            "remove" => self.removed.push(rest)?,
            "add" => self.rows.push(rest)?,
            _ if line.starts_with('[') => self.rows.push(line)?,
            _ => return Ok(false),
        }
        Ok(true)
    }
}

/// What the lines say, or nothing where one of them says nothing.
pub(crate) fn parts_of<'a>(
    alloc: Global,
    lines: &[&'a str],
) -> Result<Option<Parts<'a>>, AllocError> {
    let mut parts = Parts {
        schema: None,
        partition: "",
        removed: Vec::new(alloc),
        rows: Vec::new(alloc),
    };
    for line in lines {
        if !parts.read(line)? {
            return Ok(None);
        }
    }
    Ok(Some(parts))
}

/// The schema that a text spells, where one is stated and it spells one.
fn schema_of(alloc: Global, stated: Option<&str>) -> Result<Option<Schema>, AllocError> {
    match stated {
        Some(text) => match from_delta(alloc, text.as_bytes()) {
            Ok(schema) => Ok(Some(schema)),
            Err(MapError::Memory) => Err(AllocError),
            Err(_) => Ok(None),
        },
        None => Ok(None),
    }
}

/// The words as texts.
pub fn texts_of(alloc: Global, words: &[&str]) -> Result<Items<Text>, AllocError> {
    let mut texts = Items::new(alloc);
    for word in words {
        texts.push(Text::from_str(alloc, word)?)?;
    }
    Ok(texts)
}

// ---- rows

/// The value that a JSON value stands for in a column of this kind: a number stands for a day or a long where
/// the kind says so, and else for an int.
fn value_of(
    alloc: Global,
    kind: Option<PartKind>,
    value: &Value,
) -> Result<Option<PartValue>, AllocError> {
    match value {
        Value::Null => Ok(Some(PartValue::Null)),
        Value::Bool(truth) => Ok(Some(PartValue::Boolean(*truth))),
        Value::String(text) => Ok(Some(PartValue::Text(Text::from_str(alloc, text.as_str())?))),
        number => Ok(number_of(kind, number)),
    }
}

fn number_of(kind: Option<PartKind>, value: &Value) -> Option<PartValue> {
    match kind {
        Some(PartKind::Long) => Some(PartValue::Long(whole_in(value)?)),
        Some(PartKind::Date) => Some(PartValue::Date(int_in(value)?)),
        _ => Some(PartValue::Int(int_in(value)?)),
    }
}

fn values_of(
    alloc: Global,
    kinds: &[Option<PartKind>],
    values: &Vec<Value>,
) -> Result<Option<Values>, AllocError> {
    let mut list = Items::new(alloc);
    for (place, value) in values.iter().enumerate() {
        let kind = kinds.get(place).copied().flatten();
        match value_of(alloc, kind, value)? {
            Some(value) => list.push(value)?,
            None => return Ok(None),
        }
    }
    Ok(Some(list))
}

/// The file that the parts of a JSON array say: its path, its number of records, its size and its partition
/// values.
fn row_of(
    alloc: Global,
    kinds: &[Option<PartKind>],
    parts: &[Value],
) -> Result<Option<FileRow>, AllocError> {
    let [path, count, size, values] = parts else {
        return Ok(None);
    };
    let (Some(path), Some(count), Some(size), Some(values)) = (
        path.as_str(),
        count_in(count),
        count_in(size),
        values.as_array(),
    ) else {
        return Ok(None);
    };
    let path = Text::from_str(alloc, path)?;
    match values_of(alloc, kinds, values)? {
        Some(values) => Ok(Some(FileRow {
            path,
            values,
            count,
            size,
        })),
        None => Ok(None),
    }
}

fn add_row(
    alloc: Global,
    kinds: &[Option<PartKind>],
    parts: &[Value],
    rows: &mut Items<FileRow>,
) -> Result<bool, AllocError> {
    match row_of(alloc, kinds, parts)? {
        Some(row) => {
            rows.push(row)?;
            Ok(true)
        }
        None => Ok(false),
    }
}

/// Adds the file that a line says as a JSON array. Answers whether it says one.
fn add_line(
    alloc: Global,
    kinds: &[Option<PartKind>],
    line: &str,
    rows: &mut Items<FileRow>,
) -> Result<bool, AllocError> {
    match Value::from_str(alloc, line) {
        Ok(Value::Array(parts)) => add_row(alloc, kinds, parts.as_slice(), rows),
        _ => Ok(false),
    }
}

/// The kinds of the partition columns in the schema, if there is one.
fn kinds_of(
    alloc: Global,
    schema: Option<&Schema>,
    partition: &[Text],
) -> Result<Vec<Option<PartKind>>, AllocError> {
    match schema {
        Some(schema) => column_kinds(alloc, schema, partition),
        None => Ok(Vec::new(alloc)),
    }
}

/// Adds the files that lines say to the change. Answers whether each of them says one.
fn add_rows(
    alloc: Global,
    partition: &[Text],
    lines: &[&str],
    change: &mut Change,
) -> Result<bool, AllocError> {
    let kinds = kinds_of(alloc, change.schema.as_ref(), partition)?;
    for line in lines {
        if !add_line(alloc, kinds.as_slice(), line, &mut change.added)? {
            return Ok(false);
        }
    }
    Ok(true)
}

// ---- changes

/// The change that lines say for a table of these partition columns: `schema` before Delta's text of the
/// schema that it states, `remove` before each path, and `add` before each file as a JSON array of path,
/// number of records, size and partition values. Nothing where a line says something else.
fn change_of_lines(
    alloc: Global,
    partition: &[Text],
    lines: &[&str],
) -> Result<Option<Change>, AllocError> {
    match parts_of(alloc, lines)? {
        Some(parts) => change_of(alloc, partition, &parts),
        None => Ok(None),
    }
}

fn change_of(
    alloc: Global,
    partition: &[Text],
    parts: &Parts<'_>,
) -> Result<Option<Change>, AllocError> {
    let mut change = Change {
        removed: texts_of(alloc, parts.removed.as_slice())?,
        schema: schema_of(alloc, parts.schema)?,
        added: Items::new(alloc),
    };
    let is_said = add_rows(alloc, partition, parts.rows.as_slice(), &mut change)?;
    Ok(if is_said { Some(change) } else { None })
}

/// Adds the commits that lines say for a table with these partition columns, so many times over: each has
/// the position behind `commit`, and its change in the lines below. Answers whether each of these says
/// something.
pub(crate) fn add_commits(
    alloc: Global,
    partition: &[Text],
    times: u32,
    lines: &[&str],
    commits: &mut Vec<Commit>,
) -> Result<bool, AllocError> {
    for _ in 0..times {
        if !add_commits_once(alloc, partition, lines, commits)? {
            return Ok(false);
        }
    }
    Ok(true)
}

fn add_commits_once(
    alloc: Global,
    partition: &[Text],
    lines: &[&str],
    commits: &mut Vec<Commit>,
) -> Result<bool, AllocError> {
    for (place, line) in lines.iter().enumerate() {
        if let Some(position) = line.strip_prefix("commit ") {
            let below = lines_below(&lines[place + 1..]);
            if !add_commit(alloc, partition, position, below, commits)? {
                return Ok(false);
            }
        }
    }
    Ok(true)
}

fn add_commit(
    alloc: Global,
    partition: &[Text],
    position: &str,
    below: &[&str],
    commits: &mut Vec<Commit>,
) -> Result<bool, AllocError> {
    let position = Text::from_str(alloc, position)?;
    match change_of_lines(alloc, partition, below)? {
        Some(change) => {
            commits.push(Commit { position, change })?;
            Ok(true)
        }
        None => Ok(false),
    }
}

/// The lines before the next commit's.
fn lines_below<'l, 'a>(lines: &'l [&'a str]) -> &'l [&'a str] {
    match lines.iter().position(|line| line.starts_with("commit ")) {
        Some(place) => &lines[..place],
        None => lines,
    }
}
