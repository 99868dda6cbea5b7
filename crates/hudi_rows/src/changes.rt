//! Instants from lines, and the changes that they make.
ghost use Rattle.std.specs.Prelude.{None};
ghost use Rattle.hudi_timeline.specs.Change.{GoesOn};

use crate::properties::show_error;
use hudi_groups::{Form, GroupedTable};
use hudi_instant::{Instant, Stat};
use hudi_names::HudiError;
use hudi_properties::HudiTable;
use hudi_timeline::change_of;
use json_reading::count_in;
use lake_basics::{Items, Text};
use rows::{Step, show_no_step};
use serde_json::Value;
use std::alloc::{AllocError, Global};
use table_history::{Change, Table};
use table_rows::{show_change, texts_of};

/// The size of each file in bytes.
const SIZE: u64 = 10;

/// Does a step on instants, the first of which makes the base, or sets what they are read by.
pub(crate) fn tell_instant_step(
    alloc: Global,
    table: &mut HudiTable,
    form: &mut Form,
    base: &mut Table,
    step: &Step<'_>,
    shown: &mut String,
) -> Result<(), AllocError> {
    match step.word_at(0) {
        "columns" => set_columns(alloc, table, step.words_from(1)),
        "external" => set_external(alloc, form, step.word_at(1)),
        "many" => tell_many(alloc, table, step, shown),
        _ => tell_lines(alloc, table, form, base, step, shown),
    }
}

fn set_columns(alloc: Global, table: &mut HudiTable, names: &[&str]) -> Result<(), AllocError> {
    *table = table_by(texts_of(alloc, names)?);
    Ok(())
}

fn set_external(alloc: Global, form: &mut Form, time: &str) -> Result<(), AllocError> {
    let time = Text::from_str(alloc, time)?;
    *form = Form::External { time };
    Ok(())
}

/// Adds the change that the instant of the lines makes.
fn tell_lines(
    alloc: Global,
    table: &HudiTable,
    form: &Form,
    base: &mut Table,
    step: &Step<'_>,
    shown: &mut String,
) -> Result<(), AllocError> {
    match instant_of(alloc, step.lines())? {
        Some(instant) => tell_change(alloc, &instant, form, table, base, step, shown),
        None => show_no_step(shown, step),
    }
}

fn tell_change(
    alloc: Global,
    instant: &Instant,
    form: &Form,
    table: &HudiTable,
    base: &mut Table,
    step: &Step<'_>,
    shown: &mut String,
) -> Result<(), AllocError> {
    match step.word_at(0) {
        "first" => tell_first(alloc, instant, form, table, base, shown),
        "next" => tell_next(alloc, instant, form, table, base, shown),
        _ => show_no_step(shown, step),
    }
}

/// An instant that writes these files and replaces nothing, of the schema that it states.
fn instant_of_stats(alloc: Global, stats: Items<Stat>, schema: Option<Text>) -> Instant {
    Instant {
        stats,
        replaced: Items::new(alloc),
        schema,
        mark: None,
    }
}

/// The file that a JSON array says by its folder, its group, its path and its number of records.
fn stat_in(alloc: Global, list: &[Value]) -> Result<Option<Stat>, AllocError> {
    let [
        Value::String(folder),
        Value::String(group),
        Value::String(path),
        records,
    ] = list
    else {
        return Ok(None);
    };
    let Some(writes) = count_in(records) else {
        return Ok(None);
    };
    Ok(Some(Stat {
        file_id: Text::from_str(alloc, group.as_str())?,
        partition_path: Text::from_str(alloc, folder.as_str())?,
        path: Text::from_str(alloc, path.as_str())?,
        writes,
        size: SIZE,
    }))
}

/// The file group that a JSON array says by its folder and its name.
fn replaced_in(alloc: Global, list: &[Value]) -> Result<Option<(Text, Text)>, AllocError> {
    match list {
        [Value::String(folder), Value::String(group)] => Ok(Some((
            Text::from_str(alloc, folder.as_str())?,
            Text::from_str(alloc, group.as_str())?,
        ))),
        _ => Ok(None),
    }
}

/// Adds the file that is written. Answers whether there is one.
fn add_stat(alloc: Global, instant: &mut Instant, list: &[Value]) -> Result<bool, AllocError> {
    match stat_in(alloc, list)? {
        Some(stat) => {
            instant.stats.push(stat)?;
            Ok(true)
        }
        None => Ok(false),
    }
}

/// Adds the file group that is replaced. Answers whether there is one.
fn add_replaced(alloc: Global, instant: &mut Instant, list: &[Value]) -> Result<bool, AllocError> {
    match replaced_in(alloc, list)? {
        Some(replaced) => {
            instant.replaced.push(replaced)?;
            Ok(true)
        }
        None => Ok(false),
    }
}

fn add_list(
    alloc: Global,
    instant: &mut Instant,
    word: &str,
    list: &[Value],
) -> Result<bool, AllocError> {
    match word {
        "write" => add_stat(alloc, instant, list),
        "replace" => add_replaced(alloc, instant, list),
        _ => Ok(false),
    }
}

/// Adds what a JSON array behind a word says to the instant. Answers whether it says something.
fn add_json(
    alloc: Global,
    instant: &mut Instant,
    word: &str,
    text: &str,
) -> Result<bool, AllocError> {
    match Value::from_str(alloc, text) {
        Ok(Value::Array(list)) => add_list(alloc, instant, word, list.as_slice()),
        _ => Ok(false),
    }
}

/// Adds what a line says to the instant. Answers whether it says something.
fn add_line(alloc: Global, instant: &mut Instant, line: &str) -> Result<bool, AllocError> {
    let (word, text) = line.split_once(' ').unwrap_or((line, ""));
    if word != "schema" {
        return add_json(alloc, instant, word, text);
    }
    instant.schema = Some(Text::from_str(alloc, text)?);
    Ok(true)
}

/// Adds what lines say to the instant. Answers whether each of them says something.
fn add_lines(alloc: Global, instant: &mut Instant, lines: &[&str]) -> Result<bool, AllocError> {
    for line in lines {
        if !add_line(alloc, instant, line)? {
            return Ok(false);
        }
    }
    Ok(true)
}

/// The instant that lines say, or nothing where one of them says nothing.
fn instant_of(alloc: Global, lines: &[&str]) -> Result<Option<Instant>, AllocError> {
    let mut instant = instant_of_stats(alloc, Items::new(alloc), None);
    let is_said = add_lines(alloc, &mut instant, lines)?;
    Ok(if is_said { Some(instant) } else { None })
}

fn show_made(alloc: Global, change: &Change, shown: &mut String) -> Result<(), AllocError> {
    show_change(alloc, change, shown)?;
    let removed = change.removed.len();
    writeln!(shown, "{removed} removed, {} added", change.added.len())
}

/// Makes the base the table behind the first change.
fn set_after(
    alloc: Global,
    change: &Change,
    table: &HudiTable,
    base: &mut Table,
) -> Result<(), AllocError>
    requires { GoesOn table.now None change.now }
{
    *base = Table::empty(alloc, table.partition.as_slice())?;
    base.apply(alloc, change)
}

fn show_first(
    alloc: Global,
    change: &Change,
    table: &HudiTable,
    base: &mut Table,
    shown: &mut String,
) -> Result<(), AllocError>
    requires { GoesOn table.now None change.now }
{
    set_after(alloc, change, table, base)?;
    show_made(alloc, change, shown)
}

/// Adds the change that the instant makes as the first, or why it makes none. The base is the table behind it.
fn tell_first(
    alloc: Global,
    instant: &Instant,
    form: &Form,
    table: &HudiTable,
    base: &mut Table,
    shown: &mut String,
) -> Result<(), AllocError> {
    match change_of(alloc, instant, form, table, None) {
        Ok(change) => show_first(alloc, &change, table, base, shown),
        Err(error) => show_error(error, shown),
    }
}

fn change_behind(
    alloc: Global,
    instant: &Instant,
    form: &Form,
    table: &HudiTable,
    base: &Table,
) -> Result<Change, HudiError> {
    let before = GroupedTable::by_paths(base.copy(alloc)?);
    change_of(alloc, instant, form, table, Some(&before))
}

/// Adds the change that the instant makes behind the first, or why it makes none.
fn tell_next(
    alloc: Global,
    instant: &Instant,
    form: &Form,
    table: &HudiTable,
    base: &Table,
    shown: &mut String,
) -> Result<(), AllocError> {
    match change_behind(alloc, instant, form, table, base) {
        Ok(change) => show_made(alloc, &change, shown),
        Err(error) => show_error(error, shown),
    }
}

// ---- numbers

/// Adds whether the first instant can be taken that words `many files COUNT` or
/// `many columns COUNT PARTITION` say.
fn tell_many(
    alloc: Global,
    table: &HudiTable,
    step: &Step<'_>,
    shown: &mut String,
) -> Result<(), AllocError> {
    let count = step.word_at(2).parse::<u32>();
    let partition = step.word_at(3).parse::<u32>();
    match (step.word_at(1), count, partition) {
        ("files", Ok(count), _) => tell_many_files(alloc, count, table, shown),
        ("columns", Ok(count), Ok(partition)) => {
            tell_many_columns(alloc, count, partition, shown)
        }
        _ => show_no_step(shown, step),
    }
}

fn tell_taken(
    alloc: Global,
    instant: &Instant,
    table: &HudiTable,
    shown: &mut String,
) -> Result<(), AllocError> {
    match change_of(alloc, instant, &Form::Base, table, None) {
        Ok(_) => shown.push_str("taken\n"),
        Err(error) => show_error(error, shown),
    }
}

/// A file of this number, in a group of its own.
fn stat_of_number(alloc: Global, number: u32) -> Result<Stat, AllocError> {
    let name = format!(in alloc; "{number}.parquet")?;
    Ok(Stat {
        file_id: Text::from_str(alloc, name.as_str())?,
        partition_path: Text::from_str(alloc, "")?,
        path: Text::from_string(name),
        writes: 1,
        size: SIZE,
    })
}

/// So many files, each in a group of its own.
fn stats_of(alloc: Global, count: u32) -> Result<Items<Stat>, AllocError> {
    let mut stats = Items::new(alloc);
    for number in 0..count {
        stats.push(stat_of_number(alloc, number)?)?;
    }
    Ok(stats)
}

/// Adds whether a first instant can be taken that writes so many files, each of a group of its own.
fn tell_many_files(
    alloc: Global,
    count: u32,
    table: &HudiTable,
    shown: &mut String,
) -> Result<(), AllocError> {
    let schema = r#"{"type":"record","name":"r","fields":[{"name":"id","type":"long"}]}"#;
    let schema = Text::from_str(alloc, schema)?;
    let stats = stats_of(alloc, count)?;
    let instant = instant_of_stats(alloc, stats, Some(schema));
    tell_taken(alloc, &instant, table, shown)
}

/// A schema of so many columns.
fn schema_of(alloc: Global, count: u32) -> Result<Text, AllocError> {
    let mut schema = String::from_str(alloc, r#"{"type":"record","name":"r","fields":["#)?;
    for number in 0..count {
        let comma = if number > 0 { "," } else { "" };
        write!(schema, r#"{comma}{{"name":"c{number}","type":"long"}}"#)?;
    }
    schema.push_str("]}")?;
    Ok(Text::from_string(schema))
}

/// The names of the first so many columns.
fn names_of_first(alloc: Global, count: u32) -> Result<Items<Text>, AllocError> {
    let mut names = Items::new(alloc);
    for number in 0..count {
        let name = format!(in alloc; "c{number}")?;
        names.push(Text::from_string(name))?;
    }
    Ok(names)
}

/// Adds whether a first instant can be taken whose schema has so many columns, of which the first so many are
/// partition columns.
fn tell_many_columns(
    alloc: Global,
    count: u32,
    partition: u32,
    shown: &mut String,
) -> Result<(), AllocError> {
    let schema = schema_of(alloc, count)?;
    let table = table_by(names_of_first(alloc, partition)?);
    let instant = instant_of_stats(alloc, Items::new(alloc), Some(schema));
    tell_taken(alloc, &instant, &table, shown)
}

/// A table of these partition columns, in hive style with escapes.
pub(crate) fn table_by(partition: Items<Text>) -> HudiTable {
    HudiTable {
        partition,
        hive_style: true,
        url_encode: true,
        ours: false,
    }
}
