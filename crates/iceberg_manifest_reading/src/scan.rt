//! The entries that a manifest's values stand for.

ghost use Rattle.std.specs.Prelude.{◌≡◌, ◌<◌, ◌^◌, map, IfOk};
ghost use Rattle.std.specs.Prelude.{Ok, Err};
ghost use Rattle.lake_basics.specs.Outcome.{Gives, each};
ghost use Rattle.avro_schema.specs.Tree.{tree_of};
ghost use Rattle.avro_value.specs.ValueTree.{value_tree, values_of};
ghost use Rattle.iceberg_manifest.specs.EntryReading.{status_of, is_parquet as is_parquet_of, data_file as data_file_of, entry_record as entry_record_of, judged as judged_of, entry_by, entries_in};

use crate::partition::parts;
use crate::plan::entry_plan;
use crate::value::{
    int, record, required_natural, required_record, required_text, required_whole, sequence,
    whole_if_any, whole_or_zero,
};
use avro_value::{Schema, Value};
use iceberg_manifest::{
    DataFile, Entry, EntryFault, EntryPlan, EntryRecord, FLAW, FilePlan, Flaw, PartColumn, Reading,
};
use lake_basics::{Items, ReadError, Text};
use std::alloc::Global;

fn status(n: i64) -> Reading<u8>
    ensures is { Gives (λ s. s) result (status_of n) }
    ensures known { IfOk result (λ s. s < 3) }
{
    if n < 0 || 2 < n {
        return Err(FLAW);
    }
    Ok(n as u8)
}

fn is_parquet(format: &Text) -> bool
    ensures { result ≡ is_parquet_of format.now }
{
    format.as_str().eq_ignore_ascii_case("parquet")
}

#[tactic(auto, unfolding(iceberg_manifest::specs::EntryReading::data_file))]
fn data_file(alloc: Global, plan: &FilePlan, values: &[Value]) -> Reading<DataFile>
    ensures is { Gives (λ f. f) result
        (data_file_of plan.now (values_of (map value_tree values.now))) }
    ensures few { IfOk result (λ f. f.count < 2 ^ 63) }
    ensures small { IfOk result (λ f. f.size < 2 ^ 63) }
{
    let content = whole_or_zero(values, plan.content)?;
    let content = int(content)?;
    let path = required_text(values, plan.path)?;
    let format = required_text(values, plan.format)?;
    let partition = required_record(values, plan.partition)?;
    let parts = parts(alloc, partition, plan.columns.as_slice())?;
    let count = required_natural(values, plan.count)?;
    let size = required_natural(values, plan.size)?;
    Ok(DataFile {
        content,
        is_parquet: is_parquet(format),
        path: path.copy(alloc)?,
        values: Items::from_vec(parts),
        count,
        size,
    })
}

#[tactic(auto, unfolding(iceberg_manifest::specs::EntryReading::entry_record))]
fn entry_record(alloc: Global, plan: &EntryPlan, value: &Value) -> Reading<EntryRecord>
    ensures { Gives (λ r. r) result (entry_record_of plan.now (value_tree value.now)) }
{
    let values = record(value)?;
    let word = required_whole(values, plan.status)?;
    let status = status(word)?;
    let snapshot = whole_if_any(values, plan.snapshot)?;
    let sequence_number = sequence(values, plan.sequence)?;
    let file_sequence = sequence(values, plan.file_sequence)?;
    let within = required_record(values, plan.file)?;
    let file = data_file(alloc, &plan.fields, within)?;
    let entry = Entry {
        status,
        snapshot,
        sequence: sequence_number,
        file_sequence,
        path: file.path,
        values: file.values,
        count: file.count,
        size: file.size,
    };
    Ok(EntryRecord {
        content: file.content,
        is_parquet: file.is_parquet,
        entry,
    })
}

/// The entry, where it isn't live or its file is a Parquet file of data.
fn judged(found: EntryRecord) -> Result<Entry, ReadError<EntryFault>>
    ensures { Gives (λ e. e) result (judged_of found) }
{
    if found.entry.status < 2 {
        if found.content != 0 {
            return Err(ReadError::Fault(EntryFault::RowDeletes));
        }
        if !found.is_parquet {
            return Err(ReadError::Fault(EntryFault::FileFormat));
        }
    }
    Ok(found.entry)
}

#[tactic(auto, unfolding(iceberg_manifest::specs::EntryReading::entry_by))]
fn entry(alloc: Global, plan: &EntryPlan, value: &Value) -> Result<Entry, ReadError<EntryFault>>
    ensures { Gives (λ e. e) result (entry_by plan.now (value_tree value.now)) }
{
    match entry_record(alloc, plan, value) {
        Ok(found) => judged(found),
        Err(ReadError::Memory) => Err(ReadError::Memory),
        Err(ReadError::Fault(Flaw::Malformed)) => Err(ReadError::Fault(EntryFault::Malformed)),
    }
}

fn entries_by(
    alloc: Global,
    plan: &EntryPlan,
    values: &[Value],
) -> Result<Vec<Entry>, ReadError<EntryFault>>
    ensures { Gives (λ es. es.items) result
        (each (entry_by plan.now) (map value_tree values.now)) }
{
    let mut entries = Vec::with_capacity(alloc, values.len())?;
    for value in values {
        entries.push(entry(alloc, plan, value)?)?;
    }
    Ok(entries)
}

/// The entries that these values of the schema stand for.
#[tactic(auto, unfolding(iceberg_manifest::specs::EntryReading::entries_in))]
pub(crate) fn entries(
    alloc: Global,
    schema: &Schema,
    values: &[Value],
    columns: &[PartColumn],
) -> Result<Vec<Entry>, ReadError<EntryFault>>
    ensures { Gives (λ es. es.items) result
        (entries_in columns.now (tree_of schema.now) (map value_tree values.now)) }
{
    match entry_plan(alloc, columns, schema) {
        Ok(plan) => entries_by(alloc, &plan, values),
        Err(ReadError::Memory) => Err(ReadError::Memory),
        Err(ReadError::Fault(Flaw::Malformed)) => Err(ReadError::Fault(EntryFault::Malformed)),
    }
}
