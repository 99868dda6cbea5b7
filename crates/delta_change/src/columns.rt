//! The schema and the partition columns behind a commit.

ghost use Rattle.std.specs.Prelude.{◌≡◌, ℕ, List, is_some, IfOk};
ghost use Rattle.std.specs.List.{list_all};
ghost use Rattle.std.specs.Option.{option_copied};
ghost use Rattle.lake_basics.specs.Outcome.{each, GivesUnlessMemory};
ghost use Rattle.table_history.specs.History.{column_type};
ghost use Rattle.table_history.specs.SchemaView.{columns_view as trees_of};
ghost use Rattle.delta_log.specs.Judging.{is_memory, Answers};
ghost use Rattle.delta_change.specs.ChangeSteps.{is_column, has_name, kind_named, part_column, judged_columns, changes_partition, changes_base, told_by, is_named, outlined, judged_schema, with_columns, lacks_first_actions, unshown, unchanged, columns_view, stated_columns, kept_columns, columns_of};

use crate::features::first_feature;
use delta_log::{DeltaCommit, DeltaError, MetaData};
use delta_outline::{Outline, OutlineFault, read_outline};
use indexmap::IndexSet;
use lake_basics::{Items, ReadError, Text};
use partition_map::{PartKind, are_distinct, column_kinds, has_other_kind};
use schema_delta::from_delta;
use schema_map::MapError;
use std::alloc::{AllocError, Global};
use table_history::{Column, Feature, Schema, Table};

const MALFORMED: DeltaError = DeltaError::Malformed { line: 0 };

const SCHEMA_TYPE: DeltaError = DeltaError::Unsupported {
    feature: Feature::SchemaType,
    line: 0,
};

const PARTITION_CHANGE: DeltaError = DeltaError::Unsupported {
    feature: Feature::PartitionChange,
    line: 0,
};

const PARTITION_TYPE: DeltaError = DeltaError::Unsupported {
    feature: Feature::PartitionType,
    line: 0,
};

/// The schema that a commit states, and the partition columns behind it with their kinds.
#[derive(Drop)]
pub(crate) struct Columns {
    pub stated: Option<Schema>,
    pub columns: Items<(Text, PartKind)>,
}

// ---- columns of a schema

/// The names of the columns.
fn column_names<'a>(alloc: Global, columns: &'a [Column]) -> Result<IndexSet<&'a str>, AllocError>
    ensures { IfOk result (λ names. (name : List ℕ)
        → has_name names name ≡ is_some (column_type (trees_of columns.now) name)) }
{
    let mut names = IndexSet::with_capacity(alloc, columns.len())?;
    for column in columns {
        names.insert(column.name.as_str())?;
    }
    Ok(names)
}

fn have_all(columns: &IndexSet<&str>, names: &[Text]) -> bool
    ensures { result ≡ list_all (has_name columns.now) names.now }
{
    names.iter().all(|name| columns.contains(name.as_str()))
}

fn name_set<'a>(alloc: Global, names: &'a [Text]) -> Result<IndexSet<&'a str>, AllocError>
    ensures { IfOk result (λ set. (name : List ℕ) → has_name set name ≡ is_named names.now name) }
{
    let mut set = IndexSet::with_capacity(alloc, names.len())?;
    for name in names {
        set.insert(name.as_str())?;
    }
    Ok(set)
}

/// Whether each of the names is among these.
fn are_named(alloc: Global, fields: &[Text], names: &[Text]) -> Result<bool, AllocError>
    ensures { IfOk result (λ all. all ≡ list_all (is_named fields.now) names.now) }
{
    let fields = name_set(alloc, fields)?;
    Ok(have_all(&fields, names))
}

/// Whether each name is that of a top-level column.
fn are_columns(alloc: Global, schema: &Schema, names: &[Text]) -> Result<bool, AllocError>
    ensures { IfOk result (λ all. all ≡ list_all (is_column schema.now) names.now) }
{
    let columns = column_names(alloc, schema.columns())?;
    Ok(have_all(&columns, names))
}

// ---- partition columns

fn part_column(
    alloc: Global,
    name: &Text,
    kind: Option<PartKind>,
) -> Result<(Text, PartKind), DeltaError>
    ensures { Answers result (kind_named name.now kind) }
{
    let kind = kind.ok_or(PARTITION_TYPE)?;
    Ok((name.copy(alloc)?, kind))
}

fn part_columns(
    alloc: Global,
    schema: &Schema,
    names: &[Text],
) -> Result<Items<(Text, PartKind)>, DeltaError>
    ensures { Answers result (each (part_column schema.now) names.now) }
{
    let kinds = column_kinds(alloc, schema, names)?;
    let mut columns = Items::new(alloc);
    for place in 0..names.len() {
        columns.push(part_column(alloc, &names[place], kinds[place])?)?;
    }
    Ok(columns)
}

/// The partition columns with their kinds. Each is named once, and has a kind.
fn judged_columns(
    alloc: Global,
    schema: &Schema,
    names: &[Text],
) -> Result<Items<(Text, PartKind)>, DeltaError>
    ensures { Answers result (judged_columns schema.now names.now) }
{
    if !are_distinct(alloc, names)? {
        return Err(PARTITION_TYPE);
    }
    part_columns(alloc, schema, names)
}

/// Whether the metadata changes the partition columns of the table before.
fn changes_partition(
    alloc: Global,
    table: &Table,
    meta: &MetaData,
    schema: &Schema,
) -> Result<bool, AllocError>
    ensures { IfOk result (λ changes. changes ≡ changes_partition table.now meta.now schema.now) }
{
    if meta.partition != table.partition {
        return Ok(true);
    }
    has_other_kind(alloc, &table.schema, schema, meta.partition.as_slice())
}

fn changes_base(
    alloc: Global,
    base: Option<&Table>,
    meta: &MetaData,
    schema: &Schema,
) -> Result<bool, AllocError>
    ensures { IfOk result
        (λ changes. changes ≡ changes_base (option_copied base.entry) meta.now schema.now) }
{
    match base {
        None => Ok(false),
        Some(table) => changes_partition(alloc, table, meta, schema),
    }
}

// ---- the schema

/// What is told of a text in the grammar that gives no schema: a type that isn't in the table of types
/// before any number.
fn told_by(told: DeltaError, outline: &Outline) -> DeltaError
    ensures { result ≡ told_by told outline.now }
{
    if outline.has_other { SCHEMA_TYPE } else { told }
}

/// What is told later of such a text, where that isn't for its grammar.
fn outlined(alloc: Global, meta: &MetaData, told: DeltaError) -> Result<DeltaError, DeltaError>
    ensures { Answers result (outlined meta.now told) }
{
    match read_outline(alloc, meta.schema.as_bytes()) {
        Ok(outline) => {
            if are_named(alloc, outline.names.as_slice(), meta.partition.as_slice())? {
                Ok(told_by(told, &outline))
            } else {
                Err(MALFORMED)
            }
        }
        Err(ReadError::Memory) => Err(DeltaError::Memory),
        Err(ReadError::Fault(OutlineFault::Malformed)) => Err(MALFORMED),
    }
}

/// The schema that the text spells, or what is told of one that can't be read, where that isn't for
/// its grammar.
fn judged_schema(alloc: Global, meta: &MetaData) -> Result<Result<Schema, DeltaError>, DeltaError>
    ensures { Answers result (judged_schema meta.now) }
{
    match from_delta(alloc, meta.schema.as_bytes()) {
        Ok(schema) => Ok(Ok(with_columns(alloc, schema, meta)?)),
        Err(MapError::Memory) => Err(DeltaError::Memory),
        Err(MapError::BadSchema) => Err(MALFORMED),
        Err(MapError::SchemaType { .. }) => Ok(Err(outlined(alloc, meta, SCHEMA_TYPE)?)),
        Err(MapError::Limit { which }) => {
            Ok(Err(outlined(alloc, meta, DeltaError::Limit { which })?))
        }
        Err(MapError::AvroName { .. }) => unreachable!(),
    }
}

fn with_columns(alloc: Global, schema: Schema, meta: &MetaData) -> Result<Schema, DeltaError>
    ensures { Answers result (with_columns meta.now schema) }
{
    if are_columns(alloc, &schema, meta.partition.as_slice())? {
        Ok(schema)
    } else {
        Err(MALFORMED)
    }
}

// ---- a commit

fn lacks_first_actions(commit: &DeltaCommit, base: Option<&Table>) -> bool
    ensures { result ≡ lacks_first_actions commit.now (option_copied base.entry) }
{
    base.is_none() && (commit.protocol.is_none() || commit.meta.is_none())
}

/// The protocol and the settings show no feature.
fn unshown(commit: &DeltaCommit) -> Result<(), DeltaError>
    ensures { Answers result (unshown commit.now) }
{
    match first_feature(commit) {
        None => Ok(()),
        Some(feature) => Err(DeltaError::Unsupported { feature, line: 0 }),
    }
}

fn unchanged(
    alloc: Global,
    base: Option<&Table>,
    meta: &MetaData,
    schema: &Schema,
) -> Result<(), DeltaError>
    ensures { Answers result (unchanged (option_copied base.entry) meta.now schema.now) }
{
    if changes_base(alloc, base, meta, schema)? {
        return Err(PARTITION_CHANGE);
    }
    Ok(())
}

#[tactic(auto, unfolding(crate::specs::ChangeSteps::stated_columns))]
fn stated_columns(
    alloc: Global,
    commit: &DeltaCommit,
    meta: &MetaData,
    base: Option<&Table>,
) -> Result<Columns, DeltaError>
    ensures { GivesUnlessMemory is_memory columns_view result
        (stated_columns commit.now meta.now (option_copied base.entry)) }
{
    let read = judged_schema(alloc, meta)?;
    unshown(commit)?;
    let schema = read?;
    let columns = judged_columns(alloc, &schema, meta.partition.as_slice())?;
    unchanged(alloc, base, meta, &schema)?;
    Ok(Columns {
        stated: Some(schema),
        columns,
    })
}

#[tactic(auto, unfolding(crate::specs::ChangeSteps::kept_columns))]
fn kept_columns(alloc: Global, commit: &DeltaCommit, table: &Table) -> Result<Columns, DeltaError>
    ensures { GivesUnlessMemory is_memory columns_view result
        (kept_columns commit.now table.now) }
{
    unshown(commit)?;
    let columns = judged_columns(alloc, &table.schema, table.partition.as_slice())?;
    Ok(Columns {
        stated: None,
        columns,
    })
}

/// The schema that the commit states, and the partition columns behind it.
pub(crate) fn columns_of(
    alloc: Global,
    commit: &DeltaCommit,
    base: Option<&Table>,
) -> Result<Columns, DeltaError>
    ensures { GivesUnlessMemory is_memory columns_view result
        (columns_of commit.now (option_copied base.entry)) }
{
    if lacks_first_actions(commit, base) {
        return Err(MALFORMED);
    }
    match &commit.meta {
        Some(meta) => stated_columns(alloc, commit, meta, base),
        None => match base {
            Some(table) => kept_columns(alloc, commit, table),
            None => Err(MALFORMED),
        },
    }
}
