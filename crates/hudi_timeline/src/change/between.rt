//! The change that the rows of an instant make of the rows before.

ghost use Rattle.std.specs.Prelude.{◌≡◌, [], IfOk, IfErr, filter, length};
ghost use Rattle.std.specs.List.{list_any};
ghost use Rattle.std.specs.Option.{option_copied};
ghost use Rattle.hudi_groups.specs.Files.{group_name};
ghost use Rattle.hudi_groups.specs.GroupSets.{has_group};
ghost use Rattle.hudi_timeline.specs.Causes.{rows_before};
ghost use Rattle.table_history.specs.Rows.{HasDistinctPaths, SameRows};
ghost use Rattle.table_history.specs.Tables.{IsDiff};
ghost use Rattle.hudi_timeline.specs.GroupChange.{is_long, limit_passed, row_limit, IsGroupChange, PassesLimitAfter};

use hudi_groups::{Form, GroupedTable, Groups, touched};
use hudi_names::HudiError;
use hudi_properties::HudiTable;
use lake_basics::limits::{MAX_LIVE_FILES, MAX_PARTITION_COLUMNS, MAX_PATH_BYTES};
use lake_basics::{Items, Text};
use schema_map::schema_limit;
use std::alloc::{AllocError, Global};
use table_history::{Change, FileRow, LimitKind, Schema, Table, sorted_rows};

/// The first number that is passed, of so many live rows.
fn limit_passed(
    table: &HudiTable,
    schema: &Schema,
    is_any_long: bool,
    live: u128,
) -> Option<LimitKind>
    ensures { result ≡ limit_passed table.now schema.now is_any_long live }
{
    match schema_limit(schema) {
        Some(which) => Some(which),
        None => row_limit(table, is_any_long, live),
    }
}

fn row_limit(table: &HudiTable, is_any_long: bool, live: u128) -> Option<LimitKind>
    ensures { result ≡ row_limit table.now is_any_long live }
{
    if table.partition.len() as u64 > MAX_PARTITION_COLUMNS {
        Some(LimitKind::PartitionColumns)
    } else if is_any_long {
        Some(LimitKind::Path)
    } else if live > u128::from(MAX_LIVE_FILES) {
        Some(LimitKind::LiveFiles)
    } else {
        None
    }
}

fn is_any_long(rows: &[FileRow]) -> bool
    ensures { result ≡ list_any is_long rows.now }
{
    rows.iter()
        .any(|row| row.path.as_bytes().len() as u64 > MAX_PATH_BYTES)
}

/// How many rows are there before the instant.
#[tactic(auto, using(hudi_groups::proofs::GroupChangeLemmas::distinct_none))]
fn count_before(base: Option<&GroupedTable>) -> usize
    ensures len { result ≡ length (rows_before (option_copied base.entry)) }
    ensures distinct { HasDistinctPaths (rows_before (option_copied base.entry)) }
{
    match base {
        None => 0,
        Some(before) => before.table().rows.len(),
    }
}

/// The rows of these groups before the instant.
#[tactic(auto, using(hudi_groups::proofs::GroupChangeLemmas::distinct_none))]
fn old_rows(
    alloc: Global,
    form: &Form,
    groups: &Groups,
    base: Option<&GroupedTable>,
) -> Result<Vec<FileRow>, AllocError>
    ensures rows { HasDistinctPaths (rows_before (option_copied base.entry))
        → IfOk result (λ v. SameRows v.items
        (filter (λ r. has_group groups.now (group_name form.now r.path))
        (rows_before (option_copied base.entry)))) }
    ensures distinct { HasDistinctPaths (rows_before (option_copied base.entry))
        → IfOk result (λ v. HasDistinctPaths v.items) }
{
    match base {
        None => Ok(Vec::new(alloc)),
        Some(before) => before.rows_of_groups(alloc, form, groups),
    }
}

/// The change of the rows of the groups that the instant writes or replaces.
pub(super) fn group_change(
    alloc: Global,
    form: &Form,
    table: &HudiTable,
    schema: &Schema,
    replaced: &[(Text, Text)],
    base: Option<&GroupedTable>,
    rows: Items<FileRow>,
) -> Result<Change, HudiError>
    ensures change { IfOk result
        (IsGroupChange form.now table.now schema.now replaced.now
        (rows_before (option_copied base.entry)) rows) }
    ensures refused { IfErr result
        (PassesLimitAfter form.now table.now schema.now replaced.now
        (rows_before (option_copied base.entry)) rows) }
{
    let is_any_long = is_any_long(rows.as_slice());
    let newest = touched(alloc, form, rows, replaced)?;
    let old = old_rows(alloc, form, &newest.groups, base)?;
    let kept = count_before(base) - old.len();
    let live = kept as u128 + newest.rows.len() as u128;
    if let Some(which) = limit_passed(table, schema, is_any_long, live) {
        return Err(HudiError::Limit { which });
    }
    Ok(change_between(alloc, old, newest.rows)?)
}

/// The change from rows to others.
fn change_between(
    alloc: Global,
    before: Vec<FileRow>,
    after: Vec<FileRow>,
) -> Result<Change, AllocError>
    requires before { HasDistinctPaths before.items }
    requires after { HasDistinctPaths after.items }
    ensures { IfOk result (λ c. IsDiff before.items after.items c.removed c.added) }
{
    if before.is_empty() {
        return change_from_none(alloc, after);
    }
    let before = table_of(alloc, before)?;
    let after = table_of(alloc, after)?;
    before.change_to(alloc, &after)
}

/// The change from no row to these.
fn change_from_none(alloc: Global, rows: Vec<FileRow>) -> Result<Change, AllocError>
    requires { HasDistinctPaths rows.items }
    ensures { IfOk result (λ c. IsDiff [] rows.items c.removed c.added) }
{
    Ok(Change {
        schema: None,
        removed: Items::new(alloc),
        added: Items::from_vec(sorted_rows(rows)?),
    })
}

/// A table of these rows.
fn table_of(alloc: Global, rows: Vec<FileRow>) -> Result<Table, AllocError>
    requires { HasDistinctPaths rows.items }
    ensures { IfOk result (λ t. SameRows t.rows rows.items) }
{
    let mut table = Table::empty(alloc, &[])?;
    let change = Change {
        schema: None,
        removed: Items::new(alloc),
        added: Items::from_vec(rows),
    };
    table.apply_owned(change)?;
    Ok(table)
}
