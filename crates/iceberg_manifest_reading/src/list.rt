//! The rows of a manifest list that its values stand for.

ghost use Rattle.std.specs.Prelude.{◌≡◌, ◌≤◌, length, map, FitsSigned, IfOk};
ghost use Rattle.std.specs.Int.{w32};
ghost use Rattle.lake_basics.specs.Outcome.{Gives};
ghost use Rattle.avro_schema.specs.Tree.{tree_of, field_of, fields_of as field_trees};
ghost use Rattle.avro_value.specs.ValueTree.{value_tree, values_of};
ghost use Rattle.iceberg_manifest.specs.ListReading.{count_places as count_places_of, list_plan as list_plan_of, content_of, count_at, counts_at, content_at, numbers_at, info_of, list_row as list_row_of, list_rows, infos_in};

use crate::field::{place, record_fields, required_place};
use crate::value::{
    int, record, required_int, required_text, required_whole, whole_if_any, whole_or_zero,
};
use avro_value::{Field, MAX_VALUES, Schema, Value};
use iceberg_manifest::{
    CountPlaces, Counts, FLAW, FieldKind, ListPlan, ManifestInfo, Reading, RowNumbers,
};
use lake_basics::Text;
use std::alloc::Global;

#[tactic(auto, unfolding(iceberg_manifest::specs::ListReading::count_places))]
fn count_places(fields: &Vec<Field>) -> Reading<CountPlaces>
    ensures { Gives (λ p. p) result (count_places_of (field_trees (map field_of fields.now.items))) }
{
    let added_files = place(fields, 504, FieldKind::Whole)?;
    let existing_files = place(fields, 505, FieldKind::Whole)?;
    let deleted_files = place(fields, 506, FieldKind::Whole)?;
    let added_rows = place(fields, 512, FieldKind::Whole)?;
    let existing_rows = place(fields, 513, FieldKind::Whole)?;
    let deleted_rows = place(fields, 514, FieldKind::Whole)?;
    Ok(CountPlaces {
        added_files,
        existing_files,
        deleted_files,
        added_rows,
        existing_rows,
        deleted_rows,
    })
}

#[tactic(auto, unfolding(iceberg_manifest::specs::ListReading::list_plan))]
fn list_plan(schema: &Schema) -> Reading<ListPlan>
    ensures { Gives (λ p. p) result (list_plan_of (tree_of schema.now)) }
{
    let Some(fields) = record_fields(schema) else {
        return Err(FLAW);
    };
    let path = required_place(fields, 500, FieldKind::Text)?;
    let size = required_place(fields, 501, FieldKind::Whole)?;
    let spec = required_place(fields, 502, FieldKind::Whole)?;
    let content = place(fields, 517, FieldKind::Whole)?;
    let sequence = place(fields, 515, FieldKind::Whole)?;
    let least = place(fields, 516, FieldKind::Whole)?;
    let snapshot = required_place(fields, 503, FieldKind::Whole)?;
    let counts = count_places(fields)?;
    Ok(ListPlan {
        path,
        size,
        spec,
        content,
        sequence,
        least,
        snapshot,
        counts,
    })
}

/// 0 for data, 1 for deletes.
fn content_word(n: i64) -> Reading<i32>
    ensures { Gives (λ c. c) result (content_of n) }
{
    if n == 0 {
        return Ok(0);
    }
    if n == 1 {
        return Ok(1);
    }
    Err(FLAW)
}

/// A count, which may be absent in a row of data, and then is 0.
#[tactic(auto, unfolding(iceberg_manifest::specs::ListReading::count_at))]
fn count(content: i32, values: &[Value], place: Option<usize>) -> Reading<i64>
    ensures { Gives (λ n. n) result
        (count_at content (values_of (map value_tree values.now)) place) }
{
    match whole_if_any(values, place)? {
        Some(n) => Ok(n),
        None => { if content == 0 { Ok(0) } else { Err(FLAW) } }
    }
}

#[tactic(auto, unfolding(iceberg_manifest::specs::ListReading::counts_at))]
fn row_counts(content: i32, places: &CountPlaces, values: &[Value]) -> Reading<Counts>
    ensures { Gives (λ c. c) result
        (counts_at content places.now (values_of (map value_tree values.now))) }
{
    let added_files = int(count(content, values, places.added_files)?)?;
    let existing_files = int(count(content, values, places.existing_files)?)?;
    let deleted_files = int(count(content, values, places.deleted_files)?)?;
    let added_rows = count(content, values, places.added_rows)?;
    let existing_rows = count(content, values, places.existing_rows)?;
    let deleted_rows = count(content, values, places.deleted_rows)?;
    Ok(Counts {
        added_files,
        existing_files,
        deleted_files,
        added_rows,
        existing_rows,
        deleted_rows,
    })
}

#[tactic(auto, unfolding(iceberg_manifest::specs::ListReading::content_at))]
fn content(plan: &ListPlan, values: &[Value]) -> Reading<i32>
    ensures fits { IfOk result (λ c. FitsSigned w32 c) }
    ensures is { Gives (λ c. c) result (content_at plan.now (values_of (map value_tree values.now))) }
{
    let word = whole_or_zero(values, plan.content)?;
    content_word(word)
}

#[tactic(auto, unfolding(iceberg_manifest::specs::ListReading::numbers_at))]
fn numbers(plan: &ListPlan, values: &[Value]) -> Reading<RowNumbers>
    ensures { Gives (λ n. n) result (numbers_at plan.now (values_of (map value_tree values.now))) }
{
    let size = required_whole(values, plan.size)?;
    let spec = required_int(values, plan.spec)?;
    let sequence = whole_or_zero(values, plan.sequence)?;
    let least = whole_or_zero(values, plan.least)?;
    let snapshot = required_whole(values, plan.snapshot)?;
    Ok(RowNumbers {
        size,
        spec,
        sequence,
        least,
        snapshot,
    })
}

#[tactic(auto, unfolding(iceberg_manifest::specs::ListReading::info_of))]
fn info(path: Text, content: i32, numbers: &RowNumbers, counts: &Counts, place: u32) -> ManifestInfo
    ensures { result ≡ info_of path content numbers.now counts.now place }
{
    ManifestInfo {
        manifest_path: path,
        manifest_length: numbers.size,
        partition_spec_id: numbers.spec,
        content,
        sequence_number: numbers.sequence,
        min_sequence_number: numbers.least,
        added_snapshot_id: numbers.snapshot,
        added_files_count: counts.added_files,
        existing_files_count: counts.existing_files,
        deleted_files_count: counts.deleted_files,
        added_rows_count: counts.added_rows,
        existing_rows_count: counts.existing_rows,
        deleted_rows_count: counts.deleted_rows,
        place,
    }
}

#[tactic(auto, unfolding(iceberg_manifest::specs::ListReading::list_row))]
fn list_row(alloc: Global, plan: &ListPlan, place: u32, value: &Value) -> Reading<ManifestInfo>
    ensures { Gives (λ r. r) result (list_row_of plan.now place (value_tree value.now)) }
{
    let values = record(value)?;
    let path = required_text(values, plan.path)?;
    let content = content(plan, values)?;
    let numbers = numbers(plan, values)?;
    let counts = row_counts(content, &plan.counts, values)?;
    let path = path.copy(alloc)?;
    Ok(info(path, content, &numbers, &counts, place))
}

fn rows_by(alloc: Global, plan: &ListPlan, values: &[Value]) -> Reading<Vec<ManifestInfo>>
    requires { length values.now ≤ MAX_VALUES }
    ensures { Gives (λ rs. rs.items) result
        (list_rows plan.now 0 (map value_tree values.now)) }
{
    let mut rows = Vec::with_capacity(alloc, values.len())?;
    let mut place = 0;
    for value in values {
        rows.push(list_row(alloc, plan, place, value)?)?;
        place += 1;
    }
    Ok(rows)
}

/// The rows that these values of the schema stand for.
#[tactic(auto, unfolding(iceberg_manifest::specs::ListReading::infos_in))]
pub(crate) fn infos(alloc: Global, schema: &Schema, values: &[Value]) -> Reading<Vec<ManifestInfo>>
    requires { length values.now ≤ MAX_VALUES }
    ensures { Gives (λ rs. rs.items) result
        (infos_in (tree_of schema.now) (map value_tree values.now)) }
{
    let plan = list_plan(schema)?;
    rows_by(alloc, &plan, values)
}
