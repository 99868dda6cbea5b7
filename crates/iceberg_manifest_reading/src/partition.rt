//! The values of a manifest's partition columns.

ghost use Rattle.std.specs.Prelude.{◌≡◌, map, option_map};
ghost use Rattle.lake_basics.specs.Outcome.{Gives, each};
ghost use Rattle.avro_schema.specs.Tree.{field_of, fields_of as field_trees};
ghost use Rattle.avro_value.specs.ValueTree.{value_tree, values_of};
ghost use Rattle.iceberg_manifest.specs.Partition.{kind_of_values, column_place as column_place_in, whole_part as whole_part_of, part_value as part_value_of, value_if_any as value_if_any_in, part_at, parts_in};

use crate::field::place;
use crate::value::{branch, int, value_at};
use avro_value::{Field, Value};
use iceberg_manifest::{ColumnPlace, FLAW, FieldKind, PartColumn, Reading};
use partition_map::PartKind;
use std::alloc::Global;
use table_history::PartValue;

fn field_kind(kind: PartKind) -> FieldKind
    ensures { result ≡ kind_of_values kind }
{
    match kind {
        PartKind::Boolean => FieldKind::Boolean,
        PartKind::Int | PartKind::Long | PartKind::Date => FieldKind::Whole,
        PartKind::Text => FieldKind::Text,
    }
}

#[tactic(auto, unfolding(iceberg_manifest::specs::Partition::column_place))]
fn column_place(fields: &Vec<Field>, column: PartColumn) -> Reading<ColumnPlace>
    ensures { Gives (λ c. c) result
        (column_place_in (field_trees (map field_of fields.now.items)) column) }
{
    let place = place(fields, column.field_id, field_kind(column.kind))?;
    Ok(ColumnPlace {
        kind: column.kind,
        place,
    })
}

/// The places of the columns, in their order.
pub(crate) fn column_places(
    alloc: Global,
    fields: &Vec<Field>,
    columns: &[PartColumn],
) -> Reading<Vec<ColumnPlace>>
    ensures { Gives (λ cs. cs.items) result
        (each (column_place_in (field_trees (map field_of fields.now.items))) columns.now) }
{
    let mut places = Vec::new(alloc);
    for column in columns {
        places.push(column_place(fields, *column)?)?;
    }
    Ok(places)
}

fn whole_part(kind: PartKind, n: i64) -> Reading<PartValue>
    ensures { Gives (λ v. v) result (whole_part_of kind n) }
{
    match kind {
        PartKind::Int => Ok(PartValue::Int(int(n)?)),
        PartKind::Long => Ok(PartValue::Long(n)),
        PartKind::Date => Ok(PartValue::Date(int(n)?)),
        PartKind::Boolean | PartKind::Text => Err(FLAW),
    }
}

fn part_value(alloc: Global, kind: PartKind, value: &Value) -> Reading<PartValue>
    ensures { Gives (λ v. v) result (part_value_of kind (value_tree value.now)) }
{
    match (kind, value) {
        (_, Value::Null) => Ok(PartValue::Null),
        (PartKind::Boolean, Value::Boolean(b)) => Ok(PartValue::Boolean(*b)),
        (PartKind::Text, Value::Text(text)) => Ok(PartValue::Text(text.copy(alloc)?)),
        (_, Value::Int(n)) => whole_part(kind, i64::from(*n)),
        (_, Value::Long(n)) => whole_part(kind, *n),
        _ => Err(FLAW),
    }
}

fn value_if_any(values: &[Value], place: Option<usize>) -> Option<&Value>
    ensures { option_map (λ v. value_tree v.now) result
        ≡ value_if_any_in (values_of (map value_tree values.now)) place }
{
    value_at(values, place?)
}

#[tactic(auto, unfolding(iceberg_manifest::specs::Partition::part_at))]
fn part(alloc: Global, values: &[Value], column: ColumnPlace) -> Reading<PartValue>
    ensures { Gives (λ v. v) result (part_at (values_of (map value_tree values.now)) column) }
{
    let Some(value) = value_if_any(values, column.place) else {
        return Ok(PartValue::Null);
    };
    match branch(value) {
        Some(branch) => part_value(alloc, column.kind, branch),
        None => Ok(PartValue::Null),
    }
}

/// The values of the columns, in their order. A column without a field has null.
pub(crate) fn parts(
    alloc: Global,
    values: &[Value],
    columns: &[ColumnPlace],
) -> Reading<Vec<PartValue>>
    ensures { Gives (λ ps. ps.items) result
        (parts_in (values_of (map value_tree values.now)) columns.now) }
{
    let mut parts = Vec::with_capacity(alloc, columns.len())?;
    for column in columns {
        parts.push(part(alloc, values, *column)?)?;
    }
    Ok(parts)
}
