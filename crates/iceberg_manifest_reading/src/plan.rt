//! Where a manifest's schema has the fields of its entries: looked up once in a manifest.

ghost use Rattle.std.specs.Prelude.{map};
ghost use Rattle.lake_basics.specs.Outcome.{Gives};
ghost use Rattle.avro_schema.specs.Tree.{tree_of, field_of, fields_of as field_trees};
ghost use Rattle.iceberg_manifest.specs.EntryReading.{file_plan as file_plan_of, entry_plan as entry_plan_of};

use crate::field::{place, record_fields, record_place, required_place};
use crate::partition::column_places;
use avro_value::{Field, Schema};
use iceberg_manifest::{EntryPlan, FLAW, FieldKind, FilePlan, PartColumn, Reading};
use lake_basics::Items;
use std::alloc::Global;

#[tactic(auto, unfolding(iceberg_manifest::specs::EntryReading::file_plan))]
fn file_plan(alloc: Global, columns: &[PartColumn], fields: &Vec<Field>) -> Reading<FilePlan>
    ensures { Gives (λ p. p) result
        (file_plan_of columns.now (field_trees (map field_of fields.now.items))) }
{
    let content = place(fields, 134, FieldKind::Whole)?;
    let path = required_place(fields, 100, FieldKind::Text)?;
    let format = required_place(fields, 101, FieldKind::Text)?;
    let (partition, parts) = record_place(fields, 102)?;
    let count = required_place(fields, 103, FieldKind::Whole)?;
    let size = required_place(fields, 104, FieldKind::Whole)?;
    let places = column_places(alloc, parts, columns)?;
    Ok(FilePlan {
        content,
        path,
        format,
        partition,
        count,
        size,
        columns: Items::from_vec(places),
    })
}

/// The places of the fields in entries of that schema.
#[tactic(auto, unfolding(iceberg_manifest::specs::EntryReading::entry_plan))]
pub(crate) fn entry_plan(
    alloc: Global,
    columns: &[PartColumn],
    schema: &Schema,
) -> Reading<EntryPlan>
    ensures { Gives (λ p. p) result (entry_plan_of columns.now (tree_of schema.now)) }
{
    let Some(fields) = record_fields(schema) else {
        return Err(FLAW);
    };
    let status = required_place(fields, 0, FieldKind::Whole)?;
    let snapshot = place(fields, 1, FieldKind::Whole)?;
    let sequence = place(fields, 3, FieldKind::Whole)?;
    let file_sequence = place(fields, 4, FieldKind::Whole)?;
    let (file, file_fields) = record_place(fields, 2)?;
    let fields_in_file = file_plan(alloc, columns, file_fields)?;
    Ok(EntryPlan {
        status,
        snapshot,
        sequence,
        file_sequence,
        file,
        fields: fields_in_file,
    })
}
