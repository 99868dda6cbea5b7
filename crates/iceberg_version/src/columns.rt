//! The partition columns of manifests.

ghost use Rattle.std.specs.Prelude.{◌≡◌, Contains, IfOk, IsSome, List, Some, length, ℕ};
ghost use Rattle.partition_map.specs.Columns.{column_kind};
ghost use Rattle.iceberg_version.specs.Writing.{AreColumns};

use iceberg_manifest::PartColumn;
use iceberg_metadata::SpecField;
use lake_basics::Text;
use partition_map::{PartKind, column_kinds};
use std::alloc::{AllocError, Global};
use table_history::Schema;

/// The column of a spec's field, whose values are of this kind.
fn part_column(kind: Option<PartKind>, field: &SpecField) -> PartColumn
    requires { IsSome kind }
    ensures id { result.field_id ≡ field.now.field_id }
    ensures kind { Some result.kind ≡ kind }
{
    PartColumn {
        field_id: field.field_id,
        kind: kind.unwrap(),
    }
}

/// The columns of a spec's fields, each made of the top-level column of its name.
pub(crate) fn part_columns(
    alloc: Global,
    schema: &Schema,
    partition: &[Text],
    fields: &[SpecField],
) -> Result<Vec<PartColumn>, AllocError>
    requires kinds { (name : List ℕ) → Contains partition.now name
        → IsSome (column_kind schema.now name) }
    requires len { length fields.now ≡ length partition.now }
    ensures { IfOk result
        (λ columns. AreColumns schema.now partition.now fields.now columns.items) }
{
    let kinds = column_kinds(alloc, schema, partition)?;
    let kinds = kinds.as_slice();
    let mut columns = Vec::with_capacity(alloc, fields.len())?;
    for (place, field) in fields.iter().enumerate() {
        columns.push(part_column(kinds[place], field))?;
    }
    Ok(columns)
}
