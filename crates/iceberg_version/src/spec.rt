//! The partition spec of a table, and its partition columns.

ghost use Rattle.std.specs.Prelude.{◌≡◌, ◌≤◌, ◌+◌, ◌∷◌, [], Contains, IfOk, IsSome, List, length, ℕ};
ghost use Rattle.std.specs.Cmp.Lexicographic.{pointwise};
ghost use Rattle.std.specs.Str.{bytes_eq};
ghost use Rattle.lake_basics.specs.declared.limits.TheConstants.{MAX_PARTITION_COLUMNS};
ghost use Rattle.iceberg_metadata.specs.Paths.{path_ids as held_pairs};
ghost use Rattle.schema_map.specs.Paths.{known_id};
ghost use Rattle.iceberg_version.specs.Schemas.{AreSpecFields, FIRST_PARTITION_ID as FIRST_ID, IsSpecField};

use crate::schemas::path_ids;
use iceberg_metadata::SpecField;
use lake_basics::{Items, Text};
use schema_map::{ColumnPath, Ids};
use std::alloc::{AllocError, Global};
use table_history::Schema;

pub(crate) const FIRST_PARTITION_ID: i32 = 1000;

/// Whether the path is that of the top-level column of this name.
fn is_column(path: &ColumnPath, name: &Text) -> bool
    ensures { result ≡ pointwise bytes_eq path.now (name.now ∷ []) }
{
    match path.as_slice() {
        [only] => only == name,
        _ => false,
    }
}

/// The field id of the top-level column of this name.
fn column_id(pairs: &[(ColumnPath, i32)], name: &Text) -> Option<i32>
    ensures { result ≡ known_id pairs.now (name.now ∷ []) }
{
    for pair in pairs {
        if is_column(&pair.0, name) {
            return Some(pair.1);
        }
    }
    None
}

/// The field of a spec at this place, of the top-level column of this name.
fn spec_field(
    alloc: Global,
    pairs: &[(ColumnPath, i32)],
    place: usize,
    name: &Text,
) -> Result<SpecField, AllocError>
    requires column { IsSome (known_id pairs.now (name.now ∷ [])) }
    requires few { place ≤ MAX_PARTITION_COLUMNS }
    ensures { IfOk result (IsSpecField pairs.now (FIRST_ID + place) name.now) }
{
    let Some(source_id) = column_id(pairs, name) else {
        unreachable!();
    };
    Ok(SpecField {
        field_id: FIRST_PARTITION_ID + place as i32,
        source_id,
        name: name.copy(alloc)?,
        transform: Text::from_str(alloc, "identity")?,
    })
}

/// The fields of the spec of these partition columns, each of which is a top-level column.
pub fn spec_fields(
    alloc: Global,
    schema: &(i32, Schema, Ids),
    partition: &[Text],
) -> Result<Items<SpecField>, AllocError>
    requires columns { (name : List ℕ) → Contains partition.now name
        → IsSome (known_id (held_pairs schema.now) (name ∷ [])) }
    requires few { length partition.now ≤ MAX_PARTITION_COLUMNS }
    ensures fields { IfOk result (AreSpecFields schema.now FIRST_ID partition.now) }
    ensures len { IfOk result (λ fields. length fields ≡ length partition.now) }
{
    let pairs = path_ids(alloc, &schema.1, &schema.2)?;
    let mut fields = Items::new(alloc);
    for (place, name) in partition.iter().enumerate() {
        fields.push(spec_field(alloc, pairs.as_slice(), place, name)?)?;
    }
    Ok(fields)
}
