//! What the metadata holds by an id: the fields of the default spec, and a schema.

ghost use Rattle.std.specs.Prelude.{◌≡◌};
ghost use Rattle.std.specs.Option.{option_copied};
ghost use Rattle.iceberg_metadata.specs.Paths.{held_spec, held_schema, default_fields};

use crate::metadata::{Metadata, Spec, SpecField};
use schema_map::Ids;
use table_history::Schema;

fn held_spec(specs: &[Spec], id: i32) -> Option<&Spec>
    ensures { option_copied result ≡ held_spec specs.now id }
{
    for spec in specs {
        if spec.id == id {
            return Some(spec);
        }
    }
    None
}

/// The fields of the default spec.
pub fn default_fields(metadata: &Metadata) -> &[SpecField]
    ensures { result.now ≡ default_fields metadata.now }
{
    match held_spec(metadata.specs.as_slice(), metadata.default_spec) {
        None => &[],
        Some(spec) => spec.fields.as_slice(),
    }
}

fn schema_of_id(schemas: &[(i32, Schema, Ids)], id: i32) -> Option<&(i32, Schema, Ids)>
    ensures { option_copied result ≡ held_schema schemas.now id }
{
    for schema in schemas {
        if schema.0 == id {
            return Some(schema);
        }
    }
    None
}

/// The schema of this id that the table holds, with its field ids.
pub fn held_schema(metadata: &Metadata, id: i32) -> Option<&(i32, Schema, Ids)>
    ensures { option_copied result ≡ held_schema metadata.now.schemas id }
{
    schema_of_id(metadata.schemas.as_slice(), id)
}
