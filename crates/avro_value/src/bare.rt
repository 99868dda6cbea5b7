//! Types whose values take no bytes.

ghost use Rattle.std.specs.Prelude.{◌≡◌, map};
ghost use Rattle.avro_value.specs.Layout.{layout, field_layout, layouts_of, is_bare as is_bare_of, are_bare};

use avro_schema::{Field, Schema, Shape};

/// Whether a value of the schema takes no bytes: a null, a fixed of size 0, or a record of such
/// values.
#[cycle(bare)]
pub fn is_bare(schema: &Schema) -> bool
    ensures { result ≡ is_bare_of (layout schema.now) }
{
    match &schema.shape {
        Shape::Null => true,
        Shape::Fixed { size, .. } => *size == 0,
        Shape::Fields { fields, .. } => fields_are_bare(fields),
        _ => false,
    }
}

#[cycle(bare)]
fn fields_are_bare(fields: &Vec<Field>) -> bool
    ensures { result ≡ are_bare (layouts_of (map field_layout fields.now.items)) }
{
    for field in fields {
        if !is_bare(&field.schema) {
            return false;
        }
    }
    true
}
