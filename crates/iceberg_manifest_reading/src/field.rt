//! Fields of Avro records, found by the ids that Iceberg gives them.

ghost use Rattle.std.specs.Prelude.{◌≡◌, map, option_map};
ghost use Rattle.lake_basics.specs.Outcome.{Gives};
ghost use Rattle.avro_schema.specs.Tree.{tree_of, shape_of, field_of, fields_of as field_trees, branches_of};
ghost use Rattle.iceberg_manifest.specs.Fields.{is_null_type, beside_null as beside_null_in, plain_type as plain_type_of, is_shape_of, is_type_of, record_fields as record_fields_of, plain_record as plain_record_of, is_id, first_of, place_of, required_place as required_place_of, record_place as record_place_of};

use avro_value::{Field, Schema, Shape};
use iceberg_manifest::{FLAW, FieldKind, Reading};

fn is_null(schema: &Schema) -> bool
    ensures { result ≡ is_null_type (tree_of schema.now) }
{
    match &schema.shape {
        Shape::Null => true,
        _ => false,
    }
}

/// The type beside null in a union of two.
fn beside_null(branches: &[Schema]) -> Option<&Schema>
    ensures { option_map (λ s. tree_of s.now) result
        ≡ beside_null_in (branches_of (map tree_of branches.now)) }
{
    if branches.len() != 2 {
        return None;
    }
    if is_null(&branches[0]) {
        return Some(&branches[1]);
    }
    if is_null(&branches[1]) {
        return Some(&branches[0]);
    }
    None
}

/// The type of a field, beside null.
fn plain_type(schema: &Schema) -> Option<&Schema>
    ensures { option_map (λ s. tree_of s.now) result ≡ plain_type_of (tree_of schema.now) }
{
    match &schema.shape {
        Shape::Union(branches) => beside_null(branches),
        _ => Some(schema),
    }
}

fn is_shape(kind: FieldKind, shape: &Shape) -> bool
    ensures { result ≡ is_shape_of kind (shape_of shape.now) }
{
    match (kind, shape) {
        (FieldKind::Boolean, Shape::Boolean) => true,
        (FieldKind::Whole, Shape::Int) => true,
        (FieldKind::Whole, Shape::Long) => true,
        (FieldKind::Text, Shape::Text) => true,
        _ => false,
    }
}

/// Whether values of the type are of the kind, or null.
fn is_type(kind: FieldKind, schema: &Schema) -> bool
    ensures { result ≡ is_type_of kind (tree_of schema.now) }
{
    match plain_type(schema) {
        Some(plain) => is_shape(kind, &plain.shape),
        None => false,
    }
}

/// The fields of a record.
pub(crate) fn record_fields(schema: &Schema) -> Option<&Vec<Field>>
    ensures { option_map (λ fs. field_trees (map field_of fs.now.items)) result
        ≡ record_fields_of (tree_of schema.now) }
{
    match &schema.shape {
        Shape::Fields { fields, .. } => Some(fields),
        _ => None,
    }
}

fn has_id(field: &Field, id: i32) -> bool
    ensures { result ≡ is_id id (field_of field.now).2 }
{
    match field.field_id {
        Some(own) => own == id,
        None => false,
    }
}

/// The first field of that id: its place and its type.
fn first(fields: &Vec<Field>, id: i32) -> Option<(usize, &Schema)>
    ensures { option_map (λ x. (x.0, tree_of x.1.now)) result
        ≡ first_of id (field_trees (map field_of fields.now.items)) }
{
    let mut place = 0;
    for field in fields {
        if has_id(field, id) {
            return Some((place, &field.schema));
        }
        place += 1;
    }
    None
}

/// The fields of a record, beside null.
fn plain_record(schema: &Schema) -> Option<&Vec<Field>>
    ensures { option_map (λ fs. field_trees (map field_of fs.now.items)) result
        ≡ plain_record_of (tree_of schema.now) }
{
    record_fields(plain_type(schema)?)
}

/// The place of the field of that id, which may be absent, and otherwise has values of that kind.
#[tactic(auto, unfolding(iceberg_manifest::specs::Fields::place_of))]
pub(crate) fn place(fields: &Vec<Field>, id: i32, kind: FieldKind) -> Reading<Option<usize>>
    ensures { Gives (λ p. p) result
        (place_of kind id (field_trees (map field_of fields.now.items))) }
{
    match first(fields, id) {
        None => Ok(None),
        Some((place, schema)) => {
            if is_type(kind, schema) {
                Ok(Some(place))
            } else {
                Err(FLAW)
            }
        }
    }
}

/// The place of the field of that id, which must be there.
#[tactic(auto, unfolding(iceberg_manifest::specs::Fields::required_place))]
pub(crate) fn required_place(fields: &Vec<Field>, id: i32, kind: FieldKind) -> Reading<usize>
    ensures { Gives (λ p. p) result
        (required_place_of kind id (field_trees (map field_of fields.now.items))) }
{
    match place(fields, id, kind)? {
        Some(place) => Ok(place),
        None => Err(FLAW),
    }
}

/// The place of the record of that id, which must be there, and its fields.
#[tactic(auto, unfolding(iceberg_manifest::specs::Fields::record_place))]
pub(crate) fn record_place(fields: &Vec<Field>, id: i32) -> Reading<(usize, &Vec<Field>)>
    ensures { Gives (λ x. (x.0, field_trees (map field_of x.1.now.items))) result
        (record_place_of id (field_trees (map field_of fields.now.items))) }
{
    let Some((place, schema)) = first(fields, id) else {
        return Err(FLAW);
    };
    match plain_record(schema) {
        Some(fields) => Ok((place, fields)),
        None => Err(FLAW),
    }
}
