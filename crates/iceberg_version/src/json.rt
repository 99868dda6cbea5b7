//! The JSON that the metadata of manifests tells.

ghost use Rattle.std.specs.Prelude.{◌≡◌, IfOk, map};
ghost use Rattle.iceberg_metadata.specs.Writing.{spec_field_data};
ghost use Rattle.iceberg_version.specs.Writing.{schema_json as json_of_schema, spec_json as json_of_fields};
ghost use Rattle.serde_json.specs.Data.{array};
ghost use Rattle.serde_json.specs.View.{items_of, view};

use iceberg_metadata::SpecField;
use json_reading::json_text;
use lake_basics::Text;
use schema_iceberg::iceberg_json;
use schema_map::Ids;
use serde_json::{Value, json};
use std::alloc::{AllocError, Global};
use table_history::Schema;

/// The JSON of a schema with its id and its field ids.
pub(crate) fn schema_json(alloc: Global, schema: &(i32, Schema, Ids)) -> Result<Text, AllocError>
    ensures { IfOk result (λ text. text ≡ json_of_schema schema.now) }
{
    match iceberg_json(alloc, &schema.1, &schema.2, schema.0) {
        Ok(value) => json_text(alloc, &value),
        Err(_) => Err(AllocError),
    }
}

fn spec_field_value(alloc: Global, field: &SpecField) -> Result<Value, AllocError>
    ensures { IfOk result (λ value. view value ≡ spec_field_data field.now) }
{
    json!(in alloc; {
        "field-id": field.field_id,
        "name": field.name.as_str(),
        "source-id": field.source_id,
        "transform": field.transform.as_str(),
    })
}

fn spec_field_values(alloc: Global, fields: &[SpecField]) -> Result<Vec<Value>, AllocError>
    ensures { IfOk result
        (λ values. map view values.items ≡ map spec_field_data fields.now) }
{
    let mut values = Vec::with_capacity(alloc, fields.len())?;
    for field in fields {
        values.push(spec_field_value(alloc, field)?)?;
    }
    Ok(values)
}

fn spec_value(alloc: Global, fields: &[SpecField]) -> Result<Value, AllocError>
    ensures { IfOk result
        (λ value. view value ≡ array (items_of (map spec_field_data fields.now))) }
{
    Ok(Value::Array(spec_field_values(alloc, fields)?))
}

/// The JSON of the fields of a partition spec.
pub(crate) fn spec_json(alloc: Global, fields: &[SpecField]) -> Result<Text, AllocError>
    ensures { IfOk result (λ text. text ≡ json_of_fields fields.now) }
{
    let value = spec_value(alloc, fields)?;
    json_text(alloc, &value)
}
