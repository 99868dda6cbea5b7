//! What the JSON spellings of a schema share.

ghost use Rattle.std.specs.Prelude.{◌≡◌, [], IfOk, IsNone};
ghost use Rattle.serde_json.specs.View.{view, items_view};
ghost use Rattle.lake_basics.specs.Outcome.{Gives, GivesUnlessMemory, required};
ghost use Rattle.json_reading.specs.Json.{json};
ghost use Rattle.table_history.specs.SchemaView.{columns_view};
ghost use Rattle.schema_map.specs.declared.fault.Fault.TheVariants.{BadSchema};
ghost use Rattle.schema_map.specs.Errors.{is_memory, in_column, IsErrorIn};
ghost use Rattle.schema_map.specs.Shared.{column_name, schema_fields, schema_of, struct_data};

use crate::fault::{BAD_SCHEMA, Fault, MapError};
use crate::limits::has_few_columns;
use crate::member::{required_list, required_text};
use crate::names::have_own_names;
use json_reading::{read_json, text_of};
use lake_basics::{ReadError, Text};
use serde_json::{Value, json};
use std::alloc::{AllocError, Global};
use table_history::{Column, LimitKind, Schema};

/// The error for a fault in the column of this name.
pub fn error_in(alloc: Global, name: &str, error: ReadError<Fault>) -> MapError
    ensures { IsErrorIn name.now error result }
{
    match error {
        ReadError::Memory => MapError::Memory,
        ReadError::Fault(Fault::BadSchema) => MapError::BadSchema,
        ReadError::Fault(Fault::Depth) => MapError::Limit {
            which: LimitKind::Depth,
        },
        ReadError::Fault(Fault::SchemaType) => match Text::from_str(alloc, name) {
            Ok(column) => MapError::SchemaType { column },
            Err(_) => MapError::Memory,
        },
    }
}

/// The JSON that a text is. `BadSchema` comes where it is none.
pub fn json_of(alloc: Global, text: &[u8]) -> Result<Value, MapError>
    ensures { GivesUnlessMemory is_memory view result
        (in_column [] (required BadSchema (json text.now))) }
{
    match read_json(alloc, text, Fault::BadSchema) {
        Ok(value) => Ok(value),
        Err(error) => Err(error_in(alloc, "", error)),
    }
}

/// The name of a field, or nothing where it has none.
pub fn name_of(field: &Value) -> &str
    ensures { result.now ≡ column_name (view field.now) }
{
    text_of(field, "name").unwrap_or("")
}

/// The fields of the schema itself, which must be a struct with a list of them: else `BadSchema` comes.
#[tactic(auto, unfolding(crate::specs::Shared::schema_fields))]
pub fn schema_fields(value: &Value) -> Result<&Vec<Value>, ReadError<Fault>>
    ensures { Gives (λ v. items_view v.now.items) result (schema_fields (view value.now)) }
{
    let word = required_text(value, "type")?;
    let fields = required_list(value, "fields")?;
    if word == "struct" {
        Ok(fields)
    } else {
        Err(BAD_SCHEMA)
    }
}

/// The schema of these columns. `BadSchema` comes where two of them have one name, and `Limit` where they
/// are too many, those at all levels counted.
pub fn schema_of(alloc: Global, columns: Vec<Column>) -> Result<Schema, MapError>
    ensures { GivesUnlessMemory is_memory (λ s. s) result
        (schema_of (columns_view columns.items)) }
{
    if !have_own_names(alloc, columns.as_slice())? {
        return Err(MapError::BadSchema);
    }
    if !has_few_columns(columns.as_slice()) {
        return Err(MapError::Limit {
            which: LimitKind::Columns,
        });
    }
    Ok(Schema::new(columns))
}

/// The JSON of a struct of these fields. Memory is its only error.
pub fn struct_json(alloc: Global, fields: Value) -> Result<Value, AllocError>
    ensures { IfOk result (λ v. view v ≡ struct_data (view fields)) }
{
    json!(in alloc; {"fields": fields, "type": "struct"})
}
