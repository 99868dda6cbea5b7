//! The schemas that a table holds.

ghost use Rattle.std.specs.Prelude.{◌≡◌, ◌≤◌, IfOk, IfErr};
ghost use Rattle.std.specs.List.{list_any};
ghost use Rattle.serde_json.specs.Data.{items_depth};
ghost use Rattle.serde_json.specs.Read.{max_depth};
ghost use Rattle.serde_json.specs.View.{view, items_view};
ghost use Rattle.json_reading.specs.Json.{items};
ghost use Rattle.schema_map.specs.Among.{IsAmong};
ghost use Rattle.iceberg_metadata.specs.Errors.{Gives};
ghost use Rattle.iceberg_metadata.specs.Judging.{is_schema_type, is_limit_of_columns, is_limit_of_depth};
ghost use Rattle.iceberg_metadata.specs.Schemas.{size_limit, refusal_of, first_refusal, refusals};
ghost use Rattle.iceberg_metadata.specs.Schemas.{unread_reading, refused_columns, columns_reading, schema_reading};
ghost use Rattle.iceberg_metadata.specs.Schemas.{HeldUnread};
ghost use Rattle.iceberg_schemas.specs.SchemaLists.{each_schema, with_reading};
ghost use Rattle.iceberg_schemas.specs.SchemaOutlines.{IsToldOf, IsNoSchemaList};

use crate::outline::{field_kinds, schema_outline};
use crate::required::{required_int, required_list};
use iceberg_metadata::{MetadataError, Outline, Unread};
use lake_basics::Items;
use schema_iceberg::from_iceberg;
use schema_map::{Ids, MapError};
use serde_json::Value;
use std::alloc::{AllocError, Global};
use table_history::{LimitKind, Schema};

/// Columns with their field ids, where they can be taken over.
type Columns = Result<(Schema, Ids), Unread>;

/// The schemas that can be taken over, the ids of all, and the others.
#[derive(Drop)]
pub struct HeldSchemas {
    pub read: Items<(i32, Schema, Ids)>,
    pub ids: Items<i64>,
    pub unread: Items<(i32, Unread)>,
}

/// A schema has too many columns, or else too many levels.
fn size_limit(which: LimitKind) -> LimitKind
    ensures { result ≡ size_limit which }
{
    match which {
        LimitKind::Columns => LimitKind::Columns,
        _ => LimitKind::Depth,
    }
}

fn refusal_of(error: MapError) -> MetadataError
    ensures { result ≡ refusal_of error }
{
    match error {
        MapError::Memory => MetadataError::Memory,
        MapError::BadSchema => MetadataError::Malformed,
        MapError::SchemaType { .. } | MapError::AvroName { .. } => MetadataError::SchemaType,
        MapError::Limit { which } => MetadataError::Limit {
            which: size_limit(which),
        },
    }
}

/// A type that isn't supported is told before a number that is passed.
fn first_refusal(outline: &Outline, refusal: MetadataError) -> MetadataError
    ensures { result ≡ first_refusal outline.now refusal }
{
    if outline.has_other {
        MetadataError::SchemaType
    } else {
        refusal
    }
}

/// What is known of columns that are refused so, where the schema is in the grammar.
#[tactic(auto, unfolding(iceberg_metadata::specs::Schemas::unread_reading))]
fn unread_of(alloc: Global, value: &Value, refusal: MetadataError) -> Result<Unread, MetadataError>
    ensures { Gives result (unread_reading refusal (view value.now)) }
{
    let outline = schema_outline(alloc, value)?;
    let fields = required_list(value, "fields")?;
    let kinds = field_kinds(alloc, fields)?;
    let refusal = first_refusal(&outline, refusal);
    Ok(Unread {
        refusal,
        paths: outline.paths,
        kinds,
    })
}

fn refused_columns(
    alloc: Global,
    value: &Value,
    refusal: MetadataError,
) -> Result<Columns, MetadataError>
    ensures { Gives result (refused_columns refusal (view value.now)) }
{
    match refusal {
        MetadataError::Memory => Err(MetadataError::Memory),
        MetadataError::Malformed => Err(MetadataError::Malformed),
        refusal => Ok(Err(unread_of(alloc, value, refusal)?)),
    }
}

/// The columns of a schema, where it is in the grammar.
fn columns_of(alloc: Global, value: &Value) -> Result<Columns, MetadataError>
    ensures { Gives result (columns_reading (view value.now)) }
{
    match from_iceberg(alloc, value) {
        Ok(columns) => Ok(Ok(columns)),
        Err(error) => refused_columns(alloc, value, refusal_of(error)),
    }
}

#[tactic(auto, unfolding(iceberg_metadata::specs::Schemas::schema_reading))]
fn schema_of(alloc: Global, value: &Value) -> Result<(i32, Columns), MetadataError>
    ensures { Gives result (schema_reading (view value.now)) }
{
    let id = required_int(value, "schema-id")?;
    let columns = columns_of(alloc, value)?;
    Ok((id, columns))
}

impl HeldSchemas {
    fn with(self, id: i32, columns: Columns) -> Result<HeldSchemas, AllocError>
        ensures { IfOk result (λ held. held ≡ with_reading self (id, columns)) }
    {
        let mut held = self;
        held.ids.push(i64::from(id))?;
        match columns {
            Ok((schema, field_ids)) => held.read.push((id, schema, field_ids))?,
            Err(unread) => held.unread.push((id, unread))?,
        }
        Ok(held)
    }
}

fn each_schema(alloc: Global, values: &Vec<Value>) -> Result<HeldSchemas, MetadataError>
    ensures { Gives result (each_schema (items (items_view values.now.items))) }
{
    let mut held = HeldSchemas {
        read: Items::new(alloc),
        ids: Items::new(alloc),
        unread: Items::new(alloc),
    };
    for value in values {
        let (id, columns) = schema_of(alloc, value)?;
        held = held.with(id, columns)?;
    }
    Ok(held)
}

/// The schemas of a list, where each is in the grammar (Apache Iceberg specification, "Schemas").
/// `Malformed` where one isn't.
pub fn schemas_in(alloc: Global, values: &Vec<Value>) -> Result<HeldSchemas, MetadataError>
    // What is known of a schema that can't be taken over is what its outline tells.
    ensures told { IfOk result (λ held. (known : HeldUnread) → IsAmong known held.unread
        → IsToldOf (items (items_view values.now.items)) known) }
    // A list of no more levels than are read is refused where a schema isn't in the grammar.
    ensures refused { items_depth (items_view values.now.items) ≤ max_depth
        → IfErr result (IsNoSchemaList (items (items_view values.now.items))) }
    // The same as a function of the values.
    ensures exact { Gives result (each_schema (items (items_view values.now.items))) }
{
    each_schema(alloc, values)
}

// ---- refusals

fn is_schema_type(refusal: MetadataError) -> bool
    ensures { result ≡ is_schema_type refusal }
{
    matches!(refusal, MetadataError::SchemaType)
}

fn is_limit_of_columns(refusal: MetadataError) -> bool
    ensures { result ≡ is_limit_of_columns refusal }
{
    matches!(
        refusal,
        MetadataError::Limit {
            which: LimitKind::Columns
        }
    )
}

fn is_limit_of_depth(refusal: MetadataError) -> bool
    ensures { result ≡ is_limit_of_depth refusal }
{
    matches!(
        refusal,
        MetadataError::Limit {
            which: LimitKind::Depth
        }
    )
}

/// Whether a schema has a column of a type that isn't supported.
pub fn has_schema_type(unread: &[(i32, Unread)]) -> bool
    ensures { result ≡ list_any is_schema_type (refusals unread.now) }
{
    for schema in unread {
        if is_schema_type(schema.1.refusal) {
            return true;
        }
    }
    false
}

/// Whether a schema has too many columns.
pub fn has_limit_of_columns(unread: &[(i32, Unread)]) -> bool
    ensures { result ≡ list_any is_limit_of_columns (refusals unread.now) }
{
    for schema in unread {
        if is_limit_of_columns(schema.1.refusal) {
            return true;
        }
    }
    false
}

/// Whether a schema has too many levels.
pub fn has_limit_of_depth(unread: &[(i32, Unread)]) -> bool
    ensures { result ≡ list_any is_limit_of_depth (refusals unread.now) }
{
    for schema in unread {
        if is_limit_of_depth(schema.1.refusal) {
            return true;
        }
    }
    false
}
