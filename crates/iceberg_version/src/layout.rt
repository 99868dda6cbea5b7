//! What the manifests of a new version share.

ghost use Rattle.std.specs.Prelude.{◌≡◌, Contains, IfOk, IsSome, List, length, ℕ};
ghost use Rattle.partition_map.specs.Columns.{column_kind};
ghost use Rattle.iceberg_metadata.specs.Location.{front_of as front_at};
ghost use Rattle.iceberg_version.specs.Writing.{AreColumns, schema_json as json_of_schema, spec_json as json_of_fields};

use crate::columns::part_columns;
use crate::json::{schema_json, spec_json};
use crate::names::front_of;
use iceberg_manifest::PartColumn;
use iceberg_metadata::SpecField;
use lake_basics::Text;
use schema_map::Ids;
use std::alloc::{AllocError, Global};
use table_history::Schema;

/// What the manifests of a new version share: its number, the current schema, and the fields of the
/// partition spec with the names and kinds of their columns.
#[derive(Drop)]
pub struct Layout<'a> {
    /// What the names of the table's files begin with.
    pub front: Text,
    pub version: u32,
    pub schema: &'a (i32, Schema, Ids),
    pub fields: &'a [SpecField],
    pub partition: &'a [Text],
    pub columns: Vec<PartColumn>,
    pub schema_text: Text,
    pub fields_text: Text,
    ghost schema_is: { schema_text ≡ json_of_schema schema.now },
    ghost fields_are: { fields_text ≡ json_of_fields fields.now },
}

/// What the manifests of this version of a table at this location share.
pub fn layout_of<'a>(
    alloc: Global,
    location: &Text,
    version: u32,
    schema: &'a (i32, Schema, Ids),
    fields: &'a [SpecField],
    partition: &'a [Text],
) -> Result<Layout<'a>, AllocError>
    requires kinds { (name : List ℕ) → Contains partition.now name
        → IsSome (column_kind schema.now.1 name) }
    requires len { length fields.now ≡ length partition.now }
    ensures front { IfOk result (λ layout. layout.front ≡ front_at location.now) }
    ensures version { IfOk result (λ layout. layout.version ≡ version) }
    ensures schema { IfOk result (λ layout. layout.schema.now ≡ schema.now) }
    ensures fields { IfOk result (λ layout. layout.fields.now ≡ fields.now) }
    ensures partition { IfOk result (λ layout. layout.partition.now ≡ partition.now) }
    ensures columns { IfOk result (λ layout.
        AreColumns schema.now.1 partition.now fields.now layout.columns.items) }
{
    Ok(Layout {
        front: front_of(alloc, location)?,
        version,
        schema,
        fields,
        partition,
        columns: part_columns(alloc, &schema.1, partition, fields)?,
        schema_text: schema_json(alloc, schema)?,
        fields_text: spec_json(alloc, fields)?,
    })
}
