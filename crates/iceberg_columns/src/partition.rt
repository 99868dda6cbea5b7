//! The columns of which the fields of the default partition spec are made.

ghost use Rattle.std.specs.Prelude.{◌≡◌, ◌||◌, not, option_and_then, is_none, IfOk};
ghost use Rattle.std.specs.List.{list_any};
ghost use Rattle.std.specs.Ordering.{int_eq};
ghost use Rattle.std.specs.Option.{option_copied};
ghost use Rattle.iceberg_metadata.specs.Paths.{held_unread, kind_at, sources, top_kind, path_of, path_ids_of};
ghost use Rattle.iceberg_columns.specs.PathMaps.{path_at};
ghost use Rattle.iceberg_metadata.specs.Judging.{is_other_transform, are_distinct, has_other_partition};

use crate::paths::{PathsById, path_at, path_ids_of, paths_by_id};
use iceberg_metadata::{Metadata, SpecField, Unread, default_fields, held_schema, id_set, kind_of};
use lake_basics::Text;
use partition_map::PartKind;
use schema_map::Ids;
use std::alloc::{AllocError, Global};
use table_history::Schema;

/// Whether a field has another transform than identity.
pub fn has_other_transform(fields: &[SpecField]) -> bool
    ensures { result ≡ list_any is_other_transform fields.now }
{
    fields
        .iter()
        .any(|field| field.transform.as_str() != "identity")
}

/// The kind of the column at this path, if it is a top-level one.
fn top_kind(schema: &Schema, path: &[Text]) -> Option<PartKind>
    ensures { result ≡ top_kind schema.now path.now }
{
    match path {
        [name] => kind_of(schema, name.as_str()),
        _ => None,
    }
}

fn source_kind(schema: &Schema, paths: &PathsById, id: i32) -> Option<PartKind>
    ensures { result ≡ option_and_then (top_kind schema.now) (path_at paths.now id) }
{
    match path_at(paths, id) {
        None => None,
        Some(path) => top_kind(schema, path.as_slice()),
    }
}

// ---- fields

fn source_ids(alloc: Global, fields: &[SpecField]) -> Result<Vec<i64>, AllocError>
    ensures { IfOk result (λ ids. ids.items ≡ sources fields.now) }
{
    let mut ids = Vec::with_capacity(alloc, fields.len())?;
    for field in fields {
        ids.push(i64::from(field.source_id))?;
    }
    Ok(ids)
}

/// Whether the field is made of no top-level column, or of one whose type has no kind.
fn lacks_kind(schema: &Schema, paths: &PathsById, field: &SpecField) -> bool
    ensures { result ≡ is_none
        (option_and_then (top_kind schema.now) (path_at paths.now field.now.source_id)) }
{
    match source_kind(schema, paths, field.source_id) {
        None => true,
        Some(_) => false,
    }
}

fn has_other_source(schema: &Schema, paths: &PathsById, fields: &[SpecField]) -> bool
    ensures { result ≡ list_any (λ f. is_none
        (option_and_then (top_kind schema.now) (path_at paths.now f.source_id))) fields.now }
{
    for field in fields {
        if lacks_kind(schema, paths, field) {
            return true;
        }
    }
    false
}

fn lacks_kinds(
    alloc: Global,
    fields: &[SpecField],
    schema: &Schema,
    ids: &Ids,
) -> Result<bool, AllocError>
    ensures { IfOk result (λ lacks. lacks ≡ (not (are_distinct (sources fields.now))
        || list_any (λ f. is_none (option_and_then (top_kind schema.now)
        (path_of (path_ids_of schema.now ids.now) f.source_id))) fields.now)) }
{
    let sources = source_ids(alloc, fields)?;
    if id_set(alloc, sources.as_slice())?.is_none() {
        return Ok(true);
    }
    let pairs = path_ids_of(alloc, schema, ids)?;
    let paths = paths_by_id(alloc, pairs.as_slice())?;
    Ok(has_other_source(schema, &paths, fields))
}

// ---- a current schema that can't be taken over

fn is_kind_of(kind: &(i32, PartKind), id: i32) -> bool
    ensures { result ≡ int_eq kind.now.0 id }
{
    kind.0 == id
}

fn kind_at(kinds: &[(i32, PartKind)], id: i32) -> Option<PartKind>
    ensures { result ≡ kind_at kinds.now id }
{
    for kind in kinds {
        if is_kind_of(kind, id) {
            return Some(kind.1);
        }
    }
    None
}

fn has_source_without_kind(kinds: &[(i32, PartKind)], fields: &[SpecField]) -> bool
    ensures { result ≡ list_any (λ f. is_none (kind_at kinds.now f.source_id)) fields.now }
{
    for field in fields {
        if kind_at(kinds, field.source_id).is_none() {
            return true;
        }
    }
    false
}

fn lacks_these_kinds(
    alloc: Global,
    fields: &[SpecField],
    kinds: &[(i32, PartKind)],
) -> Result<bool, AllocError>
    ensures { IfOk result (λ lacks. lacks ≡ (not (are_distinct (sources fields.now))
        || list_any (λ f. is_none (kind_at kinds.now f.source_id)) fields.now)) }
{
    let sources = source_ids(alloc, fields)?;
    if id_set(alloc, sources.as_slice())?.is_none() {
        return Ok(true);
    }
    Ok(has_source_without_kind(kinds, fields))
}

fn held_unread(unread: &[(i32, Unread)], id: i32) -> Option<&Unread>
    ensures { option_copied result ≡ held_unread unread.now id }
{
    for schema in unread {
        if schema.0 == id {
            return Some(&schema.1);
        }
    }
    None
}

/// Whether a field of the default spec is made of a column that isn't a top-level one of the current
/// schema, that another field is made of too, or whose type has no kind.
pub fn has_other_partition(
    alloc: Global,
    metadata: &Metadata,
    unread: &[(i32, Unread)],
) -> Result<bool, AllocError>
    ensures { IfOk result (λ has. has ≡ has_other_partition metadata.now unread.now) }
{
    let fields = default_fields(metadata);
    let id = metadata.current_schema;
    if let Some((_, schema, ids)) = held_schema(metadata, id) {
        return lacks_kinds(alloc, fields, schema, ids);
    }
    match held_unread(unread, id) {
        None => Ok(false),
        Some(schema) => lacks_these_kinds(alloc, fields, schema.kinds.as_slice()),
    }
}
