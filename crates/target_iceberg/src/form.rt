//! The form of a version that commits go on from.

ghost use Rattle.std.specs.Prelude.{◌≡◌, ◌≤ℤ◌, ◌↔◌, ◌+◌, ◌++◌, ◌∷◌, [], ℕ, pos, List, IfOk, IsTrue, map};
ghost use Rattle.std.specs.Option.{option_copied};
ghost use Rattle.std.specs.Cmp.Lexicographic.{pointwise};
ghost use Rattle.std.specs.List.{AllByRecursion, list_all, zip};
ghost use Rattle.std.specs.Str.{bytes_eq};
ghost use Rattle.schema_map.specs.Paths.{known_id};
ghost use Rattle.iceberg_metadata.specs.Judging.{are_distinct};
ghost use Rattle.iceberg_metadata.specs.Paths.{default_fields as fields_in, held_spec as spec_in};
ghost use Rattle.iceberg_version.specs.Schemas.{FIRST_PARTITION_ID as FIRST_ID, IsSpecField};
ghost use Rattle.iceberg_version.specs.Sound.{have_first_ids as first_ids, is_under as under};
ghost use Rattle.target_iceberg.specs.Form.{HasOwnForm, HasOwnSpec};
ghost use Rattle.target_iceberg.specs.FormSteps.{AreFields, IsGiven, IsPlain, IsUpTo};

use iceberg_metadata::{Metadata, Snapshot, Spec, SpecField, held_schema};
use lake_basics::Text;
use schema_map::{ColumnPath, Ids, column_paths};
use std::alloc::{AllocError, Global};
use std::collections::BTreeSet;
use table_history::Schema;

/// Whether a version of this number has the form that commits go on from (Apache Iceberg
/// specification, "Table Metadata Fields"): no slash ends its location, its default spec is such as
/// is written, its schemas' ids are those from 0 on, no field id is past the last one, and no
/// snapshot or parent of one is past the version.
pub(crate) fn has_own_form(
    alloc: Global,
    version: u32,
    metadata: &Metadata,
) -> Result<bool, AllocError>
    ensures { IfOk result (λ own. IsTrue own ↔ HasOwnForm version metadata.now) }
{
    if !is_plain(version, metadata) {
        return Ok(false);
    }
    if !have_first_ids(alloc, metadata.schemas.as_slice())? {
        return Ok(false);
    }
    has_own_spec(alloc, metadata)
}

/// Whether the location, the field ids and the snapshots are such.
fn is_plain(version: u32, metadata: &Metadata) -> bool
    ensures { IsTrue result ↔ IsPlain version metadata.now }
{
    if ends_with_slash(&metadata.location) {
        return false;
    }
    if !are_given(metadata.schemas.as_slice(), metadata.last_column_id) {
        return false;
    }
    are_up_to(metadata.snapshots.as_slice(), version)
}

fn ends_with_slash(location: &Text) -> bool
    ensures { IsTrue result ↔ ((front : List ℕ) × (location.now ≡ front ++ 47 ∷ [])) }
{
    location.as_bytes().strip_suffix(b"/").is_some()
}

// ---- snapshots

fn is_up_to(snapshot: &Snapshot, version: u32) -> bool
    ensures { IsTrue result ↔ IsUpTo version snapshot.now }
{
    let newest = i64::from(version);
    if snapshot.id > newest {
        return false;
    }
    match snapshot.parent {
        Some(parent) => parent <= newest,
        None => true,
    }
}

fn are_up_to(snapshots: &[Snapshot], version: u32) -> bool
    ensures { IsTrue result ↔ AllByRecursion (IsUpTo version) snapshots.now }
{
    for snapshot in snapshots {
        if !is_up_to(snapshot, version) {
            return false;
        }
    }
    true
}

// ---- field ids

fn are_within(ids: &[i32], last: i32) -> bool
    ensures { IsTrue result ↔ AllByRecursion (λ id. id ≤ℤ last) ids.now }
{
    for id in ids {
        if *id > last {
            return false;
        }
    }
    true
}

/// Whether no field id of these schemas is past the last one that was given.
fn are_given(schemas: &[(i32, Schema, Ids)], last: i32) -> bool
    ensures { IsTrue result ↔ AllByRecursion (IsGiven last) schemas.now }
{
    for schema in schemas {
        if !are_within(schema.2.as_slice(), last) {
            return false;
        }
    }
    true
}

// ---- schema ids

fn is_under(id: i32, count: usize) -> bool
    ensures { result ≡ under count id }
{
    match usize::try_from(id) {
        Ok(id) => id < count,
        Err(_) => false,
    }
}

fn are_under(schemas: &[(i32, Schema, Ids)], count: usize) -> bool
    ensures { result ≡ list_all (λ s. under count s.0) schemas.now }
{
    for schema in schemas {
        if !is_under(schema.0, count) {
            return false;
        }
    }
    true
}

/// Whether no two of the schemas have one id.
fn have_own_ids(alloc: Global, schemas: &[(i32, Schema, Ids)]) -> Result<bool, AllocError>
    ensures { IfOk result (λ own. own ≡ are_distinct (map (λ s. s.0) schemas.now)) }
{
    let mut seen = BTreeSet::new(alloc);
    let mut place = schemas.len();
    while place > 0 {
        place -= 1;
        if !seen.insert(i64::from(schemas[place].0))? {
            return Ok(false);
        }
    }
    Ok(true)
}

/// Whether the ids of the schemas are those from 0 on, each once.
fn have_first_ids(alloc: Global, schemas: &[(i32, Schema, Ids)]) -> Result<bool, AllocError>
    ensures { IfOk result (λ first. first ≡ first_ids schemas.now) }
{
    if !are_under(schemas, schemas.len()) {
        return Ok(false);
    }
    have_own_ids(alloc, schemas)
}

// ---- the default spec

fn held_spec(specs: &[Spec], id: i32) -> Option<&Spec>
    ensures { option_copied result ≡ spec_in specs.now id }
{
    for spec in specs {
        if spec.id == id {
            return Some(spec);
        }
    }
    None
}

/// The fields of the default spec.
fn default_fields(metadata: &Metadata) -> &[SpecField]
    ensures { result.now ≡ fields_in metadata.now }
{
    match held_spec(metadata.specs.as_slice(), metadata.default_spec) {
        Some(spec) => spec.fields.as_slice(),
        None => &[],
    }
}

/// Whether this is the id of the partition field at this place.
fn is_field_id(id: i32, place: usize) -> bool
    ensures { IsTrue result ↔ (id ≡ pos (FIRST_ID + place)) }
{
    match usize::try_from(id) {
        Ok(id) => id >= 1000 && id - 1000 == place,
        Err(_) => false,
    }
}

/// Whether the path is that of the top-level column of this name.
fn is_column(path: &ColumnPath, name: &Text) -> bool
    ensures { result ≡ pointwise bytes_eq path.now (name.now ∷ []) }
{
    match path.as_slice() {
        [only] => only == name,
        _ => false,
    }
}

/// The field id of the top-level column of this name, where the paths have these ids.
fn column_id(paths: &[ColumnPath], ids: &[i32], name: &Text) -> Option<i32>
    ensures { result ≡ known_id (zip paths.now ids.now) (name.now ∷ []) }
{
    for (place, path) in paths.iter().enumerate() {
        if is_column(path, name) {
            return ids.get(place).copied();
        }
    }
    None
}

/// Whether the field at this place is the identity of the column of its name, where the column
/// paths have these ids.
fn is_spec_field(paths: &[ColumnPath], ids: &[i32], place: usize, field: &SpecField) -> bool
    ensures { IsTrue result ↔ IsSpecField (zip paths.now ids.now) (FIRST_ID + place)
        field.now.name field.now }
{
    let Some(id) = column_id(paths, ids, &field.name) else {
        return false;
    };
    if id != field.source_id {
        return false;
    }
    if !is_field_id(field.field_id, place) {
        return false;
    }
    field.transform.as_str() == "identity"
}

fn are_fields(paths: &[ColumnPath], ids: &[i32], fields: &[SpecField]) -> bool
    ensures { IsTrue result ↔ AreFields (zip paths.now ids.now) FIRST_ID fields.now }
{
    for (place, field) in fields.iter().enumerate() {
        if !is_spec_field(paths, ids, place, field) {
            return false;
        }
    }
    true
}

/// Whether the default spec is the one that is written for the columns that its fields name.
fn has_own_spec(alloc: Global, metadata: &Metadata) -> Result<bool, AllocError>
    ensures { IfOk result (λ own. IsTrue own ↔ HasOwnSpec metadata.now) }
{
    if metadata.default_spec != 0 {
        return Ok(false);
    }
    let Some(schema) = held_schema(metadata, metadata.current_schema) else {
        return Ok(false);
    };
    let paths = column_paths(alloc, &schema.1)?;
    Ok(are_fields(
        paths.as_slice(),
        schema.2.as_slice(),
        default_fields(metadata),
    ))
}
