//! The schemas that a new version holds.

ghost use Rattle.std.specs.Prelude.{◌≡◌, ◌↔◌, ◌⊎◌, ◌∷◌, ◌++◌, [], Contains, IfErr, IfOk, IsTrue, MatchOption, Ok, Some, fold, length, option_and_then, pos, slice_get};
ghost use Rattle.std.specs.Int.{int_max};
ghost use Rattle.std.specs.Ordering.{int_eq};
ghost use Rattle.iceberg_metadata.specs.Schemas.{HeldSchema};
ghost use Rattle.iceberg_metadata.specs.Paths.{current_schema, held_schema, path_ids, path_ids_of as pairs_of};
ghost use Rattle.schema_map.specs.Paths.{column_paths};
ghost use Rattle.iceberg_field_ids.specs.Ids.{ids_for};
ghost use Rattle.schema_map.specs.IcebergFits.{FitsIceberg};
ghost use Rattle.schema_map.specs.Image.{wide_columns};
ghost use Rattle.table_history.specs.SchemaSize.{IsWithinLimits};
ghost use Rattle.table_history.specs.Sound.{IsSound};
ghost use Rattle.iceberg_version.specs.Schemas.{AreNextSchemas, IsSchemaRefusal, Schemas, error_of_ids, known_ids as known_pairs, with_schemas};

use iceberg_field_ids::{KnownIds, to_iceberg};
use iceberg_metadata::Metadata;
use lake_basics::Items;
use lake_basics::limits::MAX_ICEBERG_VERSION;
use schema_map::{ColumnPath, Ids, MapError, column_paths};
use std::alloc::{AllocError, Global};
use table_history::{LimitKind, Schema};
use target_core::TargetError;

fn next_id(ids: &[i32]) -> Option<(i32, &[i32])>
    ensures { MatchOption result (ids.now ≡ []) (λ p. ids.now ≡ p.0 ∷ p.1.now) }
{
    match ids {
        [] => None,
        [id, behind @ ..] => Some((*id, behind)),
    }
}

/// The column paths of a schema with their field ids.
pub(crate) fn path_ids(
    alloc: Global,
    schema: &Schema,
    ids: &Ids,
) -> Result<Vec<(ColumnPath, i32)>, AllocError>
    ensures { IfOk result (λ pairs. pairs.items ≡ pairs_of schema.now ids.now) }
{
    let mut left = ids.as_slice();
    let mut pairs = Vec::new(alloc);
    for path in column_paths(alloc, schema)? {
        let Some((id, behind)) = next_id(left) else {
            return Ok(pairs);
        };
        pairs.push((path, id))?;
        left = behind;
    }
    Ok(pairs)
}

/// The field ids that the column paths of the held schemas have.
fn known_ids(alloc: Global, metadata: &Metadata) -> Result<KnownIds, AllocError>
    ensures pairs { IfOk result (λ known. known.pairs ≡ known_pairs metadata.now) }
    ensures last { IfOk result (λ known. known.last ≡ metadata.now.last_column_id) }
{
    let mut pairs = Vec::new(alloc);
    for held in metadata.schemas.as_slice() {
        let mut more = path_ids(alloc, &held.1, &held.2)?;
        pairs.append(&mut more)?;
    }
    Ok(KnownIds {
        pairs: Items::from_vec(pairs),
        last: metadata.last_column_id,
    })
}

/// Why a schema's column paths get no field ids: `Limit` where a new one would pass the greatest, and
/// else want of memory.
fn error_of_ids(error: MapError) -> TargetError
    ensures { result ≡ error_of_ids error }
{
    match error {
        MapError::Limit { .. } => TargetError::Limit {
            which: LimitKind::Versions,
            number: MAX_ICEBERG_VERSION,
        },
        _ => TargetError::Memory,
    }
}

/// The Image of a schema in Iceberg's types with its field ids: those of the held schemas, and new
/// ones behind the last that was given. `Limit` where a new one would pass the greatest.
fn image_of(
    alloc: Global,
    metadata: &Metadata,
    schema: &Schema,
) -> Result<(Schema, Ids), TargetError>
    ensures image { IfOk result (λ image. image.0 ≡ wide_columns schema.now) }
    ensures ids { IfOk result (λ image. ids_for (known_pairs metadata.now)
        metadata.now.last_column_id (column_paths schema.now) ≡ Ok image.1) }
    ensures fits { IfOk result (λ image. IsSound schema.now → IsWithinLimits schema.now
        → FitsIceberg image.0 image.1) }
    ensures refusal { IfErr result (IsSchemaRefusal metadata.now schema.now) }
{
    let known = known_ids(alloc, metadata)?;
    match to_iceberg(alloc, schema, &known) {
        Ok(image) => Ok(image),
        Err(error) => Err(error_of_ids(error)),
    }
}

fn has_id(schema: &(i32, Schema, Ids), id: i32) -> bool
    ensures { result ≡ int_eq schema.now.0 id }
{
    schema.0 == id
}

/// The place of the schema of this id.
fn place_of(schemas: &[(i32, Schema, Ids)], id: i32) -> Option<usize>
    ensures { option_and_then (slice_get schemas.now) result ≡ held_schema schemas.now id }
{
    for (place, held) in schemas.iter().enumerate() {
        if has_id(held, id) {
            return Some(place);
        }
    }
    None
}

/// The place of the current schema among those that are held.
fn current_place(metadata: &Metadata) -> Option<usize>
    ensures { option_and_then (slice_get metadata.now.schemas) result
        ≡ current_schema metadata.now }
{
    place_of(metadata.schemas.as_slice(), metadata.current_schema)
}

fn is_same(schema: &Schema, other: &Schema) -> bool
    ensures { IsTrue result ↔ (schema.now ≡ other.now) }
{
    schema == other
}

fn greater(last: i32, id: i32) -> i32
    ensures { result ≡ int_max last id }
{
    last.max(id)
}

/// The greatest of the ids, and the last one that was given where that is greater.
fn last_id(last: i32, ids: &[i32]) -> i32
    ensures { result ≡ fold int_max last ids.now }
{
    let mut greatest = last;
    for id in ids {
        greatest = greater(greatest, *id);
    }
    greatest
}

/// The place of the current schema where it is this one.
fn same_place(metadata: &Metadata, image: &Schema) -> Option<usize>
    ensures { MatchOption result ((current : HeldSchema) → current_schema metadata.now ≡ Some current → current.1 ≡ image.now → ⊥)
        (λ place. (current : HeldSchema) × (current_schema metadata.now ≡ Some current) × (current.1 ≡ image.now) × (slice_get metadata.now.schemas place ≡ Some current)) }
{
    let place = current_place(metadata)?;
    let current = metadata.schemas.get(place)?;
    if is_same(&current.1, image) {
        Some(place)
    } else {
        None
    }
}

/// Holds a schema with these field ids behind the others, as the current one. Its id is the next one.
fn add_schema(metadata: &mut Metadata, image: Schema, ids: Ids) -> Result<usize, AllocError>
    ensures { IfOk result (λ place. (place ≡ length metadata.old.schemas)
        × (metadata.new ≡ record metadata.old { schemas = metadata.old.schemas ++ (pos place, image, ids) ∷ []; current_schema = pos place; last_column_id = fold int_max metadata.old.last_column_id ids })) }
{
    let place = metadata.schemas.len();
    let Ok(id) = i32::try_from(place) else {
        return Err(AllocError);
    };
    metadata.last_column_id = last_id(metadata.last_column_id, ids.as_slice());
    metadata.current_schema = id;
    metadata.schemas.push((id, image, ids))?;
    Ok(place)
}

/// Lets the metadata of a new version hold the Image of the table's schema, as the current one, and
/// gives its place among those that are held. `Limit` where a new field id would pass the greatest.
pub fn hold_schema(
    alloc: Global,
    metadata: &mut Metadata,
    schema: &Schema,
) -> Result<usize, TargetError>
    ensures held { IfOk result (λ place. (next : Schemas)
        × AreNextSchemas metadata.old schema.now next
        × (metadata.new ≡ with_schemas metadata.old next)
        × (slice_get metadata.new.schemas place ≡ Some next.current)) }
    // A schema that comes to those that are held can be read.
    ensures fits { IfOk result (λ place. IsSound schema.now → IsWithinLimits schema.now
        → (s : HeldSchema) → slice_get metadata.new.schemas place ≡ Some s
        → Contains metadata.old.schemas s ⊎ FitsIceberg s.1 s.2) }
    ensures refusal { IfErr result (IsSchemaRefusal metadata.old schema.now) }
{
    let (image, ids) = image_of(alloc, metadata, schema)?;
    if let Some(place) = same_place(metadata, &image) {
        return Ok(place);
    }
    Ok(add_schema(metadata, image, ids)?)
}
