//! The Image of a schema in Iceberg, with field ids that stay.

ghost use Rattle.std.specs.Prelude.{◌≡◌, ◌++◌, ◌∷◌, [], IfOk, IfErr, OnOk, Some};
ghost use Rattle.table_history.specs.declared.kind.Kind.TheVariants.{Iceberg};
ghost use Rattle.lake_basics.specs.Outcome.{GivesUnlessMemory};
ghost use Rattle.schema_map.specs.Errors.{is_memory};
ghost use Rattle.schema_map.specs.Image.{wide_columns, image};
ghost use Rattle.iceberg_field_ids.specs.OwnIds.{AreKnown, AreDistinct, KeepsKnown};
ghost use Rattle.schema_map.specs.IcebergFits.{AreIds};
ghost use Rattle.iceberg_field_ids.specs.IdMap.{id_at, HoldsIds};
ghost use Rattle.schema_map.specs.IcebergFits.{FitsIceberg};
ghost use Rattle.table_history.specs.Sound.{IsSound};
ghost use Rattle.table_history.specs.SchemaSize.{IsWithinLimits};
ghost use Rattle.schema_map.specs.Paths.{column_paths};
ghost use Rattle.iceberg_field_ids.specs.Ids.{next_id, id_step};
ghost use Rattle.iceberg_field_ids.specs.Ids.{ids_for, new_count, new_ids, ids_after, PassesGreatest};
ghost use Rattle.iceberg_field_ids.specs.Ids.{HasNoIds};

use crate::wide::wide_columns;
use lake_basics::limits::MAX_ICEBERG_VERSION;
use lake_basics::{Items, Text};
use schema_map::{ColumnPath, Ids, MapError, column_paths};
use std::alloc::{AllocError, Global};
use std::collections::BTreeMap;
use table_history::{LimitKind, Schema};

/// The field ids that column paths have, and the last id that was given.
#[derive(Drop)]
pub struct KnownIds {
    pub pairs: Items<(ColumnPath, i32)>,
    pub last: i32,
}

/// The known ids by their paths. Of two pairs with one path the first stands.
fn ids_by_path<'a>(
    alloc: Global,
    known: &'a [(ColumnPath, i32)],
) -> Result<BTreeMap<&'a [Text], &'a i32>, AllocError>
    ensures { IfOk result (λ m. HoldsIds m known.now) }
{
    let mut found = BTreeMap::new(alloc);
    let mut place = known.len();
    while place > 0 {
        place -= 1;
        let pair = &known[place];
        found.insert(pair.0.as_slice(), &pair.1)?;
    }
    Ok(found)
}

fn known_id<'a>(found: &BTreeMap<&'a [Text], &'a i32>, path: &'a ColumnPath) -> Option<i32>
    ensures { result ≡ id_at found.now path.now }
{
    found.get(&path.as_slice()).copied().copied()
}

/// The greatest field id, which is Iceberg's greatest number of 32 bits.
const MAX_FIELD_ID: i32 = MAX_ICEBERG_VERSION as i32;

fn next_id(last: i32) -> Result<i32, MapError>
    ensures { GivesUnlessMemory is_memory (λ id. id) result (next_id last) }
{
    if last < MAX_FIELD_ID {
        Ok(last + 1)
    } else {
        Err(MapError::Limit {
            which: LimitKind::Versions,
        })
    }
}

/// The id of a path and the last id then: a known id, or the next.
fn id_step(last: i32, known: Option<i32>) -> Result<(i32, i32), MapError>
    ensures { GivesUnlessMemory is_memory (λ p. p) result (id_step last known) }
{
    match known {
        Some(id) => Ok((id, last)),
        None => {
            let id = next_id(last)?;
            Ok((id, id))
        }
    }
}

#[tactic(auto, using(crate::proofs::IdRange::pushed_are))]
fn push_id(ids: &mut Vec<i32>, id: i32) -> Result<(), AllocError>
    ensures items { OnOk result (ids.new.items ≡ ids.old.items ++ id ∷ []) }
    ensures are { OnOk result (AreIds ids.old.items → AreIds ids.new.items) }
{
    ids.push(id)?;
    Ok(())
}

fn ids_for<'a>(alloc: Global, known: &'a KnownIds, paths: &'a [ColumnPath]) -> Result<Ids, MapError>
    ensures given { GivesUnlessMemory is_memory (λ ids. ids) result
        (ids_for known.now.pairs known.now.last paths.now) }
    ensures are { IfOk result (λ ids. AreIds ids) }
{
    let found = ids_by_path(alloc, known.pairs.as_slice())?;
    let mut ids = Vec::with_capacity(alloc, paths.len())?;
    let mut last = known.last;
    for path in paths {
        let (id, last_given) = id_step(last, known_id(&found, path))?;
        push_id(&mut ids, id)?;
        last = last_given;
    }
    Ok(Items::from_vec(ids))
}

fn image_and_ids(
    alloc: Global,
    schema: &Schema,
    known: &KnownIds,
) -> Result<(Schema, Ids), MapError>
    ensures image { IfOk result (λ p. p.0 ≡ wide_columns schema.now) }
    ensures ids { GivesUnlessMemory is_memory (λ p. p.1) result
        (ids_for known.now.pairs known.now.last (column_paths schema.now)) }
    ensures are { IfOk result (λ p. AreIds p.1) }
{
    let paths = column_paths(alloc, schema)?;
    let ids = ids_for(alloc, known, paths.as_slice())?;
    let columns = wide_columns(alloc, schema.columns())?;
    Ok((Schema::new(columns), ids))
}

/// The Image of a schema in Iceberg, and its field ids: a known column path keeps its id, and the
/// others take the next ones, depth first.
pub fn to_iceberg(
    alloc: Global,
    schema: &Schema,
    known: &KnownIds,
) -> Result<(Schema, Ids), MapError>
    ensures image { IfOk result (λ p. image Iceberg schema.now ≡ Some p.0) }
    ensures ids { GivesUnlessMemory is_memory (λ p. p.1) result
        (ids_for known.now.pairs known.now.last (column_paths schema.now)) }
    // A known column path keeps its id.
    ensures keeps { IfOk result (λ p. KeepsKnown known.now.pairs (column_paths schema.now) p.1) }
    // The ids of the others are those behind the last one, in order.
    ensures next { IfOk result (λ p. new_ids known.now.pairs (column_paths schema.now) p.1
        ≡ ids_after known.now.last (new_count known.now.pairs (column_paths schema.now))) }
    // It refuses where a new id would pass the greatest one, and nowhere else.
    ensures room { IfOk result
        (λ _. PassesGreatest known.now.pairs known.now.last (column_paths schema.now) → ⊥) }
    ensures limit { IfErr result
        (λ e. HasNoIds known.now.pairs known.now.last (column_paths schema.now) e) }
    // No two column paths share an id.
    ensures own_ids { IfOk result (λ p. AreKnown known.now.pairs known.now.last
        → IsSound schema.now → AreDistinct p.1) }
    // `iceberg_json` spells the Image with these ids, and `from_iceberg` gives both back.
    ensures fits { IfOk result (λ p. IsSound schema.now → IsWithinLimits schema.now
        → FitsIceberg p.0 p.1) }
    // What the Image reads back as has that Image too.
    ensures settled { IfOk result (λ p. image Iceberg p.0 ≡ Some p.0) }
{
    image_and_ids(alloc, schema, known)
}
