//! The columns of a schema that a table is partitioned by.
ghost use Rattle.std.specs.Prelude.{◌≡◌, ◌↔◌, List, ℕ, IfOk, IsTrue, map};
ghost use Rattle.std.specs.List.{IsDistinct, list_any};
ghost use Rattle.std.specs.Str.{bytes_eq};
ghost use Rattle.avro_schema.specs.Names.{are_distinct};
ghost use Rattle.table_history.specs.SchemaView.{columns_view};
ghost use Rattle.partition_map.specs.Columns.{column_kind, HasOtherKind, kind_in, is_same_kind, is_other_kind, has_other_kind};

use crate::kind::{PartKind, part_kind};
use indexmap::{IndexMap, IndexSet};
use lake_basics::Text;
use std::alloc::{AllocError, Global};
use table_history::{Column, Schema};

type KindsByName<'a> = IndexMap<&'a str, Option<PartKind>>;

/// Whether no two of the names are one. Time grows with their count alone.
pub fn are_distinct(alloc: Global, names: &[Text]) -> Result<bool, AllocError>
    ensures value { IfOk result (λ distinct. distinct ≡ are_distinct names.now) }
    ensures distinct { IfOk result (λ distinct. IsTrue distinct ↔ IsDistinct bytes_eq names.now) }
{
    let mut seen = IndexSet::new(alloc);
    for name in names {
        if !seen.insert(name.as_str())? {
            return Ok(false);
        }
    }
    Ok(true)
}

/// The kind of the top-level column of each name, in the order of the names. None where there is no
/// such column, or where its type can't be that of a partition column.
pub fn column_kinds(
    alloc: Global,
    schema: &Schema,
    names: &[Text],
) -> Result<Vec<Option<PartKind>>, AllocError>
    ensures { IfOk result (λ kinds. kinds.items ≡ map (column_kind schema.now) names.now) }
{
    let by_name = kinds_by_name(alloc, schema.columns())?;
    let mut kinds = Vec::with_capacity(alloc, names.len())?;
    for name in names {
        kinds.push(kind_of(&by_name, name.as_str()))?;
    }
    Ok(kinds)
}

/// Whether one of the columns has a kind in the schema before, and another one in the schema after.
pub fn has_other_kind(
    alloc: Global,
    before: &Schema,
    after: &Schema,
    names: &[Text],
) -> Result<bool, AllocError>
    ensures value { IfOk result (λ other. other ≡ has_other_kind before.now after.now names.now) }
    ensures other { IfOk result
        (λ other. IsTrue other ↔ HasOtherKind before.now after.now names.now) }
{
    let old = kinds_by_name(alloc, before.columns())?;
    let new = kinds_by_name(alloc, after.columns())?;
    Ok(differ(&old, &new, names))
}

// Whether one of the columns has different kinds in the two maps.
fn differ(old: &KindsByName, new: &KindsByName, names: &[Text]) -> bool
    ensures { result
        ≡ list_any (λ name. is_other_kind (kind_in old.now name) (kind_in new.now name)) names.now }
{
    names.iter().any(|name| is_other_kind(kind_of(old, name.as_str()), kind_of(new, name.as_str())))
}

// The kinds of the columns by name. Where two have one name, the first counts.
fn kinds_by_name<'a>(alloc: Global, columns: &'a [Column]) -> Result<KindsByName<'a>, AllocError>
    ensures { IfOk result (λ kinds. (name : List ℕ) →
        kind_in kinds name ≡ column_kind (columns_view columns.now) name) }
{
    let mut kinds = IndexMap::with_capacity(alloc, columns.len())?;
    for column in columns {
        if !kinds.contains_key(column.name.as_str()) {
            kinds.insert(column.name.as_str(), part_kind(&column.kind))?;
        }
    }
    Ok(kinds)
}

fn kind_of(kinds: &KindsByName, name: &str) -> Option<PartKind>
    ensures { result ≡ kind_in kinds.now name.now }
{
    match kinds.get(name) {
        Some(kind) => *kind,
        None => None,
    }
}

fn is_other_kind(old: Option<PartKind>, new: Option<PartKind>) -> bool
    ensures { result ≡ is_other_kind old new }
{
    match old {
        None => false,
        Some(old) => match new {
            None => false,
            Some(new) => !is_same_kind(old, new),
        },
    }
}

fn is_same_kind(kind: PartKind, other: PartKind) -> bool
    ensures { result ≡ is_same_kind kind other }
{
    kind == other
}
